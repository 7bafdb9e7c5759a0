// Whole chips: which amounts are whole numbers 0 to 8,000, and how many chips they are. Total: an amount that is not whole is no chips.
#![tactic(auto)]

ghost use Rattle.std.specs.Prelude.{◌≡◌, min};
ghost use Rattle.chips.specs.Whole.{is_whole, chips_in, all_whole, sum_chips};

pub fn is_whole(x: f32) -> bool
    ensures { result ≡ is_whole x }
{
    if (0.0 <= x) & (x <= 8000.0) {
        let k = std::num::truncating_f32_to_u64(x) as u16;
        return k as f32 == x;
    }
    false
}

pub fn chips_in(x: f32) -> u32
    ensures { result ≡ chips_in x }
{
    if is_whole(x) {
        return std::num::truncating_f32_to_u64(x) as u32;
    }
    0
}

// Of the first n places; there is none from 16 on, and what is not there is not whole.
pub fn all_whole(l: [f32; 16], n: usize) -> bool
    ensures { result ≡ all_whole l n }
{
    if 16 < n {
        return false;
    }
    l[..n].iter().all(|x| is_whole(*x))
}

// Of the first n places; there is none from 16 on, and what is not there is no chips.
pub fn sum_chips(l: [f32; 16], n: usize) -> u32
    ensures { result ≡ sum_chips l n }
{
    l[..n.min(16)].iter().map(|x| chips_in(*x)).sum()
}
