// Amounts with what is paid to them, and the whole chips in them.
ghost use Rattle.std.specs.Prelude.{◌≡◌, ◌≤◌, pos, ◌-ℤ◌};
ghost use Rattle.settlement.specs.Hand.{counted_of};
ghost use Rattle.settlement.specs.Settlement.{raised, raised_all, rewards_of};

// All 16 amounts as chips.
pub fn counted(l: [f32; 16]) -> [u32; 16]
    ensures { result ≡ counted_of l }
{
    // an array's `map` was measured to take a third longer
    let mut out = [0u32; 16];
    for (i, x) in l.iter().enumerate() {
        out[i] = chips::chips_in(*x);
    }
    out
}

// An award of 0 writes nothing: a stack of -0.0 stays.
fn with_award(x: f32, award: u32) -> f32
    ensures { result ≡ raised x award }
{
    if award == 0 {
        return x;
    }
    x + std::num::nearest_u32_to_f32(award)
}

// The first n amounts with their awards.
pub fn with_awards(l: [f32; 16], awards: [u32; 16], n: usize) -> [f32; 16]
    requires { n ≤ 16 }
    ensures { result ≡ raised_all n l awards }
{
    // by place: of `iter_mut` beside another list the contracts of std say nothing
    let mut out = l;
    for (i, (x, award)) in l[..n].iter().zip(&awards[..n]).enumerate() {
        out[i] = with_award(*x, *award);
    }
    out
}

// A difference of chips, with its sign.
fn less(a: u32, b: u32) -> i32
    requires a_bound { a ≤ 8000 }
    requires b_bound { b ≤ 8000 }
    ensures { result ≡ pos a -ℤ pos b }
{
    a as i32 - b as i32
}

// Each seat's stack less its starting stack.
pub fn rewards(stacks: [f32; 16], starting: [f32; 16], n: usize) -> [i32; 16]
    requires { n ≤ 16 }
    ensures { result ≡ rewards_of n stacks starting }
{
    let mut out = [0i32; 16];
    // By place: std says nothing of `iter_mut` beside another list.
    for (i, (stack, start)) in stacks[..n].iter().zip(&starting[..n]).enumerate() {
        out[i] = less(chips::chips_in(*stack), chips::chips_in(*start));
    }
    out
}
