// What a settlement tests, on plain values.
ghost use Rattle.std.specs.Prelude.{◌≡◌};
ghost use Rattle.settlement.specs.Settlement.{any_won, in_chips};

// Of the first n places; there is none from 16 on, and what is not there is not 0.
pub fn any_won(winnings: [f32; 16], n: usize) -> bool
    ensures { result ≡ any_won winnings n }
{
    if 16 < n {
        return true;
    }
    winnings[..n].iter().any(|x| *x != 0.0)
}

pub fn in_chips(n: usize, stacks: [f32; 16], bets: [f32; 16], starting: [f32; 16], pot: f32) -> bool
    ensures { result ≡ in_chips n stacks bets starting pot }
{
    let k = chips::chips_in(pot);
    let held = chips::sum_chips(stacks, n) + k;
    let sums = (held <= 8000) & (k == chips::sum_chips(bets, n));
    let rest = chips::all_whole(starting, n) & (chips::is_whole(pot) & sums);
    chips::all_whole(stacks, n) & (chips::all_whole(bets, n) & rest)
}
