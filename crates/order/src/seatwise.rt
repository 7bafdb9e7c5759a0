// The tests of good order that go seat by seat.
ghost use Rattle.std.specs.Prelude.{◌≤◌};
ghost use Rattle.order.specs.Seatwise.{Seatwise};

use seats::bits::has;

#[derive(Clone, Copy)]
pub struct Seats {
    pub covered: bool,
    pub holding: bool,
    pub playing: bool,
}

// Over the seats below n: a round bet is part of its hand bet, who is active has chips, who owes is active.
pub fn tested(
    n: usize,
    round: [f32; 16],
    hand: [f32; 16],
    stacks: [f32; 16],
    active: u16,
    owing: u16,
) -> Seats
    requires { n ≤ 16 }
    ensures { Seatwise n round hand stacks active owing result.covered result.holding result.playing }
{
    let mut bets = round[..n].iter().zip(&hand[..n]);
    Seats {
        covered: bets.all(|(r, h)| chips::chips_in(*r) <= chips::chips_in(*h)),
        holding: stacks[..n]
            .iter()
            .enumerate()
            .all(|(i, x)| !has(active, i) | (1 <= chips::chips_in(*x))),
        playing: (0..n).all(|i| !has(owing, i) | has(active, i)),
    }
}
