// Settlement in whole chips: what a hand awards to each seat, layer by layer.
#![tactic(auto)]

ghost use Rattle.std.specs.Prelude.{◌≡◌, true};
ghost use Rattle.layers.specs.Settlement.{is_payable, awards_of};

mod layer;
mod part;
mod pick;

use layer::Seated;

// A hand to be settled: n seats, those active and those all in, the seat from which odd chips start, each seat's hand bet and rank.
#[derive(Clone, Copy)]
pub struct Hand {
    pub n: usize,
    pub active: u16,
    pub all_in: u16,
    pub first: usize,
    pub bets: [u32; 16],
    pub ranks: [u16; 16],
}

// Whether a hand can be paid out: at most 16 seats, `first` among them, at most 8,000 chips, and a contender.
pub fn is_payable(h: Hand) -> bool
    ensures { result ≡ is_payable h }
{
    if h.n <= 16 {
        let seated = Seated::new(h);
        // up to 8,001 of each bet shows whether the pot passes 8,000
        let chips = seated.put_in(8001);
        let someone = seated.contested();
        return (h.first < h.n) & ((chips <= 8000) & someone);
    }
    false
}

// What each seat is awarded; nothing where the hand cannot be paid out.
pub fn awards(h: Hand) -> [u32; 16]
    ensures { result ≡ awards_of h }
{
    if is_payable(h) {
        return paid_out(h);
    }
    [0; 16]
}

// The layers are paid out from the top down: `held` is what was put in up to u, all of it at the top.
fn paid_out(h: Hand) -> [u32; 16]
    requires { is_payable h ≡ true }
    ensures { result ≡ awards_of h }
{
    let n = h.n;
    let first = h.first;
    let seated = Seated::new(h);
    let mut paid = [0u32; 16];
    let mut u = seated.level_below(8001);
    let mut held = seated.put_in(8001);
    // By `loop`: the layers go from the top down, level by level, and no index counts them.
    loop {
        let l = seated.level_below(u);
        let low = seated.put_in(l);
        let winners = seated.winners(u);
        let amount = (held - low) as u32;
        let more = part::shared(n, first, winners, amount, paid);
        if l == 0 {
            return more;
        }
        paid = more;
        u = l;
        held = low;
    }
}
