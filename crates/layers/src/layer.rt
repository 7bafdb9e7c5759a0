// A hand looked at over its seats: who contends, the levels, what was put in, and who wins a layer.
ghost use Rattle.std.specs.Prelude.{◌≡◌, ◌≤◌, ◌<◌, ℕ, Bool, cond};
ghost use Rattle.commons.specs.Folds.{any_to, most_to};
ghost use Rattle.layers.specs.Settlement.{contends, level_below, put_in, best};
ghost use Rattle.layers.specs.Settlement as Settlement;

use crate::Hand;
use crate::pick::only;
use seats::bits::{has, with_if};

// The largest of what `of` tells of the first n seats: 0 of a seat that does not count.
fn most<F: Fn(usize) -> u32>(n: usize, of: F) -> u32
    requires { (i : ℕ) → i < n → F.pre of i }
    ensures { (pass : ℕ → Bool) (key : ℕ → ℕ) → ((i x : ℕ) → i < n → F.post of i x → x ≡ cond (pass i) (key i) 0) → result ≡ most_to n pass key }
{
    // i is a seat, and no list is looked at here: what it comes to is the closure's.
    let mut most = 0;
    for i in 0..n {
        most = most.max(of(i));
    }
    most
}

// A hand of at most 16 seats: no seat is looked for behind the lists.
#[derive(Clone, Copy)]
pub struct Seated {
    hand: Hand,
    ghost few: { hand.n ≤ 16 },
}

impl Seated {
    pub fn new(hand: Hand) -> Seated
        requires { hand.n ≤ 16 }
        ensures { result.hand ≡ hand }
    {
        Seated { hand }
    }

    // Whether anybody contends.
    pub fn contested(self) -> bool
        ensures { result ≡ any_to self.hand.n (contends self.hand) }
    {
        let h = self.hand;
        let who = h.active | h.all_in;
        (0..h.n).any(|i| has(who, i))
    }

    // The largest hand bet of a contender below u.
    pub fn level_below(self, u: u32) -> u32
        ensures { result ≡ level_below self.hand u }
    {
        let h = self.hand;
        let who = h.active | h.all_in;
        most(h.n, |i| only(has(who, i) & (h.bets[i] < u), h.bets[i]))
    }

    // What all seats put in up to u.
    pub fn put_in(self, u: u32) -> u64
        ensures { result ≡ put_in self.hand u }
    {
        let h = self.hand;
        h.bets[..h.n].iter().map(|b| u64::from((*b).min(u))).sum()
    }

    // The best rank of those who reached u.
    fn best_rank(self, u: u32) -> u32
        ensures { result ≡ best self.hand u }
    {
        let h = self.hand;
        let who = h.active | h.all_in;
        most(
            h.n,
            |i| only(has(who, i) & (u <= h.bets[i]), u32::from(h.ranks[i])),
        )
    }

    // Those who win the layer under u.
    pub fn winners(self, u: u32) -> u16
        ensures { result ≡ Settlement.winners self.hand u }
    {
        let h = self.hand;
        let who = h.active | h.all_in;
        let best = self.best_rank(u);
        h.bets[..h.n]
            .iter()
            .zip(&h.ranks[..h.n])
            .enumerate()
            .fold(0, |set, (i, (b, k))| {
                with_if(has(who, i) & (u <= *b) & (u32::from(*k) == best), set, i)
            })
    }
}
