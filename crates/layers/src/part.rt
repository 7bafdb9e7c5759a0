// An amount shared among a set of seats.
ghost use Rattle.std.specs.Prelude.{◌≡◌, cond, ℕ, ◌+◌, ◌-◌, ◌<◌, ◌≤◌, leb, ltb, get_or};
ghost use Rattle.commons.specs.Filled.{filled};
ghost use Rattle.seats.specs.Bits.{count_to};
ghost use Rattle.layers.specs.Sharing.{share_of};

use crate::pick::only;
use seats::bits;

// How many of the set stand below seat k.
fn count_below(set: u16, k: usize) -> u32
    requires { k ≤ 16 }
    ensures { result ≡ count_to k set }
{
    bits::count(set & bits::up_to(k)) as u32
}

// How many come ahead of seat i, going round from seat `first`: of all w, f stand below `first` and k below i.
fn ahead(first: usize, i: usize, w: u32, f: u32, k: u32) -> u32
    requires f_le_k { first ≤ i → f ≤ k }
    requires f_le_w { f ≤ w }
    requires k_bound { w + k ≤ 32 }
    ensures { result ≡ cond (leb first i) (k - f) (w - f + k) }
{
    if first <= i {
        return k - f;
    }
    w - f + k
}

// What one seat gets: if it is in the set, an equal part, and an odd chip where p, those ahead of it, leave one.
fn seat_share(mine: bool, equal: u32, odd: u32, p: u32) -> u32
    requires { equal ≤ 8000 }
    ensures { (result ≡ cond mine (equal + cond (ltb p odd) 1 0) 0) × (result ≤ 8001) }
{
    let more = only(p < odd, 1);
    only(mine, equal + more)
}

// What was paid, with what each seat gets of an amount that the set shares.
pub fn shared(n: usize, first: usize, set: u16, amount: u32, paid: [u32; 16]) -> [u32; 16]
    requires n_bound { (n ≤ 16) × (first ≤ n) }
    requires set_nonzero { 0 < count_to n set }
    requires amount_bound { amount ≤ 8000 }
    requires by_index { (i : ℕ) → i < 16 → get_or paid i 0 ≤ 8000 }
    ensures { result ≡ filled 16 paid (λ i. get_or paid i 0 + share_of n first set amount i) }
{
    let w = count_below(set, n);
    let f = count_below(set, first);
    let equal = amount / w;
    let odd = amount % w;
    let mut k = 0u32;
    let mut out = paid;
    // By place: std says nothing of `iter_mut` beside another list.
    for (i, x) in paid.iter().enumerate() {
        let mine = bits::has(set, i);
        let p = ahead(first, i, w, f, k);
        out[i] = *x + seat_share(mine, equal, odd, p);
        k = k + only(mine, 1);
    }
    out
}
