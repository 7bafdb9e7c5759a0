// A set of seats as the number that holds it: seat i is the binary digit i. Total: no seat from 16 on is in any set.
ghost use Rattle.std.specs.Prelude.{◌≡◌, ◌^◌, ltb};
ghost use Rattle.seats.specs.Bits as Bits;

// Whether seat i is in the set.
pub fn has(set: u16, i: usize) -> bool
    ensures { result ≡ Bits.has set i }
{
    if 16 <= i {
        return false;
    }
    let b = set >> i;
    b % 2 == 1
}

// The seats below n.
pub fn up_to(n: usize) -> u16
    ensures { result ≡ Bits.up_to n }
{
    if 16 <= n {
        return 0xffff;
    }
    (1u16 << n) - 1
}

// How many seats are in the set.
pub fn count(set: u16) -> usize
    ensures { result ≡ Bits.count_to 16 set }
{
    let c = u16::count_ones(set);
    c as usize
}

// The set with seat i.
pub fn with(set: u16, i: usize) -> u16
    ensures { result ≡ Bits.with set i }
{
    if i < 16 {
        let one = 1u16 << i;
        return set | one;
    }
    set
}

// The set without seat i.
pub fn without(set: u16, i: usize) -> u16
    ensures { result ≡ Bits.without set i }
{
    if i < 16 {
        let rest = 0xffff - (1u16 << i);
        return set & rest;
    }
    set
}

// The set with seat i where the test holds, and without it.
pub fn with_if(test: bool, set: u16, i: usize) -> u16
    ensures { result ≡ Bits.with_if test set i }
{
    if test { with(set, i) } else { set }
}

pub fn without_if(test: bool, set: u16, i: usize) -> u16
    ensures { result ≡ Bits.without_if test set i }
{
    if test { without(set, i) } else { set }
}

// Whether no seat from n on is in the set.
pub fn is_below(set: u16, n: usize) -> bool
    ensures { result ≡ ltb set (2 ^ n) }
{
    if 16 <= n {
        return true;
    }
    set < (1u16 << n)
}

// The first seat in the set from a place on, 16 where there is none: the lowest digit of what is left when the seats before it are shifted out.
pub fn next(set: u16, from: usize) -> usize
    ensures { result ≡ Bits.next_from set from }
{
    if 16 <= from {
        return 16;
    }
    let rest = set >> from;
    let zeros = u16::trailing_zeros(rest);
    let to = from + zeros as usize;
    if to < 16 { to } else { 16 }
}
