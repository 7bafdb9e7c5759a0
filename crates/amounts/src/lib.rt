// Lists of amounts, 16 places each: how they are filled, cleared and taken together. A length above 16 counts as 16.
#![tactic(auto)]

ghost use Rattle.std.specs.Prelude.{◌≡◌, min};
ghost use Rattle.amounts.specs.Amounts.{of_slice, kept_to, cleared_to, sum_of, largest_of, above_of, invalid, any_invalid};

use commons::copying::copy;

// The amounts of a slice from place 0 on, zeros after them.
pub fn of_slice(s: &[f32]) -> [f32; 16]
    ensures { result ≡ of_slice s.now }
{
    let mut out: [f32; 16] = [0.0; 16];
    copy(&mut out, 0, s, 0, 16);
    out
}

// The list up to n, zeros from there on.
pub fn kept(list: [f32; 16], len: usize) -> [f32; 16]
    ensures { result ≡ kept_to len list }
{
    let mut out: [f32; 16] = [0.0; 16];
    copy(&mut out, 0, &list, 0, len);
    out
}

// Zeros up to n, the list from there on.
pub fn cleared(list: [f32; 16], len: usize) -> [f32; 16]
    ensures { result ≡ cleared_to len list }
{
    let mut out = list;
    out[..len.min(16)].fill(0.0);
    out
}

// The amounts added from place 0 on.
pub fn sum(list: [f32; 16], len: usize) -> f32
    ensures { result ≡ sum_of (min len 16) list }
{
    let mut total: f32 = 0.0;
    for x in &list[..len.min(16)] {
        total = total + *x;
    }
    total
}

// The largest of the amounts, 0 at least; a NaN does not count.
pub fn largest(list: [f32; 16], len: usize) -> f32
    ensures { result ≡ largest_of (min len 16) list }
{
    let mut top: f32 = 0.0;
    for x in &list[..len.min(16)] {
        top = floats::max(top, *x);
    }
    top
}

// How many amounts are above 0.
pub fn count_above_zero(list: [f32; 16], len: usize) -> u8
    ensures { result ≡ above_of (min len 16) list }
{
    let mut count = 0u8;
    for x in &list[..len.min(16)] {
        if *x > 0.0 {
            count += 1;
        }
    }
    count
}

// Below 0, or a NaN.
pub fn is_invalid(x: f32) -> bool
    ensures { result ≡ invalid x }
{
    (x < 0.0) | floats::is_nan(x)
}

// Whether some amount is below 0 or a NaN.
pub fn any_invalid(list: [f32; 16], len: usize) -> bool
    ensures { result ≡ any_invalid (min len 16) list }
{
    list[..len.min(16)].iter().any(|x| is_invalid(*x))
}
