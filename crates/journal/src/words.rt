// Numbers as bytes, the lowest first.
ghost use Rattle.std.specs.Prelude.{◌≡◌, ◌+◌, ◌*◌, ◌≤◌, length};
ghost use Rattle.journal.specs.Entry.{two_at, four_at, is_letter, is_entry};
ghost use Rattle.journal.specs.Block.{zero_at, entry_fits};
ghost use Rattle.journal.specs.Put.{four_put};

// The letters of a hand's lines, as entries hold them.
pub const TABLE: u32 = b't' as u32;

pub const ADVANCE: u32 = b'n' as u32;

pub const FOLD: u32 = b'f' as u32;

pub const BET: u32 = b'b' as u32;

pub const FORCED: u32 = b'p' as u32;

pub const COMPLETE: u32 = b'x' as u32;

pub const SETTLE: u32 = b'w' as u32;

pub fn four(a: u8, b: u8, c: u8, d: u8) -> u32
    ensures { result ≡ a + b * 256 + c * 65536 + d * 16777216 }
{
    u32::from_le_bytes([a, b, c, d])
}

// A 32-bit number of two halves.
pub fn halves(low: u16, high: u16) -> u32
    ensures { result ≡ low + high * 65536 }
{
    u32::from(low) + u32::from(high) * 65536
}

// The number of 16 bits at a place.
pub fn two_at(b: &[u8], i: usize) -> u16
    requires { i + 2 ≤ length b.now }
    ensures { result ≡ two_at b.now i }
{
    u16::from_le_bytes([b[i], b[i + 1]])
}

// The number of 32 bits at a place.
pub fn four_at(b: &[u8], i: usize) -> u32
    requires { i + 4 ≤ length b.now }
    ensures { result ≡ four_at b.now i }
{
    four(b[i], b[i + 1], b[i + 2], b[i + 3])
}

// The four bytes of a number laid at a place.
pub fn put_four(b: &mut [u8], i: usize, w: u32)
    requires { i + 4 ≤ length b.old }
    ensures { b.new ≡ four_put b.old i w }
{
    b[i..i + 4].copy_from_slice(&w.to_le_bytes());
}

// Whether these places hold zeros.
pub fn is_zero(b: &[u8], at: usize, n: usize) -> bool
    requires { at + n ≤ length b.now }
    ensures { result ≡ zero_at b.now at n }
{
    b[at..at + n].iter().all(|x| *x == 0)
}

// Whether a word is a letter of a hand.
pub fn is_letter(w: u32) -> bool
    ensures { result ≡ is_letter w }
{
    (w == TABLE)
        | ((w == ADVANCE)
            | ((w == FOLD) | ((w == BET) | ((w == FORCED) | ((w == COMPLETE) | (w == SETTLE))))))
}

// Whether a word is an entry of a hand.
#[tactic(auto, unfolding(crate::specs::Entry::is_entry, crate::specs::Entry::is_number))]
pub fn is_entry(w: u32) -> bool
    ensures { result ≡ is_entry w }
{
    (w % 65536 == 0) | is_letter(w)
}

// Whether a word may stand in a used, or in an unused place.
pub fn entry_fits(used: bool, w: u32) -> bool
    ensures { result ≡ entry_fits used w }
{
    if used { is_entry(w) } else { w == 0 }
}
