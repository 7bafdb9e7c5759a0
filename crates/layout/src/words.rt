// A place of a host's list as what it stands for, and a number as a word. A place that is not there is 0, or a NaN; a number that does not fit is cut:
// `standing` has refused both before.
ghost use Rattle.std.specs.Prelude.{◌≡◌, cond, ◌%◌, ◌<◌, ltb};
ghost use Rattle.layout.specs.Words.{word_at, set_at, byte_at, flag_at, round_of, round_at, float_at, sixteen_at};

use rounds::Round;

// ---- in

pub fn word_at(numbers: &[u32], k: usize) -> u32
    ensures { result ≡ word_at numbers.now k }
{
    numbers.get(k).copied().unwrap_or(0)
}

// A word as a number, and its lowest digits as a set of seats.
pub fn number_of(word: u32) -> usize
    ensures { result ≡ word }
{
    // By `as`, as in Rust: usize has no From of u32.
    word as usize
}

pub fn number_at(numbers: &[u32], k: usize) -> usize
    ensures { result ≡ word_at numbers.now k }
{
    number_of(word_at(numbers, k))
}

pub fn set_of(word: u32) -> u16
    ensures { result ≡ word % 65536 }
{
    (word % 65536) as u16
}

pub fn set_at(numbers: &[u32], k: usize) -> u16
    ensures { result ≡ set_at numbers.now k }
{
    set_of(word_at(numbers, k))
}

fn byte_of(word: u32) -> u8
    ensures { result ≡ word % 256 }
{
    (word % 256) as u8
}

pub fn byte_at(numbers: &[u32], k: usize) -> u8
    ensures { result ≡ byte_at numbers.now k }
{
    byte_of(word_at(numbers, k))
}

pub fn flag_at(numbers: &[u32], k: usize) -> bool
    ensures { result ≡ flag_at numbers.now k }
{
    word_at(numbers, k) == 1
}

// Whether a word is below a limit.
pub fn is_below(numbers: &[u32], k: usize, limit: u32) -> bool
    ensures { result ≡ ltb (word_at numbers.now k) limit }
{
    word_at(numbers, k) < limit
}

// The round of a number, the last where there is none such: no number is refused, so it is no TryFrom.
fn round_of(word: u32) -> Round
    ensures { result ≡ round_of word }
{
    match word {
        0 => Round::Starting,
        1 => Round::Ante,
        2 => Round::DealPreflop,
        3 => Round::Preflop,
        4 => Round::DealFlop,
        5 => Round::Flop,
        6 => Round::DealTurn,
        7 => Round::Turn,
        8 => Round::DealRiver,
        9 => Round::River,
        10 => Round::Showdown,
        _ => Round::Complete,
    }
}

pub fn round_at(numbers: &[u32], k: usize) -> Round
    ensures { result ≡ round_at numbers.now k }
{
    round_of(word_at(numbers, k))
}

pub fn float_at(floats: &[f32], k: usize) -> f32
    ensures { result ≡ float_at floats.now k }
{
    floats.get(k).copied().unwrap_or(f32::NAN)
}

// The sixteen from a place on.
pub fn sixteen_at(floats: &[f32], k: usize) -> [f32; 16]
    ensures { result ≡ sixteen_at floats.now k }
{
    let mut list: [f32; 16] = [0.0; 16];
    commons::copying::copy(&mut list, 0, floats, k, 16);
    list
}

// ---- out

pub fn word_of(n: usize) -> u32
    ensures { result ≡ n % 4294967296 }
{
    (n % 4294967296) as u32
}

pub fn word_of_set(set: u16) -> u32
    ensures value { result ≡ set }
    ensures low { result < 65536 }
{
    u32::from(set)
}

pub fn word_of_byte(n: u8) -> u32
    ensures value { result ≡ n }
    ensures low { result < 256 }
{
    u32::from(n)
}

pub fn word_of_flag(is: bool) -> u32
    ensures { result ≡ cond is 1 0 }
{
    u32::from(is)
}
