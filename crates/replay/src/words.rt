// A table in a list: the host's numbers, as far as the Rust's record has them, and after them its floats, by their bits.
use layout::places;

pub const WORDS: usize = places::ADDED + places::FLOATS;

pub type Words = [u32; WORDS];

pub const ZEROS: Words = [0; WORDS];

// The float of a word: every pattern of a NaN is the one NaN.
pub fn float_of(word: u32) -> f32 {
    if 0x7f80_0000 < word % 0x8000_0000 {
        return 0.0 / 0.0;
    }
    f32::from_bits(word)
}

// The word of a float: the lists have one pattern for every NaN.
pub fn word_of(x: f32) -> u32 {
    if floats::is_nan(x) {
        return 0x7fc0_0000;
    }
    f32::to_bits(x)
}

// Whether two words are the same float: two zeros are, and two NaNs.
pub fn is_same_float(a: u32, b: u32) -> bool {
    let x = a % 0x8000_0000;
    let y = b % 0x8000_0000;
    let are_zeros = (x == 0) & (y == 0);
    let are_nans = (0x7f80_0000 < x) & (0x7f80_0000 < y);
    (a == b) | are_zeros | are_nans
}

// Whether two words at a place are the same: bit for bit, or as what they stand for.
fn is_same_word(place: usize, a: u32, b: u32, by_bits: bool) -> bool {
    if by_bits | (place < places::ADDED) {
        return a == b;
    }
    is_same_float(a, b)
}

// Whether two tables are the same at every place.
pub fn is_same_table(a: &Words, b: &Words, by_bits: bool) -> bool {
    let pairs = a.iter().zip(b);
    pairs
        .enumerate()
        .all(|(place, (a, b))| is_same_word(place, *a, *b, by_bits))
}
