// What a line asks with, as our functions take it.
use crate::reading::{Token, Tokens, Word};
use crate::words;
use keys::HandKey;
use seats::PlayerBitSet;

// An amount.
impl Token for f32 {
    fn parse(token: &[u8]) -> Option<f32> {
        let Word(word) = Word::parse(token)?;
        Some(words::float_of(word))
    }
}

impl Token for PlayerBitSet {
    fn parse(token: &[u8]) -> Option<PlayerBitSet> {
        Some(PlayerBitSet {
            set: u16::parse(token)?,
        })
    }
}

// The key of a hand: table code, year, hand number.
pub fn read_key(line: &mut Tokens) -> Option<HandKey> {
    Some(HandKey {
        code: line.read()?,
        year: line.read()?,
        hand: line.read()?,
    })
}
