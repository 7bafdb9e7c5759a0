// What a line says is held against what our functions answer.
use crate::reading::{Mark, Token, Tokens, Word};
use crate::words;

// What a line that agrees says: an answer, a refusal by its number, or what it loads.
#[derive(Clone, Copy)]
pub enum Answer {
    Given,
    Refused(u8),
    Loaded,
}

// Where a line that loads something is counted, behind the refusals.
const LOADED: u8 = 63;

impl From<Answer> for u8 {
    fn from(answer: Answer) -> u8 {
        match answer {
            Answer::Given => 0,
            Answer::Refused(number) => number,
            Answer::Loaded => LOADED,
        }
    }
}

impl From<u8> for Answer {
    fn from(number: u8) -> Answer {
        match number {
            0 => Answer::Given,
            LOADED => Answer::Loaded,
            _ => Answer::Refused(number),
        }
    }
}

// The line says a float: any of the zeros, any of the NaNs.
pub fn says_float(line: &mut Tokens, ours: f32) -> Option<()> {
    let Word(said) = line.read()?;
    words::is_same_float(said, words::word_of(ours)).then_some(())
}

// The place of an answer that is given.
pub fn answered(line: &mut Tokens) -> Option<()> {
    line.says(Mark(b'='))
}

// A line whose answer is one value.
pub fn given<T: Token + PartialEq + Drop>(line: &mut Tokens, ours: T) -> Option<Answer> {
    answered(line)?;
    line.says(ours)?;
    Some(Answer::Given)
}

pub fn refused(line: &mut Tokens, number: u8) -> Option<Answer> {
    line.says(Mark(b'!'))?;
    line.says(number)?;
    Some(Answer::Refused(number))
}
