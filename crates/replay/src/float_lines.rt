// The list of the helpers on floats. Their answers are held to it bit for bit.
use crate::agreeing::Answer;
use crate::lists::List;
use crate::reading::{Mark, Tokens, Word};
use crate::{agreeing, words};

#[derive(Drop)]
pub struct Floats;

// A float with the same bits: of two zeros each is itself.
fn given_bits(line: &mut Tokens, ours: f32) -> Option<Answer> {
    agreeing::given(line, Word(words::word_of(ours)))
}

impl List for Floats {
    fn ask(&mut self, line: &mut Tokens) -> Option<Answer> {
        let Mark(letter) = line.read()?;
        let x: f32 = line.read()?;
        match letter {
            b'x' => {
                let y: f32 = line.read()?;
                given_bits(line, floats::max(x, y))
            }
            b'm' => {
                let y: f32 = line.read()?;
                given_bits(line, floats::min(x, y))
            }
            b't' => given_bits(line, floats::tol(x)),
            b'a' => given_bits(line, floats::abs(x)),
            b's' => agreeing::given(line, floats::is_sign_negative(x)),
            b'n' => agreeing::given(line, floats::is_nan(x)),
            b'z' => agreeing::given(line, floats::is_near_zero(x)),
            _ => None,
        }
    }
}
