// The list of journals: a hand is spelled, written, damaged and read.
use crate::agreeing::Answer;
use crate::journal_hand::Hand;
use crate::lists::List;
use crate::reading::{Mark, Tokens};
use crate::{journal_entries, journal_image, journal_reading, journal_writing};

#[derive(Drop)]
pub struct Journals {
    hand: Hand,
}

impl Journals {
    pub fn new() -> Journals {
        Journals { hand: Hand::new() }
    }
}

// Lines that ask of the bytes that stand.
fn ask_bytes(letter: u8, line: &mut Tokens, bytes: &[u8]) -> Option<Answer> {
    match letter {
        b'B' => journal_reading::say_block(line, bytes),
        b'c' => journal_reading::say_check(line, bytes),
        b'R' => journal_reading::read(line, bytes),
        b'r' => journal_reading::read_block(line, bytes),
        b'l' => journal_reading::say_line(line, bytes),
        b'e' => journal_reading::say_entry(line, bytes),
        _ => None,
    }
}

impl List for Journals {
    fn ask(&mut self, line: &mut Tokens) -> Option<Answer> {
        let hand = &mut self.hand;
        let Mark(letter) = line.read()?;
        match letter {
            b'#' => {
                line.text();
                Some(Answer::Loaded)
            }
            b'K' => hand.begin(line),
            b'E' => journal_entries::append(line, hand),
            b'p' => journal_entries::put_line(line, hand),
            b'W' => journal_writing::write(line, hand),
            b'O' => journal_writing::restore(line, hand),
            b'y' => journal_writing::lay(line, hand),
            b'C' => journal_image::change_all(line, hand),
            b'L' => hand.cut(line),
            b'S' => journal_image::swap(line, hand),
            b'M' => journal_image::repeat(line, hand),
            b'P' => journal_image::lay(line, hand),
            _ => ask_bytes(letter, line, hand.bytes()),
        }
    }
}
