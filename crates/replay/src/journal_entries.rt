// The entries of a hand as lines spell them: entry by entry, or line by line.
use crate::agreeing;
use crate::agreeing::Answer;
use crate::journal_hand::Hand;
use crate::reading::{Mark, Token, Tokens, Word};
use journal::laying::NotLaid;
use journal::tape;

// The most numbers of a line that is laid as one.
const NUMBERS: usize = 64;

// An entry: a letter is itself, a number decimal, and any other word a colon and eight hex digits.
#[derive(Clone, Copy, PartialEq, Eq)]
pub struct Entry(pub u32);

impl Token for Entry {
    fn parse(token: &[u8]) -> Option<Entry> {
        match token {
            [b':', word @ ..] => {
                let Word(word) = Word::parse(word)?;
                Some(Entry(word))
            }
            [letter] if letter.is_ascii_alphabetic() => Some(Entry(u32::from(*letter))),
            _ => Some(Entry(u32::from(u16::parse(token)?) * 0x1_0000)),
        }
    }
}

// One entry more, if there is room. A malformed one is put as 0.
fn put_entry(line: &mut Tokens, hand: &mut Hand) -> Option<()> {
    let place = hand.tape.get_mut(hand.used)?;
    let said = line.read();
    let Entry(entry) = said.unwrap_or(Entry(0));
    *place = entry;
    hand.used = hand.used.saturating_add(1);
    said?;
    Some(())
}

// The entries that are left of a line.
fn put_entries(line: &mut Tokens, hand: &mut Hand) -> Option<()> {
    // each entry takes a byte at least: no measure is needed
    for _ in 0..line.len() {
        if !line.has_more() {
            break;
        }
        put_entry(line, hand)?;
    }
    Some(())
}

// The line says how often its entries are appended.
pub fn append(line: &mut Tokens, hand: &mut Hand) -> Option<Answer> {
    let times: usize = line.read()?;
    let entries = *line;
    let mut put = Some(());
    // So many times, as the line says: nothing is counted but the turns.
    for _ in 0..times.min(hand.tape.len()) {
        *line = entries;
        put = put_entries(line, hand);
    }
    put?;
    Some(Answer::Loaded)
}

// Whether the answer is next.
fn is_answer(mut line: Tokens) -> bool {
    match line.read() {
        Some(Mark(mark)) => mark == b'=' || mark == b'!',
        None => false,
    }
}

// The numbers up to the answer, and how many they are, as far as there is room. From a malformed one on they are 0.
fn read_numbers(line: &mut Tokens, numbers: &mut [u16; NUMBERS]) -> usize {
    for (i, number) in numbers.iter_mut().enumerate() {
        if is_answer(*line) {
            return i;
        }
        *number = line.read().unwrap_or(0);
    }
    NUMBERS
}

// A letter and its numbers are laid behind the entries, whatever the line says of it.
pub fn put_line(line: &mut Tokens, hand: &mut Hand) -> Option<Answer> {
    let Mark(letter) = line.read().unwrap_or(Mark(0));
    let mut room = [0u16; NUMBERS];
    let count = read_numbers(line, &mut room);
    let numbers = &room[..count.min(NUMBERS)];
    match tape::put_line(&mut hand.tape, hand.used, letter, numbers) {
        Ok(used) => {
            hand.used = used;
            agreeing::given(line, used)
        }
        Err(NotLaid::Denied(why)) => agreeing::refused(line, why.number()),
        Err(NotLaid::NoRoom) => None,
    }
}
