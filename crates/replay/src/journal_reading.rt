// What an image says is asked of our readers: of its blocks, the hand, its lines and entries.
use crate::agreeing::Answer;
use crate::journal_entries::Entry;
use crate::reading::{Mark, Tokens};
use crate::{agreeing, journal_image};
use journal::block::{Head, Title};
use journal::hand::HandHead;
use journal::reading::LineRead;
use journal::{block, hand, sums};

// The line says each byte of a block.
pub fn say_block(line: &mut Tokens, bytes: &[u8]) -> Option<Answer> {
    let i: usize = line.read()?;
    agreeing::answered(line)?;
    let ours = journal_image::block_at(bytes, i)?;
    let said = journal_image::read_block(line);
    (ours == said).then_some(Answer::Given)
}

// The line says the check of a block's bytes, as we work it out, and what stands behind them.
pub fn say_check(line: &mut Tokens, bytes: &[u8]) -> Option<Answer> {
    let i: usize = line.read()?;
    let block = journal_image::block_at(bytes, i)?;
    let check = sums::check_bytes(&block);
    agreeing::answered(line)?;
    line.says(check.sum)?;
    line.says(check.run)?;
    line.says(block[510])?;
    line.says(block[511])?;
    Some(Answer::Given)
}

fn say_title(line: &mut Tokens, title: Title) -> Option<()> {
    let key = title.key;
    line.says(key.code)?;
    line.says(key.year)?;
    line.says(key.hand)?;
    line.says(title.edition)
}

fn told_hand(line: &mut Tokens, h: HandHead) -> Option<Answer> {
    agreeing::answered(line)?;
    say_title(line, h.title)?;
    line.says(h.blocks)?;
    line.says(h.entries)?;
    Some(Answer::Given)
}

// The reader of hands, of the whole image: the line says how long it is.
pub fn read(line: &mut Tokens, bytes: &[u8]) -> Option<Answer> {
    line.says(bytes.len())?;
    match hand::read_hand(bytes) {
        Ok(h) => told_hand(line, h),
        Err(why) => agreeing::refused(line, why.number()),
    }
}

fn told_head(line: &mut Tokens, h: Head) -> Option<Answer> {
    agreeing::answered(line)?;
    say_title(line, h.title)?;
    line.says(h.index)?;
    line.says(h.last)?;
    line.says(h.used)?;
    Some(Answer::Given)
}

// The reader of blocks, of so many bytes from a place on, as many as there are. It and the test of blocks say the same.
pub fn read_block(line: &mut Tokens, bytes: &[u8]) -> Option<Answer> {
    let place: usize = line.read()?;
    let count: usize = line.read()?;
    let rest = &bytes[place.min(bytes.len())..];
    let part = &rest[..count.min(rest.len())];
    match (block::read_block(part), block::is_block(part)) {
        (Ok(h), true) => told_head(line, h),
        (Err(why), false) => agreeing::refused(line, why.number()),
        _ => None,
    }
}

// A letter, or a dash where there is none.
fn say_letter(line: &mut Tokens, letter: u8) -> Option<()> {
    let Mark(mark) = line.read()?;
    if mark == letter || (letter == 0 && mark == b'-') {
        return Some(());
    }
    None
}

// A line's letter, the count of its numbers, the place after it, and the first twenty numbers.
fn told_line(line: &mut Tokens, l: &LineRead) -> Option<Answer> {
    agreeing::answered(line)?;
    say_letter(line, l.words.letter)?;
    line.says(l.words.count)?;
    line.says(l.next)?;
    for number in l.words.numbers.iter().take(l.words.count) {
        line.says(*number)?;
    }
    Some(Answer::Given)
}

// The line whose letter is an entry.
pub fn say_line(line: &mut Tokens, bytes: &[u8]) -> Option<Answer> {
    let i: usize = line.read()?;
    told_line(line, &journal::reading::line_at(bytes, i))
}

// An entry, used or not.
pub fn say_entry(line: &mut Tokens, bytes: &[u8]) -> Option<Answer> {
    let i: usize = line.read()?;
    agreeing::given(line, Entry(hand::hand_entry(bytes, i)))
}
