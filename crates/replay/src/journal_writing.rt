// The writer is asked: for a whole hand, and for one block.
use crate::agreeing::Answer;
use crate::journal_hand::{BLOCK, BLOCKS, Hand};
use crate::reading::Tokens;
use crate::{agreeing, journal_image};
use journal::hand::NotWritten;
use journal::laying::{Laid, NotLaid};
use journal::{hand, laying};

// What stands where the writer is to write, so that no byte may stay; 0 and 255 would not move the check.
const STALE: u8 = 97;

// As many stale bytes as the blocks of so many entries have, at least.
fn soil(hand: &mut Hand) {
    let blocks = (hand.used / 120).min(BLOCKS - 1) + 1;
    hand.image[..blocks * BLOCK].fill(STALE);
}

// The image is what the writer gives of the entries, nothing where it refuses.
pub fn write(line: &mut Tokens, hand: &mut Hand) -> Option<Answer> {
    soil(hand);
    hand.length = 0;
    let entries = hand.tape.get(..hand.used)?;
    match hand::write_hand(hand.title, entries, &mut hand.image) {
        Ok(blocks) => {
            hand.length = blocks.min(BLOCKS) * BLOCK;
            agreeing::given(line, blocks)
        }
        Err(NotWritten::Denied(why)) => agreeing::refused(line, why.number()),
        Err(NotWritten::NoRoom(_)) => None,
    }
}

// The image is again what the writer gives. The line says no more.
pub fn restore(line: &mut Tokens, hand: &mut Hand) -> Option<Answer> {
    let mut says = *line;
    let _ = write(&mut says, hand);
    Some(Answer::Loaded)
}

fn told_laid(line: &mut Tokens, laid: Result<Laid, NotLaid>) -> Option<Answer> {
    match laid {
        Ok(laid) => agreeing::given(line, laid == Laid::More),
        Err(NotLaid::Denied(why)) => agreeing::refused(line, why.number()),
        Err(NotLaid::NoRoom) => None,
    }
}

// One block, laid from the entries from a place on, over that block of the image. What the line says malformed stands for 0.
pub fn lay(line: &mut Tokens, hand: &mut Hand) -> Option<Answer> {
    let index: u8 = line.read().unwrap_or(0);
    let from: usize = line.read().unwrap_or(0);
    let entries = hand.tape.get(..hand.used)?;
    let rest = &entries[from.min(entries.len())..];
    let mut block = [STALE; BLOCK];
    let laid = laying::lay_block(hand.title, index, rest, &mut block);
    if !matches!(&laid, Err(NotLaid::Denied(_))) {
        journal_image::put_block(hand, usize::from(index), &block);
    }
    told_laid(line, laid)
}
