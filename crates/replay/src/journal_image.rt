// The bytes of an image, changed and moved. What a line says malformed stands for 0, and the line differs.
use crate::agreeing::Answer;
use crate::journal_hand::{BLOCK, BLOCKS, Hand};
use crate::reading::Tokens;

pub type Block = [u8; BLOCK];

// A block that stands.
pub fn block_at(bytes: &[u8], i: usize) -> Option<Block> {
    let rest = bytes.get(i.checked_mul(BLOCK)?..)?;
    rest.first_chunk::<BLOCK>().copied()
}

// A block over another, or behind the last: what is missing before it is zeros.
pub fn put_block(hand: &mut Hand, i: usize, block: &Block) -> Option<()> {
    if BLOCKS <= i {
        return None;
    }
    let at = i * BLOCK;
    let end = at + BLOCK;
    if hand.length < end {
        hand.resize(end);
    }
    hand.image[at..end].copy_from_slice(block);
    Some(())
}

// The bytes of a block in hex.
pub fn read_block(line: &mut Tokens) -> Block {
    let mut block = [0u8; BLOCK];
    for byte in &mut block {
        *byte = line.hex().unwrap_or(0);
    }
    line.end();
    block
}

// One byte of those that stand gets another value; the same value is malformed.
fn change(line: &mut Tokens, hand: &mut Hand) -> Option<()> {
    let place: usize = line.read_to(b':').unwrap_or(0);
    let said = line.hex().unwrap_or(0);
    let byte = hand.bytes_mut().get_mut(place)?;
    if *byte == said {
        return None;
    }
    *byte = said;
    line.end()
}

// The changes of a line.
pub fn change_all(line: &mut Tokens, hand: &mut Hand) -> Option<Answer> {
    // each change takes a byte at least: no measure is needed
    for _ in 0..line.len() {
        if !line.has_more() {
            break;
        }
        change(line, hand)?;
    }
    Some(Answer::Loaded)
}

// Two blocks that stand change places.
pub fn swap(line: &mut Tokens, hand: &mut Hand) -> Option<Answer> {
    let one: usize = line.read().unwrap_or(0);
    let other: usize = line.read().unwrap_or(0);
    let first = block_at(hand.bytes(), one)?;
    let second = block_at(hand.bytes(), other)?;
    put_block(hand, one, &second)?;
    put_block(hand, other, &first)?;
    Some(Answer::Loaded)
}

// A block that stands is put over another, or behind the last.
pub fn repeat(line: &mut Tokens, hand: &mut Hand) -> Option<Answer> {
    let from: usize = line.read().unwrap_or(0);
    let to: usize = line.read().unwrap_or(0);
    let block = block_at(hand.bytes(), from)?;
    put_block(hand, to, &block)?;
    Some(Answer::Loaded)
}

// A block that the line says is put over one, or behind the last.
pub fn lay(line: &mut Tokens, hand: &mut Hand) -> Option<Answer> {
    let to: usize = line.read().unwrap_or(0);
    let block = read_block(line);
    put_block(hand, to, &block)?;
    Some(Answer::Loaded)
}
