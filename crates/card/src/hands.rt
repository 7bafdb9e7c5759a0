// The hand that begins at a block of some bytes.
use crate::cards::{BLOCK, MOST_BLOCKS};
use journal::block::{Head, Title};
use journal::hand::HandHead;
use journal::{block, hand};

// No hand, seen so many blocks behind its first; or its end is not among the bytes.
#[derive(Clone, Copy)]
pub enum NoHand {
    Bad(usize),
    Open,
}

// Block i of a hand; the blocks before it have the title, if there are any.
fn block_of(bytes: &[u8], i: usize, first: Option<Title>) -> Result<Head, NoHand> {
    let head = block::read_block(bytes).map_err(|_| NoHand::Bad(i))?;
    let fits = first.is_none_or(|title| head.title == title);
    if fits && head.index as usize == i {
        return Ok(head);
    }
    Err(NoHand::Bad(i))
}

// How many blocks a hand has, which begins where the bytes do.
fn blocks_of(bytes: &[u8]) -> Result<usize, NoHand> {
    let mut first = None;
    for (i, block) in bytes.chunks_exact(BLOCK).take(MOST_BLOCKS).enumerate() {
        let head = block_of(block, i, first)?;
        if head.last {
            return Ok(i + 1);
        }
        first = Some(head.title);
    }
    if bytes.len() / BLOCK < MOST_BLOCKS {
        return Err(NoHand::Open);
    }
    Err(NoHand::Bad(MOST_BLOCKS))
}

// The hand that begins where the bytes do. Where each block stands and its lines do not, the hand is bad from its first on.
fn first_hand(bytes: &[u8]) -> Result<HandHead, NoHand> {
    let blocks = blocks_of(bytes)?;
    let Some(hand) = bytes.get(..blocks.saturating_mul(BLOCK)) else {
        return Err(NoHand::Open);
    };
    hand::read_hand(hand).map_err(|_| NoHand::Bad(0))
}

pub fn hand_at(bytes: &[u8], at: usize) -> Result<HandHead, NoHand> {
    match bytes.get(at.saturating_mul(BLOCK)..) {
        Some(rest) => first_hand(rest),
        None => Err(NoHand::Open),
    }
}
