// A card walked from hand to hand. The room holds some of its blocks; what is not there is read when it is asked for.
use crate::cards::{BLOCK, Card};
use crate::hands::NoHand;
use crate::progress::Bar;
use crate::{cards, hands};
use journal::hand::HandHead;
use keys::HandKey;
use std::io::Error;

// The first block that the room holds, how many it holds, and the block where the next hand begins.
#[derive(Clone, Copy)]
pub struct Place {
    pub from: usize,
    pub held: usize,
    pub at: usize,
}

pub const START: Place = Place {
    from: 0,
    held: 0,
    at: 0,
};

#[derive(Clone, Copy)]
pub struct Hand {
    pub key: HandKey,
    pub first: usize,
    pub blocks: usize,
    pub entries: usize,
}

// Why a card does not read on: a block that is no hand's, or a read that failed.
#[derive(Clone, Copy)]
pub enum Unread {
    Bad(usize),
    NotRead(Error),
}

impl Place {
    fn held_hand(self, room: &[u8]) -> Result<HandHead, NoHand> {
        match room.get(..self.held.saturating_mul(BLOCK)) {
            Some(held) => hands::hand_at(held, self.at.saturating_sub(self.from)),
            None => Err(NoHand::Open),
        }
    }

    fn pass(&mut self, head: HandHead) -> Hand {
        let first = self.at;
        self.at = first.saturating_add(head.blocks);
        Hand {
            key: head.title.key,
            first,
            blocks: head.blocks,
            entries: head.entries,
        }
    }

    // The room is filled from the next hand on. Where its end is not among the blocks, the file ends before it, or cannot be read so far.
    fn pass_afresh(&mut self, card: &Card, room: &mut [u8]) -> Result<Hand, Unread> {
        let got = cards::read_blocks(card, self.at, room);
        self.from = self.at;
        self.held = got.bytes / BLOCK;
        match (self.held_hand(room), got.failed) {
            (Ok(head), _) => Ok(self.pass(head)),
            (Err(NoHand::Bad(i)), _) => Err(Unread::Bad(self.at.saturating_add(i))),
            (Err(NoHand::Open), None) => Err(Unread::Bad(self.at.saturating_add(self.held))),
            (Err(NoHand::Open), Some(error)) => Err(Unread::NotRead(error)),
        }
    }

    // The next hand, which is passed; none at the card's end.
    pub fn next_hand(&mut self, card: &Card, room: &mut [u8]) -> Result<Option<Hand>, Unread> {
        if card.blocks <= self.at {
            if card.has_tail {
                return Err(Unread::Bad(card.blocks));
            }
            return Ok(None);
        }
        match self.held_hand(room) {
            Ok(head) => Ok(Some(self.pass(head))),
            Err(NoHand::Bad(i)) => Err(Unread::Bad(self.at.saturating_add(i))),
            Err(NoHand::Open) => Ok(Some(self.pass_afresh(card, room)?)),
        }
    }
}

// A hand takes a block or more, so that so many steps come to the end.
pub fn turns(card: &Card) -> usize {
    card.blocks.saturating_add(1)
}

fn search(
    rt: &HostRuntime,
    card: &Card,
    place: &mut Place,
    room: &mut [u8],
    key: Option<HandKey>,
    bar: &mut Bar,
) -> Result<Option<Hand>, Unread> {
    // A hand takes a block at least, so no more turns are needed than blocks, and no measure.
    for _ in 0..turns(card) {
        let Some(hand) = place.next_hand(card, room)? else {
            return Ok(None);
        };
        if let Some(key) = key
            && hand.key == key
        {
            return Ok(Some(hand));
        }
        bar.moved(rt, place.at, card.blocks);
    }
    Ok(None)
}

// The first hand with the key from a place on; with no key, each hand is read up to the card's end.
pub fn find(
    rt: &HostRuntime,
    card: &Card,
    place: &mut Place,
    room: &mut [u8],
    key: Option<HandKey>,
) -> Result<Option<Hand>, Unread> {
    let mut bar = Bar::begin(rt);
    let found = search(rt, card, place, room, key, &mut bar);
    bar.end(rt);
    found
}

// Whether every hand reads, and why not.
pub fn check(rt: &HostRuntime, card: &Card, room: &mut [u8]) -> Result<(), Unread> {
    let mut place = START;
    find(rt, card, &mut place, room, None)?;
    Ok(())
}
