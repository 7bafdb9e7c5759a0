// `read`: the first hand with a key. What stands behind it hinders nothing.
use crate::cards::BLOCK;
use crate::files::EIO;
use crate::statuses::Failure;
use crate::walking::{Hand, Place};
use crate::{cards, script_lines, telling, walking};
use keys::HandKey;
use std::io;
use std::io::Error;

// The hand's bytes, which the room holds.
fn print_hand(rt: &HostRuntime, hand: Hand, place: Place, room: &[u8]) -> io::Result<()> {
    let from = hand.first.saturating_sub(place.from).saturating_mul(BLOCK);
    let to = from.saturating_add(hand.blocks.saturating_mul(BLOCK));
    match room.get(from..to) {
        Some(bytes) => script_lines::print_entries(rt, bytes, hand.entries),
        None => Err(Error::from_raw_os_error(EIO)),
    }
}

fn print_script(rt: &HostRuntime, hand: Hand, place: Place, room: &[u8]) -> io::Result<()> {
    script_lines::print_key(rt, hand.key)?;
    print_hand(rt, hand, place, room)
}

pub fn read(rt: &HostRuntime, path: &[u8], key: HandKey) -> Result<(), Failure> {
    let card = cards::open_card(rt, path).map_err(|why| telling::no_card(rt, path, why))?;
    let mut room = cards::NO_BYTES;
    let mut place = walking::START;
    let found = walking::find(rt, &card, &mut place, &mut room, Some(key)).map_err(
        |why| telling::unread(rt, path, why),
    )?;
    let hand = found.ok_or_else(|| telling::not_there(rt, path, key))?;
    print_script(rt, hand, place, &room).map_err(|error| telling::not_printed(rt, error))?;
    // A key that stands again is told. A file that does not read on is not: the hand is read.
    if let Ok(Some(again)) = walking::find(rt, &card, &mut place, &mut room, Some(key)) {
        telling::stands_again(rt, key, again.first);
    }
    Ok(())
}
