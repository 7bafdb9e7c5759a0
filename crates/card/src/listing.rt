// `list`: a line for each hand. All is checked before the first line is written.
use crate::cards::Card;
use crate::statuses::Failure;
use crate::{cards, lines, telling, walking};

fn print_all(rt: &HostRuntime, path: &[u8], card: &Card, room: &mut [u8]) -> Result<(), Failure> {
    let mut place = walking::START;
    // A hand takes a block at least, so no more turns are needed than blocks, and no measure.
    for _ in 0..walking::turns(card) {
        let next = place
            .next_hand(card, room)
            .map_err(|why| telling::unread(rt, path, why))?;
        let Some(hand) = next else {
            return Ok(());
        };
        lines::print_line(rt, hand.key, hand.first, hand.blocks).map_err(
            |error| telling::not_printed(rt, error),
        )?;
    }
    Ok(())
}

pub fn list(rt: &HostRuntime, path: &[u8]) -> Result<(), Failure> {
    let card = cards::open_card(rt, path).map_err(|why| telling::no_card(rt, path, why))?;
    let mut room = cards::NO_BYTES;
    walking::check(rt, &card, &mut room).map_err(|why| telling::unread(rt, path, why))?;
    print_all(rt, path, &card, &mut room)
}
