// `record`: the hands of the script on standard input, appended to a file one by one.
use crate::appending::Target;
use crate::cards::BLOCK;
use crate::standing::Standing;
use crate::statuses::Failure;
use crate::{appending, cards, inputs, lines, standing, telling};
use console::play;
use journal::block::Title;
use journal::hand;
use journal::hand::NotWritten;
use keys::HandKey;
use recorder::recording::next_hand;
use refusals::JournalError;

// Fixed, as the room of a hand is. One byte more than a script has: it tells that one is too long.
const SCRIPT: usize = 65_537;

// The most entries of a hand.
const ENTRIES: usize = 30_600;

// The edition of the rules that a script plays.
const EDITION: u8 = 1;

fn print_kept(rt: &HostRuntime, key: HandKey, blocks: usize) -> Result<(), Failure> {
    lines::print_line(rt, key, blocks, 0).map_err(|error| telling::recorded_not_printed(
        rt, key, error,
    ))
}

// A hand that is not written has its line too.
fn print_denied(rt: &HostRuntime, key: HandKey, why: JournalError) -> Result<(), Failure> {
    lines::print_line(rt, key, 0, why.number() as usize).map_err(|error| telling::not_printed(
        rt, error,
    ))
}

// A hand's blocks behind so many bytes of the file. Answers the file's bytes then, as the functions below do.
fn keep_blocks(
    rt: &HostRuntime,
    to: Target<'_>,
    key: HandKey,
    hand: &[u8],
    stood: usize,
) -> Result<usize, Failure> {
    appending::append(rt, to, key, hand, stood)?;
    print_kept(rt, key, hand.len() / BLOCK)?;
    Ok(stood.saturating_add(hand.len()))
}

// The hand's blocks, in the room, or why it is not kept.
fn blocks_of<'a>(
    key: HandKey,
    entries: &[u32],
    room: &'a mut [u8],
) -> Result<&'a [u8], JournalError> {
    let title = Title {
        key,
        edition: EDITION,
    };
    let blocks = hand::write_hand(title, entries, room).map_err(|why| match why {
        NotWritten::Denied(why) => why,
        NotWritten::NoRoom(_) => JournalError::NotKept,
    })?;
    room.get(..blocks.saturating_mul(BLOCK))
        .ok_or(JournalError::NotKept)
}

fn keep(
    rt: &HostRuntime,
    to: Target<'_>,
    key: HandKey,
    entries: &[u32],
    room: &mut [u8],
    stood: usize,
) -> Result<usize, Failure> {
    match blocks_of(key, entries, room) {
        Ok(hand) => keep_blocks(rt, to, key, hand, stood),
        Err(why) => {
            print_denied(rt, key, why)?;
            Ok(stood)
        }
    }
}

// Each hand of the script. A script has fewer hands than bytes.
fn record_hands(
    rt: &HostRuntime,
    to: Target<'_>,
    stood: usize,
    script: &[u8],
    room: &mut [u8],
) -> Result<(), Failure> {
    let mut tape = [0u32; ENTRIES];
    let mut bytes = stood;
    let mut at: usize = 0;
    let mut state = play::start().state;
    // A hand takes a byte of the script at least, so no more turns are needed than bytes, and no measure.
    for _ in 0..SCRIPT {
        let taken = next_hand(script, at, state, &mut tape);
        let Some(hand) = taken.hand else {
            break;
        };
        match tape.get(..hand.entries) {
            // a hand that is whole on the tape
            Some(entries) if hand.is_whole => {
                bytes = keep(rt, to, hand.key, entries, room, bytes)?;
            }
            _ => print_denied(rt, hand.key, JournalError::NotKept)?,
        }
        at = taken.at;
        state = taken.state;
    }
    Ok(())
}

// A missing file is made once there is a script.
fn record_script(
    rt: &HostRuntime,
    path: &[u8],
    file: Option<Standing>,
    script: &[u8],
    room: &mut [u8],
) -> Result<(), Failure> {
    let standing = standing::there(rt, path, file)?;
    let to = Target {
        path,
        file: &standing.file,
    };
    record_hands(rt, to, standing.bytes, script, room)
}

fn read_script(
    rt: &HostRuntime,
    path: &[u8],
    file: Option<Standing>,
    room: &mut [u8],
) -> Result<(), Failure> {
    let mut buffer = [0u8; SCRIPT];
    let got = inputs::read_full(&mut rt.stdin(), &mut buffer);
    if let Some(error) = got.failed {
        return Err(telling::script_not_read(rt, error));
    }
    if got.bytes < SCRIPT {
        return record_script(rt, path, file, &buffer[..got.bytes], room);
    }
    Err(telling::script_too_long(rt))
}

// The file is judged before the script is read.
pub fn record(rt: &HostRuntime, path: &[u8]) -> Result<(), Failure> {
    let mut room = cards::NO_BYTES;
    let file = standing::look(rt, path, &mut room)?;
    read_script(rt, path, file, &mut room)
}
