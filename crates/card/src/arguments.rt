// The arguments: where the status goes, the command, the file, and for `read` the three numbers of a key.
use crate::statuses;
use keys::HandKey;
use std::env::FillError;
use std::rt::Env;
use std::str;

// The status goes to nobody, or to a descriptor that was open before any file was.
#[derive(Clone, Copy)]
pub enum StatusTo {
    Nobody,
    Descriptor(u32),
}

#[derive(Clone, Copy)]
pub enum Command {
    Record,
    Read(HandKey),
    List,
}

// The most arguments that a command has, the program's own name among them.
const MOST: usize = 7;

// The number, if a word is one to 4,294,967,295 in the form of a script: digits alone, and no zero before others.
fn number_of(word: &[u8]) -> Option<u32> {
    let text = str::from_utf8(word).ok()?;
    let is_padded = 1 < text.len() && text.starts_with('0');
    if is_padded || text.starts_with('+') {
        return None;
    }
    text.parse().ok()
}

// The status can be told where a descriptor is open for writing.
fn status_of(rt: &HostRuntime, word: &[u8]) -> Option<StatusTo> {
    if word == b"-".as_slice() {
        return Some(StatusTo::Nobody);
    }
    let fd = number_of(word)?;
    if fd < 1024 && statuses::is_open_to_write(rt, fd) {
        return Some(StatusTo::Descriptor(fd));
    }
    None
}

// Where the status goes, if it can be told.
pub fn status_to(rt: &HostRuntime) -> Option<StatusTo> {
    let mut word = [0u8; 16];
    let n = rt.arg(1, &mut word).ok()?;
    status_of(rt, &word[..n])
}

fn number_at(rt: &HostRuntime, i: usize) -> Option<u32> {
    let mut word = [0u8; 16];
    let n = rt.arg(i, &mut word).ok()?;
    number_of(&word[..n])
}

fn key_asked(rt: &HostRuntime) -> Option<HandKey> {
    let code = u16::try_from(number_at(rt, 4)?).ok()?;
    let year = u16::try_from(number_at(rt, 5)?).ok()?;
    let hand = number_at(rt, 6)?;
    Some(HandKey { code, year, hand })
}

// A command with so many arguments, the program's own name among them.
fn command_of(rt: &HostRuntime, word: &[u8], count: usize) -> Option<Command> {
    if word == b"record".as_slice() && count == 4 {
        return Some(Command::Record);
    }
    if word == b"list".as_slice() && count == 4 {
        return Some(Command::List);
    }
    if word == b"read".as_slice() && count == MOST {
        return Some(Command::Read(key_asked(rt)?));
    }
    None
}

// Whether there is such an argument, however long.
fn is_given(rt: &HostRuntime, i: usize) -> bool {
    let mut none = [0u8; 1];
    !matches!(rt.arg(i, &mut none), Err(FillError::NotPresent))
}

// How many arguments there are, the program's own name among them: one more than the most where there are too many.
fn arg_count(rt: &HostRuntime) -> usize {
    (0..=MOST)
        .position(|i| !is_given(rt, i))
        .unwrap_or(MOST + 1)
}

// The command, or none where the arguments are no command's.
pub fn asked(rt: &HostRuntime) -> Option<Command> {
    let mut word = [0u8; 16];
    let n = rt.arg(2, &mut word).ok()?;
    command_of(rt, &word[..n], arg_count(rt))
}
