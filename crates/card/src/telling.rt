// What is told on standard error. A function that tells why the program ends answers with what failed.
use crate::cards::NoCard;
use crate::files::{EIO, EISDIR, ENOSPC, ESPIPE};
use crate::statuses::Failure;
use crate::walking::Unread;
use crate::{files, texts};
use keys::HandKey;
use std::io::{Cursor, Error, Write};

// What cannot be said is left out.
pub fn say(rt: &HostRuntime, text: &str) {
    say_bytes(rt, text.as_bytes());
}

// A path need not be text.
pub fn say_bytes(rt: &HostRuntime, bytes: &[u8]) {
    let _ = rt.stderr().write_all(bytes);
}

// Each piece of a line goes out by a write of its own, so that what is said behind a piece that cannot be said is not lost with it.
pub fn say_number(rt: &HostRuntime, n: u64) {
    let _ = eprint!(rt; "{n}");
}

pub fn say_key(rt: &HostRuntime, key: HandKey) {
    let HandKey { code, year, hand } = key;
    say_number(rt, u64::from(code));
    say(rt, " ");
    say_number(rt, u64::from(year));
    say(rt, " ");
    say_number(rt, u64::from(hand));
}

// The end of a line: a colon, and why a call failed, in C's words: what the library prints, without the number that it puts behind them.
pub fn say_reason(rt: &HostRuntime, error: Error) {
    let mut all = Cursor::new([0u8; 128]);
    let _ = write!(all, "{error}");
    let mut number = Cursor::new([0u8; 128]);
    if let Some(code) = error.raw_os_error() {
        let _ = write!(number, " (os error {code})");
    }
    let text = texts::written(&all);
    let len = text.len().saturating_sub(texts::written(&number).len());
    say(rt, ": ");
    say_bytes(rt, &text[..len]);
    say(rt, "\n");
}

// The end of a line: what failed, and why.
pub fn fail(rt: &HostRuntime, path: &[u8], error: Error) {
    say_bytes(rt, path);
    say_reason(rt, error);
}

pub fn wrong_use(rt: &HostRuntime) -> Failure {
    say(rt, "journal: wrong use\n");
    say(
        rt,
        "  journal record FILE < SCRIPT       appends the hands of the script to FILE\n",
    );
    say(
        rt,
        "  journal list FILE                  a line for each hand: code, year, hand, first block, blocks\n",
    );
    say(
        rt,
        "  journal read FILE CODE YEAR HAND   the hand as a script; numbers in digits, no zero before others,\n",
    );
    say(
        rt,
        "                                     CODE and YEAR to 65535, HAND to 4294967295\n",
    );
    Failure::WrongUse
}

pub fn not_opened(rt: &HostRuntime, path: &[u8], error: Error) -> Failure {
    say(rt, "journal: cannot open ");
    fail(rt, path, error);
    Failure::WrongUse
}

// A file that cannot be made: a full disk is no wrong use.
pub fn not_made(rt: &HostRuntime, path: &[u8], error: Error) -> Failure {
    say(rt, "journal: cannot make ");
    fail(rt, path, error);
    if files::is_error(error, ENOSPC) | files::is_error(error, EIO) {
        return Failure::Failed;
    }
    Failure::WrongUse
}

// A folder and a pipe open, and are no card.
pub fn not_read(rt: &HostRuntime, path: &[u8], error: Error) -> Failure {
    say(rt, "journal: cannot read ");
    fail(rt, path, error);
    if files::is_error(error, EISDIR) | files::is_error(error, ESPIPE) {
        return Failure::WrongUse;
    }
    Failure::Failed
}

pub fn stream_closed(rt: &HostRuntime) -> Failure {
    say(
        rt,
        "journal: standard input, output and error must be open\n",
    );
    Failure::Failed
}

pub fn not_printed(rt: &HostRuntime, error: Error) -> Failure {
    say(rt, "journal: cannot write to standard output");
    say_reason(rt, error);
    Failure::Failed
}

fn bad_journal(rt: &HostRuntime, path: &[u8], block: usize) -> Failure {
    say(rt, "journal: 27 BadJournal: ");
    say_bytes(rt, path);
    say(rt, " does not read at block ");
    say_number(rt, block as u64);
    say(rt, "\n");
    Failure::Refused
}

pub fn unread(rt: &HostRuntime, path: &[u8], why: Unread) -> Failure {
    match why {
        Unread::Bad(block) => bad_journal(rt, path, block),
        Unread::NotRead(error) => not_read(rt, path, error),
    }
}

pub fn no_card(rt: &HostRuntime, path: &[u8], why: NoCard) -> Failure {
    match why {
        NoCard::NotOpened(error) => not_opened(rt, path, error),
        NoCard::NotRead(error) => not_read(rt, path, error),
        NoCard::StreamClosed => stream_closed(rt),
    }
}

pub fn not_there(rt: &HostRuntime, path: &[u8], key: HandKey) -> Failure {
    say(rt, "journal: ");
    say_bytes(rt, path);
    say(rt, " has no hand ");
    say_key(rt, key);
    say(rt, "\n");
    Failure::NotThere
}

pub fn stands_again(rt: &HostRuntime, key: HandKey, block: usize) {
    say(rt, "journal: key ");
    say_key(rt, key);
    say(rt, " stands again at block ");
    say_number(rt, block as u64);
    say(rt, "; the first hand is read\n");
}

pub fn not_appended(rt: &HostRuntime, path: &[u8], block: usize) -> Failure {
    let failure = bad_journal(rt, path, block);
    say(rt, "journal: nothing is appended\n");
    failure
}

pub fn folder_not_synced(rt: &HostRuntime, path: &[u8], error: Error) {
    say(rt, "journal: cannot sync the folder of ");
    fail(rt, path, error);
}

pub fn script_not_read(rt: &HostRuntime, error: Error) -> Failure {
    say(rt, "journal: cannot read standard input");
    say_reason(rt, error);
    Failure::Failed
}

pub fn script_too_long(rt: &HostRuntime) -> Failure {
    say(
        rt,
        "journal: 26 ScriptTooLong: more than 65536 bytes; nothing is written\n",
    );
    Failure::Refused
}

pub fn recorded_not_printed(rt: &HostRuntime, key: HandKey, error: Error) -> Failure {
    say(rt, "journal: cannot write to standard output");
    say_reason(rt, error);
    say(rt, "journal: hand ");
    say_key(rt, key);
    say(rt, " is recorded\n");
    Failure::Failed
}
