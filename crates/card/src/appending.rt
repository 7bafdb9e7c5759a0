// A hand appended to a file: whole, by one write, and synced. Where that fails the file is cut back to what stood before.
use crate::cards::BLOCK;
use crate::statuses::Failure;
use crate::telling::{fail, say, say_bytes, say_key, say_number};
use crate::{cards, inputs};
use keys::HandKey;
use std::fs::File;
use std::io;
use std::io::{Error, Write};

// Where hands are appended: a file, and the path that it was opened by.
#[derive(Clone, Copy)]
pub struct Target<'a> {
    pub path: &'a [u8],
    pub file: &'a File,
}

// Why a hand is not appended: another program has changed the file, the write failed or took only so many bytes, or the sync failed.
#[derive(Clone, Copy)]
enum NotAppended {
    Changed,
    NotWritten(Error),
    Short(usize),
    NotSynced(usize, Error),
}

// What another program has put there is not cut off.
fn not_cut_back(rt: &HostRuntime, path: &[u8]) {
    say(
        rt,
        "journal: another program has written behind what stood, so nothing is cut back: ",
    );
    say_bytes(rt, path);
    say(rt, "\n");
}

// The newest reason: why the size is not told, why the length was not set, or else what failed before.
fn reason_of(size: io::Result<usize>, cut: io::Result<()>, before: Error) -> Error {
    size.err().or(cut.err()).unwrap_or(before)
}

// Cuts off the bytes that were put behind those that stood. A device has no length to be set, so that the size decides whether all is as before.
fn cut_back(rt: &HostRuntime, to: Target<'_>, stood: usize, put: usize, before: Error) {
    let Target { path, file } = to;
    if stood.saturating_add(put) < cards::size_of(file) {
        not_cut_back(rt, path);
        return;
    }
    let cut = file.set_len(inputs::place_of(stood));
    let size = cards::ask_size(file);
    if size.unwrap_or(0) != stood {
        say(
            rt,
            "journal: that hand may stand there, and the file cannot be cut back: ",
        );
        fail(rt, path, reason_of(size, cut, before));
        return;
    }
    if let Err(error) = file.sync_all() {
        say(rt, "journal: cutting it back is not synced: ");
        fail(rt, path, error);
    }
    say(rt, "journal: ");
    say_bytes(rt, path);
    say(rt, " is cut back to what stood before that hand: blocks ");
    say_number(rt, (stood / BLOCK) as u64);
    say(rt, "\n");
}

// The bytes of a hand behind so many that stand. Behind what another program has put there nothing is appended: nobody has checked it.
fn write_synced(mut file: &File, hand: &[u8], stood: usize) -> Result<(), NotAppended> {
    if cards::size_of(file) != stood {
        return Err(NotAppended::Changed);
    }
    let put = file.write(hand).map_err(NotAppended::NotWritten)?;
    if put < hand.len() {
        return Err(NotAppended::Short(put));
    }
    file.sync_all()
        .map_err(|error| NotAppended::NotSynced(put, error))
}

fn tell(rt: &HostRuntime, to: Target<'_>, key: HandKey, stood: usize, why: NotAppended) {
    say(rt, "journal: hand ");
    say_key(rt, key);
    match why {
        NotAppended::Changed => {
            say(rt, " is not written: another program has changed ");
            say_bytes(rt, to.path);
            say(rt, "\n");
        }
        // A write that fails puts nothing there.
        NotAppended::NotWritten(error) => {
            say(rt, " is not written: ");
            fail(rt, to.path, error);
            cut_back(rt, to, stood, 0, error);
        }
        // A write that takes a part tells no reason.
        NotAppended::Short(put) => {
            say(rt, " is not written: ");
            say_bytes(rt, to.path);
            say(rt, ": no room for more than ");
            say_number(rt, put as u64);
            say(rt, " bytes of it\n");
            cut_back(rt, to, stood, put, Error::from_raw_os_error(0));
        }
        NotAppended::NotSynced(put, error) => {
            say(rt, " is not synced: ");
            fail(rt, to.path, error);
            cut_back(rt, to, stood, put, error);
        }
    }
}

pub fn append(
    rt: &HostRuntime,
    to: Target<'_>,
    key: HandKey,
    hand: &[u8],
    stood: usize,
) -> Result<(), Failure> {
    match write_synced(to.file, hand, stood) {
        Ok(()) => Ok(()),
        Err(why) => {
            tell(rt, to, key, stood, why);
            Err(Failure::Failed)
        }
    }
}
