// How the program ended: this digit is written to a descriptor, and the wrapper exits with it.
use crate::inputs::FilePart;
use crate::{files, inputs, texts};
use std::fs::File;
use std::io::{Cursor, Write};
use std::{io, str};

// What the program could not do. Why is told on standard error.
#[derive(Clone, Copy, PartialEq, Eq)]
pub enum Failure {
    // a script, a hand or a file is refused
    Refused,
    WrongUse,
    NotThere,
    // reading or writing failed
    Failed,
}

impl Failure {
    pub fn status(self) -> u8 {
        match self {
            Failure::Refused => 1,
            Failure::WrongUse => 2,
            Failure::NotThere => 3,
            Failure::Failed => 4,
        }
    }
}

// The most bytes of the names here, and of what is read of a descriptor.
const MOST: usize = 256;

// What the system keeps of a descriptor of this program: the file behind it, or its state.
fn name_of(folder: &str, fd: u32) -> Cursor<[u8; MOST]> {
    let mut name = Cursor::new([0; MOST]);
    let _ = write!(name, "/proc/self/{folder}/{fd}");
    name
}

// Whether a descriptor is open for writing, by the last digit of its flags: 1 for writing, 2 for both.
fn is_for_writing(state: &str) -> Option<bool> {
    let (_, flags) = state.split_once("flags:")?;
    let (flags, _) = flags.split_once('\n')?;
    let last = flags.bytes().last()?;
    Some(last % 4 != 0)
}

fn is_flagged_to_write(rt: &HostRuntime, fd: u32) -> bool {
    let name = name_of("fdinfo", fd);
    let Ok(file) = files::open_read(rt, texts::written(&name)) else {
        return false;
    };
    let mut state = [0u8; MOST];
    let got = inputs::read_full(&mut FilePart { file: &file, at: 0 }, &mut state);
    match str::from_utf8(&state[..got.bytes.min(MOST)]) {
        Ok(text) => is_for_writing(text).unwrap_or(false),
        Err(_) => false,
    }
}

// A pipe is opened for reading too, where it may be: then that does not wait for somebody who reads.
fn open_descriptor(rt: &HostRuntime, fd: u32) -> io::Result<File> {
    let name = name_of("fd", fd);
    match files::open_both(rt, texts::written(&name)) {
        Ok(file) => Ok(file),
        Err(_) => files::open_append(rt, texts::written(&name)),
    }
}

fn takes_no_bytes(rt: &HostRuntime, fd: u32) -> bool {
    match open_descriptor(rt, fd) {
        Ok(mut file) => file.write(b"").is_ok(),
        Err(_) => false,
    }
}

// A write of no bytes shows whether a descriptor that is open for writing can be written to.
pub fn is_open_to_write(rt: &HostRuntime, fd: u32) -> bool {
    is_flagged_to_write(rt, fd) && takes_no_bytes(rt, fd)
}

pub fn tell(rt: &HostRuntime, fd: u32, answer: Result<(), Failure>) {
    let status = match answer {
        Ok(()) => 0,
        Err(failure) => failure.status(),
    };
    if let Ok(mut file) = open_descriptor(rt, fd) {
        let _ = write!(file, "{status}");
    }
}
