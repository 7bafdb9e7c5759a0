// A list is read in pieces and handed out line by line. A line that is too long, or has no end, is handed out as `?`, which no list
// knows: it differs.
use crate::printing::print;
use crate::reading;
use std::fs::File;
use std::io::{Read, Result};

// The most bytes of a line.
const LONGEST: usize = 4096;

const UNKNOWN: &[u8] = b"?";

// More turns than a list has lines and pieces.
pub const TURNS: usize = 1_048_576;

// The pieces are read by hand: a BufReader takes memory that it may not get, and gives a last line without an end like any other.
#[derive(Drop)]
pub struct Lines {
    file: Result<File>,
    piece: [u8; 65536],
    // the bytes of the piece, and how many of them are taken
    got: usize,
    at: usize,
    line: [u8; LONGEST],
    // the bytes of the line so far, none where it has too many
    len: Option<usize>,
    is_ended: bool,
}

// The bytes of a line with more of them behind, none where they are too many.
fn longer(line: &mut [u8; LONGEST], len: Option<usize>, more: &[u8]) -> Option<usize> {
    let len = len?;
    if len <= LONGEST && more.len() <= LONGEST - len {
        let end = len + more.len();
        line[len..end].copy_from_slice(more);
        return Some(end);
    }
    None
}

impl Lines {
    pub fn open(rt: &HostRuntime, name: &str) -> Lines {
        Lines {
            file: File::open(rt, name),
            piece: [0; 65536],
            got: 0,
            at: 0,
            line: [0; LONGEST],
            len: Some(0),
            is_ended: false,
        }
    }

    pub fn is_ended(&self) -> bool {
        self.is_ended
    }

    // The line goes on to its end, or to the piece's. It is handed out at its end.
    fn go_on(&mut self) -> Option<&[u8]> {
        let rest = self.piece.get(self.at..self.got)?;
        let n = reading::find(rest, b'\n');
        let len = longer(&mut self.line, self.len, &rest[..n]);
        if n < rest.len() {
            self.at = self.at.saturating_add(n + 1);
            self.len = Some(0);
            return match len {
                Some(len) => self.line.get(..len),
                None => Some(UNKNOWN),
            };
        }
        self.at = self.got;
        self.len = len;
        None
    }

    // From a file that was not opened nothing is read.
    fn read(&mut self) -> Result<usize> {
        match &mut self.file {
            Ok(open) => open.read(&mut self.piece),
            Err(error) => Err(*error),
        }
    }

    // The next piece. Where there is none, the list is at its end.
    fn fill(&mut self, rt: &HostRuntime) -> Option<&[u8]> {
        match self.read() {
            Ok(0) => {}
            Ok(n) => {
                self.got = n;
                self.at = 0;
                return None;
            }
            Err(_) => print(rt, b"what follows cannot be read\n"),
        }
        self.is_ended = true;
        if self.len == Some(0) {
            return None;
        }
        Some(UNKNOWN)
    }

    // A piece is read, or a line goes on in it. The line that is whole then, if one is.
    pub fn turn(&mut self, rt: &HostRuntime) -> Option<&[u8]> {
        if self.at < self.got {
            return self.go_on();
        }
        self.fill(rt)
    }
}
