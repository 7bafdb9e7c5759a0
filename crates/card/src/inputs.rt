// Reading until a room is full, the input ends or a read fails.
use std::fs::File;
use std::io::{Error, Read, Result};
use std::os::unix::fs::FileExt;

// What a file has from a place on.
#[derive(Clone, Copy)]
pub struct FilePart<'a> {
    pub file: &'a File,
    pub at: usize,
}

impl Read for FilePart<'_> {
    fn read(&mut self, out: &mut [u8]) -> Result<usize> {
        let n = self.file.read_at(out, place_of(self.at))?;
        self.at = self.at.saturating_add(n);
        Ok(n)
    }
}

// How much was read, and why a read failed behind it, if one did: what stands before the failure is used too.
#[derive(Clone, Copy)]
pub struct Got {
    pub bytes: usize,
    pub failed: Option<Error>,
}

// A place of a file, as C counts it.
pub fn place_of(at: usize) -> u64 {
    (at as u64).min(9_223_372_036_854_775_807)
}

// No turn but the last reads nothing. Of what came before a failure read_exact and read_to_end do not tell, and it counts.
pub fn read_full(source: &mut impl Read, room: &mut [u8]) -> Got {
    let mut bytes: usize = 0;
    for _ in 0..room.len() {
        if room.len() <= bytes {
            break;
        }
        match source.read(&mut room[bytes..]) {
            Ok(0) => break,
            Ok(n) => bytes = bytes.saturating_add(n),
            Err(error) => {
                return Got {
                    bytes,
                    failed: Some(error),
                };
            }
        }
    }
    Got {
        bytes,
        failed: None,
    }
}
