// Files, by the bytes of a path. The library takes a path as text: one that is no UTF-8 is not opened, and C's words for such bytes tell why.
use std::fs::{File, OpenOptions};
use std::io::{Error, Result};
use std::str;

// C's numbers of some errors: the library has no kind for each of them.
pub const ENOENT: i32 = 2;

pub const EIO: i32 = 5;

pub const EISDIR: i32 = 21;

pub const ENOSPC: i32 = 28;

pub const ESPIPE: i32 = 29;

const EILSEQ: i32 = 84;

fn open(rt: &HostRuntime, how: &OpenOptions, path: &[u8]) -> Result<File> {
    match str::from_utf8(path) {
        Ok(text) => how.open(rt, text),
        Err(_) => Err(Error::from_raw_os_error(EILSEQ)),
    }
}

// The ways to open: each is its options under a name, which is plainer than options at each call.
pub fn open_read(rt: &HostRuntime, path: &[u8]) -> Result<File> {
    let mut how = OpenOptions::new();
    how.read(true);
    open(rt, &how, path)
}

// Each write lands at the file's end.
pub fn open_append(rt: &HostRuntime, path: &[u8]) -> Result<File> {
    let mut how = OpenOptions::new();
    how.append(true);
    open(rt, &how, path)
}

// The same, for reading too: to open a pipe so waits for nobody.
pub fn open_both(rt: &HostRuntime, path: &[u8]) -> Result<File> {
    let mut how = OpenOptions::new();
    how.read(true).append(true);
    open(rt, &how, path)
}

// A file that is not there yet.
pub fn create(rt: &HostRuntime, path: &[u8]) -> Result<File> {
    let mut how = OpenOptions::new();
    how.write(true).create_new(true);
    open(rt, &how, path)
}

// Whether C tells that error by this number.
pub fn is_error(error: Error, number: i32) -> bool {
    error.raw_os_error() == Some(number)
}
