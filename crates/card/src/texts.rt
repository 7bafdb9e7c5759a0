// Text printed into bytes on the stack: it needs no heap, and goes out by one write.
use keys::HandKey;
use std::fmt;
use std::io::Cursor;

// A key as it is printed.
#[derive(Clone, Copy)]
pub struct KeyText(pub HandKey);

impl fmt::Display for KeyText {
    fn fmt<W: fmt::Write>(&self, f: &mut fmt::Formatter<W>) -> fmt::Result {
        let HandKey { code, year, hand } = self.0;
        write!(f, "{code} {year} {hand}")
    }
}

// What has been printed so far.
pub fn written<const N: usize>(text: &Cursor<[u8; N]>) -> &[u8] {
    let all = text.get_ref();
    &all[..all.len().min(text.position() as usize)]
}
