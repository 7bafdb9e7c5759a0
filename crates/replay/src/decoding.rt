// The text of a script's line: a byte stands for itself, `\xNN` for one byte and `\COUNTxNN` for so many of it.
use crate::reading::Tokens;

// Room for a script: the longest of the list has one byte less.
const ROOM: usize = 131072;

pub type Script = [u8; ROOM];

pub const NO_SCRIPT: Script = [0; ROOM];

// Some bytes of one kind.
#[derive(Clone, Copy)]
struct Run {
    byte: u8,
    count: usize,
}

// How many bytes an escape stands for: one where it has no count.
fn read_count(text: &mut Tokens) -> Option<usize> {
    let mut after = *text;
    if after.byte()? == b'x' {
        *text = after;
        return Some(1);
    }
    text.read_to(b'x')
}

fn read_run(text: &mut Tokens) -> Option<Run> {
    let byte = text.byte()?;
    if byte != b'\\' {
        return Some(Run { byte, count: 1 });
    }
    let count = read_count(text)?;
    let byte = text.hex()?;
    Some(Run { byte, count })
}

// So many bytes of one kind, from a place on; the place after them, if they fit.
pub fn put(out: &mut [u8], at: usize, byte: u8, count: usize) -> Option<usize> {
    let end = at.checked_add(count)?;
    out.get_mut(at..end)?.fill(byte);
    Some(end)
}

// A text is laid out from a place on; the place after it, none if it is malformed or does not fit.
pub fn decode(text: &[u8], out: &mut [u8], to: usize) -> Option<usize> {
    let mut rest = Tokens::new(text);
    let mut end = to;
    // each run takes a byte at least, so that no more turns are needed than bytes, and no measure
    for _ in 0..text.len() {
        if !rest.has_more() {
            break;
        }
        let run = read_run(&mut rest)?;
        end = put(out, end, run.byte, run.count)?;
    }
    Some(end)
}
