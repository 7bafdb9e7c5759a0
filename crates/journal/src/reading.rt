// The lines of a hand, as the console plays them.
ghost use Rattle.std.specs.Prelude.{◌≡◌, ◌/◌};
ghost use Rattle.journal.specs.Reading.{count_given, numbers_at, line_read};

use crate::{hand, lines, words};
use script::line;
use script::line::Words;

// A line, and the place after its last entry.
#[derive(Clone, Copy)]
pub struct LineRead {
    pub words: Words,
    pub next: usize,
}

// How many numbers follow, and the first twenty of them.
#[derive(Clone, Copy)]
struct Numbers {
    count: usize,
    list: [u16; 20],
}

// How many entries the bytes of a hand hold, by what their last block says.
fn entry_count(bytes: &[u8]) -> usize
    ensures { result ≡ count_given bytes.now }
{
    let n = bytes.len() / 512;
    if n < 1 {
        return 0;
    }
    120 * (n - 1) + usize::from(bytes[512 * (n - 1) + 10])
}

fn upper(w: u32) -> u16
    ensures { result ≡ w / 65536 }
{
    (w / 65536) as u16
}

// The numbers that stand from a place on, told by their places: they lie in blocks, and no slice holds them all.
fn numbers_at(bytes: &[u8], from: usize, total: usize) -> Numbers
    ensures { result ≡ numbers_at bytes.now from total }
{
    let mut count: usize = 0;
    let mut list = [0u16; 20];
    for at in from..total {
        let w = hand::hand_entry(bytes, at);
        if !lines::is_number(w) {
            return Numbers { count, list };
        }
        // The check takes the array that a call returns by a name of its own.
        let more = line::put_number(list, count, upper(w));
        list = more;
        count += 1;
    }
    Numbers { count, list }
}

// The line whose letter is entry i. At the end of the hand there is none, and the place stays.
pub fn line_at(bytes: &[u8], i: usize) -> LineRead
    ensures { result ≡ line_read bytes.now i }
{
    let total = entry_count(bytes);
    if total <= i {
        return LineRead {
            words: line::no_words(),
            next: i,
        };
    }
    let from = i + 1;
    let letter = (hand::hand_entry(bytes, i) % 256) as u8;
    let n = numbers_at(bytes, from, total);
    let count = n.count;
    let numbers = n.list;
    LineRead {
        words: Words {
            letter,
            count,
            numbers,
        },
        next: from + count,
    }
}
