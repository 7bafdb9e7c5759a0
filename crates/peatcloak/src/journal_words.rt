// What the journal's calls are told, and what they tell, as words of the host's lists.
ghost use Rattle.std.specs.Prelude.{◌≡◌, ◌%◌, set};
ghost use Rattle.refusals.specs.Number.{journal_number};
ghost use Rattle.peatcloak.specs.Writing.{title_fits, title_in, letter_of};
ghost use Rattle.peatcloak.specs.Reading.{block_words, hand_words};

use journal::block::{Head, Title};
use journal::hand::HandHead;
use keys::HandKey;
use layout::words;
use refusals::JournalError;

// ---- in

// Whether a title is whole (code, year, hand, edition), and each word in the range of what it stands for.
pub fn title_fits(title: &[u32]) -> bool
    ensures { result ≡ title_fits title.now }
{
    (4 <= title.len())
        & (words::is_below(title, 0, 65536)
            & (words::is_below(title, 1, 65536) & words::is_below(title, 3, 256)))
}

pub fn title_of(title: &[u32]) -> Title
    ensures { result ≡ title_in title.now }
{
    let key = HandKey {
        code: words::set_at(title, 0),
        year: words::set_at(title, 1),
        hand: words::word_at(title, 2),
    };
    Title {
        key,
        edition: words::byte_at(title, 3),
    }
}

// A letter as a byte; 0, which is no letter, for what is no byte.
pub fn letter_of(letter: u32) -> u8
    ensures { result ≡ letter_of letter }
{
    if letter < 256 { letter as u8 } else { 0 }
}

// The number of a block within its hand as a byte.
pub fn index_of(index: u32) -> u8
    ensures { result ≡ index % 256 }
{
    (index % 256) as u8
}

// ---- out

pub fn refused(e: JournalError) -> u32
    ensures { result ≡ journal_number e }
{
    words::word_of_byte(e.number())
}

// A word at the first place of a list, where it has one.
pub fn tell(out: &mut [u32], word: u32)
    ensures { out.new ≡ set out.old 0 word }
{
    if 1 <= out.len() {
        out[0] = word;
    }
}

// What a block says of itself, in the order of include/peatcloak.h.
pub fn block_words(h: Head) -> [u32; 7]
    ensures { result ≡ block_words h }
{
    let title = h.title;
    let key = title.key;
    [
        words::word_of_set(key.code),
        words::word_of_set(key.year),
        key.hand,
        words::word_of_byte(title.edition),
        words::word_of_byte(h.index),
        words::word_of_flag(h.last),
        words::word_of_byte(h.used),
    ]
}

// What the blocks of a hand say.
pub fn hand_words(h: HandHead) -> [u32; 6]
    ensures { result ≡ hand_words h }
{
    let title = h.title;
    let key = title.key;
    [
        words::word_of_set(key.code),
        words::word_of_set(key.year),
        key.hand,
        words::word_of_byte(title.edition),
        words::word_of(h.blocks),
        words::word_of(h.entries),
    ]
}
