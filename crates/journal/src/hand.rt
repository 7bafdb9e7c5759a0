// The blocks of a hand.
ghost use Rattle.std.specs.Prelude.{◌≡◌, ◌++◌, ◌⊎◌, ◌+◌, ◌*◌, ◌-◌, ◌/◌, ◌%◌, ◌≤◌, ◌<◌, eqb, length, drop};
ghost use Rattle.journal.specs.Block.{title_at};
ghost use Rattle.journal.specs.Lines.{spells};
ghost use Rattle.journal.specs.Hand.{block_count, joined, block_at, block_says, block_fits, blocks_in, blocks_fit, word_in, word_count, words_of, words_from, word_given, hand_ok, reads, writes, writes_into, bytes_after};
ghost use Rattle.journal.specs.declared.hand.NotWritten.TheVariants.{Denied};

use crate::block::Title;
use crate::{block, fill, heads, lines, words};
use refusals::JournalError;

// What the blocks of a hand say: its title, how many blocks they are, and how many entries.
#[derive(Clone, Copy)]
pub struct HandHead {
    pub title: Title,
    pub blocks: usize,
    pub entries: usize,
}

// Why a hand is not written: a refusal, or too little room for the blocks that it needs.
#[derive(Clone, Copy)]
pub enum NotWritten {
    Denied(JournalError),
    NoRoom(usize),
}

impl From<JournalError> for NotWritten {
    ghost from_gives = { λ refusal e. e ≡ Denied refusal };

    fn from(refusal: JournalError) -> NotWritten {
        NotWritten::Denied(refusal)
    }
}

// ---- the writer

// Where the entries of a block end that begins at a place of the tape.
fn part_end(from: usize, len: usize) -> usize
    requires from_le_len { from ≤ len }
    requires len_bound { len ≤ 30600 }
    ensures within { (from ≤ result) × (result ≤ len) × (result ≤ from + 120) }
    ensures cut { (result ≡ len) ⊎ (result ≡ from + 120) }
{
    let end = from + 120;
    if end < len { end } else { len }
}

// The blocks of a hand, one after the other.
fn put_blocks(out: &mut [u8], title: Title, tape: &[u32], n: usize)
    requires n_value { n ≡ block_count (length tape.now) }
    requires tape_len_bound { length tape.now ≤ 30600 }
    requires n_in_bounds { 512 * n ≤ length out.old }
    ensures { out.new ≡ joined n (block_at title tape.now n) ++ drop (512 * n) out.old }
{
    // By number and not by `chunks_exact_mut`: a proof does not know the elements that such a borrow leaves.
    for i in 0..n {
        let from = 120 * i;
        let end = part_end(from, tape.len());
        let at = 512 * i;
        let to = at + 512;
        let index = i as u8;
        let last = i + 1 == n;
        fill::fill_block(&mut out[at..to], title, index, last, &tape[from..end]);
    }
}

// How many blocks a hand needs, where it may be written.
fn blocks_of(title: Title, tape: &[u32]) -> Result<usize, JournalError>
    ensures { result ≡ writes title tape.now }
{
    let key = title.key;
    if !(block::is_edition(title.edition) & lines::is_spelt(tape)) {
        Err(JournalError::BadJournal)
    } else if !key.is_key() | (30600 < tape.len()) {
        Err(JournalError::NotKept)
    } else {
        Ok((tape.len() + 119) / 120)
    }
}

// A hand written into the caller's bytes, from the first on: the blocks written.
pub fn write_hand(title: Title, tape: &[u32], out: &mut [u8]) -> Result<usize, NotWritten>
    ensures answer { result ≡ writes_into (length out.old) title tape.now }
    ensures bytes { out.new ≡ bytes_after (writes_into (length out.old) title tape.now) title tape.now out.old }
{
    let n = blocks_of(title, tape)?;
    if out.len() < 512 * n {
        return Err(NotWritten::NoRoom(n));
    }
    put_blocks(out, title, tape, n);
    Ok(n)
}

// ---- the reader

// Whether a block says that it is block i of n of a hand with this title.
fn says(title: Title, n: usize, i: usize, part: &[u8]) -> bool
    requires i_lt_n { i < n }
    requires part_len { length part.now ≡ 512 }
    ensures { result ≡ block_says title n i part.now }
{
    let k = heads::title_at(part);
    (usize::from(part[8]) == i) & ((part[9] == u8::from(i + 1 == n)) & k.is_same(title))
}

// Whether bytes are block i of n of a hand with this title.
#[tactic(auto, unfolding(crate::specs::Hand::block_fits))]
fn block_fits(title: Title, n: usize, i: usize, part: &[u8]) -> bool
    requires { i < n }
    ensures { result ≡ block_fits title n i part.now }
{
    if !block::is_block(part) {
        return false;
    }
    says(title, n, i, part)
}

// Whether each block fits.
fn blocks_fit(bytes: &[u8], n: usize) -> bool
    requires n_value { n ≡ blocks_in bytes.now }
    requires le_n { 1 ≤ n }
    ensures { result ≡ blocks_fit bytes.now }
{
    let title = heads::title_at(bytes);
    (0..n).all(|i| block_fits(title, n, i, &bytes[512 * i..512 * i + 512]))
}

// Entry i of a hand that has it.
fn word_in(bytes: &[u8], i: usize) -> u32
    requires { 512 * (i / 120) + 512 ≤ length bytes.now }
    ensures { result ≡ word_in bytes.now i }
{
    words::four_at(bytes, 512 * (i / 120) + 16 + 4 * (i % 120))
}

// Whether the entries of a hand's blocks are its lines.
fn is_spelt_in(bytes: &[u8], total: usize) -> bool
    requires le_total { 1 ≤ total }
    requires total_bound { total ≤ 120 * blocks_in bytes.now }
    ensures { result ≡ spells (words_from bytes.now 0 total) }
{
    lines::are_lines(total, |i| word_in(bytes, i))
}

// A hand's head, or 27: the bytes are those of one hand and no more.
pub fn read_hand(bytes: &[u8]) -> Result<HandHead, JournalError>
    ensures { result ≡ reads bytes.now }
{
    let n = bytes.len() / 512;
    if bytes.len() % 512 != 0 {
        return Err(JournalError::BadJournal);
    }
    if n < 1 {
        return Err(JournalError::BadJournal);
    }
    if !blocks_fit(bytes, n) {
        return Err(JournalError::BadJournal);
    }
    let used = usize::from(bytes[512 * (n - 1) + 10]);
    let entries = 120 * (n - 1) + used;
    if !is_spelt_in(bytes, entries) {
        return Err(JournalError::BadJournal);
    }
    let title = heads::title_at(bytes);
    Ok(HandHead {
        title,
        blocks: n,
        entries,
    })
}

// Entry i of a hand, 0 where its block is not there.
#[tactic(auto, unfolding(crate::specs::Hand::word_given))]
pub fn hand_entry(bytes: &[u8], i: usize) -> u32
    ensures { result ≡ word_given bytes.now i }
{
    if bytes.len() / 512 <= i / 120 {
        return 0;
    }
    word_in(bytes, i)
}
