// A hand written for the journal, from lists of the host's: line by line onto a tape of entries, then the tape in whole or block by block into bytes.
ghost use Rattle.std.specs.Prelude.{◌≡◌, Err};
ghost use Rattle.peatcloak.specs.Writing.{not_laid, laid_number, put_out, put_line_on, hand_number, hand_out, write_hand_on, follows, block_out, write_block_on};

use crate::journal_words;
use journal::hand::NotWritten;
use journal::laying::{Laid, NotLaid};
use journal::{hand, laying, tape};
use layout::words;

// Why nothing is laid, be it a line or a block.
fn not_laid(e: NotLaid) -> u32
    ensures { result ≡ not_laid e }
{
    match e {
        NotLaid::Denied(refusal) => journal_words::refused(refusal),
        NotLaid::NoRoom => 19,
    }
}

// ---- a line

fn tell_put(out: &mut [u32], p: Result<usize, NotLaid>) -> u32
    ensures value { result ≡ laid_number p }
    ensures out_after { out.new ≡ put_out p out.old }
{
    match p {
        Ok(used) => {
            journal_words::tell(out, words::word_of(used));
            0
        }
        Err(e) => not_laid(e),
    }
}

// A line laid behind the entries that are used: how many are used then.
#[unsafe(no_mangle)]
pub extern "C" fn peatcloak_put_line(
    tape: &mut [u32],
    used: usize,
    letter: u32,
    numbers: &[u16],
    out: &mut [u32],
) -> u32
    ensures value { result ≡ (put_line_on tape.old used letter numbers.now out.old).number }
    ensures tape_after { tape.new ≡ (put_line_on tape.old used letter numbers.now out.old).list }
    ensures out_after { out.new ≡ (put_line_on tape.old used letter numbers.now out.old).out }
{
    if 1 <= out.len() {
        let put = tape::put_line(tape, used, journal_words::letter_of(letter), numbers);
        return tell_put(out, put);
    }
    19
}

// ---- a hand in whole

// The blocks are told where there is too little room for them too.
fn tell_unwritten(out: &mut [u32], e: NotWritten) -> u32
    ensures value { result ≡ hand_number (Err e) }
    ensures out_after { out.new ≡ hand_out (Err e) out.old }
{
    match e {
        NotWritten::Denied(refusal) => journal_words::refused(refusal),
        NotWritten::NoRoom(blocks) => {
            journal_words::tell(out, words::word_of(blocks));
            19
        }
    }
}

fn tell_hand(out: &mut [u32], w: Result<usize, NotWritten>) -> u32
    ensures value { result ≡ hand_number w }
    ensures out_after { out.new ≡ hand_out w out.old }
{
    match w {
        Ok(blocks) => {
            journal_words::tell(out, words::word_of(blocks));
            0
        }
        Err(e) => tell_unwritten(out, e),
    }
}

// A tape of entries written as the blocks of a hand.
#[unsafe(no_mangle)]
pub extern "C" fn peatcloak_write_hand(
    title: &[u32],
    tape: &[u32],
    bytes: &mut [u8],
    out: &mut [u32],
) -> u32
    ensures value { result ≡ (write_hand_on title.now tape.now bytes.old out.old).number }
    ensures bytes_after { bytes.new ≡ (write_hand_on title.now tape.now bytes.old out.old).list }
    ensures out_after { out.new ≡ (write_hand_on title.now tape.now bytes.old out.old).out }
{
    if (1 <= out.len()) & journal_words::title_fits(title) {
        let of = journal_words::title_of(title);
        let written = hand::write_hand(of, tape, bytes);
        return tell_hand(out, written);
    }
    19
}

// ---- a block

// Whether another must follow.
fn follows(laid: Laid) -> u32
    ensures { result ≡ follows laid }
{
    match laid {
        Laid::More => 1,
        Laid::Last => 0,
    }
}

fn tell_block(out: &mut [u32], b: Result<Laid, NotLaid>) -> u32
    ensures value { result ≡ laid_number b }
    ensures out_after { out.new ≡ block_out b out.old }
{
    match b {
        Ok(laid) => {
            journal_words::tell(out, follows(laid));
            0
        }
        Err(e) => not_laid(e),
    }
}

// One block of a hand, from the entries that are left of it: whether another must follow.
#[unsafe(no_mangle)]
pub extern "C" fn peatcloak_write_block(
    title: &[u32],
    index: u32,
    rest: &[u32],
    bytes: &mut [u8],
    out: &mut [u32],
) -> u32
    ensures value { result ≡ (write_block_on title.now index rest.now bytes.old out.old).number }
    ensures bytes_after { bytes.new ≡ (write_block_on title.now index rest.now bytes.old out.old).list }
    ensures out_after { out.new ≡ (write_block_on title.now index rest.now bytes.old out.old).out }
{
    if (1 <= out.len()) & ((index < 256) & journal_words::title_fits(title)) {
        let of = journal_words::title_of(title);
        let laid = laying::lay_block(of, journal_words::index_of(index), rest, bytes);
        return tell_block(out, laid);
    }
    19
}
