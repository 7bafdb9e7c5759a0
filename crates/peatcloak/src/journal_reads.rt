// A hand of the journal read from bytes of the host's, and told in its lists.
ghost use Rattle.std.specs.Prelude.{◌≡◌};
ghost use Rattle.peatcloak.specs.Reading.{read_number, block_read_told, read_block_on, hand_read_told, read_hand_on, line_at_on};

use crate::journal_words;
use journal::block::Head;
use journal::hand::HandHead;
use journal::{block, hand, reading};
use layout::words;
use refusals::JournalError;

// ---- a block

fn tell_block(head: &mut [u32], read: Result<Head, JournalError>) -> u32
    ensures value { result ≡ read_number read }
    ensures head_after { head.new ≡ block_read_told read head.old }
{
    match read {
        Err(e) => journal_words::refused(e),
        Ok(h) => {
            let list = journal_words::block_words(h);
            commons::copying::copy(head, 0, &list, 0, 7);
            0
        }
    }
}

// One block: what it says of itself.
#[unsafe(no_mangle)]
pub extern "C" fn peatcloak_read_block(bytes: &[u8], head: &mut [u32]) -> u32
    ensures value { result ≡ (read_block_on bytes.now head.old).number }
    ensures head_after { head.new ≡ (read_block_on bytes.now head.old).head }
{
    if 7 <= head.len() {
        let read = block::read_block(bytes);
        return tell_block(head, read);
    }
    19
}

// ---- a hand

fn tell_hand(head: &mut [u32], read: Result<HandHead, JournalError>) -> u32
    ensures value { result ≡ read_number read }
    ensures head_after { head.new ≡ hand_read_told read head.old }
{
    match read {
        Err(e) => journal_words::refused(e),
        Ok(h) => {
            let list = journal_words::hand_words(h);
            commons::copying::copy(head, 0, &list, 0, 6);
            0
        }
    }
}

// The bytes of one hand and no more: what they say of it.
#[unsafe(no_mangle)]
pub extern "C" fn peatcloak_read_hand(bytes: &[u8], head: &mut [u32]) -> u32
    ensures value { result ≡ (read_hand_on bytes.now head.old).number }
    ensures head_after { head.new ≡ (read_hand_on bytes.now head.old).head }
{
    if 6 <= head.len() {
        let read = hand::read_hand(bytes);
        return tell_hand(head, read);
    }
    19
}

// ---- a line

// The line whose letter is entry `at`, and the place after it.
#[unsafe(no_mangle)]
pub extern "C" fn peatcloak_line_at(
    bytes: &[u8],
    at: usize,
    line: &mut [u32],
    numbers: &mut [u16],
) -> u32
    ensures value { result ≡ (line_at_on bytes.now at line.old numbers.old).number }
    ensures line_after { line.new ≡ (line_at_on bytes.now at line.old numbers.old).line }
    ensures numbers_after { numbers.new ≡ (line_at_on bytes.now at line.old numbers.old).numbers }
{
    if (3 <= line.len()) & (20 <= numbers.len()) {
        let read = reading::line_at(bytes, at);
        let w = read.words;
        let list = w.numbers;
        let told = [
            words::word_of_byte(w.letter),
            words::word_of(w.count),
            words::word_of(read.next),
        ];
        commons::copying::copy(line, 0, &told, 0, 3);
        commons::copying::copy(numbers, 0, &list, 0, 20);
        return 0;
    }
    19
}
