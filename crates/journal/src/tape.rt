// The entries of a hand as they are collected: a line behind the lines before it.
ghost use Rattle.std.specs.Prelude.{◌≡◌, ◌+◌, ◌*◌, ◌≤◌, length};
ghost use Rattle.journal.specs.Tape.{put_line, tape_after, numbers_put};

use crate::laying::NotLaid;
use crate::lines;
use refusals::JournalError;

fn number_word(n: u16) -> u32
    ensures { result ≡ n * 65536 }
{
    u32::from(n) * 65536
}

fn put_numbers(tape: &mut [u32], at: usize, numbers: &[u16])
    requires { at + length numbers.now ≤ length tape.old }
    ensures { tape.new ≡ numbers_put (length numbers.now) tape.old at numbers.now }
{
    // By place and not by `iter_mut`: a proof does not know the elements that such a borrow leaves.
    for (i, n) in numbers.iter().enumerate() {
        tape[at + i] = number_word(*n);
    }
}

// A line laid behind the first entries: the entries used then. How many numbers `w` needs is judged with the whole hand.
pub fn put_line(tape: &mut [u32], at: usize, letter: u8, numbers: &[u16]) -> Result<usize, NotLaid>
    ensures answer { result ≡ put_line (length tape.old) at letter numbers.now }
    ensures tape { tape.new ≡ tape_after at letter numbers.now tape.old }
{
    let name = u32::from(letter);
    let count = numbers.len();
    if !lines::count_ok(name, count, count) {
        return Err(NotLaid::Denied(JournalError::BadJournal));
    }
    if tape.len() < at {
        return Err(NotLaid::NoRoom);
    }
    if tape.len() - at <= count {
        return Err(NotLaid::NoRoom);
    }
    let from = at + 1;
    tape[at] = name;
    put_numbers(tape, from, numbers);
    let used = from + count;
    Ok(used)
}
