// The table that a line leaves: the one before it with the line's changes, each a place and a word.
use crate::agreeing::Answer;
use crate::reading::{Mark, Tokens, Word};
use crate::words;
use crate::words::{WORDS, Words};

// One change. A word that does not differ from the one before it is malformed.
fn change(line: &mut Tokens, table: &mut Words) -> Option<()> {
    let place: usize = line.read_to(b':')?;
    let Word(word) = line.read()?;
    if place < WORDS && word != table[place] {
        table[place] = word;
        return Some(());
    }
    None
}

// The changes up to the line's end. There are no more than places.
pub fn change_all(line: &mut Tokens, table: &mut Words) -> Option<()> {
    // Each change takes a place at least: no measure is needed.
    for _ in 0..WORDS {
        if !line.has_more() {
            break;
        }
        change(line, table)?;
    }
    Some(())
}

// The list's own table after a line whose answer is next: so many values stand before the changes. A refusal has its number and
// nothing else.
fn follow(line: &mut Tokens, values: usize, table: &mut Words) -> Option<()> {
    let Mark(mark) = line.read()?;
    if mark == b'!' {
        return line.skip();
    }
    // So many values stand in the line, one behind the other; the line's own place counts them.
    for _ in 0..values {
        line.skip()?;
    }
    change_all(line, table)
}

// What we tell of a line whose answer is next, with our table after it, is held against the line and the list's own table, which
// follows the line in any case. Two zeros differ where the tables are held by their bits.
pub fn agree(
    line: &mut Tokens,
    values: usize,
    told: Option<Answer>,
    ours: &Words,
    by_bits: bool,
    table: &mut Words,
) -> Option<Answer> {
    follow(line, values, table)?;
    if words::is_same_table(ours, table, by_bits) {
        return told;
    }
    None
}

// A line that loads a table agrees where our words of what it loads are its own.
pub fn agree_loaded(ours: &Words, table: &Words) -> Option<Answer> {
    words::is_same_table(ours, table, false).then_some(Answer::Loaded)
}
