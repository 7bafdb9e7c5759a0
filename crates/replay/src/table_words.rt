// The table, or the round data, that stands in a list's words, and the words of ours: through a host's two lists.
use crate::words;
use crate::words::{WORDS, Words};
use layout::{laying, places, standing};
use rounds::RoundData;
use table::GameState;

// What the Rust's record lacks is not in a list: zeros.
fn numbers_of(table: &Words) -> [u32; places::NUMBERS] {
    let mut numbers = [0u32; places::NUMBERS];
    numbers[..places::ADDED].copy_from_slice(&table[..places::ADDED]);
    numbers
}

fn floats_of(table: &Words) -> [f32; places::FLOATS] {
    let mut floats: [f32; places::FLOATS] = [0.0; places::FLOATS];
    for (float, word) in floats.iter_mut().zip(&table[places::ADDED..]) {
        *float = words::float_of(*word);
    }
    floats
}

fn words_of(floats: [f32; places::FLOATS], numbers: [u32; places::NUMBERS]) -> Words {
    let mut table = [0u32; WORDS];
    table[..places::ADDED].copy_from_slice(&numbers[..places::ADDED]);
    for (word, float) in table[places::ADDED..].iter_mut().zip(&floats) {
        *word = words::word_of(*float);
    }
    table
}

// A word that is out of its range is read cut to it: seen when the words are compared.
pub fn table_at(table: &Words) -> GameState {
    let floats = floats_of(table);
    let numbers = numbers_of(table);
    standing::table(&floats, &numbers)
}

// So is the round data.
pub fn data_at(table: &Words) -> RoundData {
    table_at(table).round_data
}

// A line tells a payment and a count beside the table, not in it.
pub fn of_table(t: GameState) -> Words {
    let mut floats: [f32; places::FLOATS] = [0.0; places::FLOATS];
    let mut numbers = [0u32; places::NUMBERS];
    laying::lay(&mut floats, &mut numbers, t, 0.0, 0);
    words_of(floats, numbers)
}

pub fn of_data(d: RoundData) -> Words {
    let mut floats: [f32; places::FLOATS] = [0.0; places::FLOATS];
    let mut numbers = [0u32; places::NUMBERS];
    laying::lay_data(&mut floats, &mut numbers, d, 0);
    words_of(floats, numbers)
}
