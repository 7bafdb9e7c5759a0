// The list of settlements.
use crate::agreeing::Answer;
use crate::lists::List;
use crate::reading::{Mark, Token, Tokens, Word};
use crate::words::Words;
use crate::{agreeing, changes, loading, table_words};
use settlement::Settled;
use table::GameState;

#[derive(Drop)]
pub struct Settlements {
    pub table: Words,
}

// A reward: a signed number, in two's complement.
impl Token for i32 {
    fn parse(token: &[u8]) -> Option<i32> {
        let Word(word) = Word::parse(token)?;
        Some(i32::from_be_bytes(word.to_be_bytes()))
    }
}

// A line has a rank and a reward for each seat, and sixteen ranks where the record is not sound.
fn seat_count(t: GameState) -> usize {
    if t.is_sound() { t.num_players } else { 16 }
}

fn say_rewards(line: &mut Tokens, count: usize, rewards: &[i32; 16]) -> Option<Answer> {
    agreeing::answered(line)?;
    for reward in rewards.iter().take(count) {
        line.says(*reward)?;
    }
    Some(Answer::Given)
}

fn say_settled(mut line: Tokens, count: usize, s: &Settled) -> Option<Answer> {
    match s.answer {
        Ok(()) => say_rewards(&mut line, count, &s.rewards),
        Err(why) => agreeing::refused(&mut line, why.number()),
    }
}

// Here two zeros differ: what gets no chip is not written.
fn settle(line: &mut Tokens, table: &mut Words) -> Option<Answer> {
    let t = table_words::table_at(table);
    let count = seat_count(t);
    let mut ranks = [0u16; 16];
    line.read_into(count, &mut ranks)?;
    let s = settlement::settle(t, ranks);
    let ours = table_words::of_table(s.table);
    let told = say_settled(*line, count, &s);
    changes::agree(line, count, told, &ours, true, table)
}

impl List for Settlements {
    fn ask(&mut self, line: &mut Tokens) -> Option<Answer> {
        let Mark(letter) = line.read()?;
        match letter {
            b'T' => loading::load(line, true, &mut self.table),
            b'U' => loading::load(line, false, &mut self.table),
            b's' => settle(line, &mut self.table),
            _ => None,
        }
    }
}
