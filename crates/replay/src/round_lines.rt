// The list of RoundData alone.
use crate::agreeing::Answer;
use crate::lists::List;
use crate::reading::{Mark, Tokens};
use crate::words::Words;
use crate::{agreeing, changes, table_words, words};
use refusals::Refusal;
use rounds::{RoundData, RoundStep};

#[derive(Drop)]
pub struct Rounds {
    pub table: Words,
}

// A walk says how many seats it passed to; a step without one passes none, and says nothing.
fn say_passed(line: &mut Tokens, is_walk: bool, passed: usize) -> Option<Answer> {
    agreeing::answered(line)?;
    if is_walk {
        line.says(passed)?;
    } else if passed != 0 {
        return None;
    }
    Some(Answer::Given)
}

fn say_step(mut line: Tokens, is_walk: bool, answer: Result<usize, Refusal>) -> Option<Answer> {
    match answer {
        Ok(passed) => say_passed(&mut line, is_walk, passed),
        Err(why) => agreeing::refused(&mut line, why.number()),
    }
}

// A step's answer and its round data, against the line and the list's own table after it.
fn told_step(
    line: &mut Tokens,
    is_walk: bool,
    step: RoundStep,
    table: &mut Words,
) -> Option<Answer> {
    let ours = table_words::of_data(step.round_data);
    let told = say_step(*line, is_walk, step.answer);
    changes::agree(line, usize::from(is_walk), told, &ours, false, table)
}

fn new(line: &mut Tokens, table: &mut Words) -> Option<Answer> {
    *table = words::ZEROS;
    let step = RoundData::new(line.read()?, line.read()?, line.read()?, line.read()?);
    told_step(line, false, step, table)
}

fn new_with_bets(line: &mut Tokens, table: &mut Words) -> Option<Answer> {
    *table = words::ZEROS;
    let min_raise: f32 = line.read()?;
    let active = line.read()?;
    let to_act: usize = line.read()?;
    let count: usize = line.read()?;
    let mut room: [f32; 64] = [0.0; 64];
    let bets = line.read_into(count, &mut room)?;
    let step = RoundData::new_with_bets(min_raise, active, to_act, bets);
    told_step(line, false, step, table)
}

// Round data that is loaded: our words of it are the line's.
fn load(line: &mut Tokens, table: &mut Words) -> Option<Answer> {
    *table = words::ZEROS;
    changes::change_all(line, table)?;
    changes::agree_loaded(&table_words::of_data(table_words::data_at(table)), table)
}

fn do_bet(line: &mut Tokens, table: &mut Words) -> Option<Answer> {
    let amount: f32 = line.read()?;
    let is_forced: bool = line.read()?;
    let step = table_words::data_at(table).do_bet(amount, is_forced);
    told_step(line, false, step, table)
}

// Three queries are said where the last one has an answer.
fn queries(line: &mut Tokens, d: RoundData) -> Option<Answer> {
    match d.current_player_bet() {
        Ok(bet) => {
            agreeing::answered(line)?;
            line.says(d.num_players_need_action())?;
            line.says(d.is_action_unopened())?;
            agreeing::says_float(line, bet)?;
            Some(Answer::Given)
        }
        Err(why) => agreeing::refused(line, why.number()),
    }
}

impl List for Rounds {
    fn ask(&mut self, line: &mut Tokens) -> Option<Answer> {
        let table = &mut self.table;
        let Mark(letter) = line.read()?;
        match letter {
            b'N' => new(line, table),
            b'B' => new_with_bets(line, table),
            b'L' => load(line, table),
            b'w' => told_step(
                line,
                true,
                table_words::data_at(table).advance_action(),
                table,
            ),
            b'b' => do_bet(line, table),
            b'q' => queries(line, table_words::data_at(table)),
            _ => None,
        }
    }
}
