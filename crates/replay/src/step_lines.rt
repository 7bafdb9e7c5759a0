// The list of GameState.
use crate::agreeing::Answer;
use crate::lists::List;
use crate::reading::{Mark, Tokens};
use crate::words::Words;
use crate::{agreeing, changes, loading, table_words};
use refusals::Refusal;
use table::{AgentAction, BetStep, GameState, Paid, TableStep};

#[derive(Drop)]
pub struct Steps {
    pub table: Words,
}

// A step that is taken says how many seats its walk passed to, 0 where it has none.
fn say_step(mut line: Tokens, answer: Result<usize, Refusal>) -> Option<Answer> {
    match answer {
        Ok(passed) => agreeing::given(&mut line, passed),
        Err(why) => agreeing::refused(&mut line, why.number()),
    }
}

fn told_step(line: &mut Tokens, step: TableStep, table: &mut Words) -> Option<Answer> {
    let ours = table_words::of_table(step.table);
    let told = say_step(*line, step.answer);
    changes::agree(line, 1, told, &ours, false, table)
}

fn say_paid(line: &mut Tokens, paid: Paid) -> Option<Answer> {
    agreeing::answered(line)?;
    agreeing::says_float(line, paid.amount)?;
    line.says(paid.passed)?;
    Some(Answer::Given)
}

// A bet says what is paid, and how many seats the walk passed to.
fn say_bet(mut line: Tokens, answer: Result<Paid, Refusal>) -> Option<Answer> {
    match answer {
        Ok(paid) => say_paid(&mut line, paid),
        Err(why) => agreeing::refused(&mut line, why.number()),
    }
}

fn told_bet(line: &mut Tokens, step: BetStep, table: &mut Words) -> Option<Answer> {
    let ours = table_words::of_table(step.table);
    let told = say_bet(*line, step.answer);
    changes::agree(line, 2, told, &ours, false, table)
}

fn do_bet(line: &mut Tokens, t: GameState, is_forced: bool, table: &mut Words) -> Option<Answer> {
    let amount: f32 = line.read()?;
    told_bet(line, t.do_bet(amount, is_forced), table)
}

fn award(line: &mut Tokens, t: GameState, table: &mut Words) -> Option<Answer> {
    let seat: usize = line.read()?;
    let amount: f32 = line.read()?;
    told_step(line, t.award(seat, amount), table)
}

fn player_reward(line: &mut Tokens, t: GameState) -> Option<Answer> {
    let seat: usize = line.read()?;
    match t.player_reward(seat) {
        Ok(reward) => {
            agreeing::answered(line)?;
            agreeing::says_float(line, reward)?;
            Some(Answer::Given)
        }
        Err(why) => agreeing::refused(line, why.number()),
    }
}

fn queries(line: &mut Tokens, t: GameState) -> Option<Answer> {
    let seat: usize = line.read()?;
    agreeing::answered(line)?;
    line.says(t.is_raise_capped())?;
    line.says(t.num_active_players())?;
    line.says(t.num_all_in_players())?;
    line.says(t.is_complete())?;
    line.says(t.to_act_idx())?;
    agreeing::says_float(line, t.current_player_stack())?;
    agreeing::says_float(line, t.current_player_starting_stack())?;
    agreeing::says_float(line, t.current_round_current_player_bet())?;
    agreeing::says_float(line, t.current_round_bet())?;
    agreeing::says_float(line, t.current_round_player_bet(seat))?;
    line.says(t.current_round_num_active_players())?;
    agreeing::says_float(line, t.current_round_min_raise())?;
    Some(Answer::Given)
}

// A letter that asks of the table that stands.
fn ask_standing(letter: u8, line: &mut Tokens, table: &mut Words) -> Option<Answer> {
    let t = table_words::table_at(table);
    match letter {
        b'b' => do_bet(line, t, false, table),
        b'p' => do_bet(line, t, true, table),
        b'C' => told_bet(line, t.choose(AgentAction::Call), table),
        b'A' => told_bet(line, t.choose(AgentAction::AllIn), table),
        b'w' => award(line, t, table),
        b'n' => told_step(line, t.advance_round(), table),
        b'x' => told_step(line, t.complete(), table),
        b'f' => told_step(line, t.fold(), table),
        b'v' => player_reward(line, t),
        b'q' => queries(line, t),
        _ => None,
    }
}

impl List for Steps {
    fn ask(&mut self, line: &mut Tokens) -> Option<Answer> {
        let Mark(letter) = line.read()?;
        match letter {
            b'T' => loading::load(line, true, &mut self.table),
            b'U' => loading::load(line, false, &mut self.table),
            _ => ask_standing(letter, line, &mut self.table),
        }
    }
}
