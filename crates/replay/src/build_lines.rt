// The list of GameStateBuilder.
use crate::agreeing::Answer;
use crate::lists::List;
use crate::reading::{Mark, Tokens};
use crate::words::Words;
use crate::{agreeing, changes, inputs, table_words, words};
use builder::{BuildStep, GameStateBuilder};
use keys::HandKey;
use layout::words::{round_at, sixteen_at, word_of};
use refusals::Refusal;
use rounds::RoundData;

#[derive(Drop)]
pub struct Builds {
    pub table: Words,
}

// Whether a field is given: its letter stands, or a dash.
fn is_given(line: &mut Tokens, letter: u8) -> Option<bool> {
    let Mark(mark) = line.read()?;
    if mark == letter {
        return Some(true);
    }
    if mark == b'-' {
        return Some(false);
    }
    None
}

// The stacks stand in one of two forms: so many seats with one stack each, or a list.
fn with_stacks(line: &mut Tokens, b: GameStateBuilder) -> Option<GameStateBuilder> {
    let Mark(mark) = line.read()?;
    match mark {
        b'W' => {
            let players: usize = line.read()?;
            let stack: f32 = line.read()?;
            Some(b.num_players_with_stack(players, stack))
        }
        b'S' => {
            let count: usize = line.read()?;
            let mut room: [f32; 64] = [0.0; 64];
            Some(b.stacks(line.read_into(count, &mut room)?))
        }
        b'-' => Some(b),
        _ => None,
    }
}

fn with_blinds(line: &mut Tokens, b: GameStateBuilder) -> Option<GameStateBuilder> {
    let mut b = b;
    if is_given(line, b'G')? {
        b = b.big_blind(line.read()?);
    }
    if is_given(line, b'M')? {
        b = b.small_blind(line.read()?);
    }
    if is_given(line, b'A')? {
        b = b.ante(line.read()?);
    }
    Some(b)
}

fn with_cap(line: &mut Tokens, b: GameStateBuilder) -> Option<GameStateBuilder> {
    let is_capped: bool = line.read()?;
    let cap: u8 = if is_capped { line.read()? } else { 0 };
    Some(b.max_raises_per_round(is_capped, cap))
}

fn with_board(line: &mut Tokens, b: GameStateBuilder) -> Option<GameStateBuilder> {
    let count: usize = line.read()?;
    let mut room = [0u8; 64];
    Some(b.board(line.read_into(count, &mut room)?))
}

// The dealer, the cap on raises, the round, the board and the count of hands.
fn with_place(line: &mut Tokens, b: GameStateBuilder) -> Option<GameStateBuilder> {
    let mut b = b;
    if is_given(line, b'D')? {
        b = b.dealer_idx(line.read()?);
    }
    if is_given(line, b'R')? {
        b = with_cap(line, b)?;
    }
    if is_given(line, b'O')? {
        b = b.round(round_at(&[word_of(line.read()?)], 0));
    }
    if is_given(line, b'C')? {
        b = with_board(line, b)?;
    }
    if is_given(line, b'H')? {
        b = b.hands(line.read()?);
    }
    Some(b)
}

fn read_data(line: &mut Tokens) -> Option<RoundData> {
    let mut data = RoundData {
        starting_player_active: line.read()?,
        needs_action: line.read()?,
        min_raise: line.read()?,
        bet: line.read()?,
        player_bet: [0.0; 16],
        player_bet_len: 0,
        total_bet_count: line.read()?,
        total_raise_count: line.read()?,
        forced_bet_count: line.read()?,
        to_act_idx: line.read()?,
    };
    data.player_bet_len = line.read()?;
    let mut room: [f32; 64] = [0.0; 64];
    line.read_into(data.player_bet_len, &mut room)?;
    data.player_bet = sixteen_at(&room, 0);
    Some(data)
}

// The hand's bets and the round's data.
fn with_bets(line: &mut Tokens, b: GameStateBuilder) -> Option<GameStateBuilder> {
    let mut b = b;
    if is_given(line, b'P')? {
        let count: usize = line.read()?;
        let mut room: [f32; 64] = [0.0; 64];
        b = b.player_bet(line.read_into(count, &mut room)?);
    }
    if is_given(line, b'Q')? {
        b = b.round_data(read_data(line)?);
    }
    Some(b)
}

fn read_builder(line: &mut Tokens) -> Option<GameStateBuilder> {
    let stacks = with_stacks(line, GameStateBuilder::new())?;
    let blinds = with_blinds(line, stacks)?;
    let place = with_place(line, blinds)?;
    with_bets(line, place)
}

// A table that is built has the key that was given, a refused build none.
fn is_keyed(step: &BuildStep, given: HandKey) -> bool {
    let key = step.table.added.key;
    match step.answer {
        Ok(()) => key == given,
        Err(_) => key == keys::NONE,
    }
}

fn say_built(mut line: Tokens, answer: Result<(), Refusal>) -> Option<Answer> {
    match answer {
        Ok(()) => {
            agreeing::answered(&mut line)?;
            Some(Answer::Given)
        }
        Err(why) => agreeing::refused(&mut line, why.number()),
    }
}

fn told_step(
    line: &mut Tokens,
    key: HandKey,
    step: BuildStep,
    table: &mut Words,
) -> Option<Answer> {
    if !is_keyed(&step, key) {
        return None;
    }
    let ours = table_words::of_table(step.table);
    let told = say_built(*line, step.answer);
    changes::agree(line, 0, told, &ours, false, table)
}

// A key stands last, and only where one is given. The line says which key the table must have, not the builder that was told it.
fn ask_builder(line: &mut Tokens, table: &mut Words) -> Option<Answer> {
    *table = words::ZEROS;
    let b = read_builder(line)?;
    let mut after = *line;
    let Mark(mark) = after.read()?;
    if mark != b'K' {
        return told_step(line, keys::NONE, b.build(), table);
    }
    let key = inputs::read_key(&mut after)?;
    *line = after;
    told_step(line, key, b.hand_key(key).build(), table)
}

impl List for Builds {
    fn ask(&mut self, line: &mut Tokens) -> Option<Answer> {
        let Mark(letter) = line.read()?;
        match letter {
            b'b' => ask_builder(line, &mut self.table),
            _ => None,
        }
    }
}
