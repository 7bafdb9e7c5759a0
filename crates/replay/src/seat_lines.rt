// The list of PlayerBitSet.
use crate::agreeing;
use crate::agreeing::Answer;
use crate::lists::List;
use crate::reading::{Mark, Tokens};
use seats::{PlayerBitSet, SeatStep, SetStep};

#[derive(Drop)]
pub struct Seats;

// A set that is given without fail.
fn told_set(line: &mut Tokens, ours: PlayerBitSet) -> Option<Answer> {
    agreeing::given(line, ours.set)
}

// A set that is made, or the set before it that stays.
fn told_step(line: &mut Tokens, before: u16, step: SetStep) -> Option<Answer> {
    let answer = step.answer;
    match answer {
        Ok(()) => told_set(line, step.set),
        Err(why) if step.set.set == before => agreeing::refused(line, why.number()),
        Err(_) => None,
    }
}

fn told_seat(line: &mut Tokens, before: u16, step: SeatStep) -> Option<Answer> {
    if step.set.set != before {
        return None;
    }
    let answer = step.answer;
    match answer {
        Ok(is_in) => agreeing::given(line, is_in),
        Err(why) => agreeing::refused(line, why.number()),
    }
}

fn count(line: &mut Tokens) -> Option<Answer> {
    let set: PlayerBitSet = line.read()?;
    agreeing::answered(line)?;
    line.says(set.count())?;
    line.says(set.empty())?;
    Some(Answer::Given)
}

// A letter that asks with a set and a seat.
fn ask_seat(letter: u8, line: &mut Tokens) -> Option<Answer> {
    let set: PlayerBitSet = line.read()?;
    let seat: usize = line.read()?;
    match letter {
        b'e' => told_step(line, set.set, set.enable(seat)),
        b'd' => told_step(line, set.set, set.disable(seat)),
        b'g' => told_seat(line, set.set, set.get(seat)),
        // 16 where none is left
        _ => agreeing::given(line, set.ones(seat).unwrap_or(16)),
    }
}

// A letter that asks with two sets.
fn ask_two(letter: u8, line: &mut Tokens) -> Option<Answer> {
    let a: PlayerBitSet = line.read()?;
    let b: PlayerBitSet = line.read()?;
    if letter == b'o' {
        told_set(line, a.bitor(b))
    } else {
        told_set(line, a.bitand(b))
    }
}

impl List for Seats {
    fn ask(&mut self, line: &mut Tokens) -> Option<Answer> {
        let Mark(letter) = line.read()?;
        match letter {
            b'z' => told_set(line, PlayerBitSet::default()),
            b'n' => {
                let players: usize = line.read()?;
                told_step(line, 0, PlayerBitSet::new(players))
            }
            b'c' => count(line),
            b'e' | b'd' | b'g' | b'i' => ask_seat(letter, line),
            b'o' | b'a' => ask_two(letter, line),
            _ => None,
        }
    }
}
