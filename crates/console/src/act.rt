// What a line does to what stands. How the line came, read from a script or otherwise, is no matter here.
ghost use Rattle.std.specs.Prelude.{◌≡◌, Err};
ghost use Rattle.refusals.specs.declared.Refusal.TheVariants.{Added};
ghost use Rattle.table.specs.Pay.{bet_of, fold_of};
ghost use Rattle.table.specs.Rounds.{advance_of, complete_of};
ghost use Rattle.console.specs.Act.{act_number, acted, bad_line, needing, on_table, verdict_of, stepped, wagered, ranked, opened, keyed, act_of};
ghost use Rattle.console.specs.Opening.{chips_of, opening_of};

use crate::opening;
use builder::BuildStep;
use keys::HandKey;
use refusals::{AddedError, Refusal};
use script::line;
use script::line::{Line, Words};
use table::{BetStep, GameState, TableStep};

// What stands between two lines: a table, or none; and the key that the next table takes.
#[derive(Clone, Copy)]
pub struct State {
    pub table: Option<GameState>,
    pub key: HandKey,
}

// What a line gives: that it is accepted or why it is refused, and what stands after it.
#[derive(Clone, Copy)]
pub struct Act {
    pub answer: Result<(), Refusal>,
    pub state: State,
}

impl Act {
    // 0, or the number of the refusal.
    pub fn number(self) -> u8
        ensures { result ≡ act_number self }
    {
        refusals::verdict_number(self.answer)
    }
}

// A refused line leaves what stands.
fn refused(s: State, e: AddedError) -> Act
    ensures { result ≡ acted (Err (Added e)) s }
{
    Act {
        answer: Err(Refusal::Added(e)),
        state: s,
    }
}

fn bad_line(s: State) -> Act
    ensures { result ≡ bad_line s }
{
    refused(s, AddedError::BadLine)
}

// Of what a step answers, whether it is accepted.
fn verdict_of<T: Copy>(answer: Result<T, Refusal>) -> Result<(), Refusal>
    ensures { result ≡ verdict_of answer }
{
    answer.map(|_| ())
}

// What a step gives of the table that stands. The key stays.
fn given(key: HandKey, answer: Result<(), Refusal>, table: GameState) -> Act
    ensures { result ≡ acted answer (on_table table key) }
{
    Act {
        answer,
        state: State {
            table: Some(table),
            key,
        },
    }
}

fn stepped(key: HandKey, step: TableStep) -> Act
    ensures { result ≡ stepped key step }
{
    given(key, verdict_of(step.answer), step.table)
}

fn wagered(key: HandKey, step: BetStep) -> Act
    ensures { result ≡ wagered key step }
{
    given(key, verdict_of(step.answer), step.table)
}

// A settlement has a rank for each seat.
fn ranked(s: State, count: usize, numbers: [u16; 20]) -> Act
    ensures { result ≡ ranked s count numbers }
{
    match s.table {
        Some(t) if count == t.num_players => {
            let settled = settlement::settle(t, opening::ranks_of(numbers));
            given(s.key, settled.answer, settled.table)
        }
        _ => bad_line(s),
    }
}

// A new table, which uses the key up; or what stood where it is refused.
fn opened(s: State, step: BuildStep) -> Act
    ensures { result ≡ opened s step }
{
    match step.answer {
        Ok(()) => Act {
            answer: Ok(()),
            state: State {
                table: Some(step.table),
                key: keys::NONE,
            },
        },
        Err(r) => Act {
            answer: Err(r),
            state: s,
        },
    }
}

// The key for the next table, which asks whether it is good.
fn keyed(s: State, numbers: [u16; 20]) -> Act
    ensures { result ≡ keyed s numbers }
{
    Act {
        answer: Ok(()),
        state: State {
            table: s.table,
            key: HandKey {
                code: numbers[0],
                year: numbers[1],
                hand: u32::from(numbers[2]),
            },
        },
    }
}

// One line each, in a function of its own: what it holds on the stack is then not held beside that of the others.
fn new_table(s: State, count: usize, numbers: [u16; 20]) -> Act
    ensures { result ≡ opened s (opening_of s.key count numbers) }
{
    opened(s, opening::open_table(s.key, count, numbers))
}

fn advance(s: State) -> Act
    ensures { result ≡ needing s (λ t. stepped s.key (advance_of t)) }
{
    match s.table {
        Some(t) => stepped(s.key, t.advance_round()),
        None => bad_line(s),
    }
}

fn fold(s: State) -> Act
    ensures { result ≡ needing s (λ t. stepped s.key (fold_of t)) }
{
    match s.table {
        Some(t) => stepped(s.key, t.fold()),
        None => bad_line(s),
    }
}

fn bet(s: State, x: u16, is_forced: bool) -> Act
    ensures { result ≡ needing s (λ t. wagered s.key (bet_of t (chips_of x) is_forced)) }
{
    match s.table {
        Some(t) => wagered(s.key, t.do_bet(x as f32, is_forced)),
        None => bad_line(s),
    }
}

fn complete(s: State) -> Act
    ensures { result ≡ needing s (λ t. stepped s.key (complete_of t)) }
{
    match s.table {
        Some(t) => stepped(s.key, t.complete()),
        None => bad_line(s),
    }
}

// A line played.
#[tactic(auto, unfolding(crate::specs::Act::act_of))]
pub fn obey(w: Words, s: State) -> Act
    ensures { result ≡ act_of w s }
{
    let numbers = w.numbers;
    match line::meaning(w) {
        Ok(Line::Table) => new_table(s, w.count, numbers),
        Ok(Line::Advance) => advance(s),
        Ok(Line::Fold) => fold(s),
        Ok(Line::Bet(x)) => bet(s, x, false),
        Ok(Line::Forced(x)) => bet(s, x, true),
        Ok(Line::Complete) => complete(s),
        Ok(Line::Settle) => ranked(s, w.count, numbers),
        Ok(Line::Key) => keyed(s, numbers),
        Err(e) => refused(s, e),
    }
}
