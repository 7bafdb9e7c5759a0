// A run of bets by value, inside: for the speed of a bet that does not cross the boundary.
ghost use Rattle.std.specs.Prelude.{◌≡◌, ◌+◌, length};
ghost use Rattle.layout.specs.Outcome.{outcome, floats_after, numbers_after};
ghost use Rattle.parts.specs.Run.{paid_after, one_if_taken, ran_to, run_on, Stands};

use layout::{outcome, standing};
use refusals::{AddedError, Refusal};
use table::{BetStep, GameState, Paid};

// The table after a run, what was paid, and how many bets were taken.
#[derive(Clone, Copy)]
pub struct Run {
    pub table: GameState,
    pub paid: f32,
    pub taken: usize,
}

// What was paid so far, with the payment of a bet that is taken.
fn paid_after(paid: f32, answer: Result<Paid, Refusal>) -> f32
    ensures { result ≡ paid_after paid answer }
{
    match answer {
        Ok(p) => paid + p.amount,
        Err(_) => paid,
    }
}

fn one_if_taken(answer: Result<Paid, Refusal>) -> usize
    ensures { result ≡ one_if_taken answer }
{
    match answer {
        Ok(_) => 1,
        Err(_) => 0,
    }
}

fn run_from(table: GameState, amounts: &[f32]) -> Run
    ensures { outcome 0 result.table result.paid result.taken ≡ ran_to (length amounts.now) amounts.now table }
{
    // the step holds the table, so that each turn copies it once less
    let mut s = BetStep {
        answer: Err(Refusal::Added(AddedError::BadRecord)),
        table,
    };
    let mut paid = 0.0f32;
    let mut taken = 0usize;
    for amount in amounts {
        s = s.table.do_bet(*amount, false);
        let answer = s.answer;
        paid = paid_after(paid, answer);
        taken += one_if_taken(answer);
    }
    let t = s.table;
    Run {
        table: t,
        paid,
        taken,
    }
}

// The amounts one after another as voluntary bets, each on the table that the one before it left. Its answers stand at `places::RUN_PAID` and
// `places::RUN_TAKEN`.
#[unsafe(no_mangle)]
pub extern "C" fn peatcloak_run_bets(
    floats: &mut [f32],
    numbers: &mut [u32],
    amounts: &[f32],
) -> u32
    ensures value { result ≡ (run_on floats.old numbers.old amounts.now).number }
    ensures floats_after { floats.new ≡ floats_after (length numbers.old) (run_on floats.old numbers.old amounts.now) floats.old }
    ensures numbers_after { numbers.new ≡ numbers_after (length floats.old) (run_on floats.old numbers.old amounts.now) numbers.old }
    ensures stands { Stands result floats.new numbers.new (run_on floats.old numbers.old amounts.now) }
{
    let t = standing::table(floats, numbers);
    if standing::stands(floats.len(), numbers) & t.is_sound() {
        let ran = run_from(t, amounts);
        let after = ran.table;
        return outcome::lay(floats, numbers, 0, after, ran.paid, ran.taken);
    }
    19
}
