// What a step, a build and a settlement come to, laid into the host's lists.
ghost use Rattle.std.specs.Prelude.{◌≡◌, length};
ghost use Rattle.layout.specs.Outcome.{floats_after, numbers_after, StandsAfter};
ghost use Rattle.peatcloak.specs.Calls.{stepped, judged};

use layout::outcome;
use refusals::{Refusal, verdict_number};
use table::{GameState, TableStep};

// Nothing is paid.
pub fn lay_step(floats: &mut [f32], numbers: &mut [u32], s: TableStep) -> u32
    ensures value { result ≡ (stepped s).number }
    ensures floats_after { floats.new ≡ floats_after (length numbers.old) (stepped s) floats.old }
    ensures numbers_after { numbers.new ≡ numbers_after (length floats.old) (stepped s) numbers.old }
    ensures stands { StandsAfter (length floats.old) (length numbers.old) (stepped s) floats.new numbers.new }
{
    let answer = s.answer;
    let t = s.table;
    outcome::lay(
        floats,
        numbers,
        verdict_number(answer),
        t,
        0.0,
        answer.unwrap_or(0),
    )
}

// It passes to no seat either.
pub fn lay_verdict(
    floats: &mut [f32],
    numbers: &mut [u32],
    v: Result<(), Refusal>,
    t: GameState,
) -> u32
    ensures value { result ≡ (judged v t).number }
    ensures floats_after { floats.new ≡ floats_after (length numbers.old) (judged v t) floats.old }
    ensures numbers_after { numbers.new ≡ numbers_after (length floats.old) (judged v t) numbers.old }
    ensures stands { StandsAfter (length floats.old) (length numbers.old) (judged v t) floats.new numbers.new }
{
    outcome::lay(floats, numbers, verdict_number(v), t, 0.0, 0)
}
