// What a call comes to: a number, and the table that is laid where the number is 0.
ghost use Rattle.std.specs.Prelude.{◌≡◌, length};
ghost use Rattle.layout.specs.Outcome.{outcome, floats_after, numbers_after, StandsAfter};

use crate::{laying, words};
use table::GameState;

// A refusal writes nothing. Where it is accepted, a sound table is the one that then stands there. The parts come one by one: a struct of them would be
// one more copy of the table.
pub fn lay(
    floats: &mut [f32],
    numbers: &mut [u32],
    number: u8,
    t: GameState,
    paid: f32,
    passed: usize,
) -> u32
    ensures value { result ≡ number }
    ensures floats_after { floats.new ≡ floats_after (length numbers.old) (outcome number t paid passed) floats.old }
    ensures numbers_after { numbers.new ≡ numbers_after (length floats.old) (outcome number t paid passed) numbers.old }
    ensures stands { StandsAfter (length floats.old) (length numbers.old) (outcome number t paid passed) floats.new numbers.new }
{
    if number == 0 {
        laying::lay(floats, numbers, t, paid, passed);
        return 0;
    }
    words::word_of_byte(number)
}
