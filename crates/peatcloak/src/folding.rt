// The fold in place: the active seats, the owing ones, the turn and the two answers are written, and no other.
ghost use Rattle.std.specs.Prelude.{◌≡◌, true, ◌≤◌, length};
ghost use Rattle.table.specs.Pay.{fold_of};
ghost use Rattle.layout.specs.Outcome.{floats_after, numbers_after};
ghost use Rattle.layout.specs.Places.{FLOATS, NUMBERS};
ghost use Rattle.layout.specs.Standing.{table_at, words_fit, sound_in};
ghost use Rattle.peatcloak.specs.Calls.{stepped, Stands};

use layout::{places, words};
use rounds::walking;
use seats::bits;

// The fold on a sound table: its number.
pub fn fold_at(floats: &mut [f32], numbers: &mut [u32]) -> u32
    requires in_bounds { FLOATS ≤ length floats.old }
    requires in_bounds_2 { NUMBERS ≤ length numbers.old }
    requires numbers_value { words_fit numbers.old ≡ true }
    requires numbers_value_2 { sound_in numbers.old ≡ true }
    ensures value { result ≡ (stepped (fold_of (table_at floats.old numbers.old))).number }
    ensures floats_after { floats.new ≡ floats_after (length numbers.old) (stepped (fold_of (table_at floats.old numbers.old))) floats.old }
    ensures numbers_after { numbers.new ≡ numbers_after (length floats.old) (stepped (fold_of (table_at floats.old numbers.old))) numbers.old }
    ensures stands { Stands result floats.new numbers.new (stepped (fold_of (table_at floats.old numbers.old))) }
{
    let i = words::number_at(numbers, places::TO_ACT_IDX);
    let n = words::number_at(numbers, places::ROUND_LENGTH);
    let active = bits::without(words::set_at(numbers, places::PLAYER_ACTIVE), i);
    let owed = bits::without(words::set_at(numbers, places::NEEDS_ACTION), i);
    let w = walking::walk(owed, n, i);
    floats[places::PAID] = 0.0;
    numbers[places::PLAYER_ACTIVE] = words::word_of_set(active);
    numbers[places::NEEDS_ACTION] = words::word_of_set(owed);
    numbers[places::TO_ACT_IDX] = words::word_of(w.seat);
    numbers[places::PASSED] = words::word_of(w.passed);
    0
}
