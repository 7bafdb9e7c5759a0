// The next round in place: both rounds, the places of the round data and the two answers are written, and no other.
// It works on words: in the host's list the round stands as its number, and the next one is that number and 1.
ghost use Rattle.std.specs.Prelude.{◌≡◌, true, ◌+◌, ◌≤◌, ◌<◌, length, set};
ghost use Rattle.commons.specs.Filled.{laid};
ghost use Rattle.floats.specs.Helpers.{zerof};
ghost use Rattle.table.specs.Rounds.{advance_of};
ghost use Rattle.layout.specs.Outcome.{floats_after, numbers_after};
ghost use Rattle.layout.specs.Places.{ROUND, ROUND_BEFORE, STARTING_PLAYER_ACTIVE, NEEDS_ACTION, TO_ACT_IDX, ROUND_LENGTH, TOTAL_BET_COUNT, TOTAL_RAISE_COUNT, FORCED_BET_COUNT, PASSED, BIG_BLIND, ROUND_BET, MIN_RAISE, PAID, ROUND_BETS, FLOATS, NUMBERS};
ghost use Rattle.layout.specs.Standing.{table_at, words_fit, sound_in};
ghost use Rattle.layout.specs.Words.{float_at, word_of};
ghost use Rattle.peatcloak.specs.Calls.{stepped, Stands};

use layout::{places, words};
use rounds::walking::Reached;
use table::advancing;

// No bet of the first n seats in this round.
fn clear_bets(floats: &mut [f32], n: usize)
    requires in_bounds { FLOATS ≤ length floats.old }
    requires n_bound { n ≤ 16 }
    ensures { floats.new ≡ laid ROUND_BETS n floats.old (λ k. zerof) }
{
    floats[places::ROUND_BETS..places::ROUND_BETS + n].fill(0.0);
}

// What a new round of n seats changes of the floats.
fn put_round_floats(floats: &mut [f32], n: usize)
    requires in_bounds { FLOATS ≤ length floats.old }
    requires n_bound { n ≤ 16 }
    ensures { floats.new ≡ laid ROUND_BETS n (set (set (set floats.old ROUND_BET zerof) MIN_RAISE (float_at floats.old BIG_BLIND)) PAID zerof) (λ k. zerof) }
{
    let big_blind = floats[places::BIG_BLIND];
    floats[places::ROUND_BET] = 0.0;
    floats[places::MIN_RAISE] = big_blind;
    floats[places::PAID] = 0.0;
    clear_bets(floats, n);
}

// What it changes of the numbers: the seats of a set owe, and w is its first turn.
fn put_round_numbers(numbers: &mut [u32], round: u32, active: u16, n: usize, w: Reached)
    requires in_bounds { NUMBERS ≤ length numbers.old }
    requires round_bound { round < 12 }
    ensures { numbers.new ≡ set (set (set (set (set (set (set (set (set (set numbers.old ROUND (round + 1)) ROUND_BEFORE round) STARTING_PLAYER_ACTIVE active) NEEDS_ACTION active) TO_ACT_IDX (word_of w.seat)) ROUND_LENGTH (word_of n)) TOTAL_BET_COUNT 0) TOTAL_RAISE_COUNT 0) FORCED_BET_COUNT 0) PASSED (word_of w.passed) }
{
    numbers[places::ROUND] = round + 1;
    numbers[places::ROUND_BEFORE] = round;
    numbers[places::STARTING_PLAYER_ACTIVE] = words::word_of_set(active);
    numbers[places::NEEDS_ACTION] = words::word_of_set(active);
    numbers[places::TO_ACT_IDX] = words::word_of(w.seat);
    numbers[places::ROUND_LENGTH] = words::word_of(n);
    numbers[places::TOTAL_BET_COUNT] = 0;
    numbers[places::TOTAL_RAISE_COUNT] = 0;
    numbers[places::FORCED_BET_COUNT] = 0;
    numbers[places::PASSED] = words::word_of(w.passed);
}

// The next round of a sound table: its number. Past Complete there is none, and nothing is paid or passed to.
pub fn advance_at(floats: &mut [f32], numbers: &mut [u32]) -> u32
    requires in_bounds { FLOATS ≤ length floats.old }
    requires in_bounds_2 { NUMBERS ≤ length numbers.old }
    requires numbers_value { words_fit numbers.old ≡ true }
    requires numbers_value_2 { sound_in numbers.old ≡ true }
    ensures value { result ≡ (stepped (advance_of (table_at floats.old numbers.old))).number }
    ensures floats_after { floats.new ≡ floats_after (length numbers.old) (stepped (advance_of (table_at floats.old numbers.old))) floats.old }
    ensures numbers_after { numbers.new ≡ numbers_after (length floats.old) (stepped (advance_of (table_at floats.old numbers.old))) numbers.old }
    ensures stands { Stands result floats.new numbers.new (stepped (advance_of (table_at floats.old numbers.old))) }
{
    let round = words::word_at(numbers, places::ROUND);
    if round == 11 {
        floats[places::PAID] = 0.0;
        numbers[places::PASSED] = 0;
        return 0;
    }
    let n = words::number_at(numbers, places::NUM_PLAYERS);
    let active = words::set_at(numbers, places::PLAYER_ACTIVE);
    let dealer = words::number_at(numbers, places::DEALER_IDX);
    let twice = (round + 1 == 3) & (n == 2);
    let w = advancing::first_turn(twice, active, n, dealer);
    put_round_floats(floats, n);
    put_round_numbers(numbers, round, active, n, w);
    0
}
