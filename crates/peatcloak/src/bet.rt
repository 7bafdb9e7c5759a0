// The bet in place: only the places that it changes are written.
ghost use Rattle.std.specs.Prelude.{◌≡◌, true, ◌≤◌, ◌<◌, length};
ghost use Rattle.table.specs.Pay.{payer_in, verdict_of, bet_of};
ghost use Rattle.layout.specs.Places.{TO_ACT_IDX, FLOATS, NUMBERS};
ghost use Rattle.layout.specs.Words.{word_at};
ghost use Rattle.layout.specs.Standing.{table_at, sound_in};
ghost use Rattle.peatcloak.specs.Calls.{wagered, Stands};
ghost use Rattle.peatcloak.specs.Put.{floats_with, numbers_with, PayerFits, floats_put, numbers_put};

use bets::Facing;
use layout::{places, words};
use refusals::Refusal;
use rounds::paying::{Payer, Stake};
use rounds::walking;
use table::betting;

// The seat to act, as one that pays.
fn payer_at(floats: &[f32], numbers: &[u32]) -> Payer
    requires in_bounds { FLOATS ≤ length floats.now }
    requires numbers_bound { word_at numbers.now TO_ACT_IDX < 16 }
    ensures { result ≡ payer_in (table_at floats.now numbers.now) }
{
    let i = words::number_at(numbers, places::TO_ACT_IDX);
    Payer {
        stake: Stake {
            round_bet: floats[places::ROUND_BETS + i],
            bet: floats[places::ROUND_BET],
            min_raise: floats[places::MIN_RAISE],
            total: words::byte_at(numbers, places::TOTAL_BET_COUNT),
            raises: words::byte_at(numbers, places::TOTAL_RAISE_COUNT),
            forced: words::byte_at(numbers, places::FORCED_BET_COUNT),
        },
        stack: floats[places::STACKS + i],
        hand_bet: floats[places::HAND_BETS + i],
        pot: floats[places::TOTAL_POT],
        active: words::set_at(numbers, places::PLAYER_ACTIVE),
        all_in: words::set_at(numbers, places::PLAYER_ALL_IN),
        owing: words::set_at(numbers, places::NEEDS_ACTION),
        seat: i,
    }
}

// What a payment changes of the floats: i is the seat that paid.
fn put_floats(floats: &mut [f32], i: usize, p: Payer, paid: f32)
    requires in_bounds { FLOATS ≤ length floats.old }
    requires i_bound { i < 16 }
    ensures { floats.new ≡ floats_with floats.old i p paid }
{
    let stake = p.stake;
    floats[places::TOTAL_POT] = p.pot;
    floats[places::ROUND_BET] = stake.bet;
    floats[places::MIN_RAISE] = stake.min_raise;
    floats[places::PAID] = paid;
    floats[places::STACKS + i] = p.stack;
    floats[places::HAND_BETS + i] = p.hand_bet;
    floats[places::ROUND_BETS + i] = stake.round_bet;
}

// What it changes of the numbers.
fn put_numbers(numbers: &mut [u32], p: Payer, passed: usize)
    requires { NUMBERS ≤ length numbers.old }
    ensures numbers_after { numbers.new ≡ numbers_with numbers.old p passed }
    ensures fits { PayerFits p }
{
    let stake = p.stake;
    numbers[places::PLAYER_ACTIVE] = words::word_of_set(p.active);
    numbers[places::PLAYER_ALL_IN] = words::word_of_set(p.all_in);
    numbers[places::NEEDS_ACTION] = words::word_of_set(p.owing);
    numbers[places::TO_ACT_IDX] = words::word_of(p.seat);
    numbers[places::TOTAL_BET_COUNT] = words::word_of_byte(stake.total);
    numbers[places::TOTAL_RAISE_COUNT] = words::word_of_byte(stake.raises);
    numbers[places::FORCED_BET_COUNT] = words::word_of_byte(stake.forced);
    numbers[places::PASSED] = words::word_of(passed);
}

// What the payer pays of an amount. The two sizes are asked for here, one by one, since a call of `bets::validate` would not be worked into the bet.
fn verdict_at(p: Payer, amount: f32, is_forced: bool) -> Result<f32, Refusal>
    ensures { result ≡ verdict_of p amount is_forced }
{
    let stake = p.stake;
    let facing = Facing {
        round_bet: stake.round_bet,
        stack: p.stack,
        bet: stake.bet,
        min_raise: stake.min_raise,
    };
    if is_forced {
        return betting::room_for(
            stake,
            true,
            bets::validate_forced_bet_amount(amount, facing),
        );
    }
    betting::room_for(stake, false, bets::validate_bet_amount(amount, facing))
}

// The bet on a sound table: its number.
pub fn bet_at(floats: &mut [f32], numbers: &mut [u32], amount: f32, is_forced: bool) -> u32
    requires in_bounds { FLOATS ≤ length floats.old }
    requires numbers_value { sound_in numbers.old ≡ true }
    ensures value { result ≡ (wagered (bet_of (table_at floats.old numbers.old) amount is_forced)).number }
    ensures floats_after { floats.new ≡ floats_put floats.old numbers.old (wagered (bet_of (table_at floats.old numbers.old) amount is_forced)) }
    ensures numbers_after { numbers.new ≡ numbers_put numbers.old (wagered (bet_of (table_at floats.old numbers.old) amount is_forced)) }
    ensures stands { Stands result floats.new numbers.new (wagered (bet_of (table_at floats.old numbers.old) amount is_forced)) }
{
    let p = payer_at(floats, numbers);
    match verdict_at(p, amount, is_forced) {
        Err(r) => words::word_of_byte(r.number()),
        Ok(x) => {
            let n = words::number_at(numbers, places::ROUND_LENGTH);
            let mut after = p.pay(x, is_forced);
            let w = walking::walk(after.owing, n, after.seat);
            after.seat = w.seat;
            put_floats(floats, p.seat, after, x);
            put_numbers(numbers, after, w.passed);
            0
        }
    }
}
