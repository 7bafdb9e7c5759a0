// Round data alone, at the round's places of the host's two lists. No other place is looked at, and none is written but that of the seats passed.
ghost use Rattle.std.specs.Prelude.{◌≡◌, not, eqb, length};
ghost use Rattle.refusals.specs.Rows.{verdict_number};
ghost use Rattle.layout.specs.Standing.{room_for, data_at};
ghost use Rattle.peatcloak.specs.Asking.{asked_number};
ghost use Rattle.peatcloak.specs.Rounds.{new_on, with_bets_on, advance_on, bet_on, data_floats_after, data_numbers_after, DataStands, amounts_asked, answers_asked, is_asked, amounts_told, answers_told};

use layout::{laying, places, standing, words};
use refusals::verdict_number;
use rounds::{RoundData, RoundStep};
use seats::PlayerBitSet;

// Whether the lists have room for a table: what stands in them is not looked at.
fn is_room(floats: &[f32], numbers: &[u32]) -> bool
    ensures { result ≡ room_for (length floats.now) (length numbers.now) }
{
    (places::FLOATS <= floats.len()) & (places::NUMBERS <= numbers.len())
}

// What a step gives, laid where it is accepted: its number.
fn lay_round(floats: &mut [f32], numbers: &mut [u32], s: RoundStep) -> u32
    ensures value { result ≡ verdict_number s.answer }
    ensures floats_after { floats.new ≡ data_floats_after (length numbers.old) s floats.old }
    ensures numbers_after { numbers.new ≡ data_numbers_after (length floats.old) s numbers.old }
{
    let d = s.round_data;
    match s.answer {
        Ok(passed) => {
            laying::lay_data(floats, numbers, d, passed);
            0
        }
        Err(r) => words::word_of_byte(r.number()),
    }
}

// It asks only for room: what stands at the round's places is written over, and is not looked at.
#[unsafe(no_mangle)]
pub extern "C" fn peatcloak_round_new(
    floats: &mut [f32],
    numbers: &mut [u32],
    num_players: u32,
    min_raise: f32,
    active: u16,
    to_act: u32,
) -> u32
    ensures value { result ≡ verdict_number (new_on (length floats.old) (length numbers.old) num_players min_raise active to_act).answer }
    ensures floats_after { floats.new ≡ data_floats_after (length numbers.old) (new_on (length floats.old) (length numbers.old) num_players min_raise active to_act) floats.old }
    ensures numbers_after { numbers.new ≡ data_numbers_after (length floats.old) (new_on (length floats.old) (length numbers.old) num_players min_raise active to_act) numbers.old }
    ensures stands { DataStands result floats.new numbers.new (new_on (length floats.old) (length numbers.old) num_players min_raise active to_act) }
{
    if is_room(floats, numbers) {
        let owing = PlayerBitSet { set: active };
        let step = RoundData::new(num_players as usize, min_raise, owing, to_act as usize);
        return lay_round(floats, numbers, step);
    }
    19
}

// It asks only for room too.
#[unsafe(no_mangle)]
pub extern "C" fn peatcloak_round_new_with_bets(
    floats: &mut [f32],
    numbers: &mut [u32],
    min_raise: f32,
    active: u16,
    to_act: u32,
    bets: &[f32],
) -> u32
    ensures value { result ≡ verdict_number (with_bets_on (length floats.old) (length numbers.old) min_raise active to_act bets.now).answer }
    ensures floats_after { floats.new ≡ data_floats_after (length numbers.old) (with_bets_on (length floats.old) (length numbers.old) min_raise active to_act bets.now) floats.old }
    ensures numbers_after { numbers.new ≡ data_numbers_after (length floats.old) (with_bets_on (length floats.old) (length numbers.old) min_raise active to_act bets.now) numbers.old }
    ensures stands { DataStands result floats.new numbers.new (with_bets_on (length floats.old) (length numbers.old) min_raise active to_act bets.now) }
{
    if is_room(floats, numbers) {
        let owing = PlayerBitSet { set: active };
        let step = RoundData::new_with_bets(min_raise, owing, to_act as usize, bets);
        return lay_round(floats, numbers, step);
    }
    19
}

#[unsafe(no_mangle)]
pub extern "C" fn peatcloak_round_advance_action(floats: &mut [f32], numbers: &mut [u32]) -> u32
    ensures value { result ≡ verdict_number (advance_on floats.old numbers.old).answer }
    ensures floats_after { floats.new ≡ data_floats_after (length numbers.old) (advance_on floats.old numbers.old) floats.old }
    ensures numbers_after { numbers.new ≡ data_numbers_after (length floats.old) (advance_on floats.old numbers.old) numbers.old }
    ensures stands { DataStands result floats.new numbers.new (advance_on floats.old numbers.old) }
{
    match standing::read_data(floats, numbers) {
        Ok(d) => lay_round(floats, numbers, d.advance_action()),
        Err(_) => 19,
    }
}

// is_forced: 0 no, else yes.
#[unsafe(no_mangle)]
pub extern "C" fn peatcloak_round_do_bet(
    floats: &mut [f32],
    numbers: &mut [u32],
    extra_amount: f32,
    is_forced: u32,
) -> u32
    ensures value { result ≡ verdict_number (bet_on floats.old numbers.old extra_amount (not (eqb is_forced 0))).answer }
    ensures floats_after { floats.new ≡ data_floats_after (length numbers.old) (bet_on floats.old numbers.old extra_amount (not (eqb is_forced 0))) floats.old }
    ensures numbers_after { numbers.new ≡ data_numbers_after (length floats.old) (bet_on floats.old numbers.old extra_amount (not (eqb is_forced 0))) numbers.old }
    ensures stands { DataStands result floats.new numbers.new (bet_on floats.old numbers.old extra_amount (not (eqb is_forced 0))) }
{
    let forced = !(is_forced == 0);
    match standing::read_data(floats, numbers) {
        Ok(d) => lay_round(floats, numbers, d.do_bet(extra_amount, forced)),
        Err(_) => 19,
    }
}

// What the seat to act has put in.
fn amounts_of(d: RoundData) -> [f32; 1]
    ensures { result ≡ amounts_asked d }
{
    let bet = d.current_player_bet();
    [bet.unwrap_or(0.0)]
}

// How many owe, whether nobody bet but those who had to, and the refusal number of the amount.
fn answers_of(d: RoundData) -> [u32; 3]
    ensures { result ≡ answers_asked d }
{
    let bet = d.current_player_bet();
    [
        words::word_of(d.num_players_need_action()),
        words::word_of_flag(d.is_action_unopened()),
        words::word_of_byte(verdict_number(bet)),
    ]
}

#[unsafe(no_mangle)]
pub extern "C" fn peatcloak_round_queries(
    floats: &[f32],
    numbers: &[u32],
    amounts: &mut [f32],
    answers: &mut [u32],
) -> u32
    ensures value { result ≡ asked_number (is_asked floats.now numbers.now (length amounts.old) (length answers.old)) }
    ensures amounts_after { amounts.new ≡ amounts_told (is_asked floats.now numbers.now (length amounts.old) (length answers.old)) (data_at floats.now numbers.now) amounts.old }
    ensures answers_after { answers.new ≡ answers_told (is_asked floats.now numbers.now (length amounts.old) (length answers.old)) (data_at floats.now numbers.now) answers.old }
{
    if (1 <= amounts.len()) & (3 <= answers.len()) {
        if let Ok(d) = standing::read_data(floats, numbers) {
            let told = amounts_of(d);
            let said = answers_of(d);
            commons::copying::copy(amounts, 0, &told, 0, 1);
            commons::copying::copy(answers, 0, &said, 0, 3);
            return 0;
        }
    }
    19
}
