// The boundary for C and Rust. A table is two lists of the host's, whose places `layout` names. Each call answers 0 or document 01's number, and 19 where no
// table stands in the lists; a refusal writes nothing, but where it is said. A set of seats and round data cross alone too, and a hand of the journal as bytes.
// 19 and the like stand in the bodies as numbers where a call answers C: the header names each.
#![tactic(auto)]

pub mod asking;
mod bet;
pub mod building;
mod folding;
mod given_added;
pub mod journal_calls;
pub mod journal_reads;
pub mod journal_replay;
mod journal_words;
mod next_round;
mod outcomes;
pub mod playing;
pub mod round_calls;
pub mod seat_calls;
pub mod settling;

ghost use Rattle.std.specs.Prelude.{◌≡◌, not, eqb, length};
ghost use Rattle.layout.specs.Outcome.{floats_after, numbers_after};
ghost use Rattle.peatcloak.specs.Calls.{version_number, version_told, fold_on, advance_on, complete_on, award_on, bet_on, Stands};
ghost use Rattle.peatcloak.specs.Put.{floats_put, numbers_put};

use layout::{places, standing, words};

// The version of the library and of the layout, and the sizes of the two lists.
#[unsafe(no_mangle)]
pub extern "C" fn peatcloak_version(out: &mut [u32]) -> u32
    ensures value { result ≡ version_number (length out.old) }
    ensures out_after { out.new ≡ version_told out.old }
{
    if 4 <= out.len() {
        let list = [
            places::VERSION,
            places::LAYOUT,
            words::word_of(places::FLOATS),
            words::word_of(places::NUMBERS),
        ];
        commons::copying::copy(out, 0, &list, 0, 4);
        return 0;
    }
    19
}

// In place: only the places that the bet changes are written.
#[unsafe(no_mangle)]
pub extern "C" fn peatcloak_do_bet(
    floats: &mut [f32],
    numbers: &mut [u32],
    amount: f32,
    is_forced: u32,
) -> u32
    ensures value { result ≡ (bet_on floats.old numbers.old amount (not (eqb is_forced 0))).number }
    ensures floats_after { floats.new ≡ floats_put floats.old numbers.old (bet_on floats.old numbers.old amount (not (eqb is_forced 0))) }
    ensures numbers_after { numbers.new ≡ numbers_put numbers.old (bet_on floats.old numbers.old amount (not (eqb is_forced 0))) }
    ensures stands { Stands result floats.new numbers.new (bet_on floats.old numbers.old amount (not (eqb is_forced 0))) }
{
    let forced = !(is_forced == 0);
    if standing::stands(floats.len(), numbers) {
        if standing::is_sound(numbers) {
            return bet::bet_at(floats, numbers, amount, forced);
        }
    }
    19
}

// In place too, as is the next round.
#[unsafe(no_mangle)]
pub extern "C" fn peatcloak_fold(floats: &mut [f32], numbers: &mut [u32]) -> u32
    ensures value { result ≡ (fold_on floats.old numbers.old).number }
    ensures floats_after { floats.new ≡ floats_after (length numbers.old) (fold_on floats.old numbers.old) floats.old }
    ensures numbers_after { numbers.new ≡ numbers_after (length floats.old) (fold_on floats.old numbers.old) numbers.old }
    ensures stands { Stands result floats.new numbers.new (fold_on floats.old numbers.old) }
{
    if standing::stands_sound(floats.len(), numbers) {
        return folding::fold_at(floats, numbers);
    }
    19
}

#[unsafe(no_mangle)]
pub extern "C" fn peatcloak_advance_round(floats: &mut [f32], numbers: &mut [u32]) -> u32
    ensures value { result ≡ (advance_on floats.old numbers.old).number }
    ensures floats_after { floats.new ≡ floats_after (length numbers.old) (advance_on floats.old numbers.old) floats.old }
    ensures numbers_after { numbers.new ≡ numbers_after (length floats.old) (advance_on floats.old numbers.old) numbers.old }
    ensures stands { Stands result floats.new numbers.new (advance_on floats.old numbers.old) }
{
    if standing::stands_sound(floats.len(), numbers) {
        return next_round::advance_at(floats, numbers);
    }
    19
}

#[unsafe(no_mangle)]
pub extern "C" fn peatcloak_complete(floats: &mut [f32], numbers: &mut [u32]) -> u32
    ensures value { result ≡ (complete_on floats.old numbers.old).number }
    ensures floats_after { floats.new ≡ floats_after (length numbers.old) (complete_on floats.old numbers.old) floats.old }
    ensures numbers_after { numbers.new ≡ numbers_after (length floats.old) (complete_on floats.old numbers.old) numbers.old }
    ensures stands { Stands result floats.new numbers.new (complete_on floats.old numbers.old) }
{
    if standing::stands(floats.len(), numbers) {
        let t = standing::table(floats, numbers);
        return outcomes::lay_step(floats, numbers, t.complete());
    }
    19
}

#[unsafe(no_mangle)]
pub extern "C" fn peatcloak_award(
    floats: &mut [f32],
    numbers: &mut [u32],
    player_idx: u32,
    amount: f32,
) -> u32
    ensures value { result ≡ (award_on floats.old numbers.old player_idx amount).number }
    ensures floats_after { floats.new ≡ floats_after (length numbers.old) (award_on floats.old numbers.old player_idx amount) floats.old }
    ensures numbers_after { numbers.new ≡ numbers_after (length floats.old) (award_on floats.old numbers.old player_idx amount) numbers.old }
    ensures stands { Stands result floats.new numbers.new (award_on floats.old numbers.old player_idx amount) }
{
    if standing::stands(floats.len(), numbers) {
        let t = standing::table(floats, numbers);
        return outcomes::lay_step(floats, numbers, t.award(player_idx as usize, amount));
    }
    19
}
