// A table laid into a host's two lists. What stands at places that are no table's stays.
ghost use Rattle.std.specs.Prelude.{◌≡◌, ◌<◌, length, get_or};
ghost use Rattle.layout.specs.Added.{AddedFit};
ghost use Rattle.layout.specs.Fits.{ListsFit, NumbersFit};
ghost use Rattle.layout.specs.Laid.{numbers_of, laid_list, laid_floats, laid_numbers, floats_laid, numbers_laid, ReadsBack, data_floats, data_words, data_numbers, floats_data_laid, numbers_data_laid};

use crate::{added, places, words};
use rounds::RoundData;
use table::GameState;

// A list laid from a place on, as far as there is room.
fn lay_list(floats: &mut [f32], at: usize, list: [f32; 16])
    ensures floats_after { floats.new ≡ laid_list at list floats.old }
    ensures fits { length list ≡ 16 }
{
    commons::copying::copy(floats, at, &list, 0, 16);
}

// The floats of a table, and what its step paid. The single amounts are in the order of their places.
fn lay_floats(floats: &mut [f32], t: GameState, paid: f32)
    ensures floats_after { floats.new ≡ laid_floats t paid floats.old }
    ensures fits { ListsFit t }
{
    let d = t.round_data;
    let stacks = t.stacks;
    let starting = t.starting_stacks;
    let bets = t.player_bet;
    let winnings = t.player_winnings;
    let round_bets = d.player_bet;
    let single = [
        t.total_pot,
        t.big_blind,
        t.small_blind,
        t.ante,
        d.bet,
        d.min_raise,
        paid,
    ];
    commons::copying::copy(floats, 0, &single, 0, 7);
    lay_list(floats, places::STACKS, stacks);
    lay_list(floats, places::STARTING_STACKS, starting);
    lay_list(floats, places::HAND_BETS, bets);
    lay_list(floats, places::WINNINGS, winnings);
    lay_list(floats, places::ROUND_BETS, round_bets);
}

// A card of a board.
fn word_of_card(board: [u8; 5], k: usize) -> u32
    requires { k < 5 }
    ensures value { result ≡ get_or board k 0 }
    ensures fits { (length board ≡ 5) × (result < 256) }
{
    words::word_of_byte(board[k])
}

// The words of a table in the order of their places, and how many seats its step's walk passed to.
fn numbers_of(t: GameState, passed: usize) -> [u32; places::ADDED]
    ensures value { result ≡ numbers_of t passed }
    ensures fits { NumbersFit t }
{
    let round = t.round;
    let round_before = t.round_before;
    let board = t.board;
    let d = t.round_data;
    [
        words::word_of(t.num_players),
        words::word_of(t.dealer_idx),
        words::word_of_byte(round.number()),
        words::word_of_byte(round_before.number()),
        words::word_of_set(t.player_active.set),
        words::word_of_set(t.player_all_in.set),
        words::word_of_set(d.starting_player_active.set),
        words::word_of_set(d.needs_action.set),
        words::word_of(d.to_act_idx),
        words::word_of(d.player_bet_len),
        words::word_of_byte(d.total_bet_count),
        words::word_of_byte(d.total_raise_count),
        words::word_of_byte(d.forced_bet_count),
        words::word_of_flag(t.bb_posted),
        words::word_of_flag(t.sb_posted),
        words::word_of_flag(t.has_max_raises),
        words::word_of_byte(t.max_raises_per_round),
        words::word_of(t.board_len),
        word_of_card(board, 0),
        word_of_card(board, 1),
        word_of_card(board, 2),
        word_of_card(board, 3),
        word_of_card(board, 4),
        words::word_of(passed),
    ]
}

fn lay_numbers(numbers: &mut [u32], t: GameState, passed: usize)
    ensures numbers_after { numbers.new ≡ laid_numbers t passed numbers.old }
    ensures fits { NumbersFit t × AddedFit t.added }
{
    let list = numbers_of(t, passed);
    let added = t.added;
    commons::copying::copy(numbers, 0, &list, 0, places::ADDED);
    added::lay(numbers, added);
}

// Nothing is written where there is no room. A sound table reads back as it was.
pub fn lay(floats: &mut [f32], numbers: &mut [u32], t: GameState, paid: f32, passed: usize)
    ensures floats_after { floats.new ≡ floats_laid (length numbers.old) t paid floats.old }
    ensures numbers_after { numbers.new ≡ numbers_laid (length floats.old) t passed numbers.old }
    ensures back { ReadsBack (length floats.old) (length numbers.old) t floats.new numbers.new }
{
    if places::FLOATS <= floats.len() {
        if places::NUMBERS <= numbers.len() {
            lay_floats(floats, t, paid);
            lay_numbers(numbers, t, passed);
        }
    }
}

// The bet and the smallest raise stand one after the other.
fn lay_data_floats(floats: &mut [f32], d: RoundData)
    ensures { floats.new ≡ data_floats d floats.old }
{
    let bets = d.player_bet;
    let single = [d.bet, d.min_raise];
    commons::copying::copy(floats, places::ROUND_BET, &single, 0, 2);
    lay_list(floats, places::ROUND_BETS, bets);
}

// The round's words stand in this order from the first of them on.
fn data_words(d: RoundData) -> [u32; 7]
    ensures { result ≡ data_words d }
{
    [
        words::word_of_set(d.starting_player_active.set),
        words::word_of_set(d.needs_action.set),
        words::word_of(d.to_act_idx),
        words::word_of(d.player_bet_len),
        words::word_of_byte(d.total_bet_count),
        words::word_of_byte(d.total_raise_count),
        words::word_of_byte(d.forced_bet_count),
    ]
}

fn lay_data_numbers(numbers: &mut [u32], d: RoundData, passed: usize)
    ensures { numbers.new ≡ data_numbers d passed numbers.old }
{
    let list = data_words(d);
    let last = [words::word_of(passed)];
    commons::copying::copy(numbers, places::STARTING_PLAYER_ACTIVE, &list, 0, 7);
    commons::copying::copy(numbers, places::PASSED, &last, 0, 1);
}

// Round data, at the round's places alone.
pub fn lay_data(floats: &mut [f32], numbers: &mut [u32], d: RoundData, passed: usize)
    ensures floats_after { floats.new ≡ floats_data_laid (length numbers.old) d floats.old }
    ensures numbers_after { numbers.new ≡ numbers_data_laid (length floats.old) d passed numbers.old }
{
    if places::FLOATS <= floats.len() {
        if places::NUMBERS <= numbers.len() {
            lay_data_floats(floats, d);
            lay_data_numbers(numbers, d, passed);
        }
    }
}
