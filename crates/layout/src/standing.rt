// The table that stands in a host's two lists.
ghost use Rattle.std.specs.Prelude.{◌≡◌, ◌&&◌, length};
ghost use Rattle.layout.specs.Standing.{room_for, words_fit, data_fits, board_fits, sound_in, frame_at, board_at, data_at, table_at, table_in, data_read_of};

use crate::{added, places, words};
use rounds::RoundData;
use seats::PlayerBitSet;
use table::GameState;
use table::soundness::Frame;

// Whether each word of the round is in the range of what it stands for.
fn data_fits(numbers: &[u32]) -> bool
    ensures { result ≡ data_fits numbers.now }
{
    words::is_below(numbers, places::STARTING_PLAYER_ACTIVE, 65536)
        & (words::is_below(numbers, places::NEEDS_ACTION, 65536)
            & (words::is_below(numbers, places::TOTAL_BET_COUNT, 256)
                & (words::is_below(numbers, places::TOTAL_RAISE_COUNT, 256)
                    & words::is_below(numbers, places::FORCED_BET_COUNT, 256))))
}

// The five places of the board, one by one as `board_tests` has them: a list may end before one, and a place that is not there is 0.
fn board_fits(numbers: &[u32]) -> bool
    ensures { result ≡ board_fits numbers.now }
{
    words::is_below(numbers, places::BOARD, 256)
        & (words::is_below(numbers, places::BOARD + 1, 256)
            & (words::is_below(numbers, places::BOARD + 2, 256)
                & (words::is_below(numbers, places::BOARD + 3, 256)
                    & words::is_below(numbers, places::BOARD + 4, 256))))
}

// Whether each word is.
fn words_fit(numbers: &[u32]) -> bool
    ensures { result ≡ words_fit numbers.now }
{
    let flags = words::is_below(numbers, places::BB_POSTED, 2)
        & (words::is_below(numbers, places::SB_POSTED, 2)
            & (words::is_below(numbers, places::HAS_CAP, 2)
                & (words::is_below(numbers, places::CAP, 256)
                    & (data_fits(numbers) & (board_fits(numbers) & added::fits(numbers))))));
    words::is_below(numbers, places::ROUND, 12)
        & (words::is_below(numbers, places::ROUND_BEFORE, 12)
            & (words::is_below(numbers, places::PLAYER_ACTIVE, 65536)
                & (words::is_below(numbers, places::PLAYER_ALL_IN, 65536) & flags)))
}

// Whether a table stands there: floats of this length, and these numbers.
pub fn stands(floats: usize, numbers: &[u32]) -> bool
    ensures { result ≡ room_for floats (length numbers.now) && words_fit numbers.now }
{
    if places::FLOATS <= floats {
        if places::NUMBERS <= numbers.len() {
            return words_fit(numbers);
        }
    }
    false
}

// The five places of the board, one by one for the same reason.
fn board_at(numbers: &[u32]) -> [u8; 5]
    ensures { result ≡ board_at numbers.now }
{
    let board = places::BOARD;
    [
        words::byte_at(numbers, board),
        words::byte_at(numbers, board + 1),
        words::byte_at(numbers, board + 2),
        words::byte_at(numbers, board + 3),
        words::byte_at(numbers, board + 4),
    ]
}

// What soundness looks at: words alone.
fn frame_at(numbers: &[u32]) -> Frame
    ensures { result ≡ frame_at numbers.now }
{
    let board = board_at(numbers);
    let added = added::at(numbers);
    Frame {
        seats: words::number_at(numbers, places::NUM_PLAYERS),
        round_seats: words::number_at(numbers, places::ROUND_LENGTH),
        dealer: words::number_at(numbers, places::DEALER_IDX),
        to_act: words::number_at(numbers, places::TO_ACT_IDX),
        active: words::set_at(numbers, places::PLAYER_ACTIVE),
        all_in: words::set_at(numbers, places::PLAYER_ALL_IN),
        owing: words::set_at(numbers, places::NEEDS_ACTION),
        starting: words::set_at(numbers, places::STARTING_PLAYER_ACTIVE),
        cards: words::number_at(numbers, places::BOARD_LENGTH),
        board,
        added,
    }
}

// Document 01's soundness of it.
pub fn is_sound(numbers: &[u32]) -> bool
    ensures { result ≡ sound_in numbers.now }
{
    if places::NUMBERS <= numbers.len() {
        return frame_at(numbers).is_sound();
    }
    false
}

// Whether a sound table stands there. The bet asks the two tests one by one: `is_sound` is worked into it only while the bet is its one caller.
pub fn stands_sound(floats: usize, numbers: &[u32]) -> bool
    ensures { result ≡ (room_for floats (length numbers.now) && words_fit numbers.now) && sound_in numbers.now }
{
    if stands(floats, numbers) {
        let frame = frame_at(numbers);
        return frame.is_sound();
    }
    false
}

fn data_at(floats: &[f32], numbers: &[u32]) -> RoundData
    ensures { result ≡ data_at floats.now numbers.now }
{
    let player_bet = words::sixteen_at(floats, places::ROUND_BETS);
    RoundData {
        starting_player_active: PlayerBitSet {
            set: words::set_at(numbers, places::STARTING_PLAYER_ACTIVE),
        },
        needs_action: PlayerBitSet {
            set: words::set_at(numbers, places::NEEDS_ACTION),
        },
        min_raise: words::float_at(floats, places::MIN_RAISE),
        bet: words::float_at(floats, places::ROUND_BET),
        player_bet,
        player_bet_len: words::number_at(numbers, places::ROUND_LENGTH),
        total_bet_count: words::byte_at(numbers, places::TOTAL_BET_COUNT),
        total_raise_count: words::byte_at(numbers, places::TOTAL_RAISE_COUNT),
        forced_bet_count: words::byte_at(numbers, places::FORCED_BET_COUNT),
        to_act_idx: words::number_at(numbers, places::TO_ACT_IDX),
    }
}

fn table_at(floats: &[f32], numbers: &[u32]) -> GameState
    ensures { result ≡ table_at floats.now numbers.now }
{
    let stacks = words::sixteen_at(floats, places::STACKS);
    let starting_stacks = words::sixteen_at(floats, places::STARTING_STACKS);
    let player_bet = words::sixteen_at(floats, places::HAND_BETS);
    let player_winnings = words::sixteen_at(floats, places::WINNINGS);
    let round_data = data_at(floats, numbers);
    let board = board_at(numbers);
    let round = words::round_at(numbers, places::ROUND);
    let round_before = words::round_at(numbers, places::ROUND_BEFORE);
    let added = added::at(numbers);
    GameState {
        num_players: words::number_at(numbers, places::NUM_PLAYERS),
        player_active: PlayerBitSet {
            set: words::set_at(numbers, places::PLAYER_ACTIVE),
        },
        player_all_in: PlayerBitSet {
            set: words::set_at(numbers, places::PLAYER_ALL_IN),
        },
        total_pot: words::float_at(floats, places::TOTAL_POT),
        stacks,
        starting_stacks,
        player_bet,
        player_winnings,
        big_blind: words::float_at(floats, places::BIG_BLIND),
        small_blind: words::float_at(floats, places::SMALL_BLIND),
        ante: words::float_at(floats, places::ANTE),
        dealer_idx: words::number_at(numbers, places::DEALER_IDX),
        round,
        round_before,
        round_data,
        board,
        board_len: words::number_at(numbers, places::BOARD_LENGTH),
        bb_posted: words::flag_at(numbers, places::BB_POSTED),
        sb_posted: words::flag_at(numbers, places::SB_POSTED),
        has_max_raises: words::flag_at(numbers, places::HAS_CAP),
        max_raises_per_round: words::byte_at(numbers, places::CAP),
        added,
    }
}

fn is_room(floats: usize, numbers: usize) -> bool
    ensures { result ≡ room_for floats numbers }
{
    (places::FLOATS <= floats) & (places::NUMBERS <= numbers)
}

// The table there; zeros where the lists are too short, and no Option: `table_in` promises them.
pub fn table(floats: &[f32], numbers: &[u32]) -> GameState
    ensures { result ≡ table_in floats.now numbers.now }
{
    if is_room(floats.len(), numbers.len()) {
        return table_at(floats, numbers);
    }
    GameState::none()
}

// The round data there, where some stands; where none does, its words cut to their ranges, and zeros where the lists are too short. Only the round's places are
// looked at.
pub fn read_data(floats: &[f32], numbers: &[u32]) -> Result<RoundData, RoundData>
    ensures { result ≡ data_read_of floats.now numbers.now }
{
    if is_room(floats.len(), numbers.len()) {
        let data = data_at(floats, numbers);
        if data_fits(numbers) {
            return Ok(data);
        }
        return Err(data);
    }
    Err(RoundData::none())
}
