// A table built into the host's lists. What is given, and what not, stands in `given`; the round data, where given, at its places of the lists.
ghost use Rattle.std.specs.Prelude.{◌≡◌, ◌&&◌, length};
ghost use Rattle.layout.specs.Outcome.{floats_after, numbers_after};
ghost use Rattle.peatcloak.specs.Building.{given_fit, amounts_given, board_given, data_given, builder_at, room_to_build, tells, build_on};
ghost use Rattle.peatcloak.specs.Calls.{Stands};

use crate::{given_added, outcomes};
use builder::{Amounts, Board, Cap, GameStateBuilder, Listed};
use layout::{places, standing, words};
use rounds::RoundData;

// Whether each word is in the range of what it stands for.
fn given_fit(given: &[u32]) -> bool
    ensures { result ≡ given_fit given.now }
{
    let last = words::is_below(given, places::GIVEN_BOARD, 2)
        & (words::is_below(given, places::GIVEN_HANDS, 2)
            & (words::is_below(given, places::GIVEN_PLAYER_BET, 2)
                & (words::is_below(given, places::GIVEN_ROUND_DATA, 2)
                    & given_added::fits(given))));
    let cap = words::is_below(given, places::GIVEN_CAP, 2)
        & (words::is_below(given, places::GIVEN_CAP_CAPS, 2)
            & (words::is_below(given, places::GIVEN_CAP_IS, 256)
                & (words::is_below(given, places::GIVEN_ROUND, 2)
                    & (words::is_below(given, places::GIVEN_ROUND_IS, 12) & last))));
    words::is_below(given, places::GIVEN_STACKS, 2)
        & (words::is_below(given, places::GIVEN_BIG_BLIND, 2)
            & (words::is_below(given, places::GIVEN_SMALL_BLIND, 2)
                & (words::is_below(given, places::GIVEN_ANTE, 2)
                    & (words::is_below(given, places::GIVEN_DEALER, 2) & cap))))
}

fn amounts_of(given: bool, list: &[f32]) -> Option<Amounts>
    ensures { result ≡ amounts_given given list.now }
{
    let l = amounts::of_slice(list);
    given.then_some(Listed {
        list: l,
        len: list.len(),
    })
}

// The cards as the builder keeps them.
fn board_of(given: bool, board: &[u8]) -> Option<Board>
    ensures { result ≡ board_given given board.now }
{
    if given {
        let nothing = GameStateBuilder::new();
        return nothing.board(board).board;
    }
    None
}

// The round data at its places, where it is given.
fn data_of(given: bool, floats: &[f32], numbers: &[u32]) -> Option<RoundData>
    ensures { result ≡ data_given given floats.now numbers.now }
{
    if given {
        return standing::read_data(floats, numbers).ok();
    }
    None
}

// The builder that the lists tell.
fn builder_of(
    floats: &[f32],
    numbers: &[u32],
    stacks: &[f32],
    player_bet: &[f32],
    board: &[u8],
    amounts: &[f32],
    given: &[u32],
) -> GameStateBuilder
    ensures { result ≡ builder_at floats.now numbers.now stacks.now player_bet.now board.now amounts.now given.now }
{
    let the_stacks = amounts_of(words::flag_at(given, places::GIVEN_STACKS), stacks);
    let the_bets = amounts_of(words::flag_at(given, places::GIVEN_PLAYER_BET), player_bet);
    let the_board = board_of(words::flag_at(given, places::GIVEN_BOARD), board);
    let data = data_of(
        words::flag_at(given, places::GIVEN_ROUND_DATA),
        floats,
        numbers,
    );
    let cap = Cap {
        capped: words::flag_at(given, places::GIVEN_CAP_CAPS),
        value: words::byte_at(given, places::GIVEN_CAP_IS),
    };
    GameStateBuilder {
        stacks: the_stacks,
        big_blind: words::flag_at(given, places::GIVEN_BIG_BLIND).then_some(words::float_at(
            amounts,
            places::AMOUNT_BIG_BLIND,
        )),
        small_blind: words::flag_at(given, places::GIVEN_SMALL_BLIND).then_some(words::float_at(
            amounts,
            places::AMOUNT_SMALL_BLIND,
        )),
        ante: words::flag_at(given, places::GIVEN_ANTE).then_some(words::float_at(
            amounts,
            places::AMOUNT_ANTE,
        )),
        dealer_idx: words::flag_at(given, places::GIVEN_DEALER).then_some(words::number_at(
            given,
            places::GIVEN_DEALER_IS,
        )),
        max_raises_per_round: words::flag_at(given, places::GIVEN_CAP).then_some(cap),
        round: words::flag_at(given, places::GIVEN_ROUND).then_some(words::round_at(
            given,
            places::GIVEN_ROUND_IS,
        )),
        board: the_board,
        hands: words::flag_at(given, places::GIVEN_HANDS).then_some(words::number_at(
            given,
            places::GIVEN_HANDS_ARE,
        )),
        player_bet: the_bets,
        round_data: data,
        added: given_added::of(given),
    }
}

// Whether the lists, of these lengths, tell a builder.
fn is_told(floats: usize, amounts: usize, numbers: &[u32], given: &[u32]) -> bool
    ensures { result ≡ room_to_build floats (length numbers.now) amounts (length given.now) && tells floats numbers.now given.now }
{
    let room = (places::FLOATS <= floats)
        & ((places::NUMBERS <= numbers.len())
            & ((places::AMOUNTS <= amounts) & (places::GIVEN <= given.len())));
    let data = !words::flag_at(given, places::GIVEN_ROUND_DATA) | standing::stands(floats, numbers);
    room & (given_fit(given) & data)
}

#[unsafe(no_mangle)]
pub extern "C" fn peatcloak_build(
    floats: &mut [f32],
    numbers: &mut [u32],
    stacks: &[f32],
    player_bet: &[f32],
    board: &[u8],
    amounts: &[f32],
    given: &[u32],
) -> u32
    ensures value { result ≡ (build_on floats.old numbers.old stacks.now player_bet.now board.now amounts.now given.now).number }
    ensures floats_after { floats.new ≡ floats_after (length numbers.old) (build_on floats.old numbers.old stacks.now player_bet.now board.now amounts.now given.now) floats.old }
    ensures numbers_after { numbers.new ≡ numbers_after (length floats.old) (build_on floats.old numbers.old stacks.now player_bet.now board.now amounts.now given.now) numbers.old }
    ensures stands { Stands result floats.new numbers.new (build_on floats.old numbers.old stacks.now player_bet.now board.now amounts.now given.now) }
{
    if is_told(floats.len(), amounts.len(), numbers, given) {
        let b = builder_of(floats, numbers, stacks, player_bet, board, amounts, given);
        let s = b.build();
        let answer = s.answer;
        let table = s.table;
        return outcomes::lay_verdict(floats, numbers, answer, table);
    }
    19
}
