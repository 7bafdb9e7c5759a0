// The second half of text 000: the record, by value, with its steps and queries; and the choice. The builder is a crate of its own.
#![tactic(auto)]

pub mod added;
pub mod advancing;
mod awarding;
pub mod betting;
mod queries;
pub mod soundness;

ghost use Rattle.std.specs.Prelude.{◌≡◌};
ghost use Rattle.table.specs.Sound.{frame_of, sound_of};
ghost use Rattle.table.specs.With.{no_table};

use added::Added;
use refusals::Refusal;
use rounds::{Round, RoundData};
use seats::PlayerBitSet;
use soundness::Frame;

// A list of seats has 16 places and the board 5, with a length beside them, for there is no heap. `has_max_raises` stays beside its number and is no Option:
// the number beside a cap that is none is a host's, and `laying::lay` promises by `back` that it reads back.
#[derive(Clone, Copy)]
pub struct GameState {
    pub num_players: usize,
    pub player_active: PlayerBitSet,
    pub player_all_in: PlayerBitSet,
    pub total_pot: f32,
    pub stacks: [f32; 16],
    pub starting_stacks: [f32; 16],
    pub player_bet: [f32; 16],
    pub player_winnings: [f32; 16],
    pub big_blind: f32,
    pub small_blind: f32,
    pub ante: f32,
    pub dealer_idx: usize,
    pub round: Round,
    pub round_before: Round,
    pub round_data: RoundData,
    pub board: [u8; 5],
    pub board_len: usize,
    pub bb_posted: bool,
    pub sb_posted: bool,
    pub has_max_raises: bool,
    pub max_raises_per_round: u8,
    pub added: Added,
}

// What is paid, and how many seats the walk passed to.
#[derive(Clone, Copy)]
pub struct Paid {
    pub amount: f32,
    pub passed: usize,
}

// What a bet gives: what is paid, or why it is refused; and the table, as it was where refused.
// It is a type of its own, and not one generic step, so that its field says what is given back.
#[derive(Clone, Copy)]
pub struct BetStep {
    pub answer: Result<Paid, Refusal>,
    pub table: GameState,
}

// What any other step gives: how many seats the walk passed to, 0 where it has no walk, or why it is refused; and the table, as it was where refused.
// It is a type of its own, and not one generic step, so that its field says what is given back.
#[derive(Clone, Copy)]
pub struct TableStep {
    pub answer: Result<usize, Refusal>,
    pub table: GameState,
}

// Text 002: a player's choice.
#[derive(Clone, Copy)]
pub enum AgentAction {
    Fold,
    Call,
    Bet(f32),
    AllIn,
}

impl GameState {
    // What a refused build gives: zeros.
    pub fn none() -> GameState
        ensures { result ≡ no_table }
    {
        GameState {
            num_players: 0,
            player_active: PlayerBitSet { set: 0 },
            player_all_in: PlayerBitSet { set: 0 },
            total_pot: 0.0,
            stacks: [0.0; 16],
            starting_stacks: [0.0; 16],
            player_bet: [0.0; 16],
            player_winnings: [0.0; 16],
            big_blind: 0.0,
            small_blind: 0.0,
            ante: 0.0,
            dealer_idx: 0,
            round: Round::Starting,
            round_before: Round::Starting,
            round_data: RoundData::none(),
            board: [0; 5],
            board_len: 0,
            bb_posted: false,
            sb_posted: false,
            has_max_raises: false,
            max_raises_per_round: 0,
            added: added::NONE,
        }
    }

    // What soundness looks at.
    fn frame(self) -> Frame
        ensures { result ≡ frame_of self }
    {
        let d = self.round_data;
        let board = self.board;
        let added = self.added;
        Frame {
            seats: self.num_players,
            round_seats: d.player_bet_len,
            dealer: self.dealer_idx,
            to_act: d.to_act_idx,
            active: self.player_active.set,
            all_in: self.player_all_in.set,
            owing: d.needs_action.set,
            starting: d.starting_player_active.set,
            cards: self.board_len,
            board,
            added,
        }
    }

    // Document 01's soundness.
    pub fn is_sound(self) -> bool
        ensures { result ≡ sound_of self }
    {
        self.frame().is_sound()
    }
}
