// Text 000's GameStateBuilder: each thing is Some once it is given.
#![tactic(auto)]

mod checks;
mod faults;
mod making;
mod setters;

ghost use Rattle.std.specs.Prelude.{◌≡◌};
ghost use Rattle.builder.specs.Build.{stacks_told, board_told, big_blind_of, ante_of, build_of};
ghost use Rattle.builder.specs.Setters as Setters;

use refusals::Refusal;
use rounds::{Round, RoundData};
use table::added::Added;
use table::{GameState, added};

// A list in a fixed number of places beside its true length, which may be past them: there is no heap.
#[derive(Clone, Copy)]
pub struct Listed<L> {
    pub list: L,
    pub len: usize,
}

pub type Amounts = Listed<[f32; 16]>;

pub type Board = Listed<[u8; 5]>;

// No Option<u8>: what peatcloak_build is told has a number beside "no cap" too, and the table keeps both.
#[derive(Clone, Copy)]
pub struct Cap {
    pub capped: bool,
    pub value: u8,
}

#[derive(Clone, Copy)]
pub struct GameStateBuilder {
    pub stacks: Option<Amounts>,
    pub big_blind: Option<f32>,
    pub small_blind: Option<f32>,
    pub ante: Option<f32>,
    pub dealer_idx: Option<usize>,
    pub max_raises_per_round: Option<Cap>,
    pub round: Option<Round>,
    pub board: Option<Board>,
    pub hands: Option<usize>,
    pub player_bet: Option<Amounts>,
    pub round_data: Option<RoundData>,
    pub added: Added,
}

// It is a type of its own, and not one generic step, so that its field says what is given back.
#[derive(Clone, Copy)]
pub struct BuildStep {
    pub answer: Result<(), Refusal>,
    pub table: GameState,
}

// What is read of a list that is not given.
const NO_AMOUNTS: Amounts = Listed {
    list: [0.0; 16],
    len: 0,
};

const NO_CARDS: Board = Listed {
    list: [0; 5],
    len: 0,
};

impl GameStateBuilder {
    // Nothing is given.
    pub fn new() -> GameStateBuilder
        ensures { result ≡ Setters.nothing }
    {
        GameStateBuilder {
            stacks: None,
            big_blind: None,
            small_blind: None,
            ante: None,
            dealer_idx: None,
            max_raises_per_round: None,
            round: None,
            board: None,
            hands: None,
            player_bet: None,
            round_data: None,
            added: added::NONE,
        }
    }

    // What is read of a thing that is not given: an empty list, or 0.
    fn stacks_told(self) -> Amounts
        ensures { result ≡ stacks_told self }
    {
        self.stacks.unwrap_or(NO_AMOUNTS)
    }

    fn board_told(self) -> Board
        ensures { result ≡ board_told self }
    {
        self.board.unwrap_or(NO_CARDS)
    }

    fn big_blind_told(self) -> f32
        ensures { result ≡ big_blind_of self }
    {
        self.big_blind.unwrap_or(0.0)
    }

    fn ante_told(self) -> f32
        ensures { result ≡ ante_of self }
    {
        self.ante.unwrap_or(0.0)
    }

    // The record if no row of the order holds, else the first refusal and zeros: no Option, for `not_built` promises them.
    pub fn build(self) -> BuildStep
        ensures { result ≡ build_of self }
    {
        let table = self.built();
        match self.verdict(table.is_sound()) {
            Ok(()) => BuildStep {
                answer: Ok(()),
                table,
            },
            Err(r) => BuildStep {
                answer: Err(r),
                table: GameState::none(),
            },
        }
    }
}
