// The setters: each gives one thing.
ghost use Rattle.std.specs.Prelude.{◌≡◌, Some};
ghost use Rattle.builder.specs.Setters as Setters;

use crate::{Cap, GameStateBuilder, Listed, checks};
use keys::HandKey;
use rounds::{Round, RoundData};

impl GameStateBuilder {
    pub fn stacks(mut self, stacks: &[f32]) -> GameStateBuilder
        ensures { result ≡ Setters.with_stacks self (Setters.the_amounts stacks.now) }
    {
        self.stacks = Some(Listed {
            list: amounts::of_slice(stacks),
            len: stacks.len(),
        });
        self
    }

    pub fn big_blind(mut self, bb: f32) -> GameStateBuilder
        ensures { result ≡ Setters.with_big_blind self (Some bb) }
    {
        self.big_blind = Some(bb);
        self
    }

    pub fn small_blind(mut self, sb: f32) -> GameStateBuilder
        ensures { result ≡ Setters.with_small_blind self (Some sb) }
    {
        self.small_blind = Some(sb);
        self
    }

    pub fn ante(mut self, ante: f32) -> GameStateBuilder
        ensures { result ≡ Setters.with_ante self (Some ante) }
    {
        self.ante = Some(ante);
        self
    }

    pub fn dealer_idx(mut self, idx: usize) -> GameStateBuilder
        ensures { result ≡ Setters.with_dealer self (Some idx) }
    {
        self.dealer_idx = Some(idx);
        self
    }

    // Not the Rust's Option<u8>: see Cap.
    pub fn max_raises_per_round(mut self, capped: bool, max: u8) -> GameStateBuilder
        ensures { result ≡ Setters.with_cap self capped max }
    {
        self.max_raises_per_round = Some(Cap { capped, value: max });
        self
    }

    pub fn num_players_with_stack(mut self, n: usize, stack: f32) -> GameStateBuilder
        ensures { result ≡ Setters.with_stacks self (Setters.same_amounts n stack) }
    {
        self.stacks = Some(Listed {
            list: amounts::kept([stack; 16], n),
            len: n,
        });
        self
    }

    pub fn blinds(self, big: f32, small: f32) -> GameStateBuilder
        ensures { result ≡ Setters.with_small_blind (Setters.with_big_blind self (Some big)) (Some small) }
    {
        self.big_blind(big).small_blind(small)
    }

    pub fn round(mut self, round: Round) -> GameStateBuilder
        ensures { result ≡ Setters.with_round self round }
    {
        self.round = Some(round);
        self
    }

    pub fn board(mut self, board: &[u8]) -> GameStateBuilder
        ensures { result ≡ Setters.with_board self board.now }
    {
        self.board = Some(Listed {
            list: checks::cards_to(board, board.len()),
            len: board.len(),
        });
        self
    }

    // Only how many hands there are is looked at.
    pub fn hands(mut self, len: usize) -> GameStateBuilder
        ensures { result ≡ Setters.with_hands self (Some len) }
    {
        self.hands = Some(len);
        self
    }

    pub fn player_bet(mut self, bets: &[f32]) -> GameStateBuilder
        ensures { result ≡ Setters.with_bets self (Setters.the_amounts bets.now) }
    {
        self.player_bet = Some(Listed {
            list: amounts::of_slice(bets),
            len: bets.len(),
        });
        self
    }

    pub fn round_data(mut self, rd: RoundData) -> GameStateBuilder
        ensures { result ≡ Setters.with_data self rd }
    {
        self.round_data = Some(rd);
        self
    }

    // Which hand it is; what else is added stays.
    pub fn hand_key(mut self, key: HandKey) -> GameStateBuilder
        ensures { result ≡ Setters.with_key self key }
    {
        let mut added = self.added;
        added.key = key;
        self.added = added;
        self
    }
}
