// The record that is built of what is given, or else the defaults.
ghost use Rattle.std.specs.Prelude.{◌≡◌};
ghost use Rattle.builder.specs.Build.{built_of, data_for, round_of, small_blind_of, bets_of, cap_of};

use crate::{Cap, GameStateBuilder, checks};
use rounds::{Round, RoundData};
use seats::PlayerBitSet;
use table::GameState;

impl GameStateBuilder {
    // The given round data, its list cleared from n on; or new data from which all n seats owe.
    fn data_for(self, dealer: usize) -> RoundData
        ensures { result ≡ data_for self dealer }
    {
        let n = self.stacks_told().len;
        match self.round_data {
            Some(d) => {
                let mut kept = d;
                kept.player_bet = amounts::kept(d.player_bet, n);
                kept
            }
            None => {
                let all = PlayerBitSet {
                    set: seats::bits::up_to(n),
                };
                RoundData {
                    starting_player_active: all,
                    needs_action: all,
                    min_raise: self.big_blind_told(),
                    bet: 0.0,
                    player_bet: [0.0; 16],
                    player_bet_len: n,
                    total_bet_count: 0,
                    total_raise_count: 0,
                    forced_bet_count: 0,
                    to_act_idx: dealer,
                }
            }
        }
    }

    pub fn round_or_starting(self) -> Round
        ensures { result ≡ round_of self }
    {
        self.round.unwrap_or(Round::Starting)
    }

    pub fn small_blind_or_half(self) -> f32
        ensures { result ≡ small_blind_of self }
    {
        let half = self.big_blind_told() / 2.0;
        self.small_blind.unwrap_or(half)
    }

    fn bets_or_none(self) -> [f32; 16]
        ensures { result ≡ bets_of self }
    {
        let n = self.stacks_told().len;
        match self.player_bet {
            Some(bets) => amounts::kept(bets.list, n),
            None => [0.0; 16],
        }
    }

    fn cap_or_three(self) -> Cap
        ensures { result ≡ cap_of self }
    {
        self.max_raises_per_round.unwrap_or(Cap {
            capped: true,
            value: 3,
        })
    }

    // The record that is built, whatever is given: whether it stands is the verdict's.
    pub fn built(self) -> GameState
        ensures { result ≡ built_of self }
    {
        let given = self.stacks_told();
        let n = given.len;
        let stacks = amounts::kept(given.list, n);
        let bets = self.bets_or_none();
        let round = self.round_or_starting();
        let starting = round == Round::Starting;
        let dealer = self.dealer_idx.unwrap_or(0);
        let board = self.board_told();
        let cap = self.cap_or_three();
        GameState {
            num_players: n,
            player_active: PlayerBitSet {
                set: checks::active_seats(starting, n, stacks, bets),
            },
            player_all_in: PlayerBitSet {
                set: checks::all_in_seats(starting, n, stacks, bets),
            },
            total_pot: amounts::sum(bets, n),
            stacks,
            starting_stacks: stacks,
            player_bet: bets,
            player_winnings: [0.0; 16],
            big_blind: self.big_blind_told(),
            small_blind: self.small_blind_or_half(),
            ante: self.ante_told(),
            dealer_idx: dealer,
            round,
            round_before: round,
            round_data: self.data_for(dealer),
            board: checks::cards_to(&board.list, board.len),
            board_len: board.len,
            bb_posted: !starting,
            sb_posted: !starting,
            has_max_raises: cap.capped,
            max_raises_per_round: cap.value,
            added: self.added,
        }
    }
}
