// The next round, and the end of a hand.
ghost use Rattle.std.specs.Prelude.{◌≡◌};
ghost use Rattle.table.specs.Rounds.{advance_of, advanced_step, complete_of, completed_step, fresh_data, first_turn};
ghost use Rattle.table.specs.With.{with_round};

use crate::{GameState, TableStep};
use refusals::{AddedError, Refusal};
use rounds::walking::Reached;
use rounds::{Round, RoundData, walking};
use seats::PlayerBitSet;

// The walk from the dealer, done once or twice.
pub fn first_turn(twice: bool, owing: u16, n: usize, dealer: usize) -> Reached
    ensures { result ≡ first_turn twice owing n dealer }
{
    let w = walking::walk(owing, n, dealer);
    if twice {
        let v = walking::walk(owing, n, w.seat);
        return Reached {
            seat: v.seat,
            passed: w.passed + v.passed,
        };
    }
    w
}

impl GameState {
    // The record in another round.
    fn with_round(self, round: Round, round_before: Round, round_data: RoundData) -> GameState
        ensures { result ≡ with_round self round round_before round_data }
    {
        GameState {
            round,
            round_before,
            round_data,
            ..self
        }
    }

    // New round data: the places from n on keep what stood there.
    fn fresh_data(self, active: u16, to_act: usize) -> RoundData
        ensures { result ≡ fresh_data self active to_act }
    {
        let d = self.round_data;
        let old = d.player_bet;
        let bets = amounts::cleared(old, self.num_players);
        RoundData {
            starting_player_active: PlayerBitSet { set: active },
            needs_action: PlayerBitSet { set: active },
            min_raise: self.big_blind,
            bet: 0.0,
            player_bet: bets,
            player_bet_len: self.num_players,
            total_bet_count: 0,
            total_raise_count: 0,
            forced_bet_count: 0,
            to_act_idx: to_act,
        }
    }

    fn advance_normal(self) -> TableStep
        ensures { result ≡ advanced_step self }
    {
        let before = self.round;
        let now = before.advance();
        let n = self.num_players;
        let active = self.player_active.set;
        let twice = (now == Round::Preflop) & (n == 2);
        let w = first_turn(twice, active, n, self.dealer_idx);
        let data = self.fresh_data(active, w.seat);
        TableStep {
            answer: Ok(w.passed),
            table: self.with_round(now, before, data),
        }
    }

    pub fn advance_round(self) -> TableStep
        ensures { result ≡ advance_of self }
    {
        if self.is_sound() {
            if self.round == Round::Complete {
                return TableStep {
                    answer: Ok(0),
                    table: self,
                };
            }
            return self.advance_normal();
        }
        TableStep {
            answer: Err(Refusal::Added(AddedError::BadRecord)),
            table: self,
        }
    }

    fn completed(self) -> TableStep
        ensures { result ≡ completed_step self }
    {
        let before = self.round;
        let data = self.fresh_data(0, self.dealer_idx);
        TableStep {
            answer: Ok(0),
            table: self.with_round(Round::Complete, before, data),
        }
    }

    pub fn complete(self) -> TableStep
        ensures { result ≡ complete_of self }
    {
        if self.is_sound() {
            if self.round == Round::Complete {
                return TableStep {
                    answer: Ok(0),
                    table: self,
                };
            }
            return self.completed();
        }
        TableStep {
            answer: Err(Refusal::Added(AddedError::BadRecord)),
            table: self,
        }
    }
}
