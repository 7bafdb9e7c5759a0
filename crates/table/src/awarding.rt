// Chips to a seat, and what a seat has won or lost.
ghost use Rattle.std.specs.Prelude.{◌≡◌, ◌<◌};
ghost use Rattle.table.specs.Pay.{award_of, awarded, reward_of};

use crate::{GameState, TableStep};
use refusals::{AddedError, Refusal};

impl GameState {
    // To the stack and to the winnings; the pot stays.
    fn awarded(self, i: usize, x: f32) -> GameState
        requires { i < 16 }
        ensures { result ≡ awarded self i x }
    {
        let mut t = self;
        let mut stacks = t.stacks;
        let mut winnings = t.player_winnings;
        stacks[i] = stacks[i] + x;
        winnings[i] = winnings[i] + x;
        t.stacks = stacks;
        t.player_winnings = winnings;
        t
    }

    pub fn award(self, player_idx: usize, amount: f32) -> TableStep
        ensures { result ≡ award_of self player_idx amount }
    {
        if self.is_sound() {
            if player_idx < self.num_players {
                return TableStep {
                    answer: Ok(0),
                    table: self.awarded(player_idx, amount),
                };
            }
            return TableStep {
                answer: Err(Refusal::Added(AddedError::BadSeat)),
                table: self,
            };
        }
        TableStep {
            answer: Err(Refusal::Added(AddedError::BadRecord)),
            table: self,
        }
    }

    pub fn player_reward(self, player_idx: usize) -> Result<f32, Refusal>
        ensures { result ≡ reward_of self player_idx }
    {
        let stacks = self.stacks;
        let starting = self.starting_stacks;
        if self.is_sound() {
            if player_idx < self.num_players {
                return Ok(stacks[player_idx] - starting[player_idx]);
            }
            return Err(Refusal::Added(AddedError::BadSeat));
        }
        Err(Refusal::Added(AddedError::BadRecord))
    }
}
