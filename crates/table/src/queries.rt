// The record's queries: none refuses.
ghost use Rattle.std.specs.Prelude.{◌≡◌};
ghost use Rattle.seats.specs.Bits.{count_to};
ghost use Rattle.table.specs.Queries.{is_capped, is_complete, at_seat, round_bet_at};

use crate::GameState;
use rounds::Round;

// What stands at a seat of a list of so many, 0.0 outside it.
fn at_seat(len: usize, list: [f32; 16], i: usize) -> f32
    ensures { result ≡ at_seat len list i }
{
    if i < len {
        if i < 16 {
            return list[i];
        }
    }
    0.0
}

impl GameState {
    pub fn is_raise_capped(self) -> bool
        ensures { result ≡ is_capped self }
    {
        self.has_max_raises & (self.max_raises_per_round <= self.round_data.total_raise_count)
    }

    pub fn num_active_players(self) -> usize
        ensures { result ≡ count_to 16 self.player_active.set }
    {
        seats::bits::count(self.player_active.set)
    }

    pub fn num_all_in_players(self) -> usize
        ensures { result ≡ count_to 16 self.player_all_in.set }
    {
        seats::bits::count(self.player_all_in.set)
    }

    pub fn is_complete(self) -> bool
        ensures { result ≡ is_complete self }
    {
        (seats::bits::count(self.player_active.set) == 1) | (self.round == Round::Complete)
    }

    pub fn to_act_idx(self) -> usize
        ensures { result ≡ self.round_data.to_act_idx }
    {
        self.round_data.to_act_idx
    }

    pub fn current_player_stack(self) -> f32
        ensures { result ≡ at_seat self.num_players self.stacks self.round_data.to_act_idx }
    {
        let stacks = self.stacks;
        at_seat(self.num_players, stacks, self.round_data.to_act_idx)
    }

    pub fn current_player_starting_stack(self) -> f32
        ensures { result ≡ at_seat self.num_players self.starting_stacks self.round_data.to_act_idx }
    {
        let stacks = self.starting_stacks;
        at_seat(self.num_players, stacks, self.round_data.to_act_idx)
    }

    pub fn current_round_current_player_bet(self) -> f32
        ensures { result ≡ round_bet_at self self.round_data.to_act_idx }
    {
        self.current_round_player_bet(self.round_data.to_act_idx)
    }

    pub fn current_round_bet(self) -> f32
        ensures { result ≡ self.round_data.bet }
    {
        self.round_data.bet
    }

    pub fn current_round_player_bet(self, idx: usize) -> f32
        ensures { result ≡ round_bet_at self idx }
    {
        let d = self.round_data;
        let list = d.player_bet;
        at_seat(d.player_bet_len, list, idx)
    }

    pub fn current_round_num_active_players(self) -> usize
        ensures { result ≡ count_to 16 self.round_data.needs_action.set }
    {
        seats::bits::count(self.round_data.needs_action.set)
    }

    pub fn current_round_min_raise(self) -> f32
        ensures { result ≡ self.round_data.min_raise }
    {
        self.round_data.min_raise
    }
}
