// The first half of text 000: the twelve rounds, and round data with its walk.
#![tactic(auto)]

pub mod paying;
pub mod walking;

ghost use Rattle.std.specs.Prelude.{◌≡◌, ◌<◌, eqb};
ghost use Rattle.seats.specs.Bits.{count_to};
ghost use Rattle.rounds.specs.Order.{next_of, round_number};
ghost use Rattle.rounds.specs.Sound.{sound_parts};
ghost use Rattle.rounds.specs.Steps.{new_of, with_bets_of, advance_of, bet_of, current_bet, no_data, stake_in, with_stake};

use paying::Stake;
use refusals::{AddedError, Refusal};
use seats::PlayerBitSet;

#[derive(Clone, Copy, PartialEq, Eq)]
pub enum Round {
    Starting = 0,
    Ante = 1,
    DealPreflop = 2,
    Preflop = 3,
    DealFlop = 4,
    Flop = 5,
    DealTurn = 6,
    Turn = 7,
    DealRiver = 8,
    River = 9,
    Showdown = 10,
    Complete = 11,
}

impl Round {
    pub fn advance(self) -> Round
        ensures { result ≡ next_of self }
    {
        match self {
            Round::Starting => Round::Ante,
            Round::Ante => Round::DealPreflop,
            Round::DealPreflop => Round::Preflop,
            Round::Preflop => Round::DealFlop,
            Round::DealFlop => Round::Flop,
            Round::Flop => Round::DealTurn,
            Round::DealTurn => Round::Turn,
            Round::Turn => Round::DealRiver,
            Round::DealRiver => Round::River,
            Round::River => Round::Showdown,
            Round::Showdown => Round::Complete,
            Round::Complete => Round::Complete,
        }
    }

    // A host's words and a script's lines tell the round by its number.
    pub fn number(self) -> u8
        ensures { result ≡ round_number self }
    {
        self as u8
    }
}

// `player_bet` has its length beside it, for there is no heap: a table has 16 places at most.
#[derive(Clone, Copy)]
pub struct RoundData {
    pub starting_player_active: PlayerBitSet,
    pub needs_action: PlayerBitSet,
    pub min_raise: f32,
    pub bet: f32,
    pub player_bet: [f32; 16],
    pub player_bet_len: usize,
    pub total_bet_count: u8,
    pub total_raise_count: u8,
    pub forced_bet_count: u8,
    pub to_act_idx: usize,
}

// What a step gives: how many seats the walk passed to, 0 where the step has no walk, or why it is refused; and the data, as it was where refused.
// It is a type of its own, and not one generic step, so that its field says what is given back.
#[derive(Clone, Copy)]
pub struct RoundStep {
    pub answer: Result<usize, Refusal>,
    pub round_data: RoundData,
}

// The paper's test of round data, on the parts that it looks at.
pub fn is_sound(len: usize, to_act: usize, owing: u16) -> bool
    ensures { result ≡ sound_parts len to_act owing }
{
    (1 <= len) & ((len <= 16) & ((to_act < len) & seats::bits::is_below(owing, len)))
}

impl RoundData {
    // What a refused call that builds one gives: zeros.
    pub fn none() -> RoundData
        ensures { result ≡ no_data }
    {
        RoundData {
            starting_player_active: PlayerBitSet { set: 0 },
            needs_action: PlayerBitSet { set: 0 },
            min_raise: 0.0,
            bet: 0.0,
            player_bet: [0.0; 16],
            player_bet_len: 0,
            total_bet_count: 0,
            total_raise_count: 0,
            forced_bet_count: 0,
            to_act_idx: 0,
        }
    }

    // A refused call that makes data gives zeros beside the refusal, and no Option: `no_data` is promised.
    pub fn new(num_players: usize, min_raise: f32, active: PlayerBitSet, to_act: usize) -> RoundStep
        ensures { result ≡ new_of num_players min_raise active to_act }
    {
        if is_sound(num_players, to_act, active.set) {
            return RoundStep {
                answer: Ok(0),
                round_data: RoundData {
                    starting_player_active: active,
                    needs_action: active,
                    min_raise,
                    bet: 0.0,
                    player_bet: [0.0; 16],
                    player_bet_len: num_players,
                    total_bet_count: 0,
                    total_raise_count: 0,
                    forced_bet_count: 0,
                    to_act_idx: to_act,
                },
            };
        }
        RoundStep {
            answer: Err(AddedError::BadRecord.into()),
            round_data: RoundData::none(),
        }
    }

    pub fn new_with_bets(
        min_raise: f32,
        active: PlayerBitSet,
        to_act: usize,
        player_bet: &[f32],
    ) -> RoundStep
        ensures { result ≡ with_bets_of min_raise active to_act player_bet.now }
    {
        let len = player_bet.len();
        if is_sound(len, to_act, active.set) {
            let bets = amounts::of_slice(player_bet);
            let count = amounts::count_above_zero(bets, len);
            return RoundStep {
                answer: Ok(0),
                round_data: RoundData {
                    starting_player_active: active,
                    needs_action: active,
                    min_raise,
                    bet: amounts::largest(bets, len),
                    player_bet: bets,
                    player_bet_len: len,
                    total_bet_count: count,
                    total_raise_count: count,
                    forced_bet_count: 0,
                    to_act_idx: to_act,
                },
            };
        }
        RoundStep {
            answer: Err(AddedError::BadRecord.into()),
            round_data: RoundData::none(),
        }
    }

    // The walk, counted.
    pub fn advance_action(mut self) -> RoundStep
        ensures { result ≡ advance_of self }
    {
        let n = self.player_bet_len;
        let at = self.to_act_idx;
        let owing = self.needs_action.set;
        if is_sound(n, at, owing) {
            let w = walking::walk(owing, n, at);
            self.to_act_idx = w.seat;
            return RoundStep {
                answer: Ok(w.passed),
                round_data: self,
            };
        }
        RoundStep {
            answer: Err(AddedError::BadRecord.into()),
            round_data: self,
        }
    }

    // The stake of the seat to act.
    fn stake(self) -> Stake
        requires { self.to_act_idx < 16 }
        ensures { result ≡ stake_in self }
    {
        let bets = self.player_bet;
        let at = self.to_act_idx;
        Stake {
            round_bet: bets[at],
            bet: self.bet,
            min_raise: self.min_raise,
            total: self.total_bet_count,
            raises: self.total_raise_count,
            forced: self.forced_bet_count,
        }
    }

    // With another stake of the seat to act. The list is held apart while it changes.
    fn with_stake(self, s: Stake) -> RoundData
        requires { self.to_act_idx < 16 }
        ensures { result ≡ with_stake self s }
    {
        let mut d = self;
        let mut bets = d.player_bet;
        let at = d.to_act_idx;
        bets[at] = s.round_bet;
        d.min_raise = s.min_raise;
        d.bet = s.bet;
        d.player_bet = bets;
        d.total_bet_count = s.total;
        d.total_raise_count = s.raises;
        d.forced_bet_count = s.forced;
        d
    }

    // The seat to act puts in an extra amount. There is no walk.
    pub fn do_bet(self, extra_amount: f32, is_forced: bool) -> RoundStep
        ensures { result ≡ bet_of self extra_amount is_forced }
    {
        if is_sound(self.player_bet_len, self.to_act_idx, self.needs_action.set) {
            let stake = self.stake();
            if stake.is_full(extra_amount, is_forced) {
                return RoundStep {
                    answer: Err(AddedError::CounterFull.into()),
                    round_data: self,
                };
            }
            return RoundStep {
                answer: Ok(0),
                round_data: self.with_stake(stake.put_in(extra_amount, is_forced)),
            };
        }
        RoundStep {
            answer: Err(AddedError::BadRecord.into()),
            round_data: self,
        }
    }

    pub fn num_players_need_action(self) -> usize
        ensures { result ≡ count_to 16 self.needs_action.set }
    {
        seats::bits::count(self.needs_action.set)
    }

    pub fn is_action_unopened(self) -> bool
        ensures { result ≡ eqb self.total_bet_count self.forced_bet_count }
    {
        self.total_bet_count == self.forced_bet_count
    }

    pub fn current_player_bet(self) -> Result<f32, Refusal>
        ensures { result ≡ current_bet self }
    {
        let at = self.to_act_idx;
        if is_sound(self.player_bet_len, at, self.needs_action.set) {
            Ok(self.player_bet[at])
        } else {
            Err(AddedError::BadRecord.into())
        }
    }
}
