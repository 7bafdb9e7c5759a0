// The bet, the fold, and a player's choice between them.
ghost use Rattle.std.specs.Prelude.{◌≡◌, ◌<◌};
ghost use Rattle.table.specs.Choice.{choice_of, paying_nothing};
ghost use Rattle.table.specs.Pay.{actor, room_for, verdict_of, payer_in, with_payer, paid_step, bet_of, fold_of};

use crate::{AgentAction, BetStep, GameState, Paid, TableStep};
use bets::Facing;
use refusals::{AddedError, Refusal};
use rounds::paying::{Payer, Stake};
use rounds::walking;

// What of a size is left once the counters are looked at: 21.
pub fn room_for(stake: Stake, is_forced: bool, size: Result<f32, Refusal>) -> Result<f32, Refusal>
    ensures { result ≡ room_for stake is_forced size }
{
    let x = size?;
    if stake.is_full(x, is_forced) {
        return Err(Refusal::Added(AddedError::CounterFull));
    }
    Ok(x)
}

// What the payer pays of an amount: 14 to 17, then 21.
fn verdict(p: Payer, amount: f32, is_forced: bool) -> Result<f32, Refusal>
    ensures { result ≡ verdict_of p amount is_forced }
{
    let stake = p.stake;
    let facing = Facing {
        round_bet: stake.round_bet,
        stack: p.stack,
        bet: stake.bet,
        min_raise: stake.min_raise,
    };
    room_for(stake, is_forced, bets::validate(is_forced, amount, facing))
}

// A fold as a bet's answer: nothing is paid.
fn paying_nothing(a: Result<usize, Refusal>) -> Result<Paid, Refusal>
    ensures { result ≡ paying_nothing a }
{
    let passed = a?;
    Ok(Paid {
        amount: 0.0,
        passed,
    })
}

impl GameState {
    // The seat to act as one that pays.
    fn payer(self) -> Payer
        requires { actor self < 16 }
        ensures { result ≡ payer_in self }
    {
        let d = self.round_data;
        let stacks = self.stacks;
        let hand_bets = self.player_bet;
        let round_bets = d.player_bet;
        let i = d.to_act_idx;
        Payer {
            stake: Stake {
                round_bet: round_bets[i],
                bet: d.bet,
                min_raise: d.min_raise,
                total: d.total_bet_count,
                raises: d.total_raise_count,
                forced: d.forced_bet_count,
            },
            stack: stacks[i],
            hand_bet: hand_bets[i],
            pot: self.total_pot,
            active: self.player_active.set,
            all_in: self.player_all_in.set,
            owing: d.needs_action.set,
            seat: i,
        }
    }

    // The record after the seat to act paid. A list that changes is held apart meanwhile: one that is indexed inside the record would keep all of it in
    // memory.
    fn with_payer(self, p: Payer) -> GameState
        requires { actor self < 16 }
        ensures { result ≡ with_payer self p }
    {
        let mut t = self;
        let mut d = t.round_data;
        let mut stacks = t.stacks;
        let mut hand_bets = t.player_bet;
        let mut round_bets = d.player_bet;
        let stake = p.stake;
        let i = d.to_act_idx;
        stacks[i] = p.stack;
        hand_bets[i] = p.hand_bet;
        round_bets[i] = stake.round_bet;
        d.needs_action.set = p.owing;
        d.min_raise = stake.min_raise;
        d.bet = stake.bet;
        d.player_bet = round_bets;
        d.total_bet_count = stake.total;
        d.total_raise_count = stake.raises;
        d.forced_bet_count = stake.forced;
        d.to_act_idx = p.seat;
        t.player_active.set = p.active;
        t.player_all_in.set = p.all_in;
        t.total_pot = p.pot;
        t.stacks = stacks;
        t.player_bet = hand_bets;
        t.round_data = d;
        t
    }

    // The seat to act bets the amount.
    pub fn do_bet(self, amount: f32, is_forced: bool) -> BetStep
        ensures { result ≡ bet_of self amount is_forced }
    {
        if !self.is_sound() {
            return BetStep {
                answer: Err(Refusal::Added(AddedError::BadRecord)),
                table: self,
            };
        }
        let payer = self.payer();
        match verdict(payer, amount, is_forced) {
            Err(r) => BetStep {
                answer: Err(r),
                table: self,
            },
            Ok(x) => {
                let mut paid = payer.pay(x, is_forced);
                let w = walking::walk(paid.owing, self.round_data.player_bet_len, paid.seat);
                paid.seat = w.seat;
                BetStep {
                    answer: Ok(Paid {
                        amount: x,
                        passed: w.passed,
                    }),
                    table: self.with_payer(paid),
                }
            }
        }
    }

    // The seat to act leaves the hand.
    pub fn fold(mut self) -> TableStep
        ensures { result ≡ fold_of self }
    {
        let mut answer = Err(Refusal::Added(AddedError::BadRecord));
        if self.is_sound() {
            let i = self.round_data.to_act_idx;
            let owed = seats::bits::without(self.round_data.needs_action.set, i);
            let w = walking::walk(owed, self.round_data.player_bet_len, i);
            let active = seats::bits::without(self.player_active.set, i);
            self.player_active.set = active;
            self.round_data.needs_action.set = owed;
            self.round_data.to_act_idx = w.seat;
            answer = Ok(w.passed);
        }
        TableStep {
            answer,
            table: self,
        }
    }

    // The choice of the seat to act.
    pub fn choose(self, action: AgentAction) -> BetStep
        ensures { result ≡ choice_of self action }
    {
        match action {
            AgentAction::Call => self.do_bet(self.round_data.bet, false),
            AgentAction::Bet(amount) => self.do_bet(amount, false),
            AgentAction::AllIn => self.do_bet(floats::infinity(), false),
            AgentAction::Fold => {
                let s = self.fold();
                let folded = s.table;
                let a = s.answer;
                BetStep {
                    answer: paying_nothing(a),
                    table: folded,
                }
            }
        }
    }
}
