// Settlement, which the Rust lacks: the pot of a record goes to its contenders, layer by layer, and each seat's reward is told.
#![tactic(auto)]

ghost use Rattle.std.specs.Prelude.{◌≡◌, ◌≤◌};
ghost use Rattle.settlement.specs.Hand.{after_dealer, hand_of};
ghost use Rattle.settlement.specs.Settlement.{settle_rows, paid_out, settled_of};
ghost use Rattle.refusals.specs.Rows.{judge};

use layers::Hand;
use refusals::{AddedError, Refusal, refuse_if};
use table::GameState;

mod checks;
mod paying;

#[derive(Clone, Copy)]
pub struct Settled {
    pub answer: Result<(), Refusal>,
    pub table: GameState,
    pub rewards: [i32; 16],
}

// The first seat after the dealer, going round. A dealer without a seat is refused as 19, and here gives seat 0.
fn after_dealer(dealer: usize, n: usize) -> usize
    ensures { result ≡ after_dealer n dealer }
{
    if dealer < n {
        let next = dealer + 1;
        if next < n {
            return next;
        }
    }
    0
}

// The hand in whole chips. Odd chips go in order from the first seat after the dealer.
fn hand_of(table: GameState, ranks: [u16; 16]) -> Hand
    ensures { result ≡ hand_of table ranks }
{
    let bets = table.player_bet;
    let chips = paying::counted(bets);
    let n = table.num_players;
    let first = after_dealer(table.dealer_idx, n);
    Hand {
        n,
        active: table.player_active.set,
        all_in: table.player_all_in.set,
        first,
        bets: chips,
        ranks,
    }
}

// The refusals, from the first row to the last: the first that holds answers.
fn verdict(table: GameState, someone: bool) -> Result<(), Refusal>
    ensures { result ≡ judge (settle_rows table someone) }
{
    let n = table.num_players;
    let stacks = table.stacks;
    let bets = table.player_bet;
    let starting = table.starting_stacks;
    let winnings = table.player_winnings;
    let whole = checks::in_chips(n, stacks, bets, starting, table.total_pot);
    let paid = checks::any_won(winnings, n);
    refuse_if(!table.is_sound(), AddedError::BadRecord.into())?;
    refuse_if(paid, AddedError::AlreadyPaid.into())?;
    refuse_if(!whole, AddedError::NotWholeChips.into())?;
    refuse_if(!someone, AddedError::NobodyLeft.into())
}

// The awards go into the stacks and the winnings, and the rewards are told of the stacks with them.
fn paid_out(table: GameState, awards: [u32; 16]) -> Settled
    requires { table.num_players ≤ 16 }
    ensures { result ≡ paid_out table awards }
{
    let n = table.num_players;
    let stacks = table.stacks;
    let starting = table.starting_stacks;
    let winnings = table.player_winnings;
    let more = paying::with_awards(stacks, awards, n);
    let won = paying::with_awards(winnings, awards, n);
    let rewards = paying::rewards(more, starting, n);
    let mut t = table;
    t.stacks = more;
    t.player_winnings = won;
    Settled {
        answer: Ok(()),
        table: t,
        rewards,
    }
}

// The pot is awarded by the seats' ranks, the higher the better.
pub fn settle(table: GameState, ranks: [u16; 16]) -> Settled
    ensures { result ≡ settled_of table ranks }
{
    let h = hand_of(table, ranks);
    // where 22 is looked at, a hand is payable exactly if somebody contends
    match verdict(table, layers::is_payable(h)) {
        Ok(()) => paid_out(table, layers::awards(h)),
        Err(r) => Settled {
            answer: Err(r),
            table,
            rewards: [0; 16],
        },
    }
}
