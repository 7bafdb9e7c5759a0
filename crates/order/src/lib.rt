// Document 01's good order of a table. Demand 3 over tables in good order is in proofs/, by a turn machine for any record and any raise rule.
#![tactic(auto)]

mod seatwise;

ghost use Rattle.std.specs.Prelude.{◌≡◌};
ghost use Rattle.order.specs.GoodOrder.{in_good_order};

use table::GameState;

// An unsound record is in no order, and is not looked at further: its number of seats may be anything.
pub fn in_good_order(table: GameState) -> bool
    ensures { result ≡ in_good_order table }
{
    if !table.is_sound() {
        return false;
    }
    let n = table.num_players;
    let d = table.round_data;
    let stacks = table.stacks;
    let hand = table.player_bet;
    let round = d.player_bet;
    let owing = d.needs_action.set;
    let pot = chips::chips_in(table.total_pot);
    let least = chips::chips_in(d.min_raise);
    let top = amounts::largest(round, n);
    let seat = seatwise::tested(n, round, hand, stacks, table.player_active.set, owing);
    let turn = seat.holding & (seat.playing & seats::bits::has(owing, d.to_act_idx));
    let raise = (1 <= least) & ((least <= 8000) & turn);
    let bets = seat.covered & ((chips::chips_in(d.bet) == chips::chips_in(top)) & raise);
    let books = (chips::sum_chips(stacks, n) + pot <= 8000)
        & ((pot == chips::sum_chips(hand, n)) & bets);
    let rest = chips::all_whole(round, n)
        & (chips::is_whole(d.bet) & (chips::is_whole(d.min_raise) & books));
    chips::all_whole(stacks, n)
        & (chips::is_whole(table.total_pot) & (chips::all_whole(hand, n) & rest))
}
