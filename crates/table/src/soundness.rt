// Document 01's test of a record, on the parts that it looks at.
ghost use Rattle.std.specs.Prelude.{◌≡◌};
ghost use Rattle.table.specs.Sound.{sound_frame, board_ok};

use crate::added::Added;

// The parts of a record that its soundness looks at.
#[derive(Clone, Copy)]
pub struct Frame {
    pub seats: usize,
    pub round_seats: usize,
    pub dealer: usize,
    pub to_act: usize,
    pub active: u16,
    pub all_in: u16,
    pub owing: u16,
    pub starting: u16,
    pub cards: usize,
    pub board: [u8; 5],
    pub added: Added,
}

// Whether the board has at most 5 cards, each below 52; of a longer one nothing is read.
fn board_ok(board: [u8; 5], len: usize) -> bool
    ensures { result ≡ board_ok len board }
{
    match board.get(..len) {
        Some(cards) => cards.iter().all(|card| *card < 52),
        None => false,
    }
}

impl Frame {
    pub fn is_sound(self) -> bool
        ensures { result ≡ sound_frame self }
    {
        let n = self.seats;
        let board = self.board;
        let added = self.added;
        let last = board_ok(board, self.cards) & added.is_good();
        let two = seats::bits::is_below(self.owing, n)
            & (seats::bits::is_below(self.starting, n) & last);
        let sets = seats::bits::is_below(self.active, n)
            & (seats::bits::is_below(self.all_in, n) & two);
        let seats = (self.round_seats == n) & ((self.dealer < n) & ((self.to_act < n) & sets));
        (2 <= n) & ((n <= 16) & seats)
    }
}
