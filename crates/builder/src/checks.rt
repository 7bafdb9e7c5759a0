// What the builder tests and makes, on plain values.
ghost use Rattle.std.specs.Prelude.{◌≡◌, ℕ, ◌<◌, Bool, min};
ghost use Rattle.seats.specs.Bits.{seats_where};
ghost use Rattle.builder.specs.Build.{active_at, all_in_at, active_seats, all_in_seats};
ghost use Rattle.refusals.specs.Rows.{judge};
ghost use Rattle.builder.specs.Cards.{cards_to, card_rows, board_size};

use refusals::{AddedError, GameStateBuilderError, Refusal};

// The first n cards of a slice, zeros after them.
pub fn cards_to(s: &[u8], n: usize) -> [u8; 5]
    ensures { result ≡ cards_to n s.now }
{
    let mut out = [0u8; 5];
    commons::copying::copy(&mut out, 0, s, 0, n);
    out
}

pub fn is_board_size(n: usize) -> bool
    ensures { result ≡ board_size n }
{
    (n == 0) | ((3 <= n) & (n <= 5))
}

// The first fault of the cards.
pub fn card_fault(list: [u8; 5], len: usize) -> Result<(), Refusal>
    ensures { result ≡ judge (card_rows (min len 5) 0 list) }
{
    let cards = &list[..len.min(5)];
    for (i, card) in cards.iter().enumerate() {
        if 52 <= *card {
            return Err(AddedError::BadCard.into());
        }
        if list[..i].contains(card) {
            return Err(GameStateBuilderError::DuplicateCard.into());
        }
    }
    Ok(())
}

fn is_active(starting: bool, stack: f32, bet: f32) -> bool
    ensures { result ≡ active_at starting stack bet }
{
    !(stack <= 0.0) | ((bet > 0.0) & !starting)
}

fn is_all_in(starting: bool, stack: f32, bet: f32) -> bool
    ensures { result ≡ all_in_at starting stack bet }
{
    (stack <= 0.0) & ((bet > 0.0) & !starting)
}

// The seats below n for which the test holds.
fn seats_where<F: Fn(usize) -> bool>(n: usize, test: F) -> u16
    requires callable { (i : ℕ) → i < n → F.pre test i }
    ensures { (p : ℕ → Bool) → ((i : ℕ) (r : Bool) → i < n → F.post test i r → r ≡ p i) → result ≡ seats_where n p }
{
    // i is a seat, and no list is looked at here: what is asked of it is the test's.
    let mut set = 0u16;
    for i in 0..n {
        set = seats::bits::with_if(test(i), set, i);
    }
    set
}

pub fn active_seats(starting: bool, len: usize, stacks: [f32; 16], bets: [f32; 16]) -> u16
    ensures { result ≡ active_seats starting len stacks bets }
{
    seats_where(len.min(16), |i| is_active(starting, stacks[i], bets[i]))
}

pub fn all_in_seats(starting: bool, len: usize, stacks: [f32; 16], bets: [f32; 16]) -> u16
    ensures { result ≡ all_in_seats starting len stacks bets }
{
    seats_where(len.min(16), |i| is_all_in(starting, stacks[i], bets[i]))
}
