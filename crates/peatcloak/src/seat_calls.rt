// A set of seats alone: a u16 whose binary digit i is seat i. What may be refused answers with the refusal number in the upper half of its word.
ghost use Rattle.std.specs.Prelude.{◌≡◌, eqb};
ghost use Rattle.std.specs.Int.Bits.{bit_and, bit_or};
ghost use Rattle.seats.specs.Bits.{count_to};
ghost use Rattle.seats.specs.Set.{of_bits, new_of, enable_of, disable_of, get_of, ones_of, seat_of};
ghost use Rattle.layout.specs.Words.{flag_of};
ghost use Rattle.peatcloak.specs.Seats.{over, set_word, seat_word};

use layout::words;
use seats::{PlayerBitSet, SeatStep, SetStep};

// The refusal number over the answer.
fn word_over(low: u16, number: u8) -> u32
    ensures { result ≡ over low number }
{
    (low as u32) + 65536 * (number as u32)
}

fn set_word(s: SetStep) -> u32
    ensures { result ≡ set_word s }
{
    let answer = s.answer;
    match answer {
        Ok(()) => word_over(s.set.set, 0),
        Err(r) => word_over(s.set.set, r.number()),
    }
}

fn seat_word(s: SeatStep) -> u32
    ensures { result ≡ seat_word s }
{
    let answer = s.answer;
    match answer {
        Ok(is) => words::word_of_flag(is),
        Err(r) => word_over(0, r.number()),
    }
}

#[unsafe(no_mangle)]
pub extern "C" fn peatcloak_seats_new(players: u32) -> u32
    ensures { result ≡ set_word (new_of players) }
{
    set_word(PlayerBitSet::new(players as usize))
}

#[unsafe(no_mangle)]
pub extern "C" fn peatcloak_seats_enable(set: u16, idx: u32) -> u32
    ensures { result ≡ set_word (enable_of (of_bits set) idx) }
{
    let s = PlayerBitSet { set };
    set_word(s.enable(idx as usize))
}

#[unsafe(no_mangle)]
pub extern "C" fn peatcloak_seats_disable(set: u16, idx: u32) -> u32
    ensures { result ≡ set_word (disable_of (of_bits set) idx) }
{
    let s = PlayerBitSet { set };
    set_word(s.disable(idx as usize))
}

#[unsafe(no_mangle)]
pub extern "C" fn peatcloak_seats_get(set: u16, idx: u32) -> u32
    ensures { result ≡ seat_word (get_of (of_bits set) idx) }
{
    let s = PlayerBitSet { set };
    seat_word(s.get(idx as usize))
}

#[unsafe(no_mangle)]
pub extern "C" fn peatcloak_seats_count(set: u16) -> u32
    ensures { result ≡ count_to 16 set }
{
    let s = PlayerBitSet { set };
    words::word_of(s.count())
}

#[unsafe(no_mangle)]
pub extern "C" fn peatcloak_seats_empty(set: u16) -> u32
    ensures { result ≡ flag_of (eqb set 0) }
{
    let s = PlayerBitSet { set };
    words::word_of_flag(s.empty())
}

// The iterator's next seat from a place on, 16 where there is none.
#[unsafe(no_mangle)]
pub extern "C" fn peatcloak_seats_next(set: u16, from: u32) -> u32
    ensures { result ≡ seat_of (ones_of (of_bits set) from) }
{
    let s = PlayerBitSet { set };
    match s.ones(from as usize) {
        Some(i) => words::word_of(i),
        None => 16,
    }
}

#[unsafe(no_mangle)]
pub extern "C" fn peatcloak_seats_or(left: u16, right: u16) -> u16
    ensures { result ≡ bit_or left right }
{
    let a = PlayerBitSet { set: left };
    let b = PlayerBitSet { set: right };
    let both = a.bitor(b);
    both.set
}

#[unsafe(no_mangle)]
pub extern "C" fn peatcloak_seats_and(left: u16, right: u16) -> u16
    ensures { result ≡ bit_and left right }
{
    let a = PlayerBitSet { set: left };
    let b = PlayerBitSet { set: right };
    let both = a.bitand(b);
    both.set
}
