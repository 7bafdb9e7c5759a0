// Text 001: PlayerBitSet, by value. The work is done on the number that holds the set, in bits.
#![tactic(auto)]

ghost use Rattle.std.specs.Prelude.{◌≡◌, eqb};
ghost use Rattle.std.specs.Int.Bits.{bit_and, bit_or};
ghost use Rattle.seats.specs.Bits.{count_to};
ghost use Rattle.seats.specs.Set.{of_bits, new_of, enable_of, disable_of, get_of, ones_of};

use refusals::{AddedError, GameStateBuilderError, Refusal};

pub mod bits;

#[derive(Clone, Copy, PartialEq, Eq)]
pub struct PlayerBitSet {
    pub set: u16,
}

// What a call that makes a set gives: the answer, and the set beside it.
// It is a type of its own, and not one generic step, so that its field says what is given back.
#[derive(Clone, Copy)]
pub struct SetStep {
    pub answer: Result<(), Refusal>,
    pub set: PlayerBitSet,
}

// Whether a seat is in the set, and the set beside it.
// It is a type of its own, and not one generic step, so that its field says what is given back.
#[derive(Clone, Copy)]
pub struct SeatStep {
    pub answer: Result<bool, Refusal>,
    pub set: PlayerBitSet,
}

impl PlayerBitSet {
    // Above 16 seats it gives nobody beside the refusal, and no Option: `refused` promises that set.
    pub fn new(players: usize) -> SetStep
        ensures { result ≡ new_of players }
    {
        if players <= 16 {
            SetStep {
                answer: Ok(()),
                set: PlayerBitSet {
                    set: bits::up_to(players),
                },
            }
        } else {
            SetStep {
                answer: Err(GameStateBuilderError::InvalidPlayerCount.into()),
                set: PlayerBitSet { set: 0 },
            }
        }
    }

    pub fn default() -> PlayerBitSet
        ensures { result ≡ of_bits 0 }
    {
        PlayerBitSet { set: 0 }
    }

    pub fn count(self) -> usize
        ensures { result ≡ count_to 16 self.set }
    {
        bits::count(self.set)
    }

    pub fn empty(self) -> bool
        ensures { result ≡ eqb self.set 0 }
    {
        self.set == 0
    }

    pub fn enable(self, idx: usize) -> SetStep
        ensures { result ≡ enable_of self idx }
    {
        if idx < 16 {
            SetStep {
                answer: Ok(()),
                set: PlayerBitSet {
                    set: bits::with(self.set, idx),
                },
            }
        } else {
            SetStep {
                answer: Err(AddedError::BadSeat.into()),
                set: self,
            }
        }
    }

    pub fn disable(self, idx: usize) -> SetStep
        ensures { result ≡ disable_of self idx }
    {
        if idx < 16 {
            SetStep {
                answer: Ok(()),
                set: PlayerBitSet {
                    set: bits::without(self.set, idx),
                },
            }
        } else {
            SetStep {
                answer: Err(AddedError::BadSeat.into()),
                set: self,
            }
        }
    }

    // The set comes back as it was, by the law `get-back`.
    pub fn get(self, idx: usize) -> SeatStep
        ensures { result ≡ get_of self idx }
    {
        let answer = if idx < 16 {
            Ok(bits::has(self.set, idx))
        } else {
            Err(AddedError::BadSeat.into())
        };
        SeatStep { answer, set: self }
    }

    // The Rust's iterator, asked from a place on: start at 0, and ask again from the seat after the one given.
    pub fn ones(self, from: usize) -> Option<usize>
        ensures { result ≡ ones_of self from }
    {
        let i = bits::next(self.set, from);
        if i < 16 { Some(i) } else { None }
    }

    pub fn bitor(self, rhs: PlayerBitSet) -> PlayerBitSet
        ensures { result ≡ of_bits (bit_or self.set rhs.set) }
    {
        PlayerBitSet {
            set: self.set | rhs.set,
        }
    }

    pub fn bitand(self, rhs: PlayerBitSet) -> PlayerBitSet
        ensures { result ≡ of_bits (bit_and self.set rhs.set) }
    {
        PlayerBitSet {
            set: self.set & rhs.set,
        }
    }
}
