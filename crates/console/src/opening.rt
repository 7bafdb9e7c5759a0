// A table from the numbers of a `t` line, and the lists that a line's numbers give.
ghost use Rattle.std.specs.Prelude.{◌≡◌, take};
ghost use Rattle.console.specs.Opening.{amounts_from, opening_of};

use builder::{BuildStep, GameStateBuilder};
use keys::HandKey;
use refusals::{GameStateBuilderError, Refusal};
use table::GameState;

// The sixteen numbers after the first four, as amounts.
fn amounts_from(numbers: [u16; 20]) -> [f32; 16]
    ensures { result ≡ amounts_from numbers }
{
    let mut list = [0.0f32; 16];
    for (i, n) in numbers[4..].iter().enumerate() {
        list[i] = *n as f32;
    }
    list
}

// The first sixteen numbers.
pub fn ranks_of(numbers: [u16; 20]) -> [u16; 16]
    ensures { result ≡ take 16 numbers }
{
    let mut list = [0u16; 16];
    list.copy_from_slice(&numbers[..16]);
    list
}

// 3 unless there are 2 to 16 stacks, then what the builder gives of these and the key.
pub fn open_table(key: HandKey, count: usize, numbers: [u16; 20]) -> BuildStep
    ensures { result ≡ opening_of key count numbers }
{
    if (6 <= count) & (count <= 20) {
        let n = count - 4;
        let stacks = amounts_from(numbers);
        return GameStateBuilder::new()
            .hand_key(key)
            .dealer_idx(numbers[0] as usize)
            .big_blind(numbers[1] as f32)
            .small_blind(numbers[2] as f32)
            .ante(numbers[3] as f32)
            .stacks(&stacks[..n])
            .build();
    }
    BuildStep {
        answer: Err(Refusal::Build(GameStateBuilderError::InvalidPlayerCount)),
        table: GameState::none(),
    }
}
