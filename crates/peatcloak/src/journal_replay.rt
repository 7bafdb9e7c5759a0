// A hand of the journal played again, and the table that it leads to laid into the host's lists.
ghost use Rattle.std.specs.Prelude.{◌≡◌, length};
ghost use Rattle.layout.specs.Outcome.{floats_after, numbers_after};
ghost use Rattle.peatcloak.specs.Calls.{Stands};
ghost use Rattle.peatcloak.specs.Replaying.{lines_told, replay_hand_on, replay_out};

use crate::journal_words;
use layout::{outcome, places, words};
use recorder::replaying;
use table::GameState;

// How many lines were played, where the bytes are a hand.
fn tell_lines(out: &mut [u32], number: u8, lines: usize)
    ensures { out.new ≡ lines_told number lines out.old }
{
    if number != 27 {
        journal_words::tell(out, words::word_of(lines));
    }
}

// Where a line is refused, the lines before it are told, and no table is laid.
#[unsafe(no_mangle)]
pub extern "C" fn peatcloak_replay_hand(
    floats: &mut [f32],
    numbers: &mut [u32],
    bytes: &[u8],
    out: &mut [u32],
) -> u32
    ensures value { result ≡ (replay_hand_on floats.old numbers.old bytes.now (length out.old)).number }
    ensures floats_after { floats.new ≡ floats_after (length numbers.old) (replay_hand_on floats.old numbers.old bytes.now (length out.old)) floats.old }
    ensures numbers_after { numbers.new ≡ numbers_after (length floats.old) (replay_hand_on floats.old numbers.old bytes.now (length out.old)) numbers.old }
    ensures out_after { out.new ≡ replay_out (length floats.old) (length numbers.old) bytes.now out.old }
    ensures stands { Stands result floats.new numbers.new (replay_hand_on floats.old numbers.old bytes.now (length out.old)) }
{
    let room = (places::FLOATS <= floats.len()) & (places::NUMBERS <= numbers.len());
    if (1 <= out.len()) & room {
        let played = replaying::replay_hand(bytes);
        let number = played.number();
        let table = played.state.table.unwrap_or(GameState::none());
        tell_lines(out, number, played.lines);
        return outcome::lay(floats, numbers, number, table, 0.0, 0);
    }
    19
}
