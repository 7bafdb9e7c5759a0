// A script, for a host that hands over a whole one.
ghost use Rattle.std.specs.Prelude.{◌≡◌, length};
ghost use Rattle.console.specs.Play.{at_start};
ghost use Rattle.console.specs.Parts.{script_part, over};
ghost use Rattle.layout.specs.Outcome.{floats_after, numbers_after};
ghost use Rattle.peatcloak.specs.Calls.{Stands};
ghost use Rattle.peatcloak.specs.Playing.{play_rows, play_table_on};
ghost use Rattle.refusals.specs.Rows.{judge};

use crate::outcomes;
use console::{ending, play};
use layout::places;
use refusals::{AddedError, Refusal, refuse_if};
use table::GameState;

// What it prints from its start on, as many lines as the buffer is sure to hold: the bytes that were laid.
#[unsafe(no_mangle)]
pub extern "C" fn peatcloak_play(script: &[u8], out: &mut [u8]) -> usize
    ensures value { result ≡ length (script_part script.now 0 at_start (length out.old)).bytes }
    ensures out_after { out.new ≡ over (script_part script.now 0 at_start (length out.old)).bytes out.old }
{
    let p = play::play_script(script, 0, play::start(), out);
    p.len
}

// The refusals of lists and a script of these lengths, from the first row to the last: whether a table stands at its end comes last.
fn verdict(floats: usize, numbers: usize, script: usize, stands: bool) -> Result<(), Refusal>
    ensures { result ≡ judge (play_rows floats numbers script stands) }
{
    let room = (places::FLOATS <= floats) & (places::NUMBERS <= numbers);
    refuse_if(!room, Refusal::Added(AddedError::BadRecord))?;
    refuse_if(
        !(script <= 65536),
        Refusal::Added(AddedError::ScriptTooLong),
    )?;
    refuse_if(!stands, Refusal::Added(AddedError::BadLine))
}

// The table that it leads to, laid into the lists: 19, 26, and 25 where no table stands at its end.
#[unsafe(no_mangle)]
pub extern "C" fn peatcloak_play_table(
    floats: &mut [f32],
    numbers: &mut [u32],
    script: &[u8],
) -> u32
    ensures value { result ≡ (play_table_on floats.old numbers.old script.now).number }
    ensures floats_after { floats.new ≡ floats_after (length numbers.old) (play_table_on floats.old numbers.old script.now) floats.old }
    ensures numbers_after { numbers.new ≡ numbers_after (length floats.old) (play_table_on floats.old numbers.old script.now) numbers.old }
    ensures stands { Stands result floats.new numbers.new (play_table_on floats.old numbers.old script.now) }
{
    let table = ending::end_of(script).table;
    let verdict = verdict(floats.len(), numbers.len(), script.len(), table.is_some());
    outcomes::lay_verdict(floats, numbers, verdict, table.unwrap_or(GameState::none()))
}
