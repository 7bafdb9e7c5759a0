// What stands at the end of a script: the table that it leads to, and the key that it carries. It is played by parts like any script, so that a line is
// played in one place; what is printed is dropped.
ghost use Rattle.std.specs.Prelude.{◌≡◌};
ghost use Rattle.console.specs.Ending.{end_of};
ghost use Rattle.console.specs.Parts.{script_part, played_of};

use crate::act::State;
use crate::play;
use crate::play::{Console, Played};

// A part of it: as many lines as 512 bytes are sure to hold.
fn play_part(script: &[u8], at: usize, c: Console) -> Played
    ensures { result ≡ played_of (script_part script.now at c 512) }
{
    let mut out = [0u8; 512];
    play::play_script(script, at, c, &mut out)
}

// Of a script that is too long nothing is played.
pub fn end_of(script: &[u8]) -> State
    ensures { result ≡ end_of script.now }
{
    let mut at: usize = 0;
    let mut c = play::start();
    // By hand: the place moves by what was played.
    while at < script.len() {
        let p = play_part(script, at, c);
        at = p.at;
        c = p.console;
    }
    c.state
}
