// A script is played as `play` plays it, part by part.
use console::play;

// Room for what a script prints.
const ROOM: usize = 65536;

pub type Printed = [u8; ROOM];

pub const NO_BYTES: Printed = [0; ROOM];

// A part lays at least 56 lines, unless the script ends before.
fn most_parts(bytes: usize) -> usize {
    bytes / 56 + 1
}

// How many bytes the script prints; as many of them as there is room for are kept. None where it is not played to its end.
pub fn play(script: &[u8], printed: &mut Printed) -> Option<usize> {
    let mut at: usize = 0;
    let mut end: usize = 0;
    let mut console = play::start();
    // A part takes 56 bytes at least, so no more turns are needed, and no measure.
    for _ in 0..most_parts(script.len()) {
        let mut out = [0u8; 4096];
        let p = play::play_script(script, at, console, &mut out);
        // copied as far as there is room
        commons::copying::copy(printed, end, &out, 0, p.len);
        end = end.saturating_add(p.len);
        at = p.at;
        console = p.console;
    }
    if at < script.len() { None } else { Some(end) }
}
