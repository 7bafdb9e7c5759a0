// A script played part by part: as many lines as a lent buffer is sure to hold.
ghost use Rattle.std.specs.Prelude.{◌≡◌, ◌≤◌, length};
ghost use Rattle.console.specs.Play.{at_start, count_up, turn_of, said};
ghost use Rattle.console.specs.Parts.{part_from, refused_part, script_part, played_of, over};

use crate::act::State;
use crate::{act, shown};
use refusals::AddedError;
use script::line::Words;
use script::print::Text;
use script::{print, reader};

// The number of the next line, and what stands before it.
#[derive(Clone, Copy)]
pub struct Console {
    pub line_no: usize,
    pub state: State,
}

// A line's text, and the console after it.
#[derive(Clone, Copy)]
pub struct Turn {
    pub text: Text,
    pub console: Console,
}

// Where a part of the script ends, the console there, and how many bytes were printed.
#[derive(Clone, Copy)]
pub struct Played {
    pub at: usize,
    pub console: Console,
    pub len: usize,
}

// Line 1, no table, no key.
pub fn start() -> Console
    ensures { result ≡ at_start }
{
    Console {
        line_no: 1,
        state: State {
            table: None,
            key: keys::NONE,
        },
    }
}

fn count_up(n: usize) -> usize
    ensures { result ≡ count_up n }
{
    n.saturating_add(1)
}

// A line played and its text: 72 bytes hold it.
pub fn play_line(w: Words, c: Console) -> Turn
    ensures turn { result ≡ turn_of c w }
    ensures fits { length (said c w) ≤ 72 }
{
    let stood = c.state;
    let a = act::obey(w, stood);
    let state = a.state;
    let text = print::print(c.line_no, a.number(), shown::view_of(state));
    Turn {
        text,
        console: Console {
            line_no: count_up(c.line_no),
            state,
        },
    }
}

// Lines from a place on, while the buffer has 72 places left.
fn play_some(script: &[u8], from: usize, console: Console, out: &mut [u8]) -> Played
    ensures value { result ≡ played_of (part_from script.now from console (length out.old)) }
    ensures out_after { out.new ≡ over (part_from script.now from console (length out.old)).bytes out.old }
{
    let mut at = from;
    let mut c = console;
    let mut n: usize = 0;
    // By hand: the place moves by what was read there.
    while at < script.len() && 72 <= out.len() - n {
        let read = reader::read_line(script, at);
        let turn = play_line(read.words, c);
        let text = turn.text;
        commons::copying::copy(out, n, &text.bytes, 0, text.len);
        n += text.len;
        at = read.next;
        c = turn.console;
    }
    Played {
        at,
        console: c,
        len: n,
    }
}

// A script of n bytes that is too long prints one line, and is at its end.
fn refuse(n: usize, at: usize, console: Console, out: &mut [u8]) -> Played
    ensures value { result ≡ played_of (refused_part n at console (length out.old)) }
    ensures out_after { out.new ≡ over (refused_part n at console (length out.old)).bytes out.old }
{
    if (n <= at) | (out.len() < 72) {
        return Played {
            at,
            console,
            len: 0,
        };
    }
    let text = print::print(0, AddedError::ScriptTooLong.number(), None);
    let bytes = text.bytes;
    commons::copying::copy(out, 0, &bytes, 0, text.len);
    Played {
        at: n,
        console,
        len: text.len,
    }
}

// A part of what the script prints, from a place on.
pub fn play_script(script: &[u8], at: usize, console: Console, out: &mut [u8]) -> Played
    ensures value { result ≡ played_of (script_part script.now at console (length out.old)) }
    ensures out_after { out.new ≡ over (script_part script.now at console (length out.old)).bytes out.old }
{
    let n = script.len();
    if 65536 < n {
        return refuse(n, at, console, out);
    }
    play_some(script, at, console, out)
}
