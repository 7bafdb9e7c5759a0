// Plays the script on standard input and writes what it prints. 65,537 bytes tell that a script is too long, and of such a one
// no byte matters, so no more are read.
#![tactic(auto)]

ghost use Rattle.std.specs.Prelude.{◌≡◌, ◌≤◌, length};
ghost use Rattle.console.specs.Parts.{script_part, played_of};

use console::play;
use console::play::{Console, Played};
use std::io::Read;

// Reads until the room is full, the input ends or a read fails, and answers how many bytes stand at its start.
fn read_full(input: &mut impl Read, room: &mut [u8]) -> usize
    ensures { result ≤ length room.new }
{
    // A read may give less than is asked, but a byte at least before the end: no more turns are needed than bytes.
    let mut bytes: usize = 0;
    for _ in 0..room.len() {
        if room.len() <= bytes {
            break;
        }
        match input.read(&mut room[bytes..]) {
            Ok(0) => break,
            Ok(n) => bytes += n,
            Err(_) => break,
        }
    }
    bytes
}

// A part of the script: as many lines as 4,096 bytes are sure to hold. What cannot be written is left out.
fn play_part(rt: &impl Print, script: &[u8], at: usize, c: Console) -> Played
    ensures { result ≡ played_of (script_part script.now at c 4096) }
{
    let mut out = [0u8; 4096];
    let p = play::play_script(script, at, c, &mut out);
    let _ = rt.write_all(&out[..p.len]);
    p
}

fn play_all(rt: &impl Print, script: &[u8]) {
    // By hand: the place moves by what was played.
    let mut at: usize = 0;
    let mut c = play::start();
    while at < script.len() {
        let p = play_part(rt, script, at, c);
        at = p.at;
        c = p.console;
    }
}

fn main(rt: HostRuntime) {
    let mut buffer = [0u8; 65537];
    let n = read_full(&mut rt.stdin(), &mut buffer);
    play_all(&rt, &buffer[..n]);
}
