// The hands of a script, taken one by one: each gives its key, and its entries for the journal.
ghost use Rattle.std.specs.Prelude.{◌≡◌, not, ◌&&◌, eqb, length, take};
ghost use Rattle.script.specs.Ascii.{is};
ghost use Rattle.journal.specs.Tape.{put_line, tape_after};
ghost use Rattle.recorder.specs.Hands.{lines_until};
ghost use Rattle.recorder.specs.Laying.{after_put, taped, laid_line, laid_all};
ghost use Rattle.recorder.specs.Taking.{next_table, words_from, closed_with, taken, tape_taken};

use console::act;
use console::act::State;
use journal::tape;
use keys::HandKey;
use script::line::Words;
use script::reader;

// A hand of a script: its key, how many entries were laid, and whether all were.
#[derive(Clone, Copy)]
pub struct HandTaken {
    pub key: HandKey,
    pub entries: usize,
    pub is_whole: bool,
}

// The next hand, if there is one; where it is closed, and what stands there.
#[derive(Clone, Copy)]
pub struct Taken {
    pub hand: Option<HandTaken>,
    pub at: usize,
    pub state: State,
}

// A place of the script, and what stands there.
#[derive(Clone, Copy)]
struct Place {
    at: usize,
    state: State,
}

// How many entries are laid, and whether all lines so far found room. What is laid stays where a line finds none, so this is no `Option`.
#[derive(Clone, Copy)]
struct Filled {
    entries: usize,
    is_whole: bool,
}

// Whether a line with this letter and this answer opens a hand.
// By the number and not the `Result`, as `opens` and `goes_in` say it, of which the laws are. So with `is_line`.
fn is_opening(letter: u8, number: u8) -> bool
    ensures { result ≡ (is letter "t" && eqb number 0) }
{
    (letter == b't') & (number == 0)
}

// Whether it goes into the hand that is open.
fn is_line(letter: u8, number: u8) -> bool
    ensures { result ≡ (not (is letter "k") && eqb number 0) }
{
    (letter != b'k') & (number == 0)
}

// Lines played up to the next accepted `t`, which is left to be read, or to the script's end.
fn next_table(script: &[u8], from: usize, stood: State) -> Place
    ensures { result ≡ next_table script.now from stood }
{
    // By hand: the place moves by what was read there.
    let mut at = from;
    let mut state = stood;
    while at < script.len() {
        let read = reader::read_line(script, at);
        let words = read.words;
        let act = act::obey(words, state);
        if is_opening(words.letter, act.number()) {
            return Place { at, state };
        }
        at = read.next;
        state = act.state;
    }
    Place { at, state }
}

// A line put behind the entries so far.
fn put(tape: &mut [u32], f: Filled, letter: u8, count: usize, numbers: [u16; 20]) -> Filled
    ensures value { result ≡ after_put f (put_line (length tape.old) f.entries letter (take count numbers)) }
    ensures tape_after { tape.new ≡ tape_after f.entries letter (take count numbers) tape.old }
{
    let used = count.min(20);
    match tape::put_line(tape, f.entries, letter, &numbers[..used]) {
        Ok(entries) => Filled {
            entries,
            is_whole: true,
        },
        Err(_) => Filled {
            entries: f.entries,
            is_whole: false,
        },
    }
}

// A line put where it goes in. Once one found no room, nothing more is laid.
fn lay(goes: bool, tape: &mut [u32], f: Filled, w: Words) -> Filled
    ensures value { result ≡ (laid_line goes w (taped f tape.old)).filled }
    ensures tape_after { tape.new ≡ (laid_line goes w (taped f tape.old)).tape }
{
    let numbers = w.numbers;
    if goes & f.is_whole {
        return put(tape, f, w.letter, w.count, numbers);
    }
    f
}

// The lines that follow a `t`, up to the next one that is accepted.
fn fill(
    script: &[u8],
    from: usize,
    stood: State,
    key: HandKey,
    first: Filled,
    tape: &mut [u32],
) -> Taken
    ensures value { result ≡ closed_with (next_table script.now from stood) key (laid_all (taped first tape.old) (lines_until stood (words_from script.now from))).filled }
    ensures tape_after { tape.new ≡ (laid_all (taped first tape.old) (lines_until stood (words_from script.now from))).tape }
{
    // By hand: the place moves by what was read there.
    let mut at = from;
    let mut state = stood;
    let mut f = first;
    while at < script.len() {
        let read = reader::read_line(script, at);
        let words = read.words;
        let act = act::obey(words, state);
        let number = act.number();
        if is_opening(words.letter, number) {
            break;
        }
        f = lay(is_line(words.letter, number), tape, f, words);
        at = read.next;
        state = act.state;
    }
    let hand = HandTaken {
        key,
        entries: f.entries,
        is_whole: f.is_whole,
    };
    Taken {
        hand: Some(hand),
        at,
        state,
    }
}

// The next hand from a place on, where this stands. Who asks again from where it is closed has all hands of the script.
pub fn next_hand(script: &[u8], at: usize, state: State, tape: &mut [u32]) -> Taken
    ensures value { result ≡ taken script.now at state (length tape.old) }
    ensures tape_after { tape.new ≡ tape_taken script.now at state tape.old }
{
    let p = next_table(script, at, state);
    let from = p.at;
    let stood = p.state;
    if script.len() <= from {
        return Taken {
            hand: None,
            at: from,
            state: stood,
        };
    }
    let key = stood.key;
    let read = reader::read_line(script, from);
    let words = read.words;
    let act = act::obey(words, stood);
    let after = act.state;
    let none = Filled {
        entries: 0,
        is_whole: true,
    };
    let first = lay(true, tape, none, words);
    fill(script, read.next, after, key, first, tape)
}
