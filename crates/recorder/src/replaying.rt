// A hand of the journal played again, line by line, from no table and its key.
ghost use Rattle.std.specs.Prelude.{◌≡◌, Ok};
ghost use Rattle.journal.specs.Hand.{reads};
ghost use Rattle.recorder.specs.Replay.{replay_number, fresh_with, replay_of, lines_in, replay_bytes};

use console::act;
use console::act::State;
use journal::hand::HandHead;
use journal::{hand, reading};
use keys::HandKey;
use refusals::Refusal;

// What a replay came to: that each line was accepted, or why one was refused; the lines before it; and what stands.
#[derive(Clone, Copy)]
pub struct Replayed {
    pub answer: Result<(), Refusal>,
    pub lines: usize,
    pub state: State,
}

impl Replayed {
    // 0, or the number of the refusal.
    pub fn number(self) -> u8
        ensures { result ≡ replay_number self }
    {
        refusals::verdict_number(self.answer)
    }
}

// No table, and a key for the first.
fn fresh_with(key: HandKey) -> State
    ensures { result ≡ fresh_with key }
{
    State { table: None, key }
}

// The lines of a hand that reads.
fn play_lines(bytes: &[u8], head: HandHead) -> Replayed
    requires { reads bytes.now ≡ Ok head }
    ensures { result ≡ replay_of head.title.key (lines_in bytes.now) }
{
    let title = head.title;
    let key = title.key;
    // By hand: the place moves by what was read there.
    let mut state = fresh_with(key);
    let mut at: usize = 0;
    let mut lines: usize = 0;
    while at < head.entries {
        let read = reading::line_at(bytes, at);
        let words = read.words;
        let act = act::obey(words, state);
        if act.number() != 0 {
            return Replayed {
                answer: act.answer,
                lines,
                state,
            };
        }
        at = read.next;
        lines += 1;
        state = act.state;
    }
    Replayed {
        answer: Ok(()),
        lines,
        state,
    }
}

// A hand played again: 27 where the bytes are none, else up to the first line that is refused.
pub fn replay_hand(bytes: &[u8]) -> Replayed
    ensures { result ≡ replay_bytes bytes.now }
{
    match hand::read_hand(bytes) {
        Err(e) => Replayed {
            answer: Err(e.into()),
            lines: 0,
            state: fresh_with(keys::NONE),
        },
        Ok(head) => play_lines(bytes, head),
    }
}
