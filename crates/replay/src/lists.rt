// The lists: each asks its lines, and is judged.
use crate::agreeing::Answer;
use crate::judging::Tally;
use crate::lines;
use crate::lines::Lines;
use crate::reading::Tokens;

// A list keeps its own table from line to line, or its case.
pub trait List {
    // A line is asked of our functions: what it says, as far as they say the same.
    fn ask(&mut self, line: &mut Tokens) -> Option<Answer>;
}

// A line agrees where it is read to its end.
fn tell<L: List>(list: &mut L, line: &[u8]) -> Option<Answer> {
    let mut tokens = Tokens::new(line);
    let answer = list.ask(&mut tokens)?;
    tokens.is_ended().then_some(answer)
}

pub fn replay<L: List>(rt: &HostRuntime, name: &str, list: &mut L) {
    let mut lines = Lines::open(rt, name);
    let mut tally = Tally::new();
    // A list ends by itself; a loop with no bound would have to be allowed to wait.
    for _ in 0..lines::TURNS {
        if let Some(line) = lines.turn(rt) {
            tally.judge(rt, name.as_bytes(), line, tell(list, line));
        }
        if lines.is_ended() {
            break;
        }
    }
    drop(lines);
    tally.print_all(rt, name.as_bytes());
}
