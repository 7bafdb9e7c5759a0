// A list's lines are judged: those that agree are counted by their letter and answer, the first that differs is shown.
use crate::agreeing::Answer;
use crate::counting;
use crate::counting::Counts;
use crate::printing::{print, print_number};

// The lines so far, how many of them differ, and what the others answered.
#[derive(Clone, Copy)]
pub struct Tally {
    lines: u32,
    different: u32,
    counts: Counts,
}

impl Tally {
    pub fn new() -> Tally {
        Tally {
            lines: 0,
            different: 0,
            counts: counting::NO_COUNTS,
        }
    }

    // What our functions tell of a line, none where it differs.
    pub fn judge(&mut self, rt: &HostRuntime, name: &[u8], line: &[u8], told: Option<Answer>) {
        self.lines = self.lines.saturating_add(1);
        match told {
            Some(answer) => counting::count(line, answer, &mut self.counts),
            None => self.differs(rt, name, line),
        }
    }

    fn differs(&mut self, rt: &HostRuntime, name: &[u8], line: &[u8]) {
        if self.different == 0 {
            print(rt, name);
            print(rt, b" differs at line ");
            print_number(rt, self.lines);
            print(rt, b": ");
            print(rt, line);
            print(rt, b"\n");
        }
        self.different = self.different.saturating_add(1);
    }

    pub fn print_all(&self, rt: &HostRuntime, name: &[u8]) {
        print(rt, name);
        print(rt, b" ");
        print_number(rt, self.lines);
        print(rt, b" lines, ");
        print_number(rt, self.different);
        print(rt, b" different\n");
        counting::print_counts(rt, &self.counts);
    }
}
