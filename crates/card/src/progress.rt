// How far a long file is read, where standard error is a terminal: one line, written anew every 1,024 blocks, gone at the end.
use crate::telling::{say, say_number};
use std::io::IsTerminal;

const STRIDE: usize = 1024;

// From which block on it is written next, if there is somebody to see it, and whether it stands there.
#[derive(Clone, Copy)]
pub struct Bar {
    next: Option<usize>,
    is_shown: bool,
}

impl Bar {
    pub fn begin(rt: &HostRuntime) -> Bar {
        Bar {
            next: rt.stderr().is_terminal().then_some(STRIDE),
            is_shown: false,
        }
    }

    pub fn moved(&mut self, rt: &HostRuntime, block: usize, blocks: usize) {
        if let Some(next) = self.next
            && next <= block
        {
            say(rt, "\rjournal: block ");
            say_number(rt, block as u64);
            say(rt, " of ");
            say_number(rt, blocks as u64);
            self.next = Some(block.saturating_add(STRIDE));
            self.is_shown = true;
        }
    }

    pub fn end(self, rt: &HostRuntime) {
        if self.is_shown {
            say(
                rt,
                "\r                                                              \r",
            );
        }
    }
}
