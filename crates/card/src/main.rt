// The program behind ./journal: the hands of a script recorded on a card, a card listed, and a hand of it read back as a script.
#![tactic(auto)]

mod appending;
mod arguments;
mod cards;
mod commands;
mod files;
mod finding;
mod hands;
mod inputs;
mod lines;
mod listing;
mod progress;
mod recording;
mod script_lines;
mod standing;
mod statuses;
mod telling;
mod texts;
mod walking;

use arguments::StatusTo;

// No ExitCode is returned: whoever runs the program reads its status from the descriptor alone.
fn main(rt: HostRuntime) {
    match arguments::status_to(&rt) {
        Some(StatusTo::Nobody) => {
            let _ = commands::run(&rt);
        }
        Some(StatusTo::Descriptor(fd)) => statuses::tell(&rt, fd, commands::run(&rt)),
        None => {
            telling::wrong_use(&rt);
        }
    }
}
