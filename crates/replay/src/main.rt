// The oracle's lists, asked again of our functions: each answer, each refusal, each word of the table after it, each line that a script prints, and
// each block of a hand that is written.
#![tactic(auto)]

mod agreeing;
mod build_lines;
mod changes;
mod counting;
mod decoding;
mod float_lines;
mod inputs;
mod journal_entries;
mod journal_hand;
mod journal_image;
mod journal_lines;
mod journal_reading;
mod journal_writing;
mod judging;
mod lines;
mod lists;
mod loading;
mod playing;
mod printing;
mod reading;
mod round_lines;
mod script_lines;
mod seat_lines;
mod settle_lines;
mod step_lines;
mod table_words;
mod words;

use build_lines::Builds;
use float_lines::Floats;
use journal_lines::Journals;
use round_lines::Rounds;
use script_lines::Scripts;
use seat_lines::Seats;
use settle_lines::Settlements;
use step_lines::Steps;
use words::ZEROS;

// These two lists keep rooms for a case; each is asked in a function of its own, so that the rooms of one do not stand beside those of the other.
fn replay_scripts(rt: &HostRuntime) {
    lists::replay(rt, "scripts", &mut Scripts::new());
}

fn replay_journals(rt: &HostRuntime) {
    lists::replay(rt, "journals", &mut Journals::new());
}

fn main(rt: HostRuntime) {
    lists::replay(&rt, "seats", &mut Seats);
    lists::replay(&rt, "floats", &mut Floats);
    lists::replay(&rt, "rounds", &mut Rounds { table: ZEROS });
    lists::replay(&rt, "builds", &mut Builds { table: ZEROS });
    lists::replay(&rt, "steps", &mut Steps { table: ZEROS });
    lists::replay(&rt, "settlements", &mut Settlements { table: ZEROS });
    replay_scripts(&rt);
    replay_journals(&rt);
}
