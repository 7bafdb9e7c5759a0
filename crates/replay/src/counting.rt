// How often each letter was answered, refused by each number, or loaded something: 128 letters by 64 answers.
use crate::agreeing::Answer;
use crate::printing::{print, print_number};

pub type Counts = [[u32; 64]; 128];

pub const NO_COUNTS: Counts = [[0; 64]; 128];

pub fn count(line: &[u8], answer: Answer, counts: &mut Counts) {
    if let Some(letter) = line.first() {
        let n = &mut counts[usize::from(*letter % 128)][usize::from(u8::from(answer) % 64)];
        *n = n.saturating_add(1);
    }
}

fn print_answer(rt: &HostRuntime, answer: Answer) {
    match answer {
        Answer::Given => print(rt, b" answered"),
        Answer::Loaded => print(rt, b" loaded"),
        Answer::Refused(number) => {
            print(rt, b" refused by ");
            print_number(rt, u32::from(number));
        }
    }
}

// A letter's line: the letter before its first count, a comma before each other; no line where it has none.
fn print_letter(rt: &HostRuntime, letter: u8, counts: &[u32; 64]) {
    let mut is_begun = false;
    for (answer, count) in (0u8..64).zip(counts) {
        if 0 < *count {
            if is_begun {
                print(rt, b", ");
            } else {
                print(rt, &[b' ', b' ', letter, b' ']);
            }
            is_begun = true;
            print_number(rt, *count);
            print_answer(rt, Answer::from(answer));
        }
    }
    if is_begun {
        print(rt, b"\n");
    }
}

// A line for each letter that occurs.
pub fn print_counts(rt: &HostRuntime, counts: &Counts) {
    for (letter, answers) in (0u8..128).zip(counts) {
        print_letter(rt, letter, answers);
    }
}
