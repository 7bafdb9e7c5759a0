// The list of scripts, case by case: `#` says what a case shows, `>` and `|` are its script, `<` is a line that it prints, `@` the key that its table
// carries at the end, and an empty line ends it.
use crate::agreeing::Answer;
use crate::decoding::Script;
use crate::lists::List;
use crate::playing::Printed;
use crate::reading::{Mark, Tokens};
use crate::{decoding, inputs, playing, reading};
use console::ending;
use keys::HandKey;

// What a case has come to.
#[derive(Clone, Copy)]
struct Case {
    // the bytes of its script so far, none if they are malformed
    length: Option<usize>,
    // the bytes that it prints, 0 before it is played, none if there is no telling
    printed: Option<usize>,
    // how many of them the list has said
    said: usize,
    // the key of the table at its end, and whether the list has said it
    key: HandKey,
    is_key_said: bool,
}

const NO_CASE: Case = Case {
    length: Some(0),
    printed: Some(0),
    said: 0,
    key: keys::NONE,
    is_key_said: false,
};

#[derive(Drop)]
pub struct Scripts {
    script: Script,
    printed: Printed,
    case: Case,
}

// The key of the table that stands at a script's end, none where no table does.
fn key_at_end(script: &[u8]) -> HandKey {
    ending::end_of(script)
        .table
        .map_or(keys::NONE, |t| t.added.key)
}

// The second number of a printed line is its answer.
fn answer_of(text: &[u8]) -> Option<u8> {
    let mut line = Tokens::new(text);
    line.skip()?;
    line.read()
}

impl Scripts {
    pub fn new() -> Scripts {
        Scripts {
            script: decoding::NO_SCRIPT,
            printed: playing::NO_BYTES,
            case: NO_CASE,
        }
    }

    // A text of the script, and so many ends of line behind it. None follows what it prints.
    fn append(&mut self, line: &mut Tokens, ends: usize) -> Option<Answer> {
        let text = line.text().unwrap_or(b"");
        let from = self.case.length.take()?;
        let to = decoding::decode(text, &mut self.script, from)?;
        let end = decoding::put(&mut self.script, to, b'\n', ends)?;
        self.case.length = Some(end);
        (self.case.printed == Some(0)).then_some(Answer::Loaded)
    }

    // The script is played once it is whole.
    fn play(&mut self) {
        if self.case.printed != Some(0) {
            return;
        }
        self.case.printed = None;
        if let Some(length) = self.case.length {
            if let Some(script) = self.script.get(..length) {
                self.case.printed = playing::play(script, &mut self.printed);
                self.case.key = key_at_end(script);
            }
        }
    }

    // The line says the key that the table carries.
    fn say_key(&mut self, line: &mut Tokens) -> Option<Answer> {
        self.case.is_key_said = true;
        let said = inputs::read_key(line)?;
        (said == self.case.key).then_some(Answer::Given)
    }

    // The next line that the script prints, without its end.
    fn next_printed(&mut self) -> Option<&[u8]> {
        let rest = self.printed.get(self.case.said..self.case.printed?)?;
        let len = reading::find(rest, b'\n');
        if len < rest.len() {
            self.case.said = self.case.said.saturating_add(len + 1);
            return Some(&rest[..len]);
        }
        None
    }

    // A printed line is held against the next that the script prints.
    fn say(&mut self, line: &mut Tokens) -> Option<Answer> {
        let printed = self.next_printed()?;
        let text = line.text()?;
        if text != printed {
            return None;
        }
        Some(Answer::from(answer_of(text).unwrap_or(0)))
    }

    // The case is over: each line that it prints was said, and its key, where it has one.
    fn end(&mut self) -> Option<Answer> {
        let case = self.case;
        self.case = NO_CASE;
        if case.printed == Some(case.said) && (case.is_key_said || !case.key.is_key()) {
            return Some(Answer::Loaded);
        }
        None
    }
}

impl List for Scripts {
    fn ask(&mut self, line: &mut Tokens) -> Option<Answer> {
        if line.len() == 0 {
            self.play();
            line.text();
            return self.end();
        }
        let Mark(mark) = line.read()?;
        match mark {
            b'#' => {
                line.text();
                Some(Answer::Loaded)
            }
            b'>' => self.append(line, 1),
            b'|' => self.append(line, 0),
            b'<' => {
                self.play();
                self.say(line)
            }
            b'@' => {
                self.play();
                self.say_key(line)
            }
            _ => None,
        }
    }
}
