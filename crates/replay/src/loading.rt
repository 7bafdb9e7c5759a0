// A line that loads a table.
use crate::agreeing::Answer;
use crate::reading::Tokens;
use crate::words::Words;
use crate::{changes, table_words, words};

// A table, sound or not, that is loaded: our words of it are the line's.
pub fn load(line: &mut Tokens, is_sound: bool, table: &mut Words) -> Option<Answer> {
    *table = words::ZEROS;
    changes::change_all(line, table)?;
    let t = table_words::table_at(table);
    if t.is_sound() != is_sound {
        return None;
    }
    changes::agree_loaded(&table_words::of_table(t), table)
}
