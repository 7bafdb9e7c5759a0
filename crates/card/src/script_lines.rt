// A hand as a script: the line of its key, then its lines, from its entries.
use crate::telling::{say, say_number};
use crate::texts;
use journal::hand;
use keys::HandKey;
use std::io::{Cursor, Result, Write};

// The text of some entries, which goes out before it is full.
type Text = Cursor<[u8; 4096]>;

// From here on the text is written: an entry takes at most six places of its 4,096.
const FULL: u64 = 4000;

// By its place, which is sure to be there: with `write_all` a letter takes some 50 instructions more, of 160 for an entry.
fn put_byte(text: &mut Text, byte: u8) {
    let at = text.position();
    if let Some(place) = text.get_mut().get_mut(at as usize) {
        *place = byte;
    }
    text.set_position(at.saturating_add(1));
}

// A letter begins a line, but for the first; a number follows a space.
fn put_entry(text: &mut Text, i: usize, entry: u32) -> Result<()> {
    if entry % 65536 == 0 {
        let number = entry / 65536;
        return write!(text, " {number}");
    }
    let letter = (entry % 256) as u8;
    if i != 0 {
        put_byte(text, b'\n');
    }
    put_byte(text, letter);
    Ok(())
}

fn write_out(rt: &HostRuntime, text: &mut Text) -> Result<()> {
    rt.write_all(texts::written(text))?;
    text.set_position(0);
    Ok(())
}

// All entries, so that a table's line is whole however many stacks it has.
pub fn print_entries(rt: &HostRuntime, bytes: &[u8], entries: usize) -> Result<()> {
    let mut text = Cursor::new([0u8; 4096]);
    // An entry is found by its number: between those of two blocks stand other bytes.
    for i in 0..entries {
        put_entry(&mut text, i, hand::hand_entry(bytes, i))?;
        if FULL <= text.position() {
            write_out(rt, &mut text)?;
        }
    }
    text.write_all(b"\n")?;
    write_out(rt, &mut text)
}

// The number of a script's line ends at 65,535.
pub fn print_key(rt: &HostRuntime, key: HandKey) -> Result<()> {
    let HandKey { code, year, hand } = key;
    if 65535 < hand {
        say(rt, "journal: hand ");
        say_number(rt, u64::from(hand));
        say(rt, " fits no k line: the line is left out\n");
        return Ok(());
    }
    let mut line = Cursor::new([0u8; 80]);
    writeln!(line, "k {code} {year} {hand}")?;
    rt.write_all(texts::written(&line))
}
