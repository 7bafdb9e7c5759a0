// The lines of `record` and `list`.
use crate::texts;
use crate::texts::KeyText;
use keys::HandKey;
use std::io::{Cursor, Result, Write};

// A key and two numbers more, in one write.
pub fn print_line(rt: &HostRuntime, key: HandKey, a: usize, b: usize) -> Result<()> {
    let mut line = Cursor::new([0u8; 80]);
    let key = KeyText(key);
    writeln!(line, "{key} {a} {b}")?;
    rt.write_all(texts::written(&line))
}
