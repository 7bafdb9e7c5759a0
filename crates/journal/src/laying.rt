// One block at a time, for a console that cannot hold a whole hand.
ghost use Rattle.std.specs.Prelude.{◌≡◌, ◌++◌, ◌≤◌, length, drop};
ghost use Rattle.journal.specs.Lay.{all_entries, block_laid, lays, lays_into, lay_after};
ghost use Rattle.journal.specs.declared.laying.NotLaid.TheVariants.{Denied};

use crate::block::Title;
use crate::{block, fill, words};
use refusals::JournalError;

// What follows a block that is laid: another must, or it was the last.
#[derive(Clone, Copy, PartialEq, Eq)]
pub enum Laid {
    More,
    Last,
}

// Why nothing is laid, be it a block or a line: a refusal, or too little room.
#[derive(Clone, Copy)]
pub enum NotLaid {
    Denied(JournalError),
    NoRoom,
}

impl From<JournalError> for NotLaid {
    ghost from_gives = { λ refusal e. e ≡ Denied refusal };

    fn from(refusal: JournalError) -> NotLaid {
        NotLaid::Denied(refusal)
    }
}

fn are_entries(entries: &[u32]) -> bool
    ensures { result ≡ all_entries entries.now }
{
    entries.iter().all(|w| words::is_entry(*w))
}

// Whether a block may be laid, and whether it is the last.
fn judge(title: Title, index: u8, rest: &[u32]) -> Result<Laid, JournalError>
    ensures { result ≡ lays title index rest.now }
{
    let key = title.key;
    let used = rest.len().min(120);
    let left = 30600usize.saturating_sub(120 * usize::from(index));
    let filled = (1 <= rest.len()) & are_entries(&rest[..used]);
    if !(block::is_edition(title.edition) & filled) {
        return Err(JournalError::BadJournal);
    }
    if !key.is_key() | (left < rest.len()) {
        return Err(JournalError::NotKept);
    }
    if rest.len() <= 120 {
        return Ok(Laid::Last);
    }
    Ok(Laid::More)
}

// The block, laid over the first 512 bytes.
fn fill_from(out: &mut [u8], title: Title, index: u8, rest: &[u32])
    requires { 512 ≤ length out.old }
    ensures { out.new ≡ block_laid title index rest.now ++ drop 512 out.old }
{
    let used = rest.len().min(120);
    let last = rest.len() <= 120;
    fill::fill_block(&mut out[..512], title, index, last, &rest[..used]);
}

// A block of a hand, from the entries that are left of it: as many as it holds.
pub fn lay_block(title: Title, index: u8, rest: &[u32], out: &mut [u8]) -> Result<Laid, NotLaid>
    ensures answer { result ≡ lays_into (length out.old) title index rest.now }
    ensures bytes { out.new ≡ lay_after (lays_into (length out.old) title index rest.now) title index rest.now out.old }
{
    let laid = judge(title, index, rest)?;
    if out.len() < 512 {
        return Err(NotLaid::NoRoom);
    }
    fill_from(out, title, index, rest);
    Ok(laid)
}
