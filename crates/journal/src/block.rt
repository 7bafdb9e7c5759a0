// A block of the journal: 512 bytes.
ghost use Rattle.std.specs.Prelude.{◌≡◌, length};
ghost use Rattle.journal.specs.Check.{byte};
ghost use Rattle.journal.specs.Block.{is_edition, entries_fit, block_ok};
ghost use Rattle.journal.specs.Read.{head_at, read_of};
ghost use Rattle.journal.specs.Hand.{same_title};

use crate::{heads, sums, words};
use keys::HandKey;
use refusals::JournalError;

// What all blocks of a hand say alike: its key, and the edition of the rules that it was played by.
#[derive(Clone, Copy, PartialEq, Eq)]
pub struct Title {
    pub key: HandKey,
    pub edition: u8,
}

impl Title {
    pub fn is_same(self, other: Title) -> bool
        ensures { result ≡ same_title self other }
    {
        self == other
    }
}

// What a block says of itself.
#[derive(Clone, Copy)]
pub struct Head {
    pub title: Title,
    pub index: u8,
    pub last: bool,
    pub used: u8,
}

// Whether an edition is known: so far there is one.
pub fn is_edition(edition: u8) -> bool
    ensures { result ≡ is_edition edition }
{
    edition == 1
}

// Whether used entries are entries and unused ones zero.
fn entries_fit(block: &[u8], used: u8) -> bool
    requires block_len { length block.now ≡ 512 }
    requires used_value { used ≡ byte block.now 10 }
    ensures { result ≡ entries_fit block.now }
{
    let n = usize::from(used);
    (0..120).all(|i| words::entry_fits(i < n, words::four_at(block, 16 + 4 * i)))
}

// Whether bytes are a block.
pub fn is_block(block: &[u8]) -> bool
    ensures { result ≡ block_ok block.now }
{
    if block.len() != 512 {
        return false;
    }
    let check = sums::check_bytes(block);
    let last = block[9];
    let used = block[10];
    (words::two_at(block, 2) != 0)
        & ((block[8] < 255)
            & ((last <= 1)
                & ((1 <= used)
                    & ((used <= 120)
                        & (((last == 1) | (used == 120))
                            & (is_edition(block[11])
                                & (words::is_zero(block, 12, 4)
                                    & (entries_fit(block, used)
                                        & (words::is_zero(block, 496, 14)
                                            & ((block[510] == check.sum)
                                                & (block[511] == check.run)))))))))))
}

// What a block says of itself.
fn head_of(block: &[u8]) -> Head
    requires { length block.now ≡ 512 }
    ensures { result ≡ head_at block.now }
{
    let title = heads::title_at(block);
    Head {
        title,
        index: block[8],
        last: block[9] == 1,
        used: block[10],
    }
}

// A block's head, or 27.
pub fn read_block(block: &[u8]) -> Result<Head, JournalError>
    ensures { result ≡ read_of block.now }
{
    if !is_block(block) {
        return Err(JournalError::BadJournal);
    }
    Ok(head_of(block))
}
