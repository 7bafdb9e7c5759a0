// A card: a file of blocks. It is read in pieces as long as the longest hand.
use crate::inputs::{FilePart, Got};
use crate::{files, inputs};
use std::fs::File;
use std::io;
use std::io::{Error, Read, Seek, SeekFrom};
use std::os::fd::AsRawFd;

// The bytes of a block.
pub const BLOCK: usize = 512;

// The most blocks of a hand, and their bytes.
pub const MOST_BLOCKS: usize = 255;

pub const ROOM: usize = BLOCK * MOST_BLOCKS;

// On the stack: the program has no heap, so that no hand fails for want of memory.
pub type Room = [u8; ROOM];

pub const NO_BYTES: Room = [0; ROOM];

// An open file: its whole blocks, and whether a part of one stands behind them.
#[derive(Drop)]
pub struct Card {
    pub file: File,
    pub blocks: usize,
    pub has_tail: bool,
}

// No card: the file is not opened, it cannot be read or has no size, or it took the number of a standard stream.
#[derive(Clone, Copy)]
pub enum NoCard {
    NotOpened(Error),
    NotRead(Error),
    StreamClosed,
}

pub fn ask_size(mut file: &File) -> io::Result<usize> {
    let size = file.seek(SeekFrom::End(0))?;
    Ok(size as usize)
}

// The bytes of a file that has a size.
pub fn size_of(file: &File) -> usize {
    ask_size(file).unwrap_or(0)
}

// A read of no bytes shows a folder, which may have a size, and a pipe has none.
fn is_readable(mut file: &File) -> io::Result<()> {
    let mut none = [0u8; 0];
    file.read(&mut none)?;
    file.seek(SeekFrom::End(0))?;
    Ok(())
}

// A file that took the number of a standard stream would be written to by what is printed.
pub fn is_stream(file: &File) -> bool {
    file.as_raw_fd() < 3
}

pub fn open_card(rt: &HostRuntime, path: &[u8]) -> Result<Card, NoCard> {
    let file = files::open_read(rt, path).map_err(NoCard::NotOpened)?;
    if is_stream(&file) {
        return Err(NoCard::StreamClosed);
    }
    is_readable(&file).map_err(NoCard::NotRead)?;
    let bytes = size_of(&file);
    Ok(Card {
        file,
        blocks: bytes / BLOCK,
        has_tail: bytes % BLOCK != 0,
    })
}

// The place of a block. A file has fewer bytes than the limit.
pub fn start_of(block: usize) -> usize {
    block.saturating_mul(BLOCK).min(9_223_372_036_854_775_807)
}

// The blocks from one on, as many as the room and the card have.
pub fn read_blocks(card: &Card, block: usize, room: &mut [u8]) -> Got {
    let blocks = card.blocks.saturating_sub(block).min(room.len() / BLOCK);
    let mut source = FilePart {
        file: &card.file,
        at: start_of(block),
    };
    inputs::read_full(&mut source, &mut room[..blocks * BLOCK])
}
