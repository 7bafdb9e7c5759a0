// A hand of the list `journals`: its title, its entries, and the image that stands of it.
use crate::agreeing::Answer;
use crate::reading::Tokens;
use journal::block::Title;

// Room for the entries of 256 blocks, one more than a hand has.
const ENTRIES: usize = 30720;

// The bytes of a block, and the most blocks of an image.
pub const BLOCK: usize = 512;

pub const BLOCKS: usize = 256;

// Room for their bytes.
const BYTES: usize = BLOCK * BLOCKS;

const NO_TITLE: Title = Title {
    key: keys::NONE,
    edition: 0,
};

// Fixed memory: a Vec could fail for want of memory, where no line fails now.
#[derive(Drop)]
pub struct Hand {
    pub title: Title,
    pub tape: [u32; ENTRIES],
    // the entries that are used
    pub used: usize,
    pub image: [u8; BYTES],
    // the bytes of the image that stand
    pub length: usize,
}

impl Hand {
    pub fn new() -> Hand {
        Hand {
            title: NO_TITLE,
            tape: [0; ENTRIES],
            used: 0,
            image: [0; BYTES],
            length: 0,
        }
    }

    // A hand begins: no entries, no image. Of a title that is malformed the part before stands.
    pub fn begin(&mut self, line: &mut Tokens) -> Option<Answer> {
        self.used = 0;
        self.length = 0;
        self.title = NO_TITLE;
        self.title.key.code = line.read()?;
        self.title.key.year = line.read()?;
        self.title.key.hand = line.read()?;
        self.title.edition = line.read()?;
        Some(Answer::Loaded)
    }

    // The bytes that stand.
    pub fn bytes(&self) -> &[u8] {
        &self.image[..self.length.min(BYTES)]
    }

    pub fn bytes_mut(&mut self) -> &mut [u8] {
        &mut self.image[..self.length.min(BYTES)]
    }

    // The image gets a length: zeros stand behind what stood, and what is cut off is gone.
    pub fn resize(&mut self, length: usize) {
        let new = length.min(BYTES);
        if self.length < new {
            self.image[self.length..new].fill(0);
        }
        self.length = new;
    }

    // The line says how long the image is from now on; a malformed line says 0.
    pub fn cut(&mut self, line: &mut Tokens) -> Option<Answer> {
        let length = line.read().unwrap_or(0);
        if BYTES < length {
            return None;
        }
        self.resize(length);
        Some(Answer::Loaded)
    }
}
