// The tokens of a line. A token stands from its place up to a space or the line's end, and the next begins one place further on.
// Where something is malformed the place is lost: nothing is read from there on, and the line never comes to its end.
ghost use Rattle.std.specs.Prelude.{◌≤◌, length};

// What a token says.
pub trait Token: Sized {
    // None where the token is malformed.
    fn parse(token: &[u8]) -> Option<Self>;
}

// One byte.
#[derive(Clone, Copy, PartialEq, Eq)]
pub struct Mark(pub u8);

// Eight hex digits.
#[derive(Clone, Copy, PartialEq, Eq)]
pub struct Word(pub u32);

impl Token for Mark {
    fn parse(token: &[u8]) -> Option<Mark> {
        match token {
            [byte] => Some(Mark(*byte)),
            _ => None,
        }
    }
}

impl Token for Word {
    fn parse(token: &[u8]) -> Option<Word> {
        if token.len() != 8 {
            return None;
        }
        Some(Word(u32::try_from(digits(token, 16)?).ok()?))
    }
}

// A decimal number.
impl Token for usize {
    fn parse(token: &[u8]) -> Option<usize> {
        match token {
            [] | [b'0', _, ..] => None,
            _ => digits(token, 10),
        }
    }
}

// One impl for each width: one of all that have TryFrom<usize> would stand in the way of every other type.
impl Token for u32 {
    fn parse(token: &[u8]) -> Option<u32> {
        u32::try_from(usize::parse(token)?).ok()
    }
}

impl Token for u16 {
    fn parse(token: &[u8]) -> Option<u16> {
        u16::try_from(usize::parse(token)?).ok()
    }
}

impl Token for u8 {
    fn parse(token: &[u8]) -> Option<u8> {
        u8::try_from(usize::parse(token)?).ok()
    }
}

// A yes or a no.
impl Token for bool {
    fn parse(token: &[u8]) -> Option<bool> {
        match token {
            b"0" => Some(false),
            b"1" => Some(true),
            _ => None,
        }
    }
}

// What a digit is worth.
fn worth(byte: u8) -> Option<usize> {
    match byte {
        b'0'..=b'9' => Some(usize::from(byte - b'0')),
        b'a'..=b'f' => Some(usize::from(byte - b'a') + 10),
        _ => None,
    }
}

// The number of some digits, if each is one of the base and the number fits 64 bits.
fn digits(token: &[u8], base: usize) -> Option<usize> {
    let mut number: usize = 0;
    for byte in token {
        let digit = worth(*byte)?;
        if base <= digit {
            return None;
        }
        number = number.checked_mul(base)?.checked_add(digit)?;
    }
    Some(number)
}

// How many bytes stand before the first of one kind: all, where there is none.
pub fn find(bytes: &[u8], byte: u8) -> usize
    ensures { result ≤ length bytes.now }
{
    match bytes.iter().position(|b| *b == byte) {
        Some(i) => i,
        None => bytes.len(),
    }
}

#[derive(Clone, Copy)]
pub struct Tokens<'a> {
    line: &'a [u8],
    // the place of the next token, none where it is lost
    at: Option<usize>,
}

impl<'a> Tokens<'a> {
    pub fn new(line: &'a [u8]) -> Tokens<'a> {
        Tokens { line, at: Some(0) }
    }

    // Whether the line is read to its end.
    pub fn is_ended(&self) -> bool {
        self.at == Some(self.line.len() + 1)
    }

    // Whether bytes are left to read.
    pub fn has_more(&self) -> bool {
        self.at.is_some_and(|at| at < self.line.len())
    }

    // How many bytes the line has, those that were read too.
    pub fn len(&self) -> usize {
        self.line.len()
    }

    // What stands up to a stop, or to the line's end.
    fn up_to(&mut self, stop: u8) -> Option<&'a [u8]> {
        let at = self.at.take()?;
        let line = self.line;
        if at < line.len() {
            let rest = &line[at..];
            let len = find(rest, stop);
            self.at = Some(at + len + 1);
            return Some(&rest[..len]);
        }
        None
    }

    // The place is lost where nothing is said.
    fn or_lost<T>(&mut self, said: Option<T>) -> Option<T> {
        if said.is_none() {
            self.at = None;
        }
        said
    }

    // What stands up to a stop, as what it says.
    pub fn read_to<T: Token>(&mut self, stop: u8) -> Option<T> {
        let said = T::parse(self.up_to(stop)?);
        self.or_lost(said)
    }

    pub fn read<T: Token>(&mut self) -> Option<T> {
        self.read_to(b' ')
    }

    // So many tokens into the first places of a list, as many as there are places.
    pub fn read_into<'b, T: Token + Drop>(
        &mut self,
        count: usize,
        places: &'b mut [T],
    ) -> Option<&'b [T]> {
        let most = places.len();
        let first = &mut places[..count.min(most)];
        for place in first.iter_mut() {
            *place = self.read()?;
        }
        Some(first)
    }

    // A token of any kind.
    pub fn skip(&mut self) -> Option<()> {
        self.up_to(b' ')?;
        Some(())
    }

    // Whether the next token says what we do.
    pub fn says<T: Token + PartialEq + Drop>(&mut self, ours: T) -> Option<()> {
        let said: T = self.read()?;
        (said == ours).then_some(())
    }

    // The bytes that are left, as one text; none where no place is left for one.
    pub fn text(&mut self) -> Option<&'a [u8]> {
        let at = self.at?;
        self.at = Some(self.line.len() + 1);
        self.line.get(at..)
    }

    // One byte, as it stands.
    pub fn byte(&mut self) -> Option<u8> {
        let at = self.at.take()?;
        let byte = *self.line.get(at)?;
        self.at = at.checked_add(1);
        Some(byte)
    }

    // A byte in two hex digits, which are no token.
    pub fn hex(&mut self) -> Option<u8> {
        let two = [self.byte()?, self.byte()?];
        let said = digits(&two, 16).and_then(|n| u8::try_from(n).ok());
        self.or_lost(said)
    }

    // The end of a token whose bytes are read.
    pub fn end(&mut self) -> Option<()> {
        let at = self.at.take()?;
        let line = self.line;
        if at == line.len() || (at < line.len() && line[at] == b' ') {
            self.at = Some(at + 1);
            return Some(());
        }
        None
    }
}
