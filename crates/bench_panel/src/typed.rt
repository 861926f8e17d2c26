// What is typed: a line of standard input is a key, or no key, or has nothing in it.
//
// A line is never kept. It is followed byte by byte, so it may be of any length.
use std::error::Error;
use std::fmt;
use std::io::Read;

// A line that is no key, with something in it.
#[derive(Clone, Copy, Debug, PartialEq, Eq)]
pub struct NotAKey;

impl fmt::Display for NotAKey {
    fn fmt<W: fmt::Write>(&self, f: &mut fmt::Formatter<W>) -> fmt::Result {
        f.write_str("not a key")
    }
}

impl Error for NotAKey {}

// What a line comes to: a key, or none where there is nothing in it.
type Entry = Result<Option<u8>, NotAKey>;

// The kinds of characters in a line. Not those of the crate `typed`, which keeps its own to itself: there a digit is a character,
// here it is what it is worth.
#[derive(Clone, Copy, Debug, PartialEq, Eq)]
enum Character {
    // A space, a tab or a carriage return.
    Blank,
    Hash,
    Digit(u8),
    Other,
}

impl From<u8> for Character {
    fn from(byte: u8) -> Character {
        match byte {
            b' ' | b'\t' | b'\r' => Character::Blank,
            b'#' => Character::Hash,
            b'0'..=b'9' => Character::Digit(byte - b'0'),
            b'A'..=b'F' => Character::Digit(byte - b'A' + 10),
            b'a'..=b'f' => Character::Digit(byte - b'a' + 10),
            _ => Character::Other,
        }
    }
}

// A line so far.
#[derive(Clone, Copy, Debug, PartialEq, Eq)]
enum Line {
    // Blanks and nothing else.
    Blank,
    // One hex digit, or two, at the end of the line so far; then blanks behind them.
    Digit(u8),
    Digits(u8),
    Spaced(u8),
    // Whatever comes now, the line is this.
    Settled(Entry),
}

impl Line {
    // What a line is that ends here, or whose `#` stands here.
    fn entry(self) -> Entry {
        match self {
            Line::Blank => Ok(None),
            Line::Digit(key) | Line::Digits(key) | Line::Spaced(key) => Ok(Some(key)),
            Line::Settled(entry) => entry,
        }
    }

    // The line with one character more.
    fn with(self, character: Character) -> Line {
        match (self, character) {
            (Line::Settled(_), _) | (Line::Blank, Character::Blank) => self,
            (_, Character::Hash) => Line::Settled(self.entry()),
            (Line::Digit(key) | Line::Digits(key) | Line::Spaced(key), Character::Blank) => {
                Line::Spaced(key)
            }
            (Line::Blank, Character::Digit(digit)) => Line::Digit(digit),
            // The first digit of two is the high one. Both are below 16, and the remainders say so.
            (Line::Digit(high), Character::Digit(low)) => Line::Digits(high % 16 * 16 + low % 16),
            _ => Line::Settled(Err(NotAKey)),
        }
    }
}

// The next byte; none where the input ends or a read fails.
fn next_byte<R: Read>(from: &mut R) -> Option<u8> {
    let mut one = [0u8; 1];
    if input::read_full(from, &mut one) == 0 {
        return None;
    }
    Some(one[0])
}

// What the lines of an input come to, one after the other.
#[derive(Drop)]
pub struct Typed<'a, R> {
    from: &'a mut R,
    has_ended: bool,
}

impl<'a, R> Typed<'a, R> {
    pub fn new(from: &'a mut R) -> Typed<'a, R> {
        Typed {
            from,
            has_ended: false,
        }
    }
}

impl<'a, R: Read> Iterator for Typed<'a, R> {
    type Item = Entry;

    // Reads to the end of a line, byte by byte, so that nothing of the next line is waited for. What stands behind the last
    // newline is a line too. A line of 2^64 - 1 bytes is taken for the last, since every Rattle program ends.
    fn next(&mut self) -> Option<Entry> {
        if self.has_ended {
            return None;
        }
        let mut line = Line::Blank;
        for _ in 0..u64::MAX {
            match next_byte(self.from) {
                None => break,
                Some(b'\n') => return Some(line.entry()),
                Some(byte) => line = line.with(Character::from(byte)),
            }
        }
        self.has_ended = true;
        Some(line.entry())
    }
}
