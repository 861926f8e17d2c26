// The text from left to right: what each character leads to, the bytes that come of it one by one, and what is made of
// them.
//
// Nothing here knows lines: a slip and a byte are found by the index of their character.
ghost use Rattle.std.specs.Prelude.{◌≡◌};
ghost use Rattle.std.specs.Iterator.{YieldsFirst, item_count};
ghost use Rattle.std.proofs.lemmas.List.Edits.{sets};
ghost use Rattle.typed.specs.Reading.{act, offence, checked_of, reading_of, items_in, items_left, spot, bytes_in};

use super::Slip;
use super::chars::{Class, byte_of};

// Between two bytes; in a comment; or after the first digit of a byte: that digit, and its index.
#[derive(Clone, Copy, Debug, PartialEq, Eq)]
pub enum State {
    Between,
    Comment,
    Half(u8, usize),
}

// A byte, and the index of its first digit.
#[derive(Clone, Copy, Debug, PartialEq, Eq)]
pub struct Byte {
    pub value: u8,
    pub first: usize,
}

// A slip, and the index at which it is told.
#[derive(Clone, Copy, Debug, PartialEq, Eq)]
pub struct Offence {
    pub slip: Slip,
    pub at: usize,
}

impl Slip {
    fn at(self, at: usize) -> Offence
        ensures { result ≡ offence self at }
    {
        Offence { slip: self, at }
    }
}

// What a character leads to: another state; a byte that is whole; or a slip.
#[derive(Clone, Copy, Debug, PartialEq, Eq)]
pub enum Step {
    To(State),
    Whole(Byte),
    Stop(Offence),
}

// What the character at an index leads to, from a state. A digit stands alone where the text is separated after it. Where a
// character stands that may not stand anywhere, the digit may well be right, and that character is told.
#[tactic(auto, unfolding(crate::specs::Reading::act))]
fn step_of(state: State, at: usize, c: u8) -> Step
    ensures { result ≡ act state at c }
{
    match (state, Class::from(c)) {
        (State::Between, Class::Digit) => Step::To(State::Half(c, at)),
        (State::Between, Class::Blank | Class::NewLine) | (State::Comment, Class::NewLine) =>
            Step::To(State::Between),
        (State::Between, Class::Hash) | (State::Comment, _) => Step::To(State::Comment),
        (State::Half(high, first), Class::Digit) => Step::Whole(Byte {
            value: byte_of(high, c),
            first,
        }),
        (State::Half(_, first), Class::Blank | Class::NewLine | Class::Hash) => Step::Stop(
            Slip::Alone.at(first),
        ),
        (_, Class::Other) => Step::Stop(Slip::Stray.at(at)),
    }
}

// A text of which the characters before an index have been read. It gives the bytes in order, and then the first slip, if
// there is one, and nothing behind it.
#[derive(Drop)]
struct Scan<'a> {
    text: &'a [u8],
    at: usize,
    state: State,
}

impl<'a> Scan<'a> {
    fn new(text: &'a [u8]) -> Scan<'a>
        ensures { items_left result ≡ items_in (reading_of text.now) }
    {
        Scan {
            text,
            at: 0,
            state: State::Between,
        }
    }
}

impl<'a> Iterator for Scan<'a> {
    type Item = Result<Byte, Offence>;

    ghost next_gives = { YieldsFirst items_left };

    ghost remaining = { item_count items_left };

    // An iterator's own step: it goes on by the index that it keeps, until there is an item.
    fn next(&mut self) -> Option<Result<Byte, Offence>> {
        while let Some(c) = self.text.get(self.at) {
            let step = step_of(self.state, self.at, *c);
            self.at += 1;
            match step {
                Step::To(state) => self.state = state,
                Step::Whole(byte) => {
                    self.state = State::Between;
                    return Some(Ok(byte));
                }
                Step::Stop(offence) => {
                    self.at = self.text.len();
                    self.state = State::Between;
                    return Some(Err(offence));
                }
            }
        }
        let State::Half(_, at) = self.state else {
            return None;
        };
        self.state = State::Between;
        Some(Err(Slip::Alone.at(at)))
    }
}

// The number of bytes, or the first slip.
#[tactic(auto, using(crate::proofs::Scanning::counted_is))]
pub fn check(text: &[u8], room: usize) -> Result<usize, Offence>
    ensures { result ≡ checked_of text.now room }
{
    let mut count = 0;
    for item in Scan::new(text) {
        let byte = item?;
        if count >= room {
            return Err(Slip::TooMany.at(byte.first));
        }
        count += 1;
    }
    Ok(count)
}

// The index of the first digit of a byte, by the byte's number, if the text has that many.
pub fn find(text: &[u8], which: usize) -> Option<usize>
    ensures { result ≡ spot which (reading_of text.now) }
{
    let byte = Scan::new(text).nth(which)?.ok()?;
    Some(byte.first)
}

// Puts the bytes that stand before the first slip, as many as there is room for. By index: after a zip with `iter_mut` a
// proof knows how long `out` is, and nothing of what is in it.
#[tactic(auto, using(crate::proofs::Scanning::values_are))]
pub fn fill(text: &[u8], out: &mut [u8])
    ensures { out.new ≡ sets out.old 0 (bytes_in (reading_of text.now)) }
{
    for (i, item) in (0..out.len()).zip(Scan::new(text)) {
        let Ok(byte) = item else {
            return;
        };
        out[i] = byte.value;
    }
}
