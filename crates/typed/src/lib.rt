// Run files typed by hand in hex: a text read as bytes, with the first slip told by number, line and column; where a byte
// was typed; and bytes put as such a text.
//
// Digits of either case, two to a byte. A byte's two digits stand together, so that a run of 2n digits is n bytes. Between
// bytes there may be spaces, tabs, carriage returns and newlines. A comment goes from `#` to the end of its line, and a
// newline alone ends a line. Lines and columns count from 1, and a tab is one column.
//
//   slip  given for                                                               told at
//   1     a character outside comments that is none of these                      that character
//   2     a digit that begins a byte, and a separator, `#` or the end is next     that digit
//   3     a byte (two digits) behind as many as there is room for                 its first digit
//
// The first in the text is told. A letter O that is typed for a zero is slip 1 at the O, wherever it stands in its byte.
//
// Nothing is asked of any caller. What each function answers and leaves stands in specs/Promises, and what that says of
// a text in Told and Says, of specs/ and of proofs/.
#![tactic(auto)]

mod chars;
mod columns;
mod scan;
mod text;

ghost use Rattle.std.specs.Prelude.{Some};
ghost use Rattle.typed.specs.Promises.{Reads, Locates, Numbers, slip_text};

use columns::place_at;
use scan::{check, fill, find};
use std::error::Error;
use std::fmt;
pub use text::put_bytes;

// What can be wrong with a text; `u32::from` gives the numbers.
#[derive(Clone, Copy, Debug, PartialEq, Eq)]
pub enum Slip {
    Stray,
    Alone,
    TooMany,
}

impl From<Slip> for u32 {
    ghost from_gives = { Numbers };

    fn from(slip: Slip) -> u32 {
        match slip {
            Slip::Stray => 1,
            Slip::Alone => 2,
            Slip::TooMany => 3,
        }
    }
}

// Where a character stands.
#[derive(Clone, Copy, Debug, PartialEq, Eq)]
pub struct Place {
    pub line: usize,
    pub column: usize,
}

// The first slip of a text, and where it is.
#[derive(Clone, Copy, Debug, PartialEq, Eq)]
pub struct Slipped {
    pub slip: Slip,
    pub place: Place,
}

// The number of the slip, the line and the column: `slip 2 1 4`.
impl fmt::Display for Slipped {
    ghost output = { λ slipped. Some (slip_text slipped) };

    fn fmt<W: fmt::Write>(&self, f: &mut fmt::Formatter<W>) -> fmt::Result {
        let number = u32::from(self.slip);
        write!(f, "slip {number} {} {}", self.place.line, self.place.column)
    }
}

impl Error for Slipped {}

// Reads a text into `out`, from its front on, and answers how many bytes it has, or the first slip. There is room for as
// many bytes as `out` has: whoever reads run files lends as many as the longest has. On a slip `out` is left as it was.
#[tactic(auto, using(crate::proofs::Spots::stop_inside, crate::proofs::Answers::accepted))]
pub fn read(text: &[u8], out: &mut [u8]) -> Result<usize, Slipped>
    ensures { Reads text.now out.old result out.new }
{
    let count = check(text, out.len()).map_err(|offence| Slipped {
        slip: offence.slip,
        place: place_at(text, offence.at),
    })?;
    fill(text, out);
    Ok(count)
}

// Where the first digit of byte `i` stands, if the text has that many. Bytes behind a slip are not counted.
#[tactic(auto, using(crate::proofs::Spots::spot_inside))]
pub fn place_of(text: &[u8], i: usize) -> Option<Place>
    ensures { Locates text.now i result }
{
    find(text, i).map(|at| place_at(text, at))
}
