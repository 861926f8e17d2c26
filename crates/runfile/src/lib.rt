// The run file: what its header gives, and what is refused.
//
// `check` is the one door: every byte string is accepted, with its header by value, or refused by one
// number and one place. Nothing is asked of its caller. The meaning of every answer stands in specs/Refusals.
#![tactic(auto)]

mod format;
mod kinds;
mod operations;
mod read;
mod rows;
mod schedule;

ghost use Rattle.std.specs.Prelude.{◌≡◌, List, ℕ, ◌≤◌, Some, length};
ghost use Rattle.runfile.specs.Format.{least_head, longest_of_all};
ghost use Rattle.runfile.specs.Layout.{length_given};
ghost use Rattle.runfile.specs.Refusals.{refused_text, unknown_version, out_of_range, first_of, found, no_room, count_checks, head_checks, body_checks, room_checks};
ghost use Rattle.runfile.specs.Promises.{Decides, DecidesFile, Numbers};

pub use operations::{Operations, firsts_of};
use read::{has_mark, header_of};
pub use read::{header_or_zeros, u32_at, word_at};
use rows::Rows;
use schedule::{first_bad_byte, first_idle};
pub use schedule::{is_bad_byte, is_idle};
use std::error::Error;
use std::fmt;

// One byte more than the longest file has (R9). So many bytes of any file decide what it comes to (R35, specs/Enough).
pub const ENOUGH_BYTES: usize = 7308;

// What the first eleven bytes give, after the mark (R2).
#[derive(Clone, Copy, Debug, Default, PartialEq, Eq)]
pub struct Header {
    pub version: u16,
    pub processes: u8,
    pub words: u8,
    pub rows: u16,
    pub steps: u16,
}

// What an operation does: kind 0 reads, kind 1 compares and swaps, kind 2 advances a mark (R11).
#[derive(Clone, Copy, Debug, PartialEq, Eq)]
pub enum Kind {
    Read,
    Compare,
    Advance,
}

// An operation, with the number of its kind, since refusal 9 speaks of rows with any number there (R49b). Old and new of version 1, of two bytes each, are widened (R10).
#[derive(Clone, Copy, Debug, PartialEq, Eq)]
pub struct Row {
    pub process: u8,
    pub kind: u8,
    pub word: u8,
    pub old: u32,
    pub new: u32,
}

// The fields of a row as they stand in the file, in their order there (R10).
#[derive(Clone, Copy, Debug, PartialEq, Eq)]
pub enum Field {
    Process,
    Kind,
    Word,
    ZeroByte,
    Old,
    New,
}

// How many numbers each of the three lent buffers holds.
#[derive(Clone, Copy, Debug, PartialEq, Eq)]
pub struct Room {
    pub words: usize,
    pub log: usize,
    pub answers: usize,
}

// The refusals in the order of their checks (R32); as a `u32` each is its number.
#[derive(Clone, Copy, Debug, PartialEq, Eq)]
pub enum Refusal {
    Short,
    Mark,
    Version,
    Processes,
    Words,
    Rows,
    Steps,
    Length,
    Row,
    Order,
    Same,
    Action,
    Idle,
    WordsRoom,
    LogRoom,
    AnswersRoom,
}

// A file that is refused: by which check, and the place, counted in bytes from 0 (R30, R31).
#[derive(Clone, Copy, Debug, PartialEq, Eq)]
pub struct Refused {
    pub why: Refusal,
    pub place: usize,
}

impl Refused {
    // Where the file or a buffer is wrong as a whole, the place is 0 (R31).
    fn whole(why: Refusal) -> Refused
        ensures { result ≡ record { why = why; place = 0 } }
    {
        Refused { why, place: 0 }
    }
}

// The number of a refusal (R41 to R56).
impl From<Refusal> for u32 {
    ghost from_gives = { Numbers };

    fn from(why: Refusal) -> u32 {
        match why {
            Refusal::Short => 1,
            Refusal::Mark => 2,
            Refusal::Version => 3,
            Refusal::Processes => 4,
            Refusal::Words => 5,
            Refusal::Rows => 6,
            Refusal::Steps => 7,
            Refusal::Length => 8,
            Refusal::Row => 9,
            Refusal::Order => 10,
            Refusal::Same => 11,
            Refusal::Action => 12,
            Refusal::Idle => 16,
            Refusal::WordsRoom => 13,
            Refusal::LogRoom => 14,
            Refusal::AnswersRoom => 15,
        }
    }
}

// A refusal as it is printed: its number and its place (R195).
impl fmt::Display for Refused {
    ghost output = { λ r. Some (refused_text r) };

    fn fmt<W: fmt::Write>(&self, f: &mut fmt::Formatter<W>) -> fmt::Result {
        let number = u32::from(self.why);
        let place = self.place;
        write!(f, "refused {number} {place}")
    }
}

impl Error for Refused {}

// The versions are 1 and 2 (R43).
fn is_unknown(version: u16) -> bool
    ensures { result ≡ unknown_version version }
{
    !matches!(version, 1 | 2)
}

// P and W may be 1 to 16 (R44, R45).
fn is_out_of_range(count: u8) -> bool
    ensures { result ≡ out_of_range count }
{
    !(1..=16).contains(&count)
}

// Refusals 3 to 7: what the header counts (R43 to R47). Each group of checks answers with the header, as the search through the
// table does that says what is refused (`first_of`).
fn check_counts(header: Header) -> Result<Header, Refused>
    ensures { (f : List ℕ) → result ≡ first_of (found header f no_room) count_checks header }
{
    if is_unknown(header.version) {
        return Err(Refused::whole(Refusal::Version));
    }
    if is_out_of_range(header.processes) {
        return Err(Refused::whole(Refusal::Processes));
    }
    if is_out_of_range(header.words) {
        return Err(Refused::whole(Refusal::Words));
    }
    if header.rows > 512 {
        return Err(Refused::whole(Refusal::Rows));
    }
    if header.steps > 1024 {
        return Err(Refused::whole(Refusal::Steps));
    }
    Ok(header)
}

// Refusals 2 to 8: the mark, the header, and the length that it gives (R42 to R48).
fn check_head(file: &[u8], header: Header) -> Result<Header, Refused>
    requires { least_head ≤ length file.now }
    ensures { result ≡ first_of (found header file.now no_room) head_checks header }
{
    if !has_mark(file) {
        return Err(Refused::whole(Refusal::Mark));
    }
    check_counts(header)?;
    if file.len() != header.length_given() {
        return Err(Refused::whole(Refusal::Length));
    }
    Ok(header)
}

// Refusals 9 to 12, one whole search after the other (R33, R49 to R52).
fn check_body(file: &[u8], header: Header) -> Result<Header, Refused>
    requires { (length file.now ≡ length_given header) × (length file.now ≤ longest_of_all) }
    ensures { result ≡ first_of (found header file.now no_room) body_checks header }
{
    let rows = Rows::of(file, header);
    if let Some(place) = rows.first_bad_field(header) {
        return Err(Refused {
            why: Refusal::Row,
            place,
        });
    }
    if let Some(place) = rows.first_below() {
        return Err(Refused {
            why: Refusal::Order,
            place,
        });
    }
    if let Some(place) = rows.first_same() {
        return Err(Refused {
            why: Refusal::Same,
            place,
        });
    }
    let start = header.schedule_start();
    if let Some(place) = first_bad_byte(&file[start..], start, header.processes) {
        return Err(Refused {
            why: Refusal::Action,
            place,
        });
    }
    Ok(header)
}

// Refusals 1 to 12, for any bytes (R41 to R52): on the panel, 16 is not asked of the file's own schedule (R221).
#[tactic(auto, unfolding(crate::specs::Refusals::file_refusal))]
pub fn check_file(file: &[u8]) -> Result<Header, Refused>
    ensures { DecidesFile file.now result }
{
    if file.len() < 11 {
        return Err(Refused::whole(Refusal::Short));
    }
    let header = header_of(file);
    check_head(file, header)?;
    check_body(file, header)
}

// Refusals 13 to 15: a log row and an answer row of five numbers for each schedule byte (R53 to R55).
fn check_room(header: Header, room: Room) -> Result<Header, Refused>
    ensures { (f : List ℕ) → result ≡ first_of (found header f room) room_checks header }
{
    let rows_room = 5 * usize::from(header.steps);
    if room.words < usize::from(header.words) {
        return Err(Refused::whole(Refusal::WordsRoom));
    }
    if room.log < rows_room {
        return Err(Refused::whole(Refusal::LogRoom));
    }
    if room.answers < rows_room {
        return Err(Refused::whole(Refusal::AnswersRoom));
    }
    Ok(header)
}

// Whether a run file is refused when buffers of these lengths are lent with it: for any bytes and any lengths.
pub fn check(file: &[u8], room: Room) -> Result<Header, Refused>
    ensures { Decides file.now room result }
{
    let header = check_file(file)?;
    let start = header.schedule_start();
    if let Some(place) = first_idle(&file[start..], start) {
        return Err(Refused {
            why: Refusal::Idle,
            place,
        });
    }
    check_room(header, room)
}
