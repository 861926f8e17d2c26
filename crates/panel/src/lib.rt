// The bench panel: one byte of a schedule at a time, over records that the caller keeps (R200 to R208).
//
// The work is done by `press`, on a table of sixteen records by value. `key` is thin: it takes the lent records into
// such a table, presses the key, and gives the records back.
#![tactic(auto)]

mod judge;
mod possible;
mod press;
mod records;

ghost use Rattle.panel.specs.Press.{of_file, refused_text};
ghost use Rattle.panel.specs.Promises.{Keyed, WhyNumbered};
ghost use Rattle.std.specs.Prelude.{◌≡◌, Some};

use machine::Process;
use press::press;
use run::Counts;
use std::error::Error;
use std::fmt;

// A key as it is struck: the byte, its position, and how many rows stand in the log and in the answers (R201).
#[derive(Clone, Copy, Debug, PartialEq, Eq)]
pub struct Stroke {
    pub byte: u8,
    pub position: usize,
    pub counts: Counts,
}

// Why a key is refused.
#[derive(Clone, Copy, Debug, PartialEq, Eq)]
pub enum Why {
    // One that a run has too: 1 to 12 are the file's (R221). `WordsRoom` is also a list of records that is too short (R223),
    // `LogRoom` and `AnswersRoom` say that one row more does not fit (R224, R225), and `Idle` is of the key's byte (R226).
    Run(runfile::Refusal),
    // The position, or a record, cannot be (R231).
    Record,
    // The byte is no action (R232).
    Key,
}

// The number of a refusal (R220).
impl From<Why> for u32 {
    ghost from_gives = { WhyNumbered };

    fn from(why: Why) -> u32 {
        match why {
            Why::Run(refusal) => u32::from(refusal),
            Why::Record => 21,
            Why::Key => 22,
        }
    }
}

// A key that is refused: why, and the place in the file (R203). A type of its own, and not the file's over another `why`, so
// that `?` turns a refusal of the file into one of the key: between two instances of another crate's type no `From` can stand.
#[derive(Clone, Copy, Debug, PartialEq, Eq)]
pub struct Refused {
    pub why: Why,
    pub place: usize,
}

impl Refused {
    // Where no byte of the file is at fault, the place is 0 (R31).
    fn whole(why: Why) -> Refused
        ensures { result ≡ record { why = why; place = 0 } }
    {
        Refused { why, place: 0 }
    }
}

// A refusal of the file is the key's (R221).
impl From<runfile::Refused> for Refused {
    ghost from_gives = { λ file refused. refused ≡ of_file file };

    fn from(file: runfile::Refused) -> Refused {
        Refused {
            why: Why::Run(file.why),
            place: file.place,
        }
    }
}

// A refusal as it is printed: its number and its place (R195).
impl fmt::Display for Refused {
    ghost output = { λ r. Some (refused_text r) };

    fn fmt<W: fmt::Write>(&self, f: &mut fmt::Formatter<W>) -> fmt::Result {
        let number = u32::from(self.why);
        let place = self.place;
        write!(f, "refused {number} {place}")
    }
}

impl Error for Refused {}

// Sixteen records, of which the first `held` are the caller's: an array and a count, since the core goes over records by
// value (R306).
#[derive(Clone, Copy, Debug, PartialEq, Eq)]
pub struct Table {
    pub processes: [Process; 16],
    pub held: usize,
}

// One key over the lent records and buffers (R302): of more than sixteen records only the first sixteen are looked at (R205, R306). It comes to the
// two row counts after it (R203).
pub fn key(
    file: &[u8],
    records: &mut [Process],
    words: &mut [u64],
    log: &mut [u32],
    answers: &mut [u32],
    key: Stroke,
) -> Result<Counts, Refused>
    ensures { Keyed file.now records.old words.old log.old answers.old key
        result records.new words.new log.new answers.new }
{
    let table = Table::of(records);
    let left = press(file, table, words, log, answers, key)?;
    let n = table.held;
    records[..n].copy_from_slice(&left.processes[..n]);
    Ok(left.counts)
}
