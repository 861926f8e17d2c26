// The log and the answers: lent buffers of numbers that hold rows of five, from the front (R160, R183).
//
// What stands behind the rows, the new one included, is neither read nor changed.
#![tactic(auto)]

mod log;

ghost use Rattle.std.specs.Prelude.{◌≡◌, ◌+◌, ◌*◌, ◌≤◌, length};
ghost use Rattle.rows.specs.Buffers.{five, placed};
ghost use Rattle.rows.specs.Promises.{Added, FiveNumbers, Seen};

// A row of the log or of the answers. Any five numbers make one, the verdict's among them: a log that is lent may hold
// anything.
#[derive(Clone, Copy, Debug, PartialEq, Eq)]
pub struct Entry {
    pub position: u32,
    pub process: u32,
    pub row: u32,
    pub verdict: u32,
    pub value: u32,
}

// The five numbers of a row, in the order in which they stand in a buffer (R160).
impl From<Entry> for [u32; 5] {
    ghost from_gives = { FiveNumbers };

    #[tactic(auto, unfolding(crate::specs::Buffers::five))]
    fn from(entry: Entry) -> [u32; 5] {
        [
            entry.position,
            entry.process,
            entry.row,
            entry.verdict,
            entry.value,
        ]
    }
}

// What a lost swap looks for in the log: a successful swap on its word after this position, that of its A1 (R168). Where there
// is none, `none` is taken for the swap's position (R169).
#[derive(Clone, Copy, Debug, PartialEq, Eq)]
pub struct Sought {
    pub word: u8,
    pub after: u32,
    pub none: u32,
}

// How many rows stand in the log and in the answers.
#[derive(Clone, Copy, Debug, PartialEq, Eq)]
pub struct Counts {
    pub log: usize,
    pub answers: usize,
}

// The rows that stand in a buffer, to be read.
#[derive(Clone, Copy)]
pub struct Rows<'a> {
    pub numbers: &'a [u32],
    pub count: usize,
}

// The rows that stand in a lent buffer, to be added to.
#[derive(Drop)]
pub struct Entries<'a> {
    pub numbers: &'a mut [u32],
    pub count: usize,
}

// Writes a row's five numbers from a place on.
#[tactic(auto, unfolding(crate::specs::Buffers::placed, crate::specs::Buffers::five))]
fn write_row(buffer: &mut [u32], at: usize, entry: Entry)
    requires { at + 5 ≤ length buffer.old }
    ensures { buffer.new ≡ placed at (five entry) buffer.old }
{
    buffer[at..at + 5].copy_from_slice(&<[u32; 5]>::from(entry));
}

impl Entries<'_> {
    // The rows, to be read.
    pub fn rows(&self) -> Rows<'_>
        ensures { Seen self.now.numbers.now self.now.count result.numbers.now result.count }
    {
        Rows {
            numbers: self.numbers,
            count: self.count,
        }
    }

    // Adds a row behind the others: answers stand in the order in which they were given (R163).
    pub fn push(&mut self, entry: Entry)
        requires { self.old.count * 5 + 5 ≤ length self.old.numbers.now }
        ensures same_buffer { self.new.numbers.ghost_name ≡ self.old.numbers.ghost_name }
        ensures counted { self.new.count ≡ self.old.count + 1 }
        ensures added { Added self.old.numbers.now self.old.count entry self.new.numbers.now }
    {
        write_row(self.numbers, self.count * 5, entry);
        self.count += 1;
    }
}
