// The log, by position: where a new row goes (R170), how it is put there (R171), and the successful swap that a lost
// one looks for (R168).
ghost use Rattle.std.specs.Prelude.{◌+◌, ◌*◌, ◌≤◌, ◌≡◌, length};
ghost use Rattle.runfile.specs.Operations.{rows_from};
ghost use Rattle.rows.specs.Entries.{swap_verdict};
ghost use Rattle.rows.specs.Log.{is_swap};
ghost use Rattle.rows.specs.Buffers.{entry_at, shifted};
ghost use Rattle.rows.specs.Promises.{Places, Searched, FirstSwapped, Inserted};

use super::{Entries, Entry, Rows, Sought, write_row};
use runfile::Operations;

// Moves the first `count` numbers of a part of the log up by one row (R171). The first five numbers stay until a row is
// written over them.
#[tactic(auto, unfolding(crate::specs::Buffers::shifted))]
fn shift_rows(part: &mut [u32], count: usize)
    requires { count + 5 ≤ length part.old }
    ensures { part.new ≡ shifted count part.old }
{
    part.copy_within(..count, 5);
}

// Whether a verdict tells of a successful swap: a compare's or an advance's (R161).
fn is_swapped(verdict: u32) -> bool
    ensures { result ≡ swap_verdict verdict }
{
    matches!(verdict, 1 | 4)
}

impl Rows<'_> {
    // The place of a new row (R170). It is looked for from the last row on, since nearly every row goes to the end (R172);
    // the rows behind the first that it finds are all of larger position, whatever the order.
    pub fn place_of(self, position: u32) -> usize
        requires { self.count * 5 ≤ length self.numbers.now }
        ensures { Places self.entry.numbers.now self.entry.count position result }
    {
        for last in (0..self.count).rev() {
            if self.numbers[last * 5] <= position {
                return last + 1;
            }
        }
        0
    }

    // Whether row i is such a swap as is sought (R168). A row number past the table names no row. Of nearly all rows that are
    // passed over the verdict alone is read, so a row is not taken out of the buffer whole.
    fn is_swap_after(self, i: usize, operations: Operations, sought: Sought) -> bool
        requires { Searched operations.stride operations.table.now operations.count self.numbers.now (i + 1) }
        ensures { result ≡ is_swap (rows_from operations.entry.stride operations.entry.table.now 0 operations.entry.count) sought.word sought.after (entry_at self.entry.numbers.now (i * 5)) }
    {
        let at = i * 5;
        let log = self.numbers;
        let verdict = log[at + 3];
        if verdict == 0 {
            return false;
        }
        if log[at] <= sought.after {
            return false;
        }
        if !is_swapped(verdict) {
            return false;
        }
        // By `as`: to an index there is no `From`.
        let row = log[at + 2] as usize;
        if row >= operations.count {
            return false;
        }
        operations.word(row) == sought.word
    }

    // The position of the first row that is such a swap as is sought (R168).
    pub fn first_swap_after(self, operations: Operations, sought: Sought) -> u32
        requires { Searched operations.stride operations.table.now operations.count self.numbers.now self.count }
        ensures { FirstSwapped operations.entry.stride operations.entry.table.now operations.entry.count self.entry.numbers.now self.entry.count sought result }
    {
        for i in 0..self.count {
            if self.is_swap_after(i, operations, sought) {
                return self.numbers[i * 5];
            }
        }
        sought.none
    }
}

impl Entries<'_> {
    // Puts a row into the log at its place (R170, R171). Only the part from that place on is lent to be moved (R303).
    pub fn insert(&mut self, entry: Entry)
        requires { self.old.count * 5 + 5 ≤ length self.old.numbers.now }
        ensures same_buffer { self.new.numbers.ghost_name ≡ self.old.numbers.ghost_name }
        ensures counted { self.new.count ≡ self.old.count + 1 }
        ensures inserted { Inserted self.old.numbers.now self.old.count entry self.new.numbers.now }
    {
        let at = self.rows().place_of(entry.position) * 5;
        let moved = self.count * 5 - at;
        shift_rows(&mut self.numbers[at..], moved);
        write_row(self.numbers, at, entry);
        self.count += 1;
    }
}
