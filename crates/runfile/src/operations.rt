// The operation rows of a file, read one by one, and how they fall to the processes (R12, R87).
ghost use Rattle.std.specs.Prelude.{◌≡◌, ◌<◌, ◌≤◌, length};
ghost use Rattle.runfile.specs.Layout.{row_of_table, HasRow, rows_start};
ghost use Rattle.runfile.specs.Operations.{rows_from};
ghost use Rattle.runfile.specs.Promises.{RowRead, RowWord, RowsLent};
ghost use Rattle.runfile.specs.Shares.{Lined, Counted, Summed, sum_to};

use super::format::new_place;
use super::read::number_at;
use super::{Header, Row};

// A table of rows: its bytes, how many of them it is from one row to the next, and how many rows there are (R7). That all rows are
// whole (`Lined`) is no fact of the type: to read one row, that row must be there, and no more is asked.
#[derive(Clone, Copy)]
pub struct Operations<'a> {
    pub table: &'a [u8],
    pub stride: usize,
    pub count: usize,
}

impl<'a> Operations<'a> {
    // Those of a file: the table is lent as the file's part from its first row on.
    pub fn of(file: &'a [u8], header: Header) -> Operations<'a>
        requires { rows_start header ≤ length file.now }
        ensures { RowsLent header file.now result.table.now result.stride result.count }
    {
        let start = header.rows_start();
        Operations {
            table: &file[start..],
            stride: header.stride(),
            count: usize::from(header.rows),
        }
    }
}

impl Operations<'_> {
    // Row k.
    #[tactic(auto, unfolding(crate::specs::Layout::row_at))]
    pub fn row(self, k: usize) -> Row
        requires { HasRow self.stride self.table.now k }
        ensures { RowRead self.entry.stride self.entry.table.now k result }
    {
        let at = k * self.stride;
        let new_at = at + new_place(self.stride);
        Row {
            process: self.table[at],
            kind: self.table[at + 1],
            word: self.table[at + 2],
            old: number_at(self.table, at + 4, self.stride),
            new: number_at(self.table, new_at, self.stride),
        }
    }

    // Of row k alone the process, and alone the word: a byte each, and `word` with a contract of its own.
    #[tactic(auto, unfolding(crate::specs::Layout::row_at))]
    fn process(self, k: usize) -> u8
        requires { HasRow self.stride self.table.now k }
        ensures { result ≡ (row_of_table self.entry.stride self.entry.table.now k).process }
    {
        self.table[k * self.stride]
    }

    #[tactic(auto, unfolding(crate::specs::Layout::row_at))]
    pub fn word(self, k: usize) -> u8
        requires { HasRow self.stride self.table.now k }
        ensures { RowWord self.entry.stride self.entry.table.now k result }
    {
        self.table[k * self.stride + 2]
    }

    // How many rows each process has.
    pub fn counts(self) -> [u16; 16]
        requires { Lined self.stride self.table.now self.count }
        ensures { Counted (rows_from self.entry.stride self.entry.table.now 0 self.entry.count) result }
    {
        let mut counts = [0u16; 16];
        for k in 0..self.count {
            let p = usize::from(self.process(k));
            counts[p] += 1;
        }
        counts
    }
}

// The number of each process's first row: as many rows as the processes below it have. It is a table of its own beside that of
// the counts, since each contract determines one table whole (`counted_one`, `summed_one`).
pub fn firsts_of(counts: [u16; 16]) -> [u16; 16]
    requires { sum_to counts 16 < 65536 }
    ensures { Summed counts result }
{
    let mut firsts = [0u16; 16];
    let mut sum = 0;
    for p in 0..16 {
        firsts[p] = sum;
        sum += counts[p];
    }
    firsts
}
