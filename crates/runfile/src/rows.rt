// Which row offends: the test of one field and of one row, and the search for the first that fails it (refusals 9 to 11, R49 to R51).
ghost use Rattle.std.specs.Prelude.{◌≡◌, ◌+◌, ◌≤◌, ◌<◌, length};
ghost use Rattle.runfile.specs.Format.{number_size, RowSize, RowSize-prop};
ghost use Rattle.runfile.specs.Layout.{length_given, RowsOf, number_at, row_at, row_place, zero_byte_at};
ghost use Rattle.runfile.specs.Refusals.{bad_kind, zero_old, zero_new, bad_number, bad_field, same_fields, below, same, first_bad_field, first_row, first_later_row};

use super::format::{new_place, offset_of};
use super::read::number_at;
use super::{Field, Header, Kind};

// The rows of a file that has them whole: where they begin, how many bytes it is from one to the next, and how many there are (R7).
// Their places are those in the file, which a refusal tells, and all are there; `Operations` has neither.
#[derive(Clone, Copy)]
pub struct Rows<'a> {
    file: &'a [u8],
    start: usize,
    stride: usize,
    count: usize,
    ghost size: { RowSize stride } by { RowSize-prop stride },
    ghost whole: { row_place stride start count ≤ length file.now },
}

// The order in which a row's fields are looked at: that of the file (R36).
const FIELDS: [Field; 6] = [
    Field::Process,
    Field::Kind,
    Field::Word,
    Field::ZeroByte,
    Field::Old,
    Field::New,
];

// Which numbers are no kinds: 2 is one in version 2 alone (R49b).
fn is_bad_kind(version: u16, kind: u8) -> bool
    ensures { result ≡ bad_kind version kind }
{
    match kind {
        0..=1 => false,
        2 => version == 1,
        _ => true,
    }
}

// Which kinds must have old 0 (R49e), and which new 0 (R49f): two rules, with a table each.
fn has_zero_old(kind: Kind) -> bool
    ensures { result ≡ zero_old kind }
{
    matches!(kind, Kind::Read | Kind::Advance)
}

fn has_zero_new(kind: Kind) -> bool
    ensures { result ≡ zero_new kind }
{
    matches!(kind, Kind::Read)
}

impl<'a> Rows<'a> {
    // The rows of a file that is as long as its header says.
    pub fn of(file: &'a [u8], header: Header) -> Rows<'a>
        requires { length file.now ≡ length_given header }
        ensures { RowsOf header file.now result.file.now result.start result.stride result.count }
    {
        Rows {
            file,
            start: header.rows_start(),
            stride: header.stride(),
            count: usize::from(header.rows),
        }
    }
}

impl Rows<'_> {
    // Where row k begins.
    #[tactic(auto, using(crate::proofs::First::row_fits))]
    fn place(&self, k: usize) -> usize
        requires { k < self.now.count }
        ensures { (result ≡ row_place self.now.stride self.now.start k) × (result + self.now.stride ≤ length self.now.file.now) }
    {
        self.start + k * self.stride
    }

    // Old or new, which stands at `place`, where it must be 0.
    fn is_bad_number(&self, zero: bool, place: usize) -> bool
        requires { place + number_size self.now.stride ≤ length self.now.file.now }
        ensures { result ≡ bad_number zero (number_at self.now.stride self.now.file.now place) }
    {
        zero && number_at(self.file, place, self.stride) != 0
    }

    // Refusal 9, of one field of the row at a place (R49a to R49f).
    #[tactic(auto, unfolding(crate::specs::Refusals::bad_field, crate::specs::Layout::row_at))]
    fn is_bad_field(&self, at: usize, field: Field, header: Header) -> bool
        requires { at + self.now.stride ≤ length self.now.file.now }
        ensures { result ≡ bad_field header (row_at self.now.stride self.now.file.now at) (zero_byte_at self.now.file.now at) field }
    {
        let file = self.file;
        match field {
            Field::Process => file[at] >= header.processes,
            Field::Kind => is_bad_kind(header.version, file[at + 1]),
            Field::Word => file[at + 2] >= header.words,
            Field::ZeroByte => file[at + 3] != 0,
            Field::Old => {
                let zero = has_zero_old(Kind::from(file[at + 1]));
                self.is_bad_number(zero, at + 4)
            }
            Field::New => {
                let zero = has_zero_new(Kind::from(file[at + 1]));
                self.is_bad_number(zero, at + new_place(self.stride))
            }
        }
    }

    // Refusal 10, of a row that has one in front of it (R50).
    #[tactic(auto, using(crate::proofs::Below::below_read))]
    fn is_below(&self, k: usize) -> bool
        requires { (0 < k) × (k < self.now.count) }
        ensures { result ≡ below self.now.stride self.now.file.now self.now.start k }
    {
        let at = self.place(k);
        self.file[at] < self.file[at - self.stride]
    }

    // Refusal 11, of one row (R51).
    #[tactic(auto, unfolding(crate::specs::Refusals::same_fields, crate::specs::Layout::row_at))]
    fn is_same(&self, k: usize) -> bool
        requires { k < self.now.count }
        ensures { result ≡ same self.now.stride self.now.file.now self.now.start k }
    {
        let at = self.place(k);
        let new_at = at + new_place(self.stride);
        match Kind::from(self.file[at + 1]) {
            Kind::Read => false,
            Kind::Compare => {
                let new = number_at(self.file, new_at, self.stride);
                number_at(self.file, at + 4, self.stride) == new
            }
            Kind::Advance => number_at(self.file, new_at, self.stride) == 0,
        }
    }

    // Refusal 9: the place of the first fault; it leaves both loops (R36, R305).
    pub fn first_bad_field(&self, header: Header) -> Option<usize>
        ensures { result ≡ first_bad_field header self.now.stride self.now.file.now self.now.start self.now.count }
    {
        let mut found = None;
        'rows: for k in 0..self.count {
            let at = self.place(k);
            for field in FIELDS {
                if self.is_bad_field(at, field, header) {
                    found = Some(at + offset_of(field, self.stride));
                    break 'rows;
                }
            }
        }
        found
    }

    // Refusal 10: the first row whose process is smaller than that of the row in front of it, so from the second row on (R50).
    pub fn first_below(&self) -> Option<usize>
        ensures { result ≡ first_later_row self.now.stride self.now.start self.now.count (below self.now.stride self.now.file.now self.now.start) }
    {
        let below = (1..self.count).find(|k| self.is_below(*k))?;
        Some(self.place(below))
    }

    // Refusal 11: the first row that compares and has old and new alike (R51).
    pub fn first_same(&self) -> Option<usize>
        ensures { result ≡ first_row self.now.stride self.now.start self.now.count (same self.now.stride self.now.file.now self.now.start) }
    {
        let k = (0..self.count).find(|k| self.is_same(*k))?;
        Some(self.place(k))
    }
}
