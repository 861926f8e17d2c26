// What depends on the version of a file: the sizes of header, word and row (R2, R6, R7), and where a row's fields stand (R10).
ghost use Rattle.std.specs.Prelude.{◌≡◌, ◌≤◌, ◌<◌};
ghost use Rattle.runfile.specs.Format.{head_size, word_size, row_size, RowSize, new_place, offset_of};

use super::Field;

#[tactic(auto, unfolding(crate::specs::Format::head_size))]
pub fn head_size(version: u16) -> usize
    ensures { (result ≡ head_size version) × (result ≤ 13) }
{
    11
}

#[tactic(auto, unfolding(crate::specs::Format::word_size))]
pub fn word_size(version: u16) -> usize
    ensures { (result ≡ word_size version) × (4 ≤ result) × (result ≤ 8) }
{
    if version == 1 { 4 } else { 8 }
}

// How many bytes it is from one row to the next.
pub fn row_size(version: u16) -> usize
    ensures { (result ≡ row_size version) × RowSize result }
{
    if version == 1 { 8 } else { 12 }
}

// Where new stands in a row of this size, behind old.
#[tactic(auto, unfolding(crate::specs::Format::new_place))]
pub fn new_place(stride: usize) -> usize
    ensures { (result ≡ new_place stride) × (result ≤ 8) }
{
    if stride == 8 { 6 } else { 8 }
}

// Where a field's first byte stands in a row of this size.
pub fn offset_of(field: Field, stride: usize) -> usize
    requires { RowSize stride }
    ensures { (result ≡ offset_of stride field) × (result < stride) }
{
    match field {
        Field::Process => 0,
        Field::Kind => 1,
        Field::Word => 2,
        Field::ZeroByte => 3,
        Field::Old => 4,
        Field::New => new_place(stride),
    }
}
