// Numbers of several bytes, lowest byte first (R1), the header by value, and where the parts begin that it gives (R2, R6 to R8).
ghost use Rattle.std.specs.Prelude.{◌≡◌, ◌+◌, ◌*◌, ◌≤◌, ◌<◌, length, take, drop};
ghost use Rattle.runfile.specs.Format.{least_head, number_size, RowSize};
ghost use Rattle.runfile.specs.Layout.{u16_at, u64_at, widened, number_at, marked, header_in, word_place, length_given};
ghost use Rattle.runfile.specs.Promises.{FourBytes, HeaderOrZeros, StartWord, Stride, RowsStart, ScheduleStart};

use super::Header;
use super::format::{head_size, row_size, word_size};

// N bytes from a place on. A place goes with its file, as the definitions have it (`u32_at f at`).
fn bytes_at<const N: usize>(file: &[u8], at: usize) -> [u8; N]
    requires { at + N ≤ length file.now }
    ensures { result ≡ take N (drop at file.now) }
{
    file[at..at + N].try_into().unwrap()
}

// Numbers of two, of four and of eight bytes, low byte first: one read, with the contract of each.
#[tactic(auto, using(crate::proofs::Numbers::two_bytes))]
pub fn u16_at(file: &[u8], at: usize) -> u16
    requires { at + 2 ≤ length file.now }
    ensures { result ≡ u16_at file.now at }
{
    u16::from_le_bytes(bytes_at(file, at))
}

#[tactic(auto, using(crate::proofs::Numbers::four_bytes))]
pub fn u32_at(file: &[u8], at: usize) -> u32
    requires { at + 4 ≤ length file.now }
    ensures { FourBytes file.now at result }
{
    u32::from_le_bytes(bytes_at(file, at))
}

#[tactic(auto, using(crate::proofs::Numbers::eight_bytes))]
pub fn u64_at(file: &[u8], at: usize) -> u64
    requires { at + 8 ≤ length file.now }
    ensures { result ≡ u64_at file.now at }
{
    u64::from_le_bytes(bytes_at(file, at))
}

// Old or new of a row of this size.
#[tactic(auto, unfolding(crate::specs::Layout::number_at, crate::specs::Format::number_size))]
pub fn number_at(file: &[u8], at: usize, stride: usize) -> u32
    requires { at + number_size stride ≤ length file.now }
    ensures { result ≡ number_at stride file.now at }
{
    if stride == 8 {
        u32::from(u16_at(file, at))
    } else {
        u32_at(file, at)
    }
}

// That a header is there is a clause of the three that ask it: the definitions read it from the file (`header_in f`), not from eleven bytes.
#[tactic(auto, using(crate::proofs::Numbers::mark_stands))]
pub fn has_mark(file: &[u8]) -> bool
    requires { least_head ≤ length file.now }
    ensures { result ≡ marked file.now }
{
    file.starts_with(b"SWR")
}

#[tactic(auto, unfolding(crate::specs::Layout::header_in))]
pub fn header_of(file: &[u8]) -> Header
    requires { least_head ≤ length file.now }
    ensures { result ≡ header_in file.now }
{
    Header {
        version: u16_at(file, 3),
        processes: file[5],
        words: file[6],
        rows: u16_at(file, 7),
        steps: u16_at(file, 9),
    }
}

// The header of any file: one that is too short to have a header gives zeros, as the definitions have it.
#[tactic(auto, unfolding(crate::specs::Promises::header_or_zeros))]
pub fn header_or_zeros(file: &[u8]) -> Header
    ensures { HeaderOrZeros file.now result }
{
    if file.len() < 11 {
        return Header::default();
    }
    header_of(file)
}

// A word of version 1, widened: the value stays in front, and the flip bits move up behind 32 bits of value (R6).
#[tactic(auto, unfolding(crate::specs::Layout::widened))]
fn widen(word: u32) -> u64
    ensures { result ≡ widened word }
{
    u64::from(word % 65536) + u64::from(word / 65536) * 4294967296
}

// The start word i.
pub fn word_at(file: &[u8], header: Header, i: usize) -> u64
    requires { word_place header.version (i + 1) ≤ length file.now }
    ensures { StartWord header file.now i result }
{
    let at = head_size(header.version) + i * word_size(header.version);
    if header.version == 1 {
        widen(u32_at(file, at))
    } else {
        u64_at(file, at)
    }
}

impl Header {
    // How many bytes it is from one row to the next (R7).
    pub fn stride(self) -> usize
        ensures { Stride self result }
    {
        row_size(self.version)
    }

    pub fn rows_start(self) -> usize
        ensures { RowsStart self result }
    {
        head_size(self.version) + usize::from(self.words) * word_size(self.version)
    }

    pub fn schedule_start(self) -> usize
        ensures { ScheduleStart self result }
    {
        self.rows_start() + usize::from(self.rows) * self.stride()
    }

    // The length that the header gives its file (R8).
    pub(crate) fn length_given(self) -> usize
        ensures { result ≡ length_given self }
    {
        self.schedule_start() + usize::from(self.steps)
    }
}
