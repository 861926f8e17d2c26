// The machine: a process's record, and what one step does with it, with a word and with the log.
//
// What a byte means stands in specs/Steps and specs/Machine (R70 to R173). Here are the record and the small functions
// of which a step consists; the crate `engine` runs schedules with them.
#![tactic(auto)]

mod kinds;
mod operation;
mod records;
mod recovery;
mod said;

pub use kinds::{after_loss, keep, put_in, swap_says};
pub use operation::{after_read, enter, store_word, word_now};
pub use records::{busy, crash_first};
pub use recovery::{by_bit, by_checkpoint, recovered_of, reply_of};
pub use said::entry_of;

// The stages of an operation and of recovery (R82), numbered in this order from 0 on (R301).
#[derive(Clone, Copy, Debug, PartialEq, Eq)]
pub enum Stage {
    A1,
    A2,
    A3,
    A4,
    A5,
    A6,
    V1,
    V2,
    V3,
    V4,
    V5,
    V6,
}

// An answer: of a compare, of a read, and of an advance, which says what the value was before it (R85). Where none is
// an answer too, an `Option` of it stands: the stored one, the one to store, and what is returned (none is fail).
#[derive(Clone, Copy, Debug, PartialEq, Eq)]
pub enum Answer {
    False,
    True,
    Value(u32),
    Was(u32),
}

// All that is volatile stands here, so a crash cannot forget to clear any of it (R83, R300). A row is announced by
// three stores (R101 to R103): an idle process makes the first, and is then at N2 and at N3, where the others are to
// be made. In the midst of work the stage, the word read and
// the rest stand side by side in the case, as the step rules name them, stage by stage.
#[derive(Clone, Copy, Debug, PartialEq, Eq)]
pub enum Status {
    Down,
    Idle,
    N2,
    N3,
    Busy {
        stage: Stage,
        word: u64,
        read_at: u16,
        tried_at: u16,
        answer: Option<Answer>,
    },
}

// What A2 keeps in one store: the own flip bit turned round and, of an advance, the value that it read (R84, R112).
#[derive(Clone, Copy, Debug, PartialEq, Eq)]
pub struct Kept {
    pub bit: bool,
    pub value: u32,
}

// A process: its status, and what is kept through a crash (R84).
#[derive(Clone, Copy, Debug, PartialEq, Eq)]
pub struct Process {
    pub status: Status,
    // The open row, by its number in the file.
    pub opened: Option<u16>,
    pub stored: Option<Answer>,
    pub checkpoint: bool,
    pub kept: Kept,
    pub begun: u16,
}

// Work in hand, as A5 takes it: the process, its open row, and what it has in the midst of it (R82).
#[derive(Clone, Copy, Debug, PartialEq, Eq)]
pub struct Work {
    pub process: u8,
    pub row: u16,
    pub seen: u64,
    pub read_at: u16,
    pub tried_at: u16,
    pub answer: Option<Answer>,
}
