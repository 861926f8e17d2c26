// The process record: how it is read, how it is made, and how it goes down.
ghost use Rattle.std.specs.Prelude.{◌+◌, ◌<◌};
ghost use Rattle.machine.specs.Promises.{Fresh, OpenRow, StageNumbered, AtWork, Started, CrashedFirst};

use super::{Answer, Kept, Process, Stage, Status};

impl Process {
    // The record before the first byte (R86).
    pub fn fresh() -> Self
        ensures { Fresh result }
    {
        Process {
            status: Status::Idle,
            opened: None,
            stored: None,
            checkpoint: false,
            kept: Kept {
                bit: false,
                value: 0,
            },
            begun: 0,
        }
    }

    // The number of the open row; 0 where none is open, as the definitions have it (`row_open`).
    pub fn open_row(self) -> u16
        ensures { OpenRow self.opened result }
    {
        self.opened.unwrap_or(0)
    }

    // N3: opens the next of the rows that begin at row `first`; it is begun now (R103).
    pub fn start(self, first: u16) -> Self
        requires { first + self.begun < 65535 }
        ensures { Started self first result }
    {
        Process {
            status: busy(Stage::A1, 0, 0, 0, None),
            opened: Some(first + self.begun),
            begun: self.begun + 1,
            ..self
        }
    }
}

// The place of a stage in the list A1 to A6, V1 to V6 (R301), which is the number that the enum gives it.
impl From<Stage> for u8 {
    ghost from_gives = { λ stage number. StageNumbered stage number };

    fn from(stage: Stage) -> u8 {
        stage as u8
    }
}

// In the midst of work.
pub fn busy(stage: Stage, word: u64, read_at: u16, tried_at: u16, answer: Option<Answer>) -> Status
    ensures { AtWork stage word read_at tried_at answer result }
{
    Status::Busy {
        stage,
        word,
        read_at,
        tried_at,
        answer,
    }
}

// Brings the first `count` processes down, all if there are not so many, and leaves the others as they were.
#[tactic(auto, using(crate::proofs::Down::fell, crate::proofs::Down::all_fell))]
pub fn crash_first(processes: [Process; 16], count: usize) -> [Process; 16]
    ensures { CrashedFirst processes count result }
{
    let mut down = processes;
    let last = count.min(16);
    for process in &mut down[..last] {
        process.status = Status::Down;
    }
    down
}
