// The choices of recovery, V1 to V3: each decided by what is kept, and by the word.
ghost use Rattle.std.specs.Prelude.{◌<◌};
ghost use Rattle.machine.specs.Promises.{RecoveredBy, ByCheckpoint, ByBit, Replied};

use super::{Answer, Stage};

// V1: by whether an answer is stored (R121).
pub fn recovered_of(stored: Option<Answer>) -> Stage
    ensures { RecoveredBy stored result }
{
    if stored.is_some() {
        Stage::V5
    } else {
        Stage::V2
    }
}

// V2: by the checkpoint (R122).
pub fn by_checkpoint(checkpoint: bool) -> Stage
    ensures { ByCheckpoint checkpoint result }
{
    if checkpoint { Stage::V3 } else { Stage::V6 }
}

// V3: by whether the own flip bit is the kept bit (R123).
pub fn by_bit(me: u8, now: u64, kept: bool) -> Stage
    requires { me < 16 }
    ensures { ByBit me now kept result }
{
    if word::bit_of(u32::from(me), now) == kept {
        Stage::V4
    } else {
        Stage::V6
    }
}

// What is returned: the answer at A6 (number 5; R116), the stored one at V5 (number 10; R125), and fail at V6 (R126). By the
// stage's number, since that is what is matched (R301).
pub fn reply_of(number: u8, answer: Option<Answer>, stored: Option<Answer>) -> Option<Answer>
    ensures { Replied number answer stored result }
{
    match number {
        5 => answer,
        10 => stored,
        _ => None,
    }
}
