// What is said, as the five numbers of a row (R160).
ghost use Rattle.std.specs.Prelude.{◌≡◌};
ghost use Rattle.machine.specs.Promises.{EntryMade};
ghost use Rattle.machine.specs.Steps.{spoken};

use super::Answer;
use rows::Entry;

// The verdict (R161).
#[tactic(auto, unfolding(crate::specs::Steps::spoken))]
fn verdict_of(said: Option<Answer>) -> u32
    ensures { result ≡ (spoken said).verdict }
{
    match said {
        None => 2,
        Some(Answer::False) => 0,
        Some(Answer::True) => 1,
        Some(Answer::Value(_)) => 3,
        Some(Answer::Was(_)) => 4,
    }
}

// The value: 0 for all but a value read and the value before an advance (R162).
#[tactic(auto, unfolding(crate::specs::Steps::spoken))]
fn value_said(said: Option<Answer>) -> u32
    ensures { result ≡ (spoken said).value }
{
    match said {
        None | Some(Answer::False | Answer::True) => 0,
        Some(Answer::Value(value) | Answer::Was(value)) => value,
    }
}

// A row of the log or of the answers.
pub fn entry_of(position: u32, process: u8, row: u16, said: Option<Answer>) -> Entry
    ensures { EntryMade position process row said result }
{
    Entry {
        position,
        process: u32::from(process),
        row: u32::from(row),
        verdict: verdict_of(said),
        value: value_said(said),
    }
}
