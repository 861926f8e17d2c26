// Which records the panel refuses under 21, condition by condition (R231b to R231i), as specs/Possible has them.
ghost use Rattle.std.specs.Prelude.{◌≡◌, ℕ, Some};
ghost use Rattle.panel.specs.Possible as possible;

use machine::{Answer, Process, Stage, Status};
use runfile::Kind;

// Whether the kind has the stage (R231h).
fn has_stage(kind: Kind, stage: Stage) -> bool
    ensures { result ≡ possible.has_stage kind stage }
{
    match kind {
        Kind::Read => matches!(
            stage,
            Stage::A1 | Stage::A5 | Stage::A6 | Stage::V1 | Stage::V2 | Stage::V5 | Stage::V6
        ),
        Kind::Compare | Kind::Advance => true,
    }
}

// Whether the kind gives the answer, where there is one: a read and an advance give what a word can hold (R231i).
fn has_answer(kind: Kind, answer: Option<Answer>) -> bool
    ensures { result ≡ possible.has_answer kind answer }
{
    let Some(said) = answer else {
        return true;
    };
    match (kind, said) {
        (Kind::Read, Answer::Value(v)) | (Kind::Advance, Answer::Was(v)) => {
            word::value_of(u64::from(v)) == v
        }
        (Kind::Compare, Answer::False | Answer::True) => true,
        _ => false,
    }
}

// The open row is another than the last one begun (R231c). The sums are taken wide, since a lent record may hold any numbers.
fn not_last(first: u16, process: Process) -> bool
    ensures { result ≡ possible.not_last first process.begun process.opened }
{
    let begun = process.begun;
    process.opened.is_some_and(|k| {
        begun == 0 || u32::from(k) + 1 != u32::from(first) + u32::from(begun)
    })
}

// A row is open where none can be: idle, at N2 or at N3 (R231d).
fn open_while(process: Process) -> bool
    ensures { result ≡ possible.open_while process.opened process.status }
{
    process.opened.is_some() && matches!(process.status, Status::Idle | Status::N2 | Status::N3)
}

// No row is open in the midst of work (R231e).
fn none_at(process: Process) -> bool
    ensures { result ≡ possible.none_at process.opened process.status }
{
    process.opened.is_none() && matches!(process.status, Status::Busy { .. })
}

// At N2 or N3 there is no row to announce (R231f).
fn none_left(count: u16, process: Process) -> bool
    ensures { result ≡ possible.none_left count process.begun process.status }
{
    matches!(process.status, Status::N2 | Status::N3) && count <= process.begun
}

// The stage needs an answer and there is none: A5 and A6 need the answer to store, V5 the stored one (R231g).
pub fn no_answer(process: Process) -> bool
    ensures { result ≡ possible.no_answer process.stored process.status }
{
    match process.status {
        Status::Busy {
            stage: Stage::A5 | Stage::A6,
            answer,
            ..
        } => answer.is_none(),
        Status::Busy {
            stage: Stage::V5,
            ..
        } => process.stored.is_none(),
        _ => false,
    }
}

// The kind of the row has no such stage (R231h), or gives no such answer to store (R231i).
fn wrong_work(kind: Kind, status: Status) -> bool
    ensures { result ≡ possible.wrong_work kind status }
{
    match status {
        Status::Busy { stage, answer, .. } => !has_stage(kind, stage) || !has_answer(kind, answer),
        _ => false,
    }
}

// What is wrong with a record by its counts and its open row.
#[tactic(auto, unfolding(crate::specs::Possible::misplaced))]
pub fn misplaced(first: u16, count: u16, process: Process) -> bool
    ensures { result ≡ possible.misplaced first count process }
{
    count < process.begun
        || not_last(first, process)
        || open_while(process)
        || none_at(process)
        || none_left(count, process)
}

// What is wrong with what it does on the row that is open, of this kind: its work, or the answer that is stored (R231i).
pub fn wrong_kind(kind: Kind, process: Process) -> bool
    ensures { (k : ℕ) → result ≡ possible.wrong_kind kind (Some k) process.stored process.status }
{
    !has_answer(kind, process.stored) || wrong_work(kind, process.status)
}
