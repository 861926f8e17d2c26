// What the stages of an operation, A1 to A5, do with the word and the log.
ghost use Rattle.std.specs.Prelude.{◌≡◌};
ghost use Rattle.machine.specs.Reach.{Reach, Looked};
ghost use Rattle.machine.specs.Promises.{WordNow, WordStored, AfterRead, FalseAt, Enterable, Entered};

use super::records::busy;
use super::said::entry_of;
use super::{Answer, Stage, Status, Work};
use rows::{Entries, Rows, Sought};
use runfile::{Kind, Operations, Row};

// The word that row k is on, as it stands now.
pub fn word_now(operations: Operations, k: usize, words: &[u64]) -> u64
    requires { Reach operations.stride operations.table.now k words.now }
    ensures { WordNow operations.entry.stride operations.entry.table.now k words.now result }
{
    words[usize::from(operations.word(k))]
}

// Puts a number into the word that row k is on.
pub fn store_word(operations: Operations, k: usize, words: &mut [u64], new: u64)
    requires { Reach operations.stride operations.table.now k words.old }
    ensures { WordStored operations.entry.stride operations.entry.table.now k words.old new words.new }
{
    words[usize::from(operations.word(k))] = new;
}

// A1, once the word is read at this position: a read is done, and so is a compare that meets another value; an
// advance always goes on (R111).
pub fn after_read(row: Row, word: u64, position: u16) -> Status
    ensures { AfterRead row word position result }
{
    let done = |answer| busy(Stage::A5, word, position, 0, Some(answer));
    let value = word::value_of(word);
    match row.kind_of() {
        Kind::Read => done(Answer::Value(value)),
        Kind::Compare if value != row.old => done(Answer::False),
        Kind::Compare | Kind::Advance => busy(Stage::A2, word, position, 0, None),
    }
}

// The position with which a false enters the log: a lost swap, which had read old, takes that of the swap that beat it
// (R167, R168); any other that of its A1 (R166).
#[tactic(auto, unfolding(crate::specs::Promises::false_at))]
fn false_at(operations: Operations, log: Rows, work: Work) -> u32
    requires { Looked operations.stride operations.table.now operations.count work.row log.numbers.now log.count }
    ensures { FalseAt operations.entry.stride operations.entry.table.now operations.entry.count log.entry.numbers.now log.entry.count work result }
{
    let row = operations.row(usize::from(work.row));
    let read_at = u32::from(work.read_at);
    if word::value_of(work.seen) == row.old {
        let sought = Sought {
            word: row.word,
            after: read_at,
            none: u32::from(work.tried_at),
        };
        return log.first_swap_after(operations, sought);
    }
    read_at
}

// A5: puts into the log what it gets of the answer that is stored (R164 to R167).
pub fn enter(operations: Operations, log: &mut Entries, work: Work)
    requires { Enterable operations.stride operations.table.now operations.count work.row log.old.numbers.now log.old.count }
    ensures same_buffer { log.new.numbers.ghost_name ≡ log.old.numbers.ghost_name }
    ensures entered { Entered operations.entry.stride operations.entry.table.now operations.entry.count log.old.numbers.now log.old.count work log.new.count log.new.numbers.now }
{
    let Some(said) = work.answer else {
        return;
    };
    match said {
        Answer::True | Answer::Was(_) => {}
        Answer::Value(_) => {
            let at = u32::from(work.read_at);
            let read = entry_of(at, work.process, work.row, work.answer);
            log.insert(read);
        }
        Answer::False => {
            let at = false_at(operations, log.rows(), work);
            let lost = entry_of(at, work.process, work.row, work.answer);
            log.insert(lost);
        }
    }
}
