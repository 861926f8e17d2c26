// The whole: a run file is refused, and nothing is touched (R34), or it is run (R241).
#![tactic(auto)]

mod load;

ghost use Rattle.runfile.specs.Lawful.{Lawful};
ghost use Rattle.std.specs.Prelude.{◌≡◌, length};
ghost use Rattle.engine.specs.Part.{Holds};
ghost use Rattle.run.specs.Run.{end_of, room_of, Ends, EndsAs};

use engine::{Part, Standing};
pub use load::load_words;
use machine::Process;
pub use rows::Counts;
use runfile::{Header, Operations, Refused, Room};

// Runs a file that is not refused over as many words as it has: the start words are loaded, and the schedule, lent on
// as the tail of the file (R304), runs over them from position 0 on, with all idle (R181).
fn run_words(
    file: &[u8],
    header: Header,
    words: &mut [u64],
    log: &mut [u32],
    answers: &mut [u32],
) -> Counts
    requires { (length words.old ≡ header.words) × Lawful header file.now (room_of words.old log.old answers.old) }
    ensures { Holds (end_of header file.now) log.old answers.old result.log result.answers words.new log.new answers.new }
{
    load_words(file, header, words);
    let part = Part {
        present: usize::from(header.processes),
        from: Standing {
            processes: [Process::fresh(); 16],
            position: 0,
            counts: Counts { log: 0, answers: 0 },
        },
    };
    let operations = Operations::of(file, header);
    let start = header.schedule_start();
    let left = engine::run_bytes(operations, &file[start..], words, log, answers, part);
    left.counts
}

// Runs a file that is not refused: only the first W numbers of the words buffer are lent on (R182).
fn run_accepted(
    file: &[u8],
    header: Header,
    words: &mut [u64],
    log: &mut [u32],
    answers: &mut [u32],
) -> Counts
    requires { Lawful header file.now (room_of words.old log.old answers.old) }
    ensures { EndsAs (Ok header) file.now words.old log.old answers.old
        (Ok result) words.new log.new answers.new }
{
    let count = usize::from(header.words);
    run_words(file, header, &mut words[..count], log, answers)
}

// Runs a run file over the three lent buffers (R180, R302), or refuses it and leaves them untouched (R34). How many rows stand in
// the log and in the answers is answered (R185). Nothing is asked of the caller.
pub fn run(
    file: &[u8],
    words: &mut [u64],
    log: &mut [u32],
    answers: &mut [u32],
) -> Result<Counts, Refused>
    ensures { Ends file.now words.old log.old answers.old result words.new log.new answers.new }
{
    let room = Room {
        words: words.len(),
        log: log.len(),
        answers: answers.len(),
    };
    let header = runfile::check(file, room)?;
    Ok(run_accepted(file, header, words, log, answers))
}
