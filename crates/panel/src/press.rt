// One key over a table of sixteen records by value: judged (R220), and run as a schedule of one byte (R202).
ghost use Rattle.panel.specs.Promises.{PressedOn};

use super::judge::verdict_of;
use super::{Refused, Stroke, Table};
use engine::{Part, Standing};
use runfile::{Operations, Room};

pub fn press(
    file: &[u8],
    table: Table,
    words: &mut [u64],
    log: &mut [u32],
    answers: &mut [u32],
    key: Stroke,
) -> Result<Standing, Refused>
    ensures { PressedOn file.now table words.old log.old answers.old key result words.new log.new answers.new }
{
    let room = Room {
        words: words.len(),
        log: log.len(),
        answers: answers.len(),
    };
    let header = verdict_of(file, table, room, key)?;
    let processes = table.processes;
    let part = Part {
        present: usize::from(header.processes),
        from: Standing {
            processes,
            position: key.position,
            counts: key.counts,
        },
    };
    let operations = Operations::of(file, header);
    Ok(engine::run_bytes(operations, &[key.byte], words, log, answers, part))
}
