// The engine: a part of a schedule, run over lent buffers. Schedules are run here and nowhere else: each byte as R70 to
// R173 say, with the small functions of the crate `machine` and, for the log, of `rows`. The whole run is all of the
// schedule from position 0 and fresh records on (R181); a key of the panel is a part of one byte (R202).
#![tactic(auto)]

ghost use Rattle.engine.specs.Part.{Runnable, Runs};

use machine::{
    Process, Stage, Status, Work, after_loss, after_read, busy, by_bit, by_checkpoint, crash_first,
    enter, entry_of, keep, put_in, recovered_of, reply_of, store_word, swap_says, word_now,
};
use rows::{Counts, Entries};
use runfile::Operations;

// Where a run stands: the records, of which the first P are processes, the position of the next byte, and how many
// rows stand in the log and in the answers.
#[derive(Clone, Copy, Debug, PartialEq, Eq)]
pub struct Standing {
    pub processes: [Process; 16],
    pub position: usize,
    pub counts: Counts,
}

// What a part of a schedule is run with, beside what is lent: how many of the records are processes, and where the run
// stands.
#[derive(Clone, Copy, Debug, PartialEq, Eq)]
pub struct Part {
    pub present: usize,
    pub from: Standing,
}

// Runs the bytes of `schedule`. Each way through the loop reads and stores only what it needs of the named record, and so
// moves no more. The three buffers are lent one by one, as slices (R302).
pub fn run_bytes(
    operations: Operations,
    schedule: &[u8],
    words: &mut [u64],
    log: &mut [u32],
    answers: &mut [u32],
    part: Part,
) -> Standing
    requires { Runnable part operations schedule.now words.old log.old answers.old }
    ensures { Runs part operations.entry schedule.now words.old log.old answers.old
        result words.new log.new answers.new }
{
    let from = part.from;
    let counts = operations.counts();
    let firsts = runfile::firsts_of(counts);
    let mut processes = from.processes;
    let mut log = Entries {
        numbers: log,
        count: from.counts.log,
    };
    let mut answers = Entries {
        numbers: answers,
        count: from.counts.answers,
    };
    for (i, &byte) in schedule.iter().enumerate() {
        // Below 1,024, so `as` loses nothing; from an index there is no `From`.
        let position = (from.position + i) as u16;
        let me = byte % 16;
        let at = usize::from(me);
        // The action (R72, R301).
        match byte / 16 {
            // A step (R100).
            0 => match processes[at].status {
                // Nothing (R140).
                Status::Down => {}
                // N1 (R101), where rows are left (R141).
                Status::Idle => {
                    let process = processes[at];
                    if process.begun < counts[at] {
                        processes[at] = Process {
                            status: Status::N2,
                            stored: None,
                            ..process
                        };
                    }
                }
                // N2 (R102).
                Status::N2 => {
                    let process = processes[at];
                    processes[at] = Process {
                        status: Status::N3,
                        checkpoint: false,
                        ..process
                    };
                }
                // N3 (R103).
                Status::N3 => processes[at] = processes[at].start(firsts[at]),
                Status::Busy {
                    stage,
                    word: seen,
                    read_at,
                    tried_at,
                    answer,
                } => {
                    let row = processes[at].open_row();
                    let k = usize::from(row);
                    let number = u8::from(stage);
                    // The stage (R301).
                    match number {
                        // A1 (R111).
                        0 => {
                            let now = word_now(operations, k, words);
                            processes[at].status = after_read(operations.row(k), now, position);
                        }
                        // A2 (R112).
                        1 => {
                            let kind = operations.row(k).kind_of();
                            let turned = !word::bit_of(u32::from(me), seen);
                            let value = word::value_of(seen);
                            let process = processes[at];
                            processes[at] = Process {
                                status: busy(Stage::A3, seen, read_at, tried_at, answer),
                                kept: keep(kind, process.kept, turned, value),
                                ..process
                            };
                        }
                        // A3 (R113).
                        2 => {
                            let process = processes[at];
                            processes[at] = Process {
                                status: busy(Stage::A4, seen, read_at, tried_at, answer),
                                checkpoint: true,
                                ..process
                            };
                        }
                        // A4: the swap, with its log row, or lost (R114, R164).
                        3 => {
                            let operation = operations.row(k);
                            let kind = operation.kind_of();
                            let now = word_now(operations, k, words);
                            if now == seen {
                                let found = word::value_of(seen);
                                let yes = Some(swap_says(kind, found));
                                processes[at].status = busy(
                                    Stage::A5,
                                    seen,
                                    read_at,
                                    position,
                                    yes,
                                );
                                let mark = put_in(kind, operation.new, found);
                                let new = word::swapped_of(u32::from(me), mark, seen);
                                store_word(operations, k, words, new);
                                log.insert(entry_of(u32::from(position), me, row, yes));
                            } else {
                                processes[at].status = after_loss(kind, seen, read_at, position);
                            }
                        }
                        // A5, with the log row of any other answer (R115, R165 to R167).
                        4 => {
                            let process = processes[at];
                            processes[at] = Process {
                                status: busy(Stage::A6, seen, read_at, tried_at, answer),
                                stored: answer,
                                ..process
                            };
                            let work = Work {
                                process: me,
                                row,
                                seen,
                                read_at,
                                tried_at,
                                answer,
                            };
                            enter(operations, &mut log, work);
                        }
                        // V1 (R121).
                        6 => {
                            let next = recovered_of(processes[at].stored);
                            processes[at].status = busy(next, seen, read_at, tried_at, answer);
                        }
                        // V2 (R122).
                        7 => {
                            let next = by_checkpoint(processes[at].checkpoint);
                            processes[at].status = busy(next, seen, read_at, tried_at, answer);
                        }
                        // V3 (R123).
                        8 => {
                            let now = word_now(operations, k, words);
                            let next = by_bit(me, now, processes[at].kept.bit);
                            processes[at].status = busy(next, now, read_at, tried_at, answer);
                        }
                        // V4 (R124).
                        9 => {
                            let kind = operations.row(k).kind_of();
                            let process = processes[at];
                            processes[at] = Process {
                                status: busy(Stage::V5, seen, read_at, tried_at, answer),
                                stored: Some(swap_says(kind, process.kept.value)),
                                ..process
                            };
                        }
                        // A6, V5 and V6, with the answer row (R116, R125, R126, R163).
                        _ => {
                            let process = processes[at];
                            let said = reply_of(number, answer, process.stored);
                            processes[at] = Process {
                                status: Status::Idle,
                                opened: None,
                                ..process
                            };
                            answers.push(entry_of(u32::from(position), me, row, said));
                        }
                    }
                }
            },
            // A crash: it leaves a process that is down as it is (R130, R142).
            1 => processes[at].status = Status::Down,
            // A wake, of a process that is down (R131, R132, R143).
            2 => {
                if let Status::Down = processes[at].status {
                    match processes[at].opened {
                        None => processes[at].status = Status::Idle,
                        Some(_) => processes[at].status = busy(Stage::V1, 0, 0, 0, None),
                    }
                }
            }
            // No action: no such byte is accepted (R73).
            3..=14 => {}
            // A crash of all (R133).
            _ => processes = crash_first(processes, part.present),
        }
    }
    Standing {
        processes,
        position: from.position + schedule.len(),
        counts: Counts {
            log: log.count,
            answers: answers.count,
        },
    }
}
