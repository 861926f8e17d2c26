// The program: a run file comes in on standard input, and its outcome goes out as lines of text (R190).
#![tactic(auto)]

use lines::{Lines, Text};
use std::fmt::Write;

fn main(rt: HostRuntime) {
    // Room for every outcome. The longest lines: `run` 19 bytes; `word` 30 (value and flip bits up to 4,294,967,295 each), at most
    // 16 times; `log` 29 and `answer` 32 (a position below 1,024, a process below 16, a row below 512, one digit, a value up to
    // 4,294,967,295), each at most 1,024 times. That is 62,963 bytes. The room is declared first, since an array behind
    // the others is filled with zeros twice.
    let mut out = [0u8; 65536];
    let mut room = [0u8; runfile::ENOUGH_BYTES];
    let n = input::read_file(&mut rt.reader(), &mut room);
    let file = &room[..n];
    // The buffers have room for 16 words and 1,024 rows of each kind, the most that a run file may ask for, so a run is never
    // refused for want of room.
    let mut words = [0; 16];
    let mut log = [0; 5120];
    let mut answers = [0; 5120];
    let outcome = run::run(file, &mut words, &mut log, &mut answers);
    let lines = Lines {
        file,
        outcome,
        words: &words,
        log: &log,
        answers: &answers,
    };
    let mut text = Text::new(&mut out);
    let _ = write!(text, "{lines}\n");
    text.write(&rt);
}
