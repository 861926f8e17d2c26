// The sweep: a stream of run files comes in on standard input, and the outcome of each goes out as lines of text, with a
// sum over everything that stands in its lent buffers afterwards. It answers a stream as `second sweep` does.
//
// A record of the stream is four little-endian 32-bit numbers, the length of the file and of the words, log and
// answers buffers, and then the bytes of the file. A stream may end only between two records. At a record that is cut
// off, or that asks for more than the program has, the program says so on standard error and stops; the outcomes of
// the records before it are out by then. Its exit status does not tell a damaged stream from a whole one.
#![tactic(auto)]

mod buffers;

use buffers::{fill, sum_over, sum_over_words};
use lines::{Lines, Text};
use std::fmt::Write;
use std::io::Read;

// What the first number of the words buffer is before a run: 3,235,774,464 in both halves.
const FIRST_WORD: u64 = 3235774464 * 4294967296 + 3235774464;

// The stream is damaged: why the sweep stops before its end.
#[derive(Clone, Copy, Debug, PartialEq, Eq)]
struct Damaged;

// The four numbers that a record begins with.
#[derive(Clone, Copy, Debug)]
struct Lengths {
    file: usize,
    words: usize,
    log: usize,
    answers: usize,
}

// Reads the four numbers of the next record, or finds that the stream ends. By `as`: to a length there is no `From`.
fn next_lengths<R: Read>(from: &mut R) -> Result<Option<Lengths>, Damaged> {
    let mut head = [0u8; 16];
    match input::read_full(from, &mut head) {
        0 => Ok(None),
        16 => Ok(Some(Lengths {
            file: runfile::u32_at(&head, 0) as usize,
            words: runfile::u32_at(&head, 4) as usize,
            log: runfile::u32_at(&head, 8) as usize,
            answers: runfile::u32_at(&head, 12) as usize,
        })),
        _ => Err(Damaged),
    }
}

// Room for a record's file and its buffers, as much as a record may ask for, and the text of its outcome.
#[derive(Drop)]
struct Bench<'a> {
    file: [u8; 8000],
    words: [u64; 40],
    log: [u32; 5200],
    answers: [u32; 5200],
    text: Text<'a>,
}

impl<'a> Bench<'a> {
    fn new(out: &'a mut [u8]) -> Bench<'a> {
        Bench {
            file: [0; 8000],
            words: [0; 40],
            log: [0; 5200],
            answers: [0; 5200],
            text: Text::new(out),
        }
    }

    // Reads the file of a record, runs it over buffers of just the lengths that the record gives, and makes the text of its
    // outcome. What the buffers hold before the run is known, so that the sum tells a number that a run should have left alone.
    fn carry_out<R: Read>(&mut self, from: &mut R, lengths: Lengths) -> Result<(), Damaged> {
        let file = self.file.get_mut(..lengths.file).ok_or(Damaged)?;
        let words = self.words.get_mut(..lengths.words).ok_or(Damaged)?;
        let log = self.log.get_mut(..lengths.log).ok_or(Damaged)?;
        let answers = self.answers.get_mut(..lengths.answers).ok_or(Damaged)?;
        if input::read_full(from, file) < file.len() {
            return Err(Damaged);
        }
        fill(words, FIRST_WORD);
        fill(log, 274726912);
        fill(answers, 2768240640);
        let outcome = run::run(file, words, log, answers);
        let sum = sum_over(sum_over(sum_over_words(1, words), log), answers);
        let lines = Lines {
            file,
            outcome,
            words,
            log,
            answers,
        };
        self.text.clear();
        let _ = write!(self.text, "{lines}\nsum {sum}\n");
        Ok(())
    }
}

// Goes through the stream, and writes each outcome in one call. A stream that never ends is left after 2^32 - 1 records, since every
// Rattle program ends.
fn sweep<R: Read>(from: &mut R, to: &impl Print, bench: &mut Bench<'_>) -> Result<(), Damaged> {
    for _ in 0..u32::MAX {
        let Some(lengths) = next_lengths(from)? else {
            break;
        };
        bench.carry_out(from, lengths)?;
        bench.text.write(to);
    }
    Ok(())
}

fn main(rt: HostRuntime) {
    // Room for the longest outcome (62,963 bytes, see `swr`) and its line of the sum.
    let mut out = [0; 65536];
    let mut bench = Bench::new(&mut out);
    if let Err(Damaged) = sweep(&mut rt.reader(), &rt, &mut bench) {
        // On standard error: standard output has outcomes and nothing else.
        let _ = eprintln!(rt; "sweep: the stream is damaged");
    }
}
