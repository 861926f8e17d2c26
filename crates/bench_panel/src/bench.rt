// The panel over a run file that is accepted: what it has between two keys, and how it takes one.
ghost use Rattle.bench_panel.specs.Promises.{Carried, Lends, Stays};

use super::changes::Change;
use lines::{HeaderLine, Text, WordLine};
use machine::Process;
use panel::{Refused, Stroke};
use run::Counts;
use runfile::Header;
use std::fmt;
use std::fmt::Write;
use std::io::Print;

// Room for 1,024 rows of a kind: a key at a position over 1,023 is refused, and a key adds one row at most.
const ROOM: usize = 5 * 1024;

// A key that is pressed: its position, and its byte.
#[derive(Clone, Copy, Debug, PartialEq, Eq)]
struct Key {
    position: usize,
    byte: u8,
}

// What it is, and what it does, by its high four bits (R301); those that give no action do nothing (R72).
impl fmt::Display for Key {
    fn fmt<W: fmt::Write>(&self, f: &mut fmt::Formatter<W>) -> fmt::Result {
        let Key { position, byte } = *self;
        write!(f, "key {position} {byte:02x} ")?;
        let q = byte % 16;
        match byte / 16 {
            0 => write!(f, "step {q}"),
            1 => write!(f, "crash {q}"),
            2 => write!(f, "wake {q}"),
            3..=14 => f.write_str("none"),
            _ => f.write_str("crash all"),
        }
    }
}

// The bench between two keys: the records, the words, the position of the next key, and how many rows stand in the log
// and in the answers.
#[derive(Clone, Copy)]
pub struct Bench {
    pub records: [Process; 16],
    pub words: [u64; 16],
    pub position: usize,
    pub counts: Counts,
}

// The panel's file, its bench, the rows themselves, and the lines of one key.
#[derive(Drop)]
pub struct BenchPanel<'a> {
    file: &'a [u8],
    bench: Bench,
    log: [u32; ROOM],
    answers: [u32; ROOM],
    text: Text<'a>,
}

impl<'a> BenchPanel<'a> {
    // All processes idle, nothing logged and nothing answered.
    pub fn new(file: &'a [u8], words: [u64; 16], text: Text<'a>) -> BenchPanel<'a> {
        let bench = Bench {
            records: [Process::fresh(); 16],
            words,
            position: 0,
            counts: Counts { log: 0, answers: 0 },
        };
        BenchPanel {
            file,
            bench,
            log: [0; ROOM],
            answers: [0; ROOM],
            text,
        }
    }

    // Writes the lines in one call, and has none left.
    fn write(&mut self, to: &impl Print) {
        self.text.write(to);
        self.text.clear();
    }

    // Puts the line of the header, and of each word that the file starts from.
    fn put_start(&mut self, header: Header) -> fmt::Result {
        writeln!(self.text, "{}", HeaderLine(header))?;
        let count = usize::from(header.words);
        for (number, &word) in self.bench.words.iter().take(count).enumerate() {
            writeln!(self.text, "{}", WordLine { number, word })?;
        }
        Ok(())
    }

    // Writes the header, and the words that the file starts from.
    pub fn show_start(&mut self, to: &impl Print, header: Header) {
        let _ = self.put_start(header);
        self.write(to);
    }

    // Lends the bench's own records and words, and the rows, to `panel::key` for one key.
    fn lend_records(&mut self, key: Stroke) -> Result<Counts, Refused>
        ensures lends { Lends self.old key result self.new }
        ensures stays { Stays self.old self.new }
    {
        panel::key(
            self.file,
            &mut self.bench.records,
            &mut self.bench.words,
            &mut self.log,
            &mut self.answers,
            key,
        )
    }

    // Carries out a key, at the next position. Where it is refused the bench stays as it is.
    fn carry_out(&mut self, byte: u8) -> Result<(), Refused>
        ensures { Carried self.old byte result self.new }
    {
        let position = self.bench.position;
        let key = Stroke {
            byte,
            position,
            counts: self.bench.counts,
        };
        self.bench.counts = self.lend_records(key)?;
        self.bench.position = position + 1;
        Ok(())
    }

    // Carries out a key, and puts its lines: the first, and then the refusal, or what changed.
    fn put_key(&mut self, byte: u8) -> fmt::Result {
        let before = self.bench;
        let position = before.position;
        let outcome = self.carry_out(byte);
        writeln!(self.text, "{}", Key { position, byte })?;
        match outcome {
            Err(refused) => writeln!(self.text, "{refused}"),
            Ok(()) => {
                let change = Change {
                    byte,
                    before,
                    after: self.bench,
                    log: &self.log,
                    answers: &self.answers,
                };
                change.put(&mut self.text)
            }
        }
    }

    // Carries out a key, and writes its lines.
    pub fn press(&mut self, to: &impl Print, byte: u8) {
        let _ = self.put_key(byte);
        self.write(to);
    }
}
