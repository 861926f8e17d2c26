// The lines of an outcome (R190 to R196), for every program that prints one, or a part of one: each is a value that prints itself,
// with no newline behind it (R196). `Text` is what a program makes them in.
//
// What one line says is promised (`specs/Text.antt`). Which lines an outcome has is not: of `Lines` no more is promised than that
// nothing goes wrong, and what it prints is held against an independent program's text by the comparison of `second/`.
#![tactic(auto)]

mod text;

ghost use Rattle.std.specs.Prelude.{Some};
ghost use Rattle.lines.specs.Text.{word_text, row_text, header_text};

use run::Counts;
use runfile::{Header, Refused};
use std::fmt;
use std::fmt::Display;
pub use text::Text;

// The line of a word: its number, its value and its flip bits as one number (R192).
#[derive(Clone, Copy, Debug, PartialEq, Eq)]
pub struct WordLine {
    pub number: usize,
    pub word: u64,
}

impl fmt::Display for WordLine {
    ghost output = { λ line. Some (word_text line) };

    fn fmt<W: fmt::Write>(&self, f: &mut fmt::Formatter<W>) -> fmt::Result {
        let value = word::value_of(self.word);
        let flips = word::flips_of(self.word);
        // By `itoa`, as a row's: with `write!` a file of many words and no rows takes up to 1.7 times the instructions.
        let mut digits = itoa::Buffer::new();
        f.write_str("word ")?;
        f.write_str(digits.format(self.number))?;
        f.write_str(" ")?;
        f.write_str(digits.format(value))?;
        f.write_str(" ")?;
        f.write_str(digits.format(flips))
    }
}

// The line of a log or answer row: its name, and the five numbers that the slice begins with (R193, R194). Fewer are no row, and
// nothing is written.
#[derive(Clone, Copy, Debug, PartialEq, Eq)]
pub struct RowLine<'a> {
    pub name: &'a str,
    pub numbers: &'a [u32],
}

impl fmt::Display for RowLine<'_> {
    ghost output = { λ line. Some (row_text line) };

    fn fmt<W: fmt::Write>(&self, f: &mut fmt::Formatter<W>) -> fmt::Result {
        let Some(numbers) = self.numbers.first_chunk::<5>() else {
            return Ok(());
        };
        // By `itoa`: rows are nearly all that a program prints, and with `write!` the whole program takes up to 1.4 times as long.
        let mut digits = itoa::Buffer::new();
        f.write_str(self.name)?;
        for &number in numbers {
            f.write_str(" ")?;
            f.write_str(digits.format(number))?;
        }
        Ok(())
    }
}

// The first line of a run: P, W, the number of rows and S, as the header has them (R191).
#[derive(Clone, Copy, Debug, PartialEq, Eq)]
pub struct HeaderLine(pub Header);

impl fmt::Display for HeaderLine {
    ghost output = { λ line. Some (header_text line) };

    fn fmt<W: fmt::Write>(&self, f: &mut fmt::Formatter<W>) -> fmt::Result {
        let header = self.0;
        write!(
            f,
            "run {} {} {} {}",
            header.processes, header.words, header.rows, header.steps
        )
    }
}

// All lines of what a run came to, from the file, the outcome, and what stands in the lent buffers after it: the header's line, then
// a line for each word, each log row and each answer row (R191 to R194), or the one line of a refusal (R195). The buffers may hold
// more than the run has.
#[derive(Clone, Copy, Debug, PartialEq, Eq)]
pub struct Lines<'a> {
    pub file: &'a [u8],
    pub outcome: Result<Counts, Refused>,
    pub words: &'a [u64],
    pub log: &'a [u32],
    pub answers: &'a [u32],
}

impl fmt::Display for Lines<'_> {
    fn fmt<W: fmt::Write>(&self, f: &mut fmt::Formatter<W>) -> fmt::Result {
        match self.outcome {
            Err(refused) => refused.fmt(f),
            Ok(counts) => {
                let header = runfile::header_or_zeros(self.file);
                HeaderLine(header).fmt(f)?;
                write_words(f, self.words, usize::from(header.words))?;
                write_rows(f, "log", self.log, counts.log)?;
                write_rows(f, "answer", self.answers, counts.answers)
            }
        }
    }
}

// Writes the lines of the first `count` words, each behind a newline.
fn write_words<W: fmt::Write>(
    f: &mut fmt::Formatter<W>,
    words: &[u64],
    count: usize,
) -> fmt::Result {
    for (number, &word) in words.iter().take(count).enumerate() {
        f.write_str("\n")?;
        WordLine { number, word }.fmt(f)?;
    }
    Ok(())
}

// Writes the lines of the first `count` rows, each behind a newline: a row has five numbers.
fn write_rows<W: fmt::Write>(
    f: &mut fmt::Formatter<W>,
    name: &str,
    rows: &[u32],
    count: usize,
) -> fmt::Result {
    for numbers in rows.chunks_exact(5).take(count) {
        f.write_str("\n")?;
        RowLine { name, numbers }.fmt(f)?;
    }
    Ok(())
}
