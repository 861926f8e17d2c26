// The lines of what a key changed, read off the bench before it and the bench after it.
use super::bench::Bench;
use super::record::put_record;
use lines::{RowLine, Text, WordLine};
use std::fmt;
use std::fmt::Write;

// A key's byte, the bench before it and after it, and the rows of the log and of the answers after it.
#[derive(Clone, Copy)]
pub struct Change<'a> {
    pub byte: u8,
    pub before: Bench,
    pub after: Bench,
    pub log: &'a [u32],
    pub answers: &'a [u32],
}

impl Change<'_> {
    fn put_records(&self, text: &mut Text<'_>) -> fmt::Result {
        let pairs = self.before.records.iter().zip(&self.after.records);
        for (q, (&before, &after)) in pairs.enumerate() {
            put_record(text, q, before, after)?;
        }
        Ok(())
    }

    fn put_words(&self, text: &mut Text<'_>) -> fmt::Result {
        let pairs = self.before.words.iter().zip(&self.after.words);
        for (number, (&before, &word)) in pairs.enumerate() {
            if before != word {
                writeln!(text, "{}", WordLine { number, word })?;
            }
        }
        Ok(())
    }

    // The row that the process of the byte has open. It is this row that enters the log at the byte, if any does.
    fn open_row(&self) -> u32 {
        let process = self.before.records[usize::from(self.byte % 16)];
        u32::from(process.open_row())
    }

    // Puts the line of a row that has entered the log, if one has, and how many rows stand in front of it. An operation stands
    // in the log once. Nearly every row enters at the end, so the search begins there.
    fn put_logged(&self, text: &mut Text<'_>) -> fmt::Result {
        if self.after.counts.log == self.before.counts.log {
            return Ok(());
        }
        let (rows, _) = self.log.as_chunks::<5>();
        let entered = self.open_row();
        let place = rows
            .iter()
            .take(self.after.counts.log)
            .rposition(|row| row[2] == entered)
            .unwrap_or(0);
        if let Some(numbers) = rows.get(place) {
            let name = "log";
            writeln!(text, "{} at {place}", RowLine { name, numbers })?;
        }
        Ok(())
    }

    // Puts the line of an answer row that has been added, behind those that were there before.
    fn put_answered(&self, text: &mut Text<'_>) -> fmt::Result {
        if self.after.counts.answers == self.before.counts.answers {
            return Ok(());
        }
        let (rows, _) = self.answers.as_chunks::<5>();
        if let Some(numbers) = rows.get(self.before.counts.answers) {
            let name = "answer";
            writeln!(text, "{}", RowLine { name, numbers })?;
        }
        Ok(())
    }

    // Puts the lines of everything that the byte changed; where that is nothing, a line that says so.
    pub fn put(&self, text: &mut Text<'_>) -> fmt::Result {
        let begun = text.len();
        self.put_records(text)?;
        self.put_words(text)?;
        self.put_logged(text)?;
        self.put_answered(text)?;
        if text.len() == begun {
            text.write_str("nothing\n")?;
        }
        Ok(())
    }
}
