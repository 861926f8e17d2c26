// The lines of what a key changed in one process's record. A line is put where what it shows is another than before.
use lines::Text;
use machine::{Answer, Process, Stage, Status};
use std::fmt;
use std::fmt::Write;

// The open row, as a line shows it.
#[derive(Clone, Copy, Debug, PartialEq, Eq)]
struct Row(Option<u16>);

impl fmt::Display for Row {
    fn fmt<W: fmt::Write>(&self, f: &mut fmt::Formatter<W>) -> fmt::Result {
        match self.0 {
            None => f.write_str("none"),
            Some(k) => write!(f, "{k}"),
        }
    }
}

// The stored answer, as a line shows it.
#[derive(Clone, Copy, Debug, PartialEq, Eq)]
struct Stored(Option<Answer>);

impl fmt::Display for Stored {
    fn fmt<W: fmt::Write>(&self, f: &mut fmt::Formatter<W>) -> fmt::Result {
        match self.0 {
            None => f.write_str("none"),
            Some(Answer::False) => f.write_str("false"),
            Some(Answer::True) => f.write_str("true"),
            Some(Answer::Value(value)) => write!(f, "value {value}"),
            Some(Answer::Was(value)) => write!(f, "was {value}"),
        }
    }
}

// The name of a stage; of the midst of work nothing else is shown.
fn name_of(status: Status) -> &'static str {
    match status {
        Status::Down => "down",
        Status::Idle => "idle",
        Status::N2 => "N2",
        Status::N3 => "N3",
        Status::Busy { stage, .. } => match stage {
            Stage::A1 => "A1",
            Stage::A2 => "A2",
            Stage::A3 => "A3",
            Stage::A4 => "A4",
            Stage::A5 => "A5",
            Stage::A6 => "A6",
            Stage::V1 => "V1",
            Stage::V2 => "V2",
            Stage::V3 => "V3",
            Stage::V4 => "V4",
            Stage::V5 => "V5",
            Stage::V6 => "V6",
        },
    }
}

// The records of process q before the key and after it, and the text in which their lines stand.
#[derive(Drop)]
struct Pair<'a, 'b> {
    text: &'a mut Text<'b>,
    q: usize,
    before: Process,
    after: Process,
}

impl Pair<'_, '_> {
    // Puts the line of what a record has under a name, where it is another than before.
    fn put<T, F>(&mut self, name: &str, of: F) -> fmt::Result
    where
        T: PartialEq + fmt::Display + Drop,
        F: Fn(Process) -> T,
        requires { F.IsAlwaysCallable of }
    {
        let q = self.q;
        let before = of(self.before);
        let after = of(self.after);
        if before != after {
            writeln!(self.text, "process {q} {name} {after}")?;
        }
        Ok(())
    }
}

// Puts the lines of process q: its record before the key, and after it. What A2 keeps is a bit and a value (R112).
pub fn put_record(text: &mut Text<'_>, q: usize, before: Process, after: Process) -> fmt::Result {
    let mut pair = Pair {
        text,
        q,
        before,
        after,
    };
    pair.put("stage", |record| name_of(record.status))?;
    pair.put("row", |record| Row(record.opened))?;
    pair.put("stored", |record| Stored(record.stored))?;
    pair.put("checkpoint", |record| u8::from(record.checkpoint))?;
    pair.put("kept", |record| u8::from(record.kept.bit))?;
    pair.put("kept value", |record| record.kept.value)?;
    pair.put("begun", |record| record.begun)
}
