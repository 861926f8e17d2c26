// What the panel says on standard error where it cannot begin: what failed, and why, in the system's words.
use lines::Text;
use std::env::FillError;
use std::fmt::Write;
use std::io::{Error, Print};

// Why an argument was not had.
pub fn reason_of(error: FillError) -> &'static str {
    match error {
        FillError::NotPresent => "Invalid argument",
        FillError::TooLong => "File name too long",
    }
}

// Says that something failed, and why. What failed may be a name that is no text. There is room for a name of 4,096 bytes and a
// reason of 128.
pub fn complain(to: &impl Print, what: &[u8], why: &str) {
    let mut out = [0; 4352];
    let mut line = Text::new(&mut out);
    line.put(what);
    let _ = writeln!(line, ": {why}");
    line.write(to);
}

// The system's words alone: behind them std puts the number of the error in brackets.
fn without_number(said: &str) -> &str {
    match said.split_once(" (os error ") {
        Some((words, _)) => words,
        None => said,
    }
}

// Likewise, where a call of the system failed.
pub fn complain_of(to: &impl Print, what: &[u8], error: Error) {
    let mut out = [0; 128];
    let mut said = Text::new(&mut out);
    let _ = write!(said, "{error}");
    if let Ok(words) = std::str::from_utf8(said.as_bytes()) {
        complain(to, what, without_number(words));
    }
}
