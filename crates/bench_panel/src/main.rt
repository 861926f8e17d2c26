// The bench panel: the argument names a run file, keys come in on standard input, one a line, and what each key changed
// goes out as lines of text. docs/PANEL.md has the lines (R209).
//
// The records stand in a list of the program's own, and are lent to `panel::key` for one byte, which is proved against the
// machine's own step. Nothing is stepped here; what changed is read off the bench before the key and the bench after it.
#![tactic(auto)]

mod bench;
mod changes;
mod complaint;
mod record;
mod typed;

ghost use Rattle.runfile.specs.Lawful.{LawfulFile};

use bench::BenchPanel;
use complaint::{complain, complain_of, reason_of};
use lines::Text;
use runfile::Header;
use std::fs::File;
use std::io::{Print, Read};
use std::rt::Env;
use typed::Typed;

// The words that the file starts from.
fn start_words(file: &[u8], header: Header) -> [u64; 16]
    requires { LawfulFile header file.now }
{
    let count = usize::from(header.words);
    let mut words = [0u64; 16];
    run::load_words(file, header, &mut words[..count]);
    words
}

// Does what line after line asks for. After 2^64 - 1 of them the panel is closed, since every Rattle program ends.
fn take_lines<R: Read>(keys: &mut R, to: &impl Print, panel: &mut BenchPanel<'_>) {
    for entry in Typed::new(keys).take(usize::MAX) {
        match entry {
            Ok(None) => {}
            Ok(Some(byte)) => panel.press(to, byte),
            Err(no_key) => {
                let _ = println!(to; "{no_key}");
            }
        }
    }
}

// The panel over a file that is accepted. Not part of `main`, so that a panel that does not begin has no room on the stack for it.
#[inline(never)]
fn start<R: Read>(keys: &mut R, to: &impl Print, file: &[u8], header: Header, words: [u64; 16]) {
    // Room for the lines of a key, whatever it changes: a first line of at most 22 bytes; seven of at most 176 together for each of
    // sixteen processes; one of 30 for each of sixteen words; a log row of 37 and an answer row of 32. That is 3,387 bytes.
    let mut out = [0; 4096];
    let mut panel = BenchPanel::new(file, words, Text::new(&mut out));
    panel.show_start(to, header);
    take_lines(keys, to, &mut panel);
}

// Judges the file, as the panel does at each key (R221), and is the panel over it.
fn open<R: Read>(keys: &mut R, to: &impl Print, file: &[u8]) {
    match runfile::check_file(file) {
        Err(refused) => {
            let _ = println!(to; "{refused}");
        }
        Ok(header) => {
            let words = start_words(file, header);
            start(keys, to, file, header, words);
        }
    }
}

// Opens the run file of this name, and is the panel over it. A name is text; one that is not is refused.
fn open_named(rt: &HostRuntime, name: &[u8]) {
    let Ok(path) = std::str::from_utf8(name) else {
        return complain(&rt.stderr(), name, "the name is not UTF-8");
    };
    match File::open(rt, path) {
        Err(error) => complain_of(&rt.stderr(), name, error),
        Ok(mut from) => {
            let mut file = [0u8; runfile::ENOUGH_BYTES];
            let n = input::read_file(&mut from, &mut file);
            drop(from);
            open(&mut rt.reader(), rt, &file[..n]);
        }
    }
}

fn main(rt: HostRuntime) {
    // A buffer, since std fills one that is lent, and tells a name that is longer.
    let mut path = [0u8; 4096];
    match rt.arg(1, &mut path) {
        Err(error) => complain(
            &rt.stderr(),
            b"panel: the run file's name",
            reason_of(error),
        ),
        Ok(length) => open_named(&rt, &path[..length]),
    }
}
