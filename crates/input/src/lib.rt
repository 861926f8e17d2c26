// How a program reads a run file.
#![tactic(auto)]

ghost use Rattle.std.specs.Counts.{IsPrefixLen};
ghost use Rattle.std.specs.Io.KnownBytes.{Consumes};
ghost use Rattle.std.specs.Prelude.{take};
ghost use Rattle.input.specs.Promises.{Reads};

use std::io::Read;

// Reads until the buffer is full, the input ends or a read fails, and answers how many bytes stand in front. They are the next
// that the reader had, and it has lost just those. An empty buffer is answered without a read. A loop, since no method of
// std says how many bytes were had where a read fails.
pub fn read_full<R: Read>(from: &mut R, buffer: &mut [u8]) -> usize
    ensures within { IsPrefixLen result buffer.new }
    ensures bytes { Consumes (R.remaining from.old) (R.remaining from.new) (take result buffer.new) }
{
    let mut done = 0;
    while done < buffer.len() {
        match from.read(&mut buffer[done..]) {
            Ok(0) | Err(_) => break,
            Ok(n) => done += n,
        }
    }
    done
}

// Reads a run file, and answers how many bytes stand in front. Of a file that is longer than any run file the first bytes are
// read: with those it comes to what the whole file comes to (`first-bytes`, run/specs). The answer is not the slice that was read:
// a room that its result borrows has no value after the call that a contract could name.
pub fn read_file<R: Read>(from: &mut R, file: &mut [u8; runfile::ENOUGH_BYTES]) -> usize
    ensures within { Reads result file.new }
    ensures bytes { Consumes (R.remaining from.old) (R.remaining from.new) (take result file.new) }
{
    read_full(from, file)
}
