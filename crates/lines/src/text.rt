// Text that is made in what is lent for it, piece behind piece. Nothing is asked of the caller and nothing fails: what has no room
// is left out.
ghost use Rattle.std.specs.Prelude.{◌≡◌, [], take, IsOk};
ghost use Rattle.lines.specs.Room.{Behind};

use std::fmt;
use std::io::Print;

#[derive(Drop)]
pub struct Text<'a> {
    room: &'a mut [u8],
    end: usize,
}

impl<'a> Text<'a> {
    // No text yet.
    pub fn new(room: &'a mut [u8]) -> Text<'a>
        ensures room { result.room.now ≡ room.old }
        ensures end { result.end ≡ 0 }
    {
        Text { room, end: 0 }
    }

    // How many bytes the text has.
    pub fn len(&self) -> usize
        ensures { result ≡ self.now.end }
    {
        self.end
    }

    pub fn clear(&mut self)
        ensures room { self.new.room ≡ self.old.room }
        ensures end { self.new.end ≡ 0 }
    {
        self.end = 0;
    }

    pub fn as_bytes(&self) -> &[u8]
        ensures { result.now ≡ take self.now.end self.now.room.now }
    {
        &self.room[..self.end.min(self.room.len())]
    }

    // Puts bytes behind the text, as many as there is room for. Byte by byte: most pieces have a byte or two.
    pub fn put(&mut self, bytes: &[u8])
        ensures { Behind self.old.end self.old.room.now bytes.now self.new.end self.new.room.now }
    {
        let mut end = self.end;
        for &byte in bytes {
            if end >= self.room.len() {
                break;
            }
            self.room[end] = byte;
            end += 1;
        }
        self.end = end;
    }

    // Writes the text in one call. Nobody is left to tell when the output is closed, so the answer of the call is not looked at.
    pub fn write(&self, to: &impl Print) {
        let _ = to.write_all(self.as_bytes());
    }
}

// What is written is put, as far as there is room, and no write fails.
impl fmt::Write for Text<'_> {
    ghost write_str_gives = { λ t bytes t'. Behind t.end t.room.now bytes t'.end t'.room.now };

    fn write_str(&mut self, s: &str) -> fmt::Result
        ensures put { Behind self.old.end self.old.room.now s.now self.new.end self.new.room.now }
        ensures goes_on { IsOk result }
    {
        self.put(s.as_bytes());
        Ok(())
    }
}
