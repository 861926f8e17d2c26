// The kind of an operation row, by its number in the file.
ghost use Rattle.runfile.specs.Promises.{KindNumbered, KindRead};

use super::{Kind, Row};

// Kind 0 reads, kind 2 advances (R11); a number that is no kind's is refused under 9 (R49b), and goes with 1 elsewhere.
impl From<u8> for Kind {
    ghost from_gives = { KindNumbered };

    fn from(number: u8) -> Kind {
        match number {
            0 => Kind::Read,
            2 => Kind::Advance,
            _ => Kind::Compare,
        }
    }
}

impl Row {
    // What the row does, by the number that it has.
    pub fn kind_of(self) -> Kind
        ensures { KindRead self result }
    {
        Kind::from(self.kind)
    }
}
