// What A2, A4 and V4 do by the kind of the row. A read has none of these stages, and goes with a compare.
ghost use Rattle.machine.specs.Promises.{KeptNow, PutIn, SwapSaid, AfterLoss};

use super::records::busy;
use super::{Answer, Kept, Stage, Status};
use runfile::Kind;

// A2: what is kept, beside what was kept before, in one store (R112).
pub fn keep(kind: Kind, before: Kept, bit: bool, value: u32) -> Kept
    ensures { KeptNow kind before bit value result }
{
    match kind {
        Kind::Read | Kind::Compare => Kept { bit, ..before },
        Kind::Advance => Kept { bit, value },
    }
}

// A4: what a swap puts in over the value that it found, for a row with this new (R117).
pub fn put_in(kind: Kind, new: u32, value: u32) -> u32
    ensures { PutIn kind new value result }
{
    match kind {
        Kind::Read | Kind::Compare => new,
        Kind::Advance => word::sum_of(value, new),
    }
}

// What a swap says that found this value (R114); V4 stores it, by the value that A2 kept (R124).
pub fn swap_says(kind: Kind, value: u32) -> Answer
    ensures { SwapSaid kind value result }
{
    match kind {
        Kind::Read | Kind::Compare => Answer::True,
        Kind::Advance => Answer::Was(value),
    }
}

// A4, lost at this position: a compare is answered with false, an advance goes back to A1 (R118).
pub fn after_loss(kind: Kind, seen: u64, read_at: u16, position: u16) -> Status
    ensures { AfterLoss kind seen read_at position result }
{
    match kind {
        Kind::Read | Kind::Compare => {
            busy(Stage::A5, seen, read_at, position, Some(Answer::False))
        }
        Kind::Advance => busy(Stage::A1, 0, 0, 0, None),
    }
}
