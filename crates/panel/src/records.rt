// From the lent list of records to the table by value.
ghost use Rattle.std.specs.Prelude.{◌≡◌, min, length};
ghost use Rattle.panel.specs.Laid.{blank, laid};

use super::Table;
use machine::{Kept, Process, Status};

impl Table {
    // The lent records, the first sixteen at most (R205), over records that are nobody's.
    #[tactic(auto, unfolding(crate::specs::Laid::laid))]
    pub(crate) fn of(records: &[Process]) -> Table
        ensures held { result.held ≡ min (length records.now) 16 }
        ensures processes { result.processes ≡ laid result.held records.now blank }
    {
        let nobody = Process {
            status: Status::Down,
            opened: None,
            stored: None,
            checkpoint: false,
            kept: Kept {
                bit: false,
                value: 0,
            },
            begun: 0,
        };
        let mut processes = [nobody; 16];
        let held = records.len().min(16);
        processes[..held].copy_from_slice(&records[..held]);
        Table { processes, held }
    }
}
