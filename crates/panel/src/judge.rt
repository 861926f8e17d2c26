// Whether a key is carried out: refusals 13 to 15, 21, 22 and 16, for a file that is accepted; and before them the file's own (R220).
ghost use Rattle.std.specs.Prelude.{◌≡◌, ◌||◌, ◌+◌, ◌≤◌};
ghost use Rattle.runfile.specs.Operations.{row_numbered, table_of};
ghost use Rattle.runfile.specs.Kinds.{kind_of};
ghost use Rattle.runfile.specs.Lawful.{LawfulFile};
ghost use Rattle.runfile.specs.Shares.{Lined};
ghost use Rattle.machine.specs.Records.{row_open};
ghost use Rattle.engine.specs.Part.{rows_lent};
ghost use Rattle.panel.specs.Possible as possible;
ghost use Rattle.panel.specs.Press as press;

use super::possible::{misplaced, no_answer, wrong_kind};
use super::{Refused, Stroke, Table, Why};
use machine::{Process, Status};
use runfile::{Header, Operations, Refusal, Room};

// Whether a record cannot be, whose process has `count` rows from row `first` on (R231b to R231i).
#[tactic(auto, unfolding(crate::specs::Possible::misdone))]
fn is_impossible(operations: Operations, first: u16, count: u16, process: Process) -> bool
    requires lined { Lined operations.stride operations.table.now operations.count }
    requires fits { first + count ≤ operations.count }
    ensures { result ≡ (possible.misplaced first count process || possible.misdone (kind_of (row_numbered (rows_lent operations.entry) (row_open process.opened))) process) }
{
    if misplaced(first, count, process) || no_answer(process) {
        return true;
    }
    // With no row open no kind is asked for (R231i).
    let Some(k) = process.opened else {
        return false;
    };
    let row = operations.row(usize::from(k));
    wrong_kind(row.kind_of(), process)
}

// Whether one of the first `present` records cannot be.
fn any_impossible(operations: Operations, processes: [Process; 16], present: usize) -> bool
    requires lined { Lined operations.stride operations.table.now operations.count }
    requires sixteen { present ≤ 16 }
    ensures { result ≡ possible.any_impossible (rows_lent operations.entry) processes 0 present }
{
    let counts = operations.counts();
    let firsts = runfile::firsts_of(counts);
    (0..present).any(|p| is_impossible(operations, firsts[p], counts[p], processes[p]))
}

// 13 to 15: the words, the records, and room for one row more of each kind (R223 to R225).
fn room_verdict(header: Header, held: usize, room: Room, key: Stroke) -> Result<Header, Refused>
    ensures { result ≡ press.roomy header held room key }
{
    if room.words < usize::from(header.words) {
        return Err(Refused::whole(Why::Run(Refusal::WordsRoom)));
    }
    if held < usize::from(header.processes) {
        return Err(Refused::whole(Why::Run(Refusal::WordsRoom)));
    }
    if room.log / 5 <= key.counts.log {
        return Err(Refused::whole(Why::Run(Refusal::LogRoom)));
    }
    if room.answers / 5 <= key.counts.answers {
        return Err(Refused::whole(Why::Run(Refusal::AnswersRoom)));
    }
    Ok(header)
}

// Whether the byte is a crash of a process that is down by its record, or a wake of one that is awake (R226). A byte names
// a process by four bits (R71), so there is a record for every byte.
fn is_idle_key(processes: [Process; 16], byte: u8) -> bool
    ensures { result ≡ press.idle_key processes byte }
{
    let named = processes[usize::from(byte % 16)];
    runfile::is_idle(byte, !matches!(named.status, Status::Down))
}

// Whether the record of one of the file's processes cannot be, for a file that is accepted (R231). That it is accepted stays a clause
// of the few that ask it: as a ghost field it would stand truncated, since a lawful byte is one of two cases, and each use would
// have to open it.
fn has_impossible(file: &[u8], header: Header, processes: [Process; 16]) -> bool
    requires { LawfulFile header file.now }
    ensures { result ≡ possible.any_impossible (table_of header file.now) processes 0 header.processes }
{
    let operations = Operations::of(file, header);
    any_impossible(operations, processes, usize::from(header.processes))
}

// 21, 22 and 16: the position, the records and the byte (R231, R232, R226).
fn sound_verdict(
    file: &[u8],
    header: Header,
    processes: [Process; 16],
    key: Stroke,
) -> Result<Header, Refused>
    requires { LawfulFile header file.now }
    ensures { result ≡ press.sound header file.now processes key }
{
    if 1023 < key.position {
        return Err(Refused::whole(Why::Record));
    }
    if has_impossible(file, header, processes) {
        return Err(Refused::whole(Why::Record));
    }
    if runfile::is_bad_byte(key.byte, header.processes) {
        return Err(Refused::whole(Why::Key));
    }
    if is_idle_key(processes, key.byte) {
        return Err(Refused::whole(Why::Run(Refusal::Idle)));
    }
    Ok(header)
}

// The verdict on a key.
#[tactic(auto, unfolding(crate::specs::Press::verdict_of, crate::specs::Press::judged))]
pub fn verdict_of(file: &[u8], table: Table, room: Room, key: Stroke) -> Result<Header, Refused>
    ensures { result ≡ press.verdict_of file.now table room key }
{
    let header = runfile::check_file(file)?;
    room_verdict(header, table.held, room, key)?;
    sound_verdict(file, header, table.processes, key)
}
