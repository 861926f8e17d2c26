// Which schedule byte offends: the test of one byte, and the search for the first that fails it (refusals 12 and 16, R52 and R56).
// The action is a match on the high four bits, wherever it is asked (R301).
ghost use Rattle.std.specs.Prelude.{◌≡◌, ◌+◌, ◌≤◌, length};
ghost use Rattle.runfile.specs.Format.{longest_of_all};
ghost use Rattle.runfile.specs.Promises.{ByteJudged, IdleJudged};
ghost use Rattle.runfile.specs.Ups.{idles};
ghost use Rattle.runfile.specs.Refusals.{bad_byte, first_byte};

// Refusal 12, of one byte: a step, a crash and a wake name a process, 3 to 14 are no action, a crash of all names none (R73).
pub fn is_bad_byte(byte: u8, processes: u8) -> bool
    ensures { ByteJudged byte processes result }
{
    match byte / 16 {
        0..=2 => byte % 16 >= processes,
        3..=14 => true,
        _ => byte % 16 != 0,
    }
}

// Refusal 16, of one byte (R56): a crash of a process that is down and a wake of one that is up; never a step, and never a crash of all.
pub fn is_idle(byte: u8, up: bool) -> bool
    ensures { IdleJudged byte up result }
{
    match byte / 16 {
        0 => false,
        1 => !up,
        2 => up,
        _ => false,
    }
}

// Refusal 12: the first byte that is no action (R52). The schedule is lent as a part of the file, which begins at `start` (R304).
pub fn first_bad_byte(schedule: &[u8], start: usize, processes: u8) -> Option<usize>
    requires { start + length schedule.now ≤ longest_of_all }
    ensures { result ≡ first_byte start (λ before. bad_byte processes) schedule.now }
{
    let i = schedule
        .iter()
        .position(|byte| is_bad_byte(*byte, processes))?;
    Some(start + i)
}

// Refusal 16: the first byte that is idle (R56). At first all are up. A byte names a process by four bits (R71), so sixteen entries serve every byte,
// also one that names no process of the file; in `check` there is none, since 12 has gone before.
pub fn first_idle(schedule: &[u8], start: usize) -> Option<usize>
    requires { start + length schedule.now ≤ longest_of_all }
    ensures { result ≡ first_byte start idles schedule.now }
{
    let mut up = [true; 16];
    for (i, &byte) in schedule.iter().enumerate() {
        // A step brings nobody up or down and is never idle, so it costs this one comparison.
        if byte >= 16 {
            let p = usize::from(byte % 16);
            if is_idle(byte, up[p]) {
                return Some(start + i);
            }
            match byte / 16 {
                1 => up[p] = false,
                2 => up[p] = true,
                15 => up = [false; 16],
                _ => {}
            }
        }
    }
    None
}
