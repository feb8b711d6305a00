//! How the reading of a trace text ends.

ghost use Rattle.std.specs.Prelude.{◌≡◌, ◌++◌, IfErr, OnOk};
ghost use Rattle.hg_reading.specs.Endings.{Stops, ending_of, status_of, stop_text};

use hg_model::verdict::Refusal;
use hg_streams::holding::end_line;
use hg_wire::lines::{put_bad_line, put_refused_line};

/// How a run over a trace text ended.
#[derive(Clone, Copy, Debug, PartialEq, Eq)]
pub enum Ending {
    /// All events were accepted.
    Ended,
    /// The event of this line was refused.
    Refused { line: u64, refusal: Refusal },
    /// This line was not understood.
    Bad { line: u64 },
}

/// How a run ended: where no line ended it, it came to the end of its input.
pub fn ended(stop: Option<Ending>) -> Ending
    ensures { result ≡ ending_of stop }
{
    match stop {
        Some(end) => end,
        None => Ending::Ended,
    }
}

/// How a refusal ends the run: want of memory is a fault, any other cause is the line's.
pub fn stop(line: u64, refusal: Refusal) -> Result<Option<Ending>, Refusal>
    ensures { Stops line refusal result }
{
    match refusal {
        Refusal::OutOfMemory => Err(Refusal::OutOfMemory),
        _ => Ok(Some(Ending::Refused { line, refusal })),
    }
}

/// The status of a run that had no fault: 0 where it came to the end of its input, and 2 where a line was refused or bad.
pub fn status_of_end(end: Ending) -> u8
    ensures { result ≡ status_of end }
{
    match end {
        Ending::Ended => 0,
        _ => 2,
    }
}

/// Holds the line that ended a run. A run that came to the end of its input has none.
pub fn hold_stop(end: Ending, held: &mut Vec<u8>) -> Result<(), Refusal>
    ensures ok { OnOk result (held.new.items ≡ held.old.items ++ stop_text end) }
    ensures cause { IfErr result (λ r. r ≡ Refusal.OutOfMemory) }
{
    let line = match end {
        Ending::Ended => return Ok(()),
        Ending::Refused { line, refusal } => put_refused_line(line, refusal.code(), held),
        Ending::Bad { line } => put_bad_line(line, held),
    };
    line?;
    end_line(held)
}
