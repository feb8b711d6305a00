//! The command that checks a trace text by parts.

ghost use Rattle.std.specs.Prelude.{◌≡◌, false, IfErr, IfOk};
ghost use Rattle.hg_check.specs.Printing.{EndsChecked, EndsEarly, LeavesFront, PrintsAndCounts, check_text};
ghost use Rattle.hg_streams.specs.Faults.{EndsByFault, HasCause, TellsNoFault};
ghost use Rattle.hg_parts.specs.Taking.{IsFresh};

use crate::last_line::hold_last_line;
use crate::run::run;
use crate::sink::PartsSink;
use hg_check::checked::Checked;
use hg_model::verdict::Refusal;
use hg_reading::ending::{Ending, status_of_end};
use hg_streams::holding::write_out;
use hg_streams::input::Input;
use hg_streams::output::Output;
use hg_streams::streams::Streams;
use hg_streams::telling::end_by_fault;
use std::alloc::Global;
use std::io::{Read, Write};
use std::marker::Sync;
use std::thread::Threads;

/// More parts than so many are not used: each part is judged by a thread of its own.
const MOST_PARTS: usize = 16;

/// Runs a fresh judge, and prints the reports as they come, and at last how the run ended. Answers that, and whether there were races.
fn run_check<T: Threads + Sync, R: Read, W: Write>(
    rt: &T,
    jobs: usize,
    sink: &mut PartsSink<'_, T>,
    input: &mut Input<R>,
    output: &mut Output<W>,
) -> Result<(Ending, bool), Refusal>
    requires fresh { IsFresh sink.old.checking }
    ensures prints { IfOk result (PrintsAndCounts input.old.calls input.new.calls output.old.calls output.new.calls) }
    ensures front { LeavesFront result check_text input.old input.new output.old output.new }
    ensures cause { IfErr result (λ r. HasCause input.old.calls input.new.calls output.old.calls output.new.calls r) }
{
    let end = run(rt, jobs, sink, input, output)?;
    let has_races = sink.checking.judge.has_races();
    hold_last_line(&sink.checking.judge, end, &mut sink.checking.held)?;
    write_out(&mut sink.checking.held, output)?;
    output.flush()?;
    Ok((end, has_races))
}

/// What a run comes to that a fault ended.
fn failed(status: u8) -> Checked
    ensures status { result.status ≡ status }
    ensures none { result.has_races ≡ false }
{
    Checked {
        status,
        has_races: false,
    }
}

/// Checks a trace text, and prints and answers what `check` of hg_check does. Up to `jobs` threads read the lines of large pieces, and the
/// pages of the trace are divided among `parts` parts, 1 to 16, each of which is judged by a thread of its own: what is printed never
/// depends on how many there are of either.
pub fn check_by_parts<T: Threads + Sync, R: Read, W: Write, V: Write>(
    rt: &T,
    jobs: usize,
    parts: usize,
    alloc: Global,
    streams: &mut Streams<R, W, V>,
) -> Checked
    ensures prints { EndsChecked result streams.old streams.new }
    ensures quiet { TellsNoFault result.status streams.old streams.new }
    ensures fault { EndsByFault result.status streams.old streams.new }
    ensures front { EndsEarly result.status check_text streams.old streams.new }
    ensures none { result.status ≡ 3 → result.has_races ≡ false }
{
    let mut sink = match PartsSink::new(rt, alloc, parts.clamp(1, MOST_PARTS)) {
        Ok(sink) => sink,
        Err(refusal) => return failed(end_by_fault(refusal, &mut streams.faults)),
    };
    match run_check(rt, jobs, &mut sink, &mut streams.input, &mut streams.output) {
        Ok((end, has_races)) => Checked {
            status: status_of_end(end),
            has_races,
        },
        Err(refusal) => failed(end_by_fault(refusal, &mut streams.faults)),
    }
}
