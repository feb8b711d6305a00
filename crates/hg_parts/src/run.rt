//! A run over a whole trace text, judged by parts.

ghost use Rattle.std.specs.Prelude.{IfErr, IfOk};
ghost use Rattle.hg_check.specs.Printing.{LeavesFront, check_text};
ghost use Rattle.hg_streams.specs.Faults.{HasCause};
ghost use Rattle.hg_parts.specs.Taking.{IsFresh};
ghost use Rattle.hg_parts.specs.Running.{Came};

use crate::sink::PartsSink;
use hg_model::verdict::Refusal;
use hg_reading::ending::{Ending, ended};
use hg_reading::whole::read_side_by_side;
use hg_streams::input::Input;
use hg_streams::output::Output;
use std::io::{Read, Write};
use std::marker::Sync;
use std::thread::Threads;

/// Reads a trace text to its end, or up to the first line that is refused or bad, and offers its events to a judge that has accepted none.
/// All kept reports are printed or held at the end.
pub(crate) fn run<T: Threads + Sync, R: Read, W: Write>(
    rt: &T,
    jobs: usize,
    sink: &mut PartsSink<'_, T>,
    input: &mut Input<R>,
    output: &mut Output<W>,
) -> Result<Ending, Refusal>
    requires fresh { IsFresh sink.old.checking }
    ensures came { IfOk result (Came input.old.calls input.new.calls output.old.calls output.new.calls sink.new.checking) }
    ensures front { LeavesFront result check_text input.old input.new output.old output.new }
    ensures cause { IfErr result (HasCause input.old.calls input.new.calls output.old.calls output.new.calls) }
{
    let alloc = sink.checking.alloc;
    let stop = read_side_by_side(rt, jobs, alloc, input, sink, output)?;
    sink.checking.print(output)?;
    Ok(ended(stop))
}
