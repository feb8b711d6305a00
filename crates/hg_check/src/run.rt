//! A run over a whole trace text.

ghost use Rattle.std.specs.Prelude.{IfErr, IfOk, OnOk};
ghost use Rattle.hg_check.specs.Printing.{LeavesFront, ReadsTo};
ghost use Rattle.hg_check.specs.Running.{live_part};
ghost use Rattle.hg_streams.specs.Calls.{NoneFailedSince};
ghost use Rattle.hg_streams.specs.Faults.{HasCause};
ghost use Rattle.hg_check.specs.Taking.{HasPrinted, IsFresh};
ghost use Rattle.hg_detect.specs.Memory.{content_of};

use crate::checking::Checking;
use hg_model::verdict::Refusal;
use hg_reading::ending::{Ending, ended};
use hg_reading::sink::Sink;
use hg_reading::whole::read_side_by_side;
use hg_streams::input::Input;
use hg_streams::output::Output;
use std::io::{Read, Write};
use std::thread::Threads;

/// Reads a trace text to its end, or up to the first line that is refused or bad, and offers its events to a detector that has accepted
/// none. Where reports are printed as they come, all kept ones are printed or held at the end. Up to `jobs` threads read the lines of
/// large pieces; the result never depends on their number.
pub fn run<T: Threads + Sync, R: Read, W: Write>(
    rt: &T,
    jobs: usize,
    checking: &mut Checking,
    input: &mut Input<R>,
    output: &mut Output<W>,
) -> Result<Ending, Refusal>
    requires fresh { IsFresh checking.old.listing checking.old }
    ensures ends { IfOk result (ReadsTo input.old.calls input.new.calls (content_of checking.new.detector)) }
    ensures printed { OnOk result (HasPrinted output.old.calls output.new.calls checking.old.listing checking.new) }
    ensures front { LeavesFront result (live_part checking.old.listing) input.old input.new output.old output.new }
    ensures cause { IfErr result (HasCause input.old.calls input.new.calls output.old.calls output.new.calls) }
    ensures memory { OnOk result (NoneFailedSince input.old.calls input.new.calls) }
{
    let alloc = checking.alloc;
    let stop = read_side_by_side(rt, jobs, alloc, input, checking, output)?;
    checking.print(output)?;
    Ok(ended(stop))
}
