//! A run over a whole trace text.

ghost use Rattle.std.specs.Prelude.{IfOk, IfErr, OnOk};
ghost use Rattle.hg_streams.specs.Calls.{NoneFailedSince};
ghost use Rattle.hg_streams.specs.Faults.{HasCause};
ghost use Rattle.hg_check.specs.LifeTaking.{HasTold, IsFresh, LeavesFrontOfDue};
ghost use Rattle.hg_check.specs.Running.{HasRoom};

use crate::explain::explaining::Explaining;
use hg_model::verdict::Refusal;
use hg_reading::ending::{Ending, ended};
use hg_reading::whole::read;
use hg_streams::input::Input;
use hg_streams::output::Output;
use std::alloc::Global;
use std::io::{Read, Write};

/// Reads a trace text to its end, or up to the first line that is refused or bad, offers its events to a detector, and tells those that
/// concern a word.
pub fn run<R: Read, W: Write>(
    alloc: Global,
    explaining: &mut Explaining,
    input: &mut Input<R>,
    output: &mut Output<W>,
) -> Result<Ending, Refusal>
    requires fresh { IsFresh explaining.old }
    requires room { HasRoom explaining.old.detector }
    ensures ends { IfOk result (HasTold explaining.old explaining.new input.old input.new output.old output.new) }
    ensures front { LeavesFrontOfDue result explaining.old input.old input.new output.old output.new }
    ensures cause { IfErr result (HasCause input.old.calls input.new.calls output.old.calls output.new.calls) }
    ensures memory { OnOk result (NoneFailedSince input.old.calls input.new.calls) }
{
    let stop = read(alloc, input, explaining, output)?;
    Ok(ended(stop))
}
