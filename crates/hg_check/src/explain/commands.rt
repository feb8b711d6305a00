//! The command that explains a word of a trace text.

ghost use Rattle.std.specs.Prelude.{◌≡◌, [], IfOk, IfErr};
ghost use Rattle.hg_streams.specs.Faults.{EndsByFault, HasCause, TellsNoFault};
ghost use Rattle.hg_detect.specs.Memory.{content_of};
ghost use Rattle.hg_check.specs.Explaining.{EndsEarly, EndsWell, LeavesFront, PrintsLife, asked_at, end_text};
ghost use Rattle.hg_check.specs.Holding.{HoldsMore};
ghost use Rattle.hg_check.specs.LifeTaking.{IsFresh, LeavesFrontOfDue, TellsDue};
ghost use Rattle.hg_check.specs.Running.{HasRoom, IsStart};

use crate::explain::address::hold_word;
use crate::explain::event_line::hold_more;
use crate::explain::explaining::Explaining;
use crate::explain::form::{Asked, Form};
use crate::explain::run::run;
use crate::holding::hold_last_line;
use hg_detect::memory::MemoryDetector;
use hg_model::verdict::Refusal;
use hg_reading::ending::{Ending, status_of_end};
use hg_streams::holding::write_out;
use hg_streams::input::Input;
use hg_streams::output::Output;
use hg_streams::streams::Streams;
use hg_streams::telling::end_by_fault;
use std::alloc::Global;
use std::io::{Read, Write};

/// Runs a detector that has accepted no event, and tells the life of a word behind the word's line.
fn run_explain<R: Read, W: Write>(
    alloc: Global,
    explaining: &mut Explaining,
    input: &mut Input<R>,
    output: &mut Output<W>,
) -> Result<Ending, Refusal>
    requires fresh { IsFresh explaining.old }
    requires start { IsStart explaining.old.detector }
    requires none { explaining.old.held.items ≡ [] }
    ensures prints { IfOk result (PrintsLife explaining.old.asked input.old input.new output.old output.new) }
    ensures front { LeavesFront result explaining.old.asked input.old input.new output.old output.new }
    ensures cause { IfErr result (λ r. HasCause input.old.calls input.new.calls output.old.calls output.new.calls r) }
{
    hold_word(explaining.asked.word, &mut explaining.held)?;
    tell_on(alloc, explaining, input, output)
}

/// Runs a detector, and tells the life of a word as it comes, behind what is held, and at last how the run ended.
pub(crate) fn tell_on<R: Read, W: Write>(
    alloc: Global,
    explaining: &mut Explaining,
    input: &mut Input<R>,
    output: &mut Output<W>,
) -> Result<Ending, Refusal>
    requires fresh { IsFresh explaining.old }
    requires room { HasRoom explaining.old.detector }
    ensures prints { IfOk result (TellsDue explaining.old input.old input.new output.old output.new) }
    ensures front { LeavesFrontOfDue result explaining.old input.old input.new output.old output.new }
    ensures cause { IfErr result (λ r. HasCause input.old.calls input.new.calls output.old.calls output.new.calls r) }
{
    let end = run(alloc, explaining, input, output)?;
    hold_end(
        &explaining.detector,
        explaining.more,
        end,
        &mut explaining.held,
    )?;
    write_out(&mut explaining.held, output)?;
    output.flush()?;
    Ok(end)
}

/// Holds the count of accesses that were not shown at the end, and the last line.
pub(crate) fn hold_end(
    detector: &MemoryDetector,
    more: u64,
    end: Ending,
    held: &mut Vec<u8>,
) -> Result<(), Refusal>
    ensures ok { HoldsMore result held.old held.new (end_text more (content_of detector.now) end) }
    ensures cause { IfErr result (λ r. r ≡ Refusal.OutOfMemory) }
{
    hold_more(more, held)?;
    hold_last_line(detector, end, held)
}

/// Explains the word at an address, by a trace text. Prints the word, a line for each event that changes its state, and the last line
/// of `check`. With `form.all` each event that overlaps the word has a line; with `form.lines` such a line tells the number of the
/// text's line. After a line that is refused or bad, nothing is read.
/// Answers the status: 0, 2 where a line was refused or bad, or 3 where a stream failed or memory was refused, which
/// is told among the faults. What was printed before that is a front of what was due.
pub fn explain<R: Read, W: Write, V: Write>(
    alloc: Global,
    address: u64,
    form: Form,
    streams: &mut Streams<R, W, V>,
) -> u8
    ensures prints { EndsWell result (asked_at address form) streams.old streams.new }
    ensures quiet { TellsNoFault result streams.old streams.new }
    ensures fault { EndsByFault result streams.old streams.new }
    ensures front { EndsEarly result (asked_at address form) streams.old streams.new }
{
    let word = address / 4;
    let mut explaining = match Explaining::new(alloc, Asked { word, form }) {
        Ok(explaining) => explaining,
        Err(refusal) => return end_by_fault(refusal, &mut streams.faults),
    };
    match run_explain(
        alloc,
        &mut explaining,
        &mut streams.input,
        &mut streams.output,
    ) {
        Ok(end) => status_of_end(end),
        Err(refusal) => end_by_fault(refusal, &mut streams.faults),
    }
}
