//! Explaining a word from a content on, the events of which are no longer kept.

ghost use Rattle.std.specs.Prelude.{◌≡◌, [], IfOk, IfErr};
ghost use Rattle.hg_detect.specs.Memory.{IsWhole, content_of};
ghost use Rattle.hg_streams.specs.Faults.{EndsByFault, HasCause, TellsNoFault};
ghost use Rattle.hg_check.specs.Behind.{EndsEarly, EndsWell, LeavesFront, PrintsLife, gone_text};
ghost use Rattle.hg_check.specs.Explaining.{asked_at};
ghost use Rattle.hg_check.specs.Holding.{HoldsMore};
ghost use Rattle.hg_check.specs.LifeTaking.{IsFresh};
ghost use Rattle.hg_check.specs.Running.{HasRoom};

use crate::explain::address::hold_word;
use crate::explain::commands::tell_on;
use crate::explain::event_line::hold_state;
use crate::explain::explaining::Explaining;
use crate::explain::form::{Asked, Form};
use crate::explain::pieces::{hold, hold_number};
use hg_detect::memory::MemoryDetector;
use hg_model::verdict::Refusal;
use hg_reading::ending::{Ending, status_of_end};
use hg_streams::input::Input;
use hg_streams::output::Output;
use hg_streams::streams::Streams;
use hg_streams::telling::end_by_fault;
use std::alloc::Global;
use std::io::{Read, Write};

/// Holds the line that tells up to which event the events are no longer kept, and the state of a word after it. Where none are gone, there
/// is no such line.
fn hold_gone(detector: &MemoryDetector, word: u64, held: &mut Vec<u8>) -> Result<(), Refusal>
    requires whole { IsWhole detector.now }
    ensures ok { HoldsMore result held.old held.new (gone_text word (content_of detector.now)) }
    ensures cause { IfErr result (λ r. r ≡ Refusal.OutOfMemory) }
{
    let events = detector.state().events();
    if events == 0 {
        return Ok(());
    }
    hold_number(b"events 1 to ", events, held)?;
    hold(b" are no longer kept ;", held)?;
    hold_state(detector, word, held)?;
    hold(b"\n", held)
}

/// Runs a detector, and tells the life of a word behind the word's line and what is gone.
fn run_behind<R: Read, W: Write>(
    alloc: Global,
    explaining: &mut Explaining,
    input: &mut Input<R>,
    output: &mut Output<W>,
) -> Result<Ending, Refusal>
    requires fresh { IsFresh explaining.old }
    requires room { HasRoom explaining.old.detector }
    requires none { explaining.old.held.items ≡ [] }
    ensures prints { IfOk result (PrintsLife explaining.old.detector explaining.old.asked
        input.old input.new output.old output.new) }
    ensures front { LeavesFront result explaining.old.detector explaining.old.asked
        input.old input.new output.old output.new }
    ensures cause { IfErr result (λ r. HasCause input.old.calls input.new.calls output.old.calls output.new.calls r) }
{
    let word = explaining.asked.word;
    hold_word(word, &mut explaining.held)?;
    hold_gone(&explaining.detector, word, &mut explaining.held)?;
    tell_on(alloc, explaining, input, output)
}

/// Explains the word at an address from the content of a detector on, by a trace text whose lines come behind the events that the content
/// counts. Prints the word, a line that tells how many events are gone and the word's state after them, and then what `explain` prints: its
/// events are numbered on. From the content of an empty trace on, it prints what `explain` does.
/// Answers the status as `explain` does.
pub fn explain_behind<R: Read, W: Write, V: Write>(
    alloc: Global,
    detector: MemoryDetector,
    address: u64,
    form: Form,
    streams: &mut Streams<R, W, V>,
) -> u8
    requires whole { IsWhole detector }
    requires room { HasRoom detector }
    ensures prints { EndsWell result detector (asked_at address form) streams.old streams.new }
    ensures quiet { TellsNoFault result streams.old streams.new }
    ensures fault { EndsByFault result streams.old streams.new }
    ensures front { EndsEarly result detector (asked_at address form) streams.old streams.new }
{
    let word = address / 4;
    let mut explaining = Explaining::behind(alloc, detector, Asked { word, form });
    match run_behind(
        alloc,
        &mut explaining,
        &mut streams.input,
        &mut streams.output,
    ) {
        Ok(end) => status_of_end(end),
        Err(refusal) => end_by_fault(refusal, &mut streams.faults),
    }
}
