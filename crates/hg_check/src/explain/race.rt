//! The command that explains the word of a kept report: a text is kept in memory, checked, and then explained.

ghost use Rattle.std.specs.Prelude.{◌≡◌, ◌<◌, ◌^◌, [], IfErr, IfOk, IfSome, OnErr};
ghost use Rattle.hg_detect.specs.Memory.{content_of};
ghost use Rattle.hg_streams.specs.Faults.{EndsByFault, HasCause, HasWriteCause, TellsNoFault};
ghost use Rattle.hg_check.specs.Checking.{ChecksTo};
ghost use Rattle.hg_check.specs.Holding.{HoldsMore};
ghost use Rattle.hg_check.specs.LifeTaking.{HasToldText, IsFresh as IsFreshLife, LeavesFrontOfText};
ghost use Rattle.hg_check.specs.RaceLife.{EndsEarly, EndsWell, IsFound, PrintsRace, StoppedInRace, TellsLife, TellsLifeFront, TellsRace, TellsRaceFront, no_race_text, word_of_race};
ghost use Rattle.hg_check.specs.Running.{IsStart};
ghost use Rattle.hg_check.specs.Taking.{IsFresh};

use crate::checking::Checking;
use crate::explain::address::hold_word;
use crate::explain::commands::hold_end;
use crate::explain::explaining::Explaining;
use crate::explain::form::{Asked, Form};
use crate::explain::pieces::hold_number;
use crate::holding::hold_last_line;
use hg_detect::memory::MemoryDetector;
use hg_model::verdict::Refusal;
use hg_reading::ending::{Ending, ended, status_of_end};
use hg_reading::kept::{keep, offer_text};
use hg_streams::holding::{end_line, write_out};
use hg_streams::input::Input;
use hg_streams::listing::Listing;
use hg_streams::output::Output;
use hg_streams::streams::Streams;
use hg_streams::telling::end_by_fault;
use hg_wire::reader::EventReader;
use std::alloc::Global;
use std::io::{Read, Write, sink};

/// Offers the lines of a text to a detector that has accepted no event, and prints nothing. Answers how that ends.
fn check_text(alloc: Global, text: &[u8], checking: &mut Checking) -> Result<Ending, Refusal>
    requires fresh { IsFresh Listing.Segments checking.old }
    ensures leads { IfOk result (ChecksTo text.now (content_of checking.new.detector)) }
    ensures cause { IfErr result (λ r. r ≡ Refusal.OutOfMemory) }
{
    let reader = EventReader::new(alloc)?;
    // Nothing is printed, so it is memory that lacks where there is no answer.
    let Ok(stop) = offer_text(reader, text, checking, &mut Output::new(sink())) else {
        return Err(Refusal::OutOfMemory);
    };
    Ok(ended(stop))
}

/// The word of the report that is kept as number `number`, from 1 on. `None` says that fewer are kept.
fn word_of_report(
    alloc: Global,
    detector: &MemoryDetector,
    number: u32,
) -> Result<Option<u64>, Refusal>
    ensures word { IfOk result (λ word. word ≡ word_of_race number (content_of detector.now)) }
    ensures small { IfOk result (λ word. IfSome word (λ w. w < 2 ^ 62)) }
    ensures cause { IfErr result (λ r. r ≡ Refusal.OutOfMemory) }
{
    let number = number as usize;
    if number == 0 || number > detector.kept() {
        return Ok(None);
    }
    let report = detector.report(alloc, number - 1)?;
    Ok(Some(report.word / 4))
}

/// Holds the text that says that no report is kept as number `number`.
fn hold_no_race(
    number: u32,
    detector: &MemoryDetector,
    end: Ending,
    held: &mut Vec<u8>,
) -> Result<(), Refusal>
    ensures ok { HoldsMore result held.old held.new (no_race_text number (content_of detector.now) end) }
    ensures cause { IfErr result (λ r. r ≡ Refusal.OutOfMemory) }
{
    hold_number(b"no race ", u64::from(number), held)?;
    end_line(held)?;
    hold_last_line(detector, end, held)
}

/// The word of the report of a text that is kept as number `number`. Where there is none, the text that says so is held.
fn find_word(
    alloc: Global,
    number: u32,
    text: &[u8],
    held: &mut Vec<u8>,
) -> Result<Option<u64>, Refusal>
    requires none { held.old.items ≡ [] }
    ensures found { IfOk result (λ word. IsFound number text.now word held.new.items) }
    ensures small { IfOk result (λ word. IfSome word (λ w. w < 2 ^ 62)) }
    ensures cause { IfErr result (λ r. r ≡ Refusal.OutOfMemory) }
{
    let mut checking = Checking::new(alloc, Listing::Segments)?;
    let end = check_text(alloc, text, &mut checking)?;
    let word = word_of_report(alloc, &checking.detector, number)?;
    if word.is_none() {
        hold_no_race(number, &checking.detector, end, held)?;
    }
    Ok(word)
}

/// Offers the lines of a text, and tells those that concern the word. Answers how that ends.
fn run_text<W: Write>(
    alloc: Global,
    text: &[u8],
    explaining: &mut Explaining,
    output: &mut Output<W>,
) -> Result<Ending, Refusal>
    requires fresh { IsFreshLife explaining.old }
    requires start { IsStart explaining.old.detector }
    ensures ends { IfOk result (HasToldText text.now explaining.old explaining.new output.old output.new) }
    ensures front { LeavesFrontOfText result text.now explaining.old output.old output.new }
    ensures cause { IfErr result (HasWriteCause output.old.calls output.new.calls) }
{
    let reader = EventReader::new(alloc)?;
    let stop = offer_text(reader, text, explaining, output)?;
    Ok(ended(stop))
}

/// Tells the life of a word over a text, as `explain` does, and answers how the text ends.
fn tell_life<W: Write>(
    alloc: Global,
    text: &[u8],
    explaining: &mut Explaining,
    output: &mut Output<W>,
) -> Result<Ending, Refusal>
    requires fresh { IsFreshLife explaining.old }
    requires start { IsStart explaining.old.detector }
    requires none { explaining.old.held.items ≡ [] }
    ensures prints { IfOk result (TellsLife text.now explaining.old.asked output.old.calls output.new.calls) }
    ensures front { OnErr result (TellsLifeFront text.now explaining.old.asked output.old.calls output.new.calls) }
    ensures cause { IfErr result (HasWriteCause output.old.calls output.new.calls) }
{
    hold_word(explaining.asked.word, &mut explaining.held)?;
    let end = run_text(alloc, text, explaining, output)?;
    hold_end(
        &explaining.detector,
        explaining.more,
        end,
        &mut explaining.held,
    )?;
    write_out(&mut explaining.held, output)?;
    output.flush()?;
    Ok(end)
}

/// Tells the life of what is asked over a text, and answers how the text ends.
fn explain_text<W: Write>(
    alloc: Global,
    text: &[u8],
    asked: Asked,
    output: &mut Output<W>,
) -> Result<Ending, Refusal>
    requires word { asked.word < 2 ^ 62 }
    ensures prints { IfOk result (TellsLife text.now asked output.old.calls output.new.calls) }
    ensures front { OnErr result (TellsLifeFront text.now asked output.old.calls output.new.calls) }
    ensures cause { IfErr result (HasWriteCause output.old.calls output.new.calls) }
{
    let mut explaining = Explaining::new(alloc, asked)?;
    tell_life(alloc, text, &mut explaining, output)
}

/// Tells the life of the word of a report over a text, or that there is no such report. Answers the status.
fn tell_race<W: Write>(
    alloc: Global,
    number: u32,
    form: Form,
    text: &[u8],
    output: &mut Output<W>,
) -> Result<u8, Refusal>
    ensures prints { IfOk result (TellsRace number form text.now output.old.calls output.new.calls) }
    ensures status { IfOk result (λ status. status ≡ 3 → ⊥) }
    ensures front { OnErr result (TellsRaceFront number form text.now output.old.calls output.new.calls) }
    ensures cause { IfErr result (HasWriteCause output.old.calls output.new.calls) }
{
    let mut held = Vec::new(alloc);
    match find_word(alloc, number, text, &mut held)? {
        Some(word) => {
            let end = explain_text(alloc, text, Asked { word, form }, output)?;
            Ok(status_of_end(end))
        }
        None => {
            write_out(&mut held, output)?;
            output.flush()?;
            Ok(2)
        }
    }
}

/// Reads a whole input, and tells the life of the word of a report over it. Answers the status.
fn run_race<R: Read, W: Write>(
    alloc: Global,
    number: u32,
    form: Form,
    input: &mut Input<R>,
    output: &mut Output<W>,
) -> Result<u8, Refusal>
    ensures prints { IfOk result (PrintsRace number form input.old input.new output.old output.new) }
    ensures status { IfOk result (λ status. status ≡ 3 → ⊥) }
    ensures front { OnErr result (StoppedInRace number form input.old input.new output.old output.new) }
    ensures cause { IfErr result (HasCause input.old.calls input.new.calls output.old.calls output.new.calls) }
{
    let text = keep(alloc, input)?;
    tell_race(alloc, number, form, text.as_slice(), output)
}

/// Explains the word of the report that is kept as number `number`, from 1 on, as `check` numbers them: prints what `explain` prints of
/// that word. Where fewer are kept it prints `no race` with the number, and the last line of `check`. The whole input is read and kept in
/// memory first; what stands behind a line that is refused or bad plays no part.
/// Answers the status: that of `explain`, 2 where there is no such report, or 3 where a stream failed or memory was refused, which is
/// told among the faults. What was printed before that is a front of what was due.
pub fn explain_race<R: Read, W: Write, V: Write>(
    alloc: Global,
    number: u32,
    form: Form,
    streams: &mut Streams<R, W, V>,
) -> u8
    ensures prints { EndsWell result number form streams.old streams.new }
    ensures quiet { TellsNoFault result streams.old streams.new }
    ensures fault { EndsByFault result streams.old streams.new }
    ensures front { EndsEarly result number form streams.old streams.new }
{
    match run_race(alloc, number, form, &mut streams.input, &mut streams.output) {
        Ok(status) => status,
        Err(refusal) => end_by_fault(refusal, &mut streams.faults),
    }
}
