//! A judge that lines are offered to, and what is to be printed of it.

ghost use Rattle.std.specs.Prelude.{◌≡◌, true, ◌+◌, ◌<◌, ◌≤◌, ◌^◌, [], ◌∷◌, Ok, Err, Some, None, IfErr, IfOk, length, map};
ghost use Rattle.hg_wire.specs.Streams.{numbered_on};
ghost use Rattle.hg_streams.specs.Calls.{failed_writes};
ghost use Rattle.hg_streams.specs.Faults.{HasWriteCause};
ghost use Rattle.hg_streams.specs.Told.{told};
ghost use Rattle.hg_streams.specs.Holding.{HoldsOrPrints, PrintsFront};
ghost use Rattle.hg_streams.specs.Texts.{line_text};
ghost use Rattle.hg_wire.specs.Reports.{report_line};

use crate::batch::Batch;
use crate::judging::{judge_batch, judge_line};
use hg_model::event::Event;
use hg_model::limits::MOST_REPORTS;
use hg_model::report::Report;
use hg_model::verdict::Refusal;
use hg_reading::ending::Ending;
use hg_sets::MOST_SETS;
use hg_shards::cursor::Cursor;
use hg_shards::judge::Judge;
use hg_streams::holding::{hold_report, write_if_large, write_out};
use hg_streams::output::Output;
use std::alloc::Global;
use std::io::Write;
use std::marker::Sync;
use std::thread::Threads;

/// So many lines that are offered one by one are judged at once.
const BUFFERED: usize = 8_192;

/// A judge of all parts, lines that it is still to be offered, and what is to be printed of it.
#[derive(Drop)]
pub struct PartsChecking {
    pub(crate) alloc: Global,
    pub(crate) judge: Judge,
    /// How far the reports were read.
    pub(crate) cursor: Cursor,
    /// Lines that were offered one by one, and are not judged yet.
    pub(crate) buffer: Batch,
    /// How many reports were printed, or are held.
    pub(crate) printed: usize,
    /// Text that is still to be written.
    pub(crate) held: Vec<u8>,
}

impl PartsChecking {
    ghost use Rattle.hg_wire.specs.declared.line.LineFault.{LineFault};
    ghost use Rattle.hg_parts.specs.Holding.{readings_held};
    ghost use Rattle.hg_parts.specs.Stopping.{bad_at, reading_at};
    ghost use Rattle.hg_parts.specs.Taking.{IsFresh, IsSettled, MayTake, PrintsAllOf, PrintsNextOf, TakesLines, TakesQuietly};
    ghost use Rattle.hg_shards.specs.Judging.{parts_of};

    /// A judge of so many parts that was offered no event.
    pub fn new(alloc: Global, parts: usize) -> Result<PartsChecking, Refusal>
        requires some { 1 ≤ parts }
        ensures fresh { IfOk result IsFresh }
        ensures cause { IfErr result (λ r. r ≡ Refusal.OutOfMemory) }
    {
        let judge = Judge::new(alloc, parts as u64, MOST_SETS)?;
        let cursor = judge.cursor(alloc)?;
        Ok(PartsChecking {
            alloc,
            judge,
            cursor,
            buffer: Batch::new(alloc, parts, BUFFERED, BUFFERED)?,
            printed: 0,
            held: Vec::new(alloc),
        })
    }

    /// Judges the lines that are not judged yet. `None` says that each was passed.
    pub(crate) fn judge_buffer<T: Threads + Sync>(
        &mut self,
        rt: &T,
    ) -> Result<Option<Ending>, Refusal>
        requires may { MayTake self.old 0 }
        ensures takes { TakesQuietly self.old [] result self.new }
        ensures settled { result ≡ Ok None → IsSettled self.new }
        ensures parts { parts_of self.new.judge ≡ parts_of self.old.judge }
    {
        if self.buffer.is_empty() {
            return Ok(None);
        }
        match judge_batch(self.alloc, rt, &mut self.judge, &self.buffer, 0) {
            Err(refusal) => Err(refusal),
            Ok(Some(end)) => Ok(Some(end)),
            Ok(None) => {
                self.buffer.clear();
                Ok(None)
            }
        }
    }

    /// Offers the line of an event. It is judged where the buffer is full.
    #[inline(always)]
    pub(crate) fn offer_event<T: Threads + Sync>(
        &mut self,
        rt: &T,
        line: u64,
        event: &Event,
    ) -> Result<Option<Ending>, Refusal>
        requires may { MayTake self.old 1 }
        ensures { TakesQuietly self.old (reading_at line event.now ∷ []) result self.new }
    {
        if self.buffer.push(line, event) {
            return Ok(None);
        }
        self.offer_behind(rt, line, event)
    }

    /// Judges the lines of a full buffer, and offers the line of an event behind them.
    #[cold]
    fn offer_behind<T: Threads + Sync>(
        &mut self,
        rt: &T,
        line: u64,
        event: &Event,
    ) -> Result<Option<Ending>, Refusal>
        requires may { MayTake self.old 1 }
        ensures { TakesQuietly self.old (reading_at line event.now ∷ []) result self.new }
    {
        match self.judge_buffer(rt) {
            Err(refusal) => Err(refusal),
            Ok(Some(end)) => Ok(Some(end)),
            Ok(None) => self.offer_alone(rt, line, event),
        }
    }

    /// Offers the line of an event where all lines in front of it are judged.
    fn offer_alone<T: Threads + Sync>(
        &mut self,
        rt: &T,
        line: u64,
        event: &Event,
    ) -> Result<Option<Ending>, Refusal>
        requires may { MayTake self.old 1 }
        requires settled { IsSettled self.old }
        ensures { TakesQuietly self.old (reading_at line event.now ∷ []) result self.new }
    {
        if self.buffer.push(line, event) {
            return Ok(None);
        }
        judge_line(self.alloc, rt, &mut self.judge, line, event)
    }

    /// Judges all lines in front of a bad one, which ends the run.
    #[cold]
    pub(crate) fn offer_bad<T: Threads + Sync>(
        &mut self,
        rt: &T,
        line: u64,
    ) -> Result<Option<Ending>, Refusal>
        requires may { MayTake self.old 0 }
        ensures { (fault : LineFault) → TakesQuietly self.old (bad_at line fault ∷ []) result self.new }
    {
        match self.judge_buffer(rt) {
            Err(refusal) => Err(refusal),
            Ok(Some(end)) => Ok(Some(end)),
            Ok(None) => Ok(Some(Ending::Bad { line })),
        }
    }

    /// Offers a batch, where `lines` others stand in front of it. It is of as many parts as the judge, as `parts` tells.
    pub(crate) fn offer_batch<T: Threads + Sync>(
        &mut self,
        rt: &T,
        lines: u64,
        batch: &Batch,
    ) -> Result<Option<Ending>, Refusal>
        requires may { MayTake self.old (length (readings_held batch.now)) }
        requires fits { lines + batch.now.greatest < 2 ^ 64 }
        ensures { TakesQuietly self.old (map (numbered_on lines) (readings_held batch.now)) result self.new }
    {
        if batch.parts() != self.buffer.parts() {
            return Err(Refusal::OutOfMemory);
        }
        match self.judge_buffer(rt) {
            Err(refusal) => Err(refusal),
            Ok(Some(end)) => Ok(Some(end)),
            Ok(None) => judge_batch(self.alloc, rt, &mut self.judge, batch, lines),
        }
    }

    /// Prints all reports that are not printed yet.
    pub(crate) fn print<W: Write>(&mut self, output: &mut Output<W>) -> Result<(), Refusal>
        ensures rest { self.new ≡ record self.old { cursor = self.new.cursor; printed = self.new.printed; held = self.new.held } }
        ensures prints { PrintsAllOf self.old output.old.calls result self.new output.new.calls }
        ensures cause { IfErr result (λ r. HasWriteCause output.old.calls output.new.calls r) }
        ensures fault { failed_writes output.new.calls ≡ told result + failed_writes output.old.calls }
    {
        while self.printed < MOST_REPORTS {
            match self.print_next(output) {
                Err(refusal) => return Err(refusal),
                Ok(false) => return write_out(&mut self.held, output),
                Ok(true) => {}
            }
        }
        write_out(&mut self.held, output)
    }

    /// Prints the next report. `false` says that all are printed.
    fn print_next<W: Write>(&mut self, output: &mut Output<W>) -> Result<bool, Refusal>
        requires few { self.old.printed < MOST_REPORTS }
        ensures rest { self.new ≡ record self.old { cursor = self.new.cursor; printed = self.new.printed; held = self.new.held } }
        ensures prints { PrintsNextOf self.old output.old.calls result self.new output.new.calls }
        ensures more { result ≡ Ok true → self.new.printed ≡ self.old.printed + 1 }
        ensures cause { IfErr result (λ r. HasWriteCause output.old.calls output.new.calls r) }
        ensures fault { failed_writes output.new.calls ≡ told result + failed_writes output.old.calls }
    {
        match self.judge.next_report(self.alloc, &mut self.cursor) {
            Err(_) => Err(Refusal::OutOfMemory),
            Ok(None) => Ok(false),
            Ok(Some(report)) => {
                self.printed += 1;
                hold_next(self.printed as u64, &report, &mut self.held, output)
            }
        }
    }

    /// Judges the lines that are not judged yet, and prints all reports that are not printed yet.
    pub(crate) fn settle<T: Threads + Sync, W: Write>(
        &mut self,
        rt: &T,
        output: &mut Output<W>,
    ) -> Result<Option<Ending>, Refusal>
        requires may { MayTake self.old 0 }
        ensures takes { TakesLines self.old output.old.calls [] result self.new output.new.calls }
        ensures settled { result ≡ Ok None → IsSettled self.new }
    {
        match self.judge_buffer(rt) {
            Err(refusal) => Err(refusal),
            Ok(Some(end)) => Ok(Some(end)),
            Ok(None) => match self.print(output) {
                Err(refusal) => Err(refusal),
                Ok(()) => Ok(None),
            },
        }
    }
}

/// Holds the line of a report, and writes what is held where it is large.
fn hold_next<W: Write>(
    k: u64,
    report: &Report,
    held: &mut Vec<u8>,
    output: &mut Output<W>,
) -> Result<bool, Refusal>
    ensures more { IfOk result (λ more. more ≡ true) }
    ensures printed { HoldsOrPrints (line_text (report_line k report.now)) output.old held.old result output.new held.new }
    ensures front { PrintsFront (line_text (report_line k report.now)) output.old held.old result output.new }
    ensures cause { IfErr result (λ r. HasWriteCause output.old.calls output.new.calls r) }
    ensures fault { failed_writes output.new.calls ≡ told result + failed_writes output.old.calls }
{
    hold_report(k, report, held)?;
    write_if_large(held, output)?;
    Ok(true)
}
