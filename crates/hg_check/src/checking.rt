//! A detector that takes the lines of a trace text, and prints its reports as they come.

ghost use Rattle.std.specs.Prelude.{◌≡◌, [], length, None, Ok, Err, IfErr, IfOk, OnOk};
ghost use Rattle.hg_detect.specs.Memory.{content_of};

use crate::checker::{apply, apply_access, apply_hold};
use crate::printing::print_reports;
use hg_detect::memory::{MemoryDetector, new_detector};
use hg_model::event::Hold;
use hg_model::verdict::Refusal;
use hg_reading::ending::Ending;
use hg_reading::queued::{Queued, offer_all};
use hg_reading::sink::{QueueSink, Sink};
use hg_sets::MOST_SETS;
use hg_streams::listing::Listing;
use hg_streams::output::Output;
use hg_wire::line::AccessLine;
use hg_wire::reader::Reading;
use std::alloc::{AllocError, Global};
use std::io::Write;

/// A detector, and what is to be printed of it.
#[derive(Drop)]
pub struct Checking {
    pub(crate) alloc: Global,
    pub detector: MemoryDetector,
    /// What is printed: the reports as they come, or the segments at the end.
    pub listing: Listing,
    /// How many of the kept reports were printed, or are held.
    pub printed: usize,
    /// Text that is still to be written.
    pub held: Vec<u8>,
}

impl Checking {
    ghost use Rattle.hg_check.specs.Taking.{ChecksLines, IsFresh};

    /// A detector that has accepted no event.
    pub fn new(alloc: Global, listing: Listing) -> Result<Checking, Refusal>
        ensures fresh { IfOk result (IsFresh listing) }
        ensures cause { IfErr result (λ r. r ≡ Refusal.OutOfMemory) }
    {
        let detector = new_detector(alloc, MOST_SETS)?;
        Ok(Checking {
            alloc,
            detector,
            listing,
            printed: 0,
            held: Vec::new(alloc),
        })
    }

    /// Prints the reports that are new since the last time, if reports are printed as they come.
    pub(crate) fn print<W: Write>(&mut self, output: &mut Output<W>) -> Result<(), Refusal>
        ensures ok { OnOk result (ChecksLines self.old output.old.calls [] (Ok None) self.new output.new.calls) }
        ensures err { IfErr result (λ r. ChecksLines self.old output.old.calls [] (Err r) self.new output.new.calls) }
        ensures detector { self.new.detector ≡ self.old.detector }
        ensures count { self.new.printed ≡ length (content_of self.old.detector).reports }
    {
        let from = self.printed;
        self.printed = self.detector.kept();
        match self.listing {
            Listing::Reports => print_reports(
                self.alloc,
                &self.detector,
                from,
                &mut self.held,
                output,
            ),
            Listing::Segments => Ok(()),
        }
    }
}

impl<W: Write> Sink<W> for Checking {
    ghost use Rattle.hg_check.specs.Taking.{ChecksLines, MayTake};
    ghost use Rattle.hg_reading.specs.Taking.{AlwaysSettled};
    ghost use Rattle.hg_check.specs.TakingLaws.{takes_fewer, takes_none, takes_on, takes_room};

    type End = Ending;

    ghost may_take = { MayTake };

    ghost takes = { ChecksLines };

    ghost settled = { AlwaysSettled };

    #[inline(always)]
    fn offer(
        &mut self,
        reading: &Reading,
        _output: &mut Output<W>,
    ) -> Result<Option<Ending>, Refusal> {
        apply(&mut self.detector, reading)
    }

    #[inline(always)]
    fn offer_access(
        &mut self,
        line: u64,
        found: &AccessLine,
        _output: &mut Output<W>,
    ) -> Result<Option<Ending>, Refusal> {
        apply_access(&mut self.detector, line, found)
    }

    #[inline(always)]
    fn offer_hold(
        &mut self,
        line: u64,
        hold: Hold,
        _output: &mut Output<W>,
    ) -> Result<Option<Ending>, Refusal> {
        apply_hold(&mut self.detector, line, hold)
    }

    /// Prints what is new. Each line was judged where it was offered.
    fn settle(&mut self, output: &mut Output<W>) -> Result<Option<Ending>, Refusal> {
        self.print(output)?;
        Ok(None)
    }

    ghost none = { takes_none };

    ghost on = { takes_on };

    ghost room = { takes_room };

    ghost fewer = { takes_fewer };
}

impl<W: Write> QueueSink<W> for Checking {
    type Queue = Vec<Queued>;

    fn new_queue(&self, alloc: Global, places: usize) -> Result<Vec<Queued>, AllocError> {
        Vec::with_capacity(alloc, places)
    }

    fn offer_queue(
        &mut self,
        lines: u64,
        queue: &Vec<Queued>,
        output: &mut Output<W>,
    ) -> Result<Option<Ending>, Refusal> {
        offer_all(lines, queue.as_slice(), self, output)
    }
}
