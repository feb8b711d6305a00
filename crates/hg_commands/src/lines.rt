//! The lines of a trace text, one after another, as events of a source.

ghost use Rattle.std.specs.Prelude.{◌≡◌, ◌+◌, ◌<◌, ◌^◌, ◌%◌, false, length, IfErr, OnOk};
ghost use Rattle.hg_streams.specs.Told.{told};
ghost use Rattle.hg_streams.specs.Written.{Took};
ghost use Rattle.hg_commands.specs.FeedRunning.{EndsLine, IsReady, WasCommitted, WasSent};
ghost use Rattle.hg_streams.specs.Faults.{IsStreamFault};
ghost use Rattle.hg_streams.specs.Printed.{IsPrintedNow};
ghost use Rattle.hg_commands.specs.Stepping.{BreaksWhere, Counted, EndsWhere, Failed, KeepsToWay, PassesWhere, StaysKept, ack_due, ack_of};
ghost use Rattle.hg_commands.specs.FeedFaults.{IsLineFault};
ghost use Rattle.hg_commands.specs.Offering.{event_of, reading_of};

use crate::moment::Moment;
use crate::offering::{EventParts, named_of, offer_parts};
use hg_detect::detector::Answer;
use hg_disk::Disk;
use hg_model::verdict::Refusal;
use hg_reading::ending::Ending;
use hg_store::made::MadeStep;
use hg_store::steps::{Step, StepResult};
use hg_store::store::Store;
use hg_streams::output::Output;
use hg_streams::printing::print_number;
use hg_trail::Trail;
use hg_wire::reader::Reading;
use std::io::Write;
use std::snapshot::Snapshot;

/// After how many accepted events a commit comes.
const BATCH: u64 = 256;

/// How far a source has been fed.
#[derive(Clone, Copy, Debug, PartialEq, Eq, Drop)]
pub struct Fed {
    /// The source, whose events are numbered as their lines.
    pub source: u16,
    /// The number of the last line that had an event.
    pub number: u64,
    /// How many events were accepted.
    pub accepted: u64,
}

/// A store that is fed.
pub(crate) struct Feeding<D: Disk, W> {
    pub store: Store<D>,
    /// How far its source has come.
    pub fed: Fed,
    /// The moments so far, for contracts alone.
    pub moments: Trail<Moment<D, W>>,
}

impl<D: Disk, W: Write> Feeding<D, W> {
    /// Commits, and prints `ack` with the count of durable events at once.
    pub(crate) fn acknowledge(&mut self, output: &mut Output<W>) -> Result<(), Refusal>
        requires works { self.old.store.is_broken ≡ false }
        ensures committed { OnOk result (WasCommitted ⟦<D as Disk>⟧ self.old.store self.new.store) }
        ensures printed { OnOk result (Took output.old.calls output.new.calls (ack_of ⟦<D as Disk>⟧ self.old)) }
        ensures calls { IsPrintedNow output.old.calls output.new.calls (ack_of ⟦<D as Disk>⟧ self.old) }
        ensures cause { IfErr result IsStreamFault }
        ensures fault { Failed ⟦<D as Disk>⟧ (told result) self.old output.old self.new output.new }
        ensures detector { self.new.store.detector ≡ self.old.store.detector }
        ensures progress { self.new.store.progress ≡ self.old.store.progress }
        ensures fed { self.new.fed ≡ self.old.fed }
        ensures kept { StaysKept ⟦<D as Disk>⟧ self.old output.old self.new output.new }
    {
        let began = Snapshot::of(&self.store);
        let committed = self.store.commit();
        self.store.stands();
        let made = MadeStep::of(began, &Step::Commit, &StepResult::Committed(committed));
        self.moments
            .push(Moment::behind(made, &self.store, &*output));
        print_number(b"ack ", committed?, output)
    }

    /// Counts an accepted event. After each 256th comes a commit.
    fn count_accepted(&mut self, output: &mut Output<W>) -> Result<(), Refusal>
        requires works { self.old.store.is_broken ≡ false }
        requires pending { length self.old.store.pending ≡ self.old.fed.accepted % 256 + 1 }
        requires room { self.old.fed.accepted + 1 < 2 ^ 64 }
        ensures counted { OnOk result (Counted ⟦<D as Disk>⟧ self.old output.old self.new output.new) }
        ensures calls { IsPrintedNow output.old.calls output.new.calls (ack_due ⟦<D as Disk>⟧ self.old) }
        ensures cause { IfErr result IsStreamFault }
        ensures fault { Failed ⟦<D as Disk>⟧ (told result) self.old output.old self.new output.new }
        ensures detector { self.new.store.detector ≡ self.old.store.detector }
        ensures kept { StaysKept ⟦<D as Disk>⟧ self.old output.old self.new output.new }
    {
        self.fed.accepted += 1;
        if self.fed.accepted % BATCH == 0 {
            return self.acknowledge(output);
        }
        Ok(())
    }

    /// Offers an event as the next one of its source.
    #[inline(always)]
    fn send(&mut self, parts: EventParts, output: &Output<W>) -> Result<Answer, Refusal>
        requires room { self.old.fed.number + 1 < 2 ^ 64 }
        ensures sent { WasSent ⟦<D as Disk>⟧ self.old.store self.new.store self.old.fed self.new.fed (event_of parts) result }
        ensures kept { StaysKept ⟦<D as Disk>⟧ self.old output.now self.new output.now }
    {
        self.fed.number += 1;
        let began = Snapshot::of(&self.store);
        let answer = offer_parts(&mut self.store, self.fed.source, self.fed.number, parts);
        self.store.stands();
        let step = Step::Offer(named_of(self.fed.source, self.fed.number, parts));
        let made = MadeStep::of(began, &step, &StepResult::Offered(answer));
        self.moments.push(Moment::behind(made, &self.store, output));
        answer
    }

    /// Offers the event of a line. `None` says that it was accepted, or was sent before.
    #[inline(always)]
    pub(crate) fn feed_event(
        &mut self,
        line: u64,
        parts: EventParts,
        output: &mut Output<W>,
    ) -> Result<Option<Ending>, Refusal>
        requires ready { IsReady self.old.store self.old.fed }
        requires room { self.old.fed.number + 1 < 2 ^ 64 }
        ensures passes { PassesWhere ⟦<D as Disk>⟧ (reading_of line parts) self.old output.old result self.new output.new }
        ensures ends { EndsWhere ⟦<D as Disk>⟧ (reading_of line parts) self.old output.old result self.new output.new }
        ensures front { BreaksWhere ⟦<D as Disk>⟧ (reading_of line parts) self.old output.old result output.new }
        ensures way { KeepsToWay ⟦<D as Disk>⟧ (reading_of line parts) self.old output.old self.new output.new }
        ensures cause { IfErr result (IsLineFault ⟦<D as Disk>⟧) }
        ensures fault { Failed ⟦<D as Disk>⟧ (told result) self.old output.old self.new output.new }
        ensures kept { StaysKept ⟦<D as Disk>⟧ self.old output.old self.new output.new }
    {
        match self.send(parts, &*output) {
            Ok(Answer::Accepted) => {
                self.count_accepted(output)?;
                Ok(None)
            }
            Ok(Answer::Duplicate(_)) => Ok(None),
            Err(refusal) => end_line(line, refusal),
        }
    }

    /// Offers the event of a line that was read whole, and answers as `feed_event` does. A line without an event ends the feeding.
    pub(crate) fn feed_reading(
        &mut self,
        reading: &Reading,
        output: &mut Output<W>,
    ) -> Result<Option<Ending>, Refusal>
        requires ready { IsReady self.old.store self.old.fed }
        requires room { self.old.fed.number + 1 < 2 ^ 64 }
        ensures passes { PassesWhere ⟦<D as Disk>⟧ reading.now self.old output.old result self.new output.new }
        ensures ends { EndsWhere ⟦<D as Disk>⟧ reading.now self.old output.old result self.new output.new }
        ensures front { BreaksWhere ⟦<D as Disk>⟧ reading.now self.old output.old result output.new }
        ensures way { KeepsToWay ⟦<D as Disk>⟧ reading.now self.old output.old self.new output.new }
        ensures cause { IfErr result (IsLineFault ⟦<D as Disk>⟧) }
        ensures fault { Failed ⟦<D as Disk>⟧ (told result) self.old output.old self.new output.new }
        ensures kept { StaysKept ⟦<D as Disk>⟧ self.old output.old self.new output.new }
    {
        let line = reading.line;
        let Ok(event) = reading.event else {
            return Ok(Some(Ending::Bad { line }));
        };
        self.feed_event(line, EventParts::Whole(event), output)
    }
}

/// How the refusal of a line's event ends feeding: a fault of the store or want of memory ends it as such, any other cause is the line's.
fn end_line(line: u64, refusal: Refusal) -> Result<Option<Ending>, Refusal>
    ensures { EndsLine line refusal result }
{
    match refusal {
        Refusal::OutOfMemory => Err(Refusal::OutOfMemory),
        Refusal::DeviceFault => Err(Refusal::DeviceFault),
        Refusal::Damaged => Err(Refusal::Damaged),
        Refusal::Broken => Err(Refusal::Broken),
        _ => Ok(Some(Ending::Refused { line, refusal })),
    }
}
