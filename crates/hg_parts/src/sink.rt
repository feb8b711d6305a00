//! A judge with a buffer of lines, which takes the lines of a trace text.

ghost use Rattle.std.specs.Prelude.{◌≡◌, ◌≤◌, IfErr, IfOk};

use crate::checking::PartsChecking;
use crate::queue::PartsQueue;
use hg_model::event::Hold;
use hg_model::verdict::Refusal;
use hg_reading::ending::Ending;
use hg_reading::queued::offer_all;
use hg_reading::sink::{QueueSink, Sink, access_event};
use hg_streams::output::Output;
use hg_wire::line::AccessLine;
use hg_wire::reader::Reading;
use std::alloc::{AllocError, Global};
use std::io::Write;
use std::marker::Sync;
use std::thread::Threads;

/// A judge of all parts, and what starts its threads.
#[derive(Drop)]
pub(crate) struct PartsSink<'a, T> {
    pub(crate) rt: &'a T,
    pub(crate) checking: PartsChecking,
}

impl<'a, T> PartsSink<'a, T> {
    ghost use Rattle.hg_parts.specs.Taking.{IsFresh};

    /// A judge of so many parts that was offered no event.
    pub(crate) fn new(rt: &'a T, alloc: Global, parts: usize) -> Result<Self, Refusal>
        requires some { 1 ≤ parts }
        ensures fresh { IfOk result (λ s. IsFresh s.checking) }
        ensures cause { IfErr result (λ r. r ≡ Refusal.OutOfMemory) }
    {
        Ok(PartsSink {
            rt,
            checking: PartsChecking::new(alloc, parts)?,
        })
    }
}

impl<T: Threads + Sync, W: Write> Sink<W> for PartsSink<'_, T> {
    ghost use denote.Param.Send.{IsSync};
    ghost use Rattle.hg_parts.specs.Taking.{IsSettled, MayTake, TakesLines};
    ghost use Rattle.hg_parts.specs.TakingLaws.{takes_fewer, takes_none, takes_on, takes_room};

    type End = Ending;

    ghost may_take = { λ s n. IsSync T.row × MayTake s.checking n };

    ghost takes = { λ a at_a lines r b at_b. TakesLines a.checking at_a lines r b.checking at_b };

    ghost settled = { λ s. IsSettled s.checking };

    #[inline(always)]
    fn offer(
        &mut self,
        reading: &Reading,
        _output: &mut Output<W>,
    ) -> Result<Option<Ending>, Refusal> {
        match reading.event {
            Ok(event) => self.checking.offer_event(self.rt, reading.line, &event),
            Err(_) => self.checking.offer_bad(self.rt, reading.line),
        }
    }

    #[inline(always)]
    fn offer_access(
        &mut self,
        line: u64,
        found: &AccessLine,
        _output: &mut Output<W>,
    ) -> Result<Option<Ending>, Refusal> {
        let event = access_event(found);
        self.checking.offer_event(self.rt, line, &event)
    }

    #[inline(always)]
    fn offer_hold(
        &mut self,
        line: u64,
        hold: Hold,
        _output: &mut Output<W>,
    ) -> Result<Option<Ending>, Refusal> {
        let event = hold.event();
        self.checking.offer_event(self.rt, line, &event)
    }

    /// Judges the lines that are not judged yet, and prints what is new.
    fn settle(&mut self, output: &mut Output<W>) -> Result<Option<Ending>, Refusal> {
        self.checking.settle(self.rt, output)
    }

    ghost none = { λ s calls. takes_none s.checking calls };

    ghost on = { λ a b c at_a at_b at_c first later r. takes_on a.checking b.checking c.checking at_a at_b at_c first later r };

    ghost room = { λ a b at_a at_b first n may s. (may.0, takes_room a.checking b.checking at_a at_b first n may.1 s) };

    ghost fewer = { λ s n more may. (may.0, takes_fewer s.checking n more may.1) };
}

impl<T: Threads + Sync, W: Write> QueueSink<W> for PartsSink<'_, T> {
    type Queue = PartsQueue;

    fn new_queue(&self, alloc: Global, places: usize) -> Result<PartsQueue, AllocError> {
        PartsQueue::new(alloc, self.checking.buffer.parts(), places)
    }

    /// Offers the batch at once, and then the lines behind it one after another.
    fn offer_queue(
        &mut self,
        lines: u64,
        queue: &PartsQueue,
        output: &mut Output<W>,
    ) -> Result<Option<Ending>, Refusal> {
        match self.checking.offer_batch(self.rt, lines, &queue.batch) {
            Err(refusal) => Err(refusal),
            Ok(Some(end)) => Ok(Some(end)),
            Ok(None) => {
                let behind = lines + queue.batch.greatest;
                offer_all(behind, queue.rest.as_slice(), self, output)
            }
        }
    }
}
