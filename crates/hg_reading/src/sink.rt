//! Sinks, which take the events of a trace text.

ghost use Rattle.std.specs.Prelude.{◌≡◌, ℕ, ◌+◌, ◌++◌, ◌<◌, ◌≤◌, ◌^◌, List, [], ◌∷◌, Option, None, Result, Ok, IfOk, length};
ghost use Rattle.hg_model.specs.declared.verdict.Refusal.{Refusal as RefusalOf};
ghost use Rattle.hg_streams.specs.declared.call.WriteCall.{WriteCall};
ghost use Rattle.hg_wire.specs.Accesses.{event_of};
ghost use Rattle.hg_wire.specs.declared.reader.Reading.{Reading as ReadingOf};
ghost use Rattle.hg_reading.specs.Queueing.{OffersLines, no_lines};
ghost use Rattle.hg_reading.specs.Taking.{access_at, hold_at};

use crate::queue::Queue;
use hg_model::event::{Event, Hold};
use hg_model::verdict::Refusal;
use hg_streams::output::Output;
use hg_wire::line::AccessLine;
use hg_wire::reader::Reading;
use std::alloc::{AllocError, Global};
use std::marker::Send;

/// The event of a line that is a read or a write.
#[inline(always)]
pub fn access_event(found: &AccessLine) -> Event
    ensures { result ≡ event_of found.now }
{
    if found.is_write {
        Event::Write(found.access)
    } else {
        Event::Read(found.access)
    }
}

/// Takes the events of a trace text, one line after another, and prints what comes of them. Lines may be judged after they were offered,
/// at the latest where the sink settles.
pub trait Sink<W> {
    /// How a line may end the run.
    type End;

    /// So many lines may be offered.
    ghost may_take: { Self → ℕ → Type 0 };

    /// From one state of the sink and its output to another these lines were offered, with this answer: `Ok None` where each was passed;
    /// else a line ended the run, or a fault broke it off. Whether others may stand behind that line is the sink's affair.
    ghost takes: { Self → List WriteCall → List ReadingOf → Result (Option Self.End) RefusalOf → Self → List WriteCall → Type 0 };

    /// All lines that were offered are judged.
    ghost settled: { Self → Type 0 };

    /// Offers a line. `None` says that it was passed.
    fn offer(
        &mut self,
        reading: &Reading,
        output: &mut Output<W>,
    ) -> Result<Option<Self::End>, Refusal>
        requires room { may_take self.old 1 }
        ensures takes { takes self.old output.old.calls (reading.now ∷ []) result self.new output.new.calls };

    /// Offers the line of a read or a write, in its parts.
    fn offer_access(
        &mut self,
        line: u64,
        found: &AccessLine,
        output: &mut Output<W>,
    ) -> Result<Option<Self::End>, Refusal>
        requires room { may_take self.old 1 }
        ensures takes { takes self.old output.old.calls (access_at line found.now) result self.new output.new.calls };

    /// Offers the line of an event on a lock, in its parts.
    #[inline(always)]
    fn offer_hold(
        &mut self,
        line: u64,
        hold: Hold,
        output: &mut Output<W>,
    ) -> Result<Option<Self::End>, Refusal>
        requires room { may_take self.old 1 }
        ensures takes { takes self.old output.old.calls (hold_at line hold) result self.new output.new.calls }
    {
        let reading = Reading {
            line,
            event: Ok(hold.event()),
        };
        self.offer(&reading, output)
    }

    /// Judges the lines that are not judged yet, and prints what is due before the next read. `None` says that none of them ended the run.
    fn settle(&mut self, output: &mut Output<W>) -> Result<Option<Self::End>, Refusal>
        requires room { may_take self.old 0 }
        ensures takes { takes self.old output.old.calls [] result self.new output.new.calls }
        ensures settled { result ≡ Ok None → settled self.new };

    /// Offering no lines changes nothing.
    ghost none: { (s : Self) (calls : List WriteCall) → takes s calls [] (Ok None) s calls };

    /// Where the first lines were passed and the later ones gave an answer, all of them together give that answer.
    ghost on: { (a b c : Self) (at_a at_b at_c : List WriteCall) (first later : List ReadingOf) (r : Result (Option Self.End) RefusalOf)
        → takes a at_a first (Ok None) b at_b → takes b at_b later r c at_c → takes a at_a (first ++ later) r c at_c };

    /// Lines that were passed leave room for the others.
    ghost room: { (a b : Self) (at_a at_b : List WriteCall) (first : List ReadingOf) (n : ℕ)
        → may_take a (length first + n) → takes a at_a first (Ok None) b at_b → may_take b n };

    /// Where many lines may be offered, so may fewer.
    ghost fewer: { (s : Self) (n more : ℕ) → may_take s (n + more) → may_take s n };
}

/// Takes parsed lines by the queue too. Other threads fill its queues.
pub trait QueueSink<W>: Sink<W> {
    /// What holds parsed lines until they are offered.
    type Queue: Queue + Send;

    /// An empty queue with at least so many places.
    fn new_queue(&self, alloc: Global, places: usize) -> Result<Self::Queue, AllocError>
        ensures none { IfOk result (λ queue. Self.Queue.held queue ≡ no_lines) }
        ensures places { IfOk result (λ queue. places ≤ Self.Queue.places queue) };

    /// Offers all lines of a queue, which stand behind `lines` others, up to the first that is not passed. `None` says that each was passed.
    fn offer_queue(
        &mut self,
        lines: u64,
        queue: &Self::Queue,
        output: &mut Output<W>,
    ) -> Result<Option<Self::End>, Refusal>
        requires lines { lines + (Self.Queue.held queue.now).count < 2 ^ 64 }
        requires room { Self.may_take self.old (length (Self.Queue.held queue.now).readings) }
        ensures takes { OffersLines Self.takes lines (Self.Queue.held queue.now) self.old output.old result self.new output.new };
}
