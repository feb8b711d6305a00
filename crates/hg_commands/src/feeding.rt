//! Feeding the events of a trace text to a store.

ghost use Rattle.std.specs.Prelude.{◌≡◌, ◌+◌, ◌<◌, ◌++◌, false, Option, [], Ok, IfOk, IfErr, IsTrue, OnErr, OnOk};
ghost use Rattle.hg_streams.specs.Calls.{failed_writes};
ghost use Rattle.hg_streams.specs.Told.{told};
ghost use Rattle.hg_streams.specs.Written.{Took};
ghost use Rattle.hg_store.specs.Shown.{live};
ghost use Rattle.hg_store.specs.Store.{IsIdle};
ghost use Rattle.hg_commands.specs.FeedRunning.{IsReady, is_due, place};
ghost use Rattle.hg_streams.specs.Faults.{IsStreamFault, TellsNoFault};
ghost use Rattle.hg_streams.specs.Printed.{IsPrintedNow};
ghost use Rattle.hg_commands.specs.Stepping.{AcksAreKept, Checkpointed, Done, Failed, FailedFor, Fails, FaultIsTold, FedOrFault, FedWhere, FeedsFrom, FrontWhere, IsOnWay, KeepsAcks, LeavesFront, LeftFront, MayHaveTold, MomentsAreRun, StaysKept, FeedsWell, TellsRun, end_of};
ghost use Rattle.hg_commands.specs.FeedFaults.{IsFeedFault, Rests};
ghost use Rattle.hg_commands.specs.Instants.{WereOpenWith};
ghost use Rattle.hg_commands.specs.Storing.{EndsFlushed};

use crate::lines::{Fed, Feeding};
use crate::listing::hold_end_line;
use crate::moment::{Moment, Outcome};
use crate::offering::EventParts;
use crate::settings::FeedSettings;
use hg_disk::Disk;
use hg_model::event::Hold;
use hg_model::verdict::Refusal;
use hg_reading::ending::{Ending, ended, hold_stop, status_of_end};
use hg_reading::queued::{Queued, offer_all};
use hg_reading::sink::{QueueSink, Sink};
use hg_reading::whole::read_side_by_side;
use hg_store::devices::{Caps, Devices};
use hg_store::store::Store;
use hg_streams::input::Input;
use hg_streams::output::Output;
use hg_streams::printing::{print_now, print_number};
use hg_streams::streams::Streams;
use hg_streams::telling::end_by_fault;
use hg_trail::Trail;
use hg_wire::line::AccessLine;
use hg_wire::reader::Reading;
use std::alloc::{AllocError, Global};
use std::io::{Read, Write};
use std::marker::Sync;
use std::thread::Threads;

impl<D: Disk, W: Write> Sink<W> for Feeding<D, W> {
    ghost use Rattle.hg_reading.specs.Taking.{AlwaysSettled};
    ghost use Rattle.hg_commands.specs.Taking.{MayTake, TakesLines};
    ghost use Rattle.hg_commands.specs.TakingLaws.{takes_fewer, takes_none, takes_on, takes_room};

    type End = Ending;

    ghost may_take = { λ s n. MayTake (place s.store s.fed []) n };

    ghost takes = { TakesLines ⟦<D as Disk>⟧ };

    ghost settled = { AlwaysSettled };

    fn offer(
        &mut self,
        reading: &Reading,
        output: &mut Output<W>,
    ) -> Result<Option<Ending>, Refusal> {
        self.feed_reading(reading, output)
    }

    #[inline(always)]
    fn offer_access(
        &mut self,
        line: u64,
        found: &AccessLine,
        output: &mut Output<W>,
    ) -> Result<Option<Ending>, Refusal> {
        let parts = EventParts::Access {
            access: found.access,
            write: found.is_write,
        };
        self.feed_event(line, parts, output)
    }

    #[inline(always)]
    fn offer_hold(
        &mut self,
        line: u64,
        hold: Hold,
        output: &mut Output<W>,
    ) -> Result<Option<Ending>, Refusal> {
        self.feed_event(line, EventParts::Hold(hold), output)
    }

    /// Does nothing: each line was judged where it was offered, and printed its own text.
    fn settle(&mut self, _output: &mut Output<W>) -> Result<Option<Ending>, Refusal> {
        Ok(None)
    }

    ghost none = { λ s calls. takes_none ⟦<D as Disk>⟧ (place s.store s.fed calls) s.moments };

    ghost on = { λ a b c at_a at_b at_c first later r. takes_on ⟦<D as Disk>⟧ (place a.store a.fed at_a) (place b.store b.fed at_b) (place c.store c.fed at_c) a.moments b.moments c.moments first later r };

    ghost room = { λ a b at_a at_b first n. takes_room ⟦<D as Disk>⟧ (place a.store a.fed at_a) (place b.store b.fed at_b) a.moments b.moments first n };

    ghost fewer = { λ s n more. takes_fewer (place s.store s.fed []) n more };
}

impl<D: Disk, W: Write> QueueSink<W> for Feeding<D, W> {
    type Queue = Vec<Queued>;

    fn new_queue(&self, alloc: Global, places: usize) -> Result<Vec<Queued>, AllocError> {
        Vec::with_capacity(alloc, places)
    }

    fn offer_queue(
        &mut self,
        lines: u64,
        queue: &Vec<Queued>,
        output: &mut Output<W>,
    ) -> Result<Option<Ending>, Refusal> {
        offer_all(lines, queue.as_slice(), self, output)
    }
}

/// Holds the last line: the end line, or the line that was refused or bad.
fn hold_last_line<D: Disk>(store: &Store<D>, end: Ending, held: &mut Vec<u8>) -> Result<(), Refusal>
    requires works { store.now.is_broken ≡ false }
    ensures ok { OnOk result (held.new.items ≡ held.old.items ++ end_of ⟦<D as Disk>⟧ store.now end) }
    ensures cause { IfErr result (λ r. r ≡ Refusal.OutOfMemory) }
{
    match end {
        Ending::Ended => hold_end_line(store, held),
        Ending::Refused { .. } => hold_stop(end, held),
        Ending::Bad { .. } => hold_stop(end, held),
    }
}

/// Prints the last line.
fn print_end<D: Disk, W: Write>(
    alloc: Global,
    store: &Store<D>,
    end: Ending,
    output: &mut Output<W>,
) -> Result<(), Refusal>
    requires works { store.now.is_broken ≡ false }
    ensures printed { OnOk result (Took output.old.calls output.new.calls (end_of ⟦<D as Disk>⟧ store.now end)) }
    ensures cause { IfErr result IsStreamFault }
    ensures fault { failed_writes output.new.calls ≡ told result + failed_writes output.old.calls }
    ensures calls { IsPrintedNow output.old.calls output.new.calls (end_of ⟦<D as Disk>⟧ store.now end) }
    ensures flushed { OnOk result (EndsFlushed output.new.calls) }
{
    let mut held = Vec::new(alloc);
    hold_last_line(store, end, &mut held)?;
    print_now(held.as_slice(), output)?;
    Ok(())
}

/// Whether a checkpoint is due: one is asked for, and the input came to its end.
fn checkpoint_is_due(asked: bool, end: Ending) -> bool
    ensures { result ≡ is_due asked end }
{
    match end {
        Ending::Ended => asked,
        Ending::Refused { .. } => false,
        Ending::Bad { .. } => false,
    }
}

impl<D: Disk, W: Write> Feeding<D, W> {
    /// Reads a trace text to its end, or up to the line that ends the feeding, and offers its events. Up to `jobs` threads read the lines.
    fn feed_lines<T: Threads + Sync, R: Read>(
        &mut self,
        rt: &T,
        jobs: usize,
        alloc: Global,
        input: &mut Input<R>,
        output: &mut Output<W>,
    ) -> Result<Ending, Refusal>
        requires ready { IsReady self.old.store self.old.fed }
        requires start { self.old.fed.number ≡ 0 }
        ensures goes { OnOk result (FeedsWell ⟦<D as Disk>⟧ self.old output.old self.new output.new) }
        ensures feeds { IfOk result (FeedsFrom ⟦<D as Disk>⟧ input.old input.new self.old self.new) }
        ensures front { OnErr result (LeftFront ⟦<D as Disk>⟧ input.old input.new self.old output.old output.new) }
        ensures way { IsOnWay ⟦<D as Disk>⟧ input.old input.new self.old self.new }
        ensures cause { Fails ⟦<D as Disk>⟧ false input.old input.new self.old output.old self.new output.new result }
        ensures kept { StaysKept ⟦<D as Disk>⟧ self.old output.old self.new output.new }
    {
        let stop = read_side_by_side(rt, jobs, alloc, input, self, output)?;
        Ok(ended(stop))
    }

    /// Makes the checkpoint that is due, gives up the events that it counts, and tells its number.
    fn checkpoint_if_due(
        &mut self,
        alloc: Global,
        is_made: bool,
        output: &mut Output<W>,
    ) -> Result<(), Refusal>
        requires rests { Rests self.old.store }
        ensures made { OnOk result (Checkpointed ⟦<D as Disk>⟧ is_made self.old output.old self.new output.new) }
        ensures front { OnErr result (MayHaveTold output.old output.new) }
        ensures live { IsTrue D.is_honest → live ⟦<D as Disk>⟧ self.new.store ≡ live ⟦<D as Disk>⟧ self.old.store }
        ensures cause { IfErr result (IsFeedFault ⟦<D as Disk>⟧ is_made self.new.store.devices) }
        ensures fault { Failed ⟦<D as Disk>⟧ (told result) self.old output.old self.new output.new }
        ensures kept { StaysKept ⟦<D as Disk>⟧ self.old output.old self.new output.new }
    {
        if !is_made {
            return Ok(());
        }
        let number = self.make_checkpoint(alloc, &*output)?;
        print_number(b"checkpoint ", number, output)
    }

    /// Feeds a trace text to the store, with all that is printed of it.
    fn feed_store<T: Threads + Sync, R: Read>(
        &mut self,
        rt: &T,
        jobs: usize,
        alloc: Global,
        asked: bool,
        input: &mut Input<R>,
        output: &mut Output<W>,
    ) -> Result<Ending, Refusal>
        requires idle { IsIdle self.old.store }
        requires number { self.old.fed.number ≡ 0 }
        requires accepted { self.old.fed.accepted ≡ 0 }
        ensures fed { Done ⟦<D as Disk>⟧ asked input.old input.new self.old output.old self.new output.new result }
        ensures front { FrontWhere ⟦<D as Disk>⟧ input.old input.new self.old output.old output.new result }
        ensures way { IsOnWay ⟦<D as Disk>⟧ input.old input.new self.old self.new }
        ensures cause { Fails ⟦<D as Disk>⟧ asked input.old input.new self.old output.old self.new output.new result }
        ensures kept { StaysKept ⟦<D as Disk>⟧ self.old output.old self.new output.new }
    {
        let last = self.store.last(self.fed.source)?;
        print_number(b"resume ", last, output)?;
        let end = self.feed_lines(rt, jobs, alloc, input, output)?;
        self.acknowledge(output)?;
        let is_made = checkpoint_is_due(asked, end);
        self.checkpoint_if_due(alloc, is_made, output)?;
        print_end(alloc, &self.store, end, output)?;
        self.store.stands();
        Ok(end)
    }
}

/// Recovers a store, feeds a trace text to it, and hands its devices back, with the moments since its opening.
fn recover_and_feed<T: Threads + Sync, D: Disk, R: Read, W: Write>(
    rt: &T,
    alloc: Global,
    devices: Devices<D>,
    settings: FeedSettings,
    input: &mut Input<R>,
    output: &mut Output<W>,
) -> (Result<Ending, Refusal>, Devices<D>, Trail<Moment<D, W>>)
    ensures fed { FedWhere ⟦<D as Disk>⟧ settings devices input.old input.new output.old output.new result }
    ensures front { LeavesFront ⟦<D as Disk>⟧ settings devices input.old input.new output.old output.new result }
    ensures cause { FailedFor ⟦<D as Disk>⟧ settings devices input.old input.new output.old output.new result }
    ensures kept { AcksAreKept ⟦<D as Disk>⟧ settings devices input.old input.new output.old output.new result }
    ensures driven { MomentsAreRun ⟦<D as Disk>⟧ devices output.old output.new result }
    ensures limits { IsTrue D.is_honest → WereOpenWith settings.frames result.2 }
{
    match Store::recover(alloc, devices, settings.frames, Caps::profile()) {
        Ok(store) => {
            store.stands();
            let mut moments = Trail::new();
            moments.push(Moment::of(&store, &*output));
            let fed = Fed {
                source: settings.source,
                number: 0,
                accepted: 0,
            };
            let mut feeding = Feeding {
                store,
                fed,
                moments,
            };
            let end = feeding.feed_store(
                rt,
                settings.jobs,
                alloc,
                settings.checkpoint,
                input,
                output,
            );
            let Feeding {
                store,
                fed: _,
                moments,
            } = feeding;
            (end, store.into_devices(), moments)
        }
        Err((refusal, devices)) => (Err(refusal), devices, Trail::new()),
    }
}

/// Recovers the store that the devices hold, and feeds it a trace text as the events of a source. Each event has the number of its
/// line among the lines with events, from 1 on. Events that were sent before are passed over. A commit comes after each 256th accepted
/// event and at the end.
///
/// Prints the last number that the source had sent; at each commit the count of all accepted events; the number of the checkpoint, if
/// one is asked for and the input came to its end; and the end line, or the line that was refused or bad. After such a line nothing is
/// read.
///
/// The status is 0, 2 where a line was refused or bad, or 3 where the devices hold no store, a device or a stream failed, or
/// memory or room was refused, which is told among the faults. What was printed before that is a front of what was due.
///
/// Whatever the status, a crash at any moment of the call loses no event that an `ack` written by then counts. The moments in the
/// outcome show it: the first is the opening of the store, and one comes after each step of the store and tells it. So what was done to the
/// store is a run as `Store::drive` makes it. A checkpoint changes no content.
/// Behind it one journal is spare, so of the events that it counts those of the other one alone are kept; none is, if one was spare at first.
///
/// Up to `jobs` threads read the lines of large pieces; what is done and printed never depends on how many.
///
/// At each moment the store has the frames that were asked for, and the greatest number of slots. Where no checkpoint is due, the roots are
/// called to open the store, four times each at most, and not after that, and a read of one journal gives what it gave.
pub fn feed<T: Threads + Sync, D: Disk, R: Read, W: Write, V: Write>(
    rt: &T,
    alloc: Global,
    devices: Devices<D>,
    settings: FeedSettings,
    streams: &mut Streams<R, W, V>,
) -> Outcome<D, W>
    ensures fed { FedOrFault ⟦<D as Disk>⟧ settings devices streams.old streams.new result }
    ensures quiet { TellsNoFault result.status streams.old streams.new }
    ensures fault { FaultIsTold ⟦<D as Disk>⟧ settings devices streams.old streams.new result }
    ensures kept { KeepsAcks ⟦<D as Disk>⟧ settings devices streams.old result streams.new }
    ensures driven { TellsRun ⟦<D as Disk>⟧ devices streams.old result streams.new }
    ensures limits { IsTrue D.is_honest → WereOpenWith settings.frames result.moments }
{
    let (done, devices, moments) = recover_and_feed(
        rt,
        alloc,
        devices,
        settings,
        &mut streams.input,
        &mut streams.output,
    );
    match done {
        Ok(end) => Outcome {
            status: status_of_end(end),
            devices,
            moments,
        },
        Err(refusal) => {
            let status = end_by_fault(refusal, &mut streams.faults);
            Outcome {
                status,
                devices,
                moments,
            }
        }
    }
}
