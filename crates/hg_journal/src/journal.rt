//! A journal: events on a disk, in batches. A batch is durable once it was appended.
ghost use Rattle.std.specs.Prelude.{◌≡◌, ◌+◌, ◌≤◌, ℕ, List, length, vec_capacity, IsTrue, IfOk, IfErr, OnOk, OnErr, IsErrOf, Err, false};
ghost use Rattle.std.specs.List.{AllByRecursion};
ghost use Rattle.hg_disk.specs.State.{IsDurable};
ghost use Rattle.hg_disk.specs.Calls.{CallsAtMost};
ghost use Rattle.hg_disk.specs.Moments.{WereTrueBefore};
ghost use Rattle.hg_gate.specs.Reading.{WasRead};
ghost use Rattle.hg_gate.specs.declared.batch.TheConstants.{MAX_BODY_LEN};
ghost use Rattle.hg_gate.specs.Batch.{vec_of};
ghost use Rattle.hg_gate.specs.Batches.{IsBody, OneCallABatch, header};
ghost use Rattle.hg_records.specs.Records.{RecordFits};
ghost use Rattle.hg_journal.specs.Journal.{FailedOrUncalled, IsBrokenOrDevice, IsNoJournalIfDamaged, IsOfReading, batch_text, failed_after, of_gate};

use hg_disk::Disk;
use hg_gate::{Batch, GateFault, Log, LogReader, LogRoom, MAX_BODY_LEN};
use hg_model::event::Named;
use hg_model::verdict::Refusal;
use hg_records::record::{MAX_RECORD_LEN, put_record};
use std::alloc::{AllocError, Global};
use std::mem;

/// The most events of one append: the records of this many fit into a batch.
pub const MAX_BATCH_EVENTS: usize = 1_024;

const _: () = prove!(MAX_BATCH_EVENTS * MAX_RECORD_LEN <= MAX_BODY_LEN);

/// The events on a disk. They lie in the batches of a log; each batch is the records of some events.
pub struct Journal<D: Disk> {
    pub(crate) log: Log<D>,
    pub(crate) body: Vec<u8>,
    ghost room: { MAX_BODY_LEN ≤ vec_capacity body },
}

impl<D: Disk + Drop> Drop for Journal<D> {
    fn drop(self) {
        let Journal { log, body } = self;
        drop(log);
        drop(body);
    }
}

/// The memory of a journal, taken before its disk is called.
#[derive(Drop)]
pub struct JournalRoom {
    pub(crate) log: LogRoom,
    pub(crate) body: Vec<u8>,
    ghost room: { MAX_BODY_LEN ≤ vec_capacity body },
}

impl JournalRoom {
    /// Takes the memory of a journal.
    pub fn new(alloc: Global) -> Result<JournalRoom, AllocError> {
        let body = Vec::with_capacity(alloc, MAX_BODY_LEN)?;
        let log = LogRoom::new(alloc)?;
        Ok(JournalRoom { log, body })
    }
}

/// A place among the events of a journal: the next one to be read.
#[derive(Drop)]
pub struct JournalReader {
    pub(crate) batches: LogReader,
}

// The refusal that tells a log's fault.
pub(crate) fn refusal_of(fault: GateFault) -> Refusal
    ensures { result ≡ of_gate fault }
{
    match fault {
        GateFault::Broken => Refusal::Broken,
        GateFault::Damaged => Refusal::Damaged,
        GateFault::DeviceFault => Refusal::DeviceFault,
        GateFault::OutOfMemory => Refusal::OutOfMemory,
    }
}

// Fills the buffer with the records of some events. The room is there, so it can't fail.
fn put_records(events: &[Named], body: &mut Vec<u8>)
    requires few { length events.now ≤ MAX_BATCH_EVENTS }
    requires room { MAX_BODY_LEN ≤ vec_capacity body.old }
    ensures items { body.new.items ≡ batch_text events.now }
    ensures room { MAX_BODY_LEN ≤ vec_capacity body.new }
    ensures fits { AllByRecursion RecordFits events.now }
{
    body.clear();
    for event in events {
        let _ = put_record(event, body);
    }
}

// A batch of these bytes, of which there are 1 to 25,600.
fn batch_of(body: Vec<u8>) -> Batch
    requires { IsBody body.items }
    ensures { vec_of result ≡ body }
{
    match Batch::new(body) {
        Ok(batch) => batch,
        Err(_) => unreachable!(),
    }
}

impl<D: Disk> Journal<D> {
    ghost use Rattle.hg_journal.specs.Reading.{AddsDurably, AddsDurablyBehind, AddsEvents, AddsEventsBehind, IsEmptyOn, KeepsReaders, KeepsReadersBehind, LeavesAllOrNone, LeavesAllOrNoneBehind, OpensSome, StaysBroken, disk_after, disk_of, failures_of_making, is_broken};

    /// Makes a journal without events on an empty disk. A refusal hands the disk back; after `OutOfMemory` the disk was not
    /// called. It makes two device calls at most.
    pub fn create(alloc: Global, disk: D) -> Result<Journal<D>, (Refusal, D)>
        requires { length (D.state disk).contents ≡ 0 }
        ensures empty { IfOk result (IsEmptyOn disk) }
        ensures calls { CallsAtMost ⟦<D as Disk>⟧ 2 disk (disk_after result) }
        ensures kept { WereTrueBefore ⟦<D as Disk>⟧ disk (disk_after result) }
        ensures device { IfErr result (λ e. e.0 ≡ Refusal.DeviceFault → D.failures e.1 ≡ D.failures disk + 1) }
        ensures memory { IfErr result (FailedOrUncalled disk) }
    {
        match JournalRoom::new(alloc) {
            Ok(room) => Journal::create_in(room, disk),
            Err(AllocError) => Err((Refusal::OutOfMemory, disk)),
        }
    }

    /// Makes a journal without events on an empty disk, with memory taken before. `DeviceFault` hands the disk back. It
    /// makes two device calls at most.
    pub fn create_in(room: JournalRoom, disk: D) -> Result<Journal<D>, (Refusal, D)>
        requires { length (D.state disk).contents ≡ 0 }
        ensures empty { IfOk result (IsEmptyOn disk) }
        ensures calls { CallsAtMost ⟦<D as Disk>⟧ 2 disk (disk_after result) }
        ensures kept { WereTrueBefore ⟦<D as Disk>⟧ disk (disk_after result) }
        ensures device { IfErr result (λ e. (e.0 ≡ Refusal.DeviceFault) × (D.failures e.1 ≡ D.failures disk + 1)) }
    {
        let JournalRoom { log, body } = room;
        match Log::create_in(log, disk) {
            Ok(log) => Ok(Journal { log, body }),
            Err((fault, disk)) => Err((refusal_of(fault), disk)),
        }
    }

    /// The journal that a disk holds. A refusal hands the disk back: `Damaged` if the bytes are not a log's, `DeviceFault`
    /// or `OutOfMemory`. It changes nothing, and reads no events. If the disk was synced before, the batches are durable.
    pub fn attach(alloc: Global, disk: D) -> Result<Journal<D>, (Refusal, D)>
        ensures opens { IsTrue (D.reads_were_true (disk_after result)) → IsDurable (D.state disk) → IfOk result OpensSome }
        ensures damaged { IsTrue (D.reads_were_true (disk_after result)) → IfErr result (IsNoJournalIfDamaged (D.state disk).contents) }
        ensures works { IfOk result (λ journal. is_broken journal ≡ false) }
        ensures fault { IfErr result (λ e. IsOfReading e.0) }
        // At most as many device calls as the disk has bytes. If the reads were true, on a disk that holds a log: at most
        // one per batch, and two more.
        ensures disk { WasRead ⟦<D as Disk>⟧ (length (D.state disk).contents) disk (disk_after result) }
        ensures one_a_batch { IsTrue (D.reads_were_true (disk_after result)) → OneCallABatch ⟦<D as Disk>⟧ header disk (disk_after result) }

        ensures device { D.failures (disk_after result) ≡ failures_of_making result (D.failures disk) }
    {
        let body = match Vec::with_capacity(alloc, MAX_BODY_LEN) {
            Ok(body) => body,
            Err(AllocError) => return Err((Refusal::OutOfMemory, disk)),
        };
        match Log::attach(alloc, disk) {
            Ok(log) => Ok(Journal { log, body }),
            Err((fault, disk)) => Err((refusal_of(fault), disk)),
        }
    }

    /// The disk.
    pub fn into_disk(self) -> D
        ensures { result ≡ disk_of self }
    {
        let Journal { log, body: _ } = self;
        log.into_disks()
    }

    /// Adds 1 to 1,024 events, all at once. After an `Ok` they are durable. After an `Err` the journal is broken: each
    /// later call but `into_disk` answers `Broken`, and a crash leaves the events from before, with all the new ones or
    /// none. It makes four device calls at most, and takes no memory.
    pub fn append(&mut self, events: &[Named]) -> Result<(), Refusal>
        requires some { 1 ≤ length events.now }
        requires few { length events.now ≤ MAX_BATCH_EVENTS }
        ensures added { AddsEvents events.now self.old self.new result }
        ensures added_behind { (front : List ℕ) → AddsEventsBehind front events.now self.old self.new result }
        ensures durable { AddsDurably events.now self.old self.new result }
        ensures durable_behind { (front : List ℕ) → AddsDurablyBehind front events.now self.old self.new result }

        // A crash at any moment of the call leaves the events from before it, with all the new ones or none.
        ensures any_moment { LeavesAllOrNone events.now self.old self.new }
        ensures any_moment_behind { (front : List ℕ) → LeavesAllOrNoneBehind front events.now self.old self.new }

        // A reader that was begun before reads on, to the new events too.
        ensures readers { KeepsReaders self.old self.new result }
        ensures readers_behind { (front : List ℕ) → KeepsReadersBehind front self.old self.new result }

        ensures fault { IfErr result IsBrokenOrDevice }
        ensures calls { CallsAtMost ⟦<D as Disk>⟧ 4 (disk_of self.old) (disk_of self.new) }
        ensures kept { WereTrueBefore ⟦<D as Disk>⟧ (disk_of self.old) (disk_of self.new) }
        ensures device { D.failures (disk_of self.new) ≡ failed_after result (D.failures (disk_of self.old)) }
        ensures broken { IsErrOf result Refusal.Broken → IsTrue (is_broken self.old) }
        ensures breaks { OnErr result (IsTrue (is_broken self.new)) }
        ensures works { OnOk result (is_broken self.new ≡ false) }

        // A journal that is broken stays as it is.
        ensures refuses { IsTrue (is_broken self.old) → result ≡ Err Refusal.Broken }
        ensures same { StaysBroken self.old self.new }
    {
        put_records(events, &mut self.body);
        let alloc = *self.body.allocator();
        let body = mem::replace(&mut self.body, Vec::new(alloc));
        let batch = batch_of(body);
        let appended = self.log.append(&batch);
        self.body = batch.into_body();
        match appended {
            Ok(()) => Ok(()),
            Err(fault) => Err(refusal_of(fault)),
        }
    }
}
