//! Making a store.

ghost use Rattle.std.specs.Prelude.{◌≡◌, ◌≢◌, ◌≤◌, [], None, vec_capacity, false, IsTrue, IfOk, IfErr};
ghost use Rattle.hg_model.specs.Change.{empty_content};
ghost use Rattle.hg_detect.specs.Engine.{AtPresent};
ghost use Rattle.hg_detect.specs.Shown.{content};
ghost use Rattle.hg_disk.specs.Calls.{CallsAtMost};
ghost use Rattle.hg_journals.specs.Pairs as pairs;
ghost use Rattle.hg_journals.specs.Making.{IsNewOn};
ghost use Rattle.hg_pool.specs.Maps as pools;
ghost use Rattle.hg_pool.specs.Maps.{live};
ghost use Rattle.hg_pool.specs.OfWords.{MayBring};
ghost use Rattle.hg_sets.specs.Interning.{first_table};
ghost use Rattle.hg_checkpoint.specs.declared.phase.Phase.TheVariants.{Idle};
ghost use Rattle.hg_store.specs.Kept.{devices_of};
ghost use Rattle.hg_store.specs.Images.{read_of};
ghost use Rattle.hg_root.specs.Pairs.{AreGates, Stands};
ghost use Rattle.hg_recovery.specs.Detectors.{IsReady};
ghost use Rattle.hg_store.specs.Recovering.{CountsMaking, CountsNewFiles, HasLimits, IsEmpty, IsFreshOf, IsOfMaking, MakingCalls, MayBeMade, WereNotEmpty, empty_image, first_in, joined, journal0_in, journal1_in, made_of, second_in};
ghost use Rattle.hg_store.specs.Store.{IsFresh, IsIdle};

use crate::devices::{Caps, Devices};
use crate::store::{MOST_PENDING, Store};
use hg_checkpoint::{Checkpointer, Limits};
use hg_detect::detector::Detector;
use hg_disk::Disk;
use hg_journal::journal::JournalRoom;
use hg_journals::JournalPair;
use hg_model::event::Named;
use hg_model::verdict::Refusal;
use hg_pages::{MOST_SLOTS, SlotFile};
use hg_pool::Pool;
use hg_recovery::empty_detector;
use hg_root::RootPair;
use hg_sets::MOST_SETS;
use std::alloc::Global;
use std::snapshot::Snapshot;

/// Why a store was not made.
#[derive(Clone, Copy, Debug, PartialEq, Eq)]
pub enum CreateFault {
    /// A device has bytes.
    NotEmpty,
    /// `DeviceFault` or `OutOfMemory`.
    Refused(Refusal),
}

/// Room for all events that may wait for a commit.
pub(crate) fn pending_room(alloc: Global) -> Result<Vec<Named>, Refusal>
    ensures none { IfOk result (λ pending. pending.items ≡ []) }
    ensures room { IfOk result (λ pending. MOST_PENDING ≤ vec_capacity pending) }
    ensures refusal { IfErr result (λ refusal. refusal ≡ Refusal.OutOfMemory) }
{
    Ok(Vec::with_capacity(alloc, MOST_PENDING)?)
}

/// Room for all events that may wait for a commit, and the memory of two journals.
fn rooms(alloc: Global) -> Result<(Vec<Named>, JournalRoom, JournalRoom), Refusal>
    ensures none { IfOk result (λ rooms. rooms.0.items ≡ []) }
    ensures room { IfOk result (λ rooms. MOST_PENDING ≤ vec_capacity rooms.0) }
    ensures refusal { IfErr result (λ refusal. refusal ≡ Refusal.OutOfMemory) }
{
    let pending = pending_room(alloc)?;
    let room0 = JournalRoom::new(alloc)?;
    let room1 = JournalRoom::new(alloc)?;
    Ok((pending, room0, room1))
}

/// Whether no device has a byte.
fn is_empty<D: Disk>(devices: &Devices<D>) -> bool
    ensures yes { IsTrue result → IsEmpty ⟦<D as Disk>⟧ devices.now }
    ensures no { IsEmpty ⟦<D as Disk>⟧ devices.now → IsTrue result }
{
    if devices.journal0.len() > 0 {
        return false;
    }
    if devices.journal1.len() > 0 {
        return false;
    }
    if devices.slots.len() > 0 {
        return false;
    }
    if devices.root0.len() > 0 {
        return false;
    }
    devices.root1.len() == 0
}

/// The two journals and the two roots of a store of no events, on empty devices: the first journal is open with the base 0,
/// and the second one is spare. If a device fails, they are handed back.
fn new_files<D: Disk>(
    rooms: (JournalRoom, JournalRoom),
    journal0: D,
    journal1: D,
    root0: D,
    root1: D,
) -> Result<(JournalPair<D>, RootPair<D>), (D, D, D, D)>
    requires journal0 { (D.state journal0).contents ≡ [] }
    requires journal1 { (D.state journal1).contents ≡ [] }
    requires first { (D.state root0).contents ≡ [] }
    requires second { (D.state root1).contents ≡ [] }
    ensures empty { IfOk result (λ files. pairs.Keeps files.0 0 []) }
    ensures bytes { IfOk result (λ files. IsNewOn journal0 journal1 files.0) }
    ensures stands { IfOk result (λ files. Stands ⟦<D as Disk>⟧ files.1 None None) }
    ensures gates { IfOk result (λ files. AreGates ⟦<D as Disk>⟧ files.1) }
    ensures journal0_calls { CallsAtMost ⟦<D as Disk>⟧ 2 journal0 (journal0_in result) }
    ensures journal1_calls { CallsAtMost ⟦<D as Disk>⟧ 2 journal1 (journal1_in result) }
    ensures first_calls { CallsAtMost ⟦<D as Disk>⟧ 2 root0 (first_in result) }
    ensures second_calls { CallsAtMost ⟦<D as Disk>⟧ 2 root1 (second_in result) }
    ensures device { CountsNewFiles journal0 journal1 root0 root1 result }
{
    let roots = match RootPair::create(root0, root1) {
        Ok(roots) => roots,
        Err((root0, root1)) => return Err((journal0, journal1, root0, root1)),
    };
    let (room0, room1) = rooms;
    match JournalPair::create(room0, room1, journal0, journal1) {
        Ok(journals) => Ok((journals, roots)),
        Err((journal0, journal1)) => {
            let (root0, root1) = roots.into_disks();
            Err((journal0, journal1, root0, root1))
        }
    }
}

/// The store of these parts, with nothing pending and no checkpoint in progress. The newest root counts so many events.
pub(crate) fn made<D: Disk>(
    journals: JournalPair<D>,
    detector: Detector<Pool<D>>,
    checkpointer: Checkpointer<D>,
    counted: u64,
    pending: Vec<Named>,
) -> Store<D>
    requires none { pending.items ≡ [] }
    requires room { MOST_PENDING ≤ vec_capacity pending }
    requires lawful { AtPresent MayBring detector }
    requires journals { pairs.is_broken journals ≡ false }
    requires words { pools.is_broken detector.words ≡ false }
    requires checkpointer { checkpointer.is_broken ≡ false }
    requires idle { checkpointer.phase ≡ Idle }
    requires stands { IsTrue D.is_honest → MayBeMade ⟦<D as Disk>⟧ journals detector checkpointer counted }
    ensures fresh { IsFreshOf ⟦<D as Disk>⟧ journals detector checkpointer counted result }
    ensures idle { IsIdle result }
    ensures devices { result.devices ≡ devices_of ⟦<D as Disk>⟧ journals detector.words checkpointer }
    ensures detector { result.detector ≡ detector }
{
    let durable = detector.state().events();
    let committed = Snapshot::of(&detector);
    let frozen = Snapshot::of(&detector);
    Store {
        journals,
        detector,
        checkpointer,
        committed,
        frozen,
        pending,
        durable,
        counted,
        counting: durable,
        is_broken: false,
        in_doubt: false,
    }
}

/// The store of a detector of no events, on journals of no events and two closed roots.
fn on_closed_roots<D: Disk>(
    alloc: Global,
    journals: JournalPair<D>,
    roots: RootPair<D>,
    detector: Detector<Pool<D>>,
    pending: Vec<Named>,
) -> Store<D>
    requires none { pending.items ≡ [] }
    requires room { MOST_PENDING ≤ vec_capacity pending }
    requires journals { pairs.Keeps journals 0 [] }
    requires stands { Stands ⟦<D as Disk>⟧ roots None None }
    requires lawful { AtPresent MayBring detector }
    requires words { pools.is_broken detector.words ≡ false }
    requires content { content (live ⟦<D as Disk>⟧) detector ≡ empty_content }
    requires ready { IsTrue D.is_honest → IsReady ⟦<D as Disk>⟧ detector }
    ensures fresh { IsFresh ⟦<D as Disk>⟧ result empty_content }
    ensures idle { IsIdle result }
    ensures detector { result.detector ≡ detector }
    ensures devices { result.devices ≡ joined journals detector.words roots }
{
    let checkpointer = Checkpointer::new(alloc, roots, 0);
    made(journals, detector, checkpointer, 0, pending)
}

impl<D: Disk> Store<D> {
    /// Makes a store of no events on five empty devices: the first journal is open, and the second one is spare. A refusal
    /// hands the devices back: `NotEmpty` or `OutOfMemory`, with nothing changed, or `DeviceFault`. All memory is taken before
    /// the first device call. Then it makes at most eight device calls, none of them on the slots. Nothing is promised about a crash inside it.
    ///
    /// `frames` is the greatest number of pages in memory, 4 to 4,096.
    pub fn create(
        alloc: Global,
        devices: Devices<D>,
        frames: u16,
        caps: Caps,
    ) -> Result<Store<D>, (CreateFault, Devices<D>)>
        requires frames { (4 ≤ frames) × (frames ≤ 4096) }
        requires sets { (1 ≤ caps.sets) × (caps.sets ≤ MOST_SETS) }
        requires slots { (1 ≤ caps.slots) × (caps.slots ≤ MOST_SLOTS) }
        ensures fresh { IfOk result (λ store. IsFresh ⟦<D as Disk>⟧ store empty_content) }
        ensures idle { IfOk result IsIdle }
        ensures sets { IfOk result (λ store. store.detector.sets ≡ first_table caps.sets) }
        ensures limits { IfOk result (HasLimits ⟦<D as Disk>⟧ frames caps) }
        ensures bytes { IfOk result (λ store. read_of ⟦<D as Disk>⟧ store.devices ≡ empty_image) }
        ensures empty { IfOk result (λ _. IsEmpty ⟦<D as Disk>⟧ devices) }
        ensures not_empty { IfErr result (λ e. e.0 ≡ CreateFault.NotEmpty → WereNotEmpty ⟦<D as Disk>⟧ devices e.1) }
        ensures else_empty { IfErr result (λ e. e.0 ≢ CreateFault.NotEmpty → IsEmpty ⟦<D as Disk>⟧ devices) }
        ensures memory { IfErr result (λ e. e.0 ≡ CreateFault.Refused Refusal.OutOfMemory → e.1 ≡ devices) }
        ensures calls { MakingCalls ⟦<D as Disk>⟧ devices (made_of result) }
        ensures refusal { IfErr result (λ e. IsOfMaking e.0) }
        ensures device { CountsMaking ⟦<D as Disk>⟧ devices result }
    {
        if !is_empty(&devices) {
            return Err((CreateFault::NotEmpty, devices));
        }
        let (pending, room0, room1) = match rooms(alloc) {
            Ok(rooms) => rooms,
            Err(refusal) => return Err((CreateFault::Refused(refusal), devices)),
        };
        let Devices {
            journal0,
            journal1,
            slots,
            root0,
            root1,
        } = devices;
        let limits = Limits {
            sets: caps.sets,
            slots: caps.slots,
            frames: frames as usize,
        };
        let detector = match empty_detector(alloc, SlotFile::attach(slots), limits) {
            Ok(detector) => detector,
            Err(file) => {
                let devices = Devices {
                    journal0,
                    journal1,
                    slots: file.into_disks(),
                    root0,
                    root1,
                };
                return Err((CreateFault::Refused(Refusal::OutOfMemory), devices));
            }
        };
        match new_files((room0, room1), journal0, journal1, root0, root1) {
            Ok((journals, roots)) => {
                Ok(on_closed_roots(alloc, journals, roots, detector, pending))
            }
            Err((journal0, journal1, root0, root1)) => {
                let devices = Devices {
                    journal0,
                    journal1,
                    slots: detector.into_words().into_disks().into_disks(),
                    root0,
                    root1,
                };
                Err((CreateFault::Refused(Refusal::DeviceFault), devices))
            }
        }
    }
}
