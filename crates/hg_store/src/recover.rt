//! Recovering a store.

ghost use Rattle.std.specs.Prelude.{◌≡◌, ◌≤◌, ◌<◌, [], Err, vec_capacity, false, IsTrue, IfOk, IfErr, OnOk};
ghost use Rattle.hg_detect.specs.Engine.{AtPresent};
ghost use Rattle.hg_detect.specs.Shown.{content};
ghost use Rattle.hg_disk.specs.Calls.{CallsAtMost};
ghost use Rattle.hg_disk.specs.State.{counted, settled};
ghost use Rattle.hg_journals.specs.Pairs as pairs;
ghost use Rattle.hg_pool.specs.Kept.{Went};
ghost use Rattle.hg_pool.specs.Maps as pools;
ghost use Rattle.hg_pool.specs.OfWords.{MayBring};
ghost use Rattle.hg_root.specs.Pairs.{IsWorking, failures, first_of, second_of};
ghost use Rattle.hg_store.specs.Images.{EachReadsOrFailed, FailuresBecome, FilesWereRead, IsOnlyRead, KeepContent, KeepsFiles, KeepsSlots, LeavesOld, ReadsSlots, Recovers, RootCallsAtMost, read_of};
ghost use Rattle.hg_recovery.specs.Answers.{IfDamaged, IfFullSets, IsOfRecovery};
ghost use Rattle.hg_recovery.specs.Detectors.{IsAtRest};
ghost use Rattle.hg_store.specs.Recovering.{CantCatchUp, CantFill, CantTakeSlot, CatchesUp, CountsCatching, CountsRecovery, FillsSets, HasFewSets, HasItsTable, HasLimits, HasNoContent, IsRecovered, LacksSlotsIfFull, MayCatchUp, ReadsSameOrFault, Settled, Stay, first_after, journal0_after, journal1_after, made_of, second_after, words_after};
ghost use Rattle.hg_store.specs.Store.{IsIdle};

use crate::create::{made, pending_room};
use crate::devices::{Caps, Devices};
use crate::store::{MOST_PENDING, Store};
use hg_checkpoint::{Checkpointer, Limits};
use hg_detect::detector::Detector;
use hg_disk::{Disk, DiskFault};
use hg_journals::JournalPair;
use hg_model::event::Named;
use hg_model::verdict::Refusal;
use hg_pages::MOST_SLOTS;
use hg_pool::Pool;
use hg_recovery::{replay, rooted};
use hg_root::RootPair;
use hg_sets::MOST_SETS;
use std::alloc::Global;

/// Syncs each device, so that what it reads is durable.
fn sync_all<D: Disk>(devices: &mut Devices<D>) -> Result<(), DiskFault>
    ensures settled { OnOk result (Settled ⟦<D as Disk>⟧ devices.old devices.new) }
    ensures failures { FailuresBecome ⟦<D as Disk>⟧ devices.old devices.new (counted result) }
    ensures journal0_calls { CallsAtMost ⟦<D as Disk>⟧ 1 devices.old.journal0 devices.new.journal0 }
    ensures journal1_calls { CallsAtMost ⟦<D as Disk>⟧ 1 devices.old.journal1 devices.new.journal1 }
    ensures slots_calls { CallsAtMost ⟦<D as Disk>⟧ 1 devices.old.slots devices.new.slots }
    ensures first_calls { CallsAtMost ⟦<D as Disk>⟧ 1 devices.old.root0 devices.new.root0 }
    ensures second_calls { CallsAtMost ⟦<D as Disk>⟧ 1 devices.old.root1 devices.new.root1 }
    ensures stay { Stay ⟦<D as Disk>⟧ devices.old devices.new }
    ensures bytes { EachReadsOrFailed ⟦<D as Disk>⟧ devices.old devices.new }
{
    devices.journal0.sync()?;
    devices.journal1.sync()?;
    devices.slots.sync()?;
    devices.root0.sync()?;
    devices.root1.sync()
}

/// The store of two journals and a detector that stands at the newest root. The detector follows the events behind that root.
/// A refusal hands the parts back.
fn caught_up<D: Disk>(
    alloc: Global,
    journals: JournalPair<D>,
    detector: Detector<Pool<D>>,
    roots: RootPair<D>,
    number: u64,
    pending: Vec<Named>,
) -> Result<Store<D>, (Refusal, JournalPair<D>, Detector<Pool<D>>, RootPair<D>)>
    requires none { pending.items ≡ [] }
    requires room { MOST_PENDING ≤ vec_capacity pending }
    requires works { pairs.is_broken journals ≡ false }
    requires unbroken { pools.is_broken detector.words ≡ false }
    requires rests { IsAtRest detector.words }
    requires roots_work { IsWorking roots }
    requires lawful { AtPresent MayBring detector }
    requires started { IsTrue D.is_honest → MayCatchUp journals detector roots number }
    ensures content { CatchesUp journals detector roots number result }
    ensures damaged { CantCatchUp journals detector roots number result }
    ensures idle { IfOk result IsIdle }
    ensures sets { FillsSets journals detector roots number result }
    ensures full { CantFill journals detector roots number result }
    ensures full_slots { IsTrue D.is_honest → CantTakeSlot detector result }
    ensures refusal { IfErr result (λ e. IsOfRecovery e.0) }
    ensures device { CountsCatching journals detector result }
    ensures journal0 { IsOnlyRead ⟦<D as Disk>⟧ (pairs.first_of journals) (journal0_after result) }
    ensures journal1 { IsOnlyRead ⟦<D as Disk>⟧ (pairs.second_of journals) (journal1_after result) }
    ensures went { Went ⟦<D as Disk>⟧ detector.words (words_after result) }
    ensures slots { IfOk result (λ store. store.devices.slots ≡ pools.disk_of store.detector.words) }
    ensures first { first_after result ≡ first_of roots }
    ensures second { second_after result ≡ second_of roots }
{
    let mut journals = journals;
    let mut detector = detector;
    let counted = detector.state().events();
    match replay(&mut journals, &mut detector) {
        Ok(()) => {}
        Err(refusal) => return Err((refusal, journals, detector, roots)),
    }
    let checkpointer = Checkpointer::new(alloc, roots, number);
    Ok(made(journals, detector, checkpointer, counted, pending))
}

/// The devices of a store that was not made.
fn handed_back<D: Disk>(journal0: D, journal1: D, slots: D, roots: RootPair<D>) -> Devices<D>
    ensures { result ≡ record { journal0 = journal0; journal1 = journal1; slots = slots; root0 = first_of roots; root1 = second_of roots } }
{
    let (root0, root1) = roots.into_disks();
    Devices {
        journal0,
        journal1,
        slots,
        root0,
        root1,
    }
}

/// The store on five devices whose bytes are all durable. A refusal hands them back.
fn recovered<D: Disk>(
    alloc: Global,
    devices: Devices<D>,
    pending: Vec<Named>,
    frames: u16,
    caps: Caps,
) -> Result<Store<D>, (Refusal, Devices<D>)>
    requires frames { (4 ≤ frames) × (frames ≤ 4096) }
    requires sets { (1 ≤ caps.sets) × (caps.sets ≤ MOST_SETS) }
    requires slots { (1 ≤ caps.slots) × (caps.slots ≤ MOST_SLOTS) }
    requires none { pending.items ≡ [] }
    requires room { MOST_PENDING ≤ vec_capacity pending }
    requires settled { Settled ⟦<D as Disk>⟧ devices devices }
    ensures content { IsTrue D.is_honest → IfOk result (IsRecovered ⟦<D as Disk>⟧ devices) }
    ensures sets { IsTrue D.is_honest → IfOk result (HasItsTable ⟦<D as Disk>⟧ caps.sets devices) }
    ensures limits { IfOk result (HasLimits ⟦<D as Disk>⟧ frames caps) }
    ensures idle { IfOk result IsIdle }
    ensures damaged { IsTrue D.is_honest → IfDamaged result (HasNoContent (read_of ⟦<D as Disk>⟧ devices)) }
    ensures full { IsTrue D.is_honest → IfFullSets result (HasFewSets caps.sets (read_of ⟦<D as Disk>⟧ devices)) }
    ensures full_slots { IsTrue D.is_honest → LacksSlotsIfFull ⟦<D as Disk>⟧ caps.slots devices result }
    ensures refusal { IfErr result (λ e. IsOfRecovery e.0) }
    ensures device { CountsRecovery ⟦<D as Disk>⟧ devices result }
    ensures files { FilesWereRead ⟦<D as Disk>⟧ devices (made_of result) }
    ensures slots { IsTrue D.is_honest → ReadsSlots ⟦<D as Disk>⟧ devices (made_of result) }
    ensures images { IsTrue D.is_honest → KeepContent ⟦<D as Disk>⟧ devices (made_of result) }
{
    let Devices {
        journal0,
        journal1,
        slots,
        root0,
        root1,
    } = devices;
    let roots = RootPair::attach(root0, root1);
    let journals = match JournalPair::attach(alloc, journal0, journal1) {
        Ok(journals) => journals,
        Err((refusal, journal0, journal1)) => {
            return Err((refusal, handed_back(journal0, journal1, slots, roots)));
        }
    };
    let limits = Limits {
        sets: caps.sets,
        slots: caps.slots,
        frames: frames as usize,
    };
    match rooted(alloc, slots, roots, limits) {
        Ok((detector, roots, number)) => {
            match caught_up(alloc, journals, detector, roots, number, pending) {
                Ok(store) => Ok(store),
                Err((refusal, journals, detector, roots)) => {
                    let (journal0, journal1) = journals.into_disks();
                    let slots = detector.into_words().into_disks().into_disks();
                    Err((refusal, handed_back(journal0, journal1, slots, roots)))
                }
            }
        }
        Err((refusal, slots, roots)) => {
            let (journal0, journal1) = journals.into_disks();
            Err((refusal, handed_back(journal0, journal1, slots, roots)))
        }
    }
}

impl<D: Disk> Store<D> {
    /// Recovers the store on five devices, with no event pending and no checkpoint in progress. First each device is
    /// synced, so that what it reads is durable. Then the journals are read through, and the newest open root with its
    /// pages, and the detector follows the events of the journals behind it. If no root is open, it follows all events from
    /// the empty trace on. No file is closed or opened.
    ///
    /// A refusal hands the devices back. `Damaged`: their bytes have no content. `FullSets`: the sets of the root, with
    /// those of the events, are more than `caps.sets`. `FullSlots`: the root names a slot at `caps.slots` or above, or
    /// each slot below it has a page, since the events changed so many. `DeviceFault`: one device call failed. Or
    /// `OutOfMemory`. A crash inside it leaves an image with the content of one that the devices had before.
    ///
    /// The journals and both roots are synced and read, and nothing else: their bytes stay, and so do those of each slot
    /// that the newest root names. Only where the sync of a device fails it is open which of its images a read gives. A
    /// root is called four times at most.
    ///
    /// `frames` is the greatest number of pages in memory, 4 to 4,096.
    pub fn recover(
        alloc: Global,
        devices: Devices<D>,
        frames: u16,
        caps: Caps,
    ) -> Result<Store<D>, (Refusal, Devices<D>)>
        requires frames { (4 ≤ frames) × (frames ≤ 4096) }
        requires sets { (1 ≤ caps.sets) × (caps.sets ≤ MOST_SETS) }
        requires slots { (1 ≤ caps.slots) × (caps.slots ≤ MOST_SLOTS) }
        ensures content { IsTrue D.is_honest → IfOk result (IsRecovered ⟦<D as Disk>⟧ devices) }
        ensures sets { IsTrue D.is_honest → IfOk result (HasItsTable ⟦<D as Disk>⟧ caps.sets devices) }
        ensures limits { IfOk result (HasLimits ⟦<D as Disk>⟧ frames caps) }
        ensures idle { IfOk result IsIdle }
        ensures damaged { IsTrue D.is_honest → IfDamaged result (HasNoContent (read_of ⟦<D as Disk>⟧ devices)) }
        ensures full { IsTrue D.is_honest → IfFullSets result (HasFewSets caps.sets (read_of ⟦<D as Disk>⟧ devices)) }
        ensures full_slots { IsTrue D.is_honest → LacksSlotsIfFull ⟦<D as Disk>⟧ caps.slots devices result }
        ensures refusal { IfErr result (λ e. IsOfRecovery e.0) }
        ensures device { CountsRecovery ⟦<D as Disk>⟧ devices result }
        ensures calls { RootCallsAtMost ⟦<D as Disk>⟧ 4 devices (made_of result) }

        // Over any devices the journals and the roots keep their bytes; so does each slot that the newest root names.
        ensures files { KeepsFiles ⟦<D as Disk>⟧ devices (made_of result) }
        ensures bytes { ReadsSameOrFault ⟦<D as Disk>⟧ devices result }
        ensures slots { IsTrue D.is_honest → KeepsSlots ⟦<D as Disk>⟧ devices (made_of result) }

        // A crash at any moment, also afterwards, leaves an image with the content of one that the devices had before.
        ensures images { IsTrue D.is_honest → Recovers ⟦<D as Disk>⟧ devices (made_of result) }
    {
        let mut devices = devices;
        match sync_all(&mut devices) {
            Ok(()) => {}
            Err(_) => return Err((Refusal::DeviceFault, devices)),
        }
        match pending_room(alloc) {
            Ok(pending) => recovered(alloc, devices, pending, frames, caps),
            Err(refusal) => Err((refusal, devices)),
        }
    }
}
