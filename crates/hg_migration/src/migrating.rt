//! A store over five devices, made of one of the former form.
ghost use Rattle.std.specs.Prelude.{◌≡◌, ◌≢◌, ◌⊎◌, ◌≤◌, ◌↔◌, length, Err, IsTrue, IfOk, IfErr, OnOk, IsErrOf};
ghost use Rattle.hg_disk.specs.Calls.{CallsAtMost};
ghost use Rattle.hg_disk.specs.Moments.{AddsNoImage};
ghost use Rattle.hg_gate.specs.Reading.{WasRead};
ghost use Rattle.hg_gate.specs.declared.reader.TheConstants.{PIECE_LEN as PIECE};
ghost use Rattle.hg_migration.specs.Building.{AreBuilt, InTurn};
ghost use Rattle.hg_migration.specs.Fault.{failures_after};
ghost use Rattle.hg_migration.specs.Migrating.{AreEmpty, AreUncalled, FewCalls, HandsBack, HasHeader, HasSlotsAndRoots, HaveFormerContents, IsDamagedOrDevice, KeepsOldBytes, ReadsSameOrFault, WritesBehindHeader, failures_in, failures_of, journal0_in, journal1_in, journal_in};

use crate::building::build;
use crate::fault::MigrationFault;
use hg_disk::Disk;
use hg_gate::PIECE_LEN;
use hg_store::devices::Devices;
use std::alloc::Global;

// What an old journal begins with.
const OLD_HEADER: [u8; 8] = *b"HGJRNL1\n";

/// The four devices of a store of the former form.
#[derive(Debug, Drop)]
pub struct OldDevices<D> {
    /// The events, in one journal without a base.
    pub journal: D,
    /// The pages of checkpoints.
    pub slots: D,
    /// One of the two heads of checkpoints.
    pub root0: D,
    /// The other one.
    pub root1: D,
}

/// A migrated store.
#[derive(Debug, Drop)]
pub struct Migrated<D> {
    /// The store: two new journals, and the slots and the roots as they were.
    pub devices: Devices<D>,
    /// The old journal, as it was. The store does not need it.
    pub old_journal: D,
}

/// A refusal, with all devices.
#[derive(Debug, Drop)]
pub struct NotMigrated<D> {
    /// Why.
    pub fault: MigrationFault,
    /// The former store, as it was.
    pub old: OldDevices<D>,
    /// The first new file.
    pub journal0: D,
    /// The second new file.
    pub journal1: D,
}

// `Damaged` if the journal does not begin with its header.
fn read_header<D: Disk>(journal: &mut D) -> Result<(), MigrationFault>
    ensures begins { IsTrue (D.reads_were_true journal.new) → OnOk result (HasHeader ⟦<D as Disk>⟧ journal.old) }
    ensures within { OnOk result (8 ≤ length (D.state journal.old).contents) }
    ensures damaged { IsTrue (D.reads_were_true journal.new) → IsErrOf result MigrationFault.Damaged → ¬ HasHeader ⟦<D as Disk>⟧ journal.old }
    ensures fault { IfErr result IsDamagedOrDevice }
    ensures reads { WasRead ⟦<D as Disk>⟧ 1 journal.old journal.new }
    ensures device { D.failures journal.new ≡ failures_after result (D.failures journal.old) }
{
    if journal.len() < OLD_HEADER.len() as u64 {
        return Err(MigrationFault::Damaged);
    }
    let mut bytes = [0; OLD_HEADER.len()];
    journal.read_at(0, &mut bytes)?;
    if bytes != OLD_HEADER {
        return Err(MigrationFault::Damaged);
    }
    Ok(())
}

// Makes the bytes of an old journal durable, and reads its header.
fn prepare<D: Disk>(journal: &mut D) -> Result<(), MigrationFault>
    ensures begins { IsTrue (D.reads_were_true journal.new) → OnOk result (HasHeader ⟦<D as Disk>⟧ journal.old) }
    ensures within { OnOk result (8 ≤ length (D.state journal.new).contents) }
    ensures damaged { IsTrue (D.reads_were_true journal.new) → IsErrOf result MigrationFault.Damaged → ¬ HasHeader ⟦<D as Disk>⟧ journal.old }
    ensures fault { IfErr result IsDamagedOrDevice }
    ensures bytes { ReadsSameOrFault ⟦<D as Disk>⟧ journal.old journal.new result }
    ensures any_moment { AddsNoImage ⟦<D as Disk>⟧ journal.old journal.new }
    ensures calls { CallsAtMost ⟦<D as Disk>⟧ 2 journal.old journal.new }
    ensures device { D.failures journal.new ≡ failures_after result (D.failures journal.old) }
{
    journal.sync()?;
    read_header(journal)
}

// Whether neither file has a byte.
fn are_empty<D: Disk>(journal0: &D, journal1: &D) -> bool
    ensures { IsTrue result ↔ AreEmpty ⟦<D as Disk>⟧ journal0.now journal1.now }
{
    if journal0.len() > 0 {
        return false;
    }
    journal1.len() == 0
}

// Makes the new journals of an old one on two empty disks, where it has its header.
fn copy_journal<D: Disk>(
    journal: &mut D,
    journal0: &mut D,
    journal1: &mut D,
    buffer: &mut [u8],
) -> Result<(), MigrationFault>
    requires empty { AreEmpty ⟦<D as Disk>⟧ journal0.old journal1.old }
    requires buffer { length buffer.old ≡ PIECE }
    ensures fault { IfErr result IsDamagedOrDevice }
    ensures uncalled { IfErr result (λ e. e ≢ MigrationFault.DeviceFault → AreUncalled journal0.old journal0.new journal1.old journal1.new) }
    ensures damaged { IsTrue D.is_honest → IsErrOf result MigrationFault.Damaged → ¬ HasHeader ⟦<D as Disk>⟧ journal.old }
    ensures begins { WritesBehindHeader ⟦<D as Disk>⟧ journal.old journal0.old journal0.new journal1.old journal1.new }
    ensures header { IsTrue D.is_honest → OnOk result (HasHeader ⟦<D as Disk>⟧ journal.old) }
    ensures made { OnOk result (AreBuilt ⟦<D as Disk>⟧ (D.state journal.old).contents journal0.new journal1.new) }
    ensures bytes { ReadsSameOrFault ⟦<D as Disk>⟧ journal.old journal.new result }
    ensures old_moments { AddsNoImage ⟦<D as Disk>⟧ journal.old journal.new }
    ensures any_moment { InTurn ⟦<D as Disk>⟧ (D.state journal.old).contents journal0.old journal0.new journal1.old journal1.new }
    ensures calls { FewCalls ⟦<D as Disk>⟧ journal.old journal0.old journal1.old journal.new journal0.new journal1.new }
    ensures device { failures_of ⟦<D as Disk>⟧ journal.new journal0.new journal1.new ≡ failures_after result (failures_of ⟦<D as Disk>⟧ journal.old journal0.old journal1.old) }
{
    match prepare(journal) {
        Ok(()) => Ok(build(journal, journal0, journal1, buffer)?),
        Err(fault) => Err(fault),
    }
}

// Makes the new journals of an old one.
fn make_journals<D: Disk>(
    alloc: Global,
    journal: &mut D,
    journal0: &mut D,
    journal1: &mut D,
) -> Result<(), MigrationFault>
    ensures empty { result ≢ Err MigrationFault.NotEmpty → AreEmpty ⟦<D as Disk>⟧ journal0.old journal1.old }
    ensures not_empty { IsErrOf result MigrationFault.NotEmpty → ¬ AreEmpty ⟦<D as Disk>⟧ journal0.old journal1.old }
    ensures unread { IfErr result (λ e. (e ≡ MigrationFault.NotEmpty) ⊎ (e ≡ MigrationFault.OutOfMemory) → journal.new ≡ journal.old) }
    ensures uncalled { IfErr result (λ e. e ≢ MigrationFault.DeviceFault → AreUncalled journal0.old journal0.new journal1.old journal1.new) }
    ensures damaged { IsTrue D.is_honest → IsErrOf result MigrationFault.Damaged → ¬ HasHeader ⟦<D as Disk>⟧ journal.old }
    ensures begins { WritesBehindHeader ⟦<D as Disk>⟧ journal.old journal0.old journal0.new journal1.old journal1.new }
    ensures header { IsTrue D.is_honest → OnOk result (HasHeader ⟦<D as Disk>⟧ journal.old) }
    ensures made { OnOk result (AreBuilt ⟦<D as Disk>⟧ (D.state journal.old).contents journal0.new journal1.new) }
    ensures bytes { ReadsSameOrFault ⟦<D as Disk>⟧ journal.old journal.new result }
    ensures old_moments { AddsNoImage ⟦<D as Disk>⟧ journal.old journal.new }
    ensures any_moment { InTurn ⟦<D as Disk>⟧ (D.state journal.old).contents journal0.old journal0.new journal1.old journal1.new }
    ensures calls { FewCalls ⟦<D as Disk>⟧ journal.old journal0.old journal1.old journal.new journal0.new journal1.new }
    ensures device { failures_of ⟦<D as Disk>⟧ journal.new journal0.new journal1.new ≡ failures_after result (failures_of ⟦<D as Disk>⟧ journal.old journal0.old journal1.old) }
{
    if !are_empty(journal0, journal1) {
        return Err(MigrationFault::NotEmpty);
    }
    let mut buffer = vec![in alloc; 0; PIECE_LEN]?;
    copy_journal(journal, journal0, journal1, &mut buffer)
}

/// Makes a store over five devices of one of the former form, with two files that have no byte: the first one takes the
/// events of the old journal, behind the base 0, and the second one is spare. It changes no byte of the four devices, and
/// replays nothing: `recover` of the five judges the content.
///
/// A refusal hands all back: `NotEmpty` if a new file has bytes, `Damaged` if the old journal does not begin with its
/// header, `DeviceFault` or `OutOfMemory`. After a stop, a `DeviceFault` or an `OutOfMemory` the new files are emptied
/// (`empty_files`), and it is called again.
///
/// The old journal is synced and read by pieces of 64 KiB. The first new file begins with a closed gate, and is opened
/// last, when all that it opens is durable and the second file is made. So a stop leaves two files that are not open, or
/// both whole.
pub fn migrate<D: Disk>(
    alloc: Global,
    old: OldDevices<D>,
    journal0: D,
    journal1: D,
) -> Result<Migrated<D>, NotMigrated<D>>
    // The new files have no byte, or it is refused for that, and no device is called.
    ensures empty { IfOk result (λ _. AreEmpty ⟦<D as Disk>⟧ journal0 journal1) }
    ensures not_empty { IfErr result (λ e. e.fault ≡ MigrationFault.NotEmpty → ¬ AreEmpty ⟦<D as Disk>⟧ journal0 journal1) }
    ensures else_empty { IfErr result (λ e. e.fault ≢ MigrationFault.NotEmpty → AreEmpty ⟦<D as Disk>⟧ journal0 journal1) }
    ensures unread { IfErr result (λ e. (e.fault ≡ MigrationFault.NotEmpty) ⊎ (e.fault ≡ MigrationFault.OutOfMemory) → HandsBack old journal0 journal1 e) }

    // The old journal has its header, or it is damaged, and nothing is written.
    ensures header { IsTrue D.is_honest → IfOk result (λ _. HasHeader ⟦<D as Disk>⟧ old.journal) }
    ensures damaged { IsTrue D.is_honest → IfErr result (λ e. e.fault ≡ MigrationFault.Damaged → ¬ HasHeader ⟦<D as Disk>⟧ old.journal) }
    ensures unwritten { IfErr result (λ e. e.fault ≢ MigrationFault.DeviceFault → AreUncalled journal0 e.journal0 journal1 e.journal1) }
    ensures begins { WritesBehindHeader ⟦<D as Disk>⟧ old.journal journal0 (journal0_in result) journal1 (journal1_in result) }

    // The new files are made, and each image of the store has the contents that the former store has.
    ensures made { IfOk result (λ it. AreBuilt ⟦<D as Disk>⟧ (D.state old.journal).contents it.devices.journal0 it.devices.journal1) }
    ensures contents { IsTrue D.is_honest → IfOk result (λ it. HaveFormerContents ⟦<D as Disk>⟧ (D.state old.journal).contents it.devices) }

    // The former store stays: no moment adds an image of its journal, and its other devices are not called.
    ensures old_journal { AddsNoImage ⟦<D as Disk>⟧ old.journal (journal_in result) }
    ensures old_bytes { KeepsOldBytes ⟦<D as Disk>⟧ old result }
    ensures others { HasSlotsAndRoots old result }

    ensures any_moment { InTurn ⟦<D as Disk>⟧ (D.state old.journal).contents journal0 (journal0_in result) journal1 (journal1_in result) }
    ensures calls { FewCalls ⟦<D as Disk>⟧ old.journal journal0 journal1 (journal_in result) (journal0_in result) (journal1_in result) }
    ensures device { failures_of ⟦<D as Disk>⟧ (journal_in result) (journal0_in result) (journal1_in result) ≡ failures_in result (failures_of ⟦<D as Disk>⟧ old.journal journal0 journal1) }
{
    let OldDevices {
        journal,
        slots,
        root0,
        root1,
    } = old;
    let mut journal = journal;
    let mut journal0 = journal0;
    let mut journal1 = journal1;
    match make_journals(alloc, &mut journal, &mut journal0, &mut journal1) {
        Ok(()) => Ok(Migrated {
            devices: Devices {
                journal0,
                journal1,
                slots,
                root0,
                root1,
            },
            old_journal: journal,
        }),
        Err(fault) => Err(NotMigrated {
            fault,
            old: OldDevices {
                journal,
                slots,
                root0,
                root1,
            },
            journal0,
            journal1,
        }),
    }
}
