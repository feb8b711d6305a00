//! A journal file read through: how many events it has.
ghost use Rattle.std.specs.Prelude.{◌≡◌, ◌+◌, ◌-◌, ◌≤◌, IfOk, IfErr, IsTrue, false};
ghost use Rattle.hg_disk.specs.State.{IsDurable};
ghost use Rattle.hg_gate.specs.Reading.{WasRead};
ghost use Rattle.hg_gate.specs.declared.based.TheConstants.{MAX_BASE as MAX_BASE_OF};
ghost use Rattle.hg_journal.specs.Journal.{IsOfReading, failed_after};
ghost use Rattle.hg_journal.specs.Reading.{disk_of, is_broken};
ghost use Rattle.hg_journals.specs.Attaching.{FindsLast, FindsNone, IsAsRead, IsCounted, IsNoneIfDamaged, IsReadThrough, OpensSome, count_in, disk_in, failures_of_reading, file_after, most_calls, works_in};

use crate::file::{OpenFile, ReadFile};
use hg_disk::Disk;
use hg_gate::MAX_BASE;
use hg_journal::file::Attached;
use hg_journal::journal::Journal;
use hg_model::verdict::Refusal;
use std::alloc::Global;

// The number of the last event of an open file. `Damaged` if a batch is not a list of records, or a number passes the
// greatest base. It makes a device call more than there are events, at most.
fn find_last<D: Disk>(journal: &mut Journal<D>, base: u64) -> Result<u64, Refusal>
    requires works { is_broken journal.old ≡ false }
    ensures found { FindsLast base journal.old journal.new result }
    ensures damaged { FindsNone base journal.old journal.new result }
    ensures fits { IfOk result (λ last. (base ≤ last) × (last ≤ MAX_BASE_OF)) }
    ensures few { IfOk result (λ n. IsCounted ⟦<D as Disk>⟧ (disk_of journal.old) (disk_of journal.new) (n - base)) }
    ensures works { is_broken journal.new ≡ false }
    ensures fault { IfErr result IsOfReading }
    ensures disk { WasRead ⟦<D as Disk>⟧ (MAX_BASE_OF + 2) (disk_of journal.old) (disk_of journal.new) }
    ensures device { D.failures (disk_of journal.new) ≡ failed_after result (D.failures (disk_of journal.old)) }
{
    let mut reader = journal.events()?;
    let mut left = (MAX_BASE + 1).saturating_sub(base);
    while left > 0 {
        let passed = journal.pass(&mut reader, left)?;
        if passed == 0 {
            return Ok(MAX_BASE + 1 - left);
        }
        left -= passed;
    }
    Err(Refusal::Damaged)
}

// An open file with this base, read through.
fn read_open<D: Disk>(base: u64, journal: Journal<D>) -> Result<ReadFile<D>, (Refusal, D)>
    requires works { is_broken journal ≡ false }
    ensures read { IsTrue (D.reads_were_true (file_after result)) → OpensSome journal base → IfOk result IsAsRead }
    ensures damaged { IsTrue (D.reads_were_true (file_after result)) → OpensSome journal base → base ≤ MAX_BASE_OF →
        IfErr result (IsNoneIfDamaged (D.state (disk_of journal)).contents) }
    ensures works { IfOk result (λ file. works_in file ≡ false) }
    ensures few { IfOk result (λ file. IsCounted ⟦<D as Disk>⟧ (disk_of journal) (disk_in file) (count_in file)) }
    ensures fault { IfErr result (λ e. IsOfReading e.0) }
    ensures disk { WasRead ⟦<D as Disk>⟧ (MAX_BASE_OF + 2) (disk_of journal) (file_after result) }
    ensures device { D.failures (file_after result) ≡ failures_of_reading result (D.failures (disk_of journal)) }
{
    let mut journal = journal;
    match find_last(&mut journal, base) {
        Ok(last) => Ok(ReadFile::Open(OpenFile {
            journal,
            base,
            last,
        })),
        Err(refusal) => Err((refusal, journal.into_disk())),
    }
}

// What a file has, read through. A refusal hands the disk back: `Damaged` if it is neither spare nor a journal whose
// numbers are at most the greatest base, `DeviceFault` or `OutOfMemory`. It changes nothing.
pub(crate) fn read_file<D: Disk>(alloc: Global, disk: D) -> Result<ReadFile<D>, (Refusal, D)>
    ensures read { IsTrue (D.reads_were_true (file_after result)) → IsDurable (D.state disk) → IfOk result IsAsRead }
    ensures damaged { IsTrue (D.reads_were_true (file_after result)) → IsDurable (D.state disk) →
        IfErr result (IsNoneIfDamaged (D.state disk).contents) }
    ensures works { IfOk result (λ file. works_in file ≡ false) }
    ensures few { IfOk result (λ file. IsReadThrough ⟦<D as Disk>⟧ disk (disk_in file) (count_in file)) }
    ensures fault { IfErr result (λ e. IsOfReading e.0) }
    ensures disk { WasRead ⟦<D as Disk>⟧ (most_calls (D.state disk).contents) disk (file_after result) }
    ensures device { D.failures (file_after result) ≡ failures_of_reading result (D.failures disk) }
{
    match Journal::attach_file(alloc, disk) {
        Ok(Attached::Spare(journal)) => Ok(ReadFile::Spare(journal)),
        Ok(Attached::Open(base, journal)) => read_open(base, journal),
        Err(refused) => Err(refused),
    }
}
