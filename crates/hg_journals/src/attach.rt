//! The pair of two files, whatever their bytes are.
ghost use Rattle.std.specs.Prelude.{◌≡◌, ◌+◌, ◌-◌, ◌<◌, IfOk, IfErr, IsTrue, false};
ghost use Rattle.hg_gate.specs.Reading.{WasRead};
ghost use Rattle.hg_journal.specs.Journal.{IsOfReading};
ghost use Rattle.hg_journal.specs.File.{IsSpare};
ghost use Rattle.hg_journal.specs.Reading as journals;
ghost use Rattle.hg_journals.specs.Attaching.{CountsBoth, GoesOnIn, HasUpTo, IsReadThrough, KeepIfRead, KeepNothingIfRead, count_of, disk_in, most_calls, works_in};
ghost use Rattle.hg_journals.specs.Making.{AreDurable, CountsAttaching, KeepNothingIfDamaged, WereTrue, first_after, second_after};
ghost use Rattle.hg_journals.specs.Pairs.{KeepsSome, base_of, first_of, is_broken, is_turned, last_of, newer, older, second_of};

use crate::count::read_file;
use crate::file::{OpenFile, ReadFile};
use crate::pair::JournalPair;
use hg_disk::Disk;
use hg_journal::journal::Journal;
use hg_model::verdict::Refusal;
use std::alloc::Global;

// The pair of a spare file and an open one.
fn with_spare<D: Disk>(spare: Journal<D>, open: OpenFile<D>, turned: bool) -> JournalPair<D>
    requires works { journals.is_broken spare ≡ false }
    ensures keeps { IsSpare spare → HasUpTo open.journal open.base open.last → KeepsSome result }
    ensures older { older result ≡ journals.disk_of spare }
    ensures newer { newer result ≡ journals.disk_of open.journal }
    ensures turn { is_turned result ≡ turned }
    ensures works { is_broken result ≡ false }
    ensures counts { last_of result - base_of result ≡ open.last - open.base }
{
    let OpenFile {
        journal,
        base,
        last,
    } = open;
    JournalPair {
        older: spare,
        newer: journal,
        base,
        newer_base: base,
        last,
        has_spare: true,
        is_turned: turned,
        is_broken: false,
    }
}

// The pair of two open files, the second of which begins where the first ends.
fn of_open<D: Disk>(former: OpenFile<D>, current: OpenFile<D>, turned: bool) -> JournalPair<D>
    requires joins { GoesOnIn former current }
    ensures keeps { HasUpTo former.journal former.base former.last → HasUpTo current.journal current.base current.last →
        KeepsSome result }
    ensures older { older result ≡ journals.disk_of former.journal }
    ensures newer { newer result ≡ journals.disk_of current.journal }
    ensures turn { is_turned result ≡ turned }
    ensures works { is_broken result ≡ false }
    ensures counts { last_of result - base_of result ≡ (former.last - former.base) + (current.last - current.base) }
{
    let OpenFile {
        journal: older,
        base,
        last: _,
    } = former;
    let OpenFile {
        journal: newer,
        base: newer_base,
        last,
    } = current;
    JournalPair {
        older,
        newer,
        base,
        newer_base,
        last,
        has_spare: false,
        is_turned: turned,
        is_broken: false,
    }
}

// The pair of two open files. `Damaged` if neither begins where the other ends.
fn join_open<D: Disk>(
    first: OpenFile<D>,
    second: OpenFile<D>,
) -> Result<JournalPair<D>, (Refusal, D, D)>
    ensures keeps { HasUpTo first.journal first.base first.last → HasUpTo second.journal second.base second.last →
        IfOk result KeepsSome }
    ensures none { KeepNothingIfRead (ReadFile.Open first) (ReadFile.Open second) result }
    ensures damaged { IfErr result (λ e. e.0 ≡ Refusal.Damaged) }
    ensures first { first_after result ≡ journals.disk_of first.journal }
    ensures second { second_after result ≡ journals.disk_of second.journal }
    ensures works { IfOk result (λ pair. is_broken pair ≡ false) }
    ensures counts { CountsBoth (ReadFile.Open first) (ReadFile.Open second) result }
{
    if first.goes_on_in(&second) {
        return Ok(of_open(first, second, false));
    }
    if second.goes_on_in(&first) {
        return Ok(of_open(second, first, true));
    }
    let first = ReadFile::Open(first);
    let second = ReadFile::Open(second);
    Err((Refusal::Damaged, first.into_disk(), second.into_disk()))
}

// The pair of two files. `Damaged` if they keep nothing together.
fn join<D: Disk>(first: ReadFile<D>, second: ReadFile<D>) -> Result<JournalPair<D>, (Refusal, D, D)>
    requires first { works_in first ≡ false }
    requires second { works_in second ≡ false }
    ensures keeps { KeepIfRead first second result }
    ensures none { KeepNothingIfRead first second result }
    ensures damaged { IfErr result (λ e. e.0 ≡ Refusal.Damaged) }
    ensures first { first_after result ≡ disk_in first }
    ensures second { second_after result ≡ disk_in second }
    ensures works { IfOk result (λ pair. is_broken pair ≡ false) }
    ensures counts { CountsBoth first second result }
{
    match first {
        ReadFile::Spare(first) => match second {
            ReadFile::Spare(second) => {
                Err((Refusal::Damaged, first.into_disk(), second.into_disk()))
            }
            ReadFile::Open(second) => Ok(with_spare(first, second, false)),
        },
        ReadFile::Open(first) => match second {
            ReadFile::Spare(second) => Ok(with_spare(second, first, true)),
            ReadFile::Open(second) => join_open(first, second),
        },
    }
}

impl<D: Disk> JournalPair<D> {
    /// The pair of two files, whatever their bytes are. A refusal hands the disks back: `Damaged` if over honest,
    /// durable disks the two files keep no events behind any base, `DeviceFault` or `OutOfMemory`. It changes neither
    /// file. It reads both through, so that it knows the number of the last event. It makes no more device calls of
    /// each disk than the file has bytes and the pair has events, and one.
    pub fn attach(
        alloc: Global,
        journal0: D,
        journal1: D,
    ) -> Result<JournalPair<D>, (Refusal, D, D)>
        ensures keeps { WereTrue ⟦<D as Disk>⟧ (first_after result) (second_after result) → AreDurable ⟦<D as Disk>⟧ journal0 journal1 → IfOk result KeepsSome }
        ensures damaged { WereTrue ⟦<D as Disk>⟧ (first_after result) (second_after result) → AreDurable ⟦<D as Disk>⟧ journal0 journal1 →
            IfErr result (KeepNothingIfDamaged ⟦<D as Disk>⟧ journal0 journal1) }
        ensures works { IfOk result (λ pair. is_broken pair ≡ false) }
        ensures fault { IfErr result (λ e. IsOfReading e.0) }

        // Neither file is changed.
        ensures first { WasRead ⟦<D as Disk>⟧ (most_calls (D.state journal0).contents) journal0 (first_after result) }
        ensures second { WasRead ⟦<D as Disk>⟧ (most_calls (D.state journal1).contents) journal1 (second_after result) }

        ensures first_calls { IfOk result (λ p. IsReadThrough ⟦<D as Disk>⟧ journal0 (first_of p) (count_of p)) }
        ensures second_calls { IfOk result (λ p. IsReadThrough ⟦<D as Disk>⟧ journal1 (second_of p) (count_of p)) }
        ensures device { CountsAttaching ⟦<D as Disk>⟧ journal0 journal1 result }
    {
        let first = match read_file(alloc, journal0) {
            Ok(first) => first,
            Err((refusal, journal0)) => return Err((refusal, journal0, journal1)),
        };
        match read_file(alloc, journal1) {
            Ok(second) => join(first, second),
            Err((refusal, journal1)) => Err((refusal, first.into_disk(), journal1)),
        }
    }
}
