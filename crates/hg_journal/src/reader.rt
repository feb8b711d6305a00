//! Reading the events of a journal, one after the other.
ghost use Rattle.std.specs.Prelude.{◌≡◌, ◌⊎◌, ◌<◌, ◌≤◌, ℕ, List, [], false, IsTrue, IfOk, IfErr, IfSome, IfNone, IsErrOf, Err};
ghost use Rattle.hg_model.specs.declared.event.Named.{Named as NamedOf};
ghost use Rattle.hg_gate.specs.Reading.{RefusesIfBroken, WasRead};
ghost use Rattle.hg_records.specs.Records.{BeginsWith};
ghost use Rattle.hg_records.specs.Lengths.{HasNoRecord};
ghost use Rattle.hg_journal.specs.Journal.{IsOfReading, failed_after};
ghost use Rattle.hg_journal.specs.Reading.{BeginsAtFirst, BeginsAtFirstBehind, CanBeTriedAgain, CanBeTriedAgainBehind, FindsMoreBehind, FindsUndamagedBehind, HasReadAll, HasReadAllBehind, KeepsEvents, Opens, Passes, ReadsMore, ReadsMoreBehind, ReadsNext, ReadsNextBehind, StaysBehind, StaysKept, StaysOnErrBehind, StaysOpened, TellsTrueDamage, TellsTrueDamageBehind, disk_of, is_broken, rest_of};

use crate::journal::{Journal, JournalReader, refusal_of};
use hg_disk::Disk;
use hg_model::event::Named;
use hg_model::verdict::Refusal;
use hg_records::record::{read_record, record_len};

impl JournalReader {
    // Takes the next record of the present batch, if there is one.
    #[inline(always)]
    fn take(&mut self) -> Option<Named>
        ensures some { IfSome result (λ named. BeginsWith (rest_of self.old) named (rest_of self.new)) }
        ensures none { IfNone result (HasNoRecord (rest_of self.old)) }
        ensures stays { StaysBehind self.old self.new }
        ensures same { IfNone result (self.new ≡ self.old) }
    {
        let (named, len) = read_record(self.batches.rest())?;
        self.batches.pass(len);
        Some(named)
    }

    // Passes over the next records of the present batch, at most `most`, and answers how many it passed.
    fn pass(&mut self, most: u64) -> u64
        ensures few { result ≤ most }
        ensures passed { Passes result (rest_of self.old) (rest_of self.new) }
        ensures none { result < most → HasNoRecord (rest_of self.new) }
        ensures stays { StaysBehind self.old self.new }
    {
        let mut count = 0;
        while count < most {
            let Some(len) = record_len(self.batches.rest()) else {
                return count;
            };
            self.batches.pass(len);
            count += 1;
        }
        count
    }
}

impl<D: Disk> Journal<D> {
    /// The events, from the first on, for `next`. It takes no memory.
    pub fn events(&self) -> Result<JournalReader, Refusal>
        ensures first { BeginsAtFirst self.now result }
        ensures first_behind { (front : List ℕ) → BeginsAtFirstBehind front self.now result }
        ensures fault { IfErr result (λ e. (e ≡ Refusal.Broken) × IsTrue (is_broken self.now)) }
        ensures refuses { IsTrue (is_broken self.now) → result ≡ Err Refusal.Broken }
    {
        match self.log.reader() {
            Ok(batches) => Ok(JournalReader { batches }),
            Err(fault) => Err(refusal_of(fault)),
        }
    }

    // Goes on to a batch with unread bytes, and answers whether there is one.
    #[inline(always)]
    fn find(&mut self, reader: &mut JournalReader) -> Result<bool, Refusal>
        ensures found { (front : List ℕ) → FindsMoreBehind front self.old reader.old self.new reader.new result }
        ensures whole { (front : List ℕ) → FindsUndamagedBehind front self.old reader.old self.new result }
        ensures again { (front : List ℕ) → StaysOnErrBehind front self.old reader.old self.new reader.new result }
        ensures keeps { (events : List NamedOf) → KeepsEvents self.old events → KeepsEvents self.new events }
        ensures opens { (bodies : List (List ℕ)) → Opens self.old bodies → Opens self.new bodies }
        ensures keeps_behind { StaysKept self.old self.new }
        ensures opens_behind { StaysOpened self.old self.new }
        ensures disk { WasRead ⟦<D as Disk>⟧ 1 (disk_of self.old) (disk_of self.new) }
        ensures fault { IfErr result (λ e. IsOfReading e ⊎ (e ≡ Refusal.Broken)) }
        ensures device { D.failures (disk_of self.new) ≡ failed_after result (D.failures (disk_of self.old)) }
        ensures broken { RefusesIfBroken (is_broken self.old) Refusal.Broken self.old self.new result }
        ensures broken_or_not { is_broken self.new ≡ is_broken self.old }
    {
        if self.log.is_broken() {
            return Err(Refusal::Broken);
        }
        if !reader.batches.rest().is_empty() {
            return Ok(true);
        }
        Ok(self.turn(reader)?)
    }

    // Goes on to the next batch, where the present one was read to its end: `find` takes this way, out of line.
    #[cold]
    #[inline(never)]
    fn turn(&mut self, reader: &mut JournalReader) -> Result<bool, Refusal>
        requires works { is_broken self.old ≡ false }
        requires read { rest_of reader.old ≡ [] }
        ensures found { (front : List ℕ) → FindsMoreBehind front self.old reader.old self.new reader.new result }
        ensures whole { (front : List ℕ) → FindsUndamagedBehind front self.old reader.old self.new result }
        ensures again { (front : List ℕ) → StaysOnErrBehind front self.old reader.old self.new reader.new result }
        ensures keeps { (events : List NamedOf) → KeepsEvents self.old events → KeepsEvents self.new events }
        ensures opens { (bodies : List (List ℕ)) → Opens self.old bodies → Opens self.new bodies }
        ensures keeps_behind { StaysKept self.old self.new }
        ensures opens_behind { StaysOpened self.old self.new }
        ensures disk { WasRead ⟦<D as Disk>⟧ 1 (disk_of self.old) (disk_of self.new) }
        ensures fault { IfErr result (λ e. IsOfReading e ⊎ (e ≡ Refusal.Broken)) }
        ensures device { D.failures (disk_of self.new) ≡ failed_after result (D.failures (disk_of self.old)) }
        ensures broken { RefusesIfBroken (is_broken self.old) Refusal.Broken self.old self.new result }
        ensures broken_or_not { is_broken self.new ≡ is_broken self.old }
    {
        match self.log.turn(&mut reader.batches) {
            Ok(found) => Ok(found),
            Err(fault) => Err(refusal_of(fault)),
        }
    }

    /// Reads the next event, or none behind the last. After an `Err` it can be tried again; `Damaged` says that the bytes
    /// are not a journal's. It makes at most one device call, and
    /// takes memory only with that.
    #[inline(always)]
    pub fn next(&mut self, reader: &mut JournalReader) -> Result<Option<Named>, Refusal>
        ensures next { ReadsNext self.old reader.old self.new reader.new result }
        ensures next_behind { (front : List ℕ) → ReadsNextBehind front self.old reader.old self.new reader.new result }
        ensures damaged { TellsTrueDamage self.old reader.old self.new result }
        ensures damaged_behind { (front : List ℕ) → TellsTrueDamageBehind front self.old reader.old self.new result }
        ensures again { CanBeTriedAgain self.old reader.old self.new reader.new result }
        ensures again_behind { (front : List ℕ) →
            CanBeTriedAgainBehind front self.old reader.old self.new reader.new result }

        // The journal stays as it is.
        ensures broken_or_not { is_broken self.new ≡ is_broken self.old }
        ensures keeps { (events : List NamedOf) → KeepsEvents self.old events → KeepsEvents self.new events }
        ensures opens { (bodies : List (List ℕ)) → Opens self.old bodies → Opens self.new bodies }
        ensures keeps_behind { StaysKept self.old self.new }
        ensures opens_behind { StaysOpened self.old self.new }
        ensures disk { WasRead ⟦<D as Disk>⟧ 1 (disk_of self.old) (disk_of self.new) }
        ensures fault { IfErr result (λ e. IsOfReading e ⊎ (e ≡ Refusal.Broken)) }
        ensures device { D.failures (disk_of self.new) ≡ failed_after result (D.failures (disk_of self.old)) }
        ensures broken { RefusesIfBroken (is_broken self.old) Refusal.Broken self.old self.new result }
    {
        if !self.find(reader)? {
            return Ok(None);
        }
        match reader.take() {
            Some(named) => Ok(Some(named)),
            None => Err(Refusal::Damaged),
        }
    }

    /// Passes over events of one batch, and answers how many: `most` of them, or as many as the batch has left. Behind the
    /// last event, and only there, it answers 0. It does not decode the events, so it is much faster than `next`. After an
    /// `Err` it can be tried again; `Damaged` says that the bytes are not a journal's. It makes at most one device call,
    /// and takes memory only with that.
    pub fn pass(&mut self, reader: &mut JournalReader, most: u64) -> Result<u64, Refusal>
        requires some { 0 < most }
        ensures few { IfOk result (λ count. count ≤ most) }
        ensures passed { ReadsMore self.old reader.old self.new reader.new result }
        ensures passed_behind { (front : List ℕ) →
            ReadsMoreBehind front self.old reader.old self.new reader.new result }
        ensures at_end { HasReadAll self.old reader.old self.new result }
        ensures at_end_behind { (front : List ℕ) → HasReadAllBehind front self.old reader.old self.new result }
        ensures damaged { TellsTrueDamage self.old reader.old self.new result }
        ensures damaged_behind { (front : List ℕ) → TellsTrueDamageBehind front self.old reader.old self.new result }
        ensures again { CanBeTriedAgain self.old reader.old self.new reader.new result }
        ensures again_behind { (front : List ℕ) →
            CanBeTriedAgainBehind front self.old reader.old self.new reader.new result }

        // The journal stays as it is.
        ensures broken_or_not { is_broken self.new ≡ is_broken self.old }
        ensures disk { WasRead ⟦<D as Disk>⟧ 1 (disk_of self.old) (disk_of self.new) }
        ensures fault { IfErr result (λ e. IsOfReading e ⊎ (e ≡ Refusal.Broken)) }
        ensures device { D.failures (disk_of self.new) ≡ failed_after result (D.failures (disk_of self.old)) }
        ensures broken { RefusesIfBroken (is_broken self.old) Refusal.Broken self.old self.new result }
    {
        if !self.find(reader)? {
            return Ok(0);
        }
        let count = reader.pass(most);
        if count == 0 {
            return Err(Refusal::Damaged);
        }
        Ok(count)
    }
}
