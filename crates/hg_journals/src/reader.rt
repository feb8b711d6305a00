//! Reading the events of a pair, one after the other.
ghost use Rattle.std.specs.Prelude.{◌≡◌, ◌<◌, ◌≤◌, IfOk, IfErr, IsTrue, Err, true, false};
ghost use Rattle.hg_journals.specs.Pairs.{Keeps, StaysKept, is_broken};
ghost use Rattle.hg_journals.specs.Reading.{Behind, BeginsAtFirst, KeepsWhereRead, LeavesOlder, MoreBehind, MoreInNewer, NextBehind, NextInNewer, Reads, ReadsMore, ReadsNewer, ReadsNext, StaysBehind, StaysInNewer, StaysOnErr, Where};

use crate::pair::JournalPair;
use hg_disk::Disk;
use hg_journal::journal::JournalReader;
use hg_model::event::Named;
use hg_model::verdict::Refusal;

/// A place among the events of a pair: the next one to be read.
#[derive(Drop)]
pub struct PairReader {
    pub(crate) reader: JournalReader,
    /// Whether it reads the current file.
    pub(crate) in_newer: bool,
}

impl<D: Disk> JournalPair<D> {
    /// The events that are kept, from the first on, for `next`. It takes no memory. A reader stays good when events
    /// are appended. It is of no more use after a `turn` or a `retire` that answered true.
    pub fn events(&self) -> Result<PairReader, Refusal>
        ensures first { BeginsAtFirst self.now result }
        ensures fault { IfErr result (λ e. (e ≡ Refusal.Broken) × IsTrue (is_broken self.now)) }
        ensures refuses { IsTrue (is_broken self.now) → result ≡ Err Refusal.Broken }
    {
        if self.is_broken {
            return Err(Refusal::Broken);
        }
        if self.has_spare {
            let reader = self.newer.events()?;
            return Ok(PairReader {
                reader,
                in_newer: true,
            });
        }
        let reader = self.older.events()?;
        Ok(PairReader {
            reader,
            in_newer: false,
        })
    }

    // Reads the next event of the current file.
    #[inline(always)]
    fn next_in_newer(&mut self, reader: &mut JournalReader) -> Result<Option<Named>, Refusal>
        requires works { is_broken self.old ≡ false }
        ensures next { NextInNewer self.old reader.old self.new reader.new result }
        ensures stays { StaysInNewer self.old reader.old self.new reader.new result }
        ensures keeps { StaysKept self.old self.new }
        ensures reads { ReadsNewer self.old self.new result }
    {
        self.newer.next(reader)
    }

    // Begins with the current file, behind all events of the other, and reads its first event.
    #[cold]
    #[inline(never)]
    fn next_behind(&mut self, reader: &mut JournalReader) -> Result<Option<Named>, Refusal>
        requires works { is_broken self.old ≡ false }
        ensures next { NextBehind self.old self.new reader.new result }
        ensures stays { StaysBehind self.old self.new reader.new result }
        ensures keeps { StaysKept self.old self.new }
        ensures reads { ReadsNewer self.old self.new result }
    {
        *reader = self.newer.events()?;
        self.next_in_newer(reader)
    }

    /// Reads the next event, or none behind the last. After an `Err` it can be tried again. It makes at most one
    /// device call of each file, and takes memory only with that.
    #[inline(always)]
    pub fn next(&mut self, reader: &mut PairReader) -> Result<Option<Named>, Refusal>
        ensures next { ReadsNext self.old reader.old self.new reader.new result }
        ensures stays { StaysOnErr self.old reader.old self.new reader.new result }
        ensures keeps { StaysKept self.old self.new }
        ensures older { LeavesOlder self.old reader.old self.new reader.new }
        ensures reads { Reads 1 self.old self.new result }
    {
        if self.is_broken {
            return Err(Refusal::Broken);
        }
        if reader.in_newer {
            return self.next_in_newer(&mut reader.reader);
        }
        match self.older.next(&mut reader.reader) {
            Ok(Some(named)) => Ok(Some(named)),
            Ok(None) => {
                reader.in_newer = true;
                self.next_behind(&mut reader.reader)
            }
            Err(refusal) => Err(refusal),
        }
    }

    // Passes over events of one batch of the current file.
    fn pass_in_newer(&mut self, reader: &mut JournalReader, most: u64) -> Result<u64, Refusal>
        requires works { is_broken self.old ≡ false }
        requires some { 0 < most }
        ensures few { IfOk result (λ count. count ≤ most) }
        ensures passed { MoreInNewer self.old reader.old self.new reader.new result }
        ensures stays { StaysInNewer self.old reader.old self.new reader.new result }
        ensures keeps { Where true self.old reader.old self.new (λ base events seen. Keeps self.new base events) }
        ensures reads { ReadsNewer self.old self.new result }
    {
        self.newer.pass(reader, most)
    }

    // Begins with the current file, behind all events of the other, and passes over events of its first batch.
    fn pass_behind(&mut self, reader: &mut JournalReader, most: u64) -> Result<u64, Refusal>
        requires works { is_broken self.old ≡ false }
        requires some { 0 < most }
        ensures few { IfOk result (λ count. count ≤ most) }
        ensures passed { MoreBehind self.old self.new reader.new result }
        ensures stays { StaysBehind self.old self.new reader.new result }
        ensures keeps { Behind self.old self.new (λ base events former. Keeps self.new base events) }
        ensures reads { ReadsNewer self.old self.new result }
    {
        *reader = self.newer.events()?;
        self.pass_in_newer(reader, most)
    }

    /// Passes over events of one batch, and answers how many: `most` of them, or as many as the batch has left. Behind
    /// the last event, and only there, it answers 0. It does not decode the events, so it is much faster than `next`.
    /// After an `Err` it can be tried again. It makes at most one device call of each file, and takes memory only with
    /// that.
    pub fn pass(&mut self, reader: &mut PairReader, most: u64) -> Result<u64, Refusal>
        requires some { 0 < most }
        ensures few { IfOk result (λ count. count ≤ most) }
        ensures passed { ReadsMore self.old reader.old self.new reader.new result }
        ensures stays { StaysOnErr self.old reader.old self.new reader.new result }
        ensures keeps { KeepsWhereRead self.old reader.old self.new }
        ensures older { LeavesOlder self.old reader.old self.new reader.new }
        ensures reads { Reads 1 self.old self.new result }
    {
        if self.is_broken {
            return Err(Refusal::Broken);
        }
        if reader.in_newer {
            return self.pass_in_newer(&mut reader.reader, most);
        }
        let count = match self.older.pass(&mut reader.reader, most) {
            Ok(count) => count,
            Err(refusal) => return Err(refusal),
        };
        if count > 0 {
            return Ok(count);
        }
        reader.in_newer = true;
        self.pass_behind(&mut reader.reader, most)
    }
}
