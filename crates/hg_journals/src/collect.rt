//! Reading the events of a pair from a number on.
ghost use Rattle.std.specs.Prelude.{◌≡◌, ◌≢◌, ◌+◌, ◌-◌, ◌<◌, ◌≤◌, length, IsTrue, IsOk, IfOk, IfErr, Err, false};
ghost use Rattle.hg_journals.specs.Pairs.{StaysKept, base_of, is_broken, newer_base_of};
ghost use Rattle.hg_journals.specs.Collecting.{BeginsBefore, BeginsBehind, Collects, HasOutside, IfKeeps, KeepsIfTrue, TakesNext, TakesUndamaged, passed_to, wanted_from};
ghost use Rattle.hg_journals.specs.Reading.{LeavesOlder, Reads};

use crate::pair::JournalPair;
use crate::reader::PairReader;
use hg_disk::Disk;
use hg_model::event::Named;
use hg_model::verdict::Refusal;
use std::alloc::Global;

impl<D: Disk> JournalPair<D> {
    // A reader at the beginning of the file that has the place behind number `count`, and how many events are to be
    // passed over from there.
    fn begin_before(&self, count: u64) -> Result<(PairReader, u64), Refusal>
        requires works { is_broken self.now ≡ false }
        requires base { base_of self.now ≤ count }
        ensures first { BeginsBefore count self.now result }
        ensures few { IfOk result (λ begun. begun.1 ≤ count - base_of self.now) }
        ensures newer { newer_base_of self.now ≤ count → IfOk result (λ begun. IsTrue begun.0.in_newer) }
        ensures begins { IsOk result }
    {
        if count < self.newer_base {
            let reader = self.events()?;
            return Ok((reader, count - self.base));
        }
        let reader = self.newer.events()?;
        let reader = PairReader {
            reader,
            in_newer: true,
        };
        Ok((reader, count - self.newer_base))
    }

    /// The events behind number `count`, for `next`: those up to it are passed over, and not decoded. `Damaged` says
    /// that no kept event has a place there: `count` is less than the base, or greater than the last number. It makes
    /// at most one device call of each file for each event that it passes over, and takes memory only with that. Where
    /// that place is in the current file, the other one is not called.
    pub fn events_behind(&mut self, count: u64) -> Result<PairReader, Refusal>
        ensures first { BeginsBehind count self.old self.new result }
        ensures damaged { IfKeeps self.old self.new (λ base events. result ≡ Err Refusal.Damaged → HasOutside count self.old) }
        ensures outside { is_broken self.old ≡ false → HasOutside count self.old →
            (result ≡ Err Refusal.Damaged) × (self.new ≡ self.old) }
        ensures keeps { KeepsIfTrue self.old self.new }
        ensures older { newer_base_of self.old ≤ count → IfOk result (λ reader. IsTrue reader.in_newer) ×
            (self.new.older ≡ self.old.older) }
        ensures reads { Reads (count - base_of self.old) self.old self.new result }
    {
        if self.is_broken {
            return Err(Refusal::Broken);
        }
        if count < self.base || self.last < count {
            return Err(Refusal::Damaged);
        }
        let (mut reader, mut left) = self.begin_before(count)?;
        while left > 0 {
            let passed = self.pass(&mut reader, left)?;
            if passed == 0 {
                return Err(Refusal::Damaged);
            }
            left -= passed;
        }
        Ok(reader)
    }

    // The next events: so many, or all that are left.
    fn take(
        &mut self,
        alloc: Global,
        reader: &mut PairReader,
        count: u64,
    ) -> Result<Vec<Named>, Refusal>
        requires works { is_broken self.old ≡ false }
        ensures found { TakesNext count self.old reader.old self.new result }
        ensures whole { TakesUndamaged self.old reader.old self.new result }
        ensures few { IfOk result (λ found. length found.items ≤ count) }
        ensures keeps { StaysKept self.old self.new }
        ensures older { LeavesOlder self.old reader.old self.new reader.new }
        ensures reads { Reads count self.old self.new result }
    {
        let mut found = Vec::new(alloc);
        let mut left = count;
        while left > 0 {
            let Some(named) = self.next(reader)? else {
                return Ok(found);
            };
            found.push(named)?;
            left -= 1;
        }
        Ok(found)
    }

    /// The kept events from number `from` on, at most `max`. It begins with the first kept event if `from` is less,
    /// and finds none above the last number. It makes at most one device call of each file for each event up to the
    /// last one that it finds, none of the other file if they are all in the current one, and none if it finds none. It
    /// takes memory for what it finds, and with a device call.
    pub fn collect(&mut self, alloc: Global, from: u64, max: usize) -> Result<Vec<Named>, Refusal>
        ensures found { Collects from max self.old self.new result }
        ensures whole { IfKeeps self.old self.new (λ base events. IfErr result (λ e. e ≢ Refusal.Damaged)) }
        ensures few { IfOk result (λ found. length found.items ≤ wanted_from from max self.old) }
        ensures none { is_broken self.old ≡ false → wanted_from from max self.old ≡ 0 →
            IsOk result × (self.new ≡ self.old) }
        ensures keeps { KeepsIfTrue self.old self.new }
        ensures older { newer_base_of self.old < from → self.new.older ≡ self.old.older }
        ensures reads { Reads (passed_to from self.old + wanted_from from max self.old) self.old self.new result }
    {
        if self.is_broken {
            return Err(Refusal::Broken);
        }
        let passed = from.saturating_sub(1).saturating_sub(self.base);
        let wanted = (self.last - self.base)
            .saturating_sub(passed)
            .min(max as u64);
        if wanted == 0 {
            return Ok(Vec::new(alloc));
        }
        let mut reader = self.events_behind(self.base + passed)?;
        self.take(alloc, &mut reader, wanted)
    }
}
