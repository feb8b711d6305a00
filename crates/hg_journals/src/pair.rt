//! Two journal files that take turns: events are appended to the current one, and the other is spare, or has the events
//! before them.
ghost use Rattle.std.specs.Prelude.{◌≡◌, ◌+◌, ◌≤◌, [], length, Err, IfOk, IfErr, OnOk, true, false};
ghost use Rattle.hg_disk.specs.Calls.{CallsAtMost};
ghost use Rattle.hg_disk.specs.Moments.{LeavesTorn};
ghost use Rattle.hg_gate.specs.declared.based.TheConstants.{MAX_BASE as MAX_BASE_OF};
ghost use Rattle.hg_journal.specs.Reading as journal;

use hg_disk::Disk;
use hg_gate::MAX_BASE;
use hg_journal::journal::{Journal, JournalRoom, MAX_BATCH_EVENTS};
use hg_model::event::Named;
use hg_model::verdict::Refusal;
use std::mem::swap;

/// The events of a store, in two journal files. Events are numbered from 1 on. The pair keeps those behind its base,
/// the number of events that came before them: these have been given up.
pub struct JournalPair<D: Disk> {
    pub(crate) older: Journal<D>,
    pub(crate) newer: Journal<D>,
    /// How many events came before the first kept one.
    pub(crate) base: u64,
    /// How many events came before the first one of the current file.
    pub(crate) newer_base: u64,
    /// How many events there were up to the last one: its number.
    pub(crate) last: u64,
    /// Whether the other file is spare.
    pub(crate) has_spare: bool,
    /// Whether the other file is the second one.
    pub(crate) is_turned: bool,
    /// Whether a device call of a step failed.
    pub(crate) is_broken: bool,
    ghost order: { base ≤ newer_base },
    ghost order_of_last: { newer_base ≤ last },
    ghost fits: { last ≤ MAX_BASE_OF },
    ghost older_works: { is_broken ≡ false → journal.is_broken older ≡ false },
    ghost newer_works: { is_broken ≡ false → journal.is_broken newer ≡ false },
}

impl<D: Disk + Drop> Drop for JournalPair<D> {
    fn drop(self) {
        let JournalPair {
            older,
            newer,
            base: _,
            newer_base: _,
            last: _,
            has_spare: _,
            is_turned: _,
            is_broken: _,
        } = self;
        drop(older);
        drop(newer);
    }
}

impl<D: Disk> JournalPair<D> {
    ghost use Rattle.hg_journals.specs.Making.{CountsMaking, IsNewOn, MakesInTurn, first_bytes, first_made, second_made, spare_bytes};
    ghost use Rattle.hg_journals.specs.Pairs.{AddsEvents, RetiresIfDue, Keeps, KeepsBehindBase, KeepsOnOk, LeavesAllOrBehind, LeavesAllOrNone, LeavesSame, OpensNew, Steps, TurnsIfDue, base_of, first_of, has_spare, is_broken, is_retirable, is_turn_due, is_turned, last_of, newer, newer_base_of, newer_since, older, older_since, second_of};
    ghost use Rattle.hg_journals.specs.Reading.{KeepsReaders};

    /// Makes the pair of a new store on two empty disks, with memory taken before. The first file is open with the
    /// base 0 and no events, the second one is spare, both durable. An `Err` hands the disks back: either a call of
    /// the first one failed and the second was not called, or the first is made and a call of the second failed. It
    /// makes at most two device calls of each disk.
    pub fn create(
        room0: JournalRoom,
        room1: JournalRoom,
        journal0: D,
        journal1: D,
    ) -> Result<JournalPair<D>, (D, D)>
        requires first { length (D.state journal0).contents ≡ 0 }
        requires second { length (D.state journal1).contents ≡ 0 }
        ensures keeps { IfOk result (λ pair. Keeps pair 0 []) }
        ensures files { IfOk result (IsNewOn journal0 journal1) }
        ensures spare { IfOk result (λ pair. (has_spare pair ≡ true) × (is_turned pair ≡ true)) }
        ensures in_turn { IfErr result (MakesInTurn ⟦<D as Disk>⟧ journal1) }

        // A crash at any moment of the call, and one after an `Err`, leaves of each what a torn write may leave.
        ensures first_moments { LeavesTorn ⟦<D as Disk>⟧ 0 first_bytes journal0 (first_made result) }
        ensures second_moments { LeavesTorn ⟦<D as Disk>⟧ 0 spare_bytes journal1 (second_made result) }

        ensures first_calls { CallsAtMost ⟦<D as Disk>⟧ 2 journal0 (first_made result) }
        ensures second_calls { CallsAtMost ⟦<D as Disk>⟧ 2 journal1 (second_made result) }
        ensures device { CountsMaking ⟦<D as Disk>⟧ journal0 journal1 result }
    {
        let first = match Journal::create_open(room0, journal0) {
            Ok(first) => first,
            Err((_, journal0)) => return Err((journal0, journal1)),
        };
        match Journal::create_spare(room1, journal1) {
            Ok(second) => Ok(JournalPair {
                older: second,
                newer: first,
                base: 0,
                newer_base: 0,
                last: 0,
                has_spare: true,
                is_turned: true,
                is_broken: false,
            }),
            Err((_, journal1)) => Err((first.into_disk(), journal1)),
        }
    }

    /// The two disks, the first file's first.
    pub fn into_disks(self) -> (D, D)
        ensures first { result.0 ≡ first_of self }
        ensures second { result.1 ≡ second_of self }
    {
        let JournalPair {
            older,
            newer,
            base: _,
            newer_base: _,
            last: _,
            has_spare: _,
            is_turned,
            is_broken: _,
        } = self;
        if is_turned {
            (newer.into_disk(), older.into_disk())
        } else {
            (older.into_disk(), newer.into_disk())
        }
    }

    /// The number of the first event that is kept, or that of the next one if none is.
    pub fn first_kept(&self) -> u64
        ensures { result ≡ base_of self.now + 1 }
    {
        self.base + 1
    }

    /// The number of the last event, or 0 if there was none yet.
    pub fn last_kept(&self) -> u64
        ensures { result ≡ last_of self.now }
    {
        self.last
    }

    /// Whether a device call of a step failed. From then on each step answers `Broken`.
    pub fn is_broken(&self) -> bool
        ensures { result ≡ is_broken self.now }
    {
        self.is_broken
    }

    /// Adds 1 to 1,024 events, all at once, to the current file. After an `Ok` they are durable. After an `Err` the
    /// pair is broken, and a crash leaves the events from before, with all the new ones or none. It makes four device
    /// calls of the current file at most, and none of the other; it takes no memory.
    pub fn append(&mut self, events: &[Named]) -> Result<(), Refusal>
        requires some { 1 ≤ length events.now }
        requires few { length events.now ≤ MAX_BATCH_EVENTS }
        requires fits { last_of self.old + length events.now ≤ MAX_BASE_OF }
        ensures added { AddsEvents events.now self.old self.new result }
        ensures last { OnOk result (last_of self.new ≡ last_of self.old + length events.now) }
        ensures any_moment { LeavesAllOrNone events.now self.old self.new }

        // A reader that was begun before reads on, to the new events too.
        ensures readers { KeepsReaders self.old self.new result }

        // Nothing else is changed: neither the other file, nor a base, nor the turn.
        ensures other { self.new.older ≡ self.old.older }
        ensures base { base_of self.new ≡ base_of self.old }
        ensures newer_base { newer_base_of self.new ≡ newer_base_of self.old }
        ensures spare { has_spare self.new ≡ has_spare self.old }
        ensures turn { is_turned self.new ≡ is_turned self.old }

        ensures calls { CallsAtMost ⟦<D as Disk>⟧ 4 (newer self.old) (newer self.new) }
        ensures steps { Steps self.old self.new result }
    {
        if self.is_broken {
            return Err(Refusal::Broken);
        }
        self.is_broken = true;
        self.newer.append(events)?;
        self.is_broken = false;
        self.last += events.len() as u64;
        Ok(())
    }

    // Whether a turn is due.
    fn is_turn_due(&self) -> bool
        ensures { result ≡ is_turn_due self.now }
    {
        self.has_spare && self.newer_base < self.last
    }

    /// If there is a spare file and the current one has an event, opens the spare file with the last event's number as
    /// its base, and answers true: it is the current file from then on. Else does nothing, and answers false. A crash
    /// at any moment leaves the same events behind the same base. After an `Err` the pair is broken. It makes five
    /// device calls of the spare file at most, and none of the other; it takes no memory.
    pub fn turn(&mut self) -> Result<bool, Refusal>
        ensures turned { TurnsIfDue self.old self.new result }
        ensures keeps { KeepsOnOk self.old self.new result }
        ensures opened { OpensNew self.old self.new result }
        ensures any_moment { LeavesSame self.old self.new }
        ensures other { newer_since self.old self.new ≡ newer self.old }
        ensures calls { CallsAtMost ⟦<D as Disk>⟧ 5 (older self.old) (older_since self.old self.new) }
        ensures steps { Steps self.old self.new result }
    {
        if self.is_broken {
            return Err(Refusal::Broken);
        }
        if !self.is_turn_due() {
            return Ok(false);
        }
        self.is_broken = true;
        self.older.open(self.last)?;
        self.is_broken = false;
        self.has_spare = false;
        self.newer_base = self.last;
        swap(&mut self.older, &mut self.newer);
        self.is_turned = !self.is_turned;
        Ok(true)
    }

    // Whether the other file may be retired.
    fn is_retirable(&self, count: u64) -> bool
        ensures { result ≡ is_retirable count self.now }
    {
        !self.has_spare && self.newer_base <= count
    }

    /// If both files are open, and `count` events (those of the newest root) reach up to the base of the current file
    /// or beyond, closes the other file, and answers true: its events are no longer kept. Else does nothing, and
    /// answers false. A crash at any moment leaves all events, or those of the current file. After an `Err` the pair
    /// is broken. It makes two device calls of the other file at most, and none of the current one; it takes no
    /// memory.
    pub fn retire(&mut self, count: u64) -> Result<bool, Refusal>
        ensures retired { RetiresIfDue count self.old self.new result }
        ensures keeps { KeepsBehindBase self.old self.new result }
        ensures any_moment { LeavesAllOrBehind count self.old self.new }
        ensures other { self.new.newer ≡ self.old.newer }
        ensures turn { is_turned self.new ≡ is_turned self.old }
        ensures calls { CallsAtMost ⟦<D as Disk>⟧ 2 (older self.old) (older self.new) }
        ensures steps { Steps self.old self.new result }
    {
        if self.is_broken {
            return Err(Refusal::Broken);
        }
        if !self.is_retirable(count) {
            return Ok(false);
        }
        self.is_broken = true;
        self.older.close()?;
        self.is_broken = false;
        self.has_spare = true;
        self.base = self.newer_base;
        Ok(true)
    }
}
