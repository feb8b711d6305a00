//! The table of sets.

ghost use Rattle.std.specs.Prelude.{◌≡◌, ◌↔◌, ◌<◌, ◌≤◌, length, Contains, MatchOption, IfOk, IsTrue};
ghost use Rattle.std.specs.List.Sorted.{IsStrictlyIncreasing};
ghost use Rattle.hg_model.specs.Sets.{common, contains, with_member};
ghost use Rattle.std.specs.List.{list_all};
ghost use Rattle.hg_sets.specs.Interning.{AreSets, Interns, AreThreads, KeepsNumbers, StandsAt, first_table, set_at};

use crate::fault::SetFault;
use crate::interner::Interner;
use crate::memo::{
    JOINS, KnownJoin, KnownMeet, LONGEST, MEETS, join_place, meet_place, none_known,
};
use crate::merging::is_subset;
use crate::reserving::Room;
use std::alloc::{AllocError, Global};
use std::marker::Model;

/// The most sets that a table may have.
pub const MOST_SETS: u32 = 262_144;

/// The room that a new table takes.
const FIRST_ROOM: Room = Room {
    count: 1,
    members: 0,
    longest: 0,
};

/// Interned sets of numbers. Each set stands once, under a number below `len`, which it keeps; number 0 is the empty set.
pub struct SetTable {
    pub(crate) interner: Interner,
    pub(crate) joins: Vec<Option<KnownJoin>>,
    pub(crate) meets: Vec<Option<KnownMeet>>,
}

impl Drop for SetTable {
    fn drop(self) {
        let SetTable {
            interner,
            joins,
            meets,
        } = self;
        drop(interner);
        drop(joins);
        drop(meets);
    }
}

impl Model for SetTable {
    ghost use Rattle.hg_sets.specs.Interning.{Table};

    ghost Value = { Table };

    ghost use Rattle.hg_sets.specs.Consistency.{shown, IsConsistent};

    ghost view = { shown };

    ghost invariant = { IsConsistent };
}

impl SetTable {
    /// A table for at most `limit` sets, 1 to 262,144, with the empty set alone.
    pub fn with_limit(alloc: Global, limit: u32) -> Result<Self, AllocError>
        requires least { 1 ≤ limit }
        requires greatest { limit ≤ MOST_SETS }
        ensures table { IfOk result (λ t. t ≡ first_table limit) }
        ensures sets { IfOk result AreSets }
    {
        let interner = Interner::with_room(alloc, limit, FIRST_ROOM)?;
        let joins = none_known(alloc, JOINS)?;
        let meets = none_known(alloc, MEETS)?;
        Ok(SetTable {
            interner,
            joins,
            meets,
        })
    }

    /// The number of sets, 1 to the limit.
    #[inline]
    #[must_use]
    pub fn len(&self) -> u32
        ensures len { result ≡ length self.now.sets }
        ensures sets { AreSets self.now }
    {
        self.interner.len()
    }

    /// The members of a set, strictly rising.
    #[inline]
    pub fn members(&self, id: u32) -> &[u16]
        requires { id < length self.now.sets }
        ensures members { result.now ≡ set_at self.now.sets id }
        ensures sets { AreSets self.now }
    {
        self.interner.members(id)
    }

    /// Whether the members of a set can be the threads of a shared word: two at least, and none above `GREATEST_THREAD`. They are
    /// not read: the table keeps the answer.
    #[inline(always)]
    #[must_use]
    pub fn is_of_threads(&self, id: u32) -> bool
        requires { id < length self.now.sets }
        ensures threads { IsTrue result ↔ AreThreads (set_at self.now.sets id) }
        ensures sets { AreSets self.now }
    {
        self.interner.is_of_threads(id)
    }

    /// The number of the set with these members, if it is there. Adds nothing.
    pub fn find(&self, members: &[u16]) -> Option<u32>
        ensures found { MatchOption result (¬ Contains self.now.sets members.now) (StandsAt self.now.sets members.now) }
        ensures sets { AreSets self.now }
    {
        self.interner.find(members)
    }

    /// The number of the set with these members, which rise strictly. A set that is absent is added at the end.
    pub fn intern(&mut self, members: &[u16]) -> Result<u32, SetFault>
        requires rising { IsStrictlyIncreasing members.now }
        ensures exact { Interns self.old members.now result self.new }
        ensures number { IfOk result (StandsAt self.new.sets members.now) }
        ensures kept { KeepsNumbers self.old self.new }
        ensures sets { AreSets self.new }
    {
        let _ = &self.interner;
        if members.is_empty() {
            return Ok(0);
        }
        self.interner.intern(members)
    }

    /// The number of the set `a` with this member added, if it is absent. Eraser's thread sets grow so.
    #[inline]
    pub fn join(&mut self, a: u32, member: u16) -> Result<u32, SetFault>
        requires known { a < length self.old.sets }
        ensures exact { Interns self.old (with_member (set_at self.old.sets a) member) result self.new }
        ensures number { IfOk result (StandsAt self.new.sets (with_member (set_at self.old.sets a) member)) }
        ensures kept { KeepsNumbers self.old self.new }
        ensures sets { AreSets self.new }
    {
        let place = join_place(a, member);
        if let Some(known) = &self.joins[place]
            && known.set == a
            && known.member == member
        {
            return Ok(known.answer);
        }
        self.join_anew(a, member, place)
    }

    /// The number of the intersection of the set `a` and these others, which rise strictly. Eraser's candidate lockset shrinks so.
    #[inline]
    pub fn meet(&mut self, a: u32, others: &[u16]) -> Result<u32, SetFault>
        requires known { a < length self.old.sets }
        requires rising { IsStrictlyIncreasing others.now }
        ensures exact { Interns self.old (common (set_at self.old.sets a) others.now) result self.new }
        ensures number { IfOk result (StandsAt self.new.sets (common (set_at self.old.sets a) others.now)) }
        ensures kept { KeepsNumbers self.old self.new }
        ensures sets { AreSets self.new }
    {
        let _ = &self.interner;
        if a == 0 || others.is_empty() {
            return Ok(0);
        }
        if is_subset(self.interner.members(a), others) {
            return Ok(a);
        }
        self.meet_fewer(a, others)
    }

    /// Whether it is remembered that the set `a` has this member. (`false` says nothing.)
    #[inline(always)]
    pub fn remembers_member(&self, a: u32, member: u16) -> bool
        ensures { IsTrue result → with_member (set_at self.now.sets a) member ≡ set_at self.now.sets a }
    {
        match &self.joins[join_place(a, member)] {
            Some(known) => known.set == a && known.member == member && known.answer == a,
            None => false,
        }
    }

    /// Whether these others, which rise strictly, have all members of the set `a`.
    #[inline(always)]
    pub fn is_subset(&self, a: u32, others: &[u16]) -> bool
        requires known { a < length self.now.sets }
        requires rising { IsStrictlyIncreasing others.now }
        ensures { result ≡ list_all (contains others.now) (set_at self.now.sets a) }
    {
        is_subset(self.interner.members(a), others)
    }

    #[inline(never)]
    fn join_anew(&mut self, a: u32, member: u16, place: usize) -> Result<u32, SetFault>
        requires known { a < length self.old.sets }
        requires place { place < JOINS }
        ensures exact { Interns self.old (with_member (set_at self.old.sets a) member) result self.new }
        ensures sets { AreSets self.new }
    {
        let answer = self.interner.join(a, member)?;
        self.joins[place] = Some(KnownJoin {
            set: a,
            member,
            answer,
        });
        Ok(answer)
    }

    #[inline(never)]
    fn meet_fewer(&mut self, a: u32, others: &[u16]) -> Result<u32, SetFault>
        requires known { a < length self.old.sets }
        requires some { 0 < length others.now }
        requires rising { IsStrictlyIncreasing others.now }
        ensures exact { Interns self.old (common (set_at self.old.sets a) others.now) result self.new }
        ensures sets { AreSets self.new }
    {
        if others.len() > LONGEST {
            return self.interner.meet(a, others);
        }
        let place = meet_place(a, others);
        if let Some(known) = &self.meets[place]
            && known.is_for(a, others)
        {
            return Ok(known.answer);
        }
        self.meet_anew(a, others, place)
    }

    fn meet_anew(&mut self, a: u32, others: &[u16], place: usize) -> Result<u32, SetFault>
        requires known { a < length self.old.sets }
        requires short { length others.now ≤ LONGEST }
        requires rising { IsStrictlyIncreasing others.now }
        requires place { place < MEETS }
        ensures exact { Interns self.old (common (set_at self.old.sets a) others.now) result self.new }
        ensures sets { AreSets self.new }
    {
        let answer = self.interner.meet(a, others)?;
        self.meets[place] = Some(KnownMeet::new(a, others, answer));
        Ok(answer)
    }
}
