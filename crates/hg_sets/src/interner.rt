//! Interning over the lists, with a buffer for the set that is asked for.

use crate::fault::SetFault;
use crate::lists::{Lists, MOST_ELEMENTS, hash};
use crate::merging::{write_common, write_joined};
use crate::reserving::Room;
use crate::restoring::do_rise;
use crate::table::MOST_SETS;
use hg_model::sets::NumberSet;
use std::alloc::{AllocError, Global};

/// The buffer has room for so many members at least.
const LEAST_BUFFER: usize = 64;

/// Distinct sets, at most `limit` of them, and a buffer.
#[derive(Drop)]
pub(crate) struct Interner {
    limit: u32,
    lists: Lists,
    scratch: Vec<u16>,
}

impl Interner {
    ghost use Rattle.std.specs.Prelude.{◌≡◌, ◌↔◌, ◌<◌, ◌≤◌, [], ◌∷◌, length, drop, nat_lt, if◌then◌else◌, Contains, IfOk, IsTrue};
    ghost use Rattle.std.specs.List.Sorted.{IsStrictlyIncreasing};
    ghost use Rattle.hg_model.specs.Sets.{common, with_member};
    ghost use Rattle.hg_sets.specs.declared.fault.SetFault.TheVariants.{Full};
    ghost use Rattle.hg_sets.specs.Interning.{set_at, AreSets, AreThreads, MayBeAdded, first_table, table_with, with_set};
    ghost use Rattle.hg_sets.specs.Listing.{IsNumberOf, hash_of};
    ghost use Rattle.hg_sets.specs.Soundness.{table_of, HasRoom, HasRoomFor, InternsBy, IsSound, LeavesRoom};

    /// The table with the empty set alone, and room for so many sets in all. Only the numbers of `room` are known here.
    pub(crate) fn with_room(alloc: Global, limit: u32, room: Room) -> Result<Self, AllocError>
        requires greatest { limit ≤ MOST_SETS }
        requires some { 0 < room.count }
        requires within { room.count ≤ limit }
        requires short { room.longest < MOST_ELEMENTS }
        ensures table { IfOk result (λ i. table_of i ≡ first_table limit) }
        ensures sound { IfOk result IsSound }
        ensures room { IfOk result (HasRoom room) }
    {
        let scratch = Vec::with_capacity(alloc, (room.longest + 1).max(LEAST_BUFFER))?;
        let mut lists = Lists::with_room(alloc, room.count, room.members)?;
        lists.push_reserved(hash(&[]), &[]);
        Ok(Interner {
            limit,
            lists,
            scratch,
        })
    }

    /// Adds all of these sets but the first, which is there. `false` where they are not a table's. Takes no memory.
    pub(crate) fn fill(&mut self, sets: &[NumberSet]) -> bool
        requires sound { IsSound self.old }
        requires first { table_of self.old ≡ first_table self.old.limit }
        requires within { length sets.now ≤ self.old.limit }
        requires room { HasRoomFor (drop 1 sets.now) self.old }
        ensures answer { IsTrue result ↔ AreSets (table_with self.old.limit sets.now) }
        ensures filled { IsTrue result → table_of self.new ≡ table_with self.old.limit sets.now }
        ensures sound { IsSound self.new }
    {
        if sets.is_empty() || !sets[0].as_slice().is_empty() {
            return false;
        }
        for i in 1..sets.len() {
            if !self.add(sets[i].as_slice()) {
                return false;
            }
        }
        true
    }

    /// Adds a set at the end, if its members rise strictly and it is not there. Takes no memory.
    fn add(&mut self, members: &[u16]) -> bool
        requires sound { IsSound self.old }
        requires below { length self.old.lists.all < self.old.limit }
        requires room { HasRoomFor (members.now ∷ []) self.old }
        ensures answer { IsTrue result ↔ MayBeAdded self.old.lists.all members.now }
        ensures added { IsTrue result → table_of self.new ≡ with_set (table_of self.old) members.now }
        ensures sound { IsSound self.new }
        ensures room { IsTrue result → LeavesRoom members.now self.old self.new }
    {
        if !do_rise(members) {
            return false;
        }
        let hash = hash(members);
        if self.lists.find(hash, members).is_some() {
            return false;
        }
        self.lists.push_reserved(hash, members);
        true
    }

    #[inline]
    pub(crate) fn len(&self) -> u32
        ensures { result ≡ length self.now.lists.all }
    {
        self.lists.len()
    }

    /// Sets how many lists there may be. The lists stay.
    pub(crate) fn set_limit(&mut self, limit: u32)
        ensures { self.new ≡ record self.old { limit = limit } }
    {
        self.limit = limit;
    }

    #[inline]
    pub(crate) fn members(&self, id: u32) -> &[u16]
        requires { id < length self.now.lists.all }
        ensures { result.now ≡ set_at self.now.lists.all id }
    {
        self.lists.get(id)
    }

    /// Whether the members of a set can be the threads of a shared word.
    #[inline(always)]
    pub(crate) fn is_of_threads(&self, id: u32) -> bool
        requires sound { IsSound self.now }
        requires known { id < length self.now.lists.all }
        ensures { IsTrue result ↔ AreThreads (set_at self.now.lists.all id) }
    {
        self.lists.is_of_threads(id)
    }

    pub(crate) fn find(&self, members: &[u16]) -> Option<u32>
        ensures { IsNumberOf self.now.lists.all members.now result }
    {
        self.lists.find(hash(members), members)
    }

    pub(crate) fn intern(&mut self, members: &[u16]) -> Result<u32, SetFault>
        requires sound { IsSound self.old }
        requires rising { IsStrictlyIncreasing members.now }
        ensures exact { InternsBy self.old members.now result self.new }
        ensures sound { IsSound self.new }
    {
        let hash = hash(members);
        if let Some(id) = self.lists.find(hash, members) {
            return Ok(id);
        }
        self.check_room()?;
        self.scratch.clear();
        self.scratch.extend_from_slice(members)?;
        self.add_scratch(hash)
    }

    /// The number of the set in the buffer.
    fn intern_scratch(&mut self) -> Result<u32, SetFault>
        requires sound { IsSound self.old }
        requires rising { IsStrictlyIncreasing self.old.scratch.items }
        ensures exact { InternsBy self.old self.old.scratch.items result self.new }
        ensures sound { IsSound self.new }
    {
        let hash = hash(self.scratch.as_slice());
        if let Some(id) = self.lists.find(hash, self.scratch.as_slice()) {
            return Ok(id);
        }
        self.check_room()?;
        self.add_scratch(hash)
    }

    /// Full where no set more may be added.
    fn check_room(&self) -> Result<(), SetFault>
        ensures { result ≡ (if nat_lt (length self.now.lists.all) self.now.limit then Ok tt else Err Full) }
    {
        if self.lists.len() < self.limit {
            Ok(())
        } else {
            Err(SetFault::Full)
        }
    }

    /// Adds the set in the buffer, which is absent and has this hash.
    fn add_scratch(&mut self, hash: u64) -> Result<u32, SetFault>
        requires sound { IsSound self.old }
        requires hash { hash ≡ hash_of self.old.scratch.items }
        requires rising { IsStrictlyIncreasing self.old.scratch.items }
        requires absent { ¬ Contains self.old.lists.all self.old.scratch.items }
        requires below { length self.old.lists.all < self.old.limit }
        ensures exact { InternsBy self.old self.old.scratch.items result self.new }
        ensures sound { IsSound self.new }
    {
        let id = self.lists.len();
        self.scratch.reserve(1)?;
        self.lists.push(hash, self.scratch.as_slice())?;
        Ok(id)
    }

    pub(crate) fn join(&mut self, a: u32, member: u16) -> Result<u32, SetFault>
        requires sound { IsSound self.old }
        requires known { a < length self.old.lists.all }
        ensures exact { InternsBy self.old (with_member (set_at self.old.lists.all a) member) result self.new }
        ensures sound { IsSound self.new }
    {
        let members = self.lists.get(a);
        match members.binary_search(&member) {
            Ok(_) => Ok(a),
            Err(at) => {
                write_joined(members, at, member, &mut self.scratch);
                self.intern_scratch()
            }
        }
    }

    pub(crate) fn meet(&mut self, a: u32, others: &[u16]) -> Result<u32, SetFault>
        requires sound { IsSound self.old }
        requires known { a < length self.old.lists.all }
        requires rising { IsStrictlyIncreasing others.now }
        ensures exact { InternsBy self.old (common (set_at self.old.lists.all a) others.now) result self.new }
        ensures sound { IsSound self.new }
    {
        write_common(self.lists.get(a), others, &mut self.scratch);
        self.intern_scratch()
    }
}
