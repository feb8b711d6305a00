//! Which slot each page lies in.
ghost use Rattle.std.specs.Prelude.{◌≡◌, ◌+◌, ◌≤◌, ◌<◌, ◌↔◌, ℕ, [], Some, length, is_some, slice_index_or, false, IsTrue, IsOk, OnOk, OnErr, IfOk, if◌then◌else◌};
ghost use Rattle.std.specs.Option.{ForSome};
ghost use Rattle.hg_pages.specs.Marks.{cleared, marked};
ghost use Rattle.hg_pages.specs.Tables.{AreEntries, AreSlotsBelow, EachNamed, GivesSlot, GrowsByNew, IsNamed, LosesPage, slot_in};

use crate::entries::{find, put, take_out};
use crate::gap_buffer::GapBuffer;
use std::alloc::{AllocError, Global};
use std::marker::Model;

/// A table of pages, each with the slot that it lies in. No slot has two pages.
///
/// Contracts see its entries by rising page, the number of entries that its memory is for (`capacity`), and the number
/// below which slots can be named without new memory (`slots`). An entry takes 16 bytes, and each slot up to the greatest
/// takes one byte.
pub struct Table {
    entries: GapBuffer,
    // Whether each slot is named.
    named: Vec<bool>,
}

impl Drop for Table {
    fn drop(self) {
        let Table { entries, named } = self;
        drop(entries);
        drop(named);
    }
}

impl Model for Table {
    ghost use Rattle.std.specs.Prelude.{length};
    ghost use Rattle.hg_pages.specs.Marks.{AreMarks, IsInOrder};
    ghost use Rattle.hg_pages.specs.Tables.{ShownTable};
    ghost use Rattle.std.specs.Option.{ForSome};

    ghost Value = { ShownTable };

    ghost view = { λ t. record { entries = t.entries.items; capacity = t.entries.capacity; slots = length t.named.items } };

    ghost invariant = { λ t. IsInOrder t.entries.items × AreMarks t.named.items t.entries.items };
}

impl Table {
    /// An empty table. It takes no memory.
    pub fn new(alloc: Global) -> Self
        ensures { result.entries ≡ [] }
    {
        Table {
            entries: GapBuffer::from_vec(Vec::new(alloc)),
            named: Vec::new(alloc),
        }
    }

    /// A table of these entries, which are in order. The only error is want of memory: it takes one byte for each slot up
    /// to the greatest.
    pub fn from_entries(alloc: Global, entries: Vec<(u64, u32)>) -> Result<Self, AllocError>
        requires { AreEntries entries.items }
        ensures { IfOk result (λ table. table.entries ≡ entries.items) }
    {
        let mut named = Vec::new(alloc);
        for entry in &entries {
            let slot = entry.1 as usize;
            reach(&mut named, slot + 1)?;
            named[slot] = true;
        }
        Ok(Table {
            entries: GapBuffer::from_vec(entries),
            named,
        })
    }

    /// Its pages, which rise, each with its slot. It takes no memory.
    pub fn into_entries(self) -> Vec<(u64, u32)>
        ensures value { result.items ≡ self.entries }
        ensures entries { AreEntries self.entries }
    {
        let Table { entries, named } = self;
        drop(named);
        entries.into_vec()
    }

    /// How many pages it has.
    pub fn len(&self) -> usize
        ensures value { result ≡ length self.now.entries }
        ensures entries { AreEntries self.now.entries }
    {
        self.entries.len()
    }

    /// The page at this index, where pages rise, and its slot.
    pub fn at(&self, index: usize) -> (u64, u32)
        requires { index < length self.now.entries }
        ensures { result ≡ slice_index_or self.now.entries index result }
    {
        self.entries.at(index)
    }

    /// How many slots it has memory for. Each slot that it names is below that.
    pub fn slots(&self) -> usize
        ensures value { result ≡ self.now.slots }
        ensures below { AreSlotsBelow result self.now.entries }
    {
        self.named.len()
    }

    /// The slot of a page.
    pub fn get(&self, page: u64) -> Option<u32>
        ensures { result ≡ slot_in self.now.entries page }
    {
        find(&self.entries, page)
    }

    /// Whether a page lies in the slot.
    #[inline]
    pub fn names(&self, slot: u32) -> bool
        ensures { IsTrue result ↔ IsNamed self.now.entries slot }
    {
        let slot = slot as usize;
        slot < self.named.len() && self.named[slot]
    }

    /// The first slot from this one on and below `most` in which no page lies, or `most` if each has a page.
    pub(crate) fn end_of_named(&self, from: u32, most: u32) -> u32
        requires { from ≤ most }
        ensures within { (from ≤ result) × (result ≤ most) }
        ensures named { EachNamed (IsNamed self.now.entries) from result }
        ensures end { result < most → ¬ IsNamed self.now.entries result }
    {
        for slot in from..most {
            if !self.names(slot) {
                return slot;
            }
        }
        most
    }

    /// Makes room for `more` more entries, and for slots below `slots`. An `Err` leaves the entries as they are.
    pub fn reserve(&mut self, more: usize, slots: usize) -> Result<(), AllocError>
        ensures entries { self.new.entries ≡ self.old.entries }
        ensures capacity { OnOk result (length self.old.entries + more ≤ self.new.capacity) }
        ensures slots { OnOk result (slots ≤ self.new.slots) }
        ensures no_less { (self.old.capacity ≤ self.new.capacity) × (self.old.slots ≤ self.new.slots) }
    {
        self.entries.reserve(more)?;
        reach(&mut self.named, slots)
    }

    /// Gives a page a slot in which no other page lies, in place of its former one. It takes no memory if there is room for
    /// the slot, and if the page has an entry already or there is room for a new one.
    pub fn set(&mut self, page: u64, slot: u32) -> Result<(), AllocError>
        requires free { (other : ℕ) → slot_in self.old.entries other ≡ Some slot → other ≡ page }
        ensures ok { OnOk result (GivesSlot page slot self.old.entries self.new.entries) }
        ensures err { OnErr result (self.new.entries ≡ self.old.entries) }
        ensures adds { length self.old.entries < self.old.capacity → slot < self.old.slots → IsOk result }
        ensures replaces { IsTrue (is_some (slot_in self.old.entries page)) → slot < self.old.slots → IsOk result }
        ensures no_less { (self.old.capacity ≤ self.new.capacity) × (self.old.slots ≤ self.new.slots) }
        ensures length { OnOk result (GrowsByNew page self.old.entries self.new.entries) }
    {
        let index = slot as usize;
        reach(&mut self.named, index + 1)?;
        let former = put(&mut self.entries, page, slot)?;
        mark(&mut self.named, former, index);
        Ok(())
    }

    /// Takes a page out, and answers the slot that it had. It takes no memory, and keeps the room of the entry.
    pub fn remove(&mut self, page: u64) -> Option<u32>
        ensures answer { result ≡ slot_in self.old.entries page }
        ensures removed { LosesPage page self.old.entries self.new.entries }
        ensures room { (self.new.capacity ≡ self.old.capacity) × (self.new.slots ≡ self.old.slots) }
        ensures length { length self.new.entries + (if is_some result then 1 else 0) ≡ length self.old.entries }
    {
        let former = take_out(&mut self.entries, page);
        clear(&mut self.named, former);
        former
    }

    /// A table with the same entries. The only error is want of memory.
    pub fn copy(&self, alloc: Global) -> Result<Table, AllocError>
        ensures { IfOk result (λ table. table.entries ≡ self.now.entries) }
    {
        let entries = self.entries.copy(alloc)?;
        let mut named = Vec::with_capacity(alloc, self.named.len())?;
        named.extend_from_slice(&self.named)?;
        Ok(Table { entries, named })
    }
}

// Makes marks for `slots` slots, if there are fewer.
fn reach(named: &mut Vec<bool>, slots: usize) -> Result<(), AllocError>
    ensures reached { OnOk result (slots ≤ length named.new.items) }
    ensures same { (slot : ℕ) → slice_index_or named.new.items slot false ≡ slice_index_or named.old.items slot false }
    ensures no_less { length named.old.items ≤ length named.new.items }
    ensures succeeds { slots ≤ length named.old.items → IsOk result }
{
    if slots > named.len() {
        named.resize(slots, false)?;
    }
    Ok(())
}

// Marks a slot as named, and the former one as not named.
fn mark(named: &mut Vec<bool>, former: Option<u32>, slot: usize)
    requires slot { slot < length named.old.items }
    requires former { ForSome former (λ s. s < length named.old.items) }
    ensures marks { named.new.items ≡ marked former slot named.old.items }
    ensures length { length named.new.items ≡ length named.old.items }
{
    clear(named, former);
    named[slot] = true;
}

// Marks a slot as not named.
fn clear(named: &mut Vec<bool>, former: Option<u32>)
    requires { ForSome former (λ s. s < length named.old.items) }
    ensures marks { named.new.items ≡ cleared former named.old.items }
    ensures length { length named.new.items ≡ length named.old.items }
{
    if let Some(former) = former {
        named[former as usize] = false;
    }
}
