//! A batch of events in lists: for each part of a trace those that it has to see.

ghost use Rattle.std.specs.Prelude.{◌≡◌, ℕ, ◌<◌, ◌≤◌, Bool, true, false, nat_lt, [], IfOk, length, vec_capacity};
ghost use Rattle.hg_model.specs.Accessing.{access_event};
ghost use Rattle.hg_shards.specs.Routing.{HasRoomAt, is_routed, items_of, rooms_of, with_own};

use crate::shard::part_of_page;
use hg_model::event::{Access, Event};
use hg_model::limits::GREATEST_ACCESS;
use std::alloc::{AllocError, Global};

/// How many bytes the words of a page have.
const PAGE_BYTES: u64 = 1_024;

/// An access of a batch, as it stands in the lists of its parts.
#[derive(Clone, Copy, Debug, PartialEq, Eq, Drop)]
pub struct OwnAccess {
    /// The address of the first byte.
    pub at: u64,
    /// Its place in the batch, counted from 0.
    pub place: u32,
    /// The acting thread.
    pub t: u16,
    /// The number of bytes.
    pub len: u8,
    /// Whether it writes.
    pub write: bool,
}

/// An event of a batch that every part sees.
#[derive(Clone, Copy, Debug, PartialEq, Eq, Drop)]
pub struct Placed {
    /// Its place in the batch, counted from 0.
    pub place: u32,
    /// What happened.
    pub event: Event,
}

/// The events of a batch, each in the lists of the parts that have to see it. An access is in the list of each part that has words of
/// it, once. All other events are in one list that every part reads, and so is an access whose length or end is unlawful: each part
/// refuses it. What a part finds in neither list it passes over.
#[derive(Drop)]
pub struct Routes {
    lists: Vec<Vec<OwnAccess>>,
    common: Vec<Placed>,
    /// How many events there are.
    count: u32,
    ghost some: { 1 ≤ length lists.items },
}

const _: () = prove!(size_of::<OwnAccess>() == 16);

/// Whether the length and the end of an access are lawful.
#[inline(always)]
fn is_lawful(access: &Access) -> bool
    ensures { (write : Bool) → result ≡ is_routed (access_event write access.now) }
{
    if access.len == 0 {
        return false;
    }
    if access.len > GREATEST_ACCESS {
        return false;
    }
    access.at <= u64::MAX - (u64::from(access.len) - 1)
}

/// Whether there is room for one more access.
#[inline(always)]
fn has_room(list: &Vec<OwnAccess>) -> bool
    ensures { result ≡ nat_lt (length list.now.items) (vec_capacity list.now) }
{
    list.len() < list.capacity()
}

/// How many parts there are.
#[inline(always)]
fn count_parts(lists: &Vec<Vec<OwnAccess>>) -> usize
    ensures { result ≡ length lists.now.items }
{
    lists.len()
}

/// Puts an access behind those of a part, where there is room.
#[inline(always)]
fn put(lists: &mut Vec<Vec<OwnAccess>>, part: usize, item: OwnAccess)
    requires part { part < length lists.old.items }
    requires room { HasRoomAt lists.old.items part }
    ensures puts { items_of lists.new.items ≡ with_own (items_of lists.old.items) part item }
    ensures others { (k : ℕ) → (k ≡ part → ⊥) → HasRoomAt lists.old.items k → HasRoomAt lists.new.items k }
    ensures rooms { rooms_of lists.new.items ≡ rooms_of lists.old.items }
{
    lists[part].push_reserved(item);
}

impl Routes {
    ghost use Rattle.hg_shards.specs.Pushing.{HasRoomFor, IsRouted, KeepsRoom, Pushes, parts_in};

    /// No events, for so many parts. There is room for `own` accesses in the list of each part, and for `common` events that all parts
    /// see.
    pub fn new(alloc: Global, parts: usize, own: usize, common: usize) -> Result<Self, AllocError>
        requires { 1 ≤ parts }
        ensures none { IfOk result (IsRouted []) }
        ensures parts { IfOk result (λ r. parts_in r ≡ parts) }
        ensures room { IfOk result (HasRoomFor own common) }
    {
        let mut lists = Vec::with_capacity(alloc, parts)?;
        for _ in 0..parts {
            lists.push(Vec::with_capacity(alloc, own)?)?;
        }
        Ok(Routes {
            lists,
            common: Vec::with_capacity(alloc, common)?,
            count: 0,
        })
    }

    /// Puts an event that every part sees behind the others.
    fn push_common(&mut self, event: Event) -> bool
        requires { is_routed event ≡ false }
        ensures pushes { Pushes self.old event result self.new }
        ensures room { KeepsRoom self.old self.new }
    {
        if self.count == u32::MAX {
            return false;
        }
        if self.common.len() >= self.common.capacity() {
            return false;
        }
        self.common.push_reserved(Placed {
            place: self.count,
            event,
        });
        self.count += 1;
        true
    }

    /// Puts an access into the list of each part that has words of it, or where each part refuses it.
    #[inline(always)]
    fn push_access(&mut self, access: Access, write: bool) -> bool
        ensures pushes { Pushes self.old (access_event write access) result self.new }
        ensures room { KeepsRoom self.old self.new }
    {
        if !is_lawful(&access) {
            return self.push_common(event_of(access, write));
        }
        self.push_lawful(access, write)
    }

    /// Puts an access into the list of each part that has words of it.
    #[inline(always)]
    fn push_lawful(&mut self, access: Access, write: bool) -> bool
        requires { is_routed (access_event write access) ≡ true }
        ensures pushes { Pushes self.old (access_event write access) result self.new }
        ensures room { KeepsRoom self.old self.new }
    {
        if self.count == u32::MAX {
            return false;
        }
        let count = count_parts(&self.lists) as u64;
        let more = u64::from(access.len) - 1;
        let first = part_of_page(count, access.at / PAGE_BYTES) as usize;
        let last = part_of_page(count, (access.at + more) / PAGE_BYTES) as usize;
        if !has_room(&self.lists[first]) {
            return false;
        }
        let item = OwnAccess {
            at: access.at,
            place: self.count,
            t: access.t,
            len: access.len,
            write,
        };
        if first == last {
            put(&mut self.lists, first, item);
            self.count += 1;
            return true;
        }
        if !has_room(&self.lists[last]) {
            return false;
        }
        put(&mut self.lists, first, item);
        put(&mut self.lists, last, item);
        self.count += 1;
        true
    }

    /// Puts an event behind the others. `false` says that there is no room for it, and nothing changes. It takes no memory.
    #[inline(always)]
    pub fn push(&mut self, event: &Event) -> bool
        ensures pushes { Pushes self.old event.now result self.new }
        ensures room { KeepsRoom self.old self.new }
    {
        match event {
            Event::Read(access) => self.push_access(*access, false),
            Event::Write(access) => self.push_access(*access, true),
            _ => self.push_common(*event),
        }
    }

    /// Takes all events out. The room stays.
    pub fn clear(&mut self)
        ensures none { IsRouted [] self.new }
        ensures parts { parts_in self.new ≡ parts_in self.old }
        ensures room { KeepsRoom self.old self.new }
    {
        for k in 0..count_parts(&self.lists) {
            self.lists[k].clear();
        }
        self.common.clear();
        self.count = 0;
    }

    /// For each part the accesses to its words.
    pub fn lists(&self) -> &[Vec<OwnAccess>]
        ensures { result.now ≡ self.now.lists.items }
    {
        &self.lists
    }

    /// The events that every part sees.
    pub fn common(&self) -> &[Placed]
        ensures { result.now ≡ self.now.common.items }
    {
        &self.common
    }

    /// How many events there are.
    pub fn count(&self) -> u32
        ensures { result ≡ self.now.count }
    {
        self.count
    }
}

/// The event of an access.
#[inline(always)]
fn event_of(access: Access, write: bool) -> Event
    ensures { result ≡ access_event write access }
{
    match write {
        true => Event::Write(access),
        false => Event::Read(access),
    }
}
