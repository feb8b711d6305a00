//! What is kept of the messages that were sent and not received.

ghost use Rattle.std.specs.Prelude.{◌≡◌, ◌<◌, ℕ, [], None, Some, IsSome, IfOk, IfSome, OnErr, OnOk, length};
ghost use Rattle.hg_graph.specs.Clocks.{IsGreater};
ghost use Rattle.hg_graph.specs.Filed.{AreFiled, AreOthers, HasSlot, IsFree, IsFreeIn, IsOneOther, Stay, slot_at};
ghost use Rattle.hg_graph.specs.Pending.{Notes, kept_of};

use crate::clock::Clock;
use hg_model::limits::MOST_SEGMENTS;
use hg_numbers::NumberTable;
use std::alloc::{AllocError, Global};
use std::marker::Model;

/// What is kept of a message: the segment that its send ended, and the clock of that segment.
#[derive(Drop)]
pub(crate) struct Pending {
    pub(crate) segment: u32,
    pub(crate) clock: Clock,
}

/// A place for what is kept of a message. Once that is received, its memory serves another one.
#[derive(Drop)]
pub(crate) struct Slot {
    message: u32,
    next: Option<u32>,
    kept: Pending,
}

/// What is kept of each message that was sent and not received. A contract sees look-ups.
///
/// A slot that is free names the next one that is.
#[derive(Drop)]
pub(crate) struct PendingTable {
    places: NumberTable<u32>,
    slots: Vec<Slot>,
    free: Option<u32>,
}

impl Model for PendingTable {
    ghost use Rattle.std.specs.Prelude.{List, ℕ};
    ghost use Rattle.hg_graph.specs.declared.pending.Pending.{Pending};
    ghost use Rattle.hg_graph.specs.Filed.{AreFiled, kept_entries};

    ghost Value = { List (ℕ × Pending) };

    ghost view = { λ p. kept_entries p.places.entries p.slots.items };

    ghost invariant = { λ p. AreFiled p.places.entries p.slots.items };
}

impl PendingTable {
    /// Nothing is kept. It takes no memory yet.
    pub(crate) fn new(alloc: Global) -> Self
        ensures { result ≡ [] }
    {
        PendingTable {
            places: NumberTable::new(alloc),
            slots: Vec::new(alloc),
            free: None,
        }
    }

    /// The segment that is kept of a message.
    #[inline]
    pub(crate) fn segment(&self, message: u32) -> u32
        requires { IsSome (kept_of self.now message) }
        ensures { IfSome (kept_of self.now message) (λ kept. result ≡ kept.segment) }
    {
        match self.places.get(message) {
            Some(place) => self.slots[place as usize].kept.segment,
            None => 0,
        }
    }

    /// Keeps a segment and a copy of its clock for a message of which nothing is kept. An `Err` changes nothing.
    #[inline]
    pub(crate) fn add(
        &mut self,
        alloc: Global,
        message: u32,
        segment: u32,
        clock: &Clock,
    ) -> Result<(), AllocError>
        requires fresh { kept_of self.old message ≡ None }
        ensures kept { OnOk result (Notes self.old message (Some (record { segment = segment; clock = clock.now })) self.new) }
        ensures err { OnErr result ((k : ℕ) → kept_of self.new k ≡ kept_of self.old k) }
    {
        self.places.make_room()?;
        let place = make_place(alloc, &self.places, &mut self.slots, self.free)?;
        self.free = fill(&mut self.slots, place, message, segment, clock)?;
        self.places.set(message, place);
        Ok(())
    }

    /// Lets go of what is kept of a message.
    pub(crate) fn take_out(&mut self, message: u32)
        ensures { Notes self.old message None self.new }
    {
        match self.places.get(message) {
            Some(place) => {
                let_go(&mut self.slots, place, self.free);
                self.free = Some(place);
                self.places.remove(message);
            }
            None => {}
        }
    }

    /// Raises a clock to the one that is kept of a message, but the entry of `thread` to `own`, and lets go of what is kept
    /// of the message.
    #[inline]
    pub(crate) fn receive(&mut self, message: u32, clock: &mut Clock, thread: usize, own: u32)
        requires kept { IsSome (kept_of self.old message) }
        requires thread { thread < length clock.old }
        ensures clock { IfSome (kept_of self.old message) (λ kept. IsGreater clock.old kept.clock thread own clock.new) }
        ensures taken { Notes self.old message None self.new }
    {
        match self.places.get(message) {
            Some(place) => {
                take_over(&mut self.slots, place, clock, thread, own);
                let_go(&mut self.slots, place, self.free);
                self.free = Some(place);
                self.places.remove(message);
            }
            None => {}
        }
    }
}

/// The place of a slot that is free. Where there is none, one is added.
#[inline]
fn make_place(
    alloc: Global,
    places: &NumberTable<u32>,
    slots: &mut Vec<Slot>,
    free: Option<u32>,
) -> Result<u32, AllocError>
    requires { AreFiled places.now.entries slots.old.items }
    ensures same { Stay slots.old.items slots.new.items }
    ensures place { IfOk result (λ place. (place < length slots.new.items) × IsFreeIn places.now.entries place) }
{
    match free_place(places, slots, free) {
        Some(place) => Ok(place),
        None => add_slot(alloc, slots),
    }
}

/// The first free slot, if there is one.
#[inline]
fn free_place(places: &NumberTable<u32>, slots: &Vec<Slot>, free: Option<u32>) -> Option<u32>
    ensures { IfSome result (IsFree places.now.entries slots.now.items) }
{
    let place = free?;
    if place as usize >= slots.len() || places.get(slots[place as usize].message) == Some(place) {
        return None;
    }
    Some(place)
}

/// Adds a slot, and answers its place.
#[cold]
#[inline(never)]
fn add_slot(alloc: Global, slots: &mut Vec<Slot>) -> Result<u32, AllocError>
    ensures same { Stay slots.old.items slots.new.items }
    ensures place { IfOk result (λ place. (place ≡ length slots.old.items) × (place < length slots.new.items)) }
{
    if slots.len() >= MOST_SEGMENTS as usize {
        return Err(AllocError);
    }
    let place = slots.len() as u32;
    slots.push(Slot {
        message: 0,
        next: None,
        kept: Pending {
            segment: 0,
            clock: Clock::none(alloc),
        },
    })?;
    Ok(place)
}

/// Keeps a segment and a copy of its clock for a message at a place, and answers the next free one behind that.
#[inline]
fn fill(
    slots: &mut Vec<Slot>,
    place: u32,
    message: u32,
    segment: u32,
    clock: &Clock,
) -> Result<Option<u32>, AllocError>
    requires { place < length slots.old.items }
    ensures others { AreOthers slots.old.items place slots.new.items }
    ensures filled { OnOk result (HasSlot slots.new.items place message (record { segment = segment; clock = clock.now })) }
{
    let slot = &mut slots[place as usize];
    slot.kept.clock.copy_from(clock)?;
    slot.kept.segment = segment;
    slot.message = message;
    Ok(slot.next)
}

/// Raises a clock to the one that is kept at a place, but the entry of `thread` to `own`. That clock is of no more use.
#[inline]
fn take_over(slots: &mut Vec<Slot>, place: u32, clock: &mut Clock, thread: usize, own: u32)
    requires place { place < length slots.old.items }
    requires thread { thread < length clock.old }
    ensures slots { IsOneOther slots.old.items place slots.new.items }
    ensures clock { IsGreater clock.old (slot_at slots.old.items place).kept.clock thread own clock.new }
{
    clock.take_over(&mut slots[place as usize].kept.clock, thread, own);
}

/// The slot at a place is free from now on, and in front of another one.
#[inline]
fn let_go(slots: &mut Vec<Slot>, place: u32, next: Option<u32>)
    requires { place < length slots.old.items }
    ensures { IsOneOther slots.old.items place slots.new.items }
{
    slots[place as usize].next = next;
}
