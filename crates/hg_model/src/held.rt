//! The locks that one thread holds.

ghost use Rattle.std.specs.Prelude.{◌≡◌, ◌+◌, ◌<◌, ◌≤◌, ◌++◌, ◌∷◌, ◌-◌, false, length, take, nat_le, [], MatchOption, if◌then◌else◌};
ghost use Rattle.std.specs.List.{insert, position_or_len, remove};
ghost use Rattle.std.specs.List.Sorted.{IsStrictlyIncreasing};
ghost use Rattle.hg_model.specs.Locks.{counted, with_hold, with_number, without_lock, without_number, has_lock, has_lock_for_writing, IsByRisingLock};

use crate::limits::MOST_HELD;
use arrayvec::ArrayVec;
use std::marker::Model;

/// A lock that a thread holds, in write mode or only for reading.
#[derive(Clone, Copy, Debug, Default, PartialEq, Eq)]
pub struct HeldLock {
    pub lock: u16,
    pub write: bool,
}

/// The locks that a thread holds, at most 64, by rising lock number. A contract sees the list of them.
///
/// Two more lists hold the lock numbers that count for a read and for a write, so an access builds no list.
#[derive(Drop)]
pub struct HeldLocks {
    holds: ArrayVec<HeldLock, MOST_HELD>,
    any: ArrayVec<u16, MOST_HELD>,
    writing: ArrayVec<u16, MOST_HELD>,
}

impl Model for HeldLocks {
    ghost use Rattle.std.specs.Prelude.{◌≡◌, ◌≤◌, List, true, false, length};
    ghost use Rattle.hg_model.specs.declared.limits.TheConstants.{MOST_HELD};
    ghost use Rattle.hg_model.specs.declared.held.HeldLock.{HeldLock};

    ghost Value = { List HeldLock };

    ghost use Rattle.hg_model.specs.Locks.{counted, IsByRisingLock};

    ghost view = { λ h. h.holds.items };

    ghost invariant = { λ h. (h.any.items ≡ counted false h.holds.items)
        × (h.writing.items ≡ counted true h.holds.items)
        × IsByRisingLock h.holds.items
        × (length h.holds.items ≤ MOST_HELD) };
}

// A copy of the items.
fn copy_of<T: Copy + Default>(items: &ArrayVec<T, MOST_HELD>) -> ArrayVec<T, MOST_HELD>
    ensures { result.items ≡ items.now.items }
{
    let mut copy = ArrayVec::new();
    let _fit = copy.try_extend_from_slice(items.as_slice());
    copy
}

impl HeldLocks {
    /// No lock.
    pub fn new() -> Self
        ensures { result ≡ [] }
    {
        HeldLocks {
            holds: ArrayVec::new(),
            any: ArrayVec::new(),
            writing: ArrayVec::new(),
        }
    }

    /// A copy of the locks.
    pub fn copy(&self) -> Self
        ensures { result ≡ self.now }
    {
        HeldLocks {
            holds: copy_of(&self.holds),
            any: copy_of(&self.any),
            writing: copy_of(&self.writing),
        }
    }

    pub fn as_slice(&self) -> &[HeldLock]
        ensures value { result.now ≡ self.now }
        ensures rising { IsByRisingLock self.now }
        ensures most { length self.now ≤ MOST_HELD }
    {
        self.holds.as_slice()
    }

    /// The locks that count for an access (Eraser): all for a read, those held in write mode for a write.
    #[inline]
    pub fn counted(&self, write: bool) -> &[u16]
        ensures value { result.now ≡ counted write self.now }
        ensures rising { IsStrictlyIncreasing result.now }
    {
        if write {
            self.writing.as_slice()
        } else {
            self.any.as_slice()
        }
    }

    pub fn has(&self, lock: u16) -> bool
        ensures { result ≡ has_lock self.now lock }
    {
        self.holds.as_slice().iter().any(|h| h.lock == lock)
    }

    pub fn has_for_writing(&self, lock: u16) -> bool
        ensures { result ≡ has_lock_for_writing self.now lock }
    {
        self.holds
            .as_slice()
            .iter()
            .any(|h| h.lock == lock && h.write)
    }

    /// Adds a lock that is not held yet.
    pub fn add(&mut self, held: HeldLock)
        requires room { length self.old < MOST_HELD }
        requires absent { has_lock self.old held.lock ≡ false }
        ensures { self.new ≡ with_hold held self.old }
    {
        let place = place_of(self.holds.as_slice(), held.lock);
        put_at(&mut self.holds, place, held);
        put_at(&mut self.any, place, held.lock);
        count_writer(&mut self.writing, held);
    }

    /// Gives up a lock. Does nothing where it is not held.
    pub fn remove(&mut self, lock: u16)
        ensures { self.new ≡ without_lock lock self.old }
    {
        if let Some(place) = index_of(self.holds.as_slice(), lock) {
            take_out(&mut self.holds, place);
            take_out(&mut self.any, place);
            leave_out(&mut self.writing, lock);
        }
    }
}

/// Puts an item at a place. What stands there and behind it moves on by one.
fn put_at<T: Copy>(items: &mut ArrayVec<T, MOST_HELD>, place: usize, item: T)
    requires place { place ≤ length items.old.items }
    requires room { length items.old.items < MOST_HELD }
    ensures items { items.new.items ≡ insert items.old.items place item }
    ensures len { length items.new.items ≡ length items.old.items + 1 }
{
    let last = move_on(items.as_mut_slice(), place, item);
    items.push(last);
}

/// Puts an item at a place of a slice, whose length is fixed. Answers the last item, for which there is no room.
fn move_on<T: Copy>(items: &mut [T], place: usize, item: T) -> T
    requires { place ≤ length items.old }
    ensures { items.new ++ result ∷ [] ≡ insert items.old place item }
{
    let mut carried = item;
    for i in place..items.len() {
        let next = items[i];
        items[i] = carried;
        carried = next;
    }
    carried
}

/// Takes the item of a place out. What stands behind it moves back by one.
fn take_out<T: Copy + Default + Drop>(items: &mut ArrayVec<T, MOST_HELD>, place: usize)
    requires { place < length items.old.items }
    ensures items { items.new.items ≡ remove items.old.items place }
    ensures len { length items.new.items + 1 ≡ length items.old.items }
{
    move_back(items.as_mut_slice(), place);
    let _last = items.pop();
}

/// Moves the items behind a place of a slice back by one, over the item there. The last item stays where it was.
fn move_back<T: Copy>(items: &mut [T], place: usize)
    requires { place < length items.old }
    ensures len { length items.new ≡ length items.old }
    ensures items { take (length items.old - 1) items.new ≡ remove items.old place }
{
    for i in place..items.len() - 1 {
        items[i] = items[i + 1];
    }
}

/// The place where the lock stands or belongs: the number of locks before it.
fn place_of(holds: &[HeldLock], lock: u16) -> usize
    ensures place { result ≡ position_or_len (λ h. nat_le lock h.lock) holds.now }
    ensures within { result ≤ length holds.now }
{
    for (i, h) in holds.iter().enumerate() {
        if lock <= h.lock {
            return i;
        }
    }
    holds.len()
}

/// Where the lock stands.
fn index_of(holds: &[HeldLock], lock: u16) -> Option<usize>
    requires { IsByRisingLock holds.now }
    ensures { MatchOption result (without_lock lock holds.now ≡ holds.now)
        (λ i. (i < length holds.now) × (remove holds.now i ≡ without_lock lock holds.now)) }
{
    let place = place_of(holds, lock);
    if place < holds.len() && holds[place].lock == lock {
        Some(place)
    } else {
        None
    }
}

/// The place where the number stands or belongs: how many numbers are before it.
fn place_among(numbers: &[u16], number: u16) -> usize
    ensures place { result ≡ position_or_len (λ n. nat_le number n) numbers.now }
    ensures within { result ≤ length numbers.now }
{
    for (i, n) in numbers.iter().enumerate() {
        if number <= *n {
            return i;
        }
    }
    numbers.len()
}

/// Adds a lock that is not held yet to the numbers of the write-mode locks, if it is one.
fn count_writer(writing: &mut ArrayVec<u16, MOST_HELD>, held: HeldLock)
    requires { length writing.old.items < MOST_HELD }
    ensures { writing.new.items ≡ (if held.write then with_number held.lock writing.old.items else writing.old.items) }
{
    if held.write {
        let place = place_among(writing.as_slice(), held.lock);
        put_at(writing, place, held.lock);
    }
}

/// Takes a number out. Does nothing where it is absent.
fn leave_out(numbers: &mut ArrayVec<u16, MOST_HELD>, number: u16)
    requires { IsStrictlyIncreasing numbers.old.items }
    ensures { numbers.new.items ≡ without_number number numbers.old.items }
{
    if let Some(place) = index_among(numbers.as_slice(), number) {
        take_out(numbers, place);
    }
}

/// Where the number stands.
fn index_among(numbers: &[u16], number: u16) -> Option<usize>
    requires { IsStrictlyIncreasing numbers.now }
    ensures { MatchOption result (without_number number numbers.now ≡ numbers.now)
        (λ i. (i < length numbers.now) × (remove numbers.now i ≡ without_number number numbers.now)) }
{
    let place = place_among(numbers, number);
    if place < numbers.len() && numbers[place] == number {
        Some(place)
    } else {
        None
    }
}
