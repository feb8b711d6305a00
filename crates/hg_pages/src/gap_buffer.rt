//! A list of entries in one memory, with unused places in it: a gap. An insertion or a removal first moves the gap to its
//! place, so a series of them by rising places moves each entry once.
ghost use Rattle.std.specs.Prelude.{◌≡◌, ◌<◌, ◌≤◌, ◌+◌, ◌++◌, length, replicate, slice_index_or, slice_set, vec_capacity, is_ok, IsOk, IfOk, OnOk, OnErr, if◌then◌else◌};
ghost use Rattle.std.specs.List.{insert, remove};
ghost use Rattle.hg_pages.specs.Gaps.{without_gap};

use std::alloc::{AllocError, Global};
use std::marker::Model;

/// A list of entries. Contracts see its `items`, and the number of entries that its memory is for (`capacity`).
pub(crate) struct GapBuffer {
    places: Vec<(u64, u32)>,
    // Where the gap begins, and how many places it has.
    from: usize,
    width: usize,
}

impl Drop for GapBuffer {
    fn drop(self) {
        let GapBuffer {
            places,
            from: _,
            width: _,
        } = self;
        drop(places);
    }
}

impl Model for GapBuffer {
    ghost use Rattle.std.specs.Vec.{vec_capacity};
    ghost use Rattle.std.specs.Prelude.{◌+◌, ◌≤◌, length};
    ghost use Rattle.hg_pages.specs.Gaps.{ShownBuffer, without_gap};

    ghost Value = { ShownBuffer };

    ghost view = { λ b. record { items = without_gap b.from b.width b.places.items; capacity = vec_capacity b.places } };

    ghost invariant = { λ b. b.from + b.width ≤ length b.places.items };
}

impl GapBuffer {
    /// The entries of this vector.
    pub(crate) fn from_vec(places: Vec<(u64, u32)>) -> Self
        ensures items { result.items ≡ places.items }
    {
        GapBuffer {
            places,
            from: 0,
            width: 0,
        }
    }

    /// The entries without the gap. It takes no memory.
    pub(crate) fn into_vec(self) -> Vec<(u64, u32)>
        ensures { result.items ≡ self.items }
    {
        let GapBuffer {
            mut places,
            from,
            width,
        } = self;
        let len = places.len() - width;
        move_gap(&mut places, from, width, len);
        places.truncate(len);
        places
    }

    /// How many entries there are.
    pub(crate) fn len(&self) -> usize
        ensures { result ≡ length self.now.items }
    {
        self.places.len() - self.width
    }

    /// The entry at this index.
    pub(crate) fn at(&self, index: usize) -> (u64, u32)
        requires { index < length self.now.items }
        ensures { result ≡ slice_index_or self.now.items index result }
    {
        if index < self.from {
            self.places[index]
        } else {
            self.places[index + self.width]
        }
    }

    /// Replaces the entry at this index.
    pub(crate) fn set(&mut self, index: usize, entry: (u64, u32))
        requires { index < length self.old.items }
        ensures items { self.new.items ≡ slice_set self.old.items index entry }
        ensures capacity { self.new.capacity ≡ self.old.capacity }
    {
        if index < self.from {
            self.places[index] = entry;
        } else {
            self.places[index + self.width] = entry;
        }
    }

    /// Makes room for `more` more entries. An `Err` leaves the entries as they are.
    pub(crate) fn reserve(&mut self, more: usize) -> Result<(), AllocError>
        ensures items { self.new.items ≡ self.old.items }
        ensures ok { OnOk result (length self.old.items + more ≤ self.new.capacity) }
        ensures capacity { self.old.capacity ≤ self.new.capacity }
    {
        self.places.reserve(more.saturating_sub(self.width))
    }

    /// Puts an entry at this index, before the one that is there. It takes no memory if there is room.
    pub(crate) fn insert(&mut self, index: usize, entry: (u64, u32)) -> Result<(), AllocError>
        requires { index ≤ length self.old.items }
        ensures items { self.new.items ≡ (if is_ok result then insert self.old.items index entry else self.old.items) }
        ensures succeeds { length self.old.items < self.old.capacity → IsOk result }
        ensures capacity { self.old.capacity ≤ self.new.capacity }
    {
        if self.width == 0 {
            let len = self.places.len();
            let width = widen(&mut self.places)?;
            self.from = len;
            self.width = width;
        }
        move_gap(&mut self.places, self.from, self.width, index);
        self.places[index] = entry;
        self.from = index + 1;
        self.width -= 1;
        Ok(())
    }

    /// Takes out the entry at this index. It takes no memory.
    pub(crate) fn remove(&mut self, index: usize) -> (u64, u32)
        requires { index < length self.old.items }
        ensures value { result ≡ slice_index_or self.old.items index result }
        ensures items { self.new.items ≡ remove self.old.items index }
        ensures capacity { self.new.capacity ≡ self.old.capacity }
    {
        move_gap(&mut self.places, self.from, self.width, index);
        let entry = self.places[index + self.width];
        self.from = index;
        self.width += 1;
        entry
    }

    /// The same entries, without a gap. The only error is want of memory.
    pub(crate) fn copy(&self, alloc: Global) -> Result<GapBuffer, AllocError>
        ensures { IfOk result (λ copy. copy.items ≡ self.now.items) }
    {
        let mut places = Vec::with_capacity(alloc, self.len())?;
        places.extend_from_slice(&self.places[..self.from])?;
        places.extend_from_slice(&self.places[self.from + self.width..])?;
        Ok(GapBuffer::from_vec(places))
    }
}

// Adds unused places behind the others, at least one, and answers how many. It takes no memory if there is room for one.
fn widen(places: &mut Vec<(u64, u32)>) -> Result<usize, AllocError>
    ensures some { IfOk result (λ width. 0 < width) }
    ensures ok { IfOk result (λ width. places.new.items ≡ places.old.items ++ replicate width (0, 0)) }
    ensures err { OnErr result (places.new.items ≡ places.old.items) }
    ensures succeeds { length places.old.items < vec_capacity places.old → IsOk result }
    ensures capacity { vec_capacity places.old ≤ vec_capacity places.new }
{
    let len = places.len();
    places.reserve(1)?;
    // A part of the room, so that memory is used as the list grows, and a part that grows with the list.
    let room = places.capacity() - len;
    let some = len / 8 + 1;
    let width = if some < room { some } else { room };
    places.resize(len + width, (0, 0))?;
    Ok(width)
}

// Moves a gap of `width` places from `from` to `place`. The entries between go to its other side, one by one.
fn move_gap(places: &mut [(u64, u32)], from: usize, width: usize, place: usize)
    requires from { from + width ≤ length places.old }
    requires place { place + width ≤ length places.old }
    ensures same { without_gap place width places.new ≡ without_gap from width places.old }
    ensures length { length places.new ≡ length places.old }
{
    if place < from {
        move_down(places, from, width, place);
    } else {
        move_up(places, from, width, place);
    }
}

// Moves a gap to a place that is not behind it.
fn move_down(places: &mut [(u64, u32)], from: usize, width: usize, place: usize)
    requires from { from + width ≤ length places.old }
    requires place { place ≤ from }
    ensures same { without_gap place width places.new ≡ without_gap from width places.old }
    ensures length { length places.new ≡ length places.old }
{
    let mut at = from;
    while at > place {
        at -= 1;
        places[at + width] = places[at];
    }
}

// Moves a gap to a place that is not before it.
fn move_up(places: &mut [(u64, u32)], from: usize, width: usize, place: usize)
    requires from { from ≤ place }
    requires place { place + width ≤ length places.old }
    ensures same { without_gap place width places.new ≡ without_gap from width places.old }
    ensures length { length places.new ≡ length places.old }
{
    let mut at = from;
    while at < place {
        places[at] = places[at + width];
        at += 1;
    }
}
