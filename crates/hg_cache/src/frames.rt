//! Pages in frames, in the order of their use.
ghost use Rattle.std.specs.Prelude.{◌≡◌, ◌⊎◌, ◌+◌, ◌<◌, ◌≤◌, ◌==◌, ◌^◌, ℕ, nat_eq, List, [], ◌∷◌, length, option_map, option_copied, slice_get, Some, None, true, false, is_some, OnOk, OnErr, IfOk, IfSome, if◌then◌else◌, vec_capacity};
ghost use Rattle.std.specs.List.{AllByRecursion};
ghost use Rattle.std.specs.Map.{remove_entry, keys_of};
ghost use Rattle.std.specs.NonZero.{non_zero_usize_get};
ghost use Rattle.lru.specs.LruCache.{LruCache as Entries, IsValid, last_entry, promoted};
ghost use Rattle.hg_cache.specs.declared.frame.Frame.{Frame as FrameOf};
ghost use Rattle.hg_cache.specs.Frames.{CleansFrame, FillsFrame, HasCell, IsFirst, TakesPlace, frame_at, frame_in, page_behind, with_cell, with_clean};

use crate::frame::{Frame, Placed};
use crate::recency::Recency;
use hg_cells::Cell;
use std::alloc::{AllocError, Global};
use std::marker::Model;
use std::num::NonZeroUsize;

/// Pages in frames, in the order of their use.
///
/// Each page has a place, and the order of use knows the places. So the page used last is read and changed without a
/// search. Contracts see the pages with their frames, the page used last first.
pub struct Frames {
    order: Recency,
    placed: Vec<Placed>,
    // The places that pages left.
    left: Vec<u32>,
}

impl Drop for Frames {
    fn drop(self) {
        let Frames {
            order,
            placed,
            left,
        } = self;
        drop(order);
        drop(placed);
        drop(left);
    }
}

impl Model for Frames {
    ghost use Rattle.std.specs.Prelude.{ℕ};
    ghost use Rattle.lru.specs.LruCache.{LruCache as Entries, lru_cache};
    ghost use Rattle.hg_cache.specs.declared.frame.Frame.{Frame as FrameOf};
    ghost use Rattle.std.specs.Vec.{vec_capacity};
    ghost use Rattle.hg_cache.specs.Frames.{AreSharedOut, HasRoom, framed};

    ghost Value = { Entries ℕ FrameOf };

    ghost view = { λ f. lru_cache (framed f.placed.items f.order.entries) f.order.cap };

    ghost invariant = { λ f. AreSharedOut f.placed.items f.left.items f.order.entries f.order.cap
        × HasRoom f.order.cap (vec_capacity f.placed) (vec_capacity f.left) };
}

// Puts a page into the place that was left last, or into a new one if none was left. There is room for it.
fn take_place(placed: &mut Vec<Placed>, left: &mut Vec<u32>, taken: Placed) -> u32
    requires left { AllByRecursion (λ place. place < length placed.old.items) left.old.items }
    requires room { left.old.items ≡ [] → length placed.old.items < vec_capacity placed.old }
    requires small { length placed.old.items < 2 ^ 32 }
    ensures place { TakesPlace taken result placed.old.items left.old.items placed.new.items left.new.items }
    ensures placed_room { vec_capacity placed.new ≡ vec_capacity placed.old }
    ensures left_room { vec_capacity left.new ≡ vec_capacity left.old }
{
    match left.pop() {
        Some(place) => {
            placed[place as usize] = taken;
            place
        }
        None => {
            let place = placed.len() as u32;
            placed.push_reserved(taken);
            place
        }
    }
}

// The frame in a place.
#[inline]
fn frame_of(placed: &Vec<Placed>, place: u32) -> &Frame
    requires { place < length placed.now.items }
    ensures { result.now ≡ frame_at placed.now.items place }
{
    &placed[place as usize].frame
}

// Gives words of the page in a place a cell.
#[inline]
fn fill_at(placed: &mut Vec<Placed>, place: u32, from: usize, to: usize, cell: Cell)
    requires place { place < length placed.old.items }
    requires in_order { from ≤ to }
    requires in_page { to ≤ 256 }
    ensures placed { placed.new.items ≡ with_cell placed.old.items place from to cell }
    ensures words { length (frame_at placed.old.items place).cells ≡ 256 }
    ensures room { vec_capacity placed.new ≡ vec_capacity placed.old }
{
    let frame = &mut placed[place as usize].frame;
    frame.cells.fill(from, to, cell);
    frame.is_dirty = true;
}

// Marks the page in a place as clean.
fn clean_at(placed: &mut Vec<Placed>, place: u32)
    requires place { place < length placed.old.items }
    ensures placed { placed.new.items ≡ with_clean placed.old.items place }
    ensures room { vec_capacity placed.new ≡ vec_capacity placed.old }
{
    placed[place as usize].frame.is_dirty = false;
}

impl Frames {
    ghost use Rattle.lru.specs.LruCache.{lru_cache};
    /// No pages, and room for `most` pages, which are fewer than 2^32. All memory for frames is taken here. `Err` is want of
    /// memory, or too great a `most`.
    pub fn new(alloc: Global, most: NonZeroUsize) -> Result<Self, AllocError>
        ensures entries { IfOk result (λ f. f.entries ≡ []) }
        ensures cap { IfOk result (λ f. f.cap ≡ non_zero_usize_get most) }
    {
        let Ok(places) = u32::try_from(most.get()) else {
            return Err(AllocError);
        };
        Ok(Frames {
            order: Recency::new(alloc, places)?,
            placed: Vec::with_capacity(alloc, most.get())?,
            left: Vec::with_capacity(alloc, most.get())?,
        })
    }

    /// How many pages there are.
    #[inline]
    pub fn len(&self) -> usize
        ensures len { result ≡ length self.now.entries }
        ensures valid { IsValid nat_eq self.now }
    {
        self.order.len() as usize
    }

    /// The greatest number of pages.
    pub fn most(&self) -> usize
        ensures { result ≡ self.now.cap }
    {
        self.order.most() as usize
    }

    /// The frame of a page, or `None` if the page is not there. The order of use stays.
    #[inline]
    pub fn get(&self, page: u64) -> Option<&Frame>
        ensures { option_copied result ≡ frame_in self.now.entries page }
    {
        match self.order.place(page) {
            Some(place) => Some(frame_of(&self.placed, place)),
            None => None,
        }
    }

    /// The frame of a page, if the page is the one used last, else `None`.
    #[inline]
    pub fn first(&self, page: u64) -> Option<&Frame>
        ensures frame { IfSome result (λ f. frame_in self.now.entries page ≡ Some f.now) }
        ensures first { IfSome result (λ f. IsFirst self.now.entries page) }
        ensures answers { IsFirst self.now.entries page → is_some result ≡ true }
    {
        match self.order.newest() {
            Some((first, place)) => {
                if first == page {
                    Some(frame_of(&self.placed, place))
                } else {
                    None
                }
            }
            None => None,
        }
    }

    /// The page used least recently, or none if there is no page.
    pub fn oldest(&self) -> Option<u64>
        ensures { result ≡ option_map (λ e. e.0) (last_entry self.now.entries) }
    {
        match self.order.oldest() {
            Some((page, _)) => Some(page),
            None => None,
        }
    }

    /// Makes a page the one used last, and answers whether it is there.
    #[inline(always)]
    pub fn promote(&mut self, page: u64) -> bool
        ensures value { result ≡ is_some (frame_in self.old.entries page) }
        ensures entries { self.new ≡ lru_cache (promoted (nat_eq page) self.old.entries) self.old.cap }
    {
        self.order.promote(page).is_some()
    }

    /// Makes a page the one used last, and answers the one cell of all its words from `from` up to `to`, if they have one.
    /// `None` if the page is not there.
    #[inline(always)]
    pub fn ask(&mut self, page: u64, from: usize, to: usize) -> Option<Option<Cell>>
        requires in_order { from < to }
        requires in_page { to ≤ 256 }
        ensures there { is_some result ≡ is_some (frame_in self.old.entries page) }
        ensures entries { self.new ≡ lru_cache (promoted (nat_eq page) self.old.entries) self.old.cap }
        ensures cells { IfSome result (λ answer. IfSome answer (λ cell. HasCell self.old.entries page from to cell)) }
    {
        let place = self.order.promote(page)?;
        Some(frame_of(&self.placed, place).cells.same(from, to))
    }

    /// The page used last, or none if there is no page.
    pub fn newest(&self) -> Option<u64>
        ensures { result ≡ option_map (λ e. e.0) (slice_get self.now.entries 0) }
    {
        match self.order.newest() {
            Some((last, _)) => Some(last),
            None => None,
        }
    }

    /// The page used just before this one. `None` if this is the page used least recently, or is not there.
    pub fn older(&self, page: u64) -> Option<u64>
        ensures { result ≡ page_behind page self.now.entries }
    {
        match self.order.place(page) {
            Some(place) => match self.order.older(place) {
                Some((older, _)) => Some(older),
                None => None,
            },
            None => None,
        }
    }

    /// Takes a page out, if it is there. It takes no memory.
    pub fn remove(&mut self, page: u64)
        ensures entries { self.new ≡ lru_cache (remove_entry (nat_eq page) self.old.entries) self.old.cap }
    {
        let _count = self.order.len();
        if let Some(free) = self.order.remove(page) {
            self.left.push_reserved(free);
        }
    }

    /// Adds a page, as the one used last. The frame takes no memory: `Err` is want of memory for the look-up of the page.
    pub fn put(&mut self, page: u64, frame: Frame) -> Result<(), AllocError>
        requires absent { frame_in self.old.entries page ≡ None }
        requires room { length self.old.entries < self.old.cap }
        ensures entries { OnOk result (self.new ≡ lru_cache ((page, frame) ∷ self.old.entries) self.old.cap) }
        ensures refused { OnErr result (self.new ≡ self.old) }
    {
        let _most = self.order.most();
        let place = take_place(&mut self.placed, &mut self.left, Placed { page, frame });
        match self.order.insert(page, place) {
            Ok(()) => Ok(()),
            Err(_) => {
                self.left.push_reserved(place);
                Err(AllocError)
            }
        }
    }

    /// Marks a page as clean: it counts as not changed. The order of use stays.
    pub fn mark_clean(&mut self, page: u64)
        requires { is_some (frame_in self.old.entries page) ≡ true }
        ensures frames { CleansFrame page self.old.entries self.new.entries }
        ensures order { keys_of self.new.entries ≡ keys_of self.old.entries }
        ensures cap { self.new.cap ≡ self.old.cap }
    {
        if let Some(place) = self.order.place(page) {
            clean_at(&mut self.placed, place);
        }
    }

    /// Gives the words of a page from `from` up to `to` a cell, and makes the page the one used last. It counts as changed
    /// from then on.
    #[inline(always)]
    pub fn update(&mut self, page: u64, from: usize, to: usize, cell: Cell)
        requires page { is_some (frame_in self.old.entries page) ≡ true }
        requires in_order { from ≤ to }
        requires in_page { to ≤ 256 }
        ensures frames { FillsFrame page from to cell self.old.entries self.new.entries }
        ensures words { (f : FrameOf) → frame_in self.old.entries page ≡ Some f → length f.cells ≡ 256 }
        ensures order { keys_of self.new.entries ≡ keys_of (promoted (nat_eq page) self.old.entries) }
        ensures cap { self.new.cap ≡ self.old.cap }
    {
        let _count = self.order.len();
        if let Some(place) = self.order.promote(page) {
            fill_at(&mut self.placed, place, from, to, cell);
        }
    }
}
