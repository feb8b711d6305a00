//! Distinct lists of numbers, each numbered by its place.

ghost use Rattle.std.specs.Prelude.{◌≡◌, ◌⊎◌, ◌^◌, ◌<◌, ◌≤◌, ◌+◌, ◌/◌, ◌++◌, ◌∷◌, ℕ, [], All, length, IfOk, OnOk, OnErr, vec_capacity};
ghost use Rattle.hg_sets.specs.Interning.{set_at};
ghost use Rattle.hg_sets.specs.Listing.{AreListed, HasMark, HoldNumbers, IsFoundBy, IsNumberOf, StillHold, elements_left, first_slot, hash_of, is_of_threads, list_at, lists_left, lists_of, next_slot, taken};

use hg_model::limits::GREATEST_THREAD;
use std::alloc::{AllocError, Global};
use std::marker::Model;

/// The factor that spreads a hash over its bits.
const SPREAD: u64 = 0x9E37_79B9_7F4A_7C15;

/// How many slots there are at first.
const FIRST_SLOTS: usize = 64;

/// There are fewer elements than this, so that each has its place in 32 bits.
pub(crate) const MOST_ELEMENTS: usize = 4_294_967_296;

/// The most slots that may be made four times as many.
const MOST_QUARTER: usize = 1_073_741_824;

/// Where the elements of a list stand, and whether they can be the threads of a shared word.
#[derive(Clone, Copy, Debug, PartialEq, Eq, Drop)]
pub(crate) struct Span {
    pub(crate) start: u32,
    pub(crate) len: u32,
    pub(crate) of_threads: bool,
}

/// Lists in the order in which they came, found by their elements.
///
/// The elements of all lists stand one after another. A slot holds the number of a list plus one, or 0 where it is free. Each list
/// got the first free slot, from the slot of its hash on. At least half of the slots are free, so a search is short.
#[derive(Drop)]
pub(crate) struct Lists {
    elements: Vec<u16>,
    spans: Vec<Span>,
    slots: Vec<u32>,
    alloc: Global,
}

impl Model for Lists {
    ghost use Rattle.hg_sets.specs.Listing.{Listing};
    ghost use Rattle.std.specs.Vec.{vec_capacity};

    ghost Value = { Listing };

    ghost use Rattle.hg_sets.specs.Listing.{AreListed, listing};

    ghost view = { λ s. listing (vec_capacity s.spans) (vec_capacity s.elements) s.elements.items s.spans.items s.slots.items };

    ghost invariant = { λ s. AreListed s.elements.items s.spans.items s.slots.items };
}

impl Lists {
    /// No list, with room for so many lists that have so many elements together.
    pub(crate) fn with_room(
        alloc: Global,
        lists: usize,
        elements: usize,
    ) -> Result<Self, AllocError>
        requires few { lists ≤ 2 ^ 29 }
        ensures none { IfOk result (λ s. s.all ≡ []) }
        ensures lists { IfOk result (λ s. lists ≤ s.spare_lists) }
        ensures elements { IfOk result (λ s. elements ≤ s.spare_elements) }
    {
        if elements >= MOST_ELEMENTS {
            return Err(AllocError);
        }
        Ok(Lists {
            elements: Vec::with_capacity(alloc, elements)?,
            spans: Vec::with_capacity(alloc, lists)?,
            slots: free_slots(alloc, slots_for_lists(lists))?,
            alloc,
        })
    }

    #[inline]
    pub(crate) fn len(&self) -> u32
        ensures { result ≡ length self.now.all }
    {
        self.spans.len() as u32
    }

    #[inline]
    pub(crate) fn get(&self, id: u32) -> &[u16]
        requires { id < length self.now.all }
        ensures { result.now ≡ set_at self.now.all id }
    {
        elements_of(self.elements.as_slice(), self.spans[id as usize])
    }

    /// Whether a list has two elements at least, and its last one is at most `GREATEST_THREAD`. The elements are not read.
    #[inline(always)]
    pub(crate) fn is_of_threads(&self, id: u32) -> bool
        requires { id < length self.now.all }
        ensures { result ≡ is_of_threads (set_at self.now.all id) }
    {
        self.spans[id as usize].of_threads
    }

    /// The number of this list, if it is there. `hash` is its hash.
    pub(crate) fn find(&self, hash: u64, list: &[u16]) -> Option<u32>
        requires hash { hash ≡ hash_of list.now }
        ensures { IsNumberOf self.now.all list.now result }
    {
        find_among(
            self.elements.as_slice(),
            self.spans.as_slice(),
            self.slots.as_slice(),
            hash,
            list,
        )
    }

    /// Makes room for one list more, of so many elements. The lists stay.
    pub(crate) fn reserve(&mut self, len: usize) -> Result<(), AllocError>
        ensures all { self.new.all ≡ self.old.all }
        ensures list { OnOk result (0 < self.new.spare_lists) }
        ensures elements { OnOk result (len ≤ self.new.spare_elements) }
    {
        reserve_in(
            self.alloc,
            &mut self.elements,
            &mut self.spans,
            &mut self.slots,
            len,
        )
    }

    /// Adds a list with this hash at the end, for which there is room. Takes no memory.
    pub(crate) fn push_reserved(&mut self, hash: u64, list: &[u16])
        requires hash { hash ≡ hash_of list.now }
        requires list { 0 < self.old.spare_lists }
        requires elements { length list.now ≤ self.old.spare_elements }
        ensures all { self.new.all ≡ self.old.all ++ list.now ∷ [] }
        ensures spare_lists { self.old.spare_lists ≤ self.new.spare_lists + 1 }
        ensures spare_elements { self.old.spare_elements ≤ self.new.spare_elements + length list.now }
    {
        push_in(
            &mut self.elements,
            &mut self.spans,
            &mut self.slots,
            hash,
            list,
        );
    }

    /// Adds a list with this hash at the end.
    pub(crate) fn push(&mut self, hash: u64, list: &[u16]) -> Result<(), AllocError>
        requires hash { hash ≡ hash_of list.now }
        ensures ok { OnOk result (self.new.all ≡ self.old.all ++ list.now ∷ []) }
        ensures err { OnErr result (self.new.all ≡ self.old.all) }
    {
        self.reserve(list.len())?;
        self.push_reserved(hash, list);
        Ok(())
    }
}

/// The elements of a list.
#[inline]
fn elements_of(elements: &[u16], span: Span) -> &[u16]
    requires { span.start + span.len ≤ length elements.now }
    ensures { result.now ≡ list_at elements.now span }
{
    &elements[span.start as usize..][..span.len as usize]
}

/// Whether a list has two elements at least, and its last one is at most `GREATEST_THREAD`.
#[inline]
fn is_of_threads(list: &[u16]) -> bool
    ensures { result ≡ is_of_threads list.now }
{
    if list.len() < 2 {
        return false;
    }
    list[list.len() - 1] <= GREATEST_THREAD
}

/// The hash of a list.
#[inline]
pub(crate) fn hash(list: &[u16]) -> u64
    ensures { result ≡ hash_of list.now }
{
    let mut hash: u64 = 0;
    for x in list {
        hash = hash.wrapping_add(u64::from(*x) + 1).wrapping_mul(SPREAD);
    }
    hash
}

/// The slot where a search among `count` slots begins.
#[inline]
fn first_slot(count: usize, hash: u64) -> usize
    requires few { count ≤ 2 ^ 32 }
    ensures slot { result ≡ first_slot count hash }
    ensures within { 0 < count → result < count }
{
    ((hash / 4_294_967_296) * count as u64 / 4_294_967_296) as usize
}

/// The slot that comes next.
#[inline]
fn next_slot(count: usize, at: usize) -> usize
    requires within { at < count }
    ensures slot { result ≡ next_slot count at }
    ensures within { result < count }
{
    if at + 1 < count { at + 1 } else { 0 }
}

/// The number of this list, if it is there. `hash` is its hash.
fn find_among(
    elements: &[u16],
    spans: &[Span],
    slots: &[u32],
    hash: u64,
    list: &[u16],
) -> Option<u32>
    requires listed { AreListed elements.now spans.now slots.now }
    requires hash { hash ≡ hash_of list.now }
    ensures { IsNumberOf (lists_of elements.now spans.now) list.now result }
{
    let mut at = first_slot(slots.len(), hash);
    for _ in 0..slots.len() {
        let entry = slots[at];
        if entry == 0 {
            return None;
        }
        if elements_of(elements, spans[entry as usize - 1]) == list {
            return Some(entry - 1);
        }
        at = next_slot(slots.len(), at);
    }
    None
}

/// Puts an entry into the first free slot, from the slot of its hash on.
fn put_entry(slots: &mut [u32], hash: u64, entry: u32)
    requires few { length slots.old ≤ 2 ^ 32 }
    requires free { taken slots.old < length slots.old }
    requires some { 0 < entry }
    ensures len { length slots.new ≡ length slots.old }
    ensures numbers { StillHold entry slots.old slots.new }
    ensures one_more { taken slots.new ≡ taken slots.old + 1 }
    ensures found { IsFoundBy slots.new hash entry }
    ensures kept { (h e : ℕ) → 0 < e → IsFoundBy slots.old h e → IsFoundBy slots.new h e }
{
    let mut at = first_slot(slots.len(), hash);
    for _ in 0..slots.len() {
        if slots[at] == 0 {
            slots[at] = entry;
            return;
        }
        at = next_slot(slots.len(), at);
    }
}

/// Puts an entry into the first free slot of a vector, from the slot of its hash on.
fn put_in(slots: &mut Vec<u32>, hash: u64, entry: u32)
    requires few { length slots.old.items ≤ 2 ^ 32 }
    requires free { taken slots.old.items < length slots.old.items }
    requires some { 0 < entry }
    ensures len { length slots.new.items ≡ length slots.old.items }
    ensures numbers { StillHold entry slots.old.items slots.new.items }
    ensures one_more { taken slots.new.items ≡ taken slots.old.items + 1 }
    ensures found { IsFoundBy slots.new.items hash entry }
    ensures kept { (h e : ℕ) → 0 < e → IsFoundBy slots.old.items h e → IsFoundBy slots.new.items h e }
{
    put_entry(slots.as_mut_slice(), hash, entry);
}

/// `count` free slots.
fn free_slots(alloc: Global, count: usize) -> Result<Vec<u32>, AllocError>
    ensures len { IfOk result (λ slots. length slots.items ≡ count) }
    ensures numbers { IfOk result (λ slots. HoldNumbers 0 slots.items) }
    ensures free { IfOk result (λ slots. taken slots.items ≡ 0) }
{
    let mut slots = Vec::new(alloc);
    slots.resize(count, 0)?;
    Ok(slots)
}

/// How many slots are made for so many lists: as many as there are once they were added one after another.
fn slots_for_lists(lists: usize) -> usize
    requires few { lists ≤ 2 ^ 29 }
    ensures half_free { lists ≤ result / 2 }
    ensures few { result ≤ 2 ^ 32 }
    ensures needed { (result ≡ FIRST_SLOTS) ⊎ (result / 8 < lists) }
{
    let mut count = FIRST_SLOTS;
    while count / 2 < lists {
        count *= 4;
    }
    count
}

/// `count` slots in which each list is found. At least half of them are free.
fn slots_for(
    alloc: Global,
    elements: &[u16],
    spans: &[Span],
    count: usize,
) -> Result<Vec<u32>, AllocError>
    requires few_elements { length elements.now < 2 ^ 32 }
    requires half_free { length spans.now ≤ count / 2 }
    requires within { All (λ span. span.start + span.len ≤ length elements.now) spans.now }
    requires marks { All (HasMark elements.now) spans.now }
    requires slots { count ≤ 2 ^ 32 }
    ensures len { IfOk result (λ slots. length slots.items ≡ count) }
    ensures listed { IfOk result (λ slots. AreListed elements.now spans.now slots.items) }
{
    let mut slots = free_slots(alloc, count)?;
    for i in 0..spans.len() {
        let hash = hash(elements_of(elements, spans[i]));
        put_in(&mut slots, hash, i as u32 + 1);
    }
    Ok(slots)
}

/// Makes more slots, where one list more would leave fewer than half of them free.
fn make_slots(
    alloc: Global,
    elements: &[u16],
    spans: &[Span],
    slots: &mut Vec<u32>,
) -> Result<(), AllocError>
    requires listed { AreListed elements.now spans.now slots.old.items }
    ensures listed { AreListed elements.now spans.now slots.new.items }
    ensures room { OnOk result (length spans.now < length slots.new.items / 2) }
{
    if spans.len() < slots.len() / 2 {
        return Ok(());
    }
    if slots.len() > MOST_QUARTER {
        return Err(AllocError);
    }
    let count = (slots.len() * 4).max(FIRST_SLOTS);
    *slots = slots_for(alloc, elements, spans, count)?;
    Ok(())
}

/// Makes room for one list more, of so many elements. The lists stay.
fn reserve_in(
    alloc: Global,
    elements: &mut Vec<u16>,
    spans: &mut Vec<Span>,
    slots: &mut Vec<u32>,
    len: usize,
) -> Result<(), AllocError>
    requires listed { AreListed elements.old.items spans.old.items slots.old.items }
    ensures elements { elements.new.items ≡ elements.old.items }
    ensures spans { spans.new.items ≡ spans.old.items }
    ensures listed { AreListed elements.new.items spans.new.items slots.new.items }
    ensures list_room { OnOk result (0 < lists_left (vec_capacity spans.new) spans.new.items slots.new.items) }
    ensures element_room { OnOk result (len ≤ elements_left (vec_capacity elements.new) elements.new.items) }
{
    make_slots(alloc, elements.as_slice(), spans.as_slice(), slots)?;
    if len >= MOST_ELEMENTS - elements.len() {
        return Err(AllocError);
    }
    spans.reserve(1)?;
    elements.reserve(len)
}

/// Adds a list with this hash at the end, for which there is room.
fn push_in(
    elements: &mut Vec<u16>,
    spans: &mut Vec<Span>,
    slots: &mut Vec<u32>,
    hash: u64,
    list: &[u16],
)
    requires listed { AreListed elements.old.items spans.old.items slots.old.items }
    requires hash { hash ≡ hash_of list.now }
    requires list_room { 0 < lists_left (vec_capacity spans.old) spans.old.items slots.old.items }
    requires element_room { length list.now ≤ elements_left (vec_capacity elements.old) elements.old.items }
    ensures listed { AreListed elements.new.items spans.new.items slots.new.items }
    ensures all { lists_of elements.new.items spans.new.items
        ≡ lists_of elements.old.items spans.old.items ++ list.now ∷ [] }
    ensures spare_lists { lists_left (vec_capacity spans.old) spans.old.items slots.old.items
        ≤ lists_left (vec_capacity spans.new) spans.new.items slots.new.items + 1 }
    ensures spare_elements { elements_left (vec_capacity elements.old) elements.old.items
        ≤ elements_left (vec_capacity elements.new) elements.new.items + length list.now }
{
    let span = Span {
        start: elements.len() as u32,
        len: list.len() as u32,
        of_threads: is_of_threads(list),
    };
    elements.extend_from_slice(list).unwrap();
    put_in(slots, hash, spans.len() as u32 + 1);
    spans.push_reserved(span);
}
