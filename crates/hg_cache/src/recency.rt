//! Keys in the order of their use.
ghost use Rattle.std.specs.Prelude.{◌≡◌, ◌<◌, nat_eq, true, [], ◌∷◌, length, slice_get, None, OnOk, OnErr, IfOk};
ghost use Rattle.std.specs.Map.{lookup, remove_entry};
ghost use Rattle.lru.specs.LruCache.{IsValid, last_entry, lru_cache, promoted};
ghost use Rattle.hg_cache.specs.Entries.{IsFree, behind, has_place};

use crate::node::{Node, clear_key, key, link, newer, older, set_key, unlink};
use std::alloc::{AllocError, Global};
use std::collections::HashMap;
use std::marker::Model;

/// How many hints there are.
const HINTS: usize = 16_384;

/// Keys in the order of their use. Each key has a place of its own, a small number.
///
/// A key is found by a hint: `hints` has a place for the last bits of each key. A wrong hint only costs a look-up in a map.
/// Contracts see each key with its place, the last used first.
#[derive(Drop)]
pub struct Recency {
    places: HashMap<u64, u32>,
    hints: Vec<u32>,
    // One node for each place, and one that closes the ring.
    nodes: Vec<Node>,
    count: u32,
    end: u32,
}

impl Model for Recency {
    ghost use Rattle.std.specs.Prelude.{ℕ};
    ghost use Rattle.lru.specs.LruCache.{LruCache as Entries, lru_cache};
    ghost use Rattle.hg_cache.specs.Rings.{followed, named};
    ghost use Rattle.hg_cache.specs.Sound.{IsSound};

    ghost Value = { Entries ℕ ℕ };

    ghost view = { λ r. lru_cache (named r.nodes.items (followed r.nodes.items r.end r.count)) r.end };

    ghost invariant = { λ r. IsSound r.nodes.items r.end (followed r.nodes.items r.end r.count) r.places.entries };
}

/// Where the hint of a key is.
#[inline]
fn slot(key: u64) -> usize {
    key as usize % HINTS
}

/// Where the key may be.
#[inline]
fn hint(hints: &Vec<u32>, key: u64) -> u32 {
    match hints.get(slot(key)) {
        Some(place) => *place,
        None => 0,
    }
}

/// Notes where a key is.
fn note(hints: &mut Vec<u32>, key: u64, place: u32) {
    if let Some(hint) = hints.get_mut(slot(key)) {
        *hint = place;
    }
}

impl Recency {
    /// No keys, with room for `most` keys. The places are the numbers below `most`.
    pub fn new(alloc: Global, most: u32) -> Result<Self, AllocError>
        requires some { 0 < most }
        ensures { IfOk result (λ r. r ≡ lru_cache [] most) }
    {
        let blank = Node {
            key: 0,
            newer: most,
            older: most,
            is_used: false,
        };
        Ok(Recency {
            places: HashMap::with_capacity(alloc, most as usize)?,
            hints: vec![in alloc; 0; HINTS]?,
            nodes: vec![in alloc; blank; most as usize + 1]?,
            count: 0,
            end: most,
        })
    }

    /// How many keys there are.
    pub fn len(&self) -> u32
        ensures len { result ≡ length self.now.entries }
        ensures valid { IsValid nat_eq self.now }
    {
        self.count
    }

    /// The greatest number of keys.
    pub fn most(&self) -> u32
        ensures { result ≡ self.now.cap }
    {
        self.end
    }

    /// The place of a key. The order of use stays.
    #[inline]
    pub fn place(&self, key: u64) -> Option<u32>
        ensures { result ≡ lookup (nat_eq key) self.now.entries }
    {
        let place = hint(&self.hints, key);
        if let Some(node) = self.nodes.get(place as usize) {
            if node.is_used && node.key == key {
                return Some(place);
            }
        }
        match self.places.get(&key) {
            Some(place) => Some(*place),
            None => None,
        }
    }

    /// The key used last, and its place.
    #[inline]
    pub fn newest(&self) -> Option<(u64, u32)>
        ensures { result ≡ slice_get self.now.entries 0 }
    {
        if self.count == 0 {
            return None;
        }
        let place = older(&self.nodes, self.end);
        Some((key(&self.nodes, place), place))
    }

    /// The key used least recently, and its place.
    pub fn oldest(&self) -> Option<(u64, u32)>
        ensures { result ≡ last_entry self.now.entries }
    {
        if self.count == 0 {
            return None;
        }
        let place = newer(&self.nodes, self.end);
        Some((key(&self.nodes, place), place))
    }

    /// The key used just before the key in this place, and its place.
    pub fn older(&self, place: u32) -> Option<(u64, u32)>
        requires { has_place place self.now.entries ≡ true }
        ensures { result ≡ behind place self.now.entries }
    {
        let place = older(&self.nodes, place);
        if place == self.end {
            return None;
        }
        Some((key(&self.nodes, place), place))
    }

    // Makes a key the one used last, wherever it stands.
    fn bring_first(&mut self, key: u64) -> Option<u32>
        ensures place { result ≡ lookup (nat_eq key) self.old.entries }
        ensures entries { self.new ≡ lru_cache (promoted (nat_eq key) self.old.entries) self.old.cap }
    {
        let place = self.place(key)?;
        unlink(&mut self.nodes, place);
        link(&mut self.nodes, self.end, place);
        Some(place)
    }

    /// Makes a key the one used last, and answers its place, or none. The key used last is tried first.
    #[inline(always)]
    pub fn promote(&mut self, key: u64) -> Option<u32>
        ensures place { result ≡ lookup (nat_eq key) self.old.entries }
        ensures entries { self.new ≡ lru_cache (promoted (nat_eq key) self.old.entries) self.old.cap }
    {
        if let Some((first, place)) = self.newest() {
            if first == key {
                return Some(place);
            }
        }
        self.bring_first(key)
    }

    /// Takes a key out, and answers the place that it had.
    pub fn remove(&mut self, key: u64) -> Option<u32>
        ensures place { result ≡ lookup (nat_eq key) self.old.entries }
        ensures entries { self.new ≡ lru_cache (remove_entry (nat_eq key) self.old.entries) self.old.cap }
    {
        let place = self.places.remove(&key)?;
        unlink(&mut self.nodes, place);
        clear_key(&mut self.nodes, place);
        self.count -= 1;
        Some(place)
    }

    /// Puts a new key into a free place, as the one used last.
    pub fn insert(&mut self, key: u64, place: u32) -> Result<(), AllocError>
        requires absent { lookup (nat_eq key) self.old.entries ≡ None }
        requires room { length self.old.entries < self.old.cap }
        requires within { place < self.old.cap }
        requires free { IsFree place self.old.entries }
        ensures entries { OnOk result (self.new ≡ lru_cache ((key, place) ∷ self.old.entries) self.old.cap) }
        ensures refused { OnErr result (self.new ≡ self.old) }
    {
        self.places.insert(key, place)?;
        set_key(&mut self.nodes, place, key);
        link(&mut self.nodes, self.end, place);
        self.count += 1;
        note(&mut self.hints, key, place);
        Ok(())
    }
}
