//! The event at which the parts of a trace have more sets together than one table has room for.

ghost use Rattle.std.specs.Prelude.{◌≡◌, ℕ, ◌<◌, ◌≤◌, ◌^◌, All, List, None, Ok, length, nat_le, IfOk};
ghost use Rattle.hg_sets.specs.Interning.{set_at};
ghost use Rattle.hg_shards.specs.Sharding.{IsLogOf};
ghost use Rattle.hg_shards.specs.Together.{HasTaken, parts_taken};
ghost use Rattle.hg_shards.specs.Filling.{IsFirstFull, IsNextMade, PutsSet, earlier_of, logged};

use crate::shard::Shard;
use hg_sets::{MOST_SETS, SetFault, SetTable};
use std::alloc::{AllocError, Global};

/// A set of a part's table that comes next, by the events that made the sets.
#[derive(Clone, Copy, Debug, PartialEq, Eq, Drop)]
struct Next {
    part: usize,
    /// Its number in the part's table.
    set: usize,
    /// The event that made it.
    event: u64,
}

/// Whether the tables of all parts have no more than `limit` sets together.
fn fit_together(limit: u32, parts: &[Shard]) -> bool
    ensures { result ≡ nat_le (logged parts.now) limit }
{
    let mut left = limit as usize;
    for part in parts {
        let sets = part.log().len();
        if sets > left {
            return false;
        }
        left -= sets;
    }
    true
}

/// The one of two that was made first, or the first of them where both were made at one event. Each may not be there.
fn earlier(best: Option<Next>, part: usize, set: usize, made: Option<u64>) -> Option<Next>
    ensures { result ≡ earlier_of best part set made }
{
    let Some(event) = made else {
        return best;
    };
    let next = Next { part, set, event };
    match best {
        None => Some(next),
        Some(other) => {
            if event < other.event {
                return Some(next);
            }
            Some(other)
        }
    }
}

/// The set that was made first among those that were not taken yet, where so many of each part were.
fn next_made(parts: &[Shard], taken: &[usize]) -> Option<Next>
    requires { length taken.now ≡ length parts.now }
    ensures { IsNextMade parts.now taken.now result }
{
    let mut best = None;
    for (k, part) in parts.iter().enumerate() {
        best = earlier(best, k, taken[k], part.log().get(taken[k]));
    }
    best
}

/// Puts a set of a part's table into another one: false where that one is full.
fn put(table: &mut SetTable, part: &Shard, set: usize) -> Result<bool, AllocError>
    requires { set < length part.now.detector.sets.sets }
    ensures puts { IfOk result (λ put. PutsSet table.old (set_at part.now.detector.sets.sets set) put table.new) }
    ensures number { set < 2 ^ 32 }
{
    let sets = part.detector().sets();
    let count = sets.len() as usize;
    prove!(set < count);
    match table.intern(sets.members(set as u32)) {
        Ok(_) => Ok(true),
        Err(SetFault::Full) => Ok(false),
        Err(SetFault::OutOfMemory) => Err(AllocError),
    }
}

/// One table that takes the sets of all parts, those first that were made first.
#[derive(Drop)]
pub struct Taking {
    table: SetTable,
    /// How many sets of each part it took.
    taken: Vec<usize>,
}

impl Taking {
    ghost use Rattle.hg_shards.specs.Together.{IsTaking};

    /// A table that took no set of so many parts.
    fn new(alloc: Global, limit: u32, parts: usize) -> Result<Self, AllocError>
        requires least { 1 ≤ limit }
        requires greatest { limit ≤ MOST_SETS }
        ensures none { IfOk result (λ t. (shards : List Shard) → length shards ≡ parts → IsTaking limit shards t.taken.items t.table) }
        ensures counts { IfOk result (λ t. length t.taken.items ≡ parts) }
    {
        Ok(Taking {
            table: SetTable::with_limit(alloc, limit)?,
            taken: vec![in alloc; 0; parts]?,
        })
    }

    /// Takes the sets of the parts that were not taken yet, up to one for which there is no room. The answer is the event that made it.
    fn take_rest(&mut self, parts: &[Shard]) -> Result<Option<u64>, AllocError>
        requires counts { length self.old.taken.items ≡ length parts.now }
        requires logs { All (λ s. IsLogOf s.detector s.log) parts.now }
        ensures first { IfOk result (λ found. (limit : ℕ) → IsTaking limit parts.now self.old.taken.items self.old.table → IsFirstFull limit parts.now found) }
        ensures goes_on { IfOk result (λ found. (limit : ℕ) → IsTaking limit parts.now self.old.taken.items self.old.table → IsTaking limit parts.now self.new.taken.items self.new.table) }
        ensures counts { length self.new.taken.items ≡ length self.old.taken.items }
    {
        while let Some(next) = next_made(parts, &self.taken) {
            if !put(&mut self.table, &parts[next.part], next.set)? {
                return Ok(Some(next.event));
            }
            self.taken[next.part] = next.set + 1;
        }
        Ok(None)
    }
}

/// What `first_full` answers, by a table that goes on from one call to the next, while the parts get more sets. There is none before the
/// parts have more than `limit` sets together.
pub(crate) fn go_on(
    alloc: Global,
    limit: u32,
    parts: &[Shard],
    taking: &mut Option<Taking>,
) -> Result<Option<u64>, AllocError>
    requires least { 1 ≤ limit }
    requires greatest { limit ≤ MOST_SETS }
    requires logs { All (λ s. IsLogOf s.detector s.log) parts.now }
    requires counts { parts_taken (length parts.now) taking.old ≡ length parts.now }
    ensures first { IfOk result (λ found. HasTaken limit parts.now taking.old → IsFirstFull limit parts.now found) }
    ensures goes_on { IfOk result (λ found. HasTaken limit parts.now taking.old → HasTaken limit parts.now taking.new) }
    ensures few { taking.old ≡ None → logged parts.now ≤ limit → result ≡ Ok None }
    ensures counts { parts_taken (length parts.now) taking.new ≡ length parts.now }
{
    if let Some(begun) = taking {
        return begun.take_rest(parts);
    }
    if fit_together(limit, parts) {
        return Ok(None);
    }
    let mut begun = Taking::new(alloc, limit, parts.len())?;
    let found = begun.take_rest(parts)?;
    *taking = Some(begun);
    Ok(found)
}

/// The number of the event that one detector of the whole trace refuses, since its table has room for `limit` sets and is full, or
/// None where it takes all events: by the logs of the shards of all parts. Where these have no more sets together, nothing is
/// compared and no memory is taken.
pub fn first_full(alloc: Global, limit: u32, parts: &[Shard]) -> Result<Option<u64>, AllocError>
    requires least { 1 ≤ limit }
    requires greatest { limit ≤ MOST_SETS }
    requires logs { All (λ s. IsLogOf s.detector s.log) parts.now }
    ensures first { IfOk result (IsFirstFull limit parts.now) }
    ensures few { logged parts.now ≤ limit → result ≡ Ok None }
{
    go_on(alloc, limit, parts, &mut None)
}
