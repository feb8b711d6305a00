//! The shards of all parts of a trace, which judge batches of its events side by side.

ghost use Rattle.std.specs.Prelude.{◌≡◌, ◌≤◌, All, None, Ok, IfOk, IfErr, length};
ghost use denote.Param.Send.{IsSync};
ghost use Rattle.hg_shards.specs.Batches.{AllBegin, TakeBatch, TakesBatch, cause_of, earlier_stop};
ghost use Rattle.hg_shards.specs.Filling.{IsFirstFull, logged};
ghost use Rattle.hg_shards.specs.Routed.{TakeLists};
ghost use Rattle.hg_shards.specs.Readiness.{all_ready_prop};
ghost use Rattle.hg_shards.specs.Routing.{items_of};
ghost use Rattle.hg_shards.specs.Sharding.{IsReady};

use crate::full::first_full;
use crate::lists::offer_lists;
use crate::routes::{OwnAccess, Placed, Routes};
use crate::shard::Shard;
use hg_detect::detector::Answer;
use hg_model::event::Named;
use hg_model::verdict::Refusal;
use hg_sets::MOST_SETS;
use std::alloc::{AllocError, Global};
use std::marker::Sync;
use std::thread::{Threads, join_mut};

/// Why an event was not accepted.
#[derive(Clone, Copy, Debug, PartialEq, Eq)]
pub enum Cause {
    /// Its source sent it before. The field is the last accepted number of that source.
    Duplicate(u64),
    /// It was refused.
    Refused(Refusal),
}

/// The first event of a batch that was not accepted.
#[derive(Clone, Copy, Debug, PartialEq, Eq)]
pub struct Stop {
    /// Its place in the batch, counted from 0.
    pub place: usize,
    /// Why it was not accepted.
    pub cause: Cause,
}

/// Why an event with this answer was not accepted, or None where it was.
#[inline(always)]
pub(crate) fn unaccepted(answer: Result<Answer, Refusal>) -> Option<Cause>
    ensures { result ≡ cause_of answer }
{
    match answer {
        Ok(Answer::Accepted) => None,
        Ok(Answer::Duplicate(last)) => Some(Cause::Duplicate(last)),
        Err(refusal) => Some(Cause::Refused(refusal)),
    }
}

/// The stop that comes first, or the first of two at one place. Each may not be there.
fn earlier(one: Option<Stop>, other: Option<Stop>) -> Option<Stop>
    ensures { result ≡ earlier_stop one other }
{
    let Some(stop) = one else {
        return other;
    };
    match other {
        None => one,
        Some(later) => {
            if later.place < stop.place {
                return other;
            }
            Some(stop)
        }
    }
}

/// Offers events to a shard in order, up to the first that is not accepted.
fn offer_in_order(shard: &mut Shard, events: &[Named]) -> Option<Stop>
    requires { IsReady shard.old }
    ensures { TakesBatch shard.old events.now result shard.new }
{
    for place in 0..events.len() {
        let named = &events[place];
        if let Some(cause) = unaccepted(shard.offer(named)) {
            return Some(Stop { place, cause });
        }
    }
    None
}

/// Offers events to each shard. Each of them has a thread of its own, as far as threads can be started.
#[cycle(beside)]
fn offer_side_by_side<T: Threads + Sync>(
    rt: &T,
    events: &[Named],
    shards: &mut [Shard],
) -> Option<Stop>
    requires { All IsReady shards.old }
    ensures { TakeBatch shards.old events.now result shards.new }
{
    if shards.is_empty() {
        return None;
    }
    if shards.len() == 1 {
        return offer_in_order(&mut shards[0], events);
    }
    let (front, back) = shards.split_at_mut(shards.len() / 2);
    let (one, other) = join_mut(
        rt,
        &mut || -> Option<Stop>
            requires crosses { IsSync T.row }
            requires ready { All IsReady front.now }
            ensures { TakeBatch front.entry.now events.entry.now result front.exit.now }
        { offer_side_by_side(rt, events, front) },
        &mut || -> Option<Stop>
            requires crosses { IsSync T.row }
            requires ready { All IsReady back.now }
            ensures { TakeBatch back.entry.now events.entry.now result back.exit.now }
        { offer_side_by_side(rt, events, back) },
    );
    earlier(one, other)
}

/// Offers each shard what stands in the list of its part and in the common one, of so many events that a source numbers from `first` on.
/// Each of them has a thread of its own, as far as threads can be started.
#[cycle(routed)]
fn offer_lists_side_by_side<T: Threads + Sync>(
    rt: &T,
    source: u16,
    first: u64,
    lists: &[Vec<OwnAccess>],
    common: &[Placed],
    count: u32,
    shards: &mut [Shard],
) -> Option<Stop>
    requires same { length lists.now ≡ length shards.old }
    requires ready { All IsReady shards.old }
    ensures { TakeLists source first common.now count shards.old (items_of lists.now) result shards.new }
{
    if shards.is_empty() {
        return None;
    }
    if shards.len() == 1 {
        return offer_lists(&mut shards[0], source, first, &lists[0], common, count);
    }
    let half = shards.len() / 2;
    let (left, right) = lists.split_at(half);
    let (front, back) = shards.split_at_mut(half);
    let (front_stop, back_stop) = join_mut(
        rt,
        &mut || -> Option<Stop>
            requires crosses { IsSync T.row }
            requires same { length left.now ≡ length front.now }
            requires ready { All IsReady front.now }
            ensures { TakeLists source first common.entry.now count front.entry.now (items_of left.entry.now) result front.exit.now }
        { offer_lists_side_by_side(rt, source, first, left, common, count, front) },
        &mut || -> Option<Stop>
            requires crosses { IsSync T.row }
            requires same { length right.now ≡ length back.now }
            requires ready { All IsReady back.now }
            ensures { TakeLists source first common.entry.now count back.entry.now (items_of right.entry.now) result back.exit.now }
        { offer_lists_side_by_side(rt, source, first, right, common, count, back) },
    );
    earlier(front_stop, back_stop)
}

/// A shard for each part of a trace, in order.
#[derive(Drop)]
pub struct Shards {
    shards: Vec<Shard>,
    ghost ready: { All IsReady shards.items } by { all_ready_prop shards.items },
}

impl Shards {
    /// The shards of an empty trace, for `count` parts. The table of each has room for `most_sets` sets of threads and of locks: 1 to
    /// 262,144. The one refusal is `OutOfMemory`.
    pub fn new(alloc: Global, count: u64, most_sets: u32) -> Result<Self, Refusal>
        requires least { 1 ≤ most_sets }
        requires greatest { most_sets ≤ MOST_SETS }
        ensures begins { IfOk result (λ s. AllBegin count most_sets s.shards.items) }
        ensures refusal { IfErr result (λ r. r ≡ Refusal.OutOfMemory) }
    {
        let mut shards = Vec::new(alloc);
        for part in 0..count {
            shards.push(Shard::new(alloc, count, part, most_sets)?)?;
        }
        Ok(Shards { shards })
    }

    /// Offers a batch of events to all shards side by side, to each of them in order up to the first that it does not accept. The
    /// answer is the first of these, or None where all events were accepted. Where no thread can be started, the caller's does the work.
    pub fn offer_all<T: Threads + Sync>(&mut self, rt: &T, events: &[Named]) -> Option<Stop>
        ensures { TakeBatch self.old.shards.items events.now result self.new.shards.items }
    {
        offer_side_by_side(rt, events, &mut self.shards)
    }

    /// Offers a batch of events in lists to all shards side by side: to each what stands in the list of its part and in the common one, in
    /// order up to the first event that it does not accept. The source numbers the events from `first` on. The answer is the first of
    /// these, or None where all were accepted. Where no thread can be started, the caller's does the work.
    pub fn offer_routes<T: Threads + Sync>(
        &mut self,
        rt: &T,
        source: u16,
        first: u64,
        routes: &Routes,
    ) -> Option<Stop>
        requires { length routes.now.lists.items ≡ length self.old.shards.items }
        ensures { TakeLists source first routes.now.common.items routes.now.count self.old.shards.items (items_of routes.now.lists.items) result self.new.shards.items }
    {
        offer_lists_side_by_side(
            rt,
            source,
            first,
            routes.lists(),
            routes.common(),
            routes.count(),
            &mut self.shards,
        )
    }

    /// The event that one detector of the whole trace refuses, since its table of sets has room for `limit` and is full, or None where
    /// it takes all events that the shards know.
    pub fn first_full(&self, alloc: Global, limit: u32) -> Result<Option<u64>, AllocError>
        requires least { 1 ≤ limit }
        requires greatest { limit ≤ MOST_SETS }
        ensures first { IfOk result (IsFirstFull limit self.now.shards.items) }
        ensures few { logged self.now.shards.items ≤ limit → result ≡ Ok None }
    {
        first_full(alloc, limit, &self.shards)
    }

    /// The shards, by their parts.
    pub fn as_slice(&self) -> &[Shard]
        ensures { result.now ≡ self.now.shards.items }
    {
        &self.shards
    }
}
