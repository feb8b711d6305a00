//! At which event of the trace each set of a table was asked for first.

ghost use Rattle.std.specs.Prelude.{◌≡◌, ◌≤◌, length, slice_get, vec_capacity, IfOk};
ghost use Rattle.hg_shards.specs.Logging.{first_log, noted};

use std::alloc::{AllocError, Global};
use std::marker::Model;

/// For each set of a table, by its number, the number of the event of the trace that asked for it first: events count from 1, and
/// the empty set has 0. All memory for a full table is taken at the beginning.
#[derive(Drop)]
pub struct SetLog {
    /// How many sets the table may have.
    limit: u32,
    events: Vec<u64>,
}

impl Model for SetLog {
    ghost use Rattle.hg_shards.specs.Logging.{HasRoomToLog, Log};

    ghost Value = { Log };

    ghost view = { λ log. record { limit = log.limit; events = log.events.items } };

    ghost invariant = { λ log. HasRoomToLog log.limit log.events };
}

impl SetLog {
    /// The log of a table that has the empty set alone, and room for `limit` sets.
    pub(crate) fn with_limit(alloc: Global, limit: u32) -> Result<Self, AllocError>
        requires { 1 ≤ limit }
        ensures { IfOk result (λ log. log ≡ first_log limit) }
    {
        let mut events = Vec::with_capacity(alloc, limit as usize)?;
        events.push_reserved(0);
        Ok(SetLog { limit, events })
    }

    /// How many sets are noted.
    #[inline(always)]
    pub fn len(&self) -> usize
        ensures count { result ≡ length self.now.events }
        ensures within { length self.now.events ≤ self.now.limit }
    {
        self.events.len()
    }

    /// The event that asked for the set with this number first, where that set is noted.
    #[inline(always)]
    pub fn get(&self, set: usize) -> Option<u64>
        ensures { result ≡ slice_get self.now.events set }
    {
        if set < self.events.len() {
            return Some(self.events[set]);
        }
        None
    }

    /// Notes that the sets up to number `count` which are not noted yet were asked for first at this event. It takes no memory.
    #[inline(always)]
    pub(crate) fn note(&mut self, count: u32, event: u64)
        requires { count ≤ self.old.limit }
        ensures { self.new ≡ record self.old { events = noted self.old.events count event } }
    {
        if count as usize > self.events.len() {
            self.fill(count, event);
        }
    }

    /// Notes sets, out of line.
    #[cold]
    #[inline(never)]
    fn fill(&mut self, count: u32, event: u64)
        requires more { length self.old.events ≤ count }
        requires within { count ≤ self.old.limit }
        ensures { self.new ≡ record self.old { events = noted self.old.events count event } }
    {
        fill_up_to(&mut self.events, count as usize, event);
    }
}

/// Adds the number of the event until there are so many.
fn fill_up_to(events: &mut Vec<u64>, count: usize, event: u64)
    requires more { length events.old.items ≤ count }
    requires within { count ≤ vec_capacity events.old }
    ensures items { events.new.items ≡ noted events.old.items count event }
    ensures room { vec_capacity events.new ≡ vec_capacity events.old }
{
    for _ in events.len()..count {
        events.push_reserved(event);
    }
}
