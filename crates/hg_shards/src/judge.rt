//! All parts of a trace as one detector, which judges batches of its events side by side.

ghost use Rattle.std.specs.Prelude.{◌≡◌, ◌<◌, ◌≤◌, ◌^◌, true, nat_lt, List, [], Err, IfErr, IfOk, length};
ghost use Rattle.hg_model.specs.declared.event.Named.{Named};
ghost use Rattle.hg_model.specs.Contents.{Content};
ghost use Rattle.hg_model.specs.Change.{empty_content};
ghost use Rattle.hg_sets.specs.Interning.{Table, first_table};
ghost use Rattle.hg_sets.specs.declared.table.TheConstants as sets;
ghost use Rattle.hg_shards.specs.Reading.{HasRead, total_of};
ghost use Rattle.hg_shards.specs.Stopping as spec;
ghost use Rattle.hg_shards.specs.Together.{parts_taken};

use crate::cursor::{Cursor, has_reports, new_cursor, read_next};
use crate::full::{Taking, go_on};
use crate::routes::Routes;
use crate::shard::Shard;
use crate::shards::{Cause, Shards, Stop};
use hg_model::event::Named;
use hg_model::report::Report;
use hg_model::verdict::Refusal;
use hg_sets::MOST_SETS;
use std::alloc::{AllocError, Global};
use std::marker::Sync;
use std::thread::Threads;

/// How many events of a batch of so many were accepted, where it stopped so.
fn accepted_of(count: usize, stop: Option<Stop>) -> usize
    ensures { (events : List Named) → length events ≡ count → result ≡ spec.accepted_of events stop }
{
    match stop {
        None => count,
        Some(stop) => stop.place,
    }
}

/// Where one detector stops in a batch of so many events, which had accepted `before` events in front of it. `first` is the first stop of
/// the shards, and `found` the event at which they have more sets together than one table has room for.
fn one_stop(before: u64, count: usize, first: Option<Stop>, found: Option<u64>) -> Option<Stop>
    ensures { (events : List Named) → length events ≡ count → result ≡ spec.one_stop before events first found }
{
    let Some(event) = found else {
        return first;
    };
    if before < event && event - before <= accepted_of(count, first) as u64 {
        return Some(Stop {
            place: (event - before - 1) as usize,
            cause: Cause::Refused(Refusal::FullSets),
        });
    }
    first
}

/// Whether a batch stopped since memory was refused.
fn is_for_memory(stop: Option<Stop>) -> bool
    ensures { result ≡ spec.is_for_memory stop }
{
    match stop {
        None => false,
        Some(stop) => match stop.cause {
            Cause::Duplicate(_) => false,
            Cause::Refused(refusal) => refusal == Refusal::OutOfMemory,
        },
    }
}

/// How many reports the shards have together, or 2^64 - 1 where they have more.
fn total_up_to_most(shards: &[Shard]) -> u64
    ensures { total_of shards.now < 2 ^ 64 → result ≡ total_of shards.now }
{
    let mut total: u64 = 0;
    for shard in shards {
        total = total.saturating_add(shard.detector().total());
    }
    total
}

/// A detector of a whole trace, whose words are judged by parts. It is offered batches of events.
#[derive(Drop)]
pub struct Judge {
    shards: Shards,
    /// How many sets of threads and of locks the whole trace may have.
    limit: u32,
    /// How many events of the trace were accepted.
    events: u64,
    /// The sets of all parts in one table, where they were more than the limit together.
    taking: Option<Taking>,
    /// Whether memory was refused. Then nothing is told of the trace any more.
    refused: bool,
    ghost least: { 1 ≤ limit },
    ghost greatest: { limit ≤ sets.MOST_SETS },
    ghost counts: { parts_taken (length shards.shards.items) taking ≡ length shards.shards.items },
}

impl Judge {
    ghost use Rattle.hg_shards.specs.Judging.{Concludes, HasReports, IsAt, Judges, JudgesRoutes, NextReport, parts_of};

    /// The judge of an empty trace by `count` parts, with at most `most_sets` sets of threads and of locks: 1 to 262,144. The one
    /// refusal is `OutOfMemory`.
    pub fn new(alloc: Global, count: u64, most_sets: u32) -> Result<Self, Refusal>
        requires some { 1 ≤ count }
        requires least { 1 ≤ most_sets }
        requires greatest { most_sets ≤ MOST_SETS }
        ensures begins { IfOk result (IsAt empty_content (first_table most_sets)) }
        ensures parts { IfOk result (λ j. parts_of j ≡ count) }
        ensures refusal { IfErr result (λ r. r ≡ Refusal.OutOfMemory) }
    {
        Ok(Judge {
            shards: Shards::new(alloc, count, most_sets)?,
            limit: most_sets,
            events: 0,
            taking: None,
            refused: false,
        })
    }

    /// Offers a batch of events to all parts side by side. The answer is where one detector with one table of sets stops, and why, or
    /// None where it accepts all events. Behind a stop the judge can't go on, but has all reports of the events before it. The one
    /// refusal is `OutOfMemory`: then nothing is told of the trace, and every later batch is refused so too. Where no thread can be
    /// started, the caller's does the work.
    pub fn offer_all<T: Threads + Sync>(
        &mut self,
        alloc: Global,
        rt: &T,
        events: &[Named],
    ) -> Result<Option<Stop>, Refusal>
        ensures parts { parts_of self.new ≡ parts_of self.old }
        ensures judged { IfOk result (λ stop. Judges self.old events.now stop self.new) }
        ensures refusal { IfErr result (λ r. r ≡ Refusal.OutOfMemory) }
        ensures spent { IfErr result (λ r. self.new.refused ≡ true) }
        ensures stays { self.old.refused ≡ true → result ≡ Err Refusal.OutOfMemory }
    {
        if self.refused {
            return Err(Refusal::OutOfMemory);
        }
        let first = self.shards.offer_all(rt, events);
        self.conclude(alloc, events.len(), first)
    }

    /// Offers a batch of events in lists, which a source numbers one after another from `first` on, to all parts side by side: what
    /// `offer_all` answers to these events is answered.
    pub fn offer_routes<T: Threads + Sync>(
        &mut self,
        alloc: Global,
        rt: &T,
        source: u16,
        first: u64,
        routes: &Routes,
    ) -> Result<Option<Stop>, Refusal>
        requires { length routes.now.lists.items ≡ parts_of self.old }
        ensures parts { parts_of self.new ≡ parts_of self.old }
        ensures judged { IfOk result (λ stop. JudgesRoutes self.old source first routes.now stop self.new) }
        ensures refusal { IfErr result (λ r. r ≡ Refusal.OutOfMemory) }
        ensures spent { IfErr result (λ r. self.new.refused ≡ true) }
        ensures stays { self.old.refused ≡ true → result ≡ Err Refusal.OutOfMemory }
    {
        if self.refused {
            return Err(Refusal::OutOfMemory);
        }
        let found = self.shards.offer_routes(rt, source, first, routes);
        self.conclude(alloc, routes.count() as usize, found)
    }

    /// Where one detector stops in a batch of so many events, which the shards were offered, by the first of their stops.
    fn conclude(
        &mut self,
        alloc: Global,
        count: usize,
        first: Option<Stop>,
    ) -> Result<Option<Stop>, Refusal>
        ensures shards { self.new.shards ≡ self.old.shards }
        ensures limit { self.new.limit ≡ self.old.limit }
        ensures stop { IfOk result (λ stop. Concludes self.old count first stop self.new) }
        ensures refusal { IfErr result (λ r. r ≡ Refusal.OutOfMemory) }
        ensures spent { IfErr result (λ r. self.new.refused ≡ true) }
    {
        let Ok(found) = go_on(alloc, self.limit, self.shards.as_slice(), &mut self.taking) else {
            self.refused = true;
            return Err(Refusal::OutOfMemory);
        };
        let stop = one_stop(self.events, count, first, found);
        if is_for_memory(stop) {
            self.refused = true;
            return Err(Refusal::OutOfMemory);
        }
        self.events = self.events.saturating_add(accepted_of(count, stop) as u64);
        Ok(stop)
    }

    /// How many events of the trace were accepted.
    pub fn events(&self) -> u64
        ensures { result ≡ self.now.events }
    {
        self.events
    }

    /// How many thread segments the trace has, where the judge did not stop.
    pub fn segments(&self) -> usize
        ensures { (c : Content) (table : Table) → IsAt c table self.now → result ≡ length c.segments }
    {
        let shards = self.shards.as_slice();
        if shards.is_empty() {
            return 0;
        }
        shards[0].detector().segments().len()
    }

    /// How many reports the trace has, kept or not, where the judge did not stop.
    pub fn total(&self) -> u64
        ensures { (c : Content) (table : Table) → IsAt c table self.now → result ≡ c.total }
    {
        total_up_to_most(self.shards.as_slice())
    }

    /// Whether the trace has a report, behind a stop too.
    pub fn has_races(&self) -> bool
        ensures { (c : Content) → HasReports c self.now → result ≡ nat_lt 0 c.total }
    {
        has_reports(self.shards.as_slice(), self.events)
    }

    /// A cursor that has read no report. It takes memory for a number of each part.
    pub fn cursor(&self, alloc: Global) -> Result<Cursor, AllocError>
        ensures { IfOk result (HasRead (parts_of self.now) []) }
    {
        new_cursor(alloc, self.shards.as_slice().len())
    }

    /// The next report that one detector keeps, by event and then by word, or None where the cursor has read all of them. Where memory
    /// was refused the cursor stays.
    pub fn next_report(
        &self,
        alloc: Global,
        cursor: &mut Cursor,
    ) -> Result<Option<Report>, AllocError>
        ensures next { IfOk result (λ found. NextReport self.now cursor.old found cursor.new) }
        ensures stays { IfErr result (λ e. cursor.new ≡ cursor.old) }
    {
        read_next(alloc, self.shards.as_slice(), self.events, cursor)
    }
}
