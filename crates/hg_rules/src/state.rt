//! What the trace rules need of the events so far.

ghost use Rattle.std.specs.Prelude.{◌≡◌, ◌≤◌, ℕ, IfOk, OnOk, Bool, List, length, slice_index};
ghost use Rattle.hg_model.specs.declared.segment.Segment.{Segment};
ghost use Rattle.hg_model.specs.Segments.{opened};
ghost use Rattle.std.specs.List.Sorted.{IsStrictlyIncreasing};
ghost use Rattle.hg_model.specs.Parts.{HasParts};
ghost use Rattle.hg_model.specs.Restoring.{AreInRange, RefusesParts, parts_of};
ghost use Rattle.hg_model.specs.Verdicts.{MayBeNext};
ghost use Rattle.hg_model.specs.Change.{Follows, empty_content, locks_of};
ghost use Rattle.hg_model.specs.Accessing.{MayAccess, access_named};
ghost use Rattle.hg_model.specs.Holding.{hold_named};
ghost use Rattle.hg_model.specs.declared.event.Access.{Access};
ghost use Rattle.hg_model.specs.Messages.{at};
ghost use Rattle.hg_rules.specs.Counting.{CountsAccesses};
ghost use Rattle.hg_rules.specs.Messages.{mark_of, room_for};

use crate::messages::MessageTable;
use crate::table::ThreadTable;
use hg_model::event::{Event, Hold, Named};
use hg_model::limits::{MOST_EVENTS, MOST_SEGMENTS, SOURCE_NUMBERS};
use hg_model::segment::Mark;
use hg_model::thread::ThreadState;
use hg_model::verdict::{Refusal, Verdict};
use std::alloc::{AllocError, Global};
use std::marker::Model;

/// What the verdict on the next event depends on. A contract sees its parts: the counts of events and of
/// segments, the threads by rising number, the last accepted number of each source, and the table of messages.
///
/// It takes all its memory when it is made, but for the messages. Following an event takes none: room for a message is
/// made before.
pub struct TraceState {
    events: u64,
    segments: u32,
    pub(crate) threads: ThreadTable,
    last: Vec<u64>,
    pub(crate) messages: MessageTable,
}

impl Drop for TraceState {
    fn drop(self) {
        let TraceState {
            events: _,
            segments: _,
            threads,
            last,
            messages,
        } = self;
        drop(threads);
        drop(last);
        drop(messages);
    }
}

impl Model for TraceState {
    ghost use Rattle.std.specs.Prelude.{◌≡◌, ◌≤◌, length};
    ghost use Rattle.hg_model.specs.declared.limits.TheConstants.{MOST_SEGMENTS, SOURCE_NUMBERS};
    ghost use Rattle.hg_model.specs.Parts.{Parts};

    ghost Value = { Parts };

    ghost view = { λ s. record { events = s.events; segments = s.segments; threads = s.threads; last = s.last.items; messages = s.messages } };

    ghost invariant = { λ s. (length s.last.items ≡ SOURCE_NUMBERS) × (s.segments ≤ MOST_SEGMENTS) };
}

impl TraceState {
    /// The state of an empty trace: thread 0 is alive in segment 0.
    pub fn new(alloc: Global) -> Result<Self, AllocError>
        ensures { IfOk result (λ s. HasParts empty_content s) }
    {
        Ok(TraceState {
            events: 0,
            segments: 1,
            threads: ThreadTable::new(alloc)?,
            last: vec![in alloc; 0; SOURCE_NUMBERS]?,
            messages: MessageTable::new(alloc),
        })
    }

    /// The state with these parts: at most 2^58 events and 1,048,576 segments, the threads by rising number, the last
    /// accepted number of each of the 1,024 sources, and the table of messages.
    ///
    /// Damaged where a part is out of range: a number or a count, a dead thread that holds a lock, or a lock that one
    /// thread holds for writing and another one in any mode. OutOfMemory where memory runs out.
    pub fn restore(
        alloc: Global,
        events: u64,
        segments: u32,
        threads: &[ThreadState],
        last: Vec<u64>,
        messages: MessageTable,
    ) -> Result<Self, Refusal>
        ensures value { IfOk result (λ s. s ≡ parts_of events segments threads.now last.items messages) }
        ensures range { IfOk result AreInRange }
        ensures refusal { RefusesParts (parts_of events segments threads.now last.items messages) result }
    {
        if events > MOST_EVENTS || segments > MOST_SEGMENTS || last.len() != SOURCE_NUMBERS {
            return Err(Refusal::Damaged);
        }
        let threads = ThreadTable::restore(alloc, threads)?;
        Ok(TraceState {
            events,
            segments,
            threads,
            last,
            messages,
        })
    }

    /// How many events were accepted.
    #[inline(always)]
    pub fn events(&self) -> u64
        ensures { result ≡ self.now.events }
    {
        self.events
    }

    /// How many segments there are.
    #[inline(always)]
    pub fn segments(&self) -> u32
        ensures { result ≡ self.now.segments }
    {
        self.segments
    }

    /// The last accepted number of a source, 0 where it sent nothing.
    #[inline(always)]
    pub fn last(&self, source: u16) -> u64
        ensures { result ≡ slice_index self.now.last source }
    {
        let place = usize::from(source);
        if place < SOURCE_NUMBERS {
            self.last[place]
        } else {
            0
        }
    }

    /// A copy of the threads that were started, by rising number.
    pub fn threads(&self, alloc: Global) -> Result<Vec<ThreadState>, AllocError>
        ensures { IfOk result (λ threads. threads.items ≡ self.now.threads) }
    {
        self.threads.list(alloc)
    }

    /// The locks that count for an access by that thread (Eraser): all that it holds for a read, those held in
    /// write mode for a write.
    #[inline(always)]
    pub fn counted(&self, t: u16, write: bool) -> &[u16]
        ensures value { result.now ≡ locks_of self.now.threads t write }
        ensures rising { IsStrictlyIncreasing result.now }
    {
        self.threads.counted(t, write)
    }

    /// Makes room for one more message. Nothing else changes.
    pub fn make_room(&mut self) -> Result<(), AllocError>
        ensures room { OnOk result (1 ≤ self.new.messages.room) }
        ensures rest { self.new ≡ record self.old { messages = self.new.messages } }
        ensures same { (k : ℕ) → at self.new.messages k ≡ at self.old.messages k }
    {
        self.messages.make_room()
    }

    /// Counts an accepted event. It takes no memory: a send and a receive need the room of one message.
    #[inline(always)]
    pub fn follow(&mut self, named: &Named)
        requires accepted { MayBeNext self.old named.now }
        requires room { room_for (mark_of named.now.event) ≤ self.old.messages.room }
        ensures { Follows self.old named.now self.new }
    {
        self.events += 1;
        self.segments += opened_by(named.event);
        self.last[usize::from(named.source)] = named.number;
        self.threads.follow(named.event);
        self.messages.note(mark_of(named.event));
    }

    /// Counts an accepted read or write, which changes only the counts. It takes no memory.
    #[inline(always)]
    pub fn follow_access(&mut self, source: u16, number: u64)
        requires { MayAccess self.old source number }
        ensures { (write : Bool) (a : Access) → Follows self.old (access_named source number write a) self.new }
    {
        self.events += 1;
        self.last[usize::from(source)] = number;
    }

    /// Counts so many reads and writes of a source at once, one after another, without a look at them: they change only the counts,
    /// which stay below 2^64. It takes no memory.
    #[inline(always)]
    pub fn follow_accesses(&mut self, source: u16, count: u64)
        ensures { CountsAccesses self.old source count self.new }
    {
        self.events = self.events.saturating_add(count);
        let place = usize::from(source);
        if place < SOURCE_NUMBERS {
            self.last[place] = self.last[place].saturating_add(count);
        }
    }

    /// Counts an accepted hold, and changes the locks of its thread. It takes no memory.
    #[inline(always)]
    pub fn follow_hold(&mut self, source: u16, number: u64, hold: Hold)
        requires { MayBeNext self.old (hold_named source number hold) }
        ensures { Follows self.old (hold_named source number hold) self.new }
    {
        let place = usize::from(source);
        self.events += 1;
        self.last[place] = number;
        self.threads.follow_hold(hold);
    }
}

/// How many segments an event opens.
#[inline(always)]
fn opened_by(event: Event) -> u32
    ensures { (segments : List Segment) → result ≡ length (opened segments event) }
{
    match event {
        Event::Fork { p: _, c: _ } => 2,
        Event::Join { p: _, c: _ } | Event::Send { t: _, k: _ } | Event::Recv { t: _, k: _ } => 1,
        _ => 0,
    }
}

/// The mark of the segments that an event opens.
#[inline(always)]
fn mark_of(event: Event) -> Mark
    ensures { result ≡ mark_of event }
{
    match event {
        Event::Send { t: _, k } => Mark::Sent(k),
        Event::Recv { t: _, k } => Mark::Got(k),
        _ => Mark::Plain,
    }
}
