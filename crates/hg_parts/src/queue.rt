//! A queue of lines whose events stand in the lists of the parts.

ghost use Rattle.std.specs.Prelude.{◌≡◌, ◌-◌, ◌≤◌, IfOk, vec_capacity, vec_len};
ghost use Rattle.hg_reading.specs.Queueing.{IsEvent, IsLineOf, no_lines};
ghost use Rattle.hg_reading.specs.Queueing as spec;
ghost use Rattle.hg_parts.specs.Queues.{lines_held};

use crate::batch::Batch;
use hg_model::event::{Access, Block, Event, Hold};
use hg_reading::queue::Queue;
use hg_reading::queued::Queued;
use std::alloc::{AllocError, Global};

/// Parsed lines. Their events stand in the lists of the parts, as long as these have room; those behind them stand one after another.
#[derive(Drop)]
pub struct PartsQueue {
    pub(crate) batch: Batch,
    /// Lines for which the lists had no room, and all behind them.
    pub(crate) rest: Vec<Queued>,
}

/// The event of a queued line.
#[inline(always)]
fn event_of(it: Queued) -> Event
    requires { IsEvent it }
    ensures { IsLineOf it result }
{
    match it {
        Queued::Passed(_) => unreachable!(),
        Queued::Fork { p, c } => Event::Fork { p, c },
        Queued::Join { p, c } => Event::Join { p, c },
        Queued::Hold { kind, t, l } => Hold { t, l, kind }.event(),
        Queued::Access {
            len,
            is_write,
            t,
            at,
        } => access_of(is_write, Access { t, at, len }),
        Queued::Alloc { t, len, at } => Event::Alloc(Block { t, at, len }),
        Queued::Free { t, len, at } => Event::Free(Block { t, at, len }),
        Queued::Send { t, k } => Event::Send { t, k },
        Queued::Recv { t, k } => Event::Recv { t, k },
    }
}

/// The event of a read or a write.
#[inline(always)]
fn access_of(is_write: bool, access: Access) -> Event
    ensures { result ≡ spec.access_of is_write access }
{
    if is_write {
        Event::Write(access)
    } else {
        Event::Read(access)
    }
}

impl PartsQueue {
    ghost use Rattle.hg_parts.specs.Holding.{parts_of_batch};

    /// An empty queue for so many parts, with at least so many places.
    pub(crate) fn new(alloc: Global, parts: usize, places: usize) -> Result<PartsQueue, AllocError>
        requires { 1 ≤ parts }
        ensures none { IfOk result (λ queue. lines_held queue.batch.greatest queue.batch.lines queue.rest.items ≡ no_lines) }
        ensures places { IfOk result (λ queue. places ≤ vec_capacity queue.rest) }
        ensures parts { IfOk result (λ queue. parts_of_batch queue.batch ≡ parts) }
    {
        Ok(PartsQueue {
            batch: Batch::new(alloc, parts, places, places)?,
            rest: Vec::with_capacity(alloc, places)?,
        })
    }
}

impl Queue for PartsQueue {
    ghost held = { λ queue. lines_held queue.batch.greatest queue.batch.lines queue.rest.items };

    ghost places = { λ queue. vec_capacity queue.rest };

    ghost room = { λ queue. vec_capacity queue.rest - vec_len queue.rest };

    fn clear(&mut self) {
        self.batch.clear();
        Queue::clear(&mut self.rest);
    }

    #[inline(always)]
    fn push(&mut self, line: u64, passed: u64, it: Queued) -> bool {
        if self.rest.is_empty() && self.batch.push(line, &event_of(it)) {
            return true;
        }
        let before = self.batch.greatest;
        Queue::push(&mut self.rest, line - before, passed, it)
    }
}
