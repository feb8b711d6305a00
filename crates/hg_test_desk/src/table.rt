//! A store that threads share, and what they do with it.

use crate::telling::phase_name;
use crossbeam_channel::Receiver;
use hg_desk::share::{Column, Opening, Share};
use hg_desk::shared::Shared;
use hg_desk::tasks::{BeginTask, StepTask};
use hg_detect::detector::Answer;
use hg_disk::Disk;
use hg_model::event::{Event, Named};
use hg_server::flusher::{Due, flusher};
use hg_server::health::Terms;
use hg_server::worker::{Gate, Seat};
use hg_store::steps::{Step, StepFault, StepResult};
use hg_test_kit::text::Text;
use std::alloc::Global;
use std::sync::Wait;
use std::time::Clock;

/// Who sends the events.
const SOURCE: u16 = 3;

/// A store that threads share.
#[derive(Drop)]
pub struct Table<'a, D: Disk, A: Opening, B: Column, R> {
    pub rt: &'a R,
    pub alloc: Global,
    pub shared: &'a Shared<D, A, B>,
    pub terms: &'a Terms,
}

/// A channel that is closed, with one nudge in it.
pub fn one_nudge<R: Wait>(rt: &R, alloc: Global) -> Option<Receiver<()>> {
    let (to, from) = crossbeam_channel::unbounded(alloc).ok()?;
    to.send(rt, ()).ok()?;
    Some(from)
}

impl<'a, D: Disk, A: Opening, B: Column, R: Wait + Clock> Table<'a, D, A, B, R> {
    fn step(&self, share: &mut Share<A, B>, step: Step) -> StepResult {
        let task = StepTask {
            alloc: self.alloc,
            step,
        };
        self.shared.hold(self.rt, share, task)
    }

    /// Offers the event of this number. Tells whether it was accepted.
    pub fn offer(&self, share: &mut Share<A, B>, number: u64, event: Event) -> bool {
        let named = Named {
            source: SOURCE,
            number,
            event,
        };
        matches!(
            self.step(share, Step::Offer(named)),
            StepResult::Offered(Ok(Answer::Accepted))
        )
    }

    /// Commits.
    pub fn commit(&self, share: &mut Share<A, B>) {
        self.step(share, Step::Commit);
    }

    /// Begins a checkpoint, and tells the answer.
    pub fn begin(&self, share: &mut Share<A, B>, out: &mut Text) {
        let task = BeginTask { alloc: self.alloc };
        match self.shared.hold(self.rt, share, task) {
            Ok(count) => out.put_number(b"begun with ", count),
            Err(StepFault::WrongPhase(phase)) => {
                out.put(b"not begun, phase ");
                out.put(phase_name(phase).as_bytes());
            }
            Err(StepFault::Refused(_)) => out.put(b"refused"),
        }
        out.put(b"\n");
    }

    /// What a thread works with.
    pub fn seat<'g, G>(&'g self, share: Share<A, B>, gate: &'g G) -> Seat<'g, D, A, B, G, R> {
        Seat {
            rt: self.rt,
            alloc: self.alloc,
            shared: self.shared,
            share,
            gate,
            terms: self.terms,
        }
    }

    /// Runs a flusher in this thread, over a channel with one nudge. A checkpoint is due behind so many events.
    pub fn flush<G: Gate>(&self, share: Share<A, B>, every: u64, gate: &G) -> Share<A, B> {
        let Some(nudges) = one_nudge(self.rt, self.alloc) else {
            return share;
        };
        flusher(self.seat(share, gate), &nudges, Due { every, begun: 0 })
    }
}
