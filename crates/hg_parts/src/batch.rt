//! Lines with an event, in the lists of the parts that have to see it.

ghost use Rattle.std.specs.Prelude.{◌≡◌, ◌<◌, ◌≤◌, ◌^◌, []};
ghost use Rattle.std.specs.Bool.{OnFalse, OnTrue};
ghost use Rattle.hg_parts.specs.Batches.{AreNumbered, events_in};
ghost use Rattle.hg_parts.specs.Readiness.{numbered_prop, routed_prop};
ghost use Rattle.hg_shards.specs.Pushing.{IsRouted};

use crate::line::EventLine;
use crate::runs::{Run, line_at, note};
use hg_model::event::Event;
use hg_shards::routes::Routes;
use hg_trail::Trail;
use std::alloc::{AllocError, Global};

/// Lines with an event, in the lists of the parts that have to see it.
#[derive(Drop)]
pub struct Batch {
    pub(crate) routes: Routes,
    pub(crate) runs: Vec<Run>,
    /// The greatest of the lines' numbers.
    pub(crate) greatest: u64,
    /// The lines, the newest first.
    pub(crate) lines: Trail<EventLine>,
    ghost fits: { greatest < 2 ^ 64 },
    ghost routed: { IsRouted (events_in lines) routes } by { routed_prop (events_in lines) routes },
    ghost numbered: { AreNumbered runs.items greatest lines } by { numbered_prop runs.items greatest lines },
}

impl Batch {
    ghost use Rattle.std.specs.Prelude.{IfOk, true};
    ghost use Rattle.hg_parts.specs.Holding.{HasLine, HasNone, parts_of_batch, readings_held};

    /// No lines, for so many parts: 1 at least. There is room for so many in the list of each part, and for as many that all parts see.
    pub fn new(alloc: Global, parts: usize, own: usize, common: usize) -> Result<Batch, AllocError>
        requires some { 1 ≤ parts }
        ensures none { IfOk result HasNone }
        ensures parts { IfOk result (λ b. parts_of_batch b ≡ parts) }
    {
        Ok(Batch {
            routes: Routes::new(alloc, parts, own, common)?,
            runs: Vec::with_capacity(alloc, common)?,
            greatest: 0,
            lines: Trail::new(),
        })
    }

    /// Puts the line of an event behind the others. `false` says that there is no room for it, and nothing changes. It takes no memory.
    #[inline(always)]
    pub fn push(&mut self, line: u64, event: &Event) -> bool
        ensures pushed { OnTrue result (HasLine self.old line event.now self.new) }
        ensures same { OnFalse result (self.new ≡ self.old) }
    {
        if self.runs.len() >= self.runs.capacity() {
            return false;
        }
        let place = self.routes.count();
        if !self.routes.push(event) {
            return false;
        }
        note(&mut self.runs, place, line);
        self.lines.push(EventLine {
            line,
            event: *event,
        });
        if self.greatest < line {
            self.greatest = line;
        }
        true
    }

    /// Takes all lines out. The room stays.
    pub fn clear(&mut self)
        ensures none { HasNone self.new }
        ensures parts { parts_of_batch self.new ≡ parts_of_batch self.old }
    {
        self.routes.clear();
        self.runs.clear();
        self.greatest = 0;
        self.lines = Trail::new();
    }

    /// Whether there are no lines.
    #[inline(always)]
    pub fn is_empty(&self) -> bool
        ensures { result ≡ true → readings_held self.now ≡ [] }
    {
        self.routes.count() == 0
    }

    /// For how many parts it is.
    pub fn parts(&self) -> usize
        ensures value { result ≡ parts_of_batch self.now }
        ensures some { 1 ≤ result }
    {
        self.routes.lists().len()
    }
}
