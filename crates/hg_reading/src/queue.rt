//! Queues, which hold parsed lines until they are offered.

ghost use Rattle.std.specs.Prelude.{◌≡◌, ℕ, ◌+◌, ◌<◌, ◌≤◌};
ghost use Rattle.std.specs.Bool.{OnFalse, OnTrue};
ghost use Rattle.hg_reading.specs.Queueing.{IsEvent, Lines, more_lines, no_lines};

use crate::queued::Queued;

/// Parsed lines, in the form that a sink wishes for. One thread fills a queue, and another one offers what it holds.
pub trait Queue: Drop {
    /// The lines that it holds.
    ghost held: { Self → Lines };

    /// How many places it has.
    ghost places: { Self → ℕ };

    /// How many of them are free. A line takes at most one, and those without an event in front of it one more.
    ghost room: { Self → ℕ };

    /// Drops all lines, and keeps the memory.
    fn clear(&mut self)
        ensures none { held self.new ≡ no_lines }
        ensures room { room self.new ≡ places self.new }
        ensures places { places self.old ≤ places self.new };

    /// Appends `passed` lines without an event, and the line of the event `it`, which is then line number `line` of the queue. `false` says
    /// that there is no room; the queue holds what it held then. Takes no memory.
    fn push(&mut self, line: u64, passed: u64, it: Queued) -> bool
        requires event { IsEvent it }
        requires line { line ≡ (held self.old).count + passed + 1 }
        ensures pushed { OnTrue result (held self.new ≡ more_lines (held self.old) passed it) }
        ensures same { OnFalse result (held self.new ≡ held self.old) }
        ensures full { OnFalse result (room self.old < 2) }
        ensures room { room self.old ≤ room self.new + 2 }
        ensures places { places self.old ≤ places self.new };
}
