//! A part of a trace text, parsed before it is offered.

ghost use Rattle.std.specs.Prelude.{◌≡◌, ◌+◌, ◌<◌, ◌≤◌, ◌^◌, length, IfOk};
ghost use Rattle.hg_wire.specs.Streams.{at_start};
ghost use Rattle.hg_reading.specs.Queueing.{FindsNext, IsQueued, no_lines};

use crate::queue::Queue;
use crate::queued::Queued;
use hg_wire::reader::{EventReader, Taken};
use std::alloc::{AllocError, Global};

/// How far a text was parsed.
#[derive(Clone, Copy, Debug, PartialEq, Eq, Drop)]
pub struct Extent {
    pub lines: u64,
    pub bytes: usize,
}

/// What comes next in a text.
#[derive(Clone, Copy, Debug, PartialEq, Eq, Drop)]
pub enum Next {
    /// A line with an event. It ends behind `used` bytes.
    Line { it: Queued, used: usize },
    /// A line that is bad.
    Bad,
    /// No line more.
    End,
}

/// Parts of texts, one after another in the same memory.
#[derive(Drop)]
pub struct Part<Q> {
    reader: EventReader,
    /// What is queued of the text that was parsed last.
    pub queue: Q,
    /// How many bytes that text has.
    pub given: usize,
    /// How far it was parsed: up to a line that is bad, or for which there is no room.
    pub extent: Extent,
    /// Padding. Each part is written by a thread of its own, so neighbouring parts must share no cache line.
    apart: [u64; 16],
}

impl<Q: Queue> Part<Q> {
    ghost use Rattle.hg_reading.specs.Queueing.{Holds};

    /// With a queue, whose lines are dropped.
    pub fn new(alloc: Global, queue: Q) -> Result<Self, AllocError>
        ensures room { IfOk result (λ part. part.queue ≡ queue) }
    {
        Ok(Part {
            reader: EventReader::new(alloc)?,
            queue,
            given: 0,
            extent: Extent { lines: 0, bytes: 0 },
            apart: [0; 16],
        })
    }

    /// Parses a text, and takes no memory.
    pub fn parse(&mut self, text: &[u8])
        ensures { Holds Q.held self.new text.now }
    {
        self.reader.reset();
        self.queue.clear();
        self.given = text.len();
        self.extent = queue_lines(&mut self.reader, &mut self.queue, text);
    }
}

/// Queues the lines of a text, up to one that is bad or finds no room.
fn queue_lines<Q: Queue>(reader: &mut EventReader, queue: &mut Q, text: &[u8]) -> Extent
    requires start { reader.old ≡ at_start }
    requires none { Q.held queue.old ≡ no_lines }
    ensures { IsQueued text.now (Q.held queue.new) result.lines result.bytes }
{
    let mut extent = Extent { lines: 0, bytes: 0 };
    let mut rest = text;
    loop {
        match next_line(reader, rest) {
            Next::Line { it, used } => {
                let lines = reader.lines();
                if !queue.push(lines, lines - extent.lines - 1, it) {
                    return extent;
                }
                rest = &rest[used..];
                extent = Extent {
                    lines,
                    bytes: extent.bytes + used,
                };
            }
            Next::Bad => return extent,
            Next::End => {
                return if reader.is_between_lines() {
                    Extent {
                        lines: reader.lines(),
                        bytes: text.len(),
                    }
                } else {
                    extent
                };
            }
        }
    }
}

/// Takes the next line that is neither empty nor a comment.
#[inline(always)]
fn next_line(reader: &mut EventReader, rest: &[u8]) -> Next
    requires { reader.old.lines + length rest.now < 2 ^ 64 }
    ensures { FindsNext reader.old reader.new rest.now result }
{
    if let Some(found) = reader.take_access(rest) {
        return Next::Line {
            it: Queued::of_access(found.is_write, found.access),
            used: found.used,
        };
    }
    if let Some(held) = reader.take_hold(rest) {
        return Next::Line {
            it: Queued::of_hold(held.hold),
            used: held.used,
        };
    }
    match reader.take(rest) {
        Taken::Line { reading, used } => match reading.event {
            Ok(event) => Next::Line {
                it: Queued::of_event(event),
                used,
            },
            Err(_) => Next::Bad,
        },
        Taken::More => Next::End,
    }
}
