//! What is compared of a word's state.

ghost use Rattle.std.specs.Prelude.{◌≡◌, ◌<◌, ◌^◌, length};
ghost use Rattle.hg_detect.specs.Memory.{IsWhole, content_of};
ghost use Rattle.hg_check.specs.Holding.{HasOwnerBelow};
ghost use Rattle.hg_check.specs.Life as life;
ghost use Rattle.hg_model.specs.History as history;

use hg_cells::Cell;
use hg_cells::words::Words;
use hg_detect::memory::MemoryDetector;
use hg_model::event::Event;

/// A word's state without its sets: its kind, its owner's segment, and how many threads and candidate locks it has.
#[derive(Clone, Copy, Debug, PartialEq, Eq, Drop)]
pub enum Look {
    /// Not accessed.
    Fresh,
    /// Owned by a segment.
    Owned(u32),
    /// Read by so many threads, with so many candidate locks.
    Read(usize, usize),
    /// Read and written to by so many threads, with so many candidate locks.
    Modified(usize, usize),
}

/// How a word looks now.
#[inline(always)]
pub fn look_at(detector: &MemoryDetector, word: u64) -> Look
    requires whole { IsWhole detector.now }
    ensures value { result ≡ life.look_of ((content_of detector.now).words word) }
    ensures owner { HasOwnerBelow (length detector.now.segments) result }
{
    let sets = detector.sets();
    match detector.words().get(word) {
        Cell::New => Look::Fresh,
        Cell::Exclusive(segment) => Look::Owned(segment),
        Cell::SharedRead(threads, locks) => {
            Look::Read(sets.members(threads).len(), sets.members(locks).len())
        }
        Cell::SharedModified(threads, locks) => {
            Look::Modified(sets.members(threads).len(), sets.members(locks).len())
        }
    }
}

/// Whether a word's state is another one.
#[inline(always)]
pub fn differs(before: Look, after: Look) -> bool
    ensures { result ≡ life.differs before after }
{
    match (before, after) {
        (Look::Fresh, Look::Fresh) => false,
        (Look::Owned(from), Look::Owned(to)) => from != to,
        (Look::Read(threads, locks), Look::Read(others, left)) => {
            !(threads == others && locks == left)
        }
        (Look::Modified(threads, locks), Look::Modified(others, left)) => {
            !(threads == others && locks == left)
        }
        _ => true,
    }
}

/// Whether a word is shared and has no candidate lock.
pub fn is_bare(look: Look) -> bool
    ensures { result ≡ life.is_bare look }
{
    match look {
        Look::Read(_, locks) | Look::Modified(_, locks) => locks == 0,
        Look::Fresh | Look::Owned(_) => false,
    }
}

/// Whether `len` bytes from `at` on overlap a word.
#[inline(always)]
pub fn overlaps(at: u64, len: u32, word: u64) -> bool
    requires { word < 2 ^ 62 }
    ensures { result ≡ history.overlaps at len word }
{
    let first = 4 * word;
    at <= first + 3 && (at > first || first - at < u64::from(len))
}

/// Whether an event is an access or a block that overlaps a word.
#[inline(always)]
pub fn concerns(word: u64, event: &Event) -> bool
    requires { word < 2 ^ 62 }
    ensures { result ≡ life.concerns word event.now }
{
    match event {
        Event::Read(access) | Event::Write(access) => {
            overlaps(access.at, u32::from(access.len), word)
        }
        Event::Alloc(block) | Event::Free(block) => overlaps(block.at, block.len, word),
        _ => false,
    }
}
