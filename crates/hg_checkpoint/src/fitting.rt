//! Whether the parts of a head have a spelling.
ghost use Rattle.std.specs.Prelude.{◌≡◌, ◌<◌, ◌^◌, ◌↔◌, All, IsTrue, length};
ghost use Rattle.std.specs.List.{AllByRecursion};
ghost use Rattle.hg_root.specs.Grammar as text;
ghost use Rattle.hg_root.specs.Grammar.{SetFits};
ghost use Rattle.hg_checkpoint.specs.Capturing.{IsNumbered};

use hg_cells::KeptReport;
use hg_model::held::HeldLock;
use hg_model::limits::THREAD_NUMBERS;
use hg_model::segment::{Mark, Segment};
use hg_model::thread::ThreadState;
use hg_root::SourceCount;
use hg_sets::SetTable;

/// How many counts two bytes spell.
pub(crate) const COUNTS: usize = 65_536;

/// A part that may have a spelling.
pub(crate) trait Part {
    /// It has one.
    ghost fits: { Self → Type 0 };

    /// Whether it has one.
    fn has_spelling(&self) -> bool
        ensures { IsTrue result ↔ fits self.now };
}

/// Whether each of these parts has a spelling.
pub(crate) fn have_spellings<T: Part>(parts: &[T]) -> bool
    ensures { IsTrue result ↔ All T.fits parts.now }
{
    for part in parts {
        if !part.has_spelling() {
            return false;
        }
    }
    true
}

// Whether one byte can count the segments before a segment.
fn are_few(before: &[u32]) -> bool
    ensures { IsTrue result ↔ (length before.now < 2 ^ 8) × AllByRecursion (λ k. k < 2 ^ 32) before.now }
{
    before.len() < 256
}

// Whether two bytes can count the members of a set.
fn are_members(members: &[u16]) -> bool
    ensures { IsTrue result ↔ SetFits members.now }
{
    members.len() < COUNTS
}

// A message has a spelling, as each number of four bytes.
fn is_spelled(mark: Mark) -> bool
    ensures { IsTrue result ↔ text.MarkFits mark }
{
    match mark {
        Mark::Plain | Mark::Sent(_) | Mark::Got(_) => true,
    }
}

impl Part for Segment {
    ghost fits = { text.SegmentFits };

    fn has_spelling(&self) -> bool {
        let _thread = self.thread;
        is_spelled(self.mark) && are_few(self.before.as_slice())
    }
}

impl Part for HeldLock {
    ghost fits = { text.LockFits };

    fn has_spelling(&self) -> bool {
        let _lock = self.lock;
        true
    }
}

impl Part for ThreadState {
    ghost fits = { IsNumbered };

    fn has_spelling(&self) -> bool {
        if self.number >= THREAD_NUMBERS as u16 {
            return false;
        }
        have_spellings(self.held.as_slice())
    }
}

impl Part for KeptReport {
    ghost fits = { text.ReportFits };

    fn has_spelling(&self) -> bool {
        let (_event, _word) = (self.event, self.word);
        let (_thread, _threads) = (self.thread, self.threads);
        true
    }
}

impl Part for SourceCount {
    ghost fits = { text.SourceFits };

    fn has_spelling(&self) -> bool {
        let (_source, _last) = (self.source, self.last);
        true
    }
}

/// Whether each set has a spelling.
pub(crate) fn sets_have_spellings(sets: &SetTable) -> bool
    ensures each { IsTrue result ↔ All SetFits sets.now.sets }
    ensures count { length sets.now.sets < 2 ^ 32 }
{
    for id in 0..sets.len() {
        if !are_members(sets.members(id)) {
            return false;
        }
    }
    true
}
