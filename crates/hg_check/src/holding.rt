//! Lines that a run prints, held until they are written.

ghost use Rattle.std.specs.Prelude.{◌≡◌, ◌+◌, ◌<◌, ◌++◌, length, IfErr, OnOk};
ghost use Rattle.hg_check.specs.Running.{HoldsReport};
ghost use Rattle.hg_check.specs.Printing.{last_line};
ghost use Rattle.hg_streams.specs.Texts.{line_text};
ghost use Rattle.hg_detect.specs.Memory.{content_of};

use hg_detect::memory::MemoryDetector;
use hg_model::limits::MOST_REPORTS;
use hg_model::verdict::Refusal;
use hg_reading::ending::Ending;
use hg_streams::holding::{end_line, hold_report};
use hg_wire::lines::{put_bad_line, put_refused_line};
use hg_wire::report::put_end_line;
use std::alloc::Global;

/// Holds the line of a kept report, by its index.
pub(crate) fn hold_kept_report(
    alloc: Global,
    detector: &MemoryDetector,
    index: usize,
    held: &mut Vec<u8>,
) -> Result<(), Refusal>
    requires within { index < length detector.now.kept }
    requires few { index < MOST_REPORTS }
    ensures ok { OnOk result (HoldsReport (content_of detector.now) index held.old.items held.new.items) }
    ensures cause { IfErr result (λ r. r ≡ Refusal.OutOfMemory) }
{
    let report = detector.report(alloc, index)?;
    hold_report(index as u64 + 1, &report, held)
}

/// Holds the last line of `check`.
pub fn hold_last_line(
    detector: &MemoryDetector,
    end: Ending,
    held: &mut Vec<u8>,
) -> Result<(), Refusal>
    ensures ok { OnOk result (held.new.items ≡ held.old.items ++ line_text (last_line (content_of detector.now) end)) }
    ensures cause { IfErr result (λ r. r ≡ Refusal.OutOfMemory) }
{
    let line = match end {
        Ending::Ended => put_end_line(
            detector.state().events(),
            detector.total(),
            detector.segments().len() as u64,
            held,
        ),
        Ending::Refused { line, refusal } => put_refused_line(line, refusal.code(), held),
        Ending::Bad { line } => put_bad_line(line, held),
    };
    line?;
    end_line(held)
}
