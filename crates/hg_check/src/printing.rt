//! Printing reports and segments: their lines are appended to `held`, which is written once it has 64 KiB.

ghost use Rattle.std.specs.Prelude.{◌≡◌, ◌+◌, IfErr};
ghost use Rattle.hg_streams.specs.Holding.{HoldsOrPrints, PrintsFront};
ghost use Rattle.hg_check.specs.Running.{lines_from};
ghost use Rattle.hg_streams.specs.Calls.{failed_writes};
ghost use Rattle.hg_streams.specs.Faults.{HasWriteCause};
ghost use Rattle.hg_streams.specs.Told.{told};

use crate::holding::hold_kept_report;
use hg_detect::memory::MemoryDetector;
use hg_model::verdict::Refusal;
use hg_streams::holding::{write_if_large, write_out};
use hg_streams::output::Output;
use std::alloc::Global;
use std::io::Write;

/// Prints the kept reports from an index on.
pub fn print_reports<W: Write>(
    alloc: Global,
    detector: &MemoryDetector,
    from: usize,
    held: &mut Vec<u8>,
    output: &mut Output<W>,
) -> Result<(), Refusal>
    ensures printed { HoldsOrPrints (lines_from from detector.now) output.old held.old result output.new held.new }
    ensures front { PrintsFront (lines_from from detector.now) output.old held.old result output.new }
    ensures cause { IfErr result (λ r. HasWriteCause output.old.calls output.new.calls r) }
    ensures fault { failed_writes output.new.calls ≡ told result + failed_writes output.old.calls }
{
    for index in from..detector.kept() {
        hold_kept_report(alloc, detector, index, held)?;
        write_if_large(held, output)?;
    }
    write_out(held, output)
}
