//! The last line of `check`, by a judge of all parts.

ghost use Rattle.std.specs.Prelude.{◌≡◌, ◌++◌, IfErr, OnOk};
ghost use Rattle.hg_model.specs.Contents.{Content};
ghost use Rattle.hg_check.specs.Printing.{last_line};
ghost use Rattle.hg_streams.specs.Texts.{line_text};
ghost use Rattle.hg_parts.specs.Running.{StandsBy};

use hg_model::verdict::Refusal;
use hg_reading::ending::{Ending, hold_stop};
use hg_shards::judge::Judge;
use hg_streams::holding::end_line;
use hg_wire::report::put_end_line;

/// Holds the end line, by the counts of all parts together.
fn hold_end(judge: &Judge, held: &mut Vec<u8>) -> Result<(), Refusal>
    ensures ok { (c : Content) → StandsBy Ending.Ended c judge.now → OnOk result (held.new.items ≡ held.old.items ++ line_text (last_line c Ending.Ended)) }
    ensures cause { IfErr result (λ r. r ≡ Refusal.OutOfMemory) }
{
    put_end_line(judge.events(), judge.total(), judge.segments() as u64, held)?;
    end_line(held)
}

/// Holds the last line of `check`.
pub(crate) fn hold_last_line(judge: &Judge, end: Ending, held: &mut Vec<u8>) -> Result<(), Refusal>
    ensures ok { (c : Content) → StandsBy end c judge.now → OnOk result (held.new.items ≡ held.old.items ++ line_text (last_line c end)) }
    ensures cause { IfErr result (λ r. r ≡ Refusal.OutOfMemory) }
{
    match end {
        Ending::Ended => hold_end(judge, held),
        Ending::Refused { .. } => hold_stop(end, held),
        Ending::Bad { .. } => hold_stop(end, held),
    }
}
