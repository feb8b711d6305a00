//! A judge that lines are offered to, one after another or in batches.

ghost use Rattle.std.specs.Prelude.{◌≡◌, ℕ, ◌+◌, ◌<◌, ◌^◌, [], ◌∷◌, Ok, Err, Some, None, IfErr, length, map};
ghost use Rattle.hg_wire.specs.Streams.{numbered_on};
ghost use Rattle.hg_shards.specs.declared.shards.Cause.TheVariants as causes;
ghost use Rattle.hg_shards.specs.Judging.{parts_of};
ghost use Rattle.hg_parts.specs.Going.{GoesFrom, IsSomewhere};
ghost use Rattle.hg_parts.specs.Holding.{parts_of_batch, readings_held};
ghost use Rattle.hg_parts.specs.Stopping.{TellsCause, TellsStop, reading_at};

use crate::batch::Batch;
use crate::runs::line_at;
use hg_model::event::{Event, Named};
use hg_model::verdict::Refusal;
use hg_reading::ending::Ending;
use hg_shards::judge::Judge;
use hg_shards::shards::{Cause, Stop};
use std::alloc::Global;
use std::marker::Sync;
use std::thread::Threads;

/// How a stop of a batch ends the run, where `lines` others stand in front of the batch.
fn ending_of(batch: &Batch, lines: u64, stop: &Stop) -> Ending
    requires within { stop.now.place < length batch.now.lines }
    requires fits { lines + batch.now.greatest < 2 ^ 64 }
    requires cause { (last : ℕ) → stop.now.cause ≡ causes.Duplicate last → ⊥ }
    ensures { TellsStop batch.now lines stop.now result }
{
    match stop.cause {
        Cause::Duplicate(_) => unreachable!(),
        Cause::Refused(refusal) => {
            let place = place_in(batch, stop.place);
            Ending::Refused {
                line: lines + line_at(&batch.runs, place),
                refusal,
            }
        }
    }
}

/// A place of a batch as its runs know it.
fn place_in(batch: &Batch, place: usize) -> u32
    requires { place < length batch.now.lines }
    ensures { result ≡ place }
{
    let count = batch.routes.count();
    prove!(place < count as usize);
    place as u32
}

/// Offers a batch to a judge, where `lines` others stand in front of it. `None` says that each line was passed.
pub(crate) fn judge_batch<T: Threads + Sync>(
    alloc: Global,
    rt: &T,
    judge: &mut Judge,
    batch: &Batch,
    lines: u64,
) -> Result<Option<Ending>, Refusal>
    requires somewhere { IsSomewhere judge.old }
    requires parts { parts_of_batch batch.now ≡ parts_of judge.old }
    requires room { judge.old.events + length batch.now.lines < 2 ^ 63 }
    requires fits { lines + batch.now.greatest < 2 ^ 64 }
    ensures goes { GoesFrom judge.old (map (numbered_on lines) (readings_held batch.now)) result [] judge.new }
    ensures parts { parts_of judge.new ≡ parts_of judge.old }
    ensures memory { IfErr result (λ r. r ≡ Refusal.OutOfMemory) }
{
    let first = judge.events() + 1;
    match judge.offer_routes(alloc, rt, 0, first, &batch.routes)? {
        None => Ok(None),
        Some(stop) => Ok(Some(ending_of(batch, lines, &stop))),
    }
}

/// Offers the line of an event to a judge. `None` says that it was passed.
pub(crate) fn judge_line<T: Threads + Sync>(
    alloc: Global,
    rt: &T,
    judge: &mut Judge,
    line: u64,
    event: &Event,
) -> Result<Option<Ending>, Refusal>
    requires somewhere { IsSomewhere judge.old }
    requires room { judge.old.events + 1 < 2 ^ 63 }
    ensures goes { GoesFrom judge.old (reading_at line event.now ∷ []) result [] judge.new }
    ensures parts { parts_of judge.new ≡ parts_of judge.old }
    ensures memory { IfErr result (λ r. r ≡ Refusal.OutOfMemory) }
{
    let named = Named {
        source: 0,
        number: judge.events() + 1,
        event: *event,
    };
    match judge.offer_all(alloc, rt, &[named])? {
        None => Ok(None),
        Some(stop) => Ok(Some(refused_by(line, stop.cause))),
    }
}

/// How a line ends the run whose event is not accepted.
fn refused_by(line: u64, cause: Cause) -> Ending
    requires cause { (last : ℕ) → cause ≡ causes.Duplicate last → ⊥ }
    ensures { TellsCause line cause result }
{
    match cause {
        Cause::Duplicate(_) => unreachable!(),
        Cause::Refused(refusal) => Ending::Refused { line, refusal },
    }
}
