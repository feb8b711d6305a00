//! A trace text checked over a map in memory, and over a pool.

ghost use Rattle.std.specs.Prelude.{◌≡◌, ◌≤◌, ◌<◌, ℕ, OnOk, IfOk, [], IfSome};
ghost use Rattle.hg_cells.specs.declared.cell.Cell.TheVariants.{New};
ghost use Rattle.hg_detect.specs.Engine.{AtPresent};
ghost use Rattle.hg_pool.specs.Maps.{live};

use crate::checkpoint::checkpoint;
use crate::events::{Ending, Turn, finish, run};
use crate::printing::put_run;
use hg_cells::words::Words;
use hg_detect::detector::Detector;
use hg_detect::memory::new_detector;
use hg_disk::{Disk, MemDisk};
use hg_model::verdict::Refusal;
use hg_pages::{MOST_SLOTS, SlotFile, Table};
use hg_pool::Pool;
use hg_sets::MOST_SETS;
use hg_test_kit::text::Text;
use hg_wire::reader::EventReader;
use std::alloc::Global;

/// A detector over a pool on a disk in memory.
type PoolDetector = Detector<Pool<MemDisk>>;

/// A reader at the start of a text.
fn reader_at_start(alloc: Global) -> Result<EventReader, Refusal> {
    match EventReader::new(alloc) {
        Ok(reader) => Ok(reader),
        Err(_) => Err(Refusal::OutOfMemory),
    }
}

/// Offers all events of a text.
fn run_whole<W: Words>(
    alloc: Global,
    detector: &mut Detector<W>,
    text: &[u8],
) -> Result<Ending, Refusal>
    requires lawful { AtPresent W.may_bring detector.old }
{
    let mut reader = reader_at_start(alloc)?;
    match run(detector, &mut reader, text, u64::MAX)?.0 {
        Turn::Stopped(end) => Ok(end),
        _ => finish(reader, detector),
    }
}

/// Checks a text over a map in memory, appends what is printed, and answers the status.
pub fn check_in_memory(alloc: Global, text: &[u8], out: &mut Text) -> Result<u8, Refusal> {
    let mut detector = new_detector(alloc, MOST_SETS)?;
    let end = run_whole(alloc, &mut detector, text)?;
    put_run(alloc, &detector, end, out)
}

/// A checkpoint of the pool under a detector.
fn write_map(detector: &mut PoolDetector) -> Result<(), Refusal>
    requires lawful { AtPresent ⟦<Pool<MemDisk> as Words>⟧.may_bring detector.old }
    ensures lawful { AtPresent ⟦<Pool<MemDisk> as Words>⟧.may_bring detector.new }
{
    checkpoint(detector.words_mut())
}

/// Offers all events of a text, and makes a checkpoint after each so many.
fn run_with_checkpoints(
    alloc: Global,
    detector: &mut PoolDetector,
    text: &[u8],
    every: u64,
) -> Result<Ending, Refusal>
    requires lawful { AtPresent ⟦<Pool<MemDisk> as Words>⟧.may_bring detector.old }
{
    let mut reader = reader_at_start(alloc)?;
    let mut rest = text;
    for _ in 0..=text.len() {
        let (turn, left) = run(detector, &mut reader, rest, every)?;
        rest = left;
        match turn {
            Turn::Over => write_map(detector)?,
            Turn::AtEnd => return finish(reader, detector),
            Turn::Stopped(end) => return Ok(end),
        }
    }
    Err(Refusal::Broken)
}

/// A detector over a pool with so many frames, and all words new.
fn detector_over_pool(alloc: Global, frames: usize) -> Result<PoolDetector, Refusal>
    ensures lawful { IfOk result (AtPresent ⟦<Pool<MemDisk> as Words>⟧.may_bring) }
{
    if frames > 4096 {
        return Err(Refusal::OutOfMemory);
    }
    let file = SlotFile::attach(MemDisk::new(alloc));
    match Pool::new(alloc, file, Table::new(alloc), frames, MOST_SLOTS) {
        Err(_) => Err(Refusal::OutOfMemory),
        Ok(pool) => match Detector::new(alloc, pool, MOST_SETS) {
            Ok(detector) => Ok(detector),
            Err(_) => Err(Refusal::OutOfMemory),
        },
    }
}

/// Checks a text over a pool with so many frames, 2 to 4,096. Appends what is printed, and answers the status.
pub fn check_over_pool(
    alloc: Global,
    text: &[u8],
    frames: usize,
    every: u64,
    out: &mut Text,
) -> Result<u8, Refusal> {
    let mut detector = detector_over_pool(alloc, frames)?;
    let end = if every == 0 {
        run_whole(alloc, &mut detector, text)
    } else {
        run_with_checkpoints(alloc, &mut detector, text, every)
    };
    put_run(alloc, &detector, end?, out)
}
