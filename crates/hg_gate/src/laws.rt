//! Laws of the bytes of a log and of a gated file, over the definitions alone.
ghost use Rattle.std.specs.Prelude.{◌<◌, ◌^◌, ℕ, List, length};
ghost use Rattle.hg_disk.specs.Laws.{AtMostOne};
ghost use Rattle.hg_disk.specs.Moments.{Leaves};
ghost use Rattle.hg_gate.specs.Based.{IsOfOneBase, IsSpare};
ghost use Rattle.hg_gate.specs.Batches.{IsBased, IsClosed, IsLog};
ghost use Rattle.hg_gate.specs.Log.{LeavesIts, disk_of};
ghost use Rattle.hg_gate.specs.Gated.{AreOneBody, IsOpenWith};
ghost use Rattle.hg_gate.specs.Turning.{StaysOnAppend};
ghost use Rattle.hg_gate.specs.declared.reader.LogReader.{LogReader};

use crate::Log;
use hg_disk::Disk;

/// The bytes of a log have one list of batches behind its front.
pub fn one_reading()
    ensures { (front bytes : List ℕ) → AtMostOne (IsLog front bytes) }
{}

/// A log with a base has one base and one list of batches,
pub fn one_base()
    ensures { (bytes : List ℕ) → IsOfOneBase bytes }
{}

/// and it is not spare.
pub fn spare_has_no_base()
    ensures { (bytes : List ℕ) → IsClosed bytes → (base : ℕ) (bodies : List (List ℕ)) → ¬ IsBased base bytes bodies }
{}

/// If a log can be used and its file is spare, durably, a crash leaves it spare.
pub fn each_image_is_spare<D: Disk>(log: &Log<D>)
    ensures { IsSpare log.now → Leaves IsClosed (D.state (disk_of log.now)) }
{}

/// If a log can be used and its batches are durable, a crash leaves exactly these batches.
pub fn each_image_has_them<D: Disk>(log: &Log<D>)
    ensures { LeavesIts log.now }
{}

/// A reader's place is as good when batches are added to the log.
pub fn reader_stays_on_append()
    ensures { (reader : LogReader) → StaysOnAppend reader }
{}

/// A file that is closed is not open.
pub fn closed_is_not_open()
    ensures { (body bytes : List ℕ) → IsClosed bytes → ¬ IsOpenWith body bytes }
{}

/// An open file has one body.
pub fn one_body()
    ensures { (bytes first second : List ℕ) → length bytes < 2 ^ 64 → AreOneBody first second bytes }
{}
