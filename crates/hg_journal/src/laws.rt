//! Laws of the bytes and of the events of a journal.
ghost use Rattle.std.specs.Prelude.{◌≡◌, ℕ, List, false};
ghost use Rattle.hg_model.specs.declared.event.Named.{Named as NamedOf};
ghost use Rattle.hg_disk.specs.Laws.{AtMostOne};
ghost use Rattle.hg_journal.specs.File.{IsJournalFile};
ghost use Rattle.hg_journal.specs.Journal.{IsJournal};
ghost use Rattle.hg_journal.specs.Reading.{HasReadFront, HasReadFrontBehind, KeepsEvents, LeavesKept, LeavesKeptBehind, ReadsKept, ReadsKeptBehind, disk_of, is_broken};

use crate::journal::{Journal, JournalReader};
use hg_disk::Disk;

/// The bytes of a journal have one list of events.
pub fn one_reading()
    ensures { (bytes : List ℕ) → AtMostOne (IsJournal bytes) }
{}

/// A file is spare, or it has one base and one list of events behind it; or it is neither.
pub fn one_file()
    ensures { (bytes : List ℕ) → AtMostOne (IsJournalFile bytes) }
{}

/// The bytes of a journal that can be used have its events, and so do the bytes that a crash leaves.
pub fn each_image_has_them<D: Disk>(journal: &Journal<D>)
    ensures now { (events : List NamedOf) → ReadsKept journal.now events }
    ensures images { (events : List NamedOf) → LeavesKept journal.now events }
    ensures now_behind { (front : List ℕ) (events : List NamedOf) → ReadsKeptBehind front journal.now events }
    ensures images_behind { (front : List ℕ) (events : List NamedOf) → LeavesKeptBehind front journal.now events }
    ensures works { (events : List NamedOf) → KeepsEvents journal.now events → is_broken journal.now ≡ false }
{}

/// The events that a reader has read are the front of the journal's events.
pub fn more<D: Disk>(journal: &Journal<D>, reader: &JournalReader)
    ensures { (seen events : List NamedOf) → HasReadFront journal.now reader.now seen events }
{}

/// So they are in a journal behind any front.
pub fn more_behind<D: Disk>(journal: &Journal<D>, reader: &JournalReader)
    ensures { (front : List ℕ) (seen events : List NamedOf) →
        HasReadFrontBehind front journal.now reader.now seen events }
{}
