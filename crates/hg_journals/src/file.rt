//! A journal file that was read through.
ghost use Rattle.std.specs.Prelude.{◌≡◌, ◌≤◌, IsTrue, false};
ghost use Rattle.hg_gate.specs.declared.based.TheConstants.{MAX_BASE as MAX_BASE_OF};
ghost use Rattle.hg_journal.specs.Reading as journals;

use hg_disk::Disk;
use hg_journal::journal::Journal;

// An open file: its base, and the number of its last event.
pub(crate) struct OpenFile<D: Disk> {
    pub(crate) journal: Journal<D>,
    pub(crate) base: u64,
    pub(crate) last: u64,
    ghost order: { base ≤ last },
    ghost fits: { last ≤ MAX_BASE_OF },
    ghost works: { journals.is_broken journal ≡ false },
}

// What a file is.
pub(crate) enum ReadFile<D: Disk> {
    // It is spare.
    Spare(Journal<D>),
    // It is open.
    Open(OpenFile<D>),
}

impl<D: Disk> OpenFile<D> {
    ghost use Rattle.hg_journals.specs.Attaching.{GoesOnIn};

    // Whether the other file begins where this one ends.
    pub(crate) fn goes_on_in(&self, next: &OpenFile<D>) -> bool
        ensures joins { IsTrue result → GoesOnIn self.now next.now }
        ensures apart { result ≡ false → ¬ GoesOnIn self.now next.now }
    {
        self.last == next.base && self.base < next.base
    }
}

impl<D: Disk> ReadFile<D> {
    ghost use Rattle.hg_journals.specs.Attaching.{disk_in};

    // The disk.
    pub(crate) fn into_disk(self) -> D
        ensures { result ≡ disk_in self }
    {
        match self {
            ReadFile::Spare(journal) => journal.into_disk(),
            ReadFile::Open(
                OpenFile {
                    journal,
                    base: _,
                    last: _,
                },
            ) => journal.into_disk(),
        }
    }
}
