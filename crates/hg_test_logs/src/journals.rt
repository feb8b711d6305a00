//! What the lines of a scenario do with a journal of events. It stands on the disk of the journal.

use crate::base::base_of;
use hg_disk::Disk;
use hg_journal::file::Attached;
use hg_journal::journal::{Journal, JournalReader, JournalRoom, MAX_BATCH_EVENTS};
use hg_model::event::Named;
use hg_model::verdict::Refusal;
use hg_test_kit::device::Device;
use hg_test_kit::events::{put_events, put_named};
use hg_test_kit::shelf::{Shelf, TestDisk};
use hg_test_kit::text::Text;
use hg_test_kit::tokens::{Halt, front};
use std::alloc::{AllocError, Global};

/// A journal, if one is open, the reader of its events, and the events that are to be appended to it at once.
#[derive(Drop)]
pub struct JournalBench {
    opened: Option<Journal<TestDisk>>,
    reader: Option<JournalReader>,
    batch: Vec<Named>,
}

/// The event that is next, or `end`.
fn put_next(
    journal: &mut Journal<TestDisk>,
    reader: &mut Option<JournalReader>,
    out: &mut Text,
) -> Result<(), Halt> {
    let Some(reader) = reader else {
        return Err(Halt::Closed);
    };
    match journal.next(reader)? {
        Some(named) => put_named(&named, out),
        None => out.put(b"end"),
    }
    Ok(())
}

/// Appends events at once.
fn append(journal: &mut Journal<TestDisk>, batch: &[Named], out: &mut Text) -> Result<(), Halt> {
    if batch.is_empty() || batch.len() > MAX_BATCH_EVENTS {
        out.put(b"no batch");
        return Ok(());
    }
    Ok(journal.append(batch)?)
}

/// A journal, or why there is none and its disk.
type Opened = Result<Journal<TestDisk>, (Halt, TestDisk)>;

/// A journal, or why it was refused.
fn opened(answer: Result<Journal<TestDisk>, (Refusal, TestDisk)>) -> Opened {
    match answer {
        Ok(journal) => Ok(journal),
        Err((refusal, disk)) => Err((Halt::Refused(refusal), disk)),
    }
}

/// Makes a journal without a base on a disk without a byte.
fn create(alloc: Global, disk: TestDisk) -> Opened {
    if disk.len() > 0 {
        return Err((Halt::NotEmpty, disk));
    }
    opened(Journal::create(alloc, disk))
}

/// Makes a file that may be spare on a disk without a byte.
fn create_file(alloc: Global, disk: TestDisk, token: &str) -> Opened {
    if disk.len() > 0 {
        return Err((Halt::NotEmpty, disk));
    }
    let room = match JournalRoom::new(alloc) {
        Ok(room) => room,
        Err(AllocError) => return Err((Halt::Memory, disk)),
    };
    match token {
        "create-spare" => opened(Journal::create_spare(room, disk)),
        _ => opened(Journal::create_open(room, disk)),
    }
}

/// Attaches a file that may be spare, and tells what it has.
fn attach_file(alloc: Global, disk: TestDisk, out: &mut Text) -> Opened {
    match Journal::attach_file(alloc, disk) {
        Ok(Attached::Spare(journal)) => {
            out.put(b"spare");
            Ok(journal)
        }
        Ok(Attached::Open(base, journal)) => {
            out.put_number(b"open ", base);
            Ok(journal)
        }
        Err((refusal, disk)) => Err((Halt::Refused(refusal), disk)),
    }
}

/// Makes or attaches a journal. A refusal hands the disk back.
fn open(alloc: Global, disk: TestDisk, token: &str, out: &mut Text) -> Opened {
    match token {
        "attach" => opened(Journal::attach(alloc, disk)),
        "attach-file" => attach_file(alloc, disk, out),
        "create" => create(alloc, disk),
        _ => create_file(alloc, disk, token),
    }
}

impl JournalBench {
    pub fn new(alloc: Global) -> JournalBench {
        JournalBench {
            opened: None,
            reader: None,
            batch: Vec::new(alloc),
        }
    }

    /// Has this journal, or none.
    fn put_opened(&mut self, opened: Option<Journal<TestDisk>>) {
        self.opened = opened;
        self.reader = None;
    }

    pub fn clear(&mut self) {
        self.put_opened(None);
        self.batch.clear();
    }

    /// Puts the disk back, if a journal is open.
    pub fn close(&mut self, shelf: &mut Shelf) -> Result<(), AllocError> {
        match self.opened.take() {
            Some(journal) => shelf.put(Device::Journal0, journal.into_disk()),
            None => Ok(()),
        }
    }

    /// Makes or attaches a journal, or puts the disk of a refused one back.
    fn open(
        &mut self,
        alloc: Global,
        shelf: &mut Shelf,
        token: &str,
        out: &mut Text,
    ) -> Result<(), Halt> {
        self.close(shelf)?;
        match open(alloc, shelf.take(alloc, Device::Journal0)?, token, out) {
            Ok(journal) => {
                self.put_opened(Some(journal));
                Ok(())
            }
            Err((halt, disk)) => {
                shelf.put(Device::Journal0, disk)?;
                Err(halt)
            }
        }
    }

    /// Does what a line asks of the open journal.
    fn work(&mut self, token: &str, rest: &str, out: &mut Text) -> Result<(), Halt> {
        let Some(journal) = &mut self.opened else {
            return Err(Halt::Closed);
        };
        match token {
            "append" => {
                let appended = append(journal, &self.batch, out);
                self.batch.clear();
                appended
            }
            "open" => Ok(journal.open(base_of(rest, out)?)?),
            "close" => Ok(journal.close()?),
            "first" => {
                self.reader = Some(journal.events()?);
                Ok(())
            }
            "next" => put_next(journal, &mut self.reader, out),
            _ => Err(Halt::Misspelt),
        }
    }

    /// Does what a line asks of a journal.
    pub fn perform(
        &mut self,
        alloc: Global,
        shelf: &mut Shelf,
        text: &str,
        out: &mut Text,
    ) -> Result<(), Halt> {
        let (token, rest) = front(text);
        match token {
            "create" | "create-spare" | "create-open" | "attach" | "attach-file" => {
                self.open(alloc, shelf, token, out)
            }
            "event" => put_events(rest, &mut self.batch),
            _ => self.work(token, rest, out),
        }
    }
}
