//! What the lines of a scenario do with a log of batches. It stands on the disk of the journal.

use crate::base::base_of;
use hg_disk::Disk;
use hg_gate::{Batch, GateFault, Log, LogFile, LogReader, LogRoom};
use hg_test_kit::answers::put_bytes;
use hg_test_kit::device::Device;
use hg_test_kit::shelf::{Shelf, TestDisk};
use hg_test_kit::text::Text;
use hg_test_kit::tokens::{self, Halt, front};
use std::alloc::{AllocError, Global};

/// A log, if one is open, and a reader of it.
#[derive(Drop)]
pub struct LogBench {
    opened: Option<Log<TestDisk>>,
    reader: Option<LogReader>,
}

/// The most batches that are read at once.
const MOST_BATCHES: u64 = 1_000_000;

/// Appends a batch, behind a comma where it isn't the first.
fn put_batch(batch: &[u8], out: &mut Text) {
    if !out.bytes().is_empty() {
        out.put(b", ");
    }
    put_bytes(batch, out);
}

/// Appends all batches of a log, or `none`.
fn put_batches(log: &mut Log<TestDisk>, out: &mut Text) -> Result<(), Halt> {
    let mut reader = log.reader()?;
    for _ in 0..MOST_BATCHES {
        if !log.turn(&mut reader)? {
            put_none(out);
            return Ok(());
        }
        put_batch(reader.rest(), out);
    }
    Ok(())
}

/// Says that there was no batch, if there was none.
fn put_none(out: &mut Text) {
    if out.bytes().is_empty() {
        out.put(b"none");
    }
}

/// Appends bytes as a batch.
fn append(alloc: Global, log: &mut Log<TestDisk>, rest: &str, out: &mut Text) -> Result<(), Halt> {
    let mut body = Vec::new(alloc);
    tokens::put_bytes(rest, &mut body)?;
    match Batch::new(body) {
        Ok(batch) => Ok(log.append(&batch)?),
        Err(_) => {
            out.put(b"no batch");
            Ok(())
        }
    }
}

/// Appends the batch that is next, or `end`.
fn put_next(
    log: &mut Log<TestDisk>,
    reader: &mut Option<LogReader>,
    out: &mut Text,
) -> Result<(), Halt> {
    let Some(reader) = reader else {
        return Err(Halt::Closed);
    };
    if log.turn(reader)? {
        put_bytes(reader.rest(), out);
    } else {
        out.put(b"end");
    }
    Ok(())
}

/// A log, or why there is none and its disk.
type Opened = Result<Log<TestDisk>, (Halt, TestDisk)>;

/// A log, or why it was refused.
fn opened(answer: Result<Log<TestDisk>, (GateFault, TestDisk)>) -> Opened {
    match answer {
        Ok(log) => Ok(log),
        Err((fault, disk)) => Err((Halt::Fault(fault), disk)),
    }
}

/// Makes a log without a base on a disk without a byte.
fn create(alloc: Global, disk: TestDisk) -> Opened {
    if disk.len() > 0 {
        return Err((Halt::NotEmpty, disk));
    }
    opened(Log::create(alloc, disk))
}

/// Makes a file that may be spare on a disk without a byte.
fn create_file(alloc: Global, disk: TestDisk, token: &str) -> Opened {
    if disk.len() > 0 {
        return Err((Halt::NotEmpty, disk));
    }
    let room = match LogRoom::new(alloc) {
        Ok(room) => room,
        Err(AllocError) => return Err((Halt::Memory, disk)),
    };
    match token {
        "create-spare" => opened(Log::create_spare(room, disk)),
        _ => opened(Log::create_open(room, disk)),
    }
}

/// Attaches a file that may be spare, and tells what it has.
fn attach_file(alloc: Global, disk: TestDisk, out: &mut Text) -> Opened {
    match Log::attach_file(alloc, disk) {
        Ok(LogFile::Spare(log)) => {
            out.put(b"spare");
            Ok(log)
        }
        Ok(LogFile::Open(base, log)) => {
            out.put_number(b"open ", base);
            Ok(log)
        }
        Err((fault, disk)) => Err((Halt::Fault(fault), disk)),
    }
}

/// Makes or attaches a log. A refusal hands the disk back.
fn open(alloc: Global, disk: TestDisk, token: &str, out: &mut Text) -> Opened {
    match token {
        "attach" => opened(Log::attach(alloc, disk)),
        "attach-file" => attach_file(alloc, disk, out),
        "create" => create(alloc, disk),
        _ => create_file(alloc, disk, token),
    }
}

impl LogBench {
    pub fn new() -> LogBench {
        LogBench {
            opened: None,
            reader: None,
        }
    }

    /// Has this log, or none.
    fn put_opened(&mut self, opened: Option<Log<TestDisk>>) {
        self.opened = opened;
        self.reader = None;
    }

    pub fn clear(&mut self) {
        self.put_opened(None);
    }

    /// Puts the disk back, if a log is open.
    pub fn close(&mut self, shelf: &mut Shelf) -> Result<(), AllocError> {
        match self.opened.take() {
            Some(log) => shelf.put(Device::Journal0, log.into_disks()),
            None => Ok(()),
        }
    }

    /// Makes or attaches a log, or puts the disk of a refused one back.
    fn open(
        &mut self,
        alloc: Global,
        shelf: &mut Shelf,
        token: &str,
        out: &mut Text,
    ) -> Result<(), Halt> {
        self.close(shelf)?;
        match open(alloc, shelf.take(alloc, Device::Journal0)?, token, out) {
            Ok(log) => {
                self.put_opened(Some(log));
                Ok(())
            }
            Err((halt, disk)) => {
                shelf.put(Device::Journal0, disk)?;
                Err(halt)
            }
        }
    }

    /// Does what a line asks of the open log.
    fn work(&mut self, alloc: Global, token: &str, rest: &str, out: &mut Text) -> Result<(), Halt> {
        let Some(log) = &mut self.opened else {
            return Err(Halt::Closed);
        };
        match token {
            "append" => append(alloc, log, rest, out),
            "open" => Ok(log.open(base_of(rest, out)?)?),
            "close" => Ok(log.close()?),
            "first" => {
                self.reader = Some(log.reader()?);
                Ok(())
            }
            "next" => put_next(log, &mut self.reader, out),
            "all" => put_batches(log, out),
            _ => Err(Halt::Misspelt),
        }
    }

    /// Does what a line asks of a log.
    pub fn perform(
        &mut self,
        alloc: Global,
        shelf: &mut Shelf,
        text: &str,
        out: &mut Text,
    ) -> Result<(), Halt> {
        let (token, rest) = front(text);
        match token {
            "create" | "create-spare" | "create-open" | "attach" | "attach-file" => {
                self.open(alloc, shelf, token, out)
            }
            _ => self.work(alloc, token, rest, out),
        }
    }
}
