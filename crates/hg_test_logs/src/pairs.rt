//! What the lines of a scenario do with two journals that take turns. They stand on the disks of the two roots.

use hg_disk::Disk;
use hg_gate::MAX_BASE;
use hg_journal::journal::{JournalRoom, MAX_BATCH_EVENTS};
use hg_journals::{JournalPair, PairReader};
use hg_model::event::Named;
use hg_model::verdict::Refusal;
use hg_test_kit::device::Device;
use hg_test_kit::events::{put_events, put_named};
use hg_test_kit::shelf::{Shelf, TestDisk};
use hg_test_kit::text::Text;
use hg_test_kit::tokens::{Halt, Tokens, front};
use std::alloc::{AllocError, Global};

/// A pair, if one is open, the reader of its events, and the events that are to be appended to it at once.
#[derive(Drop)]
pub struct PairBench {
    opened: Option<JournalPair<TestDisk>>,
    reader: Option<PairReader>,
    batch: Vec<Named>,
}

/// The event that is next, or `end`.
fn put_next(
    pair: &mut JournalPair<TestDisk>,
    reader: &mut Option<PairReader>,
    out: &mut Text,
) -> Result<(), Halt> {
    let Some(reader) = reader else {
        return Err(Halt::Closed);
    };
    match pair.next(reader)? {
        Some(named) => put_named(&named, out),
        None => out.put(b"end"),
    }
    Ok(())
}

/// Passes over events of one batch: how many.
fn pass(
    pair: &mut JournalPair<TestDisk>,
    reader: &mut Option<PairReader>,
    rest: &str,
    out: &mut Text,
) -> Result<(), Halt> {
    let Some(reader) = reader else {
        return Err(Halt::Closed);
    };
    let most = number_of(rest)?;
    if most == 0 {
        return Err(Halt::Misspelt);
    }
    let passed = pair.pass(reader, most)?;
    out.put_decimal(passed);
    Ok(())
}

/// The events from a number on, at most so many: how many, and each.
fn collect(
    pair: &mut JournalPair<TestDisk>,
    alloc: Global,
    rest: &str,
    out: &mut Text,
) -> Result<(), Halt> {
    let mut tokens = Tokens::of(rest);
    let from = tokens.number();
    let max = tokens.short_number();
    tokens.check()?;
    let events = pair.collect(alloc, from, usize::from(max))?;
    out.put_decimal(events.len() as u64);
    for named in events.iter() {
        out.put(b", ");
        put_named(named, out);
    }
    Ok(())
}

/// The one number of a line.
fn number_of(rest: &str) -> Result<u64, Halt> {
    let mut tokens = Tokens::of(rest);
    let number = tokens.number();
    tokens.check()?;
    Ok(number)
}

/// Appends events at once.
fn append(pair: &mut JournalPair<TestDisk>, batch: &[Named], out: &mut Text) -> Result<(), Halt> {
    if batch.is_empty() || batch.len() > MAX_BATCH_EVENTS {
        out.put(b"no batch");
        return Ok(());
    }
    if pair.last_kept() > MAX_BASE - batch.len() as u64 {
        out.put(b"no number");
        return Ok(());
    }
    Ok(pair.append(batch)?)
}

/// The number of the first event that is kept, and of the last one.
fn put_kept(pair: &JournalPair<TestDisk>, out: &mut Text) {
    out.put_decimal(pair.first_kept());
    out.put_number(b" to ", pair.last_kept());
}

/// Says which of two it is.
fn put_either(is_so: bool, one: &[u8], other: &[u8], out: &mut Text) {
    if is_so {
        out.put(one);
    } else {
        out.put(other);
    }
}

/// The memory of a pair.
fn rooms(alloc: Global) -> Result<(JournalRoom, JournalRoom), AllocError> {
    let first = JournalRoom::new(alloc)?;
    let second = JournalRoom::new(alloc)?;
    Ok((first, second))
}

/// Makes a pair on two disks without a byte. A refusal hands the disks back.
fn create(
    alloc: Global,
    first: TestDisk,
    second: TestDisk,
) -> Result<JournalPair<TestDisk>, (Halt, TestDisk, TestDisk)> {
    if first.len() > 0 {
        return Err((Halt::NotEmpty, first, second));
    }
    if second.len() > 0 {
        return Err((Halt::NotEmpty, first, second));
    }
    let (room0, room1) = match rooms(alloc) {
        Ok(rooms) => rooms,
        Err(AllocError) => return Err((Halt::Memory, first, second)),
    };
    match JournalPair::create(room0, room1, first, second) {
        Ok(pair) => Ok(pair),
        Err((first, second)) => Err((Halt::Refused(Refusal::DeviceFault), first, second)),
    }
}

/// Makes or attaches a pair. A refusal hands the disks back.
fn open(
    alloc: Global,
    first: TestDisk,
    second: TestDisk,
    is_new: bool,
) -> Result<JournalPair<TestDisk>, (Halt, TestDisk, TestDisk)> {
    if is_new {
        return create(alloc, first, second);
    }
    match JournalPair::attach(alloc, first, second) {
        Ok(pair) => Ok(pair),
        Err((refusal, first, second)) => Err((Halt::Refused(refusal), first, second)),
    }
}

/// Puts both disks back.
fn put_back(shelf: &mut Shelf, first: TestDisk, second: TestDisk) -> Result<(), AllocError> {
    let first = shelf.put(Device::Journal0, first);
    let second = shelf.put(Device::Journal1, second);
    first.and(second)
}

impl PairBench {
    pub fn new(alloc: Global) -> PairBench {
        PairBench {
            opened: None,
            reader: None,
            batch: Vec::new(alloc),
        }
    }

    /// Has this pair, or none.
    fn put_opened(&mut self, opened: Option<JournalPair<TestDisk>>) {
        self.opened = opened;
        self.reader = None;
    }

    pub fn clear(&mut self) {
        self.put_opened(None);
        self.batch.clear();
    }

    /// Puts the disks back, if a pair is open.
    pub fn close(&mut self, shelf: &mut Shelf) -> Result<(), AllocError> {
        match self.opened.take() {
            Some(pair) => {
                let (first, second) = pair.into_disks();
                put_back(shelf, first, second)
            }
            None => Ok(()),
        }
    }

    /// Makes or attaches a pair, or puts the disks of a refused one back.
    fn open(&mut self, alloc: Global, shelf: &mut Shelf, is_new: bool) -> Result<(), Halt> {
        self.close(shelf)?;
        let first = shelf.take(alloc, Device::Journal0)?;
        let second = shelf.take(alloc, Device::Journal1)?;
        match open(alloc, first, second, is_new) {
            Ok(pair) => {
                self.put_opened(Some(pair));
                Ok(())
            }
            Err((halt, first, second)) => {
                put_back(shelf, first, second)?;
                Err(halt)
            }
        }
    }

    /// Does what a line asks of the open pair.
    fn work(&mut self, alloc: Global, token: &str, rest: &str, out: &mut Text) -> Result<(), Halt> {
        let Some(pair) = &mut self.opened else {
            return Err(Halt::Closed);
        };
        match token {
            "append" => {
                let appended = append(pair, &self.batch, out);
                self.batch.clear();
                return appended;
            }
            "turn" => put_either(pair.turn()?, b"turned", b"no turn", out),
            "retire" => put_either(pair.retire(number_of(rest)?)?, b"retired", b"kept", out),
            "first" => self.reader = Some(pair.events()?),
            "behind" => self.reader = Some(pair.events_behind(number_of(rest)?)?),
            "collect" => return collect(pair, alloc, rest, out),
            "next" => return put_next(pair, &mut self.reader, out),
            "pass" => return pass(pair, &mut self.reader, rest, out),
            "kept" => put_kept(pair, out),
            _ => return Err(Halt::Misspelt),
        }
        Ok(())
    }

    /// Does what a line asks of a pair.
    pub fn perform(
        &mut self,
        alloc: Global,
        shelf: &mut Shelf,
        text: &str,
        out: &mut Text,
    ) -> Result<(), Halt> {
        let (token, rest) = front(text);
        match token {
            "create" => self.open(alloc, shelf, true),
            "attach" => self.open(alloc, shelf, false),
            "event" => put_events(rest, &mut self.batch),
            _ => self.work(alloc, token, rest, out),
        }
    }
}
