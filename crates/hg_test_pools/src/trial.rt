//! One pool under trial, and the jobs that were taken of it.

ghost use Rattle.std.specs.Prelude.{◌≡◌, ◌<◌, ◌≤◌, ◌^◌, true, IsTrue};

use crate::cells::{WORDS, cell_of};
use crate::disk::TrialDisk;
use crate::opening::page_of;
use hg_cells::{Cell, PAGE_WORDS};
use hg_disk::MemDisk;
use hg_model::verdict::Refusal;
use hg_pages::{EncodedPage, SLOT_LEN, WriteFault};
use hg_pool::{Pool, Put};
use hg_sets::SetTable;
use hg_test_kit::cells::{put_cell, put_page};
use hg_test_kit::text::Text;
use hg_test_kit::tokens::front;
use std::alloc::Global;

/// What cells are checked against when they are read.
pub struct Known {
    /// The number of segments.
    pub segments: u32,
    /// The table of sets.
    pub sets: SetTable,
}

impl Drop for Known {
    fn drop(self) {
        let Known { segments: _, sets } = self;
        drop(sets);
    }
}

/// A pool under trial, and the jobs that were taken of it, as the bytes of their slots.
pub struct Trial {
    pool: Pool<TrialDisk>,
    jobs: Vec<EncodedPage>,
    // Whether the frozen map is sealed, and its root may be opened.
    is_sealed: bool,
    ghost sealed: { is_sealed ≡ true → IsTrue pool.is_sealed },
}

impl Drop for Trial {
    fn drop(self) {
        let Trial {
            pool,
            jobs,
            is_sealed: _,
        } = self;
        drop(pool);
        drop(jobs);
    }
}

fn put_refusal(refusal: Refusal, out: &mut Text) {
    out.put(match refusal {
        Refusal::Broken => b"broken",
        Refusal::Damaged => b"damaged",
        Refusal::FullSlots => b"full",
        Refusal::DeviceFault => b"fault",
        Refusal::OutOfMemory => b"no memory",
        _ => b"another refusal",
    })
}

fn put_answer(answer: Result<(), Refusal>, out: &mut Text) {
    match answer {
        Ok(()) => out.put(b"ok"),
        Err(refusal) => put_refusal(refusal, out),
    }
}

fn put_taken(taken: Result<Put, WriteFault>, out: &mut Text) {
    match taken {
        Ok(Put::Written) => out.put(b"written"),
        Ok(Put::Stale) => out.put(b"stale"),
        Err(fault) => put_refusal(Refusal::from(fault), out),
    }
}

// The page with one byte of its slot changed.
fn changed(alloc: Global, page: &EncodedPage, at: usize, value: u8) -> Option<EncodedPage> {
    let mut bytes = Vec::from_slice(alloc, page.bytes()).ok()?;
    if at >= bytes.len() || bytes.len() != SLOT_LEN {
        return None;
    }
    bytes[at] = value;
    Some(EncodedPage::of(page.page(), bytes))
}

// The bytes of that page under another page's number.
fn renamed(alloc: Global, page: &EncodedPage, number: u64) -> Option<EncodedPage> {
    let bytes = Vec::from_slice(alloc, page.bytes()).ok()?;
    if bytes.len() != SLOT_LEN {
        return None;
    }
    Some(EncodedPage::of(number, bytes))
}

impl Trial {
    /// A pool of which no job was taken.
    pub fn new(alloc: Global, pool: Pool<TrialDisk>) -> Trial {
        Trial {
            pool,
            jobs: Vec::new(alloc),
            is_sealed: false,
        }
    }

    /// The disk in memory under the pool.
    pub fn into_disk(self) -> MemDisk {
        let Trial {
            pool,
            jobs,
            is_sealed: _,
        } = self;
        drop(jobs);
        pool.into_disks().into_disks().into_inner()
    }

    fn change(
        &mut self,
        known: &Known,
        page: u64,
        from: usize,
        to: usize,
        cell: Cell,
    ) -> Result<(), Refusal>
        requires page { page < 2 ^ 54 }
        requires in_order { from ≤ to }
        requires in_page { to ≤ 256 }
    {
        self.pool.load(page, known.segments, &known.sets)?;
        self.pool.keep(page)?;
        self.pool.update(page, from, to, cell);
        Ok(())
    }

    // `update P FROM TO CELL`: loads the page, keeps its frozen cells, and gives words of it a cell.
    fn update(&mut self, known: &Known, tokens: &str, out: &mut Text) -> Option<()> {
        let (page, rest) = front(tokens);
        let (from, rest) = front(rest);
        let (to, cell) = front(rest);
        let page = page_of(page)?;
        let from = from.parse::<usize>().ok()?;
        let to = to.parse::<usize>().ok()?;
        let cell = cell_of(cell)?;
        if from > to || to > PAGE_WORDS {
            return None;
        }
        put_answer(self.change(known, page, from, to, cell), out);
        Some(())
    }

    fn load(&mut self, known: &Known, tokens: &str, out: &mut Text) -> Option<()> {
        let page = page_of(tokens)?;
        put_answer(self.pool.load(page, known.segments, &known.sets), out);
        Some(())
    }

    fn keep(&mut self, tokens: &str, out: &mut Text) -> Option<()> {
        let page = page_of(tokens)?;
        put_answer(self.pool.keep(page), out);
        Some(())
    }

    fn put_live_page(&mut self, known: &Known, page: u64, out: &mut Text) -> Result<(), Refusal>
        requires { page < 2 ^ 54 }
    {
        self.pool.load(page, known.segments, &known.sets)?;
        out.put(b"cells");
        for word in 0..PAGE_WORDS {
            put_cell(&WORDS, word, self.pool.cell(page, word), out);
        }
        Ok(())
    }

    // `cells P`: loads the page and tells the cells that it has live.
    fn cells(&mut self, known: &Known, tokens: &str, out: &mut Text) -> Option<()> {
        let page = page_of(tokens)?;
        if let Err(refusal) = self.put_live_page(known, page, out) {
            put_refusal(refusal, out);
        }
        Some(())
    }

    fn evict(&mut self, out: &mut Text) {
        match self.pool.evict() {
            Ok(Some(page)) => out.put_number(b"page ", page),
            Ok(None) => out.put(b"none"),
            Err(refusal) => put_refusal(refusal, out),
        }
    }

    // `take`: takes a job, tells its page and cells, and keeps it as the next one under its number.
    fn take(&mut self, out: &mut Text) -> Option<()> {
        let Some(job) = self.pool.take_job() else {
            out.put(b"none");
            return Some(());
        };
        out.put_number(b"job ", job.page);
        put_page(&WORDS, &job.cells, out);
        self.jobs.push(job.encode().ok()?).ok()
    }

    // `put N`: hands in the job of this number.
    fn put(&mut self, tokens: &str, out: &mut Text) -> Option<()> {
        let page = self.jobs.get(tokens.parse::<usize>().ok()?)?;
        put_taken(self.pool.put(page), out);
        Some(())
    }

    // `changed N AT VALUE`: hands in the job of this number with another byte in its slot.
    fn put_changed(&mut self, alloc: Global, tokens: &str, out: &mut Text) -> Option<()> {
        let (number, rest) = front(tokens);
        let (at, value) = front(rest);
        let at = at.parse::<usize>().ok()?;
        let value = value.parse::<u8>().ok()?;
        let page = self.jobs.get(number.parse::<usize>().ok()?)?;
        let page = changed(alloc, page, at, value)?;
        put_taken(self.pool.put(&page), out);
        Some(())
    }

    // `renamed N P`: hands in the bytes of the job of this number as another page.
    fn put_renamed(&mut self, alloc: Global, tokens: &str, out: &mut Text) -> Option<()> {
        let (number, page) = front(tokens);
        let number = number.parse::<usize>().ok()?;
        let page = renamed(alloc, self.jobs.get(number)?, page.parse::<u64>().ok()?)?;
        put_taken(self.pool.put(&page), out);
        Some(())
    }

    fn freeze(&mut self) -> Result<(), Refusal> {
        self.pool.freeze()?;
        self.is_sealed = false;
        Ok(())
    }

    fn seal(&mut self) -> Result<(), Refusal> {
        let is_whole = self.pool.all_written();
        self.pool.seal()?;
        if is_whole {
            self.is_sealed = true;
        }
        Ok(())
    }

    // `open`: where the frozen map is sealed, tells the pool that the root of its table is open.
    fn open(&mut self, out: &mut Text) {
        if self.is_sealed {
            self.pool.root_opened();
            out.put(b"ok");
        } else {
            out.put(b"not sealed");
        }
    }

    fn put_table(&self, out: &mut Text) {
        out.put(b"table");
        let table = self.pool.frozen_table();
        for i in 0..table.len() {
            let entry = table.at(i);
            out.put_number(b" ", entry.0);
            out.put_number(b":", u64::from(entry.1));
        }
    }

    fn act(&mut self, alloc: Global, known: &Known, line: &str, out: &mut Text) -> Option<()> {
        let (token, rest) = front(line);
        match token {
            "load" => self.load(known, rest, out)?,
            "keep" => self.keep(rest, out)?,
            "update" => self.update(known, rest, out)?,
            "cells" => self.cells(known, rest, out)?,
            "evict" => self.evict(out),
            "room" => put_answer(self.pool.make_room(), out),
            "freeze" => put_answer(self.freeze(), out),
            "take" => self.take(out)?,
            "put" => self.put(rest, out)?,
            "changed" => self.put_changed(alloc, rest, out)?,
            "renamed" => self.put_renamed(alloc, rest, out)?,
            "seal" => put_answer(self.seal(), out),
            "open" => self.open(out),
            "table" => self.put_table(out),
            _ => return None,
        }
        Some(())
    }

    /// Does what a line says, and tells the answer; behind it the number of frames, that of copies, and whether all is written.
    pub fn step(&mut self, alloc: Global, known: &Known, line: &str, out: &mut Text) {
        if self.act(alloc, known, line, out).is_none() {
            out.put(b"not understood");
        }
        out.put_number(b" ", self.pool.frames() as u64);
        out.put_number(b" ", self.pool.copies() as u64);
        out.put(if self.pool.all_written() {
            b" all"
        } else {
            b" some"
        });
    }
}
