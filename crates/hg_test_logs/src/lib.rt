//! Scenarios of logs, journals, pairs of journals and gated files over disks in memory (tests/scenarios).
#![tactic(auto)]

mod base;
mod gates;
mod journals;
mod logs;
mod pairs;

use crate::gates::GateBench;
use crate::journals::JournalBench;
use crate::logs::LogBench;
use crate::pairs::PairBench;
use hg_disk::Tear;
use hg_test_kit::run::{World, run_scenarios};
use hg_test_kit::shelf::Shelf;
use hg_test_kit::text::Text;
use hg_test_kit::tokens::{Halt, front};
use std::alloc::{AllocError, Global};

/// What there is in a scenario.
#[derive(Drop)]
struct Files {
    alloc: Global,
    shelf: Shelf,
    log: LogBench,
    journal: JournalBench,
    pair: PairBench,
    gated: GateBench,
}

impl Files {
    /// Five empty disks, and nothing open.
    fn new(alloc: Global) -> Files {
        Files {
            alloc,
            shelf: Shelf::new(alloc),
            log: LogBench::new(),
            journal: JournalBench::new(alloc),
            pair: PairBench::new(alloc),
            gated: GateBench::new(),
        }
    }

    /// Puts the disks of what is open back.
    fn close(&mut self) -> Result<(), AllocError> {
        self.log.close(&mut self.shelf)?;
        self.journal.close(&mut self.shelf)?;
        self.pair.close(&mut self.shelf)?;
        self.gated.close(&mut self.shelf)
    }

    /// Puts the disks of what is open back, with what is not synced torn.
    fn crash(&mut self, text: &str) -> Result<(), Halt> {
        self.shelf.tear_by(text)?;
        let closed = self.close();
        self.shelf.tear = Tear::Kept;
        Ok(closed?)
    }
}

impl World for Files {
    fn perform(&mut self, order: &str, out: &mut Text) -> Result<(), Halt> {
        let (token, rest) = front(order);
        let alloc = self.alloc;
        let shelf = &mut self.shelf;
        match token {
            "close" => Ok(self.close()?),
            "crash" => self.crash(rest),
            "tear" => shelf.tear_by(rest),
            "disk" => shelf.set(rest),
            "fail" => shelf.fail(rest),
            "bytes" | "length" | "calls" => shelf.tell(token, rest, out),
            "log" => self.log.perform(alloc, shelf, rest, out),
            "journal" => self.journal.perform(alloc, shelf, rest, out),
            "pair" => self.pair.perform(alloc, shelf, rest, out),
            "gated" => self.gated.perform(alloc, shelf, rest, out),
            _ => Err(Halt::Misspelt),
        }
    }

    fn clear(&mut self) {
        self.shelf.clear();
        self.log.clear();
        self.journal.clear();
        self.pair.clear();
        self.gated.clear();
    }
}

/// Runs the scenarios of a text, appends a line for each, and tells whether none failed.
pub fn run_logs(alloc: Global, text: &str, out: &mut Text) -> bool {
    let mut files = Files::new(alloc);
    run_scenarios(alloc, &mut files, text, out)
}
