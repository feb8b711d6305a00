//! What a line says of a new pool: its disk, which calls fail, its table, its frames and its slots.

ghost use Rattle.std.specs.Prelude.{◌<◌, ◌^◌, IfSome, IsTrue};
ghost use Rattle.hg_pool.specs.Tables.{AreBelow};

use crate::disk::{Failures, TrialDisk};
use hg_pages::{MOST_PAGES, MOST_SLOTS, SlotFile, Table};
use hg_pool::Pool;
use hg_test_kit::shelf::disk_of;
use hg_test_kit::tokens::front;
use std::alloc::Global;

/// The number of a page.
pub fn page_of(token: &str) -> Option<u64>
    ensures { IfSome result (λ page. page < 2 ^ 54) }
{
    let page = token.parse::<u64>().ok()?;
    if page < MOST_PAGES { Some(page) } else { None }
}

// Whether a pool of so many slots may have the table.
fn is_below(table: &Table, slots: u32) -> bool
    ensures { IsTrue result → AreBelow slots table.now.entries }
{
    for i in 0..table.len() {
        let entry = table.at(i);
        if entry.0 >= MOST_PAGES || entry.1 >= slots {
            return false;
        }
    }
    true
}

// Gives a page the slot that a token like `4:2` names, where no page has the slot.
fn add_entry(table: &mut Table, token: &str) -> Option<()> {
    let (page, slot) = token.split_once(':')?;
    let page = page_of(page)?;
    let slot = slot.parse::<u32>().ok()?;
    if table.names(slot) || slot >= MOST_SLOTS {
        return None;
    }
    table.set(page, slot).ok()
}

/// The table that tokens with commas between name, or an empty one for `-`.
fn table_of(alloc: Global, tokens: &str) -> Option<Table> {
    let mut table = Table::new(alloc);
    if tokens != "-" {
        for token in tokens.split(',') {
            add_entry(&mut table, token)?;
        }
    }
    Some(table)
}

/// The calls that a list with commas says, or none for `-`. A number with `..` behind it stands for all calls from it on.
fn failures_of(alloc: Global, tokens: &str) -> Option<Failures> {
    let mut failures = Failures {
        each: Vec::new(alloc),
        from: u64::MAX,
    };
    if tokens != "-" {
        for token in tokens.split(',') {
            match token.strip_suffix("..") {
                Some(from) => failures.from = from.parse::<u64>().ok()?,
                None => failures.each.push(token.parse::<u64>().ok()?).ok()?,
            }
        }
    }
    Some(failures)
}

// A disk that fails as tokens say, which begin with the failures; and the table behind them.
fn parts_of(alloc: Global, tokens: &str) -> Option<(TrialDisk, Table)> {
    let (failures, rest) = front(tokens);
    let (table, digits) = front(rest);
    let table = table_of(alloc, table)?;
    let failures = failures_of(alloc, failures)?;
    let disk = disk_of(alloc, if digits == "-" { "" } else { digits })?;
    Some((TrialDisk::new(disk, failures), table))
}

/// The pool that a line says: frames, slots, the calls that fail, the table of the root, and the bytes of the disk.
pub fn pool_of(alloc: Global, tokens: &str) -> Option<Pool<TrialDisk>> {
    let (frames, rest) = front(tokens);
    let (slots, rest) = front(rest);
    let frames = frames.parse::<usize>().ok()?;
    let slots = slots.parse::<u32>().ok()?;
    if frames > 4096 || slots > MOST_SLOTS {
        return None;
    }
    let (disk, table) = parts_of(alloc, rest)?;
    if !is_below(&table, slots) {
        return None;
    }
    Pool::new(alloc, SlotFile::attach(disk), table, frames, slots).ok()
}
