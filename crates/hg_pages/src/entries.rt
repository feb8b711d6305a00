//! Entries by rising page, found by binary search.
ghost use Rattle.std.specs.Prelude.{◌≡◌, ◌<◌, ◌≤◌, Some, None, length, take, drop, IsOk, OnErr, IfOk, MatchResult, IsTrue, is_some};
ghost use Rattle.std.specs.List.{AllByRecursion};
ghost use Rattle.hg_pages.specs.Marks.{ArePagesRising, BelongsAt, Puts, StandsAt};
ghost use Rattle.hg_pages.specs.Tables.{slot_in};

use crate::gap_buffer::GapBuffer;
use std::alloc::AllocError;

// The place of the page, or else the place where it belongs.
fn place_of(entries: &GapBuffer, page: u64) -> Result<usize, usize>
    requires { ArePagesRising entries.now.items }
    ensures { MatchResult result (StandsAt page entries.now.items) (BelongsAt page entries.now.items) }
{
    let place = count_below(entries, page);
    if place < entries.len() && entries.at(place).0 == page {
        Ok(place)
    } else {
        Err(place)
    }
}

// How many pages come before this one.
fn count_below(entries: &GapBuffer, page: u64) -> usize
    requires { ArePagesRising entries.now.items }
    ensures within { result ≤ length entries.now.items }
    ensures below { AllByRecursion (λ e. e.0 < page) (take result entries.now.items) }
    ensures behind { AllByRecursion (λ e. page ≤ e.0) (drop result entries.now.items) }
{
    let mut low = 0;
    let mut high = entries.len();
    while low < high {
        let middle = low + (high - low) / 2;
        if entries.at(middle).0 < page {
            low = middle + 1;
        } else {
            high = middle;
        }
    }
    low
}

/// The slot of a page.
pub(crate) fn find(entries: &GapBuffer, page: u64) -> Option<u32>
    requires { ArePagesRising entries.now.items }
    ensures { result ≡ slot_in entries.now.items page }
{
    match place_of(entries, page) {
        Ok(place) => Some(entries.at(place).1),
        Err(_) => None,
    }
}

/// Gives a page a slot, and answers the one that it had.
pub(crate) fn put(entries: &mut GapBuffer, page: u64, slot: u32) -> Result<Option<u32>, AllocError>
    requires { ArePagesRising entries.old.items }
    ensures ok { IfOk result (λ former. Puts page former (Some slot) entries.old.items entries.new.items) }
    ensures err { OnErr result (entries.new.items ≡ entries.old.items) }
    ensures adds { length entries.old.items < entries.old.capacity → IsOk result }
    ensures replaces { IsTrue (is_some (slot_in entries.old.items page)) → IsOk result }
    ensures capacity { entries.old.capacity ≤ entries.new.capacity }
{
    match place_of(entries, page) {
        Ok(place) => {
            let former = entries.at(place).1;
            entries.set(place, (page, slot));
            Ok(Some(former))
        }
        Err(place) => {
            entries.insert(place, (page, slot))?;
            Ok(None)
        }
    }
}

/// Takes a page out, and answers the slot that it had.
pub(crate) fn take_out(entries: &mut GapBuffer, page: u64) -> Option<u32>
    requires { ArePagesRising entries.old.items }
    ensures taken { Puts page result None entries.old.items entries.new.items }
    ensures capacity { entries.new.capacity ≡ entries.old.capacity }
{
    match place_of(entries, page) {
        Ok(place) => Some(entries.remove(place).1),
        Err(_) => None,
    }
}
