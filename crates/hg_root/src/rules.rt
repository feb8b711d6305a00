//! The rules of a body's lists.
ghost use Rattle.std.specs.Prelude.{◌≡◌, ◌≢◌, ◌↔◌, ◌≤◌, ◌<◌, map, sum, IsTrue, Contains, All, AllPairs, IfOk};
ghost use Rattle.std.specs.List.Sorted.{IsStrictlyIncreasing};
ghost use Rattle.hg_root.specs.Lawful.{AreInOrder, HaveSent, HaveSlots, IsBefore, IsReport};

use crate::parts::{PageSlot, SourceCount};
use hg_cells::KeptReport;
use hg_model::limits::{GREATEST_SOURCE, GREATEST_THREAD};
use hg_pages::{MOST_PAGES, MOST_SLOTS};
use hg_sets::SetTable;
use std::alloc::{AllocError, Global};

/// Whether the members are threads of the profile, and this thread is one of them.
fn are_threads_with(members: &[u16], thread: u16) -> bool
    ensures { IsTrue result ↔ (Contains members.now thread × All (λ t. t ≤ GREATEST_THREAD) members.now) }
{
    let mut is_member = false;
    for member in members {
        if *member > GREATEST_THREAD {
            return false;
        }
        if *member == thread {
            is_member = true;
        }
    }
    is_member
}

/// Whether a report may be one of a trace with these events and sets.
fn is_report(report: &KeptReport, events: u64, sets: &SetTable) -> bool
    ensures { IsTrue result ↔ IsReport events sets.now.sets report.now }
{
    if report.event == 0 || report.event > events || report.word % 4 != 0 {
        return false;
    }
    report.threads < sets.len() && are_threads_with(sets.members(report.threads), report.thread)
}

/// Whether one report stands before another.
fn is_before(a: &KeptReport, b: &KeptReport) -> bool
    ensures { IsTrue result ↔ IsBefore a.now b.now }
{
    a.event < b.event || a.event == b.event && a.word < b.word
}

/// Whether each report may be one of a trace with these events and sets.
pub(crate) fn are_reports(reports: &[KeptReport], events: u64, sets: &SetTable) -> bool
    ensures { IsTrue result ↔ All (IsReport events sets.now.sets) reports.now }
{
    for report in reports {
        if !is_report(report, events, sets) {
            return false;
        }
    }
    true
}

/// Whether the reports rise by event, and in one event by word.
pub(crate) fn are_in_order(reports: &[KeptReport]) -> bool
    ensures { IsTrue result ↔ AreInOrder reports.now }
{
    for i in 1..reports.len() {
        if !is_before(&reports[i - 1], &reports[i]) {
            return false;
        }
    }
    true
}

/// Whether the sources rise.
fn sources_rise(sources: &[SourceCount]) -> bool
    ensures { IsTrue result ↔ IsStrictlyIncreasing (map (λ s. s.source) sources.now) }
{
    for i in 1..sources.len() {
        if sources[i - 1].source >= sources[i].source {
            return false;
        }
    }
    true
}

/// Whether each is a source of the profile that sent something.
fn each_sent(sources: &[SourceCount]) -> bool
    ensures { IsTrue result ↔ All (λ s. (s.source ≤ GREATEST_SOURCE) × (1 ≤ s.last)) sources.now }
{
    for source in sources {
        if source.source > GREATEST_SOURCE || source.last == 0 {
            return false;
        }
    }
    true
}

/// Whether the last numbers add up to the count of events.
fn add_up(sources: &[SourceCount], events: u64) -> bool
    ensures { IsTrue result ↔ (sum (map (λ s. s.last) sources.now) ≡ events) }
{
    let mut sent = 0;
    for source in sources {
        if source.last > events - sent {
            return false;
        }
        sent += source.last;
    }
    sent == events
}

/// Whether these are the sources of this many events.
pub(crate) fn are_sources(sources: &[SourceCount], events: u64) -> bool
    ensures { IsTrue result ↔ HaveSent events sources.now }
{
    sources_rise(sources) && each_sent(sources) && add_up(sources, events)
}

/// Whether the pages rise.
fn pages_rise(pages: &[PageSlot]) -> bool
    ensures { IsTrue result ↔ IsStrictlyIncreasing (map (λ p. p.page) pages.now) }
{
    for i in 1..pages.len() {
        if pages[i - 1].page >= pages[i].page {
            return false;
        }
    }
    true
}

/// Whether each page and each slot is one of the profile.
fn each_within(pages: &[PageSlot]) -> bool
    ensures { IsTrue result ↔ All (λ p. (p.page < MOST_PAGES) × (p.slot < MOST_SLOTS)) pages.now }
{
    for page in pages {
        if page.page >= MOST_PAGES || page.slot >= MOST_SLOTS {
            return false;
        }
    }
    true
}

/// Whether no two pages have the same slot; slots are below `most`. It takes a byte for each slot.
fn have_own_slots(alloc: Global, pages: &[PageSlot], most: u32) -> Result<bool, AllocError>
    requires { All (λ p. p.slot < most) pages.now }
    ensures { IfOk result (λ own. IsTrue own ↔ AllPairs ◌≢◌ (map (λ p. p.slot) pages.now)) }
{
    let mut taken = vec![in alloc; false; most as usize]?;
    for page in pages {
        let slot = page.slot as usize;
        if taken[slot] {
            return Ok(false);
        }
        taken[slot] = true;
    }
    Ok(true)
}

/// Whether these pages and slots are those of a page table.
pub(crate) fn are_pages(alloc: Global, pages: &[PageSlot]) -> Result<bool, AllocError>
    ensures { IfOk result (λ are. IsTrue are ↔ HaveSlots pages.now) }
{
    if !pages_rise(pages) || !each_within(pages) {
        return Ok(false);
    }
    have_own_slots(alloc, pages, MOST_SLOTS)
}
