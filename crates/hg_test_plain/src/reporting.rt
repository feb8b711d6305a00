//! The reports of a trace, and the state of a word after it.

ghost use Rattle.std.specs.Prelude.{◌≡◌, ◌+◌, ◌^◌, ◌<◌, ◌≤◌, IfOk, reverse, length};
ghost use Rattle.std.specs.List.{range_with_len};
ghost use Rattle.hg_model.specs.Reporting as reporting;
ghost use Rattle.hg_model.specs.Reporting.{words_of};
ghost use Rattle.hg_test_plain.specs.Split.{InSpace};
ghost use Rattle.hg_test_plain.specs.Words.{reports_among, state_after};

use crate::history::history_of;
use crate::segments::segments_of;
use crate::sharing::{reported_item, state, threads_in};
use hg_model::event::{Access, Event};
use hg_model::report::Report;
use hg_model::word::WordState;
use std::alloc::{AllocError, Global};

/// Whether the last event's item is the reported item of a word.
fn is_reported(alloc: Global, trace: &[Event], word: u64) -> Result<bool, AllocError>
    requires { length trace.now < 2 ^ 20 }
    ensures { IfOk result (λ b. b ≡ reporting.is_reported trace.now word) }
{
    let segments = segments_of(alloc, trace)?;
    let items = history_of(alloc, word, trace)?;
    match reported_item(alloc, &segments, &items)? {
        Some(event) => Ok(event == trace.len() as u64),
        None => Ok(false),
    }
}

fn report(
    alloc: Global,
    trace: &[Event],
    thread: u16,
    write: bool,
    word: u64,
) -> Result<Report, AllocError>
    requires few { length trace.now < 2 ^ 20 }
    requires space { word < 2 ^ 62 }
    ensures { IfOk result (λ r. r ≡ reporting.report trace.now thread write word) }
{
    let segments = segments_of(alloc, trace)?;
    let items = history_of(alloc, word, trace)?;
    let threads = threads_in(state(alloc, &segments, &items)?, alloc);
    Ok(Report {
        event: trace.len() as u64,
        write,
        thread,
        word: 4 * word,
        threads,
    })
}

/// The reports of `count` words from the one numbered `start` on.
fn reports_from(
    alloc: Global,
    trace: &[Event],
    thread: u16,
    write: bool,
    start: u64,
    count: u64,
) -> Result<Vec<Report>, AllocError>
    requires few { length trace.now < 2 ^ 20 }
    requires space { start + count ≤ 2 ^ 62 }
    ensures { IfOk result (λ v. v.items ≡ reports_among trace.now thread write (range_with_len start count)) }
{
    if count == 0 {
        return Ok(Vec::new(alloc));
    }
    let mut reports = reports_from(alloc, trace, thread, write, start + 1, count - 1)?;
    if is_reported(alloc, trace, start)? {
        let first = report(alloc, trace, thread, write, start)?;
        reports.insert(0, first)?;
    }
    Ok(reports)
}

fn reports_of_access(
    alloc: Global,
    trace: &[Event],
    access: Access,
    write: bool,
) -> Result<Vec<Report>, AllocError>
    requires few { length trace.now < 2 ^ 20 }
    requires space { access.at + access.len ≤ 2 ^ 64 }
    ensures { IfOk result (λ v. v.items ≡ reports_among trace.now access.t write (words_of access.at access.len)) }
{
    let first = access.at / 4;
    let end = ((u128::from(access.at) + u128::from(access.len) + 3) / 4) as u64;
    reports_from(alloc, trace, access.t, write, first, end - first)
}

fn reports_at_last(alloc: Global, trace: &[Event]) -> Result<Vec<Report>, AllocError>
    requires few { length trace.now < 2 ^ 20 }
    requires space { InSpace trace.now }
    ensures { IfOk result (λ v. v.items ≡ reporting.reports_at_last trace.now) }
{
    let Some((event, _)) = trace.split_first() else {
        return Ok(Vec::new(alloc));
    };
    match *event {
        Event::Read(a) => reports_of_access(alloc, trace, a, false),
        Event::Write(a) => reports_of_access(alloc, trace, a, true),
        _ => Ok(Vec::new(alloc)),
    }
}

/// All reports of a trace that is given newest event first.
pub fn all_reports(alloc: Global, trace: &[Event]) -> Result<Vec<Report>, AllocError>
    requires few { length trace.now < 2 ^ 20 }
    requires space { InSpace trace.now }
    ensures { IfOk result (λ v. v.items ≡ reporting.all_reports trace.now) }
{
    let Some((_, earlier)) = trace.split_first() else {
        return Ok(Vec::new(alloc));
    };
    let mut reports = all_reports(alloc, earlier)?;
    let mut more = reports_at_last(alloc, trace)?;
    reports.append(&mut more)?;
    Ok(reports)
}

/// All reports of a trace that is given oldest event first.
pub fn reports_of(alloc: Global, events: &[Event]) -> Result<Vec<Report>, AllocError>
    requires few { length events.now < 2 ^ 20 }
    requires space { InSpace (reverse events.now) }
    ensures { IfOk result (λ v. v.items ≡ reporting.all_reports (reverse events.now)) }
{
    let trace = newest_first(alloc, events)?;
    all_reports(alloc, &trace)
}

/// The state of a word after a trace that is given oldest event first. Word w is the four bytes from the address 4 * w on.
pub fn state_of(alloc: Global, events: &[Event], word: u64) -> Result<WordState, AllocError>
    requires { length events.now < 2 ^ 20 }
    ensures { IfOk result (λ s. s ≡ state_after (reverse events.now) word) }
{
    let trace = newest_first(alloc, events)?;
    let segments = segments_of(alloc, &trace)?;
    let items = history_of(alloc, word, &trace)?;
    state(alloc, &segments, &items)
}

/// The events of a trace, the newest first, as the definitions read it.
fn newest_first(alloc: Global, events: &[Event]) -> Result<Vec<Event>, AllocError>
    ensures { IfOk result (λ v. v.items ≡ reverse events.now) }
{
    let mut trace = events.to_vec(alloc)?;
    trace.reverse();
    Ok(trace)
}
