//! What a fault means, in words.

use crate::past::Past;
use crate::quoting::put_number;
use hg_disk::Disk;
use hg_journals::JournalPair;
use hg_model::verdict::Refusal;
use hg_pages::MOST_SLOTS;
use hg_saved::SavedHead;
use hg_sets::MOST_SETS;
use std::alloc::{AllocError, Global};
use std::fmt::Write;
use std::io;
use std::string::String;

/// A stream or a file that a command uses, and what the system said where a call of it failed.
#[derive(Clone, Copy)]
pub struct Source<'a> {
    pub name: &'a str,
    pub error: Option<io::Error>,
}

/// Appends which stream or file failed, and why.
fn put_failure(sources: &[Source<'_>], text: &mut String) -> Result<(), AllocError> {
    for source in sources {
        if let Some(error) = source.error {
            let name = source.name;
            return write!(text, "{name}: {error}");
        }
    }
    text.push_str("a stream or a file that is not known")
}

/// Appends that the events of a store need too many sets.
fn put_full_table(text: &mut String) -> Result<(), AllocError> {
    let front = "the store: its events need more than ";
    put_number(
        front,
        u64::from(MOST_SETS),
        " sets of threads and of locks",
        text,
    )
}

/// Appends that the pages of a store need too many slots.
fn put_full_slots(text: &mut String) -> Result<(), AllocError> {
    let front = "the store: its pages need more than ";
    put_number(front, u64::from(MOST_SLOTS), " slots", text)
}

/// Appends what caused a fault with this code.
pub fn put_fault(code: u64, sources: &[Source<'_>], text: &mut String) -> Result<(), AllocError> {
    match code {
        11 => text.push_str("the store: its files are not a store's"),
        19 => put_full_table(text),
        20 => put_full_slots(text),
        21 => put_failure(sources, text),
        22 => text.push_str("memory: a growth was refused"),
        _ => text.push_str("a cause that is not known"),
    }
}

/// The device that is not a store's, and why, where the devices together have no content.
pub fn damage<D: Disk + Drop>(
    alloc: Global,
    journal0: D,
    journal1: D,
    root0: D,
    root1: D,
) -> &'static str {
    if root0.len() == 0 {
        return "root0: it is missing, or has no byte";
    }
    if root1.len() == 0 {
        return "root1: it is missing, or has no byte";
    }
    if journal0.len() == 0 {
        return "journal0: it is missing, or has no byte";
    }
    if journal1.len() == 0 {
        return "journal1: it is missing, or has no byte";
    }
    match JournalPair::attach(alloc, journal0, journal1) {
        Ok(_) => { "journal0, journal1, pages, root0 and root1: what they hold is no store's" }
        Err(_) => "journal0 and journal1: what they hold are no journals that go together",
    }
}

/// Takes over what a checkpoint says, where it counts the events up to the last one that was followed. Answers whether there was room for it.
fn take_head(past: &mut Past, head: Option<&SavedHead>) -> bool {
    match head {
        Some(head) if head.events == past.last() => past.save(head),
        _ => true,
    }
}

/// What the events of a store left: those that its journals keep, and those before, as far as its newest checkpoint says it.
pub fn kept_past<D: Disk + Drop>(
    alloc: Global,
    journal0: D,
    journal1: D,
    head: Option<&SavedHead>,
) -> Result<Past, Refusal> {
    let mut pair = match JournalPair::attach(alloc, journal0, journal1) {
        Ok(pair) => pair,
        Err((refusal, ..)) => return Err(refusal),
    };
    let mut past = Past::behind(alloc, pair.first_kept() - 1)?;
    let mut reader = pair.events()?;
    for _ in 0..u64::MAX {
        if !take_head(&mut past, head) {
            return Err(Refusal::OutOfMemory);
        }
        let Some(named) = pair.next(&mut reader)? else {
            return Ok(past);
        };
        if !past.follow(named.event) {
            return Err(Refusal::OutOfMemory);
        }
    }
    Ok(past)
}
