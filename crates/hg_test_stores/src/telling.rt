//! What a store tells of itself, as lines.

use crate::actions::phase_name;
use crate::memory_store::OpenStore;
use hg_model::segment::Segment;
use hg_model::verdict::Refusal;
use hg_test_kit::answers::{put_refusal, put_report};
use hg_test_kit::events::put_named;
use hg_test_kit::text::Text;
use hg_test_kit::tokens::{Halt, Tokens};
use hg_wire::lines::put_segment_line;
use std::alloc::Global;

/// The line of the k-th segment.
fn put_segment(k: u64, segment: &Segment, out: &mut Text) {
    if put_segment_line(k, segment, out.bytes_mut()).is_err() {
        out.note_missing();
    }
}

/// A text and a number, or in their place why there is none.
fn put_total(text: &[u8], told: Result<u64, Refusal>, out: &mut Text) {
    match told {
        Ok(total) => out.put_number(text, total),
        Err(refusal) => put_refusal(refusal, out),
    }
}

fn put_phase(store: &OpenStore, out: &mut Text) {
    match store.phase() {
        Ok(phase) => {
            out.put(b"phase ");
            out.put(phase_name(phase));
        }
        Err(refusal) => put_refusal(refusal, out),
    }
}

fn put_last(store: &OpenStore, source: u16, out: &mut Text) {
    match store.last(source) {
        Ok(last) => {
            out.put_number(b"last ", u64::from(source));
            out.put_number(b" ", last);
        }
        Err(refusal) => put_refusal(refusal, out),
    }
}

/// The line of the k-th race, from 1 on.
fn put_race(alloc: Global, store: &OpenStore, k: u64, out: &mut Text) -> Result<(), Refusal> {
    match store.reports(alloc)?.get(k.saturating_sub(1) as usize) {
        Some(report) => put_report(k, report, out),
        None => out.put(b"no such race"),
    }
    Ok(())
}

/// The line of a segment, from 0 on.
fn tell_segment(store: &OpenStore, k: u64, out: &mut Text) -> Result<(), Refusal> {
    match store.graph()?.get(k as usize) {
        Some(segment) => put_segment(k, segment, out),
        None => out.put(b"no such segment"),
    }
    Ok(())
}

fn segments_in(store: &OpenStore) -> Result<u64, Refusal> {
    Ok(store.graph()?.len() as u64)
}

/// The line that begins with these tokens.
pub fn put_answer(
    alloc: Global,
    store: &OpenStore,
    line: &str,
    out: &mut Text,
) -> Result<(), Halt> {
    let mut tokens = Tokens::of(line);
    match tokens.token() {
        "events" => put_total(b"events ", store.events(), out),
        "durable" => put_total(b"durable ", store.durable(), out),
        "kept" => put_total(b"kept from ", store.first_kept(), out),
        "races" => put_total(b"races ", store.total(), out),
        "segments" => put_total(b"segments ", segments_in(store), out),
        "phase" => put_phase(store, out),
        "last" => put_last(store, tokens.short_number(), out),
        "race" => put_race(alloc, store, tokens.number(), out)?,
        "segment" => tell_segment(store, tokens.number(), out)?,
        _ => tokens.fail(),
    }
    tokens.check()
}

/// `FROM MAX`: that many of the durable events from there on.
pub fn put_durable(
    alloc: Global,
    store: &mut OpenStore,
    text: &str,
    out: &mut Text,
) -> Result<(), Halt> {
    let mut tokens = Tokens::of(text);
    let from = tokens.number();
    let max = tokens.short_number();
    tokens.check()?;
    let events = store.durable_events(alloc, from, usize::from(max))?;
    out.put_decimal(events.len() as u64);
    for named in events.iter() {
        out.put(b", ");
        put_named(named, out);
    }
    Ok(())
}

fn put_lasts(store: &OpenStore, out: &mut Text) {
    for source in 0..8 {
        put_total(b" ", store.last(source), out);
    }
}

fn put_races(alloc: Global, store: &OpenStore, out: &mut Text) -> Result<(), Refusal> {
    for report in store.reports(alloc)?.iter() {
        put_report(0, report, out);
    }
    Ok(())
}

fn put_segments(store: &OpenStore, out: &mut Text) {
    for segment in store.graph().unwrap_or(&[]) {
        put_segment(0, segment, out);
    }
}

/// Appends what a store that is not broken tells of its events, with the last numbers of the sources 0 to 7.
pub fn put_contents(alloc: Global, store: &OpenStore, out: &mut Text) -> Result<(), Refusal> {
    put_total(b"", store.events(), out);
    put_total(b" ", store.durable(), out);
    put_total(b" ", store.total(), out);
    put_lasts(store, out);
    put_segments(store, out);
    put_races(alloc, store, out)
}
