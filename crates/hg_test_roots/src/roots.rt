//! Roots, read and told in words.

ghost use Rattle.std.specs.Prelude.{◌<◌};

use crate::disks::disks_of;
use crate::threads::put_threads;
use hg_cells::KeptReport;
use hg_gate::{GateFault, Gated};
use hg_model::limits::GREATEST_SOURCE;
use hg_model::segment::{Mark, Segment};
use hg_root::{Newest, PageSlot, Root, RootFault, RootPair, SourceCount};
use hg_sets::SetTable;
use hg_test_kit::digits::bytes_of;
use hg_test_kit::shelf::disk_of;
use hg_test_kit::text::Text;
use std::alloc::Global;

/// Numbers behind this word, with commas between.
fn put_members(members: &[u16], out: &mut Text) {
    out.put(b" {");
    let mut comma = b"".as_slice();
    for member in members {
        out.put_number(comma, u64::from(*member));
        comma = b",".as_slice();
    }
    out.put(b"}");
}

/// A mark. Nothing for a plain one.
fn put_mark(mark: Mark, out: &mut Text) {
    match mark {
        Mark::Plain => {}
        Mark::Sent(message) => out.put_number(b",sent:", u64::from(message)),
        Mark::Got(message) => out.put_number(b",got:", u64::from(message)),
    }
}

fn put_segments(segments: &[Segment], out: &mut Text) {
    for segment in segments.iter() {
        out.put_number(b" ", u64::from(segment.thread));
        for before in segment.before.as_slice() {
            out.put_number(b",", u64::from(*before));
        }
        put_mark(segment.mark, out);
    }
}

fn put_sets(sets: &SetTable, out: &mut Text) {
    let count = sets.len();
    for i in 0..count {
        put_members(sets.members(i), out);
    }
}

fn put_reports(reports: &[KeptReport], out: &mut Text) {
    for report in reports.iter() {
        out.put_number(b" ", report.event);
        out.put_number(b",", report.word);
        out.put_number(b",", u64::from(report.thread));
        out.put(if report.write { b",write" } else { b",read" });
        out.put_number(b",", u64::from(report.threads));
    }
}

fn put_sources(sources: &[SourceCount], out: &mut Text) {
    for source in sources.iter() {
        out.put_number(b" ", u64::from(source.source));
        out.put_number(b",", source.last);
    }
}

/// The last number of each source that sent something, as the trace state has it.
fn put_last(root: &Root, out: &mut Text) {
    for source in 0..GREATEST_SOURCE + 1 {
        let last = root.state.last(source);
        if last > 0 {
            out.put_number(b" ", u64::from(source));
            out.put_number(b",", last);
        }
    }
}

fn put_pages(pages: &[PageSlot], out: &mut Text) {
    for page in pages.iter() {
        out.put_number(b" ", page.page);
        out.put_number(b",", u64::from(page.slot));
    }
}

/// A root, with all that it has.
fn put_root(root: &Root, out: &mut Text) {
    out.put_number(b"root ", root.number);
    out.put_number(b" events ", root.state.events());
    out.put_number(b" segments ", u64::from(root.state.segments()));
    put_segments(&root.segments, out);
    out.put(b" threads");
    put_threads(&root.state, &root.segments, out);
    out.put(b" sets");
    put_sets(&root.sets, out);
    out.put_number(b" reports ", root.total);
    put_reports(&root.reports, out);
    out.put(b" sources");
    put_sources(&root.sources, out);
    out.put(b" last");
    put_last(root, out);
    out.put(b" pages");
    put_pages(&root.pages, out);
}

/// The root that a body spells, or that it is damaged.
fn put_body(alloc: Global, body: &[u8], out: &mut Text) {
    match Root::decode(alloc, body) {
        Ok(root) => put_root(&root, out),
        Err(RootFault::Damaged) => out.put(b"damaged"),
        Err(_) => out.put(b"no memory"),
    }
}

/// Tells the root whose body these digits spell.
pub fn tell_root(alloc: Global, digits: &str, out: &mut Text) {
    match bytes_of(alloc, digits) {
        Some(body) => put_body(alloc, &body, out),
        None => out.put(b"no bytes"),
    }
}

/// Tells the root of a file with these bytes, or that it is closed.
pub fn tell_file(alloc: Global, digits: &str, out: &mut Text) {
    let Some(disk) = disk_of(alloc, digits) else {
        out.put(b"no bytes");
        return;
    };
    match Gated::attach(disk).read(alloc) {
        Ok(Some(body)) => put_body(alloc, &body, out),
        Ok(None) => out.put(b"closed"),
        Err(GateFault::Damaged) => out.put(b"damaged"),
        Err(_) => out.put(b"no memory"),
    }
}

/// Tells the newest root of two files with these bytes.
pub fn tell_newest(alloc: Global, digits: &str, out: &mut Text) {
    let Some((one, other)) = disks_of(alloc, digits) else {
        out.put(b"no bytes");
        return;
    };
    match RootPair::attach(one, other).newest(alloc) {
        Ok(Newest { root, former }) => {
            drop(former);
            match root {
                Some(root) => put_root(&root, out),
                None => out.put(b"closed"),
            }
        }
        Err(RootFault::Damaged) => out.put(b"damaged"),
        Err(_) => out.put(b"no memory"),
    }
}
