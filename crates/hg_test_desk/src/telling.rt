//! What a store and its devices have, in words.

use hg_desk::shared::Tally;
use hg_disk::MemDisk;
use hg_store::devices::{Devices, SLOT_LEN};
use hg_store::steps::StorePhase;
use hg_store::store::Store;
use hg_test_kit::answers::put_report;
use hg_test_kit::text::Text;
use std::alloc::Global;

/// The gate of a root that is open.
const OPEN: u8 = 0xA5;

/// Where the number of the checkpoint begins in the file of a root.
const CHECKPOINT: usize = 17;

/// Where the count of its events begins, and where it ends.
const EVENTS: usize = 25;

const EVENTS_END: usize = 33;

/// How many bytes of a page are told: its number and its first word.
const FIRST_WORD_END: usize = 20;

/// The name of a phase.
pub fn phase_name(phase: StorePhase) -> &'static str {
    match phase {
        StorePhase::Idle => "idle",
        StorePhase::Pending => "pending",
        StorePhase::Flushing => "flushing",
        StorePhase::Sealed => "sealed",
        StorePhase::Prepared => "prepared",
        StorePhase::Written => "written",
    }
}

/// The number that bytes spell, the greatest first.
fn number_of(bytes: &[u8]) -> u64 {
    let mut number: u64 = 0;
    for byte in bytes {
        number = number.wrapping_mul(256).wrapping_add(u64::from(*byte));
    }
    number
}

/// The gate of a root, and where it is open the number of its checkpoint and how many events it has.
fn put_root(name: &[u8], bytes: &[u8], out: &mut Text) {
    out.put(name);
    let Some(gate) = bytes.first() else {
        out.put(b"empty\n");
        return;
    };
    out.put_hex(&[*gate]);
    if *gate == OPEN && bytes.len() >= EVENTS_END {
        out.put_number(b" checkpoint ", number_of(&bytes[CHECKPOINT..EVENTS]));
        out.put_number(b" events ", number_of(&bytes[EVENTS..EVENTS_END]));
    }
    out.put(b"\n");
}

/// How many zeros come first.
fn zeros_of(bytes: &[u8]) -> u64 {
    let mut count: u64 = 0;
    for byte in bytes {
        if *byte != 0 {
            break;
        }
        count = count.wrapping_add(1);
    }
    count
}

/// How long the file of page slots is, and what the first slot has.
fn put_slots(bytes: &[u8], out: &mut Text) {
    out.put_number(b"pages ", bytes.len() as u64);
    out.put(b" bytes");
    if bytes.len() >= SLOT_LEN {
        out.put(b", slot 0 ");
        out.put_hex(&bytes[..FIRST_WORD_END]);
        out.put_number(b" and ", zeros_of(&bytes[FIRST_WORD_END..SLOT_LEN]));
        out.put(b" zeros");
    }
    out.put(b"\n");
}

fn put_devices(devices: &Devices<MemDisk>, out: &mut Text) {
    put_root(b"root0 ", devices.root0.bytes(), out);
    put_root(b"root1 ", devices.root1.bytes(), out);
    put_slots(devices.slots.bytes(), out);
}

fn put_reports(alloc: Global, store: &Store<MemDisk>, out: &mut Text) {
    let Ok(reports) = store.reports(alloc) else {
        out.put(b"no reports\n");
        return;
    };
    let mut number: u64 = 0;
    for report in reports.iter() {
        number = number.wrapping_add(1);
        put_report(number, report, out);
        out.put(b"\n");
    }
}

/// Tells what a store has, and its devices.
pub fn put_store(alloc: Global, store: Store<MemDisk>, out: &mut Text) {
    out.put_number(b"events ", store.events().unwrap_or(0));
    out.put_number(b" durable ", store.durable().unwrap_or(0));
    out.put_number(b" reports ", store.total().unwrap_or(0));
    if let Ok(phase) = store.phase() {
        out.put(b" phase ");
        out.put(phase_name(phase).as_bytes());
    }
    out.put(b"\n");
    put_reports(alloc, &store, out);
    put_devices(&store.into_devices(), out);
}

fn put_pair(words: &[u8], told: u128, book: u128, out: &mut Text) {
    out.put_number(words, u64::try_from(told).unwrap_or(u64::MAX));
    out.put_number(b" of ", u64::try_from(book).unwrap_or(u64::MAX));
}

/// Tells what shares were told of what stands in the books.
pub fn put_tally(tally: &Tally, out: &mut Text) {
    put_pair(b"told ", tally.accepted_told, tally.accepted_book, out);
    put_pair(b" accepted, ", tally.durable_told, tally.durable_book, out);
    out.put(b" durable\n");
}
