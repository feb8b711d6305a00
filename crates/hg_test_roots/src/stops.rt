//! Files of slots and root files that are written and stopped, and the images that a crash may leave of them.

ghost use Rattle.std.specs.Prelude.{◌<◌};

use crate::disks::disks_of;
use hg_disk::{FuseDisk, MemDisk, Tear};
use hg_pages::{EncodedPage, SLOT_LEN, SlotFile, WriteFault};
use hg_root::{RootFault, RootPair};
use hg_test_kit::digits::bytes_of;
use hg_test_kit::tears::tear_of;
use hg_test_kit::text::Text;
use hg_test_kit::tokens::front;
use std::alloc::Global;

/// The tears that stand with commas between.
pub fn tears_of(alloc: Global, tokens: &str) -> Option<Vec<Tear>> {
    let mut tears = Vec::new(alloc);
    for token in tokens.split(',') {
        tears.push(tear_of(token)?).ok()?;
    }
    Some(tears)
}

/// What a crash with this tear leaves of a disk after so many of its calls.
pub fn put_image(disk: &MemDisk, calls: usize, tear: Tear, out: &mut Text) {
    if calls > disk.calls().len() {
        return;
    }
    match disk.image(calls, tear) {
        Ok(image) => out.put_hex(&image),
        Err(_) => out.put(b"no memory"),
    }
}

// ---- slots

fn put_slot_answer(answer: Result<(), WriteFault>, out: &mut Text) {
    match answer {
        Ok(()) => out.put(b" ok"),
        Err(WriteFault::DeviceFault) => out.put(b" fault"),
        Err(WriteFault::Broken) => out.put(b" refused"),
    }
}

/// Writes to a slot what a token like `2:00ff` says.
fn write_slot(alloc: Global, file: &mut SlotFile<MemDisk>, token: &str, out: &mut Text) {
    let Some((slot, digits)) = token.split_once(':') else {
        return;
    };
    let Ok(slot) = slot.parse::<u32>() else {
        return;
    };
    let Some(bytes) = bytes_of(alloc, digits) else {
        return;
    };
    if bytes.len() == SLOT_LEN {
        let page = EncodedPage::of(0, bytes);
        put_slot_answer(file.write(slot, &page), out);
    }
}

/// Does what a token says: `seal`, or a write. Behind a `!` its device call fails.
fn perform(alloc: Global, disk: MemDisk, token: &str, out: &mut Text) -> MemDisk {
    let mut disk = disk;
    let mut rest = token;
    if let Some(behind) = token.strip_prefix("!") {
        disk.fail_next();
        rest = behind;
    }
    let mut file = SlotFile::attach(disk);
    if rest == "seal" {
        put_slot_answer(file.seal(), out);
    } else {
        write_slot(alloc, &mut file, rest, out);
    }
    file.into_disks()
}

/// The images after each call from this one on.
fn put_images(disk: &MemDisk, from: usize, tears: &[Tear], out: &mut Text) {
    for calls in from..disk.calls().len() {
        for tear in tears {
            out.put(b" ");
            put_image(disk, calls + 1, *tear, out);
        }
    }
}

/// Performs steps on a file of slots, and tells after each what was answered and the images that a crash may leave.
pub fn tell_slots(alloc: Global, tokens: &str, out: &mut Text) {
    let (tears, steps) = front(tokens);
    let Some(tears) = tears_of(alloc, tears) else {
        out.put(b"no tears");
        return;
    };
    out.put(b"slots");
    let mut disk = MemDisk::new(alloc);
    for step in steps.split(' ') {
        let from = disk.calls().len();
        disk = perform(alloc, disk, step, out);
        put_images(&disk, from, &tears, out);
    }
}

// ---- roots

/// For each file the first call that is refused; all later ones are refused too.
#[derive(Clone, Copy)]
struct Stops {
    one: u64,
    other: u64,
}

/// Two root files on disks in memory.
struct Files {
    pair: RootPair<FuseDisk<MemDisk>>,
    is_new: bool,
}

impl Drop for Files {
    fn drop(self) {
        let Files { pair, is_new: _ } = self;
        drop(pair);
    }
}

/// The disks of the two files.
struct Disks {
    one: MemDisk,
    other: MemDisk,
}

impl Drop for Disks {
    fn drop(self) {
        let Disks { one, other } = self;
        drop(one);
        drop(other);
    }
}

/// A disk that stops at a call.
fn stopping(disk: MemDisk, stop: u64) -> Option<FuseDisk<MemDisk>> {
    if stop == 0 {
        return None;
    }
    Some(FuseDisk::stop(disk, stop))
}

fn put_root_answer(answer: Result<(), RootFault>, out: &mut Text) {
    match answer {
        Ok(()) => out.put(b" ok"),
        Err(RootFault::DeviceFault) => out.put(b" fault"),
        Err(_) => out.put(b" refused"),
    }
}

impl Files {
    /// Two files with the bytes that digits spell, or of a new store.
    fn of(alloc: Global, digits: &str, stops: Stops) -> Option<Files> {
        let is_new = digits == "new";
        let (one, other) = disks_of(alloc, if is_new { "5a,5a" } else { digits })?;
        let one = stopping(one, stops.one)?;
        let other = stopping(other, stops.other)?;
        let pair = if is_new {
            RootPair::of_closed(one, other)
        } else {
            RootPair::attach(one, other)
        };
        Some(Files { pair, is_new })
    }

    /// Looks for the newest root, unless the files are those of a new store. Tells whether roots can be replaced.
    fn recover(&mut self, alloc: Global, out: &mut Text) -> bool {
        if self.is_new {
            return true;
        }
        match self.pair.newest(alloc) {
            Ok(_) => {
                out.put(b" ok");
                true
            }
            Err(fault) => {
                put_root_answer(Err(fault), out);
                false
            }
        }
    }

    fn open_gate(&mut self) -> Result<(), RootFault> {
        self.pair.open_gate()?;
        self.pair.take_turns();
        Ok(())
    }

    /// The first steps of a root's replacement: closing the older file, writing the body, and opening the gate.
    fn replace(&mut self, body: &[u8], steps: usize, out: &mut Text) {
        if steps > 0 {
            put_root_answer(self.pair.prepare(), out);
        }
        if steps > 1 {
            put_root_answer(self.pair.write(body), out);
        }
        if steps > 2 {
            put_root_answer(self.open_gate(), out);
        }
    }

    fn into_disks(self) -> Disks {
        let Files { pair, is_new: _ } = self;
        let (one, other) = pair.into_disks();
        Disks {
            one: one.into_inner(),
            other: other.into_inner(),
        }
    }
}

/// What is replaced: the bytes of both files, and the bodies of the roots that come one after the other.
struct Replacements<'a> {
    files: &'a str,
    bodies: Vec<Vec<u8>>,
}

impl Drop for Replacements<'_> {
    fn drop(self) {
        let Replacements { files: _, bodies } = self;
        drop(bodies);
    }
}

/// The disks after the first steps of the replacements, three steps for each body.
fn disks_after(
    alloc: Global,
    replacements: &Replacements<'_>,
    steps: usize,
    stops: Stops,
    out: &mut Text,
) -> Option<Disks> {
    let mut files = Files::of(alloc, replacements.files, stops)?;
    if files.recover(alloc, out) {
        let mut left = steps;
        for body in replacements.bodies.iter() {
            files.replace(body.as_slice(), left, out);
            left = left.saturating_sub(3);
        }
    }
    Some(files.into_disks())
}

/// The images of both disks after so many calls of each.
fn put_both(disks: &Disks, one: usize, other: usize, tears: &[Tear], out: &mut Text) {
    for tear in tears {
        out.put(b" ");
        put_image(&disks.one, one, *tear, out);
        out.put(b",");
        put_image(&disks.other, other, *tear, out);
    }
}

/// The images at each moment of a step, from what the disks were before it.
fn put_step(before: &Disks, disks: &Disks, tears: &[Tear], out: &mut Text) {
    for one in before.one.calls().len()..disks.one.calls().len() + 1 {
        for other in before.other.calls().len()..disks.other.calls().len() + 1 {
            put_both(disks, one, other, tears, out);
        }
    }
}

/// The files and the bodies that tokens spell.
fn replacements_of<'a>(alloc: Global, tokens: &'a str) -> Option<Replacements<'a>> {
    let (files, rest) = front(tokens);
    let mut bodies = Vec::new(alloc);
    for token in rest.split(' ') {
        bodies.push(bytes_of(alloc, token)?).ok()?;
    }
    Some(Replacements { files, bodies })
}

fn put_steps(
    alloc: Global,
    replacements: &Replacements<'_>,
    tears: &[Tear],
    out: &mut Text,
) -> Option<()> {
    let stops = Stops {
        one: u64::MAX,
        other: u64::MAX,
    };
    let mut said = Text::new(alloc);
    for step in 0..replacements.bodies.len() {
        for part in 0..3 {
            let steps = step.checked_mul(3)?.checked_add(part)?;
            let before = disks_after(alloc, replacements, steps, stops, &mut said)?;
            let disks = disks_after(alloc, replacements, steps.checked_add(1)?, stops, &mut said)?;
            out.put_number(b" step ", steps as u64);
            put_step(&before, &disks, tears, out);
        }
    }
    Some(())
}

/// Replaces roots, and tells the images of both files at each moment of each step.
pub fn tell_pair(alloc: Global, tokens: &str, out: &mut Text) {
    let (tears, rest) = front(tokens);
    out.put(b"pair");
    let Some(tears) = tears_of(alloc, tears) else {
        return;
    };
    let Some(replacements) = replacements_of(alloc, rest) else {
        return;
    };
    if put_steps(alloc, &replacements, &tears, out).is_none() {
        out.put(b" not understood");
    }
}

fn put_stopped(alloc: Global, tokens: &str, out: &mut Text) -> Option<()> {
    let (one, rest) = front(tokens);
    let (other, rest) = front(rest);
    let (tears, rest) = front(rest);
    let stops = Stops {
        one: one.parse::<u64>().ok()?,
        other: other.parse::<u64>().ok()?,
    };
    let tears = tears_of(alloc, tears)?;
    let replacements = replacements_of(alloc, rest)?;
    let disks = disks_after(alloc, &replacements, usize::MAX, stops, out)?;
    let (one, other) = (disks.one.calls().len(), disks.other.calls().len());
    out.put_number(b" calls ", one as u64);
    out.put_number(b" ", other as u64);
    put_both(&disks, one, other, &tears, out);
    Some(())
}

/// Replaces roots on disks that stop at a call each, and tells what was answered, and what a crash may leave then.
pub fn tell_stopped(alloc: Global, tokens: &str, out: &mut Text) {
    out.put(b"stopped");
    if put_stopped(alloc, tokens, out).is_none() {
        out.put(b" not understood");
    }
}
