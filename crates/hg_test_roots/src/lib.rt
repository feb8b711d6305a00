//! Reads roots and page slots, writes and stops their files, and makes calls on disks, as the lines of a text say, and tells what it
//! found: a line for each line.
#![tactic(auto)]

mod again;
mod disk_calls;
mod disks;
mod roots;
mod slots;
mod stops;
mod threads;

use crate::again::tell_again;
use crate::disk_calls::{tell_disk, tell_file_disk};
use crate::roots::{tell_file, tell_newest, tell_root};
use crate::slots::tell_slot;
use crate::stops::{tell_pair, tell_slots, tell_stopped};
use hg_test_kit::text::Text;
use hg_test_kit::tokens::front;

/// Answers one line.
fn answer(rt: &HostRuntime, line: &str, out: &mut Text) {
    let alloc = rt.alloc();
    let (token, rest) = front(line);
    match token {
        "root" => tell_root(alloc, rest, out),
        "again" => tell_again(alloc, rest, out),
        "file" => tell_file(alloc, rest, out),
        "newest" => tell_newest(alloc, rest, out),
        "slot" => tell_slot(alloc, rest, out),
        "slots" => tell_slots(alloc, rest, out),
        "pair" => tell_pair(alloc, rest, out),
        "disk" => tell_disk(alloc, rest, out),
        "file-disk" => tell_file_disk(rt, rest, out),
        "stopped" => tell_stopped(alloc, rest, out),
        _ => out.put(b"not understood"),
    }
    out.put(b"\n");
}

/// Appends an answer for each line of a text.
pub fn answer_roots(rt: &HostRuntime, text: &str, out: &mut Text) {
    for line in text.lines() {
        answer(rt, line, out);
    }
}
