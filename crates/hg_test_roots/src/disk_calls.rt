//! Calls of a disk in memory and of a file, and the images that a crash may leave of the former.

use crate::stops::{put_image, tears_of};
use hg_disk::{Disk, DiskFault, FileDisk, MemDisk, SystemFile, Tear};
use hg_test_kit::digits::bytes_of;
use hg_test_kit::shelf::disk_of;
use hg_test_kit::text::Text;
use hg_test_kit::tokens::front;
use std::alloc::Global;
use std::fs::OpenOptions;
use std::io;

// ---- calls

fn put_answer(answer: Result<(), DiskFault>, out: &mut Text) {
    match answer {
        Ok(()) => out.put(b" ok"),
        Err(DiskFault) => out.put(b" fault"),
    }
}

/// A number. A token that is none stands for the greatest, where no disk has a byte.
fn number(token: &str) -> u64 {
    token.parse::<u64>().unwrap_or(u64::MAX)
}

/// Writes the bytes that digits spell.
fn write<D: Disk>(alloc: Global, disk: &mut D, at: u64, digits: &str, out: &mut Text) {
    match bytes_of(alloc, digits) {
        Some(bytes) => put_answer(disk.write_at(at, &bytes), out),
        None => out.put(b" no bytes"),
    }
}

fn put_read(answer: Result<(), DiskFault>, bytes: &[u8], out: &mut Text) {
    match answer {
        Ok(()) => {
            out.put(b" ");
            out.put_hex(bytes);
        }
        Err(DiskFault) => out.put(b" fault"),
    }
}

/// Reads so many bytes from a place on, if there are so many.
fn read<D: Disk>(alloc: Global, disk: &mut D, at: u64, count: u64, out: &mut Text) {
    if disk.len() < at || disk.len() - at < count {
        out.put(b" outside");
        return;
    }
    match Vec::from_elem(alloc, 0, count as usize) {
        Ok(mut bytes) => put_read(disk.read_at(at, &mut bytes), &bytes, out),
        Err(_) => out.put(b" no memory"),
    }
}

/// Cuts a disk that is so long at least.
fn cut<D: Disk>(disk: &mut D, to: u64, out: &mut Text) {
    if to <= disk.len() {
        put_answer(disk.cut(to), out);
    } else {
        out.put(b" outside");
    }
}

/// Makes the call that a token names, `VERB:AT:REST`.
fn make<D: Disk>(alloc: Global, disk: &mut D, token: &str, out: &mut Text) {
    let (verb, rest) = token.split_once(':').unwrap_or((token, ""));
    let (at, rest) = rest.split_once(':').unwrap_or((rest, ""));
    match verb {
        "write" => write(alloc, disk, number(at), rest, out),
        "read" => read(alloc, disk, number(at), number(rest), out),
        "cut" => cut(disk, number(at), out),
        "sync" => put_answer(disk.sync(), out),
        _ => out.put(b" not understood"),
    }
}

/// Makes the calls that tokens name, and tells what each is answered.
fn make_all<D: Disk>(alloc: Global, disk: &mut D, tokens: &str, out: &mut Text) {
    for token in tokens.split(' ') {
        make(alloc, disk, token, out);
    }
}

// ---- disks in memory

/// What each tear leaves of a disk after so many calls.
fn put_moment(disk: &MemDisk, calls: usize, tears: &[Tear], out: &mut Text) {
    for tear in tears {
        out.put(b" ");
        put_image(disk, calls, *tear, out);
    }
}

/// What a disk reads, how many calls it had, and what each tear leaves of it at each moment.
fn put_disk(disk: &MemDisk, tears: &[Tear], out: &mut Text) {
    out.put(b" has ");
    out.put_hex(disk.bytes());
    out.put_number(b" calls ", disk.calls().len() as u64);
    out.put(b" images");
    for calls in 0..disk.calls().len() + 1 {
        put_moment(disk, calls, tears, out);
    }
}

fn put_left(alloc: Global, disk: &MemDisk, tears: &str, out: &mut Text) {
    match tears_of(alloc, tears) {
        Some(tears) => put_disk(disk, &tears, out),
        None => out.put(b" no tears"),
    }
}

/// Makes calls on a disk in memory with these bytes, none for `-`. At `fail` the call behind it fails.
pub fn tell_disk(alloc: Global, tokens: &str, out: &mut Text) {
    let (digits, rest) = front(tokens);
    let (tears, calls) = front(rest);
    out.put(b"disk");
    let Some(mut disk) = disk_of(alloc, if digits == "-" { "" } else { digits }) else {
        out.put(b" not understood");
        return;
    };
    for token in calls.split(' ') {
        if token == "fail" {
            disk.fail_next();
        } else {
            make(alloc, &mut disk, token, out);
        }
    }
    put_left(alloc, &disk, tears, out);
}

// ---- files

/// The file of that name, which is made where there is none.
fn open_file(rt: &HostRuntime, path: &str) -> io::Result<FileDisk> {
    let file = OpenOptions::new()
        .read(true)
        .write(true)
        .create(true)
        .open(rt, path)?;
    Ok(FileDisk::new(SystemFile::new(file)?))
}

/// Makes calls on the file of that name, and tells how long it is then. The name `-` is that of no file.
pub fn tell_file_disk(rt: &HostRuntime, tokens: &str, out: &mut Text) {
    let (path, calls) = front(tokens);
    out.put(b"file");
    if path == "-" {
        make_calls(rt.alloc(), FileDisk::new(SystemFile::missing()), calls, out);
        return;
    }
    match open_file(rt, path) {
        Ok(disk) => make_calls(rt.alloc(), disk, calls, out),
        Err(_) => out.put(b" no file"),
    }
}

fn make_calls(alloc: Global, disk: FileDisk, calls: &str, out: &mut Text) {
    let mut disk = disk;
    make_all(alloc, &mut disk, calls, out);
    out.put_number(b" length ", disk.len());
}
