//! What is written in a look: slots in a scratch file of their own, in front of a file that is only read.
ghost use Rattle.std.specs.Prelude.{◌≡◌, ◌+◌, ◌≤◌, ◌<◌, ◌^◌, length};
ghost use Rattle.hg_pages.specs.declared.slot_file.TheConstants.{MOST_SLOTS};

use hg_disk::{Disk, FileDisk};
use hg_store::devices::{MOST_SLOTS, SLOT_LEN};
use std::alloc::{AllocError, Global};
use std::fs::{File, OpenOptions};
use std::io::ErrorKind;
use std::os::fd::AsRawFd;
use std::os::unix::fs::{FileExt, OpenOptionsExt};
use std::random::RandomSource;
use std::string::String;
use std::{env, fs, io};

/// The length of a slot, in bytes.
const SLOT_BYTES: u64 = SLOT_LEN as u64;

/// How many slots have their marks in one number.
const MARKS: u64 = 64;

/// How many numbers have the marks of all slots.
const MARK_NUMBERS: usize = MOST_SLOTS as usize / MARKS as usize;

/// Which slots stand in a scratch file: a bit for each.
#[derive(Drop)]
struct Marks {
    bits: Vec<u64>,
}

impl Marks {
    /// None of them. It takes the memory that is needed for all.
    fn new(alloc: Global) -> Result<Marks, AllocError> {
        let bits = vec![in alloc; 0; MARK_NUMBERS]?;
        Ok(Marks { bits })
    }

    fn has(&self, slot: u64) -> bool {
        match self.bits.get((slot / MARKS) as usize) {
            Some(bits) => (*bits >> (slot % MARKS)) & 1 == 1,
            None => false,
        }
    }

    fn set(&mut self, slot: u64) {
        if let Some(bits) = self.bits.get_mut((slot / MARKS) as usize) {
            *bits |= 1 << (slot % MARKS);
        }
    }
}

/// The slots that were written in a look. What was written stands in a scratch file, at its own place; all else is read of the file that
/// is looked at. The scratch file is made when the first slot is written, and takes no memory then.
#[derive(Drop)]
pub(crate) struct Scratch<'a> {
    rt: &'a HostRuntime,
    /// Where the file is made, or why it can't be.
    path: io::Result<String>,
    file: Option<File>,
    marks: Marks,
}

/// The file, unless it got one of the descriptors 0 to 2. These belong to the standard streams, even where they are closed.
pub(crate) fn beside_streams(file: File) -> io::Result<File> {
    if file.as_raw_fd() <= 2 {
        return Err(io::Error::other("it got the descriptor of a closed standard stream"));
    }
    Ok(file)
}

/// Where a scratch file is made: a name in the system's folder for temporary files, of a random number.
fn scratch_path(rt: &HostRuntime) -> io::Result<String> {
    let mut random = [0; 8];
    rt.fill_bytes(&mut random)?;
    let number = u64::from_be_bytes(random);
    let folder = env::temp_dir(rt)?;
    Ok(format!(in rt.alloc(); "{}/hgd-{number:016x}", folder.as_str())?)
}

/// Whether a path can't be had for want of memory.
fn is_want_of_memory(path: &io::Result<String>) -> bool {
    match path {
        Ok(_) => false,
        Err(error) => error.kind() == ErrorKind::OutOfMemory,
    }
}

/// A new file without a byte, in the system's folder for temporary files, that no other user may open. Its name is removed at once, so that
/// nothing of it stays behind when the program ends.
fn scratch_file(rt: &HostRuntime, path: &str) -> io::Result<File> {
    let file = OpenOptions::new()
        .read(true)
        .write(true)
        .create_new(true)
        .mode(0o600)
        .open(rt, path)?;
    fs::remove_file(rt, path)?;
    beside_streams(file)
}

/// A scratch file. Descriptors of standard streams that are closed are filled while it is made.
fn scratch_file_beside_streams(rt: &HostRuntime, path: &str) -> io::Result<File> {
    let first = File::open(rt, "/dev/null");
    let second = File::open(rt, "/dev/null");
    let third = File::open(rt, "/dev/null");
    let file = scratch_file(rt, path);
    drop((first, second, third));
    file
}

/// How many of so many bytes from a place on lie in the slot of that place.
fn len_in_slot(place: u64, left: usize) -> usize
    requires { 1 ≤ left }
    ensures some { 1 ≤ result }
    ensures within { result ≤ left }
{
    let in_slot = (SLOT_BYTES - place % SLOT_BYTES) as usize;
    in_slot.min(left)
}

/// What a call of a file that is looked at failed by.
pub(crate) fn error_of(base: &FileDisk) -> io::Error {
    match base.error() {
        Some(error) => error,
        None => io::Error::from(ErrorKind::Other),
    }
}

/// Fills a part of a buffer with the bytes of a file from a place on. What is behind its end is zeros.
pub(crate) fn read_base(base: &mut FileDisk, place: u64, part: &mut [u8]) -> io::Result<()>
    ensures size { length part.new ≡ length part.old }
{
    let there = base.len().saturating_sub(place).min(part.len() as u64) as usize;
    part[there..].fill(0);
    if there == 0 {
        return Ok(());
    }
    match base.read_at(place, &mut part[..there]) {
        Ok(()) => Ok(()),
        Err(_) => Err(error_of(base)),
    }
}

/// Puts the bytes that a slot has in the file that is looked at into the scratch file, unless the slot stands there.
fn bring(file: &File, marks: &mut Marks, base: &mut FileDisk, slot: u64) -> io::Result<()>
    requires { slot < MOST_SLOTS }
{
    if marks.has(slot) {
        return Ok(());
    }
    let mut bytes = [0; SLOT_LEN];
    let place = slot * SLOT_BYTES;
    read_base(base, place, &mut bytes)?;
    file.write_all_at(&bytes, place)?;
    marks.set(slot);
    Ok(())
}

/// Writes bytes that lie in the slots from the first to the last. A slot that is written in part is brought before.
fn put(
    file: &File,
    marks: &mut Marks,
    base: &mut FileDisk,
    at: u64,
    bytes: &[u8],
    slots: (u64, u64),
) -> io::Result<()>
    requires { (slots.0 < MOST_SLOTS) × (slots.1 < MOST_SLOTS) }
{
    let (first, last) = slots;
    if at % SLOT_BYTES != 0 || bytes.len() % SLOT_LEN != 0 {
        bring(file, marks, base, first)?;
        bring(file, marks, base, last)?;
    }
    file.write_all_at(bytes, at)?;
    for slot in first..last + 1 {
        marks.set(slot);
    }
    Ok(())
}

impl<'a> Scratch<'a> {
    /// No slot was written yet. All memory that is needed is taken. Where a path for the file can't be had for another reason, the first
    /// write fails by it.
    pub(crate) fn new(rt: &'a HostRuntime) -> Result<Scratch<'a>, AllocError> {
        let marks = Marks::new(rt.alloc())?;
        let path = scratch_path(rt);
        if is_want_of_memory(&path) {
            return Err(AllocError);
        }
        Ok(Scratch {
            rt,
            path,
            file: None,
            marks,
        })
    }

    /// The bytes from a place on that lie in one slot.
    fn read_piece(&self, base: &mut FileDisk, place: u64, part: &mut [u8]) -> io::Result<()>
        ensures size { length part.new ≡ length part.old }
    {
        match &self.file {
            Some(file) if self.marks.has(place / SLOT_BYTES) => file.read_exact_at(part, place),
            _ => read_base(base, place, part),
        }
    }

    /// The bytes from a place on, as they were written last.
    pub(crate) fn read(&self, base: &mut FileDisk, at: u64, buf: &mut [u8]) -> io::Result<()>
        requires { at + length buf.old ≤ 2 ^ 62 }
    {
        let mut done = 0;
        while done < buf.len() {
            let place = at + done as u64;
            let count = len_in_slot(place, buf.len() - done);
            self.read_piece(base, place, &mut buf[done..done + count])?;
            done += count;
        }
        Ok(())
    }

    /// Makes the scratch file, if it is not there yet.
    fn open(&mut self) -> io::Result<()> {
        if self.file.is_none() {
            let path = match &self.path {
                Ok(path) => path.as_str(),
                Err(error) => return Err(*error),
            };
            self.file = Some(scratch_file_beside_streams(self.rt, path)?);
        }
        Ok(())
    }

    /// Writes bytes to the scratch file.
    pub(crate) fn write(&mut self, base: &mut FileDisk, at: u64, bytes: &[u8]) -> io::Result<()>
        requires { at + length bytes.now ≤ 2 ^ 62 }
    {
        if bytes.is_empty() {
            return Ok(());
        }
        let first = at / SLOT_BYTES;
        let last = (at + (bytes.len() as u64 - 1)) / SLOT_BYTES;
        if first >= u64::from(MOST_SLOTS) || last >= u64::from(MOST_SLOTS) {
            return Err(ErrorKind::FileTooLarge.into());
        }
        self.open()?;
        match &self.file {
            Some(file) => put(file, &mut self.marks, base, at, bytes, (first, last)),
            None => Err(ErrorKind::NotFound.into()),
        }
    }
}
