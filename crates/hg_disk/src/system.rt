//! A file of the operating system, or one that is missing.
ghost use Rattle.std.specs.Prelude.{◌≡◌, ◌≤◌, ◌^◌, [], IfOk, is_ok};
ghost use Rattle.hg_disk.specs.Event.{with_answer};
ghost use Rattle.hg_disk.specs.System.{bytes_at_opening};

use crate::call::Call;
use crate::disk::MAX_LEN;
use crate::history::History;
use crate::positioned::{PositionedDisk, PositionedFile};
use hg_trail::Trail;
use std::fs::File;
use std::io;
use std::io::ErrorKind;
use std::os::unix::fs::FileExt;

/// A file of the operating system, or one that is missing: that has no byte, each write, cut and read of it fails, and a sync
/// succeeds.
///
/// That each call does what it says is the system's word. The bodies of its methods are what is trusted of a real file.
pub struct SystemFile {
    file: Option<File>,
    is_for_reading: bool,
    opened_len: u64,
    opened: Trail<u8>,
    told: History,
    ghost fits: { opened_len ≤ 2 ^ 62 },
}

/// A disk over a file of the operating system.
pub type FileDisk = PositionedDisk<SystemFile>;

impl Drop for SystemFile {
    fn drop(self) {
        let SystemFile {
            file,
            is_for_reading: _,
            opened_len: _,
            opened,
            told,
        } = self;
        drop(file);
        drop(opened);
        drop(told);
    }
}

impl SystemFile {
    /// This file, with its present length and no calls yet. A file longer than 2^62 bytes is refused.
    pub fn new(file: File) -> io::Result<SystemFile>
        ensures { IfOk result (λ f. f.told.events ≡ []) }
    {
        SystemFile::opened(file, false)
    }

    /// The same of a file that was opened for reading alone. Where its file system knows no sync, a sync of it succeeds: nothing of
    /// it is owed.
    pub fn for_reading(file: File) -> io::Result<SystemFile>
        ensures { IfOk result (λ f. f.told.events ≡ []) }
    {
        SystemFile::opened(file, true)
    }

    fn opened(file: File, is_for_reading: bool) -> io::Result<SystemFile>
        ensures { IfOk result (λ f. f.told.events ≡ []) }
    {
        let opened_len = file.metadata()?.len();
        if opened_len > MAX_LEN {
            return Err(ErrorKind::FileTooLarge.into());
        }
        let opened = found_in(&file);
        Ok(SystemFile {
            file: Some(file),
            is_for_reading,
            opened_len,
            opened,
            told: History::new(),
        })
    }

    /// A missing file, with no calls yet.
    pub fn missing() -> SystemFile
        ensures calls { result.told.events ≡ [] }
        ensures none { bytes_at_opening result.opened_len result.opened ≡ [] }
    {
        SystemFile {
            file: None,
            is_for_reading: true,
            opened_len: 0,
            opened: Trail::new(),
            told: History::new(),
        }
    }
}

// What stands in a file when it is opened. No contract says what that is, so what is proved holds whatever it is.
fn found_in(file: &File) -> Trail<u8> {
    let _ = file;
    Trail::new()
}

// Notes a call with its answer.
fn tell(told: &mut History, call: Call, bytes: &[u8], answer: &io::Result<()>)
    ensures { told.new.events ≡ with_answer call bytes.now (is_ok answer.now) answer.now told.old.events }
{
    let _ = told.note_answer(call, bytes, answer.is_ok());
}

// The answer of a call to a missing file.
fn not_found() -> io::Result<()> {
    Err(ErrorKind::NotFound.into())
}

impl PositionedFile for SystemFile {
    ghost opened = { λ f. bytes_at_opening f.opened_len f.opened };

    ghost calls = { λ f. f.told.events };

    fn opened_len(&self) -> u64 {
        self.opened_len
    }

    fn read(&mut self, at: u64, buf: &mut [u8]) -> io::Result<()> {
        let answer = match &self.file {
            Some(file) => file.read_exact_at(buf, at),
            None => not_found(),
        };
        tell(&mut self.told, Call::Read { at }, buf, &answer);
        answer
    }

    fn write(&mut self, at: u64, bytes: &[u8]) -> io::Result<()> {
        let answer = match &self.file {
            Some(file) => write_there(file, at, bytes),
            None => not_found(),
        };
        let call = Call::Write {
            at,
            len: bytes.len(),
        };
        tell(&mut self.told, call, bytes, &answer);
        answer
    }

    fn cut(&mut self, to: u64) -> io::Result<()> {
        let answer = match &self.file {
            Some(file) => file.set_len(to),
            None => not_found(),
        };
        tell(&mut self.told, Call::Cut { to }, &[], &answer);
        answer
    }

    fn sync(&mut self) -> io::Result<()> {
        let answer = match &self.file {
            Some(file) => sync_there(file, self.is_for_reading),
            None => Ok(()),
        };
        tell(&mut self.told, Call::Sync, &[], &answer);
        answer
    }
}

// Writes the bytes. For no bytes behind the end, it sets the length: the system's write would not fill the gap.
fn write_there(file: &File, at: u64, bytes: &[u8]) -> io::Result<()> {
    if bytes.is_empty() && at > file.metadata()?.len() {
        return file.set_len(at);
    }
    file.write_all_at(bytes, at)
}

// Makes a file's bytes durable. Of one that is only read nothing is owed where its file system knows no sync.
fn sync_there(file: &File, is_for_reading: bool) -> io::Result<()> {
    match file.sync_all() {
        Err(error) if is_for_reading && is_unknown(error.kind()) => Ok(()),
        answer => answer,
    }
}

// Whether a call failed since the file system does not know it, or can't be written to.
fn is_unknown(kind: ErrorKind) -> bool {
    match kind {
        ErrorKind::InvalidInput | ErrorKind::ReadOnlyFilesystem | ErrorKind::Unsupported => true,
        _ => false,
    }
}
