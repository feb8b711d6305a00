//! A file that a command only looks at, as a disk of a store.
ghost use Rattle.std.specs.Prelude.{◌≡◌, ◌↔◌, ◌+◌, ◌≤◌, ◌^◌, false, [], length, IsNone, IsTrue, OnOk, is_ok};
ghost use Rattle.hg_disk.specs.History.{replay};
ghost use Rattle.hg_disk.specs.Kept.{has_contents};
ghost use Rattle.hg_disk.specs.System.{bytes_at_opening};
ghost use Rattle.hg_tasks.specs.Looking.{calls_in, first_error, with_call};

use crate::scratch::{Scratch, error_of, read_base};
use hg_disk::{Call, Disk, DiskFault, FileDisk, MAX_LEN};
use hg_trail::Trail;
use std::io;
use std::io::ErrorKind;

/// A call of a disk, for contracts alone. One that failed has its error, and a write or a read that took effect its bytes.
#[derive(Drop)]
pub(crate) struct Event {
    pub call: Call,
    pub bytes: Trail<u8>,
    pub error: Option<io::Error>,
}

/// A file that is only read, as a disk. What is written to it goes to a scratch file, and is read from there; where there is none, each
/// write fails. It is never cut.
///
/// That a read gives what stands there is not promised: it is a premise, `reads_were_true`.
#[derive(Drop)]
pub struct LookDisk<'a> {
    base: FileDisk,
    scratch: Option<Scratch<'a>>,
    opened_len: u64,
    opened: Trail<u8>,
    len: u64,
    events: Trail<Event>,
    error: Option<io::Error>,
    ghost keeps: { error ≡ first_error events },
    ghost shows: { len ≡ length (replay (bytes_at_opening opened_len opened) (calls_in events)).contents },
    ghost fits: { len ≤ 2 ^ 62 },
}

/// Notes a call with its answer. Keeps its error if it is the first one.
fn note(
    events: &mut Trail<Event>,
    error: &mut Option<io::Error>,
    call: Call,
    bytes: &[u8],
    answer: io::Result<()>,
) -> Result<(), DiskFault>
    ensures same { is_ok result ≡ is_ok answer }
    ensures noted { events.new ≡ with_call call bytes.now answer events.old }
    ensures first { error.old ≡ first_error events.old → error.new ≡ first_error events.new }
{
    match answer {
        Ok(()) => {
            events.push(Event {
                call,
                bytes: Trail::of(bytes),
                error: None,
            });
            Ok(())
        }
        Err(cause) => {
            if error.is_none() {
                *error = Some(cause);
            }
            events.push(Event {
                call,
                bytes: Trail::new(),
                error: Some(cause),
            });
            Err(DiskFault)
        }
    }
}

/// The answer of a write or a cut of a file that is only read.
fn only_read() -> io::Result<()>
    ensures { is_ok result ≡ false }
{
    Err(io::Error::new(ErrorKind::PermissionDenied, "it is only looked at"))
}

impl<'a> LookDisk<'a> {
    ghost use Rattle.hg_tasks.specs.Look.{look_failures, look_past, look_reads_were_true, look_state};

    /// A disk over a file that is only read, with no calls yet. What is written goes to `scratch`, if there is one.
    pub(crate) fn new(base: FileDisk, scratch: Option<Scratch<'a>>) -> LookDisk<'a>
        ensures synced { (look_state result).since ≡ [] }
        ensures past { look_past result ≡ [] }
        ensures failures { look_failures result ≡ 0 }
        ensures reads { IsTrue (⟦<LookDisk<'a> as Disk>⟧.reads_were_true result) }
    {
        let len = base.len();
        let opened = found_in(&base);
        LookDisk {
            base,
            scratch,
            opened_len: len,
            opened,
            len,
            events: Trail::new(),
            error: None,
        }
    }

    /// The system's error of the first call that failed, or none.
    pub fn error(&self) -> Option<io::Error>
        ensures first { result ≡ first_error self.now.events }
        ensures none { IsNone result ↔ (look_failures self.now ≡ 0) }
    {
        self.error
    }
}

// What stands in a file when it is looked at. No contract says what that is, so what is proved holds whatever it is.
fn found_in(base: &FileDisk) -> Trail<u8> {
    let _ = base;
    Trail::new()
}

/// Fills a buffer with what was written last.
fn fill(
    base: &mut FileDisk,
    scratch: &Option<Scratch<'_>>,
    at: u64,
    buf: &mut [u8],
) -> io::Result<()>
    requires { at + length buf.old ≤ 2 ^ 62 }
{
    match scratch {
        Some(scratch) => scratch.read(base, at, buf),
        None => read_base(base, at, buf),
    }
}

/// Writes bytes where they may go, if they end within the greatest length.
fn written(
    base: &mut FileDisk,
    scratch: &mut Option<Scratch<'_>>,
    at: u64,
    bytes: &[u8],
) -> io::Result<()>
    ensures { OnOk result (at + length bytes.now ≤ 2 ^ 62) }
{
    if at > MAX_LEN || bytes.len() as u64 > MAX_LEN - at {
        return Err(ErrorKind::FileTooLarge.into());
    }
    match scratch {
        Some(scratch) => scratch.write(base, at, bytes),
        None => only_read(),
    }
}

/// Makes the file's bytes durable, as far as that is owed.
fn synced(base: &mut FileDisk) -> io::Result<()> {
    match base.sync() {
        Ok(()) => Ok(()),
        Err(_) => Err(error_of(base)),
    }
}

impl<'a> Disk for LookDisk<'a> {
    ghost use Rattle.std.proofs.lemmas.Bool.{false≢true};
    ghost use Rattle.hg_tasks.specs.Look.{look_failures, look_past, look_reads_were_true, look_state};

    ghost reads_were_true = { look_reads_were_true };

    ghost is_honest = { false };

    ghost state = { look_state };

    ghost past = { look_past };

    ghost failures = { look_failures };

    ghost has_its_bytes = { λ d. has_contents (bytes_at_opening d.opened_len d.opened) (calls_in d.events) };

    ghost honest_reads = { λ honest _. absurd (false≢true honest) };

    fn len(&self) -> u64 {
        self.len
    }

    fn read_at(&mut self, at: u64, buf: &mut [u8]) -> Result<(), DiskFault> {
        let answer = fill(&mut self.base, &self.scratch, at, buf);
        note(
            &mut self.events,
            &mut self.error,
            Call::Read { at },
            buf,
            answer,
        )
    }

    fn write_at(&mut self, at: u64, bytes: &[u8]) -> Result<(), DiskFault> {
        let call = Call::Write {
            at,
            len: bytes.len(),
        };
        let answer = written(&mut self.base, &mut self.scratch, at, bytes);
        note(&mut self.events, &mut self.error, call, bytes, answer)?;
        self.len = self.len.max(at + bytes.len() as u64);
        Ok(())
    }

    fn cut(&mut self, to: u64) -> Result<(), DiskFault> {
        let call = Call::Cut { to };
        note(&mut self.events, &mut self.error, call, &[], only_read())?;
        self.len = to;
        Ok(())
    }

    fn sync(&mut self) -> Result<(), DiskFault> {
        let answer = synced(&mut self.base);
        note(&mut self.events, &mut self.error, Call::Sync, &[], answer)
    }
}
