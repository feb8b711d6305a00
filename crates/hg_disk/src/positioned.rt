//! A disk over a file that is read and written at positions.
ghost use Rattle.std.specs.Prelude.{◌≡◌, ◌↔◌, ◌≤◌, ◌^◌, [], ℕ, List, false, length, IsNone, IsTrue, is_ok};
ghost use Rattle.hg_disk.specs.Event.{with_answer, with_refusal};
ghost use Rattle.hg_disk.specs.History.{KeepsError, replay};
ghost use Rattle.hg_disk.specs.Kept.{has_contents};
ghost use Rattle.hg_disk.specs.Made.{made};
ghost use Rattle.hg_disk.specs.declared.history.Event.{Event as EventOf};

use crate::call::Call;
use crate::disk::is_within;
use crate::history::History;
use crate::{Disk, DiskFault};
use std::io;

/// A file that is read and written at positions. A contract sees what stood in it when it was opened, and each call since then
/// with its answer and its bytes: nothing else was done to the file. Offsets and lengths are in bytes.
pub trait PositionedFile {
    /// What stood in the file when it was opened.
    ghost opened: { Self → List ℕ };

    /// The calls so far, the newest first. A read that answered `Ok` has the bytes that it gave.
    ghost calls: { Self → List EventOf };

    /// The length of the file when it was opened.
    fn opened_len(&self) -> u64
        ensures value { result ≡ length (opened self.now) }
        ensures fits { result ≤ 2 ^ 62 };

    /// Fills the buffer with the bytes from the offset `at` on.
    fn read(&mut self, at: u64, buf: &mut [u8]) -> io::Result<()>
        ensures opened { opened self.new ≡ opened self.old }
        ensures called { calls self.new ≡ with_answer (Call.Read at) buf.new (is_ok result) result (calls self.old) };

    /// Writes the bytes at the offset `at`; a gap before them is filled with zeros.
    fn write(&mut self, at: u64, bytes: &[u8]) -> io::Result<()>
        ensures opened { opened self.new ≡ opened self.old }
        ensures called { calls self.new ≡ with_answer (Call.Write at (length bytes.now)) bytes.now (is_ok result) result (calls self.old) };

    /// Drops the bytes from the offset `to` on.
    fn cut(&mut self, to: u64) -> io::Result<()>
        ensures opened { opened self.new ≡ opened self.old }
        ensures called { calls self.new ≡ with_answer (Call.Cut to) [] (is_ok result) result (calls self.old) };

    /// Makes all bytes durable.
    fn sync(&mut self) -> io::Result<()>
        ensures opened { opened self.new ≡ opened self.old }
        ensures called { calls self.new ≡ with_answer Call.Sync [] (is_ok result) result (calls self.old) };
}

/// A disk over a file. Each call of the disk is one call of the file, with the same bytes and the same answer; only a write that
/// would end behind the greatest length is refused without one.
///
/// That a read of the file gives what stands in it is not promised: it is a premise, `reads_were_true`.
pub struct PositionedDisk<F: PositionedFile> {
    file: F,
    len: u64,
    history: History,
    error: Option<io::Error>,
    ghost keeps: { KeepsError error history.events },
    ghost calls: { made history.events ≡ F.calls file },
    ghost shows: { len ≡ length (replay (F.opened file) history.events).contents },
    ghost fits: { len ≤ 2 ^ 62 },
}

impl<F: PositionedFile + Drop> Drop for PositionedDisk<F> {
    fn drop(self) {
        let PositionedDisk {
            file,
            len: _,
            history,
            error: _,
        } = self;
        drop(file);
        drop(history);
    }
}

impl<F: PositionedFile> PositionedDisk<F> {
    ghost use Rattle.hg_disk.specs.State.{settled};
    ghost use Rattle.hg_disk.specs.Positioned.{failures_of, past_of, state_of};

    /// A disk over this file, which was opened just now.
    pub fn new(file: F) -> PositionedDisk<F>
        requires { F.calls file ≡ [] }
        ensures file { result.file ≡ file }
        ensures state { state_of ⟦<F as PositionedFile>⟧ result ≡ settled (F.opened file) }
        ensures past { past_of ⟦<F as PositionedFile>⟧ result ≡ [] }
        ensures failures { failures_of ⟦<F as PositionedFile>⟧ result ≡ 0 }
        ensures reads { IsTrue (⟦<PositionedDisk<F> as Disk>⟧.reads_were_true result) }
    {
        let len = file.opened_len();
        PositionedDisk {
            file,
            len,
            history: History::new(),
            error: None,
        }
    }

    /// The file's error of the first call that failed, or none.
    pub fn error(&self) -> Option<io::Error>
        ensures { IsNone result ↔ (failures_of ⟦<F as PositionedFile>⟧ self.now ≡ 0) }
    {
        self.error
    }
}

/// Notes a call with its answer. Keeps its error if it is the first one.
fn note(
    history: &mut History,
    error: &mut Option<io::Error>,
    call: Call,
    bytes: &[u8],
    answer: io::Result<()>,
) -> Result<(), DiskFault>
    ensures same { is_ok result ≡ is_ok answer }
    ensures noted { history.new.events ≡ with_answer call bytes.now (is_ok answer) result history.old.events }
    ensures error { KeepsError error.old history.old.events → KeepsError error.new history.new.events }
{
    if let Err(cause) = &answer {
        if error.is_none() {
            *error = Some(*cause);
        }
    }
    history.note_answer(call, bytes, answer.is_ok())
}

/// Notes a write that would end behind the greatest length.
fn refuse(history: &mut History, error: &mut Option<io::Error>, call: Call)
    ensures noted { history.new.events ≡ with_refusal call history.old.events }
    ensures error { KeepsError error.old history.old.events → KeepsError error.new history.new.events }
{
    if error.is_none() {
        *error = Some(io::ErrorKind::FileTooLarge.into());
    }
    history.note_refusal(call);
}

impl<F: PositionedFile> Disk for PositionedDisk<F> {
    ghost use Rattle.std.proofs.lemmas.Bool.{false≢true};
    ghost use Rattle.hg_disk.specs.Positioned.{failures_of, past_of, reads_were_true_of, state_of};

    ghost reads_were_true = { reads_were_true_of ⟦<F as PositionedFile>⟧ };

    ghost is_honest = { false };

    ghost state = { state_of ⟦<F as PositionedFile>⟧ };

    ghost past = { past_of ⟦<F as PositionedFile>⟧ };

    ghost failures = { failures_of ⟦<F as PositionedFile>⟧ };

    ghost has_its_bytes = { λ f. has_contents (F.PositionedFile.opened f.file) f.history.events };

    ghost honest_reads = { λ honest _. absurd (false≢true honest) };

    fn len(&self) -> u64 {
        self.len
    }

    fn read_at(&mut self, at: u64, buf: &mut [u8]) -> Result<(), DiskFault> {
        let answer = self.file.read(at, buf);
        let call = Call::Read { at };
        note(&mut self.history, &mut self.error, call, buf, answer)
    }

    fn write_at(&mut self, at: u64, bytes: &[u8]) -> Result<(), DiskFault> {
        let len = bytes.len();
        let call = Call::Write { at, len };
        if !is_within(at, len) {
            refuse(&mut self.history, &mut self.error, call);
            return Err(DiskFault);
        }
        let answer = self.file.write(at, bytes);
        note(&mut self.history, &mut self.error, call, bytes, answer)?;
        self.len = self.len.max(at + len as u64);
        Ok(())
    }

    fn cut(&mut self, to: u64) -> Result<(), DiskFault> {
        let answer = self.file.cut(to);
        let call = Call::Cut { to };
        note(&mut self.history, &mut self.error, call, &[], answer)?;
        self.len = to;
        Ok(())
    }

    fn sync(&mut self) -> Result<(), DiskFault> {
        let answer = self.file.sync();
        note(&mut self.history, &mut self.error, Call::Sync, &[], answer)
    }
}
