//! The calls of a disk, kept as data.
ghost use Rattle.std.specs.Prelude.{◌≡◌, ◌+◌, ◌<◌, ◌^◌, ℕ, [], true, false, not, is_ok, length, IsTrue, IfOk, if◌then◌else◌};
ghost use Rattle.hg_disk.specs.Event.{refused_unless, with_answer};
ghost use Rattle.hg_disk.specs.Tear.{IsCallAt, first};
ghost use Rattle.hg_disk.specs.Tape.{kept, calls_in, written_in, Fits, AllFit, AllFit_prop};

use crate::DiskFault;
use crate::call::{Answer, Answered, Call};
use crate::history::History;
use std::alloc::{AllocError, Global};

/// Keeps each call with its answer, and the bytes of each write that took effect. Once there is no memory to keep a call,
/// the tape is full for good.
#[derive(Drop)]
pub(crate) struct Tape {
    pub calls: Vec<Answered>,
    pub written: Vec<u8>,
    pub is_full: bool,
    pub history: History,
    ghost calls_kept: { calls.items ≡ calls_in (kept history.events) },
    ghost bytes_kept: { written.items ≡ written_in (kept history.events) },
    ghost all_fit: { AllFit (kept history.events) } by { AllFit_prop (kept history.events) },
    ghost all_kept: { is_full ≡ false → kept history.events ≡ history.events },
}

impl Tape {
    ghost use Rattle.hg_disk.specs.Room.{KeepsRoomFor, TapeHasRoom};

    pub fn new(alloc: Global) -> Tape
        ensures made { result.history.events ≡ [] }
        ensures open { result.is_full ≡ false }
    {
        Tape {
            calls: Vec::new(alloc),
            written: Vec::new(alloc),
            is_full: false,
            history: History::new(),
        }
    }

    /// An empty tape with room for this many calls and this many written bytes.
    pub fn with_room(alloc: Global, calls: usize, bytes: usize) -> Result<Tape, AllocError>
        ensures made { IfOk result (λ t. t.history.events ≡ []) }
        ensures room { IfOk result (λ t. TapeHasRoom t calls bytes) }
    {
        Ok(Tape {
            calls: Vec::with_capacity(alloc, calls)?,
            written: Vec::with_capacity(alloc, bytes)?,
            is_full: false,
            history: History::new(),
        })
    }

    /// Makes room for one more call, and tells whether it did. If not, the tape is full and the call is noted as refused.
    pub fn makes_room(&mut self, call: Call) -> bool
        ensures record { self.new.history.events ≡ refused_unless result call self.old.history.events }
        ensures made { IsTrue result → TapeHasRoom self.new 1 0 }
        ensures full { self.new.is_full ≡ not result }
        ensures refuses { self.old.is_full ≡ true → result ≡ false }
        ensures room { (n b : ℕ) → TapeHasRoom self.old (n + 1) b → IsTrue result }
        ensures stays { (n b : ℕ) → TapeHasRoom self.old (n + 1) b → TapeHasRoom self.new (n + 1) b }
    {
        if self.is_full || self.calls.reserve(1).is_err() {
            self.is_full = true;
            self.history.note_refusal(call);
            return false;
        }
        true
    }

    /// Makes room for so many bytes of a write.
    pub fn makes_room_for_bytes(&mut self, len: usize) -> bool
        requires { TapeHasRoom self.old 1 0 }
        ensures record { self.new.history.events ≡ self.old.history.events }
        ensures made { TapeHasRoom self.new 1 (if result then len else 0) }
        ensures room { (n b : ℕ) → TapeHasRoom self.old (n + 1) (len + b) → IsTrue result }
        ensures stays { KeepsRoomFor len self.old self.new }
    {
        self.written.reserve(len).is_ok()
    }

    /// The call number i, counted from 0, with the bytes that it wrote. The calls before it wrote `from` bytes.
    pub fn call(&self, i: usize, from: usize) -> (Answered, &[u8])
        requires there { i < length (calls_in (kept self.now.history.events)) }
        requires from { from ≡ length (written_in (first i (kept self.now.history.events))) }
        ensures next { IsCallAt i (kept self.now.history.events) result.0 result.1.now }
        ensures fits { Fits result.0.call result.0.answer result.1.now }
        ensures small { from + length result.1.now < 2 ^ 64 }
    {
        let told = self.calls[i];
        let end = from + told.len_written();
        (told, &self.written[from..end])
    }

    /// Keeps a call that took effect or failed, with its bytes.
    pub fn keep(&mut self, call: Call, bytes: &[u8], is_done: bool) -> Result<(), DiskFault>
        requires room { TapeHasRoom self.old 1 (if is_done then length bytes.now else 0) }
        requires fits { Fits call (if is_done then Answer.Done else Answer.Failed) (if is_done then bytes.now else []) }
        ensures result { is_ok result ≡ is_done }
        ensures full { self.new.is_full ≡ self.old.is_full }
        ensures record { self.new.history.events ≡ with_answer call bytes.now is_done result self.old.history.events }
        ensures stays { (n b : ℕ) → TapeHasRoom self.old (n + 1) (length bytes.now + b) → TapeHasRoom self.new n b }
    {
        let answer = if is_done {
            Answer::Done
        } else {
            Answer::Failed
        };
        if is_done {
            self.written.extend_from_slice(bytes).unwrap();
        }
        self.calls.push_reserved(Answered { call, answer });
        self.history.note_answer(call, bytes, is_done)
    }
}
