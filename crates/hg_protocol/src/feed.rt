//! The messages of a stream that comes in pieces.

ghost use Rattle.std.specs.Prelude.{◌≡◌, ◌≤◌, ◌++◌, ◌↔◌, List, length, drop, IfOk, IfErr, OnErr, IsTrue};
ghost use Rattle.hg_protocol.specs.Streams.{FramesRead, Gives, ReadsFrames, at_start};

use crate::front::{Front, read_front};
use crate::message::{FrameFault, Message};
use std::alloc::{AllocError, Global};
use std::marker::{Model, PhantomData};

/// What a piece completes: the messages, and the fault that follows them, if one does.
#[derive(Drop)]
pub struct Fed<M> {
    pub messages: Vec<M>,
    pub fault: Option<FrameFault>,
}

/// Why a piece was not taken.
#[derive(Clone, Copy, Debug, PartialEq, Eq, Drop)]
pub enum FeedRefusal {
    /// There was a fault before.
    Failed,
    /// Memory was refused, and nothing was changed.
    OutOfMemory,
}

/// Reads the messages of a stream, however it is cut into pieces. It holds the bytes of the frame that is not whole yet.
#[derive(Drop)]
pub struct Feed<M> {
    left: Vec<u8>,
    has_failed: bool,
    of: PhantomData<M>,
}

impl<M> Model for Feed<M> {
    ghost use Rattle.hg_protocol.specs.Streams.{FramesRead};

    ghost Value = { FramesRead };

    ghost view = { λ f. record { left = f.left.items; has_failed = f.has_failed } };
}

/// Reads the frames at the front of the bytes, and appends their messages. Answers how many bytes they take, and the fault
/// that follows them, if there is one.
fn read_frames<M: Message + Drop>(
    alloc: Global,
    bytes: &[u8],
    messages: &mut Vec<M>,
) -> Result<(usize, Option<FrameFault>), AllocError>
    ensures { IfOk result (λ r. ReadsFrames ⟦<M as Message>⟧ bytes.now messages.old.items messages.new.items r.0 r.1) }
{
    let mut rest = bytes;
    loop {
        match read_front(alloc, rest)? {
            Front::Whole { message, used } => {
                messages.push(message)?;
                rest = &rest[used..];
            }
            Front::Unfinished => return Ok((bytes.len() - rest.len(), None)),
            Front::Faulty { fault } => return Ok((bytes.len() - rest.len(), Some(fault))),
        }
    }
}

impl<M: Message + Drop> Feed<M> {
    /// At the start of a stream. Takes no memory.
    pub fn new(alloc: Global) -> Self
        ensures { result ≡ at_start }
    {
        Feed {
            left: Vec::new(alloc),
            has_failed: false,
            of: PhantomData,
        }
    }

    /// Takes the next piece, and gives what it completes. A fault is told as soon as it can be seen; every further piece is
    /// refused as `Failed`.
    pub fn push(&mut self, piece: &[u8]) -> Result<Fed<M>, FeedRefusal>
        ensures ok { IfOk result (λ fed.
            Gives ⟦<M as Message>⟧ self.old self.new piece.now fed.messages.items fed.fault) }
        ensures err { OnErr result (self.new ≡ self.old) }
        ensures failed { IfErr result (λ refusal. refusal ≡ FeedRefusal.Failed ↔ IsTrue self.old.has_failed) }
    {
        if self.has_failed {
            return Err(FeedRefusal::Failed);
        }
        let alloc = *self.left.allocator();
        let held = self.left.len();
        if self.left.extend_from_slice(piece).is_err() {
            return Err(FeedRefusal::OutOfMemory);
        }
        let mut messages = Vec::new(alloc);
        match read_frames(alloc, self.left.as_slice(), &mut messages) {
            Ok((used, fault)) => {
                let len = self.left.len();
                self.left.copy_within(used..len, 0);
                self.left.truncate(len - used);
                self.has_failed = fault.is_some();
                Ok(Fed { messages, fault })
            }
            Err(AllocError) => {
                self.left.truncate(held);
                Err(FeedRefusal::OutOfMemory)
            }
        }
    }
}
