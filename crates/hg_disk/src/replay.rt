//! Replays the calls of a disk to compute an image.
ghost use Rattle.std.specs.Prelude.{◌≡◌, ◌+◌, ◌≤◌, ◌^◌, length, IfOk, OnOk, []};
ghost use Rattle.hg_disk.specs.Event.{event};
ghost use Rattle.hg_disk.specs.Tape.{Fits};

use crate::Tear;
use crate::call::{Answer, Answered, Call};
use crate::overwrite::overwrite;
use std::alloc::{AllocError, Global};

/// What a read gives after the calls replayed so far, and the image after them.
#[derive(Drop)]
pub(crate) struct Replay {
    pub contents: Vec<u8>,
    pub torn: Vec<u8>,
    pub tear: Tear,
    /// How many bytes `Front` may still write.
    pub left: usize,
}

impl Replay {
    ghost use Rattle.hg_disk.specs.Replay.{Stands, StandsAfter};

    pub fn new(alloc: Global, start: &[u8], tear: Tear) -> Result<Replay, AllocError>
        ensures tear { IfOk result (λ r. r.tear ≡ tear) }
        ensures stands { IfOk result (λ r. Stands r start.now []) }
    {
        Ok(Replay {
            contents: Vec::from_slice(alloc, start)?,
            torn: Vec::from_slice(alloc, start)?,
            tear,
            left: tear.limit(),
        })
    }

    /// Replays the next call, with the answer that it had and the bytes that it wrote.
    pub fn step(&mut self, told: Answered, bytes: &[u8]) -> Result<(), AllocError>
        requires { Fits told.call told.answer bytes.now }
        ensures tear { self.new.tear ≡ self.old.tear }
        ensures stands { OnOk result (StandsAfter (record { told = told; bytes = bytes.now }) self.old self.new) }
    {
        match told.answer {
            Answer::Done => self.make(told.call, bytes),
            Answer::Failed => {
                self.fail(told.call);
                Ok(())
            }
            Answer::Refused => {
                self.fail(told.call);
                Ok(())
            }
        }
    }

    // A call that took effect.
    fn make(&mut self, call: Call, bytes: &[u8]) -> Result<(), AllocError>
        requires { Fits call Answer.Done bytes.now }
        ensures tear { self.new.tear ≡ self.old.tear }
        ensures stands { OnOk result (StandsAfter (event call Answer.Done bytes.now) self.old self.new) }
    {
        match call {
            Call::Read { .. } => Ok(()),
            Call::Write { at, len } => self.write(at, len, bytes),
            Call::Cut { to } => {
                self.cut(to);
                Ok(())
            }
            Call::Sync => self.sync(),
        }
    }

    fn write(&mut self, at: u64, len: usize, bytes: &[u8]) -> Result<(), AllocError>
        requires { (len ≡ length bytes.now) × (at + len ≤ 2 ^ 62) }
        ensures tear { self.new.tear ≡ self.old.tear }
        ensures stands { OnOk result (StandsAfter (event (Call.Write at len) Answer.Done bytes.now) self.old self.new) }
    {
        self.tear
            .write(&mut self.torn, self.left, at as usize, bytes)?;
        overwrite(&mut self.contents, at as usize, bytes)?;
        self.left = self.left.saturating_sub(len);
        Ok(())
    }

    fn cut(&mut self, to: u64)
        ensures tear { self.new.tear ≡ self.old.tear }
        ensures stands { StandsAfter (event (Call.Cut to) Answer.Done []) self.old self.new }
    {
        self.tear.cut(&mut self.torn, self.left, to as usize);
        self.contents.truncate(to as usize);
    }

    fn sync(&mut self) -> Result<(), AllocError>
        ensures tear { self.new.tear ≡ self.old.tear }
        ensures stands { OnOk result (StandsAfter (event Call.Sync Answer.Done []) self.old self.new) }
    {
        self.tear.sync(&mut self.torn, &self.contents)?;
        self.left = self.tear.limit();
        Ok(())
    }

    // A call that failed.
    fn fail(&mut self, call: Call)
        ensures tear { self.new.tear ≡ self.old.tear }
        ensures stands { StandsAfter (event call Answer.Failed []) self.old self.new }
    {
        match call {
            Call::Read { .. } => {}
            Call::Write { at, len } => self.tear.fail_write(&mut self.torn, at, len),
            Call::Cut { to } => self.tear.fail_cut(&mut self.torn, to),
            Call::Sync => {}
        }
    }
}
