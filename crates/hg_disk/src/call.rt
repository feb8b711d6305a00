//! The calls of a disk and their answers, as a disk keeps them.
ghost use Rattle.std.specs.Prelude.{◌≡◌};

/// One of the four calls that can fail, without the bytes that it moved.
#[derive(Clone, Copy, Debug, PartialEq, Eq)]
pub enum Call {
    /// A read from the offset `at` on, in bytes.
    Read { at: u64 },
    /// A write of `len` bytes at the offset `at`, both in bytes.
    Write { at: u64, len: usize },
    /// A cut to a length in bytes.
    Cut { to: u64 },
    /// A sync.
    Sync,
}

/// How a call ended.
#[derive(Clone, Copy, Debug, PartialEq, Eq)]
pub enum Answer {
    /// It answered `Ok`.
    Done,
    /// It failed.
    Failed,
    /// It failed before it reached the disk.
    Refused,
}

/// A call with its answer.
#[derive(Clone, Copy, Debug, PartialEq, Eq)]
pub struct Answered {
    pub call: Call,
    pub answer: Answer,
}

impl Answered {
    ghost use Rattle.hg_disk.specs.Len.{len_written};

    /// How many bytes the call wrote.
    pub fn len_written(self) -> usize
        ensures { result ≡ len_written self.call self.answer }
    {
        match (self.call, self.answer) {
            (Call::Write { at: _, len }, Answer::Done) => len,
            _ => 0,
        }
    }
}
