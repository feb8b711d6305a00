//! The calls of a stream, as it keeps them.

use hg_trail::Trail;
use std::io::ErrorKind;

/// A read, and what the reader said to it.
#[derive(Drop)]
pub enum ReadCall {
    /// It gave these bytes: none only at the end of the input.
    Gave { bytes: Trail<u8> },
    /// It gave none, for this reason. `Interrupted` is no failure: the read can be made again. `OutOfMemory` is want of memory.
    Erred { kind: ErrorKind },
}

/// A write or a flush, and what it came to.
#[derive(Drop)]
pub enum WriteCall {
    /// It took all bytes that it was given: these.
    Took { bytes: Trail<u8> },
    /// It failed, and may have taken a front of these bytes.
    Torn { bytes: Trail<u8> },
    /// A flush.
    Flushed,
    /// A flush that failed.
    NotFlushed,
}
