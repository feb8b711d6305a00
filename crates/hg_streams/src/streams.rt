//! The three streams of a command that reads a trace; the size of the pieces that go through a stream, and the most reads.

use crate::input::Input;
use crate::output::Output;

/// How many bytes are read at once, and from how many bytes on held ones are written: 64 KiB.
pub const PIECE_BYTES: usize = 65_536;

/// After how many reads an input counts as failed, and a connection as ended.
pub const MOST_READS: u64 = 1 << 32;

/// What a command reads, and where it prints.
#[derive(Drop)]
pub struct Streams<R, W, V> {
    /// The trace text.
    pub input: Input<R>,
    /// What the command was asked for.
    pub output: Output<W>,
    /// The fault that it ended by.
    pub faults: Output<V>,
}
