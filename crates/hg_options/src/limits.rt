//! The limits of the numbers on a command line, and what they are where nothing is said.

/// The fewest pages of words that a store may have in memory.
pub const LEAST_FRAMES: u16 = 4;

/// The most pages of words that a store may have in memory.
pub const MOST_FRAMES: u16 = 4_096;

/// How many pages of words a store may have in memory where nothing is said.
pub const DEFAULT_FRAMES: u16 = 64;

/// The most threads that read a trace.
pub const MOST_JOBS: u16 = 64;

/// The greatest number of a port.
pub const GREATEST_PORT: u16 = 65_535;

/// The most connections that a server takes.
pub const MOST_CONNECTIONS: u16 = 65_535;

/// The most conversations that a server holds at once.
pub const MOST_WORKERS: u16 = 64;

/// The most committed events after which a checkpoint begins.
pub const MOST_EVERY: u32 = 1_048_576;

/// After how many committed events a checkpoint begins where nothing is said.
pub const DEFAULT_EVERY: u32 = 4_096;

/// The longest time that a client may be told to be silent, in seconds.
pub const MOST_SILENCE: u16 = 65_535;

/// The greatest exit status.
pub const GREATEST_STATUS: u8 = 255;

/// The greatest number of a report that is asked for.
pub const MOST_RACE: u32 = 4_294_967_295;
