//! The arguments and options of the commands, as data.

use crate::limits::{
    GREATEST_STATUS, LEAST_FRAMES, MOST_CONNECTIONS, MOST_EVERY, MOST_FRAMES, MOST_JOBS, MOST_RACE,
    MOST_SILENCE, MOST_WORKERS,
};

/// The name of the argument for a store's directory.
pub const DIRECTORY: &str = "DIR";

/// The name of the argument for a source.
pub const SOURCE: &str = "SOURCE";

/// The name of the flag that asks for a checkpoint.
pub const CHECKPOINT: &str = "checkpoint";

/// The name of the option for the number of pages in memory.
pub const FRAMES: &str = "frames";

/// The name of the argument for a port.
pub const PORT: &str = "PORT";

/// The name of the option for the number of connections that are taken.
pub const CONNECTIONS: &str = "connections";

/// The name of the option for the number of workers.
pub const WORKERS: &str = "workers";

/// The name of the option for the number of committed events after which a checkpoint begins.
pub const EVERY: &str = "every";

/// The name of the option for the number of seconds that a client may be silent.
pub const SILENCE: &str = "silence";

/// The name of the option for the number of threads that read a trace.
pub const JOBS: &str = "jobs";

/// The name of the option for the status where races are counted.
pub const ERROR_EXITCODE: &str = "error-exitcode";

/// The name of the argument for the address of a word.
pub const ADDRESS: &str = "ADDRESS";

/// The name of the option for the number of a report.
pub const RACE: &str = "race";

/// The name of the flag that asks for each line.
pub const ALL: &str = "all";

/// The name of the flag that asks for words.
pub const VERBOSE: &str = "verbose";

/// A flag as data.
#[derive(Clone, Copy, Drop)]
pub(crate) struct Switch {
    pub name: &'static str,
    pub help: &'static str,
}

/// An option whose value is a number, as data.
#[derive(Clone, Copy, Drop)]
pub(crate) struct NumberOption {
    pub name: &'static str,
    pub value: &'static str,
    pub help: &'static str,
    pub required: bool,
    pub least: i64,
    pub most: i64,
    /// What it is where nothing is said: no text, or one.
    pub otherwise: &'static [&'static str],
}

/// The flag for a checkpoint.
pub(crate) const CHECKPOINT_FLAG: Switch = Switch {
    name: CHECKPOINT,
    help: "At the end make a checkpoint, so that the store opens faster; events up to it are no longer kept",
};

/// The flag for each line.
pub(crate) const ALL_FLAG: Switch = Switch {
    name: ALL,
    help: "Print each access, be it that it changes nothing",
};

/// The flag for the last line in words.
pub(crate) const VERBOSE_FLAG: Switch = Switch {
    name: VERBOSE,
    help: "Say on standard error what a refused or bad line, or a fault, means",
};

/// How many pages a store may have in memory.
pub(crate) const FRAMES_OPTION: NumberOption = NumberOption {
    name: FRAMES,
    value: "F",
    help: "How many pages of words may be in memory; where more are in use, an event may write one and read one",
    required: false,
    least: LEAST_FRAMES as i64,
    most: MOST_FRAMES as i64,
    otherwise: &["64"],
};

/// How many connections a server takes.
pub(crate) const CONNECTIONS_OPTION: NumberOption = NumberOption {
    name: CONNECTIONS,
    value: "N",
    help: "How many connections to take before the end",
    required: true,
    least: 1,
    most: MOST_CONNECTIONS as i64,
    otherwise: &[],
};

/// How many workers a server has.
pub(crate) const WORKERS_OPTION: NumberOption = NumberOption {
    name: WORKERS,
    value: "W",
    help: "How many conversations are held at once",
    required: true,
    least: 1,
    most: MOST_WORKERS as i64,
    otherwise: &[],
};

/// After how many committed events a checkpoint begins.
pub(crate) const EVERY_OPTION: NumberOption = NumberOption {
    name: EVERY,
    value: "E",
    help: "After how many committed events a checkpoint begins",
    required: false,
    least: 1,
    most: MOST_EVERY as i64,
    otherwise: &["4096"],
};

/// How many seconds a client may be silent.
pub(crate) const SILENCE_OPTION: NumberOption = NumberOption {
    name: SILENCE,
    value: "SECONDS",
    help: "How long a client may be silent before its connection ends [default: for ever]",
    required: false,
    least: 1,
    most: MOST_SILENCE as i64,
    otherwise: &[],
};

/// How many threads read a trace.
pub(crate) const JOBS_OPTION: NumberOption = NumberOption {
    name: JOBS,
    value: "N",
    help: "How many threads read a large trace",
    required: false,
    least: 1,
    most: MOST_JOBS as i64,
    otherwise: &["1"],
};

/// The status of a run that counts races, in place of 0.
pub(crate) const ERROR_EXITCODE_OPTION: NumberOption = NumberOption {
    name: ERROR_EXITCODE,
    value: "N",
    help: "The status where there are races, in place of 0",
    required: false,
    least: 1,
    most: GREATEST_STATUS as i64,
    otherwise: &[],
};

/// The number of the report whose word is explained.
pub(crate) const RACE_OPTION: NumberOption = NumberOption {
    name: RACE,
    value: "K",
    help: "Explain the word of the race that `check` and `reports` print as number K, in place of ADDRESS",
    required: false,
    least: 1,
    most: MOST_RACE as i64,
    otherwise: &[],
};
