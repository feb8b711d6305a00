//! What a command line asks for.

ghost use Rattle.std.specs.Prelude.{◌≤◌};
ghost use Rattle.hg_model.specs.declared.limits.TheConstants.{GREATEST_SOURCE};
ghost use Rattle.hg_options.specs.declared.limits.TheConstants.{LEAST_FRAMES, MOST_FRAMES, MOST_JOBS, MOST_WORKERS};

use std::string::String;

/// What a command line asks for.
#[derive(Clone, Copy, Drop)]
pub enum Task<'a> {
    /// The races of the trace on standard input; and, where `verbose` is set, its last line in words. Where races are counted, the status
    /// is `error_exitcode`, if it is given, in place of 0.
    Check {
        jobs: Jobs,
        error_exitcode: Option<ErrorExitcode>,
        verbose: bool,
    },
    /// The segments of the trace on standard input; `verbose` as in `Check`.
    Graph {
        jobs: Jobs,
        verbose: bool,
    },
    /// The life of a word in the store in a directory, or in the trace on standard input.
    Explain {
        directory: Option<&'a str>,
        explaining: Explaining,
    },
    /// What is asked for of the store in a directory.
    OnStore {
        directory: &'a str,
        task: StoreTask,
    },
}

/// What a command line asks for of a store.
#[derive(Clone, Copy, Drop)]
pub enum StoreTask {
    /// A new store.
    Create,
    /// Its segments.
    Graph {
        verbose: bool,
    },
    /// Its races; `error_exitcode` as in `Task::Check`.
    Reports {
        frames: Frames,
        error_exitcode: Option<ErrorExitcode>,
        verbose: bool,
    },
    /// To accept the events of the trace on standard input as those of a source; and, where `checkpoint` is set, to make a checkpoint at
    /// their end.
    Feed {
        source: Source,
        frames: Frames,
        jobs: Jobs,
        checkpoint: bool,
        verbose: bool,
    },
    /// To accept the events of clients that connect.
    Serve {
        serving: Serving,
    },
    /// A store with two journals, made of one with one journal.
    Migrate,
}

/// How a word is named.
#[derive(Clone, Copy, Drop)]
pub enum Subject {
    /// By an address in it.
    Word { address: u64 },
    /// By the report of it that is kept as this number, from 1 on.
    Race { number: u32 },
}

/// A word whose life is printed.
#[derive(Clone, Copy, Drop)]
pub struct Explaining {
    /// Which word.
    pub subject: Subject,
    /// Whether each access has a line, even if it changes nothing.
    pub all: bool,
}

/// The status of a run that counts races, in place of 0: 1 to 255.
#[derive(Clone, Copy, Drop)]
pub struct ErrorExitcode {
    pub status: u8,
    ghost fits: { 1 ≤ status },
}

/// How many threads read a trace: 1 to 64.
#[derive(Clone, Copy, Drop)]
pub struct Jobs {
    pub threads: u16,
    ghost fits: { (1 ≤ threads) × (threads ≤ MOST_JOBS) },
}

/// How many pages of words a store may have in memory: 4 to 4,096.
#[derive(Clone, Copy, Drop)]
pub struct Frames {
    pub pages: u16,
    ghost fits: { (LEAST_FRAMES ≤ pages) × (pages ≤ MOST_FRAMES) },
}

/// The number of a source: 0 to 1,023.
#[derive(Clone, Copy, Drop)]
pub struct Source {
    pub number: u16,
    ghost fits: { number ≤ GREATEST_SOURCE },
}

/// Where clients connect.
#[derive(Clone, Copy, Drop)]
pub enum Place {
    /// A port of 127.0.0.1, 1 to 65,535.
    Port { port: u16 },
    /// A socket in the store's directory.
    Socket,
}

/// How a store is served.
#[derive(Clone, Copy, Drop)]
pub struct Serving {
    /// Where clients connect.
    pub place: Place,
    /// How many connections are taken, 1 to 65,535.
    pub connections: u16,
    /// How many conversations are held at once, 1 to 64.
    pub workers: u16,
    /// How many pages may be in memory.
    pub frames: Frames,
    /// After how many committed events a checkpoint begins, 1 to 1,048,576.
    pub every: u32,
    /// How many seconds a client may be silent, or 0 for ever.
    pub silence: u16,
    /// Whether it is told in words what the server waits for or ended by.
    pub verbose: bool,
    ghost fits: { (1 ≤ workers) × (workers ≤ MOST_WORKERS) },
}

/// Why a command line asks for nothing that can be done.
#[derive(Drop)]
pub enum Misread {
    /// It asks for help, or for the version: the text for standard output.
    Help(String),
    /// It is a bad one: the text for standard error.
    Bad(String),
    /// Its address is no number of 64 bits as a trace writes them.
    BadAddress,
    /// It asks for a word, and names none.
    NoWord,
    /// It names a word by an address and by a report.
    TwoWords,
    /// It serves a store on no port and no socket.
    BadPort,
    /// It has no fault, and yet its command lacks what it needs. No command line is known that ends here.
    Incomplete,
    /// A growth was refused.
    OutOfMemory,
}
