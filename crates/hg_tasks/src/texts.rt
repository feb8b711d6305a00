//! Commands over the trace on standard input.

ghost use Rattle.hg_tasks.specs.Exits.{ChecksAndExits, PrintsAndExits};
ghost use Rattle.hg_tasks.specs.Explaining.{ExplainsText};

use crate::faults::tell_of_text;
use crate::status::exit_status;
use crate::streams::{noted_streams, plain_streams};
use hg_check::commands::{check, graph};
use hg_check::explain::commands::explain;
use hg_check::explain::form::Form;
use hg_check::explain::race::explain_race;
use hg_options::task::{ErrorExitcode, Explaining, Jobs, Subject};
use hg_streams::streams::Streams;
use hg_verbose::lines::Lines;
use std::alloc::Global;
use std::io::{Read, Write};
use std::thread::Threads;

/// What is printed of a trace.
#[derive(Clone, Copy, Drop)]
pub enum Printing {
    /// Its races. Where some are counted, the status is `error_exitcode`, if it is given, in place of 0.
    Races {
        error_exitcode: Option<ErrorExitcode>,
    },
    /// Its thread segments.
    Segments,
}

/// Prints the races of a trace, whose lines are read by up to `jobs` threads, and answers the status.
fn check_text<T: Threads + Sync, R: Read, W: Write, V: Write>(
    threads: &T,
    jobs: usize,
    alloc: Global,
    error_exitcode: Option<ErrorExitcode>,
    streams: &mut Streams<R, W, V>,
) -> u8
    ensures { ChecksAndExits error_exitcode result streams.old streams.new }
{
    let checked = check(threads, jobs, alloc, streams);
    exit_status(checked.status, checked.has_races, error_exitcode)
}

/// Prints what is asked for of a trace, whose lines are read by up to `jobs` threads, and answers the status.
fn print_text<T: Threads + Sync, R: Read, W: Write, V: Write>(
    threads: &T,
    jobs: usize,
    alloc: Global,
    printing: Printing,
    streams: &mut Streams<R, W, V>,
) -> u8
    ensures { PrintsAndExits printing result streams.old streams.new }
{
    match printing {
        Printing::Races { error_exitcode } => {
            check_text(threads, jobs, alloc, error_exitcode, streams)
        }
        Printing::Segments => graph(threads, jobs, alloc, streams),
    }
}

/// Prints what is asked for of the trace on standard input, and tells what the last line means.
fn print_and_tell<T: Threads + Sync>(
    threads: &T,
    jobs: usize,
    rt: &HostRuntime,
    printing: Printing,
    lines: Lines,
) -> u8 {
    let mut streams = noted_streams(rt, lines);
    let status = print_text(threads, jobs, rt.alloc(), printing, &mut streams);
    let Streams {
        input,
        output,
        faults,
    } = streams;
    tell_of_text(rt, &mut input.into_stream(), &output, &faults);
    status
}

/// Prints what is asked for of the trace on standard input, and where `verbose` is set tells what the last line means. Where there is no
/// memory for a meaning it is left out.
pub fn print_of_input<T: Threads + Sync>(
    threads: &T,
    printing: Printing,
    jobs: Jobs,
    rt: &HostRuntime,
    verbose: bool,
) -> u8 {
    let jobs = usize::from(jobs.threads);
    if verbose {
        if let Ok(lines) = Lines::new(rt.alloc()) {
            return print_and_tell(threads, jobs, rt, printing, lines);
        }
    }
    print_text(threads, jobs, rt.alloc(), printing, &mut plain_streams(rt))
}

/// Explains a word by a trace text, and answers the status.
fn explain_text<R: Read, W: Write, V: Write>(
    alloc: Global,
    explaining: Explaining,
    streams: &mut Streams<R, W, V>,
) -> u8
    ensures { ExplainsText explaining result streams.old streams.new }
{
    let form = Form {
        all: explaining.all,
        lines: true,
    };
    match explaining.subject {
        Subject::Word { address } => explain(alloc, address, form, streams),
        Subject::Race { number } => explain_race(alloc, number, form, streams),
    }
}

/// Explains a word by the trace on standard input.
pub fn explain_input(rt: &HostRuntime, explaining: Explaining) -> u8 {
    explain_text(rt.alloc(), explaining, &mut plain_streams(rt))
}
