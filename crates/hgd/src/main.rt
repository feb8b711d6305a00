//! `hgd`: a detector of data races in traces of programs with threads.
#![tactic(auto)]

ghost use Rattle.std.specs.Prelude.{◌≡◌};
ghost use Rattle.hgd.specs.Misread.{status_for};

mod listening;
mod serving;
mod version;

use crate::serving::serve_in;
use crate::version::VERSION;
use hg_commands::settings::FeedSettings;
use hg_options::limits::DEFAULT_FRAMES;
use hg_options::reading::read;
use hg_options::task::{Frames, Jobs, Misread, Serving, Source, StoreTask, Task};
use hg_streams::listing::Listing;
use hg_streams::telling::FAULT;
use hg_tasks::directory::Cause;
use hg_tasks::faults::fail;
use hg_tasks::stores::{create_in, explain_in, feed_in, migrate_in, print_of_store};
use hg_tasks::texts::{Printing, explain_input, print_of_input};
use std::env;
use std::io::ErrorKind;
use std::process::ExitCode;

/// The status of a bad command line.
const BAD_COMMAND_LINE: u8 = 4;

/// What is told of a command line whose fault clap does not see.
fn fault_text(misread: &Misread) -> &'static str {
    match misread {
        Misread::BadAddress => {
            "error: ADDRESS is no number from 0 to 2^64-1, in decimal or in hexadecimal after 0x\n"
        }
        Misread::NoWord => "error: one of ADDRESS and --race K is wanted\n",
        Misread::TwoWords => "error: ADDRESS and --race K can't both be given\n",
        Misread::BadPort => "error: PORT is neither a number from 1 to 65535 nor `unix`\n",
        _ => "error: the command lacks an argument\n",
    }
}

/// The status of a command line that asks for no task, where its text is printed.
fn status_of(misread: &Misread) -> u8
    ensures { result ≡ status_for misread.now }
{
    match misread {
        Misread::Help(_) => 0,
        Misread::OutOfMemory => FAULT,
        _ => BAD_COMMAND_LINE,
    }
}

/// Prints the text for a command line that asks for no task, and answers the status.
fn tell_misread(rt: &HostRuntime, misread: &Misread) -> u8 {
    let printed = match misread {
        Misread::Help(text) => rt.print(text),
        Misread::Bad(text) => rt.eprint(text),
        Misread::OutOfMemory => return fail(rt, Cause::OutOfMemory),
        other => rt.eprint(fault_text(other)),
    };
    if printed.is_err() {
        return fail(rt, Cause::DeviceFault);
    }
    status_of(misread)
}

/// What becomes of a command line.
#[derive(Drop)]
enum Outcome<'a> {
    /// It is done, with this status.
    Done {
        status: u8,
    },
    /// The trace on standard input is to be read. Threads can be made in `main` alone.
    Text {
        printing: Printing,
        jobs: Jobs,
        verbose: bool,
    },
    /// The trace on standard input is to be fed to a store.
    Feed {
        directory: &'a str,
        settings: FeedSettings,
        verbose: bool,
    },
    /// A store is to be served.
    Serve {
        directory: &'a str,
        serving: Serving,
    },
}

/// How a store is fed.
fn feed_settings(source: Source, frames: Frames, jobs: Jobs, checkpoint: bool) -> FeedSettings
    ensures source { result.source ≡ source.number }
    ensures frames { result.frames ≡ frames.pages }
    ensures jobs { result.jobs ≡ jobs.threads }
    ensures checkpoint { result.checkpoint ≡ checkpoint }
{
    FeedSettings {
        source: source.number,
        frames: frames.pages,
        jobs: usize::from(jobs.threads),
        checkpoint,
    }
}

/// Does a task on the store in a directory, except feeding and serving it.
fn perform_on_store<'a>(rt: &HostRuntime, directory: &'a str, task: StoreTask) -> Outcome<'a> {
    let status = match task {
        StoreTask::Create => create_in(rt, directory),
        StoreTask::Migrate => migrate_in(rt, directory),
        StoreTask::Feed {
            source,
            frames,
            jobs,
            checkpoint,
            verbose,
        } => {
            let settings = feed_settings(source, frames, jobs, checkpoint);
            return Outcome::Feed {
                directory,
                settings,
                verbose,
            };
        }
        StoreTask::Reports {
            frames,
            error_exitcode,
            verbose,
        } => print_of_store(
            rt,
            directory,
            Listing::Reports,
            frames,
            error_exitcode,
            verbose,
        ),
        StoreTask::Graph { verbose } => {
            let frames = Frames {
                pages: DEFAULT_FRAMES,
            };
            print_of_store(rt, directory, Listing::Segments, frames, None, verbose)
        }
        StoreTask::Serve { serving } => return Outcome::Serve { directory, serving },
    };
    Outcome::Done { status }
}

/// Does what the words of the command line ask for, except what needs threads.
fn perform<'a>(rt: &HostRuntime, words: &'a [String]) -> Outcome<'a> {
    let task = match read(rt.alloc(), words, VERSION) {
        Ok(task) => task,
        Err(misread) => {
            return Outcome::Done {
                status: tell_misread(rt, &misread),
            };
        }
    };
    match task {
        Task::Check {
            jobs,
            error_exitcode,
            verbose,
        } => Outcome::Text {
            printing: Printing::Races { error_exitcode },
            jobs,
            verbose,
        },
        Task::Graph { jobs, verbose } => Outcome::Text {
            printing: Printing::Segments,
            jobs,
            verbose,
        },
        Task::Explain {
            directory: None,
            explaining,
        } => Outcome::Done {
            status: explain_input(rt, explaining),
        },
        Task::Explain {
            directory: Some(directory),
            explaining,
        } => Outcome::Done {
            status: explain_in(rt, directory, explaining),
        },
        Task::OnStore { directory, task } => perform_on_store(rt, directory, task),
    }
}

/// The words of the command line. Where they can't be read, that is told, and the status is answered.
fn words_of(rt: &HostRuntime) -> Result<Vec<String>, u8> {
    let words = match env::args(rt) {
        Ok(words) => words,
        Err(error) if error.kind() == ErrorKind::OutOfMemory => {
            return Err(fail(rt, Cause::OutOfMemory));
        }
        Err(_) => {
            let _ = rt.eprint("error: an argument is not valid UTF-8\n");
            return Err(BAD_COMMAND_LINE);
        }
    };
    match Vec::from_iter(rt.alloc(), words) {
        Ok(words) => Ok(words),
        Err(_) => Err(fail(rt, Cause::OutOfMemory)),
    }
}

fn main(rt: HostRuntime) -> ExitCode {
    let words = match words_of(&rt) {
        Ok(words) => words,
        Err(status) => return ExitCode::from(status),
    };
    let status = match perform(&rt, words.as_slice()) {
        Outcome::Done { status } => status,
        Outcome::Text {
            printing,
            jobs,
            verbose,
        } => print_of_input(&rt, printing, jobs, &rt, verbose),
        Outcome::Feed {
            directory,
            settings,
            verbose,
        } => feed_in(&rt, &rt, directory, settings, verbose),
        Outcome::Serve { directory, serving } => serve_in(&rt, &rt, directory, serving),
    };
    ExitCode::from(status)
}
