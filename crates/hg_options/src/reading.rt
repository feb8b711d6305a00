//! From the words of a command line to what they ask for.

ghost use Rattle.std.specs.Prelude.{◌≡◌, [], IfOk};
ghost use Rattle.clap.specs.Words.{FailsBy, HasMatchesOf, fault_of, subcommand_rows_of};
ghost use Rattle.hg_options.specs.CommandLine as spec;
ghost use Rattle.hg_options.specs.Tasks.{IsReadBy, IsReading, IsToldOf};
ghost use Rattle.hg_options.specs.Tools.{texts};

use crate::commands::hgd;
use crate::matches::task;
use crate::task::{Misread, Task};
use clap::error::ErrorKind;
use clap::{ArgMatches, Error};
use std::alloc::{AllocError, Global};
use std::string::String;

/// What the words of a command line ask for, or what is to be told instead. The first word is the program's name, and
/// `version` is what `--version` tells behind it.
///
/// The commands are those of `specs/CommandLine.antt`.
pub fn read<'a>(alloc: Global, words: &'a [String], version: &'a str) -> Result<Task<'a>, Misread>
    ensures { IsReadBy spec.hgd (texts words.entry.now) result }
{
    match matches(alloc, words, version) {
        Ok(matches) => asked_for(&matches),
        Err(error) => Err(misread(alloc, &error)),
    }
}

/// What the matches of a command line ask for.
fn asked_for<'a>(matches: &ArgMatches<'a>) -> Result<Task<'a>, Misread>
    ensures { IsReading [] (subcommand_rows_of matches.now) result }
{
    match matches.subcommand() {
        Some((name, given)) => task(name, given),
        None => Err(Misread::Incomplete),
    }
}

/// The matches of the words.
fn matches<'a>(
    alloc: Global,
    words: &'a [String],
    version: &'a str,
) -> Result<ArgMatches<'a>, Error>
    ensures matches { IfOk result (HasMatchesOf spec.hgd (texts words.entry.now)) }
    ensures kinds { FailsBy (fault_of spec.hgd (texts words.entry.now)) result }
{
    hgd(alloc, version)?.try_get_matches_from(words)
}

/// What is told of an error.
fn misread(alloc: Global, error: &Error) -> Misread
    ensures { IsToldOf error.now result }
{
    let kind = error.kind();
    if kind == ErrorKind::OutOfMemory {
        return Misread::OutOfMemory;
    }
    let Ok(text) = format!(in alloc; "{error}") else {
        return Misread::OutOfMemory;
    };
    if error.use_stderr() {
        Misread::Bad(text)
    } else {
        Misread::Help(text)
    }
}
