//! From the matches of a command line to what it asks for.

ghost use Rattle.std.specs.Prelude.{◌≡◌, ◌↔◌, ◌≤◌, ℕ, Some, None, IfErr, IfOk, codes, option_map, true};
ghost use Rattle.clap.specs.Words.{first_of, found_of, rows_of};
ghost use Rattle.hg_options.specs.Tasks.{AreFrames, AreJobs, AreServing, AsksFor, AsksOfStore, IsAddress, IsErrorExitcode, IsFirst, IsFlag, IsNoPlace, IsNoStoreOfRace, IsNoWord, IsNumber, IsPlace, IsRaceOption, IsSocket, IsSource, IsStoreOfRace};

use crate::arguments::{
    ADDRESS, ALL, CHECKPOINT, CONNECTIONS, DIRECTORY, ERROR_EXITCODE, EVERY, FRAMES, JOBS, PORT,
    RACE, SILENCE, SOURCE, VERBOSE, WORKERS,
};
use crate::limits::{
    DEFAULT_EVERY, DEFAULT_FRAMES, GREATEST_PORT, LEAST_FRAMES, MOST_CONNECTIONS, MOST_EVERY,
    MOST_FRAMES, MOST_JOBS, MOST_RACE, MOST_SILENCE, MOST_WORKERS,
};
use crate::task::{
    ErrorExitcode, Explaining, Frames, Jobs, Misread, Place, Serving, Source, StoreTask, Subject,
    Task,
};
use clap::ArgMatches;
use hg_model::limits::GREATEST_SOURCE;
use hg_wire::number::number_of_token;

/// The number that an argument spells, or `other` where it spells none from `low` to `high`.
fn number(given: &ArgMatches<'_>, id: &str, low: u16, high: u16, other: u16) -> u16
    ensures { IsNumber id.now low high other (rows_of (found_of given.now)) result }
{
    match given.get_one::<u16>(id) {
        Some(number) => {
            if low <= number && number <= high {
                number
            } else {
                other
            }
        }
        None => other,
    }
}

/// The number of 32 bits that an argument spells, or `other` where it spells none from `low` to `high`.
fn wide_number(given: &ArgMatches<'_>, id: &str, low: u32, high: u32, other: u32) -> u32
    ensures { IsNumber id.now low high other (rows_of (found_of given.now)) result }
{
    match given.get_one::<u32>(id) {
        Some(number) => {
            if low <= number && number <= high {
                number
            } else {
                other
            }
        }
        None => other,
    }
}

/// How many pages may be in memory.
fn frames(given: &ArgMatches<'_>) -> Frames
    ensures { AreFrames (rows_of (found_of given.now)) result }
{
    Frames {
        pages: number(given, FRAMES, LEAST_FRAMES, MOST_FRAMES, DEFAULT_FRAMES),
    }
}

/// How many threads read a trace.
fn jobs(given: &ArgMatches<'_>) -> Jobs
    ensures { AreJobs (rows_of (found_of given.now)) result }
{
    Jobs {
        threads: number(given, JOBS, 1, MOST_JOBS, 1),
    }
}

/// The status where races are counted, if one is asked for.
fn error_exitcode(given: &ArgMatches<'_>) -> Option<ErrorExitcode>
    ensures { IsErrorExitcode (rows_of (found_of given.now)) result }
{
    let Some(status) = given.get_one::<u8>(ERROR_EXITCODE) else {
        return None;
    };
    if status == 0 {
        return None;
    }
    Some(ErrorExitcode { status })
}

/// The source of the events.
fn source(given: &ArgMatches<'_>) -> Source
    ensures { IsSource (rows_of (found_of given.now)) result }
{
    Source {
        number: number(given, SOURCE, 0, GREATEST_SOURCE, 0),
    }
}

/// Whether PORT is the word for a socket.
fn is_socket(given: &ArgMatches<'_>) -> bool
    ensures { (result ≡ true) ↔ IsSocket (rows_of (found_of given.now)) }
{
    match given.get_str(PORT) {
        Some(text) => text == "unix",
        None => false,
    }
}

/// Where clients connect.
fn place(given: &ArgMatches<'_>) -> Result<Place, Misread>
    ensures place { IfOk result (IsPlace (rows_of (found_of given.now))) }
    ensures none { IfErr result (IsNoPlace (rows_of (found_of given.now))) }
{
    let port = number(given, PORT, 1, GREATEST_PORT, 0);
    if port > 0 {
        return Ok(Place::Port { port });
    }
    if is_socket(given) {
        return Ok(Place::Socket);
    }
    Err(Misread::BadPort)
}

/// How a store is served.
fn serving(given: &ArgMatches<'_>) -> Result<Serving, Misread>
    ensures serving { IfOk result (AreServing (rows_of (found_of given.now))) }
    ensures none { IfErr result (IsNoPlace (rows_of (found_of given.now))) }
{
    let place = place(given)?;
    let workers = number(given, WORKERS, 1, MOST_WORKERS, 1);
    Ok(Serving {
        place,
        connections: number(given, CONNECTIONS, 1, MOST_CONNECTIONS, 1),
        workers,
        frames: frames(given),
        every: wide_number(given, EVERY, 1, MOST_EVERY, DEFAULT_EVERY),
        silence: number(given, SILENCE, 1, MOST_SILENCE, 0),
        verbose: is_set(given, VERBOSE),
    })
}

/// Whether a flag was given.
fn is_set(given: &ArgMatches<'_>, id: &str) -> bool
    ensures { IsFlag id.now (rows_of (found_of given.now)) result }
{
    match given.get_str(id) {
        Some(text) => text == "true",
        None => false,
    }
}

/// The number of the report whose word is asked for, if one is.
fn race(given: &ArgMatches<'_>) -> Option<u32>
    ensures { IsRaceOption (rows_of (found_of given.now)) result }
{
    let number = wide_number(given, RACE, 1, MOST_RACE, 0);
    if number == 0 {
        return None;
    }
    Some(number)
}

/// The word at an address.
fn word_at(given: &ArgMatches<'_>) -> Result<u64, Misread>
    ensures word { IfOk result (IsAddress (rows_of (found_of given.now))) }
    ensures none { IfErr result (IsNoWord (rows_of (found_of given.now))) }
{
    let Some(text) = given.get_str(ADDRESS) else {
        return Err(Misread::NoWord);
    };
    match number_of_token(text.as_bytes()) {
        Some(address) => Ok(address),
        None => Err(Misread::BadAddress),
    }
}

/// The text that stands where else ADDRESS does, as the directory of a store. One that is an address is none.
fn first_directory<'a>(given: &ArgMatches<'a>) -> Result<Option<&'a str>, Misread>
    ensures first { IfOk result (λ directory. IsFirst (rows_of (found_of given.now)) (option_map (λ t. t.now) directory)) }
    ensures none { IfErr result (IsNoStoreOfRace (rows_of (found_of given.now))) }
{
    let Some(text) = given.get_str(ADDRESS) else {
        return Ok(None);
    };
    match number_of_token(text.as_bytes()) {
        Some(_address) => Err(Misread::TwoWords),
        None => Ok(Some(text)),
    }
}

/// The directory of a store behind `--race`, where at most one text stands beside it.
fn directory_of_race<'a>(given: &ArgMatches<'a>) -> Result<Option<&'a str>, Misread>
    ensures store { IfOk result (λ directory. IsStoreOfRace (rows_of (found_of given.now)) (option_map (λ t. t.now) directory)) }
    ensures none { IfErr result (IsNoStoreOfRace (rows_of (found_of given.now))) }
{
    match given.get_str(DIRECTORY) {
        Some(_second) => Err(Misread::TwoWords),
        None => first_directory(given),
    }
}

/// The word whose life is printed, and of which store.
fn explain_task<'a>(given: &ArgMatches<'a>) -> Result<Task<'a>, Misread>
    ensures { AsksFor (codes "explain") (rows_of (found_of given.now)) result }
{
    let all = is_set(given, ALL);
    match race(given) {
        Some(number) => {
            let directory = directory_of_race(given)?;
            let subject = Subject::Race { number };
            Ok(Task::Explain {
                directory,
                explaining: Explaining { subject, all },
            })
        }
        None => {
            let address = word_at(given)?;
            let subject = Subject::Word { address };
            Ok(Task::Explain {
                directory: given.get_str(DIRECTORY),
                explaining: Explaining { subject, all },
            })
        }
    }
}

/// What a command asks for of a store, if it is one of those that may.
fn store_task(name: &str, given: &ArgMatches<'_>) -> Result<StoreTask, Misread>
    requires { name.now ≡ codes "explain" → ⊥ }
    ensures { AsksOfStore name.now (rows_of (found_of given.now)) result }
{
    match name {
        "create" => Ok(StoreTask::Create),
        "graph" => Ok(StoreTask::Graph {
            verbose: is_set(given, VERBOSE),
        }),
        "reports" => Ok(StoreTask::Reports {
            frames: frames(given),
            error_exitcode: error_exitcode(given),
            verbose: is_set(given, VERBOSE),
        }),
        "feed" => Ok(StoreTask::Feed {
            source: source(given),
            frames: frames(given),
            jobs: jobs(given),
            checkpoint: is_set(given, CHECKPOINT),
            verbose: is_set(given, VERBOSE),
        }),
        "serve" => {
            let serving = serving(given)?;
            Ok(StoreTask::Serve { serving })
        }
        "migrate" => Ok(StoreTask::Migrate),
        _ => Err(Misread::Incomplete),
    }
}

/// What a command asks for without a store, if it is one of those that may.
fn stream_task<'a>(name: &str, given: &ArgMatches<'_>) -> Result<Task<'a>, Misread>
    requires other { name.now ≡ codes "explain" → ⊥ }
    requires alone { first_of (codes "DIR") (rows_of (found_of given.now)) ≡ None }
    ensures { AsksFor name.now (rows_of (found_of given.now)) result }
{
    match name {
        "check" => Ok(Task::Check {
            jobs: jobs(given),
            error_exitcode: error_exitcode(given),
            verbose: is_set(given, VERBOSE),
        }),
        "graph" => Ok(Task::Graph {
            jobs: jobs(given),
            verbose: is_set(given, VERBOSE),
        }),
        _ => Err(Misread::Incomplete),
    }
}

/// What a command asks for.
pub fn task<'a>(name: &str, given: &ArgMatches<'a>) -> Result<Task<'a>, Misread>
    ensures { AsksFor name.now (rows_of (found_of given.now)) result }
{
    if name == "explain" {
        return explain_task(given);
    }
    match given.get_str(DIRECTORY) {
        Some(directory) => {
            let task = store_task(name, given)?;
            Ok(Task::OnStore { directory, task })
        }
        None => stream_task(name, given),
    }
}
