//! Tries parts of `hgd` on what standard input says, and prints what comes of it. The first word says which part.
//!
//! | Words | What is tried | Status |
//! |---|---|---|
//! | `store` | stores, by scenarios (tests/scenarios/README.md) | 0, or 1 where one failed |
//! | `log` | logs, journals and gated files, by scenarios | 0, or 1 where one failed |
//! | `conversations` | conversations with a store, line by line (tests/conversations) | 0 |
//! | `flusher` | a flusher, a worker and the books over a store, line by line (tests/run-trials) | 0 |
//! | `roots` | roots, page slots and disks, line by line (tests/formats, tests/disks) | 0 |
//! | `pool` | pools of pages, line by line (tests/pool) | 0 |
//! | `pool-checks memory`, `pool-checks pool FRAMES EVERY` | a detector over one of two maps, by a trace (tests/pool-checks) | that of `hgd check` |
//! | `--version` | nothing: the name of this program is printed | 0 |
//!
//! Other words are told on standard error, with the list of words, and the status is 4. Where standard input can't be read, where it is
//! no text, and where nothing can be printed, the status is 1, and 3 of `pool-checks`.
#![tactic(auto)]

use hg_test_desk::{run_conversations, run_flushers};
use hg_test_kit::text::Text;
use hg_test_logs::run_logs;
use hg_test_pools::{Way, answer_pools, check, way_of};
use hg_test_roots::answer_roots;
use hg_test_stores::run_stores;
use std::env;
use std::io::{Read, Result};
use std::process::ExitCode;
use std::sync::Wait;
use std::thread::Threads;
use std::time::Clock;

/// What is tried.
#[derive(Clone, Copy)]
enum Trial {
    Store,
    Log,
    Conversations,
    Flusher,
    Roots,
    Pool,
    PoolChecks(Way),
    /// Nothing.
    Version,
}

/// The status of words that are not understood.
const BAD_COMMAND_LINE: u8 = 4;

/// What is said of words that are not understood.
const WORDS: &str =
    "hg_test_trials: the first word is store, log, conversations, flusher, roots, pool or pool-checks; behind pool-checks stand memory, or pool FRAMES EVERY\n";

/// How many bytes of what is printed there is room for beforehand: they are printed also where all memory is refused.
const ROOM_OF_TEXT: usize = 65_536;

/// What one word names.
fn trial_named(word: &str) -> Option<Trial> {
    match word {
        "store" => Some(Trial::Store),
        "log" => Some(Trial::Log),
        "conversations" => Some(Trial::Conversations),
        "flusher" => Some(Trial::Flusher),
        "roots" => Some(Trial::Roots),
        "pool" => Some(Trial::Pool),
        "--version" => Some(Trial::Version),
        _ => None,
    }
}

/// What the words of a command line name.
fn trial_of(words: &[String]) -> Option<Trial> {
    let [_program, word, rest @ ..] = words else {
        return None;
    };
    if word.as_str() == "pool-checks" {
        return Some(Trial::PoolChecks(way_of(rest)?));
    }
    if rest.len() > 0 {
        return None;
    }
    trial_named(word.as_str())
}

/// Tries what is tried by lines of text, and answers whether all was right.
fn answer<R: Threads + Wait + Clock + Sync>(
    threads: &R,
    rt: &HostRuntime,
    trial: Trial,
    text: &str,
    out: &mut Text,
) -> bool {
    let alloc = rt.alloc();
    match trial {
        Trial::Store => return run_stores(alloc, text, out),
        Trial::Log => return run_logs(alloc, text, out),
        Trial::Conversations => run_conversations(alloc, text, out),
        Trial::Flusher => run_flushers(threads, alloc, text, out),
        Trial::Roots => answer_roots(rt, text, out),
        Trial::Pool => answer_pools(alloc, text, out),
        Trial::PoolChecks(_) => {}
        Trial::Version => out.put(b"hg_test_trials\n"),
    }
    true
}

/// Tries what is tried on the bytes of standard input, and answers the status.
fn answer_bytes<R: Threads + Wait + Clock + Sync>(
    threads: &R,
    rt: &HostRuntime,
    trial: Trial,
    input: &[u8],
    out: &mut Text,
) -> u8 {
    if let Trial::PoolChecks(way) = trial {
        return check(rt.alloc(), way, input, out);
    }
    match str::from_utf8(input) {
        Ok(text) if answer(threads, rt, trial, text, out) => 0,
        _ => 1,
    }
}

/// Reads standard input, prints what comes of it, and answers the status.
fn perform<R: Threads + Wait + Clock + Sync>(
    threads: &R,
    rt: &HostRuntime,
    trial: Trial,
) -> Result<u8> {
    let alloc = rt.alloc();
    let mut input = Vec::new(alloc);
    if !matches!(trial, Trial::Version) {
        rt.stdin().read_to_end(&mut input)?;
    }
    let mut out = Text::with_room(alloc, ROOM_OF_TEXT);
    let status = answer_bytes(threads, rt, trial, &input, &mut out);
    out.print(&mut rt.stdout())?;
    Ok(status)
}

/// Does what the words of a command line say, and answers the status. Only `main` can give what makes threads.
fn obey<R: Threads + Wait + Clock + Sync>(threads: &R, rt: &HostRuntime, words: &[String]) -> u8 {
    let Some(trial) = trial_of(words) else {
        let _ = rt.eprint(WORDS);
        return BAD_COMMAND_LINE;
    };
    match perform(threads, rt, trial) {
        Ok(status) => status,
        Err(_) if matches!(trial, Trial::PoolChecks(_)) => 3,
        Err(_) => 1,
    }
}

/// The words of the command line, or none where they can't be had.
fn words_of(rt: &HostRuntime) -> Option<Vec<String>> {
    let words = env::args(rt).ok()?;
    Vec::from_iter(rt.alloc(), words).ok()
}

fn main(rt: HostRuntime) -> ExitCode {
    match words_of(&rt) {
        Some(words) => ExitCode::from(obey(&rt, &rt, &words)),
        None => ExitCode::FAILURE,
    }
}
