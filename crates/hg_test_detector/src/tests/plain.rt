//! A worked trace, with the report and the state that the rules of detection give for it by hand.
ghost use Rattle.std.specs.Prelude.{◌≡◌, ◌<◌, ◌^◌, length, reverse};
ghost use Rattle.hg_test_plain.specs.Split.{InSpace};

use crate::tests::races::{Race, compare};
use hg_model::event::{Access, Event};
use hg_model::word::WordState;
use hg_test_plain::{reports_of, state_of};
use std::alloc::Global;
use std::process::Abort;
use std::test::Fail;

fn fork(p: u16, c: u16) -> Event
    ensures { result ≡ Event.Fork p c }
{
    Event::Fork { p, c }
}

fn lock(t: u16, l: u16) -> Event
    ensures { result ≡ Event.Lock t l }
{
    Event::Lock { t, l }
}

fn unlock(t: u16, l: u16) -> Event
    ensures { result ≡ Event.Unlock t l }
{
    Event::Unlock { t, l }
}

fn read(t: u16, at: u64, len: u8) -> Event
    ensures { result ≡ Event.Read (record { t = t; at = at; len = len }) }
{
    Event::Read(Access { t, at, len })
}

fn write(t: u16, at: u64, len: u8) -> Event
    ensures { result ≡ Event.Write (record { t = t; at = at; len = len }) }
{
    Event::Write(Access { t, at, len })
}

/// Whether a word is shared and written to, by these threads, under these candidate locks.
fn is_modified(state: &WordState, by: &[u16], under: &[u16]) -> bool {
    match state {
        WordState::SharedModified { threads, locks } => {
            threads.as_slice() == by && locks.as_slice() == under
        }
        _ => false,
    }
}

/// Whether the word at 0x1000 is shared and written to after a trace, by the threads 0 and 1, under the candidate lock 7, and the next
/// word as it began.
fn expect_modified(rt: &impl Abort, alloc: Global, events: &[Event]) -> Result<(), Fail>
    requires { length events.now < 2 ^ 20 }
{
    let state = state_of(alloc, events, 0x400)?;
    assert!(rt; is_modified(&state, &[0, 1], &[7]));
    expect_untouched(rt, alloc, events)
}

/// Whether the word at 0x1004 is as it began after a trace.
fn expect_untouched(rt: &impl Abort, alloc: Global, events: &[Event]) -> Result<(), Fail>
    requires { length events.now < 2 ^ 20 }
{
    let state = state_of(alloc, events, 0x401)?;
    assert!(rt; matches!(&state, WordState::New), "the word was touched");
    Ok(())
}

/// Whether a trace has just these reports.
fn expect(rt: &impl Abort, alloc: Global, events: &[Event], races: &[Race]) -> Result<(), Fail>
    requires few { length events.now < 2 ^ 20 }
    requires space { InSpace (reverse events.now) }
{
    let reports = reports_of(alloc, events)?;
    compare(rt, &reports, races);
    Ok(())
}

/// The example that docs/DEFINITIONS.md draws.
// A test, since no program calls hg_test_plain: it is the definitions as code. All other worked traces are rows.
#[test]
fn the_drawn_example(rt: HostRuntime) -> Result<(), Fail> {
    let events = [
        write(0, 0x1000, 4),
        fork(0, 1),
        write(1, 0x1000, 4),
        lock(0, 7),
        write(0, 0x1000, 4),
        unlock(0, 7),
        read(1, 0x1000, 4),
    ];
    expect_modified(&rt, rt.alloc(), &events[..6])?;
    expect(
        &rt,
        rt.alloc(),
        &events,
        &[Race(7, false, 1, 0x1000, &[0, 1])],
    )
}
