//! The connections that a server takes.

ghost use Rattle.std.specs.Prelude.{◌≡◌, ◌+◌, ◌<◌, ◌≤◌, None};

use crate::handing::{Cut, Taken};
use crate::health::Health;
use crate::listening::{Connection, Listener};
use crate::wire::Guest;
use crate::worker::{Gate, Pass, Point};
use crossbeam_channel::Sender;
use std::io::ErrorKind;
use std::sync::Wait;
use std::thread;
use std::time::{Clock, Duration};

/// How long the server waits before it listens on, where no connection waits or the system has no room for one, in milliseconds.
const PAUSE_MILLISECONDS: u64 = 10;

/// Waits before it is listened on. Where the system has no room for a connection, which is the only other cause, the gate is asked.
fn wait_on<G: Gate, R: Clock>(rt: &R, gate: &G, cause: ErrorKind) -> Pass {
    if cause != ErrorKind::WouldBlock && gate.at(Point::NoRoom) == Pass::Stop {
        return Pass::Stop;
    }
    thread::sleep(rt, Duration::from_millis(PAUSE_MILLISECONDS));
    Pass::Go
}

/// Listens for the next connection that does not fail before it is taken. Where none waits, or the system has no room for one, it listens on
/// for as long as that lasts: a listener that is bound fails for no other cause. There is none any more where the store is broken, or the gate
/// says stop, which it tells.
fn listen<G: Gate, R: Clock + Wait>(
    rt: &R,
    listener: &Listener,
    health: &Health,
    gate: &G,
) -> Result<Guest<Connection>, Cut> {
    for _ in rt.forever() {
        if health.is_broken() {
            return Err(Cut::Broken);
        }
        match listener.accept() {
            Ok(connection) if connection.prepare().is_ok() => return Ok(connection),
            Ok(_) => {}
            Err(error) => match error.kind() {
                ErrorKind::Interrupted | ErrorKind::ConnectionAborted => {}
                cause => {
                    if wait_on(rt, gate, cause) == Pass::Stop {
                        return Err(Cut::Stopped);
                    }
                }
            },
        }
    }
    unreachable!()
}

/// Takes connections from the listener, and hands each to a worker once one is free for it, until workers took so many. One that fails before
/// a worker has it counts for none. It is cut short where the store is broken, the gate says stop, no worker is left, or memory is refused.
pub(crate) fn accept_all<G: Gate, R: Clock + Wait>(
    rt: &R,
    listener: &Listener,
    connections: u16,
    health: &Health,
    gate: &G,
    to: Sender<Guest<Connection>>,
) -> Taken
    ensures all { result.cut ≡ None → result.count ≡ connections }
{
    let mut taken = Taken::none();
    let _ = listener.answer_at_once();
    while taken.count() < connections {
        let connection = match listen(rt, listener, health, gate) {
            Ok(connection) => connection,
            Err(why) => return taken.cut_short(why),
        };
        if let Err(why) = taken.hand(rt, connection, health, &to) {
            return taken.cut_short(why);
        }
    }
    taken
}
