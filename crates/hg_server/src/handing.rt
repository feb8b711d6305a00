//! The connections that workers took.

ghost use Rattle.std.specs.Prelude.{◌≡◌, ◌+◌, ◌<◌, IfErr, IfSome, None, OnErr, OnOk, Some};
ghost use Rattle.hg_server.specs.Recording.{Accounts, Explains, WasCut, fault_of, held_in};

use crate::fault::ServingFault;
use crate::health::Health;
use crate::listening::Connection;
use crate::talks::Records;
use crate::wire::Guest;
use crossbeam_channel::{SendTimeoutError, Sender};
use std::sync::Wait;
use std::time::{Clock, Duration};

/// How long a connection waits for a worker before it is asked whether the store works, in milliseconds.
const TURN_MILLISECONDS: u64 = 1000;

/// Why workers took fewer connections than were asked for, or their conversations are not on record.
#[derive(Clone, Copy, PartialEq, Eq, Drop)]
pub enum Cut {
    /// The store is broken.
    Broken,
    /// The gate said stop, where the system had no room for a connection.
    Stopped,
    /// No worker was left.
    NoWorker,
    /// Memory was refused where a connection was handed over.
    NoMemory,
    /// No connection was listened for: no store was opened, or `ready` was not printed.
    Unready,
    /// Memory was refused to start the threads, or to take in what they were told.
    Unrecorded,
    /// What the threads were told is not what was counted under the lock.
    Disputed,
    /// Workers held more or fewer conversations than they took connections.
    Lost,
}

/// How that is told.
impl From<Cut> for ServingFault {
    ghost use Rattle.hg_server.specs.Recording.{fault_of};

    ghost from_gives = { λ why fault. fault ≡ fault_of why };

    fn from(why: Cut) -> ServingFault {
        match why {
            Cut::Broken => ServingFault::DeviceFault,
            Cut::Stopped => ServingFault::DeviceFault,
            Cut::NoWorker => ServingFault::DeviceFault,
            Cut::NoMemory => ServingFault::OutOfMemory,
            Cut::Unready => ServingFault::DeviceFault,
            Cut::Unrecorded => ServingFault::OutOfMemory,
            Cut::Disputed => ServingFault::DeviceFault,
            Cut::Lost => ServingFault::DeviceFault,
        }
    }
}

/// The same cause, if it is one why workers took fewer connections.
fn explained(cut: Option<Cut>) -> Option<Cut>
    ensures { IfSome result Explains }
{
    match cut {
        Some(Cut::Broken) => Some(Cut::Broken),
        Some(Cut::Stopped) => Some(Cut::Stopped),
        Some(Cut::NoWorker) => Some(Cut::NoWorker),
        Some(Cut::NoMemory) => Some(Cut::NoMemory),
        _ => None,
    }
}

/// How many connections workers took, and what cut that short, if something did. Nothing but `hand` makes the count grow, by one for each
/// connection that a worker took.
#[derive(Drop)]
pub struct Taken {
    count: u16,
    cut: Option<Cut>,
}

impl Taken {
    /// None was taken yet.
    pub(crate) fn none() -> Taken
        ensures count { result.count ≡ 0 }
        ensures cut { result.cut ≡ None }
    {
        let cut = None;
        Taken { count: 0, cut }
    }

    /// None was taken, for this cause.
    pub(crate) fn lacking(why: Cut) -> Taken
        ensures count { result.count ≡ 0 }
        ensures cut { result.cut ≡ Some why }
    {
        Taken::none().cut_short(why)
    }

    /// Notes that no more connections come, or that the conversations are not on record, for this cause.
    pub(crate) fn cut_short(self, why: Cut) -> Taken
        ensures count { result.count ≡ self.count }
        ensures cut { result.cut ≡ Some why }
    {
        Taken {
            count: self.count,
            cut: Some(why),
        }
    }

    /// Compares them with the conversations on record, and with how many connections were asked for. Where workers took all, and the
    /// conversation of each is on record, nothing was cut short.
    pub(crate) fn compared(self, talks: &Records, connections: u16) -> Taken
        ensures count { result.count ≡ self.count }
        ensures accounts { Accounts connections (held_in talks.now) result.count result.cut }
    {
        if !talks.are(self.count) {
            return self.cut_short(Cut::Lost);
        }
        if self.count == connections {
            return Taken {
                count: self.count,
                cut: None,
            };
        }
        match explained(self.cut) {
            Some(why) if self.count < connections => self.cut_short(why),
            _ => self.cut_short(Cut::Lost),
        }
    }

    /// Tells the fault of what cut it short, if something did.
    pub(crate) fn whole(&self) -> Result<(), ServingFault>
        ensures all { OnOk result (self.now.cut ≡ None) }
        ensures cause { IfErr result (WasCut self.now) }
    {
        match self.cut {
            None => Ok(()),
            Some(why) => Err(ServingFault::from(why)),
        }
    }

    /// How many they are.
    pub fn count(&self) -> u16
        ensures { result ≡ self.now.count }
    {
        self.count
    }

    /// Hands a connection to a worker, once one is free, and counts it. None takes it where the store is broken, where no worker is left, or
    /// where memory is refused.
    pub(crate) fn hand<R: Clock + Wait>(
        &mut self,
        rt: &R,
        connection: Guest<Connection>,
        health: &Health,
        to: &Sender<Guest<Connection>>,
    ) -> Result<(), Cut>
        requires room { self.old.count < 65535 }
        ensures taken { OnOk result (self.new.count ≡ self.old.count + 1) }
        ensures none { OnErr result (self.new.count ≡ self.old.count) }
        ensures cut { self.new.cut ≡ self.old.cut }
    {
        let mut left = connection;
        for _ in rt.forever() {
            match to.send_timeout(rt, left, Duration::from_millis(TURN_MILLISECONDS)) {
                Ok(()) => {
                    self.count += 1;
                    return Ok(());
                }
                Err(SendTimeoutError::Timeout(back)) => left = back,
                Err(SendTimeoutError::Disconnected(_)) => return Err(Cut::NoWorker),
                Err(SendTimeoutError::OutOfMemory(_)) => return Err(Cut::NoMemory),
            }
            if health.is_broken() {
                return Err(Cut::Broken);
            }
        }
        unreachable!()
    }
}
