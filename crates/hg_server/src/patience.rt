//! How long a client is waited for.

use crate::health::Terms;
use std::io::ErrorKind;
use std::time::{Clock, Duration, Instant};

/// How long a client that sends on is answered when the store is broken, in seconds.
const LAST_SECONDS: u64 = 2;

/// How long a client is waited for: until it was answered nothing for as long as it may be silent, or until the store is broken and
/// what it had sent is answered. A client is answered for whole frames, so one that sends a frame byte by byte is silent.
#[derive(Drop)]
pub(crate) struct Patience<'a> {
    terms: &'a Terms,
    /// When it ends if the client is answered nothing until then.
    end: Option<Instant>,
    /// Whether that end stands, since the store is broken.
    is_ending: bool,
}

/// Whether a read failed for no longer than that call: nothing came meanwhile, or a signal did.
pub(crate) fn may_read_on(kind: ErrorKind) -> bool {
    match kind {
        ErrorKind::Interrupted => true,
        ErrorKind::WouldBlock => true,
        ErrorKind::TimedOut => true,
        _ => false,
    }
}

/// So long from now on, or never. Where the clock fails it is never.
fn in_future<R: Clock>(clock: &R, most: Option<Duration>) -> Option<Instant> {
    match (most, Instant::now(clock)) {
        (Some(most), Ok(now)) => now.checked_add(most),
        _ => None,
    }
}

impl<'a> Patience<'a> {
    /// That with a client who was met just now.
    pub fn new<R: Clock>(clock: &R, terms: &'a Terms) -> Patience<'a> {
        Patience {
            terms,
            end: in_future(clock, terms.silence),
            is_ending: false,
        }
    }

    /// Begins anew: the client was answered just now.
    pub fn renew<R: Clock>(&mut self, clock: &R) {
        if self.terms.silence.is_some() && !self.is_ending {
            self.end = in_future(clock, self.terms.silence);
        }
    }

    /// Whether the client is waited for no longer. Sees whether the store is broken.
    pub fn is_over<R: Clock>(&mut self, clock: &R) -> bool {
        if self.terms.health.is_broken() && !self.is_ending {
            self.is_ending = true;
            self.end = in_future(clock, Some(Duration::from_secs(LAST_SECONDS)));
        }
        match (self.end, Instant::now(clock)) {
            (Some(end), Ok(now)) => now >= end,
            _ => false,
        }
    }
}
