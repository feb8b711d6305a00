//! Reading the batches of a log, many of them by one call.

ghost use Rattle.std.specs.Prelude.{◌≡◌, ◌+◌, ◌≤◌, ◌^◌, ℕ, List, [], length, drop, IfSome};
ghost use Rattle.hg_gate.specs.Batches.{IsBodyLength};
ghost use Rattle.hg_gate.specs.Scan.{IsOpen};

use crate::scan::{HEAD_LEN, parse_head};
use std::alloc::Global;

/// How many bytes of a log are read at once, if the file has so many left. Each batch fits.
pub const PIECE_LEN: usize = 65_536;

/// A place in a log: the bytes of the present batch that were not passed yet, and those that were read ahead behind it.
/// The place of the next batch is counted from the first one on.
#[derive(Drop)]
pub struct LogReader {
    pub(crate) next: u64,
    pub(crate) piece: Vec<u8>,
    pub(crate) from: usize,
    pub(crate) to: usize,
    ghost order: { from ≤ to },
    ghost within: { to ≤ length piece.items },
}

impl LogReader {
    ghost use Rattle.hg_gate.specs.Turning.{IsReadTo, StaysReadTo, TurnsOver, WentOver, ahead_of, rest_of};

    /// A reader in front of the first batch. It takes no memory.
    pub(crate) fn new(alloc: Global) -> LogReader
        ensures first { (left : List (List ℕ)) → IsReadTo result [] left }
        ensures none { rest_of result ≡ [] }
        ensures begins { result.next ≡ 0 }
        ensures unread { ahead_of result ≡ [] }
    {
        LogReader {
            next: 0,
            piece: Vec::new(alloc),
            from: 0,
            to: 0,
        }
    }

    /// The bytes of the present batch that were not passed yet.
    #[inline(always)]
    pub fn rest(&self) -> &[u8]
        ensures { result.now ≡ rest_of self.now }
    {
        &self.piece[self.from..self.to]
    }

    /// Passes over the first bytes of these.
    #[inline(always)]
    pub fn pass(&mut self, count: usize)
        requires { count ≤ length (rest_of self.old) }
        ensures rest { rest_of self.new ≡ drop count (rest_of self.old) }
        ensures stays { StaysReadTo self.old self.new }
    {
        self.from += count;
    }

    // The length of the next batch's body, where the whole batch was read ahead, and a gate behind it.
    pub(crate) fn len_ahead(&self) -> Option<u32>
        ensures { IfSome result (IsOpen (ahead_of self.now)) }
    {
        let ahead = &self.piece[self.to..];
        let count = ahead.len().min(HEAD_LEN);
        match parse_head(&ahead[..count], ahead.len() as u64) {
            Ok(found) => found,
            Err(_) => None,
        }
    }

    // Makes the next batch, with a body of this length, the present one.
    pub(crate) fn turn(&mut self, len: u32)
        requires length { IsBodyLength len }
        requires whole { self.old.to + (5 + len) ≤ length self.old.piece.items }
        requires fits { self.old.next ≤ 2 ^ 62 }
        ensures turned { TurnsOver len self.old self.new }
        ensures over { WentOver (5 + len) self.old self.new }
    {
        self.next += HEAD_LEN as u64 + u64::from(len);
        self.from = self.to + HEAD_LEN;
        self.to = self.from + len as usize;
    }
}
