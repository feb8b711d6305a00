//! Thread segments.

ghost use Rattle.std.specs.Prelude.{◌≡◌, ◌∷◌, []};

use crate::limits::MOST_PREDECESSORS;
use arrayvec::ArrayVec;
use std::marker::Model;

/// The numbers of the segments that stand right before one, at most two. A contract sees the list of them.
#[derive(Drop)]
pub struct Predecessors {
    numbers: ArrayVec<u32, MOST_PREDECESSORS>,
}

impl Model for Predecessors {
    ghost use Rattle.std.specs.Prelude.{◌≤◌, List, ℕ, length};
    ghost use Rattle.hg_model.specs.declared.limits.TheConstants.{MOST_PREDECESSORS};

    ghost Value = { List ℕ };

    ghost view = { λ s. s.numbers.items };

    ghost invariant = { λ s. length s.numbers.items ≤ MOST_PREDECESSORS };
}

impl Predecessors {
    /// No number.
    pub fn none() -> Self
        ensures { result ≡ [] }
    {
        Predecessors {
            numbers: ArrayVec::new(),
        }
    }

    /// One number.
    pub fn one(number: u32) -> Self
        ensures { result ≡ number ∷ [] }
    {
        let mut numbers = ArrayVec::new();
        numbers.push(number);
        Predecessors { numbers }
    }

    /// Two numbers, in this order. The caller sees to it that they rise.
    pub fn two(first: u32, second: u32) -> Self
        ensures { result ≡ first ∷ second ∷ [] }
    {
        let mut numbers = ArrayVec::new();
        numbers.push(first);
        numbers.push(second);
        Predecessors { numbers }
    }

    /// The numbers.
    pub fn as_slice(&self) -> &[u32]
        ensures { result.now ≡ self.now }
    {
        self.numbers.as_slice()
    }
}

/// How a segment was opened, as far as messages go.
#[derive(Clone, Copy, Debug, PartialEq, Eq, Drop)]
pub enum Mark {
    /// Neither by a send nor by a receive.
    Plain,
    /// By the send of this message.
    Sent(u32),
    /// By the receive of this message.
    Got(u32),
}

/// A part of a thread between two forks, joins, sends or receives, and the segments that stand right before it.
#[derive(Drop)]
pub struct Segment {
    /// The thread.
    pub thread: u16,
    /// The segments right before it: none for the first, one after a fork or a send, two after a join or a receive.
    pub before: Predecessors,
    /// The message that was sent or received as it was opened.
    pub mark: Mark,
}
