//! The messages of a trace: which were sent, and which of those were received.

ghost use Rattle.std.specs.Prelude.{◌≡◌, ◌≤◌, ◌==◌, ◌∷◌, ◌++◌, [], true, List, ℕ, None, Some, OnOk, if◌then◌else◌};
ghost use Rattle.hg_model.specs.declared.segment.Segment.{Segment};
ghost use Rattle.hg_model.specs.Messages.{Agrees, at, is_taken, is_there};
ghost use Rattle.hg_rules.specs.Messages.{may_follow, may_note, noted, room_for};

use hg_model::segment::Mark;
use hg_numbers::NumberTable;
use std::alloc::{AllocError, Global};
use std::marker::Model;

/// The messages that were sent, each with whether it was received. A contract sees look-ups, and for how many more
/// messages there is room.
#[derive(Drop)]
pub struct MessageTable {
    received: NumberTable<bool>,
}

impl Model for MessageTable {
    ghost use Rattle.hg_model.specs.Messages.{Messages};

    ghost Value = { Messages };

    ghost view = { λ s. record { entries = s.received.entries; room = s.received.room } };
}

impl MessageTable {
    /// No message. It takes no memory yet.
    pub fn new(alloc: Global) -> Self
        ensures none { (k : ℕ) → at result k ≡ None }
        ensures agrees { Agrees [] result }
    {
        MessageTable {
            received: NumberTable::new(alloc),
        }
    }

    /// Whether the message was sent.
    #[inline(always)]
    pub fn is_sent(&self, message: u32) -> bool
        ensures { result ≡ is_there (at self.now message) }
    {
        self.received.get(message).is_some()
    }

    /// Whether the message was received.
    #[inline(always)]
    pub fn is_received(&self, message: u32) -> bool
        ensures { result ≡ is_taken (at self.now message) }
    {
        match self.received.get(message) {
            Some(received) => received,
            None => false,
        }
    }

    /// Whether the message was received, if it was sent.
    #[inline(always)]
    pub fn received(&self, message: u32) -> Option<bool>
        ensures { result ≡ at self.now message }
    {
        self.received.get(message)
    }

    /// Whether the next segment may have this mark: a message is sent once, and received once, behind its send.
    pub fn may_note(&self, mark: Mark) -> bool
        ensures value { result ≡ may_note self.now mark }
        ensures follows { (segments : List Segment) → Agrees segments self.now → result ≡ may_follow segments mark }
    {
        match mark {
            Mark::Plain => true,
            Mark::Sent(message) => !self.is_sent(message),
            Mark::Got(message) => match self.received(message) {
                Some(received) => !received,
                None => false,
            },
        }
    }

    /// Makes room for one more message. The messages stay.
    #[inline(always)]
    pub fn make_room(&mut self) -> Result<(), AllocError>
        ensures room { OnOk result (1 ≤ self.new.room) }
        ensures same { (k : ℕ) → at self.new k ≡ at self.old k }
    {
        self.received.make_room()
    }

    /// Notes the mark of the next segment. It takes no memory.
    #[inline(always)]
    pub fn note(&mut self, mark: Mark)
        requires lawful { may_note self.old mark ≡ true }
        requires room { room_for mark ≤ self.old.room }
        ensures noted { (k : ℕ) → at self.new k ≡ noted self.old mark k }
        ensures agrees { (segments : List Segment) (s : Segment) → s.mark ≡ mark → Agrees segments self.old →
            Agrees (segments ++ s ∷ []) self.new }
    {
        match mark {
            Mark::Plain => {}
            Mark::Sent(message) => self.set(message, false),
            Mark::Got(message) => self.set(message, true),
        }
    }

    // Notes whether a message was received.
    #[inline(always)]
    fn set(&mut self, message: u32, received: bool)
        requires { 1 ≤ self.old.room }
        ensures { (k : ℕ) → at self.new k ≡ (if message == k then Some received else at self.old k) }
    {
        self.received.set(message, received);
    }
}
