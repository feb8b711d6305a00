//! The record of the conversations that workers held.

ghost use Rattle.std.specs.Prelude.{◌≡◌, ◌∷◌, ◌≢◌, [], IsTrue, false};
ghost use Rattle.hg_server.specs.Recording.{held_in};

use crate::wire::Transcript;
use hg_trail::Trail;
use std::marker::Model;

/// The conversations that a worker held, the newest first, which contracts alone see, and how many they are.
#[derive(Drop)]
pub struct Talks {
    held: Trail<Transcript>,
    count: u64,
}

impl Model for Talks {
    ghost use Rattle.std.specs.Prelude.{List, length};
    ghost use Rattle.hg_server.specs.declared.wire.Transcript.{Transcript};
    ghost use Rattle.hg_server.specs.Recording.{IsCountOf};

    ghost Value = { List Transcript };

    ghost view = { λ t. t.held };

    ghost invariant = { λ t. IsCountOf (length t.held) t.count };
}

impl Talks {
    /// None was held yet.
    pub(crate) fn new() -> Talks
        ensures { result ≡ [] }
    {
        Talks {
            held: Trail::new(),
            count: 0,
        }
    }

    /// Notes one that has ended.
    pub(crate) fn push(&mut self, held: Transcript)
        ensures { self.new ≡ held ∷ self.old }
    {
        self.held.push(held);
        if self.count < u64::MAX {
            self.count += 1;
        }
    }
}

/// The conversations of each worker, which contracts alone see, and how many they are in all.
#[derive(Drop)]
pub struct Records {
    workers: Trail<Talks>,
    count: u64,
}

impl Model for Records {
    ghost use Rattle.std.specs.Prelude.{List};
    ghost use Rattle.hg_server.specs.declared.wire.Transcript.{Transcript};
    ghost use Rattle.hg_server.specs.Recording.{IsCountOf, held_in};

    ghost Value = { List (List Transcript) };

    ghost view = { λ r. r.workers };

    ghost invariant = { λ r. IsCountOf (held_in r.workers) r.count };
}

impl Records {
    /// Those of no worker.
    pub(crate) fn new() -> Records
        ensures { result ≡ [] }
    {
        Records {
            workers: Trail::new(),
            count: 0,
        }
    }

    /// Adds those of a worker.
    pub(crate) fn push(&mut self, talks: Talks)
        ensures { self.new ≡ talks ∷ self.old }
    {
        if talks.count <= u64::MAX - self.count {
            self.count += talks.count;
        } else {
            self.count = u64::MAX;
        }
        self.workers.push(talks);
    }

    /// Whether they are so many.
    pub(crate) fn are(&self, count: u16) -> bool
        ensures yes { IsTrue result → held_in self.now ≡ count }
        ensures no { result ≡ false → held_in self.now ≢ count }
    {
        self.count == u64::from(count)
    }
}
