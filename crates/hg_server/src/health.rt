//! Whether the store of a server works, as its threads see it.

ghost use Rattle.std.specs.Prelude.{◌≡◌};
ghost use Rattle.hg_desk.specs.Conversation.{count_of};

use hg_desk::locked::Core;
use hg_desk::share::{Column, Opening, Share};
use hg_desk::tasks::Task;
use hg_disk::Disk;
use hg_model::verdict::Refusal;
use std::sync::atomic::{AtomicBool, AtomicU64, Ordering};
use std::time::Duration;

/// What the threads of a server know of its store. No contract rests on it: it tells when a server ends, and not what it answers.
#[derive(Drop)]
pub(crate) struct Health {
    is_broken: AtomicBool,
}

impl Health {
    /// That of a store that works.
    fn new() -> Health {
        Health {
            is_broken: AtomicBool::new(false),
        }
    }

    /// Notes that the store is broken.
    pub(crate) fn note_broken(&self) {
        self.is_broken.store(true, Ordering::SeqCst);
    }

    /// Whether that was noted.
    pub(crate) fn is_broken(&self) -> bool {
        self.is_broken.load(Ordering::SeqCst)
    }
}

/// On what terms the clients of a server are served.
#[derive(Drop)]
pub struct Terms {
    /// How long a client may be silent, or for ever.
    pub(crate) silence: Option<Duration>,
    pub(crate) health: Health,
    /// From how many events on the flusher wants to be nudged. No contract rests on it.
    due_from: AtomicU64,
}

impl Terms {
    /// These, with a store that works, and a flusher that wants to be nudged until it says otherwise.
    pub fn new(silence: Option<Duration>) -> Terms {
        Terms {
            silence,
            health: Health::new(),
            due_from: AtomicU64::new(0),
        }
    }

    /// Notes from how many events on the flusher wants to be nudged.
    pub(crate) fn note_due_from(&self, events: u64) {
        self.due_from.store(events, Ordering::SeqCst);
    }

    /// Whether the flusher wants to be nudged when a store has so many events. It does not where the store is broken.
    pub(crate) fn is_due(&self, events: &Result<u64, Refusal>) -> bool {
        match events {
            Ok(events) => *events >= self.due_from.load(Ordering::SeqCst),
            Err(_) => false,
        }
    }
}

/// Asks how many events the store has accepted. It is `Broken` where a write, a cut or a sync has failed.
#[derive(Drop)]
pub(crate) struct EventsTask;

impl<D: Disk, A: Opening, B: Column> Task<D, A, B> for EventsTask {
    type Out = Result<u64, Refusal>;

    ghost promise = { λ t old new res. new ≡ old };

    fn run(self, core: &mut Core<D, A, B>, share: &mut Share<A, B>) -> Result<u64, Refusal>
        ensures promise { share.new ≡ share.old }
        ensures events { result ≡ count_of ⟦<D as Disk>⟧ core.old }
        ensures same { core.new ≡ core.old }
    {
        core.events()
    }
}
