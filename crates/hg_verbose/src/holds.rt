//! The locks that are held after some events, and since when.

ghost use Rattle.std.specs.Prelude.{◌≡◌, ◌+◌, ◌∷◌, ◌++◌, [], ◌==◌, ◌&&◌, not, IfSome};
ghost use Rattle.std.specs.Bool.{OnTrue, OnFalse};
ghost use Rattle.std.specs.List.{filter};
ghost use Rattle.hg_verbose.specs.Holds.{HoldsFollow, IsHeldNow, IsOf, Saves, SavesOf, SavesOfEach, accepted, after};

use hg_model::event::Event;
use hg_model::thread::ThreadState;
use hg_trail::Trail;
use std::alloc::Global;
use std::marker::Model;

/// A lock that a thread holds.
#[derive(Clone, Copy, Drop)]
pub struct Hold {
    pub thread: u16,
    pub lock: u16,
    /// Whether it is held in write mode.
    pub write: bool,
    /// The number of the event that took it, from 1 on; or that of the last event that is gone, where that one or an earlier one took it.
    pub since: u64,
}

/// What is known: that an event was accepted as the next one, or that a checkpoint says behind the last one that a lock is held.
#[derive(Clone, Copy, Drop)]
pub enum Fact {
    Accepted(Event),
    Saved(Hold),
}

/// The locks that are held after some events: those that were taken by them, and those that a checkpoint has. A contract sees these facts,
/// the newest first, and the number of the last event before them.
#[derive(Drop)]
pub struct Holds {
    list: Vec<Hold>,
    /// The number of the last event before those that were followed.
    gone: u64,
    /// The number of the last event that was followed.
    last: u64,
    history: Trail<Fact>,
}

impl Model for Holds {
    ghost use Rattle.std.specs.Prelude.{◌≡◌, ◌+◌};
    ghost use Rattle.std.specs.List.{AllByRecursion};
    ghost use Rattle.hg_verbose.specs.Holds.{Followed, IsHeld, accepted};

    ghost Value = { Followed };

    ghost view = { λ s. record { gone = s.gone; facts = s.history } };

    ghost invariant = { λ s. (s.last ≡ s.gone + accepted s.history) × AllByRecursion (IsHeld s.gone s.history) s.list.items };
}

/// Adds a hold, unless memory is refused.
fn add(list: &mut Vec<Hold>, hold: Hold) -> bool
    ensures added { OnTrue result (list.new.items ≡ list.old.items ++ hold ∷ []) }
    ensures refused { OnFalse result (list.new.items ≡ list.old.items) }
{
    list.push(hold).is_ok()
}

/// Whether a hold is one of a thread and of a lock, each where it is given.
fn is_of(hold: &Hold, thread: Option<u16>, lock: Option<u16>) -> bool
    ensures { OnTrue result (IsOf thread lock hold.now) }
{
    if let Some(thread) = thread {
        if hold.thread != thread {
            return false;
        }
    }
    match lock {
        Some(lock) => hold.lock == lock,
        None => true,
    }
}

/// Lets a lock go.
fn let_go(list: &mut Vec<Hold>, thread: u16, lock: u16)
    ensures { list.new.items ≡ filter (λ h. not ((h.thread == thread) && (h.lock == lock))) list.old.items }
{
    list.retain(|hold| !(hold.thread == thread && hold.lock == lock));
}

/// Brings the holds after some events up to the next one, the event numbered `since`. `false` says that memory was refused.
fn change(list: &mut Vec<Hold>, event: Event, since: u64) -> bool
    ensures changed { OnTrue result (HoldsFollow event since list.old.items list.new.items) }
    ensures refused { OnFalse result (list.new.items ≡ list.old.items) }
{
    match event {
        Event::Lock { t, l } => add(
            list,
            Hold {
                thread: t,
                lock: l,
                write: true,
                since,
            },
        ),
        Event::RdLock { t, l } => add(
            list,
            Hold {
                thread: t,
                lock: l,
                write: false,
                since,
            },
        ),
        Event::Unlock { t, l } => {
            let_go(list, t, l);
            true
        }
        _ => true,
    }
}

impl Holds {
    /// No hold, behind the event of this number: 0 is before any event.
    pub fn behind(alloc: Global, gone: u64) -> Holds
        ensures { result ≡ record { gone = gone; facts = [] } }
    {
        Holds {
            list: Vec::new(alloc),
            gone,
            last: gone,
            history: Trail::new(),
        }
    }

    /// The number of the last event before those that were followed.
    pub fn gone(&self) -> u64
        ensures { result ≡ self.now.gone }
    {
        self.gone
    }

    /// The number of the last event.
    pub fn last(&self) -> u64
        ensures { result ≡ self.now.gone + accepted self.now.facts }
    {
        self.last
    }

    /// Takes the next event, and answers whether there was room for it.
    pub fn follow(&mut self, event: Event) -> bool
        ensures followed { OnTrue result (self.new ≡ after event self.old) }
        ensures refused { OnFalse result (self.new ≡ self.old) }
    {
        if self.last == u64::MAX {
            return false;
        }
        let since = self.last + 1;
        if !change(&mut self.list, event, since) {
            return false;
        }
        self.last = since;
        self.history.push(Fact::Accepted(event));
        true
    }

    /// Takes from a checkpoint that a thread holds a lock behind the last event. Where no event that was followed took it, one that is gone
    /// did. Answers whether there was room for it.
    fn save(&mut self, thread: u16, lock: u16, write: bool) -> bool
        ensures saved { OnTrue result (Saves thread lock write self.old self.new) }
        ensures refused { OnFalse result (self.new ≡ self.old) }
    {
        if self.of_both(thread, lock).is_some() {
            return true;
        }
        let hold = Hold {
            thread,
            lock,
            write,
            since: self.gone,
        };
        if !add(&mut self.list, hold) {
            return false;
        }
        self.history.push(Fact::Saved(hold));
        true
    }

    /// Takes from a checkpoint which locks a thread holds behind the last event, and answers whether there was room for all.
    fn save_of(&mut self, thread: &ThreadState) -> bool
        ensures { SavesOf thread.now self.old self.new }
    {
        let held = thread.held.as_slice();
        for i in 0..held.len() {
            if !self.save(thread.number, held[i].lock, held[i].write) {
                return false;
            }
        }
        true
    }

    /// Takes from a checkpoint which locks the threads hold behind the last event, and answers whether there was room for all.
    pub fn save_all(&mut self, threads: &[ThreadState]) -> bool
        ensures { SavesOfEach threads.now self.old self.new }
    {
        for i in 0..threads.len() {
            if !self.save_of(&threads[i]) {
                return false;
            }
        }
        true
    }

    /// The first hold of a thread, of a lock, or of both, and how many there are.
    fn held(&self, thread: Option<u16>, lock: Option<u16>) -> (Option<Hold>, usize)
        ensures held { IfSome result.0 (λ h. IsHeldNow self.now h × IsOf thread lock h) }
    {
        let first = self
            .list
            .iter()
            .copied()
            .find(|hold| is_of(hold, thread, lock));
        let count = self
            .list
            .iter()
            .filter(|hold| is_of(hold, thread, lock))
            .count();
        (first, count)
    }

    /// The first lock that a thread holds, and how many it holds.
    pub fn of_thread(&self, thread: u16) -> (Option<Hold>, usize)
        ensures held { IfSome result.0 (λ h. IsHeldNow self.now h × (h.thread ≡ thread)) }
    {
        self.held(Some(thread), None)
    }

    /// The first hold of a lock, and how many there are.
    pub fn of_lock(&self, lock: u16) -> (Option<Hold>, usize)
        ensures held { IfSome result.0 (λ h. IsHeldNow self.now h × (h.lock ≡ lock)) }
    {
        self.held(None, Some(lock))
    }

    /// A thread's hold of a lock.
    pub fn of_both(&self, thread: u16, lock: u16) -> Option<Hold>
        ensures held { IfSome result (λ h. IsHeldNow self.now h × ((h.thread ≡ thread) × (h.lock ≡ lock))) }
    {
        self.held(Some(thread), Some(lock)).0
    }
}
