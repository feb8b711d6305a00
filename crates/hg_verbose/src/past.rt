//! What the accepted events left, as far as a refusal rests on it.
ghost use Rattle.std.specs.Prelude.{◌≡◌, get_or, set};

use crate::holds::Holds;
use hg_model::event::Event;
use hg_model::limits::THREAD_NUMBERS;
use hg_model::thread::ThreadState;
use hg_saved::SavedHead;
use std::alloc::{AllocError, Global};
use std::collections::HashMap;

/// What is known of a thread that no known event joined.
#[derive(Clone, Copy, Drop)]
pub enum Life {
    /// Nothing: the events that are gone may have forked it, and joined it.
    Unknown,
    /// It was not forked by an event that is gone.
    Unused,
    /// It was, and not joined.
    Alive,
    /// It was joined by an event that is gone.
    Ended,
}

/// What some accepted events left: which locks are held since when, when each thread was forked and joined, and when each
/// message was sent and received. Those events begin behind the event numbered `gone`. What the events up to that one left is known where a
/// checkpoint was taken over, and else nothing of it.
#[derive(Drop)]
pub struct Past {
    segments: u64,
    holds: Holds,
    /// Whether a checkpoint was taken over.
    is_saved: bool,
    lives: Vec<Life>,
    forked: Vec<u64>,
    joined: Vec<u64>,
    sent: HashMap<u32, u64>,
    received: HashMap<u32, u64>,
}

/// Writes the number of an event at a thread's place.
fn note(places: &mut Vec<u64>, thread: u16, event: u64)
    ensures { places.new.items ≡ set places.old.items thread event }
{
    if usize::from(thread) < places.len() {
        places[usize::from(thread)] = event;
    }
}

/// Writes what is known of a thread at its place.
fn note_life(lives: &mut Vec<Life>, thread: u16, life: Life)
    ensures { lives.new.items ≡ set lives.old.items thread life }
{
    if usize::from(thread) < lives.len() {
        lives[usize::from(thread)] = life;
    }
}

/// What a checkpoint says of the life of a thread that it has.
fn life_of(thread: &ThreadState) -> Life {
    if thread.alive {
        Life::Alive
    } else {
        Life::Ended
    }
}

/// The number at a thread's place, 0 where there is none.
fn at(places: &[u64], thread: u16) -> u64
    ensures { result ≡ get_or places.now thread 0 }
{
    match places.get(usize::from(thread)) {
        Some(event) => *event,
        None => 0,
    }
}

/// Writes the number of an event at a message, unless memory is refused.
fn note_message(events: &mut HashMap<u32, u64>, message: u32, event: u64) -> bool {
    if events.reserve(1).is_err() {
        return false;
    }
    let _ = events.insert(message, event);
    true
}

/// The number at a message, 0 where there is none.
fn at_message(events: &HashMap<u32, u64>, message: u32) -> u64 {
    match events.get(&message) {
        Some(event) => *event,
        None => 0,
    }
}

impl Past {
    /// The past before any event.
    pub fn new(alloc: Global) -> Result<Past, AllocError> {
        Past::behind(alloc, 0)
    }

    /// The past behind the event of this number, where nothing is known yet of the events up to that one.
    pub fn behind(alloc: Global, gone: u64) -> Result<Past, AllocError> {
        Ok(Past {
            segments: 1,
            holds: Holds::behind(alloc, gone),
            is_saved: false,
            lives: vec![in alloc; Life::Unknown; THREAD_NUMBERS]?,
            forked: vec![in alloc; 0; THREAD_NUMBERS]?,
            joined: vec![in alloc; 0; THREAD_NUMBERS]?,
            sent: HashMap::new(alloc),
            received: HashMap::new(alloc),
        })
    }

    /// Takes the next accepted event, and answers whether there was room for it.
    pub fn follow(&mut self, event: Event) -> bool {
        if !self.holds.follow(event) {
            return false;
        }
        let number = self.holds.last();
        match event {
            Event::Fork { p: _, c } => {
                self.segments = self.segments.saturating_add(2);
                note(&mut self.forked, c, number);
            }
            Event::Join { p: _, c } => {
                self.segments = self.segments.saturating_add(1);
                note(&mut self.joined, c, number);
            }
            Event::Send { t: _, k } => {
                self.segments = self.segments.saturating_add(1);
                return note_message(&mut self.sent, k, number);
            }
            Event::Recv { t: _, k } => {
                self.segments = self.segments.saturating_add(1);
                return note_message(&mut self.received, k, number);
            }
            _ => {}
        }
        true
    }

    /// Takes over what a checkpoint says of the threads behind the last event that was followed, where events before those are gone. Answers
    /// whether there was room for it.
    pub fn save(&mut self, head: &SavedHead) -> bool {
        if self.gone() == 0 {
            return true;
        }
        self.lives.fill(Life::Unused);
        for thread in &head.threads {
            note_life(&mut self.lives, thread.number, life_of(thread));
        }
        self.segments = u64::from(head.segments);
        self.is_saved = true;
        self.holds.save_all(&head.threads)
    }

    /// The number of the last event.
    pub fn last(&self) -> u64 {
        self.holds.last()
    }

    /// The number of the last event that is gone, 0 where there is none.
    pub fn gone(&self) -> u64 {
        self.holds.gone()
    }

    /// The number of the last event of which it is not known what it left, 0 where that is known of all.
    pub fn unknown(&self) -> u64 {
        if self.is_saved { 0 } else { self.gone() }
    }

    /// What is known of a thread that no known event joined.
    pub fn life(&self, thread: u16) -> Life {
        if self.gone() == 0 {
            return Life::Unused;
        }
        match self.lives.get(usize::from(thread)) {
            Some(life) => *life,
            None => Life::Unknown,
        }
    }

    /// The locks that are held.
    pub fn holds(&self) -> &Holds {
        &self.holds
    }

    /// How many segments there are, where it is known what all events left.
    pub fn segments(&self) -> u64 {
        self.segments
    }

    /// The event that forked a thread, 0 where none is known that did.
    pub fn forked(&self, thread: u16) -> u64 {
        at(self.forked.as_slice(), thread)
    }

    /// The event that joined a thread, 0 where none is known that did.
    pub fn joined(&self, thread: u16) -> u64 {
        at(self.joined.as_slice(), thread)
    }

    /// The event that sent a message, 0 where none is known that did.
    pub fn sent(&self, message: u32) -> u64 {
        at_message(&self.sent, message)
    }

    /// The event that received a message, 0 where none is known that did.
    pub fn received(&self, message: u32) -> u64 {
        at_message(&self.received, message)
    }
}
