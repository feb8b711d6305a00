//! A ghost history for contracts: the calls of a disk with the bytes that they wrote.
ghost use Rattle.std.specs.Prelude.{◌≡◌, [], ◌∷◌, is_ok};
ghost use Rattle.hg_disk.specs.Event.{event, with_answer, with_refusal};

use crate::DiskFault;
use crate::call::{Answer, Answered, Call};
use hg_trail::Trail;

/// A call with its answer. A write that took effect has its bytes too.
#[derive(Drop)]
pub(crate) struct Event {
    pub told: Answered,
    pub bytes: Trail<u8>,
}

/// The calls of a disk, the newest first. It takes no memory, and it only grows.
#[derive(Drop)]
pub(crate) struct History {
    pub events: Trail<Event>,
}

impl History {
    /// The history of a new disk: no calls.
    pub(crate) fn new() -> History
        ensures { result.events ≡ [] }
    {
        History {
            events: Trail::new(),
        }
    }

    /// Adds a call that took effect or failed. If it took effect, its bytes are added too.
    pub(crate) fn note_answer(
        &mut self,
        call: Call,
        bytes: &[u8],
        is_done: bool,
    ) -> Result<(), DiskFault>
        ensures same { is_ok result ≡ is_done }
        ensures noted { self.new.events ≡ with_answer call bytes.now is_done result self.old.events }
    {
        if !is_done {
            self.note(call, Answer::Failed, &[]);
            return Err(DiskFault);
        }
        self.note(call, Answer::Done, bytes);
        Ok(())
    }

    /// Adds a call that was refused.
    pub(crate) fn note_refusal(&mut self, call: Call)
        ensures { self.new.events ≡ with_refusal call self.old.events }
    {
        self.note(call, Answer::Refused, &[]);
    }

    // Adds a call with its answer and bytes.
    fn note(&mut self, call: Call, answer: Answer, bytes: &[u8])
        ensures { self.new.events ≡ event call answer bytes.now ∷ self.old.events }
    {
        self.events.push(Event {
            told: Answered { call, answer },
            bytes: Trail::of(bytes),
        });
    }
}
