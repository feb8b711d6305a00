//! The steps of a store, and what they answer.
ghost use Rattle.std.specs.Prelude.{◌≡◌};

pub use crate::page_number::PageNumber;
pub use hg_checkpoint::Cause;
use hg_checkpoint::HeadFault;
use hg_detect::detector::Answer;
use hg_model::event::Named;
use hg_model::verdict::Refusal;
pub use hg_pages::EncodedPage;
pub use hg_pool::{Job, Put};

/// The phase of a store: its events and its next checkpoint.
#[derive(Clone, Copy, Debug, PartialEq, Eq, Drop)]
pub enum StorePhase {
    /// All accepted events are durable, and no checkpoint is in progress.
    Idle,
    /// Some accepted events are not committed, and no checkpoint is in progress.
    Pending,
    /// The map of words is frozen, and its pages are being written.
    Flushing,
    /// The pages of the frozen map are durable.
    Sealed,
    /// The file that the root goes to is closed.
    Prepared,
    /// The root is durable behind its closed gate.
    Written,
}

/// Why a step of a checkpoint, an eviction or a load was not made.
#[derive(Clone, Copy, Debug, PartialEq, Eq, Drop)]
pub enum StepFault {
    /// This phase does not allow the step. Nothing was changed.
    WrongPhase(StorePhase),
    /// This phase allows the step, but it was refused for this cause.
    Refused(Cause),
}

/// The fault of a step that could not make the head of a root.
impl From<HeadFault> for StepFault {
    ghost use Rattle.hg_store.specs.Answers.{of_head};

    ghost from_gives = { λ fault told. told ≡ of_head fault };

    fn from(fault: HeadFault) -> StepFault {
        match fault {
            HeadFault::Damaged => StepFault::Refused(Cause::Damaged),
            HeadFault::OutOfMemory => StepFault::Refused(Cause::OutOfMemory),
        }
    }
}

/// A step.
#[derive(Drop)]
pub enum Step {
    /// Offers an event.
    Offer(Named),
    /// Makes all accepted events durable.
    Commit,
    /// Begins a checkpoint of the durable events.
    Freeze,
    /// Asks for a page that is to be written for it.
    TakeJob,
    /// Writes a page that was encoded.
    Put(EncodedPage),
    /// Makes the pages durable.
    SealPages,
    /// Closes the file that the root goes to.
    PrepareRoot,
    /// Writes the root behind its closed gate.
    WriteRoot,
    /// Opens the root.
    OpenRoot,
    /// Takes the page used least recently out of memory.
    Evict,
    /// Brings a page into memory.
    Load(PageNumber),
    /// Gives up the events that the newest open root counts.
    Retire,
}

/// The answer of a step.
#[derive(Drop)]
pub enum StepResult {
    /// Of an offer.
    Offered(Result<Answer, Refusal>),
    /// Of a commit.
    Committed(Result<u64, Refusal>),
    /// Of a freeze.
    Frozen(Result<(), StepFault>),
    /// The waiting page with the least number, or none.
    Taken(Result<Option<Job>, StepFault>),
    /// Whether the page was written.
    Put(Result<Put, StepFault>),
    /// Of the sealing of the pages.
    Sealed(Result<(), StepFault>),
    /// Of the closing of the root's file.
    Prepared(Result<(), StepFault>),
    /// Of the writing of the root.
    Written(Result<(), StepFault>),
    /// The number of the checkpoint that was opened.
    Opened(Result<u64, StepFault>),
    /// The page that left the memory, or none if no page was there.
    Evicted(Result<Option<u64>, StepFault>),
    /// Of a load.
    Loaded(Result<(), StepFault>),
    /// Whether events were given up.
    Retired(Result<bool, Refusal>),
}
