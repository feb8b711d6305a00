//! Tasks that run under the lock.

ghost use Rattle.std.specs.Prelude.{◌≡◌, ◌+◌, ◌≤◌, IsTrue};
ghost use Rattle.hg_store.specs.Shown.{live};
ghost use Rattle.hg_desk.specs.Conversation.{ConverseTold, StillOnErr, TurnAnswered, TurnKept};
ghost use Rattle.hg_desk.specs.Counting.{AreSince, FindsAtLeast};
ghost use Rattle.hg_desk.specs.Told.{BeginKept, BeginTold, CommitKept, Told, StepKept, StepToldOf};

use crate::desk::Desk;
use crate::locked::{Core, Counts};
use crate::share::{Column, Opening, Share};
use hg_disk::Disk;
use hg_model::verdict::Refusal;
use hg_protocol::frame::Frame;
use hg_protocol::reply::Reply;
use hg_store::steps::{Cause, Step, StepFault, StepResult};
use std::alloc::{AllocError, Global};

/// A task that may run under the lock.
pub trait Task<D: Disk, A: Opening, B: Column> {
    /// What it answers.
    type Out;

    /// What the task promises of itself, the share before and after, and its answer.
    ghost promise: { Self → Told → Told → Self.Out → Type 0 };

    /// Runs once, on the value behind the lock.
    fn run(self, core: &mut Core<D, A, B>, share: &mut Share<A, B>) -> Self::Out
        ensures { promise self share.old share.new result };
}

/// One step.
#[derive(Drop)]
pub struct StepTask {
    pub alloc: Global,
    pub step: Step,
}

impl<D: Disk, A: Opening, B: Column> Task<D, A, B> for StepTask {
    type Out = StepResult;

    ghost promise = { λ t old new res. StepToldOf D.is_honest t.step old new res };

    fn run(self, core: &mut Core<D, A, B>, share: &mut Share<A, B>) -> StepResult
        ensures promise { StepToldOf D.is_honest self.step share.old share.new result }
        ensures step { StepKept ⟦<D as Disk>⟧ core.old core.new share.old share.new self.step result }
    {
        core.step(self.alloc, share, &self.step)
    }
}

/// A commit, whose refusal is told as that of a step of a checkpoint.
fn commit<D: Disk, A: Opening, B: Column>(
    core: &mut Core<D, A, B>,
    share: &mut Share<A, B>,
) -> Result<u64, StepFault>
    ensures { CommitKept ⟦<D as Disk>⟧ core.old core.new share.old share.new result }
{
    match core.commit(share) {
        Ok(count) => Ok(count),
        Err(Refusal::Broken) => Err(StepFault::Refused(Cause::Broken)),
        Err(_) => Err(StepFault::Refused(Cause::DeviceFault)),
    }
}

/// Begins a checkpoint: a commit and, where it answers Ok, a freeze of what it made durable.
#[derive(Drop)]
pub struct BeginTask {
    pub alloc: Global,
}

impl<D: Disk, A: Opening, B: Column> Task<D, A, B> for BeginTask {
    type Out = Result<u64, StepFault>;

    ghost promise = { λ t old new res. BeginTold old new };

    /// The count of the durable events, or the refusal of the step that was not made. In one hold no event comes between the
    /// two steps.
    fn run(self, core: &mut Core<D, A, B>, share: &mut Share<A, B>) -> Result<u64, StepFault>
        ensures promise { BeginTold share.old share.new }
        ensures steps { BeginKept ⟦<D as Disk>⟧ core.old core.new share.old share.new result }
    {
        let count = commit(core, share)?;
        core.freeze(self.alloc, share)?;
        Ok(count)
    }
}

/// What frames of a conversation came to that were answered in one hold.
#[derive(Drop)]
pub struct Turned {
    /// The conversation as it stands then.
    pub desk: Desk,
    /// A reply for each frame.
    pub replies: Vec<Reply>,
    /// How many events the store has accepted by then. It is `Broken` where a write, a cut or a sync has failed.
    pub events: Result<u64, Refusal>,
}

/// Frames of a conversation, answered one after another in one hold. `turn_len` says how many those are.
#[derive(Drop)]
pub struct ConverseTask<'a> {
    pub alloc: Global,
    pub desk: Desk,
    pub frames: &'a [Frame],
}

impl<'a, D: Disk, A: Opening, B: Column> Task<D, A, B> for ConverseTask<'a> {
    type Out = Result<Turned, AllocError>;

    ghost promise = { λ t old new res. ConverseTold D.is_honest t.frames.now old new res × TurnAnswered ⟦<D as Disk>⟧ A.start t.desk old new t.frames.now res };

    /// Where memory for the replies is refused, nothing was changed.
    fn run(self, core: &mut Core<D, A, B>, share: &mut Share<A, B>) -> Result<Turned, AllocError>
        ensures promise { ConverseTold D.is_honest self.entry.frames.now share.old share.new result
            × TurnAnswered ⟦<D as Disk>⟧ A.start self.entry.desk share.old share.new self.entry.frames.now result }
        ensures turn { TurnKept ⟦<D as Disk>⟧ self.entry.desk core.old core.new share.old share.new
            self.entry.frames.now result }
        ensures err { StillOnErr core.old core.new share.old share.new result }
    {
        let ConverseTask {
            alloc,
            mut desk,
            frames,
        } = self;
        core.went_on();
        let answered = desk.answer_all(alloc, core, share, frames);
        core.went_on();
        let events = core.events();
        match answered {
            Ok(replies) => Ok(Turned {
                desk,
                replies,
                events,
            }),
            Err(error) => Err(error),
        }
    }
}

/// Looks at the books.
#[derive(Drop)]
pub struct CountTask;

impl<D: Disk, A: Opening, B: Column> Task<D, A, B> for CountTask {
    type Out = Counts;

    ghost promise = { λ t old new res. FindsAtLeast old new res };

    fn run(self, core: &mut Core<D, A, B>, share: &mut Share<A, B>) -> Counts
        ensures promise { FindsAtLeast share.old share.new result }
        ensures counts { IsTrue D.is_honest → AreSince ⟦<D as Disk>⟧ A.opening B.opening core.old result }
        ensures same { core.new ≡ core.old }
    {
        core.counts(share)
    }
}
