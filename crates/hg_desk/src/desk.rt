//! One conversation with a client.

ghost use Rattle.std.specs.Prelude.{◌≡◌, ◌≤◌, All, IfOk, OnErr, [], length, vec_capacity};
ghost use Rattle.hg_protocol.specs.Spelling.{FitsFrames};
ghost use Rattle.hg_store.specs.Shown.{live};
ghost use Rattle.hg_desk.specs.Conversation.{Answers, Commits, Conversed, Converses, Greets, Offers, Talks, expected_of, hello_reply, offer_reply, refused as refused_reply, stage_after_hello};
ghost use Rattle.hg_desk.specs.Told.{Told};

use crate::locked::Core;
use crate::share::{Column, Opening, Share};
use hg_detect::detector::Answer;
use hg_disk::Disk;
use hg_model::event::Named;
use hg_model::limits::GREATEST_SOURCE;
use hg_model::verdict::Refusal;
use hg_protocol::frame::Frame;
use hg_protocol::reply::Reply;
use std::alloc::{AllocError, Global};
use std::marker::Model;

/// How far a conversation has come.
#[derive(Clone, Copy, Debug, PartialEq, Eq, Drop)]
pub enum Stage {
    /// No Welcome was said yet.
    Greeting,
    /// Events are of this source.
    Talking { source: u16 },
    /// Every further frame is answered Fault 4.
    Over,
}

/// One conversation with a client.
#[derive(Debug, Drop)]
pub struct Desk {
    stage: Stage,
}

impl Model for Desk {
    ghost use Rattle.hg_desk.specs.declared.desk.Stage.{Stage};

    ghost Value = { Stage };

    ghost view = { λ d. d.stage };
}

/// The number that a source has to send next, where a refusal is of a gap.
fn expected(refusal: Refusal) -> u64
    ensures { result ≡ expected_of refusal }
{
    match refusal {
        Refusal::Gap(expected) => expected,
        _ => 0,
    }
}

/// How a refusal is told.
pub(crate) fn refused(number: u64, refusal: Refusal) -> Reply
    ensures answer { result ≡ refused_reply number refusal }
    ensures fits { FitsFrames result }
{
    Reply::Refused {
        number,
        code: refusal.code(),
        expected: expected(refusal),
    }
}

impl Desk {
    ghost use Rattle.hg_desk.specs.declared.desk.Stage.TheVariants.{Greeting};

    /// A conversation that has not begun.
    pub fn new() -> Desk
        ensures { result ≡ Greeting }
    {
        Desk {
            stage: Stage::Greeting,
        }
    }

    /// Answers a frame: one offer to the store for an Event, one commit for an Ask, and no other step.
    #[inline(always)]
    pub fn answer<D: Disk, A: Opening, B: Column>(
        &mut self,
        alloc: Global,
        core: &mut Core<D, A, B>,
        share: &mut Share<A, B>,
        frame: &Frame,
    ) -> Reply
        ensures answer { Answers ⟦<D as Disk>⟧ self.old core.old core.new share.old share.new frame.now
            self.new result }
        ensures fits { FitsFrames result }
    {
        let (stage, reply) = match self.stage {
            Stage::Greeting => greet(core, frame),
            Stage::Talking { source } => talk(alloc, core, share, source, frame),
            Stage::Over => (Stage::Over, Reply::Fault { code: 4 }),
        };
        self.stage = stage;
        reply
    }

    /// Answers frames in their order, and appends the replies.
    fn answer_each<D: Disk, A: Opening, B: Column>(
        &mut self,
        alloc: Global,
        core: &mut Core<D, A, B>,
        share: &mut Share<A, B>,
        frames: &[Frame],
        replies: &mut Vec<Reply>,
    )
        requires none { replies.old.items ≡ [] }
        requires room { length frames.now ≤ vec_capacity replies.old }
        ensures answered { Converses ⟦<D as Disk>⟧ self.old core.old core.new share.old share.new frames.now
            self.new replies.new.items }
        ensures fits { All FitsFrames replies.new.items }
    {
        for frame in frames {
            replies.push_reserved(self.answer(alloc, core, share, frame));
        }
    }

    /// Answers frames in their order. Room for the replies is made first: where it is refused, nothing was changed. Then room for as many
    /// events is made in the store: where so many do not fit behind those that wait for a commit, one is made. So no client is refused for
    /// what others have not asked for yet. Nobody is told what that commit answers; one that fails breaks the store, which the offers
    /// behind it tell.
    pub fn answer_all<D: Disk, A: Opening, B: Column>(
        &mut self,
        alloc: Global,
        core: &mut Core<D, A, B>,
        share: &mut Share<A, B>,
        frames: &[Frame],
    ) -> Result<Vec<Reply>, AllocError>
        ensures ok { Conversed ⟦<D as Disk>⟧ self.old core.old core.new share.old share.new frames.now self.new result }
        ensures fits { IfOk result (λ replies. All FitsFrames replies.items) }
        ensures err { OnErr result ((self.new ≡ self.old) × ((core.new ≡ core.old) × (share.new ≡ share.old))) }
    {
        let Ok(mut replies) = Vec::with_capacity(alloc, frames.len()) else {
            return Err(AllocError);
        };
        core.make_room(share, frames.len());
        self.answer_each(alloc, core, share, frames, &mut replies);
        Ok(replies)
    }
}

/// Before the Welcome.
fn greet<D: Disk, A: Opening, B: Column>(core: &Core<D, A, B>, frame: &Frame) -> (Stage, Reply)
    ensures answer { (told : Told) → Greets ⟦<D as Disk>⟧ core.now core.now told told frame.now result.0 result.1 }
    ensures fits { FitsFrames result.1 }
{
    match frame {
        Frame::Hello { source } => welcome(core, *source),
        Frame::Event { .. } => (Stage::Over, Reply::Fault { code: 2 }),
        Frame::Ask => (Stage::Over, Reply::Fault { code: 2 }),
        Frame::Reports => (Stage::Over, Reply::Fault { code: 2 }),
        Frame::Bye => (Stage::Over, Reply::Fault { code: 2 }),
    }
}

/// The answer to the first Hello.
fn welcome<D: Disk, A: Opening, B: Column>(core: &Core<D, A, B>, source: u16) -> (Stage, Reply)
    ensures stage { result.0 ≡ stage_after_hello source core.now.is_broken }
    ensures reply { result.1 ≡ hello_reply source core.now.is_broken (live ⟦<D as Disk>⟧ core.now) }
    ensures fits { FitsFrames result.1 }
{
    if source > GREATEST_SOURCE {
        return (Stage::Greeting, refused(0, Refusal::BadNumber));
    }
    match core.last(source) {
        Ok(last) => (Stage::Talking { source }, Reply::Welcome { last }),
        Err(refusal) => (Stage::Greeting, refused(0, refusal)),
    }
}

/// Between the Welcome and the end.
#[inline(always)]
fn talk<D: Disk, A: Opening, B: Column>(
    alloc: Global,
    core: &mut Core<D, A, B>,
    share: &mut Share<A, B>,
    source: u16,
    frame: &Frame,
) -> (Stage, Reply)
    ensures answer { Talks ⟦<D as Disk>⟧ source core.old core.new share.old share.new frame.now result.0 result.1 }
    ensures fits { FitsFrames result.1 }
{
    match frame {
        Frame::Hello { .. } => (Stage::Over, Reply::Fault { code: 3 }),
        Frame::Event { number, event } => {
            let named = Named {
                source,
                number: *number,
                event: *event,
            };
            let reply = offer(core, share, &named);
            (Stage::Talking { source }, reply)
        }
        Frame::Ask => {
            let reply = commit(core, share, source);
            (Stage::Talking { source }, reply)
        }
        Frame::Reports => (Stage::Talking { source }, core.report_lines(alloc)),
        Frame::Bye => (Stage::Over, Reply::Nothing),
    }
}

#[inline(always)]
fn offer<D: Disk, A: Opening, B: Column>(
    core: &mut Core<D, A, B>,
    share: &mut Share<A, B>,
    named: &Named,
) -> Reply
    ensures answer { Offers ⟦<D as Disk>⟧ named.now core.old core.new share.old share.new result }
    ensures fits { FitsFrames result }
{
    match core.offer(share, named) {
        Ok(Answer::Accepted) => Reply::Accepted {
            number: named.number,
        },
        Ok(Answer::Duplicate(last)) => Reply::Duplicate { last },
        Err(refusal) => refused(named.number, refusal),
    }
}

fn commit<D: Disk, A: Opening, B: Column>(
    core: &mut Core<D, A, B>,
    share: &mut Share<A, B>,
    source: u16,
) -> Reply
    ensures answer { Commits ⟦<D as Disk>⟧ source core.old core.new share.old share.new result }
    ensures fits { FitsFrames result }
{
    match core.commit(share) {
        Ok(_) => {
            let number = core.last(source).unwrap_or(0);
            core.acknowledge(share, source, number);
            Reply::Ack { number }
        }
        Err(refusal) => refused(0, refusal),
    }
}
