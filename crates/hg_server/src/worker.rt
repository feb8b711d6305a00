//! Workers, which hold conversations.

ghost use Rattle.std.specs.Prelude.{◌≡◌, ◌≤◌, ◌++◌, ◌∷◌, ℕ, List, [], All, IsTrue, false};
ghost use Rattle.hg_receipts.specs.Receipts.{AreAmong};
ghost use Rattle.hg_protocol.specs.Spelling.{FitsFrames};
ghost use Rattle.hg_streams.specs.declared.call.WriteCall.TheVariants as call;
ghost use Rattle.hg_server.specs.Replying.{replies_text};
ghost use Rattle.hg_server.specs.Talking.{Answered, Carries, Ends, IsAcked, IsCutBehind, IsNew, LeavesFront, StaysDue, StaysRead, Takes, TellsFault, WereHeld};

use crate::health::Terms;
use crate::patience::{Patience, may_read_on};
use crate::piece::Piece;
use crate::talks::Talks;
use crate::wire::{Guest, Transcript, Wire};
use crossbeam_channel::{Receiver, Sender};
use hg_desk::desk::Desk;
use hg_desk::share::{Column, Opening, Share};
use hg_desk::shared::Shared;
use hg_desk::tasks::{ConverseTask, Turned};
use hg_desk::turn::turn_len;
use hg_disk::Disk;
use hg_protocol::feed::Feed;
use hg_protocol::frame::Frame;
use hg_protocol::put::put_reply;
use hg_protocol::reply::Reply;
use hg_streams::streams::{MOST_READS, PIECE_BYTES};
use std::alloc::Global;
use std::io::{Read, Write};
use std::mem::replace;
use std::sync::Wait;
use std::time::Clock;

/// Where a thread is between two holds of the lock.
#[derive(Clone, Copy, Debug, PartialEq, Eq, Drop)]
pub enum Point {
    /// A worker answered a turn of frames.
    Answered,
    /// The flusher took a page that is to be written.
    JobTaken,
    /// The flusher encoded it.
    Encoded,
    /// The flusher wrote it, or it was written already.
    Put,
    /// No page waits any more, and the flusher is about to make the pages durable.
    BeforeSeal,
    /// The flusher opened the root, and gave up the events that no root needs any more.
    RootOpen,
    /// The system had no room for a connection that waits: no descriptor, or no memory. It is listened on.
    NoRoom,
}

/// Whether a thread goes on.
#[derive(Clone, Copy, Debug, PartialEq, Eq, Drop)]
pub enum Pass {
    Go,
    Stop,
}

/// Is asked between two holds of the lock, and may stop the thread that asks.
pub trait Gate {
    fn at(&self, point: Point) -> Pass;
}

/// Lets each thread go on.
#[derive(Clone, Copy, Drop)]
pub struct OpenGate;

impl Gate for OpenGate {
    fn at(&self, _point: Point) -> Pass {
        Pass::Go
    }
}

/// What becomes of a connection, and of its worker.
#[derive(Clone, Copy, PartialEq, Eq, Drop)]
pub(crate) enum Course {
    /// It is read on.
    ReadOn,
    /// It ends.
    End,
    /// It ends, since a write failed.
    Torn,
    /// It ends, and its worker too.
    Stop,
}

/// What a worker works with, or the flusher.
#[derive(Drop)]
pub struct Seat<'a, D: Disk, A: Opening, B: Column, G, R> {
    pub rt: &'a R,
    pub alloc: Global,
    /// The store that all threads share.
    pub shared: &'a Shared<D, A, B>,
    /// What this thread was told of it.
    pub share: Share<A, B>,
    pub gate: &'a G,
    pub terms: &'a Terms,
}

/// One conversation under way: its connection, how far it is, the bytes of a frame that is not whole yet, the replies that are not
/// written yet, and where the flusher is nudged.
#[derive(Drop)]
pub(crate) struct Talk<'a, S> {
    wire: Wire<S>,
    desk: Desk,
    feed: Feed<Frame>,
    replies: Vec<u8>,
    /// Whether replies were written since that was asked last.
    was_answered: bool,
    nudges: &'a Sender<()>,
}

/// Whether a client said Bye, to which nothing is said, and which ends its turn.
fn is_farewell(replies: &[Reply]) -> bool {
    match replies.last() {
        Some(Reply::Nothing) => true,
        _ => false,
    }
}

/// Whether events were acknowledged, which ends a turn.
fn is_acknowledged(replies: &[Reply]) -> bool {
    match replies.last() {
        Some(Reply::Ack { .. }) => true,
        _ => false,
    }
}

/// Appends the bytes of replies. Tells whether there was memory for all.
fn put_replies(replies: &[Reply], held: &mut Vec<u8>) -> bool
    requires fits { All FitsFrames replies.now }
    ensures all { IsTrue result → held.new.items ≡ held.old.items ++ replies_text replies.now }
    ensures front { (rest : List ℕ) × (held.new.items ++ rest ≡ held.old.items ++ replies_text replies.now) }
{
    for reply in replies {
        let Ok(()) = put_reply(reply, held) else {
            return false;
        };
    }
    true
}

impl<'a, S> Talk<'a, S> {
    /// A conversation that has not begun.
    fn new(alloc: Global, guest: Guest<S>, nudges: &'a Sender<()>) -> Talk<'a, S>
        ensures { IsNew result }
    {
        Talk {
            wire: guest.open(),
            desk: Desk::new(),
            feed: Feed::new(alloc),
            replies: Vec::new(alloc),
            was_answered: false,
            nudges,
        }
    }

    /// Nudges the flusher, unless a nudge waits for it. One that finds no memory is dropped: the next Ack brings another.
    fn nudge<R: Wait>(&self, rt: &R) {
        if self.nudges.is_empty() {
            let _ = self.nudges.send(rt, ());
        }
    }

    /// Answers a turn of frames under one hold of the lock, and holds the replies back. Behind an Ack, and where the turn made events durable, it
    /// nudges the flusher if a checkpoint is due. Tells whether the conversation goes on: it ends behind a Bye, and where no memory is left for
    /// the replies.
    fn answer<D: Disk, A: Opening, B: Column, G, R: Wait>(
        &mut self,
        seat: &mut Seat<D, A, B, G, R>,
        turn: &[Frame],
    ) -> bool
        ensures accepted { seat.old.share.accepted ≤ seat.new.share.accepted }
        ensures durable { seat.old.share.durable ≤ seat.new.share.durable }
        ensures answered { IsTrue result → Answered ⟦<D as Disk>⟧ A.start self.old self.new seat.old.share seat.new.share turn.now }
        ensures cut { IsCutBehind ⟦<D as Disk>⟧ A.start self.old self.new seat.old.share seat.new.share turn.now }
        ensures feed { self.new.feed ≡ self.old.feed }
    {
        let task = ConverseTask {
            alloc: seat.alloc,
            desk: replace(&mut self.desk, Desk::new()),
            frames: turn,
        };
        let durable = seat.share.durable();
        let Ok(
            Turned {
                desk,
                replies,
                events,
            },
        ) = seat.shared.hold(seat.rt, &mut seat.share, task)
        else {
            return false;
        };
        self.desk = desk;
        let replies = replies.as_slice();
        if (durable < seat.share.durable() || is_acknowledged(replies))
            && seat.terms.is_due(&events)
        {
            self.nudge(seat.rt);
        }
        if !put_replies(replies, &mut self.replies) {
            return false;
        }
        !is_farewell(replies)
    }
}

impl<'a, S: Drop> Talk<'a, S> {
    /// Lets the conversation go, which closes its connection. Gives what was read and written on it.
    fn close(self) -> Transcript
        ensures reads { result.reads ≡ self.entry.wire.reads }
        ensures writes { result.writes ≡ self.entry.wire.writes }
    {
        let Talk {
            wire,
            desk: _,
            feed: _,
            replies: _,
            was_answered: _,
            nudges: _,
        } = self;
        wire.close()
    }
}

impl<'a, S: Write> Talk<'a, S> {
    /// Writes the replies out, all in one write where the connection takes them. Tells whether it took them.
    fn write_out(&mut self) -> bool
        ensures took { IsTrue result → self.new.wire.writes ≡ call.Took self.old.replies.items ∷ self.old.wire.writes }
        ensures torn { result ≡ false → self.new.wire.writes ≡ call.Torn self.old.replies.items ∷ self.old.wire.writes }
        ensures none { self.new.replies.items ≡ [] }
        ensures same { StaysRead self.old self.new }
    {
        let is_written = self.wire.write(self.replies.as_slice()).is_ok();
        self.was_answered = self.was_answered || !self.replies.is_empty();
        self.replies.clear();
        is_written
    }

    /// Writes the replies out where they are many. Tells whether the connection took them.
    fn write_many(&mut self) -> bool
        ensures due { IsTrue result → StaysDue self.old self.new }
        ensures front { result ≡ false → LeavesFront self.old self.new }
        ensures same { StaysRead self.old self.new }
    {
        if self.replies.len() < PIECE_BYTES {
            return true;
        }
        self.write_out()
    }

    /// Answers frames turn by turn, each turn under a hold of its own.
    fn answer_all<D: Disk, A: Opening, B: Column, G: Gate, R: Wait>(
        &mut self,
        seat: &mut Seat<D, A, B, G, R>,
        frames: &[Frame],
    ) -> Course
        ensures accepted { seat.old.share.accepted ≤ seat.new.share.accepted }
        ensures durable { seat.old.share.durable ≤ seat.new.share.durable }
        ensures carried { Carries ⟦<D as Disk>⟧ A.start self.old self.new seat.old.share seat.new.share frames.now result }
        ensures feed { self.new.feed ≡ self.old.feed }
    {
        let mut rest = frames;
        while !rest.is_empty() {
            let (turn, behind) = rest.split_at(turn_len(rest));
            rest = behind;
            let goes_on = self.answer(seat, turn);
            if seat.gate.at(Point::Answered) == Pass::Stop {
                return Course::Stop;
            }
            if !goes_on {
                return Course::End;
            }
            if !self.write_many() {
                return Course::Torn;
            }
        }
        Course::ReadOn
    }

    /// Writes out what is held, and Fault 1 behind it where there is memory for it.
    fn tell_fault(&mut self)
        ensures fault { TellsFault self.old self.new }
        ensures reads { self.new.wire.reads ≡ self.old.wire.reads }
    {
        let _ = put_reply(&Reply::Fault { code: 1 }, &mut self.replies);
        let _ = self.write_out();
    }

    /// Takes a piece of what a client sent: answers its frames, and a fault behind them.
    fn take<D: Disk, A: Opening, B: Column, G: Gate, R: Wait>(
        &mut self,
        seat: &mut Seat<D, A, B, G, R>,
        piece: &[u8],
    ) -> Course
        ensures accepted { seat.old.share.accepted ≤ seat.new.share.accepted }
        ensures durable { seat.old.share.durable ≤ seat.new.share.durable }
        ensures taken { Takes ⟦<D as Disk>⟧ A.start self.old self.new seat.old.share seat.new.share piece.now result }
    {
        let Ok(fed) = self.feed.push(piece) else {
            return Course::End;
        };
        let course = self.answer_all(seat, fed.messages.as_slice());
        match course {
            Course::Torn => Course::Torn,
            Course::ReadOn if fed.fault.is_some() => {
                self.tell_fault();
                Course::End
            }
            Course::ReadOn => {
                if !self.write_out() {
                    return Course::Torn;
                }
                Course::ReadOn
            }
            Course::End => {
                let _ = self.write_out();
                Course::End
            }
            Course::Stop => {
                let _ = self.write_out();
                Course::Stop
            }
        }
    }
}

/// Holds one conversation to its end: until the client ends it, or breaks its rules, or is waited for no longer, or the connection
/// fails, or the gate says stop, or after 2^32 reads. `ReadOn` says that it was whole: all frames that were read were answered.
fn converse<D: Disk, A: Opening, B: Column, S: Read + Write + Drop, G: Gate, R: Wait + Clock>(
    seat: &mut Seat<D, A, B, G, R>,
    talk: &mut Talk<S>,
    piece: &mut [u8],
) -> Course
    requires new { IsNew talk.old }
    ensures accepted { seat.old.share.accepted ≤ seat.new.share.accepted }
    ensures durable { seat.old.share.durable ≤ seat.new.share.durable }
    ensures talked { Ends ⟦<D as Disk>⟧ A.start seat.old.share result talk.new seat.new.share }
{
    let mut patience = Patience::new(seat.rt, seat.terms);
    for _ in 0..MOST_READS {
        if patience.is_over(seat.rt) {
            break;
        }
        let len = match talk.wire.read(piece) {
            Ok(0) => break,
            Ok(len) => len,
            Err(kind) if may_read_on(kind) => continue,
            Err(_) => break,
        };
        let course = talk.take(seat, &piece[..len]);
        if course != Course::ReadOn {
            return course;
        }
        if replace(&mut talk.was_answered, false) {
            patience.renew(seat.rt);
        }
    }
    Course::ReadOn
}

/// Holds the conversations of a channel, one after another, until it is closed and empty or the gate says stop, and gives the share
/// back, with what was read and written in each, the newest first, which contracts alone see. A connection is one value that is read and
/// written; it is closed when its conversation ends. One that fails ends alone.
/// What it reads into is taken before it begins, so it never ends for want of memory; a conversation may. Behind an Ack it leaves a nudge for
/// the flusher, if a checkpoint is due and no nudge waits.
///
/// It waits for the lock, for connections, and in reads and writes.
pub fn worker<D: Disk, A: Opening, B: Column, S: Read + Write + Drop, G: Gate, R: Wait + Clock>(
    seat: Seat<D, A, B, G, R>,
    piece: Piece,
    connections: &Receiver<Guest<S>>,
    nudges: &Sender<()>,
) -> (Share<A, B>, Talks)
    ensures accepted { seat.entry.share.accepted ≤ result.0.accepted }
    ensures durable { seat.entry.share.durable ≤ result.0.durable }
    ensures acks { AreAmong seat.entry.share.acks result.0.acks }
    ensures talks { WereHeld ⟦<D as Disk>⟧ A.start seat.entry.share result.1 result.0 }
    ensures acked { All (IsAcked ⟦<D as Disk>⟧ A.start result.0) result.1 }
{
    let mut seat = seat;
    let mut piece = piece;
    let mut held = Talks::new();
    for _ in seat.rt.forever() {
        let Ok(guest) = connections.recv(seat.rt) else {
            break;
        };
        let mut talk = Talk::new(seat.alloc, guest, nudges);
        let course = converse(&mut seat, &mut talk, piece.as_mut_slice());
        held.push(talk.close());
        if course == Course::Stop {
            break;
        }
    }
    (seat.share, held)
}
