//! The flusher, which makes checkpoints while clients go on.

ghost use Rattle.std.specs.Prelude.{◌≡◌, true, false};
ghost use Rattle.hg_desk.specs.Told.{IsListed, may_accept};
ghost use Rattle.hg_server.specs.Flushing.{AreRetired, EndsCheckpoints, IsToldOfNone, StayRetired, may_open, opened};

use crate::health::EventsTask;
use crate::worker::{Gate, Pass, Point, Seat};
use crossbeam_channel::{Receiver, RecvTimeoutError};
use hg_desk::share::{Column, Opening, Share};
use hg_desk::tasks::{BeginTask, StepTask};
use hg_disk::Disk;
use hg_model::verdict::Refusal;
use hg_store::steps::{Cause, EncodedPage, Job, Step, StepFault, StepResult, StorePhase};
use std::sync::Wait;
use std::time::{Clock, Duration};

/// How long the flusher waits for a nudge before it asks whether the store works, in milliseconds.
const WATCH_MILLISECONDS: u64 = 1000;

/// When a checkpoint is due.
#[derive(Clone, Copy, Debug, PartialEq, Eq, Drop)]
pub struct Due {
    /// How many events have to be committed since the last checkpoint was begun.
    pub every: u64,
    /// How many were durable then, or when the flusher is started.
    pub begun: u64,
}

impl Due {
    /// From how many durable events on a checkpoint is due.
    fn next(&self) -> u64 {
        self.begun.saturating_add(self.every)
    }

    /// Whether a checkpoint is due when so many events are durable.
    fn is_due(&self, count: u64) -> bool {
        count >= self.next()
    }
}

/// What becomes of a round, and of the flusher.
#[derive(Clone, Copy, PartialEq, Eq, Drop)]
enum Course {
    /// The round goes on.
    GoOn,
    /// The round ends: nothing is left of it, or a step was refused. The next nudge goes on from there.
    End,
    /// The round ends, and the flusher too.
    Stop,
}

/// Whether a root was opened.
fn is_opened(answer: &StepResult) -> bool
    ensures { result ≡ opened answer.now }
{
    match answer {
        StepResult::Opened(Ok(_)) => true,
        _ => false,
    }
}

/// A checkpoint that is made step by step, each in a hold of the lock of its own.
#[derive(Drop)]
struct Round<'a, D: Disk, A: Opening, B: Column, G, R> {
    seat: Seat<'a, D, A, B, G, R>,
    due: Due,
    /// How far the checkpoint is: `Idle` where none is in progress.
    phase: StorePhase,
}

impl<'a, D: Disk, A: Opening, B: Column, G: Gate, R: Wait> Round<'a, D, A, B, G, R> {
    /// Asks the gate whether the round goes on.
    fn pass(&self, point: Point) -> Course {
        match self.seat.gate.at(point) {
            Pass::Go => Course::GoOn,
            Pass::Stop => Course::Stop,
        }
    }

    /// Tells the workers when to nudge: where the next checkpoint is due, or at each Ack where one in progress is held up.
    fn tell_due(&self) {
        let events = match self.phase {
            StorePhase::Idle | StorePhase::Pending => self.due.next(),
            _ => 0,
        };
        self.seat.terms.note_due_from(events);
    }

    /// What a step that was not made leads to: a store that is broken ends the flusher, and in another phase the round goes on from there.
    fn refused(&mut self, fault: StepFault) -> Course
        ensures told { EndsCheckpoints self.old.seat.share self.new.seat.share }
    {
        match fault {
            StepFault::WrongPhase(phase) => {
                self.phase = phase;
                Course::GoOn
            }
            StepFault::Refused(Cause::Broken) => Course::Stop,
            StepFault::Refused(_) => Course::End,
        }
    }

    /// The answer of a step that leads to this phase.
    fn reach<T: Drop>(&mut self, phase: StorePhase, done: Result<T, StepFault>) -> Course
        ensures told { EndsCheckpoints self.old.seat.share self.new.seat.share }
    {
        match done {
            Ok(_) => {
                self.phase = phase;
                Course::GoOn
            }
            Err(fault) => self.refused(fault),
        }
    }

    /// Makes one step of the store in a hold of its own, and offers no event.
    fn make(&mut self, step: Step) -> StepResult
        requires offers_none { may_accept step ≡ 0 }
        ensures told { IsToldOfNone self.old.seat.share self.new.seat.share }
        ensures listed { IsListed step self.old.seat.share self.new.seat.share result }
    {
        let task = StepTask {
            alloc: self.seat.alloc,
            step,
        };
        self.seat
            .shared
            .hold(self.seat.rt, &mut self.seat.share, task)
    }

    /// Makes one step of a checkpoint that opens no root.
    fn step(&mut self, step: Step) -> StepResult
        requires offers_none { may_accept step ≡ 0 }
        requires opens_none { may_open step ≡ false }
        ensures told { EndsCheckpoints self.old.seat.share self.new.seat.share }
    {
        self.make(step)
    }

    /// How many events the store has accepted.
    fn events(&mut self) -> Result<u64, Refusal>
        ensures told { EndsCheckpoints self.old.seat.share self.new.seat.share }
    {
        self.seat
            .shared
            .hold(self.seat.rt, &mut self.seat.share, EventsTask)
    }

    /// Commits, and begins a checkpoint in the same hold. Answers how many events are durable.
    fn freeze(&mut self) -> Result<u64, StepFault>
        ensures told { EndsCheckpoints self.old.seat.share self.new.seat.share }
    {
        let task = BeginTask {
            alloc: self.seat.alloc,
        };
        self.seat
            .shared
            .hold(self.seat.rt, &mut self.seat.share, task)
    }

    /// Commits and begins a checkpoint, where one is due when all accepted events are durable.
    fn begin(&mut self) -> Course
        ensures told { EndsCheckpoints self.old.seat.share self.new.seat.share }
    {
        let Ok(count) = self.events() else {
            return Course::Stop;
        };
        if !self.due.is_due(count) {
            return Course::End;
        }
        match self.freeze() {
            Ok(count) => {
                self.due.begun = count;
                self.seat.terms.note_due_from(self.due.next());
                self.phase = StorePhase::Flushing;
                Course::GoOn
            }
            Err(fault) => self.refused(fault),
        }
    }

    /// Writes a page that was encoded.
    fn put(&mut self, page: EncodedPage) -> Course
        ensures told { EndsCheckpoints self.old.seat.share self.new.seat.share }
    {
        match self.step(Step::Put(page)) {
            StepResult::Put(Ok(_)) => self.pass(Point::Put),
            StepResult::Put(Err(fault)) => self.refused(fault),
            _ => Course::End,
        }
    }

    /// Encodes a page outside the lock, and writes it. Where memory is refused, the page waits on.
    fn flush(&mut self, job: Job) -> Course
        ensures told { EndsCheckpoints self.old.seat.share self.new.seat.share }
    {
        if self.pass(Point::JobTaken) == Course::Stop {
            return Course::Stop;
        }
        let Ok(page) = job.encode() else {
            return Course::End;
        };
        if self.pass(Point::Encoded) == Course::Stop {
            return Course::Stop;
        }
        self.put(page)
    }

    /// Makes the pages durable.
    fn seal(&mut self) -> Course
        ensures told { EndsCheckpoints self.old.seat.share self.new.seat.share }
    {
        if self.pass(Point::BeforeSeal) == Course::Stop {
            return Course::Stop;
        }
        match self.step(Step::SealPages) {
            StepResult::Sealed(done) => self.reach(StorePhase::Sealed, done),
            _ => Course::End,
        }
    }

    /// Writes the page that is next, or makes the pages durable where none waits.
    fn write_page(&mut self) -> Course
        ensures told { EndsCheckpoints self.old.seat.share self.new.seat.share }
    {
        match self.step(Step::TakeJob) {
            StepResult::Taken(Ok(Some(job))) => self.flush(job),
            StepResult::Taken(Ok(None)) => self.seal(),
            StepResult::Taken(Err(fault)) => self.refused(fault),
            _ => Course::End,
        }
    }

    /// Closes the file that the root goes to.
    fn prepare(&mut self) -> Course
        ensures told { EndsCheckpoints self.old.seat.share self.new.seat.share }
    {
        match self.step(Step::PrepareRoot) {
            StepResult::Prepared(done) => self.reach(StorePhase::Prepared, done),
            _ => Course::End,
        }
    }

    /// Writes the root behind its closed gate.
    fn write_root(&mut self) -> Course
        ensures told { EndsCheckpoints self.old.seat.share self.new.seat.share }
    {
        match self.step(Step::WriteRoot) {
            StepResult::Written(done) => self.reach(StorePhase::Written, done),
            _ => Course::End,
        }
    }

    /// Gives up the events that the root counts, which was opened right before. That ends the checkpoint.
    fn retire(&mut self) -> Course
        ensures told { IsToldOfNone self.old.seat.share self.new.seat.share }
        ensures retired { AreRetired true self.old.seat.share.steps → AreRetired false self.new.seat.share.steps }
    {
        match self.make(Step::Retire) {
            StepResult::Retired(Ok(_)) => self.pass(Point::RootOpen),
            StepResult::Retired(Err(Refusal::Broken)) => Course::Stop,
            _ => Course::End,
        }
    }

    /// Opens the root, and gives up the events that it counts in a hold behind it.
    fn open_root(&mut self) -> Course
        ensures told { EndsCheckpoints self.old.seat.share self.new.seat.share }
    {
        let answer = self.make(Step::OpenRoot);
        if is_opened(&answer) {
            self.phase = StorePhase::Idle;
            return self.retire();
        }
        match answer {
            StepResult::Opened(Err(fault)) => self.refused(fault),
            _ => Course::End,
        }
    }

    /// Makes the next step of the checkpoint.
    fn go_on(&mut self) -> Course
        ensures told { EndsCheckpoints self.old.seat.share self.new.seat.share }
    {
        match self.phase {
            StorePhase::Idle | StorePhase::Pending => Course::End,
            StorePhase::Flushing => self.write_page(),
            StorePhase::Sealed => self.prepare(),
            StorePhase::Prepared => self.write_root(),
            StorePhase::Written => self.open_root(),
        }
    }

    /// Notes it where the store is broken.
    fn watch(&mut self)
        ensures told { EndsCheckpoints self.old.seat.share self.new.seat.share }
    {
        if self.events().is_err() {
            self.seat.terms.health.note_broken();
        }
    }

    /// Goes on with the checkpoint in progress as far as it comes, or begins one where none is and one is due. Tells whether the flusher
    /// goes on.
    fn run(&mut self) -> Pass
        ensures told { EndsCheckpoints self.old.seat.share self.new.seat.share }
    {
        let mut course = match self.phase {
            StorePhase::Idle | StorePhase::Pending => self.begin(),
            _ => Course::GoOn,
        };
        for _ in self.seat.rt.forever() {
            if course != Course::GoOn {
                break;
            }
            course = self.go_on();
        }
        match course {
            Course::Stop => Pass::Stop,
            _ => Pass::Go,
        }
    }
}

/// Makes checkpoints, until its channel is closed and empty, the gate says stop or the store is broken, and gives the share back. At a
/// nudge it goes on with the checkpoint that a refusal has held up. Where none is in progress, it begins one, with a commit, if it is due.
/// A checkpoint ends with `retire`: that is the step behind each `open_root` that opened a root.
/// It tells the workers from how many events on it wants to be nudged: a nudge that comes meanwhile waits in the channel.
/// Each step is made in a hold of the lock of its own, and pages are encoded outside of it, so clients are answered meanwhile. It offers no
/// event. Where the store is broken it notes that, at the latest when no nudge came for a second.
///
/// It waits for the lock and for nudges.
pub fn flusher<D: Disk, A: Opening, B: Column, G: Gate, R: Wait + Clock>(
    seat: Seat<D, A, B, G, R>,
    nudges: &Receiver<()>,
    due: Due,
) -> Share<A, B>
    ensures told { IsToldOfNone seat.entry.share result }
    // Each root that was opened has its retirement right behind it.
    ensures retired { StayRetired seat.entry.share result }
{
    let rt = seat.rt;
    let mut round = Round {
        seat,
        due,
        phase: StorePhase::Idle,
    };
    round.tell_due();
    for _ in rt.forever() {
        match nudges.recv_timeout(rt, Duration::from_millis(WATCH_MILLISECONDS)) {
            Ok(()) => {
                if round.run() == Pass::Stop {
                    break;
                }
                round.tell_due();
            }
            Err(RecvTimeoutError::Timeout) => round.watch(),
            Err(RecvTimeoutError::Disconnected) => break,
        }
    }
    round.watch();
    round.seat.share
}
