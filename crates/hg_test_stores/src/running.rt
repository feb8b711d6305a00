//! Runs of a store that are made again, and stopped.

use crate::actions::{Action, Told, put_told};
use crate::checkpoints::checkpoint;
use crate::machine::Machine;
use crate::opening::Opening;
use hg_detect::detector::Answer;
use hg_disk::Tear;
use hg_model::event::Named;
use hg_model::verdict::Refusal;
use hg_test_kit::device::{Device, PerDevice};
use hg_test_kit::disks::Memories;
use hg_test_kit::shelf::{Fuse, Image, NO_FUSES};
use hg_test_kit::text::Text;
use hg_test_kit::tokens::Halt;
use std::alloc::{AllocError, Global};

/// How a store came to be.
#[derive(Drop)]
pub struct Origin {
    pub start: Image,
    pub opening: Opening,
    /// How many events it had as it was opened.
    pub base: u64,
}

/// How a store came to be, and what was done to it since then.
#[derive(Clone, Copy)]
pub struct Run<'a> {
    pub origin: &'a Origin,
    pub actions: &'a [Action],
}

/// How far a run came.
#[derive(Clone, Copy)]
pub struct Progress {
    pub is_open: bool,
    pub acknowledged: u64,
    pub accepted: u64,
    /// A commit was ended by a fault.
    pub in_doubt: bool,
}

/// What runs are made again with, and what they come to. What lies in it is filled anew, so that nothing is let go of at an exit.
#[derive(Drop)]
pub struct Rerun<M> {
    pub machine: M,
    /// What a stop leaves.
    pub image: Image,
    /// The events that the run without a stop accepted.
    accepted: Vec<Named>,
    /// All that is told of them in the end.
    contents: Text,
    /// All that is told after a stop.
    found: Text,
}

impl<M> Rerun<M> {
    pub fn new(alloc: Global, machine: M) -> Rerun<M> {
        Rerun {
            machine,
            image: Image::new(alloc),
            accepted: Vec::new(alloc),
            contents: Text::new(alloc),
            found: Text::new(alloc),
        }
    }
}

/// Does what the actions say, up to the first that a device's fault ends: there the run stops. Counts their answers in.
fn make_all(machine: &mut impl Machine, actions: &[Action], progress: &mut Progress) {
    for action in actions {
        match machine.make(*action) {
            Told::Offered(Answer::Accepted) => {
                progress.accepted = progress.accepted.wrapping_add(1);
            }
            Told::Committed(events) => progress.acknowledged = events,
            Told::Refused(Refusal::DeviceFault) => {
                progress.in_doubt = matches!(action, Action::Commit);
                return;
            }
            _ => {}
        }
    }
}

/// The disks of what is open, below their fuses.
fn memories_of(machine: &mut impl Machine) -> Result<Memories, AllocError> {
    match machine.close() {
        Some(disks) => Ok(disks.into_memories()),
        None => Err(AllocError),
    }
}

/// Makes a run again with disks that fail as is told, and tells how far it came.
fn run_again(machine: &mut impl Machine, run: Run, fuses: &PerDevice<Fuse>) -> Progress {
    let origin = run.origin;
    let mut progress = Progress {
        is_open: machine.open(&origin.start, fuses, origin.opening).is_ok(),
        acknowledged: origin.base,
        accepted: origin.base,
        in_doubt: false,
    };
    if progress.is_open {
        make_all(machine, run.actions, &mut progress);
    }
    progress
}

/// Makes a run again where one device fails from a call on, and gives how far it came and its disks.
pub fn stop_run(
    machine: &mut impl Machine,
    run: Run,
    device: Device,
    after: u64,
) -> Result<(Progress, Memories), AllocError> {
    let mut fuses = NO_FUSES;
    *fuses.of_mut(device) = Fuse::On(after);
    let progress = run_again(machine, run, &fuses);
    Ok((progress, memories_of(machine)?))
}

/// Does what the actions say, and keeps the events that were accepted.
fn follow(
    machine: &mut impl Machine,
    actions: &[Action],
    accepted: &mut Vec<Named>,
) -> Result<(), AllocError> {
    accepted.clear();
    for action in actions {
        let told = machine.make(*action);
        if let (Action::Offer(named), Told::Offered(Answer::Accepted)) = (*action, told) {
            accepted.push(named)?;
        }
    }
    Ok(())
}

/// Makes a run again without a stop and then a commit, and keeps what it comes to.
pub fn refer<M: Machine>(rerun: &mut Rerun<M>, run: Run) -> Result<(), Halt> {
    let origin = run.origin;
    let machine = &mut rerun.machine;
    machine.open(&origin.start, &NO_FUSES, origin.opening)?;
    follow(machine, run.actions, &mut rerun.accepted)?;
    let Told::Committed(_) = machine.make(Action::Commit) else {
        return Err(Halt::Closed);
    };
    rerun.contents.clear();
    machine.put_contents(&mut rerun.contents)
}

/// Whether an event that is offered again is a duplicate where it was found, and else is accepted.
fn is_expected(told: Told, was_found: bool) -> bool {
    match told {
        Told::Offered(Answer::Accepted) => !was_found,
        Told::Offered(Answer::Duplicate(_)) => was_found,
        _ => false,
    }
}

/// Offers all events of the run again, and counts them. Those that were found are duplicates.
fn offer_all(
    machine: &mut impl Machine,
    accepted: &[Named],
    base: u64,
    found: u64,
    out: &mut Text,
) -> Result<u64, Halt> {
    let mut place = base;
    for event in accepted {
        if !is_expected(machine.make(Action::Offer(*event)), place < found) {
            out.put_number(b"answers event ", place.wrapping_add(1));
            return Err(Halt::Said);
        }
        place = place.wrapping_add(1);
    }
    Ok(place)
}

/// Commits as many events.
fn commit(machine: &mut impl Machine, count: u64, out: &mut Text) -> Result<(), Halt> {
    match machine.make(Action::Commit) {
        Told::Committed(committed) if committed == count => Ok(()),
        told => {
            out.put(b"commits ");
            put_told(told, out);
            Err(Halt::Said)
        }
    }
}

/// Checks that a store tells the same as the run without a stop.
fn compare<M: Machine>(rerun: &mut Rerun<M>, wrong: &[u8], out: &mut Text) -> Result<(), Halt> {
    rerun.found.clear();
    rerun.machine.put_contents(&mut rerun.found)?;
    if rerun.found.bytes() == rerun.contents.bytes() {
        return Ok(());
    }
    out.put(wrong);
    Err(Halt::Said)
}

/// Makes a checkpoint.
fn save(machine: &mut impl Machine, out: &mut Text) -> Result<(), Halt> {
    match checkpoint(machine) {
        Ok(_) => Ok(()),
        Err(told) => {
            out.put(b"a checkpoint answers ");
            put_told(told, out);
            Err(Halt::Said)
        }
    }
}

/// Recovers a store from the image that a stop left, and tells how many events are found.
fn recover<M: Machine>(
    rerun: &mut Rerun<M>,
    origin: &Origin,
    wrong: &[u8],
    out: &mut Text,
) -> Result<u64, Halt> {
    let opening = origin.opening.again();
    match rerun.machine.open(&rerun.image, &NO_FUSES, opening) {
        Ok(found) => Ok(found),
        Err(_) => {
            out.put(wrong);
            Err(Halt::Said)
        }
    }
}

/// Recovers what a stop left. What is found was acknowledged or, where a commit is in doubt, accepted.
fn find<M: Machine>(
    rerun: &mut Rerun<M>,
    origin: &Origin,
    progress: Progress,
    out: &mut Text,
) -> Result<u64, Halt> {
    let found = recover(rerun, origin, b"is not recovered", out)?;
    if found == progress.acknowledged || progress.in_doubt && found == progress.accepted {
        return Ok(found);
    }
    out.put_number(b"finds events ", found);
    Err(Halt::Said)
}

/// Goes on to the end of the run, and sees that the store then tells what it would have told without a stop.
fn go_on<M: Machine>(
    rerun: &mut Rerun<M>,
    base: u64,
    found: u64,
    out: &mut Text,
) -> Result<(), Halt> {
    let machine = &mut rerun.machine;
    let count = offer_all(machine, &rerun.accepted, base, found, out)?;
    commit(machine, count, out)?;
    compare(rerun, b"differs in the end", out)
}

/// Makes a checkpoint, recovers what is synced then, and sees that it tells the same.
fn recover_again<M: Machine>(
    rerun: &mut Rerun<M>,
    origin: &Origin,
    out: &mut Text,
) -> Result<(), Halt> {
    save(&mut rerun.machine, out)?;
    memories_of(&mut rerun.machine)?.leave(Tear::Lost, &mut rerun.image)?;
    recover(rerun, origin, b"is not recovered after a checkpoint", out)?;
    compare(rerun, b"differs after a checkpoint", out)
}

/// Recovers what a stop left, goes on to the end of the run, makes a checkpoint and recovers what is synced then; and tells how many events
/// were found.
pub fn resume<M: Machine>(
    rerun: &mut Rerun<M>,
    origin: &Origin,
    progress: Progress,
    out: &mut Text,
) -> Result<u64, Halt> {
    let found = find(rerun, origin, progress, out)?;
    go_on(rerun, origin.base, found, out)?;
    recover_again(rerun, origin, out)?;
    Ok(found)
}
