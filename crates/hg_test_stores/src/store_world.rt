//! What the lines of a scenario of a store act on.

use crate::actions::{Action, Told, put_actions, put_told};
use crate::checkpoints::{put_checkpoint, put_pages};
use crate::machine::Machine;
use crate::opening::{NEW, Opening, opening_of};
use crate::running::{Origin, Progress, Rerun, Run, stop_run};
use crate::stops::put_stops;
use hg_detect::detector::Answer;
use hg_disk::Tear;
use hg_model::event::Named;
use hg_store::devices::Caps;
use hg_test_kit::device::{DEVICES, Device, read_device};
use hg_test_kit::run::World;
use hg_test_kit::shelf::{Image, NO_FUSES, Shelf};
use hg_test_kit::tears::{tear, tears_of};
use hg_test_kit::text::{Text, roomy};
use hg_test_kit::tokens::{Halt, Tokens, front};
use std::alloc::{AllocError, Global};

/// For how many bytes of what a store tells there is room beforehand, so that telling it takes no memory of the trial's.
const ROOM_OF_PICTURE: usize = 65_536;

/// For how many actions of a line.
const ROOM_OF_ROW: usize = 256;

/// What there is in a scenario.
#[derive(Drop)]
pub struct StoreWorld<M> {
    alloc: Global,
    shelf: Shelf,
    machine: M,
    /// How the store that was opened last came to be.
    origin: Origin,
    rerun: Rerun<M>,
    /// All that the store told as it was last remembered, and what it tells now.
    remembered: Text,
    picture: Text,
    /// What is to be done at once.
    noted: Vec<Action>,
    /// What a line asks for, and the events that it names.
    asked: Vec<Action>,
    events: Vec<Named>,
}

/// `N events`
fn put_count_of_events(count: u64, out: &mut Text) {
    out.put_decimal(count);
    out.put(b" events");
}

/// `ACKNOWLEDGED`, or `ACKNOWLEDGED or ACCEPTED`
fn put_progress(progress: Progress, out: &mut Text) {
    out.put_decimal(progress.acknowledged);
    if progress.in_doubt {
        out.put_number(b" or ", progress.accepted);
    }
}

/// `sets N slots M`: the greatest that a store may have.
fn put_profile(out: &mut Text) {
    let caps = Caps::profile();
    out.put_number(b"sets ", u64::from(caps.sets));
    out.put_number(b" slots ", u64::from(caps.slots));
}

/// Does what actions say, up to the first that is not answered `accepted`: what it answers, or `accepted`.
fn make_all(machine: &mut impl Machine, actions: &[Action], out: &mut Text) {
    for action in actions {
        let told = machine.make(*action);
        if !matches!(told, Told::Offered(Answer::Accepted)) {
            put_told(told, out);
            return;
        }
    }
    out.put(b"accepted");
}

/// Has a text have all that a store tells: how far it is, and what it tells of its events.
fn draw(machine: &impl Machine, picture: &mut Text) -> Result<(), Halt> {
    picture.clear();
    machine.tell("phase", picture)?;
    machine.put_contents(picture)
}

/// What a recovery from an image finds.
fn find(
    machine: &mut impl Machine,
    image: &Image,
    opening: Opening,
    out: &mut Text,
) -> Result<(), Halt> {
    let events = machine.open(image, &NO_FUSES, opening.again())?;
    put_count_of_events(events, out);
    Ok(())
}

/// `K TEAR`: stops a run after so many calls of a device, and leaves the image.
fn stop_one(
    machine: &mut impl Machine,
    run: Run,
    device: Device,
    tokens: &mut Tokens,
    image: &mut Image,
    out: &mut Text,
) -> Result<(), Halt> {
    let calls = tokens.number();
    let tear = tear(tokens);
    tokens.check()?;
    let (progress, memories) = stop_run(machine, run, device, calls)?;
    memories.leave_torn(device, tear, Tear::Kept, image)?;
    put_progress(progress, out);
    Ok(())
}

impl<M: Machine> StoreWorld<M> {
    /// Five empty disks, and nothing open. One machine is for what lines say, and the other for runs that are made again.
    pub fn new(alloc: Global, machine: M, other: M) -> StoreWorld<M> {
        StoreWorld {
            alloc,
            shelf: Shelf::new(alloc),
            machine,
            origin: Origin {
                start: Image::new(alloc),
                opening: NEW,
                base: 0,
            },
            rerun: Rerun::new(alloc, other),
            remembered: Text::with_room(alloc, ROOM_OF_PICTURE),
            picture: Text::with_room(alloc, ROOM_OF_PICTURE),
            noted: roomy(alloc, ROOM_OF_ROW),
            asked: roomy(alloc, ROOM_OF_ROW),
            events: roomy(alloc, ROOM_OF_ROW),
        }
    }

    /// Puts the disks of the store back, if one is open.
    fn close(&mut self) -> Result<(), AllocError> {
        match self.machine.close() {
            Some(disks) => self.shelf.put_all(disks),
            None => Ok(()),
        }
    }

    /// Puts the disks of the store back, with what is not synced torn.
    fn crash(&mut self, text: &str) -> Result<(), Halt> {
        self.shelf.tear_by(text)?;
        let closed = self.close();
        self.shelf.tear = Tear::Kept;
        Ok(closed?)
    }

    /// Opens a store over the disks as they are.
    fn open(&mut self, is_new: bool, text: &str, out: &mut Text) -> Result<(), Halt> {
        self.origin.opening = opening_of(is_new, text)?;
        self.close()?;
        self.origin.start.copy(&self.shelf.image)?;
        let shelf = &mut self.shelf;
        let opened = self
            .machine
            .open(&shelf.image, &shelf.fuses, self.origin.opening);
        shelf.fuses = NO_FUSES;
        match opened {
            Ok(events) => {
                self.origin.base = events;
                put_count_of_events(events, out);
                Ok(())
            }
            Err(halt) => {
                self.close()?;
                Err(halt)
            }
        }
    }

    /// Stops the run of a store at each call of these devices.
    fn stop_each(&mut self, devices: &[Device], text: &str, out: &mut Text) -> Result<(), Halt> {
        let tears = tears_of(self.alloc, text)?;
        let run = Run {
            origin: &self.origin,
            actions: self.machine.made(),
        };
        put_stops(&mut self.rerun, run, devices, &tears, out)
    }

    /// Stops the run of a store once, and leaves it.
    fn stop_once(
        &mut self,
        device: Device,
        tokens: &mut Tokens,
        out: &mut Text,
    ) -> Result<(), Halt> {
        let run = Run {
            origin: &self.origin,
            actions: self.machine.made(),
        };
        let image = &mut self.shelf.image;
        stop_one(&mut self.rerun.machine, run, device, tokens, image, out)?;
        self.machine.leave();
        Ok(())
    }

    /// Stops the run since the store was opened: `every device at each call TEARS`, or of a device `at each call TEARS` or `at K TEAR`.
    fn stop(&mut self, text: &str, out: &mut Text) -> Result<(), Halt> {
        let mut tokens = Tokens::of(text);
        if tokens.skip("every device at each call ") {
            return self.stop_each(&DEVICES, tokens.rest(), out);
        }
        let device = read_device(&mut tokens);
        tokens.expect("at ");
        tokens.check()?;
        if tokens.skip("each call ") {
            return self.stop_each(&[device], tokens.rest(), out);
        }
        self.stop_once(device, &mut tokens, out)
    }

    /// Whether the store tells the same as it told.
    fn compare(&mut self, out: &mut Text) -> Result<(), Halt> {
        draw(&self.machine, &mut self.picture)?;
        if self.picture.bytes() == self.remembered.bytes() {
            out.put(b"unchanged");
        } else {
            out.put(b"changed");
        }
        Ok(())
    }

    /// What the store tells of itself, where `line` says what of it.
    fn tell(&mut self, line: &str, out: &mut Text) -> Result<(), Halt> {
        match line {
            "unchanged" => self.compare(out),
            _ => self.machine.tell(line, out),
        }
    }

    /// Offers a row of events, or makes a step.
    fn make(&mut self, token: &str, rest: &str, out: &mut Text) -> Result<(), Halt> {
        self.asked.clear();
        put_actions(token, rest, &mut self.events, &mut self.asked)?;
        make_all(&mut self.machine, &self.asked, out);
        Ok(())
    }

    /// Notes what a line says, to be done at once.
    fn note(&mut self, text: &str) -> Result<(), Halt> {
        let (token, rest) = front(text);
        put_actions(token, rest, &mut self.events, &mut self.noted)
    }

    /// Does all that was noted at once, and nothing is noted any more.
    fn drive(&mut self, out: &mut Text) -> Result<(), Halt> {
        let driven = self.machine.drive(&self.noted, out);
        self.noted.clear();
        driven
    }

    /// Does what a line asks of the store that is open.
    fn work(&mut self, token: &str, rest: &str, out: &mut Text) -> Result<(), Halt> {
        match token {
            "expect" => self.tell(rest, out),
            "read" => self.machine.put_durable(rest, out),
            "remember" => draw(&self.machine, &mut self.remembered),
            "then" => self.note(rest),
            "run" => self.drive(out),
            "pages" => put_pages(&mut self.machine, out),
            "checkpoint" => put_checkpoint(&mut self.machine, out),
            _ => self.make(token, rest, out),
        }
    }
}

impl<M: Machine> World for StoreWorld<M> {
    fn perform(&mut self, order: &str, out: &mut Text) -> Result<(), Halt> {
        let (token, rest) = front(order);
        let shelf = &mut self.shelf;
        match token {
            "close" => Ok(self.close()?),
            "crash" => self.crash(rest),
            "disk" => shelf.set(rest),
            "fail" => shelf.fail(rest),
            "bytes" | "length" | "calls" => shelf.tell(token, rest, out),
            "store" => self.open(true, rest, out),
            "recover" => self.open(false, rest, out),
            "found" => find(
                &mut self.rerun.machine,
                &shelf.image,
                self.origin.opening,
                out,
            ),
            "stop" => self.stop(rest, out),
            "profile" => {
                put_profile(out);
                Ok(())
            }
            _ => self.work(token, rest, out),
        }
    }

    fn clear(&mut self) {
        self.shelf.clear();
        self.machine.leave();
        self.remembered.clear();
        self.noted.clear();
    }
}
