//! A store over disks in memory, and what was done to it.

ghost use Rattle.std.specs.Prelude.{◌≤◌};

use crate::actions::{Action, Told, put_told};
use crate::machine::Machine;
use crate::opening::Opening;
use crate::steps::{note_all, step_of, steps_of, told_of};
use crate::telling::{put_answer, put_contents, put_durable};
use hg_model::verdict::Refusal;
use hg_pages::{EncodedPage, MOST_SLOTS};
use hg_pool::Job;
use hg_sets::MOST_SETS;
use hg_store::create::CreateFault;
use hg_store::devices::{Caps, Devices};
use hg_store::drive::StepAnswer;
use hg_store::steps::{Step, StepResult};
use hg_store::store::Store;
use hg_test_kit::device::PerDevice;
use hg_test_kit::disks::Disks;
use hg_test_kit::shelf::{Fuse, Image, TestDisk};
use hg_test_kit::text::{Text, roomy};
use hg_test_kit::tokens::Halt;
use std::alloc::Global;

/// How many actions there is room for beforehand, so that noting them takes no memory.
const ROOM_OF_ACTIONS: usize = 1_024;

/// For how many bytes of what one action is answered.
const ROOM_OF_WORDS: usize = 256;

/// A store over disks in memory.
pub type OpenStore = Store<TestDisk>;

/// A store, or why it was refused, with its disks.
type Opened = Result<OpenStore, (CreateFault, Devices<TestDisk>)>;

fn devices_of(disks: Disks) -> Devices<TestDisk> {
    let PerDevice {
        journal0,
        journal1,
        slots,
        root0,
        root1,
    } = disks.into_parts();
    Devices {
        journal0,
        journal1,
        slots,
        root0,
        root1,
    }
}

/// The disks of a store.
fn disks_of(devices: Devices<TestDisk>) -> Disks {
    let Devices {
        journal0,
        journal1,
        slots,
        root0,
        root1,
    } = devices;
    Disks::of(PerDevice {
        journal0,
        journal1,
        slots,
        root0,
        root1,
    })
}

fn caps_of(opening: Opening) -> Caps
    ensures sets { (1 ≤ result.sets) × (result.sets ≤ MOST_SETS) }
    ensures slots { (1 ≤ result.slots) × (result.slots ≤ MOST_SLOTS) }
{
    Caps {
        sets: opening.sets.clamp(1, MOST_SETS),
        slots: opening.slots.clamp(1, MOST_SLOTS),
    }
}

fn frames_of(opening: Opening) -> u16
    ensures { (4 ≤ result) × (result ≤ 4096) }
{
    opening.frames.clamp(4, 4096)
}

fn recover(alloc: Global, disks: Disks, opening: Opening) -> Opened {
    match Store::recover(
        alloc,
        devices_of(disks),
        frames_of(opening),
        caps_of(opening),
    ) {
        Ok(store) => Ok(store),
        Err((refusal, devices)) => Err((CreateFault::Refused(refusal), devices)),
    }
}

/// Makes or recovers a store. A refusal hands the disks back.
fn open(alloc: Global, disks: Disks, opening: Opening) -> Opened {
    if opening.is_new {
        Store::create(
            alloc,
            devices_of(disks),
            frames_of(opening),
            caps_of(opening),
        )
    } else {
        recover(alloc, disks, opening)
    }
}

/// A store, if one is open, and what was done to it since then.
pub struct MemoryStore {
    alloc: Global,
    opened: Option<OpenStore>,
    /// The disks of a store that was refused.
    left: Option<Disks>,
    /// The page of the job that was taken last, encoded.
    page: Option<EncodedPage>,
    made: Vec<Action>,
}

impl Drop for MemoryStore {
    fn drop(self) {
        let MemoryStore {
            alloc: _,
            opened,
            left,
            page,
            made,
        } = self;
        drop(opened);
        drop(left);
        drop(page);
        drop(made);
    }
}

/// Why a store was refused.
fn halt_of(fault: CreateFault) -> Halt {
    match fault {
        CreateFault::NotEmpty => Halt::NotEmpty,
        CreateFault::Refused(refusal) => Halt::Refused(refusal),
    }
}

/// `ANSWER`, or `N times ANSWER`, behind a comma where it is not the first; nothing where it was never answered.
fn put_times(times: u64, answer: &Text, out: &mut Text) {
    if times == 0 {
        return;
    }
    if !out.bytes().is_empty() {
        out.put(b", ");
    }
    if times > 1 {
        out.put_decimal(times);
        out.put(b" times ");
    }
    out.put(answer.bytes());
}

/// Appends the answers of a run. Equal ones in a row become their number and one of them. `last` and `next` have no text yet.
fn put_answers(answers: &[StepAnswer<TestDisk>], last: &mut Text, next: &mut Text, out: &mut Text) {
    let mut times = 0_u64;
    for answer in answers {
        next.clear();
        put_told(told_of(&answer.result), next);
        if next.bytes() == last.bytes() {
            times = times.wrapping_add(1);
        } else {
            put_times(times, last, out);
            last.clear();
            last.put(next.bytes());
            times = 1;
        }
    }
    put_times(times, last, out);
}

/// Has a store make all steps at once. What it answers has its room beforehand.
fn drive(alloc: Global, store: &mut OpenStore, steps: &[Step], out: &mut Text) -> Result<(), Halt> {
    let [done @ .., last] = steps else {
        return Err(Halt::Misspelt);
    };
    let mut former = Text::with_room(alloc, ROOM_OF_WORDS);
    let mut next = Text::with_room(alloc, ROOM_OF_WORDS);
    let answers = store.drive(alloc, done, last)?;
    put_answers(&answers, &mut former, &mut next, out);
    Ok(())
}

impl MemoryStore {
    /// No store.
    pub fn new(alloc: Global) -> MemoryStore {
        MemoryStore {
            alloc,
            opened: None,
            left: None,
            page: None,
            made: roomy(alloc, ROOM_OF_ACTIONS),
        }
    }

    /// Has this store, or none.
    fn put_opened(&mut self, opened: Option<OpenStore>) {
        self.opened = opened;
    }

    fn put_left(&mut self, left: Option<Disks>) {
        self.left = left;
    }

    fn put_page(&mut self, page: Option<EncodedPage>) {
        self.page = page;
    }

    /// The store, if one is open.
    fn store(&self) -> Result<&OpenStore, Halt> {
        match &self.opened {
            Some(store) => Ok(store),
            None => Err(Halt::Closed),
        }
    }

    /// Takes back the page that a step handed in.
    fn take_back(&mut self, step: Step) {
        match step {
            Step::Put(page) => self.put_page(Some(page)),
            _ => {}
        }
    }

    /// Encodes the page of a job, and keeps it.
    fn keep_page(&mut self, job: Job) -> Told {
        let page = job.page;
        match job.encode() {
            Ok(encoded) => {
                self.put_page(Some(encoded));
                Told::Page(page)
            }
            Err(_) => Told::Refused(Refusal::OutOfMemory),
        }
    }

    /// What a step was answered. Keeps the page of a job that was taken.
    fn keep(&mut self, answer: StepResult) -> Told {
        match answer {
            StepResult::Taken(Ok(Some(job))) => self.keep_page(job),
            other => told_of(&other),
        }
    }
}

impl Machine for MemoryStore {
    fn open(
        &mut self,
        image: &Image,
        fuses: &PerDevice<Fuse>,
        opening: Opening,
    ) -> Result<u64, Halt> {
        // The page of a job stays, so that another store can be handed it.
        self.put_opened(None);
        self.put_left(None);
        self.made.clear();
        let disks = Disks::new(self.alloc, image, fuses)?;
        match open(self.alloc, disks, opening) {
            Ok(store) => {
                let events = store.events().unwrap_or(0);
                self.put_opened(Some(store));
                Ok(events)
            }
            Err((fault, devices)) => {
                self.put_left(Some(disks_of(devices)));
                Err(halt_of(fault))
            }
        }
    }

    fn make(&mut self, action: Action) -> Told {
        let Some(store) = &mut self.opened else {
            return Told::Closed;
        };
        if self.made.push(action).is_err() {
            return Told::NoMemory;
        }
        let Some(step) = step_of(action, &mut self.page) else {
            return Told::NoPage;
        };
        let answer = store.step(self.alloc, &step);
        self.take_back(step);
        self.keep(answer)
    }

    fn drive(&mut self, actions: &[Action], out: &mut Text) -> Result<(), Halt> {
        let Some(store) = &mut self.opened else {
            return Err(Halt::Closed);
        };
        let steps = steps_of(self.alloc, actions, &self.page, out)?;
        note_all(actions, &mut self.made)?;
        drive(self.alloc, store, &steps, out)
    }

    fn made(&self) -> &[Action] {
        &self.made
    }

    fn tell(&self, line: &str, out: &mut Text) -> Result<(), Halt> {
        put_answer(self.alloc, self.store()?, line, out)
    }

    fn put_contents(&self, out: &mut Text) -> Result<(), Halt> {
        let store = self.store()?;
        store.phase()?;
        Ok(put_contents(self.alloc, store, out)?)
    }

    fn put_durable(&mut self, text: &str, out: &mut Text) -> Result<(), Halt> {
        match &mut self.opened {
            Some(store) => put_durable(self.alloc, store, text, out),
            None => Err(Halt::Closed),
        }
    }

    fn close(&mut self) -> Option<Disks> {
        match self.opened.take() {
            Some(store) => Some(disks_of(store.into_devices())),
            None => self.left.take(),
        }
    }

    fn leave(&mut self) {
        self.put_opened(None);
        self.put_left(None);
        self.put_page(None);
    }
}
