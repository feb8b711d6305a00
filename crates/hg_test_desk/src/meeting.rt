//! Gates of the trials.

use hg_server::worker::{Gate, Pass, Point};
use hg_test_kit::text::Text;
use std::alloc::Global;
use std::sync::atomic::{AtomicBool, Ordering};
use std::sync::{Mutex, Wait};
use std::thread;
use std::time::{Clock, Duration};

/// How often a thread looks whether the other one has come, before it gives up.
const MOST_LOOKS: u32 = 10_000;

/// How long it sleeps between two looks, in milliseconds.
const PAUSE: u64 = 1;

/// What is told of a point.
fn name_of(point: Point) -> &'static str {
    match point {
        Point::Answered => "answered\n",
        Point::JobTaken => "job taken\n",
        Point::Encoded => "encoded\n",
        Point::Put => "put\n",
        Point::BeforeSeal => "before seal\n",
        Point::RootOpen => "root open\n",
        Point::NoRoom => "no room\n",
    }
}

/// Where the flusher waits with a page that it took until the other thread was answered. Both tell what they do, in its order. No wait is
/// for ever: a thread that gives up tells so and goes on.
#[derive(Drop)]
pub struct Meeting<'a, R> {
    rt: &'a R,
    account: Mutex<Text>,
    is_job_out: AtomicBool,
    is_answered: AtomicBool,
}

impl<'a, R: Wait + Clock> Meeting<'a, R> {
    /// Nothing was done yet.
    pub fn new(rt: &'a R, alloc: Global) -> Meeting<'a, R> {
        Meeting {
            rt,
            account: Mutex::new(Text::new(alloc)),
            is_job_out: AtomicBool::new(false),
            is_answered: AtomicBool::new(false),
        }
    }

    /// Tells what a thread did.
    pub fn tell(&self, piece: &[u8]) {
        self.account.lock(self.rt).put(piece);
    }

    fn wait_for(&self, flag: &AtomicBool) {
        for _ in 0..MOST_LOOKS {
            if flag.load(Ordering::SeqCst) {
                return;
            }
            thread::sleep(self.rt, Duration::from_millis(PAUSE));
        }
        self.tell(b"gave up\n");
    }

    /// Waits until the flusher has taken a page.
    pub fn wait_for_job(&self) {
        self.wait_for(&self.is_job_out);
    }

    /// Lets the flusher go on.
    pub fn note_answer(&self) {
        self.is_answered.store(true, Ordering::SeqCst);
    }

    /// All that was told.
    pub fn into_account(self) -> Text {
        let Meeting {
            rt: _,
            account,
            is_job_out: _,
            is_answered: _,
        } = self;
        account.into_inner()
    }
}

impl<'a, R: Wait + Clock> Gate for Meeting<'a, R> {
    fn at(&self, point: Point) -> Pass {
        self.tell(name_of(point).as_bytes());
        if point == Point::JobTaken {
            self.is_job_out.store(true, Ordering::SeqCst);
            self.wait_for(&self.is_answered);
        }
        Pass::Go
    }
}

/// Stops a thread at the first page that it took.
#[derive(Drop)]
pub struct StopsAtJob;

impl Gate for StopsAtJob {
    fn at(&self, point: Point) -> Pass {
        match point {
            Point::JobTaken => Pass::Stop,
            _ => Pass::Go,
        }
    }
}
