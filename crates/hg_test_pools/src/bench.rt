//! The pool under trial, what its cells are checked against, and the disk of the last pool.

use crate::opening::pool_of;
use crate::trial::{Known, Trial};
use hg_disk::{Answer, Answered, Call, MemDisk, Tear};
use hg_sets::{MOST_SETS, SetTable};
use hg_test_kit::sets::sets_of;
use hg_test_kit::tears::tear_of;
use hg_test_kit::text::Text;
use hg_test_kit::tokens::front;
use std::alloc::Global;

/// The pool under trial, what its cells are checked against, and the disk of the last pool.
pub struct PoolBench {
    alloc: Global,
    known: Known,
    trial: Option<Trial>,
    disk: MemDisk,
}

impl Drop for PoolBench {
    fn drop(self) {
        let PoolBench {
            alloc: _,
            known,
            trial,
            disk,
        } = self;
        drop(known);
        drop(trial);
        drop(disk);
    }
}

/// A call: `read`, `write:AT,LENGTH`, `cut` or `sync`, and a `!` behind it where it failed.
fn put_call(told: Answered, out: &mut Text) {
    match told.call {
        Call::Read { .. } => out.put(b" read"),
        Call::Write { at, len } => {
            out.put_number(b" write:", at);
            out.put_number(b",", len as u64);
        }
        Call::Cut { to: _ } => out.put(b" cut"),
        Call::Sync => out.put(b" sync"),
    }
    if told.answer != Answer::Done {
        out.put(b"!");
    }
}

impl PoolBench {
    /// No pool, an empty disk, one segment, and no set but the empty one.
    pub fn new(alloc: Global) -> Option<PoolBench> {
        Some(PoolBench {
            alloc,
            known: Known {
                segments: 1,
                sets: SetTable::with_limit(alloc, MOST_SETS).ok()?,
            },
            trial: None,
            disk: MemDisk::new(alloc),
        })
    }

    // `known SEGMENTS SETS`: what cells are checked against from here on.
    fn set_known(&mut self, tokens: &str) -> Option<()> {
        let (segments, sets) = front(tokens);
        let segments = segments.parse::<u32>().ok()?;
        self.known = Known {
            segments,
            sets: sets_of(self.alloc, sets)?,
        };
        Some(())
    }

    // `new ..`: a pool in place of the one under trial.
    fn begin(&mut self, tokens: &str) -> Option<()> {
        let pool = pool_of(self.alloc, tokens)?;
        self.trial = Some(Trial::new(self.alloc, pool));
        Some(())
    }

    // `end`: ends the trial, and tells the calls of its disk.
    fn end(&mut self, out: &mut Text) -> Option<()> {
        self.disk = self.trial.take()?.into_disk();
        out.put(b"calls");
        for told in self.disk.calls() {
            put_call(*told, out);
        }
        Some(())
    }

    // `image K TEAR`: what a crash with this tear leaves of the last pool's disk after its first K calls.
    fn put_image(&self, tokens: &str, out: &mut Text) -> Option<()> {
        let (calls, tear) = front(tokens);
        let calls = calls.parse::<usize>().ok()?;
        let tear = tear_of(tear)?;
        if calls > self.disk.calls().len() {
            return None;
        }
        let image = self.disk.image(calls, tear).ok()?;
        out.put(b"image ");
        out.put_hex(&image);
        Some(())
    }

    fn act(&mut self, line: &str, out: &mut Text) -> Option<()> {
        let (token, rest) = front(line);
        match token {
            "known" => self.set_known(rest),
            "new" => self.begin(rest),
            "end" => self.end(out),
            "image" => self.put_image(rest, out),
            _ => {
                let trial = self.trial.as_mut()?;
                trial.step(self.alloc, &self.known, line, out);
                Some(())
            }
        }
    }

    /// Answers one line.
    pub fn answer(&mut self, line: &str, out: &mut Text) {
        if self.act(line, out).is_none() {
            out.put(b"not understood");
        }
        out.put(b"\n");
    }
}
