//! A disk in memory of which chosen calls fail.
ghost use Rattle.std.specs.Prelude.{◌≡◌, true};
ghost use Rattle.hg_disk.specs.Memory.{failures_of, history_of, past_of, start_of, state_of};
ghost use Rattle.hg_disk.specs.Kept.{has_contents};

use hg_disk::{Disk, DiskFault, MemDisk};

/// Which calls of a disk fail, counted from 0 on.
pub struct Failures {
    /// These.
    pub each: Vec<u64>,
    /// And all from this one on.
    pub from: u64,
}

impl Drop for Failures {
    fn drop(self) {
        let Failures { each, from: _ } = self;
        drop(each);
    }
}

impl Failures {
    fn has(&self, call: u64) -> bool {
        if call >= self.from {
            return true;
        }
        for each in &self.each {
            if *each == call {
                return true;
            }
        }
        false
    }
}

/// A disk in memory of which chosen calls fail. It has the images of the disk in memory: a write that fails leaves its range uncertain.
pub struct TrialDisk {
    disk: MemDisk,
    failures: Failures,
}

impl Drop for TrialDisk {
    fn drop(self) {
        let TrialDisk { disk, failures } = self;
        drop(disk);
        drop(failures);
    }
}

impl TrialDisk {
    /// This disk, with these calls failing.
    pub fn new(disk: MemDisk, failures: Failures) -> TrialDisk {
        TrialDisk { disk, failures }
    }

    /// The disk in memory, which has kept the calls.
    pub fn into_inner(self) -> MemDisk {
        let TrialDisk { disk, failures } = self;
        drop(failures);
        disk
    }

    // Lets the next call fail where it is one of those that are to.
    fn prepare(&mut self)
        ensures state { state_of self.new.disk ≡ state_of self.old.disk }
        ensures past { past_of self.new.disk ≡ past_of self.old.disk }
        ensures failures { failures_of self.new.disk ≡ failures_of self.old.disk }
    {
        if self.failures.has(self.disk.calls().len() as u64) {
            self.disk.fail_next();
        }
    }
}

impl Disk for TrialDisk {
    ghost use Rattle.std.proofs.Common.{refl};

    ghost reads_were_true = { λ _. true };

    ghost is_honest = { true };

    ghost state = { λ d. state_of d.disk };

    ghost past = { λ d. past_of d.disk };

    ghost failures = { λ d. failures_of d.disk };

    ghost has_its_bytes = { λ d. has_contents (start_of d.disk) (history_of d.disk) };

    ghost honest_reads = { λ _ _. refl };

    fn len(&self) -> u64 {
        self.disk.len()
    }

    fn read_at(&mut self, at: u64, buf: &mut [u8]) -> Result<(), DiskFault> {
        self.prepare();
        self.disk.read_at(at, buf)
    }

    fn write_at(&mut self, at: u64, bytes: &[u8]) -> Result<(), DiskFault> {
        self.prepare();
        self.disk.write_at(at, bytes)
    }

    fn cut(&mut self, to: u64) -> Result<(), DiskFault> {
        self.prepare();
        self.disk.cut(to)
    }

    fn sync(&mut self) -> Result<(), DiskFault> {
        self.prepare();
        self.disk.sync()
    }
}
