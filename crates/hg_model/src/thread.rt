//! Threads of a trace.

ghost use Rattle.std.specs.Prelude.{◌≡◌};

use crate::held::HeldLocks;

/// A thread that was started, dead or alive, with the locks that it holds.
#[derive(Drop)]
pub struct ThreadState {
    /// 0..=1023
    pub number: u16,
    pub alive: bool,
    pub held: HeldLocks,
}

impl ThreadState {
    /// A copy of the thread.
    pub fn copy(&self) -> Self
        ensures { result ≡ self.now }
    {
        ThreadState {
            number: self.number,
            alive: self.alive,
            held: self.held.copy(),
        }
    }
}
