//! Events that look random, the same at each run.

ghost use Rattle.std.specs.Prelude.{◌<◌};

use hg_model::event::{Access, Block, Event};

/// Numbers that look random: a linear congruential generator, of which the high bits are taken (Knuth's MMIX).
#[derive(Drop)]
pub struct Dice(pub u64);

impl Dice {
    /// A number below `sides`.
    pub fn roll(&mut self, sides: u64) -> u64
        requires { 0 < sides }
        ensures { result < sides }
    {
        let more = self.0.wrapping_mul(6_364_136_223_846_793_005);
        self.0 = more.wrapping_add(1_442_695_040_888_963_407);
        (self.0 >> 33) % sides
    }

    /// The same of fewer bits.
    fn small(&mut self, sides: u16) -> u16
        requires { 0 < sides }
        ensures { result < sides }
    {
        self.roll(u64::from(sides)) as u16
    }
}

/// A read or a write near the border of one of six pages, mostly of one word or two. Some have no byte.
fn access(dice: &mut Dice, t: u16) -> Access {
    let border = 1_024 * (1 + dice.roll(5));
    Access {
        t,
        at: border - 16 + dice.roll(24),
        len: dice.small(12) as u8,
    }
}

/// A block from a part of a page to three pages.
fn block(dice: &mut Dice, t: u16) -> Block {
    Block {
        t,
        at: 256 * dice.roll(20),
        len: 1 + u32::from(dice.small(3_000)),
    }
}

/// An event of one of six threads, which the rules may refuse.
pub fn event(dice: &mut Dice) -> Event {
    let t = dice.small(6);
    match dice.roll(64) {
        0..=5 => Event::Fork {
            p: t,
            c: dice.small(6),
        },
        6 => Event::Join {
            p: t,
            c: dice.small(6),
        },
        7..=14 => Event::Lock {
            t,
            l: dice.small(4),
        },
        15..=17 => Event::RdLock {
            t,
            l: dice.small(4),
        },
        18..=25 => Event::Unlock {
            t,
            l: dice.small(4),
        },
        26 => Event::Alloc(block(dice, t)),
        27 => Event::Free(block(dice, t)),
        28..=29 => Event::Send {
            t,
            k: dice.roll(16) as u32,
        },
        30..=31 => Event::Recv {
            t,
            k: dice.roll(16) as u32,
        },
        32..=47 => Event::Read(access(dice, t)),
        _ => Event::Write(access(dice, t)),
    }
}
