//! How a store comes to be.

use hg_test_kit::tokens::{Halt, Tokens};

/// Whether a store is made or recovered, and how much it may have.
#[derive(Clone, Copy)]
pub struct Opening {
    pub is_new: bool,
    /// How many pages stand in memory at most.
    pub frames: u16,
    pub sets: u32,
    pub slots: u32,
}

impl Opening {
    /// To recover what was opened so.
    pub fn again(self) -> Opening {
        Opening {
            is_new: false,
            ..self
        }
    }
}

/// A new store, with as much as it may have where nothing else is said.
pub const NEW: Opening = Opening {
    is_new: true,
    frames: 16,
    sets: 64,
    slots: 1024,
};

/// Takes `frames N`, `sets N` or `slots N` in front into account.
fn read_part(tokens: &mut Tokens, opening: &mut Opening) {
    match tokens.token() {
        "frames" => opening.frames = tokens.short_number(),
        "sets" => opening.sets = tokens.wide_number(),
        "slots" => opening.slots = tokens.wide_number(),
        _ => tokens.fail(),
    }
}

/// `frames N`, `sets N` and `slots N`, those of them that are said, one behind the other.
pub fn opening_of(is_new: bool, text: &str) -> Result<Opening, Halt> {
    let mut tokens = Tokens::of(text);
    let mut opening = Opening { is_new, ..NEW };
    for _ in 0..text.len() {
        if tokens.rest().is_empty() {
            break;
        }
        read_part(&mut tokens, &mut opening);
    }
    tokens.check()?;
    Ok(opening)
}
