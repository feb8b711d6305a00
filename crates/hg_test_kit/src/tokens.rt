//! The tokens of a line.

use crate::digits::byte_of;
use hg_gate::GateFault;
use hg_model::verdict::Refusal;
use std::alloc::{AllocError, AllocFailed};

/// Why a line has no other answer.
#[derive(Clone, Copy)]
pub enum Halt {
    /// Memory was refused.
    Memory,
    /// It is not understood.
    Misspelt,
    /// Nothing is open that it could be done with.
    Closed,
    /// A disk has bytes that should have none.
    NotEmpty,
    /// A store or a journal refused it.
    Refused(Refusal),
    /// A log or a gated file refused it.
    Fault(GateFault),
    /// What was answered up to then says why.
    Said,
}

impl From<AllocError> for Halt {
    fn from(_: AllocError) -> Halt {
        Halt::Memory
    }
}

impl<T: Drop> From<AllocFailed<T>> for Halt {
    fn from(_: AllocFailed<T>) -> Halt {
        Halt::Memory
    }
}

impl From<Refusal> for Halt {
    fn from(refusal: Refusal) -> Halt {
        Halt::Refused(refusal)
    }
}

impl From<GateFault> for Halt {
    fn from(fault: GateFault) -> Halt {
        Halt::Fault(fault)
    }
}

/// The first token, and what follows the spaces after it.
pub fn front(text: &str) -> (&str, &str) {
    match text.split_once(' ') {
        Some((token, rest)) => (token, rest.trim_start()),
        None => (text, ""),
    }
}

/// What is left of a line, token by token. Where it is not understood, that is noted, and nobody need ask before the end; what is read
/// then means nothing.
#[derive(Clone, Copy)]
pub struct Tokens<'a> {
    rest: &'a str,
    is_understood: bool,
}

impl<'a> Tokens<'a> {
    /// The tokens of a text.
    pub fn of(text: &'a str) -> Tokens<'a> {
        Tokens {
            rest: text,
            is_understood: true,
        }
    }

    /// What is left.
    pub fn rest(&self) -> &'a str {
        self.rest
    }

    /// Notes that it is not understood.
    pub fn fail(&mut self) {
        self.is_understood = false;
    }

    /// Whether all was understood so far.
    pub fn check(&self) -> Result<(), Halt> {
        if self.is_understood {
            Ok(())
        } else {
            Err(Halt::Misspelt)
        }
    }

    /// The token in front.
    pub fn token(&mut self) -> &'a str {
        let (token, rest) = front(self.rest);
        self.rest = rest;
        token
    }

    /// Whether these tokens stand in front. They are passed over then.
    pub fn skip(&mut self, tokens: &str) -> bool {
        match self.rest.strip_prefix(tokens) {
            Some(rest) => {
                self.rest = rest.trim_start();
                true
            }
            None => false,
        }
    }

    /// Passes over tokens that have to stand in front.
    pub fn expect(&mut self, tokens: &str) {
        if !self.skip(tokens) {
            self.is_understood = false;
        }
    }

    /// What was read, or `none` where that was not understood, which is noted.
    fn read<T: Copy>(&mut self, read: Option<T>, none: T) -> T {
        match read {
            Some(value) => value,
            None => {
                self.is_understood = false;
                none
            }
        }
    }

    /// The number in front.
    pub fn number(&mut self) -> u64 {
        let read = self.token().parse::<u64>().ok();
        self.read(read, 0)
    }

    /// The number in front, which is below 2^16.
    pub fn short_number(&mut self) -> u16 {
        let read = u16::try_from(self.number()).ok();
        self.read(read, 0)
    }

    /// The number in front, which is below 2^32.
    pub fn wide_number(&mut self) -> u32 {
        let read = u32::try_from(self.number()).ok();
        self.read(read, 0)
    }

    /// The byte in front, two hexadecimal digits.
    pub fn byte(&mut self) -> u8 {
        let read = byte_of(self.token());
        self.read(read, 0)
    }
}

/// Appends the bytes that a token spells: `07` is one, `07*3` are three.
fn put_repeated(token: &str, bytes: &mut Vec<u8>) -> Result<(), Halt> {
    let (digits, count) = token.split_once('*').unwrap_or((token, "1"));
    let Some(byte) = byte_of(digits) else {
        return Err(Halt::Misspelt);
    };
    let mut tokens = Tokens::of(count);
    let count = tokens.number();
    tokens.check()?;
    for _ in 0..count {
        bytes.push(byte)?;
    }
    Ok(())
}

/// Appends the bytes that tokens spell.
pub fn put_bytes(tokens: &str, bytes: &mut Vec<u8>) -> Result<(), Halt> {
    for token in tokens.split_whitespace() {
        put_repeated(token, bytes)?;
    }
    Ok(())
}
