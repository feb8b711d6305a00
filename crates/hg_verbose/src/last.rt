//! The last line that a command printed.

use hg_wire::number::number_of_token;

/// What the last line tells.
#[derive(Clone, Copy, Drop)]
pub enum Last {
    /// The event of this line was refused, with this code.
    Refused { line: u64, code: u64 },
    /// This line is no event.
    Bad { line: u64 },
    /// A fault with this code.
    Fault { code: u64 },
}

/// The number that follows `front` in a line.
fn number_after(front: &[u8], line: &[u8]) -> Option<u64> {
    number_of_token(line.strip_prefix(front)?)
}

/// What a line tells, if it is one of those.
fn told_by(line: &[u8]) -> Option<Last> {
    if let Some(line) = number_after(b"bad line ", line) {
        return Some(Last::Bad { line });
    }
    if let Some(code) = number_after(b"fault ", line) {
        return Some(Last::Fault { code });
    }
    let numbers = line.strip_prefix(b"refused line ")?;
    let space = numbers.iter().position(|byte| *byte == b' ')?;
    let line = number_of_token(&numbers[..space])?;
    let code = number_after(b" code ", &numbers[space..])?;
    Some(Last::Refused { line, code })
}

/// What the last line of some text tells, if it is one of those.
pub fn last_of(text: &[u8]) -> Option<Last> {
    let text = text.strip_suffix(b"\n")?;
    match text.iter().rposition(|byte| *byte == b'\n') {
        Some(end) => told_by(&text[end + 1..]),
        None => told_by(text),
    }
}
