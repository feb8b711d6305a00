//! One line of the trace text.

ghost use Rattle.std.specs.Prelude.{◌≡◌, ◌+◌, ◌≤◌, length, drop, Ok, IfSome};
ghost use Rattle.hg_model.specs.Holding.{hold_event};
ghost use Rattle.hg_wire.specs.Accesses.{event_of};
ghost use Rattle.hg_wire.specs.Lines.{line_of};
ghost use Rattle.hg_wire.specs.InFront.{HasEvent, HasEventLine, EndsLineBefore};

use crate::operands::{long_at, short_at};
use crate::tokens::line_by_tokens;
use crate::verb::{
    VerbKind, access_verb_in_front, hold_verb_in_front, pair_event, sized_event, verb_in_front,
};
use hg_model::event::{Access, Event, Hold};

/// The faults of a line of the trace text, in the order of testing (this project's profile).
#[derive(Clone, Copy, Debug, PartialEq, Eq, Drop)]
pub enum LineFault {
    /// It has more than 256 bytes.
    TooLong,
    /// Its first token is none of the eleven verbs.
    Verb,
    /// A token is missing, too many or empty.
    Count,
    /// A number is misspelt or does not fit its field.
    Number,
}

/// The most bytes of a line that is neither empty nor a comment, its line end not counted.
pub const MOST_LINE_BYTES: usize = 256;

/// The most bytes of a line that is looked for at the front of a piece: a verb of 6 letters, a thread in 7 bytes with its
/// space, an address in 20, a length in 7, and a line end of 2. So one test of the piece's length serves the whole line.
pub(crate) const WINDOW: usize = 42;

/// The event that a line of the trace text spells, or the first of its faults (this project's profile).
/// The line comes without its line feed and the carriage return before that.
#[inline]
pub fn read_line(line: &[u8]) -> Result<Event, LineFault>
    ensures { result ≡ line_of line.now }
{
    if let Some(event) = event_alone(line) {
        return Ok(event);
    }
    line_by_tokens(line)
}

/// The event that a line spells, where the line fits the window. (`None` says nothing of the line.)
#[inline(always)]
fn event_alone(line: &[u8]) -> Option<Event>
    ensures { IfSome result (λ event. line_of line.now ≡ Ok event) }
{
    if line.len() > WINDOW {
        return None;
    }
    let mut window = [0; WINDOW];
    window[..line.len()].copy_from_slice(line);
    let (event, end) = event_in_front(&window)?;
    if end != line.len() {
        return None;
    }
    Some(event)
}

/// The event that the bytes begin with, and where it ends. (`None` says nothing of the bytes.)
/// The function is large, and inlining it would slow its callers.
#[inline(never)]
fn event_in_front(bytes: &[u8]) -> Option<(Event, usize)>
    requires { 42 ≤ length bytes.now }
    ensures event { IfSome result (λ found. HasEvent bytes.now found.0 (drop found.1 bytes.now)) }
    ensures near { IfSome result (λ found. found.1 ≤ 40) }
{
    let (kind, end) = verb_in_front(bytes)?;
    let (first, end) = short_at(bytes, end)?;
    let (second, end) = long_at(bytes, end)?;
    if let VerbKind::Pair { verb } = kind {
        return Some((pair_event(verb, first, second)?, end));
    }
    let (third, end) = short_at(bytes, end)?;
    Some((sized_event(kind, first, second, third)?, end))
}

/// The event whose line the bytes begin with, and how many bytes that line takes with its line feed. (`None` says nothing of the bytes.)
#[inline(always)]
pub(crate) fn event_line_in_front(bytes: &[u8]) -> Option<(Event, usize)>
    ensures { IfSome result (λ found. HasEventLine bytes.now found.0 found.1) }
{
    if bytes.len() < WINDOW {
        return None;
    }
    let (event, end) = event_in_front(bytes)?;
    let used = line_end_at(bytes, end)?;
    Some((event, used))
}

/// A read or a write, and how many bytes its line takes with its line feed.
#[derive(Clone, Copy, Debug, PartialEq, Eq, Drop)]
pub struct AccessLine {
    pub is_write: bool,
    pub access: Access,
    pub used: usize,
}

/// The read or the write in front, in its parts, if its line is whole and usual.
#[inline(always)]
pub(crate) fn access_line_in_front(bytes: &[u8]) -> Option<AccessLine>
    ensures { IfSome result (λ found. HasEventLine bytes.now (event_of found) found.used) }
{
    if bytes.len() < WINDOW {
        return None;
    }
    let (is_write, end) = access_verb_in_front(bytes)?;
    let (t, end) = short_at(bytes, end)?;
    let (at, end) = long_at(bytes, end)?;
    let (len, end) = short_at(bytes, end)?;
    if len > 0xff {
        return None;
    }
    let used = line_end_at(bytes, end)?;
    let access = Access {
        t,
        at,
        len: len as u8,
    };
    Some(AccessLine {
        is_write,
        access,
        used,
    })
}

/// An event on a lock, and how many bytes its line takes with its line feed.
#[derive(Clone, Copy, Debug, PartialEq, Eq, Drop)]
pub struct HoldLine {
    pub hold: Hold,
    pub used: usize,
}

/// The event on a lock in front, in its parts, if its line is whole and usual.
#[inline(always)]
pub(crate) fn hold_line_in_front(bytes: &[u8]) -> Option<HoldLine>
    ensures { IfSome result (λ found. HasEventLine bytes.now (hold_event found.hold) found.used) }
{
    if bytes.len() < WINDOW {
        return None;
    }
    let (kind, end) = hold_verb_in_front(bytes)?;
    let (t, end) = short_at(bytes, end)?;
    let (l, end) = short_at(bytes, end)?;
    let used = line_end_at(bytes, end)?;
    let hold = Hold { t, l, kind };
    Some(HoldLine { hold, used })
}

/// The place behind the line feed at `from`, which may have one carriage return before it.
#[inline(always)]
fn line_end_at(bytes: &[u8], from: usize) -> Option<usize>
    requires { from + 2 ≤ length bytes.now }
    ensures ends { IfSome result (λ end. EndsLineBefore (drop from bytes.now) (drop end bytes.now)) }
    ensures within { IfSome result (λ end. end ≤ from + 2) }
{
    if bytes[from] == b'\n' {
        return Some(from + 1);
    }
    if bytes[from] == b'\r' && bytes[from + 1] == b'\n' {
        return Some(from + 2);
    }
    None
}
