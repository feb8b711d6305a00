//! What the last line of a command means.

use crate::cause::put_cause;
use crate::fault::{Source, put_fault};
use crate::last::Last;
use crate::lines::{Lines, event_of};
use crate::past::Past;
use crate::quoting::{put_number, put_quoted};
use crate::wrong::put_wrong;
use std::alloc::{AllocError, Global};
use std::string::String;

/// Appends a line, by its number and its text.
fn put_line(number: u64, line: &[u8], text: &mut String) -> Result<(), AllocError> {
    put_number("line ", number, ", ", text)?;
    put_quoted(line, text)
}

/// Appends that a line is bad, and why.
fn put_bad(line: &[u8], text: &mut String) -> Result<(), AllocError> {
    text.push_str(", is bad: ")?;
    put_wrong(line, text)
}

/// Appends that the event of a line was refused with this code, after those events, and why.
fn put_refused(code: u64, line: &[u8], past: &Past, text: &mut String) -> Result<(), AllocError> {
    text.push_str(", is refused: ")?;
    match event_of(line) {
        Some(event) => put_cause(past, event, code, text),
        None => text.push_str("it is no event"),
    }
}

/// Appends what a fault with this code means.
fn put_meaning_of_fault(
    code: u64,
    sources: &[Source<'_>],
    text: &mut String,
) -> Result<(), AllocError> {
    put_number("fault ", code, " is of ", text)?;
    put_fault(code, sources, text)?;
    text.push('\n')
}

/// What a fault with this code means, where these streams and files took part.
pub fn of_fault(alloc: Global, code: u64, sources: &[Source<'_>]) -> Result<String, AllocError> {
    let mut text = String::new(alloc);
    put_meaning_of_fault(code, sources, &mut text)?;
    Ok(text)
}

/// What it means that the files of a store are damaged. `place` says where.
pub fn of_damage(alloc: Global, place: &str) -> Result<String, AllocError> {
    format!(in alloc; "fault 11 is of {place}\n")
}

/// Appends what it means that a line is bad, or, where there is a code, that its event was refused with it after those events.
fn put_meaning(
    number: u64,
    line: &[u8],
    code: Option<u64>,
    past: &Past,
    text: &mut String,
) -> Result<(), AllocError> {
    put_line(number, line, text)?;
    match code {
        Some(code) => put_refused(code, line, past, text)?,
        None => put_bad(line, text)?,
    }
    text.push('\n')
}

/// What the last line means, if it tells of a line of this text. The event of a refused line followed the events of `past`; with
/// `None`, those of the text before it.
pub fn of_line(
    alloc: Global,
    last: Last,
    lines: &mut Lines,
    past: Option<&Past>,
) -> Result<Option<String>, AllocError> {
    let (number, code) = match last {
        Last::Refused { line, code } => (line, Some(code)),
        Last::Bad { line } => (line, None),
        Last::Fault { .. } => return Ok(None),
    };
    if !lines.find(number) {
        return Ok(None);
    }
    let mut text = String::new(alloc);
    let past = past.unwrap_or(lines.past());
    put_meaning(number, lines.line(), code, past, &mut text)?;
    Ok(Some(text))
}
