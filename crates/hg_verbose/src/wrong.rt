//! What is wrong with a bad line, in words.

use crate::quoting::{put_number, put_numbers, put_quoted};
use hg_wire::diagnosis::{Diagnosis, diagnose};
use hg_wire::line::MOST_LINE_BYTES;
use hg_wire::verb::Verb;
use std::alloc::AllocError;
use std::string::String;

/// What a token of some bits may be at most.
fn greatest(bits: u8) -> u64 {
    match bits {
        8 => 0xff,
        16 => 0xffff,
        32 => 0xffff_ffff,
        _ => u64::MAX,
    }
}

/// A verb as text.
fn name(verb: Verb) -> &'static str {
    match verb {
        Verb::Fork => "fork",
        Verb::Join => "join",
        Verb::Lock => "lock",
        Verb::RdLock => "rdlock",
        Verb::Unlock => "unlock",
        Verb::Read => "read",
        Verb::Write => "write",
        Verb::Alloc => "alloc",
        Verb::Free => "free",
        Verb::Send => "send",
        Verb::Recv => "recv",
    }
}

/// Appends that a token may not stand at its place (for a reader it is a word of the line).
fn put_token(place: usize, token: &[u8], text: &mut String) -> Result<(), AllocError> {
    put_number("word ", place.saturating_add(1) as u64, ", ", text)?;
    put_quoted(token, text)
}

/// Appends that a line has no verb.
fn put_no_verb(token: &[u8], text: &mut String) -> Result<(), AllocError> {
    text.push_str("there is no verb ")?;
    put_quoted(token, text)
}

/// Appends that nothing stands where a token should.
fn put_empty_token(place: usize, text: &mut String) -> Result<(), AllocError> {
    let why = " is empty: one space stands before each word, and none at the end";
    put_number("word ", place.saturating_add(1) as u64, why, text)
}

/// Appends how many numbers the verb takes.
fn put_count(verb: Verb, given: usize, text: &mut String) -> Result<(), AllocError> {
    let (wanted, given) = (verb.widths().len() as u64, given as u64);
    text.push_str(name(verb))?;
    put_numbers(" takes ", wanted, " numbers, and ", given, text)?;
    text.push_str(" stand here")
}

/// Appends that a token is no number.
fn put_misspelt(place: usize, token: &[u8], text: &mut String) -> Result<(), AllocError> {
    put_token(place, token, text)?;
    text.push_str(", is no number: 1 to 20 decimal digits, or 0x and 1 to 16 hexadecimal digits")
}

/// Appends that a number has more bits than may stand at its place.
fn put_too_great(
    place: usize,
    token: &[u8],
    bits: u8,
    text: &mut String,
) -> Result<(), AllocError> {
    put_token(place, token, text)?;
    let most = greatest(bits);
    put_number(", is too great: at most ", most, " may stand there", text)
}

/// Appends what is wrong with a line. Its tokens are counted from 1 on, the verb first.
fn put_diagnosis(found: Diagnosis<'_>, text: &mut String) -> Result<(), AllocError> {
    match found {
        Diagnosis::TooLong => {
            put_number("it has more than ", MOST_LINE_BYTES as u64, " bytes", text)
        }
        Diagnosis::NoVerb { token } => put_no_verb(token, text),
        Diagnosis::EmptyToken { place } => put_empty_token(place, text),
        Diagnosis::Count { verb, given } => put_count(verb, given, text),
        Diagnosis::Misspelt { place, token } => put_misspelt(place, token, text),
        Diagnosis::TooGreat { place, token, bits } => put_too_great(place, token, bits, text),
    }
}

/// Appends what is wrong with a bad line.
pub fn put_wrong(line: &[u8], text: &mut String) -> Result<(), AllocError> {
    match diagnose(line) {
        Some(found) => put_diagnosis(found, text),
        None => text.push_str("it is an event"),
    }
}
