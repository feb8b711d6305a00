//! Bytes as a text that any terminal can show, and numbers between texts.

ghost use Rattle.std.specs.Prelude.{OnOk};
ghost use Rattle.hg_verbose.specs.Numbers.{Gains, number_text, numbers_text};

use std::alloc::AllocError;
use std::fmt::Write;
use std::string::String;

/// How many bytes are shown at most.
const MOST_SHOWN: usize = 60;

/// Appends a number between two texts.
pub fn put_number(
    before: &str,
    number: u64,
    after: &str,
    text: &mut String,
) -> Result<(), AllocError>
    ensures { OnOk result (Gains text.old text.new (number_text before.now number after.now)) }
{
    write!(text, "{before}{number}{after}")
}

/// Appends two numbers, each behind a text.
pub fn put_numbers(
    before: &str,
    first: u64,
    between: &str,
    second: u64,
    text: &mut String,
) -> Result<(), AllocError>
    ensures { OnOk result (Gains text.old text.new (numbers_text before.now first between.now second)) }
{
    write!(text, "{before}{first}{between}{second}")
}

/// Appends a byte: itself where it is a printable one of ASCII, else its number in hexadecimal.
fn put_byte(byte: u8, text: &mut String) -> Result<(), AllocError> {
    match byte {
        b'"' => text.push_str("\\\""),
        b'\\' => text.push_str("\\\\"),
        32..=126 => text.push(char::from(byte)),
        _ => write!(text, "\\x{byte:02x}"),
    }
}

/// Appends bytes between quotation marks, the first of them where they are many.
pub fn put_quoted(bytes: &[u8], text: &mut String) -> Result<(), AllocError> {
    text.push('"')?;
    let shown = bytes.len().min(MOST_SHOWN);
    for byte in &bytes[..shown] {
        put_byte(*byte, text)?;
    }
    if bytes.len() > MOST_SHOWN {
        text.push_str("..")?;
    }
    text.push('"')
}
