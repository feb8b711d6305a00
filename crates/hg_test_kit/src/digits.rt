//! Bytes as pairs of hexadecimal digits.

ghost use Rattle.std.specs.Prelude.{◌<◌, ◌≤◌};

use std::alloc::Global;

/// The digit that is worth `value`, where `ten` is the one that is worth 10: `a` or `A`.
pub(crate) fn digit(value: u8, ten: u8) -> u8
    requires value { value < 16 }
    requires ten { ten ≤ 97 }
{
    if value < 10 {
        b'0' + value
    } else {
        ten + (value - 10)
    }
}

/// What a digit of either case is worth, and 16 for what is no digit.
fn worth(digit: u8) -> u8 {
    match digit {
        b'0'..=b'9' => digit - b'0',
        b'a'..=b'f' => digit - b'a' + 10,
        b'A'..=b'F' => digit - b'A' + 10,
        _ => 16,
    }
}

/// The byte that two digits spell.
pub fn byte_of(digits: &str) -> Option<u8> {
    let [high, low] = digits.as_bytes() else {
        return None;
    };
    let high = worth(*high);
    let low = worth(*low);
    if high > 15 || low > 15 {
        return None;
    }
    Some(high * 16 + low)
}

/// The bytes that pairs of digits spell. `None` says that the text is no such pairs, or that memory was refused.
pub fn bytes_of(alloc: Global, text: &str) -> Option<Vec<u8>> {
    let mut bytes = Vec::new(alloc);
    put_spelled(text, &mut bytes)?;
    Some(bytes)
}

/// Appends the bytes that pairs of digits spell. `None` says that the text is no such pairs, or that memory was refused.
pub fn put_spelled(text: &str, bytes: &mut Vec<u8>) -> Option<()> {
    let mut high = 16u8;
    for digit in text.as_bytes() {
        let low = worth(*digit);
        if low > 15 {
            return None;
        }
        if high > 15 {
            high = low;
        } else {
            bytes.push(high * 16 + low).ok()?;
            high = 16;
        }
    }
    if high < 16 {
        return None;
    }
    Some(())
}
