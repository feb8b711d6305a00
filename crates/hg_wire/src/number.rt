//! Numbers of the trace text.

ghost use Rattle.std.specs.Prelude.{◌≡◌, ◌⊎◌, ◌+◌, ◌<◌, ◌≤◌, ℕ, List, IfSome, is_some, length, get_or, drop};
ghost use Rattle.std.specs.Bool.{OnTrue};
ghost use Rattle.std.specs.Char.{digit_value, is_digit};
ghost use Rattle.std.specs.List.{list_all};
ghost use Rattle.hg_wire.specs.Numbers.{number_of, numeral};
ghost use Rattle.hg_wire.specs.InFront.{HasDigits, HasNumber, IsFourDigits, NumberGoesOn};
ghost use Rattle.hg_wire.specs.Lines.{fitting, operand_of};

/// The value of each byte as a digit of base 36, in either case, and 36 for a byte that is no digit.
#[rattlefmt::skip]
static DIGIT_VALUES: [u8; 256] = [
    36, 36, 36, 36, 36, 36, 36, 36, 36, 36, 36, 36, 36, 36, 36, 36,
    36, 36, 36, 36, 36, 36, 36, 36, 36, 36, 36, 36, 36, 36, 36, 36,
    36, 36, 36, 36, 36, 36, 36, 36, 36, 36, 36, 36, 36, 36, 36, 36,
     0,  1,  2,  3,  4,  5,  6,  7,  8,  9, 36, 36, 36, 36, 36, 36,
    36, 10, 11, 12, 13, 14, 15, 16, 17, 18, 19, 20, 21, 22, 23, 24,
    25, 26, 27, 28, 29, 30, 31, 32, 33, 34, 35, 36, 36, 36, 36, 36,
    36, 10, 11, 12, 13, 14, 15, 16, 17, 18, 19, 20, 21, 22, 23, 24,
    25, 26, 27, 28, 29, 30, 31, 32, 33, 34, 35, 36, 36, 36, 36, 36,
    36, 36, 36, 36, 36, 36, 36, 36, 36, 36, 36, 36, 36, 36, 36, 36,
    36, 36, 36, 36, 36, 36, 36, 36, 36, 36, 36, 36, 36, 36, 36, 36,
    36, 36, 36, 36, 36, 36, 36, 36, 36, 36, 36, 36, 36, 36, 36, 36,
    36, 36, 36, 36, 36, 36, 36, 36, 36, 36, 36, 36, 36, 36, 36, 36,
    36, 36, 36, 36, 36, 36, 36, 36, 36, 36, 36, 36, 36, 36, 36, 36,
    36, 36, 36, 36, 36, 36, 36, 36, 36, 36, 36, 36, 36, 36, 36, 36,
    36, 36, 36, 36, 36, 36, 36, 36, 36, 36, 36, 36, 36, 36, 36, 36,
    36, 36, 36, 36, 36, 36, 36, 36, 36, 36, 36, 36, 36, 36, 36, 36,
];

#[inline(always)]
fn value_of_digit(byte: u8) -> u8
    ensures { result ≡ digit_value byte }
{
    DIGIT_VALUES[usize::from(byte)]
}

/// The value of each byte as a hexadecimal digit, in either case, and 65536 for a byte that is no digit. So the number of four
/// bytes is above 0xffff where one of them is no digit.
#[rattlefmt::skip]
static HEXADECIMAL_VALUES: [u32; 256] = [
    65536, 65536, 65536, 65536, 65536, 65536, 65536, 65536, 65536, 65536, 65536, 65536, 65536, 65536, 65536, 65536,
    65536, 65536, 65536, 65536, 65536, 65536, 65536, 65536, 65536, 65536, 65536, 65536, 65536, 65536, 65536, 65536,
    65536, 65536, 65536, 65536, 65536, 65536, 65536, 65536, 65536, 65536, 65536, 65536, 65536, 65536, 65536, 65536,
        0,     1,     2,     3,     4,     5,     6,     7,     8,     9, 65536, 65536, 65536, 65536, 65536, 65536,
    65536,    10,    11,    12,    13,    14,    15, 65536, 65536, 65536, 65536, 65536, 65536, 65536, 65536, 65536,
    65536, 65536, 65536, 65536, 65536, 65536, 65536, 65536, 65536, 65536, 65536, 65536, 65536, 65536, 65536, 65536,
    65536,    10,    11,    12,    13,    14,    15, 65536, 65536, 65536, 65536, 65536, 65536, 65536, 65536, 65536,
    65536, 65536, 65536, 65536, 65536, 65536, 65536, 65536, 65536, 65536, 65536, 65536, 65536, 65536, 65536, 65536,
    65536, 65536, 65536, 65536, 65536, 65536, 65536, 65536, 65536, 65536, 65536, 65536, 65536, 65536, 65536, 65536,
    65536, 65536, 65536, 65536, 65536, 65536, 65536, 65536, 65536, 65536, 65536, 65536, 65536, 65536, 65536, 65536,
    65536, 65536, 65536, 65536, 65536, 65536, 65536, 65536, 65536, 65536, 65536, 65536, 65536, 65536, 65536, 65536,
    65536, 65536, 65536, 65536, 65536, 65536, 65536, 65536, 65536, 65536, 65536, 65536, 65536, 65536, 65536, 65536,
    65536, 65536, 65536, 65536, 65536, 65536, 65536, 65536, 65536, 65536, 65536, 65536, 65536, 65536, 65536, 65536,
    65536, 65536, 65536, 65536, 65536, 65536, 65536, 65536, 65536, 65536, 65536, 65536, 65536, 65536, 65536, 65536,
    65536, 65536, 65536, 65536, 65536, 65536, 65536, 65536, 65536, 65536, 65536, 65536, 65536, 65536, 65536, 65536,
    65536, 65536, 65536, 65536, 65536, 65536, 65536, 65536, 65536, 65536, 65536, 65536, 65536, 65536, 65536, 65536,
];

#[inline(always)]
fn value_of_hexadecimal_digit(byte: u8) -> u32
    ensures digit { result ≤ 15 → digit_value byte ≡ result }
    ensures none { (result ≤ 15) ⊎ (result ≡ 65536) }
{
    HEXADECIMAL_VALUES[usize::from(byte)]
}

/// The value of a decimal digit, and more than 9 for any other byte.
#[inline(always)]
fn value_of_decimal_digit(byte: u8) -> u8
    ensures { result ≤ 9 → digit_value byte ≡ result }
{
    byte.wrapping_sub(b'0')
}

/// The number of up to 19 decimal digits at a place, and where they end. More digits may follow.
#[inline(always)]
fn decimal_at(bytes: &[u8], from: usize) -> Option<(u64, usize)>
    requires { from + 19 ≤ length bytes.now }
    ensures digits { IfSome result (λ found. HasDigits 10 19 bytes.now from found.1 found.0) }
    ensures near { IfSome result (λ found. found.1 ≤ from + 19) }
{
    let mut value = 0u64;
    let mut at = from;
    while at < from + 19 {
        let digit = value_of_decimal_digit(bytes[at]);
        if digit > 9 {
            break;
        }
        value = value.wrapping_mul(10).wrapping_add(u64::from(digit));
        at += 1;
    }
    if at == from {
        return None;
    }
    Some((value, at))
}

/// The number with the decimal digit at `at` appended, if there is one.
#[inline(always)]
fn with_decimal_digit_at(bytes: &[u8], at: usize, number: u64) -> Option<u64>
    requires { at < length bytes.now }
    ensures { IfSome result (λ more. NumberGoesOn 10 19 bytes.now at number (at + 1) more) }
{
    let digit = value_of_decimal_digit(bytes[at]);
    if digit > 9 {
        return None;
    }
    Some(number.wrapping_mul(10).wrapping_add(u64::from(digit)))
}

/// The number with up to four decimal digits from `at` on appended, and where they end.
#[inline(always)]
fn with_decimal_digits_at(bytes: &[u8], at: usize, number: u64) -> (u64, usize)
    requires { at + 4 ≤ length bytes.now }
    ensures within { (at ≤ result.1) × (result.1 ≤ at + 4) }
    ensures digits { NumberGoesOn 10 19 bytes.now at number result.1 result.0 }
{
    let Some(one) = with_decimal_digit_at(bytes, at, number) else {
        return (number, at);
    };
    let Some(two) = with_decimal_digit_at(bytes, at + 1, one) else {
        return (one, at + 1);
    };
    let Some(three) = with_decimal_digit_at(bytes, at + 2, two) else {
        return (two, at + 2);
    };
    let Some(four) = with_decimal_digit_at(bytes, at + 3, three) else {
        return (three, at + 3);
    };
    (four, at + 4)
}

/// The number of up to five decimal digits at a place, and where they end. More digits may follow.
#[inline(always)]
#[tactic(auto, using(crate::proofs::RunLemmas::run_starts))]
fn few_decimal_digits_at(bytes: &[u8], from: usize) -> Option<(u64, usize)>
    requires { from + 5 ≤ length bytes.now }
    ensures digits { IfSome result (λ found. HasDigits 10 19 bytes.now from found.1 found.0) }
    ensures near { IfSome result (λ found. found.1 ≤ from + 5) }
{
    let one = with_decimal_digit_at(bytes, from, 0)?;
    Some(with_decimal_digits_at(bytes, from + 1, one))
}

/// The number that four bytes write, if they are hexadecimal digits.
#[inline(always)]
fn number_of_four(a: u8, b: u8, c: u8, d: u8) -> Option<u64>
    ensures { IfSome result (IsFourDigits a b c d) }
{
    let a = value_of_hexadecimal_digit(a);
    let b = value_of_hexadecimal_digit(b);
    let c = value_of_hexadecimal_digit(c);
    let d = value_of_hexadecimal_digit(d);
    let value = ((a * 16 + b) * 16 + c) * 16 + d;
    if value > 0xffff {
        return None;
    }
    Some(u64::from(value))
}

/// The number with the four hexadecimal digits at `at` appended, if there are four.
#[inline(always)]
fn with_four_digits_at(bytes: &[u8], at: usize, number: u64) -> Option<u64>
    requires { at + 4 ≤ length bytes.now }
    ensures { IfSome result (λ more. NumberGoesOn 16 16 bytes.now at number (at + 4) more) }
{
    // Where a number ends there is no need to look at four bytes.
    if bytes[at] == b' ' {
        return None;
    }
    let four = number_of_four(bytes[at], bytes[at + 1], bytes[at + 2], bytes[at + 3])?;
    Some(number.wrapping_mul(65_536).wrapping_add(four))
}

/// The number with the hexadecimal digit at `at` appended, if there is one.
#[inline(always)]
fn with_digit_at(bytes: &[u8], at: usize, number: u64) -> Option<u64>
    requires { at < length bytes.now }
    ensures { IfSome result (λ more. NumberGoesOn 16 16 bytes.now at number (at + 1) more) }
{
    let digit = value_of_hexadecimal_digit(bytes[at]);
    if digit > 15 {
        return None;
    }
    Some(number.wrapping_mul(16).wrapping_add(u64::from(digit)))
}

/// The number with up to three hexadecimal digits from `at` on appended, and where they end.
#[inline(always)]
fn with_digits_at(bytes: &[u8], at: usize, number: u64) -> (u64, usize)
    requires { at + 3 ≤ length bytes.now }
    ensures within { (at ≤ result.1) × (result.1 ≤ at + 3) }
    ensures digits { NumberGoesOn 16 16 bytes.now at number result.1 result.0 }
{
    let Some(one) = with_digit_at(bytes, at, number) else {
        return (number, at);
    };
    let Some(two) = with_digit_at(bytes, at + 1, one) else {
        return (one, at + 1);
    };
    let Some(three) = with_digit_at(bytes, at + 2, two) else {
        return (two, at + 2);
    };
    (three, at + 3)
}

/// The number of up to four hexadecimal digits at a place, and where they end. More digits may follow.
#[inline(always)]
#[tactic(auto, using(crate::proofs::RunLemmas::run_starts))]
fn few_digits_at(bytes: &[u8], from: usize) -> Option<(u64, usize)>
    requires { from + 4 ≤ length bytes.now }
    ensures digits { IfSome result (λ found. HasDigits 16 16 bytes.now from found.1 found.0) }
    ensures near { IfSome result (λ found. found.1 ≤ from + 4) }
{
    let one = with_digit_at(bytes, from, 0)?;
    Some(with_digits_at(bytes, from + 1, one))
}

/// The number with up to twelve hexadecimal digits at `at` appended, read by fours, and where they end.
#[inline(always)]
fn with_fours_at(bytes: &[u8], at: usize, number: u64) -> (u64, usize)
    requires { at + 12 ≤ length bytes.now }
    ensures within { (at ≤ result.1) × (result.1 ≤ at + 12) }
    ensures digits { NumberGoesOn 16 16 bytes.now at number result.1 result.0 }
{
    let Some(four) = with_four_digits_at(bytes, at, number) else {
        return with_digits_at(bytes, at, number);
    };
    let Some(eight) = with_four_digits_at(bytes, at + 4, four) else {
        return with_digits_at(bytes, at + 4, four);
    };
    let Some(twelve) = with_four_digits_at(bytes, at + 8, eight) else {
        return with_digits_at(bytes, at + 8, eight);
    };
    (twelve, at + 12)
}

/// The number of up to 16 hexadecimal digits at a place, and where they end. More digits may follow.
#[inline(always)]
#[tactic(auto, using(crate::proofs::RunLemmas::run_starts))]
fn digits_at(bytes: &[u8], from: usize) -> Option<(u64, usize)>
    requires { from + 16 ≤ length bytes.now }
    ensures digits { IfSome result (λ found. HasDigits 16 16 bytes.now from found.1 found.0) }
    ensures near { IfSome result (λ found. found.1 ≤ from + 16) }
{
    let Some(four) = with_four_digits_at(bytes, from, 0) else {
        return few_digits_at(bytes, from);
    };
    Some(with_fours_at(bytes, from + 4, four))
}

/// Whether `0x` stands at a place.
#[inline(always)]
fn has_prefix_at(bytes: &[u8], from: usize) -> bool
    requires { from + 2 ≤ length bytes.now }
    ensures { OnTrue result ((get_or bytes.now from 0 ≡ 48) × (get_or bytes.now (from + 1) 0 ≡ 120)) }
{
    if bytes[from] != b'0' {
        return false;
    }
    bytes[from + 1] == b'x'
}

/// The number at a place and where it ends. (A decimal number of 20 digits is not looked for. More digits may follow.)
#[inline(always)]
pub(crate) fn number_at(bytes: &[u8], from: usize) -> Option<(u64, usize)>
    requires { from + 19 ≤ length bytes.now }
    ensures number { IfSome result (λ found. HasNumber (drop from bytes.now) found.0 (drop found.1 bytes.now)) }
    ensures near { IfSome result (λ found. found.1 ≤ from + 19) }
{
    if has_prefix_at(bytes, from) {
        return digits_at(bytes, from + 2);
    }
    decimal_at(bytes, from)
}

/// The number at a place, of at most five decimal or four hexadecimal digits, and where it ends.
#[inline(always)]
pub(crate) fn short_number_at(bytes: &[u8], from: usize) -> Option<(u64, usize)>
    requires { from + 6 ≤ length bytes.now }
    ensures number { IfSome result (λ found. HasNumber (drop from bytes.now) found.0 (drop found.1 bytes.now)) }
    ensures near { IfSome result (λ found. found.1 ≤ from + 6) }
{
    if has_prefix_at(bytes, from) {
        return few_digits_at(bytes, from + 2);
    }
    few_decimal_digits_at(bytes, from)
}

/// The number that a numeral of at most `most` digits spells, if it fits 64 bits.
fn number_of_numeral(base: u8, most: usize, digits: &[u8]) -> Option<u64>
    requires digits { base ≤ 16 }
    requires few { most ≤ 20 }
    ensures { result ≡ fitting 64 (numeral base most digits.now) }
{
    if digits.is_empty() || digits.len() > most {
        return None;
    }
    let mut value = 0u128;
    for byte in digits {
        let digit = value_of_digit(*byte);
        if digit >= base {
            return None;
        }
        value = value * u128::from(base) + u128::from(digit);
    }
    u64::try_from(value).ok()
}

/// The number that a token spells, if it fits 64 bits.
pub fn number_of_token(token: &[u8]) -> Option<u64>
    ensures { result ≡ operand_of 64 token.now }
{
    match token {
        [b'0', b'x', digits @ ..] => number_of_numeral(16, 16, digits),
        _ => number_of_numeral(10, 20, token),
    }
}

/// Whether each byte is a digit of the base.
fn are_digits(base: u8, bytes: &[u8]) -> bool
    ensures { result ≡ list_all (λ c. is_digit c base) bytes.now }
{
    bytes.iter().all(|byte| value_of_digit(*byte) < base)
}

/// Whether the digits are a numeral of at most `most` digits.
fn is_numeral(base: u8, most: usize, digits: &[u8]) -> bool
    ensures { result ≡ is_some (numeral base most digits.now) }
{
    if digits.len() > most || digits.is_empty() {
        return false;
    }
    are_digits(base, digits)
}

/// Whether a token spells a number, even one too great for 64 bits.
pub fn is_number(token: &[u8]) -> bool
    ensures { result ≡ is_some (number_of token.now) }
{
    match token {
        [b'0', b'x', digits @ ..] => is_numeral(16, 16, digits),
        _ => is_numeral(10, 20, token),
    }
}
