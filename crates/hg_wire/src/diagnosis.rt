//! Why a line is bad, and where in it.

ghost use Rattle.std.specs.Prelude.{◌≡◌, ◌⊎◌, ◌+◌, ◌<◌, ◌≤◌, [], ◌∷◌, ℕ, List, Ok, Err, Some, true, is_some, length, nat_lt, IfSome, MatchOption};
ghost use Rattle.std.specs.List.{AllByRecursion, list_all};
ghost use Rattle.hg_model.specs.declared.event.Event.{Event as EventOf};
ghost use Rattle.hg_wire.specs.Diagnoses.{GivesMisfit, HasVerb, IsFirstEmpty, IsTrueOf, SpellsEvent, fault_of};
ghost use Rattle.hg_wire.specs.Lines.{are_counted, line_of, operand_of, values_of, tokens_after, tokens_of};
ghost use Rattle.hg_wire.specs.Taken.{HaveValues, NoneIsEmpty};
ghost use Rattle.hg_wire.specs.Verbs.{row_of};

use crate::line::MOST_LINE_BYTES;
use crate::number::{is_number, number_of_token};
use crate::tokens::{byte_of_token, int_of_token, short_of_token, split_token};
use crate::verb::Verb;

/// Why a line is bad, and where. Its tokens are counted from 0 on, the verb first, with one space between each two.
#[derive(Clone, Copy, Drop)]
pub enum Diagnosis<'a> {
    /// It has more than 256 bytes.
    TooLong,
    /// Its first token is none of the verbs.
    NoVerb {
        token: &'a [u8],
    },
    /// The token at this place is the first empty one: there is a space too many.
    EmptyToken {
        place: usize,
    },
    /// The verb has `given` tokens behind it, and takes another number of them.
    Count {
        verb: Verb,
        given: usize,
    },
    /// This token is the first bad operand: it spells no number.
    Misspelt {
        place: usize,
        token: &'a [u8],
    },
    /// This token is the first bad operand: its number does not fit `bits` bits.
    TooGreat {
        place: usize,
        token: &'a [u8],
        bits: u8,
    },
}

/// An operand that spells no number, or one that does not fit its width.
#[derive(Clone, Copy, Drop)]
struct Misfit<'a> {
    place: usize,
    token: &'a [u8],
    bits: u8,
}

/// The place of the first empty token.
fn first_empty(line: &[u8]) -> Option<usize>
    ensures first { MatchOption result (NoneIsEmpty (tokens_of line.now)) (IsFirstEmpty (tokens_of line.now)) }
    ensures within { IfSome result (λ place. place ≤ length line.now) }
{
    let (token, rest) = split_token(line);
    if token.is_empty() {
        return Some(0);
    }
    Some(first_empty(rest?)? + 1)
}

/// How many tokens a line has.
fn count_tokens(line: &[u8]) -> usize
    ensures count { result ≡ length (tokens_of line.now) }
    ensures within { result ≤ length line.now + 1 }
{
    match split_token(line).1 {
        None => 1,
        Some(rest) => count_tokens(rest) + 1,
    }
}

/// Whether a token spells a number of so many bits.
fn is_operand(token: &[u8], bits: u8) -> bool
    requires { (bits ≡ 8) ⊎ ((bits ≡ 16) ⊎ ((bits ≡ 32) ⊎ (bits ≡ 64))) }
    ensures { result ≡ is_some (operand_of bits token.now) }
{
    match bits {
        8 => byte_of_token(token).is_some(),
        16 => short_of_token(token).is_some(),
        32 => int_of_token(token).is_some(),
        _ => number_of_token(token).is_some(),
    }
}

/// The first token that is no operand of its width.
fn first_misfit<'a>(widths: &[u8], tokens: Option<&'a [u8]>) -> Option<Misfit<'a>>
    requires { AllByRecursion (λ bits. (bits ≡ 8) ⊎ ((bits ≡ 16) ⊎ ((bits ≡ 32) ⊎ (bits ≡ 64)))) widths.now }
    ensures first { GivesMisfit widths.now (tokens_after tokens.entry) result }
    ensures within { IfSome result (λ found. found.place < length widths.now) }
{
    let (bits, others) = widths.split_first()?;
    let (token, rest) = split_token(tokens?);
    if !is_operand(token, *bits) {
        return Some(Misfit {
            place: 0,
            token,
            bits: *bits,
        });
    }
    let later = first_misfit(others, rest)?;
    Some(Misfit {
        place: later.place + 1,
        token: later.token,
        bits: later.bits,
    })
}

/// Why a line is bad. `None` says that it spells an event.
pub fn diagnose(line: &[u8]) -> Option<Diagnosis<'_>>
    ensures fault { MatchOption result (SpellsEvent line.now) (λ found. line_of line.now ≡ Err (fault_of found)) }
    ensures place { IfSome result (IsTrueOf line.now) }
{
    if line.len() > MOST_LINE_BYTES {
        return Some(Diagnosis::TooLong);
    }
    let (token, tokens) = split_token(line);
    let Some(verb) = Verb::named(token) else {
        return Some(Diagnosis::NoVerb { token });
    };
    if let Some(place) = first_empty(line) {
        return Some(Diagnosis::EmptyToken { place });
    }
    let given = count_tokens(line) - 1;
    let widths = verb.widths();
    if given != widths.len() {
        return Some(Diagnosis::Count { verb, given });
    }
    let Misfit { place, token, bits } = first_misfit(widths, tokens)?;
    let place = place + 1;
    if is_number(token) {
        Some(Diagnosis::TooGreat { place, token, bits })
    } else {
        Some(Diagnosis::Misspelt { place, token })
    }
}
