//! The tokens of a line, and the first of its faults.

ghost use Rattle.std.specs.Prelude.{◌≡◌, [], ◌∷◌, ℕ, List, ◌<◌, length, false, IfSome, position, ◌==◌};
ghost use Rattle.hg_wire.specs.Lines.{tokens_of, tokens_after, are_counted, operand_of, operands_of, result_map, of_verb, line_of};
ghost use Rattle.hg_wire.specs.Taken.{GivesThree, GivesTwo, GivesToken};
ghost use Rattle.hg_wire.specs.Verbs.{pair_widths, access_widths, block_widths, message_widths};

use crate::line::{LineFault, MOST_LINE_BYTES};
use crate::number::number_of_token;
use crate::verb::Verb;
use hg_model::event::{Access, Block, Event};

fn first_space(line: &[u8]) -> Option<usize>
    ensures { result ≡ position (λ b. b == 32) line.now }
{
    line.iter().position(|byte| *byte == b' ')
}

/// The first token of a line, and what follows the space after it, if there is one.
pub(crate) fn split_token(line: &[u8]) -> (&[u8], Option<&[u8]>)
    ensures tokens { tokens_of line.now ≡ result.0.now ∷ tokens_after result.1 }
    ensures shorter { IfSome result.1 (λ rest. length rest.now < length line.now) }
{
    match first_space(line) {
        None => (line, None),
        Some(at) => (&line[..at], Some(&line[at + 1..])),
    }
}

/// The first of some tokens, and the tokens after it. `None` where it is absent or empty.
fn take_token(tokens: Option<&[u8]>) -> Option<(&[u8], Option<&[u8]>)>
    ensures { GivesToken (tokens_after tokens.entry) result }
{
    let (token, rest) = split_token(tokens?);
    if token.is_empty() {
        return None;
    }
    Some((token, rest))
}

/// Exactly two tokens, none of them empty.
fn two_tokens(tokens: Option<&[u8]>) -> Option<(&[u8], &[u8])>
    ensures { GivesTwo (tokens_after tokens.entry) result }
{
    let (first, rest) = take_token(tokens)?;
    let (second, rest) = take_token(rest)?;
    if rest.is_some() {
        return None;
    }
    Some((first, second))
}

/// Exactly three tokens, none of them empty.
fn three_tokens(tokens: Option<&[u8]>) -> Option<(&[u8], &[u8], &[u8])>
    ensures { GivesThree (tokens_after tokens.entry) result }
{
    let (first, rest) = take_token(tokens)?;
    let (second, third) = two_tokens(rest)?;
    Some((first, second, third))
}

pub(crate) fn short_of_token(token: &[u8]) -> Option<u16>
    ensures { result ≡ operand_of 16 token.now }
{
    let value = number_of_token(token)?;
    if value > 0xffff {
        return None;
    }
    Some(value as u16)
}

pub(crate) fn byte_of_token(token: &[u8]) -> Option<u8>
    ensures { result ≡ operand_of 8 token.now }
{
    let value = number_of_token(token)?;
    if value > 0xff {
        return None;
    }
    Some(value as u8)
}

pub(crate) fn int_of_token(token: &[u8]) -> Option<u32>
    ensures { result ≡ operand_of 32 token.now }
{
    let value = number_of_token(token)?;
    if value > 0xffff_ffff {
        return None;
    }
    Some(value as u32)
}

/// A thread and a child or a lock.
fn pair_of_tokens(tokens: Option<&[u8]>) -> Result<(u16, u16), LineFault>
    ensures { result_map (λ p. p.0 ∷ p.1 ∷ []) result ≡ operands_of pair_widths (tokens_after tokens.entry) }
{
    let (first, second) = two_tokens(tokens).ok_or(LineFault::Count)?;
    let first = short_of_token(first).ok_or(LineFault::Number)?;
    let second = short_of_token(second).ok_or(LineFault::Number)?;
    Ok((first, second))
}

/// A thread, an address and a length of an access.
fn access_of_tokens(tokens: Option<&[u8]>) -> Result<Access, LineFault>
    ensures { result_map (λ a. a.t ∷ a.at ∷ a.len ∷ []) result ≡ operands_of access_widths (tokens_after tokens.entry) }
{
    let (t, at, len) = three_tokens(tokens).ok_or(LineFault::Count)?;
    let t = short_of_token(t).ok_or(LineFault::Number)?;
    let at = number_of_token(at).ok_or(LineFault::Number)?;
    let len = byte_of_token(len).ok_or(LineFault::Number)?;
    Ok(Access { t, at, len })
}

/// A thread, an address and a length of a heap block.
fn block_of_tokens(tokens: Option<&[u8]>) -> Result<Block, LineFault>
    ensures { result_map (λ b. b.t ∷ b.at ∷ b.len ∷ []) result ≡ operands_of block_widths (tokens_after tokens.entry) }
{
    let (t, at, len) = three_tokens(tokens).ok_or(LineFault::Count)?;
    let t = short_of_token(t).ok_or(LineFault::Number)?;
    let at = number_of_token(at).ok_or(LineFault::Number)?;
    let len = int_of_token(len).ok_or(LineFault::Number)?;
    Ok(Block { t, at, len })
}

/// A thread and a message.
fn message_of_tokens(tokens: Option<&[u8]>) -> Result<(u16, u32), LineFault>
    ensures { result_map (λ p. p.0 ∷ p.1 ∷ []) result ≡ operands_of message_widths (tokens_after tokens.entry) }
{
    let (t, k) = two_tokens(tokens).ok_or(LineFault::Count)?;
    let t = short_of_token(t).ok_or(LineFault::Number)?;
    let k = int_of_token(k).ok_or(LineFault::Number)?;
    Ok((t, k))
}

/// The event of a verb and some tokens.
fn event_of_tokens(verb: Verb, tokens: Option<&[u8]>) -> Result<Event, LineFault>
    ensures { result ≡ of_verb (Some verb) (tokens_after tokens.entry) }
{
    match verb {
        Verb::Fork => pair_of_tokens(tokens).map(|(p, c)| Event::Fork { p, c }),
        Verb::Join => pair_of_tokens(tokens).map(|(p, c)| Event::Join { p, c }),
        Verb::Lock => pair_of_tokens(tokens).map(|(t, l)| Event::Lock { t, l }),
        Verb::RdLock => pair_of_tokens(tokens).map(|(t, l)| Event::RdLock { t, l }),
        Verb::Unlock => pair_of_tokens(tokens).map(|(t, l)| Event::Unlock { t, l }),
        Verb::Read => access_of_tokens(tokens).map(Event::Read),
        Verb::Write => access_of_tokens(tokens).map(Event::Write),
        Verb::Alloc => block_of_tokens(tokens).map(Event::Alloc),
        Verb::Free => block_of_tokens(tokens).map(Event::Free),
        Verb::Send => message_of_tokens(tokens).map(|(t, k)| Event::Send { t, k }),
        Verb::Recv => message_of_tokens(tokens).map(|(t, k)| Event::Recv { t, k }),
    }
}

/// What a line says, token by token: the event that it spells, or the first of its faults.
#[cold]
#[inline(never)]
#[tactic(auto, unfolding(crate::specs::Lines::line_of))]
pub fn line_by_tokens(line: &[u8]) -> Result<Event, LineFault>
    ensures { result ≡ line_of line.now }
{
    if line.len() > MOST_LINE_BYTES {
        return Err(LineFault::TooLong);
    }
    let (token, tokens) = split_token(line);
    match Verb::named(token) {
        None => Err(LineFault::Verb),
        Some(verb) => event_of_tokens(verb, tokens),
    }
}
