//! What a crash makes of the writes of a disk that are not synced.

use crate::answers::put_byte;
use crate::text::Text;
use crate::tokens::{Halt, Tokens};
use hg_disk::Tear;
use std::alloc::Global;

/// A tear, or many.
#[derive(Clone, Copy)]
pub enum Tears {
    One(Tear),
    /// Each front whose length is a multiple of this number.
    Fronts(usize),
}

fn fronts(tokens: &mut Tokens) -> Tears {
    if tokens.skip("*") {
        return Tears::Fronts(1);
    }
    if tokens.skip("every ") {
        let step = tokens.number() as usize;
        if step == 0 {
            tokens.fail();
        }
        return Tears::Fronts(step);
    }
    Tears::One(Tear::Front(tokens.number() as usize))
}

/// The tears in front: `lost`, `kept`, `fill HH`, `front N`; `front *` is each front, `front every N` those that have a multiple of
/// N bytes.
fn next_tears(tokens: &mut Tokens) -> Tears {
    match tokens.token() {
        "lost" => Tears::One(Tear::Lost),
        "kept" => Tears::One(Tear::Kept),
        "fill" => Tears::One(Tear::Fill(tokens.byte())),
        "front" => fronts(tokens),
        _ => {
            tokens.fail();
            Tears::One(Tear::Lost)
        }
    }
}

/// The tear in front, which has to be one.
pub fn tear(tokens: &mut Tokens) -> Tear {
    match next_tears(tokens) {
        Tears::One(tear) => tear,
        Tears::Fronts(_) => {
            tokens.fail();
            Tear::Lost
        }
    }
}

/// The tears that tokens name.
pub fn tears_of(alloc: Global, text: &str) -> Result<Vec<Tears>, Halt> {
    let mut found = Vec::new(alloc);
    let mut tokens = Tokens::of(text);
    for _ in 0..text.len() {
        if tokens.rest().is_empty() {
            break;
        }
        found.push(next_tears(&mut tokens))?;
    }
    tokens.check()?;
    Ok(found)
}

/// The tear that a token names: `lost`, `kept`, `front` or `fill`, the last two with a decimal number.
pub fn tear_of(token: &str) -> Option<Tear> {
    match token {
        "lost" => return Some(Tear::Lost),
        "kept" => return Some(Tear::Kept),
        _ => {}
    }
    match token.strip_prefix("front") {
        Some(count) => Some(Tear::Front(count.parse::<usize>().ok()?)),
        None => Some(Tear::Fill(token.strip_prefix("fill")?.parse::<u8>().ok()?)),
    }
}

/// A tear, as a line names it.
pub fn put_tear(tear: Tear, out: &mut Text) {
    match tear {
        Tear::Lost => out.put(b"lost"),
        Tear::Kept => out.put(b"kept"),
        Tear::Front(count) => out.put_number(b"front ", count as u64),
        Tear::Fill(byte) => {
            out.put(b"fill ");
            put_byte(byte, out);
        }
    }
}
