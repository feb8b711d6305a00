//! What a worker begins with.

ghost use Rattle.std.specs.Prelude.{◌≡◌, All, IfOk};
ghost use Rattle.hg_desk.specs.Told.{nothing_told};

use hg_desk::share::{Column, Opening, Share};
use hg_streams::streams::PIECE_BYTES;
use std::alloc::{AllocError, Global};

/// The room that a worker reads into: 64 KiB.
#[derive(Drop)]
pub struct Piece {
    bytes: Vec<u8>,
}

impl Piece {
    /// Takes the memory.
    pub fn new(alloc: Global) -> Result<Piece, AllocError> {
        let mut bytes = Vec::new(alloc);
        bytes.resize(PIECE_BYTES, 0)?;
        Ok(Piece { bytes })
    }

    /// The room itself.
    pub(crate) fn as_mut_slice(&mut self) -> &mut [u8] {
        self.bytes.as_mut_slice()
    }
}

/// A share and a piece, for one worker.
#[derive(Drop)]
pub(crate) struct Station<A: Opening, B: Column> {
    pub(crate) share: Share<A, B>,
    pub(crate) piece: Piece,
}

/// Takes the memory for so many workers.
pub(crate) fn pieces_for(alloc: Global, workers: u16) -> Result<Vec<Piece>, AllocError> {
    let mut pieces = Vec::new(alloc);
    for _ in 0..workers {
        pieces.push(Piece::new(alloc)?)?;
    }
    Ok(pieces)
}

/// Gives each share a piece. They were told of nothing yet.
pub(crate) fn stations<A: Opening, B: Column>(
    alloc: Global,
    shares: Vec<Share<A, B>>,
    pieces: Vec<Piece>,
) -> Result<Vec<Station<A, B>>, AllocError>
    requires new { All (λ s. s ≡ nothing_told) shares.items }
    ensures new { IfOk result (λ all. All (λ s. s.share ≡ nothing_told) all.items) }
{
    let mut pieces = pieces;
    let mut all = Vec::new(alloc);
    for share in shares {
        let Some(piece) = pieces.pop() else {
            return Err(AllocError);
        };
        all.push(Station { share, piece })?;
    }
    Ok(all)
}
