//! Answers that are remembered: the same few questions come again and again, and a hit costs no look-up.

ghost use Rattle.std.specs.Prelude.{◌≡◌, ◌↔◌, ◌<◌, ◌≤◌, IsTrue, IfOk, None, length, replicate};

use std::alloc::{AllocError, Global};

/// How many joins are remembered.
pub(crate) const JOINS: usize = 8192;

/// How many meets are remembered.
pub(crate) const MEETS: usize = 256;

/// The longest list whose meets are remembered.
pub(crate) const LONGEST: usize = 6;

/// The set `set` with `member` is the set `answer`.
#[derive(Clone, Copy)]
pub(crate) struct KnownJoin {
    pub(crate) set: u32,
    pub(crate) member: u16,
    pub(crate) answer: u32,
}

/// What the set `set` and the first `count` of `others` have in common is the set `answer`.
#[derive(Clone, Copy)]
pub(crate) struct KnownMeet {
    pub(crate) set: u32,
    pub(crate) others: [u16; LONGEST],
    pub(crate) count: u8,
    pub(crate) answer: u32,
}

impl KnownMeet {
    ghost use Rattle.hg_sets.specs.Remembered.{others_of};

    pub(crate) fn new(set: u32, list: &[u16], answer: u32) -> Self
        requires { length list.now ≤ LONGEST }
        ensures set { result.set ≡ set }
        ensures others { others_of result ≡ list.now }
        ensures short { result.count ≤ LONGEST }
        ensures answer { result.answer ≡ answer }
    {
        let mut others = [0; LONGEST];
        others[..list.len()].copy_from_slice(list);
        KnownMeet {
            set,
            others,
            count: list.len() as u8,
            answer,
        }
    }

    /// Whether it answers for this set and this list.
    #[inline]
    pub(crate) fn is_for(&self, set: u32, list: &[u16]) -> bool
        requires { self.now.count ≤ LONGEST }
        ensures { IsTrue result ↔ ((self.now.set ≡ set) × (others_of self.now ≡ list.now)) }
    {
        self.set == set && &self.others[..usize::from(self.count)] == list
    }
}

/// Places at which nothing is remembered yet.
pub(crate) fn none_known<K: Drop>(alloc: Global, count: usize) -> Result<Vec<Option<K>>, AllocError>
    ensures { IfOk result (λ places. places.items ≡ replicate count None) }
{
    let mut places = Vec::with_capacity(alloc, count)?;
    for _ in 0..count {
        places.push(None)?;
    }
    Ok(places)
}

/// Where the join of this set and member is remembered.
#[inline]
pub(crate) fn join_place(set: u32, member: u16) -> usize
    ensures { result < JOINS }
{
    let mixed = (u64::from(set) << 16 ^ u64::from(member)).wrapping_mul(0x9E37_79B9_7F4A_7C15);
    (mixed >> 51) as usize % JOINS
}

/// Where the meet of this set and list is remembered.
#[inline]
pub(crate) fn meet_place(set: u32, list: &[u16]) -> usize
    requires { 0 < length list.now }
    ensures { result < MEETS }
{
    let ends = u64::from(list[0]) << 16 ^ u64::from(list[list.len() - 1]);
    let mixed = (u64::from(set) << 32 ^ ends).wrapping_mul(0x9E37_79B9_7F4A_7C15);
    (mixed >> 56) as usize % MEETS
}
