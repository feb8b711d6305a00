//! The verbs of the trace text.

ghost use Rattle.std.specs.Prelude.{◌≡◌, ◌≤◌, ◌++◌, [], ◌∷◌, length, take, drop, IfSome};
ghost use Rattle.std.specs.Int.{to_le_bytes, w32};
ghost use Rattle.hg_wire.specs.InFront.{BeginsWith};
ghost use Rattle.hg_wire.specs.Holds.{verb_on};
ghost use Rattle.hg_wire.specs.Verbs.{row_of, verb_of, Makes};

use hg_model::event::{Access, Block, Event, HoldKind};

/// A verb of the trace text (this project's profile).
#[derive(Clone, Copy, Debug, PartialEq, Eq, Drop)]
pub enum Verb {
    Fork,
    Join,
    Lock,
    RdLock,
    Unlock,
    Read,
    Write,
    Alloc,
    Free,
    Send,
    Recv,
}

const VERBS: [Verb; 11] = [
    Verb::Fork,
    Verb::Join,
    Verb::Lock,
    Verb::RdLock,
    Verb::Unlock,
    Verb::Read,
    Verb::Write,
    Verb::Alloc,
    Verb::Free,
    Verb::Send,
    Verb::Recv,
];

impl Verb {
    ghost use Rattle.hg_wire.specs.Verbs.{row_of};
    ghost use Rattle.hg_wire.specs.Lines.{verb_named};

    /// The verb as it is spelled.
    #[inline(always)]
    pub fn text(self) -> &'static [u8]
        ensures { result.now ≡ (row_of self).text }
    {
        match self {
            Verb::Fork => b"fork",
            Verb::Join => b"join",
            Verb::Lock => b"lock",
            Verb::RdLock => b"rdlock",
            Verb::Unlock => b"unlock",
            Verb::Read => b"read",
            Verb::Write => b"write",
            Verb::Alloc => b"alloc",
            Verb::Free => b"free",
            Verb::Send => b"send",
            Verb::Recv => b"recv",
        }
    }

    /// The width in bits of each of its operands.
    pub fn widths(self) -> &'static [u8]
        ensures { result.now ≡ (row_of self).widths }
    {
        let verb = self;
        match verb {
            Verb::Fork | Verb::Join | Verb::Lock | Verb::RdLock | Verb::Unlock => &[16, 16],
            Verb::Read | Verb::Write => &[16, 64, 8],
            Verb::Alloc | Verb::Free => &[16, 64, 32],
            Verb::Send | Verb::Recv => &[16, 32],
        }
    }

    /// The verb that the token is, if it is one.
    #[tactic(auto, unfolding(crate::specs::Lines::verb_named))]
    pub fn named(token: &[u8]) -> Option<Verb>
        ensures { result ≡ verb_named token.now }
    {
        VERBS.iter().copied().find(|verb| verb.text() == token)
    }
}

/// A verb by the kind of its operands.
#[derive(Clone, Copy, Debug, PartialEq, Eq, Drop)]
pub enum VerbKind {
    /// `fork`, `join`, `lock`, `rdlock`, `unlock`, `send` or `recv`: a thread and a child, a lock or a message.
    Pair { verb: Verb },
    /// `read` or `write`: a thread, an address and a length of 8 bits.
    Access { is_write: bool },
    /// `alloc` or `free`: a thread, an address and a length of 32 bits.
    Block { is_alloc: bool },
}

// The first four letters of each verb, as `first_letters` gives them.
const FIRST_OF_WRITE: u32 = 0x7469_7277;

const FIRST_OF_READ: u32 = 0x6461_6572;

const FIRST_OF_ALLOC: u32 = 0x6f6c_6c61;

const FIRST_OF_FREE: u32 = 0x6565_7266;

const FIRST_OF_LOCK: u32 = 0x6b63_6f6c;

const FIRST_OF_UNLOCK: u32 = 0x6f6c_6e75;

const FIRST_OF_RDLOCK: u32 = 0x6f6c_6472;

const FIRST_OF_FORK: u32 = 0x6b72_6f66;

const FIRST_OF_JOIN: u32 = 0x6e69_6f6a;

const FIRST_OF_SEND: u32 = 0x646e_6573;

const FIRST_OF_RECV: u32 = 0x7663_6572;

/// The first four bytes as a number, low byte first.
#[inline(always)]
fn first_letters(bytes: &[u8]) -> u32
    requires { 4 ≤ length bytes.now }
    ensures { to_le_bytes w32 result ≡ take 4 bytes.now }
{
    u32::from_le_bytes([bytes[0], bytes[1], bytes[2], bytes[3]])
}

/// The verb that the bytes begin with, and where it ends.
#[inline(always)]
pub(crate) fn verb_in_front(bytes: &[u8]) -> Option<(VerbKind, usize)>
    requires { 6 ≤ length bytes.now }
    ensures verb { IfSome result (λ found. BeginsWith bytes.now (verb_of found.0) found.1) }
    ensures near { IfSome result (λ found. found.1 ≤ 6) }
{
    if let Some((is_write, end)) = access_verb_in_front(bytes) {
        return Some((VerbKind::Access { is_write }, end));
    }
    if let Some((is_alloc, end)) = block_verb_in_front(bytes) {
        return Some((VerbKind::Block { is_alloc }, end));
    }
    let (verb, end) = pair_verb_in_front(bytes)?;
    Some((VerbKind::Pair { verb }, end))
}

/// Whether the bytes begin with `write` (true) or with `read` (false), and where that ends.
#[inline(always)]
pub(crate) fn access_verb_in_front(bytes: &[u8]) -> Option<(bool, usize)>
    requires { 6 ≤ length bytes.now }
    ensures verb { IfSome result (λ found. BeginsWith bytes.now (verb_of (VerbKind.Access found.0)) found.1) }
    ensures near { IfSome result (λ found. found.1 ≤ 6) }
{
    let first = first_letters(bytes);
    if first == FIRST_OF_WRITE && bytes[4] == b'e' {
        return Some((true, 5));
    }
    if first == FIRST_OF_READ {
        return Some((false, 4));
    }
    None
}

/// Whether the bytes begin with `alloc` (true) or with `free` (false), and where that ends.
#[inline(always)]
fn block_verb_in_front(bytes: &[u8]) -> Option<(bool, usize)>
    requires { 6 ≤ length bytes.now }
    ensures verb { IfSome result (λ found. BeginsWith bytes.now (verb_of (VerbKind.Block found.0)) found.1) }
    ensures near { IfSome result (λ found. found.1 ≤ 6) }
{
    let first = first_letters(bytes);
    if first == FIRST_OF_ALLOC && bytes[4] == b'c' {
        return Some((true, 5));
    }
    if first == FIRST_OF_FREE {
        return Some((false, 4));
    }
    None
}

/// Which of `lock`, `rdlock` and `unlock` the bytes begin with, if with one, and where it ends.
#[inline(always)]
pub(crate) fn hold_verb_in_front(bytes: &[u8]) -> Option<(HoldKind, usize)>
    requires { 6 ≤ length bytes.now }
    ensures verb { IfSome result (λ found. BeginsWith bytes.now (verb_on found.0) found.1) }
    ensures near { IfSome result (λ found. found.1 ≤ 6) }
{
    let first = first_letters(bytes);
    if first == FIRST_OF_LOCK {
        return Some((HoldKind::Lock, 4));
    }
    if first == FIRST_OF_UNLOCK && bytes[4] == b'c' && bytes[5] == b'k' {
        return Some((HoldKind::Unlock, 6));
    }
    if first == FIRST_OF_RDLOCK && bytes[4] == b'c' && bytes[5] == b'k' {
        return Some((HoldKind::RdLock, 6));
    }
    None
}

/// The verb of an operation on a lock.
#[inline(always)]
fn hold_verb(kind: HoldKind) -> Verb
    ensures { result ≡ verb_on kind }
{
    match kind {
        HoldKind::Lock => Verb::Lock,
        HoldKind::RdLock => Verb::RdLock,
        HoldKind::Unlock => Verb::Unlock,
    }
}

/// Which verb of two operands the bytes begin with, and where it ends.
#[inline(always)]
fn pair_verb_in_front(bytes: &[u8]) -> Option<(Verb, usize)>
    requires { 6 ≤ length bytes.now }
    ensures verb { IfSome result (λ found. BeginsWith bytes.now found.0 found.1) }
    ensures near { IfSome result (λ found. found.1 ≤ 6) }
{
    if let Some((kind, end)) = hold_verb_in_front(bytes) {
        return Some((hold_verb(kind), end));
    }
    let first = first_letters(bytes);
    if first == FIRST_OF_FORK {
        return Some((Verb::Fork, 4));
    }
    if first == FIRST_OF_JOIN {
        return Some((Verb::Join, 4));
    }
    if first == FIRST_OF_SEND {
        return Some((Verb::Send, 4));
    }
    if first == FIRST_OF_RECV {
        return Some((Verb::Recv, 4));
    }
    None
}

/// The value, where it fits 16 bits.
#[inline(always)]
fn short_of(value: u64) -> Option<u16>
    ensures { IfSome result (λ short. short ≡ value) }
{
    if value > 0xffff {
        return None;
    }
    Some(value as u16)
}

/// The value, where it fits 32 bits.
#[inline(always)]
fn message_of(value: u64) -> Option<u32>
    ensures { IfSome result (λ message. message ≡ value) }
{
    if value > 0xffff_ffff {
        return None;
    }
    Some(value as u32)
}

/// The event of a verb that takes two operands, where they fit.
#[inline(always)]
pub fn pair_event(verb: Verb, first: u16, second: u64) -> Option<Event>
    ensures { IfSome result (λ event. Makes verb (first ∷ second ∷ []) event) }
{
    match verb {
        Verb::Fork => Some(Event::Fork {
            p: first,
            c: short_of(second)?,
        }),
        Verb::Join => Some(Event::Join {
            p: first,
            c: short_of(second)?,
        }),
        Verb::Lock => Some(Event::Lock {
            t: first,
            l: short_of(second)?,
        }),
        Verb::RdLock => Some(Event::RdLock {
            t: first,
            l: short_of(second)?,
        }),
        Verb::Unlock => Some(Event::Unlock {
            t: first,
            l: short_of(second)?,
        }),
        Verb::Send => Some(Event::Send {
            t: first,
            k: message_of(second)?,
        }),
        Verb::Recv => Some(Event::Recv {
            t: first,
            k: message_of(second)?,
        }),
        Verb::Read | Verb::Write | Verb::Alloc | Verb::Free => None,
    }
}

/// The event of a verb that takes three operands, where they fit. The length has 16 bits here, as in a usual line; one of a
/// block that has more is read token by token.
#[inline(always)]
pub fn sized_event(kind: VerbKind, t: u16, at: u64, len: u16) -> Option<Event>
    ensures { IfSome result (λ event. Makes (verb_of kind) (t ∷ at ∷ len ∷ []) event) }
{
    match kind {
        VerbKind::Pair { verb: _ } => None,
        VerbKind::Access { is_write } => access_event(is_write, t, at, len),
        VerbKind::Block { is_alloc } => Some(block_event(is_alloc, t, at, len)),
    }
}

#[inline(always)]
fn access_event(is_write: bool, t: u16, at: u64, len: u16) -> Option<Event>
    ensures { IfSome result (λ event. Makes (verb_of (VerbKind.Access is_write)) (t ∷ at ∷ len ∷ []) event) }
{
    if len > 0xff {
        return None;
    }
    let len = len as u8;
    let access = Access { t, at, len };
    match is_write {
        true => Some(Event::Write(access)),
        false => Some(Event::Read(access)),
    }
}

#[inline(always)]
fn block_event(is_alloc: bool, t: u16, at: u64, len: u16) -> Event
    ensures { Makes (verb_of (VerbKind.Block is_alloc)) (t ∷ at ∷ len ∷ []) result }
{
    let block = Block {
        t,
        at,
        len: u32::from(len),
    };
    match is_alloc {
        true => Event::Alloc(block),
        false => Event::Free(block),
    }
}
