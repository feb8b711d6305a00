//! Events as a journal has them.

ghost use Rattle.std.specs.Prelude.{◌≡◌, ◌≤◌, ◌++◌, ◌+◌, ◌∷◌, List, ℕ, Some, length, drop, vec_capacity, IsOk, OnOk, OnErr, IfSome, IfNone};
ghost use Rattle.std.specs.Int.{w16, w32, w64, to_be_bytes};
ghost use Rattle.hg_model.specs.declared.event.Event.{Event as EventOf};
ghost use Rattle.hg_records.specs.Records.{AccessFits, BeginsWith, BeginsWithEvent, BlockFits, EventFits, MessageFits, PairFits, RecordFits, access_text, by_length, event_text, message_text, pair_text, record_text};
ghost use Rattle.hg_records.specs.Lengths.{HasNoRecord, IsRecordLength, TakesEvent, TakesRecord, length_by_kind};
ghost use Rattle.hg_records.specs.RecordReading.{Gives, access_at, block_at, byte_at, event_at, long_block_at, number_at, operands_at, record_at};

use hg_model::event::{Access, Block, Event, Named};
use std::alloc::AllocError;

/// The most bytes that a record has.
pub const MAX_RECORD_LEN: usize = 25;

#[inline(always)]
fn u16_at(bytes: &[u8]) -> Option<(u16, &[u8])>
    ensures { Gives (λ x. (x.0, x.1.now)) result (number_at w16 bytes.now) }
{
    if bytes.len() < 2 {
        return None;
    }
    let (front, rest) = bytes.split_at(2);
    Some((u16::from_be_bytes([front[0], front[1]]), rest))
}

#[inline(always)]
fn u32_at(bytes: &[u8]) -> Option<(u32, &[u8])>
    ensures { Gives (λ x. (x.0, x.1.now)) result (number_at w32 bytes.now) }
{
    if bytes.len() < 4 {
        return None;
    }
    let (front, rest) = bytes.split_at(4);
    let number = u32::from_be_bytes([front[0], front[1], front[2], front[3]]);
    Some((number, rest))
}

#[inline(always)]
fn u64_at(bytes: &[u8]) -> Option<(u64, &[u8])>
    ensures { Gives (λ x. (x.0, x.1.now)) result (number_at w64 bytes.now) }
{
    if bytes.len() < 8 {
        return None;
    }
    let (front, rest) = bytes.split_at(8);
    let number = u64::from_be_bytes([
        front[0], front[1], front[2], front[3], front[4], front[5], front[6], front[7],
    ]);
    Some((number, rest))
}

#[inline(always)]
fn u8_at(bytes: &[u8]) -> Option<(u8, &[u8])>
    ensures { Gives (λ x. (x.0, x.1.now)) result (byte_at bytes.now) }
{
    match bytes {
        [] => None,
        [byte, rest @ ..] => Some((*byte, rest)),
    }
}

#[inline(always)]
#[tactic(auto, unfolding(crate::specs::RecordReading::access_at))]
fn access_of(t: u16, bytes: &[u8]) -> Option<(Access, &[u8])>
    ensures { Gives (λ x. (x.0, x.1.now)) result (access_at t bytes.now) }
{
    let (at, rest) = u64_at(bytes)?;
    let (len, rest) = u8_at(rest)?;
    Some((Access { t, at, len }, rest))
}

/// A block whose length has 16 bits.
#[inline(always)]
#[tactic(auto, unfolding(crate::specs::RecordReading::block_at))]
fn block_of(t: u16, bytes: &[u8]) -> Option<(Block, &[u8])>
    ensures { Gives (λ x. (x.0, x.1.now)) result (block_at w16 t bytes.now) }
{
    let (at, rest) = u64_at(bytes)?;
    let (len, rest) = u16_at(rest)?;
    let len = u32::from(len);
    Some((Block { t, at, len }, rest))
}

/// A block whose length has 32 bits and does not fit 16.
#[inline(always)]
#[tactic(auto, unfolding(crate::specs::RecordReading::block_at, crate::specs::RecordReading::long_block_at))]
fn long_block_of(t: u16, bytes: &[u8]) -> Option<(Block, &[u8])>
    ensures { Gives (λ x. (x.0, x.1.now)) result (long_block_at t bytes.now) }
{
    let (at, rest) = u64_at(bytes)?;
    let (len, rest) = u32_at(rest)?;
    if len <= u32::from(u16::MAX) {
        return None;
    }
    Some((Block { t, at, len }, rest))
}

/// The event of a kind and an acting thread, read from its operands on.
#[inline(always)]
#[tactic(auto, unfolding(crate::specs::RecordReading::operands_at))]
fn operands_of(kind: u8, t: u16, bytes: &[u8]) -> Option<(Event, &[u8])>
    ensures { Gives (λ x. (x.0, x.1.now)) result (operands_at kind t bytes.now) }
{
    match kind {
        1 => {
            let (c, rest) = u16_at(bytes)?;
            Some((Event::Fork { p: t, c }, rest))
        }
        2 => {
            let (c, rest) = u16_at(bytes)?;
            Some((Event::Join { p: t, c }, rest))
        }
        3 => {
            let (l, rest) = u16_at(bytes)?;
            Some((Event::Lock { t, l }, rest))
        }
        4 => {
            let (l, rest) = u16_at(bytes)?;
            Some((Event::RdLock { t, l }, rest))
        }
        5 => {
            let (l, rest) = u16_at(bytes)?;
            Some((Event::Unlock { t, l }, rest))
        }
        6 => {
            let (access, rest) = access_of(t, bytes)?;
            Some((Event::Read(access), rest))
        }
        7 => {
            let (access, rest) = access_of(t, bytes)?;
            Some((Event::Write(access), rest))
        }
        8 => {
            let (block, rest) = block_of(t, bytes)?;
            Some((Event::Alloc(block), rest))
        }
        9 => {
            let (block, rest) = block_of(t, bytes)?;
            Some((Event::Free(block), rest))
        }
        10 => {
            let (k, rest) = u32_at(bytes)?;
            Some((Event::Send { t, k }, rest))
        }
        11 => {
            let (k, rest) = u32_at(bytes)?;
            Some((Event::Recv { t, k }, rest))
        }
        12 => {
            let (block, rest) = long_block_of(t, bytes)?;
            Some((Event::Alloc(block), rest))
        }
        13 => {
            let (block, rest) = long_block_of(t, bytes)?;
            Some((Event::Free(block), rest))
        }
        _ => None,
    }
}

#[inline(always)]
#[tactic(auto, unfolding(crate::specs::RecordReading::event_at))]
fn event_of(bytes: &[u8]) -> Option<(Event, &[u8])>
    ensures { Gives (λ x. (x.0, x.1.now)) result (event_at bytes.now) }
{
    let (kind, rest) = u8_at(bytes)?;
    let (t, rest) = u16_at(rest)?;
    operands_of(kind, t, rest)
}

#[inline(always)]
#[tactic(auto, unfolding(crate::specs::RecordReading::record_at))]
fn record_of(bytes: &[u8]) -> Option<(Named, &[u8])>
    ensures { Gives (λ x. (x.0, x.1.now)) result (record_at bytes.now) }
{
    let (source, rest) = u16_at(bytes)?;
    let (number, rest) = u64_at(rest)?;
    let (event, rest) = event_of(rest)?;
    Some((
        Named {
            source,
            number,
            event,
        },
        rest,
    ))
}

/// Reads the record at the front of the bytes: the event under its name, and the record's length in bytes.
/// `None` says that the bytes begin with no record. Takes no memory.
#[inline(always)]
pub fn read_record(bytes: &[u8]) -> Option<(Named, usize)>
    ensures read { IfSome result (λ r. TakesRecord bytes.now r.0 r.1) }
    ensures none { IfNone result (HasNoRecord bytes.now) }
{
    match record_of(bytes) {
        None => None,
        Some((named, rest)) => Some((named, bytes.len() - rest.len())),
    }
}

/// How many bytes a record has by its kind, 0 where there is no such kind.
#[inline(always)]
#[tactic(auto, unfolding(crate::specs::Lengths::length_by_kind))]
fn len_of(kind: u8) -> usize
    ensures { result ≡ length_by_kind kind }
{
    match kind {
        1 => 15,
        2 => 15,
        3 => 15,
        4 => 15,
        5 => 15,
        6 => 22,
        7 => 22,
        8 => 23,
        9 => 23,
        10 => 17,
        11 => 17,
        12 => 25,
        13 => 25,
        _ => 0,
    }
}

/// The length in bytes of the record at the front of the bytes, without reading its event. `None` says that the bytes begin
/// with no record. In a record of the greatest length a block's length stands at byte 21, and does not fit 16 bits.
#[inline]
pub fn record_len(bytes: &[u8]) -> Option<usize>
    ensures some { IfSome result (IsRecordLength bytes.now) }
    ensures none { IfNone result (HasNoRecord bytes.now) }
{
    if bytes.len() < 15 {
        return None;
    }
    let len = len_of(bytes[10]);
    if len == 0 {
        return None;
    }
    if bytes.len() < len {
        return None;
    }
    if len != MAX_RECORD_LEN {
        return Some(len);
    }
    let upper_half = u16::from_be_bytes([bytes[21], bytes[22]]);
    if upper_half == 0 {
        return None;
    }
    Some(len)
}

/// Reads the event at the front of the bytes, spelled as in a record after its name. Answers the event and its length in bytes.
/// `None` says that the bytes begin with no event. Takes no memory.
pub fn read_event(bytes: &[u8]) -> Option<(Event, usize)>
    ensures read { IfSome result (λ r. TakesEvent bytes.now r.0 r.1) }
    ensures none { IfNone result ((e : EventOf) (rest : List ℕ) → BeginsWithEvent bytes.now e rest → ⊥) }
{
    match event_of(bytes) {
        None => None,
        Some((event, rest)) => Some((event, bytes.len() - rest.len())),
    }
}

/// Each event has a record: the types of its fields keep each within its width. Does nothing at run time.
#[inline(always)]
pub fn records_fit(named: &Named)
    ensures { RecordFits named.now }
{
    let (_source, _number) = (named.source, named.number);
    events_fit(named.event);
}

/// Each event is within its widths.
#[inline(always)]
fn events_fit(event: Event)
    ensures { EventFits event }
{
    match event {
        Event::Fork { p: _p, c: _c } => (),
        Event::Join { p: _p, c: _c } => (),
        Event::Lock { t: _t, l: _l } => (),
        Event::RdLock { t: _t, l: _l } => (),
        Event::Unlock { t: _t, l: _l } => (),
        Event::Read(access) => accesses_fit(access),
        Event::Write(access) => accesses_fit(access),
        Event::Alloc(block) => blocks_fit(block),
        Event::Free(block) => blocks_fit(block),
        Event::Send { t: _t, k: _k } => (),
        Event::Recv { t: _t, k: _k } => (),
    }
}

/// Each access is within its widths.
#[inline(always)]
fn accesses_fit(access: Access)
    ensures { AccessFits access }
{
    let (_t, _at, _len) = (access.t, access.at, access.len);
}

/// Each block is within its widths.
#[inline(always)]
fn blocks_fit(block: Block)
    ensures { BlockFits block }
{
    let (_t, _at, _len) = (block.t, block.at, block.len);
}

/// Appends the record of an event. An `Err` leaves `out` as it was. It takes no memory where `out` has room for
/// `MAX_RECORD_LEN` bytes more.
pub fn put_record(named: &Named, out: &mut Vec<u8>) -> Result<(), AllocError>
    ensures ok { OnOk result (out.new.items ≡ out.old.items ++ record_text named.now) }
    ensures err { OnErr result (out.new.items ≡ out.old.items) }
    ensures room { length out.old.items + 25 ≤ vec_capacity out.old → IsOk result }
    ensures capacity { vec_capacity out.old ≤ vec_capacity out.new }
    ensures fits { OnOk result (RecordFits named.now) }
{
    let len = out.len();
    put_name(named.source, named.number, out)?;
    let event = put_event(&named.event, out);
    if event.is_err() {
        out.truncate(len);
    }
    event
}

/// Appends an event's name. An `Err` changes nothing.
fn put_name(source: u16, number: u64, out: &mut Vec<u8>) -> Result<(), AllocError>
    ensures ok { OnOk result (out.new.items ≡ out.old.items ++ (to_be_bytes w16 source ++ to_be_bytes w64 number)) }
    ensures err { OnErr result (out.new.items ≡ out.old.items) }
    ensures room { length out.old.items + 10 ≤ vec_capacity out.old → IsOk result }
    ensures capacity { vec_capacity out.old ≤ vec_capacity out.new }
{
    let source = source.to_be_bytes();
    let number = number.to_be_bytes();
    out.extend_from_slice(&[
        source[0], source[1], number[0], number[1], number[2], number[3], number[4], number[5],
        number[6], number[7],
    ])
}

/// Appends an event's kind, thread and operands. An `Err` changes nothing.
pub fn put_event(event: &Event, out: &mut Vec<u8>) -> Result<(), AllocError>
    ensures ok { OnOk result (out.new.items ≡ out.old.items ++ event_text event.now) }
    ensures err { OnErr result (out.new.items ≡ out.old.items) }
    ensures room { length out.old.items + 15 ≤ vec_capacity out.old → IsOk result }
    ensures capacity { vec_capacity out.old ≤ vec_capacity out.new }
    ensures fits { EventFits event.now }
{
    match event {
        Event::Fork { p, c } => put_pair(1, *p, *c, out),
        Event::Join { p, c } => put_pair(2, *p, *c, out),
        Event::Lock { t, l } => put_pair(3, *t, *l, out),
        Event::RdLock { t, l } => put_pair(4, *t, *l, out),
        Event::Unlock { t, l } => put_pair(5, *t, *l, out),
        Event::Read(access) => put_access(6, *access, out),
        Event::Write(access) => put_access(7, *access, out),
        Event::Alloc(block) => put_block(8, 12, *block, out),
        Event::Free(block) => put_block(9, 13, *block, out),
        Event::Send { t, k } => put_message(10, *t, *k, out),
        Event::Recv { t, k } => put_message(11, *t, *k, out),
    }
}

fn put_pair(kind: u8, t: u16, n: u16, out: &mut Vec<u8>) -> Result<(), AllocError>
    ensures ok { OnOk result (out.new.items ≡ out.old.items ++ (kind ∷ pair_text t n)) }
    ensures err { OnErr result (out.new.items ≡ out.old.items) }
    ensures room { length out.old.items + 5 ≤ vec_capacity out.old → IsOk result }
    ensures capacity { vec_capacity out.old ≤ vec_capacity out.new }
    ensures fits { PairFits t n }
{
    let t = t.to_be_bytes();
    let n = n.to_be_bytes();
    out.extend_from_slice(&[kind, t[0], t[1], n[0], n[1]])
}

fn put_access(kind: u8, access: Access, out: &mut Vec<u8>) -> Result<(), AllocError>
    ensures ok { OnOk result (out.new.items ≡ out.old.items ++ (kind ∷ access_text access)) }
    ensures err { OnErr result (out.new.items ≡ out.old.items) }
    ensures room { length out.old.items + 12 ≤ vec_capacity out.old → IsOk result }
    ensures capacity { vec_capacity out.old ≤ vec_capacity out.new }
    ensures fits { AccessFits access }
{
    let t = access.t.to_be_bytes();
    let at = access.at.to_be_bytes();
    out.extend_from_slice(&[
        kind, t[0], t[1], at[0], at[1], at[2], at[3], at[4], at[5], at[6], at[7], access.len,
    ])
}

/// The kind is `short` where the block's length fits 16 bits, and else `long`.
fn put_block(short: u8, long: u8, block: Block, out: &mut Vec<u8>) -> Result<(), AllocError>
    ensures ok { OnOk result (out.new.items ≡ out.old.items ++ by_length short long block) }
    ensures err { OnErr result (out.new.items ≡ out.old.items) }
    ensures room { length out.old.items + 15 ≤ vec_capacity out.old → IsOk result }
    ensures capacity { vec_capacity out.old ≤ vec_capacity out.new }
    ensures fits { BlockFits block }
{
    let t = block.t.to_be_bytes();
    let at = block.at.to_be_bytes();
    let len = block.len.to_be_bytes();
    if block.len <= u32::from(u16::MAX) {
        return out.extend_from_slice(&[
            short, t[0], t[1], at[0], at[1], at[2], at[3], at[4], at[5], at[6], at[7], len[2],
            len[3],
        ]);
    }
    out.extend_from_slice(&[
        long, t[0], t[1], at[0], at[1], at[2], at[3], at[4], at[5], at[6], at[7], len[0], len[1],
        len[2], len[3],
    ])
}

fn put_message(kind: u8, t: u16, k: u32, out: &mut Vec<u8>) -> Result<(), AllocError>
    ensures ok { OnOk result (out.new.items ≡ out.old.items ++ (kind ∷ message_text t k)) }
    ensures err { OnErr result (out.new.items ≡ out.old.items) }
    ensures room { length out.old.items + 7 ≤ vec_capacity out.old → IsOk result }
    ensures capacity { vec_capacity out.old ≤ vec_capacity out.new }
    ensures fits { MessageFits t k }
{
    let t = t.to_be_bytes();
    let k = k.to_be_bytes();
    out.extend_from_slice(&[kind, t[0], t[1], k[0], k[1], k[2], k[3]])
}
