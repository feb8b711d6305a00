//! The verdict on an offered event.

ghost use Rattle.std.specs.Prelude.{◌≡◌, Bool, false, [], ◌∷◌};
ghost use Rattle.hg_model.specs.Contents.{Content};
ghost use Rattle.hg_model.specs.Parts.{HasParts};
ghost use Rattle.hg_rules.specs.Judging.{IsFirstCause};
ghost use Rattle.hg_model.specs.Verdicts as rules;
ghost use Rattle.hg_model.specs.Change.{accepts, is_accept};
ghost use Rattle.hg_model.specs.Accessing.{access_named};
ghost use Rattle.hg_model.specs.Holding.{hold_event, hold_named};

use crate::state::TraceState;
use hg_model::event::{Access, Block, Event, Hold, HoldKind, Named};
use hg_model::limits::{
    GREATEST_ACCESS, GREATEST_BLOCK, GREATEST_SOURCE, GREATEST_THREAD, MOST_EVENTS, MOST_SEGMENTS,
};
use hg_model::verdict::{Refusal, Verdict};

/// The verdict on `named` as the next event, in any content with the parts of this state.
#[inline(always)]
pub fn judge(state: &TraceState, named: &Named) -> Verdict
    ensures { (c : Content) → HasParts c state.now → result ≡ rules.verdict (rules.standing_of c) named.now }
{
    judge_standing(state, named)
}

/// Whether the verdict on `named` as the next event is Accept.
#[inline(always)]
pub fn admits(state: &TraceState, named: &Named) -> bool
    ensures { result ≡ accepts state.now named.now }
{
    is_accepting(judge_standing(state, named))
}

#[inline(always)]
fn judge_standing(state: &TraceState, named: &Named) -> Verdict
    ensures { result ≡ rules.verdict (rules.standing state.now) named.now }
{
    let last = state.last(named.source);
    if named.number <= last {
        return Verdict::Duplicate(last);
    }
    if named.number - last > 1 {
        return Verdict::Refuse(Refusal::Gap(last + 1));
    }
    judge_event(state, named)
}

/// Whether the verdict on this access of this source under this number is Accept. A read and a write are judged alike.
#[inline(always)]
pub fn admits_access(state: &TraceState, source: u16, number: u64, access: &Access) -> bool
    ensures { (write : Bool) → result ≡ accepts state.now (access_named source number write access.now) }
{
    is_accepting(judge_read(state, source, number, access))
}

#[inline(always)]
fn judge_read(state: &TraceState, source: u16, number: u64, access: &Access) -> Verdict
    ensures { result ≡ rules.verdict (rules.standing state.now) (access_named source number false access.now) }
{
    let before = state.last(source);
    if number <= before {
        return Verdict::Duplicate(before);
    }
    if number - before > 1 {
        return Verdict::Refuse(Refusal::Gap(before + 1));
    }
    judge_access(state, source, access)
}

/// Whether the verdict on this hold of this source under this number is Accept.
#[inline(always)]
pub fn admits_hold(state: &TraceState, source: u16, number: u64, hold: Hold) -> bool
    ensures { result ≡ accepts state.now (hold_named source number hold) }
{
    is_accepting(judge_hold(state, source, number, hold))
}

#[inline(always)]
fn judge_hold(state: &TraceState, source: u16, number: u64, hold: Hold) -> Verdict
    ensures { result ≡ rules.verdict (rules.standing state.now) (hold_named source number hold) }
{
    let before = state.last(source);
    if number <= before {
        return Verdict::Duplicate(before);
    }
    if number - before > 1 {
        return Verdict::Refuse(Refusal::Gap(before + 1));
    }
    judge_on_lock(state, source, hold)
}

/// The first cause that applies to a hold under the next number of its source.
#[inline(always)]
fn judge_on_lock(state: &TraceState, source: u16, hold: Hold) -> Verdict
    ensures { IsFirstCause state.now source (hold_event hold) result }
{
    match hold.kind {
        HoldKind::Lock => judge_lock(state, source, hold.t, hold.l),
        HoldKind::RdLock => judge_read_lock(state, source, hold.t, hold.l),
        HoldKind::Unlock => judge_unlock(state, source, hold.t, hold.l),
    }
}

#[inline(always)]
fn is_accepting(verdict: Verdict) -> bool
    ensures { result ≡ is_accept verdict }
{
    match verdict {
        Verdict::Accept => true,
        _ => false,
    }
}

/// The first cause that applies to an event under the next number of its source.
#[inline(always)]
fn judge_event(state: &TraceState, named: &Named) -> Verdict
    ensures { result ≡ rules.first_cause (rules.causes (rules.standing state.now) named.now) }
{
    let source = named.source;
    match &named.event {
        Event::Fork { p, c } => judge_fork(state, source, *p, *c),
        Event::Join { p, c } => judge_join(state, source, *p, *c),
        Event::Lock { t, l } => judge_lock(state, source, *t, *l),
        Event::RdLock { t, l } => judge_read_lock(state, source, *t, *l),
        Event::Unlock { t, l } => judge_unlock(state, source, *t, *l),
        Event::Read(access) => judge_access(state, source, access),
        Event::Write(access) => judge_access(state, source, access),
        Event::Alloc(block) => judge_block(state, source, block),
        Event::Free(block) => judge_block(state, source, block),
        Event::Send { t, k } => judge_send(state, source, *t, *k),
        Event::Recv { t, k } => judge_recv(state, source, *t, *k),
    }
}

#[inline]
fn judge_fork(state: &TraceState, source: u16, p: u16, c: u16) -> Verdict
    ensures { IsFirstCause state.now source (Event.Fork p c) result }
{
    let threads = &state.threads;
    if source > GREATEST_SOURCE || p > GREATEST_THREAD || c > GREATEST_THREAD {
        return Verdict::Refuse(Refusal::BadNumber);
    }
    if !threads.is_alive(p) {
        return Verdict::Refuse(Refusal::NoThread);
    }
    if threads.is_used(c) {
        return Verdict::Refuse(Refusal::ChildUsed);
    }
    if u64::from(state.segments()) + 2 > u64::from(MOST_SEGMENTS) {
        return Verdict::Refuse(Refusal::FullSegments);
    }
    judge_room(state)
}

#[inline]
fn judge_join(state: &TraceState, source: u16, p: u16, c: u16) -> Verdict
    ensures { IsFirstCause state.now source (Event.Join p c) result }
{
    let threads = &state.threads;
    if source > GREATEST_SOURCE || p > GREATEST_THREAD || c > GREATEST_THREAD {
        return Verdict::Refuse(Refusal::BadNumber);
    }
    if !threads.is_alive(p) {
        return Verdict::Refuse(Refusal::NoThread);
    }
    if p == c {
        return Verdict::Refuse(Refusal::SelfJoin);
    }
    if !threads.is_alive(c) {
        return Verdict::Refuse(Refusal::ChildNotAlive);
    }
    if threads.holds_some(c) {
        return Verdict::Refuse(Refusal::ChildHoldsLocks);
    }
    if u64::from(state.segments()) + 1 > u64::from(MOST_SEGMENTS) {
        return Verdict::Refuse(Refusal::FullSegments);
    }
    judge_room(state)
}

#[inline(always)]
fn judge_lock(state: &TraceState, source: u16, t: u16, l: u16) -> Verdict
    ensures { IsFirstCause state.now source (Event.Lock t l) result }
{
    let threads = &state.threads;
    if source > GREATEST_SOURCE || t > GREATEST_THREAD {
        return Verdict::Refuse(Refusal::BadNumber);
    }
    if !threads.is_alive(t) {
        return Verdict::Refuse(Refusal::NoThread);
    }
    if threads.holds(t, l) {
        return Verdict::Refuse(Refusal::AlreadyHeld);
    }
    if threads.is_held(l) {
        return Verdict::Refuse(Refusal::LockBusy);
    }
    if threads.holds_most(t) {
        return Verdict::Refuse(Refusal::FullHeld);
    }
    judge_room(state)
}

#[inline(always)]
fn judge_read_lock(state: &TraceState, source: u16, t: u16, l: u16) -> Verdict
    ensures { IsFirstCause state.now source (Event.RdLock t l) result }
{
    let threads = &state.threads;
    if source > GREATEST_SOURCE || t > GREATEST_THREAD {
        return Verdict::Refuse(Refusal::BadNumber);
    }
    if !threads.is_alive(t) {
        return Verdict::Refuse(Refusal::NoThread);
    }
    if threads.holds(t, l) {
        return Verdict::Refuse(Refusal::AlreadyHeld);
    }
    if threads.is_held_for_writing(l) {
        return Verdict::Refuse(Refusal::LockBusy);
    }
    if threads.holds_most(t) {
        return Verdict::Refuse(Refusal::FullHeld);
    }
    judge_room(state)
}

#[inline(always)]
fn judge_unlock(state: &TraceState, source: u16, t: u16, l: u16) -> Verdict
    ensures { IsFirstCause state.now source (Event.Unlock t l) result }
{
    let threads = &state.threads;
    if source > GREATEST_SOURCE || t > GREATEST_THREAD {
        return Verdict::Refuse(Refusal::BadNumber);
    }
    if !threads.is_alive(t) {
        return Verdict::Refuse(Refusal::NoThread);
    }
    if !threads.holds(t, l) {
        return Verdict::Refuse(Refusal::NotHeld);
    }
    judge_room(state)
}

#[inline(always)]
fn judge_access(state: &TraceState, source: u16, access: &Access) -> Verdict
    ensures read { IsFirstCause state.now source (Event.Read access.now) result }
    ensures write { IsFirstCause state.now source (Event.Write access.now) result }
{
    if source > GREATEST_SOURCE || access.t > GREATEST_THREAD {
        return Verdict::Refuse(Refusal::BadNumber);
    }
    if access.len == 0 || access.len > GREATEST_ACCESS {
        return Verdict::Refuse(Refusal::BadLength);
    }
    if passes_end(access.at, u32::from(access.len)) {
        return Verdict::Refuse(Refusal::AddressEnd);
    }
    if !state.threads.is_alive(access.t) {
        return Verdict::Refuse(Refusal::NoThread);
    }
    judge_room(state)
}

#[inline(always)]
fn judge_block(state: &TraceState, source: u16, block: &Block) -> Verdict
    ensures alloc { IsFirstCause state.now source (Event.Alloc block.now) result }
    ensures free { IsFirstCause state.now source (Event.Free block.now) result }
{
    if source > GREATEST_SOURCE || block.t > GREATEST_THREAD {
        return Verdict::Refuse(Refusal::BadNumber);
    }
    if block.len == 0 || block.len > GREATEST_BLOCK {
        return Verdict::Refuse(Refusal::BadLength);
    }
    if passes_end(block.at, block.len) {
        return Verdict::Refuse(Refusal::AddressEnd);
    }
    if !state.threads.is_alive(block.t) {
        return Verdict::Refuse(Refusal::NoThread);
    }
    judge_room(state)
}

#[inline]
fn judge_send(state: &TraceState, source: u16, t: u16, k: u32) -> Verdict
    ensures { IsFirstCause state.now source (Event.Send t k) result }
{
    if source > GREATEST_SOURCE || t > GREATEST_THREAD {
        return Verdict::Refuse(Refusal::BadNumber);
    }
    if !state.threads.is_alive(t) {
        return Verdict::Refuse(Refusal::NoThread);
    }
    if state.messages.is_sent(k) {
        return Verdict::Refuse(Refusal::MessageUsed);
    }
    if u64::from(state.segments()) + 1 > u64::from(MOST_SEGMENTS) {
        return Verdict::Refuse(Refusal::FullSegments);
    }
    judge_room(state)
}

#[inline]
fn judge_recv(state: &TraceState, source: u16, t: u16, k: u32) -> Verdict
    ensures { IsFirstCause state.now source (Event.Recv t k) result }
{
    if source > GREATEST_SOURCE || t > GREATEST_THREAD {
        return Verdict::Refuse(Refusal::BadNumber);
    }
    if !state.threads.is_alive(t) {
        return Verdict::Refuse(Refusal::NoThread);
    }
    match state.messages.received(k) {
        None => return Verdict::Refuse(Refusal::NotSent),
        Some(true) => return Verdict::Refuse(Refusal::MessageTaken),
        Some(false) => {}
    }
    if u64::from(state.segments()) + 1 > u64::from(MOST_SEGMENTS) {
        return Verdict::Refuse(Refusal::FullSegments);
    }
    judge_room(state)
}

/// The last cause, tested once no other applies: the trace is full.
#[inline(always)]
fn judge_room(state: &TraceState) -> Verdict
    ensures { result ≡ rules.first_cause ((rules.full_events state.now.events, Refusal.FullEvents) ∷ []) }
{
    if state.events() >= MOST_EVENTS {
        return Verdict::Refuse(Refusal::FullEvents);
    }
    Verdict::Accept
}

#[inline(always)]
fn passes_end(at: u64, len: u32) -> bool
    ensures { result ≡ rules.passes_end at len }
{
    u128::from(at) + u128::from(len) > 18_446_744_073_709_551_616
}
