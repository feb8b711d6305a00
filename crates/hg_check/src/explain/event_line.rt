//! The line of an event.

ghost use Rattle.std.specs.Prelude.{◌≡◌, ◌++◌, ◌+◌, ◌*◌, ◌<◌, ◌^◌, IfErr, length};
ghost use Rattle.std.specs.Fmt.{decimal};
ghost use Rattle.hg_detect.specs.Memory.{IsWhole, content_of};
ghost use Rattle.hg_check.specs.Holding.{HasOwnerBelow, HoldsMore, event_text, interned_text};
ghost use Rattle.hg_check.specs.Life as life;

use crate::explain::form::{Asked, Form};
use crate::explain::look::{Look, is_bare, look_at};
use crate::explain::owner::hold_owner;
use crate::explain::pieces::{hold, hold_all, hold_members, hold_number, hold_two};
use hg_cells::Cell;
use hg_cells::words::Words;
use hg_detect::memory::MemoryDetector;
use hg_model::event::Event;
use hg_model::limits::THREAD_NUMBERS;
use hg_model::verdict::Refusal;
use itoa::Buffer;

/// An event that was accepted just now, with what stood before it.
#[derive(Clone, Copy, Debug, PartialEq, Eq, Drop)]
pub struct Accepted {
    /// How the word looked before it.
    pub before: Look,
    /// How many reports were kept before it.
    pub kept: usize,
    /// The number of its line.
    pub line: u64,
    pub event: Event,
}

/// Holds a thread and its segment behind what it did.
fn hold_place(
    detector: &MemoryDetector,
    verb: &[u8],
    t: u16,
    held: &mut Vec<u8>,
) -> Result<(), Refusal>
    requires { t < THREAD_NUMBERS }
    ensures ok { HoldsMore result held.old held.new (verb.now ++ life.place_text (content_of detector.now) t) }
    ensures cause { IfErr result (λ r. r ≡ Refusal.OutOfMemory) }
{
    let mut thread = Buffer::new();
    let mut segment = Buffer::new();
    let pieces = [
        verb,
        b" thread ".as_slice(),
        thread.format(t).as_bytes(),
        b" segment ".as_slice(),
        segment.format(detector.graph().present(t)).as_bytes(),
    ];
    hold_all(&pieces, held)
}

/// Holds an access: its thread, the thread's segment, and the locks that count.
fn hold_access(
    detector: &MemoryDetector,
    write: bool,
    t: u16,
    held: &mut Vec<u8>,
) -> Result<(), Refusal>
    requires { t < THREAD_NUMBERS }
    ensures ok { HoldsMore result held.old held.new (life.access_text (content_of detector.now) write t) }
    ensures cause { IfErr result (λ r. r ≡ Refusal.OutOfMemory) }
{
    let verb = if write {
        b" write".as_slice()
    } else {
        b" read".as_slice()
    };
    hold_place(detector, verb, t, held)?;
    hold(b" locks ", held)?;
    hold_members(detector.state().counted(t, write), held)
}

/// Holds who acts.
fn hold_acts(detector: &MemoryDetector, event: &Event, held: &mut Vec<u8>) -> Result<(), Refusal>
    requires { life.actor_of event.now < THREAD_NUMBERS }
    ensures ok { HoldsMore result held.old held.new (life.acts_text (content_of detector.now) event.now) }
    ensures cause { IfErr result (λ r. r ≡ Refusal.OutOfMemory) }
{
    match event {
        Event::Read(access) => hold_access(detector, false, access.t, held),
        Event::Write(access) => hold_access(detector, true, access.t, held),
        Event::Alloc(block) => hold_place(detector, b" alloc", block.t, held),
        Event::Free(block) => hold_place(detector, b" free", block.t, held),
        _ => Ok(()),
    }
}

/// Holds the sets of a word that is shared.
fn hold_sets(
    detector: &MemoryDetector,
    kind: &[u8],
    threads: u32,
    locks: u32,
    held: &mut Vec<u8>,
) -> Result<(), Refusal>
    requires threads { threads < length detector.now.sets.sets }
    requires locks { locks < length detector.now.sets.sets }
    ensures ok { HoldsMore result held.old held.new (interned_text kind.now detector.now.sets.sets threads locks) }
    ensures cause { IfErr result (λ r. r ≡ Refusal.OutOfMemory) }
{
    let sets = detector.sets();
    hold(kind, held)?;
    hold_members(sets.members(threads), held)?;
    hold(b" candidates ", held)?;
    hold_members(sets.members(locks), held)
}

/// Holds the state of a word.
pub(crate) fn hold_state(
    detector: &MemoryDetector,
    word: u64,
    held: &mut Vec<u8>,
) -> Result<(), Refusal>
    requires whole { IsWhole detector.now }
    ensures ok { HoldsMore result held.old held.new (life.state_text ((content_of detector.now).words word)) }
    ensures cause { IfErr result (λ r. r ≡ Refusal.OutOfMemory) }
{
    match detector.words().get(word) {
        Cell::New => hold(b" state new", held),
        Cell::Exclusive(segment) => {
            hold_number(b" state exclusive segment ", u64::from(segment), held)
        }
        Cell::SharedRead(threads, locks) => {
            hold_sets(
                detector,
                b" state shared-read threads ",
                threads,
                locks,
                held,
            )
        }
        Cell::SharedModified(threads, locks) => {
            hold_sets(
                detector,
                b" state shared-modified threads ",
                threads,
                locks,
                held,
            )
        }
    }
}

/// Holds what became of the state, where the present segment of the acting thread is `segment`.
fn hold_change(
    detector: &MemoryDetector,
    before: Look,
    after: Look,
    segment: u32,
    held: &mut Vec<u8>,
) -> Result<(), Refusal>
    requires { HasOwnerBelow (length detector.now.segments) after }
    ensures ok { HoldsMore result held.old held.new (life.change_text detector.now.segments before after segment) }
    ensures cause { IfErr result (λ r. r ≡ Refusal.OutOfMemory) }
{
    match (before, after) {
        (Look::Fresh, _) => Ok(()),
        (_, Look::Fresh) => hold(b" ; new again", held),
        (Look::Owned(owner), Look::Owned(next)) => hold_owner(detector, owner, next, held),
        (Look::Owned(owner), _) => hold_two(
            b" ; shared from here on: segment ",
            owner,
            b" does not reach segment ",
            segment,
            held,
        ),
        _ => Ok(()),
    }
}

/// Holds that the last candidate lock is gone, where it is.
fn hold_bare(before: Look, after: Look, held: &mut Vec<u8>) -> Result<(), Refusal>
    ensures ok { HoldsMore result held.old held.new (life.bare_text before after) }
    ensures cause { IfErr result (λ r. r ≡ Refusal.OutOfMemory) }
{
    if is_bare(after) && !is_bare(before) {
        return hold(b" ; no common lock is left", held);
    }
    Ok(())
}

/// Holds the number of the word's report among those that are kept from an index on.
fn hold_race(
    detector: &MemoryDetector,
    from: usize,
    word: u64,
    held: &mut Vec<u8>,
) -> Result<(), Refusal>
    requires { word < 2 ^ 62 }
    ensures ok { HoldsMore result held.old held.new (life.new_race_text from word (content_of detector.now)) }
    ensures cause { IfErr result (λ r. r ≡ Refusal.OutOfMemory) }
{
    let address = 4 * word;
    let kept = detector.kept_reports();
    for index in from..kept.len() {
        if kept[index].word == address {
            return hold_number(b" ; race ", index as u64 + 1, held);
        }
    }
    Ok(())
}

/// Holds the line of an event that was accepted just now.
pub fn hold_event(
    asked: Asked,
    detector: &MemoryDetector,
    accepted: &Accepted,
    held: &mut Vec<u8>,
) -> Result<(), Refusal>
    requires whole { IsWhole detector.now }
    requires word { asked.word < 2 ^ 62 }
    requires actor { life.actor_of accepted.now.event < THREAD_NUMBERS }
    ensures ok { HoldsMore result held.old held.new (event_text asked accepted.now (content_of detector.now)) }
    ensures cause { IfErr result (λ r. r ≡ Refusal.OutOfMemory) }
{
    let event = &accepted.event;
    hold_front(detector, asked.form, accepted.line, held)?;
    hold_acts(detector, event, held)?;
    hold_state(detector, asked.word, held)?;
    hold_changes(detector, asked.word, accepted.before, actor_of(event), held)?;
    hold_race(detector, accepted.kept, asked.word, held)?;
    hold(b"\n", held)
}

/// Holds the number of an event, and of its line where lines are told.
fn hold_front(
    detector: &MemoryDetector,
    form: Form,
    line: u64,
    held: &mut Vec<u8>,
) -> Result<(), Refusal>
    ensures ok { HoldsMore result held.old held.new (life.front_text form (content_of detector.now) line) }
    ensures cause { IfErr result (λ r. r ≡ Refusal.OutOfMemory) }
{
    hold_number(b"event ", detector.state().events(), held)?;
    if form.lines {
        return hold_number(b" line ", line, held);
    }
    Ok(())
}

/// Holds what became of a word's state.
fn hold_changes(
    detector: &MemoryDetector,
    word: u64,
    before: Look,
    t: u16,
    held: &mut Vec<u8>,
) -> Result<(), Refusal>
    requires whole { IsWhole detector.now }
    requires actor { t < THREAD_NUMBERS }
    ensures ok { HoldsMore result held.old held.new (life.changes_of before word (content_of detector.now) t) }
    ensures cause { IfErr result (λ r. r ≡ Refusal.OutOfMemory) }
{
    let after = look_at(detector, word);
    let segment = detector.graph().present(t);
    hold_change(detector, before, after, segment, held)?;
    hold_bare(before, after, held)
}

/// The thread of an access or a block.
fn actor_of(event: &Event) -> u16
    ensures { result ≡ life.actor_of event.now }
{
    match event {
        Event::Read(access) | Event::Write(access) => access.t,
        Event::Alloc(block) | Event::Free(block) => block.t,
        _ => 0,
    }
}

/// Holds how many accesses were not shown.
pub fn hold_more(more: u64, held: &mut Vec<u8>) -> Result<(), Refusal>
    ensures ok { HoldsMore result held.old held.new (life.more_text more) }
    ensures cause { IfErr result (λ r. r ≡ Refusal.OutOfMemory) }
{
    if more == 0 {
        return Ok(());
    }
    let mut count = Buffer::new();
    let pieces = [
        count.format(more).as_bytes(),
        b" more accesses\n".as_slice(),
    ];
    hold_all(&pieces, held)
}
