//! Rebuilding what a graph keeps beside its segments.

ghost use Rattle.std.specs.Prelude.{◌≡◌, ◌==◌, ◌+◌, ◌<◌, ◌≤◌, ◌∷◌, [], ℕ, if◌then◌else◌, length, slice_index, slice_index_or, take, IfOk, OnOk};
ghost use Rattle.hg_model.specs.Paths.{before as before_of};
ghost use Rattle.hg_graph.specs.Clocks.{AreClocks};
ghost use Rattle.hg_graph.specs.Kept.{ArePresent};
ghost use Rattle.hg_graph.specs.Needed.{AreApart, AreBehind, AreEnds, AreLastUses, AreMoved, AreNeeded, AreUses};
ghost use Rattle.hg_graph.specs.Pending.{AreKept, ArePending};
ghost use Rattle.hg_graph.specs.Restoring.{AreSegments};

use crate::clock::Clock;
use crate::pending::PendingTable;
use hg_model::limits::{MOST_SEGMENTS, THREAD_NUMBERS};
use hg_model::segment::{Mark, Segment};
use std::alloc::{AllocError, Global};
use std::mem::replace;

/// The present segment of each thread, and 0 where it has none.
pub(crate) fn present_segments(alloc: Global, segments: &[Segment]) -> Result<Vec<u32>, AllocError>
    requires few { length segments.now ≤ MOST_SEGMENTS }
    requires lawful { AreSegments segments.now }
    ensures rows { IfOk result (λ table. length table.items ≡ THREAD_NUMBERS) }
    ensures each { IfOk result (λ table. ArePresent segments.now table.items) }
{
    let mut table = vec![in alloc; 0; THREAD_NUMBERS]?;
    for number in 0..segments.len() {
        table[usize::from(segments[number].thread)] = number as u32;
    }
    Ok(table)
}

/// The clock of the present segment of each thread. Each segment's is made from those of its predecessors, and let go
/// behind the last segment that needs it. What the messages need is kept meanwhile.
pub(crate) fn present_clocks(
    alloc: Global,
    segments: &[Segment],
    present: &[u32],
    pending: &mut PendingTable,
) -> Result<Vec<Clock>, AllocError>
    requires some { 0 < length segments.now }
    requires few { length segments.now ≤ MOST_SEGMENTS }
    requires lawful { AreSegments segments.now }
    requires rows { length present.now ≡ THREAD_NUMBERS }
    requires each { ArePresent segments.now present.now }
    requires none { pending.old ≡ [] }
    ensures clocks { IfOk result (λ clocks. AreClocks segments.now clocks.items) }
    ensures pending { OnOk result (ArePending segments.now pending.new) }
{
    let late = last_uses(alloc, segments, present)?;
    let clocks = needed_clocks(alloc, segments, late.as_slice(), pending)?;
    Ok(by_thread(alloc, present, clocks)?)
}

/// The last use of each segment's clock: the last segment that it stands right before, or the number of all segments
/// where it is the present one of its thread.
fn last_uses(alloc: Global, segments: &[Segment], present: &[u32]) -> Result<Vec<u32>, AllocError>
    requires some { 0 < length segments.now }
    requires few { length segments.now ≤ MOST_SEGMENTS }
    requires lawful { AreSegments segments.now }
    requires rows { length present.now ≡ THREAD_NUMBERS }
    requires each { ArePresent segments.now present.now }
    ensures { IfOk result (λ late. AreLastUses segments.now late.items) }
{
    let mut late = uses(alloc, segments)?;
    for t in 0..THREAD_NUMBERS {
        late[present[t] as usize] = segments.len() as u32;
    }
    Ok(late)
}

/// For each segment the last one that it stands right before, 0 where there is none.
fn uses(alloc: Global, segments: &[Segment]) -> Result<Vec<u32>, AllocError>
    requires few { length segments.now ≤ MOST_SEGMENTS }
    requires lawful { AreSegments segments.now }
    ensures { IfOk result (λ late. AreUses segments.now (length segments.now) late.items) }
{
    let mut late = vec![in alloc; 0; segments.len()]?;
    for number in 1..segments.len() {
        let (a, b) = ends(segments, number);
        late[a] = number as u32;
        late[b] = number as u32;
    }
    Ok(late)
}

/// The first and the last of the predecessors of a segment behind segment 0.
fn ends(segments: &[Segment], number: usize) -> (usize, usize)
    requires some { 0 < number }
    requires within { number < length segments.now }
    requires lawful { AreSegments segments.now }
    ensures ends { AreEnds (before_of segments.now number) result.0 result.1 }
    ensures begin { result.0 ≡ slice_index (before_of segments.now number) 0 }
    ensures first { result.0 < number }
    ensures last { result.1 < number }
{
    let before = segments[number].before.as_slice();
    (before[0] as usize, before[before.len() - 1] as usize)
}

/// The clock of each segment that is needed at the end. What stands for each other is not told. What the messages need
/// is kept.
fn needed_clocks(
    alloc: Global,
    segments: &[Segment],
    late: &[u32],
    pending: &mut PendingTable,
) -> Result<Vec<Clock>, AllocError>
    requires some { 0 < length segments.now }
    requires few { length segments.now ≤ MOST_SEGMENTS }
    requires lawful { AreSegments segments.now }
    requires late { AreLastUses segments.now late.now }
    requires none { pending.old ≡ [] }
    ensures clocks { IfOk result (λ clocks. AreNeeded segments.now late.now (length segments.now) clocks.items) }
    ensures pending { OnOk result (ArePending segments.now pending.new) }
{
    let mut clocks = Vec::with_capacity(alloc, segments.len())?;
    clocks.push(Clock::first(alloc)?)?;
    for number in 1..segments.len() {
        note_message(alloc, segments, number, clocks.as_slice(), pending)?;
        push_clock(alloc, segments, late, number, &mut clocks)?;
    }
    Ok(clocks)
}

/// Keeps what a message needs that the segment sends, and lets go of one that it receives. The clocks are those of the
/// segments before it.
fn note_message(
    alloc: Global,
    segments: &[Segment],
    number: usize,
    clocks: &[Clock],
    pending: &mut PendingTable,
) -> Result<(), AllocError>
    requires some { 0 < number }
    requires within { number < length segments.now }
    requires few { length segments.now ≤ MOST_SEGMENTS }
    requires lawful { AreSegments segments.now }
    requires clocks { AreBehind segments.now number clocks.now }
    requires pending { AreKept segments.now (take number segments.now) pending.old }
    ensures { OnOk result (AreKept segments.now (take (number + 1) segments.now) pending.new) }
{
    match segments[number].mark {
        Mark::Plain => {}
        Mark::Sent(message) => {
            let (ended, _) = ends(segments, number);
            pending.add(alloc, message, ended as u32, &clocks[ended])?;
        }
        Mark::Got(message) => pending.take_out(message),
    }
    Ok(())
}

/// Adds the clock of a segment, made from those of its predecessors, and lets go of theirs where it was the last use.
fn push_clock(
    alloc: Global,
    segments: &[Segment],
    late: &[u32],
    number: usize,
    clocks: &mut Vec<Clock>,
) -> Result<(), AllocError>
    requires some { 0 < number }
    requires within { number < length segments.now }
    requires few { length segments.now ≤ MOST_SEGMENTS }
    requires lawful { AreSegments segments.now }
    requires late { AreLastUses segments.now late.now }
    requires clocks { AreNeeded segments.now late.now number clocks.old.items }
    ensures { IfOk result (λ done. AreNeeded segments.now late.now (number + 1) clocks.new.items) }
{
    let (a, b) = ends(segments, number);
    let thread = usize::from(segments[number].thread);
    let clock = Clock::greater(alloc, &clocks[a], &clocks[b], thread, number as u32 + 1)?;
    let_go(alloc, late[a], number, &mut clocks[a]);
    let_go(alloc, late[b], number, &mut clocks[b]);
    clocks.push(clock)?;
    Ok(())
}

/// Lets go of a clock at its last use.
fn let_go(alloc: Global, late: u32, number: usize, clock: &mut Clock)
    ensures { number < late → clock.new ≡ clock.old }
{
    if late as usize <= number {
        *clock = Clock::none(alloc);
    }
}

/// Moves the clock of each present segment to the place of its thread.
fn by_thread(
    alloc: Global,
    present: &[u32],
    mut clocks: Vec<Clock>,
) -> Result<Vec<Clock>, AllocError>
    requires rows { length present.now ≡ THREAD_NUMBERS }
    requires within { (t : ℕ) → t < THREAD_NUMBERS → slice_index_or present.now t 0 < length clocks.items }
    requires apart { AreApart present.now }
    ensures { IfOk result (λ moved. AreMoved present.now clocks.items moved.items) }
{
    let mut moved = Vec::with_capacity(alloc, THREAD_NUMBERS)?;
    for t in 0..THREAD_NUMBERS {
        let place = present[t] as usize;
        let clock = take_clock(alloc, place, &mut clocks[place])?;
        moved.push(clock)?;
    }
    Ok(moved)
}

/// Takes the clock of a segment. That of segment 0, which many threads need, is made anew.
fn take_clock(alloc: Global, place: usize, clock: &mut Clock) -> Result<Clock, AllocError>
    ensures { IfOk result (λ taken. taken ≡ (if place == 0 then 1 ∷ [] else clock.old)) }
{
    if place == 0 {
        return Clock::first(alloc);
    }
    Ok(replace(clock, Clock::none(alloc)))
}
