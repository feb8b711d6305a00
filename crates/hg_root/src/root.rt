//! A root, as its body spells it.
ghost use Rattle.std.specs.Prelude.{◌≡◌, ◌↔◌, ◌≤◌, ◌^◌, ◌++◌, ◌∷◌, [], All, OnOk, if◌then◌else◌, IsTrue, IsErrOf, length, map, IfErr, IfOk};
ghost use Rattle.hg_model.specs.Messages.{Agrees};
ghost use Rattle.hg_model.specs.Restoring.{AreThreads};
ghost use Rattle.hg_sets.specs.Interning.{AreSets};
ghost use Rattle.hg_root.specs.Body.{seen};
ghost use Rattle.hg_root.specs.Checking.{AreCounts, HaveLast, IsChecked, parts_read};
ghost use Rattle.hg_root.specs.Roots.{IsWhole, parts_of};
ghost use Rattle.hg_root.specs.Fault.{IsDamagedOrMemory};
ghost use Rattle.hg_root.specs.Last.{ForTable, IsLastTable};
ghost use Rattle.hg_root.specs.Lawful.{AreInOrder, HaveSent, HaveSlots, IsReport, IsRoot, named_threads};
ghost use Rattle.hg_root.specs.Parts.{Parts};

use crate::body::{Back, Front, back_of, front_of, middle_of};
use crate::fault::RootFault;
use crate::lasts::lasts_of;
use crate::parts::{PageSlot, SourceCount};
use crate::rules::{are_in_order, are_pages, are_reports, are_sources};
use hg_cells::KeptReport;
use hg_model::limits::{
    GREATEST_SOURCE, MOST_ACCESS_WORDS, MOST_EVENTS, MOST_REPORTS, MOST_SEGMENTS, SOURCE_NUMBERS,
    THREAD_NUMBERS,
};
use hg_model::segment::Segment;
use hg_model::sets::NumberSet;
use hg_model::thread::ThreadState;
use hg_model::verdict::Refusal;
use hg_rules::messages::MessageTable;
use hg_rules::state::TraceState;
use hg_sets::{MOST_SETS, SetTable};
use std::alloc::{AllocError, Global};

/// How many checkpoints a store may have had.
pub const MOST_CHECKPOINTS: u64 = 1 << 58;

/// A root: everything of a content but its words, and the slots of its pages.
#[derive(Drop)]
pub struct Root {
    /// The number of the checkpoint, from 1 on.
    pub number: u64,
    /// The counts of events and segments, the threads with their locks, and the last number of each source.
    pub state: TraceState,
    /// The segments.
    pub segments: Vec<Segment>,
    /// The sets under their numbers, with room for 262,144.
    pub sets: SetTable,
    /// How many reports there were.
    pub total: u64,
    /// The first 65,536 of them.
    pub reports: Vec<KeptReport>,
    /// The sources that sent something, rising.
    pub sources: Vec<SourceCount>,
    /// The pages that have a slot, rising.
    pub pages: Vec<PageSlot>,
}

/// The numbers of these threads.
fn numbers_of(alloc: Global, threads: &[ThreadState]) -> Result<Vec<u16>, AllocError>
    ensures { IfOk result (λ numbers. numbers.items ≡ map (λ t. t.number) threads.now) }
{
    let mut numbers = Vec::with_capacity(alloc, threads.len())?;
    for i in 0..threads.len() {
        numbers.push(threads[i].number)?;
    }
    Ok(numbers)
}

/// Puts a number at the end if it is wanted.
fn push_if(number: u16, is_wanted: bool, numbers: &mut Vec<u16>) -> Result<(), AllocError>
    ensures { OnOk result (numbers.new.items ≡ numbers.old.items ++ (if is_wanted then number ∷ [] else [])) }
{
    if is_wanted {
        numbers.push(number)?;
    }
    Ok(())
}

/// The threads that have a last segment.
fn named_of(alloc: Global, lasts: &[Option<u32>]) -> Result<Vec<u16>, AllocError>
    requires { length lasts.now ≡ THREAD_NUMBERS }
    ensures { ForTable lasts.now (λ segments. IfOk result (λ named. named.items ≡ named_threads segments)) }
{
    let mut named = Vec::new(alloc);
    for t in 0..THREAD_NUMBERS {
        push_if(t as u16, lasts[t].is_some(), &mut named)?;
    }
    Ok(named)
}

/// Whether these are the numbers of the threads.
fn are_numbers(alloc: Global, threads: &[ThreadState], named: &[u16]) -> Result<bool, AllocError>
    ensures { IfOk result (λ are. IsTrue are ↔ (map (λ t. t.number) threads.now ≡ named.now)) }
{
    let numbers = numbers_of(alloc, threads)?;
    Ok(numbers.as_slice() == named)
}

/// The last number of each source, by the source's number.
fn last_numbers(alloc: Global, sources: &[SourceCount]) -> Result<Vec<u64>, AllocError>
    requires { All (λ s. s.source ≤ GREATEST_SOURCE) sources.now }
    ensures len { IfOk result (λ last. length last.items ≡ SOURCE_NUMBERS) }
    ensures each { IfOk result (λ last. HaveLast sources.now last.items) }
{
    let mut last = vec![in alloc; 0; SOURCE_NUMBERS]?;
    let mut left = sources.len();
    while left > 0 {
        left -= 1;
        last[usize::from(sources[left].source)] = sources[left].last;
    }
    Ok(last)
}

/// Whether the counts are in range, and there are as many reports as they say.
fn are_counts(number: u64, events: u64, total: u64, kept: usize) -> bool
    ensures { IsTrue result ↔ AreCounts number events total kept }
{
    if number == 0
        || number > MOST_CHECKPOINTS
        || events > MOST_EVENTS
        || total > MOST_ACCESS_WORDS as u64 * events
    {
        return false;
    }
    kept as u64 == total.min(MOST_REPORTS as u64)
}

/// The table of these sets, with room for 262,144.
fn sets_of(alloc: Global, sets: &[NumberSet]) -> Result<SetTable, RootFault>
    ensures table { IfOk result (λ table. table ≡ record { limit = MOST_SETS; sets = sets.now }) }
    ensures sets { IfOk result AreSets }
    ensures damaged { IsErrOf result RootFault.Damaged → ¬ AreSets (record { limit = MOST_SETS; sets = sets.now }) }
    ensures fault { IfErr result IsDamagedOrMemory }
{
    match SetTable::restore(alloc, MOST_SETS, sets)? {
        Some(table) => Ok(table),
        None => Err(RootFault::Damaged),
    }
}

/// The trace state with these parts.
fn state_of(
    alloc: Global,
    events: u64,
    segments: u32,
    threads: &[ThreadState],
    sources: &[SourceCount],
    messages: MessageTable,
) -> Result<TraceState, RootFault>
    requires few_events { events ≤ MOST_EVENTS }
    requires few_segments { segments ≤ MOST_SEGMENTS }
    requires sources { HaveSent events sources.now }
    ensures events { IfOk result (λ state. state.events ≡ events) }
    ensures segments { IfOk result (λ state. state.segments ≡ segments) }
    ensures threads { IfOk result (λ state. state.threads ≡ threads.now) }
    ensures last { IfOk result (λ state. HaveLast sources.now state.last) }
    ensures messages { IfOk result (λ state. state.messages ≡ messages) }
    ensures lawful { IfOk result (λ state. AreThreads threads.now) }
    ensures damaged { IsErrOf result RootFault.Damaged → ¬ AreThreads threads.now }
    ensures fault { IfErr result IsDamagedOrMemory }
{
    let last = last_numbers(alloc, sources)?;
    match TraceState::restore(alloc, events, segments, threads, last, messages) {
        Ok(state) => Ok(state),
        Err(Refusal::Damaged) => Err(RootFault::Damaged),
        Err(_) => Err(RootFault::OutOfMemory),
    }
}

/// Whether these are the lists of a trace with this many events.
fn are_lists(
    alloc: Global,
    events: u64,
    sources: &[SourceCount],
    reports: &[KeptReport],
    pages: &[PageSlot],
) -> Result<bool, AllocError>
    ensures { IfOk result (λ are.
        IsTrue are ↔ (HaveSent events sources.now × AreInOrder reports.now × HaveSlots pages.now)) }
{
    if !are_sources(sources, events) || !are_in_order(reports) {
        return Ok(false);
    }
    are_pages(alloc, pages)
}

/// Whether the threads are those that have a last segment.
fn are_named(
    alloc: Global,
    lasts: &[Option<u32>],
    threads: &[ThreadState],
) -> Result<bool, AllocError>
    requires { length lasts.now ≡ THREAD_NUMBERS }
    ensures { ForTable lasts.now (λ segments.
        IfOk result (λ are. IsTrue are ↔ (map (λ t. t.number) threads.now ≡ named_threads segments))) }
{
    let named = named_of(alloc, lasts)?;
    are_numbers(alloc, threads, &named)
}

/// The table of these sets, if the reports may be those of a trace with them and with this many events.
fn sets_with(
    alloc: Global,
    sets: &[NumberSet],
    reports: &[KeptReport],
    events: u64,
) -> Result<SetTable, RootFault>
    ensures table { IfOk result (λ table. table ≡ record { limit = MOST_SETS; sets = sets.now }) }
    ensures sets { IfOk result AreSets }
    ensures reports { IfOk result (λ table. All (IsReport events sets.now) reports.now) }
    ensures damaged { IsErrOf result RootFault.Damaged → AreSets (record { limit = MOST_SETS; sets = sets.now }) →
        ¬ All (IsReport events sets.now) reports.now }
    ensures fault { IfErr result IsDamagedOrMemory }
{
    let table = sets_of(alloc, sets)?;
    if !are_reports(reports, events, &table) {
        return Err(RootFault::Damaged);
    }
    Ok(table)
}

/// The table of the sets and the trace state of a root with these parts, if they obey the rules.
fn tables_of(
    alloc: Global,
    front: &Front,
    lasts: &[Option<u32>],
    messages: MessageTable,
    threads: &[ThreadState],
    back: &Back,
) -> Result<(SetTable, TraceState), RootFault>
    requires lasts { length lasts.now ≡ THREAD_NUMBERS }
    requires table { IsLastTable front.now.1.1.items lasts.now }
    requires few_segments { length front.now.1.1.items ≤ MOST_SEGMENTS }
    ensures sets { IfOk result (λ x. x.0 ≡ record { limit = MOST_SETS; sets = (seen back.now).0 }) }
    ensures events { IfOk result (λ x. x.1.events ≡ front.now.1.0) }
    ensures segments { IfOk result (λ x. x.1.segments ≡ length front.now.1.1.items) }
    ensures threads { IfOk result (λ x. x.1.threads ≡ threads.now) }
    ensures last { IfOk result (λ x. HaveLast back.now.sources.items x.1.last) }
    ensures messages { IfOk result (λ x. x.1.messages ≡ messages) }
    ensures checked { IfOk result (λ x. IsChecked (parts_read front.now threads.now back.now)) }
    ensures damaged { IsErrOf result RootFault.Damaged → ¬ IsChecked (parts_read front.now threads.now back.now) }
    ensures fault { IfErr result IsDamagedOrMemory }
{
    let (number, (events, segments)) = front;
    if !are_counts(*number, *events, back.total, back.reports.len()) {
        return Err(RootFault::Damaged);
    }
    if !are_lists(alloc, *events, &back.sources, &back.reports, &back.pages)? {
        return Err(RootFault::Damaged);
    }
    if !are_named(alloc, lasts, threads)? {
        return Err(RootFault::Damaged);
    }
    let sets = sets_with(alloc, &back.sets, &back.reports, *events)?;
    let state = state_of(
        alloc,
        *events,
        segments.len() as u32,
        threads,
        &back.sources,
        messages,
    )?;
    Ok((sets, state))
}

/// The root with these parts, if they obey the rules.
fn checked(
    alloc: Global,
    front: Front,
    lasts: &[Option<u32>],
    messages: MessageTable,
    threads: &[ThreadState],
    back: Back,
) -> Result<Root, RootFault>
    requires lasts { length lasts.now ≡ THREAD_NUMBERS }
    requires agrees { Agrees front.1.1.items messages }
    requires table { IsLastTable front.1.1.items lasts.now }
    requires few_segments { length front.1.1.items ≤ MOST_SEGMENTS }
    ensures parts { IfOk result (λ r. parts_of r ≡ parts_read front threads.now back) }
    ensures checked { IfOk result (λ r. IsChecked (parts_read front threads.now back)) }
    ensures known { IfOk result IsWhole }
    ensures damaged { IsErrOf result RootFault.Damaged → ¬ IsChecked (parts_read front threads.now back) }
    ensures fault { IfErr result IsDamagedOrMemory }
{
    let (sets, state) = tables_of(alloc, &front, lasts, messages, threads, &back)?;
    let (number, (_, segments)) = front;
    let Back {
        total,
        reports,
        sources,
        pages,
        ..
    } = back;
    Ok(Root {
        number,
        state,
        segments,
        sets,
        total,
        reports,
        sources,
        pages,
    })
}

impl Root {
    /// The root whose body these bytes are, in either form. `Damaged` exactly if they are not a root's body, `OutOfMemory`
    /// if memory is refused.
    ///
    /// Memory grows with the bytes that were read, whatever a count says: the parts themselves, sets and threads twice for
    /// a while, an entry for each message while the segments are tested, and 2 MiB for tables of the profile.
    pub fn decode(alloc: Global, body: &[u8]) -> Result<Root, RootFault>
        ensures found { IfOk result (λ r. IsRoot body.now (parts_of r)) }
        ensures known { IfOk result IsWhole }
        ensures damaged { IsErrOf result RootFault.Damaged → (p : Parts) → ¬ IsRoot body.now p }
        ensures fault { IfErr result IsDamagedOrMemory }
    {
        let (front, rest) = front_of(alloc, body)?;
        let (lasts, messages) = lasts_of(alloc, &front.1.1)?;
        let (threads, rest) = middle_of(alloc, &lasts, rest)?;
        let back = back_of(alloc, rest)?;
        checked(alloc, front, &lasts, messages, &threads, back)
    }
}
