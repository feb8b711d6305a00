//! From the accesses to a word to its state, and to the one that is reported.

ghost use Rattle.std.specs.Prelude.{◌≡◌, ◌≤◌, ◌∷◌, IfOk, fold, map, take, drop, length};
ghost use Rattle.std.specs.List.{list_all, list_any};
ghost use Rattle.hg_model.specs.Sets as sets;
ghost use Rattle.hg_model.specs.Sharing as sharing;
ghost use Rattle.hg_test_plain.specs.Split.{sharing_in};
ghost use Rattle.hg_test_plain.specs.Words.{shared_state};

use crate::paths::reaches;
use crate::sets::{contains, with_member};
use hg_model::segment::Segment;
use hg_model::sets::NumberSet;
use hg_model::word::{HistoryItem, WordState};
use std::alloc::{AllocError, Global};

/// The items from the one before the sharing point on. Where there is no such point, at most one item.
fn shared_from<'a>(segments: &[Segment], items: &'a [HistoryItem]) -> &'a [HistoryItem]
    ensures { sharing.sharing segments.now items.now ≡ sharing_in result.now }
{
    let Some((first, others)) = items.split_first() else {
        return items;
    };
    let Some((second, _)) = others.split_first() else {
        return others;
    };
    if reaches(segments, first.segment, second.segment) {
        return shared_from(segments, others);
    }
    items
}

fn is_held_by_all(items: &[HistoryItem], lock: u16) -> bool
    ensures { result ≡ list_all (λ i. sets.contains i.locks lock) items.now }
{
    items.iter().all(|i| contains(i.locks.as_slice(), lock))
}

/// The candidate lockset.
fn lockset(
    alloc: Global,
    first: &HistoryItem,
    later: &[HistoryItem],
) -> Result<Vec<u16>, AllocError>
    ensures { IfOk result (λ v. v.items ≡ sharing.lockset (first.now ∷ later.now)) }
{
    first
        .locks
        .as_slice()
        .iter()
        .copied()
        .filter(|lock| is_held_by_all(later, *lock))
        .collect(alloc)
}

fn writes(first: &HistoryItem, later: &[HistoryItem]) -> bool
    ensures { result ≡ list_any (λ i. i.write) (first.now ∷ later.now) }
{
    first.write || any_writes(later)
}

fn any_writes(items: &[HistoryItem]) -> bool
    ensures { result ≡ list_any (λ i. i.write) items.now }
{
    items.iter().any(|i| i.write)
}

fn is_race(alloc: Global, first: &HistoryItem, later: &[HistoryItem]) -> Result<bool, AllocError>
    ensures { IfOk result (λ b. b ≡ sharing.is_race (first.now ∷ later.now)) }
{
    let candidates = lockset(alloc, first, later)?;
    Ok(writes(first, later) && candidates.is_empty())
}

/// The event number of the first item at which the items so far are a race. The search starts behind the first `count` of
/// the later items.
fn first_race(
    alloc: Global,
    first: &HistoryItem,
    later: &[HistoryItem],
    count: usize,
) -> Result<Option<u64>, AllocError>
    requires { count ≤ length later.now }
    ensures { IfOk result (λ r. r ≡ sharing.first_race (first.now ∷ take count later.now) (drop count later.now)) }
{
    if count == later.len() {
        return Ok(None);
    }
    let more = count + 1;
    if is_race(alloc, first, &later[..more])? {
        return Ok(Some(later[count].event));
    }
    first_race(alloc, first, later, more)
}

fn reported_by(alloc: Global, shared: &[HistoryItem]) -> Result<Option<u64>, AllocError>
    ensures { IfOk result (λ r. r ≡ sharing.reported_by (sharing_in shared.now)) }
{
    let Some((_, items)) = shared.split_first() else {
        return Ok(None);
    };
    let Some((first, later)) = items.split_first() else {
        return Ok(None);
    };
    if is_race(alloc, first, &[])? {
        return Ok(Some(first.event));
    }
    first_race(alloc, first, later, 0)
}

/// The event number of a word's reported item.
pub fn reported_item(
    alloc: Global,
    segments: &[Segment],
    items: &[HistoryItem],
) -> Result<Option<u64>, AllocError>
    ensures { IfOk result (λ r. r ≡ sharing.reported_item segments.now items.now) }
{
    reported_by(alloc, shared_from(segments, items))
}

fn with_threads(alloc: Global, set: Vec<u16>, items: &[HistoryItem]) -> Result<Vec<u16>, AllocError>
    ensures { IfOk result (λ v. v.items ≡ fold sets.with_member set.items (map (λ i. i.thread) items.now)) }
{
    let Some((first, others)) = items.split_first() else {
        return Ok(set);
    };
    let more = with_member(alloc, &set, first.thread)?;
    with_threads(alloc, more, others)
}

fn owned(state: WordState, items: &[HistoryItem]) -> WordState
    ensures { result ≡ sharing.owned state items.now }
{
    let Some((first, others)) = items.split_first() else {
        return state;
    };
    owned(
        WordState::Exclusive {
            segment: first.segment,
        },
        others,
    )
}

fn shared_state(
    alloc: Global,
    previous_on: &[HistoryItem],
    first: &HistoryItem,
    later: &[HistoryItem],
) -> Result<WordState, AllocError>
    ensures { IfOk result (λ s. s ≡ shared_state previous_on.now (first.now ∷ later.now)) }
{
    let threads = NumberSet::from_vec(with_threads(alloc, Vec::new(alloc), previous_on)?);
    let locks = NumberSet::from_vec(lockset(alloc, first, later)?);
    if writes(first, later) {
        return Ok(WordState::SharedModified { threads, locks });
    }
    Ok(WordState::SharedRead { threads, locks })
}

/// The state of a word with this history.
pub fn state(
    alloc: Global,
    segments: &[Segment],
    items: &[HistoryItem],
) -> Result<WordState, AllocError>
    ensures { IfOk result (λ s. s ≡ sharing.state segments.now items.now) }
{
    let shared = shared_from(segments, items);
    let Some((_, from_first)) = shared.split_first() else {
        return Ok(owned(WordState::New, items));
    };
    let Some((first, later)) = from_first.split_first() else {
        return Ok(owned(WordState::New, items));
    };
    shared_state(alloc, shared, first, later)
}

pub fn threads_in(state: WordState, alloc: Global) -> NumberSet
    ensures { result ≡ sharing.threads_in state }
{
    match state {
        WordState::SharedRead { threads, locks: _ } => threads,
        WordState::SharedModified { threads, locks: _ } => threads,
        _ => NumberSet::from_vec(Vec::new(alloc)),
    }
}
