//! The head of a root, from a detector.
ghost use Rattle.std.specs.Prelude.{◌≡◌, ◌⊎◌, ◌≤◌, ◌^◌, ◌++◌, ◌↔◌, IfOk, IsErrOf, IsTrue, OnOk, slice_index};
ghost use Rattle.hg_contents.specs.Heads.{FitsARoot, source_counts};
ghost use Rattle.hg_root.specs.Grammar.{head_text};
ghost use Rattle.hg_root.specs.Lawful.{IsLawfulHead};
ghost use Rattle.hg_checkpoint.specs.Capturing.{IfDamaged, IsSpelled, head_with, if_sent, parts_with};

use crate::fault::HeadFault;
use crate::fitting::{COUNTS, have_spellings, sets_have_spellings};
use hg_cells::words::Words;
use hg_contents::laws::{a_detector_has_a_lawful_head, threads_have_small_numbers};
use hg_detect::detector::Detector;
use hg_model::limits::SOURCE_NUMBERS;
use hg_model::thread::ThreadState;
use hg_root::{HeadParts, MOST_CHECKPOINTS, RootHead, SourceCount};
use hg_rules::state::TraceState;
use std::alloc::{AllocError, Global};

// Puts a source at the end if it sent something.
fn push_sent(source: u16, last: u64, counts: &mut Vec<SourceCount>) -> Result<(), AllocError>
    ensures { OnOk result (counts.new.items ≡ counts.old.items ++ if_sent source last) }
{
    if last > 0 {
        counts.push(SourceCount { source, last })?;
    }
    Ok(())
}

// The sources that sent something, rising, each with its last number.
fn sources_of(alloc: Global, state: &TraceState) -> Result<Vec<SourceCount>, AllocError>
    ensures { IfOk result (λ counts. counts.items ≡ source_counts (slice_index state.now.last)) }
{
    let mut counts = Vec::new(alloc);
    for source in 0..SOURCE_NUMBERS as u16 {
        push_sent(source, state.last(source), &mut counts)?;
    }
    Ok(counts)
}

// The threads and the sources of a detector.
fn lists_of<W>(
    alloc: Global,
    detector: &Detector<W>,
) -> Result<(Vec<ThreadState>, Vec<SourceCount>), AllocError>
    ensures threads { IfOk result (λ lists. lists.0.items ≡ detector.now.parts.threads) }
    ensures sources { IfOk result (λ lists. lists.1.items ≡ source_counts (slice_index detector.now.parts.last)) }
{
    let state = detector.state();
    let threads = state.threads(alloc)?;
    let sources = sources_of(alloc, state)?;
    Ok((threads, sources))
}

// Whether each part of a detector with these threads and sources has a spelling.
fn has_spelling<W>(detector: &Detector<W>, threads: &[ThreadState], sources: &[SourceCount]) -> bool
    ensures { IsTrue result ↔ IsSpelled detector.now threads.now sources.now }
{
    if threads.len() >= COUNTS {
        return false;
    }
    if sources.len() >= COUNTS {
        return false;
    }
    if !have_spellings(detector.segments()) {
        return false;
    }
    if !have_spellings(threads) {
        return false;
    }
    if !have_spellings(detector.kept_reports()) {
        return false;
    }
    if !have_spellings(sources) {
        return false;
    }
    let _kept = detector.kept();
    sets_have_spellings(detector.sets())
}

// The head of a root with these lists, if all its parts have a spelling.
fn spelled<W>(
    alloc: Global,
    number: u64,
    detector: &Detector<W>,
    threads: &[ThreadState],
    sources: &[SourceCount],
) -> Result<RootHead, HeadFault>
    requires threads { threads.now ≡ detector.now.parts.threads }
    ensures text { IfOk result (λ head. head ≡ head_text (head_with number detector.now sources.now)) }
    ensures damaged { IfDamaged result (¬ IsSpelled detector.now detector.now.parts.threads sources.now) }
{
    if !has_spelling(detector, threads, sources) {
        return Err(HeadFault::Damaged);
    }
    let parts = HeadParts {
        number,
        events: detector.state().events(),
        graph: detector.graph(),
        threads,
        sets: detector.sets(),
        total: detector.total(),
        reports: detector.kept_reports(),
        sources,
    };
    Ok(RootHead::encode(alloc, &parts)?)
}

/// The head of a root with this number, 1 to 2^58: everything that a detector has but its words. If the detector fits a
/// root (`FitsARoot`), as it does over an honest disk, the head is lawful. `Damaged` says that a part has no spelling, so
/// the detector does not fit a root; `OutOfMemory` says that memory was refused.
pub fn head_of<W: Words>(
    alloc: Global,
    number: u64,
    detector: &Detector<W>,
) -> Result<RootHead, HeadFault>
    requires least { 1 ≤ number }
    requires most { number ≤ MOST_CHECKPOINTS }
    ensures text { IfOk result (λ head. head ≡ head_text (parts_with number detector.now)) }
    ensures lawful { FitsARoot W.cell_of detector.now → IsLawfulHead (parts_with number detector.now) }
    ensures damaged { IfDamaged result (¬ FitsARoot W.cell_of detector.now) }
{
    a_detector_has_a_lawful_head::<W>();
    threads_have_small_numbers();
    let (threads, sources) = lists_of(alloc, detector)?;
    spelled(alloc, number, detector, &threads, &sources)
}
