//! The parts of a detector, and what an accepted event does to them.

ghost use Rattle.std.specs.Prelude.{◌≡◌, ◌≢◌, ◌⊎◌, ℕ, ◌+◌, ◌-◌, ◌/◌, ◌*◌, ◌≤◌, ◌<◌, ◌^◌, [], ◌∷◌, All, IfOk, length, vec_capacity, IfErr, OnErr, OnOk, Ok, Err, ◌==◌};
ghost use Rattle.std.specs.List.{list_any};
ghost use Rattle.hg_graph.specs.Graph.{names};
ghost use Rattle.hg_model.specs.Segments.{of_thread};
ghost use Rattle.hg_model.specs.Messages.{Agrees};
ghost use Rattle.hg_model.specs.Parts.{HasParts};
ghost use Rattle.hg_model.specs.Accessing.{MayAccess, access_event};
ghost use Rattle.hg_rules.specs.Counting.{CountsAccesses};
ghost use Rattle.hg_model.specs.Holding.{hold_named};
ghost use Rattle.hg_model.specs.Change.{empty_content};
ghost use Rattle.hg_model.specs.Verdicts.{MayBeNext};
ghost use Rattle.hg_sets.specs.Interning.{AreSets, KeepsNumbers, first_table};
ghost use Rattle.hg_cells.specs.declared.cell.Cell.TheVariants.{New};
ghost use Rattle.hg_cells.specs.Cells.{IsWithin};
ghost use Rattle.hg_cells.specs.Words.{ForWords, KeepsLaw, failed_after};
ghost use Rattle.hg_detect.specs.Shown.{HasRoom, IsReportAt, content, shown_with};
ghost use Rattle.hg_detect.specs.Answering.{IsOnLock, after_passing};
ghost use Rattle.hg_detect.specs.Engine.{Answers, AsksForAccess, AsksForCell, AtPresent, HasPlan, IsPlannedBy, IsSound, KeepsCells, LacksForCell, LacksRoom, ReadsTrue, WantsToGrow, shown_of};

use crate::access::NamedAccess;
use crate::kept::reserve_reports;
use crate::parts::DetectorParts;
use crate::plan::{Accessor, Planned, plan_word, plan_words};
use hg_cells::words::Words;
use hg_cells::{Cell, KeptReport};
use hg_graph::Graph;
use hg_model::event::{Access, Block, Event, Hold, HoldKind, Named};
use hg_model::limits::{GREATEST_ACCESS, MOST_ACCESS_WORDS, MOST_REPORTS, THREAD_NUMBERS};
use hg_model::report::Report;
use hg_model::sets::NumberSet;
use hg_model::verdict::Refusal;
use hg_rules::state::TraceState;
use hg_sets::{MOST_SETS, SetTable};
use std::alloc::{AllocError, Global};

/// The parts of a detector.
#[derive(Drop)]
pub(crate) struct Engine<W> {
    pub(crate) state: TraceState,
    pub(crate) graph: Graph,
    pub(crate) sets: SetTable,
    pub(crate) words: W,
    pub(crate) plan: Vec<Planned>,
    pub(crate) kept: Vec<KeptReport>,
    pub(crate) total: u64,
}

impl<W> Engine<W> {
    /// The map of words.
    pub(crate) fn into_words(self) -> W
        ensures { result ≡ self.words }
    {
        let Engine {
            state,
            graph,
            sets,
            words,
            plan,
            kept,
            total: _,
        } = self;
        drop(state);
        drop(graph);
        drop(sets);
        drop(plan);
        drop(kept);
        words
    }

    /// A kept report.
    pub(crate) fn report(&self, alloc: Global, index: usize) -> Result<Report, AllocError>
        requires known { All (λ r. r.threads < length self.now.sets.sets) self.now.kept.items }
        requires within { index < length self.now.kept.items }
        ensures { IfOk result (IsReportAt self.now.sets.sets self.now.kept.items index) }
    {
        let kept = self.kept[index];
        let mut threads = Vec::new(alloc);
        threads.extend_from_slice(self.sets.members(kept.threads))?;
        Ok(Report {
            event: kept.event,
            write: kept.write,
            thread: kept.thread,
            word: kept.word,
            threads: NumberSet::from_vec(threads),
        })
    }
}

impl<W: Words> Engine<W> {
    /// The engine of an empty trace, over a map whose words are all new.
    pub(crate) fn new(alloc: Global, words: W, most_sets: u32) -> Result<Self, W>
        requires fresh { (w : ℕ) → W.cell_of words w ≡ New }
        requires least { 1 ≤ most_sets }
        requires greatest { most_sets ≤ MOST_SETS }
        ensures content { IfOk result (λ e. content W.cell_of (shown_of e) ≡ empty_content) }
        ensures sets { IfOk result (λ e. e.sets ≡ first_table most_sets) }
        ensures graph { IfOk result (λ e. length e.graph ≡ 1) }
        ensures words { IfOk result (λ e. e.words ≡ words) }
        ensures sound { IfOk result IsSound }
        ensures handed_back { IfErr result (λ w. w ≡ words) }
    {
        match empty_parts(alloc, most_sets) {
            Ok((state, graph, sets, plan)) => Ok(Engine {
                state,
                graph,
                sets,
                words,
                plan,
                kept: Vec::new(alloc),
                total: 0,
            }),
            Err(_) => Err(words),
        }
    }

    /// The engine with these parts, over a map of words.
    pub(crate) fn restore(alloc: Global, parts: DetectorParts, words: W) -> Result<Self, W>
        requires segments { parts.state.segments ≡ length parts.graph }
        requires threads { (t : ℕ) → list_any (λ x. x.number == t) parts.state.threads ≡ names parts.graph t }
        requires messages { Agrees parts.graph parts.state.messages }
        requires reports { All (λ r. r.threads < length parts.sets.sets) parts.kept.items }
        requires few { length parts.kept.items ≤ MOST_REPORTS }
        requires total { parts.total ≤ MOST_ACCESS_WORDS * parts.state.events }
        ensures shown { IfOk result (λ e. shown_of e ≡ shown_with parts words) }
        ensures sound { IfOk result IsSound }
        ensures handed_back { IfErr result (λ w. w ≡ words) }
    {
        let DetectorParts {
            state,
            graph,
            sets,
            kept,
            total,
        } = parts;
        let _count = sets.len();
        match Vec::with_capacity(alloc, MOST_ACCESS_WORDS) {
            Ok(plan) => Ok(Engine {
                state,
                graph,
                sets,
                words,
                plan,
                kept,
                total,
            }),
            Err(_) => Err(words),
        }
    }

    /// Plans an access to the words from `first` on and before `end`, and makes room for what it changes.
    pub(crate) fn prepare(
        &mut self,
        access: &Access,
        write: bool,
        first: u64,
        end: u64,
    ) -> Result<(), Refusal>
        requires sound { IsSound self.old }
        requires thread { access.now.t < THREAD_NUMBERS }
        requires some { 0 < access.now.len }
        requires few { access.now.len ≤ GREATEST_ACCESS }
        requires within { access.now.at + access.now.len ≤ 2 ^ 64 }
        requires first { first ≡ access.now.at / 4 }
        requires end { end ≡ (access.now.at + access.now.len + 3) / 4 }
        requires lawful { W.may_bring self.old.words (length self.old.graph) (length self.old.sets.sets) }
        ensures state { self.new.state ≡ self.old.state }
        ensures graph { self.new.graph ≡ self.old.graph }
        ensures reports { self.new.kept.items ≡ self.old.kept.items }
        ensures total { self.new.total ≡ self.old.total }
        ensures plan { MOST_ACCESS_WORDS ≤ vec_capacity self.new.plan }
        ensures sets { AreSets self.new.sets }
        ensures numbers { KeepsNumbers self.old.sets self.new.sets }
        ensures lawful { W.may_bring self.new.words (length self.old.graph) (length self.old.sets.sets) }
        ensures faithful { KeepsLaw (W.is_faithful self.old.words) (W.is_faithful self.new.words) }
        ensures cells { KeepsCells ⟦<W as Words>⟧ self.old.words self.new.words }
        ensures kept { OnOk result (ForWords first end (W.is_kept self.new.words)) }
        ensures planned { OnOk result (HasPlan ⟦<W as Words>⟧ self.old access.now write first self.new) }
        ensures len { OnOk result (length self.new.plan.items ≡ end - first) }
        ensures room { OnOk result (HasRoom self.new.kept.items (vec_capacity self.new.kept) self.new.plan.items) }
        ensures asked { AsksForAccess ⟦<W as Words>⟧ self.old access.now write first end result self.new }
        ensures refusal { IfErr result (LacksRoom (W.may_refuse self.new.words)) }
        ensures undamaged { ReadsTrue ⟦<W as Words>⟧ (shown_of self.old) → IfErr result (λ r. r ≢ Refusal.Damaged) }
        ensures grows { WantsToGrow ⟦<W as Words>⟧ (shown_of self.old) (access_event write access.now) result }
        ensures went { W.went self.old.words self.new.words }
        ensures failures { W.failures self.new.words ≡ failed_after result (W.failures self.old.words) }
    {
        let len = u16::from(access.len);
        self.words
            .bring(access.at, len, self.state.segments(), &self.sets)?;
        let accessor = Accessor {
            graph: &self.graph,
            thread: access.t,
            segment: self.graph.present(access.t),
            write,
            locks: self.state.counted(access.t, write),
        };
        plan_words(
            &accessor,
            &mut self.sets,
            &self.words,
            first,
            end,
            &mut self.plan,
        )?;
        self.words.keep(access.at, len)?;
        Ok(reserve_reports(&mut self.kept, self.plan.as_slice())?)
    }

    /// Plans an access to words that have this cell.
    #[inline(always)]
    pub(crate) fn plan_for(
        &mut self,
        access: &Access,
        write: bool,
        cell: Cell,
    ) -> Result<Planned, Refusal>
        requires sound { IsSound self.old }
        requires thread { access.now.t < THREAD_NUMBERS }
        requires within { IsWithin (length self.old.graph) (length self.old.sets.sets) cell }
        ensures others { self.new ≡ record self.old { sets = self.new.sets } }
        ensures sets { AreSets self.new.sets }
        ensures numbers { KeepsNumbers self.old.sets self.new.sets }
        ensures planned { IfOk result (IsPlannedBy self.old access.now write cell self.new) }
        ensures asked { OnOk result (AsksForCell self.old access.now write cell (Ok tt) self.new) }
        ensures refused { IfErr result (λ r. AsksForCell self.old access.now write cell (Err r) self.new) }
        ensures lacks { OnErr result (LacksForCell self.old access.now write cell) }
        ensures refusal { IfErr result (λ r. (r ≡ Refusal.FullSets) ⊎ (r ≡ Refusal.OutOfMemory)) }
    {
        let locks = self.state.counted(access.t, write);
        let accessor = Accessor {
            graph: &self.graph,
            thread: access.t,
            segment: self.graph.present(access.t),
            write,
            locks,
        };
        Ok(plan_word(&mut self.sets, &accessor, cell)?)
    }

    /// Accepts a fork.
    fn fork(&mut self, named: &Named, p: u16, c: u16) -> Result<(), Refusal>
        requires event { named.now.event ≡ Event.Fork p c }
        requires sound { IsSound self.old }
        requires accepted { MayBeNext self.old.state named.now }
        requires lawful { AtPresent W.may_bring (shown_of self.old) }
        ensures answers { Answers ⟦<W as Words>⟧ self.old named.now result self.new }
        ensures went { W.went self.old.words self.new.words }
        ensures failures { W.failures self.new.words ≡ failed_after result (W.failures self.old.words) }
    {
        self.graph.fork(p, c)?;
        self.state.follow(named);
        Ok(())
    }

    /// Accepts a join.
    fn join(&mut self, named: &Named, p: u16, c: u16) -> Result<(), Refusal>
        requires event { named.now.event ≡ Event.Join p c }
        requires sound { IsSound self.old }
        requires accepted { MayBeNext self.old.state named.now }
        requires lawful { AtPresent W.may_bring (shown_of self.old) }
        ensures answers { Answers ⟦<W as Words>⟧ self.old named.now result self.new }
        ensures went { W.went self.old.words self.new.words }
        ensures failures { W.failures self.new.words ≡ failed_after result (W.failures self.old.words) }
    {
        self.graph.join(p, c)?;
        self.state.follow(named);
        Ok(())
    }

    /// Accepts a send.
    fn send(&mut self, named: &Named, t: u16, k: u32) -> Result<(), Refusal>
        requires event { named.now.event ≡ Event.Send t k }
        requires sound { IsSound self.old }
        requires accepted { MayBeNext self.old.state named.now }
        requires lawful { AtPresent W.may_bring (shown_of self.old) }
        ensures answers { Answers ⟦<W as Words>⟧ self.old named.now result self.new }
        ensures went { W.went self.old.words self.new.words }
        ensures failures { W.failures self.new.words ≡ failed_after result (W.failures self.old.words) }
    {
        self.state.make_room()?;
        self.graph.send(t, k)?;
        self.state.follow(named);
        Ok(())
    }

    /// Accepts a receive.
    fn recv(&mut self, named: &Named, t: u16, k: u32) -> Result<(), Refusal>
        requires event { named.now.event ≡ Event.Recv t k }
        requires sound { IsSound self.old }
        requires accepted { MayBeNext self.old.state named.now }
        requires lawful { AtPresent W.may_bring (shown_of self.old) }
        ensures answers { Answers ⟦<W as Words>⟧ self.old named.now result self.new }
        ensures went { W.went self.old.words self.new.words }
        ensures failures { W.failures self.new.words ≡ failed_after result (W.failures self.old.words) }
    {
        self.state.make_room()?;
        self.graph.recv(t, k)?;
        self.state.follow(named);
        Ok(())
    }

    /// Accepts an event on a lock.
    #[inline(always)]
    pub(crate) fn hold(&mut self, source: u16, number: u64, hold: Hold)
        requires sound { IsSound self.old }
        requires accepted { MayBeNext self.old.state (hold_named source number hold) }
        requires lawful { AtPresent W.may_bring (shown_of self.old) }
        ensures answers { Answers ⟦<W as Words>⟧ self.old (hold_named source number hold) (Ok tt) self.new }
        ensures went { W.went self.old.words self.new.words }
        ensures failures { W.failures self.new.words ≡ W.failures self.old.words }
    {
        self.state.follow_hold(source, number, hold);
    }

    /// Counts an accepted access, and does nothing else of it.
    #[inline(always)]
    pub(crate) fn pass(&mut self, source: u16, number: u64)
        requires sound { IsSound self.old }
        requires accepted { MayAccess self.old.state source number }
        ensures sound { IsSound self.new }
        ensures rest { self.new ≡ record self.old { state = self.new.state } }
        ensures content { content W.cell_of (shown_of self.new) ≡ after_passing (content W.cell_of (shown_of self.old)) source }
    {
        self.state.follow_access(source, number);
    }

    /// Counts so many accesses of a source at once, and does nothing else of them.
    #[inline(always)]
    pub(crate) fn pass_all(&mut self, source: u16, count: u64)
        requires sound { IsSound self.old }
        ensures sound { IsSound self.new }
        ensures rest { self.new ≡ record self.old { state = self.new.state } }
        ensures counts { CountsAccesses self.old.state source count self.new.state }
    {
        self.state.follow_accesses(source, count);
    }

    /// Accepts an alloc or a free of a block: its words become new.
    fn clear_block(&mut self, named: &Named, block: &Block) -> Result<(), Refusal>
        requires event { (named.now.event ≡ Event.Alloc block.now) ⊎ (named.now.event ≡ Event.Free block.now) }
        requires sound { IsSound self.old }
        requires accepted { MayBeNext self.old.state named.now }
        requires lawful { AtPresent W.may_bring (shown_of self.old) }
        ensures answers { Answers ⟦<W as Words>⟧ self.old named.now result self.new }
        ensures went { W.went self.old.words self.new.words }
        ensures failures { W.failures self.new.words ≡ failed_after result (W.failures self.old.words) }
    {
        let segments = self.state.segments();
        self.words
            .ready_to_clear(block.at, block.len, segments, &self.sets)?;
        self.state.follow(named);
        self.words.clear(block.at, block.len);
        Ok(())
    }

    /// Accepts an event whose verdict is Accept.
    #[inline(always)]
    pub(crate) fn accept(&mut self, named: &Named) -> Result<(), Refusal>
        requires sound { IsSound self.old }
        requires accepted { MayBeNext self.old.state named.now }
        requires lawful { AtPresent W.may_bring (shown_of self.old) }
        ensures answers { Answers ⟦<W as Words>⟧ self.old named.now result self.new }
        ensures went { W.went self.old.words self.new.words }
        ensures failures { W.failures self.new.words ≡ failed_after result (W.failures self.old.words) }
        ensures held { IsOnLock named.now.event → result ≡ Ok tt }
    {
        match &named.event {
            Event::Read(access) => self.accept_access(NamedAccess {
                source: named.source,
                number: named.number,
                access: *access,
                write: false,
            }),
            Event::Write(access) => self.accept_access(NamedAccess {
                source: named.source,
                number: named.number,
                access: *access,
                write: true,
            }),
            Event::Fork { p, c } => self.fork(named, *p, *c),
            Event::Join { p, c } => self.join(named, *p, *c),
            Event::Send { t, k } => self.send(named, *t, *k),
            Event::Recv { t, k } => self.recv(named, *t, *k),
            Event::Alloc(block) | Event::Free(block) => self.clear_block(named, block),
            Event::Lock { t, l } => {
                let (t, l, kind) = (*t, *l, HoldKind::Lock);
                self.hold(named.source, named.number, Hold { t, l, kind });
                Ok(())
            }
            Event::RdLock { t, l } => {
                let (t, l, kind) = (*t, *l, HoldKind::RdLock);
                self.hold(named.source, named.number, Hold { t, l, kind });
                Ok(())
            }
            Event::Unlock { t, l } => {
                let (t, l, kind) = (*t, *l, HoldKind::Unlock);
                self.hold(named.source, named.number, Hold { t, l, kind });
                Ok(())
            }
        }
    }
}

/// The state, the graph, the sets and the room for a plan, of an empty trace.
fn empty_parts(
    alloc: Global,
    most_sets: u32,
) -> Result<(TraceState, Graph, SetTable, Vec<Planned>), AllocError>
    requires least { 1 ≤ most_sets }
    requires greatest { most_sets ≤ MOST_SETS }
    ensures state { IfOk result (λ p. HasParts empty_content p.0) }
    ensures graph { IfOk result (λ p. p.1 ≡ of_thread 0 [] ∷ []) }
    ensures sets { IfOk result (λ p. p.2 ≡ first_table most_sets) }
    ensures are_sets { IfOk result (λ p. AreSets p.2) }
    ensures plan { IfOk result (λ p. MOST_ACCESS_WORDS ≤ vec_capacity p.3) }
{
    Ok((
        TraceState::new(alloc)?,
        Graph::new(alloc)?,
        SetTable::with_limit(alloc, most_sets)?,
        Vec::with_capacity(alloc, MOST_ACCESS_WORDS)?,
    ))
}
