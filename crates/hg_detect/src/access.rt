//! The ways of an access: what it does to its words, found before anything is changed.

ghost use Rattle.std.specs.Prelude.{◌≡◌, ◌+◌, ◌-◌, ◌/◌, ◌<◌, length, IfSome, IsTrue, Ok};
ghost use Rattle.hg_model.specs.Accessing.{access_named};
ghost use Rattle.hg_model.specs.Verdicts.{MayBeNext};
ghost use Rattle.hg_cells.specs.declared.cell.Cell.TheVariants.{New};
ghost use Rattle.hg_cells.specs.Cells.{IsWithin};
ghost use Rattle.hg_cells.specs.Words.{HaveCell, failed_after};
ghost use Rattle.hg_detect.specs.Planning.{as_it_is};
ghost use Rattle.hg_detect.specs.Engine.{Answers, AnswersAccess, AsksForCell, AtPresent, HasEffect, HasThread, IsPlannedBy, IsQuick, IsSound, KeepsLocks, PassesTo, named_of, shown_of};

use crate::engine::Engine;
use crate::kept::{add_reports, reserve_reports};
use crate::plan::plan_alike;
use crate::setting::set_words;
use hg_cells::words::Words;
use hg_cells::{Cell, are_same};
use hg_model::event::Access;
use hg_model::limits::THREAD_NUMBERS;
use hg_model::verdict::Refusal;

/// A read or a write under the number that its source gave it.
#[derive(Clone, Copy, Debug, PartialEq, Eq)]
pub(crate) struct NamedAccess {
    pub(crate) source: u16,
    pub(crate) number: u64,
    pub(crate) access: Access,
    pub(crate) write: bool,
}

/// What an access does to words that all have one cell, where no set changes and nothing is reported.
#[derive(Clone, Copy, Debug, PartialEq, Eq)]
pub(crate) enum Effect {
    /// They stay as they are.
    Stay,
    /// They pass to the acting segment.
    Pass,
}

/// Words that an access finds alike, and what it does to them.
#[derive(Clone, Copy, Debug, PartialEq, Eq)]
pub(crate) struct Quick {
    first: u64,
    count: u64,
    cell: Cell,
    effect: Effect,
}

impl<W: Words> Engine<W> {
    /// Whether words with this cell pass to the acting segment: they are new, or their owner reaches it.
    #[inline(always)]
    fn passes(&self, access: &Access, cell: Cell) -> bool
        requires thread { access.now.t < THREAD_NUMBERS }
        ensures { IsTrue result → PassesTo self.now access.now cell }
    {
        match cell {
            Cell::New => true,
            Cell::Exclusive(owner) => self.graph.reaches_now(owner, access.t),
            _ => false,
        }
    }

    /// Whether words with this cell are shared and certainly stay as they are: the access brings no new thread, and takes no
    /// candidate lock away.
    #[inline(always)]
    fn stays_shared(&self, access: &Access, write: bool, cell: Cell) -> bool
        requires within { IsWithin (length self.now.graph) (length self.now.sets.sets) cell }
        ensures planned { IsTrue result → IsPlannedBy self.now access.now write cell self.now (as_it_is cell) }
        ensures asked { IsTrue result → AsksForCell self.now access.now write cell (Ok tt) self.now }
    {
        match cell {
            Cell::SharedRead(threads, locks) => {
                !write && self.keeps_sets(access, write, threads, locks)
            }
            Cell::SharedModified(threads, locks) => self.keeps_sets(access, write, threads, locks),
            _ => false,
        }
    }

    /// Whether an access certainly leaves a thread set and a candidate lockset as they are.
    #[inline(always)]
    fn keeps_sets(&self, access: &Access, write: bool, threads: u32, locks: u32) -> bool
        requires threads { threads < length self.now.sets.sets }
        requires locks { locks < length self.now.sets.sets }
        ensures threads { IsTrue result → HasThread self.now threads access.now.t }
        ensures locks { IsTrue result → KeepsLocks self.now locks access.now write }
    {
        self.sets.remembers_member(threads, access.t)
            && self
                .sets
                .is_subset(locks, self.state.counted(access.t, write))
    }

    /// What an access does to words with this cell. `None` says that it may change a set.
    #[inline(always)]
    fn effect(&self, access: &Access, write: bool, cell: Cell) -> Option<Effect>
        requires thread { access.now.t < THREAD_NUMBERS }
        requires within { IsWithin (length self.now.graph) (length self.now.sets.sets) cell }
        ensures { IfSome result (HasEffect self.now access.now write cell) }
    {
        if are_same(cell, Cell::Exclusive(self.graph.present(access.t))) {
            return Some(Effect::Stay);
        }
        if self.passes(access, cell) {
            return Some(Effect::Pass);
        }
        if self.stays_shared(access, write, cell) {
            return Some(Effect::Stay);
        }
        None
    }

    /// What an access does to its words, where the map has them without a search and they are alike. `None` says nothing of it.
    #[inline(always)]
    pub(crate) fn quick(&self, named: &NamedAccess) -> Option<Quick>
        requires accepted { MayBeNext self.now.state (named_of named.now) }
        requires lawful { AtPresent W.may_bring (shown_of self.now) }
        ensures { IfSome result (IsQuick ⟦<W as Words>⟧ self.now named.now.access named.now.write) }
    {
        let first = named.access.at / 4;
        let last = (named.access.at + (u64::from(named.access.len) - 1)) / 4;
        let count = last + 1 - first;
        let cell = self.words.peek(first, count)?;
        let effect = self.effect(&named.access, named.write, cell)?;
        Some(Quick {
            first,
            count,
            cell,
            effect,
        })
    }

    /// Accepts an access whose effect is known.
    #[inline(always)]
    pub(crate) fn access_quickly(&mut self, named: NamedAccess, quick: Quick)
        requires sound { IsSound self.old }
        requires accepted { MayBeNext self.old.state (named_of named) }
        requires lawful { AtPresent W.may_bring (shown_of self.old) }
        requires quick { IsQuick ⟦<W as Words>⟧ self.old named.access named.write quick }
        ensures answers { AnswersAccess ⟦<W as Words>⟧ self.old named (Ok tt) self.new }
        ensures went { W.went self.old.words self.new.words }
        ensures failures { W.failures self.new.words ≡ W.failures self.old.words }
    {
        self.state.follow_access(named.source, named.number);
        match quick.effect {
            Effect::Stay => {}
            Effect::Pass => {
                let owned = Cell::Exclusive(self.graph.present(named.access.t));
                self.words.fill(quick.first, quick.count, owned);
            }
        }
    }

    /// Accepts an access to `count` words from `first` on, which all have this cell: one plan serves them all.
    #[inline(always)]
    fn access_alike(
        &mut self,
        named: NamedAccess,
        first: u64,
        count: u64,
        cell: Cell,
    ) -> Result<(), Refusal>
        requires sound { IsSound self.old }
        requires accepted { MayBeNext self.old.state (named_of named) }
        requires lawful { AtPresent W.may_bring (shown_of self.old) }
        requires first { first ≡ named.access.at / 4 }
        requires count { count ≡ (named.access.at + named.access.len + 3) / 4 - first }
        requires cells { HaveCell (W.cell_of self.old.words) first count cell }
        requires within { IsWithin (length self.old.graph) (length self.old.sets.sets) cell }
        requires fillable { W.may_fill self.old.words first count }
        ensures answers { AnswersAccess ⟦<W as Words>⟧ self.old named result self.new }
        ensures went { W.went self.old.words self.new.words }
        ensures failures { W.failures self.new.words ≡ failed_after result (W.failures self.old.words) }
    {
        let planned = self.plan_for(&named.access, named.write, cell)?;
        if !planned.reported {
            self.state.follow_access(named.source, named.number);
            if are_same(planned.cell, cell) {
                return Ok(());
            }
            self.words.fill(first, count, planned.cell);
            return Ok(());
        }
        plan_alike(&mut self.plan, planned, count);
        reserve_reports(&mut self.kept, self.plan.as_slice())?;
        let next = self.state.events() + 1;
        self.state.follow_access(named.source, named.number);
        self.words.fill(first, count, planned.cell);
        let reports = add_reports(
            &mut self.kept,
            next,
            named.write,
            named.access.t,
            first,
            self.plan.as_slice(),
        );
        self.total += reports;
        Ok(())
    }

    /// Accepts an access whose event stands in memory: by the quick way, where the map knows its words without a search.
    #[inline(always)]
    pub(crate) fn accept_access(&mut self, named: NamedAccess) -> Result<(), Refusal>
        requires sound { IsSound self.old }
        requires accepted { MayBeNext self.old.state (named_of named) }
        requires lawful { AtPresent W.may_bring (shown_of self.old) }
        ensures answers { AnswersAccess ⟦<W as Words>⟧ self.old named result self.new }
        ensures went { W.went self.old.words self.new.words }
        ensures failures { W.failures self.new.words ≡ failed_after result (W.failures self.old.words) }
    {
        if let Some(quick) = self.quick(&named) {
            self.access_quickly(named, quick);
            return Ok(());
        }
        self.accept_slowly(named.source, named.number, named.access, named.write)
    }

    /// Accepts an access of which `quick` said nothing: `accept_access` takes this way, out of line, and hands the access over in
    /// registers.
    #[inline(never)]
    fn accept_slowly(
        &mut self,
        source: u16,
        number: u64,
        access: Access,
        write: bool,
    ) -> Result<(), Refusal>
        requires sound { IsSound self.old }
        requires accepted { MayBeNext self.old.state (access_named source number write access) }
        requires lawful { AtPresent W.may_bring (shown_of self.old) }
        ensures answers { Answers ⟦<W as Words>⟧ self.old (access_named source number write access) result self.new }
        ensures went { W.went self.old.words self.new.words }
        ensures failures { W.failures self.new.words ≡ failed_after result (W.failures self.old.words) }
    {
        self.access_slowly(NamedAccess {
            source,
            number,
            access,
            write,
        })
    }

    /// Accepts an access to memory.
    #[inline(always)]
    pub(crate) fn access(&mut self, named: NamedAccess) -> Result<(), Refusal>
        requires sound { IsSound self.old }
        requires accepted { MayBeNext self.old.state (named_of named) }
        requires lawful { AtPresent W.may_bring (shown_of self.old) }
        ensures answers { AnswersAccess ⟦<W as Words>⟧ self.old named result self.new }
        ensures went { W.went self.old.words self.new.words }
        ensures failures { W.failures self.new.words ≡ failed_after result (W.failures self.old.words) }
    {
        let first = named.access.at / 4;
        let last = (named.access.at + (u64::from(named.access.len) - 1)) / 4;
        let found = self.words.same(first, last + 1 - first);
        self.access_found(named, first, last + 1 - first, found)
    }

    /// Accepts an access of which `quick` said nothing. Words that the map has without a search are not looked up again.
    pub(crate) fn access_slowly(&mut self, named: NamedAccess) -> Result<(), Refusal>
        requires sound { IsSound self.old }
        requires accepted { MayBeNext self.old.state (named_of named) }
        requires lawful { AtPresent W.may_bring (shown_of self.old) }
        ensures answers { AnswersAccess ⟦<W as Words>⟧ self.old named result self.new }
        ensures went { W.went self.old.words self.new.words }
        ensures failures { W.failures self.new.words ≡ failed_after result (W.failures self.old.words) }
    {
        let first = named.access.at / 4;
        let last = (named.access.at + (u64::from(named.access.len) - 1)) / 4;
        match self.words.peek(first, last + 1 - first) {
            Some(cell) => self.access_alike(named, first, last + 1 - first, cell),
            None => self.access(named),
        }
    }

    /// Accepts an access. `found` is the map's answer on whether its words all have one cell.
    #[inline(always)]
    fn access_found(
        &mut self,
        named: NamedAccess,
        first: u64,
        count: u64,
        found: Option<Cell>,
    ) -> Result<(), Refusal>
        requires sound { IsSound self.old }
        requires accepted { MayBeNext self.old.state (named_of named) }
        requires lawful { AtPresent W.may_bring (shown_of self.old) }
        requires first { first ≡ named.access.at / 4 }
        requires count { count ≡ (named.access.at + named.access.len + 3) / 4 - first }
        requires cells { IfSome found (HaveCell (W.cell_of self.old.words) first count) }
        requires within { IfSome found (IsWithin (length self.old.graph) (length self.old.sets.sets)) }
        requires fillable { IfSome found (λ cell. W.may_fill self.old.words first count) }
        ensures answers { AnswersAccess ⟦<W as Words>⟧ self.old named result self.new }
        ensures went { W.went self.old.words self.new.words }
        ensures failures { W.failures self.new.words ≡ failed_after result (W.failures self.old.words) }
    {
        if let Some(cell) = found {
            if let Some(effect) = self.effect(&named.access, named.write, cell) {
                let quick = Quick {
                    first,
                    count,
                    cell,
                    effect,
                };
                self.access_quickly(named, quick);
                return Ok(());
            }
            // By `?`, here and below, so that the short ways answer in registers.
            self.access_alike(named, first, count, cell)?;
            return Ok(());
        }
        let segment = self.graph.present(named.access.t);
        if self.words.are_new_or_owned(first, count, segment) {
            self.state.follow_access(named.source, named.number);
            self.words.fill(first, count, Cell::Exclusive(segment));
            return Ok(());
        }
        self.access_unlike(named.source, named.number, named.access, named.write)?;
        Ok(())
    }

    /// Accepts an access to words that have different cells, or that may not be filled. It takes the access in parts, which go in
    /// registers. One struct would stand in memory at each access.
    #[inline(never)]
    fn access_unlike(
        &mut self,
        source: u16,
        number: u64,
        access: Access,
        write: bool,
    ) -> Result<(), Refusal>
        requires sound { IsSound self.old }
        requires accepted { MayBeNext self.old.state (access_named source number write access) }
        requires lawful { AtPresent W.may_bring (shown_of self.old) }
        ensures answers { Answers ⟦<W as Words>⟧ self.old (access_named source number write access) result self.new }
        ensures went { W.went self.old.words self.new.words }
        ensures failures { W.failures self.new.words ≡ failed_after result (W.failures self.old.words) }
    {
        let first = access.at / 4;
        let last = (access.at + (u64::from(access.len) - 1)) / 4;
        self.prepare(&access, write, first, last + 1)?;
        let event = self.state.events() + 1;
        self.state.follow_access(source, number);
        set_words(&mut self.words, first, self.plan.as_slice());
        self.total += add_reports(
            &mut self.kept,
            event,
            write,
            access.t,
            first,
            self.plan.as_slice(),
        );
        Ok(())
    }
}
