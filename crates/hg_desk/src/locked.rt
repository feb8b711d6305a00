//! The value behind the lock.

ghost use Rattle.std.specs.Prelude.{◌≡◌, ◌++◌, ◌+◌, ◌<◌, ◌≤◌, ◌^◌, ◌∷◌, ℕ, Ok, Err, cond, false, vec_len, All, IfOk, IfSome, IfErr, IsTrue};
ghost use Rattle.hg_model.specs.declared.verdict.Refusal.TheVariants.{Broken};
ghost use Rattle.hg_protocol.specs.Spelling.{FitsFrames};
ghost use Rattle.hg_store.specs.Shown.{HasCounted, live, saved};
ghost use Rattle.hg_store.specs.Store.{Backs};
ghost use Rattle.hg_desk.specs.Blanks.{IsBlankOf};
ghost use Rattle.hg_desk.specs.Conversation.{HadSince, MakesRoom, ReportsAnswer, count_of};
ghost use Rattle.hg_desk.specs.Going.{began};
ghost use Rattle.hg_store.specs.declared.steps.Step.TheVariants as step;
ghost use Rattle.hg_store.specs.declared.steps.StepResult.TheVariants as told;
ghost use Rattle.hg_desk.specs.Told.{StepKept, ack, fitting, listed, made_durable, nothing_told, taken};

use crate::desk::refused;
use crate::listed::ListedStep;
use crate::offering::offer_to;
use crate::sets::are_thread_sets;
use crate::share::{Column, Opening, Share};
use hg_detect::detector::Answer;
use hg_disk::Disk;
use hg_model::event::Named;
use hg_model::verdict::Refusal;
use hg_protocol::lines::{ReportLines, ReportList};
use hg_protocol::reply::Reply;
use hg_receipts::{Acked, Blank as BlankRegister, Register};
use hg_store::made::MadeStep;
use hg_store::steps::{Cause, Step, StepFault, StepResult};
use hg_store::store::Store;
use hg_trail::Trail;
use std::alloc::Global;
use std::marker::Model;
use std::snapshot::Snapshot;
use std::sync::ledger::{Blank, Book};

/// A store, and the books: how many events were accepted and made durable since the opening. The books have no bytes, so
/// the counts stand beside them. The steps are those since the opening, the newest first, which contracts alone see.
#[derive(Drop)]
pub struct Core<D: Disk, A: Opening, B: Column> {
    pub(crate) store: Store<D>,
    pub(crate) accepted: Book<A>,
    pub(crate) durable: Book<B>,
    pub(crate) accepted_count: u64,
    pub(crate) durable_count: u64,
    pub(crate) steps: Trail<MadeStep<D>>,
    /// The acknowledgements that were given.
    pub(crate) acks: Register<A>,
}

impl<D: Disk, A: Opening, B: Column> Model for Core<D, A, B> {
    ghost use Rattle.hg_store.specs.Shown.{ShownStore};
    ghost use Rattle.hg_desk.specs.Told.{IsCore};

    ghost Value = { ShownStore D };

    ghost view = { λ c. c.store };

    ghost invariant = { λ c. IsCore ⟦<D as Disk>⟧ A.start A.opening B.opening c.store c.accepted.total c.durable.total c.accepted_count c.durable_count c.steps c.acks };
}

/// How many events were accepted and made durable since the opening.
#[derive(Clone, Copy, Debug, PartialEq, Eq, Drop)]
pub struct Counts {
    pub accepted: u64,
    pub durable: u64,
}

/// Counts accepted events.
fn note_accepted<A: Opening, B: Column>(
    book: &mut Book<A>,
    count: &mut u64,
    share: &mut Share<A, B>,
    more: u64,
)
    requires counted { count.old ≡ book.old.total }
    ensures book { book.new.total ≡ book.old.total + fitting book.old.total more }
    ensures count { count.new ≡ book.new.total }
    ensures share { share.new ≡ record share.old { accepted = share.old.accepted + fitting book.old.total more } }
{
    book.audit(&mut share.accepted_part);
    let Some(total) = count.checked_add(more) else {
        return;
    };
    book.add(&mut share.accepted_part, more);
    *count = total;
    share.accepted += more;
}

/// Counts events that a commit made durable.
fn note_durable<A: Opening, B: Column>(
    book: &mut Book<B>,
    count: &mut u64,
    share: &mut Share<A, B>,
    more: u64,
)
    requires counted { count.old ≡ book.old.total }
    ensures book { book.new.total ≡ book.old.total + fitting book.old.total more }
    ensures count { count.new ≡ book.new.total }
    ensures share { share.new ≡ record share.old { durable = share.old.durable + fitting book.old.total more } }
{
    book.audit(&mut share.durable_part);
    let Some(total) = count.checked_add(more) else {
        return;
    };
    book.add(&mut share.durable_part, more);
    *count = total;
    share.durable += more;
}

/// Notes a step that was made. Offers and commits are counted, and not listed.
#[inline(always)]
fn note_step<A: Opening, B: Column>(share: &mut Share<A, B>, step: &Step, answer: &StepResult)
    ensures { share.new ≡ record share.old { steps = listed step.now answer.now ++ share.old.steps } }
{
    match step {
        Step::Offer(_) => {}
        Step::Commit => {}
        _ => share.steps.push(ListedStep::of(step, answer)),
    }
}

/// How many events an offer accepted.
fn accepted_by_offer(answer: &Result<Answer, Refusal>) -> u64
    ensures { result ≡ taken (told.Offered answer.now) }
{
    match answer {
        Ok(Answer::Accepted) => 1,
        Ok(Answer::Duplicate(_)) => 0,
        Err(_) => 0,
    }
}

/// How many events a step accepted.
fn accepted_by(answer: &StepResult) -> u64
    ensures { result ≡ taken answer.now }
{
    match answer {
        StepResult::Offered(answer) => accepted_by_offer(answer),
        _ => 0,
    }
}

/// How many events a commit made durable, if `before` were durable already.
fn durable_by_commit(before: u64, answer: &Result<u64, Refusal>) -> u64
    ensures { result ≡ made_durable before (told.Committed answer.now) }
{
    match answer {
        Ok(count) => count.saturating_sub(before),
        Err(_) => 0,
    }
}

/// How many events a step made durable, if `before` were durable already.
fn durable_by(before: u64, answer: &StepResult) -> u64
    ensures { result ≡ made_durable before answer.now }
{
    match answer {
        StepResult::Committed(answer) => durable_by_commit(before, answer),
        _ => 0,
    }
}

/// How many events are durable as a step begins, 0 where the store is broken.
fn durable_before<D: Disk>(store: &Store<D>) -> u64
    ensures durable { store.now.is_broken ≡ false → result ≡ store.now.durable }
    ensures events { store.now.is_broken ≡ false → (live ⟦<D as Disk>⟧ store.now).events < 2 ^ 64 }
    ensures backs { IsTrue D.is_honest → Backs ⟦<D as Disk>⟧ store.now }
    ensures count { IsTrue D.is_honest → HasCounted ⟦<D as Disk>⟧ store.now }
{
    store.stands();
    let _all = store.events();
    store.durable().unwrap_or(0)
}

impl<D: Disk, A: Opening, B: Column> Core<D, A, B> {
    /// Opens the books over a store, with a share for each part of the two blanks. Where memory is refused, all is handed back.
    pub fn open(
        alloc: Global,
        store: Store<D>,
        accepted: Blank,
        durable: Blank,
        acks: BlankRegister,
        shares: usize,
    ) -> Result<(Self, Vec<Share<A, B>>), (Store<D>, Blank, Blank, BlankRegister)>
        requires accepted { IsBlankOf A.name A.parts shares accepted }
        requires durable { IsBlankOf B.name B.parts shares durable }
        requires acks { acks ≡ A.table }
        requires opening { ((live ⟦<D as Disk>⟧ store).events ≡ A.opening) × (store.durable ≡ B.opening) }
        requires start { IfSome A.start (λ start. start ≡ began ⟦<D as Disk>⟧ store) }
        ensures core { IfOk result (λ r. r.0 ≡ store) }
        ensures shares { IfOk result (λ r. (vec_len r.1 ≡ shares) × All (λ s. s ≡ nothing_told) r.1.items) }
        ensures err { IfErr result (λ e. (e.0 ≡ store) × (e.1 ≡ accepted) × (e.2 ≡ durable) × (e.3 ≡ acks)) }
    {
        let Ok(mut all) = Vec::with_capacity(alloc, shares) else {
            return Err((store, accepted, durable, acks));
        };
        store.stands();
        let (accepted, mut accepted_rest) = accepted.open::<A>();
        let (durable, mut durable_rest) = durable.open::<B>();
        let mut acks = acks.open::<A>();
        for _i in 0..shares {
            let share = Share::none(
                accepted_rest.split_off(1, 0),
                durable_rest.split_off(1, 0),
                acks.none(),
            );
            all.push_reserved(share);
        }
        let core = Core {
            store,
            accepted,
            durable,
            accepted_count: 0,
            durable_count: 0,
            steps: Trail::new(),
            acks,
        };
        Ok((core, all))
    }

    /// One step of the store, which the books and the share count, and the share lists. `Freeze` and `WriteRoot` take memory. It is inlined, since an answer may
    /// have a page of 3 KiB, which would be copied.
    #[inline(always)]
    pub fn step(&mut self, alloc: Global, share: &mut Share<A, B>, step: &Step) -> StepResult
        ensures { StepKept ⟦<D as Disk>⟧ self.old self.new share.old share.new step.now result }
    {
        let before = durable_before(&self.store);
        let began = Snapshot::of(&self.store);
        let result = self.store.step(alloc, step);
        self.store.stands();
        self.steps.push(MadeStep::of(began, step, &result));
        let _more = self.store.events();
        note_accepted(
            &mut self.accepted,
            &mut self.accepted_count,
            share,
            accepted_by(&result),
        );
        note_durable(
            &mut self.durable,
            &mut self.durable_count,
            share,
            durable_by(before, &result),
        );
        note_step(share, step, &result);
        result
    }

    /// The step `Offer`, with an answer that has no room for a page.
    #[inline(always)]
    pub fn offer(&mut self, share: &mut Share<A, B>, named: &Named) -> Result<Answer, Refusal>
        ensures { StepKept ⟦<D as Disk>⟧ self.old self.new share.old share.new (step.Offer named.now) (told.Offered result) }
    {
        let _before = durable_before(&self.store);
        let began = Snapshot::of(&self.store);
        let answer = offer_to(&mut self.store, named);
        self.store.stands();
        let made = MadeStep::of(began, &Step::Offer(*named), &StepResult::Offered(answer));
        self.steps.push(made);
        let _more = self.store.events();
        note_accepted(
            &mut self.accepted,
            &mut self.accepted_count,
            share,
            accepted_by_offer(&answer),
        );
        answer
    }

    /// The step `Commit`, with an answer that has no room for a page.
    pub fn commit(&mut self, share: &mut Share<A, B>) -> Result<u64, Refusal>
        ensures { StepKept ⟦<D as Disk>⟧ self.old self.new share.old share.new step.Commit (told.Committed result) }
    {
        let before = durable_before(&self.store);
        let began = Snapshot::of(&self.store);
        let answer = self.store.commit();
        self.store.stands();
        let made = MadeStep::of(began, &Step::Commit, &StepResult::Committed(answer));
        self.steps.push(made);
        let _more = self.store.events();
        note_durable(
            &mut self.durable,
            &mut self.durable_count,
            share,
            durable_by_commit(before, &answer),
        );
        answer
    }

    /// Notes an acknowledgement, and gives the share a receipt for it.
    pub(crate) fn acknowledge(&mut self, share: &mut Share<A, B>, source: u16, number: u64)
        requires durable { IsTrue D.is_honest → number ≤ (saved ⟦<D as Disk>⟧ self.old).last source }
        ensures same { self.new ≡ self.old }
        ensures share { share.new ≡ record share.old { acks = ack source number ∷ share.old.acks } }
    {
        self.acks
            .note(&mut share.receipts, Acked { source, number });
    }

    /// Tells contracts that the store has gone on from its opening.
    pub(crate) fn went_on(&self)
        ensures { HadSince ⟦<D as Disk>⟧ A.start self.now }
    {
        let _ = &self.steps;
    }

    /// Commits where so many more events do not fit behind those that wait for a commit.
    pub(crate) fn make_room(&mut self, share: &mut Share<A, B>, more: usize)
        ensures { MakesRoom ⟦<D as Disk>⟧ more self.old self.new share.old share.new }
    {
        if more > self.store.room() {
            let _ = self.commit(share);
        }
    }

    /// The step `Freeze`.
    pub(crate) fn freeze(&mut self, alloc: Global, share: &mut Share<A, B>) -> Result<(), StepFault>
        ensures { StepKept ⟦<D as Disk>⟧ self.old self.new share.old share.new step.Freeze (told.Frozen result) }
    {
        match self.step(alloc, share, &Step::Freeze) {
            StepResult::Frozen(result) => result,
            _ => Err(StepFault::Refused(Cause::Broken)),
        }
    }

    /// How many events were accepted and made durable since the opening, through all shares: at least as many as this share was told of.
    pub fn counts(&mut self, share: &mut Share<A, B>) -> Counts
        ensures events { IsTrue D.is_honest → (live ⟦<D as Disk>⟧ self.old).events ≡ A.opening + result.accepted }
        ensures durable { IsTrue D.is_honest → self.old.durable ≡ B.opening + result.durable }
        ensures told { (share.old.accepted ≤ result.accepted) × (share.old.durable ≤ result.durable) }
        ensures same { self.new ≡ self.old }
        ensures share { share.new ≡ share.old }
    {
        self.accepted.audit(&mut share.accepted_part);
        self.durable.audit(&mut share.durable_part);
        Counts {
            accepted: self.accepted_count,
            durable: self.durable_count,
        }
    }

    /// How many events the store has accepted.
    pub fn events(&self) -> Result<u64, Refusal>
        ensures { result ≡ count_of ⟦<D as Disk>⟧ self.now }
    {
        self.store.events()
    }

    /// The last accepted number of a source, 0 where it sent nothing.
    pub fn last(&self, source: u16) -> Result<u64, Refusal>
        ensures { result ≡ cond self.now.is_broken (Err Broken) (Ok ((live ⟦<D as Disk>⟧ self.now).last source)) }
    {
        self.store.last(source)
    }

    /// The answer to a Reports frame. It is `Damaged` where the threads of a report are no set of threads, since the devices lie.
    pub fn report_lines(&self, alloc: Global) -> Reply
        ensures answer { ReportsAnswer D.is_honest self.now.is_broken (live ⟦<D as Disk>⟧ self.now) result }
        ensures fits { FitsFrames result }
    {
        let Ok(segments) = self.store.graph() else {
            return refused(0, Refusal::Broken);
        };
        // A store that tells its segments works, and tells both counts.
        let events = self.store.events().unwrap_or(0);
        let races = self.store.total().unwrap_or(0);
        let reports = match self.store.reports(alloc) {
            Ok(reports) => reports,
            Err(refusal) => return refused(0, refusal),
        };
        self.store.stands();
        if !are_thread_sets(reports.as_slice()) {
            return refused(0, Refusal::Damaged);
        }
        Reply::Lines {
            lines: ReportLines {
                reports: ReportList::from_vec(reports),
                events,
                races,
                segments: segments.len() as u64,
            },
        }
    }
}
