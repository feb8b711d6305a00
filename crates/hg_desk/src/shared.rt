//! The lock, and how a shared store is opened and taken in.

ghost use Rattle.std.specs.Prelude.{◌≡◌, ◌+◌, ◌≤◌, ◌⊎◌, ◌≢◌, length, map, sum, vec_len, All, IfOk, IfSome, IfErr, IsTrue};
ghost use Rattle.hg_receipts.specs.Receipts.{AreAmong};
ghost use Rattle.hg_store.specs.Shown.{live, saved};
ghost use Rattle.hg_desk.specs.Blanks.{IsBlankOf};
ghost use Rattle.hg_desk.specs.Going.{RanSince, WentOnSince, began, moments_of};
ghost use Rattle.hg_desk.specs.Counting.{AreAcked, AreDisputed, HasTheirAcks, HasTheirDurable, HasTheirEvents, ImagesHaveThem, WhereAll, accepted_in, durable_in, events_of};
ghost use Rattle.hg_desk.specs.Told.{nothing_told};

use crate::locked::Core;
use crate::share::{Column, Opening, Share};
use crate::tasks::Task;
use hg_disk::Disk;
use hg_receipts::{Blank as BlankRegister, Register};
use hg_store::made::MadeStep;
use hg_store::store::Store;
use hg_trail::Trail;
use std::alloc::Global;
use std::sync::ledger::{Blank, Book, Share as Part};
use std::sync::{Mutex, Wait};

/// A store that threads share.
#[derive(Drop)]
pub struct Shared<D: Disk, A: Opening, B: Column> {
    core: Mutex<Core<D, A, B>>,
}

/// A store that was taken in.
#[derive(Drop)]
pub struct TakenIn<D: Disk> {
    pub store: Store<D>,
    /// The steps since the opening, the newest first, which contracts alone see.
    pub steps: Trail<MadeStep<D>>,
}

/// What the shares were told, and what the books have.
#[derive(Clone, Copy, Debug, PartialEq, Eq, Drop)]
pub struct Tally {
    pub accepted_told: u128,
    pub accepted_book: u128,
    pub durable_told: u128,
    pub durable_book: u128,
}

impl<D: Disk, A: Opening, B: Column> Shared<D, A, B> {
    /// Takes the lock, and runs the task once.
    pub fn hold<T: Task<D, A, B>>(&self, rt: &impl Wait, share: &mut Share<A, B>, task: T) -> T::Out
        ensures { T.promise task share.old share.new result }
    {
        let mut core = self.core.lock(rt);
        task.run(&mut *core, share)
    }

    /// Opens the lock over a store, with a share for each part of the two blanks. Where memory is refused, all is handed back.
    pub fn new(
        alloc: Global,
        store: Store<D>,
        accepted: Blank,
        durable: Blank,
        acks: BlankRegister,
        shares: usize,
    ) -> Result<(Self, Vec<Share<A, B>>), (Store<D>, Blank, Blank, BlankRegister)>
        requires accepted { IsBlankOf A.name A.parts shares accepted }
        requires durable { IsBlankOf B.name B.parts shares durable }
        requires acks { acks ≡ A.table }
        requires opening { ((live ⟦<D as Disk>⟧ store).events ≡ A.opening) × (store.durable ≡ B.opening) }
        requires start { IfSome A.start (λ start. start ≡ began ⟦<D as Disk>⟧ store) }
        ensures shares { IfOk result (λ r. (vec_len r.1 ≡ shares) × All (λ s. s ≡ nothing_told) r.1.items) }
        ensures err { IfErr result (λ e. (e.0 ≡ store) × (e.1 ≡ accepted) × (e.2 ≡ durable) × (e.3 ≡ acks)) }
    {
        let (core, all) = Core::open(alloc, store, accepted, durable, acks, shares)?;
        Ok((
            Shared {
                core: Mutex::new(core),
            },
            all,
        ))
    }

    /// Takes the store back without comparing shares with the books, for where shares are lost.
    pub fn into_store(self) -> TakenIn<D>
        ensures since { WentOnSince ⟦<D as Disk>⟧ A.start (moments_of result.steps) result.store }
        ensures ran { RanSince ⟦<D as Disk>⟧ A.start result.steps result.store }
    {
        self.core.into_inner().into_store()
    }
}

/// What the shares were told, in all.
fn told<A: Opening, B: Column>(shares: &[Share<A, B>]) -> (u128, u128)
    ensures accepted { result.0 ≡ accepted_in shares.now }
    ensures durable { result.1 ≡ durable_in shares.now }
{
    let mut accepted: u128 = 0;
    let mut durable: u128 = 0;
    for share in shares {
        accepted += u128::from(share.accepted());
        durable += u128::from(share.durable());
    }
    (accepted, durable)
}

impl<D: Disk, A: Opening, B: Column> Core<D, A, B> {
    /// Compares the books and the acknowledgements with the shares, and tells the counts of both.
    fn tally(&mut self, shares: &mut [Share<A, B>]) -> Tally
        ensures accepted_told { result.accepted_told ≡ accepted_in shares.old }
        ensures durable_told { result.durable_told ≡ durable_in shares.old }
        ensures accepted_book { IsTrue D.is_honest
            → events_of ⟦<D as Disk>⟧ self.old ≡ A.opening + result.accepted_book }
        ensures durable_book { IsTrue D.is_honest → self.old.durable ≡ B.opening + result.durable_book }
        ensures accepted { WhereAll shares.old A.parts (result.accepted_told ≡ result.accepted_book) }
        ensures durable { WhereAll shares.old B.parts (result.durable_told ≡ result.durable_book) }
        ensures acked { IsTrue D.is_honest → AreAcked (saved ⟦<D as Disk>⟧ self.old) shares.old }
        ensures same { self.new ≡ self.old }
        ensures shares { shares.new ≡ shares.old }
    {
        self.compare(shares);
        let (accepted_told, durable_told) = told(shares);
        audit(&mut self.accepted, &mut self.durable, shares);
        Tally {
            accepted_told,
            accepted_book: u128::from(self.accepted_count),
            durable_told,
            durable_book: u128::from(self.durable_count),
        }
    }

    /// Compares the receipts of shares with the acknowledgements: each was given, and stands in the durable content.
    fn compare(&mut self, shares: &mut [Share<A, B>])
        ensures acked { IsTrue D.is_honest → AreAcked (saved ⟦<D as Disk>⟧ self.old) shares.old }
        ensures same { self.new ≡ self.old }
        ensures shares { shares.new ≡ shares.old }
    {
        compare_each(&mut self.acks, shares);
    }

    fn into_store(self) -> TakenIn<D>
        ensures store { result.store ≡ self }
        ensures since { WentOnSince ⟦<D as Disk>⟧ A.start (moments_of result.steps) result.store }
        ensures ran { RanSince ⟦<D as Disk>⟧ A.start result.steps result.store }
    {
        let Core {
            store,
            accepted: _,
            durable: _,
            accepted_count: _,
            durable_count: _,
            steps,
            acks: _,
        } = self;
        TakenIn { store, steps }
    }
}

/// Compares the books with the shares: if all shares are here, the totals are what they were told.
fn audit<A: Opening, B: Column>(
    accepted: &mut Book<A>,
    durable: &mut Book<B>,
    shares: &mut [Share<A, B>],
)
    ensures accepted { WhereAll shares.old A.parts (accepted.old.total ≡ accepted_in shares.old) }
    ensures durable { WhereAll shares.old B.parts (durable.old.total ≡ durable_in shares.old) }
    ensures books { (accepted.new.total ≡ accepted.old.total) × (durable.new.total ≡ durable.old.total) }
    ensures shares { shares.new ≡ shares.old }
{
    let Some(first) = shares.first_mut() else {
        return;
    };
    let mut seen_accepted = first.accepted_part.empty();
    let mut seen_durable = first.durable_part.empty();
    audit_accepted(accepted, shares, &mut seen_accepted);
    audit_durable(durable, shares, &mut seen_durable);
}

/// Lends the parts of these shares to `seen`, which then stands for all of them, and takes them back. No byte is changed: it is the
/// books' own law that whoever has all parts has the total.
fn audit_accepted<A: Opening, B: Column>(
    book: &mut Book<A>,
    shares: &mut [Share<A, B>],
    seen: &mut Part<A>,
)
    requires backed { seen.old.parts ≡ 0 → seen.old.amount ≡ 0 }
    ensures whole { seen.old.parts + length shares.old ≡ A.parts
        → seen.old.amount + accepted_in shares.old ≡ book.old.total }
    ensures book { book.new.total ≡ book.old.total }
    ensures shares { shares.new ≡ shares.old }
    ensures seen { (seen.new.parts ≡ seen.old.parts) × (seen.new.amount ≡ seen.old.amount) }
{
    let Some((first, rest)) = shares.split_first_mut() else {
        book.audit(seen);
        return;
    };
    let told = first.accepted;
    first.accepted_part.give(seen, 1, told);
    audit_accepted(book, rest, seen);
    seen.give(&mut first.accepted_part, 1, told);
}

/// Lends the parts of these shares in the other column to `seen`, as `audit_accepted` does.
fn audit_durable<A: Opening, B: Column>(
    book: &mut Book<B>,
    shares: &mut [Share<A, B>],
    seen: &mut Part<B>,
)
    requires backed { seen.old.parts ≡ 0 → seen.old.amount ≡ 0 }
    ensures whole { seen.old.parts + length shares.old ≡ B.parts
        → seen.old.amount + durable_in shares.old ≡ book.old.total }
    ensures book { book.new.total ≡ book.old.total }
    ensures shares { shares.new ≡ shares.old }
    ensures seen { (seen.new.parts ≡ seen.old.parts) × (seen.new.amount ≡ seen.old.amount) }
{
    let Some((first, rest)) = shares.split_first_mut() else {
        book.audit(seen);
        return;
    };
    let told = first.durable;
    first.durable_part.give(seen, 1, told);
    audit_durable(book, rest, seen);
    seen.give(&mut first.durable_part, 1, told);
}

/// Compares the receipts of shares with a register. No byte is changed.
fn compare_each<A: Opening, B: Column>(acks: &mut Register<A>, shares: &mut [Share<A, B>])
    ensures among { All (λ s. AreAmong s.acks acks.old) shares.old }
    ensures same { acks.new ≡ acks.old }
    ensures shares { shares.new ≡ shares.old }
{
    let Some((first, rest)) = shares.split_first_mut() else {
        return;
    };
    acks.compare(&mut first.receipts);
    compare_each(acks, rest);
}

/// Takes the store back from all workers. An `Err` comes only where the books differ from what the shares were told, and hands all back.
pub fn gather<D: Disk, A: Opening, B: Column>(
    shares: Vec<Share<A, B>>,
    shared: Shared<D, A, B>,
) -> Result<TakenIn<D>, (Vec<Share<A, B>>, Shared<D, A, B>, Tally)>
    ensures events { IsTrue D.is_honest → IfOk result (HasTheirEvents ⟦<D as Disk>⟧ A.opening shares.items) }
    ensures durable { IsTrue D.is_honest → IfOk result (HasTheirDurable ⟦<D as Disk>⟧ B.opening shares.items) }
    ensures since { IfOk result (λ r. WentOnSince ⟦<D as Disk>⟧ A.start (moments_of r.steps) r.store) }
    ensures ran { IfOk result (λ r. RanSince ⟦<D as Disk>⟧ A.start r.steps r.store) }
    ensures images { IsTrue D.is_honest → IfOk result (ImagesHaveThem ⟦<D as Disk>⟧ B.opening shares.items) }
    // What the shares were told is acknowledged, the durable content has.
    ensures acked { IsTrue D.is_honest → IfOk result (HasTheirAcks ⟦<D as Disk>⟧ shares.items) }
    // Where all shares come back, they agree with the books.
    ensures whole { 1 ≤ vec_len shares → vec_len shares ≡ A.parts → vec_len shares ≡ B.parts → IfErr result (λ e. ⊥) }
    ensures err { IfErr result (λ e. AreDisputed shares.items e.0.items e.2) }
{
    let Shared { core } = shared;
    let mut core = core.into_inner();
    let mut shares = shares;
    let tally = core.tally(shares.as_mut_slice());
    if tally.accepted_told != tally.accepted_book || tally.durable_told != tally.durable_book {
        let shared = Shared {
            core: Mutex::new(core),
        };
        return Err((shares, shared, tally));
    }
    let taken_in = core.into_store();
    taken_in.store.stands();
    Ok(taken_in)
}
