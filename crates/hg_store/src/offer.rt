//! Offering events to a store.

ghost use Rattle.std.specs.Prelude.{◌≡◌, ◌<◌, ◌++◌, length, IsTrue, vec_capacity};
ghost use Rattle.hg_journal.specs.Journal.{failed_after};
ghost use Rattle.hg_model.specs.Accessing.{access_named};
ghost use Rattle.hg_model.specs.Holding.{hold_named};
ghost use Rattle.hg_detect.specs.Engine.{AtPresent};
ghost use Rattle.hg_pool.specs.OfWords.{MayBring};
ghost use Rattle.hg_store.specs.Offers.{IsOffered};
ghost use Rattle.hg_store.specs.Shown.{KeepsLimits};
ghost use Rattle.hg_store.specs.Steps.{ContentOffered, HasRoom, IsAnsweredWhenFull, OfferDone, if_accepted};
ghost use Rattle.hg_store.specs.Store.{StandMeanwhile};
ghost use Rattle.hg_store.specs.Images.{FailuresBecome};

use crate::store::{MOST_PENDING, Store};
use hg_detect::detector::{Answer, Detector};
use hg_disk::Disk;
use hg_gate::MAX_BASE;
use hg_model::event::{Access, Event, Hold, Named};
use hg_model::verdict::{Refusal, Verdict};
use hg_pool::Pool;
use hg_records::record::records_fit;

/// The event of a read or a write under the number that its source gave it.
#[inline(always)]
pub fn named_access(source: u16, number: u64, access: Access, write: bool) -> Named
    ensures { result ≡ access_named source number write access }
{
    let event = match write {
        true => Event::Write(access),
        false => Event::Read(access),
    };
    Named {
        source,
        number,
        event,
    }
}

/// The event on a lock under the number that its source gave it.
#[inline(always)]
pub fn named_hold(source: u16, number: u64, hold: Hold) -> Named
    ensures { result ≡ hold_named source number hold }
{
    let event = hold.event();
    Named {
        source,
        number,
        event,
    }
}

/// Offers an event to the detector of a store.
#[inline(always)]
fn offer_event<D: Disk>(detector: &mut Detector<Pool<D>>, named: &Named) -> Result<Answer, Refusal>
    requires lawful { AtPresent MayBring detector.old }
    ensures { IsOffered ⟦<D as Disk>⟧ detector.old named.now result detector.new }
{
    detector.apply(named)
}

/// Offers a read or a write to it.
#[inline(always)]
fn offer_access<D: Disk>(
    detector: &mut Detector<Pool<D>>,
    source: u16,
    number: u64,
    access: Access,
    write: bool,
) -> Result<Answer, Refusal>
    requires lawful { AtPresent MayBring detector.old }
    ensures { IsOffered ⟦<D as Disk>⟧ detector.old (access_named source number write access) result detector.new }
{
    detector.touch(source, number, access, write)
}

/// Offers an event on a lock to it.
#[inline(always)]
fn offer_hold<D: Disk>(
    detector: &mut Detector<Pool<D>>,
    source: u16,
    number: u64,
    hold: Hold,
) -> Result<Answer, Refusal>
    requires lawful { AtPresent MayBring detector.old }
    ensures { IsOffered ⟦<D as Disk>⟧ detector.old (hold_named source number hold) result detector.new }
{
    detector.hold(source, number, hold)
}

/// Adds an event to the pending ones, if it was accepted.
#[inline(always)]
fn add_accepted(pending: &mut Vec<Named>, named: Named, answer: &Result<Answer, Refusal>)
    requires room { length pending.old.items < vec_capacity pending.old }
    ensures added { pending.new.items ≡ pending.old.items ++ if_accepted named answer.now }
    ensures capacity { vec_capacity pending.new ≡ vec_capacity pending.old }
{
    match answer {
        Ok(Answer::Accepted) => pending.push_reserved(named),
        Ok(Answer::Duplicate(_)) => {}
        Err(_) => {}
    }
}

impl<D: Disk> Store<D> {
    /// Offers an event. It is accepted, or it was sent before, or it is refused. The answer is the first refusal that
    /// applies: `Broken`; a refusal of the trace rules; `FullPending` if 1,024 events wait for a commit; and then a lack of
    /// room: for the pages of the event's words, for its sets, or of memory. A refusal leaves the content and the pending
    /// events as they were.
    pub fn offer(&mut self, named: &Named) -> Result<Answer, Refusal>
        ensures done { OfferDone ⟦<D as Disk>⟧ self.old self.new named.now result }
        ensures content { IsTrue D.is_honest → ContentOffered ⟦<D as Disk>⟧ self.old self.new named.now result }
        ensures device { FailuresBecome ⟦<D as Disk>⟧ self.old.devices self.new.devices (failed_after result) }
        ensures images { IsTrue D.is_honest → StandMeanwhile ⟦<D as Disk>⟧ self.old self.new self.old.in_doubt }
        ensures limits { KeepsLimits self.old self.new }
    {
        if self.is_broken {
            return Err(Refusal::Broken);
        }
        if !self.has_room() {
            return self.answer_when_full(named);
        }
        records_fit(named);
        let answer = offer_event(&mut self.detector, named);
        add_accepted(&mut self.pending, *named, &answer);
        self.is_broken = self.detector.words().is_broken();
        answer
    }

    /// Offers a read or a write under the number that its source gave it. It does what `offer` does with that event, and
    /// spares the caller to make one.
    #[inline(always)]
    pub fn touch(
        &mut self,
        source: u16,
        number: u64,
        access: Access,
        write: bool,
    ) -> Result<Answer, Refusal>
        ensures done { OfferDone ⟦<D as Disk>⟧ self.old self.new (access_named source number write access) result }
        ensures content { IsTrue D.is_honest → ContentOffered ⟦<D as Disk>⟧ self.old self.new (access_named source number write access) result }
        ensures device { FailuresBecome ⟦<D as Disk>⟧ self.old.devices self.new.devices (failed_after result) }
        ensures images { IsTrue D.is_honest → StandMeanwhile ⟦<D as Disk>⟧ self.old self.new self.old.in_doubt }
        ensures limits { KeepsLimits self.old self.new }
    {
        if self.is_broken {
            return Err(Refusal::Broken);
        }
        if !self.has_room() {
            return self.answer_when_full(&named_access(source, number, access, write));
        }
        let touching = named_access(source, number, access, write);
        records_fit(&touching);
        let answer = offer_access(&mut self.detector, source, number, access, write);
        add_accepted(&mut self.pending, touching, &answer);
        self.is_broken = self.detector.words().is_broken();
        answer
    }

    /// Offers an event on a lock under the number that its source gave it. It does what `offer` does with that event, and
    /// spares the caller to make one.
    #[inline(always)]
    pub fn hold(&mut self, source: u16, number: u64, hold: Hold) -> Result<Answer, Refusal>
        ensures done { OfferDone ⟦<D as Disk>⟧ self.old self.new (hold_named source number hold) result }
        ensures content { IsTrue D.is_honest → ContentOffered ⟦<D as Disk>⟧ self.old self.new (hold_named source number hold) result }
        ensures device { FailuresBecome ⟦<D as Disk>⟧ self.old.devices self.new.devices (failed_after result) }
        ensures images { IsTrue D.is_honest → StandMeanwhile ⟦<D as Disk>⟧ self.old self.new self.old.in_doubt }
        ensures limits { KeepsLimits self.old self.new }
    {
        if self.is_broken {
            return Err(Refusal::Broken);
        }
        if !self.has_room() {
            return self.answer_when_full(&named_hold(source, number, hold));
        }
        let holding = named_hold(source, number, hold);
        records_fit(&holding);
        let answer = offer_hold(&mut self.detector, source, number, hold);
        add_accepted(&mut self.pending, holding, &answer);
        self.is_broken = self.detector.words().is_broken();
        answer
    }

    /// Whether one more event may wait for a commit. Over honest devices the journals have a number for each event that the
    /// rules accept.
    #[inline(always)]
    fn has_room(&self) -> bool
        ensures yes { IsTrue result → HasRoom self.now }
        ensures no { HasRoom self.now → IsTrue result }
    {
        self.pending.len() < MOST_PENDING
            && self.journals.last_kept() + (self.pending.len() as u64) < MAX_BASE
    }

    /// The answer to an event where no further one may wait for a commit.
    #[cold]
    #[inline(never)]
    fn answer_when_full(&self, named: &Named) -> Result<Answer, Refusal>
        ensures { IsAnsweredWhenFull ⟦<D as Disk>⟧ self.now named.now result }
    {
        match self.detector.verdict(named) {
            Verdict::Accept => {
                if self.pending.len() >= MOST_PENDING {
                    Err(Refusal::FullPending)
                } else {
                    Err(Refusal::Damaged)
                }
            }
            Verdict::Duplicate(last) => Ok(Answer::Duplicate(last)),
            Verdict::Refuse(refusal) => Err(refusal),
        }
    }
}
