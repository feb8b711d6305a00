//! The events of two journals behind a checkpoint.

ghost use Rattle.std.specs.Prelude.{◌≡◌, ◌<◌, ◌+◌, IfErr, OnOk, false};
ghost use Rattle.hg_detect.specs.Engine.{AtPresent};
ghost use Rattle.hg_detect.specs.Shown.{content};
ghost use Rattle.hg_journals.specs.Collecting.{KeepsIfTrue};
ghost use Rattle.hg_journals.specs.Pairs.{StaysKept, is_broken};
ghost use Rattle.hg_pool.specs.Answers.{IsFull};
ghost use Rattle.hg_pool.specs.Kept.{Went};
ghost use Rattle.hg_pool.specs.Maps as pools;
ghost use Rattle.hg_pool.specs.Maps.{live};
ghost use Rattle.hg_pool.specs.OfWords.{MayBring};
ghost use Rattle.hg_recovery.specs.Answers.{IsOfRecovery, OnFullSlots, WorksOrFault};
ghost use Rattle.hg_recovery.specs.Replaying.{Accepts, AsksIfFaithful, CallsForEach, CallsForRest, CountsReplay, CountsWords, FillsSets, FollowsIfFaithful, FollowsRest, IsDamagedBehind, IsDamagedIfReady, IsFullBehind, IsFullIfFaithful, KeepsLimit, LeadsOn, PairWasRead, RefusesOutside, StaysFaithful, StaysReady, TellsTrueDamage, TellsTrueFullSets, most_calls};

use hg_detect::detector::Detector;
use hg_disk::Disk;
use hg_journals::{JournalPair, PairReader};
use hg_model::event::Named;
use hg_model::limits::MOST_EVENTS;
use hg_model::verdict::{Refusal, Verdict};
use hg_pool::Pool;

// Has the detector follow an event of the journals. They have no event that the rules do not accept: it is told as
// `Damaged`, and so is a page that reads otherwise than it was written.
#[inline(always)]
fn follow<D: Disk>(detector: &mut Detector<Pool<D>>, named: &Named) -> Result<(), Refusal>
    requires lawful { AtPresent MayBring detector.old }
    requires unbroken { pools.is_broken detector.old.words ≡ false }
    ensures accepted { OnOk result (Accepts ⟦<D as Disk>⟧ detector.old named.now) }
    ensures content { FollowsIfFaithful ⟦<D as Disk>⟧ detector.old detector.new named.now result }
    ensures asked { AsksIfFaithful ⟦<D as Disk>⟧ detector.old detector.new named.now result }
    ensures few { OnOk result ((content (live ⟦<D as Disk>⟧) detector.old).events < MOST_EVENTS) }
    ensures damaged { IsDamagedIfReady ⟦<D as Disk>⟧ detector.old named.now result }
    ensures full { IsFullIfFaithful ⟦<D as Disk>⟧ detector.old detector.new named.now result }
    ensures slots { OnFullSlots result (IsFull detector.new.words) }
    ensures unbroken { WorksOrFault result detector.new.words }
    ensures lawful { AtPresent MayBring detector.new }
    ensures faithful { StaysFaithful ⟦<D as Disk>⟧ detector.old detector.new }
    ensures went { Went ⟦<D as Disk>⟧ detector.old.words detector.new.words }
    ensures refusal { IfErr result IsOfRecovery }
    ensures device { CountsWords ⟦<D as Disk>⟧ detector.old detector.new result }
{
    match detector.verdict(named) {
        Verdict::Accept => {}
        Verdict::Duplicate(_) => return Err(Refusal::Damaged),
        Verdict::Refuse(_) => return Err(Refusal::Damaged),
    }
    detector.accept(named)
}

// Has the detector follow each event that is left.
fn follow_rest<D: Disk>(
    journals: &mut JournalPair<D>,
    reader: &mut PairReader,
    detector: &mut Detector<Pool<D>>,
) -> Result<(), Refusal>
    requires works { is_broken journals.old ≡ false }
    requires lawful { AtPresent MayBring detector.old }
    requires unbroken { pools.is_broken detector.old.words ≡ false }
    ensures followed { FollowsRest journals.old reader.old detector.old detector.new result }
    ensures damaged { IsDamagedBehind journals.old reader.old detector.old result }
    ensures full { IsFullBehind journals.old reader.old detector.old result }
    ensures slots { OnFullSlots result (IsFull detector.new.words) }
    ensures keeps { StaysKept journals.old journals.new }
    ensures unbroken { WorksOrFault result detector.new.words }
    ensures lawful { AtPresent MayBring detector.new }
    ensures faithful { StaysFaithful ⟦<D as Disk>⟧ detector.old detector.new }
    ensures went { Went ⟦<D as Disk>⟧ detector.old.words detector.new.words }
    ensures refusal { IfErr result IsOfRecovery }
    ensures device { CountsReplay journals.old detector.old journals.new detector.new result }
    ensures files { PairWasRead (MOST_EVENTS + 1) journals.old journals.new }
    ensures calls { CallsForRest journals.old reader.old detector.old journals.new }
{
    for _number in 0..MOST_EVENTS + 1 {
        match journals.next(reader)? {
            Some(named) => follow(detector, &named)?,
            None => return Ok(()),
        }
    }
    Err(Refusal::Damaged)
}

/// Has the detector follow the events of the pair behind those that it counts already. It passes over the events that
/// the detector counts, from the first kept one on, and offers each further one.
///
/// A refusal is `Damaged` only if these events lead on to no content: the detector counts fewer events than came
/// before the first kept one, or more than there were up to the last one, or the rules do not accept one of them. In
/// the first two cases it is always told, and nothing is changed. `FullSets`: the table of sets has no room for the
/// sets of an event. `FullSlots`: no slot of the pool is free. `DeviceFault`: one call of a device failed. Or
/// `OutOfMemory`. After each of these the detector may have followed some of the events. Neither file is changed.
pub fn replay<D: Disk>(
    journals: &mut JournalPair<D>,
    detector: &mut Detector<Pool<D>>,
) -> Result<(), Refusal>
    requires works { is_broken journals.old ≡ false }
    requires lawful { AtPresent MayBring detector.old }
    requires unbroken { pools.is_broken detector.old.words ≡ false }
    ensures replayed { LeadsOn journals.old detector.old detector.new result }
    ensures sets { FillsSets journals.old detector.old detector.new result }
    ensures ready { StaysReady journals.old detector.old detector.new result }
    ensures limit { KeepsLimit journals.old detector.old detector.new result }
    ensures damaged { TellsTrueDamage journals.old detector.old result }
    ensures outside { RefusesOutside journals.old detector.old journals.new detector.new result }
    ensures full { TellsTrueFullSets journals.old detector.old result }
    ensures slots { OnFullSlots result (IsFull detector.new.words) }
    ensures keeps { KeepsIfTrue journals.old journals.new }
    ensures unbroken { WorksOrFault result detector.new.words }
    ensures lawful { AtPresent MayBring detector.new }
    ensures faithful { StaysFaithful ⟦<D as Disk>⟧ detector.old detector.new }
    ensures went { Went ⟦<D as Disk>⟧ detector.old.words detector.new.words }
    ensures works { is_broken journals.new ≡ false }
    ensures refusal { IfErr result IsOfRecovery }
    ensures device { CountsReplay journals.old detector.old journals.new detector.new result }

    // Over any devices neither file is changed, and no moment adds an image of one.
    ensures files { PairWasRead (most_calls journals.old detector.old) journals.old journals.new }
    ensures calls { CallsForEach journals.old detector.old journals.new }
{
    let mut reader = journals.events_behind(detector.state().events())?;
    follow_rest(journals, &mut reader, detector)
}
