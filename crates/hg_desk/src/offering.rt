//! Offering the event of a frame to a store.

ghost use Rattle.std.specs.Prelude.{IsTrue};
ghost use Rattle.hg_store.specs.Journal.{failed_after};
ghost use Rattle.hg_store.specs.Images.{FailuresBecome};
ghost use Rattle.hg_store.specs.Shown.{KeepsLimits};
ghost use Rattle.hg_store.specs.Steps.{ContentOffered, OfferDone};
ghost use Rattle.hg_store.specs.Store.{StandMeanwhile};

use hg_detect::detector::Answer;
use hg_disk::Disk;
use hg_model::event::{Event, Hold, HoldKind, Named};
use hg_model::verdict::Refusal;
use hg_store::store::Store;

/// Offers an event to a store: a read, a write and an event on a lock in its parts, which is faster.
#[inline(always)]
pub(crate) fn offer_to<D: Disk>(store: &mut Store<D>, named: &Named) -> Result<Answer, Refusal>
    ensures done { OfferDone ⟦<D as Disk>⟧ store.old store.new named.now result }
    ensures content { IsTrue D.is_honest → ContentOffered ⟦<D as Disk>⟧ store.old store.new named.now result }
    ensures device { FailuresBecome ⟦<D as Disk>⟧ store.old.devices store.new.devices (failed_after result) }
    ensures images { IsTrue D.is_honest → StandMeanwhile ⟦<D as Disk>⟧ store.old store.new store.old.in_doubt }
    ensures limits { KeepsLimits store.old store.new }
{
    let Named {
        source,
        number,
        event,
    } = *named;
    match event {
        Event::Read(access) => store.touch(source, number, access, false),
        Event::Write(access) => store.touch(source, number, access, true),
        Event::Lock { t, l } => {
            let kind = HoldKind::Lock;
            store.hold(source, number, Hold { t, l, kind })
        }
        Event::RdLock { t, l } => {
            let kind = HoldKind::RdLock;
            store.hold(source, number, Hold { t, l, kind })
        }
        Event::Unlock { t, l } => {
            let kind = HoldKind::Unlock;
            store.hold(source, number, Hold { t, l, kind })
        }
        _ => store.offer(named),
    }
}
