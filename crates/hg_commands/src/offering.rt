//! Offering the event of a line to a store, in the parts that the line was read in.

ghost use Rattle.std.specs.Prelude.{◌≡◌, IsTrue};
ghost use Rattle.hg_store.specs.Journal.{failed_after};
ghost use Rattle.hg_store.specs.Images.{FailuresBecome};
ghost use Rattle.hg_store.specs.Shown.{KeepsLimits};
ghost use Rattle.hg_store.specs.Steps.{ContentOffered, OfferDone};
ghost use Rattle.hg_store.specs.Store.{StandMeanwhile};
ghost use Rattle.hg_commands.specs.Offering.{named_by};

use hg_detect::detector::Answer;
use hg_disk::Disk;
use hg_model::event::{Access, Event, Hold, Named};
use hg_model::verdict::Refusal;
use hg_store::offer::{named_access, named_hold};
use hg_store::store::Store;

/// An event: a read, a write and an event on a lock in the parts that their lines were read in.
#[derive(Clone, Copy, Debug, PartialEq, Eq)]
pub(crate) enum EventParts {
    /// A read, or a write.
    Access { access: Access, write: bool },
    /// An event on a lock.
    Hold(Hold),
    /// Any event.
    Whole(Event),
}

/// Offers an event under this number of its source.
#[inline(always)]
pub(crate) fn offer_parts<D: Disk>(
    store: &mut Store<D>,
    source: u16,
    number: u64,
    parts: EventParts,
) -> Result<Answer, Refusal>
    ensures done { OfferDone ⟦<D as Disk>⟧ store.old store.new (named_by source number parts) result }
    ensures content { IsTrue D.is_honest → ContentOffered ⟦<D as Disk>⟧ store.old store.new (named_by source number parts) result }
    ensures device { FailuresBecome ⟦<D as Disk>⟧ store.old.devices store.new.devices (failed_after result) }
    ensures images { IsTrue D.is_honest → StandMeanwhile ⟦<D as Disk>⟧ store.old store.new store.old.in_doubt }
    ensures limits { KeepsLimits store.old store.new }
{
    match parts {
        EventParts::Access { access, write } => store.touch(source, number, access, write),
        EventParts::Hold(hold) => store.hold(source, number, hold),
        EventParts::Whole(event) => store.offer(&Named {
            source,
            number,
            event,
        }),
    }
}

/// The event of these parts, under this number of its source.
pub(crate) fn named_of(source: u16, number: u64, parts: EventParts) -> Named
    ensures { result ≡ named_by source number parts }
{
    match parts {
        EventParts::Access { access, write } => named_access(source, number, access, write),
        EventParts::Hold(hold) => named_hold(source, number, hold),
        EventParts::Whole(event) => Named {
            source,
            number,
            event,
        },
    }
}
