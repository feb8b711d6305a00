//! The last line that a server prints.

ghost use Rattle.std.specs.Prelude.{◌≡◌, ◌++◌, OnOk, IfErr, false};
ghost use Rattle.hg_server.specs.Serving.{end_text};

use hg_disk::Disk;
use hg_model::verdict::Refusal;
use hg_store::store::Store;
use hg_streams::holding::hold_counts;

/// Holds the end line of a store that is not broken: the counts of its accepted events, its reports and its segments.
pub(crate) fn hold_end_line<D: Disk>(store: &Store<D>, held: &mut Vec<u8>) -> Result<(), Refusal>
    requires works { store.now.is_broken ≡ false }
    ensures ok { OnOk result (held.new.items ≡ held.old.items ++ end_text ⟦<D as Disk>⟧ store.now) }
    ensures cause { IfErr result (λ r. r ≡ Refusal.OutOfMemory) }
{
    let events = store.events()?;
    let races = store.total()?;
    let segments = store.graph()?.len() as u64;
    hold_counts(events, races, segments, held)
}
