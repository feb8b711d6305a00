//! Reading events back.

ghost use Rattle.std.specs.Prelude.{◌≡◌, ◌+◌, ◌-◌, ◌*◌, List, IfErr, OnOk, ◌++◌, ◌∷◌, [], false};
ghost use Rattle.hg_model.specs.declared.event.Named.{Named as NamedOf};
ghost use Rattle.hg_gate.specs.Reading.{WasRead};
ghost use Rattle.hg_journal.specs.Journal.{IsOfReading, failed_after};
ghost use Rattle.hg_journal.specs.Reading.{Collects, CollectsUndamaged, KeepsEvents, disk_of, is_broken};

use crate::journal::Journal;
use hg_disk::Disk;
use hg_model::event::Named;
use hg_model::verdict::Refusal;
use std::alloc::Global;

/// Of the first `count` events of a journal, those from number `from` on, at most `max`. It makes at most two device calls
/// per event.
pub fn collect<D: Disk>(
    journal: &mut Journal<D>,
    alloc: Global,
    count: u64,
    from: u64,
    max: usize,
) -> Result<Vec<Named>, Refusal>
    requires works { is_broken journal.old ≡ false }
    ensures events { Collects journal.old journal.new count from max result }
    ensures whole { CollectsUndamaged journal.old journal.new result }
    ensures keeps { (events : List NamedOf) → KeepsEvents journal.old events → KeepsEvents journal.new events }
    ensures works { is_broken journal.new ≡ false }
    ensures refusal { IfErr result IsOfReading }
    ensures device { D.failures (disk_of journal.new) ≡ failed_after result (D.failures (disk_of journal.old)) }
    ensures disk { WasRead ⟦<D as Disk>⟧ (2 * count) (disk_of journal.old) (disk_of journal.new) }
{
    let mut found = Vec::new(alloc);
    let mut reader = journal.events()?;
    let mut number = 0;
    while number < count {
        if found.len() >= max {
            return Ok(found);
        }
        match journal.next(&mut reader)? {
            None => return Ok(found),
            Some(named) => {
                number += 1;
                if number >= from {
                    note(&mut found, named)?;
                }
            }
        }
    }
    Ok(found)
}

/// Adds an event.
fn note(found: &mut Vec<Named>, named: Named) -> Result<(), Refusal>
    ensures items { OnOk result (found.new.items ≡ found.old.items ++ named ∷ []) }
    ensures refusal { IfErr result (λ refusal. refusal ≡ Refusal.OutOfMemory) }
{
    Ok(found.push(named)?)
}
