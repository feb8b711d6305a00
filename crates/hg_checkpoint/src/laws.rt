//! Laws of a checkpoint's slots, each the promise of a function without a body.
ghost use Rattle.hg_checkpoint.specs.Laws.{FrozenSlotsStay, SealedSlotsHaveTheCheckpoint, SlotsStay};
ghost use Rattle.hg_checkpoint.specs.Standing.{CallsBetweenKeep};

use hg_disk::Disk;

/// Once the frozen map is sealed, each image of the slots has the pages of the checkpoint of the frozen map and a root with
/// the frozen table.
pub fn sealed_slots_have_the_checkpoint<D: Disk>()
    ensures { SealedSlotsHaveTheCheckpoint ⟦<D as Disk>⟧ }
{}

/// The slots that the root's table names keep the pages of the checkpoint, whatever pool calls come (`Went`).
pub fn slots_stay<D: Disk>()
    ensures { SlotsStay ⟦<D as Disk>⟧ }
{}

/// The slots that the frozen table names keep the pages of the next checkpoint, whatever pool calls come (`Went`).
pub fn frozen_slots_stay<D: Disk>()
    ensures { FrozenSlotsStay ⟦<D as Disk>⟧ }
{}

/// Calls of the pool between two calls of a checkpoint keep what stands, unless they freeze or take over a root.
pub fn calls_between_keep<D: Disk>()
    ensures { CallsBetweenKeep ⟦<D as Disk>⟧ }
{}
