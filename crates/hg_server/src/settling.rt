//! What a server does with its store when the connections are served.

ghost use Rattle.std.specs.Prelude.{◌≡◌, ◌∷◌, IfErr, None, OnOk};
ghost use Rattle.hg_store.specs.Shown.{live};
ghost use Rattle.hg_desk.specs.Going.{moments_of};
ghost use Rattle.hg_server.specs.Settling.{IsCommitFault, IsSettled, KeepsDurable, SettlesOrBreaks, StillRan, StillWentOn};

use crate::fault::ServingFault;
use crate::handing::Taken;
use hg_disk::Disk;
use hg_model::verdict::Refusal;
use hg_store::made::MadeStep;
use hg_store::steps::{Step, StepResult};
use hg_store::store::Store;
use hg_trail::Trail;
use std::snapshot::Snapshot;

/// How a refused commit is told: `Broken` where the store was broken before it; else a device failed in it.
fn commit_fault(refusal: Refusal) -> ServingFault
    ensures broken { refusal ≡ Refusal.Broken → result ≡ ServingFault.Broken }
    ensures device { refusal ≡ Refusal.DeviceFault → result ≡ ServingFault.DeviceFault }
{
    match refusal {
        Refusal::Broken => ServingFault::Broken,
        _ => ServingFault::DeviceFault,
    }
}

/// Makes all accepted events of a store durable, and notes that step.
fn commit_all<D: Disk>(
    store: &mut Store<D>,
    steps: &mut Trail<MadeStep<D>>,
) -> Result<(), ServingFault>
    ensures went { StillWentOn ⟦<D as Disk>⟧ (moments_of steps.old) store.old (moments_of steps.new) store.new }
    ensures ran { StillRan ⟦<D as Disk>⟧ steps.old store.old steps.new store.new }
    ensures moment { moments_of steps.new ≡ store.old.devices ∷ moments_of steps.old }
    ensures settled { OnOk result (IsSettled ⟦<D as Disk>⟧ store.new) }
    ensures kept { KeepsDurable ⟦<D as Disk>⟧ store.old store.new }
    ensures content { live ⟦<D as Disk>⟧ store.new ≡ live ⟦<D as Disk>⟧ store.old }
    ensures cause { IfErr result (IsCommitFault ⟦<D as Disk>⟧ store.old store.new) }
{
    store.stands();
    let began = Snapshot::of(&*store);
    let committed = store.commit();
    store.stands();
    let made = MadeStep::of(began, &Step::Commit, &StepResult::Committed(committed));
    steps.push(made);
    match committed {
        Ok(_) => Ok(()),
        Err(refusal) => Err(commit_fault(refusal)),
    }
}

/// Makes all accepted events of a store durable, whatever came of the workers. Then it tells what cut them short, if something did.
pub(crate) fn settle<D: Disk>(
    store: &mut Store<D>,
    steps: &mut Trail<MadeStep<D>>,
    taken: &Taken,
) -> Result<(), ServingFault>
    ensures went { StillWentOn ⟦<D as Disk>⟧ (moments_of steps.old) store.old (moments_of steps.new) store.new }
    ensures ran { StillRan ⟦<D as Disk>⟧ steps.old store.old steps.new store.new }
    ensures moment { moments_of steps.new ≡ store.old.devices ∷ moments_of steps.old }
    ensures settled { OnOk result (IsSettled ⟦<D as Disk>⟧ store.new) }
    ensures kept { KeepsDurable ⟦<D as Disk>⟧ store.old store.new }
    ensures content { live ⟦<D as Disk>⟧ store.new ≡ live ⟦<D as Disk>⟧ store.old }
    ensures whole { OnOk result (taken.now.cut ≡ None) }
    ensures cause { IfErr result (SettlesOrBreaks ⟦<D as Disk>⟧ store.old store.new taken.now) }
{
    commit_all(store, steps)?;
    taken.whole()
}
