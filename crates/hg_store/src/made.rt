//! A step that was made, which contracts alone see.

ghost use Rattle.std.specs.Prelude.{◌≡◌};
ghost use Rattle.hg_store.specs.Runs.{made};

use crate::steps::{Step, StepResult};
use crate::store::Store;
use hg_disk::Disk;
use std::marker::Model;
use std::snapshot::Snapshot;

/// A step of a store, with the store when it began and its answer. It has no bytes.
#[derive(Drop)]
pub struct MadeStep<D: Disk> {
    began: Snapshot<Store<D>>,
    step: Snapshot<Step>,
    answer: Snapshot<StepResult>,
}

impl<D: Disk> Model for MadeStep<D> {
    ghost use Rattle.hg_store.specs.Runs.{Made, made};

    ghost Value = { Made D };

    ghost view = { λ m. made m.began.value m.step.value m.answer.value };
}

impl<D: Disk> MadeStep<D> {
    /// The step that began with this store and got this answer.
    pub fn of(began: Snapshot<Store<D>>, step: &Step, answer: &StepResult) -> MadeStep<D>
        ensures { result ≡ made began.value step.now answer.now }
    {
        MadeStep {
            began,
            step: Snapshot::of(step),
            answer: Snapshot::of(answer),
        }
    }
}
