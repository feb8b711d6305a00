//! Steps that a share lists, which contracts alone see.

ghost use Rattle.std.specs.Prelude.{◌≡◌};

use hg_store::steps::{Step, StepResult};
use std::marker::Model;
use std::snapshot::Snapshot;

/// A step that a thread made, and its answer. It has no bytes.
#[derive(Drop)]
pub(crate) struct ListedStep {
    step: Snapshot<Step>,
    result: Snapshot<StepResult>,
}

impl Model for ListedStep {
    ghost use Rattle.hg_desk.specs.Told.{Listed};

    ghost Value = { Listed };

    ghost view = { λ m. record { step = m.step.value; result = m.result.value } };
}

impl ListedStep {
    /// This step, with this answer.
    pub(crate) fn of(step: &Step, answer: &StepResult) -> ListedStep
        ensures { result ≡ record { step = step.now; result = answer.now } }
    {
        ListedStep {
            step: Snapshot::of(step),
            result: Snapshot::of(answer),
        }
    }
}
