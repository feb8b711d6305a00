//! Actions as steps of a store, and what steps were answered.

use crate::actions::{Action, Told, put_told};
use hg_model::verdict::Refusal;
use hg_pages::EncodedPage;
use hg_store::steps::{PageNumber, Step, StepFault, StepResult};
use hg_test_kit::text::Text;
use hg_test_kit::tokens::Halt;
use std::alloc::{AllocError, Global};

fn fault_told(fault: StepFault) -> Told {
    match fault {
        StepFault::WrongPhase(phase) => Told::WrongPhase(phase),
        StepFault::Refused(cause) => Told::Refused(Refusal::from(cause)),
    }
}

fn done_told(done: &Result<(), StepFault>) -> Told {
    match done {
        Ok(()) => Told::Done,
        Err(fault) => fault_told(*fault),
    }
}

/// What a step was answered.
pub fn told_of(answer: &StepResult) -> Told {
    match answer {
        StepResult::Offered(Ok(offered)) => Told::Offered(*offered),
        StepResult::Offered(Err(refusal)) => Told::Refused(*refusal),
        StepResult::Committed(Ok(count)) => Told::Committed(*count),
        StepResult::Committed(Err(refusal)) => Told::Refused(*refusal),
        StepResult::Frozen(done) => done_told(done),
        StepResult::Taken(Ok(Some(job))) => Told::Page(job.page),
        StepResult::Taken(Ok(None)) => Told::NoPageLeft,
        StepResult::Taken(Err(fault)) => fault_told(*fault),
        StepResult::Put(Ok(put)) => Told::Put(*put),
        StepResult::Put(Err(fault)) => fault_told(*fault),
        StepResult::Sealed(done) => done_told(done),
        StepResult::Prepared(done) => done_told(done),
        StepResult::Written(done) => done_told(done),
        StepResult::Opened(Ok(number)) => Told::Root(*number),
        StepResult::Opened(Err(fault)) => fault_told(*fault),
        StepResult::Retired(Ok(retired)) => Told::Retired(*retired),
        StepResult::Retired(Err(refusal)) => Told::Refused(*refusal),
        StepResult::Evicted(Ok(Some(page))) => Told::Page(*page),
        StepResult::Evicted(Ok(None)) => Told::NoPageLeft,
        StepResult::Evicted(Err(fault)) => fault_told(*fault),
        StepResult::Loaded(done) => done_told(done),
    }
}

/// An action but `Put` as a step: none of `Load` with a number that no page has.
fn plain_step(action: Action) -> Option<Step> {
    match action {
        Action::Offer(named) => Some(Step::Offer(named)),
        Action::Commit => Some(Step::Commit),
        Action::Freeze => Some(Step::Freeze),
        Action::Take => Some(Step::TakeJob),
        Action::Put => None,
        Action::Seal => Some(Step::SealPages),
        Action::Prepare => Some(Step::PrepareRoot),
        Action::WriteRoot => Some(Step::WriteRoot),
        Action::OpenRoot => Some(Step::OpenRoot),
        Action::Retire => Some(Step::Retire),
        Action::Evict => Some(Step::Evict),
        Action::Load(page) => PageNumber::new(page).map(Step::Load),
    }
}

/// A step that hands in a copy of a page, if there is one.
fn put_step(alloc: Global, page: &Option<EncodedPage>) -> Result<Option<Step>, AllocError> {
    match page {
        Some(page) => {
            let bytes = Vec::from_slice(alloc, page.bytes())?;
            Ok(Some(Step::Put(EncodedPage::of(page.page(), bytes))))
        }
        None => Ok(None),
    }
}

/// An action as a step, which takes no memory. `Put` takes the page, and gives none where there is no page; `Load` gives none of a number
/// that no page has.
pub fn step_of(action: Action, page: &mut Option<EncodedPage>) -> Option<Step> {
    match action {
        Action::Put => page.take().map(Step::Put),
        _ => plain_step(action),
    }
}

/// An action as one of several steps. `Put` gets a copy of the page.
fn copied_step(
    alloc: Global,
    action: Action,
    page: &Option<EncodedPage>,
) -> Result<Option<Step>, AllocError> {
    match action {
        Action::Put => put_step(alloc, page),
        _ => Ok(plain_step(action)),
    }
}

/// Actions as steps. A step that hands in a page gets the one that lies ready.
pub fn steps_of(
    alloc: Global,
    actions: &[Action],
    page: &Option<EncodedPage>,
    out: &mut Text,
) -> Result<Vec<Step>, Halt> {
    let mut steps = Vec::new(alloc);
    for action in actions {
        match copied_step(alloc, *action, page)? {
            Some(step) => steps.push(step)?,
            None => {
                put_told(Told::NoPage, out);
                return Err(Halt::Said);
            }
        }
    }
    Ok(steps)
}

/// Notes actions that are done at once. Jobs that are taken meanwhile change nothing, and a run that is made again leaves them out.
pub fn note_all(actions: &[Action], made: &mut Vec<Action>) -> Result<(), AllocError> {
    for action in actions {
        if !matches!(action, Action::Take) {
            made.push(*action)?;
        }
    }
    Ok(())
}
