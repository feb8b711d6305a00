//! What is done to a store, one action after another, and what it answers.

use hg_detect::detector::Answer;
use hg_model::event::Named;
use hg_model::verdict::Refusal;
use hg_pool::Put;
use hg_store::steps::StorePhase;
use hg_test_kit::answers::put_refusal;
use hg_test_kit::events::put_events;
use hg_test_kit::text::Text;
use hg_test_kit::tokens::{Halt, Tokens};

/// A step of a store. `Put` hands in the page of the job that was taken last.
#[derive(Clone, Copy)]
pub enum Action {
    Offer(Named),
    Commit,
    Freeze,
    Take,
    Put,
    Seal,
    Prepare,
    WriteRoot,
    OpenRoot,
    Retire,
    Evict,
    /// Brings the page with this number.
    Load(u64),
}

/// What an action was answered.
#[derive(Clone, Copy)]
pub enum Told {
    Offered(Answer),
    /// The count of the events that a commit made durable.
    Committed(u64),
    Done,
    /// The page of the job that was taken, or the one that left its frame.
    Page(u64),
    /// No page waits, or none is in a frame.
    NoPageLeft,
    Put(Put),
    /// The number of the root that was opened.
    Root(u64),
    /// Whether the older journal was closed.
    Retired(bool),
    WrongPhase(StorePhase),
    Refused(Refusal),
    /// No job was taken whose page could be handed in.
    NoPage,
    /// No store is open.
    Closed,
    /// The trial has no memory for what it notes itself, and nothing was done.
    NoMemory,
}

/// The name of a phase.
pub fn phase_name(phase: StorePhase) -> &'static [u8] {
    match phase {
        StorePhase::Idle => b"idle",
        StorePhase::Pending => b"pending",
        StorePhase::Flushing => b"flushing",
        StorePhase::Sealed => b"sealed",
        StorePhase::Prepared => b"prepared",
        StorePhase::Written => b"written",
    }
}

fn put_wrong_phase(phase: StorePhase, out: &mut Text) {
    out.put(b"wrong phase ");
    out.put(phase_name(phase));
}

/// What an action was answered, as text.
pub fn put_told(told: Told, out: &mut Text) {
    match told {
        Told::Offered(Answer::Accepted) => out.put(b"accepted"),
        Told::Offered(Answer::Duplicate(last)) => out.put_number(b"duplicate ", last),
        Told::Committed(count) => out.put_decimal(count),
        Told::Done => out.put(b"ok"),
        Told::Page(page) => out.put_number(b"page ", page),
        Told::NoPageLeft => out.put(b"none"),
        Told::Put(Put::Written) => out.put(b"written"),
        Told::Put(Put::Stale) => out.put(b"stale"),
        Told::Root(number) => out.put_number(b"root ", number),
        Told::Retired(true) => out.put(b"retired"),
        Told::Retired(false) => out.put(b"kept"),
        Told::WrongPhase(phase) => put_wrong_phase(phase, out),
        Told::Refused(refusal) => put_refusal(refusal, out),
        Told::NoPage => out.put(b"no page"),
        Told::Closed => out.put(b"nothing is open"),
        Told::NoMemory => out.put(b"no memory"),
    }
}

/// The action of a token that names no event.
fn action_of(token: &str) -> Result<Action, Halt> {
    match token {
        "commit" => Ok(Action::Commit),
        "freeze" => Ok(Action::Freeze),
        "take" => Ok(Action::Take),
        "put" => Ok(Action::Put),
        "seal" => Ok(Action::Seal),
        "prepare" => Ok(Action::Prepare),
        "write-root" => Ok(Action::WriteRoot),
        "open-root" => Ok(Action::OpenRoot),
        "retire" => Ok(Action::Retire),
        "evict" => Ok(Action::Evict),
        _ => Err(Halt::Misspelt),
    }
}

fn put_offers(text: &str, events: &mut Vec<Named>, actions: &mut Vec<Action>) -> Result<(), Halt> {
    events.clear();
    put_events(text, events)?;
    for event in events.iter() {
        actions.push(Action::Offer(*event))?;
    }
    Ok(())
}

/// The loading of a page.
fn load_of(text: &str) -> Result<Action, Halt> {
    let mut tokens = Tokens::of(text);
    let page = tokens.number();
    tokens.check()?;
    Ok(Action::Load(page))
}

/// Appends the actions that a line names: a row of offers, whose events are put into `events`, or one step.
pub fn put_actions(
    token: &str,
    rest: &str,
    events: &mut Vec<Named>,
    actions: &mut Vec<Action>,
) -> Result<(), Halt> {
    match token {
        "offer" => put_offers(rest, events, actions),
        "load" => Ok(actions.push(load_of(rest)?)?),
        _ => Ok(actions.push(action_of(token)?)?),
    }
}
