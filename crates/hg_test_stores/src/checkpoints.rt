//! Checkpoints of a store, all steps of one.

use crate::actions::{Action, Told, put_told};
use crate::machine::Machine;
use hg_pool::Put;
use hg_test_kit::text::Text;
use hg_test_kit::tokens::Halt;

/// The most pages that are handed in for one checkpoint.
const MOST_PAGES: u64 = 1_000_000;

/// Makes a step that is to answer `ok`; hands out what it answers else.
fn make_done(machine: &mut impl Machine, action: Action) -> Result<(), Told> {
    match machine.make(action) {
        Told::Done => Ok(()),
        other => Err(other),
    }
}

/// Takes a job and hands in its page, and answers whether there was one.
fn put_one(machine: &mut impl Machine) -> Result<bool, Told> {
    match machine.make(Action::Take) {
        Told::Page(_) => {}
        Told::NoPageLeft => return Ok(false),
        other => return Err(other),
    }
    match machine.make(Action::Put) {
        Told::Put(Put::Written) => Ok(true),
        other => Err(other),
    }
}

/// Takes all jobs and hands in their pages, and answers how many.
fn put_all(machine: &mut impl Machine) -> Result<u64, Told> {
    for count in 0..MOST_PAGES {
        if !put_one(machine)? {
            return Ok(count);
        }
    }
    Err(Told::NoPage)
}

/// What a whole checkpoint came to.
#[derive(Clone, Copy)]
pub struct Saved {
    /// Its number.
    pub root: u64,
    /// How many pages were handed in.
    pub pages: u64,
    /// Whether the older journal was closed.
    pub retired: bool,
}

/// Opens the root of a checkpoint, and answers its number.
fn open_root(machine: &mut impl Machine) -> Result<u64, Told> {
    match machine.make(Action::OpenRoot) {
        Told::Root(root) => Ok(root),
        other => Err(other),
    }
}

/// Gives up the events that the newest root counts, and answers whether there were some in a journal of their own.
fn retire(machine: &mut impl Machine) -> Result<bool, Told> {
    match machine.make(Action::Retire) {
        Told::Retired(retired) => Ok(retired),
        other => Err(other),
    }
}

/// Makes a whole checkpoint; hands out the first answer that ends it before.
pub fn checkpoint(machine: &mut impl Machine) -> Result<Saved, Told> {
    make_done(machine, Action::Freeze)?;
    let pages = put_all(machine)?;
    for action in [Action::Seal, Action::Prepare, Action::WriteRoot] {
        make_done(machine, action)?;
    }
    let root = open_root(machine)?;
    let retired = retire(machine)?;
    Ok(Saved {
        root,
        pages,
        retired,
    })
}

/// Makes a whole checkpoint: `root N, M pages`, with `, retired` behind it where a journal was closed, or the answer that ends it.
pub fn put_checkpoint(machine: &mut impl Machine, out: &mut Text) -> Result<(), Halt> {
    match checkpoint(machine) {
        Ok(saved) => {
            out.put_number(b"root ", saved.root);
            out.put_number(b", ", saved.pages);
            out.put(b" pages");
            if saved.retired {
                out.put(b", retired");
            }
        }
        Err(told) => put_told(told, out),
    }
    Ok(())
}

/// Hands in all pages that wait: how many, or the answer that ends it.
pub fn put_pages(machine: &mut impl Machine, out: &mut Text) -> Result<(), Halt> {
    match put_all(machine) {
        Ok(count) => out.put_decimal(count),
        Err(told) => put_told(told, out),
    }
    Ok(())
}
