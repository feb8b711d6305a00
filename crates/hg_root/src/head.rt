//! The head of a root: everything of a content but the words, encoded.
ghost use Rattle.std.specs.Prelude.{◌≡◌, ◌++◌, ◌<◌, ◌^◌, All, OnOk, IfOk, length};
ghost use Rattle.std.specs.Int.{to_be_bytes};
ghost use Rattle.hg_root.specs.Grammar.{HeadFits, PagesFit, SetFits, ThreadFits, head_text, many_text, pages_text, set_text, some_text, thread_text};
ghost use Rattle.hg_root.specs.Heads.{parts_in};

use crate::body::HEADER;
use crate::head_parts::HeadParts;
use crate::parts::PageSlot;
use crate::piece::{Piece, put_each};
use hg_graph::Graph;
use hg_model::limits::THREAD_NUMBERS;
use hg_model::thread::ThreadState;
use hg_sets::SetTable;
use std::alloc::{AllocError, Global};
use std::marker::Model;

/// Everything of a content but the words, as the front of a root's body. A contract sees the bytes.
#[derive(Drop)]
pub struct RootHead {
    bytes: Vec<u8>,
}

impl Model for RootHead {
    ghost use Rattle.std.specs.Prelude.{List, ℕ};

    ghost Value = { List ℕ };

    ghost view = { λ head. head.bytes.items };
}

impl RootHead {
    /// The head with these parts. `Err` says that memory was refused.
    pub fn encode(alloc: Global, parts: &HeadParts) -> Result<RootHead, AllocError>
        requires fits { HeadFits (parts_in parts.now) }
        requires threads { All (λ t. t.number < THREAD_NUMBERS) parts.now.threads.now }
        ensures { IfOk result (λ head. head ≡ head_text (parts_in parts.now)) }
    {
        let mut bytes = Vec::new(alloc);
        put_head(parts, &mut bytes)?;
        Ok(RootHead { bytes })
    }

    /// The body of a root: this head, and a page table, by rising page. `Err` says that memory was refused.
    pub fn with_pages(&self, alloc: Global, pages: &[PageSlot]) -> Result<Vec<u8>, AllocError>
        requires { PagesFit pages.now }
        ensures { IfOk result (λ body. body.items ≡ self.now ++ pages_text pages.now) }
    {
        let mut body = Vec::new(alloc);
        body.extend_from_slice(&self.bytes)?;
        put_many(pages, &mut body)?;
        Ok(body)
    }
}

/// All parts but the page table.
fn put_head(parts: &HeadParts, out: &mut Vec<u8>) -> Result<(), AllocError>
    requires fits { HeadFits (parts_in parts.now) }
    requires threads { All (λ t. t.number < THREAD_NUMBERS) parts.now.threads.now }
    ensures { OnOk result (out.new.items ≡ out.old.items ++ head_text (parts_in parts.now)) }
{
    out.extend_from_slice(&HEADER.to_be_bytes())?;
    out.extend_from_slice(&parts.number.to_be_bytes())?;
    out.extend_from_slice(&parts.events.to_be_bytes())?;
    put_many(parts.graph.segments(), out)?;
    put_threads(parts.graph, parts.threads, out)?;
    put_sets(parts.sets, out)?;
    out.extend_from_slice(&parts.total.to_be_bytes())?;
    put_many(parts.reports, out)?;
    put_some(parts.sources, out)
}

/// How many there are, in four bytes, and each.
fn put_many<T: Piece>(items: &[T], out: &mut Vec<u8>) -> Result<(), AllocError>
    requires count { length items.now < 2 ^ 32 }
    requires fits { All T.fits items.now }
    ensures { OnOk result (out.new.items ≡ out.old.items ++ many_text T.text items.now) }
{
    out.extend_from_slice(&(items.len() as u32).to_be_bytes())?;
    put_each(items, out)
}

/// How many there are, in two bytes, and each.
fn put_some<T: Piece>(items: &[T], out: &mut Vec<u8>) -> Result<(), AllocError>
    requires count { length items.now < 2 ^ 16 }
    requires fits { All T.fits items.now }
    ensures { OnOk result (out.new.items ≡ out.old.items ++ some_text T.text items.now) }
{
    out.extend_from_slice(&(items.len() as u16).to_be_bytes())?;
    put_each(items, out)
}

/// A thread, with its last segment.
fn put_thread(graph: &Graph, thread: &ThreadState, out: &mut Vec<u8>) -> Result<(), AllocError>
    requires number { thread.now.number < THREAD_NUMBERS }
    requires fits { ThreadFits thread.now }
    ensures { OnOk result (out.new.items ≡ out.old.items ++ thread_text graph.now thread.now) }
{
    let last = graph.present(thread.number).to_be_bytes();
    let number = thread.number.to_be_bytes();
    let alive = if thread.alive { 1 } else { 0 };
    let held = thread.held.as_slice();
    out.extend_from_slice(&[
        number[0],
        number[1],
        alive,
        last[0],
        last[1],
        last[2],
        last[3],
        held.len() as u8,
    ])?;
    put_each(held, out)
}

/// The threads.
fn put_threads(graph: &Graph, threads: &[ThreadState], out: &mut Vec<u8>) -> Result<(), AllocError>
    requires count { length threads.now < 2 ^ 16 }
    requires numbers { All (λ t. t.number < THREAD_NUMBERS) threads.now }
    requires fits { All ThreadFits threads.now }
    ensures { OnOk result (out.new.items ≡ out.old.items ++ some_text (thread_text graph.now) threads.now) }
{
    out.extend_from_slice(&(threads.len() as u16).to_be_bytes())?;
    for i in 0..threads.len() {
        put_thread(graph, &threads[i], out)?;
    }
    Ok(())
}

/// A set.
fn put_set(members: &[u16], out: &mut Vec<u8>) -> Result<(), AllocError>
    requires { SetFits members.now }
    ensures { OnOk result (out.new.items ≡ out.old.items ++ set_text members.now) }
{
    out.extend_from_slice(&(members.len() as u16).to_be_bytes())?;
    put_each(members, out)
}

/// The sets, by rising number.
fn put_sets(sets: &SetTable, out: &mut Vec<u8>) -> Result<(), AllocError>
    requires { All SetFits sets.now.sets }
    ensures { OnOk result (out.new.items ≡ out.old.items ++ many_text set_text sets.now.sets) }
{
    let count = sets.len();
    out.extend_from_slice(&count.to_be_bytes())?;
    for i in 0..count {
        put_set(sets.members(i), out)?;
    }
    Ok(())
}
