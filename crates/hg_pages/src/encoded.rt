//! A page as the bytes of its slot.
ghost use Rattle.std.specs.Prelude.{◌≡◌, ◌+◌, ◌*◌, ◌<◌, ◌≤◌, ◌^◌, ◌↔◌, length, IfOk, IsTrue};
ghost use Rattle.std.specs.Int.{w32, to_be_bytes};
ghost use Rattle.hg_disk.specs.State.{replaced};
ghost use Rattle.hg_pages.specs.Reading.{cell_bytes};
ghost use Rattle.hg_pages.specs.Slots.{CellFits, IsSlot, cell_text, slot_text};
ghost use Rattle.std.specs.List.{AllByRecursion};

use crate::cell::{CELL_LEN, numbers_of, spell};
use crate::decoded::{MOST_PAGES, page_in};
use hg_cells::{Cell, PAGE_WORDS, Page};
use std::alloc::{AllocError, Global};
use std::marker::Model;

/// How many bytes a slot has: the number of its page in eight, and 256 cells of twelve.
pub const SLOT_LEN: usize = 3080;

/// The number of a page, and the 3,080 bytes of its slot. Contracts see both.
pub struct EncodedPage {
    page: u64,
    bytes: Vec<u8>,
}

impl Drop for EncodedPage {
    fn drop(self) {
        let EncodedPage { page: _, bytes } = self;
        drop(bytes);
    }
}

impl Model for EncodedPage {
    ghost use Rattle.std.specs.Prelude.{◌≡◌, length};
    ghost use Rattle.hg_pages.specs.Encoded.{Encoded};
    ghost use Rattle.hg_pages.specs.declared.encoded.TheConstants.{SLOT_LEN};

    ghost Value = { Encoded };

    ghost view = { λ it. record { page = it.page; bytes = it.bytes.items } };

    ghost invariant = { λ it. length it.bytes.items ≡ SLOT_LEN };
}

impl EncodedPage {
    /// Takes these bytes for the slot of this page, without a check.
    pub fn of(page: u64, bytes: Vec<u8>) -> EncodedPage
        requires { length bytes.items ≡ SLOT_LEN }
        ensures page { result.page ≡ page }
        ensures bytes { result.bytes ≡ bytes.items }
    {
        EncodedPage { page, bytes }
    }

    /// The number of the page.
    pub fn page(&self) -> u64
        ensures { result ≡ self.now.page }
    {
        self.page
    }

    /// The bytes of its slot.
    pub fn bytes(&self) -> &[u8]
        ensures bytes { result.now ≡ self.now.bytes }
        ensures length { length result.now ≡ SLOT_LEN }
    {
        &self.bytes
    }

    /// Whether these are the bytes of the page with these cells. Takes no memory.
    pub fn has(&self, cells: &Page) -> bool
        ensures bytes { IsTrue result ↔ (self.now.bytes ≡ slot_text self.now.page cells.now) }
        ensures slot { self.now.page < MOST_PAGES → IsTrue result → IsSlot self.now.page cells.now self.now.bytes }
    {
        is_text(&self.bytes, self.page, cells)
    }
}

// Whether the cell of a word is spelled so.
#[inline(always)]
fn has_cell(bytes: &[u8], word: usize, cell: Cell) -> bool
    requires word { word < 256 }
    requires length { length bytes.now ≡ SLOT_LEN }
    ensures spelled { IsTrue result ↔ (cell_bytes bytes.now word ≡ cell_text cell) }
    ensures fits { CellFits cell }
{
    let at = 8 + CELL_LEN * word;
    spell(&bytes[at..at + CELL_LEN], cell)
}

// Whether these are the bytes of a page.
fn is_text(bytes: &[u8], page: u64, cells: &Page) -> bool
    requires { length bytes.now ≡ SLOT_LEN }
    ensures spelled { IsTrue result ↔ (bytes.now ≡ slot_text page cells.now) }
    ensures words { length cells.now ≡ 256 }
    ensures fit { IsTrue result → AllByRecursion CellFits cells.now }
{
    let _lowest = cells.get(0);
    if page_in(bytes) != page {
        return false;
    }
    let mut are_same = true;
    for word in 0..PAGE_WORDS {
        let is_same = has_cell(bytes, word, cells.get(word));
        are_same = are_same & is_same;
    }
    are_same
}

// Writes a number into its four bytes: one write, since they are an array.
#[inline(always)]
fn write_number(place: &mut [u8], number: u32)
    requires { length place.old ≡ 4 }
    ensures { place.new ≡ to_be_bytes w32 number }
{
    let Some(digits) = place.as_mut_array::<4>() else {
        unreachable!()
    };
    *digits = number.to_be_bytes();
}

// Puts a number into bytes, at a place.
#[inline(always)]
fn put_number(bytes: &mut [u8], at: usize, number: u32)
    requires { at + 4 ≤ length bytes.old }
    ensures bytes { bytes.new ≡ replaced bytes.old at (to_be_bytes w32 number) }
    ensures length { length bytes.new ≡ length bytes.old }
{
    write_number(&mut bytes[at..at + 4], number);
}

// Puts the cell of a word into the bytes of a slot.
#[inline(always)]
fn put_cell(bytes: &mut [u8], word: usize, cell: Cell)
    requires word { word < 256 }
    requires length { length bytes.old ≡ SLOT_LEN }
    ensures bytes { bytes.new ≡ replaced bytes.old (8 + 12 * word) (cell_text cell) }
    ensures length { length bytes.new ≡ SLOT_LEN }
    ensures fits { CellFits cell }
{
    let at = 8 + CELL_LEN * word;
    let (head, first, second) = numbers_of(cell);
    put_number(bytes, at, head);
    put_number(bytes, at + 4, first);
    put_number(bytes, at + 8, second);
}

// Writes a page into the bytes of a slot, whatever they were.
fn put_page(bytes: &mut [u8], page: u64, cells: &Page)
    requires { length bytes.old ≡ SLOT_LEN }
    ensures bytes { bytes.new ≡ slot_text page cells.now }
    ensures words { length cells.now ≡ 256 }
    ensures fit { AllByRecursion CellFits cells.now }
{
    let _lowest = cells.get(0);
    bytes[0..8].copy_from_slice(&page.to_be_bytes());
    for word in 0..PAGE_WORDS {
        put_cell(bytes, word, cells.get(word));
    }
}

/// A page as the bytes of its slot. It takes 3,080 bytes of memory; the only error is want of memory.
pub fn encode(alloc: Global, page: u64, cells: &Page) -> Result<EncodedPage, AllocError>
    ensures page { IfOk result (λ encoded. encoded.page ≡ page) }
    ensures bytes { IfOk result (λ encoded. encoded.bytes ≡ slot_text page cells.now) }
    ensures slot { page < MOST_PAGES → IfOk result (λ encoded. IsSlot page cells.now encoded.bytes) }
{
    let mut bytes = Vec::from_elem(alloc, 0, SLOT_LEN)?;
    put_page(&mut bytes, page, cells);
    Ok(EncodedPage { page, bytes })
}
