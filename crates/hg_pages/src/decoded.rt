//! The bytes of a slot as a page.
ghost use Rattle.std.specs.Prelude.{◌≡◌, ◌⊎◌, ◌↔◌, ◌+◌, ◌<◌, ◌≤◌, ℕ, List, length, take, false, IfSome, IfNone, IsTrue};
ghost use Rattle.std.specs.Int.{w64, to_be_bytes};
ghost use Rattle.hg_pages.specs.Numbers.{AreOfNoneWithin, AreRead, HasNoShared, HaveThreadSets, LacksThreadSet};
ghost use Rattle.hg_pages.specs.Reading.{cell_bytes};
ghost use Rattle.hg_pages.specs.Slots.{AreKnown, IsNoKnownSlot, IsSlot, IsThreadSet};

use crate::cell::{CELL_LEN, are_of_shared, cell_from, has_threads, numbers_in, spell_within};
use crate::encoded::SLOT_LEN;
use hg_cells::{PAGE_WORDS, Page};
use hg_sets::SetTable;

/// How many page numbers there are: an address has 64 bits, and a page 1,024 bytes.
pub const MOST_PAGES: u64 = 1 << 54;

// Where the cells begin, behind the number of the page.
const CELLS_AT: usize = 8;

// How many words are asked together whether one of them is shared.
const GROUP_WORDS: usize = 16;

/// The number of the page, as the bytes have it.
pub(crate) fn page_in(bytes: &[u8]) -> u64
    requires { 8 ≤ length bytes.now }
    ensures { to_be_bytes w64 result ≡ take 8 bytes.now }
{
    let front = &bytes[0..CELLS_AT];
    u64::from_be_bytes([
        front[0], front[1], front[2], front[3], front[4], front[5], front[6], front[7],
    ])
}

/// The cells of a page from the bytes of its slot, or none if these bytes are not its slot. They are not if they have
/// another page's number, a cell with a wrong spelling, a segment that is not below `segments`, a set that the table does
/// not have, or a set of threads with fewer than two members or a member above 1023. Takes no memory.
pub fn decode(bytes: &[u8], page: u64, segments: u32, sets: &SetTable) -> Option<Page>
    requires { length bytes.now ≡ SLOT_LEN }
    ensures some { IfSome result (λ cells. IsSlot page cells bytes.now × AreKnown segments sets.now.sets cells) }
    ensures none { IfNone result (IsNoKnownSlot page segments sets.now.sets bytes.now) }
{
    let mut cells = Page::new();
    if !decode_into(bytes, page, segments, sets, &mut cells) {
        return None;
    }
    Some(cells)
}

/// The same into a page, in place. Answers whether these bytes are its slot; if not, the page has any cells.
pub(crate) fn decode_into(
    bytes: &[u8],
    page: u64,
    segments: u32,
    sets: &SetTable,
    cells: &mut Page,
) -> bool
    requires { length bytes.now ≡ SLOT_LEN }
    ensures yes { IsTrue result → IsSlot page cells.new bytes.now × AreKnown segments sets.now.sets cells.new }
    ensures no { result ≡ false → IsNoKnownSlot page segments sets.now.sets bytes.now }
{
    if page >= MOST_PAGES || page_in(bytes) != page {
        return false;
    }
    let (are_right, has_shared) = read_cells(bytes, segments, sets.len(), cells);
    if !are_right {
        return false;
    }
    if !has_shared {
        return true;
    }
    have_thread_sets(bytes, sets)
}

// The bytes of a word's cell.
#[inline(always)]
fn cell_part(bytes: &[u8], word: usize) -> &[u8]
    requires word { word < 256 }
    requires length { length bytes.now ≡ SLOT_LEN }
    ensures bytes { result.now ≡ cell_bytes bytes.now word }
    ensures length { length result.now ≡ CELL_LEN }
{
    let at = CELLS_AT + CELL_LEN * word;
    &bytes[at..at + CELL_LEN]
}

// Reads each cell, and answers whether each is spelled right and names only segments and sets below these numbers, and whether
// some cell is shared. No cell is looked at twice, and no branch depends on one: the compiler takes four cells at a time.
#[inline(always)]
fn read_cells(bytes: &[u8], segments: u32, sets: u32, cells: &mut Page) -> (bool, bool)
    requires { length bytes.now ≡ SLOT_LEN }
    ensures words { length cells.new ≡ 256 }
    ensures read { IsTrue result.0 → AreRead segments sets 256 bytes.now cells.new }
    ensures none { result.0 ≡ false → AreOfNoneWithin segments sets bytes.now }
    ensures shared { result.1 ≡ false → HasNoShared 256 bytes.now }
{
    let _lowest = cells.get(0);
    let mut are_right = true;
    let mut has_shared = false;
    for word in 0..PAGE_WORDS {
        let numbers = numbers_in(cell_part(bytes, word));
        let is_right = spell_within(numbers, segments, sets);
        let is_shared = are_of_shared(numbers);
        are_right = are_right & is_right;
        has_shared = has_shared | is_shared;
        cells.set(word, cell_from(numbers));
    }
    (are_right, has_shared)
}

// Whether some cell of a group, from this word on, is shared. If none is, the threads of each of the group can be. No branch
// depends on a cell.
#[inline(always)]
fn has_shared_from(bytes: &[u8], from: usize) -> bool
    requires length { length bytes.now ≡ SLOT_LEN }
    requires within { from + GROUP_WORDS ≤ 256 }
    ensures none { result ≡ false → (s : List (List ℕ)) →
        HaveThreadSets s from bytes.now → HaveThreadSets s (from + GROUP_WORDS) bytes.now }
{
    let mut has_shared = false;
    for word in from..from + GROUP_WORDS {
        let numbers = numbers_in(cell_part(bytes, word));
        let is_shared = are_of_shared(numbers);
        has_shared = has_shared | is_shared;
    }
    has_shared
}

// Whether the threads of each shared cell of a group, from this word on, can be. No branch depends on a cell.
#[inline(always)]
fn have_thread_sets_from(bytes: &[u8], sets: &SetTable, from: usize) -> bool
    requires length { length bytes.now ≡ SLOT_LEN }
    requires within { from + GROUP_WORDS ≤ 256 }
    ensures yes { IsTrue result →
        HaveThreadSets sets.now.sets from bytes.now → HaveThreadSets sets.now.sets (from + GROUP_WORDS) bytes.now }
    ensures no { result ≡ false → LacksThreadSet sets.now.sets bytes.now }
{
    let _sets = sets.len();
    let mut have_all = true;
    for word in from..from + GROUP_WORDS {
        let has_one = has_threads(cell_part(bytes, word), sets);
        have_all = have_all & has_one;
    }
    have_all
}

// Whether the threads of each shared cell can be. A group of words none of which is shared is passed over.
#[inline(always)]
fn have_thread_sets(bytes: &[u8], sets: &SetTable) -> bool
    requires { length bytes.now ≡ SLOT_LEN }
    ensures yes { IsTrue result → HaveThreadSets sets.now.sets 256 bytes.now }
    ensures no { result ≡ false → LacksThreadSet sets.now.sets bytes.now }
{
    for group in 0..PAGE_WORDS / GROUP_WORDS {
        let from = group * GROUP_WORDS;
        if has_shared_from(bytes, from) && !have_thread_sets_from(bytes, sets, from) {
            return false;
        }
    }
    true
}
