//! A cell as twelve bytes, and back.
ghost use Rattle.std.specs.Prelude.{◌≡◌, ◌+◌, ◌≤◌, ◌↔◌, ◌==◌, get_or, length, false, IsTrue, if◌then◌else◌};
ghost use Rattle.std.specs.Int.{from_be_bytes};
ghost use Rattle.hg_pages.specs.Numbers.{SpellNew, SpellOwned, SpellShared, SpellsNoneWithin, SpellsWithin, HasThreads, cell_by, first_in, kind_in, mark_in, second_in};
ghost use Rattle.hg_pages.specs.Reading.{number_at, text_of};
ghost use Rattle.hg_pages.specs.Slots.{CellFits, IsThreadSet, cell_text};

use hg_cells::Cell;
use hg_sets::SetTable;

/// How many bytes a cell has.
pub(crate) const CELL_LEN: usize = 12;

// The first numbers of cells, and what is added for a word that was reported.
const NEW: u32 = 0;

const OWNED: u32 = 0x100_0000;

const READ: u32 = 0x200_0000;

const MODIFIED: u32 = 0x300_0000;

const REPORTED: u32 = 0x1_0000;

// What the first number of a cell says: its state.
#[inline(always)]
fn kind_of(cell: Cell) -> u32
    ensures kind { result ≡ kind_in cell }
    ensures small { result ≤ 0x300_0000 }
{
    match cell {
        Cell::New => NEW,
        Cell::Exclusive(_) => OWNED,
        Cell::SharedRead(_, _) => READ,
        Cell::SharedModified(_, _) => MODIFIED,
    }
}

// What is added to it where the cell has no lock left.
#[inline(always)]
fn mark_of(cell: Cell) -> u32
    ensures mark { result ≡ mark_in cell }
    ensures small { result ≤ 0x1_0000 }
{
    match cell {
        Cell::SharedModified(_, _) => REPORTED,
        _ => 0,
    }
}

// Its owner, or its set of threads.
#[inline(always)]
fn first_of(cell: Cell) -> u32
    ensures first { result ≡ first_in cell }
{
    match cell {
        Cell::New => 0,
        Cell::Exclusive(segment) => segment,
        Cell::SharedRead(threads, _) => threads,
        Cell::SharedModified(threads, _) => threads,
    }
}

// Its set of locks.
#[inline(always)]
fn second_of(cell: Cell) -> u32
    ensures second { result ≡ second_in cell }
    ensures fits { CellFits cell }
{
    match cell {
        Cell::New => 0,
        Cell::Exclusive(_) => 0,
        Cell::SharedRead(_, locks) => locks,
        Cell::SharedModified(_, locks) => locks,
    }
}

// The mark of a word that was reported, where no lock is left.
#[inline(always)]
fn mark_without(mark: u32, locks: u32) -> u32
    ensures mark { result ≡ (if locks == 0 then mark else 0) }
    ensures small { result ≤ mark }
{
    if locks == 0 { mark } else { 0 }
}

/// The three numbers of four bytes each that spell a cell. Each is found apart, so that there is no branch: which kind of cell
/// comes next can't be foreseen.
#[inline(always)]
pub(crate) fn numbers_of(cell: Cell) -> (u32, u32, u32)
    ensures spelled { text_of result ≡ cell_text cell }
    ensures fits { CellFits cell }
{
    let locks = second_of(cell);
    let mark = mark_without(mark_of(cell), locks);
    (kind_of(cell) + mark, first_of(cell), locks)
}

// The number that four of the bytes spell: one read, since they are an array.
#[inline(always)]
fn number(bytes: &[u8], at: usize) -> u32
    requires { at + 4 ≤ length bytes.now }
    ensures { result ≡ number_at bytes.now at }
{
    let Some(digits) = bytes[at..at + 4].as_array::<4>() else {
        unreachable!()
    };
    u32::from_be_bytes(*digits)
}

/// The three numbers that twelve bytes spell.
#[inline(always)]
pub(crate) fn numbers_in(bytes: &[u8]) -> (u32, u32, u32)
    requires { length bytes.now ≡ CELL_LEN }
    ensures text { text_of result ≡ bytes.now }
    ensures head { result.0 ≡ number_at bytes.now 0 }
{
    (number(bytes, 0), number(bytes, 4), number(bytes, 8))
}

// Whether they are the same three numbers. All three are compared, so that there is no branch.
#[inline(always)]
fn are_same_numbers(a: (u32, u32, u32), b: (u32, u32, u32)) -> bool
    ensures { IsTrue result ↔ (text_of a ≡ text_of b) }
{
    (a.0 == b.0) & (a.1 == b.1) & (a.2 == b.2)
}

/// Whether twelve bytes spell this cell.
#[inline(always)]
pub(crate) fn spell(bytes: &[u8], cell: Cell) -> bool
    requires { length bytes.now ≡ CELL_LEN }
    ensures spelled { IsTrue result ↔ (bytes.now ≡ cell_text cell) }
    ensures fits { CellFits cell }
{
    are_same_numbers(numbers_in(bytes), numbers_of(cell))
}

// Whether three numbers spell a new word.
#[inline(always)]
fn are_new(head: u32, first: u32, second: u32) -> bool
    ensures { IsTrue result ↔ SpellNew head first second }
{
    (head == NEW) & (first == 0) & (second == 0)
}

// Whether three numbers spell an owned word, with a segment below this number.
#[inline(always)]
fn are_owned(head: u32, first: u32, second: u32, segments: u32) -> bool
    ensures { IsTrue result ↔ SpellOwned segments head first second }
{
    (head == OWNED) & (first < segments) & (second == 0)
}

// Whether three numbers spell a shared word, with sets below this number.
#[inline(always)]
fn are_shared(head: u32, first: u32, second: u32, sets: u32) -> bool
    ensures { IsTrue result ↔ SpellShared sets head first second }
{
    let modified = MODIFIED + mark_without(REPORTED, second);
    ((head == READ) | (head == modified)) & (first < sets) & (second < sets)
}

/// Whether three numbers spell a cell that names only segments and sets below these numbers. There is no branch in it.
#[inline(always)]
pub(crate) fn spell_within(numbers: (u32, u32, u32), segments: u32, sets: u32) -> bool
    ensures yes { IsTrue result → SpellsWithin segments sets numbers }
    ensures no { result ≡ false → SpellsNoneWithin segments sets numbers }
{
    let (head, first, second) = numbers;
    are_new(head, first, second)
        | are_owned(head, first, second, segments)
        | are_shared(head, first, second, sets)
}

/// The cell that three numbers spell, if they spell one.
#[inline(always)]
pub(crate) fn cell_from(numbers: (u32, u32, u32)) -> Cell
    ensures { result ≡ cell_by numbers }
{
    let (head, first, second) = numbers;
    let shared = if head == READ {
        Cell::SharedRead(first, second)
    } else {
        Cell::SharedModified(first, second)
    };
    let other = if head == NEW {
        Cell::New
    } else {
        Cell::Exclusive(first)
    };
    if head >= READ { shared } else { other }
}

/// Whether a cell with these numbers is shared, if they spell one.
#[inline(always)]
pub(crate) fn are_of_shared(numbers: (u32, u32, u32)) -> bool
    ensures { IsTrue result ↔ (0x200_0000 ≤ numbers.0) }
{
    numbers.0 >= READ
}

// Whether the table has this set, and it can be the threads of a shared word. There is no branch in it: the table is asked for
// its last set where it does not have this one.
#[inline(always)]
fn is_thread_set(sets: &SetTable, id: u32) -> bool
    ensures { IsTrue result ↔ IsThreadSet sets.now.sets id }
{
    let last = sets.len() - 1;
    let is_known = id <= last;
    let asked = if is_known { id } else { last };
    let is_of_threads = sets.is_of_threads(asked);
    is_known & is_of_threads
}

/// Whether the threads of a cell that is spelled so can be, if it is shared. The table is asked for each cell: which kind of cell
/// comes next can't be foreseen.
#[inline(always)]
pub(crate) fn has_threads(bytes: &[u8], sets: &SetTable) -> bool
    requires { length bytes.now ≡ CELL_LEN }
    ensures { IsTrue result ↔ HasThreads sets.now.sets bytes.now }
{
    let is_shared = number(bytes, 0) >= READ;
    let is_set = is_thread_set(sets, number(bytes, 4));
    !is_shared | is_set
}
