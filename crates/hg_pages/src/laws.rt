//! Laws of slots, each the promise of a function without a body.
ghost use Rattle.std.specs.Prelude.{◌<◌, List, ℕ};
ghost use Rattle.hg_cells.specs.declared.cell.Cell.{Cell};
ghost use Rattle.hg_pages.specs.Slots.{HasOnePage, HasSlot, IsSlot};
ghost use Rattle.hg_pages.specs.Stored.{StoresCell};
ghost use Rattle.hg_pages.specs.Tables.{AreOneIn, AreOneList, FindsListed, ListsFound};

/// Bytes are the slot of one page, with one list of cells, and so is a slot of a file.
pub fn one_reading()
    ensures slot { (bytes : List ℕ) → HasOnePage (λ page cells. IsSlot page cells bytes) }
    ensures file { (file : List ℕ) (slot : ℕ) → HasOnePage (λ page cells. HasSlot slot page cells file) }
{}

/// A table's look-ups and its list say the same, no slot has two pages, and lists with the same look-ups are one list.
pub fn entries_are_looked_up()
    ensures found { (entries : List (ℕ × ℕ)) (place page slot : ℕ) → FindsListed entries place page slot }
    ensures placed { (entries : List (ℕ × ℕ)) (page slot : ℕ) → ListsFound entries page slot }
    ensures one_page { (entries : List (ℕ × ℕ)) (page other slot : ℕ) → AreOneIn slot entries page other }
    ensures one_list { (entries others : List (ℕ × ℕ)) → AreOneList entries others }
{}

/// Where a slot of a file has a page, each cell that stands in it is the page's.
pub fn cells_are_stored()
    ensures { (slot page i : ℕ) (cells : List Cell) (file : List ℕ) → i < 256 → StoresCell slot page i cells file }
{}
