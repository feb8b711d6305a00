//! Page slots, read and told in tokens.

ghost use Rattle.std.specs.Prelude.{◌≡◌, length};

use hg_cells::Page;
use hg_pages::{SLOT_LEN, decode, encode};
use hg_sets::SetTable;
use hg_test_kit::cells::{CellWords, put_page};
use hg_test_kit::digits::bytes_of;
use hg_test_kit::sets::sets_of;
use hg_test_kit::text::Text;
use hg_test_kit::tokens::front;
use std::alloc::Global;

/// How cells are told.
const WORDS: CellWords = CellWords {
    exclusive: b":exclusive,",
    read: b":read,",
    modified: b":modified,",
};

/// Whether the page is written with the same bytes again.
fn put_again(alloc: Global, page: u64, cells: &Page, bytes: &[u8], out: &mut Text) {
    match encode(alloc, page, cells) {
        Ok(encoded) => out.put(if encoded.bytes() == bytes {
            b" same"
        } else {
            b" other"
        }),
        Err(_) => out.put(b" no memory"),
    }
}

fn put_slot(alloc: Global, page: u64, segments: u32, sets: &SetTable, bytes: &[u8], out: &mut Text)
    requires { length bytes.now ≡ SLOT_LEN }
{
    match decode(bytes, page, segments, sets) {
        Some(cells) => {
            out.put_number(b"page ", page);
            put_page(&WORDS, &cells, out);
            put_again(alloc, page, &cells, bytes, out);
        }
        None => out.put(b"damaged"),
    }
}

/// What a line about a slot names: the page, the number of segments, the table of sets, and the bytes.
struct SlotLine {
    page: u64,
    segments: u32,
    sets: SetTable,
    bytes: Vec<u8>,
}

impl Drop for SlotLine {
    fn drop(self) {
        let SlotLine {
            page: _,
            segments: _,
            sets,
            bytes,
        } = self;
        drop(sets);
        drop(bytes);
    }
}

fn parse_line(alloc: Global, tokens: &str) -> Option<SlotLine> {
    let (page, rest) = front(tokens);
    let (segments, rest) = front(rest);
    let (sets, digits) = front(rest);
    let page = page.parse::<u64>().ok()?;
    let segments = segments.parse::<u32>().ok()?;
    let bytes = bytes_of(alloc, digits)?;
    let sets = sets_of(alloc, sets)?;
    Some(SlotLine {
        page,
        segments,
        sets,
        bytes,
    })
}

/// Tells the cells of a slot.
pub fn tell_slot(alloc: Global, tokens: &str, out: &mut Text) {
    let Some(it) = parse_line(alloc, tokens) else {
        out.put(b"no slot");
        return;
    };
    if it.bytes.len() == SLOT_LEN {
        put_slot(alloc, it.page, it.segments, &it.sets, &it.bytes, out);
    } else {
        out.put(b"damaged");
    }
}
