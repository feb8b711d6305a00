//! The accesses to a word.

ghost use Rattle.std.specs.Prelude.{◌≡◌, ◌^◌, ◌<◌, IfOk, length};
ghost use Rattle.hg_model.specs.History as history;

use crate::locks::{counted, held};
use crate::segments::{present, segments_of};
use hg_model::event::Event;
use hg_model::sets::NumberSet;
use hg_model::word::HistoryItem;
use std::alloc::{AllocError, Global};

fn overlaps(at: u64, len: u32, word: u64) -> bool
    ensures { result ≡ history.overlaps at len word }
{
    let start = 4 * u128::from(word);
    u128::from(at) < start + 4 && start < u128::from(at) + u128::from(len)
}

fn item(alloc: Global, past: &[Event], thread: u16, write: bool) -> Result<HistoryItem, AllocError>
    requires { length past.now < 2 ^ 20 }
    ensures { IfOk result (λ i. i ≡ history.item past.now thread write) }
{
    let segments = segments_of(alloc, past)?;
    let holds = held(alloc, past, thread)?;
    let locks = counted(alloc, write, &holds)?;
    Ok(HistoryItem {
        event: past.len() as u64 + 1,
        thread,
        segment: present(&segments, thread),
        write,
        locks: NumberSet::from_vec(locks),
    })
}

/// The accesses to a word since it was last allocated or freed, the oldest first.
pub fn history_of(alloc: Global, word: u64, past: &[Event]) -> Result<Vec<HistoryItem>, AllocError>
    requires { length past.now < 2 ^ 20 }
    ensures { IfOk result (λ v. v.items ≡ history.history word past.now) }
{
    let Some((event, earlier)) = past.split_first() else {
        return Ok(Vec::new(alloc));
    };
    let mut items = history_of(alloc, word, earlier)?;
    match *event {
        Event::Read(a) => {
            if overlaps(a.at, u32::from(a.len), word) {
                let next = item(alloc, earlier, a.t, false)?;
                items.push(next)?;
            }
            Ok(items)
        }
        Event::Write(a) => {
            if overlaps(a.at, u32::from(a.len), word) {
                let next = item(alloc, earlier, a.t, true)?;
                items.push(next)?;
            }
            Ok(items)
        }
        Event::Alloc(b) => {
            if overlaps(b.at, b.len, word) {
                return Ok(Vec::new(alloc));
            }
            Ok(items)
        }
        Event::Free(b) => {
            if overlaps(b.at, b.len, word) {
                return Ok(Vec::new(alloc));
            }
            Ok(items)
        }
        _ => Ok(items),
    }
}
