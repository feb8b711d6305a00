//! How much room a list of sets needs.

ghost use Rattle.std.specs.Prelude.{◌≡◌, ◌≤◌, IfSome, None};
ghost use Rattle.hg_sets.specs.Soundness.{IsRoomFor, members_in};

use crate::lists::MOST_ELEMENTS;
use hg_model::sets::NumberSet;

/// Room for so many sets, which have so many members together, and the longest of which has so many.
#[derive(Clone, Copy, Debug, PartialEq, Eq, Drop)]
pub(crate) struct Room {
    pub(crate) count: usize,
    pub(crate) members: usize,
    pub(crate) longest: usize,
}

/// The room that these sets need. None where a table has no room for so many members.
pub(crate) fn room_for(sets: &[NumberSet]) -> Option<Room>
    ensures room { IfSome result (IsRoomFor sets.now) }
    ensures none { result ≡ None → MOST_ELEMENTS ≤ members_in sets.now }
{
    let mut members: usize = 0;
    let mut longest: usize = 0;
    for set in sets {
        let len = set.as_slice().len();
        if len >= MOST_ELEMENTS - members {
            return None;
        }
        members += len;
        longest = longest.max(len);
    }
    Some(Room {
        count: sets.len(),
        members,
        longest,
    })
}
