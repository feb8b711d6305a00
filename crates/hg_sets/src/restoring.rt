//! A table made of sets that have their numbers already.

ghost use Rattle.std.specs.Prelude.{◌≡◌, ◌≤◌, ◌↔◌, length, IsTrue, IfOk, IfSome};
ghost use Rattle.std.specs.List.Sorted.{IsStrictlyIncreasing};
ghost use Rattle.hg_sets.specs.Interning.{AreSets, IsRestored, table_with};

use crate::interner::Interner;
use crate::memo::{JOINS, MEETS, none_known};
use crate::reserving::room_for;
use crate::table::{MOST_SETS, SetTable};
use hg_model::sets::NumberSet;
use std::alloc::{AllocError, Global};

impl SetTable {
    /// The table of these sets, each numbered by its place, for at most `limit` sets. `None` where they are not a table's: the
    /// first has to be the empty set, members have to rise strictly, no set may stand twice, and there may be at most `limit`.
    /// All memory is taken before the first set is added, for sets of these lengths; to add them takes none.
    pub fn restore(
        alloc: Global,
        limit: u32,
        sets: &[NumberSet],
    ) -> Result<Option<Self>, AllocError>
        requires greatest { limit ≤ MOST_SETS }
        ensures table { IfOk result (IsRestored (table_with limit sets.now)) }
        ensures sets { IfOk result (λ found. IfSome found AreSets) }
    {
        if sets.is_empty() || sets.len() > limit as usize {
            return Ok(None);
        }
        let Some(room) = room_for(sets) else {
            return Err(AllocError);
        };
        let mut interner = Interner::with_room(alloc, limit, room)?;
        let joins = none_known(alloc, JOINS)?;
        let meets = none_known(alloc, MEETS)?;
        if !interner.fill(sets) {
            return Ok(None);
        }
        Ok(Some(SetTable {
            interner,
            joins,
            meets,
        }))
    }

    /// Sets how many sets there may be. The sets stay.
    pub fn set_limit(&mut self, limit: u32)
        requires within { length self.old.sets ≤ limit }
        requires greatest { limit ≤ MOST_SETS }
        ensures { self.new ≡ record self.old { limit = limit } }
    {
        self.interner.set_limit(limit);
    }
}

/// Whether each number is below the next.
pub(crate) fn do_rise(members: &[u16]) -> bool
    ensures { IsTrue result ↔ IsStrictlyIncreasing members.now }
{
    for i in 1..members.len() {
        if members[i - 1] >= members[i] {
            return false;
        }
    }
    true
}
