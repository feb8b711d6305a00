//! How a server went, from the opening of its store to the end.

ghost use Rattle.std.specs.Prelude.{◌≡◌, ◌∷◌, []};

use crate::handing::{Cut, Taken};
use crate::seen::Seen;
use crate::talks::Records;
use hg_disk::Disk;
use hg_store::made::MadeStep;
use hg_store::store::Store;
use hg_trail::Trail;

/// How a server went.
#[derive(Drop)]
pub struct Course<D: Disk> {
    /// The store as it was when it was opened, if it was. Contracts alone see it.
    pub opened: Trail<Seen<D>>,
    /// The steps of the store since the opening, the newest first, which contracts alone see.
    pub steps: Trail<MadeStep<D>>,
    /// What was read and written in the conversations of each worker, if its share was taken in. Contracts alone see it.
    pub talks: Records,
    /// The store as it was at the end, if one was opened. Contracts alone see it.
    pub left: Trail<Seen<D>>,
    /// How many connections workers took.
    pub taken: Taken,
}

impl<D: Disk> Course<D> {
    /// That of a server whose store was not opened.
    pub(crate) fn none() -> Course<D>
        ensures { result.opened ≡ [] }
    {
        Course {
            opened: Trail::new(),
            steps: Trail::new(),
            talks: Records::new(),
            left: Trail::new(),
            taken: Taken::lacking(Cut::Unready),
        }
    }

    /// That of a server that opened a store, and left one.
    pub(crate) fn between(
        opened: Seen<D>,
        steps: Trail<MadeStep<D>>,
        talks: Records,
        store: &Store<D>,
        taken: Taken,
    ) -> Course<D>
        ensures opened { result.opened ≡ opened ∷ [] }
        ensures steps { result.steps ≡ steps }
        ensures talks { result.talks ≡ talks }
        ensures left { result.left ≡ store.now ∷ [] }
        ensures taken { result.taken ≡ taken }
    {
        let mut all = Trail::new();
        all.push(opened);
        let mut left = Trail::new();
        left.push(Seen::of(store));
        Course {
            opened: all,
            steps,
            talks,
            left,
            taken,
        }
    }
}
