//! A store as it was at one moment, which contracts alone see.

ghost use Rattle.std.specs.Prelude.{◌≡◌};

use hg_disk::Disk;
use hg_store::store::Store;
use std::marker::Model;
use std::snapshot::Snapshot;

/// A store as it was at one moment. It has no bytes. Nothing but `of` makes one, and that borrows the store, so it is one that there was.
#[derive(Drop)]
pub struct Seen<D: Disk> {
    store: Snapshot<Store<D>>,
}

impl<D: Disk> Model for Seen<D> {
    ghost use Rattle.hg_store.specs.Shown.{ShownStore};

    ghost Value = { ShownStore D };

    ghost view = { λ o. o.store.value };
}

impl<D: Disk> Seen<D> {
    /// This store.
    pub fn of(store: &Store<D>) -> Seen<D>
        ensures { result ≡ store.now }
    {
        Seen {
            store: Snapshot::of(store),
        }
    }
}
