//! A ghost list: contracts see its items, and at run time it has no bytes.
ghost use Rattle.std.specs.Prelude.{◌≡◌, ◌∷◌, []};

use std::marker::Model;
use std::mem;
use std::snapshot::Snapshot;

/// A list for contracts alone, the newest item first. It has no bytes, so it grows without taking memory.
#[derive(Drop)]
pub struct Trail<T> {
    link: Snapshot<Option<(T, Trail<T>)>>,
}

impl<T> Model for Trail<T> {
    ghost use Rattle.std.specs.Prelude.{List, length};
    ghost use Rattle.hg_trail.specs.Trail.{items_of};

    ghost Value = { List T };

    ghost view = { λ a. items_of a.link.value };

    ghost size = { length };
}

impl<T: Drop> Trail<T> {
    /// An empty list.
    pub fn new() -> Trail<T>
        ensures { result ≡ [] }
    {
        let none: Option<(T, Trail<T>)> = None;
        Trail {
            link: Snapshot::of(&none),
        }
    }

    /// Adds the item.
    pub fn push(&mut self, item: T)
        ensures { self.new ≡ item ∷ self.old }
    {
        let earlier = mem::replace(self, Trail::new());
        let link = Some((item, earlier));
        *self = Trail {
            link: Snapshot::of(&link),
        };
    }
}

impl Trail<u8> {
    /// A list of these bytes. The last byte is the oldest item.
    pub fn of(bytes: &[u8]) -> Trail<u8>
        ensures { result ≡ bytes.now }
    {
        let mut trail = Trail::new();
        let mut i = bytes.len();
        while i > 0 {
            i -= 1;
            trail.push(bytes[i]);
        }
        trail
    }
}
