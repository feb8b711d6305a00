//! Moments of a command, which contracts alone see.

ghost use Rattle.std.specs.Prelude.{◌≡◌};
ghost use Rattle.hg_commands.specs.Instants.{instant_behind, instant_of};

use hg_disk::Disk;
use hg_store::devices::Devices;
use hg_store::made::MadeStep;
use hg_store::store::Store;
use hg_streams::output::Output;
use hg_trail::Trail;
use std::marker::Model;
use std::snapshot::Snapshot;

/// The devices of a store, its limits, and an output as they were at one moment, and the step of the store before it, if the moment tells
/// of one. It has no bytes. Only `of` and `behind` make one, and borrow both at once, so each `Moment` is a true one. A command over any
/// devices and writers has but one store of `D` and one output of `W`, so no other can stand in for them.
#[derive(Drop)]
pub struct Moment<D: Disk, W> {
    store: Snapshot<Store<D>>,
    output: Snapshot<Output<W>>,
    made: Snapshot<Option<MadeStep<D>>>,
}

impl<D: Disk, W> Model for Moment<D, W> {
    ghost use Rattle.hg_commands.specs.Instants.{Instant, instant_by};

    ghost Value = { Instant D };

    ghost view = { λ m. instant_by m.store.value m.output.value.calls m.made.value };
}

impl<D: Disk, W> Moment<D, W> {
    /// This moment, which tells of no step.
    pub fn of(store: &Store<D>, output: &Output<W>) -> Moment<D, W>
        ensures { result ≡ instant_of store.now output.now.calls }
    {
        let none: Option<MadeStep<D>> = None;
        Moment {
            store: Snapshot::of(store),
            output: Snapshot::of(output),
            made: Snapshot::of(&none),
        }
    }

    /// This moment, behind a step.
    pub fn behind(step: MadeStep<D>, store: &Store<D>, output: &Output<W>) -> Moment<D, W>
        ensures { result ≡ instant_behind step store.now output.now.calls }
    {
        let made = Some(step);
        Moment {
            store: Snapshot::of(store),
            output: Snapshot::of(output),
            made: Snapshot::of(&made),
        }
    }
}

/// What a command over a store comes to.
#[derive(Drop)]
pub struct Outcome<D: Disk, W> {
    /// The exit status.
    pub status: u8,
    /// The devices of the store.
    pub devices: Devices<D>,
    /// Moments of the command, the newest first, which contracts alone see.
    pub moments: Trail<Moment<D, W>>,
}
