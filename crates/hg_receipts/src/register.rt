//! The register, and receipts.

ghost use Rattle.std.specs.Prelude.{◌≡◌, ◌∷◌, [], IfOk, List};
ghost use Rattle.hg_receipts.specs.Receipts.{AreAmong};

use crate::view::{Acked, Compares, HandsOut, Kept, Notes, Room, TakesIn, View};
use atomic_table::{Seat, Table};
use std::alloc::{AllocError, Global};
use std::marker::{Model, PhantomData};
use std::mem::replace;

/// A register that no type names yet, with no entry.
#[derive(Drop)]
pub struct Blank {
    table: Table<Acked, View, (), Kept, Global>,
    keeper: Seat<Acked, View>,
}

impl Model for Blank {
    ghost use Rattle.std.specs.Prelude.{◌≡◌, ◌<◌, []};
    ghost use Rattle.atomic_table.specs.Seated.{TableId};
    ghost use Rattle.hg_receipts.specs.Receipts.{knower};

    ghost Value = { TableId };

    ghost view = { λ b. b.table.shared.table_id };

    ghost invariant = { λ b. (0 < b.table.shared.table_id.words) × (b.keeper.table_id ≡ b.table.shared.table_id) × (b.keeper.me ≡ (knower [], [])) };
}

/// The acknowledgements that were given so far, the newest first.
#[derive(Drop)]
pub struct Register<T: Room> {
    table: Table<Acked, View, (), Kept, Global>,
    keeper: Seat<Acked, View>,
    room: PhantomData<T>,
}

impl<T: Room> Model for Register<T> {
    ghost use Rattle.std.specs.Prelude.{◌≡◌, ◌<◌, List, []};
    ghost use Rattle.hg_receipts.specs.declared.view.Acked.{Acked};
    ghost use Rattle.hg_receipts.specs.Receipts.{knower};

    ghost Value = { List Acked };

    ghost view = { λ r. r.keeper.me.0.all };

    ghost invariant = { λ r. (0 < T.table.words) × (r.table.shared.table_id ≡ T.table) × (r.keeper.table_id ≡ T.table) × (r.keeper.me ≡ (knower r.keeper.me.0.all, [])) };
}

/// Receipts for entries of a register, that of the newest first.
#[derive(Drop)]
pub struct Receipts<T: Room> {
    seat: Seat<Acked, View>,
    room: PhantomData<T>,
}

impl<T: Room> Model for Receipts<T> {
    ghost use Rattle.std.specs.Prelude.{◌≡◌, List, []};
    ghost use Rattle.hg_receipts.specs.declared.view.Acked.{Acked};
    ghost use Rattle.hg_receipts.specs.Receipts.{holder};

    ghost Value = { List Acked };

    ghost view = { λ r. r.seat.me.0.has };

    ghost invariant = { λ r. (r.seat.table_id ≡ T.table) × (r.seat.me ≡ (holder r.seat.me.0.has, [])) };
}

impl Blank {
    /// Takes the memory of a register.
    pub fn new(alloc: Global) -> Result<Blank, AllocError> {
        let (table, keeper) = Table::of_words(alloc, &[0], &())?;
        Ok(Blank { table, keeper })
    }

    /// The register that this type names.
    pub fn open<T: Room>(self) -> Register<T>
        requires { self ≡ T.table }
        ensures { result ≡ [] }
    {
        let Blank { table, keeper } = self;
        Register {
            table,
            keeper,
            room: PhantomData,
        }
    }
}

impl<T: Room> Register<T> {
    /// No receipts yet.
    pub fn none(&mut self) -> Receipts<T>
        ensures receipts { result ≡ [] }
        ensures same { self.new ≡ self.old }
    {
        let table = &self.table;
        Receipts {
            seat: table.shared.split_seat::<HandsOut>(&mut self.keeper),
            room: PhantomData,
        }
    }

    /// Notes an entry, and gives a receipt for it.
    pub fn note(&mut self, receipts: &mut Receipts<T>, entry: Acked)
        ensures register { self.new ≡ entry ∷ self.old }
        ensures receipts { receipts.new ≡ entry ∷ receipts.old }
    {
        let table = &self.table;
        table
            .shared
            .compare_exchange_with::<Notes>(&mut self.keeper, 0, 0, 0, &entry);
        let one = table.shared.split_seat::<HandsOut>(&mut self.keeper);
        table.shared.join_seat::<TakesIn>(&mut receipts.seat, one);
    }

    /// Changes nothing, and tells that each receipt is for an entry.
    pub fn compare(&mut self, receipts: &mut Receipts<T>)
        ensures among { AreAmong receipts.old self.old }
        ensures same { self.new ≡ self.old }
        ensures receipts { receipts.new ≡ receipts.old }
    {
        let table = &self.table;
        let none = table.shared.split_seat::<HandsOut>(&mut self.keeper);
        let seat = replace(&mut receipts.seat, none);
        table.shared.join_seat::<TakesIn>(&mut self.keeper, seat);
        table.shared.load::<Compares>(&mut self.keeper, 0);
        receipts.seat = table.shared.split_seat::<HandsOut>(&mut self.keeper);
    }
}
