//! What is known of a register.

use atomic_table::{Join, Play, Split, TableRule};
use std::collections::LinkedList;
use std::marker::Brand;

/// Events of a source up to this number were told to be durable.
#[derive(Clone, Copy, Debug, PartialEq, Eq, Drop)]
pub struct Acked {
    pub source: u16,
    pub number: u64,
}

/// Names one register.
pub trait Room {
    ghost use Rattle.atomic_table.specs.Seated.{TableId};

    ghost table: { TableId };
}

impl Room for Brand {
    ghost use Rattle.hg_receipts.specs.Receipts.{no_table};

    ghost table = { no_table };
}

/// What a pass knows: the keeper all entries, the newest first, and each pass the entries that it has receipts for. No value of it is made.
pub struct View {
    pub keeps: bool,
    pub all: LinkedList<Acked>,
    pub has: LinkedList<Acked>,
}

/// Each receipt is for an entry.
pub struct Kept;

impl TableRule<Acked, View, ()> for Kept {
    ghost use Rattle.std.specs.Prelude.{[]};
    ghost use Rattle.hg_receipts.specs.Receipts.{IsKept, knower};

    ghost holds = { λ _ s. IsKept s };

    ghost first = { λ _. knower [] };
}

/// The keeper notes an entry.
pub struct Notes;

impl Play<Acked, View> for Notes {
    ghost use Rattle.hg_receipts.specs.Receipts.{Noted};

    ghost then = { Noted };
}

/// The keeper compares receipts with the entries.
pub struct Compares;

impl Play<Acked, View> for Compares {
    ghost use Rattle.hg_receipts.specs.Receipts.{Compared};

    ghost then = { Compared };
}

/// The keeper hands its receipts out.
pub struct HandsOut;

impl Split<View> for HandsOut {
    ghost use Rattle.hg_receipts.specs.Receipts.{emptied, receipts_of};

    ghost left = { emptied };

    ghost right = { receipts_of };
}

/// A pass takes the receipts of another.
pub struct TakesIn;

impl Join<View> for TakesIn {
    ghost use Rattle.std.specs.Prelude.{[]};
    ghost use Rattle.hg_receipts.specs.Receipts.{holder, joined};

    ghost both = { joined };

    ghost spent = { holder [] };
}
