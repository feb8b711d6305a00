//! Laws of streams, each the promise of a function without a body.

ghost use Rattle.hg_protocol.specs.Laws.{CutsAreNothing, ReadingIsUnique};

use crate::message::Message;

/// The messages of a stream do not depend on how it is cut.
pub fn cuts_are_nothing<M: Message>()
    ensures { CutsAreNothing ⟦<M as Message>⟧ }
{}

/// The bytes of a stream determine its messages, its fault and its rest.
pub fn reading_is_unique<M: Message>()
    ensures { ReadingIsUnique ⟦<M as Message>⟧ }
{}
