//! Laws of migrated stores, each the promise of a function without a body.
ghost use Rattle.hg_migration.specs.Laws.{ContentIsKept, ContentsStay, EventsStay};

/// A journal without a base, and two files of which the first one has its batches behind the base 0 and the second one is
/// spare, keep the same events.
pub fn events_stay()
    ensures { EventsStay }
{}

/// So a store of the former form, and one over five devices with its batches, its slots and its roots, have the same
/// contents. If more bytes stand behind those of the journal, the content of the former store is kept.
pub fn contents_stay()
    ensures same { ContentsStay }
    ensures kept { ContentIsKept }
{}
