//! Laws of records, each the promise of a function without a body.

ghost use Rattle.hg_records.specs.Laws.{RecordListsAreUnique, RecordsAreUnique};

/// No record begins another, and each has one spelling.
pub fn records_are_unique()
    ensures { RecordsAreUnique }
{}

/// Different lists of events have different records.
pub fn record_lists_are_unique()
    ensures { RecordListsAreUnique }
{}
