//! Laws of the definitions, each the promise of a function without a body.

ghost use Rattle.hg_commands.specs.Laws.{EveryTextFedHasAnOutcome, FeedingIsTheSummary, FeedingIsUnique};

/// Feeding a trace text to a store leads to one content and ends in one way. The bytes of the devices settle the content and
/// the table that it begins with (`content_is_unique`, `sets_are_unique`), so what `feed` prints is settled.
pub fn feeding_is_unique()
    ensures { FeedingIsUnique }
{}

/// Feeding a trace text always leads to some content and ends in some way, so that there is always a text to be printed. The table that
/// it begins with has no more sets than its limit: so it is with the table of every store.
pub fn every_text_fed_has_an_outcome()
    ensures { EveryTextFedHasAnOutcome }
{}

/// What feeding a text leads to is the definitions' summary of the trace with the accepted events of the text's first lines, up to
/// the line that is bad or refused. An event that the trace has already, by its number, is passed over.
pub fn feeding_is_the_summary()
    ensures { FeedingIsTheSummary }
{}
