//! Laws of the grammar, each the promise of a function without a body.

ghost use Rattle.hg_wire.specs.Laws.{EventsAreSpelled, FaultsAreFirst, LinesAreNumberedOn, StreamsAreWhole};

/// A line gives an event exactly where its bytes spell that event.
pub fn events_are_spelled()
    ensures { EventsAreSpelled }
{}

/// A line gives a fault exactly where that is its first fault.
pub fn faults_are_first()
    ensures { FaultsAreFirst }
{}

/// The readings from the start of a stream on are those of the whole stream.
pub fn streams_are_whole()
    ensures { StreamsAreWhole }
{}

/// Bytes behind k lines have the same readings as at the start of a stream, with k added to each line number.
pub fn lines_are_numbered_on()
    ensures { LinesAreNumberedOn }
{}
