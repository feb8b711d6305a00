//! Laws of the definitions, each the promise of a function without a body.

ghost use Rattle.hg_check.specs.LifeLaws.{HiddenAreCounted, LifeGoesOn, LifeIsTheStory, RacesAreTheReports};

/// What `explain` prints of a word is the word's story over the trace: each line by the access's item in the word's history,
/// by the state that this history gives, and by the reports of the trace so far.
pub fn life_is_the_story()
    ensures { LifeIsTheStory }
{}

/// What `explain` prints of a word is, behind lines that were accepted, what it prints from the content that they lead to on: what
/// `explain_behind` prints there. Only the first count of accesses that were not shown may be greater, by those in front.
pub fn life_goes_on()
    ensures goes_on { LifeGoesOn }
    ensures counted { HiddenAreCounted }
{}

/// A race stands on the line of an event exactly where the word is reported at it and that report is kept.
pub fn races_are_the_reports()
    ensures { RacesAreTheReports }
{}
