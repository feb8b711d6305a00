//! Laws of a trace and its parts, each the promise of a function without a body.

ghost use Rattle.hg_shards.specs.Laws.{AgreementIsLawful, OtherWordsDoNotMatter, VerdictsNeedNoAccess, CutEventsAreAccepted, SummariesAgree, StepsAgree, PassingChangesNothing, ReportsRise, PartsMakeTheWhole, SharesMakeTheWhole, OtherWordsAskForOtherSets, PartsAskForTheSets, FullByTheSets, SetsAreOfTheWords, TablesAnswerBySets, OwnEventsStayWithin};
ghost use Rattle.hg_shards.specs.Sharding.{ShardsMakeTheWhole};

/// Each trace agrees with itself within any group of words. Agreement goes both ways, from trace to trace, and down to
/// smaller groups.
pub fn agreement_is_lawful()
    ensures { AgreementIsLawful }
{}

/// Two traces that do the same to the words of a group have the same segments, threads and held locks, and for each word
/// of the group the same history, state and reports.
pub fn other_words_do_not_matter()
    ensures { OtherWordsDoNotMatter }
{}

/// The verdict on an event is the same after two traces that differ in what they do to other words.
pub fn verdicts_need_no_access()
    ensures { VerdictsNeedNoAccess }
{}

/// Where an access or a block is accepted, so is any other of the same thread that has a lawful length and end, as one that
/// is cut to the words of a part.
pub fn cut_events_are_accepted()
    ensures { CutEventsAreAccepted }
{}

/// Traces that do the same to the words of a group leave contents that agree on them.
pub fn summaries_agree()
    ensures { SummariesAgree }
{}

/// Contents that agree on the words of a group still do after events that do the same to them. The reports of these words are
/// the same, and so are the sets that are asked for.
pub fn steps_agree()
    ensures { StepsAgree }
{}

/// An access or a block that touches no word of a group is counted, and does nothing else to what a part keeps.
pub fn passing_changes_nothing()
    ensures { PassingChangesNothing }
{}

/// The reports of a trace rise, by event and then by word, and so does each stretch of them.
pub fn reports_rise()
    ensures { ReportsRise }
{}

/// The reports of a trace are those of its parts, merged by event and then by word. No report is in two parts, the totals add
/// up, and the reports that are kept of the whole are among those that are kept of each part.
pub fn parts_make_the_whole()
    ensures { PartsMakeTheWhole }
{}

/// Rising reports, as those of some events in a row, are what is merged of the shares that parts have in them.
pub fn shares_make_the_whole()
    ensures { SharesMakeTheWhole }
{}

/// Two traces that do the same to the words of a group ask for the same sets of threads and locks of these words.
pub fn other_words_ask_for_other_sets()
    ensures { OtherWordsAskForOtherSets }
{}

/// The sets that a trace asks for are those that its parts ask for, and as many. Where the tables of the parts have together no
/// more than one table has room for, that one has room for all.
pub fn parts_ask_for_the_sets()
    ensures { PartsAskForTheSets }
{}

/// The event that is refused since the table of sets is full is the first one up to which the sets that are asked for, with
/// the empty set, are more than the table has room for.
pub fn full_by_the_sets()
    ensures { FullByTheSets }
{}

/// An accepted event asks for the sets of threads and locks that its words have after it, for the words of any group too.
pub fn sets_are_of_the_words()
    ensures { SetsAreOfTheWords }
{}

/// A table that is asked for more sets takes them where all that it was asked for, with the empty set, are no more than it has
/// room for. Else it refuses one of them as full.
pub fn tables_answer_by_sets()
    ensures { TablesAnswerBySets }
{}

/// An event that touches no word outside a group has reports of words of the group alone, and asks for their sets alone.
pub fn own_events_stay_within()
    ensures { OwnEventsStayWithin }
{}

/// The reports of the shards of all parts, merged by event and then by word, begin with those that are kept of the whole trace, and
/// their totals add up to its total.
pub fn shards_make_the_whole()
    ensures { ShardsMakeTheWhole }
{}
