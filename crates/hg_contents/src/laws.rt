//! Laws of images and of contents, each the promise of a function without a body.

ghost use Rattle.hg_contents.specs.Choices.{JointImages};
ghost use Rattle.hg_contents.specs.Heads.{ADetectorHasALawfulHead, RootsHaveTheLastNumbers, ThreadsHaveSmallNumbers};
ghost use Rattle.hg_contents.specs.Lawful.{ContentsAreLawful};
ghost use Rattle.hg_contents.specs.Laws.{CheckpointGivesTheSame, ClosedRootsAreAsBefore, ContentIsUnique};
ghost use Rattle.hg_contents.specs.Maps.{CheckpointsAreContents, MapsAreStored};
ghost use Rattle.hg_contents.specs.Runs.{PrefixIsSummed, RemainingGiveTheSame};
ghost use Rattle.hg_contents.specs.Spellings.{ContentsHaveSpellings, TablesHaveSpellings};
ghost use Rattle.hg_contents.specs.States.{AnswersStaySpelled, EmptyIsLawful, FollowedStayLawful, LiveWordsAreKnown, RootsHaveLawfulStates, StatesFit, StatesStayLawful, TablesStaySpelled};
ghost use Rattle.hg_contents.specs.Stores.{FactsBack};

use hg_cells::words::Words;
use hg_model::laws::following_is_the_summary;

/// An image of the devices, with root files shorter than 2^64 bytes, has one content.
pub fn content_is_unique()
    ensures { ContentIsUnique }
{}

/// If both root files are closed, an image has the content that its journal alone gives.
pub fn closed_roots_are_as_before()
    ensures { ClosedRootsAreAsBefore }
{}

/// A new checkpoint of the journal's events so far changes no content: with any more events it gives the same as the former
/// checkpoint or the empty content.
pub fn checkpoint_gives_the_same()
    ensures { CheckpointGivesTheSame }
{}

/// If a fact holds for each kind of device, each joint image has the durable content or, in doubt, the live one.
pub fn joint_images()
    ensures { JointImages }
{}

/// The facts that a store keeps on its devices (`KeepsContent`) give the content of each joint image (`Backs`).
pub fn facts_back()
    ensures { FactsBack }
{}

/// Take the content of an image, and then the remaining events of the run: the rules accept each of them, and the result is
/// the content of the run that was never stopped.
pub fn remaining_give_the_same()
    ensures { RemainingGiveTheSame }
{}

/// If a run starts from the empty content, an image has the summary of a prefix of the accepted events, and this prefix has
/// each acknowledged event.
pub fn prefix_is_summed()
    ensures { PrefixIsSummed }
{
    following_is_the_summary();
}

/// If each slot of a root has its page of a map, the slots have the checkpoint of the root and the map.
pub fn maps_are_stored()
    ensures { MapsAreStored }
{}

/// The checkpoint of a detector's parts and words has the detector's content.
pub fn checkpoints_are_contents()
    ensures { CheckpointsAreContents }
{}

/// The content that accepted events lead to obeys the rules of a root.
pub fn contents_are_lawful()
    ensures { ContentsAreLawful }
{}

/// The parts of a detector are a lawful head of a root, if it fits a root (`FitsARoot`).
pub fn a_detector_has_a_lawful_head<W: Words>()
    ensures { ADetectorHasALawfulHead W.cell_of }
{}

/// The threads of a lawful content are numbered below 1,024.
pub fn threads_have_small_numbers()
    ensures { ThreadsHaveSmallNumbers }
{}

/// The root of a lawful content has the last number of each source.
pub fn roots_have_the_last_numbers()
    ensures { RootsHaveTheLastNumbers }
{}

/// If events have records, the locks and the sets of their content have a spelling in a root.
pub fn contents_have_spellings()
    ensures { ContentsHaveSpellings }
{}

/// A table of sets with spellings keeps them, whatever sets such a content asks for.
pub fn tables_have_spellings()
    ensures { TablesHaveSpellings }
{}

/// The empty content is a lawful state.
pub fn empty_is_lawful()
    ensures { EmptyIsLawful }
{}

/// An accepted event leads from a lawful state to a lawful state.
pub fn states_stay_lawful()
    ensures { StatesStayLawful }
{}

/// So do several events, each accepted after those before it.
pub fn followed_stay_lawful()
    ensures { FollowedStayLawful }
{}

/// The content of a lawful root and its pages is a lawful state.
pub fn roots_have_lawful_states()
    ensures { RootsHaveLawfulStates }
{}

/// The cell of a word of a lawful state may go into a slot, if its numbers are within the segments and the sets.
pub fn live_words_are_known()
    ensures { LiveWordsAreKnown }
{}

/// A detector whose content is a lawful state fits a root.
pub fn states_fit<W: Words>()
    ensures { StatesFit W.cell_of }
{}

/// A table of sets with spellings keeps them, whatever sets an event asks for that a lawful state accepts.
pub fn tables_stay_spelled()
    ensures { TablesStaySpelled }
{}

/// It does so whatever the answer is, even if memory ran out.
pub fn answers_stay_spelled()
    ensures { AnswersStaySpelled }
{}
