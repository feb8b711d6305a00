//! Laws of images of five devices, each the promise of a function without a body.

ghost use Rattle.hg_images.specs.Choices.{JointImages};
ghost use Rattle.hg_images.specs.Laws.{BasesAboveTheRootHaveNoContent, CheckpointGivesTheSame, ClosedRootsAreAsBefore, ClosedRootsNeedAllEvents, ContentIsUnique, ContentsCountTheirEvents, GivingUpGivesTheSame, GivingUpKeepsContent, LosesContent, TurnsChangeNothing};
ghost use Rattle.hg_images.specs.Runs.{PrefixIsSummed, RemainingGiveTheSame};
ghost use Rattle.hg_images.specs.Steps.{CommitsStand, ContentsHaveABasis, OpeningsStand, RetirementsStand, TurnsStand};
ghost use Rattle.hg_images.specs.Stores.{FactsBack};

use hg_model::laws::following_is_the_summary;

/// An image of the devices, with root files shorter than 2^64 bytes, has one content.
pub fn content_is_unique()
    ensures { ContentIsUnique }
{}

/// The content of an image counts the events up to the last one that its journals keep.
pub fn contents_count_their_events()
    ensures { ContentsCountTheirEvents }
{}

/// If a fact holds for each kind of device, each joint image has the durable content or, in doubt, the live one.
pub fn joint_images()
    ensures { JointImages }
{}

/// The facts that a store keeps on its devices (`KeepsContent`) give the content of each joint image (`Backs`).
pub fn facts_back()
    ensures { FactsBack }
{}

/// If both root files are closed, an image has the content that its journals alone give, from the first event on. If these
/// begin later, it has none.
pub fn closed_roots_are_as_before()
    ensures all_events { ClosedRootsAreAsBefore }
    ensures no_base { ClosedRootsNeedAllEvents }
{}

/// A new checkpoint of the events so far changes no content: with any more events it gives the same as the former
/// checkpoint or the empty content.
pub fn checkpoint_gives_the_same()
    ensures { CheckpointGivesTheSame }
{}

/// Events that the newest open root counts may be given up: the others give the same content.
pub fn giving_up_gives_the_same()
    ensures gives { GivingUpGivesTheSame }
    ensures images { GivingUpKeepsContent }
{}

/// Two journals that took turns give the same content as before.
pub fn turns_change_nothing()
    ensures { TurnsChangeNothing }
{}

/// An image whose journals begin behind what its newest open root counts has no content.
pub fn bases_above_the_root_have_no_content()
    ensures { BasesAboveTheRootHaveNoContent }
{}

/// There is an image that loses its content: events are given up that a root counts which is not open yet.
pub fn giving_up_too_early_loses_content()
    ensures { LosesContent }
{}

/// An image with a content has a basis at rest that gives it: from there a recovered store goes on.
pub fn contents_have_a_basis()
    ensures { ContentsHaveABasis }
{}

/// During a commit and after it the devices have what a basis says.
pub fn commits_stand()
    ensures { CommitsStand }
{}

/// So they do while the journals take turns,
pub fn turns_stand()
    ensures { TurnsStand }
{}

/// while events are given up that the newest open root counts, and after that,
pub fn retirements_stand()
    ensures { RetirementsStand }
{}

/// and while a root is opened that has the content at the freeze, and after that.
pub fn openings_stand()
    ensures { OpeningsStand }
{}

/// Take the content of an image, and then the remaining events of the run: the rules accept each of them, and the result is
/// the content of the run that was never stopped.
pub fn remaining_give_the_same()
    ensures { RemainingGiveTheSame }
{}

/// If a run starts from the empty content, an image has the summary of a prefix of the accepted events, and this prefix has
/// each acknowledged event. The journals end with its last event.
pub fn prefix_is_summed()
    ensures { PrefixIsSummed }
{
    following_is_the_summary();
}
