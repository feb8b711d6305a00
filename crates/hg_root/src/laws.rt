//! Laws of roots, each the promise of a function without a body.

ghost use Rattle.hg_root.specs.Checkpoints.{JointImages};
ghost use Rattle.hg_root.specs.Laws.{BodiesHaveOneReading, OneNewest};

use hg_disk::Disk;

/// A body is the root of at most one content.
pub fn bodies_have_one_reading()
    ensures { BodiesHaveOneReading }
{}

/// Two files have at most one newest root.
pub fn one_newest()
    ensures { OneNewest }
{}

/// From a fact on the images of two root files and a fact on the images of a file of slots: the images that a crash leaves
/// of all three together have one checkpoint.
pub fn joint_images<D: Disk, E: Disk>()
    ensures { JointImages ⟦<D as Disk>⟧ ⟦<E as Disk>⟧ }
{}
