//! Laws of what a crash may leave, over the definitions alone.
ghost use Rattle.std.specs.Prelude.{◌≡◌, ◌+◌, Bool, List, ℕ, length, take};
ghost use Rattle.hg_disk.specs.State.{DiskState, IsImage, SameImages, settled, overwritten, after_write, after_cut, after_sync};
ghost use Rattle.hg_disk.specs.Laws.{Begins, EachPasses, HasItsBytes, Holds, HoldsBefore, ImagesKeepBefore, ImagesKeepFrom, ImagesStayLong, PassesAsEachDoes, IsReadAt, KeepsBytes, KeepsBefore, KeepsFrom, LastIsAmong, LastPasses, LeavesThere, LosesNoImage, Passes, RunsJoin, ShowsKept, StaysBeforeWrite, StaysBehindWrite, Torn, WritesBehindLeave, WritesOverLeave};
ghost use Rattle.hg_disk.specs.Moments.{Leaves, MayLeave};

use crate::Disk;

/// After a sync a crash leaves what a read gives, and nothing else.
pub fn settled_is_one_image()
    ensures image { (file : List ℕ) → IsImage (settled file) file }
    ensures only { (file image : List ℕ) → IsImage (settled file) image → image ≡ file }
{}

/// In a durable file, a torn write leaves all bytes before it as they are.
pub fn front_stays()
    ensures { (front rest : List ℕ) → WritesBehindLeave front rest (Begins front) }
{}

/// A write in the middle of a durable file tears only its own range.
pub fn middle_is_torn()
    ensures { (front old behind : List ℕ) → WritesOverLeave front old behind (Torn front (length old) behind) }
{}

/// Bytes on the disk stay through writes and cuts elsewhere, so each image has them.
pub fn places_stay()
    ensures synced { (file : List ℕ) (at : ℕ) (bytes : List ℕ) →
        Holds file at bytes → KeepsBytes (settled file) at bytes }
    ensures write_behind { (at : ℕ) (written : List ℕ) → KeepsBefore at (after_write at written) }
    ensures write_before { (at : ℕ) (written : List ℕ) → KeepsFrom (at + length written) (after_write at written) }
    ensures cut { (to : ℕ) → KeepsBefore to (after_cut to) }
    ensures image { (s : DiskState) (at : ℕ) (bytes image : List ℕ) → ShowsKept s at bytes image }
{}

/// Bytes that each image has at a place are on the disk.
pub fn kept_by_images()
    ensures { (s : DiskState) (at : ℕ) (bytes : List ℕ) →
        HasItsBytes s → LeavesThere at bytes s → KeepsBytes s at bytes }
{}

/// Bytes that each image has at a place stay there in each image after a write elsewhere, even a write that leaves a gap.
/// If each image has at least n bytes before the write, so has each image after it.
pub fn images_keep_places()
    ensures write_behind { (at : ℕ) (written : List ℕ) → ImagesKeepBefore at (after_write at written) }
    ensures write_before { (at : ℕ) (written : List ℕ) → ImagesKeepFrom (at + length written) (after_write at written) }
    ensures long { (at : ℕ) (written : List ℕ) → ImagesStayLong (after_write at written) }
{}

/// Bytes at a place of a file are read there, and they stay through writes and cuts elsewhere.
pub fn places_read()
    ensures read { (file : List ℕ) (at : ℕ) (bytes : List ℕ) → Holds file at bytes → IsReadAt file at bytes }
    ensures written { (file : List ℕ) (at : ℕ) (bytes : List ℕ) → Holds (overwritten file at bytes) at bytes }
    ensures write_behind { (file : List ℕ) (at : ℕ) (written : List ℕ) → StaysBeforeWrite file at written }
    ensures write_before { (file : List ℕ) (at : ℕ) (written : List ℕ) → StaysBehindWrite file at written }
    ensures cut { (file : List ℕ) (to : ℕ) → HoldsBefore to file (take to file) }
{}

/// A sync and a failed call add no image. A write and a cut lose no image.
pub fn images_of_calls()
    ensures write { (at : ℕ) (bytes : List ℕ) → LosesNoImage (after_write at bytes) }
    ensures cut { (to : ℕ) → LosesNoImage (after_cut to) }
    ensures sync { (s : DiskState) (image : List ℕ) → HasItsBytes s → IsImage (after_sync s) image → IsImage s image }
    ensures failed { (s t : DiskState) (image : List ℕ) → SameImages s t → IsImage t image → IsImage s image }
{}

/// Two runs of calls, one after the other: if a crash at any moment of each leaves only bytes that pass `p`, so does a
/// crash at any moment of both. `p` is any test of bytes.
pub fn moments_join<D: Disk>()
    ensures started { (d : D) (p : List ℕ → Bool) → Leaves (Passes p) (D.state d) → EachPasses ⟦<D as Disk>⟧ d d p }
    ensures joined { (old mid new : D) (p : List ℕ → Bool) → RunsJoin ⟦<D as Disk>⟧ old mid new p }
    ensures at_end { (old new : D) (p : List ℕ → Bool) → LastPasses ⟦<D as Disk>⟧ old new p }
{}

/// What a crash may leave at some moment of a run of calls. `p` is any test of bytes.
pub fn moments_of_images<D: Disk>()
    ensures each { (old new : D) (p : List ℕ → Bool) (bytes : List ℕ) → PassesAsEachDoes ⟦<D as Disk>⟧ old new p bytes }
    ensures still { (d : D) (bytes : List ℕ) → MayLeave ⟦<D as Disk>⟧ d d bytes → IsImage (D.state d) bytes }
    ensures at_end { (old new : D) (bytes : List ℕ) → LastIsAmong ⟦<D as Disk>⟧ old new bytes }
{}
