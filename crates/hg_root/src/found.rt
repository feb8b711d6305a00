//! The root that a file has, and the newest root of two files.
ghost use Rattle.std.specs.Prelude.{◌≡◌, ◌≤◌, ◌^◌, List, ℕ, Option, length, IsTrue, OnOk, IfOk, IfErr, IsErrOf, Err};
ghost use Rattle.hg_gate.specs.Gated.{Rests, disk_of, is_broken};
ghost use Rattle.hg_root.specs.Fault.{failures_after};
ghost use Rattle.hg_root.specs.Finding.{HasRoot, IsDue, IsWholeIn, TellsTrueDamage, WasRead, number_in, root_in};

use crate::fault::RootFault;
use crate::root::Root;
use crate::root_test::RootTest;
use hg_disk::Disk;
use hg_gate::Gated;
use std::alloc::Global;

/// The root that a file has, or none if it is closed.
pub(crate) fn root_of<D: Disk>(
    alloc: Global,
    file: &mut Gated<D>,
) -> Result<Option<Root>, RootFault>
    ensures found { IsTrue (D.reads_were_true (disk_of file.new)) → IfOk result (HasRoot (D.state (disk_of file.old)).contents) }
    ensures whole { IfOk result IsWholeIn }
    ensures damaged { TellsTrueDamage ⟦<D as Disk>⟧ (disk_of file.old) (disk_of file.new) result }
    ensures fits { OnOk result (length (D.state (disk_of file.old)).contents ≤ 2 ^ 62) }
    ensures read { WasRead ⟦<D as Disk>⟧ (disk_of file.old) (disk_of file.new) }
    ensures rests { (bytes : List ℕ) → Rests ⟦<D as Disk>⟧ file.old bytes → Rests ⟦<D as Disk>⟧ file.new bytes }
    ensures device { D.failures (disk_of file.new) ≡ failures_after result (D.failures (disk_of file.old)) }
    ensures works { is_broken file.new ≡ is_broken file.old }
    ensures broken { IsErrOf result RootFault.Broken → IsTrue (is_broken file.old) }
    ensures refuses { IsTrue (is_broken file.old) → result ≡ Err RootFault.Broken }
    ensures same { IsTrue (is_broken file.old) → file.new ≡ file.old }
{
    match file.read_wanted(alloc, &RootTest)? {
        Some(body) => Ok(Some(Root::decode(alloc, &body)?)),
        None => Ok(None),
    }
}

/// The number of a root, 0 if there is none.
pub(crate) fn number_of(root: &Option<Root>) -> u64
    ensures { result ≡ number_in (root_in root.now) }
{
    match root {
        Some(root) => root.number,
        None => 0,
    }
}

/// Whether two files have to take turns. The numbers are those of the root in the file that is written next, and of the
/// root in the other; 0 means none. The root with the greater number is the newest. If none is open, the first file is
/// written next. `Damaged` if both are open with the same number.
pub(crate) fn are_turns_due(older: u64, newer: u64, is_turned: bool) -> Result<bool, RootFault>
    ensures due { IfOk result (IsDue older newer) }
    ensures apart { OnOk result (older ≡ newer → older ≡ 0) }
    ensures first { IfOk result (λ are. older ≡ 0 → newer ≡ 0 → are ≡ is_turned) }
    ensures damaged { IfErr result (λ fault. (fault ≡ RootFault.Damaged) × (1 ≤ older) × (older ≡ newer)) }
{
    if older != newer {
        return Ok(older > newer);
    }
    if older > 0 {
        return Err(RootFault::Damaged);
    }
    Ok(is_turned)
}
