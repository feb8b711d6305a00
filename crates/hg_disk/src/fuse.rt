//! A disk that fails at a chosen call.
ghost use Rattle.std.specs.Prelude.{◌≡◌, ◌+◌, ◌-◌, ◌<◌, ◌≤◌, ◌^◌, length, true, false, IsTrue, Some, OnOk, OnErr, if◌then◌else◌};
ghost use Rattle.hg_disk.specs.State.{after_sync};
ghost use Rattle.hg_disk.specs.Event.{with_refusal};
ghost use Rattle.hg_disk.specs.Fuse.{is_next, left_after};

use crate::call::Call;
use crate::history::History;
use crate::{Disk, DiskFault};

/// Passes calls on to the inner disk, but refuses one chosen call, or this call and all after it. A refused call changes no
/// byte and counts as failed.
pub struct FuseDisk<D: Disk> {
    inner: D,
    calls_left: Option<u64>,
    stops: bool,
    history: History,
}

impl<D: Disk + Drop> Drop for FuseDisk<D> {
    fn drop(self) {
        let FuseDisk {
            inner,
            calls_left: _,
            stops: _,
            history,
        } = self;
        drop(inner);
        drop(history);
    }
}

impl<D: Disk> FuseDisk<D> {
    ghost use Rattle.hg_disk.specs.Fuse.{inner_of, calls_left, stops, fuse_state, fuse_past, fuse_failures};

    /// Fails the k-th call from now on, counted from 1.
    pub fn once(inner: D, k: u64) -> FuseDisk<D>
        requires { 0 < k }
        ensures inner { inner_of result ≡ inner }
        ensures calls { calls_left result ≡ Some (k - 1) }
        ensures stops { stops result ≡ false }
        ensures state { fuse_state ⟦<D as Disk>⟧ result ≡ D.state inner }
        ensures past { fuse_past ⟦<D as Disk>⟧ result ≡ D.past inner }
        ensures failures { fuse_failures ⟦<D as Disk>⟧ result ≡ D.failures inner }
    {
        FuseDisk {
            inner,
            calls_left: Some(k - 1),
            stops: false,
            history: History::new(),
        }
    }

    /// Fails the k-th call from now on, counted from 1, and all after it.
    pub fn stop(inner: D, k: u64) -> FuseDisk<D>
        requires { 0 < k }
        ensures inner { inner_of result ≡ inner }
        ensures calls { calls_left result ≡ Some (k - 1) }
        ensures stops { stops result ≡ true }
        ensures state { fuse_state ⟦<D as Disk>⟧ result ≡ D.state inner }
        ensures past { fuse_past ⟦<D as Disk>⟧ result ≡ D.past inner }
        ensures failures { fuse_failures ⟦<D as Disk>⟧ result ≡ D.failures inner }
    {
        FuseDisk {
            inner,
            calls_left: Some(k - 1),
            stops: true,
            history: History::new(),
        }
    }

    /// The disk that the calls were passed on to.
    pub fn into_inner(self) -> D
        ensures { result ≡ inner_of self }
    {
        let FuseDisk {
            inner,
            calls_left: _,
            stops: _,
            history: _,
        } = self;
        inner
    }
}

// Counts a call, and tells whether it is refused. A refused call is noted.
fn refuses(calls_left: &mut Option<u64>, stops: bool, history: &mut History, call: Call) -> bool
    ensures which { result ≡ is_next calls_left.old }
    ensures left { calls_left.new ≡ left_after stops calls_left.old }
    ensures noted { history.new.events ≡ (if result then with_refusal call history.old.events else history.old.events) }
{
    match *calls_left {
        None => false,
        Some(0) => {
            if !stops {
                *calls_left = None;
            }
            history.note_refusal(call);
            true
        }
        Some(n) => {
            *calls_left = Some(n - 1);
            false
        }
    }
}

impl<D: Disk> Disk for FuseDisk<D> {
    ghost use Rattle.hg_disk.specs.Fuse.{Burns, CountsFailure, HasWritten, IsCut, KeepsImages, MayBeCut, MayHaveWritten, ReadsInto, Ticks, fuse_reads_were_true, fuse_state, refusals_in, shown, shown_past};
    ghost use Rattle.hg_disk.specs.FuseImages.{shown_image};

    ghost reads_were_true = { λ f. D.Disk.reads_were_true f.inner };

    ghost is_honest = { D.Disk.is_honest };

    ghost state = { λ f. shown f.history.events (D.Disk.state f.inner) (D.Disk.past f.inner) };

    ghost past = { λ f. shown_past f.history.events (D.Disk.state f.inner) (D.Disk.past f.inner) };

    ghost failures = { λ f. D.Disk.failures f.inner + refusals_in f.history.events };

    ghost has_its_bytes = { λ f. shown_image f.history.events (D.Disk.state f.inner) (D.Disk.past f.inner) (D.Disk.has_its_bytes f.inner) };

    ghost honest_reads = { λ honest f. D.Disk.honest_reads honest f.inner };

    fn len(&self) -> u64 {
        self.inner.len()
    }

    fn read_at(&mut self, at: u64, buf: &mut [u8]) -> Result<(), DiskFault>
        requires { at + length buf.old ≤ length (fuse_state ⟦<D as Disk>⟧ self.old).contents }
        ensures bytes { IsTrue (fuse_reads_were_true ⟦<D as Disk>⟧ self.new) → OnOk result (ReadsInto ⟦<D as Disk>⟧ self.old at buf.old buf.new) }
        ensures state { fuse_state ⟦<D as Disk>⟧ self.new ≡ fuse_state ⟦<D as Disk>⟧ self.old }
        ensures clock { Ticks ⟦<D as Disk>⟧ self.old self.new }
        ensures kept { IsTrue (fuse_reads_were_true ⟦<D as Disk>⟧ self.new) → IsTrue (fuse_reads_were_true ⟦<D as Disk>⟧ self.old) }
        ensures fair { IsTrue (fuse_reads_were_true ⟦<D as Disk>⟧ self.old) → OnOk result (ReadsInto ⟦<D as Disk>⟧ self.old at buf.old buf.new) → IsTrue (fuse_reads_were_true ⟦<D as Disk>⟧ self.new) }
        ensures failures { CountsFailure ⟦<D as Disk>⟧ self.old self.new result }
        ensures fuse { Burns ⟦<D as Disk>⟧ self.old self.new result }
    {
        if refuses(
            &mut self.calls_left,
            self.stops,
            &mut self.history,
            Call::Read { at },
        ) {
            return Err(DiskFault);
        }
        let answer = self.inner.read_at(at, buf);
        self.history
            .note_answer(Call::Read { at }, &[], answer.is_ok())
    }

    fn write_at(&mut self, at: u64, bytes: &[u8]) -> Result<(), DiskFault>
        ensures ok { OnOk result (HasWritten ⟦<D as Disk>⟧ at bytes.now self.old self.new) }
        ensures err { OnErr result (MayHaveWritten ⟦<D as Disk>⟧ at bytes.now self.old self.new) }
        ensures fits { OnOk result (at + length bytes.now ≤ 2 ^ 62) }
        ensures clock { Ticks ⟦<D as Disk>⟧ self.old self.new }
        ensures kept { IsTrue (fuse_reads_were_true ⟦<D as Disk>⟧ self.new) → IsTrue (fuse_reads_were_true ⟦<D as Disk>⟧ self.old) }
        ensures fair { IsTrue (fuse_reads_were_true ⟦<D as Disk>⟧ self.old) → IsTrue (fuse_reads_were_true ⟦<D as Disk>⟧ self.new) }
        ensures failures { CountsFailure ⟦<D as Disk>⟧ self.old self.new result }
        ensures fuse { Burns ⟦<D as Disk>⟧ self.old self.new result }
    {
        let call = Call::Write {
            at,
            len: bytes.len(),
        };
        if refuses(&mut self.calls_left, self.stops, &mut self.history, call) {
            return Err(DiskFault);
        }
        let answer = self.inner.write_at(at, bytes);
        self.history.note_answer(call, bytes, answer.is_ok())
    }

    fn cut(&mut self, to: u64) -> Result<(), DiskFault>
        requires { to ≤ length (fuse_state ⟦<D as Disk>⟧ self.old).contents }
        ensures ok { OnOk result (IsCut ⟦<D as Disk>⟧ to self.old self.new) }
        ensures err { OnErr result (MayBeCut ⟦<D as Disk>⟧ to self.old self.new) }
        ensures clock { Ticks ⟦<D as Disk>⟧ self.old self.new }
        ensures kept { IsTrue (fuse_reads_were_true ⟦<D as Disk>⟧ self.new) → IsTrue (fuse_reads_were_true ⟦<D as Disk>⟧ self.old) }
        ensures fair { IsTrue (fuse_reads_were_true ⟦<D as Disk>⟧ self.old) → IsTrue (fuse_reads_were_true ⟦<D as Disk>⟧ self.new) }
        ensures failures { CountsFailure ⟦<D as Disk>⟧ self.old self.new result }
        ensures fuse { Burns ⟦<D as Disk>⟧ self.old self.new result }
    {
        if refuses(
            &mut self.calls_left,
            self.stops,
            &mut self.history,
            Call::Cut { to },
        ) {
            return Err(DiskFault);
        }
        let answer = self.inner.cut(to);
        self.history
            .note_answer(Call::Cut { to }, &[], answer.is_ok())
    }

    fn sync(&mut self) -> Result<(), DiskFault>
        ensures ok { OnOk result (fuse_state ⟦<D as Disk>⟧ self.new ≡ after_sync (fuse_state ⟦<D as Disk>⟧ self.old)) }
        ensures err { OnErr result (KeepsImages ⟦<D as Disk>⟧ self.old self.new) }
        ensures clock { Ticks ⟦<D as Disk>⟧ self.old self.new }
        ensures kept { IsTrue (fuse_reads_were_true ⟦<D as Disk>⟧ self.new) → IsTrue (fuse_reads_were_true ⟦<D as Disk>⟧ self.old) }
        ensures fair { IsTrue (fuse_reads_were_true ⟦<D as Disk>⟧ self.old) → IsTrue (fuse_reads_were_true ⟦<D as Disk>⟧ self.new) }
        ensures failures { CountsFailure ⟦<D as Disk>⟧ self.old self.new result }
        ensures fuse { Burns ⟦<D as Disk>⟧ self.old self.new result }
    {
        if refuses(
            &mut self.calls_left,
            self.stops,
            &mut self.history,
            Call::Sync,
        ) {
            return Err(DiskFault);
        }
        let answer = self.inner.sync();
        self.history.note_answer(Call::Sync, &[], answer.is_ok())
    }
}
