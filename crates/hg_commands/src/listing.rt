//! The commands that print what a store holds.

ghost use Rattle.std.specs.Prelude.{◌≡◌, ◌⊎◌, ◌++◌, ◌+◌, [], Ok, Err, OnErr, OnOk, IfErr, IfOk, IsTrue, false};
ghost use Rattle.hg_streams.specs.Calls.{failed_writes};
ghost use Rattle.hg_streams.specs.Told.{told};
ghost use Rattle.hg_store.specs.Images.{KeepsFiles, Recovers};
ghost use Rattle.hg_streams.specs.Written.{Took};
ghost use Rattle.hg_streams.specs.Faults.{IsStreamFault};
ghost use Rattle.hg_commands.specs.Listings.{BreaksReports, CantList, CountsRaces, FailedFor, HoldsReports, IsListed, ListedWhere, ListsButHeld, ListsFront, ListsStore, WroteListing};
ghost use Rattle.hg_store.specs.Limits.{IsFrameCount};
ghost use Rattle.hg_commands.specs.Storing.{EndsFlushed, end_text};

use crate::moment::{Moment, Outcome};
use hg_disk::Disk;
use hg_model::report::Report;
use hg_model::verdict::Refusal;
use hg_store::devices::{Caps, Devices};
use hg_store::store::Store;
use hg_streams::holding::{hold_counts, hold_report, write_if_large, write_out};
use hg_streams::listing::Listing;
use hg_streams::output::{Output, Outputs};
use hg_streams::printing::print_segments;
use hg_streams::telling::end_by_fault;
use hg_trail::Trail;
use std::alloc::Global;
use std::io::Write;

/// What listing a store comes to.
#[derive(Drop)]
pub struct Listed<D: Disk, W> {
    /// The exit status, the devices and the moments.
    pub outcome: Outcome<D, W>,
    /// Whether the store counted races, be they kept or not. None are told of with status 3.
    pub has_races: bool,
}

/// Holds the end line of a store that is not broken: the counts of its accepted events, its reports and its segments.
pub fn hold_end_line<D: Disk>(store: &Store<D>, held: &mut Vec<u8>) -> Result<(), Refusal>
    requires works { store.now.is_broken ≡ false }
    ensures ok { OnOk result (held.new.items ≡ held.old.items ++ end_text ⟦<D as Disk>⟧ store.now) }
    ensures cause { IfErr result (λ r. r ≡ Refusal.OutOfMemory) }
{
    let events = store.events()?;
    let races = store.total()?;
    let segments = store.graph()?.len() as u64;
    hold_counts(events, races, segments, held)
}

/// Prints the lines of kept reports.
fn print_kept<W: Write>(
    reports: &[Report],
    held: &mut Vec<u8>,
    output: &mut Output<W>,
) -> Result<(), Refusal>
    ensures printed { HoldsReports reports.now output.old held.old result output.new held.new }
    ensures front { BreaksReports reports.now output.old held.old result output.new }
    ensures cause { IfErr result IsStreamFault }
    ensures fault { failed_writes output.new.calls ≡ told result + failed_writes output.old.calls }
{
    let mut before = 0;
    for report in reports {
        hold_report(before + 1, report, held)?;
        write_if_large(held, output)?;
        before += 1;
    }
    Ok(())
}

/// Writes a listing of a store in large pieces; what remains below 64 KiB stays in `held`.
fn print_listing<D: Disk, W: Write>(
    alloc: Global,
    store: &Store<D>,
    listing: Listing,
    held: &mut Vec<u8>,
    output: &mut Output<W>,
) -> Result<(), Refusal>
    requires works { store.now.is_broken ≡ false }
    requires none { held.old.items ≡ [] }
    ensures printed { OnOk result (ListsButHeld ⟦<D as Disk>⟧ listing store.now output.old output.new held.new) }
    ensures front { OnErr result (ListsFront ⟦<D as Disk>⟧ listing store.now output.old output.new) }
    ensures cause { IfErr result IsStreamFault }
    ensures fault { failed_writes output.new.calls ≡ told result + failed_writes output.old.calls }
{
    match listing {
        Listing::Reports => {
            let reports = store.reports(alloc)?;
            print_kept(reports.as_slice(), held, output)?;
            hold_end_line(store, held)
        }
        Listing::Segments => print_segments(store.graph()?, held, output),
    }
}

/// Prints a listing of a store that is not broken. Answers whether it counted races, kept or not.
fn print_store<D: Disk, W: Write>(
    alloc: Global,
    store: &Store<D>,
    listing: Listing,
    output: &mut Output<W>,
) -> Result<bool, Refusal>
    requires works { store.now.is_broken ≡ false }
    ensures races { IfOk result (CountsRaces ⟦<D as Disk>⟧ store.now) }
    ensures printed { OnOk result (ListsStore ⟦<D as Disk>⟧ listing store.now output.old output.new) }
    ensures flushed { OnOk result (EndsFlushed output.new.calls) }
    ensures front { OnErr result (ListsFront ⟦<D as Disk>⟧ listing store.now output.old output.new) }
    ensures cause { IfErr result IsStreamFault }
    ensures fault { failed_writes output.new.calls ≡ told result + failed_writes output.old.calls }
{
    let mut held = Vec::new(alloc);
    let has_races = store.total()? > 0;
    print_listing(alloc, store, listing, &mut held, output)?;
    write_out(&mut held, output)?;
    output.flush()?;
    Ok(has_races)
}

/// Recovers a store, prints what it holds, and hands its devices back, with the moment of its opening. Answers whether there were races.
fn recover_and_print<D: Disk, W: Write>(
    alloc: Global,
    devices: Devices<D>,
    frames: u16,
    listing: Listing,
    output: &mut Output<W>,
) -> (Result<bool, Refusal>, Devices<D>, Trail<Moment<D, W>>)
    requires { IsFrameCount frames }
    ensures prints { ListedWhere ⟦<D as Disk>⟧ listing frames devices output.old output.new result }
    ensures front { OnErr result.0 (WroteListing ⟦<D as Disk>⟧ listing devices output.old output.new) }
    ensures cause { FailedFor ⟦<D as Disk>⟧ frames devices output.old output.new result }
    ensures files { KeepsFiles ⟦<D as Disk>⟧ devices result.1 }
    ensures images { IsTrue D.is_honest → Recovers ⟦<D as Disk>⟧ devices result.1 }
{
    match Store::recover(alloc, devices, frames, Caps::profile()) {
        Ok(store) => {
            let mut moments = Trail::new();
            moments.push(Moment::of(&store, &*output));
            let printed = print_store(alloc, &store, listing, output);
            (printed, store.into_devices(), moments)
        }
        Err((refusal, devices)) => (Err(refusal), devices, Trail::new()),
    }
}

/// Recovers the store that the devices hold, and prints its kept reports and the end line, or its thread segments. Answers the
/// status and the devices: 0, or 3 where they hold no store, a device or the output failed, or memory or room was refused, which is
/// told among the faults. What was printed before that is a front of what was due. A recovery may write pages, but it keeps the
/// journal and the roots, and a crash at any moment leaves an image with the content of an image before.
///
/// The store is opened with so many frames and the greatest caps, and only looked at then. The one moment in the outcome shows it.
/// Beside the outcome stands whether the store counted races, kept or not.
pub fn list_store<D: Disk, W: Write, V: Write>(
    alloc: Global,
    devices: Devices<D>,
    frames: u16,
    listing: Listing,
    outputs: &mut Outputs<W, V>,
) -> Listed<D, W>
    requires { IsFrameCount frames }
    ensures status { (result.outcome.status ≡ 0) ⊎ (result.outcome.status ≡ 3) }
    ensures prints { IsListed ⟦<D as Disk>⟧ listing frames devices outputs.old outputs.new result }
    ensures quiet { result.outcome.status ≡ 0 → Took outputs.old.faults.calls outputs.new.faults.calls [] }
    ensures fault { CantList ⟦<D as Disk>⟧ listing frames devices outputs.old outputs.new result }
    ensures files { KeepsFiles ⟦<D as Disk>⟧ devices result.outcome.devices }
    ensures images { IsTrue D.is_honest → Recovers ⟦<D as Disk>⟧ devices result.outcome.devices }
    ensures none { result.outcome.status ≡ 3 → result.has_races ≡ false }
{
    let (printed, devices, moments) = recover_and_print(
        alloc,
        devices,
        frames,
        listing,
        &mut outputs.output,
    );
    match printed {
        Ok(has_races) => Listed {
            outcome: Outcome {
                status: 0,
                devices,
                moments,
            },
            has_races,
        },
        Err(refusal) => {
            let status = end_by_fault(refusal, &mut outputs.faults);
            Listed {
                outcome: Outcome {
                    status,
                    devices,
                    moments,
                },
                has_races: false,
            }
        }
    }
}
