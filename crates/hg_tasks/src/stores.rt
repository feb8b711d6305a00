//! Commands on the store in a directory.

ghost use Rattle.std.specs.Prelude.{◌≡◌, IfErr, IfOk, false};
ghost use Rattle.hg_detect.specs.Memory.{IsWhole};
ghost use Rattle.hg_check.specs.Running.{HasRoom};
ghost use Rattle.hg_store.specs.Limits.{IsFrameCount};
ghost use Rattle.hg_tasks.specs.Exits.{ListsAndExits};
ghost use Rattle.hg_tasks.specs.Explaining.{ExplainsBehind, ExplainsEvents, ExplainsSaved, ExplainsStore, HasDisks, IsNotBegun, IsSavedAndRecovered, SaysNoRace};

use crate::directory::{OpenMode, look_at_directory, make_directory, open_directory, open_former};
use crate::events::EventText;
use crate::faults::{fail_to_open, tell_of_feeding, tell_of_listing};
use crate::look::LookDisk;
use crate::migrating::migrate_and_print;
use crate::status::exit_status;
use crate::streams::{noted_outputs, noted_streams, plain_outputs, plain_streams};
use hg_check::explain::behind::explain_behind;
use hg_check::explain::commands::explain;
use hg_check::explain::form::Form;
use hg_commands::creating::create_store;
use hg_commands::feeding::feed;
use hg_commands::listing::{Listed, list_store};
use hg_commands::races::{address_of_race, print_no_race};
use hg_commands::settings::FeedSettings;
use hg_detect::memory::MemoryDetector;
use hg_disk::{Disk, FileDisk};
use hg_model::verdict::Refusal;
use hg_options::limits::DEFAULT_FRAMES;
use hg_options::task::{ErrorExitcode, Explaining, Frames, Subject};
use hg_saved::{CheckpointDisks, saved_detector};
use hg_store::devices::{Caps, Devices};
use hg_store::store::Store;
use hg_streams::input::Input;
use hg_streams::listing::Listing;
use hg_streams::output::{Output, Outputs};
use hg_streams::streams::Streams;
use hg_streams::telling::end_by_fault;
use hg_verbose::lines::Lines;
use std::alloc::Global;
use std::io::Write;
use std::marker::Sync;
use std::thread::Threads;

/// The status where a store has no such report.
const NO_RACE: u8 = 2;

/// Makes the store.
pub fn create_in(rt: &HostRuntime, directory: &str) -> u8 {
    let devices = match make_directory(rt, directory) {
        Ok(devices) => devices,
        Err(fault) => return fail_to_open(rt, &fault, false),
    };
    let mut outputs = plain_outputs(rt);
    create_store(rt.alloc(), devices, &mut outputs).status
}

/// Gives the store in a directory two journals, where it has one.
pub fn migrate_in(rt: &HostRuntime, directory: &str) -> u8 {
    let former = match open_former(rt, directory) {
        Ok(former) => former,
        Err(fault) => return fail_to_open(rt, &fault, false),
    };
    migrate_and_print(rt.alloc(), former, &mut plain_outputs(rt)).0
}

/// Feeds the trace on standard input to the store on these devices, those of a directory, and tells what the last line means.
fn feed_and_tell<T: Threads + Sync>(
    threads: &T,
    rt: &HostRuntime,
    directory: &str,
    devices: Devices<FileDisk>,
    settings: FeedSettings,
    lines: Lines,
) -> u8 {
    let mut streams = noted_streams(rt, lines);
    let outcome = feed(threads, rt.alloc(), devices, settings, &mut streams);
    let status = outcome.status;
    let Streams {
        input,
        output,
        faults,
    } = streams;
    tell_of_feeding(
        rt,
        directory,
        &mut input.into_stream(),
        &output,
        &faults,
        outcome.devices,
    );
    status
}

/// Feeds the trace on standard input to the store, with a checkpoint at its end where one is asked for, and where `verbose` is set tells
/// what the last line means. Where there is no memory for a meaning it is left out.
pub fn feed_in<T: Threads + Sync>(
    threads: &T,
    rt: &HostRuntime,
    directory: &str,
    settings: FeedSettings,
    verbose: bool,
) -> u8 {
    let devices = match open_directory(rt, directory, OpenMode::Change) {
        Ok(devices) => devices,
        Err(fault) => return fail_to_open(rt, &fault, verbose),
    };
    if verbose {
        if let Ok(lines) = Lines::new(rt.alloc()) {
            return feed_and_tell(threads, rt, directory, devices, settings, lines);
        }
    }
    let mut streams = plain_streams(rt);
    feed(threads, rt.alloc(), devices, settings, &mut streams).status
}

/// Lists a store, and answers the exit status and the devices.
fn list_and_exit<D: Disk, W: Write, V: Write>(
    alloc: Global,
    devices: Devices<D>,
    frames: u16,
    listing: Listing,
    error_exitcode: Option<ErrorExitcode>,
    outputs: &mut Outputs<W, V>,
) -> (u8, Devices<D>)
    requires { IsFrameCount frames }
    ensures { ListsAndExits ⟦<D as Disk>⟧ error_exitcode listing frames devices outputs.old outputs.new result }
{
    let Listed { outcome, has_races } = list_store(alloc, devices, frames, listing, outputs);
    let status = exit_status(outcome.status, has_races, error_exitcode);
    (status, outcome.devices)
}

/// Prints what is asked for of the store. Where it counts races, the status is `error_exitcode`, if it is given, in place of 0.
pub fn print_of_store(
    rt: &HostRuntime,
    directory: &str,
    listing: Listing,
    frames: Frames,
    error_exitcode: Option<ErrorExitcode>,
    verbose: bool,
) -> u8 {
    let devices = match look_at_directory(rt, directory) {
        Ok(devices) => devices,
        Err(fault) => return fail_to_open(rt, &fault, verbose),
    };
    let mut outputs = noted_outputs(rt);
    let (status, devices) = list_and_exit(
        rt.alloc(),
        devices,
        frames.pages,
        listing,
        error_exitcode,
        &mut outputs,
    );
    if verbose {
        tell_of_listing(rt, directory, &outputs, devices);
    }
    status
}

/// Prints the life of the word at an address by the events of a store. They have no lines. Answers the status and the streams.
fn explain_events<D: Disk, W: Write, V: Write>(
    alloc: Global,
    store: Store<D>,
    address: u64,
    all: bool,
    output: Output<W>,
    faults: Output<V>,
) -> (u8, Streams<EventText<D>, W, V>)
    ensures { ExplainsEvents store address all output faults result }
{
    let form = Form { all, lines: false };
    let mut streams = Streams {
        input: Input::new(EventText::new(alloc, store)),
        output,
        faults,
    };
    let status = explain(alloc, address, form, &mut streams);
    (status, streams)
}

/// Prints that a store keeps no report as this number, and answers the status.
fn say_no_race<D: Disk, W: Write, V: Write>(
    alloc: Global,
    store: &Store<D>,
    number: u32,
    outputs: &mut Outputs<W, V>,
) -> u8
    requires works { store.now.is_broken ≡ false }
    ensures { SaysNoRace ⟦<D as Disk>⟧ number store.now outputs.old outputs.new result }
{
    match print_no_race(alloc, number, store, &mut outputs.output) {
        Ok(()) => NO_RACE,
        Err(refusal) => end_by_fault(refusal, &mut outputs.faults),
    }
}

/// Prints the life of the word at an address from the content of a detector on, by the events of a store that come behind it. They have no
/// lines. Answers the status and the streams.
fn explain_behind_events<D: Disk, W: Write, V: Write>(
    alloc: Global,
    detector: MemoryDetector,
    store: Store<D>,
    address: u64,
    all: bool,
    output: Output<W>,
    faults: Output<V>,
) -> (u8, Streams<EventText<D>, W, V>)
    requires whole { IsWhole detector }
    requires room { HasRoom detector }
    ensures { ExplainsBehind detector store address all output faults result }
{
    let form = Form { all, lines: false };
    let gone = detector.state().events();
    let mut streams = Streams {
        input: Input::new(EventText::behind(alloc, store, gone)),
        output,
        faults,
    };
    let status = explain_behind(alloc, detector, address, form, &mut streams);
    (status, streams)
}

/// The devices of a store, of which those with checkpoints are these.
fn devices_with<D: Disk>(journal0: D, journal1: D, disks: CheckpointDisks<D>) -> Devices<D>
    ensures { HasDisks journal0 journal1 disks result }
{
    let CheckpointDisks {
        slots,
        root0,
        root1,
    } = disks;
    Devices {
        journal0,
        journal1,
        slots,
        root0,
        root1,
    }
}

/// The content of the newest checkpoint of a store's devices, as a detector in memory, and the store, recovered. A refusal hands the devices
/// back.
fn saved_and_store<D: Disk>(
    alloc: Global,
    devices: Devices<D>,
) -> Result<(MemoryDetector, Store<D>), (Refusal, Devices<D>)>
    ensures saved { IfOk result (λ it. IsSavedAndRecovered ⟦<D as Disk>⟧ devices it.0 it.1) }
    ensures whole { IfOk result (λ it. IsWhole it.0) }
    ensures room { IfOk result (λ it. HasRoom it.0) }
    ensures cause { IfErr result (λ e. IsNotBegun ⟦<D as Disk>⟧ devices e.1 e.0) }
{
    let Devices {
        journal0,
        journal1,
        slots,
        root0,
        root1,
    } = devices;
    let disks = CheckpointDisks {
        slots,
        root0,
        root1,
    };
    let (detector, disks) = match saved_detector(alloc, disks) {
        Ok(found) => found,
        Err((refusal, disks)) => return Err((refusal, devices_with(journal0, journal1, disks))),
    };
    let devices = devices_with(journal0, journal1, disks);
    match Store::recover(alloc, devices, DEFAULT_FRAMES, Caps::profile()) {
        Ok(store) => Ok((detector, store)),
        Err(refused) => Err(refused),
    }
}

/// Prints the life of the word at an address by the events that a store with these devices still keeps, from the state on that its newest
/// checkpoint has. Answers the status, the outputs, and the devices where that could not begin.
fn explain_saved<D: Disk + Drop, W: Write, V: Write>(
    alloc: Global,
    devices: Devices<D>,
    address: u64,
    all: bool,
    outputs: Outputs<W, V>,
) -> (u8, Outputs<W, V>, Option<Devices<D>>)
    ensures { ExplainsSaved ⟦<D as Disk>⟧ devices address all outputs (result.0, result.1) result.2 }
{
    let mut outputs = outputs;
    let (detector, store) = match saved_and_store(alloc, devices) {
        Ok(found) => found,
        Err((refusal, left)) => {
            let status = end_by_fault(refusal, &mut outputs.faults);
            return (status, outputs, Some(left));
        }
    };
    let Outputs { output, faults } = outputs;
    let (status, streams) = explain_behind_events(
        alloc, detector, store, address, all, output, faults,
    );
    let Streams {
        input: _,
        output,
        faults,
    } = streams;
    (status, Outputs { output, faults }, None)
}

/// The number of the last event that a store no longer keeps, 0 where it keeps all.
fn gone_of<D: Disk>(store: &Store<D>) -> u64
    requires works { store.now.is_broken ≡ false }
    ensures { result ≡ store.now.turns.base }
{
    match store.first_kept() {
        Ok(first) => first - 1,
        Err(_) => 0,
    }
}

/// Prints the life of a word by the events of a store, from the first one on or from the newest checkpoint on, where that gave up the first
/// ones; or that there is no such report. Answers the status and the outputs.
fn explain_store<D: Disk + Drop, W: Write, V: Write>(
    alloc: Global,
    store: Store<D>,
    explaining: Explaining,
    outputs: Outputs<W, V>,
) -> (u8, Outputs<W, V>)
    requires works { store.is_broken ≡ false }
    ensures { ExplainsStore ⟦<D as Disk>⟧ store explaining outputs result }
{
    let mut outputs = outputs;
    let address = match explaining.subject {
        Subject::Word { address } => address,
        Subject::Race { number } => match address_of_race(alloc, &store, number) {
            Ok(Some(address)) => address,
            Ok(None) => {
                let status = say_no_race(alloc, &store, number, &mut outputs);
                return (status, outputs);
            }
            Err(refusal) => {
                let status = end_by_fault(refusal, &mut outputs.faults);
                return (status, outputs);
            }
        },
    };
    if gone_of(&store) > 0 {
        let devices = store.into_devices();
        let (status, outputs, _) = explain_saved(alloc, devices, address, explaining.all, outputs);
        return (status, outputs);
    }
    let Outputs { output, faults } = outputs;
    let (status, streams) = explain_events(alloc, store, address, explaining.all, output, faults);
    let Streams {
        input: _,
        output,
        faults,
    } = streams;
    (status, Outputs { output, faults })
}

/// Prints the life of a word by the events of the store in a directory, or that there is no such report.
pub fn explain_in(rt: &HostRuntime, directory: &str, explaining: Explaining) -> u8 {
    let devices = match look_at_directory(rt, directory) {
        Ok(devices) => devices,
        Err(fault) => return fail_to_open(rt, &fault, false),
    };
    match Store::recover(rt.alloc(), devices, DEFAULT_FRAMES, Caps::profile()) {
        Ok(store) => explain_store(rt.alloc(), store, explaining, plain_outputs(rt)).0,
        Err((refusal, _)) => end_by_fault(refusal, &mut Output::new(rt.stderr())),
    }
}
