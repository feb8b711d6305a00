//! Faults, and what the last line means, told on standard error.
ghost use Rattle.std.specs.Prelude.{◌≡◌};
ghost use Rattle.hg_streams.specs.Faults.{IsTold};
ghost use Rattle.hg_tasks.specs.Faults.{refusal_for};

use crate::directory::{Cause, OpenFault, has_former_store};
use crate::look::LookDisk;
use hg_disk::{Disk, FileDisk};
use hg_model::verdict::Refusal;
use hg_saved::{CheckpointDisks, SavedHead, saved_head};
use hg_store::devices::Devices;
use hg_streams::output::{Output, Outputs};
use hg_streams::telling::end_by_fault;
use hg_verbose::fault::{Source, damage, kept_past};
use hg_verbose::last::{Last, last_of};
use hg_verbose::lines::Lines;
use hg_verbose::meaning::{of_damage, of_fault, of_line};
use hg_verbose::noted::{NotedReader, NotedWriter};
use hg_verbose::past::Past;
use std::alloc::{AllocError, Global};
use std::io;
use std::io::Write;
use std::string::String;

/// The refusal by which commands name a cause.
fn refusal_of(cause: Cause) -> Refusal
    ensures { result ≡ refusal_for cause }
{
    match cause {
        Cause::DeviceFault => Refusal::DeviceFault,
        Cause::OutOfMemory => Refusal::OutOfMemory,
    }
}

/// Tells a cause among the faults. Answers the status of faults, 3.
fn tell_cause<V: Write>(cause: Cause, faults: &mut Output<V>) -> u8
    ensures status { result ≡ 3 }
    ensures told { IsTold faults.old.calls faults.new.calls (refusal_for cause) }
{
    end_by_fault(refusal_of(cause), faults)
}

/// Tells why the program ends at a stream, a file or want of memory of its own, before a command or without one. Answers the status of faults, 3.
pub fn fail(rt: &HostRuntime, cause: Cause) -> u8
    ensures { result ≡ 3 }
{
    tell_cause(cause, &mut Output::new(rt.stderr()))
}

/// Tells why a store could not be opened, in words too where they are asked for. Answers the status of faults, 3.
pub fn fail_to_open(rt: &HostRuntime, fault: &OpenFault, verbose: bool) -> u8
    ensures { result ≡ 3 }
{
    let status = fail(rt, fault.cause);
    if verbose {
        let code = u64::from(refusal_of(fault.cause).code());
        tell_fault(rt, code, &[source(fault.name, fault.error)]);
    }
    status
}

/// What the last line tells: that of the faults, or else that of the output.
fn last_line<W, V>(
    output: &Output<NotedWriter<W>>,
    faults: &Output<NotedWriter<V>>,
) -> Option<Last> {
    match last_of(faults.stream().end()) {
        Some(last) => Some(last),
        None => last_of(output.stream().end()),
    }
}

/// Prints a meaning on standard error, if there is memory for it.
fn print(rt: &HostRuntime, meaning: Result<String, AllocError>) {
    if let Ok(text) = meaning {
        let _ = rt.eprint(text.as_str());
    }
}

/// Prints what the last line means, where it is of a line of these and there is memory for it. `past` is what the events before it left.
fn print_of_line(rt: &HostRuntime, last: Last, lines: &mut Lines, past: Option<&Past>) {
    if let Ok(Some(text)) = of_line(rt.alloc(), last, lines, past) {
        let _ = rt.eprint(text.as_str());
    }
}

fn source(name: &str, error: Option<io::Error>) -> Source<'_> {
    Source { name, error }
}

/// Tells a fault of the streams and the files.
fn tell_fault(rt: &HostRuntime, code: u64, sources: &[Source<'_>]) {
    print(rt, of_fault(rt.alloc(), code, sources));
}

/// Tells the last line of a command that read a text, and used no store.
pub fn tell_of_text<R, W, V>(
    rt: &HostRuntime,
    input: &mut NotedReader<R>,
    output: &Output<NotedWriter<W>>,
    faults: &Output<NotedWriter<V>>,
) {
    match last_line(output, faults) {
        Some(Last::Fault { code }) => {
            let sources = [
                source("standard input", input.error()),
                source("standard output", output.stream().error()),
            ];
            tell_fault(rt, code, &sources);
        }
        Some(last) => print_of_line(rt, last, input.lines(), None),
        None => {}
    }
}

/// What is told of a store of the former form.
const FORMER_STORE: &str = "the store: it has one journal, and `hgd migrate` gives it two";

/// The system's error of the first call that failed, of each file of a store.
#[derive(Clone, Copy, Drop)]
struct FileErrors {
    journal0: Option<io::Error>,
    journal1: Option<io::Error>,
    pages: Option<io::Error>,
    root0: Option<io::Error>,
    root1: Option<io::Error>,
}

/// Those of files that were changed.
fn errors_of_files(devices: &Devices<FileDisk>) -> FileErrors {
    FileErrors {
        journal0: devices.journal0.error(),
        journal1: devices.journal1.error(),
        pages: devices.slots.error(),
        root0: devices.root0.error(),
        root1: devices.root1.error(),
    }
}

/// Those of files that were looked at.
fn errors_of_looks(devices: &Devices<LookDisk<'_>>) -> FileErrors {
    FileErrors {
        journal0: devices.journal0.error(),
        journal1: devices.journal1.error(),
        pages: devices.slots.error(),
        root0: devices.root0.error(),
        root1: devices.root1.error(),
    }
}

/// Tells which device of the store in a directory is not a store's, or that the store is one of the former form.
fn tell_damage<D: Disk + Drop>(rt: &HostRuntime, directory: &str, devices: Devices<D>) {
    if has_former_store(rt, directory) {
        print(rt, of_damage(rt.alloc(), FORMER_STORE));
        return;
    }
    let Devices {
        journal0,
        journal1,
        slots: _,
        root0,
        root1,
    } = devices;
    let place = damage(rt.alloc(), journal0, journal1, root0, root1);
    print(rt, of_damage(rt.alloc(), place));
}

/// Tells a fault of a command on the store in a directory. `input` and `output` are the errors of its streams, if any; `pages` is the name of the file with
/// the slots.
fn tell_fault_of_store<D: Disk + Drop>(
    rt: &HostRuntime,
    directory: &str,
    code: u64,
    input: Option<io::Error>,
    output: Option<io::Error>,
    pages: &str,
    errors: FileErrors,
    devices: Devices<D>,
) {
    let sources = [
        source("standard input", input),
        source("standard output", output),
        source("journal0", errors.journal0),
        source("journal1", errors.journal1),
        source(pages, errors.pages),
        source("root0", errors.root0),
        source("root1", errors.root1),
    ];
    if code == 11 {
        tell_damage(rt, directory, devices);
    } else {
        tell_fault(rt, code, &sources);
    }
}

/// Tells the last line of a command that lists the store in a directory.
pub fn tell_of_listing<W, V>(
    rt: &HostRuntime,
    directory: &str,
    outputs: &Outputs<NotedWriter<W>, NotedWriter<V>>,
    devices: Devices<LookDisk<'_>>,
) {
    if let Some(Last::Fault { code }) = last_line(&outputs.output, &outputs.faults) {
        let output = outputs.output.stream().error();
        let errors = errors_of_looks(&devices);
        let pages = "pages, or its copy";
        tell_fault_of_store(rt, directory, code, None, output, pages, errors, devices);
    }
}

/// Tells the last line of a server of the store in a directory.
pub fn tell_of_serving<W, V>(
    rt: &HostRuntime,
    directory: &str,
    outputs: &Outputs<NotedWriter<W>, NotedWriter<V>>,
    devices: Devices<FileDisk>,
) {
    if let Some(Last::Fault { code }) = last_line(&outputs.output, &outputs.faults) {
        let output = outputs.output.stream().error();
        let errors = errors_of_files(&devices);
        tell_fault_of_store(rt, directory, code, None, output, "pages", errors, devices);
    }
}

/// What the newest checkpoint of a store says of the events that it counts, if it has one and it can be read.
fn head_on<D: Disk + Drop>(alloc: Global, disks: CheckpointDisks<D>) -> Option<SavedHead> {
    match saved_head(alloc, disks) {
        Ok((head, _)) => head,
        Err(_) => None,
    }
}

/// Prints what the last line means, of a command that fed these lines to a store. What the store's events left says it, if they can be
/// read again: those that are kept, and those before as far as the newest checkpoint says it.
fn print_of_fed_line(rt: &HostRuntime, last: Last, lines: &mut Lines, devices: Devices<FileDisk>) {
    let Devices {
        journal0,
        journal1,
        slots,
        root0,
        root1,
    } = devices;
    let disks = CheckpointDisks {
        slots,
        root0,
        root1,
    };
    let head = head_on(rt.alloc(), disks);
    if let Ok(past) = kept_past(rt.alloc(), journal0, journal1, head.as_ref()) {
        print_of_line(rt, last, lines, Some(&past));
    }
}

/// Tells the last line of a command that fed a text to the store in a directory.
pub fn tell_of_feeding<R, W, V>(
    rt: &HostRuntime,
    directory: &str,
    input: &mut NotedReader<R>,
    output: &Output<NotedWriter<W>>,
    faults: &Output<NotedWriter<V>>,
    devices: Devices<FileDisk>,
) {
    match last_line(output, faults) {
        Some(Last::Fault { code }) => {
            let (input, output) = (input.error(), output.stream().error());
            let errors = errors_of_files(&devices);
            tell_fault_of_store(rt, directory, code, input, output, "pages", errors, devices);
        }
        Some(last) => print_of_fed_line(rt, last, input.lines(), devices),
        None => {}
    }
}
