//! Serving the store in a directory.

ghost use Rattle.std.specs.Prelude.{◌≡◌};
ghost use Rattle.hgd.specs.Serving.{AreSettingsOf, IsSilence, place_for};

use crate::listening::{leave, listen_on};
use hg_disk::FileDisk;
use hg_model::verdict::Refusal;
use hg_options::task::{Place, Serving};
use hg_server::listening::Listener;
use hg_server::serving::{Door, serve};
use hg_server::settings;
use hg_server::settings::Settings;
use hg_server::worker::{Gate, Pass, Point};
use hg_store::devices::Devices;
use hg_tasks::directory::{Cause, OpenFault, OpenMode, open_directory};
use hg_tasks::faults::{fail_to_open, tell_of_serving};
use hg_tasks::streams::noted_outputs;
use std::net::{Net, TcpListener, TcpStream};
use std::rt::Files;
use std::sync::Wait;
use std::sync::atomic::{AtomicBool, Ordering};
use std::thread::Threads;
use std::time::{Clock, Duration};

/// Lets each thread go on, and tells once where the system has no room for a connection, if that is asked for.
#[derive(Drop)]
struct Watch<'a> {
    rt: &'a HostRuntime,
    is_told: AtomicBool,
}

impl<'a> Gate for Watch<'a> {
    fn at(&self, point: Point) -> Pass {
        if point == Point::NoRoom && !self.is_told.swap(true, Ordering::SeqCst) {
            let _ = self.rt.eprint(
                "a connection waits: there is no descriptor or no memory for it\n",
            );
        }
        Pass::Go
    }
}

/// How long a client may be silent.
fn silence_of(serving: Serving) -> Option<Duration>
    ensures { IsSilence serving.silence result }
{
    if serving.silence == 0 {
        return None;
    }
    Some(Duration::from_secs(u64::from(serving.silence)))
}

/// What a server prints of the place that it listens on.
fn place_of(place: Place) -> settings::Place
    ensures { result ≡ place_for place }
{
    match place {
        Place::Port { port } => settings::Place::Port { port },
        Place::Socket => settings::Place::Socket,
    }
}

/// What is asked of the server.
fn settings_of(serving: Serving) -> Settings
    ensures { AreSettingsOf serving result }
{
    Settings {
        place: place_of(serving.place),
        frames: serving.frames.pages,
        connections: serving.connections,
        workers: serving.workers,
        every: serving.every,
        silence: silence_of(serving),
    }
}

/// Serves the store on these devices, those of a directory, to those who connect. Answers the status.
fn serve_on<R: Threads + Wait + Clock + Sync>(
    threads: &R,
    rt: &HostRuntime,
    devices: Devices<FileDisk>,
    serving: Serving,
    directory: &str,
    listener: &Listener,
) -> u8 {
    let watch = Watch {
        rt,
        is_told: AtomicBool::new(!serving.verbose),
    };
    let door = Door {
        listener,
        settings: settings_of(serving),
        gate: &watch,
    };
    let mut outputs = noted_outputs(rt);
    let outcome = serve(threads, rt.alloc(), devices, &door, &mut outputs);
    // The store is still locked: no other server has made a socket meanwhile.
    leave(rt, directory, serving.place);
    let status = outcome.status;
    if let (true, Err(devices)) = (serving.verbose, outcome.ended) {
        tell_of_serving(rt, directory, &outputs, devices);
    }
    status
}

/// Tells why a place can't be listened on, and answers the status.
fn fail_to_listen(rt: &HostRuntime, serving: Serving, error: std::io::Error) -> u8 {
    let fault = OpenFault {
        cause: Cause::DeviceFault,
        name: "the listener",
        error: Some(error),
    };
    fail_to_open(rt, &fault, serving.verbose)
}

/// Serves the store in a directory. Answers the status.
pub(crate) fn serve_in<
    R: Threads
        + Wait
        + Clock
        + Files
        + AllocGlobal
        + Net<Listener = TcpListener, Stream = TcpStream>
        + Sync,
>(threads: &R, rt: &HostRuntime, directory: &str, serving: Serving) -> u8 {
    let devices = match open_directory(rt, directory, OpenMode::Change) {
        Ok(devices) => devices,
        Err(fault) => return fail_to_open(rt, &fault, serving.verbose),
    };
    let listener = match listen_on(threads, directory, serving.place) {
        Ok(listener) => listener,
        Err(error) => return fail_to_listen(rt, serving, error),
    };
    serve_on(threads, rt, devices, serving, directory, &listener)
}
