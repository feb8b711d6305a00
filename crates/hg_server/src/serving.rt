//! The server: a listener, and workers in threads of their own.

ghost use Rattle.std.specs.Prelude.{◌≡◌, ◌+◌, ◌∷◌, All, map, reverse, None, Some, IfErr, IfOk, IsTrue, OnOk, false};
ghost use Rattle.std.specs.Thread.{IsSend, IsSync};
ghost use Rattle.hg_store.specs.Shown.{live, saved};
ghost use Rattle.hg_streams.specs.Faults.{HasWriteCause};
ghost use Rattle.hg_streams.specs.Printed.{IsPrintedNow};
ghost use Rattle.hg_streams.specs.Written.{Took};
ghost use Rattle.hg_store.specs.Limits.{IsFrameCount};
ghost use Rattle.hg_desk.specs.Blanks.{IsBlankOf};
ghost use Rattle.hg_desk.specs.Going.{RanFrom, RanSince, WentOn, WentOnSince, began, moments_of};
ghost use Rattle.hg_desk.specs.Told.{nothing_told};
ghost use Rattle.hg_server.specs.Acknowledged.{AcksAreDurable, BackAreRecorded, BackAreTold, EachLedFromNothing, EventsAreRecorded, HasEventsOf, LedFromNothing, TalksAreDurable, share_of, talks_of};
ghost use Rattle.hg_server.specs.Recording.{Accounts, held_in};
ghost use Rattle.hg_server.specs.Serving.{AccountsFor, AddsFrontOnErr, AddsOnOk, EndsByFault, EndsEarlyWhere, EndsFor, EndsWellWhere, IsStatusOf, PrintsAllOnOk, PrintsFrontOnErr, ready_text, ServesWell, StopsEarly, served_by};
ghost use Rattle.hg_server.specs.Settling.{IsSettled};

use crate::accepting::accept_all;
use crate::course::Course;
use crate::ending::hold_end_line;
use crate::fault::ServingFault;
use crate::flusher::{Due, flusher};
use crate::handing::{Cut, Taken};
use crate::health::Terms;
use crate::listening::Listener;
use crate::piece::{Piece, Station, pieces_for, stations};
use crate::seen::Seen;
use crate::settings::{Place, Settings};
use crate::settling::settle;
use crate::starting::can_start;
use crate::talks::{Records, Talks};
use crate::worker::{Gate, Seat, worker};
use crossbeam_channel::Sender;
use hg_desk::share::{Column, Opening, Share};
use hg_desk::shared::{Shared, TakenIn, gather};
use hg_disk::Disk;
use hg_model::verdict::Refusal;
use hg_receipts::Blank as BlankRegister;
use hg_store::devices::{Caps, Devices};
use hg_store::made::MadeStep;
use hg_store::store::Store;
use hg_streams::output::{Output, Outputs};
use hg_streams::printing::{print_now, print_number};
use hg_streams::telling::end_by_fault;
use hg_trail::Trail;
use std::alloc::{AllocError, Global};
use std::io::Write;
use std::marker::Brand;
use std::sync::Wait;
use std::sync::ledger::Blank;
use std::thread;
use std::thread::Threads;
use std::time::Clock;

/// How many threads a server has beside its workers: the flusher, and the one that takes connections.
const OTHER_THREADS: usize = 2;

/// Where a server takes its connections, how it runs, and what its threads ask between two holds of the lock.
#[derive(Drop)]
pub struct Door<'a, G> {
    pub listener: &'a Listener,
    pub settings: Settings,
    pub gate: &'a G,
}

/// Runs the workers until the connections are served or the store is broken, and gives their shares back with the conversations that they held, and
/// how many connections they took. Their shares were told of nothing yet. Their nudges end with them.
fn run_workers<
    D: Disk + Send + Drop,
    A: Opening + Send + Sync,
    B: Column + Send + Sync,
    G: Gate + Sync,
    R: Threads + Wait + Clock + Sync,
>(
    rt: &R,
    alloc: Global,
    shared: &Shared<D, A, B>,
    shares: Vec<Share<A, B>>,
    pieces: Vec<Piece>,
    nudges: Sender<()>,
    door: &Door<G>,
    terms: &Terms,
) -> (Result<Vec<(Share<A, B>, Talks)>, AllocError>, Taken)
    requires new { All (λ s. s ≡ nothing_told) shares.items }
    ensures led { EachLedFromNothing ⟦<D as Disk>⟧ A.start result.0 }
{
    let Ok(stations) = stations(alloc, shares, pieces) else {
        return (Err(AllocError), Taken::lacking(Cut::Unrecorded));
    };
    // No connection waits in it: one is handed over where a worker takes it.
    let Ok((to, from)) = crossbeam_channel::bounded(alloc, 0) else {
        return (Err(AllocError), Taken::lacking(Cut::Unrecorded));
    };
    let nudges = &nudges;
    let gate = door.gate;
    let connections = door.settings.connections;
    let listener = door.listener;
    thread::join(
        rt,
        move || -> Result<Vec<(Share<A, B>, Talks)>, AllocError>
            requires { IsSend D.row × IsSync R.row × IsSync G.row × All (λ s. s.share ≡ nothing_told) stations.items }
            ensures { EachLedFromNothing D.Disk A.start result }
        {
            // It ends with the last worker: then no connection is taken any more.
            let queue = &from;
            thread::map_vec(
                rt,
                stations,
                &|station: Station<A, B>| -> (Share<A, B>, Talks)
                    requires { station.share ≡ nothing_told }
                    ensures { LedFromNothing D.Disk A.start result }
                {
                    let Station { share, piece } = station;
                    worker(
                        Seat {
                            rt,
                            alloc,
                            shared,
                            share,
                            gate,
                            terms,
                        },
                        piece,
                        queue,
                        nudges,
                    )
                },
            )
        },
        move || accept_all(rt, listener, connections, &terms.health, gate, to),
    )
}

/// Runs the flusher and the workers until the connections are served, and gives the shares of all back, the flusher's first, with the conversations
/// of each worker, and how many connections the workers took. It ends behind the workers, with its checkpoint in progress.
fn run_all<
    D: Disk + Send + Drop,
    A: Opening + Send + Sync,
    B: Column + Send + Sync,
    G: Gate + Sync,
    R: Threads + Wait + Clock + Sync,
>(
    rt: &R,
    alloc: Global,
    shared: &Shared<D, A, B>,
    shares: Vec<Share<A, B>>,
    pieces: Vec<Piece>,
    begun: u64,
    door: &Door<G>,
) -> (Result<(Vec<Share<A, B>>, Records), AllocError>, Taken)
    requires new { All (λ s. s ≡ nothing_told) shares.items }
    ensures told { BackAreTold ⟦<D as Disk>⟧ A.start result.0 }
    ensures recorded { BackAreRecorded ⟦<D as Disk>⟧ A.start result.0 }
{
    let mut shares = shares;
    let Some(share) = shares.pop() else {
        return (Err(AllocError), Taken::lacking(Cut::Unrecorded));
    };
    let Ok((to, from)) = crossbeam_channel::unbounded(alloc) else {
        return (Err(AllocError), Taken::lacking(Cut::Unrecorded));
    };
    let gate = door.gate;
    let terms = Terms::new(door.settings.silence);
    let terms = &terms;
    let due = Due {
        every: u64::from(door.settings.every),
        begun,
    };
    let (share, (worked, taken)) = thread::join(
        rt,
        move || {
            flusher(
                Seat {
                    rt,
                    alloc,
                    shared,
                    share,
                    gate,
                    terms,
                },
                &from,
                due,
            )
        },
        move || -> (Result<Vec<(Share<A, B>, Talks)>, AllocError>, Taken)
            requires { All (λ s. s ≡ nothing_told) shares.items }
        { run_workers(rt, alloc, shared, shares, pieces, to, door, terms) },
    );
    let Ok(worked) = worked else {
        return (Err(AllocError), taken);
    };
    (part(alloc, worked, share), taken)
}

/// The shares of all threads, that of the flusher first, and the conversations of each worker.
fn part<A: Opening, B: Column>(
    alloc: Global,
    worked: Vec<(Share<A, B>, Talks)>,
    first: Share<A, B>,
) -> Result<(Vec<Share<A, B>>, Records), AllocError>
    ensures shares { IfOk result (λ r. r.0.items ≡ first ∷ reverse (map share_of worked.items)) }
    ensures talks { IfOk result (λ r. r.1 ≡ map talks_of worked.items) }
{
    let mut rest = worked;
    let mut shares = Vec::new(alloc);
    let mut talks = Records::new();
    shares.push(first)?;
    while let Some((share, held)) = rest.pop() {
        shares.push(share)?;
        talks.push(held);
    }
    Ok((shares, talks))
}

/// Takes the threads' shares in, and the store with them. Gives the workers' conversations, where their shares were taken in, and how many
/// connections workers took: no less were asked for, and the conversation of each is there, or something cut that short.
fn take_in<D: Disk, A: Opening, B: Column>(
    back: Result<(Vec<Share<A, B>>, Records), AllocError>,
    shared: Shared<D, A, B>,
    taken: Taken,
    connections: u16,
) -> (TakenIn<D>, Records, Taken)
    requires told { BackAreTold ⟦<D as Disk>⟧ A.start back }
    requires recorded { BackAreRecorded ⟦<D as Disk>⟧ A.start back }
    ensures since { WentOnSince ⟦<D as Disk>⟧ A.start (moments_of result.0.steps) result.0.store }
    ensures ran { RanSince ⟦<D as Disk>⟧ A.start result.0.steps result.0.store }
    ensures durable { IsTrue D.is_honest → TalksAreDurable ⟦<D as Disk>⟧ A.start (saved ⟦<D as Disk>⟧ result.0.store) result.1 }
    ensures accounts { Accounts connections (held_in result.1) result.2.count result.2.cut }
    ensures recorded { IsTrue D.is_honest
        → result.2.cut ≡ None → HasEventsOf ⟦<D as Disk>⟧ A.start A.opening result.0.store result.1 }
{
    let Ok((shares, talks)) = back else {
        let taken = taken.cut_short(Cut::Unrecorded);
        return (shared.into_store(), Records::new(), taken);
    };
    match gather(shares, shared) {
        Ok(taken_in) => {
            let taken = taken.compared(&talks, connections);
            (taken_in, talks, taken)
        }
        Err((_, shared, _)) => {
            let taken = taken.cut_short(Cut::Disputed);
            (shared.into_store(), Records::new(), taken)
        }
    }
}

/// A store that was served, and how that ended.
#[derive(Drop)]
struct Service<D: Disk, E> {
    store: Store<D>,
    /// The steps of the store since the opening, the newest first, which contracts alone see.
    steps: Trail<MadeStep<D>>,
    /// The conversations of each worker whose share was taken in, which contracts alone see.
    talks: Records,
    /// How many connections workers took, and what cut that short, if something did.
    taken: Taken,
    ended: Result<(), E>,
}

/// Opens the lock over a store, runs flusher and workers until the connections are served, and takes them in. At `Ok` workers took as many
/// connections as they should, the conversation of each is there, and all accepted events are durable; each was accepted in one of these
/// conversations. `Broken` says that a device had failed before the last commit, and broke the store. `DeviceFault` says that this commit failed;
/// or that all accepted events are durable, and no more connections came. `OutOfMemory` says that memory was refused; all accepted events are
/// durable then. `taken` has what cut it short.
///
/// It waits until so many connections were served.
fn serve_by<
    D: Disk + Send + Drop,
    A: Opening + Send + Sync,
    B: Column + Send + Sync,
    G: Gate + Sync,
    R: Threads + Wait + Clock + Sync,
>(
    rt: &R,
    alloc: Global,
    store: Store<D>,
    accepted: Blank,
    durable: Blank,
    acks: BlankRegister,
    pieces: Vec<Piece>,
    door: &Door<G>,
) -> Service<D, ServingFault>
    requires accepted { IsBlankOf A.name A.parts (door.now.settings.workers + 1) accepted }
    requires durable { IsBlankOf B.name B.parts (door.now.settings.workers + 1) durable }
    requires acks { acks ≡ A.table }
    requires opening { ((live ⟦<D as Disk>⟧ store).events ≡ A.opening) × (store.durable ≡ B.opening) }
    requires start { A.start ≡ Some (began ⟦<D as Disk>⟧ store) }
    requires settled { IsSettled ⟦<D as Disk>⟧ store }
    ensures went { WentOn ⟦<D as Disk>⟧ (began ⟦<D as Disk>⟧ store) (moments_of result.steps) result.store }
    ensures ran { RanFrom ⟦<D as Disk>⟧ (began ⟦<D as Disk>⟧ store) result.steps result.store }
    ensures settled { OnOk result.ended (IsSettled ⟦<D as Disk>⟧ result.store) }
    ensures taken { OnOk result.ended (result.taken.cut ≡ None) }
    ensures accounts { AccountsFor ⟦<D as Disk>⟧ door.now.settings result }
    ensures acked { AcksAreDurable ⟦<D as Disk>⟧ store result.store result.talks }
    ensures recorded { OnOk result.ended (EventsAreRecorded ⟦<D as Disk>⟧ store result.store result.talks) }
    ensures cause { IfErr result.ended (EndsFor ⟦<D as Disk>⟧ store.devices result) }
{
    let count = usize::from(door.settings.workers) + 1;
    let begun = store.durable().unwrap_or(0);
    let opened = Shared::<D, A, B>::new(alloc, store, accepted, durable, acks, count);
    let (shared, shares) = match opened {
        Ok(opened) => opened,
        Err((store, _, _, _)) => {
            return Service {
                store,
                steps: Trail::new(),
                talks: Records::new(),
                taken: Taken::lacking(Cut::Unrecorded),
                ended: Err(ServingFault::OutOfMemory),
            };
        }
    };
    let (back, taken) = run_all(rt, alloc, &shared, shares, pieces, begun, door);
    let (back, talks, taken) = take_in(back, shared, taken, door.settings.connections);
    let TakenIn {
        mut store,
        mut steps,
    } = back;
    let ended = settle(&mut store, &mut steps, &taken);
    Service {
        store,
        steps,
        talks,
        taken,
        ended,
    }
}

/// Prints what a server prints at its end.
fn print_end<D: Disk, W: Write>(
    alloc: Global,
    store: &Store<D>,
    settings: Settings,
    output: &mut Output<W>,
) -> Result<(), Refusal>
    requires works { store.now.is_broken ≡ false }
    ensures printed { AddsOnOk output.old output.new (served_by ⟦<D as Disk>⟧ settings store.now) result }
    ensures front { AddsFrontOnErr output.old output.new (served_by ⟦<D as Disk>⟧ settings store.now) result }
    ensures cause { IfErr result (HasWriteCause output.old.calls output.new.calls) }
{
    print_number(b"served ", u64::from(settings.connections), output)?;
    let mut held = Vec::new(alloc);
    hold_end_line(store, &mut held)?;
    print_now(held.as_slice(), output)?;
    Ok(())
}

/// Prints `ready` and what the server listens on.
fn print_ready<W: Write>(settings: Settings, output: &mut Output<W>) -> Result<(), Refusal>
    ensures printed { OnOk result (Took output.old.calls output.new.calls (ready_text settings)) }
    ensures calls { IsPrintedNow output.old.calls output.new.calls (ready_text settings) }
    ensures cause { IfErr result (HasWriteCause output.old.calls output.new.calls) }
{
    match settings.place {
        Place::Port { port } => print_number(b"ready ", u64::from(port), output),
        Place::Socket => {
            print_now(b"ready unix\n", output)?;
            Ok(())
        }
    }
}

/// Prints `ready` and what the server listens on, where the workers have their memory and all threads can be made. Gives that memory, and a
/// register for what clients are told.
fn announce<G, R: Threads + Clock + Sync, W: Write>(
    rt: &R,
    alloc: Global,
    door: &Door<G>,
    output: &mut Output<W>,
) -> Result<(Vec<Piece>, BlankRegister), Refusal>
    ensures printed { OnOk result (Took output.old.calls output.new.calls (ready_text door.now.settings)) }
    ensures calls { IsPrintedNow output.old.calls output.new.calls (ready_text door.now.settings) }
    ensures cause { IfErr result (HasWriteCause output.old.calls output.new.calls) }
{
    let (Ok(pieces), Ok(acks)) = (
        pieces_for(alloc, door.settings.workers),
        BlankRegister::new(alloc),
    ) else {
        return Err(Refusal::OutOfMemory);
    };
    if !can_start(
        rt,
        alloc,
        usize::from(door.settings.workers) + OTHER_THREADS,
    ) {
        return Err(Refusal::OutOfMemory);
    }
    print_ready(door.settings, output)?;
    Ok((pieces, acks))
}

/// Prints `ready` and what the server listens on where all threads can be made, serves the connections, and prints what is due then.
fn serve_and_print<
    D: Disk + Send + Drop,
    G: Gate + Sync,
    R: Threads + Wait + Clock + Sync,
    W: Write,
>(
    rt: &R,
    alloc: Global,
    store: Store<D>,
    door: &Door<G>,
    output: &mut Output<W>,
) -> Service<D, Refusal>
    requires settled { IsSettled ⟦<D as Disk>⟧ store }
    ensures went { WentOn ⟦<D as Disk>⟧ (began ⟦<D as Disk>⟧ store) (moments_of result.steps) result.store }
    ensures ran { RanFrom ⟦<D as Disk>⟧ (began ⟦<D as Disk>⟧ store) result.steps result.store }
    ensures settled { OnOk result.ended (IsSettled ⟦<D as Disk>⟧ result.store) }
    ensures printed { PrintsAllOnOk ⟦<D as Disk>⟧ door.now.settings result.store output.old output.new result.ended }
    ensures front { PrintsFrontOnErr ⟦<D as Disk>⟧ door.now.settings result.store output.old output.new result.ended }
    ensures taken { OnOk result.ended (result.taken.cut ≡ None) }
    ensures accounts { AccountsFor ⟦<D as Disk>⟧ door.now.settings result }
    ensures acked { AcksAreDurable ⟦<D as Disk>⟧ store result.store result.talks }
    ensures recorded { OnOk result.ended (EventsAreRecorded ⟦<D as Disk>⟧ store result.store result.talks) }
    ensures cause { IfErr result.ended (EndsByFault ⟦<D as Disk>⟧ store.devices output.old output.new result) }
{
    let (pieces, acks) = match announce(rt, alloc, door, output) {
        Ok(made) => made,
        Err(refusal) => {
            return Service {
                store,
                steps: Trail::new(),
                talks: Records::new(),
                taken: Taken::lacking(Cut::Unready),
                ended: Err(refusal),
            };
        }
    };
    let threads = u64::from(door.settings.workers) + 1;
    let Service {
        store,
        steps,
        talks,
        taken,
        ended,
    } = serve_by::<D, Brand, Brand, G, R>(
        rt,
        alloc,
        store,
        Blank::new(threads),
        Blank::new(threads),
        acks,
        pieces,
        door,
    );
    match ended {
        Ok(()) => {
            let ended = print_end(alloc, &store, door.settings, output);
            Service {
                store,
                steps,
                talks,
                taken,
                ended,
            }
        }
        Err(fault) => Service {
            store,
            steps,
            talks,
            taken,
            ended: Err(Refusal::from(fault)),
        },
    }
}

/// Recovers the store, serves the connections, and prints what is due.
fn recover_and_serve<
    D: Disk + Send + Drop,
    G: Gate + Sync,
    R: Threads + Wait + Clock + Sync,
    W: Write,
>(
    rt: &R,
    alloc: Global,
    devices: Devices<D>,
    door: &Door<G>,
    output: &mut Output<W>,
) -> (Result<Store<D>, (Refusal, Devices<D>)>, Course<D>)
    requires frames { IsFrameCount door.now.settings.frames }
    ensures well { EndsWellWhere ⟦<D as Disk>⟧ door.now.settings devices output.old output.new result }
    ensures early { EndsEarlyWhere ⟦<D as Disk>⟧ door.now.settings devices output.old output.new result }
{
    let store = match Store::recover(alloc, devices, door.settings.frames, Caps::profile()) {
        Ok(store) => store,
        Err(refused) => return (Err(refused), Course::none()),
    };
    let opened = Seen::of(&store);
    let Service {
        store,
        steps,
        talks,
        taken,
        ended,
    } = serve_and_print(rt, alloc, store, door, output);
    let course = Course::between(opened, steps, talks, &store, taken);
    match ended {
        Ok(()) => (Ok(store), course),
        Err(refusal) => (Err((refusal, store.into_devices())), course),
    }
}

/// What serving comes to.
#[derive(Drop)]
pub struct Outcome<D: Disk> {
    /// The exit status.
    pub status: u8,
    /// The store, or the devices where there is none.
    pub ended: Result<Store<D>, Devices<D>>,
    /// How it went.
    pub course: Course<D>,
}

/// Recovers the store that the devices hold, prints `ready` and what the server listens on, takes the connections, holds their conversations, makes
/// checkpoints meanwhile, and prints `served`, how many were taken, and the end line. All accepted events are durable then. Answers the status, 0 with the store, or 3
/// with the devices where they hold no store, a device or the output failed, no more connections came, or memory or room was refused,
/// which is told among the faults. A connection that fails ends alone. Whatever ends it, no durable event is lost, and each image between two
/// neighbouring moments has a front of the accepted events. All of them are durable unless a device failed. What each Ack in the conversations of
/// `course` told a client is durable, whatever ended it. At status 0 each event that was accepted since the opening was accepted in these
/// conversations. What was done to the store is a run of its steps, which `course` has. The store is opened with the frames of the settings and
/// the greatest caps.
///
/// It waits until so many connections were served.
pub fn serve<
    D: Disk + Send + Drop,
    G: Gate + Sync,
    R: Threads + Wait + Clock + Sync,
    W: Write,
    V: Write,
>(
    rt: &R,
    alloc: Global,
    devices: Devices<D>,
    door: &Door<G>,
    outputs: &mut Outputs<W, V>,
) -> Outcome<D>
    requires frames { IsFrameCount door.now.settings.frames }
    ensures status { IsStatusOf result.ended result.status }
    ensures well { ServesWell ⟦<D as Disk>⟧ door.now.settings devices outputs.old outputs.new result }
    ensures quiet { OnOk result.ended (outputs.new.faults.calls ≡ outputs.old.faults.calls) }
    ensures early { StopsEarly ⟦<D as Disk>⟧ door.now.settings devices outputs.old outputs.new result }
{
    let (ended, course) = recover_and_serve(rt, alloc, devices, door, &mut outputs.output);
    match ended {
        Ok(store) => Outcome {
            status: 0,
            ended: Ok(store),
            course,
        },
        Err((refusal, devices)) => {
            let status = end_by_fault(refusal, &mut outputs.faults);
            Outcome {
                status,
                ended: Err(devices),
                course,
            }
        }
    }
}
