//! A stop of each device at each of its calls.

use crate::machine::Machine;
use crate::running::{Progress, Rerun, Run, refer, resume, stop_run};
use hg_disk::Tear;
use hg_test_kit::device::Device;
use hg_test_kit::disks::Memories;
use hg_test_kit::tears::{Tears, put_tear};
use hg_test_kit::text::Text;
use hg_test_kit::tokens::Halt;

/// How many stops were gone on from, and how often the commit that was under way was found.
#[derive(Clone, Copy)]
struct Count {
    stops: u64,
    ahead: u64,
}

/// The most calls of a device.
const MOST_CALLS: u64 = 1_000_000;

/// A stop of a run, and where it is.
#[derive(Clone, Copy)]
struct Stop<'a> {
    run: Run<'a>,
    memories: &'a Memories,
    progress: Progress,
    device: Device,
    after: u64,
}

/// `DEVICE after K calls, TEAR: `
fn put_place(device: Device, after: u64, tear: Tear, out: &mut Text) {
    out.clear();
    out.put(device.name());
    out.put_number(b" after ", after);
    out.put(b" calls, ");
    put_tear(tear, out);
    out.put(b": ");
}

/// Goes on from one image.
fn try_image<M: Machine>(
    rerun: &mut Rerun<M>,
    stop: &Stop,
    tear: Tear,
    others: Tear,
    count: &mut Count,
    out: &mut Text,
) -> Result<(), Halt> {
    put_place(stop.device, stop.after, tear, out);
    stop.memories
        .leave_torn(stop.device, tear, others, &mut rerun.image)?;
    let found = resume(rerun, stop.run.origin, stop.progress, out)?;
    count.stops = count.stops.wrapping_add(1);
    if found > stop.progress.acknowledged {
        count.ahead = count.ahead.wrapping_add(1);
    }
    Ok(())
}

/// Goes on from one tear, with the other devices as they read, and as they were synced where that differs.
fn try_tear<M: Machine>(
    rerun: &mut Rerun<M>,
    stop: &Stop,
    tear: Tear,
    count: &mut Count,
    out: &mut Text,
) -> Result<(), Halt> {
    try_image(rerun, stop, tear, Tear::Kept, count, out)?;
    if stop.memories.are_synced_but(stop.device) {
        return Ok(());
    }
    try_image(rerun, stop, tear, Tear::Lost, count, out)
}

/// Goes on from each front of what is not synced whose length is a multiple of `step`.
fn try_fronts<M: Machine>(
    rerun: &mut Rerun<M>,
    stop: &Stop,
    step: usize,
    count: &mut Count,
    out: &mut Text,
) -> Result<(), Halt> {
    for front in 0..stop.memories.unsynced_bytes(stop.device) {
        if front.checked_rem(step) == Some(0) {
            try_tear(rerun, stop, Tear::Front(front), count, out)?;
        }
    }
    Ok(())
}

/// Goes on from each tear of one stop.
fn try_stop<M: Machine>(
    rerun: &mut Rerun<M>,
    stop: &Stop,
    tears: &[Tears],
    count: &mut Count,
    out: &mut Text,
) -> Result<(), Halt> {
    for tear in tears {
        match *tear {
            Tears::One(tear) => try_tear(rerun, stop, tear, count, out)?,
            Tears::Fronts(step) => try_fronts(rerun, stop, step, count, out)?,
        }
    }
    Ok(())
}

/// Goes on from the stop of a device after so many calls. `false` says that the device has fewer calls.
fn try_call<M: Machine>(
    rerun: &mut Rerun<M>,
    run: Run,
    tears: &[Tears],
    device: Device,
    after: u64,
    count: &mut Count,
    out: &mut Text,
) -> Result<bool, Halt> {
    let (progress, memories) = stop_run(&mut rerun.machine, run, device, after)?;
    if memories.calls(device) < after {
        return Ok(false);
    }
    // Of a stop inside a making nothing is promised.
    if progress.is_open || !run.origin.opening.is_new {
        let stop = Stop {
            run,
            memories: &memories,
            progress,
            device,
            after,
        };
        try_stop(rerun, &stop, tears, count, out)?;
    }
    Ok(true)
}

/// Goes on from each stop of one device.
fn try_device<M: Machine>(
    rerun: &mut Rerun<M>,
    run: Run,
    tears: &[Tears],
    device: Device,
    count: &mut Count,
    out: &mut Text,
) -> Result<(), Halt> {
    for after in 0..MOST_CALLS {
        if !try_call(rerun, run, tears, device, after, count, out)? {
            return Ok(());
        }
    }
    Ok(())
}

/// Goes on from each stop of these devices, for each of these tears: `N ended alike, M of them ahead`.
pub fn put_stops<M: Machine>(
    rerun: &mut Rerun<M>,
    run: Run,
    devices: &[Device],
    tears: &[Tears],
    out: &mut Text,
) -> Result<(), Halt> {
    let mut count = Count { stops: 0, ahead: 0 };
    refer(rerun, run)?;
    for device in devices {
        try_device(rerun, run, tears, *device, &mut count, out)?;
    }
    out.clear();
    out.put_decimal(count.stops);
    out.put_number(b" ended alike, ", count.ahead);
    out.put(b" of them ahead");
    Ok(())
}
