//! The command that makes a store.

ghost use Rattle.std.specs.Prelude.{◌≡◌, ◌⊎◌, [], Ok, Err, OnErr, OnOk, IfOk, IfErr};
ghost use Rattle.hg_streams.specs.Written.{Took};
ghost use Rattle.hg_disk.specs.State.{counted, settled};
ghost use Rattle.hg_commands.specs.Creating.{CantCreate, CreatedIsTrue, HasCreateCause, IsCleared, KeepsCreated, LeavesAnEmptyStore, TellsCreated, TellsNotEmpty, WasCreated, HadBytes, WroteAnswer};
ghost use Rattle.hg_commands.specs.Storing.{NoCallFailed};

use crate::moment::{Moment, Outcome};
use hg_disk::{Disk, DiskFault};
use hg_model::verdict::Refusal;
use hg_store::create::CreateFault;
use hg_store::devices::{Caps, Devices};
use hg_store::store::Store;
use hg_streams::output::{Output, Outputs};
use hg_streams::printing::print_now;
use hg_streams::telling::end_by_fault;
use hg_trail::Trail;
use std::alloc::Global;
use std::io::Write;

/// How many pages may be in memory while a store is made. It has none yet.
const FRAMES: u16 = 64;

/// Takes all bytes from a device.
fn empty<D: Disk>(disk: &mut D) -> Result<(), DiskFault>
    ensures emptied { OnOk result (D.state disk.new ≡ settled []) }
    ensures failures { D.failures disk.new ≡ counted result (D.failures disk.old) }
{
    disk.cut(0)?;
    disk.sync()
}

/// Takes all bytes from the devices, as far as they answer.
fn cleared<D: Disk>(devices: Devices<D>) -> Devices<D>
    ensures { IsCleared ⟦<D as Disk>⟧ devices result }
{
    let mut devices = devices;
    let _ = empty(&mut devices.journal0);
    let _ = empty(&mut devices.journal1);
    let _ = empty(&mut devices.slots);
    let _ = empty(&mut devices.root0);
    let _ = empty(&mut devices.root1);
    devices
}

/// Makes a store and prints `created`, with status 0. Where a device has bytes it prints `not empty`, with status 2.
fn make_and_print<D: Disk, W: Write>(
    alloc: Global,
    devices: Devices<D>,
    output: &mut Output<W>,
    moments: &mut Trail<Moment<D, W>>,
) -> (Result<u8, Refusal>, Devices<D>)
    requires none { moments.old ≡ [] }
    ensures status { IfOk result.0 (λ s. (s ≡ 0) ⊎ (s ≡ 2)) }
    ensures durable { result.0 ≡ Ok 0 → LeavesAnEmptyStore ⟦<D as Disk>⟧ result.1 }
    ensures created { result.0 ≡ Ok 0 → TellsCreated ⟦<D as Disk>⟧ devices result.1 output.old output.new }
    ensures not_empty { result.0 ≡ Ok 2 → TellsNotEmpty ⟦<D as Disk>⟧ devices result.1 output.old output.new }
    ensures front { OnErr result.0 (WroteAnswer ⟦<D as Disk>⟧ devices output.old output.new) }
    ensures device { OnOk result.0 (NoCallFailed ⟦<D as Disk>⟧ devices result.1) }
    ensures cause { IfErr result.0 (HasCreateCause ⟦<D as Disk>⟧ devices result.1 output.old output.new) }
    ensures kept { CreatedIsTrue ⟦<D as Disk>⟧ devices output.old moments.new result.1 output.new }
{
    match Store::create(alloc, devices, FRAMES, Caps::profile()) {
        Ok(store) => {
            moments.push(Moment::of(&store, &*output));
            let printed = print_now(b"created\n", output);
            moments.push(Moment::of(&store, &*output));
            match printed {
                Ok(()) => (Ok(0), store.into_devices()),
                Err(refusal) => (Err(refusal), cleared(store.into_devices())),
            }
        }
        Err((CreateFault::NotEmpty, devices)) => match print_now(b"not empty\n", output) {
            Ok(()) => (Ok(2), devices),
            Err(refusal) => (Err(refusal), devices),
        },
        Err((CreateFault::Refused(refusal), devices)) => (Err(refusal), cleared(devices)),
    }
}

/// Makes a store of no events on the devices. The status is 0, and any crash from then on leaves such a store; 2 where a device
/// has bytes, and nothing is changed; or 3 where a device or the output failed, or memory was refused, which is told among the faults.
/// With status 3, devices that had no byte have none again, as far as they answer, so that the store can be made once the cause
/// is mended, and other devices are as they were.
///
/// Whatever the status, `created` is written only when any crash leaves such a store. This stays so from then on, unless the
/// writing failed. The moments in the outcome show it: one comes before `created` is written, and one after that.
pub fn create_store<D: Disk, W: Write, V: Write>(
    alloc: Global,
    devices: Devices<D>,
    outputs: &mut Outputs<W, V>,
) -> Outcome<D, W>
    ensures status { (result.status ≡ 0) ⊎ ((result.status ≡ 2) ⊎ (result.status ≡ 3)) }
    ensures durable { result.status ≡ 0 → LeavesAnEmptyStore ⟦<D as Disk>⟧ result.devices }
    ensures created { result.status ≡ 0 → WasCreated ⟦<D as Disk>⟧ devices result.devices outputs.old outputs.new }
    ensures not_empty { result.status ≡ 2 → HadBytes ⟦<D as Disk>⟧ devices result.devices outputs.old outputs.new }
    ensures device { (result.status ≡ 3 → ⊥) → NoCallFailed ⟦<D as Disk>⟧ devices result.devices }
    ensures quiet { (result.status ≡ 3 → ⊥) → Took outputs.old.faults.calls outputs.new.faults.calls [] }
    ensures fault { result.status ≡ 3 → CantCreate ⟦<D as Disk>⟧ devices result.devices outputs.old outputs.new }
    ensures kept { KeepsCreated ⟦<D as Disk>⟧ devices outputs.old result outputs.new }
{
    let mut moments = Trail::new();
    let (made, devices) = make_and_print(alloc, devices, &mut outputs.output, &mut moments);
    match made {
        Ok(status) => Outcome {
            status,
            devices,
            moments,
        },
        Err(refusal) => {
            let status = end_by_fault(refusal, &mut outputs.faults);
            Outcome {
                status,
                devices,
                moments,
            }
        }
    }
}
