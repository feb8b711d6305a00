//! A store of the former form, with one journal, is given two.
ghost use Rattle.std.specs.Prelude.{◌≡◌, IfErr, IfOk};
ghost use Rattle.hg_tasks.specs.Migrating.{Answers, IsNotMigrated, MigratesAndTells, SaysWhy, WasMigrated, refusal_of_migration};

use hg_disk::Disk;
use hg_migration::{Migrated, MigrationFault, NotMigrated, OldDevices, empty_files, migrate};
use hg_model::verdict::Refusal;
use hg_streams::output::Outputs;
use hg_streams::printing::print_now;
use hg_streams::telling::end_by_fault;
use std::alloc::Global;
use std::io::Write;

/// The status where the store has two journals already.
const NOT_EMPTY: u8 = 2;

/// The devices of a store of the former form, and the two new journal files.
#[derive(Drop)]
pub struct FormerStore<D> {
    pub old: OldDevices<D>,
    pub journal0: D,
    pub journal1: D,
}

/// The refusal by which a fault of a migration is told.
fn refusal_of(fault: MigrationFault) -> Refusal
    ensures { result ≡ refusal_of_migration fault }
{
    match fault {
        MigrationFault::NotEmpty | MigrationFault::Damaged => Refusal::Damaged,
        MigrationFault::DeviceFault => Refusal::DeviceFault,
        MigrationFault::OutOfMemory => Refusal::OutOfMemory,
    }
}

/// Migrates a store, where neither new file is open. What an earlier try left in them is dropped first. A refusal hands all devices back.
fn migrated<D: Disk>(
    alloc: Global,
    former: FormerStore<D>,
) -> Result<Migrated<D>, (MigrationFault, FormerStore<D>)>
    ensures made { IfOk result (WasMigrated ⟦<D as Disk>⟧ former) }
    ensures cause { IfErr result (λ e. IsNotMigrated ⟦<D as Disk>⟧ former e.1 e.0) }
{
    let FormerStore {
        old,
        journal0,
        journal1,
    } = former;
    let mut journal0 = journal0;
    let mut journal1 = journal1;
    match empty_files(&mut journal0, &mut journal1) {
        Ok(()) => {}
        Err(fault) => {
            let left = FormerStore {
                old,
                journal0,
                journal1,
            };
            return Err((fault, left));
        }
    }
    match migrate(alloc, old, journal0, journal1) {
        Ok(made) => Ok(made),
        Err(refused) => {
            let NotMigrated {
                fault,
                old,
                journal0,
                journal1,
            } = refused;
            let left = FormerStore {
                old,
                journal0,
                journal1,
            };
            Err((fault, left))
        }
    }
}

/// Prints a text at once, and answers this status; or tells why it could not, with status 3.
fn print_answer<W: Write, V: Write>(text: &[u8], status: u8, outputs: &mut Outputs<W, V>) -> u8
    ensures { Answers text.now status outputs.old outputs.new result }
{
    match print_now(text, &mut outputs.output) {
        Ok(()) => status,
        Err(refusal) => end_by_fault(refusal, &mut outputs.faults),
    }
}

/// Prints that a new file is open already, or tells another fault. Answers the status.
fn say_why<W: Write, V: Write>(fault: MigrationFault, outputs: &mut Outputs<W, V>) -> u8
    ensures { SaysWhy fault outputs.old outputs.new result }
{
    match fault {
        MigrationFault::NotEmpty => print_answer(b"not empty\n", NOT_EMPTY, outputs),
        _ => end_by_fault(refusal_of(fault), &mut outputs.faults),
    }
}

/// Migrates a store and prints `migrated`, with status 0, when the new journals are durable; or `not empty`, with status 2, where one of
/// them is open, and nothing was changed. With status 3 a fault was told. Answers the status, and the store over five devices, or the devices
/// that are left. The former store stays as it was.
pub fn migrate_and_print<D: Disk, W: Write, V: Write>(
    alloc: Global,
    former: FormerStore<D>,
    outputs: &mut Outputs<W, V>,
) -> (u8, Result<Migrated<D>, FormerStore<D>>)
    ensures { MigratesAndTells ⟦<D as Disk>⟧ former result.1 outputs.old outputs.new result.0 }
{
    match migrated(alloc, former) {
        Ok(made) => (print_answer(b"migrated\n", 0, outputs), Ok(made)),
        Err((fault, left)) => (say_why(fault, outputs), Err(left)),
    }
}
