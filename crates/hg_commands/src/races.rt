//! The report that a store keeps as a number.

ghost use Rattle.std.specs.Prelude.{◌≡◌, IfErr, IfOk, OnOk, false};
ghost use Rattle.hg_streams.specs.Faults.{IsStreamFault};
ghost use Rattle.hg_commands.specs.Races.{FindsRace, PrintsNoRace};

use crate::listing::hold_end_line;
use hg_disk::Disk;
use hg_model::verdict::Refusal;
use hg_store::store::Store;
use hg_streams::holding::write_out;
use hg_streams::output::Output;
use hg_streams::printing::print_number;
use std::alloc::Global;
use std::io::Write;

/// The address of the word of the report that a store keeps as number `number`, from 1 on. `None` says that it keeps fewer.
pub fn address_of_race<D: Disk>(
    alloc: Global,
    store: &Store<D>,
    number: u32,
) -> Result<Option<u64>, Refusal>
    requires works { store.now.is_broken ≡ false }
    ensures found { IfOk result (FindsRace ⟦<D as Disk>⟧ number store.now) }
    ensures cause { IfErr result (λ r. r ≡ Refusal.OutOfMemory) }
{
    let reports = store.reports(alloc)?;
    let number = number as usize;
    if number == 0 || number > reports.len() {
        return Ok(None);
    }
    Ok(Some(reports[number - 1].word))
}

/// Prints that a store keeps no report as number `number`, and the store's end line.
pub fn print_no_race<D: Disk, W: Write>(
    alloc: Global,
    number: u32,
    store: &Store<D>,
    output: &mut Output<W>,
) -> Result<(), Refusal>
    requires works { store.now.is_broken ≡ false }
    ensures printed { OnOk result (PrintsNoRace ⟦<D as Disk>⟧ number store.now output.old output.new) }
    ensures cause { IfErr result IsStreamFault }
{
    print_number(b"no race ", number as u64, output)?;
    let mut held = Vec::new(alloc);
    hold_end_line(store, &mut held)?;
    write_out(&mut held, output)?;
    output.flush()?;
    Ok(())
}
