//! The tables of a configuration.
ghost use Rattle.std.specs.Prelude.{◌≡◌, ◌<◌, IfOk, Some, length, map, slice_get};
ghost use Rattle.sys_run.specs.Parts.{table_seen};
ghost use Rattle.conf_system.specs.Seen.{system_of};

use attrs::Seq;
use bits_ip::OutOfMemory;
use conf_system::System;
use std::alloc::Global;
use sys_run::TableParts;

/// The tables, by their numbers.
pub(crate) fn tables(alloc: Global, system: &System) -> Result<Vec<TableParts>, OutOfMemory>
    ensures { IfOk result (λ parts. map table_seen parts.items ≡ (system_of system.now).tables) }
{
    let mut parts = Vec::new(alloc);
    for number in 0..system.checked.declared.tables.len() {
        parts.push(table(alloc, system, number)?)?;
    }
    Ok(parts)
}

/// The table of this number.
fn table(alloc: Global, system: &System, number: usize) -> Result<TableParts, OutOfMemory>
    requires { number < length (system_of system.now).tables }
    ensures { IfOk result
        (λ parts. slice_get (system_of system.now).tables number ≡ Some (table_seen parts)) }
{
    match system.checked.declared.tables.get_index(number) {
        Some((name, family)) => Ok(TableParts {
            name: copied(alloc, name)?,
            family: *family,
        }),
        None => unreachable!(),
    }
}

/// A name of one's own with these bytes.
pub(crate) fn copied(alloc: Global, name: &[u8]) -> Result<Seq<u8>, OutOfMemory>
    ensures { IfOk result (λ copy. copy ≡ name.now) }
{
    Ok(Seq::from_vec(Vec::from_slice(alloc, name)?))
}
