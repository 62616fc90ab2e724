//! Which sources the ports of a table have.
ghost use Rattle.std.specs.Prelude.{◌≡◌, ◌==◌, ◌≤◌, ◌++◌, [], ◌∷◌, length, if◌then◌else◌, IfOk, OnOk};
ghost use Rattle.table_shared.specs.Opening.{lists_of};
ghost use Rattle.room_open.specs.Sources.{lists_from, sources_in};
ghost use Rattle.room_open.specs.declared.standing.StandingMember.TheVariants.{Pipe};

use crate::standing::{StandingMember, StandingPipe};
use attrs::Judge;
use bits_ip::OutOfMemory;
use phase_open::StandingChannel;
use std::alloc::Global;

/// The number alone where it is so, and else nothing.
fn alone_if(alloc: Global, is_so: bool, number: u32) -> Result<Vec<u32>, OutOfMemory>
    ensures { IfOk result (λ list. list.items ≡ if is_so then number ∷ [] else []) }
{
    let mut list = Vec::new(alloc);
    if is_so {
        list.push(number)?;
    }
    Ok(list)
}

/// Where it is so, the sources that the channel passes join the list.
fn join_if<J: Judge>(
    list: &mut Vec<u32>,
    is_so: bool,
    channel: &StandingChannel<J>,
) -> Result<(), OutOfMemory>
    ensures { OnOk result (list.new.items ≡ list.old.items
        ++ (if is_so then channel.now.exporter.spec.sources else [])) }
{
    if is_so {
        list.extend_from_slice(channel.exporter.through().spec.sources.as_slice())?;
    }
    Ok(())
}

/// What a pipe's directions pass to the table.
fn passed_on<J: Judge>(
    alloc: Global,
    table: u32,
    number: u32,
    held: &StandingPipe<J>,
) -> Result<Vec<u32>, OutOfMemory>
    ensures { IfOk result (λ list. list.items ≡ sources_in table number (Pipe held.now)) }
{
    let mut list = Vec::new(alloc);
    join_if(&mut list, held.peer == table, &held.out)?;
    join_if(&mut list, held.primary == table, &held.back)?;
    Ok(list)
}

/// The sources of a protocol's port of the table.
fn source_list<J: Judge>(
    alloc: Global,
    table: u32,
    number: u32,
    held: &StandingMember<J>,
) -> Result<Vec<u32>, OutOfMemory>
    ensures { IfOk result (λ list. list.items ≡ sources_in table number held.now) }
{
    match held {
        StandingMember::Own(own) => alone_if(alloc, own.table == table, number),
        StandingMember::Pipe(pipe) => passed_on(alloc, table, number, pipe),
    }
}

/// The sources of the table's ports, by protocol.
pub fn source_lists<J: Judge>(
    alloc: Global,
    table: u32,
    members: &[StandingMember<J>],
) -> Result<Vec<Vec<u32>>, OutOfMemory>
    requires { length members.now ≤ 1024 }
    ensures { IfOk result (λ lists. lists_of lists.items ≡ lists_from table 0 members.now) }
{
    let mut lists = Vec::new(alloc);
    for number in 0..members.len() {
        let list = source_list(alloc, table, number as u32, &members[number])?;
        lists.push(list)?;
    }
    Ok(lists)
}
