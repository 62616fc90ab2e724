// What is refused in pipes.

ghost use Rattle.std.specs.Prelude.{◌≡◌, map, None, OnOk};
ghost use Rattle.conf_ast.specs.Configurations.{instance_of, pipe_setting_of};
ghost use Rattle.conf_names.specs.Known.{ArePipesThere};
ghost use Rattle.conf_rules.specs.Protocols as of;
ghost use Rattle.conf_names.specs.Refusals.{first_in};
ghost use Rattle.conf_names.specs.Seen.{known_of};

use crate::channels::{is_other_family, passing};
use bits_ip::{Family, OutOfMemory};
use conf_ast::configurations::{PipeOption, Protocol};
use conf_ast::{ConfKind, Name};
use conf_names::declared::{Declared, family_of, known_number, table, table_of};
use conf_names::joints::{Joint, is_joined};
use conf_names::names::{declaring_pipe, place_of};
use conf_names::refusal::{Refusal, note_if};
use conf_options::PipeOptions;
use std::alloc::Global;

fn setting(
    alloc: Global,
    text: &[u8],
    declared: &Declared,
    option: &PipeOption,
    first: &mut Option<Refusal>,
) -> Result<(), OutOfMemory>
    ensures { OnOk result (first.new
        ≡ first_in first.old (of.pipe_setting (known_of text.now declared.now)
        (pipe_setting_of option.now))) }
{
    match option {
        PipeOption::Table(name) => {
            table(text, declared, *name, first);
            Ok(())
        }
        PipeOption::PeerTable(name) => {
            table(text, declared, *name, first);
            Ok(())
        }
        PipeOption::Import(policy) => passing(alloc, text, declared, policy, first),
        PipeOption::Export(policy) => passing(alloc, text, declared, policy, first),
    }
}

fn settings(
    alloc: Global,
    text: &[u8],
    declared: &Declared,
    options: &[PipeOption],
    first: &mut Option<Refusal>,
) -> Result<(), OutOfMemory>
    ensures { OnOk result (first.new
        ≡ first_in first.old (of.pipe_settings (known_of text.now declared.now)
        (map pipe_setting_of options.now))) }
{
    for option in options {
        setting(alloc, text, declared, option, first)?;
    }
    Ok(())
}

// ---- the tables that count

/// A pipe has a peer table.
fn want_peer(at: usize, peer: Option<Name>, first: &mut Option<Refusal>)
    ensures { first.new ≡ first_in first.old (of.lacks at peer) }
{
    note_if(first, peer.is_none(), at, ConfKind::Unsupported);
}

/// The family of the primary table.
fn primary_family(text: &[u8], declared: &Declared, primary: Option<Name>) -> Option<Family>
    ensures { result ≡ of.primary_family (known_of text.now declared.now) primary }
{
    match primary {
        None => family_of(declared, b"master4"),
        Some(name) => table_of(text, declared, name),
    }
}

fn differ(family: Option<Family>, other: Option<Family>) -> bool
    ensures { result ≡ of.differ family other }
{
    match family {
        None => false,
        Some(family) => is_other_family(family, other),
    }
}

/// The second table is of the family of the first.
fn peer_family(
    text: &[u8],
    declared: &Declared,
    primary: Option<Name>,
    peer: Option<Name>,
    first: &mut Option<Refusal>,
)
    ensures { first.new
        ≡ first_in first.old (of.peer_family (known_of text.now declared.now) primary peer) }
{
    match peer {
        None => (),
        Some(name) => {
            let family = primary_family(text, declared, primary);
            let is_refused = differ(family, table_of(text, declared, name));
            note_if(first, is_refused, name.at, ConfKind::Nettype);
        }
    }
}

// ---- cycles

fn primary_number(text: &[u8], declared: &Declared, primary: Option<Name>) -> Option<usize>
    ensures { result ≡ of.primary_number (known_of text.now declared.now) primary }
{
    match primary {
        None => known_number(declared, b"master4"),
        Some(name) => known_number(declared, name.bytes(text)),
    }
}

fn peer_number(text: &[u8], declared: &Declared, peer: Option<Name>) -> Option<usize>
    ensures { result ≡ of.peer_number (known_of text.now declared.now) peer }
{
    match peer {
        None => None,
        Some(name) => known_number(declared, name.bytes(text)),
    }
}

fn joint(table: Option<usize>, peer: Option<usize>) -> Option<Joint>
    ensures { result ≡ of.joint table peer }
{
    match table {
        None => None,
        Some(table) => match peer {
            None => None,
            Some(peer) => Some(Joint { table, peer }),
        },
    }
}

/// The two tables that a pipe joins, by the options that count, where both are declared.
pub fn joint_of(text: &[u8], declared: &Declared, options: &[PipeOption]) -> Option<Joint>
    ensures { result
        ≡ of.joint_of (known_of text.now declared.now) (map pipe_setting_of options.now) }
{
    let found = PipeOptions::of(options);
    let table = primary_number(text, declared, found.table);
    let peer = peer_number(text, declared, found.peer);
    joint(table, peer)
}

/// The pipes before don't join these two tables, which are two.
fn cycle(
    alloc: Global,
    text: &[u8],
    declared: &Declared,
    at: usize,
    options: &[PipeOption],
    first: &mut Option<Refusal>,
) -> Result<(), OutOfMemory>
    requires { ArePipesThere (known_of text.now declared.now) }
    ensures { OnOk result (first.new
        ≡ first_in first.old (of.cycle (known_of text.now declared.now) at
        (of.joint_of (known_of text.now declared.now) (map pipe_setting_of options.now)))) }
{
    match joint_of(text, declared, options) {
        None => Ok(()),
        Some(joint) => {
            let pipes = declared.pipes.as_slice();
            let is_cycle = is_joined(alloc, declared.tables.len(), pipes, joint)?;
            note_if(first, is_cycle, at, ConfKind::PipeCycle);
            Ok(())
        }
    }
}

// ---- the protocol

pub(crate) fn pipe(
    alloc: Global,
    text: &[u8],
    declared: &Declared,
    protocol: &Protocol<PipeOption>,
    first: &mut Option<Refusal>,
) -> Result<(), OutOfMemory>
    requires { ArePipesThere (known_of text.now declared.now) }
    ensures { OnOk result (first.new
        ≡ first_in first.old (of.pipe (known_of text.now declared.now)
        (instance_of pipe_setting_of protocol.now))) }
{
    let options = protocol.options.as_slice();
    declaring_pipe(alloc, text, declared, protocol.at, protocol.name, first)?;
    settings(alloc, text, declared, options, first)?;
    let at = place_of(protocol.at, protocol.name);
    let found = PipeOptions::of(options);
    want_peer(at, found.peer, first);
    peer_family(text, declared, found.table, found.peer, first);
    cycle(alloc, text, declared, at, options, first)?;
    Ok(())
}
