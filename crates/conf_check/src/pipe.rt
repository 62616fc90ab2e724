//! Pipes.

ghost use Rattle.std.specs.Prelude.{◌≡◌, IfOk, None, Some};
ghost use Rattle.conf_ast.specs.Configurations.{instance_of, pipe_setting_of};
ghost use Rattle.conf_names.specs.Known as known;
ghost use Rattle.conf_options.specs.Options.{pipe_options};
ghost use Rattle.conf_rules.specs.Protocols as rules;
ghost use Rattle.conf_names.specs.Seen.{known_of};
ghost use Rattle.conf_check.specs.Checked as of;
ghost use Rattle.conf_check.specs.Checked.{IsPipe};
ghost use Rattle.conf_check.specs.Seen.{HasPeer, Means};

use crate::checked::PipeDef;
use crate::policy::{export_policy, import_policy};
use bits_ip::{Family, OutOfMemory};
use conf_ast::Name;
use conf_ast::configurations::{PipeOption, Protocol};
use conf_names::{Declared, table_number, table_of};
use conf_options::PipeOptions;
use std::alloc::Global;

/// The number of the primary table.
fn primary(text: &[u8], declared: &Declared, name: Option<Name>) -> usize
    ensures { result ≡ known.table_number (known_of text.now declared.now)
        (rules.primary_name text.now name) }
{
    match name {
        None => table_number(declared, b"master4"),
        Some(name) => table_number(declared, name.bytes(text)),
    }
}

/// The peer table's name.
fn peer_name(name: Option<Name>) -> Name
    requires { HasPeer name }
    ensures { name ≡ Some result }
{
    match name {
        None => unreachable!(),
        Some(name) => name,
    }
}

/// A family that is known. In what is accepted it is.
fn known_family(family: Option<Family>) -> Family
    ensures { result ≡ of.or_v4 family }
{
    match family {
        None => Family::V4,
        Some(family) => family,
    }
}

pub(crate) fn pipe(
    alloc: Global,
    text: &[u8],
    declared: &Declared,
    protocol: &Protocol<PipeOption>,
) -> Result<PipeDef, OutOfMemory>
    requires { HasPeer (pipe_options (instance_of pipe_setting_of protocol.now).settings).peer }
    ensures { IfOk result (λ def. IsPipe (known_of text.now declared.now)
        (Means text.now declared.now.scope) (instance_of pipe_setting_of protocol.now) def) }
{
    let found = PipeOptions::of(protocol.options.as_slice());
    let import = import_policy(alloc, text, declared, found.import)?;
    let export = export_policy(alloc, text, declared, found.export)?;
    let peer = peer_name(found.peer);
    Ok(PipeDef {
        family: known_family(table_of(text, declared, peer)),
        table: primary(text, declared, found.table),
        peer: table_number(declared, peer.bytes(text)),
        import,
        export,
    })
}
