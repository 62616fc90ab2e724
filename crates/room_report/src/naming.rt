//! Names by number.
ghost use Rattle.std.specs.Prelude.{◌≡◌, ◌++◌, IfOk, slice_get};
ghost use Rattle.room_report.specs.Inside.{name_of, name_or_none, text_of, with_target};

use attrs::Seq;
use bits_ip::OutOfMemory;
use script_lines::Name;
use std::alloc::Global;
use sys_run::TableParts;

/// What a channel is to its protocol: its only one, or one of a pipe's directions.
#[derive(Clone, Copy)]
pub(crate) enum ChannelKind {
    Own,
    Export,
    Import,
}

/// What the name of such a channel has behind its protocol's.
fn kind_text(kind: ChannelKind) -> &'static [u8]
    ensures { result.now ≡ text_of kind }
{
    match kind {
        ChannelKind::Own => b"",
        ChannelKind::Export => b".export",
        ChannelKind::Import => b".import",
    }
}

/// Whether it is a direction of a pipe.
pub(crate) fn is_direction(kind: ChannelKind) -> bool
    ensures { result ≡ with_target kind }
{
    match kind {
        ChannelKind::Own => false,
        ChannelKind::Export => true,
        ChannelKind::Import => true,
    }
}

/// A copy of the name of this number, which is empty where there is none.
pub(crate) fn copy_name(
    alloc: Global,
    names: &[Seq<u8>],
    number: usize,
) -> Result<Seq<u8>, OutOfMemory>
    ensures { IfOk result (λ name. name ≡ name_or_none (slice_get names.now number)) }
{
    match names.get(number) {
        Some(name) => Ok(Seq::from_vec(Vec::from_slice(alloc, name.as_slice())?)),
        None => Ok(Seq::new(alloc)),
    }
}

/// The name of a channel of the protocol of this number.
pub(crate) fn copy_channel_name(
    alloc: Global,
    names: &[Seq<u8>],
    number: usize,
    kind: ChannelKind,
) -> Result<Seq<u8>, OutOfMemory>
    ensures { IfOk result
        (λ name. name ≡ name_or_none (slice_get names.now number) ++ text_of kind) }
{
    let mut text = copy_name(alloc, names, number)?.into_vec();
    text.extend_from_slice(kind_text(kind))?;
    Ok(Seq::from_vec(text))
}

/// A copy of the name of the table of this number, which is empty where there is none.
pub(crate) fn copy_table_name(
    alloc: Global,
    tables: &[TableParts],
    number: usize,
) -> Result<Seq<u8>, OutOfMemory>
    ensures { IfOk result (λ name. name ≡ name_of (slice_get tables.now number)) }
{
    match tables.get(number) {
        Some(table) => Ok(Seq::from_vec(Vec::from_slice(alloc, table.name.as_slice())?)),
        None => Ok(Seq::new(alloc)),
    }
}

/// The name of the actor of this number, which is empty where there is none.
pub(crate) fn actor_name(actors: &[Name], number: usize) -> &[u8]
    ensures { result.now ≡ name_or_none (slice_get actors.now number) }
{
    match actors.get(number) {
        Some(actor) => actor.as_slice(),
        None => &[],
    }
}
