//! Copies of what a phase has made, which its report has.
ghost use Rattle.std.specs.Prelude.{◌≡◌, IfOk, drop, map, option_copied};
ghost use Rattle.export_core.specs.Histories.{change_of};

use attrs::{Attrs, Change, JEntry, Route, Seq, Shared};
use bits_ip::OutOfMemory;
use export_core::{LogItem, Sending};
use std::alloc::Global;

pub(crate) fn copy_changes(alloc: Global, entries: &[JEntry]) -> Result<Seq<Change>, OutOfMemory>
    ensures { IfOk result (λ changes. changes ≡ map change_of entries.now) }
{
    let mut changes = Seq::from_vec(Vec::with_capacity(alloc, entries.len())?);
    for entry in entries {
        changes.push(copy_change(entry)?)?;
    }
    Ok(changes)
}

fn copy_change(entry: &JEntry) -> Result<Change, OutOfMemory>
    ensures { IfOk result (λ change. change ≡ change_of entry.now) }
{
    Ok(Change {
        net: entry.net,
        num: entry.num,
        new: copy_route(entry.new.as_ref())?,
    })
}

fn copy_route(route: Option<&Route>) -> Result<Option<Route>, OutOfMemory>
    ensures { IfOk result (λ copy. copy ≡ option_copied route.entry) }
{
    match route {
        Some(route) => Ok(Some(route.copy()?)),
        None => Ok(None),
    }
}

/// A copy of the items behind so many.
pub(crate) fn copy_behind(
    alloc: Global,
    items: &[LogItem],
    from: usize,
) -> Result<Seq<LogItem>, OutOfMemory>
    ensures { IfOk result (λ copy. copy ≡ drop from items.now) }
{
    copy_items(alloc, items_behind(items, from))
}

fn items_behind(items: &[LogItem], from: usize) -> &[LogItem]
    ensures { result.now ≡ drop from items.now }
{
    if from <= items.len() {
        &items[from..]
    } else {
        &[]
    }
}

fn copy_items(alloc: Global, items: &[LogItem]) -> Result<Seq<LogItem>, OutOfMemory>
    ensures { IfOk result (λ copy. copy ≡ items.now) }
{
    let mut copy = Seq::from_vec(Vec::with_capacity(alloc, items.len())?);
    for item in items {
        copy.push(copy_item(item)?)?;
    }
    Ok(copy)
}

fn copy_item(item: &LogItem) -> Result<LogItem, OutOfMemory>
    ensures { IfOk result (λ copy. copy ≡ item.now) }
{
    match item {
        LogItem::Up(at) => Ok(LogItem::Up(*at)),
        LogItem::Down => Ok(LogItem::Down),
        LogItem::Reload => Ok(LogItem::Reload),
        LogItem::Sent(sending) => Ok(LogItem::Sent(copy_sending(sending)?)),
    }
}

fn copy_sending(sending: &Sending) -> Result<Sending, OutOfMemory>
    ensures { IfOk result (λ copy. copy ≡ sending.now) }
{
    Ok(Sending {
        at: sending.at,
        key: sending.key,
        value: copy_value(sending.value.as_ref())?,
        again: sending.again,
    })
}

fn copy_value(value: Option<&Shared<Attrs>>) -> Result<Option<Shared<Attrs>>, OutOfMemory>
    ensures { IfOk result (λ copy. copy ≡ option_copied value.entry) }
{
    match value {
        Some(attrs) => Ok(Some(attrs.share()?)),
        None => Ok(None),
    }
}
