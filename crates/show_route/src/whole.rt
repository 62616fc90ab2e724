//! The reply to a query.
ghost use Rattle.std.specs.Prelude.{◌≡◌, ◌≤◌, ◌++◌, ◌∷◌, List, ℕ, map, codes, decimal, is_some, length, option_copied, option_map, IfOk, OnOk};
ghost use Rattle.attrs.specs.History.{Content};
ghost use Rattle.attrs.specs.Table.{Shows, count_routes};
ghost use Rattle.show_route.specs.Senders.{sender_of};
ghost use Rattle.show_route.specs.Shown.{IsReply, count_text};
ghost use Rattle.show_route.specs.Steps.{rows_reply, reply_begin};
ghost use Rattle.show_route.specs.Views.{IsView};

use crate::query::Query;
use crate::reply::begin;
use crate::show::{Tally, show_rows};
use attrs::Judge;
use bits_ip::{OutOfMemory, write_number};
use export_core::Through;
use rib::{LentRow, Rib};
use std::alloc::Global;

/// The reply to a query: over the rows that it asks for, of a table that has so many routes in all
/// and this name, with the protocols' names by number. `choice` and `export` are the filter and
/// the channel that it names, each given exactly where it names one.
///
/// `OutOfMemory` comes where memory is refused. BIRD User's Guide, section 4 ("Remote control"),
/// `show route`.
pub fn answer_query<J: Judge, E: Judge>(
    alloc: Global,
    query: &Query,
    rows: &[LentRow],
    total: u64,
    table: &[u8],
    names: &[&[u8]],
    choice: Option<&J>,
    export: Option<&Through<E>>,
) -> Result<Vec<u8>, OutOfMemory>
    requires view { (content : Content) × IsView query.now.pick rows.now total content }
    requires choice { is_some query.now.choice ≡ is_some choice }
    requires export { is_some query.now.export ≡ is_some export }
    ensures { IfOk result (λ text. (content : Content)
        → IsView query.now.pick rows.now total content
        → IsReply (map (λ name. name.now) names.now) table.now query.now
        (option_map J.verdict (option_copied choice.entry))
        (option_map (λ through. sender_of through.spec (E.verdict through.judge))
        (option_copied export.entry)) content text.items) }
{
    reply_rows(alloc, query, rows, total, table, names, choice, export)
}

/// The reply to a query over a table, whose rows aren't copied for it.
pub fn answer_table<J: Judge, E: Judge>(
    alloc: Global,
    query: &Query,
    rib: &Rib,
    table: &[u8],
    names: &[&[u8]],
    choice: Option<&J>,
    export: Option<&Through<E>>,
) -> Result<Vec<u8>, OutOfMemory>
    requires choice { is_some query.now.choice ≡ is_some choice }
    requires export { is_some query.now.export ≡ is_some export }
    ensures { IfOk result (λ text. (content : Content) → Shows rib.now.rows content
        → IsReply (map (λ name. name.now) names.now) table.now query.now
        (option_map J.verdict (option_copied choice.entry))
        (option_map (λ through. sender_of through.spec (E.verdict through.judge))
        (option_copied export.entry)) content text.items) }
{
    let rows = rib.lend(&query.pick)?;
    let total = rib.total();
    answer_query(
        alloc,
        query,
        rows.as_slice(),
        total,
        table,
        names,
        choice,
        export,
    )
}

/// The same, as the rows are gone through.
fn reply_rows<J: Judge, E: Judge>(
    alloc: Global,
    query: &Query,
    rows: &[LentRow],
    total: u64,
    table: &[u8],
    names: &[&[u8]],
    choice: Option<&J>,
    export: Option<&Through<E>>,
) -> Result<Vec<u8>, OutOfMemory>
    requires { count_routes rows.now ≤ total }
    ensures { IfOk result (λ text. text.items
        ≡ rows_reply (map (λ name. name.now) names.now) table.now query.now
        (option_map J.verdict (option_copied choice.entry))
        (option_map (λ through. sender_of through.spec (E.verdict through.judge))
        (option_copied export.entry)) rows.now total) }
{
    let mut tally = Tally {
        text: begin_reply(alloc, query.count, table)?,
        routes: 0,
        nets: 0,
    };
    show_rows(names, query, choice, export, rows, &mut tally)?;
    let Tally {
        mut text,
        routes,
        nets,
    } = tally;
    if query.count {
        write_count(table, routes, total, nets, &mut text)?;
    }
    Ok(text)
}

/// The heading, where routes are told; nothing where they are only counted.
fn begin_reply(alloc: Global, count: bool, table: &[u8]) -> Result<Vec<u8>, OutOfMemory>
    ensures { IfOk result (λ text. text.items ≡ reply_begin count table.now) }
{
    if count {
        Ok(Vec::new(alloc))
    } else {
        begin(alloc, table)
    }
}

/// How many routes are shown, of how many.
fn write_share(routes: u64, total: u64, out: &mut Vec<u8>) -> Result<(), OutOfMemory>
    ensures { OnOk result
        (out.new.items ≡ out.old.items ++ decimal routes ++ codes " of " ++ decimal total) }
{
    write_number(routes, out)?;
    out.extend_from_slice(b" of ")?;
    write_number(total, out)
}

fn write_table(table: &[u8], out: &mut Vec<u8>) -> Result<(), OutOfMemory>
    ensures { OnOk result (out.new.items
        ≡ out.old.items ++ codes " networks in table " ++ table.now ++ codes "\n") }
{
    out.extend_from_slice(b" networks in table ")?;
    out.extend_from_slice(table)?;
    out.push(b'\n')?;
    Ok(())
}

/// How many routes are shown, of how many, and of how many nets.
fn write_count(
    table: &[u8],
    routes: u64,
    total: u64,
    nets: u64,
    out: &mut Vec<u8>,
) -> Result<(), OutOfMemory>
    ensures { OnOk result
        (out.new.items ≡ out.old.items ++ count_text table.now routes total nets) }
{
    write_share(routes, total, out)?;
    out.extend_from_slice(b" routes for ")?;
    write_number(nets, out)?;
    write_table(table, out)
}
