//! What is shown of rows, one after the other.
ghost use Rattle.std.specs.Prelude.{◌≡◌, ◌≤◌, ◌<◌, ◌+◌, ◌++◌, ◌^◌, ◌==◌, ◌∷◌, [], ℕ, true, false, if◌then◌else◌, List, length, map, codes, decimal, Option, None, Some, option_copied, option_map, sum_by, IfOk, OnOk};
ghost use Rattle.std.specs.List.{flat_map};
ghost use Rattle.bits_ip.specs.Prefix.{Net};
ghost use Rattle.attrs.specs.declared.route.Route.{Route};
ghost use Rattle.attrs.specs.Table.{count_routes};
ghost use Rattle.attrs.specs.Text.{attrs_text};
ghost use Rattle.show_route.specs.Shown.{item_text};
ghost use Rattle.show_route.specs.Senders.{sender_of};
ghost use Rattle.show_route.specs.Steps.{Puts, TellsRow, TellsRows, accepts, is_of, item_of, keeps, one_of, row_shown, sent_of, stored_of, with_attrs};

use crate::query::Query;
use crate::reply::write_route;
use attrs::{Attrs, Judge, Route, Shared, Verdict, append_attrs};
use bits_ip::{OutOfMemory, Prefix, write_number};
use export_core::Through;
use rib::LentRow;

/// What is told so far.
#[derive(Debug, Drop)]
pub(crate) struct Tally {
    /// What is written of it, where it isn't only counted.
    pub(crate) text: Vec<u8>,
    /// How many routes.
    pub(crate) routes: u64,
    /// Of how many nets.
    pub(crate) nets: u64,
}

fn is_of(source: Option<u32>, route: &Route) -> bool
    ensures { result ≡ is_of source route.now }
{
    match source {
        Some(num) => route.src.num == num,
        None => true,
    }
}

fn accepts<J: Judge>(choice: Option<&J>, net: &Prefix, route: &Route) -> Result<bool, OutOfMemory>
    ensures { IfOk result (λ answer. answer
        ≡ accepts (option_map J.verdict (option_copied choice.entry)) net.now route.now) }
{
    let Some(judge) = choice else {
        return Ok(true);
    };
    match judge.judge(net, route)? {
        Verdict::Accept(_) => Ok(true),
        Verdict::Reject(_) => Ok(false),
    }
}

/// Whether the route is of the source that is asked for, and accepted.
fn keeps<J: Judge>(
    query: &Query,
    choice: Option<&J>,
    net: &Prefix,
    route: &Route,
) -> Result<bool, OutOfMemory>
    ensures { IfOk result (λ answer. answer
        ≡ keeps query.now (option_map J.verdict (option_copied choice.entry)) net.now route.now) }
{
    if is_of(query.source, route) {
        accepts(choice, net, route)
    } else {
        Ok(false)
    }
}

/// The attributes in a line of their own, behind a tab.
fn write_attrs(attrs: &Attrs, out: &mut Vec<u8>) -> Result<(), OutOfMemory>
    ensures { OnOk result
        (out.new.items ≡ out.old.items ++ 9 ∷ attrs_text attrs.now ++ codes "\n") }
{
    out.push(b'\t')?;
    append_attrs(attrs, out)?;
    out.push(b'\n')?;
    Ok(())
}

fn write_item(
    names: &[&[u8]],
    all: bool,
    net: &Prefix,
    is_best: bool,
    route: &Route,
    out: &mut Vec<u8>,
) -> Result<(), OutOfMemory>
    ensures { OnOk result (out.new.items ≡ out.old.items
        ++ item_text (map (λ name. name.now) names.now) all (item_of net.now is_best route.now)) }
{
    write_route(names, net, is_best, route, out)?;
    if all {
        write_attrs(&route.attrs, out)?;
    }
    Ok(())
}

/// Shows a route.
fn put(
    names: &[&[u8]],
    query: &Query,
    net: &Prefix,
    is_best: bool,
    route: &Route,
    tally: &mut Tally,
) -> Result<(), OutOfMemory>
    requires { tally.old.routes + 1 < 2 ^ 64 }
    ensures { OnOk result (Puts (map (λ name. name.now) names.now) query.now
        (item_of net.now is_best route.now ∷ []) tally.old tally.new) }
{
    tally.routes += 1;
    if query.count {
        return Ok(());
    }
    write_item(names, query.all, net, is_best, route, &mut tally.text)
}

/// Shows a route, where it is kept.
fn show_one<J: Judge>(
    names: &[&[u8]],
    query: &Query,
    choice: Option<&J>,
    net: &Prefix,
    is_best: bool,
    route: &Route,
    tally: &mut Tally,
) -> Result<(), OutOfMemory>
    requires { tally.old.routes + 1 < 2 ^ 64 }
    ensures { OnOk result (Puts (map (λ name. name.now) names.now) query.now
        (one_of query.now (option_map J.verdict (option_copied choice.entry)) net.now is_best
        route.now) tally.old tally.new) }
{
    if keeps(query, choice, net, route)? {
        put(names, query, net, is_best, route, tally)
    } else {
        Ok(())
    }
}

/// Shows those of the routes behind a net's best that are kept.
fn show_others<J: Judge>(
    names: &[&[u8]],
    query: &Query,
    choice: Option<&J>,
    net: &Prefix,
    routes: &[Route],
    tally: &mut Tally,
) -> Result<(), OutOfMemory>
    requires { tally.old.routes + length routes.now < 2 ^ 64 }
    ensures { OnOk result (Puts (map (λ name. name.now) names.now) query.now
        (flat_map (one_of query.now (option_map J.verdict (option_copied choice.entry)) net.now
        false) routes.now) tally.old tally.new) }
{
    for route in routes {
        show_one(names, query, choice, net, false, route, tally)?;
    }
    Ok(())
}

/// Shows a net's routes that are kept.
fn show_stored<J: Judge>(
    names: &[&[u8]],
    query: &Query,
    choice: Option<&J>,
    net: &Prefix,
    routes: &[Route],
    tally: &mut Tally,
) -> Result<(), OutOfMemory>
    requires { tally.old.routes + length routes.now < 2 ^ 64 }
    ensures { OnOk result (Puts (map (λ name. name.now) names.now) query.now
        (stored_of query.now (option_map J.verdict (option_copied choice.entry)) net.now routes.now)
        tally.old tally.new) }
{
    let Some((best, others)) = routes.split_first() else {
        return Ok(());
    };
    show_one(names, query, choice, net, true, best, tally)?;
    if query.primary {
        return Ok(());
    }
    show_others(names, query, choice, net, others, tally)
}

/// Shows the route with these attributes, where there are some and it is kept.
fn show_with<J: Judge>(
    names: &[&[u8]],
    query: &Query,
    choice: Option<&J>,
    net: &Prefix,
    best: &Route,
    attrs: Option<Shared<Attrs>>,
    tally: &mut Tally,
) -> Result<(), OutOfMemory>
    requires { tally.old.routes + 1 < 2 ^ 64 }
    ensures { OnOk result (Puts (map (λ name. name.now) names.now) query.now
        (with_attrs query.now (option_map J.verdict (option_copied choice.entry)) net.now best.now
        attrs) tally.old tally.new) }
{
    let Some(attrs) = attrs else {
        return Ok(());
    };
    let route = Route {
        src: best.src,
        attrs,
    };
    show_one(names, query, choice, net, true, &route, tally)
}

/// Shows a net's best route as the channel sends it, where it does and the route is kept.
fn show_sent<J: Judge, E: Judge>(
    names: &[&[u8]],
    query: &Query,
    choice: Option<&J>,
    export: &Through<E>,
    net: &Prefix,
    routes: &[Route],
    tally: &mut Tally,
) -> Result<(), OutOfMemory>
    requires { tally.old.routes + length routes.now < 2 ^ 64 }
    ensures { OnOk result (Puts (map (λ name. name.now) names.now) query.now
        (sent_of query.now (option_map J.verdict (option_copied choice.entry))
        (sender_of export.now.spec (E.verdict export.now.judge)) net.now routes.now)
        tally.old tally.new) }
{
    let Some(best) = routes.first() else {
        return Ok(());
    };
    let attrs = export.value(net, best)?;
    show_with(names, query, choice, net, best, attrs, tally)
}

/// Shows what there is to be shown of a row.
fn show_routes<J: Judge, E: Judge>(
    names: &[&[u8]],
    query: &Query,
    choice: Option<&J>,
    export: Option<&Through<E>>,
    row: &LentRow,
    tally: &mut Tally,
) -> Result<(), OutOfMemory>
    requires { tally.old.routes + length row.now.routes < 2 ^ 64 }
    ensures { OnOk result (Puts (map (λ name. name.now) names.now) query.now
        (row_shown query.now (option_map J.verdict (option_copied choice.entry))
        (option_map (λ through. sender_of through.spec (E.verdict through.judge))
        (option_copied export.entry)) row.now) tally.old tally.new) }
{
    match export {
        Some(export) => show_sent(names, query, choice, export, &row.net, row.routes, tally),
        None => show_stored(names, query, choice, &row.net, row.routes, tally),
    }
}

/// Shows what there is to be shown of a row, and counts its net where there is something.
fn show_row<J: Judge, E: Judge>(
    names: &[&[u8]],
    query: &Query,
    choice: Option<&J>,
    export: Option<&Through<E>>,
    row: &LentRow,
    tally: &mut Tally,
) -> Result<(), OutOfMemory>
    requires routes { tally.old.routes + length row.now.routes < 2 ^ 64 }
    requires nets { tally.old.nets + 1 < 2 ^ 64 }
    ensures { OnOk result (TellsRow (map (λ name. name.now) names.now) query.now
        (row_shown query.now (option_map J.verdict (option_copied choice.entry))
        (option_map (λ through. sender_of through.spec (E.verdict through.judge))
        (option_copied export.entry)) row.now) tally.old tally.new) }
{
    let before = tally.routes;
    show_routes(names, query, choice, export, row, tally)?;
    tally.nets += u64::from(tally.routes > before);
    Ok(())
}

/// Shows what there is to be shown of rows.
pub(crate) fn show_rows<J: Judge, E: Judge>(
    names: &[&[u8]],
    query: &Query,
    choice: Option<&J>,
    export: Option<&Through<E>>,
    rows: &[LentRow],
    tally: &mut Tally,
) -> Result<(), OutOfMemory>
    requires routes { tally.old.routes + count_routes rows.now < 2 ^ 64 }
    requires nets { tally.old.nets + length rows.now < 2 ^ 64 }
    ensures { OnOk result (TellsRows (map (λ name. name.now) names.now) query.now
        (option_map J.verdict (option_copied choice.entry))
        (option_map (λ through. sender_of through.spec (E.verdict through.judge))
        (option_copied export.entry)) rows.now tally.old tally.new) }
{
    for row in rows {
        show_row(names, query, choice, export, row, tally)?;
    }
    Ok(())
}
