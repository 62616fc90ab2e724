//! The tables as they stand.
ghost use Rattle.std.specs.Prelude.{◌≡◌, ◌++◌, ◌∷◌, codes, decimal, length, OnOk};
ghost use Rattle.std.specs.List.{flat_map};
ghost use Rattle.bits_ip.specs.Out.{Kept};
ghost use Rattle.attrs.specs.Table.{count_routes};
ghost use Rattle.report.specs.Report.{line1, row_text, table_text};
ghost use Rattle.report.specs.ReportParts.{names_in, row_route_text};

use crate::phase::{ProtocolReport, TableReport};
use crate::place::write_place;
use attrs::{Route, Row, append_attrs};
use bits_ip::{Prefix, TextOut, write_number};

/// Appends each table as it stands.
pub(crate) fn write_tables<W: TextOut>(
    protocols: &[ProtocolReport],
    tables: &[TableReport],
    out: &mut W,
) -> Result<(), W::Fault>
    ensures written { OnOk result
        (W.written out.new ≡ W.written out.old
        ++ flat_map (table_text (names_in protocols.now)) tables.now) }
    ensures kept { Kept W.follows out.old out.new }
{
    for table in tables {
        write_table(protocols, table, out)?;
    }
    Ok(())
}

fn write_table<W: TextOut>(
    protocols: &[ProtocolReport],
    table: &TableReport,
    out: &mut W,
) -> Result<(), W::Fault>
    ensures written { OnOk result
        (W.written out.new ≡ W.written out.old ++ table_text (names_in protocols.now) table.now) }
    ensures kept { Kept W.follows out.old out.new }
{
    write_table_head(table, out)?;
    write_rows(protocols, table.rows.as_slice(), out)
}

/// The table's name, with its numbers of nets and of routes.
fn write_table_head<W: TextOut>(table: &TableReport, out: &mut W) -> Result<(), W::Fault>
    ensures written { OnOk result
        (W.written out.new ≡ W.written out.old
        ++ line1 (codes "table " ++ table.now.name ++ 32 ∷ decimal (length table.now.rows)
        ++ 32 ∷ decimal (count_routes table.now.rows))) }
    ensures kept { Kept W.follows out.old out.new }
{
    out.put(b"\ttable ")?;
    out.put(table.name.as_slice())?;
    out.put(b" ")?;
    write_number(table.rows.len() as u64, out)?;
    out.put(b" ")?;
    write_number(number_of_routes(table.rows.as_slice()), out)?;
    out.put(b"\n")
}

fn number_of_routes(rows: &[Row]) -> u128
    ensures { result ≡ count_routes rows.now }
{
    let mut total: u128 = 0;
    for row in rows {
        total += row.routes.len() as u128;
    }
    total
}

fn write_rows<W: TextOut>(
    protocols: &[ProtocolReport],
    rows: &[Row],
    out: &mut W,
) -> Result<(), W::Fault>
    ensures written { OnOk result
        (W.written out.new ≡ W.written out.old
        ++ flat_map (row_text (names_in protocols.now)) rows.now) }
    ensures kept { Kept W.follows out.old out.new }
{
    for row in rows {
        write_routes(protocols, &row.net, row.routes.as_slice(), out)?;
    }
    Ok(())
}

fn write_routes<W: TextOut>(
    protocols: &[ProtocolReport],
    net: &Prefix,
    routes: &[Route],
    out: &mut W,
) -> Result<(), W::Fault>
    ensures written { OnOk result
        (W.written out.new ≡ W.written out.old
        ++ flat_map (row_route_text (names_in protocols.now) net.now) routes.now) }
    ensures kept { Kept W.follows out.old out.new }
{
    for route in routes {
        write_route(protocols, net, route, out)?;
    }
    Ok(())
}

fn write_route<W: TextOut>(
    protocols: &[ProtocolReport],
    net: &Prefix,
    route: &Route,
    out: &mut W,
) -> Result<(), W::Fault>
    ensures written { OnOk result
        (W.written out.new ≡ W.written out.old
        ++ row_route_text (names_in protocols.now) net.now route.now) }
    ensures kept { Kept W.follows out.old out.new }
{
    out.put(b"\t\t")?;
    write_place(protocols, net, route.src.num, out)?;
    append_attrs(&route.attrs, out)?;
    out.put(b"\n")
}
