//! What is shown of a table at its head.
ghost use Rattle.std.specs.Prelude.{◌≡◌, ◌≤◌, false, IfOk, OnErr, drop, take, option_copied, true, Some};
ghost use mathlib.Core.List.{IsPrefix};
ghost use Rattle.bits_ip.specs.Prefix.{Net};
ghost use Rattle.attrs.specs.Select.{rows_from};
ghost use Rattle.attrs.specs.Table.{AreRows};
ghost use Rattle.jour_rule.specs.Moves.{position_of};
ghost use Rattle.jour.specs.Seats.{front, head_of, journal, known, number_of, own};
ghost use Rattle.table_shared.specs.Kept.{IsKept};
ghost use Rattle.table_shared.specs.Views.{IsChunk, IsTold, IsView, first_net};

use crate::desk::Desk;
use crate::law::{TableCursor, TableMaker, TablePass};
use crate::view::View;
use attrs::{Chunk, Row, Select, Seq};
use bits_ip::{OutOfMemory, Prefix};
use rib::Rib;

impl Desk {
    /// The selected rows at the head, which the pass loads.
    pub(crate) fn snapshot(
        &mut self,
        pass: &mut TablePass,
        pick: &Select,
    ) -> Result<View, OutOfMemory>
        requires kept { IsKept (journal pass.old) self.old }
        ensures kept { IsKept (journal pass.old) self.new }
        ensures here { journal pass.new ≡ journal pass.old }
        ensures view { IfOk result (IsView pick.now pass.old.1 pass.new.1) }
        ensures refused { OnErr result (pass.new ≡ pass.old) }
        ensures least { (known pass.old.1 ≤ known pass.new.1)
            × (head_of pass.old.1 ≤ head_of pass.new.1) }
        ensures prefix { IsPrefix (front pass.old.1) (front pass.new.1) }
    {
        let rows = self.rib.select(pick)?;
        let total = self.rib.total();
        let at = self.writer.tell_pass(pass);
        Ok(View {
            at,
            total,
            rows: Seq::from_vec(rows),
        })
    }

    /// The first rows from a net on, as they stand at the head, which the cursor loads.
    pub(crate) fn feed(
        &mut self,
        cursor: &mut TableCursor,
        from: Option<&Prefix>,
        max: u32,
    ) -> Result<Chunk, OutOfMemory>
        requires kept { IsKept (journal cursor.old.0) self.old }
        requires some { 1 ≤ max }
        ensures kept { IsKept (journal cursor.old.0) self.new }
        ensures here { (journal cursor.new.0 ≡ journal cursor.old.0)
            × (cursor.new.0.1.role ≡ cursor.old.0.1.role)
            × (cursor.new.1 ≡ cursor.old.1) }
        ensures chunk { IfOk result
            (IsChunk (option_copied from.entry) max cursor.old.0.1 cursor.new.0.1) }
        ensures refused { OnErr result (cursor.new ≡ cursor.old) }
        ensures least { known cursor.old.0.1 ≤ known cursor.new.0.1 }
        ensures prefix { IsPrefix (front cursor.old.0.1) (front cursor.new.0.1) }
    {
        let rows = self.rib.next_nets(from, max)?;
        let upto = net_behind(&self.rib, from, rows.as_slice(), max)?;
        let at = self.writer.tell_cursor(cursor);
        Ok(Chunk {
            at,
            from: copy_net(from),
            upto,
            rows: Seq::from_vec(rows),
            more: upto.is_some(),
        })
    }
}

impl Desk {
    /// Starts the cursor, and the maker has then seen as much. Answers the head.
    pub(crate) fn start(&mut self, cursor: &mut TableCursor, maker: &mut TableMaker) -> u64
        requires kept { IsKept (journal cursor.old.0) self.old }
        requires here { journal maker.old ≡ journal cursor.old.0 }
        requires closed { cursor.old.1 ≡ false }
        ensures kept { IsKept (journal cursor.old.0) self.new }
        ensures here { (journal cursor.new.0 ≡ journal cursor.old.0)
            × (number_of cursor.new.0.1.role ≡ number_of cursor.old.0.1.role)
            × (journal maker.new ≡ journal maker.old)
            × (number_of maker.new.1.role ≡ number_of maker.old.1.role) }
        ensures told { IsTold result cursor.old.0.1 cursor.new.0.1 }
        ensures started { (position_of cursor.new.0.1.role ≡ result) × (cursor.new.1 ≡ true) }
        ensures both { (front maker.new.1 ≡ front cursor.new.0.1)
            × (result ≡ head_of maker.new.1) }
        ensures receipts { own maker.new.1 ≡ own maker.old.1 }
        ensures least { (known cursor.old.0.1 ≤ result) × (known maker.old.1 ≤ result)
            × (head_of maker.old.1 ≤ result) }
        ensures prefix { IsPrefix (front cursor.old.0.1) (front cursor.new.0.1)
            × IsPrefix (front maker.old.1) (front maker.new.1) }
    {
        let head = self.writer.start_cursor(cursor);
        self.writer.tell_maker(maker);
        head
    }
}

/// The net behind the first rows from a net on, where there is one.
fn net_behind(
    rib: &Rib,
    from: Option<&Prefix>,
    rows: &[Row],
    max: u32,
) -> Result<Option<Prefix>, OutOfMemory>
    requires some { 1 ≤ max }
    requires rows { rows.now ≡ take max (rows_from (option_copied from) rib.now.rows) }
    requires are_rows { AreRows rib.now.rows }
    ensures { IfOk result
        (λ net. net ≡ first_net (drop max (rows_from (option_copied from.entry) rib.now.rows))) }
{
    match rows.get(max as usize - 1) {
        Some(row) => net_after(rib, &row.net),
        None => Ok(None),
    }
}

/// The net of the second row from a net on, which is that behind the net's own.
fn net_after(rib: &Rib, net: &Prefix) -> Result<Option<Prefix>, OutOfMemory>
    ensures { IfOk result
        (λ after. after ≡ first_net (drop 1 (rows_from (Some net.now) rib.now.rows))) }
{
    let rows = rib.next_nets(Some(net), 2)?;
    Ok(second_net(rows.as_slice()))
}

fn second_net(rows: &[Row]) -> Option<Prefix>
    ensures { result ≡ first_net (drop 1 rows.now) }
{
    match rows {
        [_, row, ..] => Some(row.net),
        _ => None,
    }
}

fn copy_net(net: Option<&Prefix>) -> Option<Prefix>
    ensures { result ≡ option_copied net.entry }
{
    match net {
        Some(net) => Some(*net),
        None => None,
    }
}
