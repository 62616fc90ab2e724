//! How channels come to rest.
ghost use Rattle.std.specs.Prelude.{◌≡◌, false, true, IfOk};
ghost use Rattle.export_core.specs.Calls.{IsAtRest};
ghost use Rattle.jour.specs.Seats.{journal, known};
ghost use Rattle.export_lock.specs.Feeds.{is_feeding};
ghost use Rattle.export_lock.specs.Kept.{GoesOn, IsOfKind};

use crate::turns::{Did, turn_channel};
use attrs::Judge;
use bits_ip::OutOfMemory;
use entry_memo::Memo;
use export_lock::ExportState;
use std::alloc::Global;
use std::sync::Wait;
use table_shared::Table;

/// Has a channel to a neighbour do turns until there is nothing to do: it is then down, or it has
/// read and sent all up to the head, which is answered. The head is the one that the cursor loaded
/// last, so it is the table's once nobody changes that any more. Where memory is refused, what was
/// done until then stays.
pub fn settle<R: Wait, J: Judge>(
    alloc: Global,
    rt: &R,
    table: &Table,
    state: &mut ExportState<J>,
) -> Result<u64, OutOfMemory>
    requires kind { IsOfKind J.verdict false state.old }
    requires here { journal state.old.cursor.0 ≡ table.now }
    ensures goes { GoesOn J.verdict state.old state.new }
    ensures head { IfOk result (λ head. known state.new.cursor.0.1 ≡ head) }
    ensures rests { IfOk result (λ head. state.new.cursor.1 ≡ true
        → IsAtRest state.new.exporter head) }
    ensures fed { IfOk result (λ _. is_feeding state.new ≡ false) }
    ensures marks { state.new.marks ≡ state.old.marks }
{
    let memo = Memo::none(alloc);
    for _ in rt.forever() {
        if let Did::Nothing = turn_channel(alloc, rt, &memo, table, state)? {
            return Ok(state.cursor.known());
        }
    }
    unreachable!()
}
