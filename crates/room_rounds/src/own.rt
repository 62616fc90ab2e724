//! A protocol with routes of its own goes on.
ghost use Rattle.std.specs.Prelude.{◌≡◌, false, IfOk};
ghost use Rattle.jour.specs.Seats.{journal};
ghost use Rattle.export_lock.specs.Kept.{GoesOn, IsOfKind};
ghost use Rattle.phase_close.specs.Closed.{AreLater, IsLater, SessionTerms};
ghost use Rattle.phase_close.specs.Whole.{IsOver};
ghost use Rattle.room_rounds.specs.Inside.{IsReader};

use crate::passing::pass_closed;
use attrs::Judge;
use bits_ip::OutOfMemory;
use channel_turns::settle;
use export_lock::ExportState;
use phase_close::SessionLeft;
use std::alloc::Global;
use std::sync::Wait;
use table_shared::Table;

/// Has a channel do turns until there is nothing to do. The cursor of one that is down moves past
/// the entries that there are.
fn settle_state<R: Wait, J: Judge + Drop>(
    alloc: Global,
    rt: &R,
    table: &Table,
    mut state: ExportState<J>,
) -> Result<ExportState<J>, OutOfMemory>
    requires kind { IsOfKind J.verdict false state }
    requires here { journal state.cursor.0 ≡ table.now }
    ensures { IfOk result (λ new. GoesOn J.verdict state new × (new.marks ≡ state.marks)) }
{
    settle(alloc, rt, table, &mut state)?;
    pass_closed(&mut state);
    Ok(state)
}

/// The same of a protocol's channel, where there is one.
fn settle_channel<R: Wait, J: Judge + Drop>(
    alloc: Global,
    rt: &R,
    table: &Table,
    channel: Option<ExportState<J>>,
) -> Result<Option<ExportState<J>>, OutOfMemory>
    requires { IsReader J.verdict table.now channel }
    ensures { IfOk result (AreLater J.verdict channel) }
{
    match channel {
        Some(state) => {
            let state = settle_state(alloc, rt, table, state)?;
            Ok(Some(state))
        }
        None => Ok(None),
    }
}

/// The same of the channel of a protocol whose table is among these.
pub(crate) fn settle_session<R: Wait, J: Judge + Drop>(
    alloc: Global,
    rt: &R,
    tables: &Vec<Table>,
    session: SessionLeft<J>,
) -> Result<SessionLeft<J>, OutOfMemory>
    requires { (key : SessionTerms) × IsOver J.verdict tables.now.items key session }
    ensures { IfOk result (IsLater J.verdict session) }
{
    let place = session.table as usize;
    let SessionLeft {
        table,
        importer,
        ops,
        port,
        channel,
    } = session;
    let channel = settle_channel(alloc, rt, &tables[place], channel)?;
    Ok(SessionLeft {
        table,
        importer,
        ops,
        port,
        channel,
    })
}
