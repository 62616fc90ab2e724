//! The seats of a session in its table end.
ghost use Rattle.std.specs.Prelude.{◌≡◌, IfSome};
ghost use Rattle.jour.specs.Seats.{front, journal};
ghost use Rattle.table_shared.specs.Phases.{IsHeard, IsRetired as IsPortRetired};
ghost use Rattle.phase_room.specs.Sessions.{IsChannelOf};
ghost use Rattle.phase_close.specs.Closed.{AreHeard, EndsOver, IsEnding, IsSessionEnded, SessionTerms, all_lists};
ghost use Rattle.phase_close.specs.Left.{IsSessionLeft};

use crate::session::SessionLeft;
use attrs::Judge;
use export_core::Exporter;
use export_lock::ExportState;
use import_core::Importer;
use import_lock::OpRecord;
use table_shared::Closing;

/// A protocol with routes of its own, and its channel's exporter, as the phase leaves them.
#[derive(Drop)]
pub struct SessionEnded<J: Judge> {
    /// The number of the table to which it imports.
    pub table: u32,
    pub importer: Importer<J>,
    /// The operations of the phase, in their order.
    pub ops: Vec<OpRecord>,
    /// The exporter of its channel, which a static protocol hasn't got.
    pub exporter: Option<Exporter<J>>,
}

/// Ends the cursor of a channel.
fn end_cursor<J: Judge + Drop>(closing: &mut Closing, state: ExportState<J>) -> Exporter<J>
    requires { journal state.cursor.0 ≡ journal closing.old }
    ensures same { (journal closing.new ≡ journal closing.old)
        × (front closing.new.1 ≡ front closing.old.1) }
    ensures heard { IsHeard closing.old.1.seen.terms (front closing.old.1) state.cursor.0.1 }
    ensures exporter { result ≡ state.exporter }
{
    let ExportState {
        exporter,
        mut cursor,
        ..
    } = state;
    closing.hear_cursor(&mut cursor);
    exporter
}

/// Ends the cursor of a channel, where there is one.
fn end_channel_seat<J: Judge + Drop>(
    closing: &mut Closing,
    channel: Option<ExportState<J>>,
) -> Option<Exporter<J>>
    requires { IfSome channel (λ state. journal state.cursor.0 ≡ journal closing.old) }
    ensures same { (journal closing.new ≡ journal closing.old)
        × (front closing.new.1 ≡ front closing.old.1) }
    ensures heard { AreHeard closing.old.1.seen.terms (front closing.old.1) channel result }
{
    match channel {
        Some(state) => Some(end_cursor(closing, state)),
        None => None,
    }
}

/// Ends the port of a session, and its channel's cursor, in their table.
pub(crate) fn end_seats<J: Judge + Drop>(
    closing: &mut Closing,
    session: SessionLeft<J>,
) -> SessionEnded<J>
    requires { (key : SessionTerms)
        × IsSessionLeft J.verdict key.protocol key.channel key.hands session
        × IsChannelOf key.protocol key.channel × (key.protocol.port ≡ journal closing.old) }
    ensures same { (journal closing.new ≡ journal closing.old)
        × (front closing.new.1 ≡ front closing.old.1) }
    ensures table { result.table ≡ session.table }
    ensures heard { AreHeard closing.old.1.seen.terms (front closing.old.1) session.channel
        result.exporter }
    ensures retired { IsPortRetired closing.old.1.seen.terms (front closing.old.1) session.port }
    ensures ended { (key : SessionTerms)
        → IsSessionLeft J.verdict key.protocol key.channel key.hands session
        → IsChannelOf key.protocol key.channel → key.protocol.port ≡ journal closing.old
        → IsSessionEnded J.verdict key (front closing.old.1) result }
{
    let SessionLeft {
        table,
        importer,
        ops,
        port,
        channel,
    } = session;
    let exporter = end_channel_seat(closing, channel);
    closing.retire(port);
    SessionEnded {
        table,
        importer,
        ops,
        exporter,
    }
}

/// Ends the port of a session, and its channel's cursor, in their table, which is among these at
/// its number.
pub fn end_session_at<J: Judge + Drop>(
    closings: &mut Vec<Closing>,
    session: SessionLeft<J>,
) -> SessionEnded<J>
    requires { (key : SessionTerms)
        × IsEnding J.verdict (all_lists closings.old.items) key session }
    ensures same { all_lists closings.new.items ≡ all_lists closings.old.items }
    ensures ended { EndsOver J.verdict (all_lists closings.old.items) session result }
{
    let place = session.table as usize;
    end_seats(&mut closings[place], session)
}
