//! What is left of a protocol with its channel.
ghost use Rattle.std.specs.Prelude.{◌≡◌, List, Option, IfOk, option_map};
ghost use Rattle.std.specs.List.{AllByRecursion};
ghost use Rattle.jour.specs.Seats.{journal};
ghost use Rattle.phase_legal.specs.Shown.{HandView};
ghost use Rattle.import_lock.specs.Terms.{ImportTerms};
ghost use Rattle.export_lock.specs.Terms.{ExportTerms};
ghost use Rattle.phase_room.specs.Sessions.{IsChannelOf, channel_terms, protocol_terms};
ghost use Rattle.phase_close.specs.Left.{AreOpen, IsProtocolLeft, IsSessionLeft};

use crate::channel::end_channel;
use crate::protocol::{ProtocolLeft, close_protocol};
use attrs::Judge;
use export_lock::{ExportState, Sends};
use import_core::Importer;
use import_lock::{Hand, OpFault, OpRecord, Phase};
use phase_room::Session;
use std::sync::Wait;
use table_shared::Port;

/// A protocol with routes of its own, and its channel, whose turns and marks have ended.
#[derive(Drop)]
pub struct SessionLeft<J: Judge> {
    /// The number of the table to which it imports.
    pub table: u32,
    pub importer: Importer<J>,
    /// The operations of the phase, in their order.
    pub ops: Vec<OpRecord>,
    pub port: Port,
    /// What lay under the lock of its channel, which a static protocol hasn't got.
    pub channel: Option<ExportState<J>>,
}

/// What is left of both, once the stamp has ended too.
fn end_session<J: Judge + Drop>(
    table: u32,
    protocol: ProtocolLeft<J>,
    channel: Option<ExportState<J>>,
) -> SessionLeft<J>
    requires { (key : ImportTerms) × (lock : Option ExportTerms)
        × (option_map journal protocol.stamp ≡ key.marks)
        × IsChannelOf key lock × AreOpen J.verdict lock channel }
    ensures table { result.table ≡ table }
    ensures left { (key : ImportTerms) (lock : Option ExportTerms) (hands : List HandView)
        → IsProtocolLeft J.verdict key hands protocol → IsChannelOf key lock
        → AreOpen J.verdict lock channel → IsSessionLeft J.verdict key lock hands result }
{
    let ProtocolLeft {
        importer,
        ops,
        port,
        stamp,
    } = protocol;
    match channel {
        Some(state) => {
            let state = end_channel(stamp, state);
            SessionLeft {
                table,
                importer,
                ops,
                port,
                channel: Some(state),
            }
        }
        None => SessionLeft {
            table,
            importer,
            ops,
            port,
            channel: None,
        },
    }
}

/// Opens the locks of a session, and ends its hands, one of each actor and one for starts. Where a
/// fault came in the phase, it comes again.
pub fn close_session<R: Wait, J: Judge + Drop, P: Phase + Sends>(
    rt: &R,
    session: Session<J, P>,
    hands: Vec<Hand>,
) -> Result<SessionLeft<J>, OpFault>
    requires channel { IsChannelOf (protocol_terms P.terms session)
        (channel_terms P.exports session) }
    requires hands { AllByRecursion
        (λ hand. journal hand ≡ (protocol_terms P.terms session).turns)
        hands.items }
    ensures table { IfOk result (λ left. left.table ≡ session.table) }
    ensures left { IfOk result (λ left. IsSessionLeft J.verdict (protocol_terms P.terms session)
        (channel_terms P.exports session) hands.items left) }
{
    let table = session.table;
    let (state, channel) = session.close(rt);
    match close_protocol(state, hands) {
        Ok(protocol) => Ok(end_session(table, protocol, channel)),
        Err(fault) => Err(fault),
    }
}
