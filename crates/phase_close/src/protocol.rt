//! What is left of a protocol.
ghost use Rattle.std.specs.Prelude.{◌≡◌, None, IfOk};
ghost use Rattle.std.specs.List.{AllByRecursion};
ghost use Rattle.jour.specs.Seats.{journal};
ghost use Rattle.import_lock.specs.Kept.{IsImports};
ghost use Rattle.import_lock.specs.Terms.{ImportTerms};
ghost use Rattle.phase_close.specs.Left.{IsProtocolLeft};

use crate::turns::retire_hands;
use attrs::Judge;
use import_core::Importer;
use import_lock::{Hand, ImportState, OpFault, OpRecord, Stamp};
use table_shared::Port;

/// A protocol with routes of its own, whose hands have ended.
#[derive(Drop)]
pub struct ProtocolLeft<J: Judge> {
    pub importer: Importer<J>,
    /// The operations of the phase, in their order.
    pub ops: Vec<OpRecord>,
    pub port: Port,
    pub stamp: Option<Stamp>,
}

/// The same, where no fault came.
fn end_turns<J: Judge + Drop>(state: ImportState<J>, hands: Vec<Hand>) -> ProtocolLeft<J>
    requires none { state.fault ≡ None }
    requires hands { AllByRecursion (λ hand. journal hand ≡ journal state.turns) hands.items }
    ensures { (key : ImportTerms) → IsImports J.verdict key state
        → IsProtocolLeft J.verdict key hands.items result }
{
    let ImportState {
        importer,
        port,
        ops,
        mut turns,
        stamp,
        ..
    } = state;
    retire_hands(&mut turns, hands);
    ProtocolLeft {
        importer,
        ops,
        port,
        stamp,
    }
}

/// Ends a protocol's phase, with all of its hands, one of each actor and one for starts. Where a
/// fault came in the phase, it comes again.
pub fn close_protocol<J: Judge + Drop>(
    state: ImportState<J>,
    hands: Vec<Hand>,
) -> Result<ProtocolLeft<J>, OpFault>
    requires { state.fault ≡ None
        → AllByRecursion (λ hand. journal hand ≡ journal state.turns) hands.items }
    ensures { IfOk result (λ left. (key : ImportTerms) → IsImports J.verdict key state
        → IsProtocolLeft J.verdict key hands.items left) }
{
    match state.fault {
        Some(fault) => Err(fault),
        None => Ok(end_turns(state, hands)),
    }
}
