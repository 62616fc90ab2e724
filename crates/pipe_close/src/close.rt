//! What is left of a pipe.
ghost use Rattle.std.specs.Prelude.{◌≡◌, None, IfOk};
ghost use Rattle.pipe_close.specs.Left.{IsClosing, IsPipeLeft, PipeLocks};

use crate::stamps::end_direction;
use attrs::Judge;
use export_lock::PipeLane;
use import_lock::{Hand, OpFault, OpRecord};
use phase_close::retire_hands;
use phase_pipes::ClosedPipe;
use pipe_lock::PipeState;

/// A pipe with its directions, whose turns and marks have ended.
#[derive(Drop)]
pub struct PipeLeft<J: Judge> {
    /// The number of the table that the direction out reads, and the one back writes.
    pub primary: u32,
    /// The number of the other table.
    pub peer: u32,
    pub up: bool,
    /// The operations of the phase, in their order.
    pub ops: Vec<OpRecord>,
    pub out: PipeLane<J>,
    pub back: PipeLane<J>,
}

/// The same, where no fault came.
fn end_journals<J: Judge + Drop>(
    primary: u32,
    peer: u32,
    closed: ClosedPipe<J>,
    hands: Vec<Hand>,
) -> Result<PipeLeft<J>, OpFault>
    requires none { closed.pipe.fault ≡ None }
    requires closing { (key : PipeLocks) × IsClosing J.verdict key hands.items closed }
    ensures tables { IfOk result (λ left. (left.primary ≡ primary) × (left.peer ≡ peer)) }
    ensures left { IfOk result (λ left. (key : PipeLocks)
        → IsClosing J.verdict key hands.items closed
        → IsPipeLeft J.verdict key hands.items left) }
{
    let ClosedPipe { pipe, out, back } = closed;
    let PipeState {
        up,
        ops,
        mut turns,
        out: out_stamp,
        back: back_stamp,
        ..
    } = pipe;
    retire_hands(&mut turns, hands);
    let out = end_direction(out, out_stamp)?;
    let back = end_direction(back, back_stamp)?;
    Ok(PipeLeft {
        primary,
        peer,
        up,
        ops,
        out,
        back,
    })
}

/// Ends a pipe's phase between the tables of these numbers, with all hands of its turns, one of
/// each actor and one for starts. Where a fault came in the phase, it comes again.
pub fn close_pipe<J: Judge + Drop>(
    primary: u32,
    peer: u32,
    closed: ClosedPipe<J>,
    hands: Vec<Hand>,
) -> Result<PipeLeft<J>, OpFault>
    requires { (key : PipeLocks) × IsClosing J.verdict key hands.items closed }
    ensures tables { IfOk result (λ left. (left.primary ≡ primary) × (left.peer ≡ peer)) }
    ensures left { IfOk result (λ left. (key : PipeLocks)
        → IsClosing J.verdict key hands.items closed
        → IsPipeLeft J.verdict key hands.items left) }
{
    match closed.pipe.fault {
        Some(fault) => Err(fault),
        None => end_journals(primary, peer, closed, hands),
    }
}
