//! What a pipe has come to once its tables are closed too.
ghost use Rattle.std.specs.Prelude.{◌≡◌};
ghost use Rattle.phase_close.specs.Closed.{all_lists};
ghost use Rattle.pipe_close.specs.Ended.{CanEnd, EndsPipe};

use crate::close::PipeLeft;
use crate::seats::end_lane;
use attrs::Judge;
use export_core::Exporter;
use import_lock::OpRecord;
use table_shared::Closing;

/// A pipe and the exporters of its directions, as the phase leaves them.
#[derive(Drop)]
pub struct PipeEnded<J: Judge> {
    /// The number of the table that the direction out reads, and the one back writes.
    pub primary: u32,
    /// The number of the other table.
    pub peer: u32,
    pub up: bool,
    /// The operations of the phase, in their order.
    pub ops: Vec<OpRecord>,
    pub out: Exporter<J>,
    pub back: Exporter<J>,
}

/// Ends the cursors and ports of both directions of a pipe in its tables, which are among these by
/// number.
pub fn end_pipe<J: Judge + Drop>(closings: &mut Vec<Closing>, left: PipeLeft<J>) -> PipeEnded<J>
    requires { CanEnd J.verdict (all_lists closings.old.items) left }
    ensures same { all_lists closings.new.items ≡ all_lists closings.old.items }
    ensures ended { EndsPipe J.verdict (all_lists closings.old.items) left result }
{
    let PipeLeft {
        primary,
        peer,
        up,
        ops,
        out,
        back,
    } = left;
    let out = end_lane(closings, primary, peer, out);
    let back = end_lane(closings, peer, primary, back);
    PipeEnded {
        primary,
        peer,
        up,
        ops,
        out,
        back,
    }
}
