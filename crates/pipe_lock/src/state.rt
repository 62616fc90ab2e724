//! The value of a pipe's import lock.
use import_lock::{OpFault, OpRecord, Stamp, Turns};

/// What lies under the import lock of a pipe.
#[derive(Drop)]
pub struct PipeState {
    pub up: bool,
    /// The operations of the phase, in their order.
    pub ops: Vec<OpRecord>,
    pub turns: Turns,
    /// The stamp of the direction that reads the primary table.
    pub out: Stamp,
    /// The stamp of the direction back.
    pub back: Stamp,
    /// What the last turn answered, where that was a fault.
    pub fault: Option<OpFault>,
}
