//! How many items of each channel's log were reported.
ghost use Rattle.std.specs.Prelude.{◌≡◌, IfOk, replicate};

use bits_ip::OutOfMemory;
use std::alloc::Global;

/// None yet, of so many channels.
pub(crate) fn none_logged(alloc: Global, channels: u32) -> Result<Vec<usize>, OutOfMemory>
    ensures { IfOk result (λ logged. logged.items ≡ replicate channels 0) }
{
    let logged = vec![in alloc; 0usize; channels as usize]?;
    Ok(logged)
}
