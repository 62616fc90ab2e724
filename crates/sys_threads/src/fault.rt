//! Why a phase wasn't run to its end.
ghost use Rattle.std.specs.Prelude.{◌≡◌};
ghost use Rattle.sys_threads.specs.declared.fault.RunFault.TheVariants.{Memory};

use bits_ip::OutOfMemory;
use import_lock::OpFault;
use thiserror::Error;

/// Why a phase wasn't run to its end. The runner is gone then.
#[derive(Clone, Copy, Debug, PartialEq, Eq, Drop, Error)]
pub enum RunFault {
    /// The head of a table is the last position that there is.
    #[error("no position is left behind {head}")]
    Ended { head: u64 },
    /// Memory was wanted and not given.
    #[error("out of memory")]
    Memory,
}

impl From<OutOfMemory> for RunFault {
    ghost from_gives = { λ _ fault. fault ≡ Memory };

    fn from(_: OutOfMemory) -> Self {
        RunFault::Memory
    }
}

impl From<OpFault> for RunFault {
    ghost use Rattle.sys_threads.specs.Faults.{fault_of};

    ghost from_gives = { λ op fault. fault ≡ fault_of op };

    fn from(op: OpFault) -> Self {
        match op {
            OpFault::Ended { head } => RunFault::Ended { head },
            OpFault::Memory => RunFault::Memory,
        }
    }
}
