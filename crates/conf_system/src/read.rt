ghost use Rattle.std.specs.Prelude.{◌<◌, ◌-◌, ◌^◌, length, IfOk, IfErr};
ghost use Rattle.conf_system.specs.Coded.{AllCanRun};
ghost use Rattle.conf_system.specs.Seen.{IsTold, system_of};
ghost use Rattle.conf_system.specs.Texts.{IsFault, IsSystem};

use crate::filter_laws::{
    accepted_filters_are_never_stuck, what_runs_agrees_with_what_is_declared,
};
use crate::system::{System, names};
use conf_check::check_config;
use conf_tree::{ConfFault, ConfKind, place, read_config};
use std::alloc::Global;
use thiserror::Error;

/// Why a text gives no system.
#[derive(Clone, Copy, Debug, PartialEq, Eq, Drop, Error)]
pub enum SystemFault {
    /// The configuration is refused at this place.
    #[error("{line}:{column} {kind}")]
    Refused {
        line: u32,
        column: u32,
        kind: ConfKind,
    },
    #[error("out of memory")]
    Memory,
}

/// The fault at its line and column. A refusal past the text's end would stand at the end.
fn refused(text: &[u8], fault: ConfFault) -> SystemFault
    requires { length text.now < 2 ^ 32 - 1 }
    ensures { IsTold text.now fault result }
{
    match fault {
        ConfFault::Refused { at, kind } => {
            let (line, column) = place(text, at.min(text.len()));
            SystemFault::Refused { line, column, kind }
        }
        ConfFault::Memory => SystemFault::Memory,
    }
}

/// What a configuration comes to.
///
/// A text is refused first for want of a token, then by the grammar, then where it is checked.
pub fn read_system(alloc: Global, text: &[u8]) -> Result<System, SystemFault>
    requires { length text.now < 2 ^ 32 - 1 }
    ensures system { IfOk result (λ system. IsSystem text.now (system_of system)) }
    ensures ordered { IfOk result AllCanRun }
    ensures fault { IfErr result (IsFault text.now) }
{
    let tree = match read_config(alloc, text) {
        Ok(tree) => tree,
        Err(fault) => return Err(refused(text, fault)),
    };
    let checked = match check_config(alloc, &tree) {
        Ok(checked) => checked,
        Err(fault) => return Err(refused(text, fault)),
    };
    what_runs_agrees_with_what_is_declared();
    accepted_filters_are_never_stuck();
    match names(alloc, &checked.protocols) {
        Ok(names) => Ok(System { checked, names }),
        Err(_) => Err(SystemFault::Memory),
    }
}
