//! What a neighbour does.
ghost use Rattle.std.specs.Prelude.{◌≡◌, IfOk};

use attrs::{Clist, Origin, Path};
use bits_ip::{Addr, OutOfMemory, Prefix};

/// What an announcement says of a route.
#[derive(Debug, Drop)]
pub struct Given {
    /// The gateway, which is the next hop too.
    pub gw: Addr,
    pub path: Path,
    pub origin: Origin,
    /// The multi-exit discriminator.
    pub med: Option<u32>,
    /// The local preference.
    pub lp: Option<u32>,
    /// The internal distance.
    pub igp: Option<u32>,
    pub coms: Clist,
}

impl Given {
    /// A copy, equal to the original.
    pub fn copy(&self) -> Result<Given, OutOfMemory>
        ensures { IfOk result (λ copy. copy ≡ self.now) }
    {
        let path = self.path.copy()?;
        let coms = self.coms.copy()?;
        Ok(Given {
            gw: self.gw,
            path,
            origin: self.origin,
            med: self.med,
            lp: self.lp,
            igp: self.igp,
            coms,
        })
    }
}

/// An operation on a protocol's imports.
#[derive(Debug, Drop)]
pub enum Op {
    /// A static protocol comes up with its configured routes.
    Start,
    /// The session comes up with a neighbour of this router id.
    SessionUp(u32),
    /// The neighbour announces a route of this net.
    Add(Prefix, Given),
    /// The neighbour withdraws its route of this net.
    Del(Prefix),
    /// The session goes down.
    SessionDown,
    /// The protocol is switched off by hand.
    Disable,
    /// It is switched on by hand.
    Enable,
    /// Its imports are filtered anew.
    ReloadIn,
    /// Its exports are sent anew.
    ReloadOut,
    /// Both.
    Reload,
}

impl Op {
    /// A copy, equal to the original. Memory is taken for an announcement's lists alone.
    pub fn copy(&self) -> Result<Op, OutOfMemory>
        ensures { IfOk result (λ copy. copy ≡ self.now) }
    {
        match self {
            Op::Start => Ok(Op::Start),
            Op::SessionUp(id) => Ok(Op::SessionUp(*id)),
            Op::Add(net, given) => Ok(Op::Add(*net, given.copy()?)),
            Op::Del(net) => Ok(Op::Del(*net)),
            Op::SessionDown => Ok(Op::SessionDown),
            Op::Disable => Ok(Op::Disable),
            Op::Enable => Ok(Op::Enable),
            Op::ReloadIn => Ok(Op::ReloadIn),
            Op::ReloadOut => Ok(Op::ReloadOut),
            Op::Reload => Ok(Op::Reload),
        }
    }
}
