//! The names of protocols.
ghost use Rattle.std.specs.Prelude.{◌≡◌, IfOk, map};
ghost use Rattle.sys_run.specs.declared.parts.ProtocolParts.{ProtocolParts as HeldParts};

use attrs::{Judge, Seq};
use bits_ip::OutOfMemory;
use std::alloc::Global;
use sys_run::ProtocolParts;

pub(crate) fn copy_names<J: Judge>(
    alloc: Global,
    protocols: &[ProtocolParts<J>],
) -> Result<Vec<Seq<u8>>, OutOfMemory>
    ensures { IfOk result (λ names.
        names.items ≡ map (λ (p : HeldParts J). p.name) protocols.now) }
{
    let mut names = Vec::with_capacity(alloc, protocols.len())?;
    for protocol in protocols {
        names.push(copy_name(alloc, &protocol.name)?)?;
    }
    Ok(names)
}

fn copy_name(alloc: Global, name: &Seq<u8>) -> Result<Seq<u8>, OutOfMemory>
    ensures { IfOk result (λ copy. copy ≡ name.now) }
{
    Ok(Seq::from_vec(Vec::from_slice(alloc, name.as_slice())?))
}
