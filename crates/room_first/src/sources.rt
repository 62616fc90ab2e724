//! The sources of what is run.
ghost use Rattle.std.specs.Prelude.{◌≡◌, ◌<◌, ◌^◌, ℕ, List, IfOk, length};
ghost use Rattle.core_setup.specs.Protocols.{src_in};
ghost use Rattle.phase_pipes.specs.Sources.{AreSourcesOf};
ghost use Rattle.show_route.specs.declared.query.Query.{Query};
ghost use Rattle.sys_run.specs.Parts.{body_seen, setup_seen};
ghost use Rattle.sys_run.specs.declared.parts.TableParts.{TableParts as HeldTable};

use attrs::{Judge, Src};
use bits_ip::OutOfMemory;
use std::alloc::Global;
use sys_run::{BodyParts, ProtocolParts};

/// The sources of protocols, by number.
pub fn sources_of<J: Judge>(
    alloc: Global,
    protocols: &[ProtocolParts<J>],
) -> Result<Vec<Src>, OutOfMemory>
    requires { length protocols.now < 2 ^ 32 }
    ensures { IfOk result (λ sources. (tables : List HeldTable) (cells : ℕ) (choices : List J)
        (queries : List Query)
        → AreSourcesOf (setup_seen J.verdict tables protocols.now cells choices queries)
        sources.items) }
{
    let mut sources = Vec::with_capacity(alloc, protocols.len())?;
    let mut number: u32 = 0;
    for protocol in protocols {
        sources.push(source_of(number, &protocol.body))?;
        number += 1;
    }
    Ok(sources)
}

/// The source of a protocol of this number.
fn source_of<J: Judge>(number: u32, body: &BodyParts<J>) -> Src
    ensures { result ≡ src_in number (body_seen J.verdict body.now) }
{
    match body {
        BodyParts::Source(source) => source.spec.src,
        BodyParts::Pipe(_) => Src {
            num: number,
            def_med: 0,
            def_lp: 0,
        },
    }
}
