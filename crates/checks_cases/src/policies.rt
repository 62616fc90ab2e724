//! What the policies of the first protocol say of a route.
//!
//! The route comes from the protocol of number 0, as `case_routes` says.
ghost use Rattle.std.specs.Prelude.{IfSome};
ghost use Rattle.conf_system.specs.Coded.{AllCanRun, HasCode, PolicyCanRun, ProtocolCanRun};

use crate::faults::no_memory;
use attrs::{Judge, Verdict, attr_text};
use case_routes::read_route;
use conf_check::{PolicyDef, ProtocolBody, ProtocolDef};
use conf_system::{Code, System, read_system};
use std::alloc::Global;
use std::{io, str};

const LIMIT: usize = 1 << 24;

const ROUTE: &[u8] = b"203.0.113.0/24 path 65001 65002 med 1 com 65001:1";

fn verdict_text(alloc: Global, verdict: &Verdict) -> io::Result<String> {
    match verdict {
        Verdict::Accept(attrs) => {
            let mut bytes = Vec::new(alloc);
            if attr_text(alloc, attrs, &mut bytes).is_err() {
                return Ok(String::from_str(alloc, "out of memory")?);
            }
            Ok(String::from_str(alloc, str::from_utf8(&bytes).unwrap_or("?"))?)
        }
        Verdict::Reject(Some(fault)) => Ok(format!(in alloc; "{fault:?}")?),
        Verdict::Reject(None) => Ok(String::from_str(alloc, "-")?),
    }
}

fn judged(alloc: Global, system: &System, code: &Code, policy: &PolicyDef) -> io::Result<String>
    requires code { HasCode system.now code.now }
    requires before { PolicyCanRun system.now policy.now }
{
    let (net, route) = read_route(alloc, ROUTE)?;
    let passes = system.passes(alloc, code, policy).map_err(no_memory)?;
    match passes.judge(&net, &route) {
        Ok(verdict) => verdict_text(alloc, &verdict),
        Err(_) => Ok(String::from_str(alloc, "out of memory")?),
    }
}

/// The first protocol.
pub fn first(system: &System) -> Option<&ProtocolDef>
    requires { AllCanRun system.now }
    ensures { IfSome result (λ def. ProtocolCanRun system.now def.now) }
{
    system.checked.protocols.first()
}

/// What the import and the export policy say.
fn both(
    alloc: Global,
    system: &System,
    code: &Code,
    import: &PolicyDef,
    export: &PolicyDef,
) -> io::Result<String>
    requires code { HasCode system.now code.now }
    requires import { PolicyCanRun system.now import.now }
    requires export { PolicyCanRun system.now export.now }
{
    let import = judged(alloc, system, code, import)?;
    let export = judged(alloc, system, code, export)?;
    Ok(format!(in alloc; "{import} / {export}")?)
}

/// What both policies of a protocol say.
fn policies(
    alloc: Global,
    system: &System,
    code: &Code,
    protocol: &ProtocolDef,
) -> io::Result<String>
    requires code { HasCode system.now code.now }
    requires before { ProtocolCanRun system.now protocol.now }
{
    match &protocol.body {
        ProtocolBody::Static(def) => {
            both(
                alloc,
                system,
                code,
                &def.channel.import,
                &def.channel.export,
            )
        }
        ProtocolBody::Bgp(def) => {
            both(
                alloc,
                system,
                code,
                &def.channel.import,
                &def.channel.export,
            )
        }
        ProtocolBody::Pipe(def) => both(alloc, system, code, &def.import, &def.export),
    }
}

/// What both policies of the first protocol say.
fn of_first(alloc: Global, system: &System) -> io::Result<String>
    requires { AllCanRun system.now }
{
    let Some(protocol) = first(system) else {
        return Ok(String::from_str(alloc, "no protocol")?);
    };
    match system.code(alloc) {
        Ok(code) => policies(alloc, system, &code, protocol),
        Err(fault) => Err(no_memory(fault)),
    }
}

/// What both say, or why there is no such protocol.
pub fn answer(alloc: Global, text: &[u8]) -> io::Result<String> {
    if text.len() > LIMIT {
        return Ok(String::from_str(alloc, "too long")?);
    }
    match read_system(alloc, text) {
        Ok(system) => of_first(alloc, &system),
        Err(fault) => Ok(format!(in alloc; "{fault}")?),
    }
}
