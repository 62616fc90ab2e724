//! What a configuration's filter says of a route: the policy of its own that its first protocol
//! has, or else the last filter by name.
ghost use Rattle.std.specs.Prelude.{◌<◌, length};
ghost use Rattle.conf_system.specs.Coded.{AllCanRun, HasCode, PolicyCanRun, ProtocolCanRun};
ghost use Rattle.conf_system.specs.Seen.{system_of};

use crate::policies::first;
use attrs::{Judge, Route, Verdict};
use bits_ip::{OutOfMemory, Prefix};
use conf_check::{PolicyDef, ProtocolBody, ProtocolDef};
use conf_system::{Code, System};
use std::alloc::Global;

fn by_policy(
    alloc: Global,
    system: &System,
    code: &Code,
    policy: &PolicyDef,
    net: &Prefix,
    route: &Route,
) -> Result<Verdict, OutOfMemory>
    requires code { HasCode system.now code.now }
    requires before { PolicyCanRun system.now policy.now }
{
    let passes = system.passes(alloc, code, policy)?;
    passes.judge(net, route)
}

/// By the export's policy where that is a filter of its own, and else by the import's.
fn by_either(
    alloc: Global,
    system: &System,
    code: &Code,
    import: &PolicyDef,
    export: &PolicyDef,
    net: &Prefix,
    route: &Route,
) -> Result<Verdict, OutOfMemory>
    requires code { HasCode system.now code.now }
    requires import { PolicyCanRun system.now import.now }
    requires export { PolicyCanRun system.now export.now }
{
    if is_own(export) {
        by_policy(alloc, system, code, export, net, route)
    } else {
        by_policy(alloc, system, code, import, net, route)
    }
}

fn is_own(policy: &PolicyDef) -> bool {
    match policy {
        PolicyDef::Own(_) => true,
        PolicyDef::All | PolicyDef::None | PolicyDef::Filter(_) => false,
    }
}

fn by_protocol(
    alloc: Global,
    system: &System,
    code: &Code,
    protocol: &ProtocolDef,
    net: &Prefix,
    route: &Route,
) -> Result<Verdict, OutOfMemory>
    requires code { HasCode system.now code.now }
    requires before { ProtocolCanRun system.now protocol.now }
{
    match &protocol.body {
        ProtocolBody::Static(def) => by_either(
            alloc,
            system,
            code,
            &def.channel.import,
            &def.channel.export,
            net,
            route,
        ),
        ProtocolBody::Bgp(def) => by_either(
            alloc,
            system,
            code,
            &def.channel.import,
            &def.channel.export,
            net,
            route,
        ),
        ProtocolBody::Pipe(def) => {
            by_either(alloc, system, code, &def.import, &def.export, net, route)
        }
    }
}

fn by_number(
    alloc: Global,
    system: &System,
    code: &Code,
    number: usize,
    net: &Prefix,
    route: &Route,
) -> Result<Verdict, OutOfMemory>
    requires code { HasCode system.now code.now }
    requires number { number < length (system_of system.now).filters }
{
    let passes = system.numbered(alloc, code, number);
    passes.judge(net, route)
}

/// The verdict, and none where there is neither a protocol nor a filter.
pub fn verdict(
    alloc: Global,
    system: &System,
    code: &Code,
    net: &Prefix,
    route: &Route,
) -> Result<Option<Verdict>, OutOfMemory>
    requires ordered { AllCanRun system.now }
    requires code { HasCode system.now code.now }
{
    if let Some(protocol) = first(system) {
        return Ok(Some(by_protocol(alloc, system, code, protocol, net, route)?));
    }
    let filters = system.filter_count();
    if filters == 0 {
        return Ok(None);
    }
    Ok(Some(by_number(alloc, system, code, filters - 1, net, route)?))
}
