//! What the protocols of a configuration give.
ghost use Rattle.std.specs.Prelude.{◌≡◌, ◌≤◌, IfOk, length, map, option_map};
ghost use Rattle.sys_build.specs.Setups as setups;
ghost use Rattle.sys_build.specs.Setups.{action_of, bgp_of, body_of, fixed_of, limit_of, pipe_of, protocol_of, protocols_from, static_of};
ghost use Rattle.sys_run.specs.Parts.{body_seen, pipe_seen, protocol_seen, source_seen};
ghost use Rattle.conf_system.specs.Coded.{BodyCanRun, ChannelCanRun, HasCode, PolicyCanRun, ProtocolCanRun};
ghost use Rattle.conf_system.specs.Seen as seen;
ghost use Rattle.conf_system.specs.Seen.{bgp_seen, policy_says, static_seen, system_of};

use crate::tables::copied;
use attrs::{Judge, Seq, Src};
use bits_ip::OutOfMemory;
use conf_ast::configurations::Action as Written;
use conf_check::{
    BgpDef, ImportLimit, PipeDef, PolicyDef, ProtocolBody, ProtocolDef, StaticDef, StaticRoute,
};
use conf_system::{Code, Passes, System};
use export_core::ExportSpec;
use import_core::{Action, Fixed, ImportSpec, Limit};
use protos::{bgp_spec, static_spec};
use std::alloc::Global;
use sys_run::{BodyParts, ExportParts, PipeParts, ProtocolParts, SourceParts};

/// The protocols, by their numbers.
pub(crate) fn protocols<'a>(
    alloc: Global,
    system: &'a System,
    code: &'a Code<'a>,
) -> Result<Vec<ProtocolParts<Passes<'a>>>, OutOfMemory>
    requires code { HasCode system.now code.now }
    requires few { length (system_of system.now).protocols ≤ 256 }
    ensures { IfOk result (λ parts. map (protocol_seen ⟦<Passes<'a> as Judge>⟧.verdict) parts.items
        ≡ protocols_from 0 (system_of system.now).protocols) }
{
    let mut parts = Vec::new(alloc);
    for (number, def) in system.checked.protocols.iter().enumerate() {
        parts.push(protocol(alloc, system, code, number as u32, def)?)?;
    }
    Ok(parts)
}

/// The protocol of this number.
fn protocol<'a>(
    alloc: Global,
    system: &'a System,
    code: &'a Code<'a>,
    number: u32,
    def: &'a ProtocolDef,
) -> Result<ProtocolParts<Passes<'a>>, OutOfMemory>
    requires code { HasCode system.now code.now }
    requires before { ProtocolCanRun system.now def.now }
    ensures { IfOk result (λ parts. protocol_seen ⟦<Passes<'a> as Judge>⟧.verdict parts
        ≡ protocol_of number
        (seen.protocol_seen system.now.checked.declared.scope system.now.checked.filters.items
        system.now.names def.now)) }
{
    let name = copied(alloc, def.name.as_slice())?;
    let body = body_parts(alloc, system, code, number, &def.body)?;
    Ok(ProtocolParts { name, body })
}

/// What the protocol of this number does.
fn body_parts<'a>(
    alloc: Global,
    system: &'a System,
    code: &'a Code<'a>,
    number: u32,
    def: &'a ProtocolBody,
) -> Result<BodyParts<Passes<'a>>, OutOfMemory>
    requires code { HasCode system.now code.now }
    requires before { BodyCanRun system.now def.now }
    ensures { IfOk result (λ parts. body_seen ⟦<Passes<'a> as Judge>⟧.verdict parts
        ≡ body_of number
        (seen.body_seen system.now.checked.declared.scope system.now.checked.filters.items
        system.now.names def.now)) }
{
    match def {
        ProtocolBody::Static(p) => {
            Ok(BodyParts::Source(static_source(alloc, system, code, number, p)?))
        }
        ProtocolBody::Bgp(p) => Ok(BodyParts::Source(bgp_source(alloc, system, code, number, p)?)),
        ProtocolBody::Pipe(p) => Ok(BodyParts::Pipe(pipe(alloc, system, code, p)?)),
    }
}

/// A policy of the configuration, as a filter.
fn passes<'a>(
    alloc: Global,
    system: &'a System,
    code: &'a Code<'a>,
    policy: &'a PolicyDef,
) -> Result<Passes<'a>, OutOfMemory>
    requires code { HasCode system.now code.now }
    requires before { PolicyCanRun system.now policy.now }
    ensures { IfOk result (λ passes. ⟦<Passes<'a> as Judge>⟧.verdict passes
        ≡ policy_says system.now.checked.declared.scope system.now.checked.filters.items
        system.now.names policy.now) }
{
    system.passes(alloc, code, policy)
}

// ---- static protocols

fn static_source<'a>(
    alloc: Global,
    system: &'a System,
    code: &'a Code<'a>,
    number: u32,
    def: &'a StaticDef,
) -> Result<SourceParts<Passes<'a>>, OutOfMemory>
    requires code { HasCode system.now code.now }
    requires before { ChannelCanRun system.now def.now.channel }
    ensures { IfOk result (λ parts. source_seen ⟦<Passes<'a> as Judge>⟧.verdict parts
        ≡ static_of number
        (static_seen system.now.checked.declared.scope system.now.checked.filters.items
        system.now.names def.now)) }
{
    let judge = passes(alloc, system, code, &def.channel.import)?;
    Ok(SourceParts {
        table: def.channel.table,
        spec: static_imports(alloc, number, def)?,
        judge,
        exports: None,
    })
}

/// What holds for the imports of a static protocol.
fn static_imports(alloc: Global, number: u32, def: &StaticDef) -> Result<ImportSpec, OutOfMemory>
    ensures { IfOk result (λ spec. spec ≡ setups.static_imports number def.now.channel.preference
        def.now.channel.limit def.now.routes) }
{
    let src = Src {
        num: number,
        def_med: 0,
        def_lp: 0,
    };
    let routes = fixed(alloc, def.routes.as_slice())?;
    let limits = limit(&def.channel.limit);
    Ok(static_spec(src, def.channel.preference, limits, routes))
}

/// The routes, in their order.
fn fixed(alloc: Global, routes: &[StaticRoute]) -> Result<Vec<Fixed>, OutOfMemory>
    ensures { IfOk result (λ fixed. fixed.items ≡ map fixed_of routes.now) }
{
    let mut fixed = Vec::new(alloc);
    for route in routes {
        fixed.push(fixed_of(route))?;
    }
    Ok(fixed)
}

fn fixed_of(route: &StaticRoute) -> Fixed
    ensures { result ≡ fixed_of route.now }
{
    Fixed {
        net: route.net,
        dest: route.dest,
        gw: route.gateway,
    }
}

// ---- protocols of BGP

fn bgp_source<'a>(
    alloc: Global,
    system: &'a System,
    code: &'a Code<'a>,
    number: u32,
    def: &'a BgpDef,
) -> Result<SourceParts<Passes<'a>>, OutOfMemory>
    requires code { HasCode system.now code.now }
    requires before { ChannelCanRun system.now def.now.channel }
    ensures { IfOk result (λ parts. source_seen ⟦<Passes<'a> as Judge>⟧.verdict parts
        ≡ bgp_of number
        (bgp_seen system.now.checked.declared.scope system.now.checked.filters.items
        system.now.names def.now)) }
{
    let import = passes(alloc, system, code, &def.channel.import)?;
    let export = passes(alloc, system, code, &def.channel.export)?;
    Ok(SourceParts {
        table: def.channel.table,
        spec: bgp_imports(alloc, number, def),
        judge: import,
        exports: Some(ExportParts {
            spec: gate(alloc, number, def),
            judge: export,
        }),
    })
}

/// Whether the neighbour is in another autonomous system.
fn is_external(def: &BgpDef) -> bool
    ensures { result ≡ setups.is_external def.now.local def.now.remote }
{
    def.local != def.remote
}

/// What holds for the imports of a protocol of BGP.
fn bgp_imports(alloc: Global, number: u32, def: &BgpDef) -> ImportSpec
    ensures { result ≡ setups.bgp_imports number def.now.default_med def.now.default_local_pref
        def.now.neighbor (setups.is_external def.now.local def.now.remote)
        def.now.channel.preference def.now.channel.limit }
{
    let src = Src {
        num: number,
        def_med: def.default_med,
        def_lp: def.default_local_pref,
    };
    bgp_spec(
        alloc,
        src,
        def.neighbor,
        is_external(def),
        def.channel.preference,
        limit(&def.channel.limit),
    )
}

/// The gate of a channel to the neighbour.
fn gate(alloc: Global, number: u32, def: &BgpDef) -> ExportSpec
    ensures { result ≡ setups.gate_of number def.now.channel.family
        (setups.is_external def.now.local def.now.remote) def.now.interpret_communities }
{
    ExportSpec {
        family: def.channel.family,
        own: number,
        to_ebgp: is_external(def),
        interpret: def.interpret_communities,
        every: false,
        sources: Seq::new(alloc),
    }
}

// ---- pipes

fn pipe<'a>(
    alloc: Global,
    system: &'a System,
    code: &'a Code<'a>,
    def: &'a PipeDef,
) -> Result<PipeParts<Passes<'a>>, OutOfMemory>
    requires code { HasCode system.now code.now }
    requires import { PolicyCanRun system.now def.now.import }
    requires export { PolicyCanRun system.now def.now.export }
    ensures { IfOk result (λ parts. pipe_seen ⟦<Passes<'a> as Judge>⟧.verdict parts
        ≡ pipe_of
        (seen.pipe_seen system.now.checked.declared.scope system.now.checked.filters.items
        system.now.names def.now)) }
{
    let export = passes(alloc, system, code, &def.export)?;
    let import = passes(alloc, system, code, &def.import)?;
    Ok(PipeParts {
        primary: def.table,
        peer: def.peer,
        export,
        import,
    })
}

// ---- limits

fn limit(limit: &Option<ImportLimit>) -> Option<Limit>
    ensures { result ≡ option_map limit_of limit.now }
{
    match limit {
        Some(limit) => Some(Limit {
            count: limit.count,
            action: action_of(&limit.action),
        }),
        None => None,
    }
}

fn action_of(action: &Written) -> Action
    ensures { result ≡ action_of action.now }
{
    match action {
        Written::Warn => Action::Warn,
        Written::Block => Action::Block,
        Written::Disable => Action::Disable,
    }
}
