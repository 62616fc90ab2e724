//! What is made of statements, one after another.

ghost use Rattle.std.specs.Prelude.{◌≡◌, ℕ, ◌+◌, ◌++◌, ◌∷◌, ◌<◌, [], IfErr, IfOk, List, MatchResult, None, OnOk, Vec};
ghost use Rattle.std.specs.Global.{Global};
ghost use Rattle.conf_ast.specs.declared.kind.ConfFault.TheVariants as faults;
ghost use Rattle.conf_ast.specs.Configurations as conf;
ghost use Rattle.conf_ast.specs.Configurations.{bgp_setting_of, declaration_of, instance_of, pipe_setting_of, routine_of, static_setting_of, value_of};
ghost use Rattle.conf_ast.specs.Filters.{block_of};
ghost use Rattle.conf_names.specs.Known.{ArePipesThere};
ghost use Rattle.conf_names.specs.Refusals.{first_in};
ghost use Rattle.conf_rules.specs.Statements.{refusals};
ghost use Rattle.conf_names.specs.Seen.{known_of};
ghost use Rattle.conf_check.specs.Refused.{IsFault};
ghost use Rattle.conf_check.specs.Seen.{Adds, AreNamed, Declares, IsAllowed, Stands, counted};

use crate::bgp::bgp;
use crate::channel::master;
use crate::checked::{Checked, ProtocolBody, ProtocolDef};
use crate::constants::constant;
use crate::declare::{
    declare, declare_constant, declare_filter, declare_function, declare_joint, declare_pipe,
    declare_table, declared_at_start,
};
use crate::pipe::pipe;
use crate::policy::block_filter;
use crate::static_protocol::static_protocol;
use attrs::Seq;
use bits_ip::{Family, OutOfMemory};
use conf_ast::configurations::{BgpOption, Literal, PipeOption, Protocol, Statement, StaticOption};
use conf_ast::filters::{Filter, Function};
use conf_ast::{ConfFault, Name};
use conf_names::names::place_of;
use conf_names::{BGP_STEM, Declared, PIPE_STEM, STATIC_STEM, own_name};
use conf_rules::{first_in_statement, joint_of};
use filt_check::resolve_function;
use std::alloc::Global;

// ---- declarations

fn define(
    alloc: Global,
    text: &[u8],
    declared: &mut Declared,
    name: Name,
    literal: &Literal,
) -> Result<(), OutOfMemory>
    requires { IsAllowed text.now (conf.Define name (value_of literal.now)) declared.old }
    ensures { OnOk result (Declares text.now (conf.Define name (value_of literal.now))
        declared.old declared.new) }
{
    let found = constant(alloc, text, &declared.scope, literal)?;
    match found {
        None => Ok(()),
        Some(value) => {
            declare_constant(alloc, &mut declared.scope, name.bytes(text), value)?;
            Ok(())
        }
    }
}

/// The statement of a table that is always there declares nothing.
fn table(
    alloc: Global,
    text: &[u8],
    checked: &mut Checked,
    at: usize,
    family: Family,
    name: Name,
) -> Result<(), OutOfMemory>
    requires { IsAllowed text.now (conf.Table at family name) checked.old.declared }
    ensures { OnOk result (Adds text.now (conf.Table at family name) checked.old checked.new) }
{
    if name.bytes(text) == master(family) {
        Ok(())
    } else {
        declare_table(alloc, &mut checked.declared, name.bytes(text), family)?;
        checked.table_places.push(name.at)?;
        Ok(())
    }
}

fn function(
    alloc: Global,
    text: &[u8],
    declared: &mut Declared,
    function: &Function,
) -> Result<(), OutOfMemory>
    requires { IsAllowed text.now (conf.DefineFunction (routine_of function.now)) declared.old }
    ensures { OnOk result (Declares text.now (conf.DefineFunction (routine_of function.now))
        declared.old declared.new) }
{
    let tree = resolve_function(alloc, text, &declared.scope, function)?;
    declare_function(alloc, &mut declared.scope, function.name.bytes(text), tree)?;
    Ok(())
}

fn filter(
    alloc: Global,
    text: &[u8],
    checked: &mut Checked,
    at: usize,
    filter: &Filter,
) -> Result<(), OutOfMemory>
    requires { IsAllowed text.now (conf.DefineFilter at filter.now.name
        (block_of filter.now.block)) checked.old.declared }
    ensures { OnOk result (Adds text.now (conf.DefineFilter at filter.now.name
        (block_of filter.now.block)) checked.old checked.new) }
{
    let tree = block_filter(alloc, text, &checked.declared.scope, &filter.block)?;
    declare_filter(alloc, &mut checked.declared, filter.name.bytes(text))?;
    checked.filters.push(tree)?;
    Ok(())
}

// ---- protocols

/// One protocol more, whose names are declared.
fn push_protocol(
    checked: &mut Checked,
    at: usize,
    name: Vec<u8>,
    body: ProtocolBody,
) -> Result<(), OutOfMemory>
    requires { checked.old.declared.protocols < 256 }
    ensures scope { OnOk result (checked.new.declared.scope ≡ checked.old.declared.scope) }
    ensures known { OnOk result ((text : List ℕ) → known_of text checked.new.declared
        ≡ counted (known_of text checked.old.declared)) }
    ensures filters { OnOk result (checked.new.filters.items ≡ checked.old.filters.items) }
    ensures protocols { OnOk result (checked.new.protocols.items
        ≡ checked.old.protocols.items ++ record { at = at; name = name.items; body = body } ∷ []) }
    ensures places { OnOk result (checked.new.table_places.items
        ≡ checked.old.table_places.items) }
    ensures end { OnOk result (checked.new.end ≡ checked.old.end) }
{
    checked.protocols.push(ProtocolDef {
        at,
        name: Seq::from_vec(name),
        body,
    })?;
    checked.declared.protocols += 1;
    Ok(())
}

fn add_static(
    alloc: Global,
    text: &[u8],
    checked: &mut Checked,
    protocol: &Protocol<StaticOption>,
) -> Result<(), OutOfMemory>
    requires { IsAllowed text.now (conf.Static (instance_of static_setting_of protocol.now))
        checked.old.declared }
    ensures { OnOk result (Adds text.now (conf.Static (instance_of static_setting_of protocol.now))
        checked.old checked.new) }
{
    let name = own_name(alloc, text, &checked.declared, STATIC_STEM, protocol.name)?;
    let def = static_protocol(alloc, text, &checked.declared, protocol)?;
    declare(alloc, &mut checked.declared.scope, &name)?;
    let at = place_of(protocol.at, protocol.name);
    push_protocol(checked, at, name, ProtocolBody::Static(def))?;
    Ok(())
}

fn add_bgp(
    alloc: Global,
    text: &[u8],
    checked: &mut Checked,
    protocol: &Protocol<BgpOption>,
) -> Result<(), OutOfMemory>
    requires { IsAllowed text.now (conf.Bgp (instance_of bgp_setting_of protocol.now))
        checked.old.declared }
    ensures { OnOk result (Adds text.now (conf.Bgp (instance_of bgp_setting_of protocol.now))
        checked.old checked.new) }
{
    let name = own_name(alloc, text, &checked.declared, BGP_STEM, protocol.name)?;
    let def = bgp(alloc, text, &checked.declared, protocol)?;
    declare(alloc, &mut checked.declared.scope, &name)?;
    let at = place_of(protocol.at, protocol.name);
    push_protocol(checked, at, name, ProtocolBody::Bgp(def))?;
    Ok(())
}

fn add_pipe(
    alloc: Global,
    text: &[u8],
    checked: &mut Checked,
    protocol: &Protocol<PipeOption>,
) -> Result<(), OutOfMemory>
    requires { IsAllowed text.now (conf.Pipe (instance_of pipe_setting_of protocol.now))
        checked.old.declared }
    ensures { OnOk result (Adds text.now (conf.Pipe (instance_of pipe_setting_of protocol.now))
        checked.old checked.new) }
{
    let joint = joint_of(text, &checked.declared, protocol.options.as_slice());
    let name = own_name(alloc, text, &checked.declared, PIPE_STEM, protocol.name)?;
    let def = pipe(alloc, text, &checked.declared, protocol)?;
    declare_pipe(alloc, &mut checked.declared.scope, &name)?;
    let at = place_of(protocol.at, protocol.name);
    push_protocol(checked, at, name, ProtocolBody::Pipe(def))?;
    declare_joint(&mut checked.declared, joint)?;
    Ok(())
}

// ---- statements

/// What a statement adds of which nothing is refused.
fn add(
    alloc: Global,
    text: &[u8],
    checked: &mut Checked,
    statement: &Statement,
) -> Result<(), OutOfMemory>
    requires { IsAllowed text.now (declaration_of statement.now) checked.old.declared }
    ensures { OnOk result (Adds text.now (declaration_of statement.now) checked.old checked.new) }
{
    match statement {
        Statement::RouterId(_) => Ok(()),
        Statement::Log => Ok(()),
        Statement::Define { name, value } => {
            define(alloc, text, &mut checked.declared, *name, value)
        }
        Statement::Table { at, family, name } => {
            table(alloc, text, checked, *at, *family, *name)
        }
        Statement::Function(f) => function(alloc, text, &mut checked.declared, f),
        Statement::Filter { at, filter: f } => filter(alloc, text, checked, *at, f),
        Statement::Device { .. } => Ok(()),
        Statement::Static(protocol) => add_static(alloc, text, checked, protocol),
        Statement::Bgp(protocol) => add_bgp(alloc, text, checked, protocol),
        Statement::Pipe(protocol) => add_pipe(alloc, text, checked, protocol),
    }
}

/// Refuses a statement by the first of what is refused in it.
fn refuse(
    alloc: Global,
    text: &[u8],
    declared: &Declared,
    statement: &Statement,
) -> Result<(), ConfFault>
    requires { ArePipesThere (known_of text.now declared.now) }
    ensures { MatchResult result
        (λ _. first_in None (refusals (known_of text.now declared.now)
        (declaration_of statement.now)) ≡ None)
        (λ fault. IsFault fault (first_in None (refusals (known_of text.now declared.now)
        (declaration_of statement.now)))) }
{
    match first_in_statement(alloc, text, declared, statement) {
        Ok(None) => Ok(()),
        Ok(Some(refusal)) => Err(ConfFault::Refused {
            at: refusal.at,
            kind: refusal.kind,
        }),
        Err(_) => Err(ConfFault::Memory),
    }
}

/// The places of master4 and master6.
fn places_at_start(alloc: Global) -> Result<Vec<usize>, OutOfMemory>
    ensures { IfOk result (λ places. places.items ≡ 0 ∷ 0 ∷ []) }
{
    let mut places = Vec::new(alloc);
    places.push(0)?;
    places.push(0)?;
    Ok(places)
}

/// What there is before the first statement.
fn nothing_yet(alloc: Global, text: &[u8]) -> Result<Checked, OutOfMemory>
    ensures { IfOk result (Stands text.now []) }
{
    let declared = declared_at_start(alloc)?;
    let table_places = places_at_start(alloc)?;
    Ok(Checked {
        declared,
        filters: Vec::new(alloc),
        protocols: Vec::new(alloc),
        table_places,
        end: text.len(),
    })
}

impl Checked {
    /// What there is before the first statement.
    pub(crate) fn start(alloc: Global, text: &[u8]) -> Result<Checked, ConfFault>
        ensures stands { IfOk result (Stands text.now []) }
        ensures fault { IfErr result (λ fault. fault ≡ faults.Memory) }
    {
        nothing_yet(alloc, text).map_err(|_| ConfFault::Memory)
    }

    /// Checks one statement more, over what is declared before it, and adds it.
    pub(crate) fn check(
        &mut self,
        alloc: Global,
        text: &[u8],
        statement: &Statement,
    ) -> Result<(), ConfFault>
        requires named { AreNamed (known_of text.now self.old.declared) }
        requires pipes { ArePipesThere (known_of text.now self.old.declared) }
        ensures answer { MatchResult result
            (λ _. first_in None (refusals (known_of text.now self.old.declared)
            (declaration_of statement.now)) ≡ None)
            (λ fault. IsFault fault (first_in None (refusals (known_of text.now self.old.declared)
            (declaration_of statement.now)))) }
        ensures adds { OnOk result (Adds text.now (declaration_of statement.now) self.old
            self.new) }
    {
        refuse(alloc, text, &self.declared, statement)?;
        add(alloc, text, self, statement).map_err(|_| ConfFault::Memory)
    }
}
