//! The filter of a configuration, over what stands before it.
//!
//! Constants, functions and filters are checked in their order, and so are the policies of static
//! protocols.
use crate::faults::bad;
use crate::filters::constants::constant;
use conf_ast::Name;
use conf_ast::configurations::{
    Channel, ChannelOption, Config, Literal, Policy, Protocol, Statement, StaticOption,
};
use conf_ast::filters::{Filter, Function};
use filt_check::{TypeFault, check_block, check_expr, check_filter, check_function};
use filt_meaning::{Scope, TFilter};
use indexmap::{IndexMap, IndexSet};
use std::alloc::Global;
use std::io;

/// What reading a configuration comes to.
pub type Checked<T> = io::Result<Result<T, TypeFault>>;

fn nothing(alloc: Global) -> Scope {
    Scope {
        constants: IndexMap::new(alloc),
        functions: IndexMap::new(alloc),
        others: IndexSet::new(alloc),
    }
}

fn see_constant(
    alloc: Global,
    text: &[u8],
    name: &Name,
    value: &Literal,
    scope: &mut Scope,
) -> Checked<()> {
    let value = constant(alloc, text, scope, value)?;
    let name = name.bytes(text).to_vec(alloc)?;
    scope.constants.insert(name, value)?;
    Ok(Ok(()))
}

fn see_function(alloc: Global, text: &[u8], function: &Function, scope: &mut Scope) -> Checked<()> {
    let name = function.name.bytes(text).to_vec(alloc)?;
    match check_function(alloc, text, scope, function) {
        Ok(tree) => {
            scope.functions.insert(name, tree)?;
            Ok(Ok(()))
        }
        Err(fault) => Ok(Err(fault)),
    }
}

fn see_name(alloc: Global, text: &[u8], name: &Name, scope: &mut Scope) -> Checked<()> {
    let name = name.bytes(text).to_vec(alloc)?;
    scope.others.insert(name)?;
    Ok(Ok(()))
}

fn see_tree(tree: Result<TFilter, TypeFault>) -> Checked<()> {
    match tree {
        Ok(_) => Ok(Ok(())),
        Err(fault) => Ok(Err(fault)),
    }
}

fn see_filter(alloc: Global, text: &[u8], filter: &Filter, scope: &mut Scope) -> Checked<()> {
    match see_tree(check_filter(alloc, text, scope, filter))? {
        Ok(()) => see_name(alloc, text, &filter.name, scope),
        Err(fault) => Ok(Err(fault)),
    }
}

fn see_policy(alloc: Global, text: &[u8], policy: &Policy, scope: &mut Scope) -> Checked<()> {
    match policy {
        Policy::All | Policy::None | Policy::Filter { .. } => Ok(Ok(())),
        Policy::Block { at, block } => { see_tree(check_block(alloc, text, scope, *at, block)) }
        Policy::Where { at, condition } => {
            see_tree(check_expr(alloc, text, scope, *at, condition))
        }
    }
}

fn see_option(
    alloc: Global,
    text: &[u8],
    option: &ChannelOption,
    scope: &mut Scope,
) -> Checked<()> {
    match option {
        ChannelOption::Import(policy) | ChannelOption::Export(policy) => {
            see_policy(alloc, text, policy, scope)
        }
        _ => Ok(Ok(())),
    }
}

fn see_channel(alloc: Global, text: &[u8], channel: &Channel, scope: &mut Scope) -> Checked<()> {
    let Some(options) = &channel.options else {
        return Ok(Ok(()));
    };
    for option in options {
        if let Err(fault) = see_option(alloc, text, option, scope)? {
            return Ok(Err(fault));
        }
    }
    Ok(Ok(()))
}

fn see_protocol(
    alloc: Global,
    text: &[u8],
    protocol: &Protocol<StaticOption>,
    scope: &mut Scope,
) -> Checked<()> {
    for option in &protocol.options {
        if let StaticOption::Channel(channel) = option
            && let Err(fault) = see_channel(alloc, text, channel, scope)?
        {
            return Ok(Err(fault));
        }
    }
    match &protocol.name {
        Some(name) => see_name(alloc, text, name, scope),
        None => Ok(Ok(())),
    }
}

fn see_statement(
    alloc: Global,
    text: &[u8],
    statement: &Statement,
    scope: &mut Scope,
) -> Checked<()> {
    match statement {
        Statement::Define { name, value } => see_constant(alloc, text, name, value, scope),
        Statement::Table { name, .. } => see_name(alloc, text, name, scope),
        Statement::Function(function) => see_function(alloc, text, function, scope),
        Statement::Filter { filter, .. } => see_filter(alloc, text, filter, scope),
        Statement::Static(protocol) => see_protocol(alloc, text, protocol, scope),
        Statement::RouterId(_) | Statement::Log | Statement::Device { .. } => Ok(Ok(())),
        Statement::Bgp(_) | Statement::Pipe(_) => Err(bad()),
    }
}

/// The refusal of a configuration's first statement that is refused, where one is.
pub fn see(alloc: Global, config: &Config) -> Checked<()> {
    let mut scope = nothing(alloc);
    for statement in &config.statements {
        if let Err(fault) = see_statement(alloc, config.text, statement, &mut scope)? {
            return Ok(Err(fault));
        }
    }
    Ok(Ok(()))
}
