// The variables that statements declare in the block round them.

ghost use Rattle.std.specs.Prelude.{◌≡◌, ◌++◌, ◌∷◌, [], IfOk, OnOk, map};
ghost use Rattle.conf_ast.specs.Names.{name_bytes};
ghost use Rattle.conf_ast.specs.Filters.{statement_of, statements_of};
ghost use Rattle.filt_meaning.specs.Configuration.{parameter_names};
ghost use Rattle.filt_meaning.specs.Meaning.{declared, all_declared};
ghost use Rattle.filt_meaning.specs.Names.{sort_of_type};
ghost use Rattle.filt_resolve.specs.Seen.{names_of};
ghost use Rattle.filt_check.specs.Seen.{variables_of, name_of, sort_of, arms_declare};
ghost use Rattle.filt_check.specs.Seen.{otherwise_declares, parameter_sorts};

use bits_ip::OutOfMemory;
use conf_ast::Name;
use conf_ast::filters::{Arm, Parameter, Stmt, VariableType};
use filt_meaning::{Sort, type_sort};
use std::alloc::Global;

/// A variable that is declared.
#[derive(Clone, Copy)]
pub(crate) struct Declared<'a> {
    pub name: &'a [u8],
    pub sort: Sort,
}

fn push_declared<'a>(
    text: &'a [u8],
    variable_type: VariableType,
    name: &Name,
    out: &mut Vec<Declared<'a>>,
) -> Result<(), OutOfMemory>
    ensures { OnOk result
        (variables_of out.new.items
        ≡ variables_of out.old.items ++ (name_bytes text.now name.now, sort_of_type variable_type)
        ∷ []) }
{
    out.push(Declared {
        name: name.bytes(text),
        sort: type_sort(variable_type),
    })?;
    Ok(())
}

#[cycle(collect)]
fn collect<'a>(text: &'a [u8], s: &Stmt, out: &mut Vec<Declared<'a>>) -> Result<(), OutOfMemory>
    ensures { OnOk result
        (variables_of out.new.items
        ≡ variables_of out.old.items ++ declared text.now (statement_of s.now)) }
{
    match s {
        Stmt::Block(_) => Ok(()),
        Stmt::Empty => Ok(()),
        Stmt::Declare {
            variable_type,
            name,
            ..
        } => {
            push_declared(text, *variable_type, name, out)?;
            Ok(())
        }
        Stmt::Assign(_, _) => Ok(()),
        Stmt::Change(_, _) => Ok(()),
        Stmt::Unset { .. } => Ok(()),
        Stmt::If(_, body) => collect(text, body, out),
        Stmt::IfElse(_, first, second) => {
            collect(text, first, out)?;
            collect(text, second, out)?;
            Ok(())
        }
        Stmt::Case {
            arms,
            otherwise,
            ..
        } => {
            collect_arms(text, arms, out)?;
            collect_otherwise(text, otherwise, out)?;
            Ok(())
        }
        Stmt::For { body, .. } => collect(text, body, out),
        Stmt::Accept => Ok(()),
        Stmt::Reject => Ok(()),
        Stmt::Return { .. } => Ok(()),
        Stmt::Print(_) => Ok(()),
        Stmt::Printn(_) => Ok(()),
        Stmt::Call { .. } => Ok(()),
    }
}

#[cycle(collect)]
pub(crate) fn collect_all<'a>(
    text: &'a [u8],
    body: &[Stmt],
    out: &mut Vec<Declared<'a>>,
) -> Result<(), OutOfMemory>
    ensures { OnOk result
        (variables_of out.new.items
        ≡ variables_of out.old.items ++ all_declared text.now (statements_of body.now)) }
{
    for s in body {
        collect(text, s, out)?;
    }
    Ok(())
}

#[cycle(collect)]
fn collect_arms<'a>(
    text: &'a [u8],
    arms: &[Arm<Stmt>],
    out: &mut Vec<Declared<'a>>,
) -> Result<(), OutOfMemory>
    ensures { OnOk result
        (variables_of out.new.items
        ≡ variables_of out.old.items ++ arms_declare text.now arms.now) }
{
    for arm in arms {
        collect_all(text, &arm.body, out)?;
    }
    Ok(())
}

#[cycle(collect)]
fn collect_otherwise<'a>(
    text: &'a [u8],
    otherwise: &Option<Vec<Stmt>>,
    out: &mut Vec<Declared<'a>>,
) -> Result<(), OutOfMemory>
    ensures { OnOk result
        (variables_of out.new.items
        ≡ variables_of out.old.items ++ otherwise_declares text.now otherwise.now) }
{
    match otherwise {
        None => Ok(()),
        Some(body) => {
            collect_all(text, body, out)?;
            Ok(())
        }
    }
}

// ---- names and sorts

pub(crate) fn declared_names<'a>(
    alloc: Global,
    declared: &[Declared<'a>],
) -> Result<Vec<&'a [u8]>, OutOfMemory>
    ensures { IfOk result (λ v. names_of v.items ≡ map name_of declared.now) }
{
    let mut all = Vec::with_capacity(alloc, declared.len())?;
    for variable in declared {
        all.push(variable.name)?;
    }
    Ok(all)
}

pub(crate) fn sorts_of(alloc: Global, declared: &[Declared<'_>]) -> Result<Vec<Sort>, OutOfMemory>
    ensures { IfOk result (λ v. v.items ≡ map sort_of declared.now) }
{
    let mut all = Vec::with_capacity(alloc, declared.len())?;
    for variable in declared {
        all.push(variable.sort)?;
    }
    Ok(all)
}

// ---- parameters

pub(crate) fn parameter_names<'a>(
    alloc: Global,
    text: &'a [u8],
    parameters: &[Parameter],
) -> Result<Vec<&'a [u8]>, OutOfMemory>
    ensures { IfOk result (λ v. names_of v.items ≡ parameter_names text.now parameters.now) }
{
    let mut all = Vec::with_capacity(alloc, parameters.len())?;
    for parameter in parameters {
        all.push(parameter.name.bytes(text))?;
    }
    Ok(all)
}

pub(crate) fn parameter_sorts(
    alloc: Global,
    parameters: &[Parameter],
) -> Result<Vec<Sort>, OutOfMemory>
    ensures { IfOk result (λ v. v.items ≡ parameter_sorts parameters.now) }
{
    let mut all = Vec::with_capacity(alloc, parameters.len())?;
    for parameter in parameters {
        all.push(type_sort(parameter.variable_type))?;
    }
    Ok(all)
}
