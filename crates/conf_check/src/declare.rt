//! What is declared, and one name more.

ghost use Rattle.std.specs.Prelude.{◌≡◌, ℕ, ◌++◌, ◌∷◌, ◌<◌, [], false, IfOk, List, None, OnOk, Vec};
ghost use Rattle.std.specs.Global.{Global};
ghost use Rattle.std.specs.List.{list_any};
ghost use Rattle.filt_meaning.specs.Names.{same_name};
ghost use Rattle.filt_meaning.specs.Scopes.{constants_in};
ghost use Rattle.filt_types.specs.Scenes.{is_declared as is_named};
ghost use Rattle.filt_types.specs.Seen.{functions_in};
ghost use Rattle.conf_names.specs.Known.{is_declared};
ghost use Rattle.conf_names.specs.Names.{pipe_names};
ghost use Rattle.conf_names.specs.Seen.{known_of};
ghost use Rattle.conf_check.specs.Behind.{at_start, with_filter, with_pipe, with_table};
ghost use Rattle.conf_check.specs.Seen.{AreNamed, Joins, Stays, other_names};

use bits_ip::{Family, OutOfMemory};
use conf_names::{Declared, Joint};
use filt_meaning::{Fixed, Scope, TFunction};
use indexmap::{IndexMap, IndexSet};
use std::alloc::Global;

// ---- scopes

/// The name of a filter, a table or a protocol, which is none so far.
pub(crate) fn declare(alloc: Global, scope: &mut Scope, name: &[u8]) -> Result<(), OutOfMemory>
    requires { list_any (λ n. same_name n name.now) (other_names scope.old) ≡ false }
    ensures others { OnOk result (other_names scope.new ≡ other_names scope.old ++ name.now ∷ []) }
    ensures stays { OnOk result (Stays scope.old scope.new) }
{
    let key = Vec::from_slice(alloc, name)?;
    scope.others.insert(key)?;
    Ok(())
}

/// A constant of a name that there isn't so far.
pub(crate) fn declare_constant(
    alloc: Global,
    scope: &mut Scope,
    name: &[u8],
    value: Fixed,
) -> Result<(), OutOfMemory>
    requires { is_named (constants_in scope.old) name.now ≡ false }
    ensures constants { OnOk result
        (Joins name.now value scope.old.constants.entries scope.new.constants.entries) }
    ensures functions { OnOk result
        (scope.new.functions.entries ≡ scope.old.functions.entries) }
    ensures others { OnOk result (scope.new.others.keys ≡ scope.old.others.keys) }
{
    let key = Vec::from_slice(alloc, name)?;
    scope.constants.insert(key, value)?;
    Ok(())
}

/// A function of a name that there isn't so far.
pub(crate) fn declare_function(
    alloc: Global,
    scope: &mut Scope,
    name: &[u8],
    function: TFunction,
) -> Result<(), OutOfMemory>
    requires { is_named (functions_in scope.old) name.now ≡ false }
    ensures functions { OnOk result
        (Joins name.now function scope.old.functions.entries scope.new.functions.entries) }
    ensures constants { OnOk result
        (scope.new.constants.entries ≡ scope.old.constants.entries) }
    ensures others { OnOk result (scope.new.others.keys ≡ scope.old.others.keys) }
{
    let key = Vec::from_slice(alloc, name)?;
    scope.functions.insert(key, function)?;
    Ok(())
}

// ---- tables and filters

/// A table of a name that isn't declared so far.
pub(crate) fn declare_table(
    alloc: Global,
    declared: &mut Declared,
    name: &[u8],
    family: Family,
) -> Result<(), OutOfMemory>
    requires free { is_declared (known_of [] declared.old) name.now ≡ false }
    requires named { AreNamed (known_of [] declared.old) }
    ensures known { OnOk result ((text : List ℕ) → known_of text declared.new
        ≡ with_table (known_of text declared.old) name.now family) }
    ensures stays { OnOk result (Stays declared.old.scope declared.new.scope) }
{
    declare(alloc, &mut declared.scope, name)?;
    let key = Vec::from_slice(alloc, name)?;
    declared.tables.insert(key, family)?;
    Ok(())
}

/// The name of a filter, which isn't declared so far.
pub(crate) fn declare_filter(
    alloc: Global,
    declared: &mut Declared,
    name: &[u8],
) -> Result<(), OutOfMemory>
    requires free { is_declared (known_of [] declared.old) name.now ≡ false }
    requires named { AreNamed (known_of [] declared.old) }
    ensures known { OnOk result ((text : List ℕ) → known_of text declared.new
        ≡ with_filter (known_of text declared.old) name.now) }
    ensures stays { OnOk result (Stays declared.old.scope declared.new.scope) }
{
    declare(alloc, &mut declared.scope, name)?;
    let key = Vec::from_slice(alloc, name)?;
    declared.filters.insert(key)?;
    Ok(())
}

// ---- protocols

fn with_suffix(alloc: Global, name: &[u8], suffix: &[u8]) -> Result<Vec<u8>, OutOfMemory>
    ensures { IfOk result (λ v. v.items ≡ name.now ++ suffix.now) }
{
    let mut whole = Vec::from_slice(alloc, name)?;
    whole.extend_from_slice(suffix)?;
    Ok(whole)
}

/// The names of a pipe's two channels and its own.
pub(crate) fn declare_pipe(alloc: Global, scope: &mut Scope, name: &[u8]) -> Result<(), OutOfMemory>
    requires { list_any (λ p. list_any (λ n. same_name n p) (other_names scope.old))
        (pipe_names name.now) ≡ false }
    ensures others { OnOk result (other_names scope.new
        ≡ other_names scope.old ++ pipe_names name.now) }
    ensures stays { OnOk result (Stays scope.old scope.new) }
{
    let export = with_suffix(alloc, name, b".export")?;
    let import = with_suffix(alloc, name, b".import")?;
    declare(alloc, scope, name)?;
    declare(alloc, scope, &export)?;
    declare(alloc, scope, &import)
}

/// A pipe that joins these tables, where both are declared.
pub(crate) fn declare_joint(
    declared: &mut Declared,
    joint: Option<Joint>,
) -> Result<(), OutOfMemory>
    ensures known { OnOk result ((text : List ℕ) → known_of text declared.new
        ≡ with_pipe (known_of text declared.old) joint) }
    ensures scope { OnOk result (declared.new.scope ≡ declared.old.scope) }
{
    match joint {
        None => Ok(()),
        Some(joint) => {
            declared.pipes.push(joint)?;
            Ok(())
        }
    }
}

// ---- the beginning

fn nothing(alloc: Global) -> Declared
    ensures constants { result.scope.constants.entries ≡ [] }
    ensures functions { result.scope.functions.entries ≡ [] }
    ensures others { result.scope.others.keys ≡ [] }
    ensures tables { result.tables.entries ≡ [] }
    ensures filters { result.filters.keys ≡ [] }
    ensures protocols { result.protocols ≡ 0 }
    ensures pipes { result.pipes.items ≡ [] }
{
    let scope = Scope {
        constants: IndexMap::new(alloc),
        functions: IndexMap::new(alloc),
        others: IndexSet::new(alloc),
    };
    Declared {
        scope,
        tables: IndexMap::new(alloc),
        filters: IndexSet::new(alloc),
        protocols: 0,
        pipes: Vec::new(alloc),
    }
}

/// What is declared before the first statement.
pub(crate) fn declared_at_start(alloc: Global) -> Result<Declared, OutOfMemory>
    ensures known { IfOk result (λ declared. (text : List ℕ)
        → known_of text declared ≡ at_start text) }
    ensures constants { IfOk result (λ declared. declared.scope.constants.entries ≡ []) }
    ensures functions { IfOk result (λ declared. declared.scope.functions.entries ≡ []) }
{
    let mut declared = nothing(alloc);
    declare_table(alloc, &mut declared, b"master4", Family::V4)?;
    declare_table(alloc, &mut declared, b"master6", Family::V6)?;
    Ok(declared)
}
