ghost use Rattle.std.specs.Prelude.{◌≡◌, option_map};
ghost use Rattle.std.specs.List.{list_any};
ghost use Rattle.filt_meaning.specs.Names.{same_name};
ghost use Rattle.filt_meaning.specs.Seen.{val_of_fixed};
ghost use Rattle.filt_types.specs.Scenes as scenes;
ghost use Rattle.filt_types.specs.Scenes.{variable_of, constant_of, function_of};
ghost use Rattle.filt_types.specs.Refusals.{first_in};
ghost use Rattle.filt_types.specs.Listed.{variable_seen};
ghost use Rattle.filt_types.specs.Seen.{signature_of, scene_in, variables_in};

use crate::refusal::{Cause, Refusal, note_if};
use crate::variable_list::{Variable, Variables};
use conf_ast::Name;
use filt_meaning::{Fixed, Scope, TFunction};

/// What is seen at a place of a filter: the source, what the configuration declares before the
/// filter, and the variables.
#[derive(Clone, Copy)]
pub struct Seen<'a> {
    pub text: &'a [u8],
    pub scope: &'a Scope,
    /// The variables, where there can be some.
    pub variables: Option<&'a Variables<'a>>,
}

pub fn variable_named<'a>(seen: Seen<'a>, name: Name) -> Option<Variable<'a>>
    ensures { option_map variable_seen result
        ≡ variable_of (scene_in seen.entry) (variables_in seen.entry) name }
{
    match seen.variables {
        None => None,
        Some(variables) => variables.named(name.bytes(seen.text)),
    }
}

pub fn constant_named<'a>(seen: Seen<'a>, name: Name) -> Option<&'a Fixed>
    ensures { option_map (λ constant. val_of_fixed constant.now) result
        ≡ constant_of (scene_in seen.entry) name }
{
    seen.scope.constants.get(name.bytes(seen.text))
}

pub fn function_named<'a>(seen: Seen<'a>, name: Name) -> Option<&'a TFunction>
    ensures { option_map (λ function. signature_of function.now) result
        ≡ function_of (scene_in seen.entry) name }
{
    seen.scope.functions.get(name.bytes(seen.text))
}

/// Whether a variable or anything of the configuration has that name.
pub fn is_seen(seen: Seen<'_>, name: &[u8]) -> bool
    ensures { result ≡ scenes.is_seen (scene_in seen.entry) (variables_in seen.entry) name.now }
{
    let variable = is_variable(seen, name);
    let constant = seen.scope.constants.contains_key(name);
    let function = seen.scope.functions.contains_key(name);
    let other = seen.scope.others.contains(name);
    variable | constant | function | other
}

fn is_variable(seen: Seen<'_>, name: &[u8]) -> bool
    ensures { result ≡ list_any (λ v. same_name v.name name.now) (variables_in seen.entry) }
{
    match seen.variables {
        None => false,
        Some(variables) => variables.has_name(name),
    }
}

/// What is refused of a name that is declared here.
pub fn declaring(seen: Seen<'_>, name: Name, first: &mut Option<Refusal>)
    ensures { first.new
        ≡ first_in first.old (scenes.declaring (scene_in seen.entry) (variables_in seen.entry)
        name) }
{
    let bytes = name.bytes(seen.text);
    note_if(first, is_seen(seen, bytes), name.at, Cause::DuplicateName);
    note_if(first, 64 < bytes.len(), name.at, Cause::Limit);
}
