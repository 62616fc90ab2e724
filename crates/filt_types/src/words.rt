// Expressions without other expressions in them.

ghost use Rattle.std.specs.Prelude.{◌≡◌, []};
ghost use Rattle.filt_types.specs.Expressions as expressions;
ghost use Rattle.filt_types.specs.Expressions.{sort_of_named, known_as};
ghost use Rattle.filt_types.specs.Refusals.{first_in};
ghost use Rattle.filt_types.specs.Scenes.{variable_of, constant_of};
ghost use Rattle.filt_types.specs.Seen.{scene_in, variables_in};
ghost use Rattle.filt_types.specs.Walk.{common_seen, said_of};

use crate::items::{Common, all_atoms, all_items, differ};
use crate::judged::Judged;
use crate::refusal::{Cause, Refusal, note, note_if};
use crate::rules::sort_if;
use crate::scene::{Seen, constant_named, variable_named};
use conf_ast::Name;
use conf_ast::filters::{Atom, Item, MaskItem};
use filt_meaning::Sort;
use filt_meaning::sorts::{attribute_sort, constant_sort};

pub(crate) fn sound(at: usize, sort: Sort) -> Judged
    ensures { result ≡ said_of (expressions.sound at sort) }
{
    Judged {
        at,
        sort: Some(sort),
    }
}

pub(crate) fn plain(word: Atom) -> Judged
    ensures judged { result ≡ said_of (expressions.plain word) }
    ensures sound { (expressions.plain word).refusals ≡ [] }
{
    match word {
        Atom::Number { at, .. } => sound(at, Sort::Int),
        Atom::Text { at, .. } => sound(at, Sort::String),
        Atom::Ip { at, .. } => sound(at, Sort::Ip),
        Atom::Prefix { at, .. } => sound(at, Sort::Prefix),
        Atom::True { at } => sound(at, Sort::Bool),
        Atom::False { at } => sound(at, Sort::Bool),
        Atom::EmptyPath { at } => sound(at, Sort::Path),
        Atom::EmptyClist { at } => sound(at, Sort::Clist),
        Atom::Attribute { at, attribute } => sound(at, attribute_sort(attribute)),
        Atom::Constant { at, constant } => sound(at, constant_sort(constant)),
    }
}

/// The sort of what a name stands for: of a variable, or of a constant where there is none.
fn named_sort(seen: Seen<'_>, name: Name) -> Option<Sort>
    ensures { result
        ≡ sort_of_named (variable_of (scene_in seen.entry) (variables_in seen.entry) name)
        (constant_of (scene_in seen.entry) name) }
{
    match variable_named(seen, name) {
        Some(variable) => Some(variable.sort),
        None => match constant_named(seen, name) {
            Some(constant) => Some(constant.sort()),
            None => None,
        },
    }
}

pub(crate) fn named(seen: Seen<'_>, name: Name, first: &mut Option<Refusal>) -> Judged
    ensures judged { result
        ≡ said_of (expressions.named (scene_in seen.entry) (variables_in seen.entry) name) }
    ensures first { first.new
        ≡ first_in first.old (expressions.named (scene_in seen.entry) (variables_in seen.entry)
        name).refusals }
{
    known_at(name.at, named_sort(seen, name), first)
}

fn known_at(at: usize, sort: Option<Sort>, first: &mut Option<Refusal>) -> Judged
    ensures judged { result ≡ said_of (known_as at sort) }
    ensures first { first.new ≡ first_in first.old (known_as at sort).refusals }
{
    match sort {
        Some(sort) => sound(at, sort),
        None => {
            note(first, at, Cause::UnknownName);
            Judged { at, sort: None }
        }
    }
}

/// The sort of the set of elements of such sorts.
fn set_sort(common: Common) -> Option<Sort>
    ensures { result ≡ expressions.set_sort (common_seen common) }
{
    match common {
        Common::NoneYet => None,
        Common::One(sort) => match sort {
            Sort::Int => Some(Sort::IntSet),
            Sort::Pair => Some(Sort::PairSet),
            Sort::Prefix => Some(Sort::PrefixSet),
            _ => None,
        },
        Common::Many => None,
    }
}

/// The judgement of a set. It keeps the first of what is refused in it.
pub fn set(seen: Seen<'_>, at: usize, elements: &[Item], first: &mut Option<Refusal>) -> Judged
    ensures judged { result ≡ said_of (expressions.set (scene_in seen.entry) at elements.now) }
    ensures first { first.new
        ≡ first_in first.old (expressions.set (scene_in seen.entry) at elements.now).refusals }
{
    let found = all_items(seen, elements, Common::NoneYet, first);
    let is_refused = elements.is_empty() | differ(found.common);
    note_if(first, is_refused, at, Cause::Mismatch);
    Judged {
        at,
        sort: and_known(found.all_known, set_sort(found.common)),
    }
}

pub(crate) fn and_known(test: bool, sort: Option<Sort>) -> Option<Sort>
    ensures { result ≡ expressions.and_known test sort }
{
    if test { sort } else { None }
}

/// The judgement of a mask. It keeps the first of what is refused in it.
pub fn mask(seen: Seen<'_>, at: usize, elements: &[MaskItem], first: &mut Option<Refusal>) -> Judged
    ensures judged { result ≡ said_of (expressions.mask (scene_in seen.entry) at elements.now) }
    ensures first { first.new
        ≡ first_in first.old (expressions.mask (scene_in seen.entry) at elements.now).refusals }
{
    let all_known = all_atoms(seen, elements, first);
    Judged {
        at,
        sort: sort_if(all_known, Sort::Mask),
    }
}
