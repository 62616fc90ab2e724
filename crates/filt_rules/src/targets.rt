// What stands as a target of assignments and changes, and what is refused of those.

ghost use Rattle.std.specs.Prelude.{◌≡◌, ◌++◌, not, if◌then◌else◌, Option};
ghost use Rattle.conf_ast.specs.Filters.{expression_of, changed as change_of};
ghost use Rattle.conf_ast.specs.declared.filters.Target.{Target};
ghost use Rattle.conf_ast.specs.declared.filters.Target.TheVariants as targets;
ghost use Rattle.filt_meaning.specs.declared.value.Sort.{Sort};
ghost use Rattle.filt_meaning.specs.Sorts.{one_list};
ghost use Rattle.filt_types.specs.declared.refusal.Cause.TheVariants as causes;
ghost use Rattle.filt_types.specs.Expressions as expressions;
ghost use Rattle.filt_types.specs.Listed.{variable_seen};
ghost use Rattle.filt_rules.specs.Passes.{aim_seen};
ghost use Rattle.filt_types.specs.Refusals.{first_in, refused_if};
ghost use Rattle.filt_meaning.specs.Rules as rules;
ghost use Rattle.filt_types.specs.Seen.{scene_in, variables_in};
ghost use Rattle.filt_types.specs.Statements as statements;
ghost use Rattle.filt_types.specs.Walk.{judged_of};

use conf_ast::Name;
use conf_ast::filters::{Attribute, Change, Constant, Expr, Method, Target};
use filt_meaning::Sort;
use filt_meaning::sorts::{Operator, attribute_sort, is};
use filt_types::{
    Cause, Judged, Refusal, Seen, Variable, constant_named, constant_word, judge, note, note_if,
    variable_named, want_sort, with_right,
};

/// What stands as a target.
#[derive(Clone, Copy)]
pub enum Aim {
    /// What can be assigned values of that sort.
    Holds(Sort),
    /// What can't be assigned to.
    Fixed,
    /// Nothing that is known.
    Unknown,
}

fn target_place(target: Target) -> usize
    ensures { result ≡ statements.place_of target }
{
    match target {
        Target::Name(name) => name.at,
        Target::Attribute { at, .. } => at,
    }
}

fn target_aim(seen: Seen<'_>, target: Target) -> Aim
    ensures { aim_seen result
        ≡ statements.aim (scene_in seen.entry) (variables_in seen.entry) target }
{
    match target {
        Target::Name(name) => named_aim(seen, name),
        Target::Attribute { attribute, .. } => attribute_aim(attribute),
    }
}

fn named_aim(seen: Seen<'_>, name: Name) -> Aim
    ensures { aim_seen result
        ≡ statements.aim (scene_in seen.entry) (variables_in seen.entry) (targets.Name name) }
{
    match variable_named(seen, name) {
        Some(variable) => variable_aim(variable),
        None => match constant_named(seen, name) {
            Some(_) => Aim::Fixed,
            None => Aim::Unknown,
        },
    }
}

fn variable_aim(variable: Variable<'_>) -> Aim
    ensures { aim_seen result ≡ statements.aim_of_variable (variable_seen variable.entry) }
{
    if variable.of_loop {
        return Aim::Fixed;
    }
    Aim::Holds(variable.sort)
}

fn attribute_aim(attribute: Attribute) -> Aim
    ensures { aim_seen result
        ≡ (if rules.is_assignable attribute
        then statements.Holds (rules.sort_of_attribute attribute)
        else statements.IsFixed) }
{
    if is_assignable(attribute) {
        return Aim::Holds(attribute_sort(attribute));
    }
    Aim::Fixed
}

fn is_assignable(attribute: Attribute) -> bool
    ensures { result ≡ rules.is_assignable attribute }
{
    match attribute {
        Attribute::Net => false,
        Attribute::Proto => false,
        Attribute::Source => false,
        _ => true,
    }
}

/// Whether it can be unset.
fn can_be_unset(attribute: Attribute) -> bool
    ensures { result ≡ rules.can_be_unset attribute }
{
    match attribute {
        Attribute::Net => false,
        Attribute::Proto => false,
        Attribute::Source => false,
        Attribute::Preference => false,
        Attribute::Dest => false,
        Attribute::From => false,
        _ => true,
    }
}

pub(crate) fn check_unset(at: usize, attribute: Attribute, first: &mut Option<Refusal>)
    ensures { first.new
        ≡ first_in first.old
        (refused_if (not (rules.can_be_unset attribute)) at causes.NotAssignable) }
{
    note_if(first, !can_be_unset(attribute), at, Cause::NotAssignable);
}

/// What is refused of a target where nothing else is.
fn refuse_target(at: usize, aim: Aim, first: &mut Option<Refusal>)
    ensures { first.new ≡ first_in first.old (statements.refused_target at (aim_seen aim)) }
{
    match aim {
        Aim::Holds(_) => (),
        Aim::Fixed => note(first, at, Cause::NotAssignable),
        Aim::Unknown => note(first, at, Cause::UnknownName),
    }
}

// ---- assignments

/// A value for what holds values of that sort.
pub(crate) fn check_value(seen: Seen<'_>, sort: Sort, e: &Expr, first: &mut Option<Refusal>)
    ensures { first.new
        ≡ first_in first.old (expressions.wanted (rules.same_sort sort)
        (judged_of seen.entry e.now)) }
{
    let judged = judge(seen, e, first);
    want_sort(sort, judged, first);
}

pub(crate) fn check_assign(seen: Seen<'_>, target: Target, e: &Expr, first: &mut Option<Refusal>)
    ensures { first.new
        ≡ first_in first.old (statements.assign (scene_in seen.entry) (variables_in seen.entry)
        target (expression_of e.now)) }
{
    match target {
        Target::Name(name) => assign(seen, name.at, named_aim(seen, name), e, first),
        Target::Attribute { at, attribute } => assign_attribute(seen, at, attribute, e, first),
    }
}

fn assign_attribute(
    seen: Seen<'_>,
    at: usize,
    attribute: Attribute,
    e: &Expr,
    first: &mut Option<Refusal>,
)
    ensures { first.new
        ≡ first_in first.old (statements.assign (scene_in seen.entry) (variables_in seen.entry)
        (targets.Attribute at attribute) (expression_of e.now)) }
{
    match attribute {
        Attribute::Dest => assign_dest(seen, e, first),
        _ => assign(seen, at, attribute_aim(attribute), e, first),
    }
}

fn assign(seen: Seen<'_>, at: usize, aim: Aim, e: &Expr, first: &mut Option<Refusal>)
    ensures { first.new
        ≡ first_in first.old (statements.assigned at (aim_seen aim)
        (judged_of seen.entry e.now)) }
{
    match aim {
        Aim::Holds(sort) => check_value(seen, sort, e, first),
        Aim::Fixed => refuse_with(seen, at, aim, e, first),
        Aim::Unknown => refuse_with(seen, at, aim, e, first),
    }
}

/// The target is refused, and what is refused in the value.
fn refuse_with(seen: Seen<'_>, at: usize, aim: Aim, e: &Expr, first: &mut Option<Refusal>)
    ensures { first.new
        ≡ first_in first.old (statements.refused_target at (aim_seen aim)
        ++ (judged_of seen.entry e.now).refusals) }
{
    refuse_target(at, aim, first);
    let _judged = judge(seen, e, first);
}

/// Of the constants of `dest` three can be assigned, and nothing else.
fn assign_dest(seen: Seen<'_>, e: &Expr, first: &mut Option<Refusal>)
    ensures { first.new
        ≡ first_in first.old (statements.assigned_dest (expression_of e.now)
        (judged_of seen.entry e.now)) }
{
    let judged = judge(seen, e, first);
    let is_refused = judged.sort.is_some() & !is_dest_word(constant_word(e));
    note_if(first, is_refused, judged.at, Cause::Mismatch);
}

fn is_dest_word(word: Option<Constant>) -> bool
    ensures { result ≡ statements.is_dest_word word }
{
    match word {
        None => false,
        Some(constant) => is_assigned_dest(constant),
    }
}

fn is_assigned_dest(constant: Constant) -> bool
    ensures { result ≡ rules.is_assigned_dest constant }
{
    match constant {
        Constant::RtdBlackhole => true,
        Constant::RtdUnreachable => true,
        Constant::RtdProhibit => true,
        _ => false,
    }
}

// ---- changes

pub(crate) fn check_change(
    seen: Seen<'_>,
    target: Target,
    change: &Change,
    first: &mut Option<Refusal>,
)
    ensures { (gives : Option Sort)
        → first.new
        ≡ first_in first.old (statements.check
        (record { scene = scene_in seen.entry; gives = gives }) (variables_in seen.entry)
        (change_of target change.now)).refusals }
{
    let at = target_place(target);
    let aim = target_aim(seen, target);
    match change {
        Change::Method {
            method,
            argument,
            ..
        } => check_method(seen, at, aim, *method, argument, first),
        Change::Empty => check_clear(at, aim, first),
    }
}

fn check_method(
    seen: Seen<'_>,
    at: usize,
    aim: Aim,
    method: Method,
    argument: &Expr,
    first: &mut Option<Refusal>,
)
    ensures { first.new
        ≡ first_in first.old (statements.changed at (aim_seen aim) method
        (judged_of seen.entry argument.now)) }
{
    match aim {
        Aim::Holds(sort) => {
            let operand = Judged {
                at,
                sort: Some(sort),
            };
            let operator = Operator::Method(method.kind);
            let _judged = with_right(seen, at, operator, operand, argument, first);
        }
        Aim::Fixed => refuse_with(seen, at, aim, argument, first),
        Aim::Unknown => refuse_with(seen, at, aim, argument, first),
    }
}

fn check_clear(at: usize, aim: Aim, first: &mut Option<Refusal>)
    ensures { first.new ≡ first_in first.old (statements.cleared at (aim_seen aim)) }
{
    match aim {
        Aim::Holds(sort) => note_if(first, !is_list(sort), at, Cause::Mismatch),
        Aim::Fixed => refuse_target(at, aim, first),
        Aim::Unknown => refuse_target(at, aim, first),
    }
}

pub(crate) fn is_list(sort: Sort) -> bool
    ensures { result ≡ one_list sort }
{
    is(sort, Sort::Path) | is(sort, Sort::Clist)
}
