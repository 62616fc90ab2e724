// The pass over statements: which variables are seen behind each, and the first refusal of all.

ghost use Rattle.std.specs.Prelude.{◌≡◌, Option, OnOk, [], ◌∷◌, ◌++◌, option_map};
ghost use Rattle.conf_ast.specs.Filters.{expression_of, statement_of, statements_of};
ghost use Rattle.filt_meaning.specs.declared.value.Sort.{Sort};
ghost use Rattle.filt_meaning.specs.Sorts.{one_bool, one_list};
ghost use Rattle.filt_types.specs.Expressions as expressions;
ghost use Rattle.filt_types.specs.Expressions.{is_other, wanted};
ghost use Rattle.filt_types.specs.Items as items;
ghost use Rattle.filt_types.specs.Items.{common, sorts_of_items};
ghost use Rattle.filt_rules.specs.Passes.{around_in, body_seen, own, inside};
ghost use Rattle.filt_types.specs.Refusals.{first_in};
ghost use Rattle.filt_meaning.specs.Rules.{one_of_cases};
ghost use Rattle.filt_types.specs.Scenes as scenes;
ghost use Rattle.filt_types.specs.Seen.{scene_in, variables_in};
ghost use Rattle.filt_types.specs.Statements as statements;
ghost use Rattle.filt_types.specs.Walk.{all_judged, arms_of, common_seen, else_of, judged_of};

use crate::targets::{check_assign, check_change, check_unset, check_value, is_list};
use bits_ip::OutOfMemory;
use conf_ast::Name;
use conf_ast::filters::{Arm, Expr, Item, Stmt, VariableType};
use filt_meaning::sorts::is;
use filt_meaning::{Scope, Sort, type_sort};
use filt_types::{
    Cause, Common, Refusal, Seen, Variable, Variables, all_items, call, declaring, differ,
    has_other_sort, judge, judge_each, note, note_if,
};

/// Where statements stand: the source, what the configuration declares before them, and the sort of
/// what the function gives that they are of, if it gives something. A filter gives nothing.
#[derive(Clone, Copy)]
pub struct Around<'a> {
    pub text: &'a [u8],
    pub scope: &'a Scope,
    pub gives: Option<Sort>,
}

/// What is seen there with these variables.
pub(crate) fn seen_at<'s, 'a>(around: Around<'a>, variables: &'s Variables<'a>) -> Seen<'s>
    ensures scene { scene_in result ≡ (around_in around.entry).scene }
    ensures variables { variables_in result ≡ variables.now }
{
    Seen {
        text: around.text,
        scope: around.scope,
        variables: Some(variables),
    }
}

// ---- conditions

/// A condition.
pub(crate) fn want_bool(seen: Seen<'_>, e: &Expr, first: &mut Option<Refusal>)
    ensures { first.new
        ≡ first_in first.old (wanted one_bool
        (judged_of seen.entry e.now)) }
{
    let judged = judge(seen, e, first);
    note_if(first, is_no_bool(judged.sort), judged.at, Cause::Mismatch);
}

fn is_no_bool(sort: Option<Sort>) -> bool
    ensures { result ≡ is_other one_bool sort }
{
    match sort {
        None => false,
        Some(sort) => !is(sort, Sort::Bool),
    }
}

// ---- declarations

/// The first value of a variable.
fn check_initial(
    seen: Seen<'_>,
    variable_type: VariableType,
    value: &Option<Expr>,
    first: &mut Option<Refusal>,
)
    ensures { first.new
        ≡ first_in first.old (statements.initial (scene_in seen.entry) (variables_in seen.entry)
        variable_type (option_map expression_of value.now)) }
{
    match value {
        None => (),
        Some(e) => check_value(seen, type_sort(variable_type), e, first),
    }
}

/// What is refused of a declaration.
fn check_declare(
    seen: Seen<'_>,
    variable_type: VariableType,
    name: Name,
    value: &Option<Expr>,
    first: &mut Option<Refusal>,
)
    ensures { first.new
        ≡ first_in first.old (statements.declare (scene_in seen.entry) (variables_in seen.entry)
        variable_type name (option_map expression_of value.now)).refusals }
{
    declaring(seen, name, first);
    check_initial(seen, variable_type, value, first);
}

/// One variable more.
pub(crate) fn declare<'a>(
    around: Around<'a>,
    variables: &mut Variables<'a>,
    name: Name,
    sort: Sort,
    of_loop: bool,
) -> Result<(), OutOfMemory>
    ensures { OnOk result (variables.new
        ≡ variables.old
        ++ scenes.declared (around_in around.entry).scene name sort of_loop ∷ []) }
{
    let name = name.bytes(around.text);
    variables.push(Variable {
        name,
        sort,
        of_loop,
    })?;
    Ok(())
}

// ---- `case`

fn is_no_label(sort: Option<Sort>) -> bool
    ensures { result ≡ is_other one_of_cases sort }
{
    match sort {
        None => false,
        Some(sort) => !is_label(sort),
    }
}

/// Whether labels can be of that sort.
fn is_label(sort: Sort) -> bool
    ensures { result ≡ one_of_cases sort }
{
    match sort {
        Sort::Int => true,
        Sort::Pair => true,
        Sort::Prefix => true,
        _ => false,
    }
}

/// The sort of the value, where labels can be of it.
fn value_common(sort: Option<Sort>) -> Common
    ensures { common_seen result ≡ statements.of_value sort }
{
    match sort {
        None => Common::NoneYet,
        Some(sort) => {
            if is_label(sort) {
                return Common::One(sort);
            }
            Common::NoneYet
        }
    }
}

/// The labels of all arms, behind what is known of the value's sort.
fn all_labels(
    seen: Seen<'_>,
    arms: &[Arm<Stmt>],
    before: Common,
    first: &mut Option<Refusal>,
) -> Common
    ensures common { common_seen result
        ≡ common (common_seen before)
        (sorts_of_items (scene_in seen.entry) (statements.labels (arms_of arms.now))) }
    ensures first { first.new
        ≡ first_in first.old
        (items.all_items (scene_in seen.entry) (statements.labels (arms_of arms.now))) }
{
    let mut common = before;
    for arm in arms {
        common = all_items(seen, &arm.labels, common, first).common;
    }
    common
}

/// Whether an arm has no labels.
fn lacks_labels(arms: &[Arm<Stmt>]) -> bool
    ensures { result ≡ statements.lacks_labels (arms_of arms.now) }
{
    arms.iter().any(|arm| lacks_any(&arm.labels))
}

fn lacks_any(labels: &[Item]) -> bool
    ensures { result ≡ items.is_empty labels.now }
{
    match labels {
        [] => true,
        [_, ..] => false,
    }
}

/// The value of a `case`, and its labels.
fn check_cases(
    seen: Seen<'_>,
    at: usize,
    value: &Expr,
    arms: &[Arm<Stmt>],
    first: &mut Option<Refusal>,
)
    ensures { first.new
        ≡ first_in first.old (statements.cases (scene_in seen.entry) at
        (judged_of seen.entry value.now) (arms_of arms.now)) }
{
    let judged = judge(seen, value, first);
    note_if(first, is_no_label(judged.sort), judged.at, Cause::Mismatch);
    let common = all_labels(seen, arms, value_common(judged.sort), first);
    note_if(
        first,
        lacks_labels(arms) | differ(common),
        at,
        Cause::Mismatch,
    );
}

// ---- `for`

/// The sort of the lists that have elements of such a type.
fn list_sort(variable_type: VariableType) -> Option<Sort>
    ensures { result ≡ statements.lists_of variable_type }
{
    match variable_type {
        VariableType::Int => Some(Sort::Path),
        VariableType::Pair => Some(Sort::Clist),
        _ => None,
    }
}

fn is_no_list(sort: Option<Sort>) -> bool
    ensures { result ≡ is_other one_list sort }
{
    match sort {
        None => false,
        Some(sort) => !is_list(sort),
    }
}

/// Whether it is a list, though of other elements, or no list has such elements.
fn is_other_list(wanted: Option<Sort>, found: Option<Sort>) -> bool
    ensures { result ≡ statements.is_other_list wanted found }
{
    match wanted {
        None => true,
        Some(wanted) => match found {
            None => false,
            Some(found) => is_list(found) & !is(wanted, found),
        },
    }
}

/// The list of a loop, and the name of its variable.
fn check_head(
    seen: Seen<'_>,
    at: usize,
    variable_type: VariableType,
    name: Name,
    list: &Expr,
    first: &mut Option<Refusal>,
)
    ensures { first.new
        ≡ first_in first.old (statements.over_list at variable_type
        (judged_of seen.entry list.now) ++ scenes.declaring (scene_in seen.entry)
        (variables_in seen.entry) name) }
{
    let judged = judge(seen, list, first);
    note_if(first, is_no_list(judged.sort), judged.at, Cause::Mismatch);
    let is_refused = is_other_list(list_sort(variable_type), judged.sort);
    note_if(first, is_refused, at, Cause::Mismatch);
    declaring(seen, name, first);
}

// ---- `return`

fn check_return(
    seen: Seen<'_>,
    gives: Option<Sort>,
    at: usize,
    value: &Option<Expr>,
    first: &mut Option<Refusal>,
)
    ensures { first.new
        ≡ first_in first.old
        (statements.return (record { scene = scene_in seen.entry; gives = gives })
        (variables_in seen.entry) at (option_map expression_of value.now)) }
{
    match value {
        None => (),
        Some(e) => check_returned(seen, gives, at, e, first),
    }
}

fn check_returned(
    seen: Seen<'_>,
    gives: Option<Sort>,
    at: usize,
    e: &Expr,
    first: &mut Option<Refusal>,
)
    ensures { first.new
        ≡ first_in first.old (statements.returned at gives
        (judged_of seen.entry e.now)) }
{
    match gives {
        None => {
            note(first, at, Cause::Mismatch);
            let _judged = judge(seen, e, first);
        }
        Some(sort) => {
            let judged = judge(seen, e, first);
            note_if(
                first,
                has_other_sort(sort, judged.sort),
                at,
                Cause::Mismatch,
            );
        }
    }
}

// ---- statements

/// What is refused in a statement itself, without the statements in it.
fn check_own(seen: Seen<'_>, gives: Option<Sort>, s: &Stmt, first: &mut Option<Refusal>)
    ensures { first.new
        ≡ first_in first.old (own (record { scene = scene_in seen.entry; gives = gives })
        (variables_in seen.entry) (statement_of s.now)) }
{
    match s {
        Stmt::Block(_) | Stmt::Empty | Stmt::Accept | Stmt::Reject => (),
        Stmt::Declare {
            variable_type,
            name,
            value,
        } => check_declare(seen, *variable_type, *name, value, first),
        Stmt::Assign(target, e) => check_assign(seen, *target, e, first),
        Stmt::Change(target, change) => check_change(seen, *target, change, first),
        Stmt::Unset {
            attribute_at,
            attribute,
            ..
        } => check_unset(*attribute_at, *attribute, first),
        Stmt::If(condition, _) => want_bool(seen, condition, first),
        Stmt::IfElse(condition, _, _) => want_bool(seen, condition, first),
        Stmt::Case {
            at,
            value,
            arms,
            ..
        } => check_cases(seen, *at, value, arms, first),
        Stmt::For {
            at,
            variable_type,
            name,
            list,
            ..
        } => check_head(seen, *at, *variable_type, *name, list, first),
        Stmt::Return { at, value } => check_return(seen, gives, *at, value, first),
        Stmt::Print(values) => judge_each(seen, values, first),
        Stmt::Printn(values) => judge_each(seen, values, first),
        Stmt::Call {
            name,
            arguments,
            ..
        } => check_call(seen, *name, arguments, first),
    }
}

/// A call whose value, if it has one, is dropped.
fn check_call(seen: Seen<'_>, name: Name, arguments: &[Expr], first: &mut Option<Refusal>)
    ensures { first.new
        ≡ first_in first.old (expressions.call name (scenes.function_of (scene_in seen.entry) name)
        (all_judged seen.entry arguments.now)) }
{
    let _sort = call(seen, name, arguments, first);
}

/// A statement. Behind it `variables` are those that are seen there.
#[cycle(statements)]
pub(crate) fn check<'a>(
    around: Around<'a>,
    s: &Stmt,
    variables: &mut Variables<'a>,
    first: &mut Option<Refusal>,
) -> Result<(), OutOfMemory>
    ensures seen { OnOk result (variables.new
        ≡ (statements.check (around_in around.entry) variables.old
        (statement_of s.now)).variables) }
    ensures first { OnOk result (first.new
        ≡ first_in first.old (statements.check (around_in around.entry)
        variables.old (statement_of s.now)).refusals) }
{
    check_own(seen_at(around, variables), around.gives, s, first);
    check_inside(around, s, variables, first)?;
    Ok(())
}

/// The statements in a statement, and what it declares.
#[cycle(statements)]
fn check_inside<'a>(
    around: Around<'a>,
    s: &Stmt,
    variables: &mut Variables<'a>,
    first: &mut Option<Refusal>,
) -> Result<(), OutOfMemory>
    ensures seen { OnOk result (variables.new
        ≡ (inside (around_in around.entry) variables.old
        (statement_of s.now)).variables) }
    ensures first { OnOk result (first.new
        ≡ first_in first.old (inside (around_in around.entry)
        variables.old (statement_of s.now)).refusals) }
{
    match s {
        Stmt::Block(body) => check_block(around, body, variables, first),
        Stmt::Empty => Ok(()),
        Stmt::Declare {
            variable_type,
            name,
            ..
        } => declare(around, variables, *name, type_sort(*variable_type), false),
        Stmt::Assign(_, _) => Ok(()),
        Stmt::Change(_, _) => Ok(()),
        Stmt::Unset { .. } => Ok(()),
        Stmt::If(_, s) => check(around, s, variables, first),
        Stmt::IfElse(_, s, otherwise) => {
            check(around, s, variables, first)?;
            check(around, otherwise, variables, first)
        }
        Stmt::Case {
            arms,
            otherwise,
            ..
        } => {
            check_arms(around, arms, variables, first)?;
            check_else(around, otherwise, variables, first)
        }
        Stmt::For {
            variable_type,
            name,
            body,
            ..
        } => check_loop(around, *variable_type, *name, body, variables, first),
        Stmt::Accept => Ok(()),
        Stmt::Reject => Ok(()),
        Stmt::Return { .. } => Ok(()),
        Stmt::Print(_) => Ok(()),
        Stmt::Printn(_) => Ok(()),
        Stmt::Call { .. } => Ok(()),
    }
}

/// The statements of a block. Its variables aren't seen behind it.
#[cycle(statements)]
fn check_block<'a>(
    around: Around<'a>,
    body: &[Stmt],
    variables: &mut Variables<'a>,
    first: &mut Option<Refusal>,
) -> Result<(), OutOfMemory>
    ensures seen { OnOk result
        (variables.new ≡ variables.old) }
    ensures first { OnOk result (first.new
        ≡ first_in first.old (statements.check_all (around_in around.entry)
        variables.old (statements_of body.now)).refusals) }
{
    let depth = variables.len();
    check_all(around, body, variables, first)?;
    variables.truncate(depth);
    Ok(())
}

/// The body of a loop, with its variable.
#[cycle(statements)]
fn check_loop<'a>(
    around: Around<'a>,
    variable_type: VariableType,
    name: Name,
    body: &Stmt,
    variables: &mut Variables<'a>,
    first: &mut Option<Refusal>,
) -> Result<(), OutOfMemory>
    ensures seen { OnOk result (variables.new
        ≡ (body_seen (around_in around.entry) variables.old variable_type
        name (statement_of body.now)).variables) }
    ensures first { OnOk result (first.new
        ≡ first_in first.old (body_seen (around_in around.entry)
        variables.old variable_type name (statement_of body.now)).refusals) }
{
    let depth = variables.len();
    declare(around, variables, name, type_sort(variable_type), true)?;
    check(around, body, variables, first)?;
    variables.remove(depth)?;
    Ok(())
}

/// Statements, one after another.
#[cycle(statements)]
pub(crate) fn check_all<'a>(
    around: Around<'a>,
    body: &[Stmt],
    variables: &mut Variables<'a>,
    first: &mut Option<Refusal>,
) -> Result<(), OutOfMemory>
    ensures seen { OnOk result (variables.new
        ≡ (statements.check_all (around_in around.entry) variables.old
        (statements_of body.now)).variables) }
    ensures first { OnOk result (first.new
        ≡ first_in first.old (statements.check_all (around_in around.entry)
        variables.old (statements_of body.now)).refusals) }
{
    for s in body {
        check(around, s, variables, first)?;
    }
    Ok(())
}

/// What stands in one arm is seen in those behind it.
#[cycle(statements)]
fn check_arms<'a>(
    around: Around<'a>,
    arms: &[Arm<Stmt>],
    variables: &mut Variables<'a>,
    first: &mut Option<Refusal>,
) -> Result<(), OutOfMemory>
    ensures seen { OnOk result (variables.new
        ≡ (statements.check_arms (around_in around.entry) variables.old
        (arms_of arms.now)).variables) }
    ensures first { OnOk result (first.new
        ≡ first_in first.old (statements.check_arms (around_in around.entry)
        variables.old (arms_of arms.now)).refusals) }
{
    for arm in arms {
        check_all(around, &arm.body, variables, first)?;
    }
    Ok(())
}

/// What stands behind `else:`, if anything.
#[cycle(statements)]
fn check_else<'a>(
    around: Around<'a>,
    otherwise: &Option<Vec<Stmt>>,
    variables: &mut Variables<'a>,
    first: &mut Option<Refusal>,
) -> Result<(), OutOfMemory>
    ensures seen { OnOk result (variables.new
        ≡ (statements.check_all (around_in around.entry) variables.old
        (else_of otherwise.now)).variables) }
    ensures first { OnOk result (first.new
        ≡ first_in first.old (statements.check_all (around_in around.entry)
        variables.old (else_of otherwise.now)).refusals) }
{
    match otherwise {
        None => Ok(()),
        Some(body) => {
            check_all(around, body, variables, first)?;
            Ok(())
        }
    }
}
