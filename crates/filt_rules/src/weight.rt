//! How much filters weigh. Sums stop at 2^127.

ghost use Rattle.std.specs.Prelude.{◌≡◌, ◌+◌, ◌*◌, ◌≤◌, ◌^◌, min, option_map};
ghost use Rattle.conf_ast.specs.declared.filters.Target.{Target};
ghost use Rattle.conf_ast.specs.Filters.{multiplied, added, joined, accessed, changed};
ghost use Rattle.conf_ast.specs.Filters.{expression_of, expressions_of, statement_of};
ghost use Rattle.conf_ast.specs.Filters.{statements_of, block_of};
ghost use Rattle.filt_meaning.specs.Configuration.{filter_where};
ghost use Rattle.filt_types.specs.Scenes.{function_of};
ghost use Rattle.filt_types.specs.Seen.{scene_of};
ghost use Rattle.filt_types.specs.Walk.{access_weight, accesses_of, arms_of, else_of, operands_of};
ghost use Rattle.filt_types.specs.Weight.{weight, weights, optional, act_weight, acts_weight};
ghost use Rattle.filt_types.specs.Weight.{arms_weight, block_weight, of_function, capped};

use conf_ast::Name;
use conf_ast::filters::{Access, AddOp, Arm, Block, Change, Expr, LogicalOp, MulOp, Stmt};
use filt_meaning::Scope;
use filt_types::{Seen, function_named};

/// Where sums of weights stop.
const CAP: u128 = 170141183460469231731687303715884105728;

fn plus(a: u128, b: u128) -> u128
    requires left { a ≤ 2 ^ 127 }
    requires right { b ≤ 2 ^ 127 }
    ensures sum { result ≡ min (a + b) (2 ^ 127) }
    ensures bound { result ≤ 2 ^ 127 }
{
    if a > CAP - b {
        return CAP;
    }
    a + b
}

/// The body of a loop counts as often as a path is long.
fn times(a: u128) -> u128
    requires { a ≤ 2 ^ 127 }
    ensures product { result ≡ min (120 * a) (2 ^ 127) }
    ensures bound { result ≤ 2 ^ 127 }
{
    if a > CAP / 120 {
        return CAP;
    }
    a * 120
}

/// What a call adds for the function. A scope that somebody made by hand may have one that weighs
/// more than where sums stop.
fn function_weight(text: &[u8], scope: &Scope, name: Name) -> u128
    ensures value { result
        ≡ capped (of_function (function_of (scene_of text.now scope.now) name)) }
    ensures bound { result ≤ 2 ^ 127 }
{
    let seen = Seen {
        text,
        scope,
        variables: None,
    };
    match function_named(seen, name) {
        None => 0,
        Some(function) => function.weight.min(CAP),
    }
}

// ---- expressions

/// How much an expression weighs, at most 2^127. What it calls and the scope doesn't have adds
/// nothing.
#[cycle(weight)]
pub fn weigh(text: &[u8], scope: &Scope, e: &Expr) -> u128
    ensures value { result ≡ capped (weight (scene_of text.now scope.now) (expression_of e.now)) }
    ensures bound { result ≤ 2 ^ 127 }
{
    match e {
        Expr::Atom(_) => 1,
        Expr::Name(_) => 1,
        Expr::Call {
            name,
            arguments,
            ..
        } => weigh_call(text, scope, *name, arguments),
        Expr::Group { inner, .. } => plus(1, weigh(text, scope, inner)),
        Expr::Pair { first, second, .. } => weigh_two(text, scope, first, second),
        Expr::Set { .. } => 1,
        Expr::Mask { .. } => 1,
        Expr::Defined { .. } => 1,
        Expr::MethodCall { list, argument, .. } => weigh_two(text, scope, list, argument),
        Expr::Postfix(operand, more) => weigh_accesses(text, scope, operand, more),
        Expr::Not { operand, .. } => plus(1, weigh(text, scope, operand)),
        Expr::Product(operand, more) => weigh_factors(text, scope, operand, more),
        Expr::Sum(operand, more) => weigh_terms(text, scope, operand, more),
        Expr::Compare(_, left, right) => weigh_two(text, scope, left, right),
        Expr::Logical(operand, more) => weigh_joints(text, scope, operand, more),
    }
}

/// An expression of two parts.
#[cycle(weight)]
fn weigh_two(text: &[u8], scope: &Scope, first: &Expr, second: &Expr) -> u128
    ensures value { result
        ≡ capped (1 + weight (scene_of text.now scope.now) (expression_of first.now)
        + weight (scene_of text.now scope.now) (expression_of second.now)) }
    ensures bound { result ≤ 2 ^ 127 }
{
    plus(
        plus(1, weigh(text, scope, first)),
        weigh(text, scope, second),
    )
}

#[cycle(weight)]
fn weigh_all(text: &[u8], scope: &Scope, expressions: &[Expr]) -> u128
    ensures value { result
        ≡ capped (weights (scene_of text.now scope.now) (expressions_of expressions.now)) }
    ensures bound { result ≤ 2 ^ 127 }
{
    let mut sum = 0;
    for e in expressions {
        sum = plus(sum, weigh(text, scope, e));
    }
    sum
}

#[cycle(weight)]
fn weigh_call(text: &[u8], scope: &Scope, name: Name, arguments: &[Expr]) -> u128
    ensures value { result
        ≡ capped (1 + weights (scene_of text.now scope.now) (expressions_of arguments.now)
        + of_function (function_of (scene_of text.now scope.now) name)) }
    ensures bound { result ≤ 2 ^ 127 }
{
    let arguments = weigh_all(text, scope, arguments);
    plus(plus(1, arguments), function_weight(text, scope, name))
}

#[cycle(weight)]
fn weigh_accesses(text: &[u8], scope: &Scope, operand: &Expr, more: &[Access<Expr>]) -> u128
    ensures value { result ≡ capped (weight (scene_of text.now scope.now)
        (accessed (expression_of operand.now) (accesses_of more.now))) }
    ensures bound { result ≤ 2 ^ 127 }
{
    let mut sum = weigh(text, scope, operand);
    for access in more {
        sum = plus(sum, weigh_access(text, scope, access));
    }
    sum
}

#[cycle(weight)]
fn weigh_access(text: &[u8], scope: &Scope, access: &Access<Expr>) -> u128
    ensures value { result ≡ capped (access_weight (scene_of text.now scope.now) access.now) }
    ensures bound { result ≤ 2 ^ 127 }
{
    match access {
        Access::Property(_) => 1,
        Access::Method { argument, .. } => plus(1, weigh(text, scope, argument)),
    }
}

#[cycle(weight)]
fn weigh_factors(text: &[u8], scope: &Scope, operand: &Expr, more: &[(MulOp, Expr)]) -> u128
    ensures value { result ≡ capped (weight (scene_of text.now scope.now)
        (multiplied (expression_of operand.now) (operands_of more.now))) }
    ensures bound { result ≤ 2 ^ 127 }
{
    let mut sum = weigh(text, scope, operand);
    for part in more {
        sum = plus(plus(sum, 1), weigh(text, scope, &part.1));
    }
    sum
}

#[cycle(weight)]
fn weigh_terms(text: &[u8], scope: &Scope, operand: &Expr, more: &[(AddOp, Expr)]) -> u128
    ensures value { result ≡ capped (weight (scene_of text.now scope.now)
        (added (expression_of operand.now) (operands_of more.now))) }
    ensures bound { result ≤ 2 ^ 127 }
{
    let mut sum = weigh(text, scope, operand);
    for part in more {
        sum = plus(plus(sum, 1), weigh(text, scope, &part.1));
    }
    sum
}

#[cycle(weight)]
fn weigh_joints(text: &[u8], scope: &Scope, operand: &Expr, more: &[(LogicalOp, Expr)]) -> u128
    ensures value { result ≡ capped (weight (scene_of text.now scope.now)
        (joined (expression_of operand.now) (operands_of more.now))) }
    ensures bound { result ≤ 2 ^ 127 }
{
    let mut sum = weigh(text, scope, operand);
    for part in more {
        sum = plus(plus(sum, 1), weigh(text, scope, &part.1));
    }
    sum
}

// ---- statements

/// A value that may be left out.
fn weigh_optional(text: &[u8], scope: &Scope, value: &Option<Expr>) -> u128
    ensures value { result
        ≡ capped (optional (scene_of text.now scope.now) (option_map expression_of value.now)) }
    ensures bound { result ≤ 2 ^ 127 }
{
    match value {
        None => 0,
        Some(e) => weigh(text, scope, e),
    }
}

fn weigh_change(text: &[u8], scope: &Scope, change: &Change) -> u128
    ensures value { (target : Target)
        → result ≡ capped (act_weight (scene_of text.now scope.now) (changed target change.now)) }
    ensures bound { result ≤ 2 ^ 127 }
{
    match change {
        Change::Method { argument, .. } => plus(1, weigh(text, scope, argument)),
        Change::Empty => 1,
    }
}

#[cycle(statement_weight)]
fn weigh_statement(text: &[u8], scope: &Scope, s: &Stmt) -> u128
    ensures value { result
        ≡ capped (act_weight (scene_of text.now scope.now) (statement_of s.now)) }
    ensures bound { result ≤ 2 ^ 127 }
{
    match s {
        Stmt::Block(body) => plus(1, weigh_statements(text, scope, body)),
        Stmt::Empty => 1,
        Stmt::Declare { value, .. } => plus(1, weigh_optional(text, scope, value)),
        Stmt::Assign(_, e) => plus(1, weigh(text, scope, e)),
        Stmt::Change(_, change) => weigh_change(text, scope, change),
        Stmt::Unset { .. } => 1,
        Stmt::If(condition, s) => weigh_if(text, scope, condition, s),
        Stmt::IfElse(condition, s, otherwise) => {
            let head = weigh_if(text, scope, condition, s);
            plus(head, weigh_statement(text, scope, otherwise))
        }
        Stmt::Case {
            value,
            arms,
            otherwise,
            ..
        } => weigh_case(text, scope, value, arms, otherwise),
        Stmt::For { list, body, .. } => {
            let head = plus(1, weigh(text, scope, list));
            plus(head, times(weigh_statement(text, scope, body)))
        }
        Stmt::Accept => 1,
        Stmt::Reject => 1,
        Stmt::Return { value, .. } => plus(1, weigh_optional(text, scope, value)),
        Stmt::Print(values) => plus(1, weigh_all(text, scope, values)),
        Stmt::Printn(values) => plus(1, weigh_all(text, scope, values)),
        Stmt::Call {
            name,
            arguments,
            ..
        } => weigh_call(text, scope, *name, arguments),
    }
}

#[cycle(statement_weight)]
fn weigh_if(text: &[u8], scope: &Scope, condition: &Expr, s: &Stmt) -> u128
    ensures value { result
        ≡ capped (1 + weight (scene_of text.now scope.now) (expression_of condition.now)
        + act_weight (scene_of text.now scope.now) (statement_of s.now)) }
    ensures bound { result ≤ 2 ^ 127 }
{
    let head = plus(1, weigh(text, scope, condition));
    plus(head, weigh_statement(text, scope, s))
}

#[cycle(statement_weight)]
fn weigh_case(
    text: &[u8],
    scope: &Scope,
    value: &Expr,
    arms: &[Arm<Stmt>],
    otherwise: &Option<Vec<Stmt>>,
) -> u128
    ensures value { result
        ≡ capped (1 + weight (scene_of text.now scope.now) (expression_of value.now)
        + arms_weight (scene_of text.now scope.now) (arms_of arms.now)
        + acts_weight (scene_of text.now scope.now) (else_of otherwise.now)) }
    ensures bound { result ≤ 2 ^ 127 }
{
    let head = plus(1, weigh(text, scope, value));
    let both = plus(head, weigh_arms(text, scope, arms));
    plus(both, weigh_else(text, scope, otherwise))
}

#[cycle(statement_weight)]
fn weigh_statements(text: &[u8], scope: &Scope, body: &[Stmt]) -> u128
    ensures value { result
        ≡ capped (acts_weight (scene_of text.now scope.now) (statements_of body.now)) }
    ensures bound { result ≤ 2 ^ 127 }
{
    let mut sum = 0;
    for s in body {
        sum = plus(sum, weigh_statement(text, scope, s));
    }
    sum
}

#[cycle(statement_weight)]
fn weigh_arms(text: &[u8], scope: &Scope, arms: &[Arm<Stmt>]) -> u128
    ensures value { result ≡ capped (arms_weight (scene_of text.now scope.now) (arms_of arms.now)) }
    ensures bound { result ≤ 2 ^ 127 }
{
    let mut sum = 0;
    for arm in arms {
        sum = plus(sum, weigh_statements(text, scope, &arm.body));
    }
    sum
}

#[cycle(statement_weight)]
fn weigh_else(text: &[u8], scope: &Scope, otherwise: &Option<Vec<Stmt>>) -> u128
    ensures value { result
        ≡ capped (acts_weight (scene_of text.now scope.now) (else_of otherwise.now)) }
    ensures bound { result ≤ 2 ^ 127 }
{
    match otherwise {
        None => 0,
        Some(body) => weigh_statements(text, scope, body),
    }
}

/// How much the statements of a filter or a function weigh, at most 2^127.
pub fn weigh_block(text: &[u8], scope: &Scope, block: &Block) -> u128
    ensures { result ≡ capped (block_weight (scene_of text.now scope.now) (block_of block.now)) }
{
    plus(1, weigh_statements(text, scope, &block.statements))
}

/// How much a condition weighs, at most 2^127: it is the filter that accepts where it holds, and
/// rejects elsewhere.
pub fn weigh_condition(text: &[u8], scope: &Scope, condition: &Expr) -> u128
    ensures { result
        ≡ capped (block_weight (scene_of text.now scope.now)
        (filter_where (expression_of condition.now))) }
{
    // its block, `if`, `accept` and `reject` weigh 1 each
    plus(4, weigh(text, scope, condition))
}
