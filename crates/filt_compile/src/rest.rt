//! What follows an operand: operators, each with its right operand, from left to right.

ghost use Rattle.std.specs.Prelude.{◌≡◌, ◌<◌, Some, length, map, slice_get};
ghost use Rattle.filt_code.specs.declared.instr.OfTwo.TheVariants as of_two;
ghost use Rattle.filt_compile.specs.Parts.{part_of, part_of_access, parts_of, Joined, Two};

use conf_ast::filters::{AddOp, CompareOp, LogicalOp, MethodKind, MulOp};
use filt_code::{OfOne, OfTwo};
use filt_meaning::{TAccess, TExpr};

/// What makes another value of a value.
#[derive(Clone, Copy)]
pub(crate) enum Step<'a> {
    One(OfOne),
    Two(OfTwo, &'a TExpr),
    Joined(LogicalOp, &'a TExpr),
}

/// What follows an operand.
#[derive(Clone, Copy)]
pub(crate) enum Rest<'a> {
    Not,
    Empty,
    Pair(&'a TExpr),
    Method(MethodKind, &'a TExpr),
    Compare(CompareOp, &'a TExpr),
    Accesses(&'a [TAccess<TExpr>]),
    Factors(&'a [(MulOp, TExpr)]),
    Terms(&'a [(AddOp, TExpr)]),
    Joints(&'a [(LogicalOp, TExpr)]),
}

impl<'a> Rest<'a> {
    pub(crate) fn len(&self) -> usize
        ensures { result ≡ length (parts_of self.now) }
    {
        match self {
            Rest::Not => 1,
            Rest::Empty => 1,
            Rest::Pair(_) => 1,
            Rest::Method(_, _) => 1,
            Rest::Compare(_, _) => 1,
            Rest::Accesses(more) => more.len(),
            Rest::Factors(more) => more.len(),
            Rest::Terms(more) => more.len(),
            Rest::Joints(more) => more.len(),
        }
    }

    pub(crate) fn step(&self, n: usize) -> Step<'a>
        requires { n < length (parts_of self.now) }
        ensures { slice_get (parts_of self.now) n ≡ Some (part_of result) }
    {
        match self {
            Rest::Not => Step::One(OfOne::Not),
            Rest::Empty => Step::One(OfOne::Empty),
            Rest::Pair(right) => Step::Two(OfTwo::Pair, *right),
            Rest::Method(kind, right) => Step::Two(OfTwo::Method(*kind), *right),
            Rest::Compare(compare, right) => Step::Two(OfTwo::Compare(*compare), *right),
            Rest::Accesses(more) => access_step(*more, n),
            Rest::Factors(more) => factor_step(*more, n),
            Rest::Terms(more) => term_step(*more, n),
            Rest::Joints(more) => joint_step(*more, n),
        }
    }
}

fn access_step(more: &[TAccess<TExpr>], n: usize) -> Step<'_>
    requires { n < length more.now }
    ensures { slice_get (map part_of_access more.now) n ≡ Some (part_of result) }
{
    match &more[n] {
        TAccess::Property(property) => Step::One(OfOne::Property(*property)),
        TAccess::Method(kind, right) => Step::Two(OfTwo::Method(*kind), right),
    }
}

fn factor_step(more: &[(MulOp, TExpr)], n: usize) -> Step<'_>
    requires { n < length more.now }
    ensures { slice_get (map (λ x. Two (of_two.Factor x.0) x.1) more.now) n
        ≡ Some (part_of result) }
{
    let part = &more[n];
    Step::Two(OfTwo::Factor(part.0), &part.1)
}

fn term_step(more: &[(AddOp, TExpr)], n: usize) -> Step<'_>
    requires { n < length more.now }
    ensures { slice_get (map (λ x. Two (of_two.Term x.0) x.1) more.now) n ≡ Some (part_of result) }
{
    let part = &more[n];
    Step::Two(OfTwo::Term(part.0), &part.1)
}

fn joint_step(more: &[(LogicalOp, TExpr)], n: usize) -> Step<'_>
    requires { n < length more.now }
    ensures { slice_get (map (λ x. Joined x.0 x.1) more.now) n ≡ Some (part_of result) }
{
    let part = &more[n];
    Step::Joined(part.0, &part.1)
}
