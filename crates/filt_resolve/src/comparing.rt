//! Comparisons of what a route holds with what a filter says, as trees without boxes.

ghost use Rattle.std.specs.Prelude.{◌≡◌, ◌≤◌, ◌+◌, ◌∷◌, [], ℕ, IfSome, Ok};
ghost use Rattle.filt_meaning.specs.Meaning.{attribute, compare_of, given, on_two};
ghost use Rattle.filt_meaning.specs.declared.tree.TAccess.TheVariants as accesses;
ghost use Rattle.filt_meaning.specs.Trees as trees;
ghost use Rattle.filt_meaning.specs.Steps.{expr_steps};
ghost use Rattle.filt_meaning.specs.Trees.{Tables};
ghost use Rattle.filt_meaning.specs.Operators.{pair_of};
ghost use Rattle.filt_meaning.specs.Values.{VInt, VPair};

use conf_ast::filters::{Attribute, CompareOp, Property};
use filt_meaning::{Fixed, TAccess, TExpr, TTest};

/// The comparison of two operands.
pub(crate) fn comparison(op: CompareOp, left: Box<TExpr>, right: Box<TExpr>) -> TExpr
    ensures meaning { (t : Tables) → trees.expr result t
        ≡ on_two (trees.expr left.value t) (trees.expr right.value t) (compare_of op) }
    ensures steps { (called : ℕ → ℕ) → expr_steps called result ≤ 3 + expr_steps called
        left.value + expr_steps called right.value }
{
    match test(op, &left, &right) {
        Some(test) => TExpr::Test(test),
        None => TExpr::Compare(op, left, right),
    }
}

/// The test that a comparison is, if it is one.
fn test(op: CompareOp, left: &TExpr, right: &TExpr) -> Option<TTest>
    ensures { IfSome result (λ test. (t : Tables) → trees.test t.around test
        ≡ on_two (trees.expr left.now t) (trees.expr right.now t) (compare_of op)) }
{
    match right {
        TExpr::Value(Fixed::Int(number)) => {
            let found = number_test(op, left, *number)?;
            Some(found)
        }
        TExpr::Attribute(a) => {
            let found = pair_test(op, left, *a)?;
            Some(found)
        }
        _ => None,
    }
}

fn number_test(op: CompareOp, left: &TExpr, number: u32) -> Option<TTest>
    ensures { IfSome result (λ test. (t : Tables) → trees.test t.around test
        ≡ on_two (trees.expr left.now t) (given (Ok (VInt number))) (compare_of op)) }
{
    match left {
        TExpr::Attribute(a) => Some(TTest::Attribute(*a, op, number)),
        TExpr::Access(of, more) => {
            let found = property_test(op, of, more, number)?;
            Some(found)
        }
        _ => None,
    }
}

fn property_test(op: CompareOp, of: &TExpr, more: &[TAccess<TExpr>], number: u32) -> Option<TTest>
    ensures { IfSome result (λ test. (t : Tables) → trees.test t.around test
        ≡ on_two (trees.accessed (trees.expr of.now t) (trees.accesses_of t more.now))
        (given (Ok (VInt number))) (compare_of op)) }
{
    let property = lone_property(more)?;
    match of {
        TExpr::Attribute(a) => Some(TTest::Property(*a, property, op, number)),
        _ => None,
    }
}

/// The property, where it is the only thing behind an operand.
fn lone_property(more: &[TAccess<TExpr>]) -> Option<Property>
    ensures { IfSome result (λ property. more.now ≡ accesses.Property property ∷ []) }
{
    if more.len() != 1 {
        return None;
    }
    match &more[0] {
        TAccess::Property(property) => Some(*property),
        TAccess::Method(_, _) => None,
    }
}

fn pair_test(op: CompareOp, left: &TExpr, a: Attribute) -> Option<TTest>
    ensures { IfSome result (λ test. (t : Tables) → trees.test t.around test
        ≡ on_two (trees.expr left.now t) (attribute t.around a) (compare_of op)) }
{
    let pair = literal_pair(left)?;
    Some(TTest::Pair(pair.0, pair.1, op, a))
}

/// The pair of two literals.
fn literal_pair(e: &TExpr) -> Option<(u16, u16)>
    ensures { IfSome result (λ p. (t : Tables) → trees.expr e.now t ≡ given (Ok (VPair p))) }
{
    match e {
        TExpr::Pair(first, second) => {
            let a = literal(first)?;
            let b = literal(second)?;
            let both = joined(a, b)?;
            Some(both)
        }
        _ => None,
    }
}

/// The number that a literal is.
fn literal(e: &TExpr) -> Option<u32>
    ensures { IfSome result (λ n. (t : Tables) → trees.expr e.now t ≡ given (Ok (VInt n))) }
{
    match e {
        TExpr::Value(Fixed::Int(number)) => Some(*number),
        _ => None,
    }
}

fn joined(a: u32, b: u32) -> Option<(u16, u16)>
    ensures { IfSome result (λ p. pair_of (VInt a) (VInt b) ≡ Ok (VPair p)) }
{
    if a < 65536 && b < 65536 {
        Some((a as u16, b as u16))
    } else {
        None
    }
}
