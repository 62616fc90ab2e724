//! Which sorts operators take and give, and the sorts of attributes and constants (BIRD User's Guide,
//! "Filters", "Operators" and "Route attributes").

ghost use Rattle.std.specs.Prelude.{◌≡◌};
ghost use Rattle.filt_meaning.specs.Sorts as sorts;
ghost use Rattle.filt_meaning.specs.Rules as rules;
ghost use Rattle.filt_meaning.specs.Rules.{rule_of, rule_of_one, same_sort};

use crate::value::Sort;
use conf_ast::filters::{Attribute, CompareOp, Constant, MethodKind, Property};

/// An operator of two operands.
#[derive(Clone, Copy)]
pub enum Operator {
    /// `+`, `-`, `*` and `/`
    Arithmetic,
    /// `(a, b)`
    Pairing,
    /// `&&` and `||`
    Joining,
    Comparing(CompareOp),
    Method(MethodKind),
}

/// An operator of one operand.
#[derive(Clone, Copy)]
pub enum Single {
    /// `!`
    Negating,
    Property(Property),
}

const ALL: [Sort; 15] = [
    Sort::Int,
    Sort::Bool,
    Sort::Ip,
    Sort::Prefix,
    Sort::Pair,
    Sort::String,
    Sort::Path,
    Sort::Mask,
    Sort::Clist,
    Sort::IntSet,
    Sort::PairSet,
    Sort::PrefixSet,
    Sort::Source,
    Sort::Dest,
    Sort::Origin,
];

/// Whether both are one sort.
pub fn is(sort: Sort, other: Sort) -> bool
    ensures { result ≡ same_sort sort other }
{
    sort == other
}

// ---- two operands

/// Whether the operator takes these sorts.
pub fn takes(operator: Operator, left: Sort, right: Sort) -> bool
    ensures { result ≡ (rule_of operator).takes left right }
{
    match operator {
        Operator::Arithmetic => two_ints(left, right),
        Operator::Pairing => two_ints(left, right),
        Operator::Joining => is(left, Sort::Bool) & is(right, Sort::Bool),
        Operator::Comparing(compare) => compares(compare, left, right),
        Operator::Method(kind) => changes(kind, left, right),
    }
}

fn two_ints(left: Sort, right: Sort) -> bool
    ensures { result ≡ sorts.two_ints left right }
{
    is(left, Sort::Int) & is(right, Sort::Int)
}

fn compares(compare: CompareOp, left: Sort, right: Sort) -> bool
    ensures { result ≡ rules.compares_sorts compare left right }
{
    match compare {
        CompareOp::Equal => compared(left, right),
        CompareOp::NotEqual => compared(left, right),
        CompareOp::Less => ordered(left, right),
        CompareOp::LessOrEqual => ordered(left, right),
        CompareOp::Greater => ordered(left, right),
        CompareOp::GreaterOrEqual => ordered(left, right),
        CompareOp::Matches => matched(left, right),
        CompareOp::MatchesNot => matched(left, right),
    }
}

fn compared(left: Sort, right: Sort) -> bool
    ensures { result ≡ sorts.compared left right }
{
    let is_set = is(left, Sort::IntSet) | is(left, Sort::PairSet) | is(left, Sort::PrefixSet);
    is(left, right) & !is_set & !is(left, Sort::Mask)
}

fn ordered(left: Sort, right: Sort) -> bool
    ensures { result ≡ sorts.ordered left right }
{
    is(left, right) & (is(left, Sort::Int) | is(left, Sort::Pair) | is(left, Sort::Ip))
}

fn matched(left: Sort, right: Sort) -> bool
    ensures { result ≡ sorts.matched left right }
{
    let int = is(left, Sort::Int) & (is(right, Sort::IntSet) | is(right, Sort::Path));
    let pair = is(left, Sort::Pair) & (is(right, Sort::PairSet) | is(right, Sort::Clist));
    let prefix = is(left, Sort::Prefix) & (is(right, Sort::PrefixSet) | is(right, Sort::Prefix));
    let ip = is(left, Sort::Ip) & is(right, Sort::Prefix);
    let path = is(left, Sort::Path) & (is(right, Sort::IntSet) | is(right, Sort::Mask));
    let list = is(left, Sort::Clist) & is(right, Sort::PairSet);
    int | pair | prefix | ip | path | list
}

fn changes(kind: MethodKind, left: Sort, right: Sort) -> bool
    ensures { result ≡ rules.method_takes kind left right }
{
    match kind {
        MethodKind::Prepend => prepended(left, right),
        MethodKind::Add => added(left, right),
        MethodKind::Delete => deleted(left, right),
        MethodKind::Filter => filtered(left, right),
    }
}

fn prepended(left: Sort, right: Sort) -> bool
    ensures { result ≡ sorts.prepended left right }
{
    is(left, Sort::Path) & is(right, Sort::Int)
}

fn added(left: Sort, right: Sort) -> bool
    ensures { result ≡ sorts.added left right }
{
    is(left, Sort::Clist) & (is(right, Sort::Pair) | is(right, Sort::Clist))
}

fn deleted(left: Sort, right: Sort) -> bool
    ensures { result ≡ sorts.deleted left right }
{
    let path = is(left, Sort::Path) & (is(right, Sort::Int) | is(right, Sort::IntSet));
    let other = is(right, Sort::Pair) | is(right, Sort::PairSet) | is(right, Sort::Clist);
    path | (is(left, Sort::Clist) & other)
}

fn filtered(left: Sort, right: Sort) -> bool
    ensures { result ≡ sorts.filtered left right }
{
    let path = is(left, Sort::Path) & is(right, Sort::IntSet);
    path | (is(left, Sort::Clist) & (is(right, Sort::PairSet) | is(right, Sort::Clist)))
}

/// Whether the operator takes that sort on its left at all.
pub fn takes_left(operator: Operator, sort: Sort) -> bool
    ensures { result ≡ rules.left_of (rule_of operator).takes sort }
{
    ALL.iter().any(|right| takes(operator, sort, *right))
}

/// Whether the operator takes that sort on its right at all.
pub fn takes_right(operator: Operator, sort: Sort) -> bool
    ensures { result ≡ rules.right_of (rule_of operator).takes sort }
{
    ALL.iter().any(|left| takes(operator, *left, sort))
}

/// The sort of the value, by that of the left operand.
pub fn value_sort(operator: Operator, left: Sort) -> Sort
    ensures { result ≡ (rule_of operator).gives left }
{
    match operator {
        Operator::Arithmetic => Sort::Int,
        Operator::Pairing => Sort::Pair,
        Operator::Joining => Sort::Bool,
        Operator::Comparing(_) => Sort::Bool,
        Operator::Method(_) => left,
    }
}

// ---- one operand

/// Whether the operator takes that sort.
pub fn takes_one(operator: Single, sort: Sort) -> bool
    ensures { result ≡ (rule_of_one operator).takes sort }
{
    match operator {
        Single::Negating => is(sort, Sort::Bool),
        Single::Property(property) => has_property(property, sort),
    }
}

fn has_property(property: Property, sort: Sort) -> bool
    ensures { result ≡ (rules.property property).takes sort }
{
    match property {
        Property::Len => measured(sort),
        Property::First => is(sort, Sort::Path),
        Property::Last => is(sort, Sort::Path),
        Property::Ip => is(sort, Sort::Prefix),
    }
}

fn measured(sort: Sort) -> bool
    ensures { result ≡ sorts.measured sort }
{
    is(sort, Sort::Prefix) | is(sort, Sort::Path) | is(sort, Sort::Clist)
}

/// The sort of the value, by that of the operand.
pub fn value_sort_of_one(operator: Single, sort: Sort) -> Sort
    ensures { result ≡ (rule_of_one operator).gives sort }
{
    match operator {
        Single::Negating => Sort::Bool,
        Single::Property(property) => property_sort(property),
    }
}

fn property_sort(property: Property) -> Sort
    ensures { (sort : Sort) → result ≡ (rules.property property).gives sort }
{
    match property {
        Property::Len => Sort::Int,
        Property::First => Sort::Int,
        Property::Last => Sort::Int,
        Property::Ip => Sort::Ip,
    }
}

// ---- attributes and constants

/// The sort of what an attribute holds.
pub fn attribute_sort(attribute: Attribute) -> Sort
    ensures { result ≡ rules.sort_of_attribute attribute }
{
    match attribute {
        Attribute::Net => Sort::Prefix,
        Attribute::Preference => Sort::Int,
        Attribute::Gw => Sort::Ip,
        Attribute::From => Sort::Ip,
        Attribute::BgpNextHop => Sort::Ip,
        Attribute::Proto => Sort::String,
        Attribute::Source => Sort::Source,
        Attribute::Dest => Sort::Dest,
        Attribute::BgpPath => Sort::Path,
        Attribute::BgpOrigin => Sort::Origin,
        Attribute::BgpMed => Sort::Int,
        Attribute::BgpLocalPref => Sort::Int,
        Attribute::IgpMetric => Sort::Int,
        Attribute::BgpCommunity => Sort::Clist,
    }
}

/// The sort of a constant of the language.
pub fn constant_sort(constant: Constant) -> Sort
    ensures { result ≡ rules.sort_of_constant constant }
{
    match constant {
        Constant::RtsStatic => Sort::Source,
        Constant::RtsBgp => Sort::Source,
        Constant::RtdUnicast => Sort::Dest,
        Constant::RtdRouter => Sort::Dest,
        Constant::RtdBlackhole => Sort::Dest,
        Constant::RtdUnreachable => Sort::Dest,
        Constant::RtdProhibit => Sort::Dest,
        Constant::OriginIgp => Sort::Origin,
        Constant::OriginEgp => Sort::Origin,
        Constant::OriginIncomplete => Sort::Origin,
    }
}
