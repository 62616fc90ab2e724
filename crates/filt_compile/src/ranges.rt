//! Tests of a number that the route holds, as ranges that it is within or isn't.

ghost use Rattle.std.specs.Prelude.{◌≡◌, IfSome};
ghost use Rattle.conf_ast.specs.declared.attribute.Attribute.TheVariants as attributes;
ghost use Rattle.filt_compile.specs.Ranges.{IsBelow, IsHeld, IsPart, IsRange, IsWithin};

use conf_ast::filters::{Attribute, CompareOp, Property};
use filt_code::Number;
use filt_meaning::TTest;

/// The numbers from the first one to the last one; a test holds inside or outside of them.
#[derive(Clone, Copy)]
pub(crate) struct Range {
    pub(crate) number: Number,
    pub(crate) low: u32,
    pub(crate) high: u32,
    pub(crate) inside: bool,
}

/// The range that a test asks for, where it is one of a number.
pub(crate) fn ranged(what: TTest) -> Option<Range>
    ensures { IfSome result (λ range. IsRange what range) }
{
    match what {
        TTest::Attribute(a, op, n) => {
            let number = attribute_number(a)?;
            let range = within(number, op, n)?;
            Some(range)
        }
        TTest::Property(a, property, op, n) => {
            let number = part_number(a, property)?;
            let range = within(number, op, n)?;
            Some(range)
        }
        TTest::Pair(_, _, _, _) => None,
    }
}

/// The number that an attribute is.
fn attribute_number(a: Attribute) -> Option<Number>
    ensures { IfSome result (λ number. IsHeld a number) }
{
    match a {
        Attribute::Preference => Some(Number::Preference),
        Attribute::BgpMed => Some(Number::Med),
        Attribute::BgpLocalPref => Some(Number::LocalPref),
        Attribute::IgpMetric => Some(Number::IgpMetric),
        _ => None,
    }
}

/// The number that a property of an attribute is.
fn part_number(a: Attribute, property: Property) -> Option<Number>
    ensures { IfSome result (λ number. IsPart a property number) }
{
    match a {
        Attribute::Net => {
            let number = net_number(property)?;
            Some(number)
        }
        Attribute::BgpPath => {
            let number = path_number(property)?;
            Some(number)
        }
        Attribute::BgpCommunity => {
            let number = list_number(property)?;
            Some(number)
        }
        _ => None,
    }
}

fn net_number(property: Property) -> Option<Number>
    ensures { IfSome result (λ number. IsPart attributes.Net property number) }
{
    match property {
        Property::Len => Some(Number::NetLength),
        _ => None,
    }
}

fn path_number(property: Property) -> Option<Number>
    ensures { IfSome result (λ number. IsPart attributes.BgpPath property number) }
{
    match property {
        Property::Len => Some(Number::PathLength),
        Property::First => Some(Number::First),
        Property::Last => Some(Number::Last),
        Property::Ip => None,
    }
}

fn list_number(property: Property) -> Option<Number>
    ensures { IfSome result (λ number. IsPart attributes.BgpCommunity property number) }
{
    match property {
        Property::Len => Some(Number::Communities),
        _ => None,
    }
}

/// The range of the numbers that compare so with this one.
fn within(number: Number, op: CompareOp, n: u32) -> Option<Range>
    ensures { IfSome result (λ range. IsWithin number op n range) }
{
    match op {
        CompareOp::Equal => Some(between(number, n, n, true)),
        CompareOp::NotEqual => Some(between(number, n, n, false)),
        CompareOp::Less => Some(below(number, n, true)),
        CompareOp::LessOrEqual => Some(between(number, 0, n, true)),
        CompareOp::Greater => Some(between(number, 0, n, false)),
        CompareOp::GreaterOrEqual => Some(below(number, n, false)),
        CompareOp::Matches => None,
        CompareOp::MatchesNot => None,
    }
}

fn between(number: Number, low: u32, high: u32, inside: bool) -> Range
    ensures { result ≡ record { number = number; low = low; high = high; inside = inside } }
{
    Range {
        number,
        low,
        high,
        inside,
    }
}

/// The numbers below this one; below zero there is none.
fn below(number: Number, n: u32, inside: bool) -> Range
    ensures { IsBelow number n inside result }
{
    if n == 0 {
        between(number, 1, 0, inside)
    } else {
        between(number, 0, n - 1, inside)
    }
}
