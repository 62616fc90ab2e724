//! Calls of functions that are one question, which is asked in their place.

ghost use Rattle.std.specs.Prelude.{◌≡◌, [], ◌∷◌, All, true, IfSome, IsTrue, List};
ghost use Rattle.conf_ast.specs.declared.attribute.Attribute.TheVariants as attributes;
ghost use Rattle.conf_ast.specs.declared.filters.CompareOp.TheVariants as compare_ops;
ghost use Rattle.filt_code.specs.declared.instr.Effect.TheVariants as effects;
ghost use Rattle.filt_code.specs.declared.instr.Instr.TheVariants as instrs;
ghost use Rattle.filt_code.specs.declared.instr.OfOne.TheVariants as of_one;
ghost use Rattle.filt_code.specs.declared.instr.OfTwo.TheVariants as of_two;
ghost use Rattle.filt_meaning.specs.Seen.{val_of_fixed};
ghost use Rattle.filt_meaning.specs.Values.{VInt, VPrefixSet};
ghost use Rattle.filt_meaning.specs.declared.tree.TExpr.{TExpr};
ghost use Rattle.filt_meaning.specs.declared.value.Sort.TheVariants as sorts;
ghost use Rattle.filt_compile.specs.Emits.{IsAlways, IsBody, IsCalled, IsIntAt, IsKnown};

use crate::seen::Seen;
use conf_ast::filters::{Attribute, CompareOp, Property};
use filt_code::{Effect, Instr, OfOne, OfTwo, Question};
use filt_meaning::{Fixed, Sort, TExpr, TTest};
use filt_sets::PrefixSet;

/// The question that a call asks, where that is all that the function does with these arguments.
pub(crate) fn called_question<'a>(
    seen: &Seen<'_, 'a>,
    number: usize,
    es: &[TExpr],
) -> Option<Question<'a>>
    ensures { IfSome result (λ q. IsCalled seen.now number es.now q) }
{
    let routines = seen.routines;
    match routines.get(number) {
        Some(routine) => body_question(routine.code.as_slice(), es),
        None => None,
    }
}

/// The question that a function's code asks, where its arguments stand in the source.
fn body_question<'a>(code: &[Instr<'a>], es: &[TExpr]) -> Option<Question<'a>>
    ensures { IfSome result (λ q. IsBody code.now es.now q) }
{
    if are_known(es) {
        known_body(code, es)
    } else {
        None
    }
}

fn known_body<'a>(code: &[Instr<'a>], es: &[TExpr]) -> Option<Question<'a>>
    requires { All IsKnown es.now }
    ensures { IfSome result (λ q. IsBody code.now es.now q) }
{
    match code {
        [held, right, compare, last] => compared(held, right, compare, last, es),
        [held, part, local, compare, last] => part_compared(held, part, local, compare, last, es),
        [asked, unmet, over, met, turn, last] => test_given(asked, unmet, over, met, turn, last),
        _ => None,
    }
}

/// A comparison of an attribute, which is given.
fn compared<'a>(
    held: &Instr<'a>,
    right: &Instr<'a>,
    compare: &Instr<'a>,
    last: &Instr<'a>,
    es: &[TExpr],
) -> Option<Question<'a>>
    requires { All IsKnown es.now }
    ensures { IfSome result (λ q. IsBody
        (held.now ∷ right.now ∷ compare.now ∷ last.now ∷ []) es.now q) }
{
    match pushed(right) {
        Some(known) => net_in(held, known, compare, last),
        None => with_argument(held, right, compare, last, es),
    }
}

/// Whether the net is in a set.
fn net_in<'a>(
    held: &Instr<'a>,
    known: &'a Fixed,
    compare: &Instr<'a>,
    last: &Instr<'a>,
) -> Option<Question<'a>>
    ensures { (es : List TExpr) → All IsKnown es → IfSome result (λ q. IsBody
        (held.now ∷ instrs.Do (effects.Push known.entry) ∷ compare.now ∷ last.now ∷ []) es q) }
{
    let set = set_of(known)?;
    if is_net_match(held, compare, last) {
        Some(Question::NetIn(set))
    } else {
        None
    }
}

/// `net`, `~` with a right side in between, and the end.
fn is_net_match(held: &Instr<'_>, compare: &Instr<'_>, last: &Instr<'_>) -> bool
    ensures { result ≡ true → (held.now ≡ instrs.Do (effects.Attribute attributes.Net))
        × (compare.now ≡ instrs.Do (effects.Two (of_two.Compare compare_ops.Matches)))
        × (last.now ≡ instrs.Return) }
{
    is_net(held) && is_matches(compare) && is_return(last)
}

/// The test of an attribute that compares it with an argument.
fn with_argument<'a>(
    held: &Instr<'a>,
    local: &Instr<'a>,
    compare: &Instr<'a>,
    last: &Instr<'a>,
    es: &[TExpr],
) -> Option<Question<'a>>
    requires { All IsKnown es.now }
    ensures { IfSome result (λ q. IsBody
        (held.now ∷ local.now ∷ compare.now ∷ last.now ∷ []) es.now q) }
{
    let attribute = attribute(held)?;
    let place = place(local)?;
    let operator = operator(compare)?;
    let number = number(es, place)?;
    if is_return(last) {
        Some(Question::Test(TTest::Attribute(attribute, operator, number)))
    } else {
        None
    }
}

/// The test of a property that compares it with an argument.
fn part_compared<'a>(
    held: &Instr<'a>,
    part: &Instr<'a>,
    local: &Instr<'a>,
    compare: &Instr<'a>,
    last: &Instr<'a>,
    es: &[TExpr],
) -> Option<Question<'a>>
    requires { All IsKnown es.now }
    ensures { IfSome result (λ q. IsBody
        (held.now ∷ part.now ∷ local.now ∷ compare.now ∷ last.now ∷ []) es.now q) }
{
    let attribute = attribute(held)?;
    let property = property(part)?;
    let place = place(local)?;
    let operator = operator(compare)?;
    let number = number(es, place)?;
    if is_return(last) {
        Some(Question::Test(TTest::Property(attribute, property, operator, number)))
    } else {
        None
    }
}

/// A test whose answer is put, by two ways to it, and given.
fn test_given<'a>(
    asked: &Instr<'a>,
    unmet: &Instr<'a>,
    over: &Instr<'a>,
    met: &Instr<'a>,
    turn: &Instr<'a>,
    last: &Instr<'a>,
) -> Option<Question<'a>>
    ensures { (es : List TExpr) → All IsKnown es → IfSome result (λ q. IsBody (asked.now ∷ unmet.now
        ∷ over.now ∷ met.now ∷ turn.now ∷ last.now ∷ []) es q) }
{
    let question = question(asked)?;
    if are_ways(unmet, over, met, turn, last) {
        Some(question)
    } else {
        None
    }
}

/// The two ways behind a jump by an answer, on which its value is put, and the end.
fn are_ways(
    unmet: &Instr<'_>,
    over: &Instr<'_>,
    met: &Instr<'_>,
    turn: &Instr<'_>,
    last: &Instr<'_>,
) -> bool
    ensures { result ≡ true → (unmet.now ≡ instrs.Do (effects.Default sorts.Bool))
        × (over.now ≡ instrs.Jump 2) × (met.now ≡ instrs.Do (effects.Default sorts.Bool))
        × (turn.now ≡ instrs.Do (effects.One of_one.Not)) × (last.now ≡ instrs.Return) }
{
    is_false(unmet) && is_jump(over) && is_false(met) && is_not(turn) && is_return(last)
}

/// What a jump over the next two instructions asks, where the answer is yes.
fn question<'a>(i: &Instr<'a>) -> Option<Question<'a>>
    ensures { IfSome result (λ q. i.now ≡ instrs.JumpIfAsked true q 2) }
{
    match i {
        Instr::JumpIfAsked(true, question, 2) => Some(*question),
        _ => None,
    }
}

fn is_false(i: &Instr<'_>) -> bool
    ensures { result ≡ true → i.now ≡ instrs.Do (effects.Default sorts.Bool) }
{
    match i {
        Instr::Do(Effect::Default(Sort::Bool)) => true,
        _ => false,
    }
}

fn is_jump(i: &Instr<'_>) -> bool
    ensures { result ≡ true → i.now ≡ instrs.Jump 2 }
{
    match i {
        Instr::Jump(2) => true,
        _ => false,
    }
}

fn is_not(i: &Instr<'_>) -> bool
    ensures { result ≡ true → i.now ≡ instrs.Do (effects.One of_one.Not) }
{
    match i {
        Instr::Do(Effect::One(OfOne::Not)) => true,
        _ => false,
    }
}

fn property(i: &Instr<'_>) -> Option<Property>
    ensures { IfSome result (λ p. i.now ≡ instrs.Do (effects.One (of_one.Property p))) }
{
    match i {
        Instr::Do(Effect::One(OfOne::Property(property))) => Some(*property),
        _ => None,
    }
}

fn pushed<'a>(i: &Instr<'a>) -> Option<&'a Fixed>
    ensures { IfSome result (λ known. i.now ≡ instrs.Do (effects.Push known)) }
{
    match i {
        Instr::Do(Effect::Push(known)) => Some(*known),
        _ => None,
    }
}

fn set_of(known: &Fixed) -> Option<&PrefixSet>
    ensures { IfSome result (λ set. val_of_fixed known.now ≡ VPrefixSet set.now) }
{
    match known {
        Fixed::PrefixSet(set) => Some(set),
        _ => None,
    }
}

fn is_net(i: &Instr<'_>) -> bool
    ensures { result ≡ true → i.now ≡ instrs.Do (effects.Attribute attributes.Net) }
{
    match i {
        Instr::Do(Effect::Attribute(Attribute::Net)) => true,
        _ => false,
    }
}

fn is_matches(i: &Instr<'_>) -> bool
    ensures { result ≡ true → i.now ≡ instrs.Do (effects.Two (of_two.Compare compare_ops.Matches)) }
{
    match i {
        Instr::Do(Effect::Two(OfTwo::Compare(CompareOp::Matches))) => true,
        _ => false,
    }
}

fn is_return(i: &Instr<'_>) -> bool
    ensures { result ≡ true → i.now ≡ instrs.Return }
{
    match i {
        Instr::Return => true,
        _ => false,
    }
}

fn attribute(i: &Instr<'_>) -> Option<Attribute>
    ensures { IfSome result (λ a. i.now ≡ instrs.Do (effects.Attribute a)) }
{
    match i {
        Instr::Do(Effect::Attribute(attribute)) => Some(*attribute),
        _ => None,
    }
}

fn place(i: &Instr<'_>) -> Option<usize>
    ensures { IfSome result (λ n. i.now ≡ instrs.Do (effects.Local n)) }
{
    match i {
        Instr::Do(Effect::Local(place)) => Some(*place),
        _ => None,
    }
}

fn operator(i: &Instr<'_>) -> Option<CompareOp>
    ensures { IfSome result (λ op. i.now ≡ instrs.Do (effects.Two (of_two.Compare op))) }
{
    match i {
        Instr::Do(Effect::Two(OfTwo::Compare(operator))) => Some(*operator),
        _ => None,
    }
}

/// The argument at a place, where it is a number.
fn number(es: &[TExpr], place: usize) -> Option<u32>
    ensures { IfSome result (λ n. IsIntAt es.now place n) }
{
    match es.get(place) {
        Some(e) => int(e),
        None => None,
    }
}

fn int(e: &TExpr) -> Option<u32>
    ensures { IfSome result (λ n. IsAlways e.now (VInt n)) }
{
    match e {
        TExpr::Value(Fixed::Int(number)) => Some(*number),
        _ => None,
    }
}

fn are_known(es: &[TExpr]) -> bool
    ensures { IsTrue result → All IsKnown es.now }
{
    es.iter().all(|e| is_known(e))
}

fn is_known(e: &TExpr) -> bool
    ensures { IsTrue result → IsKnown e.now }
{
    match e {
        TExpr::Value(_) => true,
        _ => false,
    }
}
