//! What changes variables, operands and attributes alone.

ghost use Rattle.std.specs.Prelude.{◌≡◌, ◌<◌, [], ◌∷◌, ◌++◌, List, length, slice_get, Some, OnOk};
ghost use Rattle.attrs.specs.declared.attributes.Attrs.{Attrs};
ghost use Rattle.filt_code.specs.Codes.{effect, one_of, over, put, two_of, with_one};
ghost use Rattle.filt_meaning.specs.Seen.{val_of_fixed};
ghost use Rattle.filt_meaning.specs.Values.{Val, VBool, default_of};
ghost use Rattle.filt_meaning.specs.Attributes.{is_defined, with_attribute};
ghost use Rattle.filt_meaning.specs.Flow.{Done, Frame, plainly};
ghost use Rattle.filt_meaning.specs.Meaning.{attribute, set_attributes, set_variable};
ghost use Rattle.filt_route.specs.Seen.{around_in, IsUnstuck, Yields};
ghost use Rattle.filt_vm.specs.Seen.{TakesTop, TakesTopTwo};

use crate::frames::Frames;
use crate::operands::Operands;
use bits_ip::OutOfMemory;
use conf_ast::filters::Attribute;
use filt_code::{Effect, OfOne, OfTwo};
use filt_meaning::{Fixed, Sort, Value};
use filt_route::{Halt, Running, Surroundings, apply_one, apply_two};
use std::alloc::Global;

/// What an instruction does that leads to the next one. Each effect has a function of its own, so
/// that no step makes room for what another one holds.
#[inline(never)]
pub(crate) fn effect<'a>(
    around: &Surroundings<'a>,
    what: &Effect<'a>,
    locals: &mut Frames<'a>,
    operands: &mut Operands<'a>,
    attrs: &mut Running<'a>,
) -> Result<(), Halt>
    requires { IsUnstuck (effect (around_in around.now) what.now locals.old.here operands.old.here
        attrs.old) }
    ensures done { Yields (λ _. (locals.new.here, operands.new.here)) result attrs.new
        (effect (around_in around.now) what.now locals.old.here operands.old.here attrs.old) }
    ensures variables { OnOk result (locals.new.under ≡ locals.old.under) }
    ensures operands { OnOk result (operands.new.under ≡ operands.old.under) }
{
    match what {
        Effect::Push(known) => Ok(put_known(around.alloc, known, operands)?),
        Effect::Local(place) => Ok(put_local(*place, locals, operands)?),
        Effect::Attribute(a) => put_attribute(around, *a, operands, attrs),
        Effect::Defined(a) => Ok(put_defined(*a, operands, attrs)?),
        Effect::Default(sort) => Ok(put_default(around, *sort, operands)?),
        Effect::One(operator) => one(around.alloc, *operator, operands),
        Effect::Two(operator) => two(*operator, operands),
        Effect::Discard => {
            discard(operands);
            Ok(())
        }
        Effect::Store(place) => {
            store(*place, locals, operands);
            Ok(())
        }
        Effect::Assign(a) => {
            assign(*a, operands, attrs);
            Ok(())
        }
        Effect::Unset(a) => {
            attrs.unset(around.alloc, *a);
            Ok(())
        }
        Effect::Declare(sort) => Ok(declare(around, *sort, locals)?),
        Effect::Leave(count) => {
            let left = locals.len().saturating_sub(*count);
            locals.truncate(left);
            Ok(())
        }
    }
}

#[inline(never)]
fn put_known<'a>(
    alloc: Global,
    known: &'a Fixed,
    operands: &mut Operands<'a>,
) -> Result<(), OutOfMemory>
    ensures { OnOk result (operands.new ≡ record {
      here = val_of_fixed known.now ∷ operands.old.here;
      under = operands.old.under;
    }) }
{
    operands.push(known.value(alloc))
}

#[inline(never)]
fn put_local<'a>(
    place: usize,
    locals: &Frames<'a>,
    operands: &mut Operands<'a>,
) -> Result<(), OutOfMemory>
    requires { place < length locals.now.here }
    ensures { OnOk result ((v : Val) × (slice_get locals.now.here place ≡ Some v)
        × (operands.new ≡ record {
          here = v ∷ operands.old.here;
          under = operands.old.under;
        })) }
{
    let held = locals.get(place)?;
    operands.push(held)
}

#[inline(never)]
fn put_attribute<'a>(
    around: &Surroundings<'a>,
    a: Attribute,
    operands: &mut Operands<'a>,
    attrs: &Running<'a>,
) -> Result<(), Halt>
    ensures done { (vals : Frame)
        → Yields (λ _. (vals, operands.new.here)) result attrs.now
        (put vals operands.old.here (attribute (around_in around.now) a vals attrs.now)) }
    ensures under { OnOk result (operands.new.under ≡ operands.old.under) }
{
    let held = attrs.read(around, a)?;
    Ok(operands.push(held)?)
}

#[inline(never)]
fn put_defined<'a>(
    a: Attribute,
    operands: &mut Operands<'a>,
    attrs: &Running<'a>,
) -> Result<(), OutOfMemory>
    ensures { OnOk result (operands.new ≡ record {
      here = VBool (is_defined a attrs.now) ∷ operands.old.here;
      under = operands.old.under;
    }) }
{
    operands.push(Value::Bool(attrs.is_defined(a)))
}

#[inline(never)]
fn put_default<'a>(
    around: &Surroundings<'a>,
    sort: Sort,
    operands: &mut Operands<'a>,
) -> Result<(), OutOfMemory>
    ensures { OnOk result (operands.new ≡ record {
      here = default_of sort ∷ operands.old.here;
      under = operands.old.under;
    }) }
{
    operands.push(around.default(sort))
}

#[inline(never)]
fn discard<'a>(operands: &mut Operands<'a>)
    requires { 0 < length operands.old.here }
    ensures done { (vals : Frame) (attrs : Attrs)
        → with_one {A = Frame × List Val} (λ v os attrs. Done (vals, os) attrs)
        operands.old.here attrs
        ≡ Done (vals, operands.new.here) attrs }
    ensures under { operands.new.under ≡ operands.old.under }
{
    let _dropped = operands.pop();
}

#[inline(never)]
fn declare<'a>(
    around: &Surroundings<'a>,
    sort: Sort,
    locals: &mut Frames<'a>,
) -> Result<(), OutOfMemory>
    ensures { OnOk result (locals.new ≡ record {
      here = locals.old.here ++ default_of sort ∷ [];
      under = locals.old.under;
    }) }
{
    locals.push(around.default(sort))
}

#[inline(never)]
fn one<'a>(alloc: Global, operator: OfOne, operands: &mut Operands<'a>) -> Result<(), Halt>
    requires { TakesTop (one_of operator) operands.old.here }
    ensures done { (vals : Frame) (attrs : Attrs)
        → Yields (λ _. (vals, operands.new.here)) result attrs
        (with_one (λ v os attrs. put vals os (plainly (one_of operator v) attrs))
        operands.old.here attrs) }
    ensures under { OnOk result (operands.new.under ≡ operands.old.under) }
{
    let value = operands.pop();
    let found = apply_one(alloc, operator, &value)?;
    Ok(operands.push(found)?)
}

#[inline(never)]
fn two<'a>(operator: OfTwo, operands: &mut Operands<'a>) -> Result<(), Halt>
    requires { TakesTopTwo (two_of operator) operands.old.here }
    ensures done { (vals : Frame) (attrs : Attrs)
        → Yields (λ _. (vals, operands.new.here)) result attrs
        (with_one (λ w os attrs. with_one (λ v os attrs.
        put vals os (plainly (two_of operator v w) attrs)) os attrs)
        operands.old.here attrs) }
    ensures under { OnOk result (operands.new.under ≡ operands.old.under) }
{
    let right = operands.pop();
    let left = operands.pop();
    let found = apply_two(operator, left, &right)?;
    Ok(operands.push(found)?)
}

#[inline(never)]
fn store<'a>(place: usize, locals: &mut Frames<'a>, operands: &mut Operands<'a>)
    requires place { place < length locals.old.here }
    requires operand { 0 < length operands.old.here }
    ensures done { (attrs : Attrs)
        → with_one (λ v os attrs. over os (set_variable (Some place) v locals.old.here attrs))
        operands.old.here attrs
        ≡ Done (locals.new.here, operands.new.here) attrs }
    ensures variables { locals.new.under ≡ locals.old.under }
    ensures under { operands.new.under ≡ operands.old.under }
{
    let value = operands.pop();
    locals.set(place, value);
}

#[inline(never)]
fn assign<'a>(attribute: Attribute, operands: &mut Operands<'a>, attrs: &mut Running<'a>)
    requires { TakesTop (λ v. with_attribute attribute v attrs.old) operands.old.here }
    ensures done { (vals : Frame)
        → with_one (λ v os attrs.
        over os (set_attributes vals (with_attribute attribute v attrs) attrs))
        operands.old.here attrs.old
        ≡ Done (vals, operands.new.here) attrs.new }
    ensures under { operands.new.under ≡ operands.old.under }
{
    let value = operands.pop();
    attrs.assign(attribute, value);
}
