//! What is refused of the value of a constant.

ghost use Rattle.std.specs.Prelude.{◌≡◌, ◌++◌};
ghost use Rattle.conf_ast.specs.Configurations.{value_of};
ghost use Rattle.filt_types.specs.Items as items;
ghost use Rattle.conf_names.specs.Constants as of;
ghost use Rattle.conf_names.specs.Known as known;
ghost use Rattle.conf_names.specs.Refusals.{first_in, of_filters};
ghost use Rattle.conf_names.specs.Seen.{known_of};

use crate::declared::Declared;
use crate::refusal::{Refusal, note_if};
use crate::values::{mask, number, over_16_bits, seen_in, set};
use conf_ast::configurations::Literal;
use conf_ast::filters::Num;
use conf_ast::{ConfKind, Name};
use filt_types::constant_named;

/// A part of a pair is a number of at most 16 bits.
fn part(text: &[u8], declared: &Declared, part: Num, first: &mut Option<Refusal>)
    ensures { first.new
        ≡ first_in first.old (known.number (known_of text.now declared.now) part
        ++ of_filters (items.over_16_bits (known_of text.now declared.now).scene part)) }
{
    number(text, declared, part, first);
    over_16_bits(text, declared, part, first);
}

/// The name of a constant.
fn constant(text: &[u8], declared: &Declared, name: Name, first: &mut Option<Refusal>)
    ensures { first.new
        ≡ first_in first.old (of.constant (known_of text.now declared.now) name) }
{
    let is_unknown = constant_named(seen_in(text, declared), name).is_none();
    note_if(first, is_unknown, name.at, ConfKind::UnknownName);
}

fn pair(text: &[u8], declared: &Declared, left: Num, right: Num, first: &mut Option<Refusal>)
    ensures { first.new
        ≡ first_in first.old (of.pair (known_of text.now declared.now) left right) }
{
    part(text, declared, left, first);
    part(text, declared, right, first);
}

/// The value of a constant.
pub fn value(text: &[u8], declared: &Declared, literal: &Literal, first: &mut Option<Refusal>)
    ensures { first.new
        ≡ first_in first.old (of.value (known_of text.now declared.now)
        (value_of literal.now)) }
{
    match literal {
        Literal::Number { .. } => (),
        Literal::Text(_) => (),
        Literal::Ip(_) => (),
        Literal::Prefix { .. } => (),
        Literal::True { .. } => (),
        Literal::False { .. } => (),
        Literal::Name(name) => constant(text, declared, *name, first),
        Literal::Pair {
            first: left,
            second: right,
            ..
        } => pair(text, declared, *left, *right, first),
        Literal::Set { at, items } => set(text, declared, *at, items, first),
        Literal::Mask { at, items } => mask(text, declared, *at, items, first),
    }
}
