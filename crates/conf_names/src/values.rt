//! What the rules of filters say of numbers, sets and masks in a configuration.

ghost use Rattle.std.specs.Prelude.{◌≡◌, []};
ghost use Rattle.conf_ast.specs.Filters.{SetOf, MaskOf};
ghost use Rattle.filt_types.specs.Expressions.{judge};
ghost use Rattle.filt_types.specs.Items as items;
ghost use Rattle.filt_types.specs.Seen.{scene_in, variables_in};
ghost use Rattle.conf_names.specs.Known as of;
ghost use Rattle.conf_names.specs.Refusals.{first_in, of_filters};
ghost use Rattle.conf_names.specs.Seen.{known_of};

use crate::declared::Declared;
use crate::refusal::{Refusal, note_first};
use conf_ast::filters::{Item, MaskItem, Num};
use filt_types::Seen;

/// What is seen where there are no variables.
pub fn seen_in<'a>(text: &'a [u8], declared: &'a Declared) -> Seen<'a>
    ensures scene { scene_in result ≡ (known_of text.now declared.now).scene }
    ensures variables { variables_in result ≡ [] }
{
    Seen {
        text,
        scope: &declared.scope,
        variables: None,
    }
}

// ---- numbers

/// The name of a number is one of a constant that is a number.
pub fn number(text: &[u8], declared: &Declared, number: Num, first: &mut Option<Refusal>)
    ensures { first.new ≡ first_in first.old (of.number (known_of text.now declared.now) number) }
{
    let mut found = None;
    let _is_known = filt_types::number(seen_in(text, declared), number, &mut found);
    note_first(first, found);
}

/// The value of a number, where it is one or the name of a constant that is one.
pub fn number_of(text: &[u8], declared: &Declared, number: Num) -> Option<u32>
    ensures { result ≡ of.number_of (known_of text.now declared.now) number }
{
    filt_types::value_of(seen_in(text, declared), number)
}

/// A number that has more than 16 bits is refused.
pub fn over_16_bits(text: &[u8], declared: &Declared, number: Num, first: &mut Option<Refusal>)
    ensures { first.new
        ≡ first_in first.old (of_filters (items.over_16_bits (known_of text.now declared.now).scene
        number)) }
{
    let mut found = None;
    filt_types::over_16_bits(seen_in(text, declared), number, &mut found);
    note_first(first, found);
}

// ---- sets and masks

/// A set, which stands at the place `at`.
pub fn set(
    text: &[u8],
    declared: &Declared,
    at: usize,
    elements: &[Item],
    first: &mut Option<Refusal>,
)
    ensures { first.new
        ≡ first_in first.old (of_filters (judge (known_of text.now declared.now).scene []
        (SetOf at elements.now)).refusals) }
{
    let mut found = None;
    let _judged = filt_types::set(seen_in(text, declared), at, elements, &mut found);
    note_first(first, found);
}

/// A mask, which stands at the place `at`.
pub fn mask(
    text: &[u8],
    declared: &Declared,
    at: usize,
    elements: &[MaskItem],
    first: &mut Option<Refusal>,
)
    ensures { first.new
        ≡ first_in first.old (of_filters (judge (known_of text.now declared.now).scene []
        (MaskOf at elements.now)).refusals) }
{
    let mut found = None;
    let _judged = filt_types::mask(seen_in(text, declared), at, elements, &mut found);
    note_first(first, found);
}
