//! The values of constants.

ghost use Rattle.std.specs.Prelude.{◌≡◌, IfOk, Some, [], drop, option_map, take};
ghost use Rattle.std.specs.Result.{result_ok};
ghost use Rattle.conf_ast.specs.Configurations.{value_of};
ghost use Rattle.filt_meaning.specs.Configuration.{constant};
ghost use Rattle.filt_meaning.specs.Items as written;
ghost use Rattle.filt_meaning.specs.Names.{Around, constant_of, there};
ghost use Rattle.filt_meaning.specs.Scopes.{context_of};
ghost use Rattle.filt_meaning.specs.Trees.{set_of_labels};
ghost use Rattle.filt_meaning.specs.Operators.{and_then, joined, pair_of};
ghost use Rattle.filt_meaning.specs.Seen.{val_of_fixed};
ghost use Rattle.filt_meaning.specs.Values.{VInt, VIntSet, VMask, VPairSet, VPrefixSet, VString};

use bits_ip::OutOfMemory;
use conf_ast::configurations::{Literal, StringLiteral};
use conf_ast::filters::{Item, MaskItem, Num};
use conf_ast::{Name, bytes_at};
use filt_items::{mask_of, number, set_of};
use filt_meaning::{Fixed, Labels, Scope};
use filt_sets::{IntSet, Mask, PairSet, PrefixSet};
use filt_types::{Seen, constant_named};
use std::alloc::Global;

/// The same value once more.
fn copy(alloc: Global, value: &Fixed) -> Result<Fixed, OutOfMemory>
    ensures { IfOk result (λ v. val_of_fixed v ≡ val_of_fixed value.now) }
{
    match value {
        Fixed::Int(number) => Ok(Fixed::Int(*number)),
        Fixed::Bool(truth) => Ok(Fixed::Bool(*truth)),
        Fixed::Ip(addr) => Ok(Fixed::Ip(*addr)),
        Fixed::Prefix(net) => Ok(Fixed::Prefix(*net)),
        Fixed::Pair(first, second) => Ok(Fixed::Pair(*first, *second)),
        Fixed::String(bytes) => Ok(Fixed::String(Vec::from_slice(alloc, bytes)?)),
        Fixed::EmptyPath => Ok(Fixed::EmptyPath),
        Fixed::EmptyClist => Ok(Fixed::EmptyClist),
        Fixed::Mask(mask) => copy_mask(alloc, mask),
        Fixed::IntSet(set) => copy_ints(alloc, set),
        Fixed::PairSet(set) => copy_pairs(alloc, set),
        Fixed::PrefixSet(set) => copy_prefixes(alloc, set),
        Fixed::Source(source) => Ok(Fixed::Source(*source)),
        Fixed::Dest(dest) => Ok(Fixed::Dest(*dest)),
        Fixed::Origin(origin) => Ok(Fixed::Origin(*origin)),
    }
}

fn copy_mask(alloc: Global, mask: &Mask) -> Result<Fixed, OutOfMemory>
    ensures { IfOk result (λ v. val_of_fixed v ≡ VMask mask.now) }
{
    let items = Vec::from_slice(alloc, mask.items())?;
    Ok(Fixed::Mask(Mask::make(items)))
}

fn copy_ints(alloc: Global, set: &IntSet) -> Result<Fixed, OutOfMemory>
    ensures { IfOk result (λ v. val_of_fixed v ≡ VIntSet set.now) }
{
    Ok(Fixed::IntSet(set.copy(alloc)?))
}

fn copy_pairs(alloc: Global, set: &PairSet) -> Result<Fixed, OutOfMemory>
    ensures { IfOk result (λ v. val_of_fixed v ≡ VPairSet set.now) }
{
    Ok(Fixed::PairSet(set.copy(alloc)?))
}

fn copy_prefixes(alloc: Global, set: &PrefixSet) -> Result<Fixed, OutOfMemory>
    ensures { IfOk result (λ v. val_of_fixed v ≡ VPrefixSet set.now) }
{
    Ok(Fixed::PrefixSet(set.copy(alloc)?))
}

/// The value of another constant.
fn named(
    alloc: Global,
    text: &[u8],
    scope: &Scope,
    name: Name,
) -> Result<Option<Fixed>, OutOfMemory>
    ensures { IfOk result (λ found. (around : Around) → option_map val_of_fixed found
        ≡ result_ok (there (constant_of (context_of text.now around scope.now []) name))) }
{
    let seen = Seen {
        text,
        scope,
        variables: None,
    };
    match constant_named(seen, name) {
        None => Ok(None),
        Some(value) => Ok(Some(copy(alloc, value)?)),
    }
}

fn joined(first: u32, second: u32) -> Option<Fixed>
    ensures { option_map val_of_fixed result ≡ result_ok (joined first second) }
{
    if first < 65536 && second < 65536 {
        Some(Fixed::Pair(first as u16, second as u16))
    } else {
        None
    }
}

fn pair(text: &[u8], scope: &Scope, first: &Num, second: &Num) -> Option<Fixed>
    ensures { (around : Around) → option_map val_of_fixed result
        ≡ result_ok (and_then (written.number (context_of text.now around scope.now []) first.now)
        (λ n. and_then (written.number (context_of text.now around scope.now []) second.now)
        (λ m. pair_of (VInt n) (VInt m)))) }
{
    let a = number(text, scope, first)?;
    let b = number(text, scope, second)?;
    joined(a, b)
}

fn string(alloc: Global, text: &[u8], quoted: StringLiteral) -> Result<Option<Fixed>, OutOfMemory>
    ensures { IfOk result (λ found. option_map val_of_fixed found
        ≡ Some (VString (take quoted.len (drop quoted.start text.now)))) }
{
    let bytes = Vec::from_slice(alloc, bytes_at(text, quoted.start, quoted.len))?;
    Ok(Some(Fixed::String(bytes)))
}

fn set_in(labels: Labels) -> Option<Fixed>
    ensures { option_map val_of_fixed result ≡ result_ok (set_of_labels labels) }
{
    match labels {
        Labels::Ints(set) => Some(Fixed::IntSet(set)),
        Labels::Pairs(set) => Some(Fixed::PairSet(set)),
        Labels::Prefixes(set) => Some(Fixed::PrefixSet(set)),
        Labels::Stuck => None,
    }
}

fn set(
    alloc: Global,
    text: &[u8],
    scope: &Scope,
    items: &[Item],
) -> Result<Option<Fixed>, OutOfMemory>
    ensures { IfOk result (λ found. (around : Around) → option_map val_of_fixed found
        ≡ result_ok (written.set_of (context_of text.now around scope.now []) items.now)) }
{
    let labels = set_of(alloc, text, scope, items)?;
    Ok(set_in(labels))
}

fn mask_in(found: Option<Mask>) -> Option<Fixed>
    ensures { option_map val_of_fixed result ≡ option_map (λ m. VMask m) found }
{
    match found {
        Some(mask) => Some(Fixed::Mask(mask)),
        None => None,
    }
}

fn mask(
    alloc: Global,
    text: &[u8],
    scope: &Scope,
    items: &[MaskItem],
) -> Result<Option<Fixed>, OutOfMemory>
    ensures { IfOk result (λ found. (around : Around) → option_map val_of_fixed found
        ≡ result_ok (written.mask_of (context_of text.now around scope.now []) items.now)) }
{
    let found = mask_of(alloc, text, scope, items)?;
    Ok(mask_in(found))
}

/// The value of a constant; none where it names what is no constant or no number, or has a part
/// over its limit.
pub(crate) fn constant(
    alloc: Global,
    text: &[u8],
    scope: &Scope,
    literal: &Literal,
) -> Result<Option<Fixed>, OutOfMemory>
    ensures { IfOk result (λ found. (around : Around) → option_map val_of_fixed found
        ≡ result_ok (constant (context_of text.now around scope.now []) (value_of literal.now))) }
{
    match literal {
        Literal::Number { value, .. } => Ok(Some(Fixed::Int(*value))),
        Literal::Text(quoted) => string(alloc, text, *quoted),
        Literal::Ip(address) => Ok(Some(Fixed::Ip(address.addr))),
        Literal::Prefix { net, .. } => Ok(Some(Fixed::Prefix(*net))),
        Literal::True { .. } => Ok(Some(Fixed::Bool(true))),
        Literal::False { .. } => Ok(Some(Fixed::Bool(false))),
        Literal::Name(name) => named(alloc, text, scope, *name),
        Literal::Pair { first, second, .. } => Ok(pair(text, scope, first, second)),
        Literal::Set { items, .. } => set(alloc, text, scope, items),
        Literal::Mask { items, .. } => mask(alloc, text, scope, items),
    }
}
