//! Sets, masks and labels of what is written.

ghost use Rattle.std.specs.Prelude.{◌≡◌, List, ℕ, Option, IfOk, Ok, option_map};
ghost use Rattle.bits_ip.specs.Address.{width_of};
ghost use Rattle.filt_meaning.specs.Items as written;
ghost use Rattle.conf_ast.specs.declared.filters.MaskAtom.TheVariants as mask_atoms;
ghost use Rattle.filt_meaning.specs.Names.{Around, constant_of, there};
ghost use Rattle.filt_meaning.specs.Scopes.{context_of};
ghost use Rattle.filt_meaning.specs.Trees.{set_of_labels};
ghost use Rattle.filt_meaning.specs.Operators.{and_then, int_in};
ghost use Rattle.filt_meaning.specs.Seen.{val_of_fixed};
ghost use Rattle.filt_meaning.specs.Values.{VMask, VIntSet, VPairSet, VPrefixSet};
ghost use Rattle.filt_items.specs.Seen.{each, int_of, pair_of, prefix_of};

use bits_ip::{Addr, OutOfMemory, Prefix};
use conf_ast::filters::{Item, Lengths, MaskAtom, Num, NumRange, PairPart};
use conf_ast::{Name, filters as syntax};
use filt_meaning::{Fixed, Labels, Scope};
use filt_sets::{Atom, IntItem, IntSet, Mask, MaskItem, PairItem, PairSet, PrefixItem, PrefixSet};
use std::alloc::Global;

// ---- numbers

fn constant<'a>(text: &[u8], scope: &'a Scope, name: &Name) -> Option<&'a Fixed>
    ensures { (around : Around) (variables : List (List ℕ))
        → option_map (λ v. val_of_fixed v.now) result
        ≡ constant_of (context_of text.now around scope.now variables) name.now }
{
    scope.constants.get(name.bytes(text))
}

fn int_in(value: &Fixed) -> Option<u32>
    ensures { there result ≡ int_in (val_of_fixed value.now) }
{
    match value {
        Fixed::Int(number) => Some(*number),
        _ => None,
    }
}

fn named_number(text: &[u8], scope: &Scope, name: &Name) -> Option<u32>
    ensures { (around : Around) (variables : List (List ℕ)) → there result
        ≡ and_then (there (constant_of (context_of text.now around scope.now variables) name.now))
        int_in }
{
    let value = constant(text, scope, name)?;
    int_in(value)
}

/// A number, or the value of the constant of that name, which is one.
pub fn number(text: &[u8], scope: &Scope, n: &Num) -> Option<u32>
    ensures { (around : Around) (variables : List (List ℕ)) → there result
        ≡ written.number (context_of text.now around scope.now variables) n.now }
{
    match n {
        Num::Number { value, .. } => Some(*value),
        Num::Name(name) => named_number(text, scope, name),
    }
}

// ---- items

fn last_number(text: &[u8], scope: &Scope, lo: u32, high: &Option<Num>) -> Option<u32>
    ensures { (around : Around) (variables : List (List ℕ)) → there result
        ≡ written.last_number (context_of text.now around scope.now variables) lo high.now }
{
    match high {
        None => Some(lo),
        Some(n) => number(text, scope, n),
    }
}

fn int_item(text: &[u8], scope: &Scope, part: &NumRange) -> Option<IntItem>
    ensures { (around : Around) (variables : List (List ℕ)) → there result
        ≡ written.int_item (context_of text.now around scope.now variables) part.now }
{
    let lo = number(text, scope, &part.low)?;
    let hi = last_number(text, scope, lo, &part.high)?;
    Some(IntItem { lo, hi })
}

fn pair_part(text: &[u8], scope: &Scope, part: &PairPart) -> Option<IntItem>
    ensures { (around : Around) (variables : List (List ℕ)) → there result
        ≡ written.pair_part (context_of text.now around scope.now variables) part.now }
{
    match part {
        PairPart::Any => Some(IntItem { lo: 0, hi: 65535 }),
        PairPart::Range(range) => int_item(text, scope, range),
    }
}

fn pair_item(text: &[u8], scope: &Scope, first: &PairPart, second: &PairPart) -> Option<PairItem>
    ensures { (around : Around) (variables : List (List ℕ)) → there result
        ≡ written.pair_item (context_of text.now around scope.now variables) first.now second.now }
{
    let a = pair_part(text, scope, first)?;
    let b = pair_part(text, scope, second)?;
    Some(PairItem { a, b })
}

fn width(net: &Prefix) -> u8
    ensures { result ≡ width_of net.now.addr }
{
    match net.addr() {
        Addr::V4(_) => 32,
        Addr::V6(_) => 128,
    }
}

fn in_8_bits(number: u32) -> Option<u8>
    ensures { there result ≡ written.in_8_bits number }
{
    if number < 256 {
        Some(number as u8)
    } else {
        None
    }
}

fn prefix_length(text: &[u8], scope: &Scope, n: &Num) -> Option<u8>
    ensures { (around : Around) (variables : List (List ℕ)) → there result
        ≡ written.prefix_length (context_of text.now around scope.now variables) n.now }
{
    let length = number(text, scope, n)?;
    in_8_bits(length)
}

fn between(text: &[u8], scope: &Scope, net: &Prefix, low: &Num, high: &Num) -> Option<PrefixItem>
    ensures { (around : Around) (variables : List (List ℕ)) → there result
        ≡ written.between (context_of text.now around scope.now variables) net.now low.now
        high.now }
{
    let lo = prefix_length(text, scope, low)?;
    let hi = prefix_length(text, scope, high)?;
    Some(PrefixItem { net: *net, lo, hi })
}

fn prefix_item(
    text: &[u8],
    scope: &Scope,
    net: &Prefix,
    lengths: &Option<Lengths>,
) -> Option<PrefixItem>
    ensures { (around : Around) (variables : List (List ℕ)) → there result
        ≡ written.prefix_item (context_of text.now around scope.now variables) net.now lengths.now }
{
    match lengths {
        None => Some(PrefixItem {
            net: *net,
            lo: net.len(),
            hi: net.len(),
        }),
        Some(Lengths::AndLonger) => Some(PrefixItem {
            net: *net,
            lo: net.len(),
            hi: width(net),
        }),
        Some(Lengths::AndShorter) => Some(PrefixItem {
            net: *net,
            lo: 0,
            hi: net.len(),
        }),
        Some(Lengths::Between(low, high)) => between(text, scope, net, low, high),
    }
}

// ---- sets

fn int_of(text: &[u8], scope: &Scope, item: &Item) -> Option<IntItem>
    ensures { (around : Around) (variables : List (List ℕ)) → there result
        ≡ int_of (context_of text.now around scope.now variables) item.now }
{
    match item {
        Item::Range(part) => int_item(text, scope, part),
        Item::Pair { .. } => None,
        Item::Prefix { .. } => None,
    }
}

fn pair_of(text: &[u8], scope: &Scope, item: &Item) -> Option<PairItem>
    ensures { (around : Around) (variables : List (List ℕ)) → there result
        ≡ pair_of (context_of text.now around scope.now variables) item.now }
{
    match item {
        Item::Range(_) => None,
        Item::Pair { first, second, .. } => pair_item(text, scope, first, second),
        Item::Prefix { .. } => None,
    }
}

fn prefix_of(text: &[u8], scope: &Scope, item: &Item) -> Option<PrefixItem>
    ensures { (around : Around) (variables : List (List ℕ)) → there result
        ≡ prefix_of (context_of text.now around scope.now variables) item.now }
{
    match item {
        Item::Range(_) => None,
        Item::Pair { .. } => None,
        Item::Prefix { net, lengths, .. } => prefix_item(text, scope, net, lengths),
    }
}

fn all_ints(
    alloc: Global,
    text: &[u8],
    scope: &Scope,
    items: &[Item],
) -> Result<Option<Vec<IntItem>>, OutOfMemory>
    ensures { IfOk result (λ found. (around : Around) (variables : List (List ℕ))
        → there (option_map (λ v. v.items) found)
        ≡ each (int_of (context_of text.now around scope.now variables)) items.now) }
{
    let mut all = Vec::new(alloc);
    for item in items {
        match int_of(text, scope, item) {
            None => return Ok(None),
            Some(range) => all.push(range)?,
        }
    }
    Ok(Some(all))
}

fn all_pairs(
    alloc: Global,
    text: &[u8],
    scope: &Scope,
    items: &[Item],
) -> Result<Option<Vec<PairItem>>, OutOfMemory>
    ensures { IfOk result (λ found. (around : Around) (variables : List (List ℕ))
        → there (option_map (λ v. v.items) found)
        ≡ each (pair_of (context_of text.now around scope.now variables)) items.now) }
{
    let mut all = Vec::new(alloc);
    for item in items {
        match pair_of(text, scope, item) {
            None => return Ok(None),
            Some(pair) => all.push(pair)?,
        }
    }
    Ok(Some(all))
}

fn all_prefixes(
    alloc: Global,
    text: &[u8],
    scope: &Scope,
    items: &[Item],
) -> Result<Option<Vec<PrefixItem>>, OutOfMemory>
    ensures { IfOk result (λ found. (around : Around) (variables : List (List ℕ))
        → there (option_map (λ v. v.items) found)
        ≡ each (prefix_of (context_of text.now around scope.now variables)) items.now) }
{
    let mut all = Vec::new(alloc);
    for item in items {
        match prefix_of(text, scope, item) {
            None => return Ok(None),
            Some(prefix) => all.push(prefix)?,
        }
    }
    Ok(Some(all))
}

fn int_set(alloc: Global, text: &[u8], scope: &Scope, items: &[Item]) -> Result<Labels, OutOfMemory>
    ensures { IfOk result (λ set. (around : Around) (variables : List (List ℕ))
        → set_of_labels set
        ≡ and_then (each (int_of (context_of text.now around scope.now variables)) items.now)
        (λ more. Ok (VIntSet more))) }
{
    match all_ints(alloc, text, scope, items)? {
        Some(all) => Ok(Labels::Ints(IntSet::make(all))),
        None => Ok(Labels::Stuck),
    }
}

fn pair_set(
    alloc: Global,
    text: &[u8],
    scope: &Scope,
    items: &[Item],
) -> Result<Labels, OutOfMemory>
    ensures { IfOk result (λ set. (around : Around) (variables : List (List ℕ))
        → set_of_labels set
        ≡ and_then (each (pair_of (context_of text.now around scope.now variables)) items.now)
        (λ more. Ok (VPairSet more))) }
{
    match all_pairs(alloc, text, scope, items)? {
        Some(all) => Ok(Labels::Pairs(PairSet::make(all))),
        None => Ok(Labels::Stuck),
    }
}

fn prefix_set(
    alloc: Global,
    text: &[u8],
    scope: &Scope,
    items: &[Item],
) -> Result<Labels, OutOfMemory>
    ensures { IfOk result (λ set. (around : Around) (variables : List (List ℕ))
        → set_of_labels set
        ≡ and_then (each (prefix_of (context_of text.now around scope.now variables)) items.now)
        (λ more. Ok (VPrefixSet more))) }
{
    match all_prefixes(alloc, text, scope, items)? {
        Some(all) => Ok(Labels::Prefixes(PrefixSet::make(all))),
        None => Ok(Labels::Stuck),
    }
}

/// The set of items of one sort, that of the first.
pub fn set_of(
    alloc: Global,
    text: &[u8],
    scope: &Scope,
    items: &[Item],
) -> Result<Labels, OutOfMemory>
    ensures { IfOk result (λ set. (around : Around) (variables : List (List ℕ))
        → set_of_labels set
        ≡ written.set_of (context_of text.now around scope.now variables) items.now) }
{
    match items.first() {
        None => Ok(Labels::Stuck),
        Some(Item::Range(_)) => int_set(alloc, text, scope, items),
        Some(Item::Pair { .. }) => pair_set(alloc, text, scope, items),
        Some(Item::Prefix { .. }) => prefix_set(alloc, text, scope, items),
    }
}

// ---- masks

fn atom(text: &[u8], scope: &Scope, atom: &MaskAtom) -> Option<Atom>
    ensures { (around : Around) (variables : List (List ℕ)) → there result
        ≡ written.atom_of (context_of text.now around scope.now variables) atom.now }
{
    match atom {
        MaskAtom::One => Some(Atom::One),
        MaskAtom::Any => Some(Atom::Any),
        MaskAtom::Range(part) => range(text, scope, part),
    }
}

fn range(text: &[u8], scope: &Scope, part: &NumRange) -> Option<Atom>
    ensures { (around : Around) (variables : List (List ℕ)) → there result
        ≡ written.atom_of (context_of text.now around scope.now variables)
        (mask_atoms.Range part.now) }
{
    let item = int_item(text, scope, part)?;
    Some(Atom::Range(item.lo, item.hi))
}

fn mask_item(text: &[u8], scope: &Scope, item: &syntax::MaskItem) -> Option<MaskItem>
    ensures { (around : Around) (variables : List (List ℕ)) → there result
        ≡ written.mask_item (context_of text.now around scope.now variables) item.now }
{
    let atom = atom(text, scope, &item.atom)?;
    Some(MaskItem {
        atom,
        many: item.many,
    })
}

fn all_atoms(
    alloc: Global,
    text: &[u8],
    scope: &Scope,
    items: &[syntax::MaskItem],
) -> Result<Option<Vec<MaskItem>>, OutOfMemory>
    ensures { IfOk result (λ found. (around : Around) (variables : List (List ℕ))
        → there (option_map (λ v. v.items) found)
        ≡ each (written.mask_item (context_of text.now around scope.now variables)) items.now) }
{
    let mut all = Vec::new(alloc);
    for item in items {
        match mask_item(text, scope, item) {
            None => return Ok(None),
            Some(atom) => all.push(atom)?,
        }
    }
    Ok(Some(all))
}

/// The mask of these items.
pub fn mask_of(
    alloc: Global,
    text: &[u8],
    scope: &Scope,
    items: &[syntax::MaskItem],
) -> Result<Option<Mask>, OutOfMemory>
    ensures { IfOk result (λ found. (around : Around) (variables : List (List ℕ))
        → there (option_map (λ m. VMask m) found)
        ≡ written.mask_of (context_of text.now around scope.now variables) items.now) }
{
    match all_atoms(alloc, text, scope, items)? {
        Some(all) => Ok(Some(Mask::make(all))),
        None => Ok(None),
    }
}
