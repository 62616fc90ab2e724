// Sets, masks and labels: the sorts of their items, and what is refused of them.

ghost use Rattle.std.specs.Prelude.{◌≡◌};
ghost use Rattle.bits_ip.specs.Address.{width_of};
ghost use Rattle.conf_ast.specs.declared.filters.PairPart.TheVariants as pair_parts;
ghost use Rattle.filt_types.specs.Items as of;
ghost use Rattle.filt_types.specs.Items.{is_known, sorts_of_items};
ghost use Rattle.filt_types.specs.Refusals.{first_in};
ghost use Rattle.filt_types.specs.Seen.{scene_in};
ghost use Rattle.filt_types.specs.Walk.{common_seen, constant_seen};

use crate::refusal::{Cause, Refusal, note_if};
use crate::rules::sort_if;
use crate::scene::{Seen, constant_named};
use bits_ip::{Addr, Prefix};
use conf_ast::filters::{Item, Lengths, MaskAtom, MaskItem, Num, NumRange, PairPart};
use filt_meaning::sorts::is;
use filt_meaning::{Fixed, Sort};

/// The sorts of some parts so far.
#[derive(Clone, Copy)]
pub enum Common {
    /// None is known.
    NoneYet,
    One(Sort),
    /// Two differ.
    Many,
}

/// The sorts of some items, and whether all of them are known.
#[derive(Clone, Copy)]
pub struct ItemSorts {
    pub common: Common,
    pub all_known: bool,
}

// ---- numbers

/// The number that a constant is.
pub(crate) fn number_in(constant: Option<&Fixed>) -> Option<u32>
    ensures { result ≡ of.number_in (constant_seen constant.entry) }
{
    match constant {
        None => None,
        Some(value) => match value {
            Fixed::Int(number) => Some(*number),
            _ => None,
        },
    }
}

/// The number, where the name is one of a constant that is a number.
pub fn value_of(seen: Seen<'_>, number: Num) -> Option<u32>
    ensures { result ≡ of.value_of (scene_in seen.entry) number }
{
    match number {
        Num::Number { value, .. } => Some(value),
        Num::Name(name) => number_in(constant_named(seen, name)),
    }
}

fn place_of(number: Num) -> usize
    ensures { result ≡ of.place_of number }
{
    match number {
        Num::Number { at, .. } => at,
        Num::Name(name) => name.at,
    }
}

/// Whether the number is known. A name that is no number's is refused.
pub fn number(seen: Seen<'_>, number: Num, first: &mut Option<Refusal>) -> bool
    ensures known { result ≡ is_known (of.number (scene_in seen.entry) number) }
    ensures first { first.new ≡ first_in first.old (of.number (scene_in seen.entry) number) }
{
    let is_unknown = value_of(seen, number).is_none();
    note_if(first, is_unknown, place_of(number), Cause::UnknownName);
    !is_unknown
}

/// Whether the number is known and over a limit.
pub(crate) fn is_over(limit: u32, number: Option<u32>) -> bool
    ensures { result ≡ of.is_over limit number }
{
    match number {
        None => false,
        Some(number) => limit < number,
    }
}

fn is_backwards(low: Option<u32>, high: Option<u32>) -> bool
    ensures { result ≡ of.is_backwards low high }
{
    match low {
        None => false,
        Some(low) => match high {
            None => false,
            Some(high) => high < low,
        },
    }
}

// ---- ranges

fn last_of(seen: Seen<'_>, number: Option<Num>) -> Option<u32>
    ensures { result ≡ of.last_of (scene_in seen.entry) number }
{
    match number {
        None => None,
        Some(number) => value_of(seen, number),
    }
}

fn last_number(seen: Seen<'_>, last: Option<Num>, first: &mut Option<Refusal>) -> bool
    ensures known { result ≡ is_known (of.last_number (scene_in seen.entry) last) }
    ensures first { first.new ≡ first_in first.old (of.last_number (scene_in seen.entry) last) }
{
    match last {
        None => true,
        Some(last) => number(seen, last, first),
    }
}

/// Whether both numbers of a range are known.
fn numbers(seen: Seen<'_>, part: NumRange, first: &mut Option<Refusal>) -> bool
    ensures known { result ≡ is_known (of.numbers (scene_in seen.entry) part) }
    ensures first { first.new ≡ first_in first.old (of.numbers (scene_in seen.entry) part) }
{
    let low = number(seen, part.low, first);
    let high = last_number(seen, part.high, first);
    low & high
}

/// A range may not end before it begins.
fn backwards(seen: Seen<'_>, part: NumRange, at: usize, first: &mut Option<Refusal>)
    ensures { first.new ≡ first_in first.old (of.backwards (scene_in seen.entry) part at) }
{
    let is_refused = is_backwards(value_of(seen, part.low), last_of(seen, part.high));
    note_if(first, is_refused, at, Cause::Limit);
}

// ---- pairs

/// A part of a pair is a number of at most 16 bits.
pub fn over_16_bits(seen: Seen<'_>, number: Num, first: &mut Option<Refusal>)
    ensures { first.new ≡ first_in first.old (of.over_16_bits (scene_in seen.entry) number) }
{
    let is_refused = is_over(65535, value_of(seen, number));
    note_if(first, is_refused, place_of(number), Cause::Limit);
}

fn last_over_16_bits(seen: Seen<'_>, last: Option<Num>, first: &mut Option<Refusal>)
    ensures { first.new ≡ first_in first.old (of.last_over_16_bits (scene_in seen.entry) last) }
{
    match last {
        None => (),
        Some(last) => over_16_bits(seen, last, first),
    }
}

fn names_in_part(seen: Seen<'_>, part: PairPart, first: &mut Option<Refusal>) -> bool
    ensures known { result ≡ is_known (of.names_in_part (scene_in seen.entry) part) }
    ensures first { first.new ≡ first_in first.old (of.names_in_part (scene_in seen.entry) part) }
{
    match part {
        PairPart::Any => true,
        PairPart::Range(part) => numbers(seen, part, first),
    }
}

fn limits_of_part(seen: Seen<'_>, at: usize, part: PairPart, first: &mut Option<Refusal>)
    ensures { first.new ≡ first_in first.old (of.limits_of_part (scene_in seen.entry) at part) }
{
    match part {
        PairPart::Any => (),
        PairPart::Range(part) => limits_of_range(seen, at, part, first),
    }
}

fn limits_of_range(seen: Seen<'_>, at: usize, part: NumRange, first: &mut Option<Refusal>)
    ensures { first.new
        ≡ first_in first.old (of.limits_of_part (scene_in seen.entry) at (pair_parts.Range part)) }
{
    over_16_bits(seen, part.low, first);
    last_over_16_bits(seen, part.high, first);
    backwards(seen, part, at, first);
}

// ---- prefixes

fn names_in_lengths(seen: Seen<'_>, wanted: Option<Lengths>, first: &mut Option<Refusal>) -> bool
    ensures known { result ≡ is_known (of.names_in_lengths (scene_in seen.entry) wanted) }
    ensures first { first.new
        ≡ first_in first.old (of.names_in_lengths (scene_in seen.entry) wanted) }
{
    match wanted {
        None => true,
        Some(wanted) => match wanted {
            Lengths::AndLonger => true,
            Lengths::AndShorter => true,
            Lengths::Between(low, high) => {
                let low = number(seen, low, first);
                let high = number(seen, high, first);
                low & high
            }
        },
    }
}

fn width(net: Prefix) -> u32
    ensures { result ≡ width_of net.addr }
{
    match net.addr() {
        Addr::V4(_) => 32,
        Addr::V6(_) => 128,
    }
}

fn are_lengths_wrong(net: Prefix, low: Option<u32>, high: Option<u32>) -> bool
    ensures { result ≡ of.are_lengths_wrong net low high }
{
    let width = width(net);
    is_backwards(low, high) | is_over(width, low) | is_over(width, high)
}

/// Lengths stand in their order, and within those of the family.
fn limits_of_lengths(
    seen: Seen<'_>,
    at: usize,
    net: Prefix,
    wanted: Option<Lengths>,
    first: &mut Option<Refusal>,
)
    ensures { first.new
        ≡ first_in first.old (of.limits_of_lengths (scene_in seen.entry) at net wanted) }
{
    match wanted {
        None => (),
        Some(wanted) => match wanted {
            Lengths::AndLonger => (),
            Lengths::AndShorter => (),
            Lengths::Between(low, high) => {
                let is_refused = are_lengths_wrong(net, value_of(seen, low), value_of(seen, high));
                note_if(first, is_refused, at, Cause::Limit);
            }
        },
    }
}

// ---- items

fn names_in_item(seen: Seen<'_>, item: &Item, first: &mut Option<Refusal>) -> bool
    ensures known { result ≡ is_known (of.names_in_item (scene_in seen.entry) item.now) }
    ensures first { first.new
        ≡ first_in first.old (of.names_in_item (scene_in seen.entry) item.now) }
{
    match item {
        Item::Range(part) => numbers(seen, *part, first),
        Item::Pair {
            first: left,
            second: right,
            ..
        } => {
            let left = names_in_part(seen, *left, first);
            let right = names_in_part(seen, *right, first);
            left & right
        }
        Item::Prefix { lengths, .. } => names_in_lengths(seen, *lengths, first),
    }
}

fn limits_of_item(seen: Seen<'_>, item: &Item, first: &mut Option<Refusal>)
    ensures { first.new ≡ first_in first.old (of.limits_of_item (scene_in seen.entry) item.now) }
{
    match item {
        Item::Range(part) => backwards(seen, *part, place_of(part.low), first),
        Item::Pair {
            at,
            first: left,
            second: right,
        } => {
            limits_of_part(seen, *at, *left, first);
            limits_of_part(seen, *at, *right, first);
        }
        Item::Prefix { at, net, lengths } => limits_of_lengths(seen, *at, *net, *lengths, first),
    }
}

fn sort_of_elements(item: &Item) -> Sort
    ensures { result ≡ of.sort_of_elements item.now }
{
    match item {
        Item::Range(_) => Sort::Int,
        Item::Pair { .. } => Sort::Pair,
        Item::Prefix { .. } => Sort::Prefix,
    }
}

/// The sort of the elements of an item, where its names are known.
fn item(seen: Seen<'_>, item: &Item, first: &mut Option<Refusal>) -> Option<Sort>
    ensures sort { result ≡ of.sort_of_item (scene_in seen.entry) item.now }
    ensures first { first.new ≡ first_in first.old (of.item (scene_in seen.entry) item.now) }
{
    let is_known = names_in_item(seen, item, first);
    limits_of_item(seen, item, first);
    sort_if(is_known, sort_of_elements(item))
}

fn with_sort(common: Common, sort: Option<Sort>) -> Common
    ensures { common_seen result ≡ of.with_sort (common_seen common) sort }
{
    match sort {
        None => common,
        Some(sort) => match common {
            Common::NoneYet => Common::One(sort),
            Common::One(other) => {
                if is(other, sort) {
                    return Common::One(other);
                }
                Common::Many
            }
            Common::Many => Common::Many,
        },
    }
}

pub fn differ(common: Common) -> bool
    ensures { result ≡ of.differ (common_seen common) }
{
    match common {
        Common::NoneYet => false,
        Common::One(_) => false,
        Common::Many => true,
    }
}

/// The sorts of some items behind others.
pub fn all_items(
    seen: Seen<'_>,
    items: &[Item],
    before: Common,
    first: &mut Option<Refusal>,
) -> ItemSorts
    ensures common { common_seen result.common
        ≡ of.common (common_seen before) (sorts_of_items (scene_in seen.entry) items.now) }
    ensures known { result.all_known
        ≡ of.all_known (sorts_of_items (scene_in seen.entry) items.now) }
    ensures first { first.new ≡ first_in first.old (of.all_items (scene_in seen.entry) items.now) }
{
    let mut common = before;
    let mut all_known = true;
    for x in items {
        let sort = item(seen, x, first);
        common = with_sort(common, sort);
        all_known &= sort.is_some();
    }
    ItemSorts { common, all_known }
}

// ---- masks

/// Whether the numbers of an element of a mask are known.
fn mask_item(seen: Seen<'_>, element: &MaskItem, first: &mut Option<Refusal>) -> bool
    ensures known { result ≡ is_known (of.names_in_atom (scene_in seen.entry) element.now.atom) }
    ensures first { first.new
        ≡ first_in first.old (of.atom (scene_in seen.entry) element.now.atom) }
{
    match element.atom {
        MaskAtom::One => true,
        MaskAtom::Any => true,
        MaskAtom::Range(part) => range(seen, part, first),
    }
}

/// Whether both numbers of a range are known; it may not end before it begins.
fn range(seen: Seen<'_>, part: NumRange, first: &mut Option<Refusal>) -> bool
    ensures known { result ≡ is_known (of.numbers (scene_in seen.entry) part) }
    ensures first { first.new ≡ first_in first.old (of.range (scene_in seen.entry) part) }
{
    let is_known = numbers(seen, part, first);
    backwards(seen, part, place_of(part.low), first);
    is_known
}

/// Whether the numbers of all elements of a mask are known.
pub(crate) fn all_atoms(seen: Seen<'_>, elements: &[MaskItem], first: &mut Option<Refusal>) -> bool
    ensures known { result ≡ is_known (of.names_in_mask (scene_in seen.entry) elements.now) }
    ensures first { first.new
        ≡ first_in first.old (of.all_atoms (scene_in seen.entry) elements.now) }
{
    let mut all_known = true;
    for x in elements {
        let is_known = mask_item(seen, x, first);
        all_known &= is_known;
    }
    all_known
}
