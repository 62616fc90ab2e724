//! Searches among items whose nets are in their order: for those that cover a net, and for those
//! that it covers.
ghost use Rattle.std.specs.Prelude.{◌≡◌, ◌↔◌, ◌≤◌, ◌-◌, ◌/◌, ◌%◌, ◌^◌, ℕ, take, length};
ghost use Rattle.std.specs.Prelude.{IsTrue, IsSomeAnd, MatchOption, Any, true, false};
ghost use Rattle.std.specs.List.Sorted.{IsPartitionPoint};
ghost use Rattle.bits_ip.specs.declared.address.Addr.TheVariants.{V4, V6};
ghost use Rattle.bits_ip.specs.Address.{family_of};
ghost use Rattle.bits_ip.specs.Prefix.{Covers, IsPrefix, precedes};
ghost use Rattle.filt_sets.specs.Search.{AreBehind, AreRising, HoldCovering, IsShared};
ghost use Rattle.filt_sets.specs.Search.{TakesCovered, TakesCovering, TakesLength, is_covered};

use crate::PrefixItem;
use bits_ip::{Addr, Prefix};

/// Whether the net of some item covers this one, and the item takes its length.
///
/// The last of the items up to the net is looked at. Where its net doesn't cover this one, each
/// that does is made of bits that these two share, so none stands behind the net of all of them,
/// and the search goes on up to there. The shared bits grow fewer each time.
pub(crate) fn has_covering(items: &[PrefixItem], net: &Prefix) -> bool
    requires { AreRising items.now }
    ensures { IsTrue result ↔ Any (TakesCovered net.now) items.now }
{
    let mut front = up_to(items, net);
    while let [before @ .., item] = front {
        if item.takes_covered(net) {
            return true;
        }
        front = left_before(before, item, net);
    }
    false
}

/// Of the items before this one, a front with each whose net covers the given net.
fn left_before<'a>(before: &'a [PrefixItem], item: &PrefixItem, net: &Prefix) -> &'a [PrefixItem]
    ensures front { result.now ≡ take (length result.now) before.now }
    ensures held { AreRising before.now
        → AreBehind before.now item.now net.now
        → HoldCovering net.now before.now (length result.now) }
{
    if item.net.covers(net) {
        return before;
    }
    match shared(&item.net, net) {
        Some(both) => up_to(before, &both),
        None => &before[..0],
    }
}

/// The items whose nets don't come behind this one.
fn up_to<'a>(items: &'a [PrefixItem], net: &Prefix) -> &'a [PrefixItem]
    ensures front { result.now ≡ take (length result.now) items.now }
    ensures at { AreRising items.now
        → IsPartitionPoint (λ item. precedes net.now item.net ≡ false)
        (λ item. precedes net.now item.net ≡ true) items.now (length result.now) }
{
    let count = items.partition_point(|item| !net.precedes(&item.net));
    &items[..count]
}

/// The net of the bits that both addresses begin with. None where they are of two families.
fn shared(a: &Prefix, b: &Prefix) -> Option<Prefix>
    ensures { MatchOption result (family_of a.now.addr ≡ family_of b.now.addr → ⊥)
        (IsShared a.now.addr b.now.addr) }
{
    match a.addr() {
        Addr::V4(x) => match b.addr() {
            Addr::V4(y) => shared_v4(x, y),
            Addr::V6(_) => None,
        },
        Addr::V6(x) => match b.addr() {
            Addr::V4(_) => None,
            Addr::V6(y) => shared_v6(x, y),
        },
    }
}

fn shared_v4(a: u32, b: u32) -> Option<Prefix>
    ensures { IsSomeAnd result (IsShared (V4 a) (V4 b)) }
{
    let bits = unlike_bits(u128::from(a), u128::from(b));
    let number = without_last(u128::from(b), bits);
    Prefix::make(Addr::V4(number as u32), (32 - bits) as u8).ok()
}

fn shared_v6(a: u128, b: u128) -> Option<Prefix>
    ensures { IsSomeAnd result (IsShared (V6 a) (V6 b)) }
{
    let bits = unlike_bits(a, b);
    Prefix::make(Addr::V6(without_last(b, bits)), (128 - bits) as u8).ok()
}

/// How many bits at the end hold all in which the numbers differ.
fn unlike_bits(a: u128, b: u128) -> u32
    ensures within { result ≤ 128 }
    ensures same { a / 2 ^ result ≡ b / 2 ^ result }
    ensures least { (bits : ℕ) → a / 2 ^ bits ≡ b / 2 ^ bits → result ≤ bits }
{
    128 - (a ^ b).leading_zeros()
}

/// The number with zeros for its last bits.
fn without_last(number: u128, bits: u32) -> u128
    requires { bits ≤ 128 }
    ensures { result ≡ number - number % 2 ^ bits }
{
    match 1u128.checked_shl(bits) {
        Some(unit) => number - (number & (unit - 1)),
        None => 0,
    }
}

/// Whether the net covers that of some item, and the item takes its length.
pub(crate) fn has_covered(items: &[PrefixItem], net: &Prefix) -> bool
    requires { AreRising items.now }
    ensures { IsTrue result ↔ Any (TakesCovering net.now) items.now }
{
    // Asked for what the call ensures: the net has no bits behind its length.
    let _addr = net.addr();
    let first = items.partition_point(|item| item.net.precedes(net));
    let behind = &items[first..];
    let count = behind.partition_point(|item| item.is_covered(net));
    some_takes(&behind[..count], net.len())
}

fn some_takes(items: &[PrefixItem], len: u8) -> bool
    ensures { IsTrue result ↔ Any (λ item. TakesLength item len) items.now }
{
    items.iter().any(|item| item.takes_length(len))
}

impl PrefixItem {
    /// Whether its net covers this one, whose length it takes.
    fn takes_covered(&self, net: &Prefix) -> bool
        ensures { IsTrue result ↔ TakesCovered net.now self.now }
    {
        self.takes_length(net.len()) && self.net.covers(net)
    }

    /// Whether the net covers its own.
    fn is_covered(&self, net: &Prefix) -> bool
        ensures { result ≡ is_covered net.now self.now }
    {
        net.covers(&self.net)
    }
}
