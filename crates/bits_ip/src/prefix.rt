ghost use Rattle.std.specs.Prelude.{◌≡◌, ◌↔◌, ◌≤◌, ◌<◌, ◌-◌, ◌/◌, ◌%◌, ◌^◌, IsTrue, IfOk, OnErr};
ghost use Rattle.bits_ip.specs.Address.{family_of, number_of};
ghost use Rattle.bits_ip.specs.Prefix.{bit_at, Covers, IsPrefix, precedes, net_cmp};

use crate::{Addr, Family};
use std::cmp::Ordering;
use std::fmt::{self, Debug, Formatter, Write};
use std::hash::{Hash, Hasher};
use std::marker::Model;
use thiserror::Error;

/// No prefix has this length, or has these host bits.
#[derive(Clone, Copy, Debug, PartialEq, Eq, Drop, Error)]
#[error("no prefix has this length or these host bits")]
pub struct NotPrefix;

/// A prefix: an address whose bits behind the length are zero.
///
/// The address's number stands in four parts, since an `Addr` would take twice the room.
#[derive(Clone, Copy)]
pub struct Prefix {
    first: u32,
    second: u32,
    third: u32,
    fourth: u32,
    family: Family,
    len: u8,
}

impl Model for Prefix {
    ghost use Rattle.bits_ip.specs.Prefix.{Net, IsPrefix};

    ghost Value = { Net };

    ghost use Rattle.bits_ip.specs.Quarters.{AreParts, net_in, parts_are, parts_of};

    ghost view = { net_in };

    ghost invariant = { λ p. AreParts p × IsPrefix (net_in p).addr p.len };

    ghost inverse = { parts_of };

    ghost inverse_ok = { λ p is. parts_are p is.0 };
}

impl Prefix {
    /// Refused exactly where the length is over the family's or a bit behind it is set.
    pub fn make(addr: Addr, len: u8) -> Result<Prefix, NotPrefix>
        ensures made { IfOk result (λ net. (net.addr ≡ addr) × (net.len ≡ len)) }
        ensures is { IfOk result (λ net. IsPrefix addr len) }
        ensures refused { OnErr result (IsPrefix addr len → ⊥) }
    {
        if len <= addr.width() && addr.ends_at(len) {
            Ok(Prefix::of(addr, len))
        } else {
            Err(NotPrefix)
        }
    }

    fn of(addr: Addr, len: u8) -> Prefix
        requires { IsPrefix addr len }
        ensures { (result.addr ≡ addr) × (result.len ≡ len) }
    {
        let number = addr.number();
        Prefix {
            first: (number >> 96) as u32,
            second: ((number >> 64) % 0x1_0000_0000) as u32,
            third: ((number >> 32) % 0x1_0000_0000) as u32,
            fourth: (number % 0x1_0000_0000) as u32,
            family: addr.family(),
            len,
        }
    }

    /// The address that the prefix begins with.
    pub fn addr(&self) -> Addr
        ensures value { result ≡ self.now.addr }
        ensures prefix { IsPrefix self.now.addr self.now.len }
    {
        let front = u128::from(self.first) * 0x1_0000_0000 + u128::from(self.second);
        let back = u128::from(self.third) * 0x1_0000_0000 + u128::from(self.fourth);
        let number = front * 0x1_0000_0000_0000_0000 + back;
        match self.family {
            Family::V4 => Addr::V4(number as u32),
            Family::V6 => Addr::V6(number),
        }
    }

    /// How many bits of the address count.
    pub fn len(&self) -> u8
        ensures { result ≡ self.now.len }
    {
        self.len
    }

    pub fn family(&self) -> Family
        ensures { result ≡ family_of self.now.addr }
    {
        self.family
    }

    /// The bit at this place, the first at 0, of those that count.
    pub fn bit(&self, i: u8) -> bool
        requires { i < self.now.len }
        ensures { IsTrue result ↔ (bit_at self.now.addr i ≡ 1) }
    {
        self.addr().front_bits(i + 1) % 2 == 1
    }

    /// One family, not longer than the other, and its bits are the other's first.
    pub fn covers(&self, other: &Prefix) -> bool
        ensures { IsTrue result ↔ Covers self.now other.now }
    {
        self.family() == other.family()
            && self.len <= other.len
            && self.addr().front_bits(self.len) == other.addr().front_bits(self.len)
    }

    /// The first half of the address's number.
    fn upper_half(&self) -> u64
        ensures { result ≡ number_of self.now.addr / 2 ^ 64 }
    {
        u64::from(self.first) * 0x1_0000_0000 + u64::from(self.second)
    }

    /// The second half of the address's number.
    fn lower_half(&self) -> u64
        ensures { result ≡ number_of self.now.addr % 2 ^ 64 }
    {
        u64::from(self.third) * 0x1_0000_0000 + u64::from(self.fourth)
    }

    /// The order of nets: IPv4 first, then by address, then by length.
    pub fn precedes(&self, other: &Prefix) -> bool
        ensures { result ≡ precedes self.now other.now }
    {
        self.cmp(other) == Ordering::Less
    }
}

impl PartialEq for Prefix {
    ghost use Rattle.std.specs.Prelude.{◌==◌};
    ghost use Rattle.std.proofs.Common.{rules};
    ghost use Rattle.std.specs.Cmp.Rules.{comparing};
    ghost use Rattle.std.specs.Ordering.{eq_of_both, on};
    ghost use Rattle.bits_ip.specs.Prefix.{Net};

    ghost eq = { eq_of_both (on (λ (n : Net). n.addr) ⟦<Addr as PartialEq>⟧.eq) (on (λ (n : Net). n.len) ◌==◌) };

    ghost laws = { Prim.search (comparing, rules) };

    fn eq(&self, other: &Prefix) -> bool {
        self.lower_half() == other.lower_half()
            && self.len == other.len
            && self.upper_half() == other.upper_half()
            && self.family == other.family
    }
}

impl Eq for Prefix {
    ghost use Rattle.std.proofs.Common.{rules};
    ghost use Rattle.std.specs.Cmp.Rules.{comparing};

    ghost laws = { Prim.search (comparing, rules) };
}

impl Hash for Prefix {
    ghost use Rattle.std.specs.Prelude.{◌++◌};
    ghost use Rattle.std.proofs.Common.{rules};
    ghost use Rattle.std.specs.Hash as fed;

    ghost hash_input = { λ n. ⟦<Addr as Hash>⟧.hash_input n.addr ++ fed.u8 n.len };

    ghost respects_eq = { Prim.search rules };

    fn hash<H: Hasher>(&self, state: &mut H) {
        self.addr().hash(state);
        self.len.hash(state);
    }
}

impl Debug for Prefix {
    fn fmt<W: Write>(&self, f: &mut Formatter<W>) -> fmt::Result {
        f.debug_struct("Prefix")
            .field("addr", &self.addr())
            .field("len", &self.len)
            .finish()
    }
}

impl Ord for Prefix {
    ghost use Rattle.std.proofs.Common.{rules};
    ghost use Rattle.std.specs.Cmp.Rules.{comparing};
    ghost use Rattle.bits_ip.specs.Prefix.{net_cmp};

    ghost cmp = { net_cmp };

    ghost total = { Prim.search (comparing, rules) };

    ghost matches_partial_cmp = { Prim.search (comparing, rules) };

    ghost matches_eq = { Prim.search (comparing, rules) };

    fn cmp(&self, other: &Prefix) -> Ordering {
        match (self.family, other.family) {
            (Family::V4, Family::V6) => return Ordering::Less,
            (Family::V6, Family::V4) => return Ordering::Greater,
            _ => {}
        }
        if self.upper_half() != other.upper_half() {
            return self.upper_half().cmp(&other.upper_half());
        }
        if self.lower_half() != other.lower_half() {
            return self.lower_half().cmp(&other.lower_half());
        }
        self.len.cmp(&other.len)
    }
}

impl PartialOrd for Prefix {
    ghost use Rattle.std.proofs.Common.{rules};
    ghost use Rattle.std.specs.Cmp.Rules.{comparing};
    ghost use Rattle.std.specs.Cmp.{partial_order_from_own_ties};
    ghost use Rattle.std.specs.Ordering.{as_partial_cmp};
    ghost use Rattle.bits_ip.specs.Prefix.{net_cmp};

    ghost partial_cmp = { as_partial_cmp net_cmp };

    ghost laws = { partial_order_from_own_ties (Prim.search (comparing, rules)) (Prim.search (comparing, rules)) };

    fn partial_cmp(&self, other: &Prefix) -> Option<Ordering> {
        Some(self.cmp(other))
    }
}
