//! Equality and order of what values hold.

ghost use Rattle.std.specs.Prelude.{◌≡◌};
ghost use Rattle.bits_ip.specs.Prefix.{same_addr, same_net};
ghost use Rattle.attrs.specs.Clist.{same_pair};
ghost use Rattle.filt_meaning.specs.Members.{addr_cmp, dest_rank, origin_rank, pair_cmp, same_bool, source_rank};

use attrs::{Dest, Kind, Origin};
use bits_ip::{Addr, Prefix};
use std::cmp::Ordering;

pub(crate) fn same_bool(a: bool, b: bool) -> bool
    ensures { result ≡ same_bool a b }
{
    if a { b } else { !b }
}

pub(crate) fn same_addr(a: &Addr, b: &Addr) -> bool
    ensures { result ≡ same_addr a.now b.now }
{
    match a {
        Addr::V4(a) => match b {
            Addr::V4(b) => *a == *b,
            Addr::V6(_) => false,
        },
        Addr::V6(a) => match b {
            Addr::V4(_) => false,
            Addr::V6(b) => *a == *b,
        },
    }
}

pub(crate) fn same_net(a: &Prefix, b: &Prefix) -> bool
    ensures { result ≡ same_net a.now b.now }
{
    same_addr(&a.addr(), &b.addr()) && a.len() == b.len()
}

pub(crate) fn same_pair(a: (u16, u16), b: (u16, u16)) -> bool
    ensures { result ≡ same_pair a b }
{
    a.0 == b.0 && a.1 == b.1
}

pub(crate) fn source_rank(source: Kind) -> u8
    ensures { result ≡ source_rank source }
{
    match source {
        Kind::Static => 0,
        Kind::Bgp => 1,
    }
}

pub(crate) fn dest_rank(dest: Dest) -> u8
    ensures { result ≡ dest_rank dest }
{
    match dest {
        Dest::Unicast => 0,
        Dest::Blackhole => 1,
        Dest::Unreachable => 2,
        Dest::Prohibit => 3,
    }
}

pub(crate) fn origin_rank(origin: Origin) -> u8
    ensures { result ≡ origin_rank origin }
{
    match origin {
        Origin::Igp => 0,
        Origin::Egp => 1,
        Origin::Incomplete => 2,
    }
}

pub(crate) fn pair_order(a: (u16, u16), b: (u16, u16)) -> Ordering
    ensures { result ≡ pair_cmp a b }
{
    a.0.cmp(&b.0).then(a.1.cmp(&b.1))
}

pub(crate) fn addr_order(a: &Addr, b: &Addr) -> Ordering
    ensures { result ≡ addr_cmp a.now b.now }
{
    match a {
        Addr::V4(a) => match b {
            Addr::V4(b) => a.cmp(b),
            Addr::V6(_) => Ordering::Less,
        },
        Addr::V6(a) => match b {
            Addr::V4(_) => Ordering::Greater,
            Addr::V6(b) => a.cmp(b),
        },
    }
}
