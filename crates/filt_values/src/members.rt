//! Which elements sets, masks, paths and lists of communities have.

ghost use Rattle.std.specs.Prelude.{◌≡◌};
ghost use Rattle.std.specs.List.{list_any};
ghost use Rattle.bits_ip.specs.Address.{width_of};
ghost use Rattle.filt_sets.specs.Search.{cuts};
ghost use Rattle.attrs.specs.Clist.{has_pair};
ghost use Rattle.filt_meaning.specs.Members.{covers, host_of, in_ints, in_nets, in_pairs, in_path};

use attrs::{Clist, Path};
use bits_ip::{Addr, Prefix};
use filt_sets::{IntSet, Mask, PairSet, PrefixSet};

pub(crate) fn in_ints(set: &IntSet, number: u32) -> bool
    ensures { result ≡ in_ints set.now number }
{
    set.has(number)
}

pub(crate) fn in_pairs(set: &PairSet, first: u16, second: u16) -> bool
    ensures { result ≡ in_pairs set.now (first, second) }
{
    set.has(first, second)
}

pub(crate) fn in_nets(set: &PrefixSet, net: &Prefix) -> bool
    ensures { result ≡ in_nets set.now net.now }
{
    set.has(net)
}

pub(crate) fn in_path(path: &Path, number: u32) -> bool
    ensures { result ≡ in_path path.now number }
{
    path.as_slice().iter().any(|other| *other == number)
}

pub(crate) fn has_pair(list: &Clist, first: u16, second: u16) -> bool
    ensures { result ≡ has_pair list.now (first, second) }
{
    list.as_slice().contains(&(first, second))
}

pub(crate) fn covers(net: &Prefix, other: &Prefix) -> bool
    ensures { result ≡ covers net.now other.now }
{
    net.covers(other)
}

/// Whether the address is within the prefix.
pub(crate) fn has_addr(net: &Prefix, addr: &Addr) -> bool
    ensures { result ≡ covers net.now (host_of addr.now) }
{
    let host = host_of(addr);
    covers(net, &host)
}

/// The prefix that has this address alone.
fn host_of(addr: &Addr) -> Prefix
    ensures { result ≡ host_of addr.now }
{
    match Prefix::make(*addr, width(addr)) {
        Ok(host) => host,
        Err(_) => unreachable!(),
    }
}

fn width(addr: &Addr) -> u8
    ensures { result ≡ width_of addr.now }
{
    match addr {
        Addr::V4(_) => 32,
        Addr::V6(_) => 128,
    }
}

pub(crate) fn matches(mask: &Mask, path: &Path) -> bool
    ensures { result ≡ cuts mask.now path.now }
{
    mask.matches(path.as_slice())
}

/// Whether some number of the path is in the set.
pub(crate) fn some_in_ints(path: &Path, set: &IntSet) -> bool
    ensures { result ≡ list_any (λ n. in_ints set.now n) path.now }
{
    path.as_slice().iter().any(|number| in_ints(set, *number))
}

/// Whether some community of the list is in the set.
pub(crate) fn some_in_pairs(list: &Clist, set: &PairSet) -> bool
    ensures { result ≡ list_any (λ p. in_pairs set.now p) list.now }
{
    list.as_slice()
        .iter()
        .any(|pair| in_pairs(set, pair.0, pair.1))
}
