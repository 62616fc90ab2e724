//! Which nets are asked for: those that cover a prefix, and those that it covers.
ghost use Rattle.std.specs.Prelude.{◌≡◌, ◌≤◌, ◌-◌, ◌+◌, ◌%◌, ◌^◌};
ghost use Rattle.bits_ip.specs.Address.{width_of, number_of};
ghost use Rattle.bits_ip.specs.Prefix.{IsPrefix};
ghost use Rattle.attrs.specs.Select.{covers};
ghost use Rattle.rib.specs.Picks.{front, front_addr, last_addr, last_within};

use bits_ip::{Addr, Prefix};

pub(crate) fn covers(net: &Prefix, other: &Prefix) -> bool
    ensures { result ≡ covers net.now other.now }
{
    net.covers(other)
}

/// The prefix of this length that covers the prefix.
pub(crate) fn front(net: &Prefix, len: u8) -> Prefix
    requires { len ≤ net.now.len }
    ensures { result ≡ front net.now len }
{
    match Prefix::make(front_addr(net.addr(), len), len) {
        Ok(front) => front,
        Err(_) => unreachable!(),
    }
}

fn front_addr(addr: Addr, len: u8) -> Addr
    requires { len ≤ width_of addr }
    ensures { result ≡ front_addr addr len }
{
    match addr {
        Addr::V4(number) => Addr::V4(number - last_bits_v4(number, 32 - u32::from(len))),
        Addr::V6(number) => Addr::V6(number - last_bits_v6(number, 128 - u32::from(len))),
    }
}

/// The number that the last bits make.
fn last_bits_v4(number: u32, bits: u32) -> u32
    requires { bits ≤ 32 }
    ensures is { result ≡ number % 2 ^ bits }
    ensures within { result ≤ number }
{
    match 1u32.checked_shl(bits) {
        Some(unit) => number % unit,
        None => number,
    }
}

fn last_bits_v6(number: u128, bits: u32) -> u128
    requires { bits ≤ 128 }
    ensures is { result ≡ number % 2 ^ bits }
    ensures within { result ≤ number }
{
    match 1u128.checked_shl(bits) {
        Some(unit) => number % unit,
        None => number,
    }
}

/// The longest prefix of the last address that the prefix covers, which no net that it covers is
/// behind.
pub(crate) fn last_within(net: &Prefix) -> Prefix
    ensures { result ≡ last_within net.now }
{
    match Prefix::make(last_addr(net), width(net)) {
        Ok(last) => last,
        Err(_) => unreachable!(),
    }
}

fn width(net: &Prefix) -> u8
    ensures { result ≡ width_of net.now.addr }
{
    match net.addr() {
        Addr::V4(_) => 32,
        Addr::V6(_) => 128,
    }
}

fn last_addr(net: &Prefix) -> Addr
    ensures { result ≡ last_addr net.now.addr net.now.len }
{
    match net.addr() {
        Addr::V4(number) => Addr::V4(last_v4(number, 32 - u32::from(net.len()))),
        Addr::V6(number) => Addr::V6(last_v6(number, 128 - u32::from(net.len()))),
    }
}

/// The number with its last bits set.
fn last_v4(number: u32, bits: u32) -> u32
    requires bits { bits ≤ 32 }
    requires clear { number % 2 ^ bits ≡ 0 }
    ensures { result ≡ number + (2 ^ bits - 1) }
{
    match 1u32.checked_shl(bits) {
        Some(unit) => number + (unit - 1),
        None => u32::MAX,
    }
}

fn last_v6(number: u128, bits: u32) -> u128
    requires bits { bits ≤ 128 }
    requires clear { number % 2 ^ bits ≡ 0 }
    ensures { result ≡ number + (2 ^ bits - 1) }
{
    match 1u128.checked_shl(bits) {
        Some(unit) => number + (unit - 1),
        None => u128::MAX,
    }
}
