ghost use Rattle.std.specs.Prelude.{◌≡◌, ◌++◌, ◌+◌, ◌≤◌, decimal, take, OnOk, OnErr};
ghost use Rattle.bits_ip.specs.Text.{addr_text, net_text, v4_text};
ghost use Rattle.bits_ip.specs.Out.{Kept};

use crate::ipv6::write_v6;
use crate::{Addr, OutOfMemory, Prefix, TextOut};
use std::alloc::Global;

/// Appends an address: IPv4 in dotted decimals, IPv6 as RFC 5952 says.
pub fn write_addr(alloc: Global, addr: &Addr, out: &mut Vec<u8>) -> Result<(), OutOfMemory>
    ensures written { OnOk result (out.new.items ≡ out.old.items ++ addr_text addr.now) }
    ensures refused { OnErr result (out.new.items ≡ out.old.items) }
{
    let mut text = Vec::new(alloc);
    append_addr(addr, &mut text)?;
    out.extend_from_slice(&text)?;
    Ok(())
}

/// Appends a prefix: its address, a slash and its length.
pub fn write_prefix(alloc: Global, net: &Prefix, out: &mut Vec<u8>) -> Result<(), OutOfMemory>
    ensures written { OnOk result (out.new.items ≡ out.old.items ++ net_text net.now) }
    ensures refused { OnErr result (out.new.items ≡ out.old.items) }
{
    let mut text = Vec::new(alloc);
    append_prefix(net, &mut text)?;
    out.extend_from_slice(&text)?;
    Ok(())
}

/// Appends an address, as `write_addr` does. On refusal a part of it may stand.
pub fn append_addr<W: TextOut>(addr: &Addr, out: &mut W) -> Result<(), W::Fault>
    ensures written { OnOk result (W.written out.new ≡ W.written out.old ++ addr_text addr.now) }
    ensures kept { Kept W.follows out.old out.new }
{
    match addr {
        Addr::V4(number) => write_v4(*number, out),
        Addr::V6(number) => write_v6(*number, out),
    }
}

/// Appends a prefix, as `write_prefix` does. On refusal a part of it may stand.
pub fn append_prefix<W: TextOut>(net: &Prefix, out: &mut W) -> Result<(), W::Fault>
    ensures written { OnOk result (W.written out.new ≡ W.written out.old ++ net_text net.now) }
    ensures kept { Kept W.follows out.old out.new }
{
    let mut text = [0; 24];
    let end = match net.addr() {
        Addr::V4(number) => add_v4(number, &mut text),
        Addr::V6(number) => {
            write_v6(number, out)?;
            0
        }
    };
    text[end] = b'/';
    let end = add_octet(net.len(), &mut text, end + 1);
    out.put(&text[..end])
}

fn write_v4<W: TextOut>(number: u32, out: &mut W) -> Result<(), W::Fault>
    ensures written { OnOk result (W.written out.new ≡ W.written out.old ++ v4_text number) }
    ensures kept { Kept W.follows out.old out.new }
{
    let mut text = [0; 24];
    let end = add_v4(number, &mut text);
    out.put(&text[..end])
}

/// Writes an IPv4 address at the front of the bytes, and tells where its text ends.
fn add_v4(number: u32, text: &mut [u8; 24]) -> usize
    ensures written { take result text.new ≡ v4_text number }
    ensures room { result ≤ 15 }
{
    let [first, second, third, fourth] = number.to_be_bytes();
    let end = add_octet(first, text, 0);
    text[end] = b'.';
    let end = add_octet(second, text, end + 1);
    text[end] = b'.';
    let end = add_octet(third, text, end + 1);
    text[end] = b'.';
    add_octet(fourth, text, end + 1)
}

/// Writes a number in decimal behind the first bytes, and tells where its text ends.
fn add_octet(number: u8, text: &mut [u8; 24], start: usize) -> usize
    requires { start ≤ 21 }
    ensures written { take result text.new ≡ take start text.old ++ decimal number }
    ensures room { result ≤ start + 3 }
{
    if number < 10 {
        text[start] = b'0' + number;
        return start + 1;
    }
    if number < 100 {
        text[start] = b'0' + number / 10;
        text[start + 1] = b'0' + number % 10;
        return start + 2;
    }
    text[start] = b'0' + number / 100;
    text[start + 1] = b'0' + number / 10 % 10;
    text[start + 2] = b'0' + number % 10;
    start + 3
}
