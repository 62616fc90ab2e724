use crate::notation::{bad, sides};
use bits_ip::{NotPrefix, Prefix, parse_addr, parse_decimal, parse_prefix};
use std::alloc::Global;
use std::{io, str};

/// What stands before a space, and what stands behind it.
fn two_words(text: &[u8]) -> io::Result<(&str, &str)> {
    let text = str::from_utf8(text).map_err(|_| bad())?;
    sides(text, " ")
}

fn net(text: &[u8]) -> io::Result<Prefix> {
    parse_prefix(text).ok_or(bad())
}

/// Whether an address and a length make a prefix, with this address and this length.
pub fn made(alloc: Global, text: &[u8]) -> io::Result<String> {
    let (addr, len) = two_words(text)?;
    let addr = parse_addr(addr.as_bytes()).ok_or(bad())?;
    let len = parse_decimal(len.as_bytes()).ok_or(bad())?;
    let len = u8::try_from(len).map_err(|_| bad())?;
    let answer = match Prefix::make(addr, len) {
        Ok(net) if net.addr() == addr && net.len() == len => "made",
        Ok(_) => "another prefix",
        Err(NotPrefix) => "not made",
    };
    Ok(String::from_str(alloc, answer)?)
}

/// The family of a prefix, and its bits that count.
pub fn bits(alloc: Global, text: &[u8]) -> io::Result<String> {
    let net = net(text)?;
    let family = net.family();
    let mut bits = String::new(alloc);
    for i in 0..net.len() {
        bits.push_str(if net.bit(i) { "1" } else { "0" })?;
    }
    Ok(format!(in alloc; "{family:?} [{bits}]")?)
}

/// The order of two prefixes, and whether the first precedes the other and covers it.
pub fn pair(alloc: Global, text: &[u8]) -> io::Result<String> {
    let (first, second) = two_words(text)?;
    let first = net(first.as_bytes())?;
    let second = net(second.as_bytes())?;
    let order = first.cmp(&second);
    let precedes = if first.precedes(&second) {
        " precedes"
    } else {
        ""
    };
    let covers = if first.covers(&second) { " covers" } else { "" };
    Ok(format!(in alloc; "{order:?}{precedes}{covers}")?)
}
