use bits_ip::{
    Addr, BadText, OutOfMemory, Prefix, parse_addr, parse_decimal, parse_prefix, parse_v4,
    read_addr, read_prefix, write_addr, write_number, write_prefix,
};
use std::alloc::Global;
use std::io;
use std::io::{Error, ErrorKind};

fn addr_value(alloc: Global, addr: Addr) -> io::Result<String> {
    Ok(match addr {
        Addr::V4(number) => format!(in alloc; "v4 {number:08x}")?,
        Addr::V6(number) => format!(in alloc; "v6 {number:032x}")?,
    })
}

fn net_value(alloc: Global, net: &Prefix) -> io::Result<String> {
    let addr = addr_value(alloc, net.addr())?;
    let len = net.len();
    Ok(format!(in alloc; "{addr}/{len}")?)
}

fn refused(alloc: Global) -> io::Result<String> {
    Ok(String::from_str(alloc, "refused")?)
}

/// The address at the front of a text.
pub fn address(alloc: Global, text: &[u8]) -> io::Result<String> {
    match read_addr(text) {
        Ok((addr, len)) => {
            let addr = addr_value(alloc, addr)?;
            Ok(format!(in alloc; "{addr}, {len} bytes")?)
        }
        Err(BadText) => refused(alloc),
    }
}

/// The prefix at the front of a text.
pub fn prefix(alloc: Global, text: &[u8]) -> io::Result<String> {
    match read_prefix(text) {
        Ok((net, len)) => {
            let net = net_value(alloc, &net)?;
            Ok(format!(in alloc; "{net}, {len} bytes")?)
        }
        Err(BadText) => refused(alloc),
    }
}

/// The address or the prefix that the whole text spells.
pub fn whole(alloc: Global, text: &[u8]) -> io::Result<String> {
    match (parse_v4(text), parse_addr(text), parse_prefix(text)) {
        (Some(number), Some(Addr::V4(same)), None) if number == same => {
            addr_value(alloc, Addr::V4(number))
        }
        (None, Some(Addr::V6(number)), None) => addr_value(alloc, Addr::V6(number)),
        (None, None, Some(net)) => net_value(alloc, &net),
        (None, None, None) => refused(alloc),
        _ => Ok(String::from_str(alloc, "read in several ways")?),
    }
}

fn as_text(written: Result<(), OutOfMemory>, text: Vec<u8>) -> io::Result<String> {
    written.map_err(|_| Error::from(ErrorKind::OutOfMemory))?;
    String::from_utf8(text).map_err(|_| Error::from(ErrorKind::InvalidData))
}

/// The number that the whole text spells, as it is written.
pub fn number(alloc: Global, text: &[u8]) -> io::Result<String> {
    let Some(number) = parse_decimal(text) else {
        return refused(alloc);
    };
    let mut out = Vec::new(alloc);
    let written = write_number(number, &mut out);
    as_text(written, out)
}

/// The address or the prefix that the whole text spells, as it is written.
pub fn written(alloc: Global, text: &[u8]) -> io::Result<String> {
    let mut out = Vec::new(alloc);
    let written = match (parse_addr(text), parse_prefix(text)) {
        (Some(addr), _) => write_addr(alloc, &addr, &mut out),
        (None, Some(net)) => write_prefix(alloc, &net, &mut out),
        (None, None) => return refused(alloc),
    };
    as_text(written, out)
}
