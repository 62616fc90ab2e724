//! Values as answers show them.
use crate::values::words::{Word, name_of, text_of};
use bits_ip::{OutOfMemory, append_addr, append_prefix, write_number};
use filt_meaning::Value;

fn write(text: &str, out: &mut Vec<u8>) -> Result<(), OutOfMemory> {
    out.extend_from_slice(text.as_bytes())?;
    Ok(())
}

fn write_pair(first: u16, second: u16, out: &mut Vec<u8>) -> Result<(), OutOfMemory> {
    out.push(b'(')?;
    write_number(first, out)?;
    out.push(b',')?;
    write_number(second, out)?;
    out.push(b')')?;
    Ok(())
}

fn write_string(bytes: &[u8], out: &mut Vec<u8>) -> Result<(), OutOfMemory> {
    out.push(b'"')?;
    out.extend_from_slice(bytes)?;
    out.push(b'"')?;
    Ok(())
}

fn write_path(numbers: &[u32], out: &mut Vec<u8>) -> Result<(), OutOfMemory> {
    let mut before = b'(';
    for number in numbers {
        out.push(before)?;
        write_number(*number, out)?;
        before = b' ';
    }
    if numbers.is_empty() {
        out.push(b'(')?;
    }
    out.push(b')')?;
    Ok(())
}

fn write_clist(pairs: &[(u16, u16)], out: &mut Vec<u8>) -> Result<(), OutOfMemory> {
    let mut before = b'{';
    for (first, second) in pairs {
        out.push(before)?;
        write_pair(*first, *second, out)?;
        before = b' ';
    }
    if pairs.is_empty() {
        out.push(b'{')?;
    }
    out.push(b'}')?;
    Ok(())
}

/// Appends a value. Of a set or a mask that is its sort alone.
pub fn write_value(value: &Value<'_>, out: &mut Vec<u8>) -> Result<(), OutOfMemory> {
    match value {
        Value::Int(number) => write_number(*number, out),
        Value::Bool(truth) => write(text_of(Word::Bool(*truth)), out),
        Value::Ip(addr) => append_addr(addr, out),
        Value::Prefix(net) => append_prefix(net, out),
        Value::Pair(first, second) => write_pair(*first, *second, out),
        Value::String(bytes) => write_string(*bytes, out),
        Value::Path(path) => write_path(path.as_slice(), out),
        Value::PathOf(path) => write_path(path.as_slice(), out),
        Value::Clist(list) => write_clist(list.as_slice(), out),
        Value::ClistOf(list) => write_clist(list.as_slice(), out),
        Value::Source(source) => write(text_of(Word::Source(*source)), out),
        Value::Dest(dest) => write(text_of(Word::Dest(*dest)), out),
        Value::Origin(origin) => write(text_of(Word::Origin(*origin)), out),
        _ => write(name_of(value.sort()), out),
    }
}
