// Decimal numbers and IPv4 addresses in one pass, where nothing about them is unusual.

ghost use Rattle.std.specs.Prelude.{◌≡◌, ◌≤◌, ◌<◌, ◌+◌, ◌*◌, ◌-◌, ◌^◌, length, take, true, false};
ghost use Rattle.std.specs.Prelude.{nat_lt, if◌then◌else◌, IfSome};
ghost use Rattle.std.specs.Char.{is_ascii_digit};
ghost use Rattle.std.specs.List.{prefix_len};
ghost use Rattle.std.specs.Str.Parse.{digits_value};
ghost use Rattle.conf_scan.specs.Fronts.{begins_colons, Tells};
ghost use Rattle.conf_scan.specs.Numbers.{IsOctet, IsOctetAndDot, IsDottedFront};

use crate::scan::{begins_hexadecimal, begins_with, tail};
use crate::token::TokenKind;
use bits_ip::Addr;

/// A number at the front of a text and how many bytes it is.
#[derive(Clone, Copy, Debug, PartialEq, Eq)]
pub struct Number {
    pub value: u64,
    pub len: usize,
}

/// The number with one digit more. One that is over 32 bits stays as it is.
fn with_digit(value: u64, digit: u8) -> u64
    requires digit { is_ascii_digit digit ≡ true }
    requires fits { value < 2 ^ 36 }
    ensures next { result ≡ (if nat_lt value (2 ^ 32) then value * 10 + (digit - 48) else value) }
    ensures fits { result < 2 ^ 36 }
{
    if value < 0x1_0000_0000 {
        value * 10 + u64::from(digit - b'0')
    } else {
        value
    }
}

/// The decimal digits at the front. Where their number is over 32 bits, so is the value.
fn digits(text: &[u8]) -> Number
    ensures len { result.len ≡ prefix_len is_ascii_digit text.now }
    ensures within { result.len ≤ length text.now }
    ensures value { result.value < 2 ^ 32
        → digits_value 10 (take result.len text.now) ≡ result.value }
{
    let mut value = 0;
    let mut len = 0;
    for byte in text {
        if !byte.is_ascii_digit() {
            break;
        }
        value = with_digit(value, *byte);
        len += 1;
    }
    Number { value, len }
}

/// The octet at the front, without leading zeros.
fn octet(text: &[u8]) -> Option<Number>
    ensures { IfSome result (λ found. IsOctet text.now found) }
{
    let found = digits(text);
    if found.len == 0 || found.value > 255 {
        return None;
    }
    if begins_with(text, b'0') && found.len > 1 {
        return None;
    }
    Some(found)
}

/// The octet at the front. Its length counts the dot behind it.
fn octet_and_dot(text: &[u8]) -> Option<Number>
    ensures { IfSome result (λ found. IsOctetAndDot text.now found) }
{
    let found = octet(text)?;
    if begins_with(tail(text, found.len), b'.') {
        Some(Number {
            value: found.value,
            len: found.len + 1,
        })
    } else {
        None
    }
}

/// The IPv4 address at the front.
fn dotted(text: &[u8]) -> Option<Number>
    ensures { IfSome result (λ found. IsDottedFront text.now found) }
{
    let first = octet_and_dot(text)?;
    let text = tail(text, first.len);
    let second = octet_and_dot(text)?;
    let text = tail(text, second.len);
    let third = octet_and_dot(text)?;
    let text = tail(text, third.len);
    let fourth = octet(text)?;
    Some(Number {
        value: ((first.value * 256 + second.value) * 256 + third.value) * 256 + fourth.value,
        len: first.len + second.len + third.len + fourth.len,
    })
}

fn address_token(text: &[u8]) -> Option<(TokenKind, usize)>
    requires { begins_colons text.now ≡ false }
    ensures { IfSome result (λ found. Tells text.now found.0 found.1) }
{
    let found = dotted(text)?;
    Some((TokenKind::Ip(Addr::V4(found.value as u32)), found.len))
}

/// The decimal number or IPv4 address at the front, where it is written without anything unusual.
pub fn number_token(text: &[u8]) -> Option<(TokenKind, usize)>
    requires { begins_colons text.now ≡ false }
    ensures { IfSome result (λ found. Tells text.now found.0 found.1) }
{
    let found = digits(text);
    if found.len == 0 {
        return None;
    }
    if begins_with(tail(text, found.len), b'.') {
        return address_token(text);
    }
    if begins_hexadecimal(text) {
        return None;
    }
    if found.value > 0xFFFF_FFFF {
        return None;
    }
    Some((TokenKind::Number(found.value as u32), found.len))
}
