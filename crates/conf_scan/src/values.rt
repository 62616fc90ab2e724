ghost use Rattle.std.specs.Prelude.{◌≡◌, ◌≤◌, ℕ, List, MatchOption};
ghost use Rattle.std.specs.Str.Parse.{AllDigits};
ghost use Rattle.bits_ip.specs.Text.{IsAddrText, is_addr_byte};
ghost use Rattle.bits_ip.specs.declared.address.Addr.{Addr};
ghost use Rattle.std.specs.List.{list_all};
ghost use Rattle.std.specs.Prelude.{IsTrue};
ghost use Rattle.conf_scan.specs.Shapes.{IsShape, IsDigits, IsNumber, IsHexadecimal, IsValue};
ghost use Rattle.conf_scan.specs.declared.scan.Lexeme.TheVariants as lexemes;
ghost use Rattle.conf_scan.specs.declared.token.TokenKind.{TokenKind};

use crate::scan::{Lexeme, tail};
use crate::token::TokenKind;
use bits_ip::{Addr, read_addr};

fn number(digits: &[u8], radix: u32) -> Option<u32>
    requires least { 2 ≤ radix }
    requires most { radix ≤ 16 }
    requires digits { AllDigits radix digits.now }
    ensures { MatchOption result ((n : ℕ) → IsNumber radix digits.now n → ⊥)
        (λ n. IsNumber radix digits.now n) }
{
    let text = str::from_utf8(digits).ok()?;
    u32::from_str_radix(text, radix).ok()
}

fn decimal(slice: &[u8]) -> Option<TokenKind>
    requires { IsDigits slice.now }
    ensures { MatchOption result ((kind : TokenKind) → IsValue lexemes.Decimal slice.now kind → ⊥)
        (λ kind. IsValue lexemes.Decimal slice.now kind) }
{
    let value = number(slice, 10)?;
    Some(TokenKind::Number(value))
}

fn hexadecimal(slice: &[u8]) -> Option<TokenKind>
    requires { IsHexadecimal slice.now }
    ensures { MatchOption result ((kind : TokenKind) → IsValue lexemes.Hexadecimal slice.now kind
        → ⊥)
        (λ kind. IsValue lexemes.Hexadecimal slice.now kind) }
{
    let value = number(tail(slice, 2), 16)?;
    Some(TokenKind::Number(value))
}

fn address(slice: &[u8]) -> Option<Addr>
    requires { IsTrue (list_all is_addr_byte slice.now) }
    ensures { MatchOption result ((addr : Addr) → IsAddrText slice.now addr → ⊥)
        (λ addr. IsAddrText slice.now addr) }
{
    match read_addr(slice) {
        Ok((addr, _)) => Some(addr),
        Err(_) => None,
    }
}

fn dotted(slice: &[u8]) -> Option<TokenKind>
    requires { IsTrue (list_all is_addr_byte slice.now) }
    ensures { MatchOption result ((kind : TokenKind) → IsValue lexemes.Ipv4 slice.now kind → ⊥)
        (λ kind. IsValue lexemes.Ipv4 slice.now kind) }
{
    match address(slice) {
        Some(Addr::V4(number)) => Some(TokenKind::Ip(Addr::V4(number))),
        Some(Addr::V6(_)) => None,
        None => None,
    }
}

fn colons(slice: &[u8]) -> Option<TokenKind>
    requires { IsTrue (list_all is_addr_byte slice.now) }
    ensures { MatchOption result ((kind : TokenKind) → IsValue lexemes.Ipv6 slice.now kind → ⊥)
        (λ kind. IsValue lexemes.Ipv6 slice.now kind) }
{
    match address(slice) {
        Some(Addr::V6(number)) => Some(TokenKind::Ip(Addr::V6(number))),
        Some(Addr::V4(_)) => None,
        None => None,
    }
}

/// What a token of this sort says. It says nothing where its number or its address isn't complete
/// or is too large.
pub fn kind_of(sort: Lexeme, slice: &[u8]) -> Option<TokenKind>
    requires { (rest : List ℕ) × IsShape sort slice.now rest }
    ensures { MatchOption result ((kind : TokenKind) → IsValue sort slice.now kind → ⊥)
        (λ kind. IsValue sort slice.now kind) }
{
    match sort {
        Lexeme::Word => Some(TokenKind::Name),
        Lexeme::QuotedName => Some(TokenKind::QuotedName),
        Lexeme::Decimal => decimal(slice),
        Lexeme::Hexadecimal => hexadecimal(slice),
        Lexeme::Ipv4 => dotted(slice),
        Lexeme::Ipv6 => colons(slice),
        Lexeme::Text => Some(TokenKind::Text),
        Lexeme::Punctuation => Some(TokenKind::Punctuation),
    }
}
