ghost use Rattle.std.specs.Prelude.{◌≡◌, ◌≤◌, ◌<◌, ◌+◌, ◌^◌, ℕ, List, [], false, not, nat_lt};
ghost use Rattle.std.specs.Prelude.{length, drop, max, IfOk, IfErr, MatchOption, MatchResult};
ghost use Rattle.conf_scan.specs.Fronts.{begins_colons, front, Tells};
ghost use Rattle.conf_scan.specs.Lex.{Lexes, Stops, HasNoToken, IsBadAt, IsLexFault};
ghost use Rattle.conf_scan.specs.Spots.{IsSpot, IsStep, IsStuckFrom, LexesFrom};
ghost use Rattle.conf_scan.specs.declared.token.Token.{Token};
ghost use Rattle.conf_scan.specs.declared.token.LexFault.TheVariants.{Memory};

use crate::number::number_token;
use crate::scan::{Lexeme, begins_colons, colons_len, colons_run, plain_front, tail};
use crate::token::{LexFault, Token, TokenKind};
use crate::trivia::gap_len;
use crate::values::kind_of;
use std::alloc::Global;

/// The place reached in a text. Before `plain` no IPv6 address begins: each run of its bytes is
/// looked at once.
#[derive(Clone, Copy, Debug, PartialEq, Eq)]
pub struct Spot {
    pub at: usize,
    pub plain: usize,
}

/// From how many places from here on no IPv6 address begins; from none where one begins here.
fn plain_len(text: &[u8]) -> usize
    requires { 0 < length text.now }
    ensures plain { (k : ℕ) → k < result → begins_colons (drop k text.now) ≡ false }
    ensures starts { begins_colons text.now ≡ not (nat_lt 0 result) }
    ensures within { result ≤ length text.now }
{
    let run = colons_run(text);
    if begins_colons(text, run) {
        0
    } else {
        run.len.max(1)
    }
}

/// Up to which place of the source no IPv6 address begins. Where `at` is before `plain` that is
/// known.
fn plain_until(text: &[u8], at: usize, plain: usize) -> usize
    requires some { 0 < length text.now }
    requires fits { at + length text.now < 2 ^ 64 }
    requires plain { (k : ℕ) → at + k < plain → begins_colons (drop k text.now) ≡ false }
    ensures plain { (k : ℕ) → at + k < result → begins_colons (drop k text.now) ≡ false }
    ensures starts { begins_colons text.now ≡ not (nat_lt at result) }
{
    if at < plain {
        plain
    } else {
        at + plain_len(text)
    }
}

/// The longest token at the front and its sort. `plain` tells that no IPv6 address begins there.
fn front(text: &[u8], plain: bool) -> Option<(Lexeme, usize)>
    requires { begins_colons text.now ≡ not plain }
    ensures { result ≡ front text.now }
{
    if plain {
        plain_front(text)
    } else {
        Some((Lexeme::Ipv6, colons_len(text)))
    }
}

fn token_at(text: &[u8], plain: bool) -> Option<(TokenKind, usize)>
    requires { begins_colons text.now ≡ not plain }
    ensures { MatchOption result (HasNoToken text.now) (λ found. Tells text.now found.0 found.1) }
{
    if plain {
        if let Some(found) = number_token(text) {
            return Some(found);
        }
    }
    let (sort, len) = front(text, plain)?;
    let kind = kind_of(sort, &text[..len])?;
    Some((kind, len))
}

/// The token that begins next and the place behind it; nothing where the text has no more. `Bad`
/// is as in `lex`.
pub fn next_token(text: &[u8], spot: Spot) -> Result<Option<(Token, Spot)>, LexFault>
    requires { IsSpot text.now spot }
    ensures token { IfOk result (λ found. MatchOption found (LexesFrom text.now spot [])
        (λ next. IsStep text.now spot next.0 next.1)) }
    ensures bad { IfErr result (λ fault. IsStuckFrom text.now spot fault) }
{
    let at = spot.at + gap_len(tail(text, spot.at));
    let rest = tail(text, at);
    if rest.is_empty() {
        return Ok(None);
    }
    let plain = plain_until(rest, at, spot.plain);
    let Some((kind, len)) = token_at(rest, at < plain) else {
        return Err(LexFault::Bad { at });
    };
    let behind = Spot {
        at: at + len,
        plain,
    };
    Ok(Some((Token { kind, at, len }, behind)))
}

/// The tokens of a text (BIRD User's Guide, "Configuration"). `Bad` stands at the first byte that
/// belongs to no separator and begins no token, or begins one that isn't complete or is too large:
/// a quote, a text or a comment without its end, `0x` alone, a number over 4294967295, dots or
/// colons that make no address.
pub fn lex(alloc: Global, text: &[u8]) -> Result<Vec<Token>, LexFault>
    ensures tokens { IfOk result (λ found. Lexes 0 text.now found.items) }
    ensures bad { IfErr result (λ fault. IsLexFault text.now fault) }
    ensures only { (tokens : List Token) → Lexes 0 text.now tokens
        → MatchResult result (λ found. found.items ≡ tokens) (λ fault. fault ≡ Memory) }
    ensures exact { (tokens : List Token) (place : ℕ) → Stops 0 text.now tokens place
        → MatchResult result (λ found. ⊥) (λ fault. IsBadAt fault place) }
{
    let mut found = Vec::new(alloc);
    let mut spot = Spot { at: 0, plain: 0 };
    while let Some((token, behind)) = next_token(text, spot)? {
        found.push(token)?;
        spot = behind;
    }
    Ok(found)
}
