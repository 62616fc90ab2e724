// The tokens of a text from a spot on.

ghost use Rattle.std.specs.Prelude.{◌≡◌, ◌≤◌, List, [], None, Some, length, MatchOption};
ghost use Rattle.conf_scan.specs.Spots.{IsSpot, IsStep, LexesFrom};
ghost use Rattle.conf_scan.specs.declared.token.Token.{Token};
ghost use Rattle.conf_words.specs.Bytes.{byte_of, first_bytes};

use conf_scan::{Spot, Token, TokenKind, next_token};

// The token that stands next, and the place behind it.
fn token_ahead(text: &[u8], spot: Spot) -> Option<(Token, Spot)>
    requires { IsSpot text.now spot }
    ensures { MatchOption result
        ((tokens : List Token) → LexesFrom text.now spot tokens → tokens ≡ [])
        (λ found. IsStep text.now spot found.0 found.1) }
{
    match next_token(text, spot) {
        Ok(found) => found,
        Err(_) => None,
    }
}

/// Where the token begins that is so many behind the one that stands next; behind the last one the
/// end of the text.
pub fn byte_past(text: &[u8], spot: Spot, past: usize) -> usize
    requires { IsSpot text.now spot }
    ensures is { (tokens : List Token) → LexesFrom text.now spot tokens
        → result ≡ byte_of text.now tokens past }
    ensures within { result ≤ length text.now }
{
    let mut left = past;
    let mut here = spot;
    while let Some((token, behind)) = token_ahead(text, here) {
        if left == 0 {
            return token.at;
        }
        left -= 1;
        here = behind;
    }
    text.len()
}

/// The bytes of the token that stands next, where it is a word without quotes.
pub fn bytes_ahead<'a>(text: &'a [u8], spot: Spot) -> Option<&'a [u8]>
    requires { IsSpot text.now spot }
    ensures { (tokens : List Token) → LexesFrom text.now spot tokens
        → MatchOption result (first_bytes text.now tokens ≡ None)
        (λ word. first_bytes text.now tokens ≡ Some word.now) }
{
    match token_ahead(text, spot) {
        Some((token, _)) => match token.kind {
            TokenKind::Name => Some(token.bytes(text)),
            _ => None,
        },
        None => None,
    }
}
