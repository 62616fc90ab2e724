// Words made as a text is walked.

ghost use Rattle.std.specs.Prelude.{◌≡◌, ◌<◌, ◌^◌, false, length, List, [], None, IfOk, IfErr};
ghost use Rattle.std.specs.Prelude.{MatchOption};
ghost use Rattle.conf_lex.specs.Words.{token_symbol, word_of};
ghost use Rattle.conf_scan.specs.Spans.{IsWithin};
ghost use Rattle.conf_lex.specs.Walks.{IsWordStep};
ghost use Rattle.conf_scan.specs.Spots.{IsSpot, IsStep, IsStuckFrom, LexesFrom};
ghost use Rattle.conf_lex.specs.Inside.{begins_colon, number_of, first_number, first_length};
ghost use Rattle.conf_lex.specs.Inside.{IsColonStep, IsNumberStep, IsLengthStep};
ghost use Rattle.conf_scan.specs.declared.lexer.Spot.{Spot};
ghost use Rattle.conf_lex.specs.declared.symbol.Symbol.TheVariants as symbols;
ghost use Rattle.conf_scan.specs.declared.token.Token.{Token};
ghost use Rattle.conf_lex.specs.declared.word.Word.TheVariants as words;

use crate::symbol::Symbol;
use crate::token_words::{is_colon, is_slash, prefix_word, token_symbol, word_of};
use crate::word::Word;
use conf_ast::PackedAddr;
use conf_scan::{LexFault, Spot, Token, TokenKind, next_token};

// The next token, where there is one.
fn token_ahead(text: &[u8], spot: Spot) -> Option<(Token, Spot)>
    requires { IsSpot text.now spot }
    ensures { MatchOption result ((ts : List Token) → LexesFrom text.now spot ts → ts ≡ [])
        (λ found. IsStep text.now spot found.0 found.1) }
{
    match next_token(text, spot) {
        Ok(found) => found,
        Err(_) => None,
    }
}

// The place behind the colon that stands next.
fn colon_ahead(text: &[u8], spot: Spot) -> Option<Spot>
    requires { IsSpot text.now spot }
    ensures { MatchOption result
        ((ts : List Token) → LexesFrom text.now spot ts → begins_colon text.now ts ≡ false)
        (λ end. IsColonStep text.now spot end) }
{
    match token_ahead(text, spot) {
        Some((token, end)) => is_colon(token_symbol(text, token)).then_some(end),
        None => None,
    }
}

fn number_of(kind: TokenKind) -> Option<u32>
    ensures { result ≡ number_of kind }
{
    match kind {
        TokenKind::Number(value) => Some(value),
        _ => None,
    }
}

// The number that stands next, and the place behind it.
fn number_ahead(text: &[u8], spot: Spot) -> Option<(u32, Spot)>
    requires { IsSpot text.now spot }
    ensures { MatchOption result
        ((ts : List Token) → LexesFrom text.now spot ts → first_number ts ≡ None)
        (λ found. IsNumberStep text.now spot found.0 found.1) }
{
    match token_ahead(text, spot) {
        Some((token, end)) => match number_of(token.kind) {
            Some(value) => Some((value, end)),
            None => None,
        },
        None => None,
    }
}

// The number behind the slash that stands next, and the place behind it.
fn length_ahead(text: &[u8], spot: Spot) -> Option<(u32, Spot)>
    requires { IsSpot text.now spot }
    ensures { MatchOption result
        ((ts : List Token) → LexesFrom text.now spot ts → first_length text.now ts ≡ None)
        (λ found. IsLengthStep text.now spot found.0 found.1) }
{
    match token_ahead(text, spot) {
        Some((token, middle)) => {
            if is_slash(token_symbol(text, token)) {
                number_ahead(text, middle)
            } else {
                None
            }
        }
        None => None,
    }
}

// The word that an address begins, and the place behind it.
fn address_word(text: &[u8], at: u32, addr: PackedAddr, behind: Spot) -> (Word, Spot)
    requires { IsSpot text.now behind }
    ensures { (from : Spot) (t : Token) → IsStep text.now from t behind
        → word_of text.now t ≡ words.Ip at addr → IsWordStep text.now from result.0 result.1 }
{
    match length_ahead(text, behind) {
        Some((len, end)) => (prefix_word(at, addr.addr(), len), end),
        None => (Word::Ip { at, addr }, behind),
    }
}

// The word that `else` begins, and the place behind it.
fn else_word(text: &[u8], behind: Spot) -> (Word, Spot)
    requires { IsSpot text.now behind }
    ensures { (from : Spot) (t : Token) → IsStep text.now from t behind
        → word_of text.now t ≡ words.Symbol symbols.Else
        → IsWordStep text.now from result.0 result.1 }
{
    match colon_ahead(text, behind) {
        Some(end) => (Word::Symbol(Symbol::ElseColon), end),
        None => (Word::Symbol(Symbol::Else), behind),
    }
}

// The word that a symbol begins, and the place behind it.
fn sign_word(text: &[u8], symbol: Symbol, behind: Spot) -> (Word, Spot)
    requires { IsSpot text.now behind }
    ensures { (from : Spot) (t : Token) → IsStep text.now from t behind
        → word_of text.now t ≡ words.Symbol symbol → IsWordStep text.now from result.0 result.1 }
{
    match symbol {
        Symbol::Else => else_word(text, behind),
        _ => (Word::Symbol(symbol), behind),
    }
}

// The word that a token begins, and the place behind it. Only an address and `else` can be a part
// of a longer word.
fn word_behind(text: &[u8], token: Token, behind: Spot) -> (Word, Spot)
    requires short { length text.now < 2 ^ 32 }
    requires within { IsWithin text.now token }
    requires spot { IsSpot text.now behind }
    ensures { (from : Spot) → IsStep text.now from token behind
        → IsWordStep text.now from result.0 result.1 }
{
    let alone = word_of(text, token);
    match alone {
        Word::Ip { at, addr } => address_word(text, at, addr, behind),
        Word::Symbol(symbol) => sign_word(text, symbol, behind),
        _ => (alone, behind),
    }
}

/// The word that begins with the next token and the place behind it, as `words` gives the words of
/// all tokens; nothing where the text has no more.
pub fn next_word(text: &[u8], spot: Spot) -> Result<Option<(Word, Spot)>, LexFault>
    requires short { length text.now < 2 ^ 32 }
    requires spot { IsSpot text.now spot }
    ensures word { IfOk result (λ found. MatchOption found (LexesFrom text.now spot [])
        (λ next. IsWordStep text.now spot next.0 next.1)) }
    ensures bad { IfErr result (λ fault. IsStuckFrom text.now spot fault) }
{
    match next_token(text, spot)? {
        Some((token, behind)) => Ok(Some(word_behind(text, token, behind))),
        None => Ok(None),
    }
}
