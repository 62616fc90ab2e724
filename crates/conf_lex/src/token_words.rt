ghost use Rattle.std.specs.Prelude.{◌≡◌, ◌≤◌, ◌<◌, ◌+◌, ◌^◌, [], ◌∷◌, length, map, drop};
ghost use Rattle.std.specs.Prelude.{IfOk, IfSome, MatchOption};
ghost use Rattle.conf_scan.specs.Lex.{Lexes};
ghost use Rattle.conf_lex.specs.Symbols.{symbol_of, is_else, is_colon, is_slash};
ghost use Rattle.conf_lex.specs.Attributes.{attribute_of, constant_of};
ghost use Rattle.conf_lex.specs.Words.{token_symbol, word_of, symbol_word, spelled_word};
ghost use Rattle.conf_scan.specs.Spans.{slice_of};
ghost use Rattle.conf_lex.specs.Words.{named_word, constant_or_name};
ghost use Rattle.conf_lex.specs.Words.{prefix_word, slashed, first_word, words_from};
ghost use Rattle.conf_scan.specs.Spans.{IsWithin, AreWithin};

use crate::attribute::{attribute_of, constant_of};
use crate::keywords::{is_placed, symbol_of};
use crate::symbol::Symbol;
use crate::word::{Word, Words};
use bits_ip::{Addr, OutOfMemory, Prefix};
use conf_ast::PackedAddr;
use conf_scan::{Token, TokenKind};
use std::alloc::Global;

fn symbol_word(at: u32, symbol: Symbol) -> Word
    ensures { result ≡ symbol_word at symbol }
{
    if is_placed(symbol) {
        Word::Placed { at, symbol }
    } else {
        Word::Symbol(symbol)
    }
}

pub fn prefix_word(at: u32, addr: Addr, len: u32) -> Word
    ensures { result ≡ prefix_word at addr len }
{
    let Ok(len) = u8::try_from(len) else {
        return Word::BadPrefix { at };
    };
    match Prefix::make(addr, len) {
        Ok(net) => Word::Prefix { at, net },
        Err(_) => Word::BadPrefix { at },
    }
}

/// The symbol that a word or a sign is.
pub fn token_symbol(text: &[u8], token: Token) -> Option<Symbol>
    requires { IsWithin text.now token }
    ensures { result ≡ token_symbol text.now token }
{
    match token.kind {
        TokenKind::Name => symbol_of(token.bytes(text)),
        TokenKind::Punctuation => symbol_of(token.bytes(text)),
        _ => None,
    }
}

fn constant_or_name(token: Token, bytes: &[u8]) -> Word
    requires { token.at + token.len < 2 ^ 32 }
    ensures { result ≡ constant_or_name token (constant_of bytes.now) }
{
    let at = token.at as u32;
    match constant_of(bytes) {
        Some(constant) => Word::Constant { at, constant },
        None => Word::Name {
            at,
            start: at,
            len: token.len as u32,
        },
    }
}

fn named_word(token: Token, bytes: &[u8]) -> Word
    requires { token.at + token.len < 2 ^ 32 }
    ensures { result ≡ named_word token bytes.now (attribute_of bytes.now) }
{
    match attribute_of(bytes) {
        Some(attribute) => Word::Attribute {
            at: token.at as u32,
            attribute,
        },
        None => constant_or_name(token, bytes),
    }
}

fn spelled_word(text: &[u8], token: Token) -> Word
    requires within { IsWithin text.now token }
    requires short { length text.now < 2 ^ 32 }
    ensures { result ≡ spelled_word token (slice_of text.now token)
        (symbol_of (slice_of text.now token)) }
{
    let bytes = token.bytes(text);
    match symbol_of(bytes) {
        Some(symbol) => symbol_word(token.at as u32, symbol),
        None => named_word(token, bytes),
    }
}

/// The word that a token is alone.
pub fn word_of(text: &[u8], token: Token) -> Word
    requires within { IsWithin text.now token }
    requires short { length text.now < 2 ^ 32 }
    ensures { result ≡ word_of text.now token }
{
    let at = token.at as u32;
    match token.kind {
        TokenKind::QuotedName => Word::Name {
            at,
            start: at + 1,
            len: (token.len - 2) as u32,
        },
        TokenKind::Text => Word::Text {
            at,
            start: at + 1,
            len: (token.len - 2) as u32,
        },
        TokenKind::Number(value) => Word::Number { at, value },
        TokenKind::Ip(addr) => Word::Ip {
            at,
            addr: PackedAddr::of(addr),
        },
        TokenKind::Name => spelled_word(text, token),
        TokenKind::Punctuation => spelled_word(text, token),
    }
}

fn is_else(symbol: Option<Symbol>) -> bool
    ensures { result ≡ is_else symbol }
{
    matches!(symbol, Some(Symbol::Else))
}

pub fn is_colon(symbol: Option<Symbol>) -> bool
    ensures { result ≡ is_colon symbol }
{
    matches!(symbol, Some(Symbol::Colon))
}

pub fn is_slash(symbol: Option<Symbol>) -> bool
    ensures { result ≡ is_slash symbol }
{
    matches!(symbol, Some(Symbol::Slash))
}

/// The word of an address, a slash and a number.
fn slashed(at: u32, first: TokenKind, slash: bool, third: TokenKind) -> Option<Word>
    ensures { result ≡ slashed at first slash third }
{
    if !slash {
        return None;
    }
    match (first, third) {
        (TokenKind::Ip(addr), TokenKind::Number(len)) => Some(prefix_word(at, addr, len)),
        _ => None,
    }
}

/// The word that begins with a token, by what follows it, and of how many tokens it is made.
fn first_word(text: &[u8], token: Token, behind: &[Token]) -> (Word, usize)
    requires short { length text.now < 2 ^ 32 }
    requires first { IsWithin text.now token }
    requires behind { AreWithin text.now behind.now }
    ensures { result ≡ first_word text.now token behind.now }
{
    let Some((second, rest)) = behind.split_first() else {
        return (word_of(text, token), 1);
    };
    let sign = token_symbol(text, *second);
    if is_else(token_symbol(text, token)) && is_colon(sign) {
        return (Word::Symbol(Symbol::ElseColon), 2);
    }
    let Some(third) = rest.first() else {
        return (word_of(text, token), 1);
    };
    match slashed(token.at as u32, token.kind, is_slash(sign), third.kind) {
        Some(word) => (word, 3),
        None => (word_of(text, token), 1),
    }
}

fn tokens_from(tokens: &[Token], at: usize) -> &[Token]
    requires { at ≤ length tokens.now }
    ensures { result.now ≡ drop at tokens.now }
{
    &tokens[at..]
}

/// The word that begins with this token, and the place of the token behind the word; nothing behind
/// the last token.
pub fn word_at(text: &[u8], tokens: &[Token], at: usize) -> Option<(Word, usize)>
    requires short { length text.now < 2 ^ 32 }
    requires lexed { Lexes 0 text.now tokens.now }
    requires within { at ≤ length tokens.now }
    ensures word { MatchOption result (words_from text.now at 0 (drop at tokens.now) ≡ [])
        (λ found. words_from text.now at 0 (drop at tokens.now)
        ≡ (at, found.0) ∷ words_from text.now found.1 0 (drop found.1 tokens.now)) }
    ensures rises { IfSome result (λ found. (at < found.1) × (found.1 ≤ length tokens.now)) }
{
    match tokens_from(tokens, at).split_first() {
        Some((token, behind)) => {
            let (word, taken) = first_word(text, *token, behind);
            Some((word, at + taken))
        }
        None => None,
    }
}

/// The words of a text whose tokens `lex` gave, from the token of this number on: a word for each
/// token, but one word for an address, a slash and a number, and one for `else` with a colon next
/// after it.
pub fn words_from(
    alloc: Global,
    text: &[u8],
    tokens: &[Token],
    from: usize,
) -> Result<Words, OutOfMemory>
    requires short { length text.now < 2 ^ 32 }
    requires lexed { Lexes 0 text.now tokens.now }
    requires within { from ≤ length tokens.now }
    ensures words { IfOk result (λ found. found.words.items
        ≡ map (λ word. word.1) (words_from text.now from 0 (drop from tokens.now))) }
    ensures starts { IfOk result (λ found. found.starts.items
        ≡ map (λ word. word.0) (words_from text.now from 0 (drop from tokens.now))) }
{
    let mut words = Vec::new(alloc);
    let mut starts = Vec::new(alloc);
    let mut at = from;
    while let Some((word, next)) = word_at(text, tokens, at) {
        words.push(word)?;
        starts.push(at)?;
        at = next;
    }
    Ok(Words { words, starts })
}
