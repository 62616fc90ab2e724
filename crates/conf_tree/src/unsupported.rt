// Words that are known and not supported where they stand.

ghost use Rattle.std.specs.Prelude.{◌≡◌, ◌↔◌, IfOk, OnOk, IsTrue, map, codes, false};
ghost use Rattle.conf_lex.specs.Symbols.{is_placed};
ghost use Rattle.conf_lex.specs.Sentences.{IsBegunWithin};
ghost use Rattle.expr_syntax.specs.Syntax.{rule};
ghost use Rattle.conf_syntax.specs.Syntax.{config};
ghost use Rattle.conf_tree.specs.Sentence.{CanStand, EndsIn, is_one_of, statement_words, bgp_words};
ghost use Rattle.conf_tree.specs.Sentence.{channel_words, import_words, IsUnsupported};

use crate::followed::Configurations;
use bits_ip::OutOfMemory;
use conf_lex::parsing::is_symbol;
use conf_lex::{Symbol, Word};
use filt_syntax::parts::can_follow;
use std::alloc::Global;

fn is_one_of(words: &[&[u8]], word: &[u8]) -> bool
    ensures { result ≡ is_one_of (map (λ other. other.now) words.now) word.now }
{
    for other in words {
        if *other == word {
            return true;
        }
    }
    false
}

fn is_statement_word(word: &[u8]) -> bool
    ensures { result ≡ is_one_of statement_words word.now }
{
    let words: [&[u8]; 9] = [
        b"template",
        b"include",
        b"roa4",
        b"roa6",
        b"vpn4",
        b"vpn6",
        b"mpls",
        b"flow4",
        b"flow6",
    ];
    is_one_of(&words, word)
}

fn is_bgp_word(word: &[u8]) -> bool
    ensures { result ≡ is_one_of bgp_words word.now }
{
    let words: [&[u8]; 6] = [
        b"deterministic",
        b"rr",
        b"confederation",
        b"path",
        b"allow",
        b"add",
    ];
    is_one_of(&words, word)
}

fn is_channel_word(word: &[u8]) -> bool
    ensures { result ≡ is_one_of channel_words word.now }
{
    let words: [&[u8]; 3] = [b"receive", b"keep", b"add"];
    is_one_of(&words, word)
}

fn is_import_word(word: &[u8]) -> bool
    ensures { result ≡ is_one_of import_words word.now }
{
    let words: [&[u8]; 2] = [b"table", b"keep"];
    is_one_of(&words, word)
}

// Whether a word that is one of those which this symbol stands for has it in its place.
fn stands_for(
    alloc: Global,
    known: bool,
    before: &mut Vec<Word>,
    symbol: Symbol,
) -> Result<bool, OutOfMemory>
    requires { IsBegunWithin rule 64 config before.old.items }
    ensures found { IfOk result (λ found. IsTrue found
        ↔ (IsTrue known × CanStand symbol before.old.items)) }
    ensures same { before.new.items ≡ before.old.items }
{
    if known {
        can_follow::<Configurations>(alloc, before, Word::Symbol(symbol))
    } else {
        Ok(false)
    }
}

fn ends_in(words: &[Word], symbol: Symbol) -> bool
    requires { is_placed symbol ≡ false }
    ensures { IsTrue result ↔ EndsIn symbol words.now (λ front. Unit {0}) }
{
    match words.split_last() {
        Some((last, _front)) => is_symbol(last, symbol),
        None => false,
    }
}

// Whether the word is `limit` behind the `export` of a channel.
fn is_export_limit(alloc: Global, before: &mut Vec<Word>, word: &[u8]) -> Result<bool, OutOfMemory>
    requires { IsBegunWithin rule 64 config before.old.items }
    ensures found { IfOk result (λ found. IsTrue found
        ↔ ((word.now ≡ codes "limit")
        × EndsIn Symbol.Export before.old.items (CanStand Symbol.Next))) }
    ensures same { OnOk result (before.new.items ≡ before.old.items) }
{
    match before.pop() {
        Some(last) => {
            let limit = is_symbol(&last, Symbol::Export) & (word == b"limit".as_slice());
            let found = stands_for(alloc, limit, before, Symbol::Next)?;
            before.push(last)?;
            Ok(found)
        }
        None => Ok(false),
    }
}

// Whether the word is one of those that are known in the place of others.
fn is_unsupported_option(
    alloc: Global,
    before: &mut Vec<Word>,
    word: &[u8],
) -> Result<bool, OutOfMemory>
    requires begun { IsBegunWithin rule 64 config before.old.items }
    requires no_kind { EndsIn Symbol.Protocol before.old.items (λ front. Unit {0}) → ⊥ }
    ensures found { IfOk result (λ found. IsTrue found
        ↔ IsUnsupported before.old.items word.now) }
    ensures same { OnOk result (before.new.items ≡ before.old.items) }
{
    let statement = stands_for(alloc, is_statement_word(word), before, Symbol::Define)?;
    let bgp_option = stands_for(alloc, is_bgp_word(word), before, Symbol::Neighbor)?;
    let channel_option = stands_for(alloc, is_channel_word(word), before, Symbol::Next)?;
    let import = stands_for(alloc, is_import_word(word), before, Symbol::Limit)?;
    let export = is_export_limit(alloc, before, word)?;
    let action = stands_for(alloc, word == b"restart".as_slice(), before, Symbol::Warn)?;
    let route = stands_for(
        alloc,
        word == b"recursive".as_slice(),
        before,
        Symbol::Blackhole,
    )?;
    Ok(statement | bgp_option | channel_option | import | export | action | route)
}

/// Whether a word that can't stand behind these words is known there and not supported (BIRD User's
/// Guide, "Protocols"). The words are the same again behind it, unless memory ran out.
pub fn is_unsupported(
    alloc: Global,
    before: &mut Vec<Word>,
    word: &[u8],
) -> Result<bool, OutOfMemory>
    requires { IsBegunWithin rule 64 config before.old.items }
    ensures found { IfOk result (λ found. IsTrue found
        ↔ IsUnsupported before.old.items word.now) }
    ensures same { OnOk result (before.new.items ≡ before.old.items) }
{
    if ends_in(before, Symbol::Protocol) {
        return Ok(true);
    }
    is_unsupported_option(alloc, before, word)
}
