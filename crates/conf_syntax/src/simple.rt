// Readers of a word or two. Each answers what the words give and the words after them.

ghost use Rattle.std.specs.Prelude.{◌≡◌, false};
ghost use Rattle.conf_lex.specs.declared.word.Word.{Word};
ghost use Rattle.conf_lex.specs.Kind.{address, text};
ghost use Rattle.conf_lex.specs.Reading.{Parsed, word};
ghost use Rattle.conf_lex.specs.Leaves.{name_leaf};
ghost use Rattle.conf_lex.specs.Agrees.{Agrees};
ghost use Rattle.expr_syntax.specs.Finds.{Finds};
ghost use Rattle.expr_syntax.specs.ItemView.{num_tree};
ghost use Rattle.conf_syntax.specs.Syntax.{is_switch, is_family};
ghost use Rattle.conf_syntax.specs.View.{address_leaf, text_leaf, switch_leaf, switch_symbol};
ghost use Rattle.conf_syntax.specs.View.{family_symbol, as_tree, time_tree, semicolon_tree, maybe};
ghost use Rattle.conf_syntax.specs.Readers.{optional_name_at, optional_address_at};
ghost use Rattle.conf_syntax.specs.Readers.{optional_switch_at, optional_number_at, as_at, time_at};
ghost use Rattle.conf_syntax.specs.Readers.{optional_semicolon_at};

use bits_ip::Family;
use conf_ast::Name;
use conf_ast::configurations::{Address, StringLiteral, Switch};
use conf_ast::filters::Num;
use conf_lex::parsing::{after, after_placed, expect, next_name};
use conf_lex::{Refusal, Symbol, Word};
use expr_syntax::parts::{next_num, num};

pub fn next_address(words: &[Word]) -> Option<(Address, &[Word])>
    ensures { Finds address (λ a. Word.Ip a.at a.addr) result words.now }
{
    match words {
        [Word::Ip { at, addr }, rest @ ..] => {
            let address = Address {
                at: *at as usize,
                addr: addr.addr(),
            };
            Some((address, rest))
        }
        _ => None,
    }
}

pub fn expect_address(words: &[Word]) -> Result<(Address, &[Word]), Refusal>
    ensures { Agrees address_leaf result (word address words.now) }
{
    next_address(words).ok_or(Refusal::Bad(words))
}

pub fn expect_text(words: &[Word]) -> Result<(StringLiteral, &[Word]), Refusal>
    ensures { Agrees text_leaf result (word text words.now) }
{
    match words {
        [Word::Text { at, start, len }, rest @ ..] => {
            let quoted = StringLiteral {
                at: *at as usize,
                start: *start as usize,
                len: *len as usize,
            };
            Ok((quoted, rest))
        }
        _ => Err(Refusal::Bad(words)),
    }
}

pub fn next_switch(words: &[Word]) -> Option<(Switch, &[Word])>
    ensures { Finds is_switch (λ s. Word.Symbol (switch_symbol s)) result words.now }
{
    match words {
        [Word::Symbol(Symbol::On), rest @ ..] => Some((Switch::On, rest)),
        [Word::Symbol(Symbol::Yes), rest @ ..] => Some((Switch::Yes, rest)),
        [Word::Symbol(Symbol::Off), rest @ ..] => Some((Switch::Off, rest)),
        [Word::Symbol(Symbol::No), rest @ ..] => Some((Switch::No, rest)),
        _ => None,
    }
}

pub fn expect_switch(words: &[Word]) -> Result<(Switch, &[Word]), Refusal>
    ensures { Agrees switch_leaf result (word is_switch words.now) }
{
    next_switch(words).ok_or(Refusal::Bad(words))
}

/// A family's word: its place and the family.
pub fn next_family(words: &[Word]) -> Option<((usize, Family), &[Word])>
    ensures { Finds is_family (λ f. Word.Placed f.0 (family_symbol f.1)) result words.now }
{
    if let Some((at, rest)) = after_placed(words, Symbol::Ipv4) {
        return Some(((at, Family::V4), rest));
    }
    match after_placed(words, Symbol::Ipv6) {
        Some((at, rest)) => Some(((at, Family::V6), rest)),
        None => None,
    }
}

/// A name, if one comes next.
#[tactic(auto, unfolding(crate::specs::Readers::optional_name_at))]
pub fn optional_name(words: &[Word]) -> (Option<Name>, &[Word])
    ensures { optional_name_at 0 words.now ≡ Parsed (maybe name_leaf result.0) result.1.now }
{
    match next_name(words) {
        Some((name, rest)) => (Some(name), rest),
        None => (None, words),
    }
}

/// An address, if one comes next.
#[tactic(auto, unfolding(crate::specs::Readers::optional_address_at))]
pub fn optional_address(words: &[Word]) -> (Option<Address>, &[Word])
    ensures { optional_address_at 0 words.now ≡ Parsed (maybe address_leaf result.0) result.1.now }
{
    match next_address(words) {
        Some((address, rest)) => (Some(address), rest),
        None => (None, words),
    }
}

/// A switch, if one comes next.
#[tactic(auto, unfolding(crate::specs::Readers::optional_switch_at))]
pub fn optional_switch(words: &[Word]) -> (Option<Switch>, &[Word])
    ensures { optional_switch_at 0 words.now ≡ Parsed (maybe switch_leaf result.0) result.1.now }
{
    match next_switch(words) {
        Some((switch, rest)) => (Some(switch), rest),
        None => (None, words),
    }
}

/// A number, if one comes next.
#[tactic(auto, unfolding(crate::specs::Readers::optional_number_at))]
pub fn optional_number(words: &[Word]) -> (Option<Num>, &[Word])
    ensures { optional_number_at 0 words.now ≡ Parsed (maybe num_tree result.0) result.1.now }
{
    match next_num(words) {
        Some((number, rest)) => (Some(number), rest),
        None => (None, words),
    }
}

/// Whether a semicolon comes next.
#[tactic(auto, unfolding(crate::specs::Readers::optional_semicolon_at))]
pub fn optional_semicolon(words: &[Word]) -> (bool, &[Word])
    ensures { optional_semicolon_at 0 words.now ≡ Parsed (semicolon_tree result.0) result.1.now }
{
    match after(words, Symbol::Semicolon) {
        Some(rest) => (true, rest),
        None => (false, words),
    }
}

/// `as` and a number.
#[tactic(auto, unfolding(crate::specs::Readers::as_at))]
pub fn as_number(words: &[Word]) -> Result<(Num, &[Word]), Refusal>
    ensures { Agrees as_tree result (as_at 0 words.now) }
{
    let rest = expect(words, Symbol::As)?;
    num(rest)
}

/// `time` and a number.
#[tactic(auto, unfolding(crate::specs::Readers::time_at))]
pub fn time_number(words: &[Word]) -> Result<(Num, &[Word]), Refusal>
    ensures { Agrees time_tree result (time_at 0 words.now) }
{
    let rest = expect(words, Symbol::Time)?;
    num(rest)
}
