// The options of a BGP session's transport.

ghost use Rattle.std.specs.Prelude.{◌≡◌, false};
ghost use Rattle.conf_ast.specs.declared.attribute.Attribute.TheVariants as attributes;
ghost use Rattle.conf_lex.specs.declared.symbol.Symbol.TheVariants as sym;
ghost use Rattle.conf_lex.specs.Kind.{attribute, symbol, text, address};
ghost use Rattle.conf_lex.specs.Grammar.{Pair, begins};
ghost use Rattle.conf_lex.specs.Reading.{both, word};
ghost use Rattle.conf_lex.specs.Leaves.{symbol_leaf};
ghost use Rattle.conf_lex.specs.Agrees.{Agrees};
ghost use Rattle.expr_syntax.specs.Rows.{nth, beyond};
ghost use Rattle.conf_syntax.specs.View.{attribute_leaf, transport_tree};
ghost use Rattle.conf_syntax.specs.Readers.{seen_as, time_at, optional_switch_at, transport_at};

use crate::simple::{expect_address, expect_text, optional_number, optional_switch, time_number};
use conf_ast::Attribute;
use conf_ast::configurations::Transport;
use conf_lex::parsing::{after, after_attribute, expect};
use conf_lex::{Refusal, Symbol, Word};

// By the words after `connect`.
fn connect_retry_time(words: &[Word]) -> Result<(Transport, &[Word]), Refusal>
    ensures { Agrees transport_tree result
        (seen_as (both (word (symbol sym.Retry)) (time_at 0))
        (λ t. nth 3 (Pair (symbol_leaf sym.Connect) t)) words.now) }
{
    let rest = expect(words, Symbol::Retry)?;
    let (time, rest) = time_number(rest)?;
    Ok((Transport::ConnectRetryTime(time), rest))
}

fn passive(words: &[Word]) -> Result<(Transport, &[Word]), Refusal>
    ensures { Agrees transport_tree result
        (seen_as (both (word (symbol sym.Passive)) (optional_switch_at 0))
        (λ t. beyond 6 t) words.now) }
{
    let rest = expect(words, Symbol::Passive)?;
    let (switch, rest) = optional_switch(rest);
    Ok((Transport::Passive(switch), rest))
}

// Where no option comes next that `transport` tests for.
fn connection(words: &[Word]) -> Result<(Transport, &[Word]), Refusal>
    requires description { begins (symbol sym.Description) words.now ≡ false }
    requires password { begins (symbol sym.Password) words.now ≡ false }
    requires source { begins (attribute attributes.Source) words.now ≡ false }
    requires hold { begins (symbol sym.Hold) words.now ≡ false }
    requires keepalive { begins (symbol sym.Keepalive) words.now ≡ false }
    ensures { Agrees transport_tree result (transport_at 0 words.now) }
{
    if let Some(rest) = after(words, Symbol::Connect) {
        return connect_retry_time(rest);
    }
    if let Some(rest) = after(words, Symbol::Multihop) {
        let (hops, rest) = optional_number(rest);
        return Ok((Transport::Multihop(hops), rest));
    }
    match after(words, Symbol::Direct) {
        Some(rest) => Ok((Transport::Direct, rest)),
        None => passive(words),
    }
}

// By the words after `description`.
fn description(words: &[Word]) -> Result<(Transport, &[Word]), Refusal>
    ensures { Agrees transport_tree result
        (seen_as (word text) (λ t. nth 0 (Pair (symbol_leaf sym.Description) t)) words.now) }
{
    let (text, rest) = expect_text(words)?;
    Ok((Transport::Description(text), rest))
}

// By the words after `password`.
fn password(words: &[Word]) -> Result<(Transport, &[Word]), Refusal>
    ensures { Agrees transport_tree result
        (seen_as (word text) (λ t. nth 0 (Pair (symbol_leaf sym.Password) t)) words.now) }
{
    let (text, rest) = expect_text(words)?;
    Ok((Transport::Password(text), rest))
}

// By the words after `source`, whose place is told.
fn source_address(at: usize, words: &[Word]) -> Result<(Transport, &[Word]), Refusal>
    ensures { Agrees transport_tree result
        (seen_as (both (word (symbol sym.Address)) (word address))
        (λ t. nth 1 (Pair (attribute_leaf at attributes.Source) t)) words.now) }
{
    let rest = expect(words, Symbol::Address)?;
    let (address, rest) = expect_address(rest)?;
    Ok((Transport::SourceAddress { at, address }, rest))
}

// By the words after `hold`.
fn hold_time(words: &[Word]) -> Result<(Transport, &[Word]), Refusal>
    ensures { Agrees transport_tree result
        (seen_as (time_at 0) (λ t. nth 2 (Pair (symbol_leaf sym.Hold) t)) words.now) }
{
    let (time, rest) = time_number(words)?;
    Ok((Transport::HoldTime(time), rest))
}

// By the words after `keepalive`.
fn keepalive_time(words: &[Word]) -> Result<(Transport, &[Word]), Refusal>
    ensures { Agrees transport_tree result
        (seen_as (time_at 0) (λ t. nth 2 (Pair (symbol_leaf sym.Keepalive) t)) words.now) }
{
    let (time, rest) = time_number(words)?;
    Ok((Transport::KeepaliveTime(time), rest))
}

/// The option that comes next.
pub fn transport(words: &[Word]) -> Result<(Transport, &[Word]), Refusal>
    ensures { Agrees transport_tree result (transport_at 0 words.now) }
{
    if let Some(rest) = after(words, Symbol::Description) {
        return description(rest);
    }
    if let Some(rest) = after(words, Symbol::Password) {
        return password(rest);
    }
    if let Some((at, rest)) = after_attribute(words, Attribute::Source) {
        return source_address(at, rest);
    }
    if let Some(rest) = after(words, Symbol::Hold) {
        return hold_time(rest);
    }
    match after(words, Symbol::Keepalive) {
        Some(rest) => keepalive_time(rest),
        None => connection(words),
    }
}
