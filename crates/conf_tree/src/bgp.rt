// The options of BGP protocols. `depth_left` is how many more levels may be opened.

ghost use Rattle.std.specs.Prelude.{◌≡◌, ◌∷◌, false};
ghost use Rattle.conf_ast.specs.declared.attribute.Attribute.TheVariants as attributes;
ghost use Rattle.conf_lex.specs.declared.symbol.Symbol.TheVariants as sym;
ghost use Rattle.conf_lex.specs.declared.word.Word.{Word};
ghost use Rattle.conf_lex.specs.Kind.{symbol, address};
ghost use Rattle.conf_lex.specs.Grammar.{Pair, begins};
ghost use Rattle.conf_lex.specs.Reading.{both, word};
ghost use Rattle.conf_lex.specs.Leaves.{symbol_leaf};
ghost use Rattle.conf_lex.specs.Agrees.{Agrees};
ghost use Rattle.expr_syntax.specs.Syntax.{is_num};
ghost use Rattle.expr_syntax.specs.Rows.{nth, beyond};
ghost use Rattle.conf_syntax.specs.Syntax.{is_family, is_switch, bgp_option};
ghost use Rattle.conf_syntax.specs.Options.{bgp_option_is};
ghost use Rattle.conf_tree.specs.View.{bgp_option_tree};
ghost use Rattle.conf_syntax.specs.View.{attribute_leaf, family_symbol};
ghost use Rattle.conf_tree.specs.Readers.{channel_at};
ghost use Rattle.conf_syntax.specs.Readers.{seen_as, optional_address_at, as_at};
ghost use Rattle.conf_tree.specs.Readers.{bgp_option_at};
ghost use Rattle.conf_syntax.specs.Readers.{transport_at};

use crate::channel::channel;
use crate::options::ProtocolOption;
use bits_ip::Family;
use conf_ast::Attribute;
use conf_ast::configurations::BgpOption;
use conf_lex::parsing::{after, after_attribute, expect};
use conf_lex::{Refusal, Symbol, Word};
use conf_syntax::parts::{
    as_number, expect_address, expect_switch, next_family, optional_address, transport,
};
use expr_syntax::parts::num;
use std::alloc::Global;

// By the words after `local`.
fn local(words: &[Word]) -> Result<(BgpOption, &[Word]), Refusal>
    ensures { Agrees bgp_option_tree result
        (seen_as (both (optional_address_at 0) (as_at 0))
        (λ t. nth 1 (Pair (symbol_leaf sym.Local) t)) words.now) }
{
    let (address, rest) = optional_address(words);
    let (number, rest) = as_number(rest)?;
    Ok((BgpOption::Local { address, number }, rest))
}

// By the words after `neighbor`.
fn neighbor(words: &[Word]) -> Result<(BgpOption, &[Word]), Refusal>
    ensures { Agrees bgp_option_tree result
        (seen_as (both (word address) (as_at 0))
        (λ t. nth 2 (Pair (symbol_leaf sym.Neighbor) t)) words.now) }
{
    let (address, rest) = expect_address(words)?;
    let (number, rest) = as_number(rest)?;
    Ok((BgpOption::Neighbor { address, number }, rest))
}

// By the words after `default bgp_med`, of which the second's place is told.
fn default_med(at: usize, words: &[Word]) -> Result<(BgpOption, &[Word]), Refusal>
    ensures { Agrees bgp_option_tree result
        (seen_as (word is_num) (λ t. nth 5 (Pair (symbol_leaf sym.Default)
        (Pair (attribute_leaf at attributes.BgpMed) t))) words.now) }
{
    let (value, rest) = num(words)?;
    Ok((BgpOption::DefaultMed { at, value }, rest))
}

// By the words after `default bgp_local_pref`, of which the second's place is told.
fn default_local_pref(at: usize, words: &[Word]) -> Result<(BgpOption, &[Word]), Refusal>
    ensures { Agrees bgp_option_tree result
        (seen_as (word is_num) (λ t. nth 5 (Pair (symbol_leaf sym.Default)
        (Pair (attribute_leaf at attributes.BgpLocalPref) t))) words.now) }
{
    let (value, rest) = num(words)?;
    Ok((BgpOption::DefaultLocalPref { at, value }, rest))
}

// By the words after `default`.
fn default_value<'a>(
    words: &'a [Word],
    behind: &'a [Word],
    depth_left: u32,
) -> Result<(BgpOption, &'a [Word]), Refusal<'a>>
    requires { words.now ≡ Word.Symbol sym.Default ∷ behind.now }
    ensures { Agrees bgp_option_tree result (bgp_option_at depth_left words.now) }
{
    if let Some((at, rest)) = after_attribute(behind, Attribute::BgpMed) {
        return default_med(at, rest);
    }
    match after_attribute(behind, Attribute::BgpLocalPref) {
        Some((at, rest)) => default_local_pref(at, rest),
        None => Err(Refusal::Bad(behind)),
    }
}

// By the words after `med`.
fn med_metric(words: &[Word]) -> Result<(BgpOption, &[Word]), Refusal>
    ensures { Agrees bgp_option_tree result
        (seen_as (both (word (symbol sym.Metric)) (word is_switch))
        (λ t. nth 3 (Pair (symbol_leaf sym.Med) t)) words.now) }
{
    let rest = expect(words, Symbol::Metric)?;
    let (switch, rest) = expect_switch(rest)?;
    Ok((BgpOption::MedMetric(switch), rest))
}

// By the words after `interpret`.
fn interpret(words: &[Word]) -> Result<(BgpOption, &[Word]), Refusal>
    ensures { Agrees bgp_option_tree result
        (seen_as (both (word (symbol sym.Communities)) (word is_switch))
        (λ t. nth 4 (Pair (symbol_leaf sym.Interpret) t)) words.now) }
{
    let rest = expect(words, Symbol::Communities)?;
    let (switch, rest) = expect_switch(rest)?;
    Ok((BgpOption::InterpretCommunities(switch), rest))
}

fn transport_option(words: &[Word]) -> Result<(BgpOption, &[Word]), Refusal>
    ensures { Agrees bgp_option_tree result (seen_as (transport_at 0) (λ t. beyond 6 t) words.now) }
{
    let (option, rest) = transport(words)?;
    Ok((BgpOption::Transport(option), rest))
}

// Where no option comes next that `read` tests for.
fn switch_option(words: &[Word], depth_left: u32) -> Result<(BgpOption, &[Word]), Refusal>
    requires family { begins is_family words.now ≡ false }
    requires local { begins (symbol sym.Local) words.now ≡ false }
    requires neighbor { begins (symbol sym.Neighbor) words.now ≡ false }
    requires default { begins (symbol sym.Default) words.now ≡ false }
    ensures { Agrees bgp_option_tree result (bgp_option_at depth_left words.now) }
{
    if let Some(rest) = after(words, Symbol::Med) {
        return med_metric(rest);
    }
    match after(words, Symbol::Interpret) {
        Some(rest) => interpret(rest),
        None => transport_option(words),
    }
}

// By a channel's words, and those after its family's word.
fn channel_option<'a>(
    alloc: Global,
    words: &'a [Word],
    at: usize,
    family: Family,
    behind: &'a [Word],
    depth_left: u32,
) -> Result<(BgpOption, &'a [Word]), Refusal<'a>>
    requires { words.now ≡ Word.Placed at (family_symbol family) ∷ behind.now }
    ensures { Agrees bgp_option_tree result (seen_as (channel_at depth_left)
        (λ t. nth 0 t) words.now) }
{
    let (channel, rest) = channel(alloc, words, at, family, behind, depth_left)?;
    Ok((BgpOption::Channel(channel), rest))
}

impl ProtocolOption for BgpOption {
    ghost tree = { bgp_option_tree };

    ghost form = { bgp_option };

    ghost is_option = { bgp_option_is };

    fn read<'a>(
        alloc: Global,
        words: &'a [Word],
        depth_left: u32,
    ) -> Result<(BgpOption, &'a [Word]), Refusal<'a>> {
        if let Some(((at, family), behind)) = next_family(words) {
            return channel_option(alloc, words, at, family, behind, depth_left);
        }
        if let Some(behind) = after(words, Symbol::Local) {
            return local(behind);
        }
        if let Some(behind) = after(words, Symbol::Neighbor) {
            return neighbor(behind);
        }
        match after(words, Symbol::Default) {
            Some(behind) => default_value(words, behind, depth_left),
            None => switch_option(words, depth_left),
        }
    }
}
