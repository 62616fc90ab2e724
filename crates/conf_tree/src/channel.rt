// Channels. `depth_left` is how many more levels may be opened.

ghost use Rattle.std.specs.Prelude.{◌≡◌, ◌∷◌};
ghost use Rattle.conf_ast.specs.declared.attribute.Attribute.TheVariants as attributes;
ghost use Rattle.conf_lex.specs.declared.symbol.Symbol.TheVariants as sym;
ghost use Rattle.conf_lex.specs.declared.word.Word.{Word};
ghost use Rattle.conf_lex.specs.Kind.{symbol, name};
ghost use Rattle.conf_lex.specs.Grammar.{Pair, Left, Right};
ghost use Rattle.conf_lex.specs.Reading.{both, word};
ghost use Rattle.conf_lex.specs.Leaves.{symbol_leaf};
ghost use Rattle.conf_lex.specs.Agrees.{Agrees};
ghost use Rattle.expr_syntax.specs.Rows.{nth, beyond};
ghost use Rattle.expr_syntax.specs.Syntax.{is_num};
ghost use Rattle.conf_syntax.specs.Syntax.{is_hop, channel_option};
ghost use Rattle.conf_syntax.specs.Options.{channel_option_is};
ghost use Rattle.conf_syntax.specs.View.{attribute_leaf, family_leaf};
ghost use Rattle.conf_tree.specs.View.{channel_option_tree, channel_tree};
ghost use Rattle.conf_syntax.specs.View.{family_symbol};
ghost use Rattle.conf_tree.specs.Readers.{policy_at};
ghost use Rattle.conf_syntax.specs.Readers.{seen_as, limit_value_at};
ghost use Rattle.conf_tree.specs.Readers.{channel_option_at, channel_at};
ghost use Rattle.conf_syntax.specs.Readers.{closed_options};

use crate::options::{ProtocolOption, options};
use crate::policy::policy;
use bits_ip::Family;
use conf_ast::Attribute;
use conf_ast::configurations::{Channel, ChannelOption};
use conf_lex::parsing::{after, after_attribute, expect, expect_name};
use conf_lex::{Refusal, Symbol, Word};
use conf_syntax::parts::{expect_hop, limit_value};
use expr_syntax::parts::num;
use std::alloc::Global;

// By the words after `import limit`.
fn import_limit(words: &[Word]) -> Result<(ChannelOption, &[Word]), Refusal>
    ensures { Agrees channel_option_tree result
        (seen_as (limit_value_at 0) (λ t. nth 1 (Pair (symbol_leaf sym.Import)
        (Left (Pair (symbol_leaf sym.Limit) t)))) words.now) }
{
    let (limit, rest) = limit_value(words)?;
    Ok((ChannelOption::ImportLimit(limit), rest))
}

// By the words after `import`.
fn import_policy<'a>(
    alloc: Global,
    words: &'a [Word],
    depth_left: u32,
) -> Result<(ChannelOption, &'a [Word]), Refusal<'a>>
    ensures { Agrees channel_option_tree result
        (seen_as (policy_at depth_left)
        (λ t. nth 1 (Pair (symbol_leaf sym.Import) (Right t))) words.now) }
{
    let (policy, rest) = policy(alloc, words, depth_left)?;
    Ok((ChannelOption::Import(policy), rest))
}

// By the words after `import`.
fn import_option<'a>(
    alloc: Global,
    words: &'a [Word],
    behind: &'a [Word],
    depth_left: u32,
) -> Result<(ChannelOption, &'a [Word]), Refusal<'a>>
    requires { words.now ≡ Word.Symbol sym.Import ∷ behind.now }
    ensures { Agrees channel_option_tree result (channel_option_at depth_left words.now) }
{
    match after(behind, Symbol::Limit) {
        Some(rest) => import_limit(rest),
        None => import_policy(alloc, behind, depth_left),
    }
}

fn next_hop(words: &[Word]) -> Result<(ChannelOption, &[Word]), Refusal>
    ensures { Agrees channel_option_tree result
        (seen_as (both (word (symbol sym.Next)) (both (word (symbol sym.Hop)) (word is_hop)))
        (λ t. beyond 4 t) words.now) }
{
    let rest = expect(words, Symbol::Next)?;
    let rest = expect(rest, Symbol::Hop)?;
    let (hop, rest) = expect_hop(rest)?;
    Ok((ChannelOption::NextHop(hop), rest))
}

// By the words after `table`.
fn table_option(words: &[Word]) -> Result<(ChannelOption, &[Word]), Refusal>
    ensures { Agrees channel_option_tree result
        (seen_as (word name) (λ t. nth 0 (Pair (symbol_leaf sym.Table) t)) words.now) }
{
    let (name, rest) = expect_name(words)?;
    Ok((ChannelOption::Table(name), rest))
}

// By the words after `export`.
fn export_option<'a>(
    alloc: Global,
    words: &'a [Word],
    depth_left: u32,
) -> Result<(ChannelOption, &'a [Word]), Refusal<'a>>
    ensures { Agrees channel_option_tree result
        (seen_as (policy_at depth_left) (λ t. nth 2 (Pair (symbol_leaf sym.Export) t)) words.now) }
{
    let (policy, rest) = policy(alloc, words, depth_left)?;
    Ok((ChannelOption::Export(policy), rest))
}

// By the words after `preference`, whose place is told.
fn preference(at: usize, words: &[Word]) -> Result<(ChannelOption, &[Word]), Refusal>
    ensures { Agrees channel_option_tree result
        (seen_as (word is_num)
        (λ t. nth 3 (Pair (attribute_leaf at attributes.Preference) t)) words.now) }
{
    let (value, rest) = num(words)?;
    Ok((ChannelOption::Preference { at, value }, rest))
}

impl ProtocolOption for ChannelOption {
    ghost tree = { channel_option_tree };

    ghost form = { channel_option };

    ghost is_option = { channel_option_is };

    fn read<'a>(
        alloc: Global,
        words: &'a [Word],
        depth_left: u32,
    ) -> Result<(ChannelOption, &'a [Word]), Refusal<'a>> {
        if let Some(rest) = after(words, Symbol::Table) {
            return table_option(rest);
        }
        if let Some(behind) = after(words, Symbol::Import) {
            return import_option(alloc, words, behind, depth_left);
        }
        if let Some(rest) = after(words, Symbol::Export) {
            return export_option(alloc, rest, depth_left);
        }
        match after_attribute(words, Attribute::Preference) {
            Some((at, rest)) => preference(at, rest),
            None => next_hop(words),
        }
    }
}

// A channel, by the words after its opening brace.
fn braced_channel<'a>(
    alloc: Global,
    at: usize,
    family: Family,
    words: &'a [Word],
    depth_left: u32,
) -> Result<(Channel, &'a [Word]), Refusal<'a>>
    ensures { Agrees channel_tree result
        (seen_as (closed_options channel_option depth_left) (λ t. Pair (family_leaf at family)
        (Left (Pair (symbol_leaf sym.OpenBrace) t))) words.now) }
{
    let (options, rest) = options(alloc, words, depth_left)?;
    let channel = Channel {
        at,
        family,
        options: Some(options),
    };
    Ok((channel, rest))
}

/// A channel, by its family's word and the words after it.
pub fn channel<'a>(
    alloc: Global,
    words: &'a [Word],
    at: usize,
    family: Family,
    behind: &'a [Word],
    depth_left: u32,
) -> Result<(Channel, &'a [Word]), Refusal<'a>>
    requires { words.now ≡ Word.Placed at (family_symbol family) ∷ behind.now }
    ensures { Agrees channel_tree result (channel_at depth_left words.now) }
{
    match after(behind, Symbol::OpenBrace) {
        Some(inside) => braced_channel(alloc, at, family, inside, depth_left),
        None => {
            let options = None;
            Ok((
                Channel {
                    at,
                    family,
                    options,
                },
                behind,
            ))
        }
    }
}
