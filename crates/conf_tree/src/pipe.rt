// The options of pipes. `depth_left` is how many more levels may be opened.

ghost use Rattle.conf_lex.specs.declared.symbol.Symbol.TheVariants as sym;
ghost use Rattle.conf_lex.specs.Kind.{symbol, name};
ghost use Rattle.conf_lex.specs.Grammar.{Pair};
ghost use Rattle.conf_lex.specs.Reading.{both, word};
ghost use Rattle.conf_lex.specs.Leaves.{symbol_leaf};
ghost use Rattle.conf_lex.specs.Agrees.{Agrees};
ghost use Rattle.expr_syntax.specs.Rows.{nth, beyond};
ghost use Rattle.conf_syntax.specs.Syntax.{pipe_option};
ghost use Rattle.conf_syntax.specs.Options.{pipe_option_is};
ghost use Rattle.conf_tree.specs.View.{pipe_option_tree};
ghost use Rattle.conf_tree.specs.Readers.{policy_at};
ghost use Rattle.conf_syntax.specs.Readers.{seen_as};

use crate::options::ProtocolOption;
use crate::policy::policy;
use conf_ast::configurations::PipeOption;
use conf_lex::parsing::{after, expect, expect_name};
use conf_lex::{Refusal, Symbol, Word};
use std::alloc::Global;

// By the words after `table`.
fn table(words: &[Word]) -> Result<(PipeOption, &[Word]), Refusal>
    ensures { Agrees pipe_option_tree result
        (seen_as (word name) (λ t. nth 0 (Pair (symbol_leaf sym.Table) t)) words.now) }
{
    let (name, rest) = expect_name(words)?;
    Ok((PipeOption::Table(name), rest))
}

// By the words after `peer`.
fn peer_table(words: &[Word]) -> Result<(PipeOption, &[Word]), Refusal>
    ensures { Agrees pipe_option_tree result
        (seen_as (both (word (symbol sym.Table)) (word name))
        (λ t. nth 1 (Pair (symbol_leaf sym.Peer) t)) words.now) }
{
    let rest = expect(words, Symbol::Table)?;
    let (name, rest) = expect_name(rest)?;
    Ok((PipeOption::PeerTable(name), rest))
}

// By the words after `import`.
fn import<'a>(
    alloc: Global,
    words: &'a [Word],
    depth_left: u32,
) -> Result<(PipeOption, &'a [Word]), Refusal<'a>>
    ensures { Agrees pipe_option_tree result
        (seen_as (policy_at depth_left) (λ t. nth 2 (Pair (symbol_leaf sym.Import) t)) words.now) }
{
    let (policy, rest) = policy(alloc, words, depth_left)?;
    Ok((PipeOption::Import(policy), rest))
}

fn export<'a>(
    alloc: Global,
    words: &'a [Word],
    depth_left: u32,
) -> Result<(PipeOption, &'a [Word]), Refusal<'a>>
    ensures { Agrees pipe_option_tree result
        (seen_as (both (word (symbol sym.Export)) (policy_at depth_left))
        (λ t. beyond 3 t) words.now) }
{
    let rest = expect(words, Symbol::Export)?;
    let (policy, rest) = policy(alloc, rest, depth_left)?;
    Ok((PipeOption::Export(policy), rest))
}

impl ProtocolOption for PipeOption {
    ghost tree = { pipe_option_tree };

    ghost form = { pipe_option };

    ghost is_option = { pipe_option_is };

    fn read<'a>(
        alloc: Global,
        words: &'a [Word],
        depth_left: u32,
    ) -> Result<(PipeOption, &'a [Word]), Refusal<'a>> {
        if let Some(rest) = after(words, Symbol::Table) {
            return table(rest);
        }
        if let Some(rest) = after(words, Symbol::Peer) {
            return peer_table(rest);
        }
        match after(words, Symbol::Import) {
            Some(rest) => import(alloc, rest, depth_left),
            None => export(alloc, words, depth_left),
        }
    }
}
