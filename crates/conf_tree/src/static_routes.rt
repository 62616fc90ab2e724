// The options of static protocols. `depth_left` is how many more levels may be opened.

ghost use Rattle.std.specs.Prelude.{◌≡◌, ◌∷◌};
ghost use Rattle.conf_lex.specs.declared.symbol.Symbol.TheVariants as sym;
ghost use Rattle.conf_lex.specs.declared.word.Word.{Word};
ghost use Rattle.conf_lex.specs.Kind.{symbol, prefix};
ghost use Rattle.conf_lex.specs.Grammar.{Left, Right};
ghost use Rattle.conf_lex.specs.Reading.{both, word};
ghost use Rattle.conf_lex.specs.Agrees.{Agrees};
ghost use Rattle.conf_syntax.specs.Syntax.{static_option};
ghost use Rattle.conf_syntax.specs.Options.{static_option_is};
ghost use Rattle.conf_tree.specs.View.{static_option_tree};
ghost use Rattle.conf_syntax.specs.View.{family_symbol};
ghost use Rattle.conf_tree.specs.Readers.{channel_at};
ghost use Rattle.conf_syntax.specs.Readers.{seen_as, route_target_at};

use crate::channel::channel;
use crate::options::ProtocolOption;
use bits_ip::Family;
use conf_ast::configurations::{Route, StaticOption};
use conf_lex::parsing::{after, expect, next_prefix};
use conf_lex::{Refusal, Symbol, Word};
use conf_syntax::parts::{next_family, route_target};
use std::alloc::Global;

fn route(words: &[Word]) -> Result<(StaticOption, &[Word]), Refusal>
    ensures { Agrees static_option_tree result
        (seen_as (both (word (symbol sym.Route)) (both (word prefix) (route_target_at 0)))
        (λ t. Right t) words.now) }
{
    let rest = expect(words, Symbol::Route)?;
    match next_prefix(rest) {
        Some((found, behind)) => {
            let (target, rest) = route_target(behind)?;
            let (at, net) = found;
            Ok((StaticOption::Route(Route { at, net, target }), rest))
        }
        None => Err(Refusal::Bad(rest)),
    }
}

// By a channel's words, and those after its family's word.
fn channel_option<'a>(
    alloc: Global,
    words: &'a [Word],
    at: usize,
    family: Family,
    behind: &'a [Word],
    depth_left: u32,
) -> Result<(StaticOption, &'a [Word]), Refusal<'a>>
    requires { words.now ≡ Word.Placed at (family_symbol family) ∷ behind.now }
    ensures { Agrees static_option_tree result
        (seen_as (channel_at depth_left) (λ t. Left t) words.now) }
{
    let (channel, rest) = channel(alloc, words, at, family, behind, depth_left)?;
    Ok((StaticOption::Channel(channel), rest))
}

impl ProtocolOption for StaticOption {
    ghost tree = { static_option_tree };

    ghost form = { static_option };

    ghost is_option = { static_option_is };

    fn read<'a>(
        alloc: Global,
        words: &'a [Word],
        depth_left: u32,
    ) -> Result<(StaticOption, &'a [Word]), Refusal<'a>> {
        match next_family(words) {
            Some(((at, family), behind)) => {
                channel_option(alloc, words, at, family, behind, depth_left)
            }
            None => route(words),
        }
    }
}
