// What stands between the braces of a protocol or a channel.

ghost use Rattle.conf_lex.specs.declared.symbol.Symbol.TheVariants as sym;
ghost use Rattle.conf_lex.specs.Grammar.{ParseTree, Pair};
ghost use Rattle.conf_lex.specs.Reading.{read};
ghost use Rattle.conf_lex.specs.Leaves.{symbol_leaf};
ghost use Rattle.conf_lex.specs.Agrees.{Agrees};
ghost use Rattle.expr_syntax.specs.Syntax.{rule};
ghost use Rattle.expr_syntax.specs.Levels.{Form};
ghost use Rattle.conf_syntax.specs.View.{ended_row};
ghost use Rattle.conf_syntax.specs.Readers.{closed_options};
ghost use Rattle.conf_syntax.specs.Options.{IsOption};

use conf_lex::parsing::{after, expect};
use conf_lex::{Refusal, Symbol, Word, push_tight};
use std::alloc::Global;

/// An option of a protocol or a channel.
pub trait ProtocolOption: Drop {
    /// The tree of an option.
    ghost tree: { Self → ParseTree };

    /// The form of options in the grammar.
    ghost form: { Form };

    /// The option that comes next, and the words after it; `depth_left` is how many more levels may
    /// be opened.
    fn read<'a>(
        alloc: Global,
        words: &'a [Word],
        depth_left: u32,
    ) -> Result<(Self, &'a [Word]), Refusal<'a>>
        ensures { Agrees tree result (read rule depth_left form words.now) };

    /// A closing brace begins no option, and the form passes the grammar's test.
    ghost is_option: { IsOption form };
}

/// Options, each with its semicolon, and the brace behind them.
pub fn options<'a, O: ProtocolOption>(
    alloc: Global,
    words: &'a [Word],
    depth_left: u32,
) -> Result<(Vec<O>, &'a [Word]), Refusal<'a>>
    ensures { Agrees (λ v. Pair (ended_row O.tree v.items) (symbol_leaf sym.CloseBrace)) result
        (closed_options O.form depth_left words.now) }
{
    let mut options = Vec::new(alloc);
    let mut rest = words;
    loop {
        if let Some(end) = after(rest, Symbol::CloseBrace) {
            return Ok((options, end));
        }
        let (option, end) = O::read(alloc, rest, depth_left)?;
        push_tight(&mut options, option)?;
        rest = expect(end, Symbol::Semicolon)?;
    }
}
