// The block at a place of the words.

ghost use Rattle.std.specs.Prelude.{ℕ, ◌≤◌, length, IfOk, IfErr};
ghost use Rattle.conf_lex.specs.Grammar.{ParseTree};
ghost use Rattle.filt_syntax.specs.declared.parse.SyntaxFault.{SyntaxFault};
ghost use Rattle.expr_syntax.specs.Syntax.{block};
ghost use Rattle.filt_syntax.specs.StatementView.{block_view};
ghost use Rattle.filt_syntax.specs.Parse.{ParsesAt, IsSyntaxFault, IsAnswer, IsFault};

use crate::parse::{LEVELS, SyntaxFault, placed, tail};
use crate::statement::whole_block;
use conf_ast::filters::Block;
use conf_lex::Word;
use conf_lex::parsing::place_in;
use std::alloc::Global;

/// The longest block from a place on, its statements between braces, and the place after it (BIRD
/// User's Guide, "Control structures"). The block's own braces are a level.
pub fn parse_block_words(
    alloc: Global,
    words: &[Word],
    from: usize,
) -> Result<(Block, usize), SyntaxFault>
    requires { from ≤ length words.now }
    ensures tree { IfOk result (λ found. ParsesAt block words.now from
        (block_view found.0) found.1) }
    ensures fault { IfErr result (λ e. IsSyntaxFault block words.now from e) }
    ensures only { (t : ParseTree) (end : ℕ) → ParsesAt block words.now from t end
        → IsAnswer block_view result t end }
    ensures exact { (e : SyntaxFault) → IsSyntaxFault block words.now from e → IsFault result e }
{
    match whole_block(alloc, tail(words, from), LEVELS) {
        Ok((tree, rest)) => Ok((tree, place_in(words, rest))),
        Err(refusal) => Err(placed(words, refusal)),
    }
}
