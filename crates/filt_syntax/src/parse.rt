// What stands at a place of the words.

ghost use Rattle.std.specs.Prelude.{◌≡◌, ℕ, ◌≤◌, length, drop, IfOk, IfErr};
ghost use Rattle.conf_lex.specs.Grammar.{ParseTree};
ghost use Rattle.filt_syntax.specs.declared.parse.SyntaxFault.{SyntaxFault};
ghost use Rattle.expr_syntax.specs.Syntax.{expr};
ghost use Rattle.expr_syntax.specs.View.{derivations};
ghost use Rattle.filt_syntax.specs.Parse.{ParsesAt, IsSyntaxFault, IsAnswer, IsFault};
ghost use Rattle.filt_syntax.specs.Inside.{refused_words};
ghost use Rattle.filt_syntax.specs.Inside.{fault_of};

use conf_ast::filters::Expr;
use conf_lex::parsing::place_in;
use conf_lex::{Refusal, Word};
use expr_syntax::parts::expression;
use std::alloc::Global;
use thiserror::Error;

/// How many levels may be open: brackets, `!`, and the bodies of statements. A tree within them is
/// no deeper than the program's stack.
pub const LEVELS: u32 = 64;

/// Why words have no tree, and the place of the refused one: the number of the words where more of
/// them would be wanted.
#[derive(Clone, Copy, Debug, PartialEq, Eq, Error)]
pub enum SyntaxFault {
    /// Nothing that begins with the words before it goes on with this one.
    #[error("no sentence goes on so at {at}")]
    Bad { at: usize },
    /// It opens one level more than 64.
    #[error("more than 64 levels at {at}")]
    TooDeep { at: usize },
    /// It is known here and not supported: of a configuration alone, never of an expression or a
    /// block.
    #[error("not supported at {at}")]
    Unsupported { at: usize },
    #[error("out of memory")]
    Memory,
}

/// The longest expression from a place on, and the place after it (BIRD User's Guide, "Filters").
pub fn parse_expr_words(
    alloc: Global,
    words: &[Word],
    from: usize,
) -> Result<(Expr, usize), SyntaxFault>
    requires { from ≤ length words.now }
    ensures tree { IfOk result (λ found. ParsesAt expr words.now from
        (derivations found.0).expr found.1) }
    ensures fault { IfErr result (λ e. IsSyntaxFault expr words.now from e) }
    ensures only { (t : ParseTree) (end : ℕ) → ParsesAt expr words.now from t end
        → IsAnswer (λ e. (derivations e).expr) result t end }
    ensures exact { (e : SyntaxFault) → IsSyntaxFault expr words.now from e → IsFault result e }
{
    match expression(alloc, tail(words, from), LEVELS) {
        Ok((tree, rest)) => Ok((tree, place_in(words, rest))),
        Err(refusal) => Err(placed(words, refusal)),
    }
}

/// The words from a place on.
pub fn tail(words: &[Word], from: usize) -> &[Word]
    requires { from ≤ length words.now }
    ensures { result.now ≡ drop from words.now }
{
    &words[from..]
}

/// A refusal, by the place of the refused word among the words.
pub fn placed(words: &[Word], refusal: Refusal) -> SyntaxFault
    requires { length (refused_words refusal) ≤ length words.now }
    ensures { result ≡ fault_of (length words.now) refusal.entry }
{
    match refusal {
        Refusal::Bad(rest) => SyntaxFault::Bad {
            at: place_in(words, rest),
        },
        Refusal::TooDeep(rest) => SyntaxFault::TooDeep {
            at: place_in(words, rest),
        },
        Refusal::Memory => SyntaxFault::Memory,
    }
}
