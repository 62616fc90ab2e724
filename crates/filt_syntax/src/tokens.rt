// What stands at a token of a text.

ghost use Rattle.std.specs.Prelude.{ℕ, ◌+◌, ◌^◌, ◌<◌, ◌≤◌, length, slice_index_or};
ghost use Rattle.std.specs.Prelude.{IfOk, IfErr};
ghost use Rattle.conf_scan.specs.Lex.{Lexes};
ghost use Rattle.conf_lex.specs.Grammar.{ParseTree};
ghost use Rattle.filt_syntax.specs.declared.parse.SyntaxFault.{SyntaxFault};
ghost use Rattle.expr_syntax.specs.Syntax.{block, expr};
ghost use Rattle.expr_syntax.specs.View.{derivations};
ghost use Rattle.filt_syntax.specs.StatementView.{block_view};
ghost use Rattle.filt_syntax.specs.Parse.{IsAnswer, IsFault, IsSyntaxFault};
ghost use Rattle.filt_syntax.specs.Tokens.{ParsesAtToken, IsRefusedIn};
ghost use Rattle.filt_syntax.specs.Inside.{IsToldAs};

use crate::block_words::parse_block_words;
use crate::followed::{Blocks, Expressions};
use crate::parse::{SyntaxFault, parse_expr_words};
use crate::refused_token::{Sentences, bad_from};
use bits_ip::OutOfMemory;
use conf_ast::filters::{Block, Expr};
use conf_lex::{Words, words_from};
use conf_scan::Token;
use std::alloc::Global;

/// The longest expression from a token on, and the place of the token behind it (BIRD User's Guide,
/// "Filters"). The tokens are those that `lex` gives for the text; places are theirs, their number
/// where more of them would be wanted. Refused is the first token that no expression can have
/// there.
pub fn parse_expr(
    alloc: Global,
    tokens: &[Token],
    text: &[u8],
    from: usize,
) -> Result<(Expr, usize), SyntaxFault>
    requires short { length text.now < 2 ^ 32 }
    requires lexed { Lexes 0 text.now tokens.now }
    requires within { from ≤ length tokens.now }
    ensures tree { IfOk result (λ found.
        ParsesAtToken expr text.now tokens.now from (derivations found.0).expr found.1) }
    ensures fault { IfErr result (λ e. IsRefusedIn expr text.now tokens.now from e) }
    ensures only { (t : ParseTree) (end : ℕ) → ParsesAtToken expr text.now tokens.now from t end
        → IsAnswer (λ e. (derivations e).expr) result t end }
    ensures exact { (e : SyntaxFault) → IsRefusedIn expr text.now tokens.now from e
        → IsFault result e }
{
    let found = match words_from(alloc, text, tokens, from) {
        Ok(found) => found,
        Err(OutOfMemory) => return Err(SyntaxFault::Memory),
    };
    match parse_expr_words(alloc, &found.words, 0) {
        Ok((expression, end)) => Ok((expression, found.token_at(end, tokens.len()))),
        Err(fault) => Err(told::<Expressions>(alloc, &found, tokens.len(), fault)),
    }
}

/// The longest block from a token on, its statements between braces, and the place of the token
/// behind it (BIRD User's Guide, "Control structures"). Tokens and places are as for `parse_expr`.
pub fn parse_block(
    alloc: Global,
    tokens: &[Token],
    text: &[u8],
    from: usize,
) -> Result<(Block, usize), SyntaxFault>
    requires short { length text.now < 2 ^ 32 }
    requires lexed { Lexes 0 text.now tokens.now }
    requires within { from ≤ length tokens.now }
    ensures tree { IfOk result (λ found.
        ParsesAtToken block text.now tokens.now from (block_view found.0) found.1) }
    ensures fault { IfErr result (λ e. IsRefusedIn block text.now tokens.now from e) }
    ensures only { (t : ParseTree) (end : ℕ) → ParsesAtToken block text.now tokens.now from t end
        → IsAnswer block_view result t end }
    ensures exact { (e : SyntaxFault) → IsRefusedIn block text.now tokens.now from e
        → IsFault result e }
{
    let found = match words_from(alloc, text, tokens, from) {
        Ok(found) => found,
        Err(OutOfMemory) => return Err(SyntaxFault::Memory),
    };
    match parse_block_words(alloc, &found.words, 0) {
        Ok((block, end)) => Ok((block, found.token_at(end, tokens.len()))),
        Err(fault) => Err(told::<Blocks>(alloc, &found, tokens.len(), fault)),
    }
}

// A refusal of words, by the first token of the refused word that no sentence can have there.
fn told<S: Sentences>(alloc: Global, words: &Words, end: usize, fault: SyntaxFault) -> SyntaxFault
    requires refused { IsSyntaxFault S.form words.now.words.items 0 fault }
    requires starts { (place : ℕ) → slice_index_or words.now.starts.items place end ≤ end }
    requires end { end + 2 < 2 ^ 64 }
    ensures { IsToldAs S.form words.now.words.items words.now.starts.items end fault result }
{
    match fault {
        SyntaxFault::Bad { at } => {
            bad_from::<S>(alloc, &words.words, at, words.token_at(at, end))
        }
        SyntaxFault::TooDeep { at } => SyntaxFault::TooDeep {
            at: words.token_at(at, end),
        },
        SyntaxFault::Unsupported { at } => SyntaxFault::Unsupported { at },
        SyntaxFault::Memory => SyntaxFault::Memory,
    }
}
