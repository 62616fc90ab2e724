//! How texts of expressions and blocks are read: from each token on one is parsed or refused, and
//! not both, with one tree and one end, or one refusal. So `parse_expr` and `parse_block` have one
//! answer to each text that has tokens, want of memory apart.
ghost use Rattle.std.specs.Prelude.{◌≡◌, ◌≢◌, ◌⊎◌, ℕ, List};
ghost use Rattle.conf_lex.specs.Grammar.{ParseTree};
ghost use Rattle.conf_scan.specs.declared.token.Token.{Token};
ghost use Rattle.expr_syntax.specs.Syntax.{block, expr};
ghost use Rattle.filt_syntax.specs.Tokens.{ParsesAtToken, IsRefusedIn};
ghost use Rattle.filt_syntax.specs.declared.parse.SyntaxFault.{SyntaxFault};

use filt_syntax::SyntaxFault;

/// From each token on an expression is parsed or refused, and so is a block. Want of memory is no
/// refusal here.
pub fn each_text_is_parsed_or_refused()
    ensures expression { (text : List ℕ) (tokens : List Token) (from : ℕ)
        → ((t : ParseTree) × (end : ℕ) × ParsesAtToken expr text tokens from t end)
        ⊎ ((e : SyntaxFault) × IsRefusedIn expr text tokens from e × (e ≢ SyntaxFault.Memory)) }
    ensures block { (text : List ℕ) (tokens : List Token) (from : ℕ)
        → ((t : ParseTree) × (end : ℕ) × ParsesAtToken block text tokens from t end)
        ⊎ ((e : SyntaxFault) × IsRefusedIn block text tokens from e × (e ≢ SyntaxFault.Memory)) }
{}

/// Where an expression is parsed none is refused but for want of memory, and where a block is
/// parsed no block is.
pub fn parsed_texts_are_not_refused()
    ensures expression { (text : List ℕ) (tokens : List Token) (from : ℕ) (t : ParseTree) (end : ℕ)
        (e : SyntaxFault) → ParsesAtToken expr text tokens from t end
        → IsRefusedIn expr text tokens from e → e ≡ SyntaxFault.Memory }
    ensures block { (text : List ℕ) (tokens : List Token) (from : ℕ) (t : ParseTree) (end : ℕ)
        (e : SyntaxFault) → ParsesAtToken block text tokens from t end
        → IsRefusedIn block text tokens from e → e ≡ SyntaxFault.Memory }
{}

/// From a token on one expression is parsed at most, one tree with one end, and one block.
pub fn texts_have_one_tree_and_one_end()
    ensures expression { (text : List ℕ) (tokens : List Token) (from : ℕ) (t u : ParseTree)
        (end stop : ℕ) → ParsesAtToken expr text tokens from t end
        → ParsesAtToken expr text tokens from u stop → (t ≡ u) × (end ≡ stop) }
    ensures block { (text : List ℕ) (tokens : List Token) (from : ℕ) (t u : ParseTree)
        (end stop : ℕ) → ParsesAtToken block text tokens from t end
        → ParsesAtToken block text tokens from u stop → (t ≡ u) × (end ≡ stop) }
{}

/// From a token on an expression is refused at one token at most, for one reason, and so is a
/// block. Want of memory is no refusal here.
pub fn texts_are_refused_at_one_token()
    ensures expression { (text : List ℕ) (tokens : List Token) (from : ℕ) (d e : SyntaxFault)
        → IsRefusedIn expr text tokens from d → IsRefusedIn expr text tokens from e
        → d ≢ SyntaxFault.Memory → e ≢ SyntaxFault.Memory → d ≡ e }
    ensures block { (text : List ℕ) (tokens : List Token) (from : ℕ) (d e : SyntaxFault)
        → IsRefusedIn block text tokens from d → IsRefusedIn block text tokens from e
        → d ≢ SyntaxFault.Memory → e ≢ SyntaxFault.Memory → d ≡ e }
{}
