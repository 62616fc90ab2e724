//! What the trees of statements and blocks are: each that the grammar alone allows has one that
//! fits, and each is the view of one.
ghost use Rattle.std.specs.Prelude.{◌≡◌, ◌<◌, ◌^◌, length};
ghost use Rattle.conf_lex.specs.Grammar.{ParseTree, yield, DerivesLongest, Derives};
ghost use Rattle.conf_ast.specs.declared.filters.Block.{Block};
ghost use Rattle.expr_syntax.specs.Syntax.{block, rule, stmt};
ghost use Rattle.filt_syntax.specs.StatementView.{block_view};

/// Each statement of the grammar alone is one: its words have a tree in which an `else` goes to the
/// nearest `if`.
pub fn statements_decide()
    ensures { (t : ParseTree) → Derives rule t stmt
        → (u : ParseTree) × DerivesLongest rule u stmt × (yield u ≡ yield t) }
{}

/// Each block of the grammar alone is one.
pub fn blocks_decide()
    ensures { (t : ParseTree) → Derives rule t block
        → (u : ParseTree) × DerivesLongest rule u block × (yield u ≡ yield t) }
{}

/// Each tree of a block is the view of one.
pub fn each_tree_is_of_a_block()
    ensures { (t : ParseTree) → DerivesLongest rule t block → length (yield t) < 2 ^ 63
        → (b : Block) × (block_view b ≡ t) }
{}
