//! What follows from the views of syntax trees and their abstract syntax.
ghost use Rattle.std.specs.Prelude.{◌≡◌, ℕ, List};
ghost use Rattle.conf_lex.specs.Grammar.{DerivesLongest};
ghost use Rattle.conf_ast.specs.declared.filters.Block.{Block};
ghost use Rattle.conf_ast.specs.declared.filters.Expr.{Expr};
ghost use Rattle.expr_syntax.specs.Syntax.{block, expr, rule};
ghost use Rattle.filt_syntax.specs.StatementView.{block_view};
ghost use Rattle.expr_syntax.specs.View.{derivations};
ghost use Rattle.conf_ast.specs.declared.configurations.Statement.{Statement};
ghost use Rattle.conf_tree.specs.Read.{IsConfigText};
ghost use Rattle.conf_syntax.specs.Syntax.{config};
ghost use Rattle.conf_tree.specs.View.{statements_tree};
ghost use Rattle.conf_ast.specs.Configurations.{configuration_of};
ghost use Rattle.conf_ast.specs.Filters.{block_of, expression_of};

use conf_tree::laws::a_text_is_one_configuration;

/// Two expressions that are seen as one tree are one.
pub fn a_tree_is_of_one_expression()
    ensures { (c d : Expr) → DerivesLongest rule (derivations c).expr expr → (derivations c).expr ≡ (derivations d).expr
        → expression_of c ≡ expression_of d }
{}

/// One expression is seen as one tree: the abstract syntax forgets nothing of it.
pub fn an_expression_is_of_one_tree()
    ensures { (c d : Expr) → DerivesLongest rule (derivations c).expr expr → DerivesLongest rule (derivations d).expr expr
        → expression_of c ≡ expression_of d → (derivations c).expr ≡ (derivations d).expr }
{}

/// Two blocks that are seen as one tree are one.
pub fn a_tree_is_of_one_block()
    ensures { (c d : Block) → DerivesLongest rule (block_view c) block → block_view c ≡ block_view d
        → block_of c ≡ block_of d }
{}

/// One block is seen as one tree.
pub fn a_block_is_of_one_tree()
    ensures { (c d : Block) → DerivesLongest rule (block_view c) block → DerivesLongest rule (block_view d) block
        → block_of c ≡ block_of d → block_view c ≡ block_view d }
{}

/// Two configurations that are seen as one tree are one.
pub fn a_tree_is_of_one_configuration()
    ensures { (c d : List Statement) → DerivesLongest rule (statements_tree c) config
        → statements_tree c ≡ statements_tree d → configuration_of c ≡ configuration_of d }
{}

/// One configuration is seen as one tree.
pub fn a_configuration_is_of_one_tree()
    ensures { (c d : List Statement) → DerivesLongest rule (statements_tree c) config
        → DerivesLongest rule (statements_tree d) config → configuration_of c ≡ configuration_of d
        → statements_tree c ≡ statements_tree d }
{}

/// A text is one abstract syntax at most: whatever statements it says, they are one configuration.
pub fn a_text_is_one_syntax()
    ensures { (text : List ℕ) (c d : List Statement) → IsConfigText text (statements_tree c)
        → IsConfigText text (statements_tree d) → configuration_of c ≡ configuration_of d }
{
    a_text_is_one_configuration();
}
