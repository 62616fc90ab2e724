//! What the trees of expressions are: the grammar alone decides, and each is the view of one.
ghost use Rattle.std.specs.Global.{Box, Vec};
ghost use Rattle.std.specs.Prelude.{◌≡◌, ◌<◌, ◌≤◌, ◌^◌, length};
ghost use Rattle.conf_lex.specs.Grammar.{ParseTree, yield, DerivesLongest, Derives};
ghost use Rattle.conf_ast.specs.declared.filters.Access.{Access};
ghost use Rattle.conf_ast.specs.declared.filters.Expr.{Expr};
ghost use Rattle.conf_ast.specs.declared.filters.Expr.TheVariants as exprs;
ghost use Rattle.conf_ast.specs.declared.filters.MulOp.{MulOp};
ghost use Rattle.conf_ast.specs.declared.filters.LogicalOp.{LogicalOp};
ghost use Rattle.conf_ast.specs.declared.filters.AddOp.{AddOp};
ghost use Rattle.expr_syntax.specs.Syntax.{expr, rule};
ghost use Rattle.expr_syntax.specs.View.{derivations};

/// In an expression the next word always decides: a tree by the grammar alone has no part that
/// stops too soon.
pub fn expressions_decide()
    ensures { (t : ParseTree) → Derives rule t expr → DerivesLongest rule t expr }
{}

/// A chain of operators or of methods whose tree fits has a part behind its first: without one it
/// has no tree, so that a text has no second one.
pub fn chains_have_parts()
    ensures logical_op { (first : Box Expr) (more : Vec (LogicalOp × Expr))
        → DerivesLongest rule (derivations (exprs.Logical first more)).expr expr
        → 1 ≤ length more.items }
    ensures sum { (first : Box Expr) (more : Vec (AddOp × Expr))
        → DerivesLongest rule (derivations (exprs.Sum first more)).expr expr
        → 1 ≤ length more.items }
    ensures product { (first : Box Expr) (more : Vec (MulOp × Expr))
        → DerivesLongest rule (derivations (exprs.Product first more)).expr expr
        → 1 ≤ length more.items }
    ensures postfix { (first : Box Expr) (more : Vec (Access Expr))
        → DerivesLongest rule (derivations (exprs.Postfix first more)).expr expr
        → 1 ≤ length more.items }
{}

/// Each tree of an expression is the view of one. A list in memory has less than 2 ^ 63 items, so
/// an expression of more words has none.
pub fn each_tree_is_of_an_expression()
    ensures { (t : ParseTree) → DerivesLongest rule t expr → length (yield t) < 2 ^ 63
        → (e : Expr) × ((derivations e).expr ≡ t) }
{}
