// Statements. Each function answers a statement and the words after it; `depth_left` is how many
// more levels may be opened.

ghost use Rattle.std.specs.Prelude.{◌≡◌, [], ◌∷◌, ◌++◌, ◌+◌, OnOk};
ghost use Rattle.conf_lex.specs.declared.symbol.Symbol.TheVariants as sym;
ghost use Rattle.conf_lex.specs.declared.word.Word.{Word};
ghost use Rattle.conf_lex.specs.Kind.{symbol};
ghost use Rattle.conf_lex.specs.Grammar.{Pair, Deeper, begins};
ghost use Rattle.conf_lex.specs.Reading.{word, both};
ghost use Rattle.conf_lex.specs.PartShapes.{closed};
ghost use Rattle.conf_lex.specs.Leaves.{symbol_leaf, between};
ghost use Rattle.conf_lex.specs.Agrees.{Agrees};
ghost use Rattle.filt_syntax.specs.StatementView.{block_view, stmt_tree};
ghost use Rattle.filt_syntax.specs.Inside.{arms_view, boxed_tree};
ghost use Rattle.filt_syntax.specs.StatementView.{stmts_tree, chosen_tree};
ghost use Rattle.filt_syntax.specs.Inside.{branches_tree};
ghost use Rattle.filt_syntax.specs.Inside.{second_tree};
ghost use Rattle.filt_syntax.specs.StatementReaders.{block_at, stmt_at, stmts_at, else_at};
ghost use Rattle.filt_syntax.specs.StatementReaders.{branches_at, run_at, braced_at, arms_at};
ghost use Rattle.filt_syntax.specs.StatementReaders.{arm_ends, arms_over, label_next};
ghost use Rattle.filt_syntax.specs.StatementReaders.{is_behind_name, is_item, ArmGives, BodyGives};
ghost use Rattle.filt_syntax.specs.StatementReaders.{OtherwiseGives};
ghost use Rattle.expr_syntax.specs.View.{derivations};
ghost use Rattle.expr_syntax.specs.Readers.{expr_at};

use crate::simple_statement::{done_to_name, made, simple_statement};
use conf_ast::filters::{Arm, Block, Expr, Stmt};
use conf_lex::parsing::{after, after_placed, expect, expect_name, level_below, next, next_name};
use conf_lex::{Refusal, Symbol, Word, push_tight};
use expr_syntax::parts::{expression, label, variable_type};
use std::alloc::{AllocError, Global};

// The branches of an `if`.
#[derive(Drop)]
struct Branches {
    first: Box<Stmt>,
    second: Option<Box<Stmt>>,
}

/// The longest statement. It comes in a box, since small values make short proofs.
#[cycle(statement)]
pub fn statement<'a>(
    alloc: Global,
    words: &'a [Word],
    depth_left: u32,
) -> Result<(Box<Stmt>, &'a [Word]), Refusal<'a>>
    ensures { Agrees boxed_tree result (stmt_at depth_left words.now) }
{
    if let Some((name, next)) = next_name(words) {
        return done_to_name(alloc, name, next, depth_left);
    }
    if let Some(next) = after(words, Symbol::OpenBrace) {
        return block(alloc, words, next, depth_left);
    }
    if let Some(next) = after(words, Symbol::If) {
        return if_stmt(alloc, words, next, depth_left);
    }
    if let Some((at, next)) = after_placed(words, Symbol::Case) {
        return case_stmt(alloc, words, at, next, depth_left);
    }
    match after_placed(words, Symbol::For) {
        Some((at, next)) => for_stmt(alloc, words, at, next, depth_left),
        None => simple_statement(alloc, words, depth_left),
    }
}

// By the words after the opening brace.
#[cycle(statement)]
fn block<'a>(
    alloc: Global,
    words: &'a [Word],
    next: &'a [Word],
    depth_left: u32,
) -> Result<(Box<Stmt>, &'a [Word]), Refusal<'a>>
    requires { words.now ≡ Word.Symbol sym.OpenBrace ∷ next.now }
    ensures { Agrees boxed_tree result (stmt_at depth_left words.now) }
{
    let below = level_below(words, depth_left)?;
    let (body, rest) = statements(alloc, next, below)?;
    made(alloc, Stmt::Block(body), rest)
}

fn put(found: &mut Vec<Stmt>, stmt: Box<Stmt>) -> Result<(), AllocError>
    ensures { OnOk result (found.new.items ≡ found.old.items ++ stmt.value ∷ []) }
{
    push_tight(found, Box::into_inner(stmt))?;
    Ok(())
}

/// Any number of statements, and the brace behind them.
#[cycle(statement)]
pub fn statements<'a>(
    alloc: Global,
    words: &'a [Word],
    depth_left: u32,
) -> Result<(Vec<Stmt>, &'a [Word]), Refusal<'a>>
    ensures { Agrees (λ v. Pair (stmts_tree v.items) (symbol_leaf sym.CloseBrace)) result
        (both (stmts_at depth_left) (word (symbol sym.CloseBrace)) words.now) }
{
    let mut found = Vec::new(alloc);
    let mut rest = words;
    loop {
        if let Some(end) = after(rest, Symbol::CloseBrace) {
            return Ok((found, end));
        }
        let (stmt, next) = statement(alloc, rest, depth_left)?;
        put(&mut found, stmt)?;
        rest = next;
    }
}

// By the words after `if`.
#[cycle(statement)]
fn if_stmt<'a>(
    alloc: Global,
    words: &'a [Word],
    next: &'a [Word],
    depth_left: u32,
) -> Result<(Box<Stmt>, &'a [Word]), Refusal<'a>>
    requires { words.now ≡ Word.Symbol sym.If ∷ next.now }
    ensures { Agrees boxed_tree result (stmt_at depth_left words.now) }
{
    let (condition, rest) = expression(alloc, next, depth_left)?;
    let (branches, rest) = read_branches(alloc, rest, depth_left)?;
    made(alloc, chosen(condition, branches), rest)
}

// What stands behind the condition of an `if`.
#[cycle(statement)]
fn read_branches<'a>(
    alloc: Global,
    words: &'a [Word],
    depth_left: u32,
) -> Result<(Branches, &'a [Word]), Refusal<'a>>
    ensures { Agrees branches_tree result (branches_at depth_left words.now) }
{
    let inside = expect(words, Symbol::Then)?;
    let below = level_below(words, depth_left)?;
    let (first, rest) = statement(alloc, inside, below)?;
    let (second, rest) = second_branch(alloc, rest, below)?;
    Ok((Branches { first, second }, rest))
}

// The branch behind `else`, if any; `below` is how many more levels may be opened in it.
#[cycle(statement)]
fn second_branch<'a>(
    alloc: Global,
    words: &'a [Word],
    below: u32,
) -> Result<(Option<Box<Stmt>>, &'a [Word]), Refusal<'a>>
    ensures { Agrees second_tree result (else_at (below + 1) words.now) }
{
    match after(words, Symbol::Else) {
        None => Ok((None, words)),
        Some(inside) => {
            let (second, rest) = statement(alloc, inside, below)?;
            Ok((Some(second), rest))
        }
    }
}

fn chosen(condition: Expr, branches: Branches) -> Stmt
    ensures { stmt_tree result ≡ chosen_tree condition (branches_tree branches) }
{
    let Branches { first, second } = branches;
    match second {
        None => Stmt::If(condition, first),
        Some(second) => Stmt::IfElse(condition, first, second),
    }
}

// By the words after `for`.
#[cycle(statement)]
fn for_stmt<'a>(
    alloc: Global,
    words: &'a [Word],
    at: usize,
    next: &'a [Word],
    depth_left: u32,
) -> Result<(Box<Stmt>, &'a [Word]), Refusal<'a>>
    requires { words.now ≡ Word.Placed at sym.For ∷ next.now }
    ensures { Agrees boxed_tree result (stmt_at depth_left words.now) }
{
    let (variable_type, rest) = variable_type(next)?;
    let (name, rest) = expect_name(rest)?;
    let (list, rest) = walked(alloc, rest, depth_left)?;
    let (body, rest) = repeated(alloc, rest, depth_left)?;
    let for_stmt = Stmt::For {
        at,
        variable_type,
        name,
        list,
        body,
    };
    made(alloc, for_stmt, rest)
}

// The word `in`, and the list that a `for` walks.
fn walked<'a>(
    alloc: Global,
    words: &'a [Word],
    depth_left: u32,
) -> Result<(Expr, &'a [Word]), Refusal<'a>>
    ensures { Agrees (λ e. Pair (symbol_leaf sym.In) (derivations e).expr) result
        (both (word (symbol sym.In)) (expr_at depth_left) words.now) }
{
    let inside = expect(words, Symbol::In)?;
    expression(alloc, inside, depth_left)
}

// The word `do`, and what is done for each element.
#[cycle(statement)]
fn repeated<'a>(
    alloc: Global,
    words: &'a [Word],
    depth_left: u32,
) -> Result<(Box<Stmt>, &'a [Word]), Refusal<'a>>
    ensures { Agrees (λ s. Deeper (Word.Symbol sym.Do) (boxed_tree s)) result
        (run_at depth_left words.now) }
{
    let inside = expect(words, Symbol::Do)?;
    let below = level_below(words, depth_left)?;
    statement(alloc, inside, below)
}

// By the words after `case`.
#[cycle(statement)]
fn case_stmt<'a>(
    alloc: Global,
    words: &'a [Word],
    at: usize,
    next: &'a [Word],
    depth_left: u32,
) -> Result<(Box<Stmt>, &'a [Word]), Refusal<'a>>
    requires { words.now ≡ Word.Placed at sym.Case ∷ next.now }
    ensures { Agrees boxed_tree result (stmt_at depth_left words.now) }
{
    let (value, rest) = expression(alloc, next, depth_left)?;
    let ((arms, otherwise), rest) = braced(alloc, rest, depth_left)?;
    let case_stmt = Stmt::Case {
        at,
        value,
        arms,
        otherwise,
    };
    made(alloc, case_stmt, rest)
}

// The braces of a `case`, and what stands between them.
#[cycle(statement)]
fn braced<'a>(
    alloc: Global,
    words: &'a [Word],
    depth_left: u32,
) -> Result<((Vec<Arm<Stmt>>, Option<Vec<Stmt>>), &'a [Word]), Refusal<'a>>
    ensures { Agrees (λ found. arms_view found.0.items found.1) result
        (braced_at depth_left words.now) }
{
    let inside = expect(words, Symbol::OpenBrace)?;
    let below = level_below(words, depth_left)?;
    arms(alloc, inside, below)
}

// What stands between the braces of a `case`, and the closing brace.
#[cycle(statement)]
fn arms<'a>(
    alloc: Global,
    words: &'a [Word],
    depth_left: u32,
) -> Result<((Vec<Arm<Stmt>>, Option<Vec<Stmt>>), &'a [Word]), Refusal<'a>>
    ensures { Agrees (λ found. arms_view found.0.items found.1) result
        (closed (Word.Symbol sym.OpenBrace) (arms_at depth_left) sym.CloseBrace words.now) }
{
    let mut found = Vec::new(alloc);
    let mut rest = words;
    while !is_behind_arms(rest) {
        let (arm, next) = arm(alloc, rest, depth_left)?;
        push_tight(&mut found, arm)?;
        rest = next;
    }
    let (otherwise, rest) = otherwise(alloc, rest, depth_left)?;
    Ok(((found, otherwise), rest))
}

// An arm: its labels, and its statements.
#[cycle(statement)]
fn arm<'a>(
    alloc: Global,
    words: &'a [Word],
    depth_left: u32,
) -> Result<(Arm<Stmt>, &'a [Word]), Refusal<'a>>
    ensures { ArmGives result depth_left words.now }
{
    let (labels, rest) = label(alloc, words, depth_left)?;
    let (body, rest) = arm_body(alloc, rest, depth_left)?;
    Ok((Arm { labels, body }, rest))
}

// The statements of an arm, up to the next label, `else:` or brace.
#[cycle(statement)]
fn arm_body<'a>(
    alloc: Global,
    words: &'a [Word],
    depth_left: u32,
) -> Result<(Vec<Stmt>, &'a [Word]), Refusal<'a>>
    ensures { BodyGives result depth_left words.now }
{
    let mut body = Vec::new(alloc);
    let mut rest = words;
    while !is_behind_arm(rest) {
        let (stmt, next) = statement(alloc, rest, depth_left)?;
        put(&mut body, stmt)?;
        rest = next;
    }
    Ok((body, rest))
}

// What stands behind the arms: the statements of `else:`, if any, and the closing brace.
#[cycle(statement)]
fn otherwise<'a>(
    alloc: Global,
    words: &'a [Word],
    depth_left: u32,
) -> Result<(Option<Vec<Stmt>>, &'a [Word]), Refusal<'a>>
    ensures { OtherwiseGives result depth_left words.now }
{
    match after(words, Symbol::ElseColon) {
        Some(inside) => {
            let (statements, rest) = statements(alloc, inside, depth_left)?;
            Ok((Some(statements), rest))
        }
        None => {
            let rest = expect(words, Symbol::CloseBrace)?;
            Ok((None, rest))
        }
    }
}

/// The longest block.
pub fn whole_block<'a>(
    alloc: Global,
    words: &'a [Word],
    depth_left: u32,
) -> Result<(Block, &'a [Word]), Refusal<'a>>
    ensures { Agrees block_view result (block_at depth_left words.now) }
{
    let inside = expect(words, Symbol::OpenBrace)?;
    let below = level_below(words, depth_left)?;
    let (statements, rest) = statements(alloc, inside, below)?;
    Ok((Block { statements }, rest))
}

// Whether the arms of a `case` end here.
fn is_behind_arms(words: &[Word]) -> bool
    ensures { result ≡ arms_over words.now }
{
    matches!(
        words,
        [Word::Symbol(Symbol::ElseColon | Symbol::CloseBrace), ..]
    )
}

// Whether an arm of a `case` ends here.
fn is_behind_arm(words: &[Word]) -> bool
    ensures { result ≡ arm_ends words.now }
{
    begins_label(words) || is_behind_arms(words)
}

// Whether a label comes next. A name begins one where no statement goes on behind it.
fn begins_label(words: &[Word]) -> bool
    ensures { result ≡ label_next words.now }
{
    match next(words) {
        Some((word, rest)) => match word {
            Word::Name { .. } => goes_on_as_label(rest),
            _ => begins_item(words),
        },
        None => false,
    }
}

fn goes_on_as_label(words: &[Word]) -> bool
    ensures { result ≡ begins is_behind_name words.now }
{
    matches!(
        words,
        [
            Word::Symbol(Symbol::Comma | Symbol::Colon | Symbol::Range),
            ..
        ]
    )
}

// Whether an item comes next that no name begins.
fn begins_item(words: &[Word]) -> bool
    ensures { result ≡ begins is_item words.now }
{
    matches!(
        words,
        [
            Word::Number { .. }
                | Word::Prefix { .. }
                | Word::Placed {
                    symbol: Symbol::OpenParenthesis,
                    ..
                },
            ..
        ]
    )
}
