// Statements that hold no other statement. Each function answers a statement and the words after
// it; `depth_left` is how many more levels may be opened.

ghost use Rattle.std.specs.Prelude.{◌≡◌, ◌∷◌, false};
ghost use Rattle.conf_lex.specs.declared.symbol.Symbol.TheVariants as sym;
ghost use Rattle.conf_lex.specs.declared.word.Word.{Word};
ghost use Rattle.conf_lex.specs.Kind.{symbol, name as is_name};
ghost use Rattle.conf_lex.specs.Grammar.{Pair, begins};
ghost use Rattle.conf_lex.specs.Reading.{Read, Parsed, word, both};
ghost use Rattle.conf_lex.specs.Agrees.{Agrees};
ghost use Rattle.expr_syntax.specs.View.{expr_trees, listed_tree};
ghost use Rattle.expr_syntax.specs.Readers.{expr_at};
ghost use Rattle.filt_syntax.specs.StatementView.{stmt_tree, ended, change_tree};
ghost use Rattle.filt_syntax.specs.Inside.{boxed_tree};
ghost use Rattle.filt_syntax.specs.StatementView.{initial_tree};
ghost use Rattle.expr_syntax.specs.Rows.{semicolon_leaf};
ghost use Rattle.filt_syntax.specs.StatementReaders.{stmt_at, of_name_at, change_at};
ghost use Rattle.filt_syntax.specs.StatementReaders.{declaration_at, initial_at, exprs_at};

use conf_ast::Name;
use conf_ast::filters::{Attribute, Change, Expr, Stmt, Target};
use conf_lex::parsing::{after, after_placed, expect, expect_name};
use conf_lex::{Refusal, Symbol, Word, push_tight};
use expr_syntax::parts::{
    arguments, expression, method, next_attribute, of_attribute, variable_type,
};
use std::alloc::Global;

/// A statement in a box, and the words after it.
pub fn made<'a>(
    alloc: Global,
    stmt: Stmt,
    rest: &'a [Word],
) -> Result<(Box<Stmt>, &'a [Word]), Refusal<'a>>
    ensures { (read : Read) → read ≡ Parsed (stmt_tree stmt) rest.now
        → Agrees boxed_tree result read }
{
    let boxed = Box::new(alloc, stmt)?;
    Ok((boxed, rest))
}

// An expression and a semicolon.
fn value_end<'a>(
    alloc: Global,
    words: &'a [Word],
    depth_left: u32,
) -> Result<(Expr, &'a [Word]), Refusal<'a>>
    ensures { Agrees ended result (both (expr_at depth_left)
        (word (symbol sym.Semicolon)) words.now) }
{
    let (value, rest) = expression(alloc, words, depth_left)?;
    let rest = expect(rest, Symbol::Semicolon)?;
    Ok((value, rest))
}

// What stands behind the dot of a statement.
fn change<'a>(
    alloc: Global,
    words: &'a [Word],
    depth_left: u32,
) -> Result<(Change, &'a [Word]), Refusal<'a>>
    ensures { Agrees (λ c. Pair (change_tree c) semicolon_leaf) result
        (change_at depth_left words.now) }
{
    if let Some(end) = after(words, Symbol::Empty) {
        let rest = expect(end, Symbol::Semicolon)?;
        return Ok((Change::Empty, rest));
    }
    let ((method, argument, open), end) = method(alloc, words, depth_left)?;
    let rest = expect(end, Symbol::Semicolon)?;
    let change = Change::Method {
        method,
        open,
        argument,
    };
    Ok((change, rest))
}

/// A statement that a name begins, by the words after it.
pub fn done_to_name<'a>(
    alloc: Global,
    name: Name,
    words: &'a [Word],
    depth_left: u32,
) -> Result<(Box<Stmt>, &'a [Word]), Refusal<'a>>
    ensures { Agrees boxed_tree result (of_name_at depth_left name words.now) }
{
    if let Some(next) = after(words, Symbol::Equal) {
        let (value, rest) = value_end(alloc, next, depth_left)?;
        return made(alloc, Stmt::Assign(Target::Name(name), value), rest);
    }
    match after(words, Symbol::Dot) {
        Some(next) => {
            let (change, rest) = change(alloc, next, depth_left)?;
            made(alloc, Stmt::Change(Target::Name(name), change), rest)
        }
        None => call(alloc, name, words, depth_left),
    }
}

// A call, by the words after its name, where no other statement goes on.
fn call<'a>(
    alloc: Global,
    name: Name,
    words: &'a [Word],
    depth_left: u32,
) -> Result<(Box<Stmt>, &'a [Word]), Refusal<'a>>
    requires equal { begins (symbol sym.Equal) words.now ≡ false }
    requires dot { begins (symbol sym.Dot) words.now ≡ false }
    ensures { Agrees boxed_tree result (of_name_at depth_left name words.now) }
{
    let ((arguments, open), end) = arguments(alloc, words, depth_left)?;
    let rest = expect(end, Symbol::Semicolon)?;
    let called = Stmt::Call {
        name,
        open,
        arguments,
    };
    made(alloc, called, rest)
}

// A statement that an attribute begins, by the words after it.
fn done_to_attribute<'a>(
    alloc: Global,
    words: &'a [Word],
    at: usize,
    attribute: Attribute,
    behind: &'a [Word],
    depth_left: u32,
) -> Result<(Box<Stmt>, &'a [Word]), Refusal<'a>>
    requires { words.now ≡ Word.Attribute at attribute ∷ behind.now }
    ensures { Agrees boxed_tree result (stmt_at depth_left words.now) }
{
    let target = Target::Attribute { at, attribute };
    if let Some(next) = after(behind, Symbol::Equal) {
        let (value, rest) = value_end(alloc, next, depth_left)?;
        return made(alloc, Stmt::Assign(target, value), rest);
    }
    let next = expect(behind, Symbol::Dot)?;
    let (change, rest) = change(alloc, next, depth_left)?;
    made(alloc, Stmt::Change(target, change), rest)
}

// The first value of a variable, if any.
fn initial<'a>(
    alloc: Global,
    words: &'a [Word],
    depth_left: u32,
) -> Result<(Option<Expr>, &'a [Word]), Refusal<'a>>
    ensures { Agrees initial_tree result (initial_at depth_left words.now) }
{
    match after(words, Symbol::Equal) {
        None => Ok((None, words)),
        Some(next) => {
            let (value, rest) = expression(alloc, next, depth_left)?;
            Ok((Some(value), rest))
        }
    }
}

// The first value of a variable, if any, and the semicolon.
fn initial_end<'a>(
    alloc: Global,
    words: &'a [Word],
    depth_left: u32,
) -> Result<(Option<Expr>, &'a [Word]), Refusal<'a>>
    ensures { Agrees (λ v. Pair (initial_tree v) semicolon_leaf) result
        (both (initial_at depth_left) (word (symbol sym.Semicolon)) words.now) }
{
    let (value, rest) = initial(alloc, words, depth_left)?;
    let rest = expect(rest, Symbol::Semicolon)?;
    Ok((value, rest))
}

fn declaration<'a>(
    alloc: Global,
    words: &'a [Word],
    depth_left: u32,
) -> Result<(Box<Stmt>, &'a [Word]), Refusal<'a>>
    ensures { Agrees boxed_tree result (declaration_at depth_left words.now) }
{
    let (variable_type, rest) = variable_type(words)?;
    let (name, rest) = expect_name(rest)?;
    let (value, rest) = initial_end(alloc, rest, depth_left)?;
    let declared = Stmt::Declare {
        variable_type,
        name,
        value,
    };
    made(alloc, declared, rest)
}

// By the words after `unset`.
fn unset<'a>(
    alloc: Global,
    words: &'a [Word],
    next: &'a [Word],
    depth_left: u32,
) -> Result<(Box<Stmt>, &'a [Word]), Refusal<'a>>
    requires { words.now ≡ Word.Symbol sym.Unset ∷ next.now }
    ensures { Agrees boxed_tree result (stmt_at depth_left words.now) }
{
    let ((attribute_at, attribute, open), end) = of_attribute(next, depth_left)?;
    let rest = expect(end, Symbol::Semicolon)?;
    let unset = Stmt::Unset {
        open,
        attribute_at,
        attribute,
    };
    made(alloc, unset, rest)
}

// By the words after `return`. A semicolon begins no expression.
fn return_stmt<'a>(
    alloc: Global,
    words: &'a [Word],
    at: usize,
    next: &'a [Word],
    depth_left: u32,
) -> Result<(Box<Stmt>, &'a [Word]), Refusal<'a>>
    requires { words.now ≡ Word.Placed at sym.Return ∷ next.now }
    ensures { Agrees boxed_tree result (stmt_at depth_left words.now) }
{
    if let Some(rest) = after(next, Symbol::Semicolon) {
        return made(alloc, Stmt::Return { at, value: None }, rest);
    }
    let (value, rest) = value_end(alloc, next, depth_left)?;
    let return_stmt = Stmt::Return {
        at,
        value: Some(value),
    };
    made(alloc, return_stmt, rest)
}

// One or more expressions, between commas.
fn expressions<'a>(
    alloc: Global,
    words: &'a [Word],
    depth_left: u32,
) -> Result<(Vec<Expr>, &'a [Word]), Refusal<'a>>
    ensures { Agrees (λ v. listed_tree (expr_trees v.items)) result
        (exprs_at depth_left words.now) }
{
    let mut found = Vec::new(alloc);
    let (first, mut rest) = expression(alloc, words, depth_left)?;
    push_tight(&mut found, first)?;
    while let Some(next) = after(rest, Symbol::Comma) {
        let (more, end) = expression(alloc, next, depth_left)?;
        push_tight(&mut found, more)?;
        rest = end;
    }
    Ok((found, rest))
}

// What is printed, and a semicolon.
fn print_stmt<'a>(
    alloc: Global,
    words: &'a [Word],
    depth_left: u32,
) -> Result<(Vec<Expr>, &'a [Word]), Refusal<'a>>
    ensures { Agrees (λ v. Pair (listed_tree (expr_trees v.items)) semicolon_leaf) result
        (both (exprs_at depth_left) (word (symbol sym.Semicolon)) words.now) }
{
    let (values, end) = expressions(alloc, words, depth_left)?;
    let rest = expect(end, Symbol::Semicolon)?;
    Ok((values, rest))
}

// By the words after `print`.
fn print<'a>(
    alloc: Global,
    words: &'a [Word],
    next: &'a [Word],
    depth_left: u32,
) -> Result<(Box<Stmt>, &'a [Word]), Refusal<'a>>
    requires { words.now ≡ Word.Symbol sym.Print ∷ next.now }
    ensures { Agrees boxed_tree result (stmt_at depth_left words.now) }
{
    let (values, rest) = print_stmt(alloc, next, depth_left)?;
    made(alloc, Stmt::Print(values), rest)
}

// By the words after `printn`.
fn printn<'a>(
    alloc: Global,
    words: &'a [Word],
    next: &'a [Word],
    depth_left: u32,
) -> Result<(Box<Stmt>, &'a [Word]), Refusal<'a>>
    requires { words.now ≡ Word.Symbol sym.Printn ∷ next.now }
    ensures { Agrees boxed_tree result (stmt_at depth_left words.now) }
{
    let (values, rest) = print_stmt(alloc, next, depth_left)?;
    made(alloc, Stmt::Printn(values), rest)
}

// By the words after `accept`.
fn accept<'a>(
    alloc: Global,
    words: &'a [Word],
    next: &'a [Word],
    depth_left: u32,
) -> Result<(Box<Stmt>, &'a [Word]), Refusal<'a>>
    requires { words.now ≡ Word.Symbol sym.Accept ∷ next.now }
    ensures { Agrees boxed_tree result (stmt_at depth_left words.now) }
{
    let rest = expect(next, Symbol::Semicolon)?;
    made(alloc, Stmt::Accept, rest)
}

// By the words after `reject`.
fn reject<'a>(
    alloc: Global,
    words: &'a [Word],
    next: &'a [Word],
    depth_left: u32,
) -> Result<(Box<Stmt>, &'a [Word]), Refusal<'a>>
    requires { words.now ≡ Word.Symbol sym.Reject ∷ next.now }
    ensures { Agrees boxed_tree result (stmt_at depth_left words.now) }
{
    let rest = expect(next, Symbol::Semicolon)?;
    made(alloc, Stmt::Reject, rest)
}

/// A statement that holds no other, by its first word.
pub fn simple_statement<'a>(
    alloc: Global,
    words: &'a [Word],
    depth_left: u32,
) -> Result<(Box<Stmt>, &'a [Word]), Refusal<'a>>
    requires name { begins is_name words.now ≡ false }
    requires block { begins (symbol sym.OpenBrace) words.now ≡ false }
    requires if_stmt { begins (symbol sym.If) words.now ≡ false }
    requires case_stmt { begins (symbol sym.Case) words.now ≡ false }
    requires loop_ { begins (symbol sym.For) words.now ≡ false }
    ensures { Agrees boxed_tree result (stmt_at depth_left words.now) }
{
    if let Some(((at, attribute), next)) = next_attribute(words) {
        return done_to_attribute(alloc, words, at, attribute, next, depth_left);
    }
    if let Some(rest) = after(words, Symbol::Semicolon) {
        return made(alloc, Stmt::Empty, rest);
    }
    if let Some(next) = after(words, Symbol::Unset) {
        return unset(alloc, words, next, depth_left);
    }
    if let Some((at, next)) = after_placed(words, Symbol::Return) {
        return return_stmt(alloc, words, at, next, depth_left);
    }
    if let Some(next) = after(words, Symbol::Print) {
        return print(alloc, words, next, depth_left);
    }
    if let Some(next) = after(words, Symbol::Printn) {
        return printn(alloc, words, next, depth_left);
    }
    if let Some(next) = after(words, Symbol::Accept) {
        return accept(alloc, words, next, depth_left);
    }
    match after(words, Symbol::Reject) {
        Some(next) => reject(alloc, words, next, depth_left),
        None => declaration(alloc, words, depth_left),
    }
}
