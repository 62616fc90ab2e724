// Functions. `depth_left` is how many more levels may be opened.

ghost use Rattle.std.specs.Prelude.{◌≡◌, IfOk};
ghost use Rattle.conf_lex.specs.declared.symbol.Symbol.TheVariants as sym;
ghost use Rattle.conf_lex.specs.declared.word.Word.{Word};
ghost use Rattle.conf_lex.specs.Grammar.{Pair};
ghost use Rattle.conf_lex.specs.Reading.{both, word};
ghost use Rattle.conf_lex.specs.Kind.{symbol, name};
ghost use Rattle.conf_lex.specs.Leaves.{symbol_leaf};
ghost use Rattle.conf_lex.specs.Agrees.{Agrees};
ghost use Rattle.expr_syntax.specs.Finds.{Finds};
ghost use Rattle.expr_syntax.specs.Rows.{nth};
ghost use Rattle.conf_syntax.specs.Syntax.{is_separator};
ghost use Rattle.conf_tree.specs.View.{parameter_tree, parameters_tree, separator_symbol};
ghost use Rattle.conf_syntax.specs.View.{maybe};
ghost use Rattle.conf_tree.specs.View.{gives_tree, statement_tree};
ghost use Rattle.conf_tree.specs.Readers.{parameter_at, some_parameters_at, parameters_at};
ghost use Rattle.conf_tree.specs.Readers.{gives_at, signature_at};
ghost use Rattle.conf_syntax.specs.Readers.{seen_as};

use conf_ast::configurations::Statement;
use conf_ast::filters::{Function, Parameter, Separator, VariableType};
use conf_lex::parsing::{after, expect, expect_name, expect_placed};
use conf_lex::{Refusal, Symbol, Word, push_tight};
use expr_syntax::parts::variable_type;
use filt_syntax::parts::whole_block;
use std::alloc::Global;

#[tactic(auto, unfolding(crate::specs::Readers::parameter_at, expr_syntax::specs::Readers::vtype_at))]
fn parameter<'a>(
    separator: Option<Separator>,
    words: &'a [Word],
) -> Result<(Parameter, &'a [Word]), Refusal<'a>>
    ensures tree { Agrees parameter_tree result (parameter_at 0 words.now) }
    ensures separator { IfOk result (λ found. found.0.separator ≡ separator) }
{
    let (variable_type, rest) = variable_type(words)?;
    let (name, rest) = expect_name(rest)?;
    let parameter = Parameter {
        separator,
        variable_type,
        name,
    };
    Ok((parameter, rest))
}

fn next_separator(words: &[Word]) -> Option<(Separator, &[Word])>
    ensures { Finds is_separator (λ s. Word.Symbol (separator_symbol s)) result words.now }
{
    if let Some(rest) = after(words, Symbol::Semicolon) {
        return Some((Separator::Semicolon, rest));
    }
    match after(words, Symbol::Comma) {
        Some(rest) => Some((Separator::Comma, rest)),
        None => None,
    }
}

// One or more parameters.
fn some_parameters<'a>(
    alloc: Global,
    words: &'a [Word],
) -> Result<(Vec<Parameter>, &'a [Word]), Refusal<'a>>
    ensures { Agrees (λ v. parameters_tree v.items) result (some_parameters_at 0 words.now) }
{
    let mut parameters = Vec::new(alloc);
    let (first, mut rest) = parameter(None, words)?;
    push_tight(&mut parameters, first)?;
    while let Some((separator, next)) = next_separator(rest) {
        let (more, end) = parameter(Some(separator), next)?;
        push_tight(&mut parameters, more)?;
        rest = end;
    }
    Ok((parameters, rest))
}

// Parameters between parentheses, by the words after the opening one.
fn parameters<'a>(
    alloc: Global,
    words: &'a [Word],
) -> Result<(Vec<Parameter>, &'a [Word]), Refusal<'a>>
    ensures { Agrees (λ v. Pair (parameters_tree v.items) (symbol_leaf sym.CloseParenthesis)) result
        (both (parameters_at 0) (word (symbol sym.CloseParenthesis)) words.now) }
{
    match after(words, Symbol::CloseParenthesis) {
        Some(rest) => Ok((Vec::new(alloc), rest)),
        None => {
            let (parameters, rest) = some_parameters(alloc, words)?;
            let rest = expect(rest, Symbol::CloseParenthesis)?;
            Ok((parameters, rest))
        }
    }
}

// The type of what a function gives, if one comes next.
#[tactic(auto, unfolding(crate::specs::Readers::gives_at, expr_syntax::specs::Readers::vtype_at))]
fn optional_type(words: &[Word]) -> Result<(Option<VariableType>, &[Word]), Refusal>
    ensures { Agrees (maybe gives_tree) result (gives_at 0 words.now) }
{
    match after(words, Symbol::Arrow) {
        Some(rest) => {
            let (gives, rest) = variable_type(rest)?;
            Ok((Some(gives), rest))
        }
        None => Ok((None, words)),
    }
}

/// By the words after `function`.
pub fn function<'a>(
    alloc: Global,
    words: &'a [Word],
    depth_left: u32,
) -> Result<(Statement, &'a [Word]), Refusal<'a>>
    ensures { Agrees statement_tree result
        (seen_as (both (word name) (both (word (symbol sym.OpenParenthesis))
        (signature_at depth_left)))
        (λ t. nth 4 (Pair (symbol_leaf sym.Function) t)) words.now) }
{
    let (name, rest) = expect_name(words)?;
    let (open, rest) = expect_placed(rest, Symbol::OpenParenthesis)?;
    let (parameters, rest) = parameters(alloc, rest)?;
    let (gives, rest) = optional_type(rest)?;
    let (block, rest) = whole_block(alloc, rest, depth_left)?;
    let function = Function {
        name,
        open,
        parameters,
        gives,
        block,
    };
    Ok((Statement::Function(function), rest))
}
