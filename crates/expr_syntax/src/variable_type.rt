// Types of variables.

ghost use Rattle.std.specs.Prelude.{◌≡◌};
ghost use Rattle.conf_lex.specs.declared.word.Word.{Word};
ghost use Rattle.conf_lex.specs.Grammar.{Left};
ghost use Rattle.conf_lex.specs.Reading.{Parsed, and_then, word};
ghost use Rattle.conf_lex.specs.Agrees.{Agrees, NeverMemory};
ghost use Rattle.expr_syntax.specs.Finds.{Finds};
ghost use Rattle.expr_syntax.specs.Syntax.{has_sets, has_no_sets};
ghost use Rattle.expr_syntax.specs.Types.{type_tree, member_symbol, member_type, set_type};
ghost use Rattle.expr_syntax.specs.Readers.{vtype_at};

use conf_ast::filters::VariableType;
use conf_lex::parsing::after;
use conf_lex::{Refusal, Symbol, Word};

/// A type of which there are sets.
#[derive(Clone, Copy)]
pub enum Member {
    Int,
    Pair,
    Prefix,
}

/// A type of variables.
pub fn variable_type(words: &[Word]) -> Result<(VariableType, &[Word]), Refusal>
    ensures gives { Agrees type_tree result (vtype_at 0 words.now) }
    ensures takes_none { NeverMemory result }
{
    match next_member(words) {
        Some((member, rest)) => match after(rest, Symbol::Set) {
            Some(rest) => Ok((set_of(member), rest)),
            None => Ok((type_of(member), rest)),
        },
        None => other_type(words),
    }
}

fn next_member(words: &[Word]) -> Option<(Member, &[Word])>
    ensures { Finds has_sets (λ m. Word.Symbol (member_symbol m)) result words.now }
{
    if let Some(rest) = after(words, Symbol::Int) {
        return Some((Member::Int, rest));
    }
    if let Some(rest) = after(words, Symbol::Pair) {
        return Some((Member::Pair, rest));
    }
    match after(words, Symbol::Prefix) {
        Some(rest) => Some((Member::Prefix, rest)),
        None => None,
    }
}

fn set_of(member: Member) -> VariableType
    ensures { type_tree result ≡ set_type (member_symbol member) }
{
    match member {
        Member::Int => VariableType::IntSet,
        Member::Pair => VariableType::PairSet,
        Member::Prefix => VariableType::PrefixSet,
    }
}

fn type_of(member: Member) -> VariableType
    ensures { type_tree result ≡ member_type (member_symbol member) }
{
    match member {
        Member::Int => VariableType::Int,
        Member::Pair => VariableType::Pair,
        Member::Prefix => VariableType::Prefix,
    }
}

// A type of which there are no sets.
fn other_type(words: &[Word]) -> Result<(VariableType, &[Word]), Refusal>
    ensures gives { Agrees type_tree result
        (and_then (word has_no_sets words.now) (λ t rest. Parsed (Left t) rest)) }
    ensures takes_none { NeverMemory result }
{
    match words {
        [Word::Symbol(Symbol::Bool), rest @ ..] => Ok((VariableType::Bool, rest)),
        [Word::Symbol(Symbol::Ip), rest @ ..] => Ok((VariableType::Ip, rest)),
        [Word::Symbol(Symbol::String), rest @ ..] => Ok((VariableType::String, rest)),
        [Word::Symbol(Symbol::PathType), rest @ ..] => Ok((VariableType::Path, rest)),
        [Word::Symbol(Symbol::MaskType), rest @ ..] => Ok((VariableType::Mask, rest)),
        [Word::Symbol(Symbol::Clist), rest @ ..] => Ok((VariableType::Clist, rest)),
        _ => Err(Refusal::Bad(words)),
    }
}
