// What limits a channel's routes and whose address they are sent with.

ghost use Rattle.conf_lex.specs.Reading.{word};
ghost use Rattle.conf_lex.specs.Leaves.{symbol_leaf};
ghost use Rattle.conf_lex.specs.Agrees.{Agrees};
ghost use Rattle.conf_syntax.specs.Syntax.{is_action, is_hop};
ghost use Rattle.conf_syntax.specs.View.{maybe, action_tree};
ghost use Rattle.conf_syntax.specs.View.{limit_tree, hop_symbol};
ghost use Rattle.conf_syntax.specs.View.{action_symbol};
ghost use Rattle.conf_syntax.specs.Readers.{action_at, limit_value_at};

use conf_ast::configurations::{Action, Limit, NextHop};
use conf_lex::parsing::after;
use conf_lex::{Refusal, Symbol, Word};
use expr_syntax::parts::num;

fn expect_action(words: &[Word]) -> Result<(Action, &[Word]), Refusal>
    ensures { Agrees (λ a. symbol_leaf (action_symbol a)) result (word is_action words.now) }
{
    match words {
        [Word::Symbol(Symbol::Warn), rest @ ..] => Ok((Action::Warn, rest)),
        [Word::Symbol(Symbol::Block), rest @ ..] => Ok((Action::Block, rest)),
        [Word::Symbol(Symbol::Disable), rest @ ..] => Ok((Action::Disable, rest)),
        _ => Err(Refusal::Bad(words)),
    }
}

// An action, if one comes next.
#[tactic(auto, unfolding(crate::specs::Readers::action_at))]
fn optional_action(words: &[Word]) -> Result<(Option<Action>, &[Word]), Refusal>
    ensures { Agrees (maybe action_tree) result (action_at 0 words.now) }
{
    match after(words, Symbol::Action) {
        Some(rest) => {
            let (action, rest) = expect_action(rest)?;
            Ok((Some(action), rest))
        }
        None => Ok((None, words)),
    }
}

/// By the words after `limit`.
#[tactic(auto, unfolding(crate::specs::Readers::limit_value_at, crate::specs::Readers::action_at))]
pub fn limit_value(words: &[Word]) -> Result<(Limit, &[Word]), Refusal>
    ensures { Agrees limit_tree result (limit_value_at 0 words.now) }
{
    match after(words, Symbol::Off) {
        Some(rest) => Ok((Limit::Off, rest)),
        None => {
            let (count, rest) = num(words)?;
            let (action, rest) = optional_action(rest)?;
            Ok((Limit::Count { count, action }, rest))
        }
    }
}

/// The word behind `next hop`.
pub fn expect_hop(words: &[Word]) -> Result<(NextHop, &[Word]), Refusal>
    ensures { Agrees (λ h. symbol_leaf (hop_symbol h)) result (word is_hop words.now) }
{
    match words {
        [Word::Symbol(Symbol::SelfWord), rest @ ..] => Ok((NextHop::Own, rest)),
        [Word::Symbol(Symbol::Keep), rest @ ..] => Ok((NextHop::Keep, rest)),
        _ => Err(Refusal::Bad(words)),
    }
}
