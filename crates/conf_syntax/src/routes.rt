// Where a static route leads to.

ghost use Rattle.conf_lex.specs.Agrees.{Agrees};
ghost use Rattle.conf_syntax.specs.View.{target_tree};
ghost use Rattle.conf_syntax.specs.Readers.{route_target_at};

use crate::simple::expect_address;
use conf_ast::configurations::RouteTarget;
use conf_lex::parsing::after;
use conf_lex::{Refusal, Symbol, Word};

/// Where the route leads to, by the words behind its prefix.
#[tactic(auto, unfolding(crate::specs::Readers::route_target_at))]
pub fn route_target(words: &[Word]) -> Result<(RouteTarget, &[Word]), Refusal>
    ensures { Agrees target_tree result (route_target_at 0 words.now) }
{
    if let Some(rest) = after(words, Symbol::Via) {
        let (address, rest) = expect_address(rest)?;
        return Ok((RouteTarget::Via(address), rest));
    }
    if let Some(rest) = after(words, Symbol::Blackhole) {
        return Ok((RouteTarget::Blackhole, rest));
    }
    if let Some(rest) = after(words, Symbol::Unreachable) {
        return Ok((RouteTarget::Unreachable, rest));
    }
    match after(words, Symbol::Prohibit) {
        Some(rest) => Ok((RouteTarget::Prohibit, rest)),
        None => Err(Refusal::Bad(words)),
    }
}
