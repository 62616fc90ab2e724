//! A question read from the words behind `show route`.
ghost use Rattle.std.specs.Prelude.{◌≡◌, MatchOption};
ghost use Rattle.queries.specs.Question.{Asked, IsQuestion};
ghost use Rattle.queries.specs.Seen.{asked, asked_with};
ghost use Rattle.attrs.specs.declared.route.Select.{Select};
ghost use Rattle.queries.specs.Inside.{GoesOn, IsOpen, Ends};

use crate::parts::next_part;
use crate::question::{Options, Question};
use crate::selector::read_selector;
use text::next_word;

/// What is asked by the words of a line behind `show route`, and nothing where they aren't a
/// question: BIRD User's Guide, "Remote control", `show route`, with each option once at most.
///
/// Whether the named table, protocols and filter are there, and whether what stands behind `where`
/// is an expression, isn't judged.
pub fn read_question(rest: &[u8]) -> Option<Question<'_>>
    ensures { MatchOption result
        ((question : Asked) → IsQuestion rest.now question → ⊥)
        (λ question. IsQuestion rest.now (asked question)) }
{
    match read_selector(rest) {
        Some(selected) => {
            let options = read_options(Options::none(), selected.rest)?;
            Some(options.about(selected.pick))
        }
        None => None,
    }
}

/// These options with those at the front of the text, and with the expression behind them.
///
/// An option comes once at most, so no more than eight calls are under way at a time.
fn read_options<'a>(options: Options<'a>, text: &'a [u8]) -> Option<Options<'a>>
    ensures { (pick : Select) → IsOpen (asked_with pick options.entry) → MatchOption result
        ((new : Asked) → GoesOn (asked_with pick options.entry) text.now new → ⊥)
        (λ new. GoesOn (asked_with pick options.entry) text.now (asked_with pick new)) }
{
    match next_part(text) {
        Some((part, rest)) => {
            let options = options.with(part)?;
            read_options(options, rest)
        }
        None => finish(options, text),
    }
}

/// The options with the expression that is left, if there is one.
fn finish<'a>(options: Options<'a>, rest: &'a [u8]) -> Option<Options<'a>>
    ensures { (pick : Select) → MatchOption result
        ((new : Asked) → Ends (asked_with pick options.entry) rest.now new → ⊥)
        (λ new. Ends (asked_with pick options.entry) rest.now (asked_with pick new)) }
{
    let Some((word, behind)) = next_word(rest) else {
        return Some(options);
    };
    if word == b"where".as_slice() {
        options.with_condition(behind)
    } else {
        None
    }
}
