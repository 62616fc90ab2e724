// The statements of a configuration.

ghost use Rattle.conf_lex.specs.Agrees.{Agrees};
ghost use Rattle.conf_tree.specs.View.{statements_tree};
ghost use Rattle.conf_tree.specs.Readers.{whole_at, EndsInLast};

use crate::statement::statement;
use conf_ast::configurations::Statement;
use conf_lex::{Refusal, Word};
use std::alloc::Global;

/// The statements to the end of the words; `depth_left` is how many levels may be opened in a block
/// or an expression. `unread` is told how many words are left from the last statement on that was
/// begun: where it is refused, those before it have no part in why.
pub fn config<'a>(
    alloc: Global,
    words: &'a [Word],
    depth_left: u32,
    unread: &mut usize,
) -> Result<(Vec<Statement>, &'a [Word]), Refusal<'a>>
    ensures read { Agrees (λ found. statements_tree found.items) result
        (whole_at depth_left words.now) }
    ensures last { EndsInLast depth_left words.now unread.new }
{
    let mut statements = Vec::new(alloc);
    let mut rest = words;
    *unread = rest.len();
    while !rest.is_empty() {
        let (statement, end) = statement(alloc, rest, depth_left)?;
        statements.push(statement)?;
        rest = end;
        *unread = rest.len();
    }
    Ok((statements, rest))
}
