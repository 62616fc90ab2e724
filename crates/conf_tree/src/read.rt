// The configuration of a text.

ghost use Rattle.std.specs.Prelude.{◌≡◌, ◌<◌, ◌^◌, length, IfOk, IfErr};
ghost use Rattle.conf_lex.specs.Grammar.{ParseTree};
ghost use Rattle.conf_words.specs.Marks.{AreMarks};
ghost use Rattle.conf_words.specs.Significant.{AreWordsOf};
ghost use Rattle.conf_tree.specs.View.{config_view, statements_tree};
ghost use Rattle.conf_tree.specs.Sentence.{IsSentence};
ghost use Rattle.conf_tree.specs.Readers.{IsRefusedAt};
ghost use Rattle.conf_tree.specs.Read.{IsConfigText, IsFault, IsWithin, IsTreeOf, IsFaultOf};
ghost use Rattle.conf_ast.specs.declared.kind.ConfFault.{ConfFault};

use crate::config::config;
use crate::laws::{
    a_text_has_one_refusal, a_text_is_one_configuration, configurations_are_not_refused,
};
use crate::refusal::{deepened, stopped};
use conf_ast::configurations::{Config, Statement};
use conf_ast::{ConfFault, ConfKind};
use conf_lex::parsing::place_in;
use conf_lex::{Refusal, Word};
use conf_scan::LexFault;
use conf_scan::laws::texts_are_refused_within;
use conf_words::{Walked, walked_words};
use filt_syntax::parts::LEVELS;
use std::alloc::Global;

/// Why words are no configuration, and the place of the refused one among them.
#[derive(Clone, Copy, Debug)]
pub enum Refused {
    /// It can't stand there, in the statement that begins in the place `from`.
    Bad { from: usize, at: usize },
    /// It opens the 65th level.
    TooDeep { at: usize },
    Memory,
}

// The statements of these words, or their refusal.
fn statements_of(alloc: Global, words: &[Word]) -> Result<Vec<Statement>, Refused>
    ensures tree { IfOk result (λ statements.
        IsSentence words.now (statements_tree statements.items)) }
    ensures fault { IfErr result (IsRefusedAt words.now) }
{
    let mut unread = 0;
    match config(alloc, words, LEVELS, &mut unread) {
        Ok((statements, _)) => Ok(statements),
        Err(Refusal::Memory) => Err(Refused::Memory),
        Err(Refusal::Bad(rest)) => Err(Refused::Bad {
            from: words.len() - unread,
            at: place_in(words, rest),
        }),
        Err(Refusal::TooDeep(rest)) => Err(Refused::TooDeep {
            at: place_in(words, rest),
        }),
    }
}

// The configuration of a text with these words, or their refusal.
fn config_of_words<'a>(
    alloc: Global,
    text: &'a [u8],
    walked: &mut Walked,
) -> Result<Config<'a>, ConfFault>
    requires short { length text.now < 2 ^ 32 }
    requires words { AreWordsOf text.now walked.old.words.items }
    requires marks { AreMarks text.now walked.old.marks.items }
    ensures text { IfOk result (λ config. config.text.now ≡ text.now) }
    ensures tree { IfOk result (λ config. IsConfigText text.now (config_view config)) }
    ensures fault { IfErr result (IsFault text.now) }
    ensures within { IfErr result (IsWithin (length text.now)) }
{
    match statements_of(alloc, &walked.words) {
        Ok(statements) => Ok(Config { text, statements }),
        Err(Refused::Bad { from, at }) => Err(stopped(alloc, text, walked, from, at)),
        Err(Refused::TooDeep { at }) => Err(deepened(text, walked, at)),
        Err(Refused::Memory) => Err(ConfFault::Memory),
    }
}

// The configuration of a text, or its refusal.
fn answer<'a>(alloc: Global, text: &'a [u8]) -> Result<Config<'a>, ConfFault>
    requires short { length text.now < 2 ^ 32 }
    ensures text { IfOk result (λ config. config.text.now ≡ text.now) }
    ensures tree { IfOk result (λ config. IsConfigText text.now (config_view config)) }
    ensures fault { IfErr result (IsFault text.now) }
    ensures within { IfErr result (IsWithin (length text.now)) }
{
    texts_are_refused_within();
    match walked_words(alloc, text) {
        Ok(mut walked) => config_of_words(alloc, text, &mut walked),
        Err(LexFault::Bad { at }) => Err(ConfFault::Refused {
            at,
            kind: ConfKind::Lex,
        }),
        Err(LexFault::Memory) => Err(ConfFault::Memory),
    }
}

/// The configuration of a text, or the first byte of the token at which it is refused: for want of
/// a token first, then by the grammar (BIRD User's Guide, "Configuration").
pub fn read_config<'a>(alloc: Global, text: &'a [u8]) -> Result<Config<'a>, ConfFault>
    requires short { length text.now < 2 ^ 32 }
    ensures text { IfOk result (λ config. config.text.now ≡ text.now) }
    ensures tree { IfOk result (λ config. IsConfigText text.now (config_view config)) }
    ensures fault { IfErr result (IsFault text.now) }
    ensures within { IfErr result (IsWithin (length text.now)) }
    ensures only { (t : ParseTree) → IsConfigText text.now t → IsTreeOf result t }
    ensures exact { (e : ConfFault) → IsFault text.now e → IsFaultOf result e }
{
    a_text_is_one_configuration();
    configurations_are_not_refused();
    a_text_has_one_refusal();
    answer(alloc, text)
}
