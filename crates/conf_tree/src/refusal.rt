// Why the words of a text are refused, and at which of its bytes.

ghost use Rattle.std.specs.Prelude.{◌≡◌, ◌↔◌, ◌≤◌, ◌<◌, ◌^◌, List, None, Some, length, take};
ghost use Rattle.std.specs.Prelude.{drop, IsTrue, IsSomeAnd, IfOk, OnOk, MatchOption};
ghost use Rattle.conf_scan.specs.Spots.{IsSpot, LexesFrom};
ghost use Rattle.conf_scan.specs.declared.token.Token.{Token};
ghost use Rattle.conf_lex.specs.declared.symbol.Symbol.TheVariants as sym;
ghost use Rattle.conf_lex.specs.Grammar.{begins};
ghost use Rattle.conf_lex.specs.Kind.{symbol};
ghost use Rattle.conf_lex.specs.Sentences.{IsBegunWithin};
ghost use Rattle.expr_syntax.specs.Syntax.{rule};
ghost use Rattle.conf_syntax.specs.Syntax.{config};
ghost use Rattle.conf_words.specs.Marks.{AreMarks};
ghost use Rattle.conf_words.specs.Significant.{AreWordsOf};
ghost use Rattle.conf_tree.specs.Read.{fault_of, IsFault, IsWithin};
ghost use Rattle.conf_tree.specs.Sentence.{word_bytes, IsUnsupported, Refuses};
ghost use Rattle.conf_tree.specs.Readers.{StopsIn, IsTooDeepAt};

use crate::followed::Configurations;
use crate::unsupported::is_unsupported;
use bits_ip::OutOfMemory;
use conf_ast::{ConfFault, ConfKind};
use conf_lex::parsing::is_symbol;
use conf_lex::{Symbol, Word};
use conf_scan::Spot;
use conf_words::{Walked, byte_past, bytes_ahead, mark_before, spot_of};
use filt_syntax::SyntaxFault;
use filt_syntax::parts::{bad_behind, tail, tear_of};
use std::alloc::Global;

// What is told of a refusal at so many tokens behind the one that stands next.
fn told(text: &[u8], spot: Spot, fault: SyntaxFault) -> ConfFault
    requires { IsSpot text.now spot }
    ensures is { (tokens : List Token) → LexesFrom text.now spot tokens
        → result ≡ fault_of text.now tokens fault }
    ensures within { IsWithin (length text.now) result }
{
    match fault {
        SyntaxFault::Bad { at } => ConfFault::Refused {
            at: byte_past(text, spot, at),
            kind: ConfKind::Syntax,
        },
        SyntaxFault::TooDeep { at } => ConfFault::Refused {
            at: byte_past(text, spot, at),
            kind: ConfKind::TooDeep,
        },
        SyntaxFault::Unsupported { at } => ConfFault::Refused {
            at: byte_past(text, spot, at),
            kind: ConfKind::Unsupported,
        },
        SyntaxFault::Memory => ConfFault::Memory,
    }
}

// The bytes of the token that stands next, where it is a word without quotes, unless the words
// begin with the sign of `else` and a colon.
fn word_bytes<'a>(text: &'a [u8], spot: Spot, rest: &[Word]) -> Option<&'a [u8]>
    requires { IsSpot text.now spot }
    ensures { (tokens : List Token) → LexesFrom text.now spot tokens
        → MatchOption result (word_bytes rest.now text.now tokens ≡ None)
        (λ word. word_bytes rest.now text.now tokens ≡ Some word.now) }
{
    match rest.first() {
        Some(word) => {
            if is_symbol(word, Symbol::ElseColon) {
                None
            } else {
                bytes_ahead(text, spot)
            }
        }
        None => bytes_ahead(text, spot),
    }
}

// Whether the word in this place, which begins at this spot and can't stand, is known there. The
// words before it are left.
fn is_known(
    alloc: Global,
    text: &[u8],
    spot: Spot,
    words: &mut Vec<Word>,
    place: usize,
) -> Result<bool, OutOfMemory>
    requires spot { IsSpot text.now spot }
    requires within { place ≤ length words.old.items }
    requires begun { IsBegunWithin rule 64 config (take place words.old.items) }
    ensures known { (tokens : List Token) → LexesFrom text.now spot tokens
        → IfOk result (λ known. IsTrue known
        ↔ IsSomeAnd (word_bytes (drop place words.old.items) text.now tokens)
        (IsUnsupported (take place words.old.items))) }
    ensures left { OnOk result (words.new.items ≡ take place words.old.items) }
{
    let bytes = word_bytes(text, spot, tail(words, place));
    words.truncate(place);
    match bytes {
        Some(word) => is_unsupported(alloc, words, word),
        None => Ok(false),
    }
}

// The refusal of the word in this place, which begins at this spot and can't stand there, by tokens
// behind its first one.
fn refusal(
    alloc: Global,
    text: &[u8],
    spot: Spot,
    words: &mut Vec<Word>,
    place: usize,
) -> SyntaxFault
    requires spot { IsSpot text.now spot }
    requires within { place ≤ length words.old.items }
    requires begun { IsBegunWithin rule 64 config (take place words.old.items) }
    ensures { (tokens : List Token) → LexesFrom text.now spot tokens
        → Refuses (IsSomeAnd (word_bytes (drop place words.old.items) text.now tokens)
        (IsUnsupported (take place words.old.items))) words.old.items place 0 result }
{
    let tear = tear_of(tail(words, place));
    match is_known(alloc, text, spot, words, place) {
        Ok(true) => SyntaxFault::Unsupported { at: 0 },
        Ok(false) => bad_behind::<Configurations>(alloc, words, tear, 0),
        Err(OutOfMemory) => SyntaxFault::Memory,
    }
}

// Lets go of the words before this place.
fn leave_last(words: &mut Vec<Word>, from: usize)
    requires { from ≤ length words.old.items }
    ensures { words.new.items ≡ drop from words.old.items }
{
    let left = words.len() - from;
    words.copy_within(from.., 0);
    words.truncate(left);
}

/// The refusal of words of which the one in this place can't stand there, in the statement that
/// begins in the place `from`. The list of the words serves to try others in its place, behind
/// those of the statement alone, so that no copy is made, and is of no use behind the call.
pub fn stopped(
    alloc: Global,
    text: &[u8],
    walked: &mut Walked,
    from: usize,
    place: usize,
) -> ConfFault
    requires short { length text.now < 2 ^ 32 }
    requires words { AreWordsOf text.now walked.old.words.items }
    requires marks { AreMarks text.now walked.old.marks.items }
    requires stops { StopsIn walked.old.words.items from place }
    ensures fault { IsFault text.now result }
    ensures within { IsWithin (length text.now) result }
{
    let spot = spot_of(text, place, mark_before(&walked.marks, place));
    leave_last(&mut walked.words, from);
    told(
        text,
        spot,
        refusal(alloc, text, spot, &mut walked.words, place - from),
    )
}

/// The refusal of words of which the one in this place opens too many levels.
pub fn deepened(text: &[u8], walked: &Walked, place: usize) -> ConfFault
    requires short { length text.now < 2 ^ 32 }
    requires words { AreWordsOf text.now walked.now.words.items }
    requires marks { AreMarks text.now walked.now.marks.items }
    requires deep { IsTooDeepAt walked.now.words.items place }
    ensures fault { IsFault text.now result }
    ensures within { IsWithin (length text.now) result }
{
    let spot = spot_of(text, place, mark_before(&walked.marks, place));
    told(text, spot, SyntaxFault::TooDeep { at: 0 })
}
