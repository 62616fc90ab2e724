// At which of its tokens a refused word is refused.

ghost use Rattle.std.specs.Prelude.{◌≡◌, ◌↔◌, ◌≤◌, ◌+◌, ◌∷◌, [], ◌++◌, cond, ◌<◌, ◌^◌};
ghost use Rattle.std.specs.Prelude.{if◌then◌else◌, length, take, IsTrue, IfOk};
ghost use Rattle.conf_lex.specs.declared.symbol.Symbol.TheVariants as sym;
ghost use Rattle.conf_lex.specs.Kind.{symbol};
ghost use Rattle.conf_lex.specs.Grammar.{begins};
ghost use Rattle.conf_lex.specs.Sentences.{IsBegun, IsBegunWithin};
ghost use Rattle.expr_syntax.specs.Syntax.{rule};
ghost use Rattle.expr_syntax.specs.Levels.{Form};
ghost use Rattle.filt_syntax.specs.RefusedToken.{CanFollow, some_prefix, some_address, torn_of};
ghost use Rattle.filt_syntax.specs.RefusedToken.{EndInAddress, IsPast};
ghost use Rattle.filt_syntax.specs.Inside.{is_address_word};
ghost use Rattle.filt_syntax.specs.RefusedToken.{IsNext, IsBadBehind, IsBadFrom, tear_of};

use crate::parse::{SyntaxFault, tail};
use bits_ip::{Addr, OutOfMemory, Prefix};
use conf_ast::PackedAddr;
use conf_lex::parsing::is_symbol;
use conf_lex::{Symbol, Word};
use std::alloc::Global;

/// Sentences of one form, as far as a word can go on with the beginning of one.
pub trait Sentences {
    /// The form.
    ghost form: { Form };

    /// Whether some sentence begins with these words, as one does with those before the last: the
    /// parser takes them all, or wants more behind them.
    fn is_begun(alloc: Global, words: &[Word]) -> Result<bool, OutOfMemory>
        requires { IsNext form words.now }
        ensures { IfOk result (λ begun. IsTrue begun ↔ IsBegun rule form words.now) };
}

/// What a refused word is, as far as it matters to where it is refused.
#[derive(Clone, Copy, Debug, PartialEq, Eq)]
pub enum Torn {
    /// An address, a slash and a number.
    Prefix,
    Address,
    Slash,
    Other,
}

/// What a refused word is, and whether a slash comes next.
#[derive(Clone, Copy, Debug, PartialEq, Eq)]
pub struct Tear {
    pub torn: Torn,
    pub slash: bool,
}

/// Whether this word can stand behind these, which are the same again behind it.
pub fn can_follow<S: Sentences>(
    alloc: Global,
    before: &mut Vec<Word>,
    word: Word,
) -> Result<bool, OutOfMemory>
    requires { IsBegunWithin rule 64 S.form before.old.items }
    ensures can { IfOk result (λ can. IsTrue can ↔ CanFollow S.form before.old.items word) }
    ensures same { before.new.items ≡ before.old.items }
{
    before.push(word)?;
    let begun = S::is_begun(alloc, before);
    before.pop();
    begun
}

fn torn_of(word: &Word) -> Torn
    ensures { result ≡ torn_of word.now }
{
    match word {
        Word::Prefix { .. } => Torn::Prefix,
        Word::BadPrefix { .. } => Torn::Prefix,
        Word::Ip { .. } => Torn::Address,
        Word::Symbol(symbol) => torn_of_symbol(*symbol),
        _ => Torn::Other,
    }
}

fn torn_of_symbol(symbol: Symbol) -> Torn
    ensures { result ≡ torn_of (Word.Symbol symbol) }
{
    match symbol {
        Symbol::Slash => Torn::Slash,
        _ => Torn::Other,
    }
}

fn some_prefix() -> Word
    ensures { result ≡ some_prefix }
{
    match Prefix::make(Addr::V4(0), 0) {
        Ok(net) => Word::Prefix { at: 0, net },
        Err(_) => Word::BadPrefix { at: 0 },
    }
}

fn some_address() -> Word
    ensures { result ≡ some_address }
{
    Word::Ip {
        at: 0,
        addr: PackedAddr::of(Addr::V4(0)),
    }
}

// Whether the one word can stand behind these, and the other can't.
fn one_alone<S: Sentences>(
    alloc: Global,
    before: &mut Vec<Word>,
    one: Word,
    other: Word,
) -> Result<bool, OutOfMemory>
    requires { IsBegunWithin rule 64 S.form before.old.items }
    ensures { IfOk result (λ found. IsTrue found
        ↔ (CanFollow S.form before.old.items one × (CanFollow S.form before.old.items other → ⊥))) }
{
    let can = can_follow::<S>(alloc, before, one)?;
    if !can {
        return Ok(false);
    }
    let other_can = can_follow::<S>(alloc, before, other)?;
    Ok(!other_can)
}

fn is_address_word(word: &Word) -> bool
    ensures { result ≡ is_address_word word.now }
{
    matches!(word, Word::Ip { .. })
}

// Whether these words end in an address, in whose place a prefix can stand.
fn ends_in_address<S: Sentences>(alloc: Global, before: &mut Vec<Word>) -> Result<bool, OutOfMemory>
    requires { IsBegunWithin rule 64 S.form before.old.items }
    ensures { IfOk result (λ found. IsTrue found ↔ EndInAddress S.form before.old.items) }
{
    match before.pop() {
        Some(last) => is_prefix_place::<S>(alloc, before, last),
        None => Ok(false),
    }
}

// Whether this word, which stood behind these, is an address in whose place a prefix can stand.
fn is_prefix_place<S: Sentences>(
    alloc: Global,
    before: &mut Vec<Word>,
    last: Word,
) -> Result<bool, OutOfMemory>
    requires { IsBegunWithin rule 64 S.form before.old.items }
    ensures { IfOk result (λ found. IsTrue found
        ↔ EndInAddress S.form (before.old.items ++ last ∷ [])) }
{
    if is_address_word(&last) {
        return can_follow::<S>(alloc, before, some_prefix());
    }
    Ok(false)
}

fn count(found: bool, tokens: usize) -> usize
    ensures { result ≡ cond found tokens 0 }
{
    if found { tokens } else { 0 }
}

fn torn_tokens(slash: bool) -> usize
    ensures { result ≡ (if slash then 2 else 1) }
{
    if slash { 2 } else { 1 }
}

// How many tokens behind its first one a refused word is refused.
fn past<S: Sentences>(
    alloc: Global,
    before: &mut Vec<Word>,
    torn: Torn,
    slash: bool,
) -> Result<usize, OutOfMemory>
    requires { IsBegunWithin rule 64 S.form before.old.items }
    ensures past { IfOk result (λ past. IsPast S.form before.old.items torn slash past) }
    ensures few { IfOk result (λ past. past ≤ 2) }
{
    let prefix = some_prefix();
    let address = some_address();
    match torn {
        Torn::Prefix => Ok(count(one_alone::<S>(alloc, before, address, prefix)?, 1)),
        Torn::Address => {
            let found = one_alone::<S>(alloc, before, prefix, address)?;
            Ok(count(found, torn_tokens(slash)))
        }
        Torn::Slash => Ok(count(ends_in_address::<S>(alloc, before)?, 1)),
        Torn::Other => Ok(0),
    }
}

fn begins_with_slash(words: &[Word]) -> bool
    ensures { result ≡ begins (symbol sym.Slash) words.now }
{
    match words.first() {
        Some(word) => is_symbol(word, Symbol::Slash),
        None => false,
    }
}

/// What the first of these words is, where it is refused; where there is none, nothing is torn.
pub fn tear_of(words: &[Word]) -> Tear
    ensures { result ≡ tear_of words.now }
{
    match words.split_first() {
        Some((word, behind)) => Tear {
            torn: torn_of(word),
            slash: begins_with_slash(behind),
        },
        None => Tear {
            torn: Torn::Other,
            slash: false,
        },
    }
}

/// The refusal of a word that can't stand behind these and begins with this token. The words before
/// it may be less behind the call.
pub fn bad_behind<S: Sentences>(
    alloc: Global,
    before: &mut Vec<Word>,
    tear: Tear,
    start: usize,
) -> SyntaxFault
    requires begun { IsBegunWithin rule 64 S.form before.old.items }
    requires start { start + 2 < 2 ^ 64 }
    ensures { IsBadBehind S.form before.old.items tear start result }
{
    match past::<S>(alloc, before, tear.torn, tear.slash) {
        Ok(past) => SyntaxFault::Bad { at: start + past },
        Err(OutOfMemory) => SyntaxFault::Memory,
    }
}

/// The refusal of the word in this place, which can't stand there and begins with this token.
pub fn bad_from<S: Sentences>(
    alloc: Global,
    words: &[Word],
    place: usize,
    start: usize,
) -> SyntaxFault
    requires within { place ≤ length words.now }
    requires begun { IsBegunWithin rule 64 S.form (take place words.now) }
    requires start { start + 2 < 2 ^ 64 }
    ensures { IsBadFrom S.form words.now place start result }
{
    match Vec::from_slice(alloc, &words[..place]) {
        Ok(mut before) => {
            let tear = tear_of(tail(words, place));
            bad_behind::<S>(alloc, &mut before, tear, start)
        }
        Err(_) => SyntaxFault::Memory,
    }
}
