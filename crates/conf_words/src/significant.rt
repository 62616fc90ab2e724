// The words without those that logs and device blocks hold.

ghost use Rattle.std.specs.Prelude.{◌≡◌, ◌≤◌, ℕ, ◌+◌, ◌<◌, ◌^◌, List, ◌++◌, ◌∷◌, [], cond};
ghost use Rattle.std.specs.Prelude.{true, length, drop};
ghost use Rattle.std.specs.Prelude.{IfOk, IfErr, OnOk, MatchOption};
ghost use Rattle.conf_scan.specs.Lex.{Lexes, IsLexFault};
ghost use Rattle.conf_scan.specs.Spots.{IsSpot, LexesFrom};
ghost use Rattle.conf_scan.specs.declared.token.LexFault.TheVariants.{Memory};
ghost use Rattle.conf_scan.specs.declared.token.Token.{Token};
ghost use Rattle.conf_lex.specs.Walks.{IsWordStep};
ghost use Rattle.conf_words.specs.Significant.{behind, depth_of, is_significant, token_of};
ghost use Rattle.conf_words.specs.Significant.{AreWordsOf};
ghost use Rattle.conf_words.specs.Marks.{AreMarks, IsMark};

use conf_lex::parsing::is_symbol;
use conf_lex::{Symbol, Word, next_word};
use conf_scan::{LexFault, Spot};
use std::alloc::Global;

/// Where a word stands, as far as it matters to what logs and device blocks hold.
#[derive(Clone, Copy, Debug, PartialEq, Eq)]
pub enum Region {
    Statements,
    /// Behind `log`, to the next semicolon.
    Log,
    /// Behind `protocol`.
    Protocol,
    /// Behind `protocol device`.
    Device,
    /// Behind `protocol device` and a name.
    Named,
    /// Within the braces of a device, with so many braces open in them.
    Inside(usize),
}

/// How far the walk over a text has come: so many words that the grammar reads stand before the
/// spot, behind which the next word stands in this region.
#[derive(Clone, Copy, Debug)]
pub struct Mark {
    pub count: usize,
    pub region: Region,
    pub spot: Spot,
}

/// The words that the grammar reads, and marks of the walk that found them.
#[derive(Debug, Drop)]
pub struct Walked {
    pub words: Vec<Word>,
    pub marks: Vec<Mark>,
}

fn behind_statement_word(word: &Word) -> Region
    ensures { result ≡ behind Region.Statements word.now }
{
    if is_symbol(word, Symbol::Log) {
        Region::Log
    } else if is_symbol(word, Symbol::Protocol) {
        Region::Protocol
    } else {
        Region::Statements
    }
}

fn behind_log(word: &Word) -> Region
    ensures { result ≡ behind Region.Log word.now }
{
    if is_symbol(word, Symbol::Semicolon) {
        Region::Statements
    } else {
        Region::Log
    }
}

fn behind_protocol(word: &Word) -> Region
    ensures { result ≡ behind Region.Protocol word.now }
{
    if is_symbol(word, Symbol::Device) {
        Region::Device
    } else {
        Region::Statements
    }
}

fn behind_device(word: &Word) -> Region
    ensures { result ≡ behind Region.Device word.now }
{
    match word {
        Word::Name { .. } => Region::Named,
        _ => behind_named(word),
    }
}

fn behind_named(word: &Word) -> Region
    ensures { result ≡ behind Region.Named word.now }
{
    if is_symbol(word, Symbol::OpenBrace) {
        Region::Inside(0)
    } else {
        Region::Statements
    }
}

fn behind_inside(depth: usize, word: &Word) -> Region
    requires { depth + 1 < 2 ^ 64 }
    ensures { result ≡ behind (Region.Inside depth) word.now }
{
    if is_symbol(word, Symbol::CloseBrace) {
        match depth.checked_sub(1) {
            Some(depth) => Region::Inside(depth),
            None => Region::Statements,
        }
    } else if is_symbol(word, Symbol::OpenBrace) {
        Region::Inside(depth + 1)
    } else {
        Region::Inside(depth)
    }
}

fn behind(region: Region, word: &Word) -> Region
    requires { depth_of region + 1 < 2 ^ 64 }
    ensures { result ≡ behind region word.now }
{
    match region {
        Region::Statements => behind_statement_word(word),
        Region::Log => behind_log(word),
        Region::Protocol => behind_protocol(word),
        Region::Device => behind_device(word),
        Region::Named => behind_named(word),
        Region::Inside(depth) => behind_inside(depth, word),
    }
}

fn is_significant(region: Region, word: &Word) -> bool
    ensures { result ≡ is_significant region word.now }
{
    match region {
        Region::Log => is_symbol(word, Symbol::Semicolon),
        Region::Inside(depth) => depth == 0 && is_symbol(word, Symbol::CloseBrace),
        _ => true,
    }
}

// The words found, with this one more where it says something.
fn keep(found: &mut Vec<Word>, region: Region, word: &Word) -> Result<(), LexFault>
    ensures words { OnOk result (found.new.items
        ≡ found.old.items ++ cond (is_significant region word.now) (word.now ∷ []) []) }
    ensures memory { IfErr result (λ fault. fault ≡ Memory) }
{
    if is_significant(region, word) {
        found.push(*word)?;
    }
    Ok(())
}

// The marks, and this one more where the last is far from it: one for each 4,096 bytes of the text,
// so that to walk to a word again from the mark before it is next to nothing.
fn note(marks: &mut Vec<Mark>, mark: Mark)
    ensures { (text : List ℕ) → IsMark text mark → AreMarks text marks.old.items
        → AreMarks text marks.new.items }
{
    if marks.len() <= mark.spot.at / 4096 {
        // Where there is no memory for it, the way from the mark before it is longer.
        let _ = marks.push(mark);
    }
}

/// The words that the grammar reads, made as the text is walked: its tokens aren't kept. `Bad` is
/// as `conf_scan::lex` has it.
pub fn walked_words(alloc: Global, text: &[u8]) -> Result<Walked, LexFault>
    requires short { length text.now < 2 ^ 32 }
    ensures words { IfOk result (λ walked. AreWordsOf text.now walked.words.items) }
    ensures marks { IfOk result (λ walked. AreMarks text.now walked.marks.items) }
    ensures bad { IfErr result (IsLexFault text.now) }
{
    let mut found = Vec::new(alloc);
    let mut marks = Vec::new(alloc);
    let mut region = Region::Statements;
    let mut spot = Spot { at: 0, plain: 0 };
    while let Some((word, end)) = next_word(text, spot)? {
        let mark = Mark {
            count: found.len(),
            region,
            spot,
        };
        note(&mut marks, mark);
        keep(&mut found, region, &word)?;
        region = behind(region, &word);
        spot = end;
    }
    Ok(Walked {
        words: found,
        marks,
    })
}

/// The last of these marks that is before the word in this place; where there is none, the
/// beginning of the text.
pub fn mark_before(marks: &[Mark], place: usize) -> Mark
    ensures before { result.count ≤ place }
    ensures mark { (text : List ℕ) → AreMarks text marks.now → IsMark text result }
{
    let mut last = Mark {
        count: 0,
        region: Region::Statements,
        spot: Spot { at: 0, plain: 0 },
    };
    for mark in marks {
        if mark.count <= place {
            last = *mark;
        }
    }
    last
}

// The word that stands next in a text that has tokens, and the place behind it.
fn word_ahead(text: &[u8], spot: Spot) -> Option<(Word, Spot)>
    requires short { length text.now < 2 ^ 32 }
    requires spot { IsSpot text.now spot }
    requires lexed { (tokens : List Token) × LexesFrom text.now spot tokens }
    ensures { MatchOption result (LexesFrom text.now spot [])
        (λ found. IsWordStep text.now spot found.0 found.1) }
{
    match next_word(text, spot) {
        Ok(found) => found,
        Err(_) => None,
    }
}

// How many words are left behind this one, where it isn't the one that is looked for.
fn words_left(left: usize, significant: bool) -> Option<usize>
    ensures { MatchOption result ((significant ≡ true) × (left ≡ 0))
        (λ fewer. left ≡ fewer + cond significant 1 0) }
{
    if significant {
        left.checked_sub(1)
    } else {
        Some(left)
    }
}

/// Where the word in this place begins, of those that the grammar reads, by a walk from a mark
/// before it; behind the last one where the text has no more tokens.
pub fn spot_of(text: &[u8], place: usize, from: Mark) -> Spot
    requires short { length text.now < 2 ^ 32 }
    requires lexed { (tokens : List Token) × Lexes 0 text.now tokens }
    requires mark { IsMark text.now from }
    requires before { from.count ≤ place }
    ensures spot { IsSpot text.now result }
    ensures tokens { (tokens : List Token) → Lexes 0 text.now tokens
        → LexesFrom text.now result (drop (token_of text.now tokens place) tokens) }
{
    let mut left = place - from.count;
    let mut region = from.region;
    let mut spot = from.spot;
    while let Some((word, end)) = word_ahead(text, spot) {
        let Some(fewer) = words_left(left, is_significant(region, &word)) else {
            return spot;
        };
        left = fewer;
        region = behind(region, &word);
        spot = end;
    }
    spot
}
