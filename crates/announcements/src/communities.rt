//! The communities of an `add`.
ghost use Rattle.std.specs.Prelude.{◌≡◌, ◌≤◌, ◌&&◌, ℕ, List, length, nat_le, true, IsTrue};
ghost use Rattle.std.specs.Prelude.{MatchOption, MatchResult, if◌then◌else◌};
ghost use Rattle.std.specs.List.{prefix_len, list_all};
ghost use Rattle.text.specs.Lines.{words_of};
ghost use Rattle.announcements.specs.Grammar.{IsDecimal, IsCommunity, IsCom};
ghost use Rattle.announcements.specs.Limits.{pair_fits, coms_fit};
ghost use Rattle.announcements.specs.Reading.{IfForm, is_no_colon, IsCut, IsKept, kept, part_fits};
ghost use Rattle.announcements.specs.Reading.{part_kept, Puts, AddsOne, AreOnce, with_pair};

use crate::numbers::read_number;
use crate::refusal::Refusal;
use attrs::{Clist, ClistFault};
use std::alloc::Global;
use text::{expect_word, is_end, next_word};

/// The communities of an `add`, to the line's end, where they fit.
pub fn read_com(alloc: Global, rest: &[u8]) -> Result<Option<Clist>, Refusal>
    ensures { MatchResult result
        (λ coms. IsKept coms_fit (IsCom (words_of rest.now)) coms)
        (λ refusal. IfForm refusal ((coms : List (ℕ × ℕ)) → IsCom (words_of rest.now) coms → ⊥)) }
{
    if is_end(rest) {
        return Ok(Some(Clist::new(alloc)));
    }
    let Some(words) = expect_word(rest, b"com") else {
        return Err(Refusal::Form);
    };
    if is_end(words) {
        return Err(Refusal::Form);
    }
    read_communities(alloc, words)
}

/// The communities that these words spell, each once, in its first place.
fn read_communities(alloc: Global, text: &[u8]) -> Result<Option<Clist>, Refusal>
    ensures { MatchResult result
        (λ coms. IsKept coms_fit (AreOnce (words_of text.now)) coms)
        (λ refusal. IfForm refusal ((coms : List (ℕ × ℕ)) → AreOnce (words_of text.now) coms → ⊥)) }
{
    let mut coms = Clist::new(alloc);
    let mut fit = true;
    let mut rest = text;
    while let Some((word, after)) = next_word(rest) {
        fit = add_community(&mut coms, fit, word)?;
        rest = after;
    }
    Ok(kept_coms(coms, fit))
}

fn kept_coms(coms: Clist, fit: bool) -> Option<Clist>
    ensures { result ≡ (if fit then Some coms else None) }
{
    if fit { Some(coms) } else { None }
}

/// Whether the communities still fit, with the one that this word spells.
fn add_community(coms: &mut Clist, fit: bool, word: &[u8]) -> Result<bool, Refusal>
    ensures { MatchResult result
        (λ fits. AddsOne word.now fit coms.old fits coms.new)
        (λ refusal. IfForm refusal ((pair : ℕ × ℕ) → IsCommunity word.now pair → ⊥)) }
{
    let Some(pair) = read_community(word) else {
        return Err(Refusal::Form);
    };
    if fit {
        put_community(coms, pair)
    } else {
        Ok(false)
    }
}

/// Whether a community fits, and the list behind those before.
fn put_community(coms: &mut Clist, pair: Option<(u16, u16)>) -> Result<bool, Refusal>
    ensures { (raw : ℕ × ℕ) → pair ≡ kept pair_fits raw
        → MatchResult result
        (λ fits. Puts raw coms.old fits coms.new)
        (λ refusal. refusal ≡ Refusal.Memory) }
{
    let Some((system, value)) = pair else {
        return Ok(false);
    };
    match coms.add(system, value) {
        Ok(()) => Ok(true),
        Err(ClistFault::ClistLong) => Ok(false),
        Err(ClistFault::Memory) => Err(Refusal::Memory),
    }
}

fn read_community(word: &[u8]) -> Option<Option<(u16, u16)>>
    ensures { MatchOption result
        ((pair : ℕ × ℕ) → IsCommunity word.now pair → ⊥)
        (λ pair. IsKept pair_fits (IsCommunity word.now) pair) }
{
    let (left, right) = cut_at_colon(word)?;
    let system = read_part(left)?;
    let value = read_part(right)?;
    Some(pair_of(system, value))
}

fn pair_of(system: Option<u16>, value: Option<u16>) -> Option<(u16, u16)>
    ensures { (a b : ℕ) → system ≡ kept part_fits a → value ≡ kept part_fits b
        → result ≡ kept pair_fits (a, b) }
{
    let system = system?;
    let value = value?;
    Some((system, value))
}

fn read_part(word: &[u8]) -> Option<Option<u16>>
    ensures { MatchOption result
        ((n : ℕ) → IsDecimal word.now n → ⊥)
        (λ part. IsKept part_fits (IsDecimal word.now) part) }
{
    let number = read_number(word)?;
    Some(part_of(number))
}

fn part_of(number: Option<u32>) -> Option<u16>
    ensures { result ≡ part_kept number }
{
    let number = number?;
    u16::try_from(number).ok()
}

/// What stands before the first colon, and behind it.
fn cut_at_colon(word: &[u8]) -> Option<(&[u8], &[u8])>
    ensures { MatchOption result
        (IsTrue (list_all is_no_colon word.now))
        (λ cut. IsCut word.now cut.0.now cut.1.now) }
{
    let (front, behind) = word.split_at(front_len(word));
    let (_, back) = behind.split_first()?;
    Some((front, back))
}

fn front_len(word: &[u8]) -> usize
    ensures len { result ≡ prefix_len is_no_colon word.now }
    ensures bound { result ≤ length word.now }
{
    word.iter().take_while(|byte| **byte != b':').count()
}
