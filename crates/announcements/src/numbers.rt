//! Numbers as words spell them.
ghost use Rattle.std.specs.Prelude.{◌≡◌, ◌<◌, ℕ, length, MatchOption, IsTrue, ◌↔◌, ⊤};
ghost use Rattle.std.specs.Char.{is_ascii_digit};
ghost use Rattle.std.specs.List.{list_all};
ghost use Rattle.std.specs.Str.Parse.{IsNumeral};
ghost use Rattle.text.specs.Lines.{words_of};
ghost use Rattle.announcements.specs.Grammar.{IsDecimal};
ghost use Rattle.announcements.specs.Limits.{fits};
ghost use Rattle.announcements.specs.Reading.{IsKept, HasNoNumber, BeginWithNumber};

use bits_ip::parse_decimal;
use text::next_word;

/// The number that a word spells, and none inside where it has over 32 bits.
pub fn read_number(word: &[u8]) -> Option<Option<u32>>
    ensures { MatchOption result
        ((n : ℕ) → IsDecimal word.now n → ⊥)
        (λ number. IsKept fits (IsDecimal word.now) number) }
{
    if is_numeral(word) {
        Some(parse_decimal(word))
    } else {
        None
    }
}

/// The number at the front, and what follows it.
pub fn next_number(rest: &[u8]) -> Option<(Option<u32>, &[u8])>
    ensures number { MatchOption result
        (HasNoNumber (words_of rest.now))
        (λ found. BeginWithNumber (words_of rest.now) found.0 (words_of found.1.now)) }
    ensures shorter { MatchOption result ⊤ (λ found. length found.1.now < length rest.now) }
{
    let (word, after) = next_word(rest)?;
    let number = read_number(word)?;
    Some((number, after))
}

fn is_numeral(word: &[u8]) -> bool
    ensures { IsTrue result ↔ IsNumeral 10 word.now }
{
    !word.is_empty() && are_digits(word)
}

fn are_digits(word: &[u8]) -> bool
    ensures { result ≡ list_all is_ascii_digit word.now }
{
    word.iter().all(|byte| byte.is_ascii_digit())
}
