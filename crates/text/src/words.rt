//! The words of a line, with blanks between them.
ghost use Rattle.std.specs.Prelude.{◌≡◌, ◌<◌, ◌≤◌, ℕ, List, [], ◌∷◌, length, IsTrue, ◌↔◌, MatchOption, ⊤};
ghost use Rattle.std.specs.List.{prefix_len};
ghost use Rattle.text.specs.Lines.{words_of, behind_word, is_blank};
ghost use Rattle.text.specs.Cut.{is_word_byte};

/// The first word of a line and what follows it, and none where no word follows.
///
/// Words are the longest runs of bytes that are neither a space nor a tab.
pub fn next_word(rest: &[u8]) -> Option<(&[u8], &[u8])>
    ensures word { MatchOption result
        (words_of rest.now ≡ [])
        (λ cut. words_of rest.now ≡ cut.0.now ∷ words_of cut.1.now) }
    ensures behind { MatchOption result ⊤ (λ cut. cut.1.now ≡ behind_word rest.now) }
    ensures shorter { MatchOption result ⊤ (λ cut. length cut.1.now < length rest.now) }
{
    let (_, text) = rest.split_at(blank_len(rest));
    if text.is_empty() {
        return None;
    }
    Some(text.split_at(word_len(text)))
}

/// What follows this word, where it is the first of a line.
pub fn expect_word<'a>(rest: &'a [u8], word: &[u8]) -> Option<&'a [u8]>
    ensures word { MatchOption result
        ((more : List (List ℕ)) → words_of rest.now ≡ word.now ∷ more → ⊥)
        (λ after. words_of rest.now ≡ word.now ∷ words_of after.now) }
    ensures behind { MatchOption result ⊤ (λ after. after.now ≡ behind_word rest.now) }
{
    let (first, after) = next_word(rest)?;
    if first == word { Some(after) } else { None }
}

/// Whether no word follows.
pub fn is_end(rest: &[u8]) -> bool
    ensures { IsTrue result ↔ (words_of rest.now ≡ []) }
{
    next_word(rest).is_none()
}

fn blank_len(text: &[u8]) -> usize
    ensures len { result ≡ prefix_len is_blank text.now }
    ensures bound { result ≤ length text.now }
{
    text.iter()
        .take_while(|byte| **byte == b' ' || **byte == b'\t')
        .count()
}

fn word_len(text: &[u8]) -> usize
    ensures len { result ≡ prefix_len is_word_byte text.now }
    ensures bound { result ≤ length text.now }
{
    text.iter()
        .take_while(|byte| **byte != b' ' && **byte != b'\t')
        .count()
}
