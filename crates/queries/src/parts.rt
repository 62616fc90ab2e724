//! The options of a question, as they stand in a line.
ghost use Rattle.std.specs.Prelude.{◌≡◌, ◌∷◌, ◌<◌, ◌≤◌, ℕ, List, ⊤, length, MatchOption};
ghost use Rattle.text.specs.Lines.{words_of, behind_word};
ghost use Rattle.queries.specs.Seen.{part_said};
ghost use Rattle.queries.specs.Inside.{label_text, BeginsWith, BeginsWithNone};
ghost use Rattle.queries.specs.Inside.{BeginsWithName, HasNoName};
ghost use Rattle.queries.specs.declared.parts.Label.{Label};

use crate::names::is_name;
use text::next_word;

/// One option of a question.
#[derive(Clone, Copy)]
pub enum Part<'a> {
    Table(&'a [u8]),
    Protocol(&'a [u8]),
    Export(&'a [u8]),
    Filter(&'a [u8]),
    Primary,
    All,
    Count,
}

/// The first word of an option.
#[derive(Clone, Copy)]
enum Label {
    Table,
    Protocol,
    Export,
    Filter,
    Primary,
    All,
    Count,
}

fn label_of(word: &[u8]) -> Option<Label>
    ensures { MatchOption result
        ((label : Label) → word.now ≡ label_text label → ⊥)
        (λ label. word.now ≡ label_text label) }
{
    if word == b"table".as_slice() {
        Some(Label::Table)
    } else if word == b"protocol".as_slice() {
        Some(Label::Protocol)
    } else if word == b"export".as_slice() {
        Some(Label::Export)
    } else if word == b"filter".as_slice() {
        Some(Label::Filter)
    } else if word == b"primary".as_slice() {
        Some(Label::Primary)
    } else if word == b"all".as_slice() {
        Some(Label::All)
    } else if word == b"count".as_slice() {
        Some(Label::Count)
    } else {
        None
    }
}

/// The option at the front, and none where the text begins with none.
pub fn next_part(text: &[u8]) -> Option<(Part<'_>, &[u8])>
    ensures part { MatchOption result
        (BeginsWithNone text.now)
        (λ found. BeginsWith text.now (part_said found.0) found.1.now) }
    ensures shorter { MatchOption result ⊤ (λ found. length found.1.now < length text.now) }
{
    let (word, behind) = next_word(text)?;
    let label = label_of(word)?;
    part_of(label, behind)
}

/// The option of this label, with which the text goes on.
fn part_of(label: Label, behind: &[u8]) -> Option<(Part<'_>, &[u8])>
    ensures part { (text : List ℕ) → words_of text ≡ label_text label ∷ words_of behind.now
        → behind.now ≡ behind_word text
        → MatchOption result (BeginsWithNone text)
        (λ found. BeginsWith text (part_said found.0) found.1.now) }
    ensures shorter { MatchOption result ⊤ (λ found. length found.1.now ≤ length behind.now) }
{
    match label {
        Label::Table => {
            let (name, rest) = next_name(behind)?;
            Some((Part::Table(name), rest))
        }
        Label::Protocol => {
            let (name, rest) = next_name(behind)?;
            Some((Part::Protocol(name), rest))
        }
        Label::Export => {
            let (name, rest) = next_name(behind)?;
            Some((Part::Export(name), rest))
        }
        Label::Filter => {
            let (name, rest) = next_name(behind)?;
            Some((Part::Filter(name), rest))
        }
        Label::Primary => Some((Part::Primary, behind)),
        Label::All => Some((Part::All, behind)),
        Label::Count => Some((Part::Count, behind)),
    }
}

/// The name at the front, whatever it is, and what stands behind it.
fn next_name(text: &[u8]) -> Option<(&[u8], &[u8])>
    ensures name { MatchOption result
        (HasNoName (words_of text.now))
        (λ found. BeginsWithName text.now found.0.now found.1.now) }
    ensures shorter { MatchOption result ⊤ (λ found. length found.1.now ≤ length text.now) }
{
    let (word, rest) = next_word(text)?;
    if is_name(word) {
        Some((word, rest))
    } else {
        None
    }
}
