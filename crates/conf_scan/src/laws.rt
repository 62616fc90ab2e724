//! What the tokens of a text are, in words of their own, and that a text has one reading.
ghost use Rattle.std.specs.Prelude.{◌≡◌, ℕ, ◌+◌, ◌<◌, List, ◌∷◌, ◌++◌, length};
ghost use Rattle.conf_scan.specs.declared.token.Token.{Token};
ghost use Rattle.conf_scan.specs.Lex.{Lexes, Stops};
ghost use Rattle.conf_scan.specs.Spans.{IsSpan, IsBetween};

/// A text has one list of tokens.
pub fn texts_have_one_list_of_tokens()
    ensures { (text : List ℕ) (ts us : List Token) → Lexes 0 text ts → Lexes 0 text us → ts ≡ us }
{}

/// A text that has tokens is refused at no place.
pub fn lexed_texts_are_not_refused()
    ensures { (text : List ℕ) (ts us : List Token) (place : ℕ) → Lexes 0 text ts
        → Stops 0 text us place → ⊥ }
{}

/// A text is refused at one place at most.
pub fn texts_are_refused_at_one_place()
    ensures { (text : List ℕ) (ts us : List Token) (place stop : ℕ) → Stops 0 text ts place
        → Stops 0 text us stop → place ≡ stop }
{}

/// The place at which a text is refused is within it.
pub fn texts_are_refused_within()
    ensures { (text : List ℕ) (ts : List Token) (place : ℕ) → Stops 0 text ts place
        → place < length text }
{}

/// Each token is the slice of its text at its place: the longest token that begins there, and it
/// says what the slice says.
pub fn tokens_are_slices()
    ensures { (text : List ℕ) (front back : List Token) (t : Token)
        → Lexes 0 text (front ++ t ∷ back) → IsSpan text t }
{}

/// Tokens stand in order and apart, and what stands between two is a gap.
pub fn tokens_rise()
    ensures { (text : List ℕ) (front back : List Token) (t u : Token)
        → Lexes 0 text (front ++ t ∷ u ∷ back) → IsBetween text (t.at + t.len) u.at }
{}
