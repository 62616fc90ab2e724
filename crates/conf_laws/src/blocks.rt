//! What logs and device blocks hold says nothing, and all other words say something: what of a
//! text's words is read, told by the first words and by what a block closes.
ghost use Rattle.std.specs.Prelude.{◌≡◌, ◌≢◌, ℕ, true, false, not, ◌||◌};
ghost use Rattle.std.specs.Prelude.{List, [], ◌∷◌, ◌++◌, map};
ghost use Rattle.std.specs.List.{list_all};
ghost use Rattle.conf_lex.specs.declared.symbol.Symbol.{Symbol};
ghost use Rattle.conf_lex.specs.declared.word.Word.{Word};
ghost use Rattle.conf_lex.specs.Kind.{kind_of, name};
ghost use Rattle.conf_words.specs.Significant.{is, significant};
ghost use Rattle.conf_words.specs.declared.significant.Region.TheVariants as regions;
ghost use Rattle.conf_laws.specs.Balanced.{IsBalanced};

use conf_lex::{Symbol, Word};

/// What stands between the braces of a device, with a name or without one, says nothing: words in
/// which each brace is closed are taken out, up to the brace that closes the block.
pub fn device_blocks_are_taken_out()
    ensures unnamed { (protocol device opening close : ℕ × Word) (inside rest : List (ℕ × Word))
        → is Symbol.Protocol protocol.1 ≡ true → is Symbol.Device device.1 ≡ true
        → is Symbol.OpenBrace opening.1 ≡ true → IsBalanced (map (λ p. p.1) inside)
        → is Symbol.CloseBrace close.1 ≡ true
        → significant regions.Statements (protocol ∷ device ∷ opening ∷ (inside ++ close ∷ rest))
        ≡ protocol ∷ device ∷ opening ∷ close ∷ significant regions.Statements rest }
    ensures named { (protocol device called opening close : ℕ × Word)
        (inside rest : List (ℕ × Word))
        → is Symbol.Protocol protocol.1 ≡ true → is Symbol.Device device.1 ≡ true
        → name (kind_of called.1) ≡ true
        → is Symbol.OpenBrace opening.1 ≡ true → IsBalanced (map (λ p. p.1) inside)
        → is Symbol.CloseBrace close.1 ≡ true
        → significant regions.Statements (protocol ∷ device ∷ called ∷ opening ∷
        (inside ++ close ∷ rest))
        ≡ protocol ∷ device ∷ called ∷ opening ∷ close ∷ significant regions.Statements rest }
{}

/// Where the words behind a device's opening brace say something, some of them close the block:
/// words in which each brace is closed, and a closing brace. So a block that isn't closed says
/// nothing to the text's end.
pub fn only_closed_blocks_end()
    ensures { (ps : List (ℕ × Word)) → significant (regions.Inside 0) ps ≢ []
        → (inside rest : List (ℕ × Word)) × (brace : ℕ × Word) × (ps ≡ inside ++ brace ∷ rest)
        × IsBalanced (map (λ p. p.1) inside) × (is Symbol.CloseBrace brace.1 ≡ true) }
{}

/// What a log holds says nothing: words without a semicolon are taken out, up to the semicolon.
pub fn logs_are_taken_out()
    ensures { (log semicolon : ℕ × Word) (held rest : List (ℕ × Word))
        → is Symbol.Log log.1 ≡ true → list_all (λ p. not (is Symbol.Semicolon p.1)) held ≡ true
        → is Symbol.Semicolon semicolon.1 ≡ true
        → significant regions.Statements (log ∷ (held ++ semicolon ∷ rest))
        ≡ log ∷ semicolon ∷ significant regions.Statements rest }
{}

/// All other words say something: where none is `log` or `device`, nothing is taken out.
pub fn other_words_are_kept()
    ensures { (ps : List (ℕ × Word))
        → list_all (λ p. not (is Symbol.Log p.1 || is Symbol.Device p.1)) ps ≡ true
        → significant regions.Statements ps ≡ ps }
{}

/// A first word that is neither `log` nor `protocol` says something, and the words behind it are
/// read on as statements.
pub fn other_first_words_are_kept()
    ensures nothing { significant regions.Statements [] ≡ [] }
    ensures word { (word : ℕ × Word) (rest : List (ℕ × Word))
        → is Symbol.Log word.1 ≡ false → is Symbol.Protocol word.1 ≡ false
        → significant regions.Statements (word ∷ rest)
        ≡ word ∷ significant regions.Statements rest }
{}

/// `protocol` with a word behind it that isn't `device` says something with that word, and the
/// words behind are read on as statements. So it is with `protocol device` and a word that is no
/// name and no opening brace, and with `protocol device`, a name and a word that is no opening
/// brace.
pub fn other_protocols_are_kept()
    ensures kind { (protocol word : ℕ × Word) (rest : List (ℕ × Word))
        → is Symbol.Protocol protocol.1 ≡ true → is Symbol.Device word.1 ≡ false
        → significant regions.Statements (protocol ∷ word ∷ rest)
        ≡ protocol ∷ word ∷ significant regions.Statements rest }
    ensures unnamed { (protocol device word : ℕ × Word) (rest : List (ℕ × Word))
        → is Symbol.Protocol protocol.1 ≡ true → is Symbol.Device device.1 ≡ true
        → name (kind_of word.1) ≡ false → is Symbol.OpenBrace word.1 ≡ false
        → significant regions.Statements (protocol ∷ device ∷ word ∷ rest)
        ≡ protocol ∷ device ∷ word ∷ significant regions.Statements rest }
    ensures named { (protocol device called word : ℕ × Word) (rest : List (ℕ × Word))
        → is Symbol.Protocol protocol.1 ≡ true → is Symbol.Device device.1 ≡ true
        → name (kind_of called.1) ≡ true → is Symbol.OpenBrace word.1 ≡ false
        → significant regions.Statements (protocol ∷ device ∷ called ∷ word ∷ rest)
        ≡ protocol ∷ device ∷ called ∷ word ∷ significant regions.Statements rest }
{}

/// Where the words end behind `protocol`, `protocol device` or its name, all of them say something.
pub fn unfinished_protocols_are_kept()
    ensures alone { (protocol : ℕ × Word) → is Symbol.Protocol protocol.1 ≡ true
        → significant regions.Statements (protocol ∷ []) ≡ protocol ∷ [] }
    ensures unnamed { (protocol device : ℕ × Word)
        → is Symbol.Protocol protocol.1 ≡ true → is Symbol.Device device.1 ≡ true
        → significant regions.Statements (protocol ∷ device ∷ []) ≡ protocol ∷ device ∷ [] }
    ensures named { (protocol device called : ℕ × Word)
        → is Symbol.Protocol protocol.1 ≡ true → is Symbol.Device device.1 ≡ true
        → name (kind_of called.1) ≡ true
        → significant regions.Statements (protocol ∷ device ∷ called ∷ [])
        ≡ protocol ∷ device ∷ called ∷ [] }
{}

/// `protocol device`, with a name or without one, and an opening brace say something, and lead into
/// the block.
pub fn device_blocks_begin_at_a_brace()
    ensures unnamed { (protocol device opening : ℕ × Word) (rest : List (ℕ × Word))
        → is Symbol.Protocol protocol.1 ≡ true → is Symbol.Device device.1 ≡ true
        → is Symbol.OpenBrace opening.1 ≡ true
        → significant regions.Statements (protocol ∷ device ∷ opening ∷ rest)
        ≡ protocol ∷ device ∷ opening ∷ significant (regions.Inside 0) rest }
    ensures named { (protocol device called opening : ℕ × Word) (rest : List (ℕ × Word))
        → is Symbol.Protocol protocol.1 ≡ true → is Symbol.Device device.1 ≡ true
        → name (kind_of called.1) ≡ true → is Symbol.OpenBrace opening.1 ≡ true
        → significant regions.Statements (protocol ∷ device ∷ called ∷ opening ∷ rest)
        ≡ protocol ∷ device ∷ called ∷ opening ∷ significant (regions.Inside 0) rest }
{}

/// A log without a semicolon behind it holds all the words behind it: `log` alone says something.
pub fn open_logs_hold_the_rest()
    ensures { (log : ℕ × Word) (held : List (ℕ × Word))
        → is Symbol.Log log.1 ≡ true → list_all (λ p. not (is Symbol.Semicolon p.1)) held ≡ true
        → significant regions.Statements (log ∷ held) ≡ log ∷ [] }
{}
