ghost use Rattle.std.specs.Prelude.{◌≡◌, ◌≤◌, ◌++◌, ℕ, List, [], length};
ghost use Rattle.attrs.specs.declared.journal.JEntry.{JEntry};
ghost use Rattle.jour_rule.specs.Cells.{IsWhole};
ghost use Rattle.rec_words.specs.Spelling.{entry_words};
ghost use Rattle.rec_words.specs.Entries.{Spells};
ghost use Rattle.rec_words.specs.Worked.{worked, worked_words};

/// Words are those of one entry.
pub fn words_spell_one_entry()
    ensures { (words : List ℕ) (a b : JEntry) → Spells a words → Spells b words → a ≡ b }
{}

/// The words of an entry begin no other's.
pub fn words_are_no_front()
    ensures { (words rest : List ℕ) (a b : JEntry) → Spells a words → Spells b (words ++ rest)
        → rest ≡ [] }
{}

/// The words of an entry are at most 217, and the first one tells how many.
pub fn words_are_whole()
    ensures few { (words : List ℕ) (entry : JEntry) → Spells entry words → length words ≤ 217 }
    ensures whole { (words : List ℕ) (entry : JEntry) → Spells entry words → IsWhole words }
{}

/// An entry that is worked by hand has the words that it has by hand.
pub fn worked_entry_is_spelled()
    ensures { Spells worked worked_words }
{}
