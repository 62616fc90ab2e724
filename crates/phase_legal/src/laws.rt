//! Laws of phases whose threads work at once.
ghost use Rattle.std.specs.Prelude.{◌≡◌, ◌==◌, ◌<◌, ◌+◌, ◌++◌, [], ◌∷◌, ℕ, Bool, List, Option, None, length, map, false, reverse, is_some, slice_get, Some};
ghost use mathlib.Core.List.{IsPrefix};
ghost use Rattle.bits_ip.specs.Prefix.{Net};
ghost use Rattle.attrs.specs.declared.journal.JEntry.{JEntry};
ghost use Rattle.attrs.specs.declared.route.Change.{Change};
ghost use Rattle.attrs.specs.History.{Content};
ghost use Rattle.export_core.specs.declared.log.LogItem.{LogItem};
ghost use Rattle.export_core.specs.declared.log.LogItem.TheVariants.{Up};
ghost use Rattle.export_core.specs.Logs.{stretch};
ghost use Rattle.import_core.specs.declared.operation.Op.{Op};
ghost use Rattle.jour_rule.specs.declared.views.Entry.{Entry};
ghost use Rattle.jour_rule.specs.Journal.{receipts};
ghost use Rattle.jour.specs.Seats.{front};
ghost use Rattle.table_shared.specs.Opening.{TableOpening};
ghost use Rattle.table_shared.specs.Records.{AreRecords, at_first, change_of};
ghost use Rattle.core_machine.specs.Histories.{AreReal, content_of, of_those, own};
ghost use Rattle.core_machine.specs.Lines.{Line, Reply, ops_of};
ghost use Rattle.core_machine.specs.Merges.{IsMerge};
ghost use Rattle.core_machine.specs.Replies.{Answers, Question};
ghost use Rattle.core_machine.specs.Rules.{Rules, Rise, changes, is_up};
ghost use Rattle.core_machine.specs.Signals.{AreSignals, Notice, notices, without_sends};
ghost use Rattle.phase_legal.specs.Changes.{AreAbove, AreMade, AreWithin, IsAlone, IsNobodys, changes_in, given};
ghost use Rattle.phase_legal.specs.Ended.{HasEnded, histories};
ghost use Rattle.phase_legal.specs.Shown.{AreTold, HandView, PassView, Room};
ghost use Rattle.phase_legal.specs.Stamps.{AreFrom, AreStamps, AreUpTo, HasPort, IsStamp, notices_from, opens};
ghost use Rattle.phase_legal.specs.Turns.{AreByHands, AreOfActors, AreStarts, AreTurnsOf, start_turn, told, turns_told, words_in};

use rec_words::laws::words_spell_one_entry;

/// The turns of a protocol are a merge of the phase's lines behind its starts, where each entry of
/// their journal is by the hand of its line, the starter's hand has recorded nothing behind the
/// starts, and each actor's hand has recorded the actor's lines. A start is no line's.
pub fn turns_merge_the_lines()
    ensures merge { (lines : List Line) (starter start i : ℕ) (begun rest : List Entry)
        → AreByHands lines starter (begun ++ rest) → AreStarts begun
        → words_in (receipts start starter (begun ++ rest))
        ≡ words_in (receipts start starter begun)
        → AreOfActors starter lines
        → ((actor : ℕ) → actor < starter
        → AreTurnsOf actor i (reverse lines) (receipts start actor (begun ++ rest)))
        → IsMerge (reverse lines) i (turns_told lines rest) (turns_told lines begun)
        (turns_told lines (begun ++ rest)) }
    ensures starts { (lines : List Line) (e : Entry) → AreStarts (e ∷ [])
        → told lines e ≡ start_turn }
{}

/// Where a port alone has the sources that pass a test, a table's changes of these are those that
/// the port has made. There are none of sources that no port has.
pub fn tables_have_what_ports_made()
    ensures made { (test : ℕ → Bool) (opening : TableOpening) (before : Content) (start port : ℕ)
        (list : List Entry) (said : List JEntry) (made : List (ℕ × Change))
        → AreRecords opening before list said → IsAlone test opening port
        → AreMade (receipts start port list) made
        → of_those test (reverse (map change_of said)) ≡ reverse (changes_in made) }
    ensures none { (test : ℕ → Bool) (opening : TableOpening) (before : Content)
        (list : List Entry) (said : List JEntry) → AreRecords opening before list said
        → IsNobodys test opening → of_those test (reverse (map change_of said)) ≡ [] }
{
    words_spell_one_entry();
}

/// A table that began with what its history leaves has a real history behind the phase too.
pub fn histories_stay_real()
    ensures { (opening : TableOpening) (list : List Entry) (said : List JEntry)
        (before : List Change) → AreRecords opening (at_first opening) list said
        → ((net : Net) (num : ℕ) → at_first opening net num ≡ content_of before net num)
        → AreReal before → AreReal (reverse (map change_of said) ++ before) }
{}

/// Where a protocol's port has made what the operations of the phase give, its table's history has
/// of the protocol just the changes of all its operations, if it had before.
pub fn tables_have_what_operations_give()
    ensures { (rules : Rules) (i : ℕ) (past ops : List Op) (before : List Change)
        (opening : TableOpening) (start port : ℕ) (list : List Entry) (said : List JEntry)
        (made : List (ℕ × Change)) → own i before ≡ changes rules i past
        → AreRecords opening (at_first opening) list said
        → IsAlone (λ num. num == i) opening port → AreMade (receipts start port list) made
        → given rules i past ops ≡ reverse (changes_in made)
        → own i (reverse (map change_of said) ++ before) ≡ changes rules i (ops ++ past) }
{
    words_spell_one_entry();
}

/// What a port has made stands at most at the head of what it has seen. Receipts say one list of
/// changes.
pub fn ports_know_what_they_made()
    ensures within { (start port : ℕ) (list : List Entry) (made : List (ℕ × Change))
        → AreMade (receipts start port list) made → AreWithin (start + length list) made }
    ensures one { (receipts : List (ℕ × List ℕ)) (made other : List (ℕ × Change))
        → AreMade receipts made → AreMade receipts other → made ≡ other }
{
    words_spell_one_entry();
}

/// Marks stay right as the port makes changes above all of them.
pub fn later_changes_keep_marks()
    ensures { (rules : Rules) (i head : ℕ) (past : List Op) (target : Option ℕ)
        (made more : List (ℕ × Change)) (items : List LogItem) (ns : List Notice)
        → AreAbove head more → AreUpTo head items → AreStamps rules i past target made items ns
        → AreStamps rules i past target (made ++ more) items ns }
{}

/// An up at the head of what the port has seen is right, where the port has made all that the
/// operations of the phase give.
pub fn new_ups_are_right()
    ensures { (rules : Rules) (i head : ℕ) (past : List Op) (op : Op) (earlier : List Op)
        (target : Option ℕ) (made : List (ℕ × Change)) → AreWithin head made
        → reverse (changes_in made) ≡ given rules i past (op ∷ earlier)
        → IsStamp rules i past target made (Up head)
        (record { signal = Rise; ops = op ∷ earlier }) }
{}

/// Marks tell whether their channel is up, and so does a log.
pub fn marks_tell_who_is_up()
    ensures marks { (rules : Rules) (i : ℕ) (past ops : List Op) (target : Option ℕ)
        (made : List (ℕ × Change)) (items : List LogItem)
        → AreStamps rules i past target made items (notices_from rules i past ops)
        → opens (is_up rules i past) items ≡ is_up rules i (ops ++ past) }
    ensures log { (log : List LogItem)
        → is_some (stretch log) ≡ opens false (without_sends log) }
    ensures joined { (up : Bool) (items earlier : List LogItem)
        → opens up (items ++ earlier) ≡ opens (opens up earlier) items }
{}

/// In the whole history a channel's marks are the signals of all its protocol's operations.
pub fn marks_become_signals()
    ensures { (rules : Rules) (c : ℕ) (past ops : List Op) (before : List Change)
        (opening : TableOpening) (list : List Entry) (said : List JEntry)
        (made : List (ℕ × Change)) (items earlier : List LogItem)
        → (rules.target c ≡ None → HasPort rules c past before opening list said made)
        → AreFrom (length before) items
        → AreStamps rules (rules.owner c) past (rules.target c) made items
        (notices_from rules (rules.owner c) past ops)
        → AreUpTo (length before) earlier
        → AreSignals rules before c earlier (notices rules (rules.owner c) past)
        → AreSignals rules (reverse (map change_of said) ++ before) c (items ++ earlier)
        (notices rules (rules.owner c) (ops ++ past)) }
{
    words_spell_one_entry();
}

/// Each of an actor's questions is answered as the whole history asks, where the actor was told
/// what its passes had seen, where what its hands and its passes have seen begins the lists of the
/// ended phase, and the phase has ended as locks and tables tell.
pub fn what_was_told_is_right()
    ensures { (room : Room) (starter actor : ℕ) → actor < starter → (hands : List HandView)
        (passes : List PassView) (begun rest entries : ℕ → List Entry) (said : ℕ → List JEntry)
        (before : ℕ → List Change) → HasEnded room starter begun rest entries said before
        → ((i : ℕ) (hand : HandView) → slice_get hands i ≡ Some hand
        → IsPrefix (front hand.1) (begun i ++ rest i))
        → ((t : ℕ) (pass : PassView) → slice_get passes t ≡ Some pass
        → IsPrefix (front pass.1) (entries t))
        → (all : List Question) (replies : List Reply)
        → AreTold room actor hands passes all replies
        → Answers room.rules (λ t. length (before t))
        (λ i. ops_of (turns_told room.lines (begun i) ++ room.past i)) (histories said before)
        (λ i. turns_told room.lines (rest i)) actor all replies }
{}
