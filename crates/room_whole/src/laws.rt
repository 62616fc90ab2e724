//! Laws of phases that threads have played.
ghost use Rattle.std.specs.Prelude.{◌≡◌, List, length, reverse};
ghost use Rattle.core_machine.specs.Legal.{IsLegal, Joined, Printed, join, nothing, started};
ghost use Rattle.core_machine.specs.Lines.{Act};
ghost use Rattle.core_setup.specs.Protocols.{rules_of};
ghost use Rattle.room_open.specs.Opening.{IsOpening};
ghost use Rattle.room_open.specs.Standing.{Stands};
ghost use Rattle.room_open.specs.declared.opening.Opening.{Opening as OpeningView};
ghost use Rattle.room_open.specs.declared.standing.Standing.{Standing as StandingView};
ghost use Rattle.room_ends.specs.Played.{AreOfFew, AreStartActs, IsPlayed};
ghost use Rattle.room_ends.specs.declared.played.PlayedRoom.{PlayedRoom as PlayedRoomView};
ghost use Rattle.room_ends.specs.After.{IsMadeOver, StandsAfter};
ghost use Rattle.room_first.specs.First.{IsFirst};
ghost use Rattle.room_whole.specs.Past.{HasPast};
ghost use Rattle.room_ends.specs.Prints.{Prints};
ghost use Rattle.room_whole.specs.Starts.{AreOfProtocols};

use attrs::Judge;
use export_lock::Sends;
use import_lock::Phase;
use phase_ends::laws::what_threads_leave_is_legal;
use rec_words::laws::words_spell_one_entry;

/// A phase that threads have played over what stood before it is legal, as it is printed. What it
/// leaves stands in the next phase, behind all that was printed until then.
pub fn played_phases_are_legal<J: Judge + Drop, P: Phase + Sends>()
    ensures { (played next : P) (past : Joined) (standing after : StandingView J)
        (opening : OpeningView J P) (starts : List Act) (made : PlayedRoomView J)
        → Stands J.verdict (P.terms played) (P.exports played) standing
        → HasPast (P.terms played).setup past standing
        → (P.terms played).past ≡ past.ops
        → AreOfFew (P.terms played).starter (length (P.terms played).setup.protocols)
        (P.terms played).lines → AreStartActs starts
        → AreOfProtocols (length (P.terms played).setup.protocols) starts
        → IsOpening P.terms P.exports P.rules played standing.tables.items
        standing.members.items opening
        → IsPlayed J.verdict P.terms P.exports P.rules opening.room starts made
        → StandsAfter standing made after
        → (P.terms next).setup ≡ (P.terms played).setup
        → P.exports next ≡ P.exports played
        → (p : Printed)
        × IsLegal (rules_of (P.terms played).setup) (started starts) past
        (reverse (P.terms played).lines) p
        × Prints (P.terms played).setup (P.terms played).lines past p made
        × HasPast (P.terms played).setup (join past p) after
        × ((P.terms next).past ≡ (join past p).ops
        → Stands J.verdict (P.terms next) (P.exports next) after) }
{
    words_spell_one_entry();
    what_threads_leave_is_legal();
}

/// Of each table and each protocol that stood one thing is left, and of each actor one list of
/// replies. What is left of a protocol is over the tables of what stood, and has an exporter if
/// that had a channel.
pub fn members_are_of_what_stood<J: Judge + Drop, P: Phase + Sends>()
    ensures { (played : P) (standing : StandingView J) (opening : OpeningView J P)
        (starts : List Act) (made : PlayedRoomView J)
        → IsOpening P.terms P.exports P.rules played standing.tables.items
        standing.members.items opening
        → IsPlayed J.verdict P.terms P.exports P.rules opening.room starts made
        → IsMadeOver standing (P.terms played).starter made }
{}

/// Before the first phase nothing was printed.
pub fn nothing_was_printed_before<J: Judge + Drop, P: Phase + Sends>()
    ensures { (played : P) (standing : StandingView J)
        → Stands J.verdict (P.terms played) (P.exports played) standing → IsFirst standing
        → HasPast (P.terms played).setup nothing standing }
{}
