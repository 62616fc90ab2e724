//! Laws of what a phase begins with.
ghost use Rattle.std.specs.Prelude.{◌≡◌, ℕ, List, [], Some, slice_get};
ghost use Rattle.phase_legal.specs.Shown.{HandView, IsActing, PassView};
ghost use Rattle.phase_room.specs.Opened.{AreOfEach, IsPassOf};
ghost use Rattle.room_members.specs.Begun.{IsBegun};
ghost use Rattle.room_members.specs.Members.{room_seen};
ghost use Rattle.room_members.specs.declared.begun.Begun.{Begun as BegunView};
ghost use Rattle.std.specs.declared.alloc.Global.{Global};
ghost use Rattle.std.specs.declared.vec.Vec.{Vec};

use attrs::Judge;
use export_lock::Sends;
use import_lock::Phase;

/// As a room begins each actor, with its hands of the room's protocols and a pass of each table,
/// has done none of its lines.
pub fn actors_can_begin<J: Judge + Drop, P: Phase + Sends>()
    ensures { (begun : BegunView J P) (passes : List (Vec PassView Global))
        → IsBegun P.terms P.exports P.rules begun
        → AreOfEach IsPassOf begun.room.tables.items passes
        → (actor : ℕ) (mine : Vec HandView Global) (shown : Vec PassView Global)
        → slice_get begun.hands.items actor ≡ Some mine → slice_get passes actor ≡ Some shown
        → IsActing (room_seen P.terms begun.room) actor [] mine.items shown.items }
{}
