//! Laws of lines.
ghost use Rattle.core_setup.specs.Setup.{IsSetup};
ghost use Rattle.phase_actors.specs.Script.{NamesWhatIs};
ghost use Rattle.script_lines.specs.declared.script.Line.{Line};
ghost use Rattle.sys_run.specs.Scripts.{FitsLine};
ghost use Rattle.room_members.specs.Members.{IsRoom};
ghost use Rattle.room_members.specs.declared.room.Room.{Room as RoomView};
ghost use Rattle.room_actors.specs.Script.{CanDo, HasAll};

use attrs::Judge;
use export_lock::Sends;
use import_lock::Phase;

/// A line that names what is played and fits it can be done in a room that has all of it.
pub fn lines_can_be_done<J: Judge + Drop, P: Phase + Sends>()
    ensures { (room : RoomView J P) (line : Line) → IsRoom P.terms P.exports P.rules room
        → HasAll P.terms room → IsSetup (P.terms room.played.value).setup
        → NamesWhatIs (P.terms room.played.value).setup line
        → FitsLine (P.terms room.played.value).setup line → CanDo P.terms room line }
{}
