//! Laws of actors.
ghost use Rattle.std.specs.Prelude.{◌≡◌, ℕ, [], List, Some, slice_get};
ghost use Rattle.jour.specs.Seats.{front};
ghost use Rattle.core_setup.specs.Setup.{Setup};
ghost use Rattle.phase_legal.specs.Shown.{HandView, PassView, Room};
ghost use Rattle.phase_actors.specs.Acting.{HasDone, HasSeats};

/// An actor whose hands have seen nothing can begin.
pub fn actors_can_begin()
    ensures { (setup : Setup) (room : Room) (actor : ℕ) (hands : List HandView)
        (passes : List PassView) → HasSeats room actor hands passes
        → ((i : ℕ) (hand : HandView) → slice_get hands i ≡ Some hand → front hand.1 ≡ [])
        → HasDone setup room actor [] hands passes [] }
{}
