//! A room that was played.
use crate::ended::RoomEnded;
use attrs::Judge;
use phase_actors::Told;

/// What the phase has made, and by actor what it was told, in the order of its questions.
#[derive(Drop)]
pub struct PlayedRoom<J: Judge + Drop> {
    pub ended: RoomEnded<J>,
    pub told: Vec<Vec<Told>>,
}
