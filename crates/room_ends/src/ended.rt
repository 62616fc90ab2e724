//! What a phase has come to.
use attrs::Judge;
use phase_close::SessionEnded;
use pipe_close::PipeEnded;
use table_shared::Phase;

/// A protocol of either kind, as the phase leaves it.
#[derive(Drop)]
pub enum MemberEnded<J: Judge> {
    /// It has routes of its own.
    Own(SessionEnded<J>),
    Pipe(PipeEnded<J>),
}

/// What a phase with threads has made: of each table, and of each protocol, both by their numbers.
#[derive(Drop)]
pub struct RoomEnded<J: Judge> {
    pub phases: Vec<Phase>,
    pub members: Vec<MemberEnded<J>>,
}
