//! What stands between two phases.
use attrs::Judge;
use phase_open::{StandingChannel, StandingProtocol, StandingTable};

/// A pipe, with the numbers of its tables, and its directions: the one from its primary table to
/// its peer table, and the one back.
#[derive(Drop)]
pub struct StandingPipe<J: Judge> {
    pub primary: u32,
    pub peer: u32,
    pub up: bool,
    pub out: StandingChannel<J>,
    pub back: StandingChannel<J>,
}

/// A protocol of either kind.
#[derive(Drop)]
pub enum StandingMember<J: Judge> {
    /// It has routes of its own.
    Own(StandingProtocol<J>),
    Pipe(StandingPipe<J>),
}

/// All tables and protocols, by their numbers.
#[derive(Drop)]
pub struct Standing<J: Judge> {
    pub tables: Vec<StandingTable>,
    pub members: Vec<StandingMember<J>>,
}
