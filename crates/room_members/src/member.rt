//! A protocol of a phase, of either kind.
use attrs::Judge;
use export_lock::Sends;
use import_lock::Phase;
use phase_pipes::PipeSession;
use phase_room::Session;

/// A protocol, as threads share it.
#[derive(Drop)]
pub enum Member<J: Judge + Drop, P: Phase + Sends> {
    /// It has routes of its own.
    Own(Session<J, P>),
    Pipe(PipeSession<J, P>),
}
