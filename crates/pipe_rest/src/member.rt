//! What is left of a protocol of either kind.
use attrs::Judge;
use phase_close::SessionLeft;
use pipe_close::PipeLeft;

/// What is left of a protocol, once its turns and marks have ended.
#[derive(Drop)]
pub enum MemberLeft<J: Judge> {
    /// It has routes of its own.
    Own(SessionLeft<J>),
    Pipe(PipeLeft<J>),
}
