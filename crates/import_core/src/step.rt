//! What an operation comes to.
use crate::Op;
use attrs::{Change, Seq};

/// What an operation means for the protocol's exports.
#[derive(Clone, Copy, Debug, PartialEq, Eq)]
pub enum Mark {
    /// Nothing.
    Stay,
    /// They begin.
    Up,
    /// They end.
    Down,
    /// They are sent anew.
    Refresh,
}

/// What an operation comes to.
#[derive(Debug, Drop)]
pub struct Step {
    /// The nets whose accepted route is another one now, each with it, in the order of nets.
    pub changes: Seq<Change>,
    /// Whether a route was over the limit, also where that had no effect.
    pub over: bool,
    pub mark: Mark,
}

/// An operation that was done.
#[derive(Debug, Drop)]
pub struct Done {
    pub op: Op,
    /// Whether a route was over the limit in it.
    pub over: bool,
}
