//! Why a text isn't read as a script.
use crate::script::Condition;
use thiserror::Error;

/// Why a line is refused. In a line the first kind of these that applies is given.
#[derive(Clone, Copy, Debug, PartialEq, Eq, Error)]
pub enum ScriptKind {
    /// The line isn't of the grammar, has a prefix or an address that is none, or its actor's name
    /// has over 64 bytes.
    #[error("S1 Syntax")]
    Syntax,
    /// An operation of a session by an actor that isn't the name of a bgp protocol.
    #[error("S2 UnknownActor")]
    UnknownActor,
    /// No channel, protocol, table or filter has this name, or the protocol whose exports are asked
    /// for is none of BGP.
    #[error("S3 UnknownName")]
    UnknownName,
    /// A net or a gateway is of another family than the channel or the table.
    #[error("S4 Nettype")]
    Nettype,
    /// A number is over 4294967295, a part of a community over 65535, a path has over 120 numbers,
    /// or there are over 64 different communities.
    #[error("S5 AttrLimit")]
    AttrLimit,
    /// A `!` line, where scripts may not say which channel works when.
    #[error("S6 ScheduleInRun")]
    ScheduleInRun,
    /// The first line of a 65th actor.
    #[error("S7 Actors")]
    Actors,
    /// What stands behind `where` is no condition. `read_script` doesn't judge this: whoever knows
    /// the language of conditions gives it.
    #[error("S8 Expression")]
    Expression,
}

/// Why a text isn't read as a script.
#[derive(Debug, Drop, Error)]
pub enum ScriptFault {
    /// The line of this number is refused. It is the first such line; all lines are counted, from
    /// 1. The lines before it have these conditions, in their order: nothing is known yet of what
    /// they say.
    #[error("{line} {kind}")]
    Refused {
        line: u32,
        kind: ScriptKind,
        conditions: Vec<Condition>,
    },
    /// Memory was wanted and not given.
    #[error("out of memory")]
    Memory,
}
