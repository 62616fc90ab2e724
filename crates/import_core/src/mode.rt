//! What a protocol's imports do.

/// What a protocol's imports do.
#[derive(Clone, Copy, Debug, PartialEq, Eq)]
pub enum Mode {
    /// No session is up: operations change nothing until one is.
    Idle,
    Up,
    /// Switched off by hand.
    Disabled,
    /// Switched off at the limit of its imports.
    Limited,
}
