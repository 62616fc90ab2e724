//! What a step of the machine comes to.

use attrs::FilterFault;

/// What a step of the machine comes to.
#[derive(Clone, Copy)]
pub(crate) enum Step {
    /// The machine goes on.
    On,
    /// The filter accepts, with the attributes as they are.
    Accepts,
    Rejects(Option<FilterFault>),
}
