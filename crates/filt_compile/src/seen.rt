//! What names in trees stand for.

use filt_code::Routine;
use filt_meaning::Fixed;
use std::alloc::Global;

/// What is seen of a scope.
#[derive(Clone, Copy)]
pub(crate) struct Seen<'s, 'a> {
    pub(crate) alloc: Global,
    pub(crate) constants: &'a [Fixed],
    /// The functions that may be called.
    pub(crate) routines: &'s [Routine<'a>],
}
