//! Sets and masks of the filter language: which numbers, pairs, prefixes and paths they take (BIRD
//! User's Guide, "Data types").
//!
//! A set is seen as the list of its items, in the order in which they were written, and has what
//! some item takes. A number's item is a range, a pair's two ranges; a prefix's item is a net and
//! the lengths that count, and takes what has its family, such a length, and as many first bits as
//! both have. A mask is seen as the list of its items too, and matches a path that can be cut into
//! one piece for each of them.
//!
//! Nothing here but `copy` takes memory. The items of a set of numbers or of prefixes are put in
//! order when it is made, which no answer tells, and searches by halves answer; where ranges of
//! numbers overlap, and for pairs, it is a walk over the items. A mask costs its items times the
//! path's length.
#![tactic(auto)]

mod covering;
mod ints;
pub mod laws;
mod mask;
mod pairs;
mod prefixes;
mod written;

pub use ints::{IntItem, IntSet};
pub use mask::{Atom, Mask, MaskItem};
pub use pairs::{PairItem, PairSet};
pub use prefixes::{PrefixItem, PrefixSet};
