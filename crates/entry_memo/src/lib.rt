//! Remembers which entries of a table's journal were read lately, for all who read them.
//!
//! The channels of a table read the same entries, each by words of its own. Where the words are
//! those of an entry that a `Memo` remembers, what they say comes from there: so the attributes are
//! shared, and nothing is made anew.
#![tactic(auto)]

mod memo;
mod slot;

pub use memo::Memo;
