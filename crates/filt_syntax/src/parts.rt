//! Parts of the grammar for the grammars that hold them. A function takes the words from a place on
//! and how many more levels may be opened, and gives a tree and the words after it.

pub use crate::parse::{LEVELS, tail};
pub use crate::refused_token::{Sentences, Tear, bad_behind, can_follow, tear_of};
pub use crate::statement::whole_block;
