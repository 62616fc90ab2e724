//! The parsers of the forms, for the grammars that hold them. Each function takes the words from a
//! place on and how many more levels may be opened, and gives a tree and the words after it.

pub use crate::bracket::of_attribute;
pub use crate::expression::{arguments, expression, method};
pub use crate::items::{items, label, mask_items, next_num, num};
pub use crate::operators::next_attribute;
pub use crate::variable_type::variable_type;
