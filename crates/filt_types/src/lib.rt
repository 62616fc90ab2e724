//! The rules of types and names of filters, and their weight: which refusals a filter has
//! (`specs/Expressions`, `specs/Statements`), the first of them by place, and how much a filter
//! weighs (`specs/Weight`). Here stands the pass over expressions, on which that over statements
//! rests.
#![tactic(auto)]

mod expressions;
mod items;
mod judged;
mod refusal;
mod rules;
mod scene;
mod variable_list;
mod words;

pub use expressions::{
    call, constant_word, has_other_sort, judge, judge_each, want_sort, with_right,
};
pub use items::{Common, ItemSorts, all_items, differ, number, over_16_bits, value_of};
pub use judged::Judged;
pub use refusal::{Cause, Refusal, note, note_if};
pub use scene::{Seen, constant_named, declaring, function_named, is_seen, variable_named};
pub use variable_list::{Variable, Variables};
pub use words::{mask, set};
