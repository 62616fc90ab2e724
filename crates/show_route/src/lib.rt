//! Replies to `show route`: which routes stand in a table, in the words of BIRD's remote control.
//!
//! A `Query` says what is asked: of which nets, of one protocol, as one protocol exports them, the
//! best of each net, those that a filter accepts; and whether attributes are told too, or only how
//! many there are. `answer_query` answers it over the rows that it asks for, with the filter and
//! the channel that it names, `answer_table` over a table. Rows are lent by a table (`LentRow`), so
//! no route is copied.
//!
//! Contracts say which routes of the table's content are shown, in which order, and how
//! (`IsReply` of specs/Shown): they speak of what a filter and a channel make of a route, and not
//! of rows. `laws` has what an operator expects of it.
//!
//! `show` goes through rows and tells what is to be shown of each, `reply` writes a route, `query`
//! is what is asked, `whole` the whole reply.
#![tactic(auto)]

pub mod laws;
mod query;
mod reply;
mod show;
mod whole;

pub use query::Query;
pub use whole::{answer_query, answer_table};
