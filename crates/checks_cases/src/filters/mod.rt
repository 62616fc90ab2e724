//! Filters: what the filter of a configuration says of a route, or the line, the column and the
//! kind of its refusal.
//!
//! A case is `ROUTE @ CONFIG`, or a configuration alone; `case_routes` and the module `judging` say
//! what they hold.
mod answer;
mod constants;
mod judging;

pub use answer::answer;
