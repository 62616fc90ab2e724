//! Routes and their attributes: what a table keeps of a net, how routes are told apart, and how
//! attributes are written.
//!
//! `Path`, `Clist` and `Seq` are vectors that contracts see as lists, the first two with their
//! limits, so that a whole `Attrs` or `Route` compares with a definition's value. What a list of
//! changes leaves of a table (`after`), which of two routes is preferred (`before`, `IsBest`) and
//! which rows show a content (`Shows`) are defined in `specs/` here, below the crate that keeps
//! tables. A filter (`Judge`) is known by its meaning alone, a function of net and route.
#![tactic(auto)]

mod attributes;
mod clist;
mod gather;
mod journal;
mod judge;
pub mod laws;
mod names;
mod path;
mod route;
mod seq;
mod shared;
mod text;

pub use attributes::{Attrs, Dest, Kind, Origin};
pub use clist::{Clist, ClistFault};
pub use journal::{Chunk, JEntry};
pub use judge::{FilterFault, Judge, Verdict};
pub use names::Names;
pub use path::{Path, PathFault};
pub use route::{Change, Route, Row, Select, Src};
pub use seq::Seq;
pub use shared::Shared;
pub use text::{
    append_attrs, attr_text, write_communities, write_optional_number, write_spaced_numbers,
    write_spaced_pairs,
};
