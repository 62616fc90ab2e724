//! A table of routes: for each net the routes of its sources, in selection order.
//!
//! A `Rib` keeps nets of one family in an ordered map, each with its routes in the order of
//! `before`, so a change costs the logarithm of the nets and a pass over its net's routes.
//! Contracts see it as a `Table`: the family, the rows, and the key for which there is room.
//!
//! A change is two calls: `reserve` takes the memory that any change of its key may want, and
//! `change` takes none, so it can't fail half way. The one net that may stand in the map without
//! routes is that of the reserved key; rows leave it out. What a change leaves is the content that
//! `attrs` defines (`after`), and one content is shown by one list of rows.
//!
//! `nets` finds, puts in and takes out nets, `routes` a net's routes; `picks` tells which nets are
//! asked for, `lent` is a row without copies, `selection` tells which route is preferred.
#![tactic(auto)]

mod lent;
mod nets;
mod picks;
mod rib;
mod routes;
mod selection;

pub use lent::LentRow;
pub use rib::{Outcome, Prospect, Rib};
pub use selection::before;
