//! What is run, lent by who holds it.
use attrs::Judge;
use show_route::Query;
use sys_run::{ProtocolParts, TableParts};

/// The parts that make what is run, and of which a core is made too.
#[derive(Drop)]
#[derive_where(Clone, Copy)]
pub struct LentParts<'p, J: Judge> {
    pub tables: &'p [TableParts],
    pub protocols: &'p [ProtocolParts<J>],
    /// How many changes the journal of each table holds.
    pub cells: u32,
    /// The filters by which queries choose routes, by number.
    pub choices: &'p [J],
    /// What lines ask, by number.
    pub queries: &'p Vec<Query>,
}
