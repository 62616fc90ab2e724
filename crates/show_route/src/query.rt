//! What `show route` is asked.
use attrs::Select;

/// A question about a table (BIRD User's Guide, "Remote control", `show route`). What it names by
/// a number stands in lists that whoever asks has.
#[derive(Clone, Copy, Debug, PartialEq, Eq)]
pub struct Query {
    /// The table's number.
    pub table: u32,
    /// Which nets are asked for.
    pub pick: Select,
    /// The number of the filter, where routes are chosen by one.
    pub choice: Option<u32>,
    /// The number of the protocol whose routes alone are shown.
    pub source: Option<u32>,
    /// The number of the protocol whose exports are shown in place of the table's routes.
    pub export: Option<u32>,
    /// Of each net the best route alone.
    pub primary: bool,
    /// With each route its attributes.
    pub all: bool,
    /// How many there are, in place of the routes.
    pub count: bool,
}
