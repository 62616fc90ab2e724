//! Routes in tables of cases: how a case writes one (`read_route`), and what a filter changed of
//! one (`write_changes`).
#![tactic(auto)]

mod changes;
mod routes;

pub use changes::write_changes;
pub use routes::read_route;
