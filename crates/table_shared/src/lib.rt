//! Tables that threads share: a lock round a table's rows and the one seat that appends to its
//! journal.
//!
//! A change is an entry of the journal, which cursors read without the lock. A `Port` is the token
//! of one entering channel; its receipts are the entries that it made. `Table::update` enters a
//! change, `snapshot` and `feed` show rows at the head, `start_cursor` and `start` tell a cursor or
//! a port what the table knows, `Port::share` tells a pass what the port does, and `close_phase`
//! ends the phase: then the entries of each port's number are its receipts, and what each pass and
//! cursor has seen begins the list.
//!
//! `law` has what entries owe, `desk` what lies under the lock, `update` and `shows` its calls,
//! `close` the end of a phase, `taking` what a cursor's words say.
#![tactic(auto)]

mod answers;
mod close;
mod desk;
mod law;
pub mod laws;
mod port;
mod shows;
mod table;
mod taking;
mod update;
mod view;

pub use answers::{Done, UpdateFault};
pub use close::{Closing, Phase};
pub use law::{Opening, RecordLaw, TableCursor, TablePass};
pub use port::Port;
pub use table::Table;
pub use taking::read_record;
pub use view::View;
