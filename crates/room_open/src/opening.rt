//! A phase that can begin.
use attrs::{JEntry, Judge};
use export_lock::Sends;
use import_lock::{Hand, Phase};
use phase_actors::Actor;
use room_members::Room;
use table_shared::{TableCursor, TablePass};

/// A room, and the seats of those who act and serve in it.
#[derive(Drop)]
pub struct Opening<J: Judge + Drop, P: Phase + Sends> {
    pub room: Room<J, P>,
    /// By number. They have done none of their lines.
    pub actors: Vec<Actor>,
    /// By protocol the hand that records its start.
    pub starters: Vec<Hand>,
    /// By table a pass for who does the starts.
    pub passes: Vec<TablePass>,
    /// By channel its cursors of tables that it doesn't read.
    pub spares: Vec<Vec<TableCursor>>,
    /// By table its entries before the phase.
    pub before: Vec<Vec<JEntry>>,
}
