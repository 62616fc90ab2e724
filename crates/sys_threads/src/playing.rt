//! What the locks of a phase know of the run.
use crate::parts::LentParts;
use attrs::Judge;
use export_lock::Sends;
use import_lock::Phase;
use phase_answers::Lent;
use room_ends::PlayedRoom;
use script_lines::Line;
use std::snapshot::Snapshot;

/// A phase that is over: its lines, and what it came to.
#[derive(Drop)]
pub struct Earlier<'p, J: Judge + Drop> {
    pub lines: Snapshot<Vec<Line>>,
    pub made: Snapshot<PlayedRoom<Lent<'p, J>>>,
}

/// A phase of a run, with all phases before it. It takes no memory but for what it is lent.
#[derive(Drop)]
pub struct Playing<'p, J: Judge + Drop> {
    pub parts: LentParts<'p, J>,
    /// How many speak in the script.
    pub actors: u32,
    pub lines: Snapshot<Vec<Line>>,
    pub earlier: Snapshot<Vec<Earlier<'p, J>>>,
}

impl<'p, J: Judge + Drop> Phase for Playing<'p, J> {
    ghost use Rattle.sys_threads.specs.Playing.{terms_of};

    ghost terms = { λ played. terms_of J.verdict played };
}

impl<'p, J: Judge + Drop> Sends for Playing<'p, J> {
    ghost use Rattle.sys_threads.specs.Playing.{rules_in, sent_in};

    ghost exports = { λ played. sent_in J.verdict played };

    ghost rules = { λ played. rules_in J.verdict played };
}
