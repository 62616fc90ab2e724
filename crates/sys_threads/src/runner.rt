//! The runner.
ghost use Rattle.std.specs.Prelude.{◌≡◌, ◌<◌, ◌≤◌, ◌++◌, ◌∷◌, ℕ, [], List, IfOk, length};
ghost use Rattle.std.specs.List.{All};
ghost use Rattle.core_machine.specs.Lines.{Line as MachineLine};
ghost use Rattle.core_setup.specs.Channels.{channels as channels_of};
ghost use Rattle.core_setup.specs.Setup.{IsSetup, Setup};
ghost use Rattle.phase_answers.specs.declared.lent.Lent.{Lent as LentView};
ghost use Rattle.phase_open.specs.declared.standing.StandingTable.{StandingTable as TableView};
ghost use Rattle.report.specs.declared.phase.PhaseReport.{PhaseReport as Report};
ghost use Rattle.room_actors.specs.Script.{IsScript};
ghost use Rattle.room_first.specs.Sent.{lent_by};
ghost use Rattle.room_open.specs.Opening.{IsOpening};
ghost use Rattle.room_open.specs.Standing.{Stands};
ghost use Rattle.room_open.specs.declared.opening.Opening.{Opening as OpeningView};
ghost use Rattle.room_open.specs.declared.standing.StandingMember.{StandingMember as HeldView};
ghost use Rattle.room_ends.specs.Played.{IsPlayed, starts_of};
ghost use Rattle.sys_run.specs.Scripts.{phase_of};
ghost use Rattle.sys_threads.specs.Inside.{IsOneMore};
ghost use Rattle.sys_threads.specs.Playing.{rules_in, sent_in, setup_lent, terms_of};
ghost use Rattle.sys_threads.specs.Running.{CanPlay, HasRun, IsFew};
ghost use Rattle.sys_threads.specs.declared.playing.Playing.{Playing as PlayingView};

use crate::fault::RunFault;
use crate::logged::none_logged;
use crate::named::copy_names;
use crate::parts::LentParts;
use crate::playing::{Earlier, Playing};
use crate::statics::statics_of;
use attrs::{JEntry, Judge, Seq};
use bits_ip::OutOfMemory;
use export_lock::Sends;
use import_lock::Phase;
use outside_io::Gate;
use phase_actors::Answers;
use phase_answers::{Answering, Lent};
use report::PhaseReport;
use room_actors::laws::lines_can_be_done;
use room_ends::PlayedRoom;
use room_first::{count_channels, sources_of, stand_first};
use room_open::{Opening, Standing, open_room};
use room_report::{log_lengths, note_numbers, report_phase, stand_after};
use room_run::play_room;
use room_whole::laws::{
    members_are_of_what_stood, nothing_was_printed_before, played_phases_are_legal,
};
use script_lines::{Line, Name};
use show_route::Query;
use std::alloc::Global;
use std::hash::RandomState;
use std::snapshot::Snapshot;
use std::sync::Wait;
use std::thread::Threads;

/// The journals of a phase have so many cells in any case, where these were asked for: an operation
/// of one line may change many nets.
const FEWEST_CELLS: usize = 64;

/// Runs a script phase by phase: what stands between two phases, and what is left of those before.
#[derive(Drop)]
pub struct Runner<'p, J: Judge + Drop> {
    alloc: Global,
    parts: LentParts<'p, J>,
    /// How many speak in the script.
    actors: u32,
    /// How many channels there are.
    channels: u32,
    /// The protocols' names.
    names: Vec<Seq<u8>>,
    /// By channel how many items of its log were reported.
    logged: Vec<usize>,
    earlier: Vec<Earlier<'p, J>>,
    standing: Standing<Lent<'p, J>>,
    /// Which protocols are still to start.
    statics: Vec<u32>,
}

impl<'p, J: Judge + Drop> Runner<'p, J> {
    /// A runner that has run nothing, for a script in which so many speak. Nothing that is printed
    /// depends on the hasher.
    pub fn of(
        alloc: Global,
        hasher: RandomState,
        parts: LentParts<'p, J>,
        actors: usize,
    ) -> Result<Runner<'p, J>, OutOfMemory>
        requires setup { IsSetup (setup_lent J.verdict parts) }
        requires few { IsFew (setup_lent J.verdict parts) actors }
        ensures { IfOk result (λ runner. (names : List (List ℕ)) → length names ≡ actors
            → HasRun J.verdict (setup_lent J.verdict parts.entry) names [] [] runner) }
    {
        nothing_was_printed_before::<Lent<'p, J>, Playing<'p, J>>();
        let standing = stand_first(alloc, hasher, parts.tables, parts.protocols)?;
        let channels = count_channels(parts.protocols);
        Ok(Runner {
            alloc,
            parts,
            actors: actors as u32,
            channels,
            names: copy_names(alloc, parts.protocols)?,
            logged: none_logged(alloc, channels)?,
            earlier: Vec::new(alloc),
            standing,
            statics: statics_of(alloc, parts.protocols)?,
        })
    }
}

impl<'p, J: Judge + Drop + Sync> Runner<'p, J> {
    /// Runs one more phase: in the first one static protocols start, then a thread for each actor
    /// does its lines while four workers serve channels and pipes, and a sync ends the phase.
    /// `actors` are the names of all who speak in the script.
    pub fn play<R: Threads + Wait + Sync, G: Gate + Sync>(
        self,
        rt: &R,
        gate: &G,
        actors: &[Name],
        lines: &Vec<Line>,
    ) -> Result<(PhaseReport, Runner<'p, J>), RunFault>
        requires { (setup : Setup) × (scripts : List (List MachineLine))
            × (reports : List Report) × HasRun J.verdict setup actors.now scripts reports self
            × CanPlay setup (length actors.now) lines.now.items }
        ensures { IfOk result (λ both. (setup : Setup) (scripts : List (List MachineLine))
            (reports : List Report) → HasRun J.verdict setup actors.now scripts reports self.entry
            → HasRun J.verdict setup actors.now
            (scripts ++ phase_of setup.queries lines.now.items ∷ []) (reports ++ both.0 ∷ [])
            both.1) }
    {
        played_phases_are_legal::<Lent<'p, J>, Playing<'p, J>>();
        members_are_of_what_stood::<Lent<'p, J>, Playing<'p, J>>();
        let Runner {
            alloc,
            parts,
            actors: seats,
            channels,
            names,
            logged,
            earlier,
            standing,
            statics,
        } = self;
        let numbers = note_numbers(alloc, &standing.members)?;
        let playing = Playing {
            parts,
            actors: seats,
            lines: Snapshot::of(lines),
            earlier: Snapshot::of(&earlier),
        };
        let (made, before) = play_phase(
            alloc, rt, gate, &playing, channels, standing, lines, &statics,
        )?;
        let number = earlier.len() as u64 + 1;
        let tables = parts.tables;
        let report = report_phase(alloc, number, tables, &names, actors, lines, &logged, &made)?;
        let earlier = push_earlier(earlier, lines, &made)?;
        let lengths = log_lengths(alloc, &made)?;
        let standing = stand_after(alloc, tables, &numbers, before, made)?;
        let runner = Runner {
            alloc,
            parts,
            actors: seats,
            channels,
            names,
            logged: lengths,
            earlier,
            standing,
            statics: Vec::new(alloc),
        };
        Ok((report, runner))
    }
}

/// One phase more is over.
fn push_earlier<'p, J: Judge + Drop>(
    mut earlier: Vec<Earlier<'p, J>>,
    lines: &Vec<Line>,
    made: &PlayedRoom<Lent<'p, J>>,
) -> Result<Vec<Earlier<'p, J>>, OutOfMemory>
    ensures { IfOk result (λ later.
        IsOneMore earlier.entry.items lines.now made.now later.items) }
{
    earlier.push(Earlier {
        lines: Snapshot::of(lines),
        made: Snapshot::of(made),
    })?;
    Ok(earlier)
}

/// Plays a room, as `play_room` does, with its fault as the run's.
fn play_opened<
    R: Threads + Wait + Sync,
    G: Gate + Sync,
    A: Answers + Sync,
    J: Judge + Drop + Send,
    P: Phase + Sends + Send,
>(
    alloc: Global,
    rt: &R,
    gate: &G,
    answers: &A,
    opening: Opening<J, P>,
    queries: &Vec<Query>,
    lines: &Vec<Line>,
    statics: &[u32],
) -> Result<(PlayedRoom<J>, Vec<Vec<JEntry>>), RunFault>
    requires opening { (played : P) × (tables : List TableView)
        × (members : List (HeldView J))
        × IsOpening P.terms P.exports P.rules played tables members opening }
    requires script { IsScript P.terms opening.room queries.now.items lines.now.items }
    requires setup { A.setup answers.now ≡ (P.terms opening.room.played.value).setup }
    requires statics { All (λ (number : ℕ). number < length opening.room.members.items)
        statics.now }
    ensures { IfOk result (λ made. IsPlayed J.verdict P.terms P.exports P.rules
        opening.room (starts_of statics.now) made.0
        × (made.1 ≡ opening.before)) }
{
    let made = play_room(alloc, rt, gate, answers, opening, queries, lines, statics)?;
    Ok(made)
}

/// How many cells the journals of a phase have, of those that were asked for: a phase of few lines
/// takes no more memory than these may fill.
fn journal_cells(asked: u32, lines: usize) -> u32
    requires { 0 < asked }
    ensures some { 0 < result }
    ensures most { result ≤ asked }
{
    lines.max(FEWEST_CELLS).min(asked as usize) as u32
}

/// Opens the room of a phase, and plays it.
fn play_phase<'p, R: Threads + Wait + Sync, G: Gate + Sync, J: Judge + Drop + Sync>(
    alloc: Global,
    rt: &R,
    gate: &G,
    playing: &Playing<'p, J>,
    channels: u32,
    standing: Standing<Lent<'p, J>>,
    lines: &Vec<Line>,
    statics: &[u32],
) -> Result<(PlayedRoom<Lent<'p, J>>, Vec<Vec<JEntry>>), RunFault>
    requires stands { Stands (lent_by J.verdict) (terms_of J.verdict playing.now)
        (sent_in J.verdict playing.now) standing }
    requires lines { playing.now.lines.value.items ≡ lines.now.items }
    requires few { IsFew (setup_lent J.verdict playing.now.parts) playing.now.actors }
    requires can { CanPlay (setup_lent J.verdict playing.now.parts) playing.now.actors
        lines.now.items }
    requires channels { channels ≡ length (channels_of (setup_lent J.verdict playing.now.parts)) }
    requires statics { All (λ (number : ℕ).
        number < length (setup_lent J.verdict playing.now.parts).protocols) statics.now }
    ensures { IfOk result (λ made. (opening : OpeningView (LentView J) (PlayingView J))
        × IsOpening (terms_of J.verdict) (sent_in J.verdict) (rules_in J.verdict) playing.now
        standing.entry.tables.items standing.entry.members.items opening
        × IsPlayed (lent_by J.verdict) (terms_of J.verdict) (sent_in J.verdict)
        (rules_in J.verdict) opening.room (starts_of statics.now) made.0
        × (made.1 ≡ opening.before)) }
{
    lines_can_be_done::<Lent<'p, J>, Playing<'p, J>>();
    let parts = playing.parts;
    let sources = sources_of(alloc, parts.protocols)?;
    let opening = open_room(
        alloc,
        playing,
        sources,
        journal_cells(parts.cells, lines.len()),
        playing.actors,
        channels,
        standing,
    )?;
    let answers = Answering::of(
        alloc,
        parts.cells,
        parts.tables,
        parts.protocols,
        parts.choices,
        parts.queries.as_slice(),
    );
    play_opened(
        alloc,
        rt,
        gate,
        &answers,
        opening,
        parts.queries,
        lines,
        statics,
    )
}
