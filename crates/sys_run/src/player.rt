//! A core: what plays a script.
ghost use Rattle.std.specs.Prelude.{◌≡◌, ◌<◌, ◌≤◌, ◌^◌, ◌++◌, ◌-◌, ℕ, [], ◌∷◌, length, List, IfOk, IsSome, OnOk, reverse, Some, map, option_copied, option_map, slice_get};
ghost use Rattle.std.specs.List.{All};
ghost use Rattle.std.specs.declared.alloc.Global.{Global};
ghost use Rattle.std.specs.declared.vec.Vec.{Vec};
ghost use Rattle.attrs.specs.declared.route.Change.{Change as HeldChange};
ghost use Rattle.core_machine.specs.Channels.{times};
ghost use Rattle.core_machine.specs.Legal.{Joined};
ghost use Rattle.core_machine.specs.Lines.{Act, Line as MachineLine, Reply};
ghost use Rattle.core_machine.specs.Machine.{AllObey, Applies, Begins, Plays, State, Steps, appended};
ghost use Rattle.core_machine.specs.Rounds.{HasRounds, round};
ghost use Rattle.core_setup.specs.Announced.{FitsProtocol};
ghost use Rattle.core_setup.specs.Protocols.{rules_of, signal_of, starts, with_begin};
ghost use Rattle.core_setup.specs.Setup.{IsSetup, Protocol as SeenProtocol, Setup};
ghost use Rattle.report.specs.declared.phase.PhaseReport.{PhaseReport as Report};
ghost use Rattle.sys_run.specs.Cores.{AllFit, AreAdmitted, Ends, Holds, HoldsWith, ImportsTo, IsAnswered, IsCore, Keeps, MayObey, choice_in, counted, export_in, made_by, table_of, through_of};
ghost use Rattle.run_tables.specs.Routes.{AreRoutes, Holds as RoutesHold};
ghost use Rattle.sys_run.specs.Parts.{setup_seen};
ghost use Rattle.sys_run.specs.Playing.{HasPlayed, IsPlaying, starts_in};
ghost use Rattle.sys_run.specs.Scripts.{AsksWhatIs, FitsLine, asked_table, line_of, phase_of};
ghost use Rattle.sys_run.specs.declared.player.Answered.{Answered as HeldAnswer};
ghost use Rattle.sys_run.specs.declared.protocol.Protocol.{Protocol as HeldProtocol};

use crate::made::{Made, make_protocols, make_routes, make_tables, passed_by};
use crate::parts::{ProtocolParts, TableParts};
use crate::phase::Begun;
use crate::protocol::{Body, Protocol, Turned};
use attrs::{Change, Judge, Seq};
use bits_ip::OutOfMemory;
use core_machine::laws::{rounds_are_few, syncs_end};
use export_core::Through;
use import_core::{Done, Mark, Op};
use report::PhaseReport;
use run_tables::{Channel, Routes};
use script_lines::{Line, Name};
use show_route::{Query, answer_table};
use std::alloc::Global;
use std::hash::RandomState;

/// A reply to `show route`.
#[derive(Debug, Drop)]
pub(crate) struct Answered {
    /// The number of the table.
    pub(crate) table: u32,
    /// The table's position.
    pub(crate) at: u64,
    pub(crate) text: Vec<u8>,
}

/// Tables, and protocols with their channels, that play scripts.
#[derive(Debug, Drop)]
pub struct Core<J: Judge> {
    pub(crate) alloc: Global,
    /// How many phases have ended.
    pub(crate) phases: u64,
    pub(crate) routes: Routes<J>,
    /// The protocols, by their numbers.
    pub(crate) protocols: Vec<Protocol<J>>,
    /// The replies of the phase, by the actors' numbers.
    pub(crate) replies: Vec<Vec<Answered>>,
    pub(crate) tables: Vec<TableParts>,
    /// The protocols' names.
    pub(crate) names: Vec<Seq<u8>>,
    /// The channels' names.
    pub(crate) channels: Vec<Seq<u8>>,
    /// The filters by which queries choose routes, by number.
    pub(crate) choices: Vec<J>,
    /// What lines ask, by number.
    pub(crate) queries: Vec<Query>,
}

impl<J: Judge + Drop> Core<J> {
    /// A core that has played nothing. The journal of each table holds so many changes for the
    /// channels that are still to take them. The channels are numbered in the order of protocols:
    /// of a pipe P `P.export` and then `P.import`. Lines ask the queries by their numbers, and
    /// queries name the filters of `choices` by theirs. What is printed doesn't depend on the
    /// hasher.
    pub fn make(
        alloc: Global,
        hasher: RandomState,
        cells: u32,
        tables: Vec<TableParts>,
        protocols: Vec<ProtocolParts<J>>,
        choices: Vec<J>,
        queries: Vec<Query>,
    ) -> Result<Core<J>, OutOfMemory>
        requires few { length protocols.items < 2 ^ 32 }
        requires setup { IsSetup (setup_seen J.verdict tables.items protocols.items cells
            choices.items queries.items) }
        ensures { IfOk result (λ core. (actors : List (List ℕ)) → HasPlayed J.verdict
            (setup_seen J.verdict tables.items protocols.items cells choices.items queries.items)
            actors [] [] core) }
    {
        let held = make_tables(alloc, &tables)?;
        let passed = passed_by(alloc, tables.len(), &protocols)?;
        let made = make_protocols(alloc, hasher, &tables, passed, protocols)?;
        let Made {
            names,
            protocols,
            channels,
            channel_names,
            sources,
        } = made;
        Ok(Core {
            alloc,
            phases: 0,
            routes: make_routes(alloc, u64::from(cells), held, channels, sources)?,
            protocols,
            replies: Vec::new(alloc),
            tables,
            names,
            channels: channel_names,
            choices,
            queries,
        })
    }
}

impl<J: Judge> Core<J> {
    /// Plays one more phase: these lines in their order, in the first phase behind the start of
    /// each static protocol, and then a sync. `actors` are the names of all who speak in the
    /// script. What the lines ask is among the core's queries, and what they announce is of the
    /// family of the protocol's table.
    ///
    /// `OutOfMemory` comes where memory is refused. The core is of no use then.
    pub fn play(&mut self, actors: &[Name], lines: Vec<Line>) -> Result<PhaseReport, OutOfMemory>
        requires { IsPlaying J.verdict lines.items self.old }
        ensures { IfOk result (λ report. (setup : Setup) (scripts : List (List MachineLine))
            (reports : List Report) → HasPlayed J.verdict setup actors.now scripts reports self.old
            → HasPlayed J.verdict setup actors.now
            (scripts ++ phase_of setup.queries lines.items ∷ []) (reports ++ report ∷ [])
            self.new) }
    {
        syncs_end();
        rounds_are_few();
        let begun = Begun::of(self)?;
        self.replies = no_replies(self.alloc, actors.len())?;
        self.begin()?;
        self.run(lines)?;
        self.sync()?;
        self.finish(actors, &begun)
    }

    /// Starts the static protocols, in their order, where no phase has ended yet.
    fn begin(&mut self) -> Result<(), OutOfMemory>
        requires { Holds J.verdict self.old }
        ensures core { OnOk result ((setup : Setup) (past : Joined) (s : State)
            → IsCore J.verdict setup past s self.old
            → (t : State) × Begins (rules_of setup) (starts_in setup self.old.phases) s t
            × IsCore J.verdict setup past t self.new) }
        ensures kept { OnOk result (Keeps self.old self.new) }
    {
        if self.phases == 0 {
            self.start()
        } else {
            Ok(())
        }
    }

    /// Starts the static protocols, in their order.
    fn start(&mut self) -> Result<(), OutOfMemory>
        requires { Holds J.verdict self.old }
        ensures core { OnOk result ((setup : Setup) (past : Joined) (s : State)
            → IsCore J.verdict setup past s self.old
            → (t : State) × Begins (rules_of setup) (starts setup) s t
            × IsCore J.verdict setup past t self.new) }
        ensures kept { OnOk result (Keeps self.old self.new) }
    {
        for number in 0..self.protocols.len() {
            self.start_one(number)?;
        }
        Ok(())
    }

    /// Starts a protocol, if it is static.
    fn start_one(&mut self, number: usize) -> Result<(), OutOfMemory>
        requires holds { Holds J.verdict self.old }
        requires there { number < length self.old.protocols.items }
        ensures core { OnOk result ((setup : Setup) (past : Joined) (s : State)
            (p : SeenProtocol) → IsCore J.verdict setup past s self.old
            → slice_get setup.protocols number ≡ Some p
            → (t : State) × Begins (rules_of setup) (with_begin number p.body []) s t
            × IsCore J.verdict setup past t self.new) }
        ensures kept { OnOk result (Keeps self.old self.new) }
    {
        if self.protocols[number].body.is_static() {
            self.apply(number, Op::Start)?;
        }
        Ok(())
    }

    /// Does the lines in their order.
    fn run(&mut self, lines: Vec<Line>) -> Result<(), OutOfMemory>
        requires holds { HoldsWith J.verdict (λ setup. All (FitsLine setup) lines.items)
            self.old }
        requires asked { All (AsksWhatIs (length self.old.queries.items)) lines.items }
        ensures core { OnOk result ((setup : Setup) (past : Joined) (s : State)
            → IsCore J.verdict setup past s self.old
            → (t : State) × Plays (rules_of setup) (phase_of setup.queries lines.items) s t
            × IsCore J.verdict setup past t self.new) }
        ensures kept { OnOk result (Keeps self.old self.new) }
    {
        for line in lines {
            self.step(line)?;
        }
        Ok(())
    }

    fn step(&mut self, line: Line) -> Result<(), OutOfMemory>
        requires holds { HoldsWith J.verdict (λ setup. FitsLine setup line) self.old }
        requires asked { AsksWhatIs (length self.old.queries.items) line }
        ensures core { OnOk result ((setup : Setup) (past : Joined) (s : State)
            → IsCore J.verdict setup past s self.old
            → (t : State) × Steps (rules_of setup) (line_of setup.queries line) s t
            × IsCore J.verdict setup past t self.new) }
        ensures kept { OnOk result (Keeps self.old self.new) }
    {
        match line {
            Line::Take { channel, count } => self.take(channel, count),
            Line::Push { channel, count } => self.push(channel, count),
            Line::Apply { protocol, op, .. } => self.apply(protocol as usize, op),
            Line::Show { actor, query } => self.show(actor, query),
        }
    }

    /// Does an operation: its changes come to the protocol's table, and then its channels obey.
    /// Without such a protocol it does nothing.
    fn apply(&mut self, number: usize, op: Op) -> Result<(), OutOfMemory>
        requires { HoldsWith J.verdict (λ setup. FitsProtocol setup number op) self.old }
        ensures core { OnOk result ((setup : Setup) (past : Joined) (s : State) (a : Act)
            → IsCore J.verdict setup past s self.old → a.protocol ≡ number → a.op ≡ op
            → (t : State) × Applies (rules_of setup) a s t
            × IsCore J.verdict setup past t self.new) }
        ensures kept { OnOk result (Keeps self.old self.new) }
    {
        if number >= self.protocols.len() {
            return Ok(());
        }
        let Turned {
            changes,
            over,
            mark,
        } = self.protocols[number].body.turn(self.alloc, &op)?;
        self.change(number, changes.into_vec())?;
        self.obey(number, mark)?;
        self.protocols[number].done.push(Done { op, over })?;
        Ok(())
    }

    /// Changes come to the table that a protocol imports to; a pipe makes none.
    fn change(&mut self, number: usize, changes: Vec<Change>) -> Result<(), OutOfMemory>
        requires routes { RoutesHold J.verdict self.old.routes }
        requires there { number < length self.old.protocols.items }
        requires sources { All (λ (c : HeldChange).
            IsSome c.new → c.num < length self.old.routes.sources.items) changes.items }
        requires table { (held : HeldProtocol J)
            → slice_get self.old.protocols.items number ≡ Some held
            → ImportsTo (length self.old.routes.tables.items) held.body }
        requires admitted { (held : HeldProtocol J)
            → slice_get self.old.protocols.items number ≡ Some held
            → AreAdmitted held.body self.old.routes changes.items }
        ensures routes { OnOk result ((setup : Setup) (s : State) (held : HeldProtocol J)
            → AreRoutes J.verdict setup s self.old.routes
            → slice_get self.old.protocols.items number ≡ Some held
            → AreRoutes J.verdict setup
            (appended (rules_of setup) (table_of held.body)
            (made_by held.body (reverse changes.items)) s)
            self.new.routes) }
        ensures kept { self.new ≡ record self.old { routes = self.new.routes } }
    {
        match &self.protocols[number].body {
            Body::Source(source) => self.routes.append_all(source.table, changes),
            Body::Pipe(_) => Ok(()),
        }
    }

    /// A protocol's channels obey, in their order.
    fn obey(&mut self, number: usize, mark: Mark) -> Result<(), OutOfMemory>
        requires there { number < length self.old.protocols.items }
        requires holds { (held : HeldProtocol J)
            → slice_get self.old.protocols.items number ≡ Some held
            → MayObey J.verdict mark held.from held.upto self.old.routes }
        ensures routes { OnOk result ((setup : Setup) (s : State) (held : HeldProtocol J)
            → AreRoutes J.verdict setup s self.old.routes
            → slice_get self.old.protocols.items number ≡ Some held
            → AllFit (signal_of mark) held.from held.upto s
            → (t : State)
            × AllObey (signal_of mark) (rules_of setup)
            (counted held.from (held.upto - held.from)) s t
            × AreRoutes J.verdict setup t self.new.routes) }
        ensures kept { self.new ≡ record self.old { routes = self.new.routes } }
    {
        let from = self.protocols[number].from;
        let upto = self.protocols[number].upto;
        for channel in from..upto {
            self.routes.obey(channel, mark)?;
        }
        Ok(())
    }

    /// Has a channel take so many changes, or all that there are. One that isn't there takes none.
    fn take(&mut self, channel: u32, count: u32) -> Result<(), OutOfMemory>
        requires { Holds J.verdict self.old }
        ensures core { OnOk result ((setup : Setup) (past : Joined) (s : State)
            → IsCore J.verdict setup past s self.old
            → (t : State)
            × Steps (rules_of setup) (line_of setup.queries (Line.Take channel count)) s t
            × IsCore J.verdict setup past t self.new) }
        ensures kept { OnOk result (Keeps self.old self.new) }
    {
        let number = channel as usize;
        if number >= self.routes.channels.len() {
            return Ok(());
        }
        self.routes.take(number, count)
    }

    /// Has a channel push so many marks, or all that there are. One that isn't there has none.
    fn push(&mut self, channel: u32, count: u32) -> Result<(), OutOfMemory>
        requires { Holds J.verdict self.old }
        ensures core { OnOk result ((setup : Setup) (past : Joined) (s : State)
            → IsCore J.verdict setup past s self.old
            → (t : State)
            × Steps (rules_of setup) (line_of setup.queries (Line.Push channel count)) s t
            × IsCore J.verdict setup past t self.new) }
        ensures kept { OnOk result (Keeps self.old self.new) }
    {
        let number = channel as usize;
        if number >= self.routes.channels.len() {
            return Ok(());
        }
        self.routes.push(number, count)
    }

    /// Answers a query. Who isn't there hears nothing.
    fn show(&mut self, actor: u32, query: u32) -> Result<(), OutOfMemory>
        requires holds { Holds J.verdict self.old }
        requires there { query < length self.old.queries.items }
        ensures core { OnOk result ((setup : Setup) (past : Joined) (s : State)
            → IsCore J.verdict setup past s self.old
            → (t : State)
            × Steps (rules_of setup) (line_of setup.queries (Line.Show actor query)) s t
            × IsCore J.verdict setup past t self.new) }
        ensures kept { OnOk result (Keeps self.old self.new) }
    {
        let reply = self.answer(query as usize)?;
        let number = actor as usize;
        if number >= self.replies.len() {
            return Ok(());
        }
        self.replies[number].push(reply)?;
        Ok(())
    }

    /// What is answered to the query of this number, over its table as it is now.
    fn answer(&self, number: usize) -> Result<Answered, OutOfMemory>
        requires holds { Holds J.verdict self.now }
        requires there { number < length self.now.queries.items }
        ensures { IfOk result (λ answered. (setup : Setup) (past : Joined) (s : State)
            (reply : Reply) → IsCore J.verdict setup past s self.now → reply.query ≡ number
            → reply.table ≡ asked_table setup.queries number
            → reply.at ≡ length (s.history reply.table)
            → IsAnswered setup s answered reply) }
    {
        let query = &self.queries[number];
        let place = query.table as usize;
        let table = &self.routes.tables[place];
        let names = slices(self.alloc, &self.names)?;
        let text = answer_table(
            self.alloc,
            query,
            table.rib(),
            self.tables[place].name.as_slice(),
            &names,
            self.choice(query),
            self.export(query),
        )?;
        Ok(Answered {
            table: query.table,
            at: table.head(),
            text,
        })
    }

    /// The filter by which a query chooses routes.
    fn choice(&self, query: &Query) -> Option<&J>
        ensures { option_copied result ≡ choice_in self.now query.now }
    {
        match query.choice {
            Some(number) => self.choices.get(number as usize),
            None => None,
        }
    }

    /// The gate and the filter of the channel whose exports a query asks for, whether it is up or
    /// down.
    fn export(&self, query: &Query) -> Option<&Through<J>>
        ensures { option_copied result ≡ export_in self.now query.now }
    {
        match query.export {
            Some(number) => match self.protocols.get(number as usize) {
                Some(protocol) => through_at(&self.routes.channels, protocol.from),
                None => None,
            },
            None => None,
        }
    }

    /// The sync at a phase's end; answers the number of its rounds.
    fn sync(&mut self) -> Result<usize, OutOfMemory>
        requires { Ends J.verdict self.old }
        ensures core { IfOk result (λ rounds. (setup : Setup) (past : Joined) (s : State)
            → IsCore J.verdict setup past s self.old → HasRounds (rules_of setup) s rounds
            × IsCore J.verdict setup past (times rounds (round (rules_of setup)) s) self.new) }
        ensures kept { OnOk result (Keeps self.old self.new) }
    {
        self.routes.sync()
    }
}

/// The gate and the filter of the channel of this number.
fn through_at<J: Judge>(channels: &[Channel<J>], number: usize) -> Option<&Through<J>>
    ensures { option_copied result ≡ option_map through_of (slice_get channels.now number) }
{
    match channels.get(number) {
        Some(channel) => Some(channel.exporter.through()),
        None => None,
    }
}

/// So many empty lists of replies.
fn no_replies(alloc: Global, actors: usize) -> Result<Vec<Vec<Answered>>, OutOfMemory>
    ensures { IfOk result (λ replies. (length replies.items ≡ actors)
        × ((a : ℕ) (held : Vec HeldAnswer Global) → slice_get replies.items a ≡ Some held
        → held.items ≡ [])) }
{
    let mut replies = Vec::new(alloc);
    for _number in 0..actors {
        replies.push(Vec::new(alloc))?;
    }
    Ok(replies)
}

/// The bytes of the names.
fn slices(alloc: Global, names: &[Seq<u8>]) -> Result<Vec<&[u8]>, OutOfMemory>
    ensures { IfOk result (λ slices. map (λ name. name.now) slices.items ≡ names.now) }
{
    let mut slices = Vec::new(alloc);
    for name in names {
        slices.push(name.as_slice())?;
    }
    Ok(slices)
}
