//! The parts of a core that has played nothing.
ghost use Rattle.std.specs.Prelude.{◌≡◌, ◌<◌, ◌^◌, ◌++◌, ◌-◌, ◌+◌, ℕ, true, false, [], ◌∷◌, List, IfOk, OnOk, Option, Some, None, length, map, option_map, slice_get};
ghost use Rattle.std.specs.declared.alloc.Global.{Global as Alloc};
ghost use Rattle.std.specs.declared.vec.Vec.{Vec as Held};
ghost use Rattle.bits_ip.specs.declared.address.Family.{Family};
ghost use Rattle.core_machine.specs.Machine.{start};
ghost use Rattle.core_machine.specs.Rules.{Rules};
ghost use Rattle.core_machine.specs.Ways.{Found};
ghost use Rattle.core_setup.specs.Channels.{channels_in, family_or_first, session};
ghost use Rattle.core_setup.specs.Pairs.{Pairs};
ghost use Rattle.core_setup.specs.Protocols.{rules_of, table_in};
ghost use Rattle.core_setup.specs.Setup.{IsPipe, IsSetup, Setup, family_at};
ghost use Rattle.run_tables.specs.Routes.{AreReaders, AreRoutes};
ghost use Rattle.run_tables.specs.declared.channel.Channel.{Channel as HeldChannel};
ghost use Rattle.show_route.specs.declared.query.Query.{Query};
ghost use Rattle.sys_run.specs.Made.{Adds, AddsChannels, AreFound, AreLists, AreNew, ArePassed, AreWithin, IsMade, IsMadeTable, IsWithin, Left, directions_in, found_from, given_all, given_one, opened_to, passed_at, readers_in, seen_in};
ghost use Rattle.sys_run.specs.Parts.{body_seen, exports_seen, pipe_seen, setup_seen, table_seen};
ghost use Rattle.sys_run.specs.declared.parts.BodyParts.TheVariants as kinds;
ghost use Rattle.sys_run.specs.declared.parts.ProtocolParts.{ProtocolParts as Parts};
ghost use Rattle.sys_run.specs.declared.parts.TableParts.{TableParts as HeldTable};
ghost use Rattle.sys_run.specs.declared.protocol.Protocol.{Protocol as HeldProtocol};

use crate::parts::{BodyParts, ExportParts, PipeParts, ProtocolParts, SourceParts, TableParts};
use crate::protocol::{Body, Protocol, Source};
use crate::ways::{Direction, Way, ends_with, ways_from};
use attrs::{Judge, Seq, Src};
use bits_ip::{Family, OutOfMemory};
use export_core::{ExportSpec, Exporter};
use import_core::{Importer, Mark};
use run_tables::{Channel, Routes, Table};
use std::alloc::Global;
use std::hash::RandomState;
use std::mem;

/// What is made of protocols.
#[derive(Debug, Drop)]
pub(crate) struct Made<J: Judge> {
    /// The protocols' names.
    pub(crate) names: Vec<Seq<u8>>,
    pub(crate) protocols: Vec<Protocol<J>>,
    pub(crate) channels: Vec<Channel<J>>,
    pub(crate) channel_names: Vec<Seq<u8>>,
    /// The sources of the protocols' routes.
    pub(crate) sources: Vec<Src>,
}

/// Tables without routes.
pub(crate) fn make_tables(alloc: Global, parts: &[TableParts]) -> Result<Vec<Table>, OutOfMemory>
    ensures { IfOk result (λ tables. Pairs IsMadeTable 0 parts.now tables.items) }
{
    let mut tables = Vec::new(alloc);
    for part in parts {
        tables.push(Table::make(alloc, part.family))?;
    }
    Ok(tables)
}

// ---- which sources pass by which directions

/// How many channels a protocol has.
fn count_channels<J: Judge>(body: &BodyParts<J>) -> usize
    ensures many { (tables : List (List ℕ × Family)) (number : ℕ) (name : List ℕ)
        → result ≡ length (channels_in tables number name (body_seen J.verdict body.now)) }
    ensures few { result < 3 }
{
    match body {
        BodyParts::Source(source) => match &source.exports {
            Some(_) => 1,
            None => 0,
        },
        BodyParts::Pipe(_) => 2,
    }
}

/// How many channels all protocols have.
fn count_all<J: Judge>(protocols: &[ProtocolParts<J>]) -> usize
    requires { length protocols.now < 2 ^ 32 }
    ensures { (tables : List (List ℕ × Family))
        → result ≡ length (seen_in J.verdict tables protocols.now) }
{
    let mut count: usize = 0;
    for protocol in protocols {
        count += count_channels(&protocol.body);
    }
    count
}

/// The directions of all pipes.
fn directions_of<J: Judge>(
    alloc: Global,
    protocols: &[ProtocolParts<J>],
) -> Result<Vec<Direction>, OutOfMemory>
    requires { length protocols.now < 2 ^ 32 }
    ensures { IfOk result (λ directions. (tables : List (List ℕ × Family))
        → directions.items ≡ directions_in 0 (seen_in J.verdict tables protocols.now)) }
{
    let mut directions = Vec::new(alloc);
    let mut channel: usize = 0;
    for protocol in protocols {
        add_directions(&protocol.body, channel, &mut directions)?;
        channel += count_channels(&protocol.body);
    }
    Ok(directions)
}

fn add_directions<J: Judge>(
    body: &BodyParts<J>,
    channel: usize,
    directions: &mut Vec<Direction>,
) -> Result<(), OutOfMemory>
    requires { channel < 2 ^ 34 }
    ensures { OnOk result ((tables : List (List ℕ × Family)) (number : ℕ) (name : List ℕ)
        → directions.new.items ≡ directions.old.items
        ++ directions_in channel (channels_in tables number name (body_seen J.verdict body.now))) }
{
    match body {
        BodyParts::Source(source) => match &source.exports {
            Some(_) => {}
            None => {}
        },
        BodyParts::Pipe(pipe) => {
            directions.push(Direction {
                channel,
                reads: pipe.primary,
                writes: pipe.peer,
            })?;
            directions.push(Direction {
                channel: channel + 1,
                reads: pipe.peer,
                writes: pipe.primary,
            })?;
        }
    }
    Ok(())
}

/// No source, for each of so many channels.
fn none_passed(alloc: Global, channels: usize) -> Result<Vec<Vec<u32>>, OutOfMemory>
    ensures { IfOk result (λ passed. (length passed.items ≡ channels)
        × AreLists passed.items (λ c. [])) }
{
    let mut passed = Vec::new(alloc);
    for _ in 0..channels {
        passed.push(Vec::new(alloc))?;
    }
    Ok(passed)
}

/// The table from which a protocol's routes come: that of a pipe isn't there.
fn home_of<J: Judge>(tables: usize, body: &BodyParts<J>) -> usize
    ensures { result ≡ table_in tables (body_seen J.verdict body.now) }
{
    match body {
        BodyParts::Source(source) => source.table,
        BodyParts::Pipe(_) => tables,
    }
}

/// By channel the sources that it passes as a direction of a pipe, in their order; none where it
/// goes to a neighbour. The protocols are over so many tables.
pub fn passed_by<J: Judge>(
    alloc: Global,
    tables: usize,
    protocols: &[ProtocolParts<J>],
) -> Result<Vec<Vec<u32>>, OutOfMemory>
    requires few { length protocols.now < 2 ^ 32 }
    requires fits { (parts : List HeldTable) × (cells : ℕ) × (choices : List J)
        × (queries : List Query) × (length parts ≡ tables)
        × IsSetup (setup_seen J.verdict parts protocols.now cells choices queries) }
    ensures { IfOk result (λ passed. (parts : List HeldTable) (cells : ℕ) (choices : List J)
        (queries : List Query) → length parts ≡ tables
        → ArePassed (setup_seen J.verdict parts protocols.now cells choices queries)
        passed.items) }
{
    let directions = directions_of(alloc, protocols)?;
    let mut passed = none_passed(alloc, count_all(protocols))?;
    let mut number: u32 = 0;
    for protocol in protocols {
        let home = home_of(tables, &protocol.body);
        pass_source(alloc, tables, &directions, home, number, &mut passed)?;
        number += 1;
    }
    Ok(passed)
}

/// Each direction by which the routes of a source come to a table passes the source.
fn pass_source(
    alloc: Global,
    tables: usize,
    directions: &[Direction],
    home: usize,
    number: u32,
    passed: &mut Vec<Vec<u32>>,
) -> Result<(), OutOfMemory>
    requires { AreWithin tables (length passed.old.items) directions.now }
    ensures count { OnOk result (length passed.new.items ≡ length passed.old.items) }
    ensures lists { OnOk result ((lists : ℕ → List ℕ) → AreLists passed.old.items lists
        → AreLists passed.new.items (given_all (found_from directions.now home (tables - 1))
        number directions.now lists)) }
{
    let found = ways_from(alloc, tables, directions, home)?;
    pass_all(directions, &found, number, passed)
}

fn pass_all(
    directions: &[Direction],
    found: &[Option<Way>],
    number: u32,
    passed: &mut Vec<Vec<u32>>,
) -> Result<(), OutOfMemory>
    requires { AreWithin (length found.now) (length passed.old.items) directions.now }
    ensures count { OnOk result (length passed.new.items ≡ length passed.old.items) }
    ensures lists { OnOk result ((tables : ℕ) (f : Found) (lists : ℕ → List ℕ)
        → AreFound tables found.now f → AreLists passed.old.items lists
        → AreLists passed.new.items (given_all f number directions.now lists)) }
{
    for direction in directions {
        pass_one(direction, found, number, passed)?;
    }
    Ok(())
}

fn pass_one(
    direction: &Direction,
    found: &[Option<Way>],
    number: u32,
    passed: &mut Vec<Vec<u32>>,
) -> Result<(), OutOfMemory>
    requires { IsWithin (length found.now) (length passed.old.items) direction.now }
    ensures count { OnOk result (length passed.new.items ≡ length passed.old.items) }
    ensures lists { OnOk result ((tables : ℕ) (f : Found) (lists : ℕ → List ℕ)
        → AreFound tables found.now f → AreLists passed.old.items lists
        → AreLists passed.new.items (given_one f number direction.now lists)) }
{
    if ends_with(direction, found) {
        passed[direction.channel].push(number)?;
    }
    Ok(())
}

// ---- protocols

/// Protocols that have done nothing, and their channels.
pub(crate) fn make_protocols<J: Judge + Drop>(
    alloc: Global,
    hasher: RandomState,
    tables: &[TableParts],
    passed: Vec<Vec<u32>>,
    protocols: Vec<ProtocolParts<J>>,
) -> Result<Made<J>, OutOfMemory>
    requires { length protocols.items < 2 ^ 32 }
    ensures { IfOk result (λ made. IsMade J.verdict (map table_seen tables.now)
        (passed_at passed.items) protocols.items made) }
{
    let mut made = Made {
        names: Vec::new(alloc),
        protocols: Vec::new(alloc),
        channels: Vec::new(alloc),
        channel_names: Vec::new(alloc),
        sources: Vec::new(alloc),
    };
    let mut passed = passed;
    for protocol in protocols {
        made.add(alloc, hasher, tables, &mut passed, protocol)?;
    }
    Ok(made)
}

impl<J: Judge + Drop> Made<J> {
    fn add(
        &mut self,
        alloc: Global,
        hasher: RandomState,
        tables: &[TableParts],
        passed: &mut Vec<Vec<u32>>,
        protocol: ProtocolParts<J>,
    ) -> Result<(), OutOfMemory>
        requires { length self.old.names.items < 2 ^ 32 }
        ensures made { OnOk result ((earlier : List (Parts J)) (lists : ℕ → List ℕ)
            → IsMade J.verdict (map table_seen tables.now) lists earlier self.old
            → Left (length self.old.channels.items) passed.old.items lists
            → IsMade J.verdict (map table_seen tables.now) lists (earlier ++ protocol ∷ [])
            self.new) }
        ensures left { OnOk result ((lists : ℕ → List ℕ)
            → Left (length self.old.channels.items) passed.old.items lists
            → Left (length self.new.channels.items) passed.new.items lists) }
    {
        let ProtocolParts { name, body } = protocol;
        self.add_body(alloc, hasher, tables, passed, &name, body)?;
        self.names.push(name)?;
        Ok(())
    }

    fn add_body(
        &mut self,
        alloc: Global,
        hasher: RandomState,
        tables: &[TableParts],
        passed: &mut Vec<Vec<u32>>,
        name: &Seq<u8>,
        body: BodyParts<J>,
    ) -> Result<(), OutOfMemory>
        requires { length self.old.names.items < 2 ^ 32 }
        ensures adds { OnOk result ((lists : ℕ → List ℕ)
            → Left (length self.old.channels.items) passed.old.items lists
            → Adds J.verdict (map table_seen tables.now) lists (length self.old.names.items)
            name.now body self.old self.new) }
        ensures left { OnOk result ((lists : ℕ → List ℕ)
            → Left (length self.old.channels.items) passed.old.items lists
            → Left (length self.new.channels.items) passed.new.items lists) }
    {
        match body {
            BodyParts::Source(source) => {
                self.add_source(alloc, hasher, name, source)?;
                Ok(())
            }
            BodyParts::Pipe(pipe) => {
                self.add_pipe(alloc, hasher, tables, passed, name, pipe)?;
                Ok(())
            }
        }
    }

    fn add_source(
        &mut self,
        alloc: Global,
        hasher: RandomState,
        name: &Seq<u8>,
        parts: SourceParts<J>,
    ) -> Result<(), OutOfMemory>
        ensures { OnOk result ((tables : List (List ℕ × Family)) (lists : ℕ → List ℕ) (number : ℕ)
            → Adds J.verdict tables lists number name.now (kinds.Source parts) self.old self.new) }
    {
        let SourceParts {
            table,
            spec,
            judge,
            exports,
        } = parts;
        let from = self.channels.len();
        self.add_session(alloc, hasher, name, table, exports)?;
        self.sources.push(spec.src)?;
        let body = Body::Source(Source {
            table,
            kind: spec.kind,
            importer: Importer::make(alloc, spec, judge),
        });
        self.add_protocol(alloc, body, from)?;
        Ok(())
    }

    /// The channel to a neighbour, where there is one.
    fn add_session(
        &mut self,
        alloc: Global,
        hasher: RandomState,
        name: &Seq<u8>,
        table: usize,
        exports: Option<ExportParts<J>>,
    ) -> Result<(), OutOfMemory>
        ensures { OnOk result ((tables : List (List ℕ × Family)) (lists : ℕ → List ℕ) (number : ℕ)
            → AddsChannels J.verdict lists (session tables number name.now table
            (option_map (exports_seen J.verdict) exports)) self.old self.new) }
    {
        match exports {
            Some(ExportParts { spec, judge }) => {
                let exporter = Exporter::make(alloc, hasher, spec, judge);
                let copy = copied(alloc, name.as_slice(), b"")?;
                self.add_channel(copy, table, None, exporter)?;
                Ok(())
            }
            None => Ok(()),
        }
    }

    fn add_pipe(
        &mut self,
        alloc: Global,
        hasher: RandomState,
        tables: &[TableParts],
        passed: &mut Vec<Vec<u32>>,
        name: &Seq<u8>,
        parts: PipeParts<J>,
    ) -> Result<(), OutOfMemory>
        requires { length self.old.names.items < 2 ^ 32 }
        ensures adds { OnOk result ((lists : ℕ → List ℕ)
            → Left (length self.old.channels.items) passed.old.items lists
            → Adds J.verdict (map table_seen tables.now) lists (length self.old.names.items)
            name.now (kinds.Pipe parts) self.old self.new) }
        ensures left { OnOk result ((lists : ℕ → List ℕ)
            → Left (length self.old.channels.items) passed.old.items lists
            → Left (length self.new.channels.items) passed.new.items lists) }
    {
        let from = self.channels.len();
        let number = number_of(self.names.len());
        self.add_both(alloc, hasher, tables, passed, name, number, parts)?;
        self.sources.push(Src {
            num: number,
            def_med: 0,
            def_lp: 0,
        })?;
        self.add_protocol(alloc, Body::Pipe(true), from)?;
        Ok(())
    }

    /// Both directions of a pipe.
    fn add_both(
        &mut self,
        alloc: Global,
        hasher: RandomState,
        tables: &[TableParts],
        passed: &mut Vec<Vec<u32>>,
        name: &Seq<u8>,
        number: u32,
        parts: PipeParts<J>,
    ) -> Result<(), OutOfMemory>
        ensures adds { OnOk result ((lists : ℕ → List ℕ)
            → Left (length self.old.channels.items) passed.old.items lists
            → AddsChannels J.verdict lists (channels_in (map table_seen tables.now) number
            name.now (IsPipe (pipe_seen J.verdict parts))) self.old self.new) }
        ensures left { OnOk result ((lists : ℕ → List ℕ)
            → Left (length self.old.channels.items) passed.old.items lists
            → Left (length self.old.channels.items + 2) passed.new.items lists) }
    {
        let PipeParts {
            primary,
            peer,
            export,
            import,
        } = parts;
        let from = self.channels.len();
        let there = direction_gate(
            table_family(tables, primary),
            number,
            take_list(alloc, passed, from),
        );
        let back = direction_gate(
            table_family(tables, peer),
            number,
            take_list(alloc, passed, from + 1),
        );
        let name_there = copied(alloc, name.as_slice(), b".export")?;
        let name_back = copied(alloc, name.as_slice(), b".import")?;
        let exporter = Exporter::make(alloc, hasher, there, export);
        self.add_channel(name_there, primary, Some(peer), exporter)?;
        let importer = Exporter::make(alloc, hasher, back, import);
        self.add_channel(name_back, peer, Some(primary), importer)?;
        Ok(())
    }

    fn add_channel(
        &mut self,
        name: Seq<u8>,
        table: usize,
        target: Option<usize>,
        exporter: Exporter<J>,
    ) -> Result<(), OutOfMemory>
        ensures names { OnOk result (self.new.names ≡ self.old.names) }
        ensures protocols { OnOk result (self.new.protocols ≡ self.old.protocols) }
        ensures sources { OnOk result (self.new.sources ≡ self.old.sources) }
        ensures channel_names { OnOk result
            (self.new.channel_names.items ≡ self.old.channel_names.items ++ name ∷ []) }
        ensures channels { OnOk result
            (self.new.channels.items ≡ self.old.channels.items ++ record {
              table = table;
              target = target;
              exporter = exporter;
              cursor = None;
            } ∷ []) }
    {
        self.channel_names.push(name)?;
        self.channels.push(Channel {
            table,
            target,
            exporter,
            cursor: None,
        })?;
        Ok(())
    }

    /// The channels of the protocol are those from a number on.
    fn add_protocol(&mut self, alloc: Global, body: Body<J>, from: usize) -> Result<(), OutOfMemory>
        ensures names { OnOk result (self.new.names ≡ self.old.names) }
        ensures channels { OnOk result (self.new.channels ≡ self.old.channels) }
        ensures channel_names { OnOk result (self.new.channel_names ≡ self.old.channel_names) }
        ensures sources { OnOk result (self.new.sources ≡ self.old.sources) }
        ensures protocols { OnOk result ((held : HeldProtocol J)
            × (self.new.protocols.items ≡ self.old.protocols.items ++ held ∷ [])
            × (held.body ≡ body) × (held.from ≡ from)
            × (held.upto ≡ length self.old.channels.items) × (held.done.items ≡ [])) }
    {
        self.protocols.push(Protocol {
            body,
            from,
            upto: self.channels.len(),
            done: Vec::new(alloc),
        })?;
        Ok(())
    }
}

/// A protocol's number, where so many stand before it.
fn number_of(count: usize) -> u32
    requires { count < 2 ^ 32 }
    ensures { result ≡ count }
{
    count as u32
}

/// A copy of a name, with more behind it.
fn copied(alloc: Global, name: &[u8], more: &[u8]) -> Result<Seq<u8>, OutOfMemory>
    ensures { IfOk result (λ copy. copy ≡ name.now ++ more.now) }
{
    let mut copy = Vec::from_slice(alloc, name)?;
    copy.extend_from_slice(more)?;
    Ok(Seq::from_vec(copy))
}

/// The gate of a pipe's direction, which takes the sources that it passes.
pub fn direction_gate(family: Family, number: u32, passed: Vec<u32>) -> ExportSpec
    ensures { result ≡ record {
      family = family;
      own = number;
      to_ebgp = false;
      interpret = false;
      every = true;
      sources = passed.items;
    } }
{
    ExportSpec {
        family,
        own: number,
        to_ebgp: false,
        interpret: false,
        every: true,
        sources: Seq::from_vec(passed),
    }
}

/// The family of a table, and IPv4 of one that isn't there.
pub fn table_family(tables: &[TableParts], table: usize) -> Family
    ensures { result ≡ family_or_first (family_at (map table_seen tables.now) table) }
{
    match tables.get(table) {
        Some(table) => table.family,
        None => Family::V4,
    }
}

/// Takes the list of a place out, which is empty behind it; none of a place that isn't there.
pub fn take_list(alloc: Global, passed: &mut Vec<Vec<u32>>, place: usize) -> Vec<u32>
    ensures list { result.items ≡ passed_at passed.old.items place }
    ensures others { (c : ℕ) → (c ≡ place → ⊥)
        → passed_at passed.new.items c ≡ passed_at passed.old.items c }
{
    match passed.get_mut(place) {
        Some(list) => mem::replace(list, Vec::new(alloc)),
        None => Vec::new(alloc),
    }
}

// ---- tables and channels

/// Tables without routes, and channels that have sent nothing. The directions of pipes come up.
pub(crate) fn make_routes<J: Judge + Drop>(
    alloc: Global,
    cells: u64,
    tables: Vec<Table>,
    channels: Vec<Channel<J>>,
    sources: Vec<Src>,
) -> Result<Routes<J>, OutOfMemory>
    requires { (setup : Setup)
        × AreNew J.verdict setup cells tables.items channels.items sources.items }
    ensures { IfOk result (λ routes. (setup : Setup)
        → AreNew J.verdict setup cells tables.items channels.items sources.items
        → AreRoutes J.verdict setup (start (rules_of setup)) routes) }
{
    let readers = readers_of(alloc, tables.len(), &channels)?;
    let mut routes = Routes {
        alloc,
        cells,
        tables,
        readers,
        channels,
        sources,
    };
    open_pipes(&mut routes)?;
    Ok(routes)
}

/// Each direction of a pipe comes up.
fn open_pipes<J: Judge>(routes: &mut Routes<J>) -> Result<(), OutOfMemory>
    requires { (setup : Setup)
        × AreRoutes J.verdict setup (opened_to (rules_of setup) 0) routes.old }
    ensures { OnOk result ((setup : Setup)
        → AreRoutes J.verdict setup (opened_to (rules_of setup) 0) routes.old
        → AreRoutes J.verdict setup (start (rules_of setup)) routes.new) }
{
    for number in 0..routes.channels.len() {
        open_pipe(routes, number)?;
    }
    Ok(())
}

fn open_pipe<J: Judge>(routes: &mut Routes<J>, number: usize) -> Result<(), OutOfMemory>
    requires holds { (setup : Setup)
        × AreRoutes J.verdict setup (opened_to (rules_of setup) number) routes.old }
    requires there { number < length routes.old.channels.items }
    ensures { OnOk result ((setup : Setup)
        → AreRoutes J.verdict setup (opened_to (rules_of setup) number) routes.old
        → AreRoutes J.verdict setup (opened_to (rules_of setup) (number + 1)) routes.new) }
{
    if routes.channels[number].is_pipe() {
        routes.obey(number, Mark::Up)?;
    }
    Ok(())
}

/// The channels that read each of so many tables, in their order.
fn readers_of<J: Judge>(
    alloc: Global,
    tables: usize,
    channels: &[Channel<J>],
) -> Result<Vec<Vec<usize>>, OutOfMemory>
    requires { (c : ℕ) (held : HeldChannel J) → slice_get channels.now c ≡ Some held
        → held.table < tables }
    ensures count { IfOk result (λ readers. length readers.items ≡ tables) }
    ensures readers { IfOk result (λ readers. AreLists readers.items
        (readers_in channels.now)) }
{
    let mut readers = no_readers(alloc, tables)?;
    let mut number: usize = 0;
    for channel in channels {
        readers[channel.table].push(number)?;
        number += 1;
    }
    Ok(readers)
}

/// No reader, for each of so many tables.
fn no_readers(alloc: Global, tables: usize) -> Result<Vec<Vec<usize>>, OutOfMemory>
    ensures { IfOk result (λ readers. (length readers.items ≡ tables)
        × AreLists readers.items (λ c. [])) }
{
    let mut readers = Vec::new(alloc);
    for _ in 0..tables {
        readers.push(Vec::new(alloc))?;
    }
    Ok(readers)
}
