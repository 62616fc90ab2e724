//! The report of a phase.
ghost use Rattle.std.specs.Prelude.{◌≡◌, ◌<◌, ◌≤◌, ◌+◌, ◌++◌, ◌^◌, ℕ, List, Option, Some, IfOk, OnOk, drop, length, map, option_copied, option_map, slice_get, if◌then◌else◌};
ghost use Rattle.std.specs.declared.alloc.Global.{Global};
ghost use Rattle.std.specs.declared.vec.Vec.{Vec};
ghost use Rattle.core_machine.specs.Legal.{Joined, Printed, join};
ghost use Rattle.core_machine.specs.Machine.{State};
ghost use Rattle.core_machine.specs.Phases.{Prints};
ghost use Rattle.core_setup.specs.Pairs.{Pairs};
ghost use Rattle.core_setup.specs.Protocols.{rules_of};
ghost use Rattle.core_setup.specs.Reports.{IsReport};
ghost use Rattle.core_setup.specs.Setup.{Setup};
ghost use Rattle.export_core.specs.Histories.{change_of};
ghost use Rattle.sys_run.specs.Cores.{IsCore};
ghost use Rattle.sys_run.specs.Phase.{AreHeads, AreLogged, AreOfTables, BeganAt, IsEmptied, IsExportOf, IsJournalOf, IsLogOf, IsModeOf, IsOperationsOf, IsTableOf, MayEnd, logged_in, reply_of, standing_in, told};
ghost use Rattle.sys_run.specs.Playing.{Rests};
ghost use Rattle.sys_run.specs.declared.player.Answered.{Answered as HeldAnswer};

use crate::parts::TableParts;
use crate::player::{Answered, Core};
use crate::protocol::Protocol;
use attrs::{Attrs, Change, JEntry, Judge, Route, Seq, Shared};
use bits_ip::OutOfMemory;
use export_core::{Key, LogItem, Sending};
use report::{
    ChannelReport, ExportReport, JournalReport, ModeReport, PhaseReport, ProtocolReport,
    ReplyReport, Standing, TableReport,
};
use run_tables::{Channel, Table};
use script_lines::Name;
use std::alloc::Global;
use std::mem;

/// Where a phase began: the positions of the tables, and the lengths of the channels' logs.
#[derive(Debug, Drop)]
pub(crate) struct Begun {
    pub(crate) heads: Vec<u64>,
    pub(crate) logged: Vec<usize>,
}

impl Begun {
    pub(crate) fn of<J: Judge>(core: &Core<J>) -> Result<Begun, OutOfMemory>
        ensures { IfOk result (λ begun. (setup : Setup) (past : Joined) (phases : ℕ) (s : State)
            → Rests J.verdict setup phases past s core.now → BeganAt setup past begun) }
    {
        Ok(Begun {
            heads: heads_of(core.alloc, &core.routes.tables)?,
            logged: logged_of(core.alloc, core.phases == 0, &core.routes.channels)?,
        })
    }
}

fn heads_of(alloc: Global, tables: &[Table]) -> Result<Vec<u64>, OutOfMemory>
    ensures { IfOk result
        (λ heads. heads.items ≡ map (λ table. length table.entries.items) tables.now) }
{
    let mut heads = Vec::new(alloc);
    for table in tables {
        heads.push(table.head())?;
    }
    Ok(heads)
}

/// How many items each log has; none before the first phase, to which the openings of pipes belong.
fn logged_of<J: Judge>(
    alloc: Global,
    first: bool,
    channels: &[Channel<J>],
) -> Result<Vec<usize>, OutOfMemory>
    ensures { IfOk result (λ logged. logged.items ≡ map (logged_in first) channels.now) }
{
    let mut logged = Vec::new(alloc);
    for channel in channels {
        logged.push(len_unless(first, channel.items()))?;
    }
    Ok(logged)
}

fn len_unless(first: bool, items: &[LogItem]) -> usize
    ensures { result ≡ (if first then 0 else length items.now) }
{
    if first { 0 } else { items.len() }
}

impl<J: Judge> Core<J> {
    /// The report of the phase that ends here. Its operations and replies are forgotten.
    pub(crate) fn finish(
        &mut self,
        actors: &[Name],
        begun: &Begun,
    ) -> Result<PhaseReport, OutOfMemory>
        requires { MayEnd J.verdict actors.now begun.now self.old }
        ensures report { IfOk result (λ report. (setup : Setup) (past : Joined) (s : State)
            → IsCore J.verdict setup past s self.old → BeganAt setup past begun.now
            → length self.old.replies.items ≡ length actors.now
            → (p : Printed) × Prints (rules_of setup) past s p
            × IsReport setup actors.now (self.old.phases + 1) past p report
            × Rests J.verdict setup (self.old.phases + 1) (join past p) s self.new) }
        ensures phases { OnOk result (self.new.phases ≡ self.old.phases + 1) }
    {
        let number = number_behind(self.phases);
        let alloc = self.alloc;
        let answered = mem::replace(&mut self.replies, Vec::new(alloc));
        let protocols = report_operations(alloc, &self.names, &mut self.protocols)?;
        let journals = report_journals(alloc, &self.tables, &self.routes.tables, &begun.heads)?;
        let channels = report_logs(alloc, &self.channels, &self.routes.channels, &begun.logged)?;
        let replies = report_replies(alloc, actors, &self.tables, answered)?;
        let tables = report_tables(alloc, &self.tables, &self.routes.tables)?;
        let modes = report_modes(alloc, &self.names, &self.protocols)?;
        let exports = report_exports(alloc, &self.channels, &self.routes.channels)?;
        self.phases = number;
        Ok(PhaseReport {
            number,
            protocols,
            journals,
            channels,
            replies,
            tables,
            modes,
            exports,
        })
    }
}

/// A copy of the name of this number.
fn copy_name(alloc: Global, names: &[Seq<u8>], number: usize) -> Result<Seq<u8>, OutOfMemory>
    requires { number < length names.now }
    ensures { IfOk result (λ name. slice_get names.now number ≡ Some name) }
{
    match names.get(number) {
        Some(name) => Ok(Seq::from_vec(Vec::from_slice(alloc, name.as_slice())?)),
        None => unreachable!(),
    }
}

/// A copy of the name of the table of this number.
fn copy_table_name(
    alloc: Global,
    tables: &[TableParts],
    number: usize,
) -> Result<Seq<u8>, OutOfMemory>
    requires { number < length tables.now }
    ensures { IfOk result
        (λ name. option_map (λ table. table.name) (slice_get tables.now number) ≡ Some name) }
{
    match tables.get(number) {
        Some(table) => Ok(Seq::from_vec(Vec::from_slice(alloc, table.name.as_slice())?)),
        None => unreachable!(),
    }
}

/// The item at a place.
fn item_at<T: Copy>(items: &[T], place: usize) -> T
    requires { place < length items.now }
    ensures { slice_get items.now place ≡ Some result }
{
    match items.get(place) {
        Some(item) => *item,
        None => unreachable!(),
    }
}

/// The number of the phase behind so many.
fn number_behind(phases: u64) -> u64
    requires { phases + 1 < 2 ^ 64 }
    ensures { result ≡ phases + 1 }
{
    phases + 1
}

/// The operations of each protocol, which are forgotten there.
fn report_operations<J: Judge>(
    alloc: Global,
    names: &[Seq<u8>],
    protocols: &mut Vec<Protocol<J>>,
) -> Result<Seq<ProtocolReport>, OutOfMemory>
    requires { length names.now ≡ length protocols.old.items }
    ensures reports { IfOk result (λ reports.
        Pairs (IsOperationsOf names.now) 0 protocols.old.items reports) }
    ensures emptied { OnOk result (Pairs IsEmptied 0 protocols.old.items protocols.new.items) }
{
    let mut reports = Seq::new(alloc);
    for number in 0..protocols.len() {
        let name = copy_name(alloc, names, number)?;
        let done = mem::replace(&mut protocols[number].done, Vec::new(alloc));
        let ops = Seq::from_vec(done);
        reports.push(ProtocolReport { name, ops })?;
    }
    Ok(reports)
}

/// The changes of each table, from these positions on.
fn report_journals(
    alloc: Global,
    parts: &[TableParts],
    tables: &[Table],
    heads: &[u64],
) -> Result<Seq<JournalReport>, OutOfMemory>
    requires parts { length parts.now ≡ length tables.now }
    requires heads { AreHeads tables.now heads.now }
    ensures { IfOk result (λ reports.
        Pairs (IsJournalOf parts.now heads.now) 0 tables.now reports) }
{
    let mut reports = Seq::new(alloc);
    for (number, table) in tables.iter().enumerate() {
        reports.push(report_journal(alloc, parts, table, heads, number)?)?;
    }
    Ok(reports)
}

fn report_journal(
    alloc: Global,
    parts: &[TableParts],
    table: &Table,
    heads: &[u64],
    number: usize,
) -> Result<JournalReport, OutOfMemory>
    requires parts { number < length parts.now }
    requires heads { (head : ℕ) × (slice_get heads.now number ≡ Some head)
        × (head ≤ length table.now.entries.items) }
    ensures { IfOk result (λ report. IsJournalOf parts.now heads.now number table.now report) }
{
    let name = copy_table_name(alloc, parts, number)?;
    let from = item_at(heads, number);
    let entries = copy_changes(alloc, table.since(from))?;
    Ok(JournalReport {
        table: name,
        from,
        entries,
    })
}

fn copy_changes(alloc: Global, entries: &[JEntry]) -> Result<Seq<Change>, OutOfMemory>
    ensures { IfOk result (λ changes. changes ≡ map change_of entries.now) }
{
    let mut changes = Seq::from_vec(Vec::with_capacity(alloc, entries.len())?);
    for entry in entries {
        changes.push(copy_change(entry)?)?;
    }
    Ok(changes)
}

fn copy_change(entry: &JEntry) -> Result<Change, OutOfMemory>
    ensures { IfOk result (λ change. change ≡ change_of entry.now) }
{
    Ok(Change {
        net: entry.net,
        num: entry.num,
        new: copy_route(entry.new.as_ref())?,
    })
}

fn copy_route(route: Option<&Route>) -> Result<Option<Route>, OutOfMemory>
    ensures { IfOk result (λ copy. copy ≡ option_copied route.entry) }
{
    match route {
        Some(route) => Ok(Some(route.copy()?)),
        None => Ok(None),
    }
}

/// The log of each channel, from these lengths on.
fn report_logs<J: Judge>(
    alloc: Global,
    names: &[Seq<u8>],
    channels: &[Channel<J>],
    logged: &[usize],
) -> Result<Seq<ChannelReport>, OutOfMemory>
    requires names { length names.now ≡ length channels.now }
    requires logged { AreLogged channels.now logged.now }
    ensures { IfOk result (λ reports.
        Pairs (IsLogOf names.now logged.now) 0 channels.now reports) }
{
    let mut reports = Seq::new(alloc);
    for (number, channel) in channels.iter().enumerate() {
        reports.push(report_log(alloc, names, number, channel, logged)?)?;
    }
    Ok(reports)
}

fn report_log<J: Judge>(
    alloc: Global,
    names: &[Seq<u8>],
    number: usize,
    channel: &Channel<J>,
    logged: &[usize],
) -> Result<ChannelReport, OutOfMemory>
    requires names { number < length names.now }
    requires logged { (len : ℕ) × (slice_get logged.now number ≡ Some len)
        × (len ≤ length channel.now.exporter.log) }
    ensures { IfOk result (λ report. IsLogOf names.now logged.now number channel.now report) }
{
    let name = copy_name(alloc, names, number)?;
    let from = item_at(logged, number);
    let items = copy_behind(alloc, channel.items(), from)?;
    Ok(ChannelReport {
        name,
        pipe: channel.is_pipe(),
        items,
    })
}

/// A copy of the items behind so many.
fn copy_behind(alloc: Global, items: &[LogItem], from: usize) -> Result<Seq<LogItem>, OutOfMemory>
    requires { from ≤ length items.now }
    ensures { IfOk result (λ copy. copy ≡ drop from items.now) }
{
    copy_items(alloc, &items[from..])
}

fn copy_items(alloc: Global, items: &[LogItem]) -> Result<Seq<LogItem>, OutOfMemory>
    ensures { IfOk result (λ copy. copy ≡ items.now) }
{
    let mut copy = Seq::from_vec(Vec::with_capacity(alloc, items.len())?);
    for item in items {
        copy.push(copy_item(item)?)?;
    }
    Ok(copy)
}

fn copy_item(item: &LogItem) -> Result<LogItem, OutOfMemory>
    ensures { IfOk result (λ copy. copy ≡ item.now) }
{
    match item {
        LogItem::Up(at) => Ok(LogItem::Up(*at)),
        LogItem::Down => Ok(LogItem::Down),
        LogItem::Reload => Ok(LogItem::Reload),
        LogItem::Sent(sending) => Ok(LogItem::Sent(copy_sending(sending)?)),
    }
}

fn copy_sending(sending: &Sending) -> Result<Sending, OutOfMemory>
    ensures { IfOk result (λ copy. copy ≡ sending.now) }
{
    Ok(Sending {
        at: sending.at,
        key: sending.key,
        value: copy_value(sending.value.as_ref())?,
        again: sending.again,
    })
}

fn copy_value(value: Option<&Shared<Attrs>>) -> Result<Option<Shared<Attrs>>, OutOfMemory>
    ensures { IfOk result (λ copy. copy ≡ option_copied value.entry) }
{
    match value {
        Some(attrs) => Ok(Some(attrs.share()?)),
        None => Ok(None),
    }
}

/// The name of the actor of this number.
fn name_at(actors: &[Name], number: usize) -> &[u8]
    requires { number < length actors.now }
    ensures { slice_get actors.now number ≡ Some result.now }
{
    match actors.get(number) {
        Some(actor) => actor.as_slice(),
        None => unreachable!(),
    }
}

/// The replies to each actor.
fn report_replies(
    alloc: Global,
    actors: &[Name],
    tables: &[TableParts],
    replies: Vec<Vec<Answered>>,
) -> Result<Seq<ReplyReport>, OutOfMemory>
    requires actors { length replies.items ≡ length actors.now }
    requires tables { (a : ℕ) (held : Vec HeldAnswer Global) → slice_get replies.items a ≡ Some held
        → AreOfTables (length tables.now) held.items }
    ensures { IfOk result (λ reports.
        reports ≡ told tables.now actors.now replies.items) }
{
    let mut reports = Seq::new(alloc);
    let mut number: usize = 0;
    for answered in replies {
        let actor = name_at(actors, number);
        tell(alloc, actor, tables, answered, &mut reports)?;
        number += 1;
    }
    Ok(reports)
}

/// Appends the replies to an actor.
fn tell(
    alloc: Global,
    actor: &[u8],
    tables: &[TableParts],
    answered: Vec<Answered>,
    reports: &mut Seq<ReplyReport>,
) -> Result<(), OutOfMemory>
    requires { AreOfTables (length tables.now) answered.items }
    ensures { OnOk result (reports.new
        ≡ reports.old ++ map (reply_of tables.now actor.now) answered.items) }
{
    for reply in answered {
        reports.push(report_reply(alloc, actor, tables, reply)?)?;
    }
    Ok(())
}

fn report_reply(
    alloc: Global,
    actor: &[u8],
    tables: &[TableParts],
    reply: Answered,
) -> Result<ReplyReport, OutOfMemory>
    requires { reply.table < length tables.now }
    ensures { IfOk result
        (λ report. report ≡ reply_of tables.now actor.now reply) }
{
    let Answered { table, at, text } = reply;
    Ok(ReplyReport {
        actor: Seq::from_vec(Vec::from_slice(alloc, actor)?),
        table: copy_table_name(alloc, tables, table as usize)?,
        at,
        text: Seq::from_vec(text),
    })
}

/// The rows of each table.
fn report_tables(
    alloc: Global,
    parts: &[TableParts],
    tables: &[Table],
) -> Result<Seq<TableReport>, OutOfMemory>
    requires { length parts.now ≡ length tables.now }
    ensures { IfOk result (λ reports. Pairs (IsTableOf parts.now) 0 tables.now reports) }
{
    let mut reports = Seq::new(alloc);
    for (number, table) in tables.iter().enumerate() {
        reports.push(report_table(alloc, parts, table, number)?)?;
    }
    Ok(reports)
}

fn report_table(
    alloc: Global,
    parts: &[TableParts],
    table: &Table,
    number: usize,
) -> Result<TableReport, OutOfMemory>
    requires { number < length parts.now }
    ensures { IfOk result (λ report. IsTableOf parts.now number table.now report) }
{
    Ok(TableReport {
        name: copy_table_name(alloc, parts, number)?,
        rows: Seq::from_vec(table.rows()?),
    })
}

/// What each protocol has come to.
fn report_modes<J: Judge>(
    alloc: Global,
    names: &[Seq<u8>],
    protocols: &[Protocol<J>],
) -> Result<Seq<ModeReport>, OutOfMemory>
    requires { length names.now ≡ length protocols.now }
    ensures { IfOk result (λ reports. Pairs (IsModeOf names.now) 0 protocols.now reports) }
{
    let mut reports = Seq::new(alloc);
    for (number, protocol) in protocols.iter().enumerate() {
        let name = copy_name(alloc, names, number)?;
        let state = protocol.body.state();
        reports.push(ModeReport { name, state })?;
    }
    Ok(reports)
}

/// What stands as sent by each channel.
fn report_exports<J: Judge>(
    alloc: Global,
    names: &[Seq<u8>],
    channels: &[Channel<J>],
) -> Result<Seq<ExportReport>, OutOfMemory>
    requires { length names.now ≡ length channels.now }
    ensures { IfOk result (λ reports.
        Pairs (IsExportOf J.verdict names.now) 0 channels.now reports) }
{
    let mut reports = Seq::new(alloc);
    for (number, channel) in channels.iter().enumerate() {
        reports.push(report_export(alloc, names, number, channel)?)?;
    }
    Ok(reports)
}

fn report_export<J: Judge>(
    alloc: Global,
    names: &[Seq<u8>],
    number: usize,
    channel: &Channel<J>,
) -> Result<ExportReport, OutOfMemory>
    requires { number < length names.now }
    ensures { IfOk result (λ report. IsExportOf J.verdict names.now number channel.now report) }
{
    let name = copy_name(alloc, names, number)?;
    let values = channel.standing()?;
    let standing = all_standing(alloc, values)?;
    Ok(ExportReport {
        name,
        pipe: channel.is_pipe(),
        standing,
    })
}

fn all_standing(
    alloc: Global,
    values: Option<Vec<(Key, Shared<Attrs>)>>,
) -> Result<Option<Seq<Standing>>, OutOfMemory>
    ensures { IfOk result (λ standing.
        standing ≡ option_map (λ held. map standing_in held.items) values) }
{
    match values {
        Some(values) => Ok(Some(standing_of(alloc, values)?)),
        None => Ok(None),
    }
}

fn standing_of(
    alloc: Global,
    values: Vec<(Key, Shared<Attrs>)>,
) -> Result<Seq<Standing>, OutOfMemory>
    ensures { IfOk result (λ standing. standing ≡ map standing_in values.items) }
{
    let mut standing = Seq::from_vec(Vec::with_capacity(alloc, values.len())?);
    for (key, attrs) in values {
        standing.push(Standing { key, attrs })?;
    }
    Ok(standing)
}
