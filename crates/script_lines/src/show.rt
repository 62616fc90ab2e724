//! What `show route` asks, over what a configuration declares.
ghost use Rattle.std.specs.Prelude.{◌≡◌, None, IfOk, option_copied, option_and_then};
ghost use Rattle.queries.specs.Seen.{asked};
ghost use Rattle.script_lines.specs.Kinds.{AreFew, lacks, table_of, protocol_of, session_of};
ghost use Rattle.script_lines.specs.Kinds.{filter_of, asks_unknown, asks_other_family, differ};
ghost use Rattle.script_lines.specs.Kinds.{asked_table, asked_family, table_by, default_table};
ghost use Rattle.script_lines.specs.Kinds.{pick_family};
ghost use Rattle.script_lines.specs.Inside.{Judges, plain_query};

use crate::commands::Act;
use crate::faults::ScriptKind;
use crate::named::{
    Name, Named, export_table, family_at, filter_of, is_same, protocol_of, session_of, table_of,
};
use crate::refusal::LineFault;
use attrs::Select;
use bits_ip::{Family, OutOfMemory};
use queries::Question;
use show_route::Query;
use std::alloc::Global;

/// The number of the main table of IPv4.
const MASTER4: u32 = 0;

/// The number of the main table of IPv6.
const MASTER6: u32 = 1;

/// What a question comes to.
pub fn judge_show(alloc: Global, named: &Named, question: &Question<'_>) -> Result<Act, LineFault>
    requires { AreFew named.now }
    ensures { Judges named.now (asked question.now) result }
{
    if asks_unknown(named, question) {
        return Err(LineFault::Refused(ScriptKind::UnknownName));
    }
    if asks_other_family(named, question) {
        return Err(LineFault::Refused(ScriptKind::Nettype));
    }
    let condition = owned(alloc, question.condition)?;
    Ok(Act::Show {
        query: plain_query(named, question),
        condition,
    })
}

/// Whether something has a name that nothing has.
fn asks_unknown(named: &Named, question: &Question<'_>) -> bool
    requires { AreFew named.now }
    ensures { result ≡ asks_unknown named.now (asked question.now) }
{
    lacks_table(named, question.table)
        | lacks_protocol(named, question.protocol)
        | lacks_session(named, question.export)
        | lacks_filter(named, question.filter)
}

fn lacks_table(named: &Named, name: Option<&[u8]>) -> bool
    requires { AreFew named.now }
    ensures { result ≡ lacks (table_of named.now) (option_copied name.entry) }
{
    match name {
        Some(name) => table_of(named, name).is_none(),
        None => false,
    }
}

fn lacks_protocol(named: &Named, name: Option<&[u8]>) -> bool
    requires { AreFew named.now }
    ensures { result ≡ lacks (protocol_of named.now) (option_copied name.entry) }
{
    match name {
        Some(name) => protocol_of(named, name).is_none(),
        None => false,
    }
}

fn lacks_session(named: &Named, name: Option<&[u8]>) -> bool
    requires { AreFew named.now }
    ensures { result ≡ lacks (session_of named.now) (option_copied name.entry) }
{
    match name {
        Some(name) => session_of(named, name).is_none(),
        None => false,
    }
}

fn lacks_filter(named: &Named, name: Option<&[u8]>) -> bool
    requires { AreFew named.now }
    ensures { result ≡ lacks (filter_of named.now) (option_copied name.entry) }
{
    match name {
        Some(name) => filter_of(named, name).is_none(),
        None => false,
    }
}

/// Whether the net is of another family than the table that is asked.
fn asks_other_family(named: &Named, question: &Question<'_>) -> bool
    requires { AreFew named.now }
    ensures { result ≡ asks_other_family named.now (asked question.now) }
{
    differ(pick_family(&question.pick), asked_family(named, question))
}

fn differ(one: Option<Family>, other: Option<Family>) -> bool
    ensures { result ≡ differ one other }
{
    let Some(one) = one else {
        return false;
    };
    let Some(other) = other else {
        return false;
    };
    !is_same(one, other)
}

/// The family of the table that is asked.
fn asked_family(named: &Named, question: &Question<'_>) -> Option<Family>
    requires { AreFew named.now }
    ensures { result ≡ asked_family named.now (asked question.now) }
{
    let number = asked_table(named, question)?;
    family_at(named, number)
}

/// The number of the table that is asked.
fn asked_table(named: &Named, question: &Question<'_>) -> Option<u32>
    requires { AreFew named.now }
    ensures { result ≡ asked_table named.now (asked question.now) }
{
    match question.table {
        Some(name) => table_of(named, name),
        None => table_by_export(named, question.export, &question.pick),
    }
}

/// The number of the table of this export, or else of the default one.
fn table_by_export(named: &Named, export: Option<&[u8]>, pick: &Select) -> Option<u32>
    ensures { result ≡ table_by named.now None (option_copied export.entry) pick.now }
{
    match export {
        Some(name) => export_table(named, name),
        None => Some(default_table(pick_family(pick))),
    }
}

fn default_table(family: Option<Family>) -> u32
    ensures { result ≡ default_table family }
{
    match family {
        Some(Family::V6) => MASTER6,
        Some(Family::V4) => MASTER4,
        None => MASTER4,
    }
}

/// The family of the net that is asked for.
fn pick_family(pick: &Select) -> Option<Family>
    ensures { result ≡ pick_family pick.now }
{
    match pick {
        Select::All => None,
        Select::Exact(net) => Some(net.family()),
        Select::For(net) => Some(net.family()),
        Select::Within(net) => Some(net.family()),
    }
}

/// The query of a question, with the number of the filter where that has a name.
fn plain_query(named: &Named, question: &Question<'_>) -> Query
    requires { AreFew named.now }
    ensures { result ≡ plain_query named.now (asked question.now) }
{
    Query {
        table: asked_table(named, question).unwrap_or(MASTER4),
        pick: question.pick,
        choice: filter_number(named, question.filter),
        source: protocol_number(named, question.protocol),
        export: session_number(named, question.export),
        primary: question.primary,
        all: question.all,
        count: question.count,
    }
}

fn filter_number(named: &Named, name: Option<&[u8]>) -> Option<u32>
    requires { AreFew named.now }
    ensures { result ≡ option_and_then (filter_of named.now) (option_copied name.entry) }
{
    let name = name?;
    filter_of(named, name)
}

fn protocol_number(named: &Named, name: Option<&[u8]>) -> Option<u32>
    requires { AreFew named.now }
    ensures { result ≡ option_and_then (protocol_of named.now) (option_copied name.entry) }
{
    let name = name?;
    protocol_of(named, name)
}

fn session_number(named: &Named, name: Option<&[u8]>) -> Option<u32>
    requires { AreFew named.now }
    ensures { result ≡ option_and_then (session_of named.now) (option_copied name.entry) }
{
    let name = name?;
    session_of(named, name)
}

/// The bytes of a condition, as a text of its own.
fn owned(alloc: Global, text: Option<&[u8]>) -> Result<Option<Name>, OutOfMemory>
    ensures { IfOk result (λ copy. copy ≡ option_copied text.entry) }
{
    match text {
        Some(text) => Ok(Some(Name::new(alloc, text)?)),
        None => Ok(None),
    }
}
