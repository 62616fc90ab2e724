//! Scripts over any number of protocols: what is done to a running core, and what it is asked.
//!
//! A script is lines. `sync` ends a phase, `!take p1 2` and `!push p1 1` have a channel work, and
//! `@NAME` and a command say who gives it: `@p1 open 192.0.2.9`, `@p1 add 10.0.0.0/8 via 192.0.2.1
//! path 65001 origin igp`, `@p1 del 10.0.0.0/8`, `@p1 close`, `@x disable p1`, `@x reload in p1`,
//! `@x show route table t6 where net.len > 8`. Blank lines and comments are passed over and
//! counted. `read_script` makes of a text the phases with their `Line`s, the queries and the texts
//! of their conditions, over the names that a configuration declares (`Named`), or tells the first
//! line that is refused and why. `!` lines can be barred (`Named::schedule`). Whether a condition
//! is one is judged by whoever knows its language, and is the last of all reasons to refuse a line:
//! so a refusal comes with the conditions before it.
//!
//! Contracts see a text as its lines. What a line says by the grammar is a `Form`, with numbers of
//! any size (specs/Grammar); each kind of refusal is a test of a form (specs/Kinds); and a text has
//! one answer, which `read_script` gives (specs/Script). `laws` has that a line has one form at
//! most, that each text has an answer, and one alone, and that a script names what there is: no
//! number of a channel, a protocol, an actor, a table or a filter leads beyond those that are
//! there.
//!
//! A line is read to its end before it is judged, so a number that is too large is kept as nothing
//! and reading goes on: whether the line is of the grammar comes first, then the least kind that
//! applies, wherever in the line its cause stands.
#![tactic(auto)]

mod commands;
mod faults;
pub mod laws;
mod name_list;
mod named;
mod reading;
mod refusal;
mod script;
mod show;

pub use faults::{ScriptFault, ScriptKind};
pub use name_list::NameList;
pub use named::{Name, Named, NamedProtocol, NamedTable, ProtocolKind};
pub use script::{Condition, Line, Script, read_script};
