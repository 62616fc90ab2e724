//! What a configuration declares before one of its statements.
ghost use Rattle.std.specs.Prelude.{◌≡◌, ℕ, List};
ghost use Rattle.std.specs.List.{list_any};
ghost use Rattle.filt_meaning.specs.Names.{named_in, same_name};
ghost use Rattle.conf_names.specs.Known as of;
ghost use Rattle.conf_names.specs.Refusals.{first_in};
ghost use Rattle.conf_names.specs.Seen.{known_of};

use crate::joints::Joint;
use crate::refusal::{Refusal, note_if};
use bits_ip::Family;
use conf_ast::{ConfKind, Name};
use filt_meaning::Scope;
use indexmap::{IndexMap, IndexSet};

/// What a configuration declares before one of its statements: what filters can name and all other
/// names, the tables and the filters by their numbers, how many protocols there are, and the pipes
/// among them.
#[derive(Drop)]
pub struct Declared {
    pub scope: Scope,
    /// The tables master4 and master6 are the first.
    pub tables: IndexMap<Vec<u8>, Family>,
    pub filters: IndexSet<Vec<u8>>,
    pub protocols: usize,
    pub pipes: Vec<Joint>,
}

/// The most bytes of a name.
const LONGEST_NAME: usize = 64;

/// Whether anything that is declared has that name.
pub fn is_declared(declared: &Declared, name: &[u8]) -> bool
    ensures { (text : List ℕ) → result ≡ of.is_declared (known_of text declared.now) name.now }
{
    let constant = declared.scope.constants.contains_key(name);
    let function = declared.scope.functions.contains_key(name);
    let other = declared.scope.others.contains(name);
    constant | function | other
}

/// A name of more than 64 bytes is refused.
pub fn too_long(text: &[u8], name: Name, first: &mut Option<Refusal>)
    ensures { (declared : Declared) → first.new
        ≡ first_in first.old (of.too_long (known_of text.now declared) name) }
{
    let is_long = LONGEST_NAME < name.bytes(text).len();
    note_if(first, is_long, name.at, ConfKind::Limit);
}

/// What is refused of a name that is declared here.
pub fn declaring(text: &[u8], declared: &Declared, name: Name, first: &mut Option<Refusal>)
    ensures { first.new
        ≡ first_in first.old (of.declaring (known_of text.now declared.now) name) }
{
    let is_taken = is_declared(declared, name.bytes(text));
    note_if(first, is_taken, name.at, ConfKind::DuplicateName);
    too_long(text, name, first);
}

/// The family of the table that is called so.
pub fn family_of(declared: &Declared, name: &[u8]) -> Option<Family>
    ensures { (text : List ℕ) → result ≡ named_in (known_of text declared.now).tables name.now }
{
    declared.tables.get(name).copied()
}

/// The family of the table of that name.
pub fn table_of(text: &[u8], declared: &Declared, name: Name) -> Option<Family>
    ensures { result ≡ of.table_of (known_of text.now declared.now) name }
{
    family_of(declared, name.bytes(text))
}

/// The number of the table of that name; behind the last one where there is none.
pub fn table_number(declared: &Declared, name: &[u8]) -> usize
    ensures { (text : List ℕ) → result ≡ of.table_number (known_of text declared.now) name.now }
{
    match declared.tables.get_index_of(name) {
        Some(number) => number,
        None => declared.tables.len(),
    }
}

/// The number of the table of that name, where there is one.
pub fn known_number(declared: &Declared, name: &[u8]) -> Option<usize>
    ensures { (text : List ℕ) → result ≡ of.known_number (known_of text declared.now) name.now }
{
    match family_of(declared, name) {
        None => None,
        Some(_) => Some(table_number(declared, name)),
    }
}

/// The name of a table.
pub fn table(text: &[u8], declared: &Declared, name: Name, first: &mut Option<Refusal>)
    ensures { first.new ≡ first_in first.old (of.table (known_of text.now declared.now) name) }
{
    let is_unknown = table_of(text, declared, name).is_none();
    note_if(first, is_unknown, name.at, ConfKind::UnknownName);
}

fn is_filter(declared: &Declared, name: &[u8]) -> bool
    ensures { (text : List ℕ) → result
        ≡ list_any (λ known. same_name known name.now) (known_of text declared.now).filters }
{
    declared.filters.contains(name)
}

/// The name of a filter.
pub fn filter(text: &[u8], declared: &Declared, name: Name, first: &mut Option<Refusal>)
    ensures { first.new ≡ first_in first.old (of.filter (known_of text.now declared.now) name) }
{
    let is_known = is_filter(declared, name.bytes(text));
    note_if(first, !is_known, name.at, ConfKind::UnknownName);
}
