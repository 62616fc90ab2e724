// What names stand for.

ghost use Rattle.std.specs.Prelude.{◌≡◌, ◌++◌, ◌*◌, ◌∷◌, [], Some, None, List, ℕ, IfOk, length};
ghost use Rattle.filt_meaning.specs.Meaning.{named};
ghost use Rattle.filt_meaning.specs.Names.{Around, place_in, constant_of, function_of};
ghost use Rattle.filt_meaning.specs.Scopes.{context_of, function_trees, tables_of};
ghost use Rattle.filt_meaning.specs.Trees as trees;
ghost use Rattle.filt_meaning.specs.Steps.{expr_steps};
ghost use Rattle.filt_meaning.specs.declared.scope.TFunction.{TFunction};
ghost use Rattle.filt_types.specs.Seen.{scene_of};
ghost use Rattle.filt_types.specs.Scenes as scenes;
ghost use Rattle.filt_types.specs.Weight.{of_function};
ghost use Rattle.filt_resolve.specs.Levels.{AreLast, joined};
ghost use Rattle.filt_resolve.specs.Seen.{names_of, at_place};
ghost use Rattle.filt_resolve.specs.Steps.{called_at};

use attrs::Shared;
use bits_ip::OutOfMemory;
use conf_ast::Name;
use filt_meaning::{Scope, TExpr};
use indexmap::IndexMap;
use std::alloc::Global;
use std::marker::Model;

// ---- variables

/// The names of one block's own variables.
#[derive(Drop)]
struct Level<'a> {
    names: Vec<&'a [u8]>,
    /// The last place of each name.
    last: IndexMap<&'a [u8], usize>,
}

impl<'a> Model for Level<'a> {
    ghost use Rattle.std.specs.Prelude.{ℕ, List};
    ghost use Rattle.filt_resolve.specs.Levels.{AreLast};
    ghost use Rattle.filt_resolve.specs.Seen.{names_of};

    ghost Value = { List (List ℕ) };

    ghost view = { λ level. names_of level.names.items };

    ghost invariant = { λ level. AreLast (names_of level.names.items) level.last.entries };
}

impl<'a> Level<'a> {
    fn make(alloc: Global, names: Vec<&'a [u8]>) -> Result<Level<'a>, OutOfMemory>
        ensures { IfOk result (λ level. level ≡ names_of names.entry.items) }
    {
        let last = last_places(alloc, &names)?;
        Ok(Level { names, last })
    }

    fn len(&self) -> usize
        ensures { result ≡ length self.now }
    {
        self.names.len()
    }

    /// The last place of a name.
    fn place(&self, name: &[u8]) -> Option<usize>
        ensures { result ≡ place_in self.now name.now }
    {
        self.last.get(name).copied()
    }
}

/// The last place of each name.
fn last_places<'a>(
    alloc: Global,
    names: &[&'a [u8]],
) -> Result<IndexMap<&'a [u8], usize>, OutOfMemory>
    ensures { IfOk result (λ last. AreLast (names_of names.now) last.entries) }
{
    let mut last = IndexMap::new(alloc);
    let mut place = 0;
    for name in names {
        last.insert(*name, place)?;
        place += 1;
    }
    Ok(last)
}

/// The names of the variables that are seen, in the order of their places. A block has a level of
/// its own, and shares those round it.
#[derive(Drop)]
pub struct Names<'a> {
    levels: Vec<Shared<Level<'a>>>,
    len: usize,
}

impl<'a> Model for Names<'a> {
    ghost use Rattle.std.specs.Prelude.{◌≡◌, ℕ, List, length};
    ghost use Rattle.filt_resolve.specs.Levels.{joined};

    ghost Value = { List (List ℕ) };

    ghost view = { λ names. joined names.levels.items };

    ghost invariant = { λ names. names.len ≡ length (joined names.levels.items) };
}

impl<'a> Names<'a> {
    /// No names.
    pub fn none(alloc: Global) -> Names<'a>
        ensures { result ≡ [] }
    {
        Names {
            levels: Vec::new(alloc),
            len: 0,
        }
    }

    /// The same names, and a block's own behind them. More than can be counted are refused as want
    /// of memory.
    pub fn with(&self, alloc: Global, own: Vec<&'a [u8]>) -> Result<Names<'a>, OutOfMemory>
        ensures { IfOk result (λ all. all ≡ self.now ++ names_of own.entry.items) }
    {
        let Some(len) = self.len.checked_add(own.len()) else {
            return Err(OutOfMemory);
        };
        let levels = with_level(alloc, &self.levels, own)?;
        Ok(Names { levels, len })
    }

    /// The same names, and one more behind them.
    pub fn with_name(&self, alloc: Global, name: &'a [u8]) -> Result<Names<'a>, OutOfMemory>
        ensures { IfOk result (λ all. all ≡ self.now ++ name.now ∷ []) }
    {
        let mut own = Vec::with_capacity(alloc, 1)?;
        own.push(name)?;
        self.with(alloc, own)
    }

    /// The last place of a name.
    pub fn place(&self, name: &[u8]) -> Option<usize>
        ensures { result ≡ place_in self.now name.now }
    {
        place_among(&self.levels, self.len, name)
    }
}

/// The same levels, and one more with these names.
fn with_level<'a>(
    alloc: Global,
    levels: &[Shared<Level<'a>>],
    own: Vec<&'a [u8]>,
) -> Result<Vec<Shared<Level<'a>>>, OutOfMemory>
    ensures { IfOk result (λ all. all.items ≡ levels.now ++ names_of own.entry.items ∷ []) }
{
    let level = Level::make(alloc, own)?;
    let mut all = shared(alloc, levels)?;
    all.push(Shared::new(alloc, level)?)?;
    Ok(all)
}

/// The same levels, with room for one more.
fn shared<'a>(
    alloc: Global,
    levels: &[Shared<Level<'a>>],
) -> Result<Vec<Shared<Level<'a>>>, OutOfMemory>
    ensures { IfOk result (λ all. all.items ≡ levels.now) }
{
    let mut all = Vec::with_capacity(alloc, levels.len().saturating_add(1))?;
    for level in levels {
        all.push(level.share()?)?;
    }
    Ok(all)
}

/// The last place of a name among those of all levels, from the innermost outwards.
fn place_among(levels: &[Shared<Level<'_>>], len: usize, name: &[u8]) -> Option<usize>
    requires { len ≡ length (joined levels.now) }
    ensures { result ≡ place_in (joined levels.now) name.now }
{
    let mut before = len;
    let mut left = levels;
    while let [front @ .., level] = left {
        let own: &Level<'_> = level;
        before -= own.len();
        match own.place(name) {
            Some(slot) => return Some(before + slot),
            None => left = front,
        }
    }
    None
}

// ---- constants, functions

/// The number of a constant.
fn constant(text: &[u8], scope: &Scope, name: &Name) -> Option<usize>
    ensures { (around : Around) (variables : List (List ℕ))
        → constant_of (context_of text.now around scope.now variables) name.now
        ≡ at_place (tables_of around scope.now).constants result }
{
    scope.constants.get_index_of(name.bytes(text))
}

/// The number of the function of that name among those of the scope, in the order in which they are
/// declared.
pub fn function(text: &[u8], scope: &Scope, name: &Name) -> Option<usize>
    ensures meaning { (around : Around) (variables : List (List ℕ))
        → function_of (context_of text.now around scope.now variables) name.now
        ≡ at_place (tables_of around scope.now).functions result }
    ensures steps { (more : List TFunction) → called_at (function_trees scope.now ++ more)
        result ≡ 5 * of_function (scenes.function_of (scene_of text.now scope.now)
        name.now) }
{
    scope.functions.get_index_of(name.bytes(text))
}

/// What a name stands for as a value: a variable, or a constant where there is none of that name;
/// it is stuck where there is neither.
pub fn named(text: &[u8], scope: &Scope, names: &Names<'_>, name: &Name) -> TExpr
    ensures meaning { (around : Around) → trees.expr result (tables_of around scope.now)
        ≡ named name.now (context_of text.now around scope.now names.now) }
    ensures steps { (called : ℕ → ℕ) → expr_steps called result ≡ 1 }
{
    match names.place(name.bytes(text)) {
        Some(slot) => TExpr::Local(slot),
        None => match constant(text, scope, name) {
            Some(number) => TExpr::Constant(number),
            None => TExpr::Stuck,
        },
    }
}
