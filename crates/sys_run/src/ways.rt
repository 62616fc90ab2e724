//! By which directions of pipes the routes of a source come to tables.
ghost use Rattle.std.specs.Prelude.{◌≡◌, ◌<◌, ◌-◌, ℕ, Bool, List, [], IfOk, Option, Some, None, option_map, length, if◌then◌else◌};
ghost use Rattle.core_machine.specs.Pipes.{ends_with};
ghost use Rattle.core_machine.specs.Ways.{Found};
ghost use Rattle.sys_run.specs.Made.{AreFound, AreWithin, IsWithin, found_from, goes_on, gone_all, gone_one, is_last, way_of};

use bits_ip::OutOfMemory;
use std::alloc::Global;

/// A direction of a pipe: its channel's number, and the tables that it reads and writes.
#[derive(Clone, Copy, Debug, Drop)]
pub(crate) struct Direction {
    pub(crate) channel: usize,
    pub(crate) reads: usize,
    pub(crate) writes: usize,
}

/// How the routes of a source come to a table: by how many directions, and the last of them.
#[derive(Clone, Copy, Debug, Drop)]
pub(crate) struct Way {
    len: usize,
    last: Option<usize>,
}

/// The ways to all tables from one of them, level by level. None comes from a table that isn't
/// there.
pub(crate) fn ways_from(
    alloc: Global,
    tables: usize,
    directions: &[Direction],
    home: usize,
) -> Result<Vec<Option<Way>>, OutOfMemory>
    requires { (channels : ℕ) × AreWithin tables channels directions.now }
    ensures { IfOk result (λ found.
        AreFound tables found.items (found_from directions.now home (tables - 1))) }
{
    let mut found = begun(alloc, tables, home)?;
    for len in 0..tables.saturating_sub(1) {
        go_on(directions, len, &mut found);
    }
    Ok(found)
}

/// No way but the one to the source's own table.
fn begun(alloc: Global, tables: usize, home: usize) -> Result<Vec<Option<Way>>, OutOfMemory>
    ensures { IfOk result (λ found. AreFound tables found.items (found_from [] home 0)) }
{
    let mut found = Vec::new(alloc);
    for table in 0..tables {
        found.push(begin_at(home == table))?;
    }
    Ok(found)
}

fn begin_at(home: bool) -> Option<Way>
    ensures { result ≡ option_map way_of (if home then Some [] else None) }
{
    if home {
        Some(Way { len: 0, last: None })
    } else {
        None
    }
}

/// Each direction goes on from ways of this length.
fn go_on(directions: &[Direction], len: usize, found: &mut Vec<Option<Way>>)
    requires within { (channels : ℕ) × AreWithin (length found.old.items) channels directions.now }
    requires short { len < length found.old.items }
    ensures count { length found.new.items ≡ length found.old.items }
    ensures found { (tables : ℕ) (f : Found) → AreFound tables found.old.items f
        → AreFound tables found.new.items (gone_all len directions.now f) }
{
    for direction in directions {
        go_one(direction, len, found);
    }
}

/// A direction goes on where a way of this length comes to the table that it reads, and none to the
/// one that it writes.
fn go_one(direction: &Direction, len: usize, found: &mut Vec<Option<Way>>)
    requires within { (channels : ℕ) × IsWithin (length found.old.items) channels direction.now }
    requires short { len < length found.old.items }
    ensures count { length found.new.items ≡ length found.old.items }
    ensures found { (tables : ℕ) (f : Found) → AreFound tables found.old.items f
        → AreFound tables found.new.items (gone_one len direction.now f) }
{
    if goes_on(direction, len, found) {
        found[direction.writes] = Some(Way {
            len: len + 1,
            last: Some(direction.channel),
        });
    }
}

fn goes_on(direction: &Direction, len: usize, found: &[Option<Way>]) -> bool
    requires { (channels : ℕ) × IsWithin (length found.now) channels direction.now }
    ensures { (tables : ℕ) (f : Found) → AreFound tables found.now f
        → result ≡ goes_on len (f direction.now.reads) (f direction.now.writes) }
{
    match found[direction.reads] {
        Some(way) => way.len == len && found[direction.writes].is_none(),
        None => false,
    }
}

/// Whether it is by this direction that the routes come to the table that it writes.
pub(crate) fn ends_with(direction: &Direction, found: &[Option<Way>]) -> bool
    requires { direction.now.writes < length found.now }
    ensures { (tables : ℕ) (f : Found) → AreFound tables found.now f
        → result ≡ ends_with direction.now.channel (f direction.now.writes) }
{
    match found[direction.writes] {
        Some(way) => is_last(direction.channel, way.last),
        None => false,
    }
}

fn is_last(channel: usize, last: Option<usize>) -> bool
    ensures { result ≡ is_last channel last }
{
    match last {
        Some(last) => last == channel,
        None => false,
    }
}
