//! A race of threads over one table: two enter changes, and two take all entries.
ghost use Rattle.std.specs.Prelude.{◌≡◌, ◌<◌, ◌≤◌, ◌^◌, false};
ghost use Rattle.jour.specs.Seats.{journal, number_of};
ghost use Rattle.table_shared_tests.specs.Changes.{IsOfTwo};

use crate::bench::{last_cursor, last_port, two_sources};
use crate::threads::{Reading, Source, enter_all, take_all};
use attrs::JEntry;
use bits_ip::{Family, OutOfMemory};
use jour_rule::buf::Buf;
use rec_words::put_words;
use rib::Rib;
use std::alloc::Global;
use std::sync::{Arc, Wait};
use std::thread::{self, Threads};
use table_shared::{Port, Table, TableCursor};

/// A table of IPv4 nets with a port for the source 0 and one for the source 1, and two cursors,
/// which are closed.
#[derive(Drop)]
pub struct Race {
    table: Table,
    first: Port,
    second: Port,
    left: TableCursor,
    right: TableCursor,
    ghost first_here: { journal first ≡ table },
    ghost second_here: { journal second ≡ table },
    ghost left_here: { (journal left.0 ≡ table) × (left.1 ≡ false) },
    ghost right_here: { (journal right.0 ≡ table) × (right.1 ≡ false) },
    ghost numbers: { (number_of first.1.role ≡ 0) × (number_of second.1.role ≡ 1) },
    ghost opening: { IsOfTwo table.1.opening },
}

/// What came of a race: what each cursor read, what the history says, and how many changes each
/// thread entered.
#[derive(Clone, Copy, Debug, PartialEq, Eq, Drop)]
pub struct Raced {
    pub left: Reading,
    pub right: Reading,
    pub history: Reading,
    pub entered: (u32, u32),
}

impl Race {
    /// A table without routes that begins at 0; none if a port or a cursor isn't there.
    pub fn open(alloc: Global, cells: u32) -> Result<Option<Race>, OutOfMemory>
        requires { (0 < cells) × (cells ≤ 4096) }
    {
        let sources = two_sources(alloc)?;
        let rows = Rib::make(alloc, Family::V4);
        let (table, mut ports, mut cursors, _pass) = Table::make(
            alloc,
            Family::V4,
            cells,
            0,
            2,
            sources,
            rows,
        )?;
        let Some(second) = last_port(&table, &mut ports) else {
            return Ok(None);
        };
        let Some(first) = last_port(&table, &mut ports) else {
            return Ok(None);
        };
        let Some(left) = last_cursor(&table, &mut cursors) else {
            return Ok(None);
        };
        let Some(right) = last_cursor(&table, &mut cursors) else {
            return Ok(None);
        };
        if first.number() != 0 || second.number() != 1 {
            return Ok(None);
        }
        Ok(Some(Race {
            table,
            first,
            second,
            left,
            right,
        }))
    }

    /// Two threads enter so many changes each, while two others take all. The phase is then closed.
    /// None comes if somebody else has the table.
    pub fn run<R: Threads + Wait + Sync>(
        self,
        rt: &R,
        alloc: Global,
        count: u32,
    ) -> Result<Option<Raced>, OutOfMemory> {
        let Race {
            table,
            first,
            second,
            mut left,
            mut right,
        } = self;
        table.start_cursor(rt, &mut left);
        table.start_cursor(rt, &mut right);
        let all = 2 * u64::from(count);
        let table = Arc::new(alloc, table)?;
        let mut one = Source {
            table: Arc::try_clone(&table)?,
            port: first,
            num: 0,
        };
        let mut other = Source {
            table,
            port: second,
            num: 1,
        };
        let (read, entered) = thread::join(
            rt,
            || {
                thread::join(
                    rt,
                    || take_all(rt, &mut left, all),
                    || take_all(rt, &mut right, all),
                )
            },
            || {
                thread::join(
                    rt,
                    || enter_all(rt, alloc, &mut one, count),
                    || enter_all(rt, alloc, &mut other, count),
                )
            },
        );
        let Source { table, .. } = one;
        drop(other);
        let Ok(table) = Arc::try_unwrap(table) else {
            return Ok(None);
        };
        let phase = table.close(rt).phase();
        Ok(Some(Raced {
            left: read.0,
            right: read.1,
            history: history_of(phase.entries.as_slice()),
            entered,
        }))
    }
}

/// What the words of these records come to.
fn history_of(entries: &[JEntry]) -> Reading {
    let mut words = Buf::new();
    let mut history = Reading::new();
    for entry in entries {
        put_words(entry, &mut words);
        history.read(words.words());
    }
    history
}
