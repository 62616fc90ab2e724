//! Threads that enter changes, and threads that take the entries.
ghost use Rattle.std.specs.Prelude.{◌≡◌, ◌<◌};
ghost use Rattle.std.specs.Arc.{arc_value};
ghost use Rattle.jour.specs.Seats.{journal, number_of};
ghost use Rattle.table_shared_tests.specs.Changes.{IsOfTwo};

use crate::bench::{Refused, enter};
use crate::routes::{change_of, numbered_net};
use jour_rule::buf::Buf;
use outside_io::OpenGate;
use std::alloc::Global;
use std::sync::{Arc, Wait};
use std::thread;
use table_shared::{Done, Port, Table, TableCursor};

/// A port of a table, and its source.
#[derive(Drop)]
pub struct Source {
    pub table: Arc<Table, Global>,
    pub port: Port,
    pub num: u32,
    ghost here: { journal port ≡ arc_value table },
    ghost source: { (number_of port.1.role ≡ num) × (num < 2) },
    ghost opening: { IsOfTwo (arc_value table).1.opening },
}

impl Source {
    /// Announces one of 1,024 nets with this preference.
    fn announce<R: Wait>(&mut self, rt: &R, alloc: Global, pref: u32) -> Result<Done, Refused> {
        let Ok(net) = numbered_net(pref % 1024) else {
            return Err(Refused::Memory);
        };
        let Ok(change) = change_of(alloc, &net, self.num, pref) else {
            return Err(Refused::Memory);
        };
        enter(
            rt,
            &OpenGate,
            &self.table,
            &mut self.port,
            self.num,
            &change,
        )
    }
}

/// Enters so many changes. Answers how many were entered.
pub fn enter_all<R: Wait>(rt: &R, alloc: Global, source: &mut Source, count: u32) -> u32 {
    let mut made = 0u32;
    for _ in rt.forever() {
        if made >= count {
            break;
        }
        match source.announce(rt, alloc, made) {
            Ok(Done::At(_)) => made = made.wrapping_add(1),
            Ok(Done::Same { at: _ }) => break,
            Err(Refused::Table(_)) => thread::yield_now(),
            Err(Refused::Memory) => break,
        }
    }
    made
}

/// What somebody has read: how many entries, and a number that their words come to in this order.
#[derive(Clone, Copy, Debug, PartialEq, Eq, Drop)]
pub struct Reading {
    pub count: u64,
    pub sum: u64,
}

impl Reading {
    pub fn new() -> Reading {
        Reading { count: 0, sum: 0 }
    }

    /// Goes on with the words of an entry.
    pub fn read(&mut self, words: &[u64]) {
        self.count = self.count.wrapping_add(1);
        for word in words {
            self.sum = (self.sum ^ *word).wrapping_mul(0x0000_0100_0000_01b3);
        }
    }
}

/// Takes so many entries, each at the next position.
pub fn take_all<R: Wait>(rt: &R, cursor: &mut TableCursor, count: u64) -> Reading {
    let mut words = Buf::new();
    let mut reading = Reading::new();
    for _ in rt.forever() {
        if reading.count >= count {
            break;
        }
        let Some(at) = cursor.next(&mut words) else {
            thread::yield_now();
            continue;
        };
        cursor.advance();
        if at == reading.count.wrapping_add(1) {
            reading.read(words.words());
        }
    }
    reading
}
