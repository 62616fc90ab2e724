//! Where what a pipe's direction sends goes: into the other table, by the direction's port of it.
ghost use Rattle.std.specs.Prelude.{◌≡◌, ◌<◌, [], reverse, length, Some, Contains, IfOk, IfErr, IfSome, None, OnOk};
ghost use Rattle.bits_ip.specs.Address.{family_of};
ghost use Rattle.jour.specs.Seats.{journal, number_of};
ghost use Rattle.table_shared.specs.Opening.{sources_of};
ghost use Rattle.export_lock.specs.Outlets.{AreGiven, AreSourcesOf, IsRefused, Puts, Refuses, put_change, refusal_of};

use attrs::{Change, Route, Src};
use bits_ip::OutOfMemory;
use export_core::{Outlet, PushFault, PutFault, Sending};
use http_server::Log;
use outside_io::Gate;
use std::marker::Model;
use std::snapshot::Snapshot;
use std::sync::Wait;
use table_shared::{Port, Table, UpdateFault};

/// Puts what a pipe's direction sends into the table of a port.
#[derive(Drop)]
pub struct PipeOutlet<'a, R, G> {
    rt: &'a R,
    gate: &'a G,
    table: &'a Table,
    sources: &'a [Src],
    port: Port,
    refusals: u64,
    fault: Option<PushFault>,
    // for proofs alone: the port as it was at first, and what was given since
    begun: Snapshot<Port>,
    given: Log<Sending, ()>,
}

impl<'a, R, G> Model for PipeOutlet<'a, R, G> {
    ghost use Rattle.std.specs.Prelude.{map};
    ghost use Rattle.export_lock.specs.Outlets.{IsPutting, Putting};

    ghost Value = { Putting };

    ghost view = { λ o. record {
      begun = o.begun.value;
      sources = o.sources.now;
      given = map (λ p. p.0) o.given.items;
      refusals = o.refusals;
      fault = o.fault;
      port = o.port;
    } };

    ghost invariant = { λ o. IsPutting o.table.now (record {
      begun = o.begun.value;
      sources = o.sources.now;
      given = map (λ p. p.0) o.given.items;
      refusals = o.refusals;
      fault = o.fault;
      port = o.port;
    }) };
}

/// The change that the value makes of a table.
fn change_of(sources: &[Src], sending: &Sending) -> Result<Change, OutOfMemory>
    requires { sending.now.key.num < length sources.now }
    ensures { IfOk result (λ change. change ≡ put_change sources.now sending.now) }
{
    let new = match &sending.value {
        Some(attrs) => Some(Route {
            src: sources[sending.key.num as usize],
            attrs: attrs.share()?,
        }),
        None => None,
    };
    Ok(Change {
        net: sending.key.net,
        num: sending.key.num,
        new,
    })
}

/// The fault of a table, as one of an outlet.
fn fault_of(fault: UpdateFault) -> PushFault
    ensures { result ≡ refusal_of fault }
{
    match fault {
        UpdateFault::Full { cursor, at, head } => PushFault::Blocked { cursor, at, head },
        UpdateFault::Ended { head } => PushFault::Ended { head },
        UpdateFault::Memory => PushFault::Memory,
    }
}

/// Makes the change of the value, as the port's.
fn enter<R: Wait, G: Gate>(
    rt: &R,
    gate: &G,
    table: &Table,
    sources: &[Src],
    port: &mut Port,
    sending: &Sending,
) -> Result<(), PushFault>
    requires here { journal port.old ≡ table.now }
    requires sources { AreSourcesOf sources.now port.old.1 }
    requires source { Contains
        (sources_of port.old.1.seen.terms.opening (number_of port.old.1.role))
        sending.now.key.num }
    requires family { family_of sending.now.key.net.addr
        ≡ port.old.1.seen.terms.opening.family }
    ensures puts { OnOk result (Puts sources.now sending.now port.old port.new) }
    ensures refuses { IfErr result
        (λ fault. Refuses sources.now sending.now fault port.old port.new) }
{
    let change = change_of(sources, sending)?;
    match table.update(rt, gate, port, &change) {
        Ok(_) => Ok(()),
        Err(fault) => Err(fault_of(fault)),
    }
}

impl<'a, R: Wait, G: Gate> PipeOutlet<'a, R, G> {
    /// An outlet that has taken nothing yet, for a port of the table. The source at each place of
    /// the list has the place's number, and the list has all sources of the port.
    pub fn make(
        rt: &'a R,
        gate: &'a G,
        table: &'a Table,
        sources: &'a [Src],
        port: Port,
    ) -> PipeOutlet<'a, R, G>
        requires here { journal port ≡ table.now }
        requires sources { AreSourcesOf sources.now port.1 }
        ensures { result ≡ record {
          begun = port;
          sources = sources.now;
          given = [];
          refusals = 0;
          fault = None;
          port = port;
        } }
    {
        let begun = Snapshot::of(&port);
        PipeOutlet {
            rt,
            gate,
            table,
            sources,
            port,
            refusals: 0,
            fault: None,
            begun,
            given: Log::new(),
        }
    }

    /// The port, with all that was put.
    pub fn into_port(self) -> Port
        ensures port { result ≡ self.entry.port }
        ensures given { AreGiven self.entry.sources (reverse self.entry.given) self.entry.begun
            result }
        ensures fault { IfSome self.entry.fault
            (λ fault. IsRefused self.entry.sources fault self.entry.begun result) }
    {
        self.port
    }
}

/// A value is one change of the table, which the gate is passed behind. What the table has already
/// is left as it is. `Blocked`, `Ended` and `Memory` are those of the table's update.
impl<R: Wait, G: Gate> Outlet for PipeOutlet<'_, R, G> {
    ghost use Rattle.export_lock.specs.Outlets.{takes_of, told_by};

    ghost takes = { takes_of };

    ghost refusals = { λ o. o.refusals };

    ghost fault = { λ o. o.fault };

    ghost told = { told_by };

    fn put(&mut self, sending: &Sending) -> Result<(), PutFault> {
        match enter(
            self.rt,
            self.gate,
            self.table,
            self.sources,
            &mut self.port,
            sending,
        ) {
            Ok(()) => {
                self.given = self.given.and(sending, &());
                Ok(())
            }
            Err(fault) => {
                self.refusals = self.refusals.saturating_add(1);
                self.fault = Some(fault);
                Err(fault)
            }
        }
    }
}
