//! A channel whose outlet refuses.
ghost use Rattle.std.specs.Prelude.{◌≡◌, [], OnOk, false, true};
ghost use Rattle.bits_ip.specs.declared.address.Family.TheVariants.{V4};
ghost use Rattle.export_core.specs.Standing.{is_open};

use crate::samples::{All, net, route};
use attrs::{JEntry, Seq};
use bits_ip::Family;
use export_core::{ExportSpec, Exporter, LogItem, Outlet, PushFault, Pushed, PutFault, Sending};
use std::alloc::Global;
use std::hash::RandomState;
use std::test::Fail;

/// Refuses the first value with this fault.
#[derive(Clone, Copy, Debug, Drop)]
struct Refusing {
    fault: PushFault,
    refused: bool,
}

impl Outlet for Refusing {
    ghost use Rattle.std.specs.Prelude.{true, None, Some, if◌then◌else◌};

    ghost takes = { λ _ _ _. true };

    ghost refusals = { λ o. if o.refused then 1 else 0 };

    ghost fault = { λ o. Some o.fault };

    ghost told = { λ _. None };

    fn put(&mut self, _sending: &Sending) -> Result<(), PutFault> {
        if self.refused {
            return Ok(());
        }
        self.refused = true;
        Err(self.fault)
    }
}

/// What stands for the channel of a neighbour in another autonomous system.
pub fn spec(alloc: Global) -> ExportSpec
    ensures family { result.family ≡ V4 }
    ensures every { result.every ≡ false }
{
    ExportSpec {
        family: Family::V4,
        own: 2,
        to_ebgp: true,
        interpret: true,
        every: false,
        sources: Seq::new(alloc),
    }
}

/// The channel comes up, and takes an entry.
fn begin(alloc: Global, exporter: &mut Exporter<All>) -> Result<(), Fail>
    requires log { exporter.old.log ≡ [] }
    requires family { exporter.old.spec.family ≡ V4 }
    ensures up { OnOk result (is_open exporter.new.log ≡ true) }
    ensures stays { OnOk result (exporter.new.flushing ≡ false) }
{
    let net = net()?;
    let best = Some(route(alloc, 1)?);
    let entry = JEntry {
        net,
        num: 1,
        new: None,
        best,
    };
    exporter.up(0)?;
    exporter.take(1, &entry)?;
    Ok(())
}

fn push(exporter: &mut Exporter<All>, outlet: &mut Refusing) -> Result<Pushed, PushFault>
    requires up { is_open exporter.old.log ≡ true }
    requires stays { exporter.old.flushing ≡ false }
    ensures up { is_open exporter.new.log ≡ true }
    ensures stays { exporter.new.flushing ≡ false }
{
    match exporter.push_one(outlet) {
        Ok(pushed) => Ok(pushed),
        Err(fault) => Err(fault),
    }
}

type Answers = [Result<Pushed, PushFault>; 3];

/// What three pushes answer, the first of which is refused, and whether the log then has the value.
fn tried(exporter: &mut Exporter<All>, fault: PushFault) -> (Answers, bool)
    requires up { is_open exporter.old.log ≡ true }
    requires stays { exporter.old.flushing ≡ false }
{
    let mut outlet = Refusing {
        fault,
        refused: false,
    };
    let first = push(exporter, &mut outlet);
    let second = push(exporter, &mut outlet);
    let third = push(exporter, &mut outlet);
    let is_logged = match exporter.items() {
        [LogItem::Up(0), LogItem::Sent(sending)] => sending.at == 1,
        _ => false,
    };
    ([first, second, third], is_logged)
}

/// The same of a channel that comes up.
fn pushed(alloc: Global, hasher: RandomState, fault: PushFault) -> Result<(Answers, bool), Fail> {
    let mut exporter = Exporter::make(alloc, hasher, spec(alloc), All);
    begin(alloc, &mut exporter)?;
    Ok(tried(&mut exporter, fault))
}

#[test]
fn a_refused_value_is_sent_at_the_next_push(rt: HostRuntime) -> Result<(), Fail> {
    let hasher = RandomState::new(&rt)?;
    let faults = [
        PushFault::Blocked {
            cursor: 1,
            at: 2,
            head: 3,
        },
        PushFault::Ended { head: 4 },
        PushFault::Memory,
    ];
    for fault in faults {
        let (answers, is_logged) = pushed(rt.alloc(), hasher, fault)?;
        assert!(rt; answers == [Err(fault), Ok(Pushed::Sent), Ok(Pushed::Nothing)]);
        assert!(rt; is_logged);
    }
    Ok(())
}
