//! A pipe's direction: it passes each source, and withdraws what stands before it goes down.
ghost use Rattle.std.specs.Prelude.{◌≡◌, ◌+◌, [], IfOk, OnOk, false, true};
ghost use Rattle.bits_ip.specs.declared.address.Family.TheVariants.{V4};
ghost use Rattle.export_core.specs.Standing.{is_open};

use crate::samples::{All, net, route};
use attrs::{JEntry, Seq};
use bits_ip::Family;
use export_core::{ExportSpec, Exporter, LogItem, Outlet, Pushed, PutFault, Sending};
use std::alloc::Global;
use std::hash::RandomState;
use std::test::Fail;

/// Keeps of each value its source, and whether it is one.
#[derive(Debug, Drop)]
struct Kept {
    sent: Vec<(u32, bool)>,
}

impl Outlet for Kept {
    ghost use Rattle.std.specs.Prelude.{true, None};

    ghost takes = { λ _ _ _. true };

    ghost refusals = { λ _. 0 };

    ghost fault = { λ _. None };

    ghost told = { λ _. None };

    fn put(&mut self, sending: &Sending) -> Result<(), PutFault> {
        let _kept = self.sent.push((sending.key.num, sending.value.is_some()));
        Ok(())
    }
}

/// A direction that passes the sources 1 and 3.
fn spec(alloc: Global) -> Result<ExportSpec, Fail>
    ensures family { IfOk result (λ spec. spec.family ≡ V4) }
    ensures every { IfOk result (λ spec. spec.every ≡ true) }
{
    let mut sources = Seq::new(alloc);
    sources.push(1)?;
    sources.push(3)?;
    Ok(ExportSpec {
        family: Family::V4,
        own: 9,
        to_ebgp: false,
        interpret: false,
        every: true,
        sources,
    })
}

/// The best route is that of source 7, which the direction doesn't pass.
fn take(alloc: Global, exporter: &mut Exporter<All>, pos: u64, num: u32) -> Result<(), Fail>
    requires up { is_open exporter.old.log ≡ true }
    requires next { pos ≡ exporter.old.position + 1 }
    requires family { exporter.old.spec.family ≡ V4 }
    ensures up { OnOk result (is_open exporter.new.log ≡ true) }
    ensures at { OnOk result (exporter.new.position ≡ pos) }
    ensures spec { OnOk result (exporter.new.spec ≡ exporter.old.spec) }
    ensures flushing { OnOk result (exporter.new.flushing ≡ exporter.old.flushing) }
{
    let net = net()?;
    let new = Some(route(alloc, num)?);
    let best = Some(route(alloc, 7)?);
    let entry = JEntry {
        net,
        num,
        new,
        best,
    };
    exporter.take(pos, &entry)?;
    Ok(())
}

/// The direction comes up, and takes entries of the sources 3, 2 and 1.
fn begin(alloc: Global, exporter: &mut Exporter<All>) -> Result<(), Fail>
    requires log { exporter.old.log ≡ [] }
    requires family { exporter.old.spec.family ≡ V4 }
    ensures up { OnOk result (is_open exporter.new.log ≡ true) }
    ensures spec { OnOk result (exporter.new.spec ≡ exporter.old.spec) }
    ensures stays { OnOk result (exporter.new.flushing ≡ false) }
{
    exporter.up(0)?;
    take(alloc, exporter, 1, 3)?;
    take(alloc, exporter, 2, 2)?;
    take(alloc, exporter, 3, 1)?;
    Ok(())
}

fn push(exporter: &mut Exporter<All>, outlet: &mut Kept) -> Result<Pushed, Fail>
    requires up { is_open exporter.old.log ≡ true }
    requires stays { exporter.old.flushing ≡ false }
    requires every { exporter.old.spec.every ≡ true }
    ensures up { OnOk result (is_open exporter.new.log ≡ true) }
    ensures stays { OnOk result (exporter.new.flushing ≡ false) }
    ensures every { OnOk result (exporter.new.spec.every ≡ true) }
{
    let pushed = exporter.push_one(outlet)?;
    Ok(pushed)
}

/// What three pushes answer.
fn pushed(exporter: &mut Exporter<All>, outlet: &mut Kept) -> Result<[Pushed; 3], Fail>
    requires up { is_open exporter.old.log ≡ true }
    requires stays { exporter.old.flushing ≡ false }
    requires every { exporter.old.spec.every ≡ true }
    ensures up { OnOk result (is_open exporter.new.log ≡ true) }
    ensures every { OnOk result (exporter.new.spec.every ≡ true) }
{
    let first = push(exporter, outlet)?;
    let second = push(exporter, outlet)?;
    let third = push(exporter, outlet)?;
    Ok([first, second, third])
}

/// One withdrawal, where something stands still.
fn withdraw(exporter: &mut Exporter<All>, outlet: &mut Kept) -> Result<Pushed, Fail>
    requires up { is_open exporter.old.log ≡ true }
    requires every { exporter.old.spec.every ≡ true }
    ensures up { OnOk result (is_open exporter.new.log ≡ true) }
    ensures every { OnOk result (exporter.new.spec.every ≡ true) }
{
    let pushed = exporter.flush_one(outlet)?;
    Ok(pushed)
}

/// The direction goes down, and answers whether nothing was left to withdraw.
fn end(exporter: &mut Exporter<All>, outlet: &mut Kept) -> Result<bool, Fail>
    requires up { is_open exporter.old.log ≡ true }
    requires every { exporter.old.spec.every ≡ true }
{
    match exporter.flush_one(outlet)? {
        Pushed::Nothing => {
            exporter.down()?;
            Ok(true)
        }
        _ => Ok(false),
    }
}

/// What is seen of a direction that pushes, withdraws and goes down.
#[derive(Clone, Copy, Debug, PartialEq, Eq)]
struct Course {
    pushed: [Pushed; 3],
    withdrawn: [Pushed; 2],
    /// Behind the first withdrawal.
    is_flushing: bool,
    /// Before it went down, and behind that.
    items: [usize; 2],
    is_ended: bool,
    is_flushing_still: bool,
}

fn observe(exporter: &mut Exporter<All>, outlet: &mut Kept) -> Result<Course, Fail>
    requires up { is_open exporter.old.log ≡ true }
    requires stays { exporter.old.flushing ≡ false }
    requires every { exporter.old.spec.every ≡ true }
{
    let pushed = pushed(exporter, outlet)?;
    let first = withdraw(exporter, outlet)?;
    let is_flushing = exporter.is_flushing();
    let second = withdraw(exporter, outlet)?;
    let before = exporter.items().len();
    let is_ended = end(exporter, outlet)?;
    Ok(Course {
        pushed,
        withdrawn: [first, second],
        is_flushing,
        items: [before, exporter.items().len()],
        is_ended,
        is_flushing_still: exporter.is_flushing(),
    })
}

fn played(alloc: Global, hasher: RandomState, outlet: &mut Kept) -> Result<Course, Fail> {
    let mut exporter = Exporter::make(alloc, hasher, spec(alloc)?, All);
    begin(alloc, &mut exporter)?;
    observe(&mut exporter, outlet)
}

#[test]
fn a_pipe_passes_each_source_and_withdraws_in_order(rt: HostRuntime) -> Result<(), Fail> {
    let mut outlet = Kept {
        sent: Vec::new(rt.alloc()),
    };
    let course = played(rt.alloc(), RandomState::new(&rt)?, &mut outlet)?;
    let expected = Course {
        pushed: [Pushed::Sent, Pushed::Sent, Pushed::Nothing],
        withdrawn: [Pushed::Sent, Pushed::Sent],
        is_flushing: true,
        items: [3, 4],
        is_ended: true,
        is_flushing_still: false,
    };
    assert_eq!(rt; course, expected);
    let sent = [(3, true), (1, true), (1, false), (3, false)];
    assert_eq!(rt; outlet.sent.as_slice(), sent.as_slice());
    Ok(())
}
