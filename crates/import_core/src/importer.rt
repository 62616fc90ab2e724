//! The imports of a protocol.
ghost use Rattle.std.specs.Prelude.{◌≡◌, [], length, true, false, IfOk, OnErr, if◌then◌else◌};
ghost use Rattle.import_core.specs.declared.held.Decision.TheVariants.{Limited, Stored};
ghost use Rattle.import_core.specs.declared.mode.Mode.TheVariants as mode;
ghost use Rattle.import_core.specs.declared.step.Mark.TheVariants as mark;
ghost use Rattle.import_core.specs.declared.operation.Op.TheVariants as op;
ghost use Rattle.import_core.specs.Decisions.{decided, mark_of};
ghost use Rattle.import_core.specs.Held.{decided_by};
ghost use Rattle.import_core.specs.Importers.{IsNext, KeepsSpec, is_closed, is_unstarted, receiving};
ghost use Rattle.import_core.specs.Imports.{Imports, is_up, nothing_yet};
ghost use Rattle.import_core.specs.Operations.{configured, disabled, done, enabled, fixed_route, up_with};

use crate::held::{Accepted, Decision, Held, decide};
use crate::imports::import_attrs;
use crate::nets::{Nets, Rebuilt};
use crate::{Fixed, Given, ImportSpec, Mark, Mode, Op, Step};
use attrs::{Attrs, Clist, Judge, Kind, Path, Route, Seq, Shared};
use bits_ip::{OutOfMemory, Prefix};
use std::alloc::Global;
use std::marker::Model;

/// The imports of a protocol: what it received, and what of it the filter and the limit let pass.
#[derive(Debug, Drop)]
pub struct Importer<J: Judge> {
    alloc: Global,
    spec: ImportSpec,
    judge: J,
    mode: Mode,
    /// The router id of the neighbour, as the last session that came up told it.
    id: u32,
    nets: Nets,
}

impl<J: Judge> Model for Importer<J> {
    ghost use Rattle.std.specs.Prelude.{◌≡◌, true};
    ghost use Rattle.import_core.specs.Held.{none_kept};
    ghost use Rattle.import_core.specs.Importers.{Importing, is_unstarted};

    ghost Value = { Importing J };

    ghost view = { λ i. record {
      spec = i.spec;
      judge = i.judge;
      imports = record {
        mode = i.mode;
        id = i.id;
        received = i.nets.received;
        accepted = i.nets.accepted;
      };
    } };

    ghost invariant = { λ i. is_unstarted i.spec.kind i.mode ≡ true → i.nets ≡ none_kept };
}

fn fixed_route(alloc: Global, spec: &ImportSpec, fixed: &Fixed) -> Result<Route, OutOfMemory>
    ensures { IfOk result (λ route. route ≡ fixed_route spec.now fixed.now) }
{
    let attrs = Attrs {
        pref: spec.pref,
        kind: Kind::Static,
        dest: fixed.dest,
        gw: fixed.gw,
        sender: None,
        peer_id: 0,
        ebgp: false,
        path: Path::new(alloc),
        origin: None,
        next_hop: None,
        med: None,
        lp: None,
        igp: None,
        coms: Clist::new(alloc),
    };
    Ok(Route {
        src: spec.src,
        attrs: Shared::new(alloc, attrs)?,
    })
}

/// The configured routes, of which nothing is accepted yet.
fn configured(alloc: Global, spec: &ImportSpec) -> Result<Nets, OutOfMemory>
    ensures { IfOk result
        (λ nets. nets ≡ record { received = configured spec.now; accepted = [] }) }
{
    let mut nets = Nets::new(alloc);
    for fixed in spec.fixed.as_slice() {
        let held = Held {
            route: fixed_route(alloc, spec, fixed)?,
            accepted: Accepted::Nothing,
        };
        nets.put(fixed.net, held)?;
    }
    Ok(nets)
}

/// A static protocol has no exports, and so no mark.
fn mark_of(kind: Kind, mark: Mark) -> Mark
    ensures { result ≡ mark_of kind mark }
{
    match kind {
        Kind::Static => Mark::Stay,
        Kind::Bgp => mark,
    }
}

/// What a rebuild came to: the mode, and the step.
fn finished(kind: Kind, rebuilt: Rebuilt) -> (Mode, Step)
    ensures mode { result.0 ≡ (if rebuilt.limited then mode.Limited else mode.Up) }
    ensures changes { result.1.changes ≡ rebuilt.changes }
    ensures over { result.1.over ≡ rebuilt.over }
    ensures mark { result.1.mark ≡ (if rebuilt.limited then mark_of kind mark.Down else mark.Stay) }
{
    let Rebuilt {
        changes,
        over,
        limited,
    } = rebuilt;
    if limited {
        let mark = mark_of(kind, Mark::Down);
        (
            Mode::Limited,
            Step {
                changes,
                over,
                mark,
            },
        )
    } else {
        let mark = Mark::Stay;
        (
            Mode::Up,
            Step {
                changes,
                over,
                mark,
            },
        )
    }
}

impl<J: Judge> Importer<J> {
    /// The imports of a protocol that has not begun: idle, and nothing received. A net that stood
    /// twice among the configured routes would have the last.
    pub fn make(alloc: Global, spec: ImportSpec, judge: J) -> Importer<J>
        ensures { result ≡ record { spec = spec; judge = judge; imports = nothing_yet } }
    {
        Importer {
            alloc,
            spec,
            judge,
            mode: Mode::Idle,
            id: 0,
            nets: Nets::new(alloc),
        }
    }

    pub fn mode(&self) -> Mode
        ensures { result ≡ self.now.imports.mode }
    {
        self.mode
    }

    /// How many nets are accepted.
    pub fn accepted(&self) -> u64
        ensures { result ≡ length self.now.imports.accepted }
    {
        self.nets.accepted()
    }

    fn is_up(&self) -> bool
        ensures { result ≡ is_up self.now.imports.mode }
    {
        match self.mode {
            Mode::Up => true,
            Mode::Idle => false,
            Mode::Disabled => false,
            Mode::Limited => false,
        }
    }

    /// A step without changes.
    fn still(&self, mark: Mark) -> Step
        ensures changes { result.changes ≡ [] }
        ensures over { result.over ≡ false }
        ensures mark { result.mark ≡ mark }
    {
        Step {
            changes: Seq::new(self.alloc),
            over: false,
            mark,
        }
    }

    /// Decides all received nets anew. The protocol is up behind it, or switched off at the limit.
    fn rebuild(&mut self) -> Result<Step, OutOfMemory>
        ensures step { IfOk result (λ step. IsNext self.old
            (up_with self.old.spec (J.verdict self.old.judge) self.old.imports.received
            self.old.imports) self.new step) }
        ensures kept { KeepsSpec self.old self.new }
        ensures refused { OnErr result (self.new ≡ self.old) }
    {
        let rebuilt = self.nets.rebuild(self.alloc, &self.spec, &self.judge)?;
        let (mode, step) = finished(self.spec.kind, rebuilt);
        self.mode = mode;
        Ok(step)
    }

    /// A static protocol comes up with its configured routes.
    fn start(&mut self) -> Result<Step, OutOfMemory>
        ensures step { IfOk result (λ step. IsNext self.old
            (done self.old.spec (J.verdict self.old.judge) op.Start
            self.old.imports) self.new step) }
        ensures kept { KeepsSpec self.old self.new }
        ensures refused { OnErr result (self.new ≡ self.old) }
    {
        if !self.is_unstarted() {
            return Ok(self.still(Mark::Stay));
        }
        let mut nets = configured(self.alloc, &self.spec)?;
        let rebuilt = nets.rebuild(self.alloc, &self.spec, &self.judge)?;
        let (mode, step) = finished(self.spec.kind, rebuilt);
        self.nets = nets;
        self.mode = mode;
        Ok(step)
    }

    fn open(&mut self, id: u32) -> Result<Step, OutOfMemory>
        ensures step { IfOk result (λ step. IsNext self.old
            (done self.old.spec (J.verdict self.old.judge) (op.SessionUp id)
            self.old.imports) self.new step) }
        ensures kept { KeepsSpec self.old self.new }
        ensures refused { OnErr result (self.new ≡ self.old) }
    {
        if self.is_closed() {
            self.mode = Mode::Up;
            self.id = id;
            return Ok(self.still(Mark::Up));
        }
        Ok(self.still(Mark::Stay))
    }

    /// What was received of a net is held, and what of it is accepted.
    fn store(&mut self, net: &Prefix, held: Held, over: bool) -> Result<Step, OutOfMemory>
        requires { is_up self.old.imports.mode ≡ true }
        ensures step { IfOk result (λ step. IsNext self.old
            (decided_by self.old.spec net.now held.route (Stored held.accepted over)
            (receiving net.now held.route self.old.imports)) self.new step) }
        ensures kept { KeepsSpec self.old self.new }
        ensures refused { OnErr result (self.new ≡ self.old) }
    {
        let changes = self
            .nets
            .changes_with(self.alloc, self.spec.src.num, net, &held)?;
        self.nets.put(*net, held)?;
        Ok(Step {
            changes,
            over,
            mark: Mark::Stay,
        })
    }

    /// The protocol is switched off at the limit, with this route received.
    fn end_at_limit(&mut self, net: &Prefix, route: Route) -> Result<Step, OutOfMemory>
        requires { is_up self.old.imports.mode ≡ true }
        ensures step { IfOk result (λ step. IsNext self.old
            (decided_by self.old.spec net.now route Limited
            (receiving net.now route self.old.imports)) self.new step) }
        ensures kept { KeepsSpec self.old self.new }
        ensures refused { OnErr result (self.new ≡ self.old) }
    {
        let changes = self.nets.withdrawals(self.alloc, self.spec.src.num)?;
        let accepted = Accepted::Nothing;
        self.nets.put(*net, Held { route, accepted })?;
        self.nets.switch_off(self.spec.kind);
        self.mode = Mode::Limited;
        Ok(Step {
            changes,
            over: true,
            mark: mark_of(self.spec.kind, Mark::Down),
        })
    }

    /// What was decided of a received route is done.
    fn follow(
        &mut self,
        net: &Prefix,
        route: Route,
        decision: Decision,
    ) -> Result<Step, OutOfMemory>
        requires { is_up self.old.imports.mode ≡ true }
        ensures step { IfOk result (λ step. IsNext self.old
            (decided_by self.old.spec net.now route decision
            (receiving net.now route self.old.imports)) self.new step) }
        ensures kept { KeepsSpec self.old self.new }
        ensures refused { OnErr result (self.new ≡ self.old) }
    {
        match decision {
            Decision::Stored(accepted, over) => self.store(net, Held { route, accepted }, over),
            Decision::Limited => self.end_at_limit(net, route),
        }
    }

    /// Decides a net of which this route was received.
    fn decide(&self, net: &Prefix, route: &Route) -> Result<Decision, OutOfMemory>
        ensures { IfOk result (λ decision. (i : Imports)
            → i.accepted ≡ self.now.imports.accepted
            → decided_by self.now.spec net.now route.now decision i
            ≡ decided self.now.spec (J.verdict self.now.judge) net.now route.now i) }
    {
        let is_accepted = self.nets.is_accepted(net);
        let count = self.nets.accepted();
        decide(self.spec.limit, &self.judge, net, route, is_accepted, count)
    }

    fn add(&mut self, net: &Prefix, given: &Given) -> Result<Step, OutOfMemory>
        ensures step { IfOk result (λ step. IsNext self.old
            (done self.old.spec (J.verdict self.old.judge) (op.Add net.now given.now)
            self.old.imports) self.new step) }
        ensures kept { KeepsSpec self.old self.new }
        ensures refused { OnErr result (self.new ≡ self.old) }
    {
        if !self.is_up() {
            return Ok(self.still(Mark::Stay));
        }
        let attrs = import_attrs(&self.spec, self.id, given)?;
        let route = Route {
            src: self.spec.src,
            attrs: Shared::new(self.alloc, attrs)?,
        };
        let decision = self.decide(net, &route)?;
        self.follow(net, route, decision)
    }

    fn del(&mut self, net: &Prefix) -> Result<Step, OutOfMemory>
        ensures step { IfOk result (λ step. IsNext self.old
            (done self.old.spec (J.verdict self.old.judge) (op.Del net.now)
            self.old.imports) self.new step) }
        ensures kept { KeepsSpec self.old self.new }
        ensures refused { OnErr result (self.new ≡ self.old) }
    {
        if !self.is_up() {
            return Ok(self.still(Mark::Stay));
        }
        let changes = self
            .nets
            .changes_without(self.alloc, self.spec.src.num, net)?;
        self.nets.remove(net);
        Ok(Step {
            changes,
            over: false,
            mark: Mark::Stay,
        })
    }

    fn close(&mut self) -> Result<Step, OutOfMemory>
        ensures step { IfOk result (λ step. IsNext self.old
            (done self.old.spec (J.verdict self.old.judge) op.SessionDown
            self.old.imports) self.new step) }
        ensures kept { KeepsSpec self.old self.new }
        ensures refused { OnErr result (self.new ≡ self.old) }
    {
        if !self.is_up() {
            return Ok(self.still(Mark::Stay));
        }
        let changes = self.nets.withdrawals(self.alloc, self.spec.src.num)?;
        self.nets.clear();
        self.mode = Mode::Idle;
        Ok(Step {
            changes,
            over: false,
            mark: mark_of(self.spec.kind, Mark::Down),
        })
    }

    /// The protocol is switched off by hand.
    fn switch_off(&mut self, mark: Mark) -> Result<Step, OutOfMemory>
        ensures step { IfOk result (λ step. IsNext self.old
            (disabled self.old.spec mark self.old.imports) self.new step) }
        ensures kept { KeepsSpec self.old self.new }
        ensures refused { OnErr result (self.new ≡ self.old) }
    {
        let changes = self.nets.withdrawals(self.alloc, self.spec.src.num)?;
        self.nets.switch_off(self.spec.kind);
        self.mode = Mode::Disabled;
        Ok(Step {
            changes,
            over: false,
            mark: mark_of(self.spec.kind, mark),
        })
    }

    fn disable(&mut self) -> Result<Step, OutOfMemory>
        ensures step { IfOk result (λ step. IsNext self.old
            (done self.old.spec (J.verdict self.old.judge) op.Disable
            self.old.imports) self.new step) }
        ensures kept { KeepsSpec self.old self.new }
        ensures refused { OnErr result (self.new ≡ self.old) }
    {
        match self.mode {
            Mode::Idle => self.switch_off(Mark::Stay),
            Mode::Up => self.switch_off(Mark::Down),
            Mode::Disabled => Ok(self.still(Mark::Stay)),
            Mode::Limited => self.switch_off(Mark::Stay),
        }
    }

    /// The protocol, which is off, is switched on by hand.
    fn switch_on(&mut self) -> Result<Step, OutOfMemory>
        ensures step { IfOk result (λ step. IsNext self.old
            (enabled self.old.spec (J.verdict self.old.judge) self.old.spec.kind
            self.old.imports) self.new step) }
        ensures kept { KeepsSpec self.old self.new }
        ensures refused { OnErr result (self.new ≡ self.old) }
    {
        match self.spec.kind {
            Kind::Static => self.rebuild(),
            Kind::Bgp => {
                self.mode = Mode::Idle;
                Ok(self.still(Mark::Stay))
            }
        }
    }

    fn enable(&mut self) -> Result<Step, OutOfMemory>
        ensures step { IfOk result (λ step. IsNext self.old
            (done self.old.spec (J.verdict self.old.judge) op.Enable
            self.old.imports) self.new step) }
        ensures kept { KeepsSpec self.old self.new }
        ensures refused { OnErr result (self.new ≡ self.old) }
    {
        match self.mode {
            Mode::Idle => Ok(self.still(Mark::Stay)),
            Mode::Up => Ok(self.still(Mark::Stay)),
            Mode::Disabled => self.switch_on(),
            Mode::Limited => self.switch_on(),
        }
    }

    fn reload_in(&mut self) -> Result<Step, OutOfMemory>
        ensures step { IfOk result (λ step. IsNext self.old
            (done self.old.spec (J.verdict self.old.judge) op.ReloadIn
            self.old.imports) self.new step) }
        ensures kept { KeepsSpec self.old self.new }
        ensures refused { OnErr result (self.new ≡ self.old) }
    {
        if !self.is_up() {
            return Ok(self.still(Mark::Stay));
        }
        self.rebuild()
    }

    fn reload_out(&mut self) -> Result<Step, OutOfMemory>
        ensures step { IfOk result (λ step. IsNext self.old
            (done self.old.spec (J.verdict self.old.judge) op.ReloadOut
            self.old.imports) self.new step) }
        ensures kept { KeepsSpec self.old self.new }
        ensures refused { OnErr result (self.new ≡ self.old) }
    {
        if !self.is_up() {
            return Ok(self.still(Mark::Stay));
        }
        Ok(self.still(mark_of(self.spec.kind, Mark::Refresh)))
    }

    fn reload(&mut self) -> Result<Step, OutOfMemory>
        ensures step { IfOk result (λ step. IsNext self.old
            (done self.old.spec (J.verdict self.old.judge) op.Reload
            self.old.imports) self.new step) }
        ensures kept { KeepsSpec self.old self.new }
        ensures refused { OnErr result (self.new ≡ self.old) }
    {
        if !self.is_up() {
            return Ok(self.still(Mark::Stay));
        }
        let step = self.rebuild()?;
        if !self.is_up() {
            return Ok(step);
        }
        let Step { changes, over, .. } = step;
        let mark = mark_of(self.spec.kind, Mark::Refresh);
        Ok(Step {
            changes,
            over,
            mark,
        })
    }

    /// A static protocol that has not started.
    fn is_unstarted(&self) -> bool
        ensures { result ≡ is_unstarted self.now.spec.kind self.now.imports.mode }
    {
        match self.spec.kind {
            Kind::Static => match self.mode {
                Mode::Idle => true,
                Mode::Up => false,
                Mode::Disabled => false,
                Mode::Limited => false,
            },
            Kind::Bgp => false,
        }
    }

    /// A protocol of BGP without a session.
    fn is_closed(&self) -> bool
        ensures { result ≡ is_closed self.now.spec.kind self.now.imports.mode }
    {
        match self.spec.kind {
            Kind::Static => false,
            Kind::Bgp => match self.mode {
                Mode::Idle => true,
                Mode::Up => false,
                Mode::Disabled => false,
                Mode::Limited => false,
            },
        }
    }

    /// Does an operation. In a mode in which it has no effect the step has no changes.
    ///
    /// `OutOfMemory` comes where memory is refused; all is as before then.
    pub fn apply(&mut self, op: &Op) -> Result<Step, OutOfMemory>
        ensures step { IfOk result (λ step. IsNext self.old
            (done self.old.spec (J.verdict self.old.judge) op.now self.old.imports) self.new step) }
        ensures kept { KeepsSpec self.old self.new }
        ensures refused { OnErr result (self.new ≡ self.old) }
    {
        match op {
            Op::Start => self.start(),
            Op::SessionUp(id) => self.open(*id),
            Op::Add(net, given) => self.add(net, given),
            Op::Del(net) => self.del(net),
            Op::SessionDown => self.close(),
            Op::Disable => self.disable(),
            Op::Enable => self.enable(),
            Op::ReloadIn => self.reload_in(),
            Op::ReloadOut => self.reload_out(),
            Op::Reload => self.reload(),
        }
    }
}
