//! A protocol in play.
ghost use Rattle.std.specs.Prelude.{◌≡◌, ◌↔◌, ◌∷◌, [], List, IfOk, IsTrue, OnOk, reverse, if◌then◌else◌};
ghost use Rattle.attrs.specs.declared.attributes.Kind.TheVariants as kinds;
ghost use Rattle.core_machine.specs.Rules.{signalled};
ghost use Rattle.core_setup.specs.Protocols.{effect_in, pipe_signal, signal_of};
ghost use Rattle.core_setup.specs.Setup.{Body as SeenBody};
ghost use Rattle.import_core.specs.declared.operation.Op.{Op as HeldOp};
ghost use Rattle.import_core.specs.declared.step.Mark.TheVariants.{Stay};
ghost use Rattle.sys_run.specs.Cores.{Does, is_static};
ghost use Rattle.sys_run.specs.Phase.{state_of};

use attrs::{Change, Judge, Kind, Seq};
use bits_ip::OutOfMemory;
use import_core::{Done, Importer, Mark, Op, Step};
use report::ProtocolState;
use std::alloc::Global;

/// Routes of a protocol's own, which it imports to a table.
#[derive(Debug, Drop)]
pub(crate) struct Source<J: Judge> {
    /// The table's number.
    pub(crate) table: usize,
    pub(crate) kind: Kind,
    pub(crate) importer: Importer<J>,
}

/// What a protocol does.
#[derive(Debug, Drop)]
pub(crate) enum Body<J: Judge> {
    Source(Source<J>),
    /// A pipe, which is up or not.
    Pipe(bool),
}

/// What comes of an operation: the changes of the table that a protocol imports to, whether a route
/// was over the limit, and what its channels are told.
#[derive(Debug, Drop)]
pub(crate) struct Turned {
    pub(crate) changes: Seq<Change>,
    pub(crate) over: bool,
    pub(crate) mark: Mark,
}

/// A protocol, with its operations of the phase.
#[derive(Debug, Drop)]
pub(crate) struct Protocol<J: Judge> {
    pub(crate) body: Body<J>,
    /// Its channels have numbers from the first of these on, below the second.
    pub(crate) from: usize,
    pub(crate) upto: usize,
    pub(crate) done: Vec<Done>,
}

impl<J: Judge> Body<J> {
    /// Does an operation, and tells what comes of it.
    pub(crate) fn turn(&mut self, alloc: Global, op: &Op) -> Result<Turned, OutOfMemory>
        ensures { IfOk result (λ turned. (p : SeenBody) (earlier : List HeldOp)
            → Does J.verdict p earlier self.old
            → Does J.verdict p (op.now ∷ earlier) self.new
            × (reverse turned.changes ≡ (effect_in p earlier op.now).changes)
            × (signal_of turned.mark ≡ (effect_in p earlier op.now).signal)
            × (turned.over ≡ (effect_in p earlier op.now).over)) }
    {
        match self {
            Body::Source(source) => {
                let Step {
                    changes,
                    over,
                    mark,
                } = source.importer.apply(op)?;
                Ok(Turned {
                    changes,
                    over,
                    mark,
                })
            }
            Body::Pipe(up) => {
                let mark = pipe_mark(*up, op);
                *up = is_up_behind(*up, mark);
                Ok(Turned {
                    changes: Seq::new(alloc),
                    over: false,
                    mark,
                })
            }
        }
    }

    /// Whether it is a static protocol.
    pub(crate) fn is_static(&self) -> bool
        ensures { result ≡ is_static self.now }
    {
        match self {
            Body::Source(source) => match source.kind {
                Kind::Static => true,
                Kind::Bgp => false,
            },
            Body::Pipe(_) => false,
        }
    }

    /// What is reported of it at the end of a phase.
    pub(crate) fn state(&self) -> ProtocolState
        ensures { result ≡ state_of self.now }
    {
        match self {
            Body::Source(source) => {
                ProtocolState::Imports(source.importer.mode(), source.importer.accepted())
            }
            Body::Pipe(up) => ProtocolState::Pipe(*up),
        }
    }
}

/// What an operation tells the directions of a pipe, which is up or not. Each form of a reload
/// sends all anew in both (BIRD User's Guide, "Remote control").
pub(crate) fn pipe_mark(up: bool, op: &Op) -> Mark
    ensures { signal_of result ≡ pipe_signal up op.now }
{
    match op {
        Op::Disable => when(up, Mark::Down),
        Op::Enable => when(!up, Mark::Up),
        Op::ReloadIn => when(up, Mark::Refresh),
        Op::ReloadOut => when(up, Mark::Refresh),
        Op::Reload => when(up, Mark::Refresh),
        Op::Start => Mark::Stay,
        Op::SessionUp(_) => Mark::Stay,
        Op::Add(_, _) => Mark::Stay,
        Op::Del(_) => Mark::Stay,
        Op::SessionDown => Mark::Stay,
    }
}

fn when(fits: bool, mark: Mark) -> Mark
    ensures { result ≡ (if fits then mark else Stay) }
{
    if fits { mark } else { Mark::Stay }
}

/// Whether a pipe is up behind a mark.
pub(crate) fn is_up_behind(up: bool, mark: Mark) -> bool
    ensures { result ≡ signalled (signal_of mark) up }
{
    match mark {
        Mark::Stay => up,
        Mark::Up => true,
        Mark::Down => false,
        Mark::Refresh => up,
    }
}
