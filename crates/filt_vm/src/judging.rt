//! Filters that run.

ghost use Rattle.std.specs.Prelude.{◌≡◌, IfOk};
ghost use Rattle.filt_code.specs.Codes.{code_judged, IsNeverStuck};
ghost use Rattle.filt_meaning.specs.Configuration.{around_route, verdict_of};
ghost use Rattle.filt_route.specs.Seen.{IsUnstuck};
ghost use Rattle.filt_vm.specs.Machines.{outcome, IsWhole};

use crate::frames::Frames;
use crate::level::Levels;
use crate::machine::{Machine, first};
use crate::operands::Operands;
use crate::step::Step;
use attrs::{Names, Route, Verdict};
use bits_ip::{OutOfMemory, Prefix};
use filt_code::{Draft, Routine};
use filt_meaning::Defaults;
use filt_route::{Halt, Running, Surroundings};
use std::alloc::Global;

/// What the code of a filter says of a route of a net, over functions of which it may call the
/// first: `Accept` with the attributes as it leaves them, or `Reject`, with the fault where there
/// was one (BIRD User's Guide, "Filters"). Functions may call each other to any depth: what waits
/// for them lies on the heap.
///
/// The code is to be never stuck, so here is no answer for a value of a wrong sort, an operand that
/// isn't there, or a variable or a function that there isn't. No set, no constant and no list that
/// the filter doesn't change is copied. The `Err` says that memory was wanted.
pub fn run(
    alloc: Global,
    code: &Draft<'_>,
    functions: &[Routine<'_>],
    names: &Names,
    net: &Prefix,
    route: &Route,
) -> Result<Verdict, OutOfMemory>
    requires { IsNeverStuck functions.now code.now }
    ensures { IfOk result (λ v. v ≡ code_judged (around_route names.now net.now route.now)
        functions.now code.now route.now.attrs) }
{
    let defaults = Defaults::make(alloc);
    run_over(alloc, code, functions, names, net, route, &defaults)
}

fn run_over<'a>(
    alloc: Global,
    code: &'a Draft<'a>,
    functions: &'a [Routine<'a>],
    names: &'a Names,
    net: &'a Prefix,
    route: &'a Route,
    defaults: &'a Defaults,
) -> Result<Verdict, OutOfMemory>
    requires { IsNeverStuck functions.now code.now }
    ensures { IfOk result (λ v. v ≡ code_judged (around_route names.now net.now route.now)
        functions.now code.now route.now.attrs) }
{
    let around = Surroundings {
        alloc,
        names,
        net,
        number: route.src.num,
        defaults,
    };
    let machine = Machine {
        around,
        functions: first(functions, code.functions),
        rest: code.code.as_slice(),
        locals: Frames::new(alloc),
        operands: Operands::new(alloc),
        levels: Levels::new(alloc),
        attrs: Running::of(&route.attrs),
    };
    finished(alloc, machine)
}

/// What the machine says in the end.
fn finished(alloc: Global, machine: Machine<'_>) -> Result<Verdict, OutOfMemory>
    requires unstuck { IsUnstuck (outcome machine) }
    requires whole { IsWhole machine }
    ensures { IfOk result (λ v. v ≡ verdict_of (outcome machine.entry)) }
{
    let mut machine = machine;
    loop {
        match machine.step() {
            Ok(Step::On) => {}
            Ok(Step::Accepts) => return Ok(Verdict::Accept(machine.attrs.finish(alloc)?)),
            Ok(Step::Rejects(fault)) => return Ok(Verdict::Reject(fault)),
            Err(Halt::Fault(fault)) => return Ok(Verdict::Reject(Some(fault))),
            Err(Halt::Memory) => return Err(OutOfMemory),
        }
    }
}
