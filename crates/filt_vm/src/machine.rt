//! The machine, and its steps.

ghost use Rattle.std.specs.Prelude.{◌≡◌, ◌<◌, ◌≤◌, List, ◌∷◌, drop, length, slice_get, take, Some};
ghost use Rattle.attrs.specs.declared.attributes.Attrs.{Attrs};
ghost use Rattle.filt_code.specs.Codes.{mean, Setting};
ghost use Rattle.filt_meaning.specs.Flow.{AtEnd, Done, Frame, Returned, Stopped, Why};
ghost use Rattle.filt_meaning.specs.Names.{Around};
ghost use Rattle.filt_meaning.specs.Seen.{val_of};
ghost use Rattle.filt_meaning.specs.Values.{Val};
ghost use Rattle.filt_code.specs.declared.instr.Instr.TheVariants as instrs;
ghost use Rattle.filt_vm.specs.declared.level.Level.TheVariants as levels;
ghost use Rattle.filt_route.specs.Seen.{IsUnstuck};
ghost use Rattle.filt_vm.specs.Machines.{back_in, call_of, left_in, outcome, outcome_behind, resumed, waits, AreThere, Ends, Goes, IsJump, IsWhole, IsWholeBehind, StaysWhole};

use crate::effects::effect;
use crate::frames::Frames;
use crate::level::{Call, Level, Levels, Turn};
use crate::operands::Operands;
use crate::passing::ahead;
use crate::step::Step;
use crate::target::target;
use attrs::FilterFault;
use filt_code::{Effect, Instr, Routine};
use filt_meaning::Value;
use filt_route::{Elements, Halt, Running, Surroundings};

/// A filter that runs.
#[derive(Drop)]
pub(crate) struct Machine<'a> {
    pub around: Surroundings<'a>,
    /// The functions that the code may call.
    pub functions: &'a [Routine<'a>],
    /// The code from the next instruction on.
    pub rest: &'a [Instr<'a>],
    pub locals: Frames<'a>,
    pub operands: Operands<'a>,
    pub levels: Levels<'a>,
    pub attrs: Running<'a>,
}

impl<'a> Machine<'a> {
    /// The next instruction.
    pub(crate) fn step(&mut self) -> Result<Step, Halt>
        requires unstuck { IsUnstuck (outcome self.old) }
        requires whole { IsWhole self.old }
        ensures goes { Goes result self.old self.new }
        ensures whole { StaysWhole result self.new }
    {
        self.rest = ahead(&self.around, self.rest, &self.attrs);
        self.first()
    }

    fn first(&mut self) -> Result<Step, Halt>
        requires unstuck { IsUnstuck (outcome self.old) }
        requires whole { IsWhole self.old }
        ensures goes { Goes result self.old self.new }
        ensures whole { StaysWhole result self.new }
    {
        let rest = self.rest;
        match rest.first() {
            Some(i) => self.do_one(i, &rest[1..]),
            None => self.end(),
        }
    }

    fn do_one(&mut self, i: &Instr<'a>, tail: &'a [Instr<'a>]) -> Result<Step, Halt>
        requires code { self.old.rest.now ≡ i.now ∷ tail.now }
        requires unstuck { IsUnstuck (outcome self.old) }
        requires whole { IsWhole self.old }
        ensures goes { Goes result self.old self.new }
        ensures whole { StaysWhole result self.new }
    {
        match i {
            Instr::Do(what) => self.act(what, tail),
            Instr::Jump(_) => self.jump(i, tail),
            Instr::JumpIf(_, _) => self.jump(i, tail),
            Instr::JumpIfAsked(_, _, _) => self.jump(i, tail),
            Instr::JumpIfDecided(_, _) => self.jump(i, tail),
            Instr::Switch(_) => self.jump(i, tail),
            Instr::ForEach(over) => self.for_each(*over, tail),
            Instr::EndTurn => self.end(),
            Instr::Call(number, count) => self.call(*number, *count, true, tail),
            Instr::Perform(number, count) => self.call(*number, *count, false, tail),
            Instr::Accept => Ok(Step::Accepts),
            Instr::Reject => Ok(Step::Rejects(None)),
            Instr::Return => self.give_top(tail),
            Instr::ReturnNothing => self.give_end(tail),
            Instr::Stuck => unreachable!(),
        }
    }

    /// An effect, with the code behind it.
    fn act(&mut self, what: &Effect<'a>, tail: &'a [Instr<'a>]) -> Result<Step, Halt>
        requires code { self.old.rest.now ≡ instrs.Do what.now ∷ tail.now }
        requires unstuck { IsUnstuck (outcome self.old) }
        requires whole { IsWhole self.old }
        ensures goes { Goes result self.old self.new }
        ensures whole { StaysWhole result self.new }
    {
        effect(
            &self.around,
            what,
            &mut self.locals,
            &mut self.operands,
            &mut self.attrs,
        )?;
        self.rest = tail;
        Ok(Step::On)
    }

    /// A jump, with the code behind it.
    fn jump(&mut self, i: &Instr<'a>, tail: &'a [Instr<'a>]) -> Result<Step, Halt>
        requires jumps { IsJump i.now }
        requires code { self.old.rest.now ≡ i.now ∷ tail.now }
        requires unstuck { IsUnstuck (outcome self.old) }
        requires whole { IsWhole self.old }
        ensures goes { Goes result self.old self.new }
        ensures whole { StaysWhole result self.new }
    {
        let passed = target(&self.around, i, &mut self.operands, &self.attrs)?;
        self.rest = behind(tail, passed);
        Ok(Step::On)
    }

    /// A loop, with its body and the code behind it.
    fn for_each(&mut self, over: usize, tail: &'a [Instr<'a>]) -> Result<Step, Halt>
        requires code { self.old.rest.now ≡ instrs.ForEach over ∷ tail.now }
        requires unstuck { IsUnstuck (outcome self.old) }
        requires whole { IsWhole self.old }
        ensures goes { Goes result self.old self.new }
        ensures whole { StaysWhole result self.new }
    {
        let list = Elements::of(self.operands.pop());
        let turn = Turn {
            functions: self.functions,
            body: tail,
            over,
            variables: self.locals.len(),
            next: 0,
        };
        self.levels.begin(list)?;
        self.levels.push(Level::Turns(turn))?;
        self.operands.enter()?;
        let whole = tail.len();
        self.rest = behind(tail, whole);
        Ok(Step::On)
    }

    /// A call, with the code behind it.
    fn call(
        &mut self,
        number: usize,
        count: usize,
        puts: bool,
        tail: &'a [Instr<'a>],
    ) -> Result<Step, Halt>
        requires code { self.old.rest.now ≡ call_of puts number count ∷ tail.now }
        requires unstuck { IsUnstuck (outcome self.old) }
        requires whole { IsWhole self.old }
        ensures goes { Goes result self.old self.new }
        ensures whole { StaysWhole result self.new }
    {
        let functions = self.functions;
        let routine = routine_at(functions, number);
        let call = Call {
            functions,
            rest: tail,
            gives: routine.gives,
            puts,
        };
        self.locals.enter()?;
        self.operands.hand(count, &mut self.locals)?;
        self.operands.enter()?;
        self.levels.push(Level::Returns(call))?;
        self.functions = first(functions, number);
        self.rest = routine.code.as_slice();
        Ok(Step::On)
    }

    /// The end of code, or of a loop's body.
    fn end(&mut self) -> Result<Step, Halt>
        requires ends { (s : Setting) (vals : Frame) (os : List Val) (attrs : Attrs)
            → mean s self.old.rest.now 0 vals os attrs ≡ Done vals attrs }
        requires unstuck { IsUnstuck (outcome self.old) }
        requires whole { IsWhole self.old }
        ensures goes { Goes result self.old self.new }
        ensures whole { StaysWhole result self.new }
    {
        match self.levels.pop() {
            None => Ok(Step::Rejects(Some(FilterFault::NoVerdict))),
            Some(Level::Returns(call)) => self.give_nothing(call),
            Some(Level::Turns(turn)) => self.turn(turn),
        }
    }

    /// `return` with the top operand.
    fn give_top(&mut self, tail: &'a [Instr<'a>]) -> Result<Step, Halt>
        requires code { self.old.rest.now ≡ instrs.Return ∷ tail.now }
        requires unstuck { IsUnstuck (outcome self.old) }
        requires whole { IsWhole self.old }
        ensures goes { Goes result self.old self.new }
        ensures whole { StaysWhole result self.new }
    {
        let value = self.operands.pop();
        match unwound(&mut self.levels, &mut self.operands) {
            Some(call) => self.give(call, value),
            None => Ok(Step::Rejects(None)),
        }
    }

    /// `return` with nothing.
    fn give_end(&mut self, tail: &'a [Instr<'a>]) -> Result<Step, Halt>
        requires code { self.old.rest.now ≡ instrs.ReturnNothing ∷ tail.now }
        requires unstuck { IsUnstuck (outcome self.old) }
        requires whole { IsWhole self.old }
        ensures goes { Goes result self.old self.new }
        ensures whole { StaysWhole result self.new }
    {
        match unwound(&mut self.levels, &mut self.operands) {
            Some(call) => self.give_nothing(call),
            None => Ok(Step::Rejects(Some(FilterFault::NoVerdict))),
        }
    }

    /// A function gives a value to the caller that waited for it.
    fn give(&mut self, call: Call<'a>, value: Value<'a>) -> Result<Step, Halt>
        requires { IsWholeBehind (levels.Returns call ∷ self.old.levels.levels) self.old }
        ensures goes { Ends result (levels.Returns call.entry ∷ self.old.levels.levels)
            (Stopped (Returned (val_of value.entry)) self.old.attrs) self.old self.new }
        ensures whole { StaysWhole result self.new }
    {
        self.go_back(call);
        if call.puts {
            self.operands.push(value)?;
        }
        Ok(Step::On)
    }

    /// A function ends without a value.
    fn give_nothing(&mut self, call: Call<'a>) -> Result<Step, Halt>
        requires unstuck { IsUnstuck (outcome_behind (levels.Returns call ∷ self.old.levels.levels)
            (Stopped AtEnd self.old.attrs) self.old) }
        requires whole { IsWholeBehind (levels.Returns call ∷ self.old.levels.levels) self.old }
        ensures goes { Ends result (levels.Returns call.entry ∷ self.old.levels.levels)
            (Stopped AtEnd self.old.attrs) self.old self.new }
        ensures whole { StaysWhole result self.new }
    {
        if call.gives.is_some() {
            return Ok(Step::Rejects(Some(FilterFault::NoValue)));
        }
        self.go_back(call);
        Ok(Step::On)
    }

    /// The caller goes on.
    fn go_back(&mut self, call: Call<'a>)
        requires variables { 0 < length self.old.locals.under }
        requires operands { 0 < length self.old.operands.under }
        ensures { self.new ≡ back_in self.old call.entry }
    {
        self.locals.leave();
        self.operands.leave();
        self.functions = call.functions;
        self.rest = call.rest;
    }

    /// The next turn of a loop, or what is behind it.
    fn turn(&mut self, turn: Turn<'a>) -> Result<Step, Halt>
        requires { IsWholeBehind (levels.Turns turn ∷ self.old.levels.levels) self.old }
        ensures goes { Ends result (levels.Turns turn.entry ∷ self.old.levels.levels)
            (Done self.old.locals.here self.old.attrs) self.old self.new }
        ensures whole { StaysWhole result self.new }
    {
        self.functions = turn.functions;
        self.locals.truncate(turn.variables);
        if self.levels.has(turn.next) {
            let value = self.levels.element(turn.next);
            self.locals.push(value)?;
            let again = Turn {
                functions: turn.functions,
                body: turn.body,
                over: turn.over,
                variables: turn.variables,
                next: turn.next + 1,
            };
            self.levels.push(Level::Turns(again))?;
            self.operands.clear();
            self.rest = turn.body;
            return Ok(Step::On);
        }
        self.levels.end();
        self.operands.leave();
        self.rest = behind(turn.body, turn.over);
        Ok(Step::On)
    }
}

/// The caller that waits for the function that runs, past the loops in between, which are over.
fn unwound<'a>(levels: &mut Levels<'a>, operands: &mut Operands<'a>) -> Option<Call<'a>>
    requires { (fs : List (List Val)) × AreThere levels.old.levels fs operands.old.under
        levels.old.lists }
    ensures flow { (around : Around) (fs : List (List Val)) (why : Why) (attrs : Attrs)
        → resumed around levels.old.levels fs operands.old.under levels.old.lists
        (Stopped why attrs)
        ≡ resumed around (waits result levels.new.levels) fs operands.new.under levels.new.lists
        (Stopped why attrs) }
    ensures left { left_in (waits result levels.new.levels) levels.new.lists
        ≤ left_in levels.old.levels levels.old.lists }
    ensures whole { (fs : List (List Val)) → AreThere levels.old.levels fs operands.old.under
        levels.old.lists
        → AreThere (waits result levels.new.levels) fs operands.new.under levels.new.lists }
{
    while let Some(level) = levels.pop() {
        match level {
            Level::Returns(call) => return Some(call),
            Level::Turns(_) => {
                levels.end();
                operands.leave();
            }
        }
    }
    None
}

fn routine_at<'a>(functions: &'a [Routine<'a>], number: usize) -> &'a Routine<'a>
    requires { number < length functions.now }
    ensures { slice_get functions.now number ≡ Some result.now }
{
    &functions[number]
}

/// The code behind so many instructions.
#[inline(always)]
pub(crate) fn behind<'a>(code: &'a [Instr<'a>], count: usize) -> &'a [Instr<'a>]
    ensures { result.now ≡ drop count code.now }
{
    if count < code.len() {
        &code[count..]
    } else {
        &code[code.len()..]
    }
}

/// The first functions, or all where there are fewer.
pub(crate) fn first<'a>(functions: &'a [Routine<'a>], count: usize) -> &'a [Routine<'a>]
    ensures { result.now ≡ take count functions.now }
{
    if count < functions.len() {
        &functions[..count]
    } else {
        functions
    }
}
