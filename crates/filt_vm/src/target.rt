//! Where jumps lead.

ghost use Rattle.std.specs.Prelude.{◌≡◌, ◌⊎◌, ℕ, ◌≤◌, List, length, IfOk, OnOk};
ghost use Rattle.attrs.specs.declared.attributes.Attrs.{Attrs};
ghost use Rattle.filt_code.specs.Codes.{arms_before, labels_of, behind_left, decides, jump_where, one, with_one, At, Setting};
ghost use Rattle.filt_code.specs.Costs.{beside};
ghost use Rattle.filt_meaning.specs.Flow.{Frame, and_then, plainly};
ghost use Rattle.filt_meaning.specs.Operators.{bool_in};
ghost use Rattle.filt_route.specs.Seen.{around_in};
ghost use Rattle.filt_vm.specs.Machines.{IsJump, IsReady, Leads};
ghost use Rattle.filt_vm.specs.Seen.{TakesTop};

use crate::operands::Operands;
use conf_ast::filters::LogicalOp;
use filt_code::Instr;
use filt_meaning::{TArm, TStmt};
use filt_route::{Halt, Running, Surroundings, arms_before, asked, bool};

/// How many instructions a jump passes over, and what it does to the operands.
pub(crate) fn target<'a>(
    around: &Surroundings<'a>,
    i: &Instr<'a>,
    operands: &mut Operands<'a>,
    attrs: &Running<'a>,
) -> Result<usize, Halt>
    requires jumps { IsJump i.now }
    requires ready { IsReady (around_in around.now) i.now operands.old.here attrs.now }
    ensures leads { (s : Setting) (rest : ℕ → At) (vals : Frame)
        → s.around ≡ around_in around.now
        → Leads result (λ n. rest n vals operands.new.here attrs.now) attrs.now
        (one s i.now rest vals operands.old.here attrs.now) }
    ensures under { OnOk result (operands.new.under ≡ operands.old.under) }
    ensures cost { (fs : List ℕ) (of : ℕ → ℕ) → IfOk result (λ n. of n ≤ beside fs i.now of) }
{
    match i {
        Instr::Jump(n) => Ok(*n),
        Instr::JumpIf(is, n) => Ok(if_top(*is, *n, operands)),
        Instr::JumpIfAsked(is, what, n) => Ok(jump_where(*is, *n, asked(around, *what, attrs)?)),
        Instr::JumpIfDecided(joint, n) => Ok(if_decided(*joint, *n, operands)),
        Instr::Switch(arms) => among(arms, operands),
        _ => unreachable!(),
    }
}

#[inline(always)]
pub(crate) fn jump_where(is: bool, n: usize, truth: bool) -> usize
    ensures { result ≡ jump_where is n truth }
{
    match (is, truth) {
        (true, true) => n,
        (true, false) => 0,
        (false, true) => 0,
        (false, false) => n,
    }
}

fn if_top(is: bool, n: usize, operands: &mut Operands<'_>) -> usize
    requires { TakesTop bool_in operands.old.here }
    ensures leads { (rest : ℕ → At) (vals : Frame) (attrs : Attrs)
        → with_one (λ v os attrs. and_then (plainly (bool_in v) attrs)
        (λ b attrs. rest (jump_where is n b) vals os attrs)) operands.old.here attrs
        ≡ rest result vals operands.new.here attrs }
    ensures under { operands.new.under ≡ operands.old.under }
    ensures either { (result ≡ 0) ⊎ (result ≡ n) }
{
    let value = operands.pop();
    jump_where(is, n, bool(&value))
}

/// Where the top operand decides it stays, so it is looked at before it is taken.
fn if_decided(joint: LogicalOp, n: usize, operands: &mut Operands<'_>) -> usize
    requires { TakesTop bool_in operands.old.here }
    ensures leads { (rest : ℕ → At) (vals : Frame) (attrs : Attrs)
        → with_one (λ v os attrs. and_then (plainly (bool_in v) attrs)
        (λ left attrs. behind_left (decides joint left) left n rest vals os attrs))
        operands.old.here attrs
        ≡ rest result vals operands.new.here attrs }
    ensures under { operands.new.under ≡ operands.old.under }
    ensures either { (result ≡ 0) ⊎ (result ≡ n) }
{
    if decides(joint, operands.truth()) {
        return n;
    }
    let _taken = operands.pop();
    0
}

/// Whether the value of the left side of `&&` or `||` is the whole's, whatever the right one is.
fn decides(joint: LogicalOp, left: bool) -> bool
    ensures { result ≡ decides joint left }
{
    match joint {
        LogicalOp::And => !left,
        LogicalOp::Or => left,
    }
}

fn among<'a>(arms: &'a [TArm<TStmt>], operands: &mut Operands<'a>) -> Result<usize, Halt>
    requires { TakesTop (arms_before (labels_of arms.now)) operands.old.here }
    ensures leads { (rest : ℕ → At) (vals : Frame) (attrs : Attrs)
        → Leads result (λ n. rest n vals operands.new.here attrs) attrs
        (with_one (λ v os attrs. and_then (plainly (arms_before (labels_of arms.now) v) attrs)
        (λ n attrs. rest n vals os attrs)) operands.old.here attrs) }
    ensures under { OnOk result (operands.new.under ≡ operands.old.under) }
    ensures few { IfOk result (λ n. n ≤ length arms.now) }
{
    let value = operands.pop();
    arms_before(arms, &value)
}
