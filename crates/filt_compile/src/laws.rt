//! What compiled code costs. The functions are empty: their clauses are the laws.

ghost use Rattle.std.specs.Prelude.{◌≡◌, ◌≤◌, ◌∷◌, ℕ, false, List, []};
ghost use Rattle.std.specs.Borrow.{Bor};
ghost use Rattle.filt_meaning.specs.Steps.{called_by, filter_steps};
ghost use Rattle.filt_meaning.specs.declared.fixed.Fixed.{Fixed};
ghost use Rattle.filt_meaning.specs.declared.scope.TFunction.{TFunction};
ghost use Rattle.filt_meaning.specs.declared.tree.TFilter.{TFilter};
ghost use Rattle.filt_code.specs.Costs.{cost, costs};
ghost use Rattle.filt_code.specs.Worked.{turns_over_the_path};
ghost use Rattle.filt_code.specs.declared.instr.Effect.TheVariants as effects;
ghost use Rattle.filt_code.specs.declared.code.Draft.{Draft};
ghost use Rattle.filt_code.specs.declared.code.Routine.{Routine};
ghost use Rattle.filt_code.specs.declared.instr.Instr.TheVariants as instrs;
ghost use Rattle.filt_compile.specs.Compiles.{AreLight, CostAtMost, CostTheirSteps, CostsItsSteps, draft_cost};

/// The code of functions, each of which takes five steps for each that it weighs at most over those
/// before it, costs no more; and that of a filter over them costs no more than the filter takes.
pub fn code_costs_no_more_than_its_steps()
    ensures functions { (functions : List TFunction) (routines : List Routine)
        → CostTheirSteps functions routines → AreLight [] functions
        → CostAtMost (costs routines) (called_by functions) }
    ensures filter { (functions : List TFunction) (routines : List Routine) (f : TFilter)
        (draft : Draft) → CostTheirSteps functions routines → AreLight [] functions
        → CostsItsSteps f.sorts.items f.body.items draft.code.items
        → draft_cost routines draft ≤ filter_steps functions f }
{}

/// Codes whose costs are counted by hand: of two ways the dearer one, of a loop 120 turns.
pub fn worked_costs()
    ensures nothing { (fs : List ℕ) → cost fs [] 0 ≡ 0 }
    ensures either { (fs : List ℕ) (known : Bor Fixed)
        → cost fs (instrs.Do (effects.Push known) ∷ instrs.JumpIf false 1 ∷ instrs.Accept ∷ []) 0 ≡ 3 }
    ensures turns { (fs : List ℕ) (two : Bor Fixed) → cost fs (turns_over_the_path two) 0 ≡ 967 }
{}
