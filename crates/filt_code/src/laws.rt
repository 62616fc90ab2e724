ghost use Rattle.std.specs.Prelude.{◌≡◌, false, [], ◌∷◌, length, Some, None};
ghost use Rattle.std.specs.Borrow.{Bor};
ghost use Rattle.attrs.specs.declared.attributes.Attrs.{Attrs};
ghost use Rattle.attrs.specs.declared.judge.FilterFault.TheVariants as faults;
ghost use Rattle.attrs.specs.declared.judge.Verdict.TheVariants as verdicts;
ghost use Rattle.filt_meaning.specs.declared.fixed.Fixed.{Fixed};
ghost use Rattle.filt_meaning.specs.declared.fixed.Fixed.TheVariants as fixed;
ghost use Rattle.filt_code.specs.declared.instr.Instr.TheVariants as instrs;
ghost use Rattle.filt_code.specs.Codes.{Setting};
ghost use Rattle.filt_code.specs.Worked.{asks_the_med, divides, pairs, passes_the_right_side, prepends, puts_the_left_side, says, turns_over_the_path, wraps};

/// Codes that are worked by hand, and what they say: of nothing there is no verdict; faults are the
/// first ones, and of the kind that they are; what the left side decides, the right one doesn't
/// reach; a loop's variables round its body are kept from turn to turn.
pub fn worked_codes()
    ensures nothing { (s : Setting) (attrs : Attrs)
        → says s [] attrs ≡ verdicts.Reject (Some faults.NoVerdict) }
    ensures rejects { (s : Setting) (attrs : Attrs)
        → says s (instrs.Reject ∷ []) attrs ≡ verdicts.Reject None }
    ensures divides { (s : Setting) (zero one : Bor Fixed) (attrs : Attrs)
        → zero.now ≡ fixed.Int 0 → one.now ≡ fixed.Int 1
        → says s (divides zero one) attrs ≡ verdicts.Reject (Some faults.ZeroDivisor) }
    ensures undefined { (s : Setting) (attrs : Attrs)
        → attrs.med ≡ None
        → says s asks_the_med attrs ≡ verdicts.Reject (Some faults.Undefined) }
    ensures passes { (s : Setting) (lie zero one : Bor Fixed) (attrs : Attrs)
        → lie.now ≡ fixed.Bool false → zero.now ≡ fixed.Int 0 → one.now ≡ fixed.Int 1
        → says s (passes_the_right_side lie zero one) attrs ≡ verdicts.Accept attrs }
    ensures puts { (s : Setting) (lie zero one : Bor Fixed) (attrs : Attrs)
        → lie.now ≡ fixed.Bool false → zero.now ≡ fixed.Int 0 → one.now ≡ fixed.Int 1
        → says s (puts_the_left_side lie zero one) attrs ≡ verdicts.Accept attrs }
    ensures wraps { (s : Setting) (most one zero : Bor Fixed) (attrs : Attrs)
        → most.now ≡ fixed.Int 4294967295 → one.now ≡ fixed.Int 1 → zero.now ≡ fixed.Int 0
        → says s (wraps most one zero) attrs ≡ verdicts.Accept attrs }
    ensures pairs { (s : Setting) (large one zero : Bor Fixed) (attrs : Attrs)
        → large.now ≡ fixed.Int 65536 → one.now ≡ fixed.Int 1 → zero.now ≡ fixed.Int 0
        → says s (pairs large one zero) attrs ≡ verdicts.Reject (Some faults.PairPart) }
    ensures prepends { (s : Setting) (as_number : Bor Fixed) (attrs : Attrs)
        → as_number.now ≡ fixed.Int 65000 → attrs.path ≡ 65001 ∷ 65002 ∷ []
        → says s (prepends as_number) attrs
        ≡ verdicts.Accept (record attrs { path = 65000 ∷ 65001 ∷ 65002 ∷ [] }) }
    ensures too_long { (s : Setting) (as_number : Bor Fixed) (attrs : Attrs)
        → as_number.now ≡ fixed.Int 65000 → length attrs.path ≡ 120
        → says s (prepends as_number) attrs ≡ verdicts.Reject (Some faults.PathLong) }
    ensures turns { (s : Setting) (two : Bor Fixed) (attrs : Attrs)
        → two.now ≡ fixed.Int 2 → attrs.path ≡ 1 ∷ 0 ∷ 1 ∷ []
        → says s (turns_over_the_path two) attrs
        ≡ verdicts.Accept (record attrs { med = Some 5 }) }
{}
