ghost use Rattle.std.specs.Prelude.{◌≡◌, ◌≤◌, ◌+◌, ℕ, true, false, List, [], ◌∷◌, ◌++◌, length};
ghost use Rattle.std.specs.Prelude.{map, take, Some, Ok};
ghost use Rattle.attrs.specs.declared.attributes.Attrs.{Attrs};
ghost use Rattle.conf_ast.specs.declared.named.Name.{Name};
ghost use Rattle.conf_ast.specs.Names.{name_bytes};
ghost use Rattle.conf_ast.specs.declared.filters.Item.{Item};
ghost use Rattle.conf_ast.specs.declared.filters.LogicalOp.TheVariants as logical_ops;
ghost use Rattle.conf_ast.specs.declared.filters.AddOp.{AddOp};
ghost use Rattle.conf_ast.specs.declared.filters.VariableType.{VariableType};
ghost use Rattle.conf_ast.specs.Configurations.{Declaration, Routine};
ghost use Rattle.conf_ast.specs.Filters.{Expression, Called, Added, Joined, Expressions, Statement};
ghost use Rattle.conf_ast.specs.Filters.{IfElse, For, Statements, AndStatements, Arms, AndArms};
ghost use Rattle.filt_meaning.specs.Values.{Val, VInt, VBool, VPath};
ghost use Rattle.filt_meaning.specs.Configuration.{at_start, behind, body, doing, with_function};
ghost use Rattle.filt_meaning.specs.Flow.{Why, Done, Stopped, Frame};
ghost use Rattle.filt_meaning.specs.Items.{has_label};
ghost use Rattle.filt_meaning.specs.Meaning.{Act, act, acts, value, values};
ghost use Rattle.filt_meaning.specs.Names.{Around, Context, with_variables};
ghost use Rattle.filt_meaning.specs.Worked.{counts, names, passes_over, prepends_one, prepends_two};
ghost use Rattle.filt_types.specs.Scenes.{Scene, Signature};
ghost use Rattle.filt_types.specs.Weight.{act_weight, acts_weight, block_weight, too_heavy, weight};
ghost use Rattle.filt_types.specs.Weight.{weights};
ghost use Rattle.filt_steps.specs.Agreement.{Agree, TakesAtMost, with_signature};
ghost use Rattle.filt_steps.specs.Configured.{at_first, counts_behind, weighed_behind};
ghost use Rattle.filt_steps.specs.Limits.{AreWithin, AttrsAreWithin, ContextIsWithin, IsWithin};
ghost use Rattle.filt_steps.specs.Limits.{KeepsLimits, Leaves};
ghost use Rattle.filt_steps.specs.Steps.{Count, Counts, act_steps, acts_steps, all_steps};
ghost use Rattle.filt_steps.specs.Steps.{arms_steps, count_of, filter_steps, function_steps, steps};
ghost use Rattle.filt_steps.specs.Steps.{turns};

/// Over values and attributes within their limits a run leaves such, whether it is done or stops:
/// no filter makes a path of more than 120 numbers or a list of more than 64 communities. So do
/// functions over the functions before them.
pub fn lists_keep_their_limits()
    ensures expression { (c : Context) → ContextIsWithin c → (e : Expression) (vals : Frame)
        (attrs : Attrs) → AreWithin vals → AttrsAreWithin attrs
        → Leaves IsWithin (value e c vals attrs) }
    ensures expressions { (c : Context) → ContextIsWithin c → (es : Expressions) (vals : Frame)
        (attrs : Attrs) → AreWithin vals → AttrsAreWithin attrs
        → Leaves AreWithin (values es c vals attrs) }
    ensures statement { (c : Context) → ContextIsWithin c → (s : Statement) (vals : Frame)
        (attrs : Attrs) → AreWithin vals → AttrsAreWithin attrs
        → Leaves AreWithin (act s c vals attrs) }
    ensures statements { (c : Context) → ContextIsWithin c → (ss : Statements) (vals : Frame)
        (attrs : Attrs) → AreWithin vals → AttrsAreWithin attrs
        → Leaves AreWithin (acts ss c vals attrs) }
    ensures function { (c : Context) → ContextIsWithin c → (f : Routine)
        → KeepsLimits (doing c f) }
    ensures filter { (c : Context) → ContextIsWithin c → (ss : Statements) (attrs : Attrs)
        → AttrsAreWithin attrs → Leaves AreWithin (body c [] ss [] attrs) }
{}

/// What is run takes at most as many steps as it weighs, whether it is done or stops: whatever it
/// is, also where its types or names are refused.
pub fn filters_end_within_their_weight()
    ensures expression { (scene : Scene) (c : Context) (fs : Counts) → Agree scene c fs
        → (e : Expression) → TakesAtMost (weight scene e) (steps e c fs) }
    ensures expressions { (scene : Scene) (c : Context) (fs : Counts) → Agree scene c fs
        → (es : Expressions) → TakesAtMost (weights scene es) (all_steps es c fs) }
    ensures statement { (scene : Scene) (c : Context) (fs : Counts) → Agree scene c fs
        → (s : Statement) → TakesAtMost (act_weight scene s) (act_steps s c fs) }
    ensures statements { (scene : Scene) (c : Context) (fs : Counts) → Agree scene c fs
        → (ss : Statements) → TakesAtMost (acts_weight scene ss) (acts_steps ss c fs) }
    ensures filter { (scene : Scene) (c : Context) (fs : Counts) → Agree scene c fs
        → (ss : Statements) (attrs : Attrs) → AttrsAreWithin attrs
        → filter_steps c fs ss attrs ≤ acts_weight scene ss }
{}

/// A function takes at most as many steps as its block weighs. So where its signature has that
/// weight, what a scene and a context agree on they agree on behind the function.
pub fn functions_end_within_their_weight()
    ensures function { (scene : Scene) (c : Context) (fs : Counts) → Agree scene c fs
        → (f : Routine) → TakesAtMost (block_weight scene f.body) (function_steps c fs f) }
    ensures behind_it { (scene : Scene) (c : Context) (fs : Counts) → Agree scene c fs
        → (f : Routine) (name : List ℕ) (s : Signature) → block_weight scene f.body ≤ s.weight
        → Agree (with_signature scene name s) (with_function c name (doing c f))
        (fs ++ (name, function_steps c fs f) ∷ []) }
{}

/// A filter of a configuration, over whatever route within limits: there a scene and a context
/// agree, so what isn't refused as too heavy takes 10,000,000 steps at most.
pub fn configured_filters_end_within_their_weight()
    ensures agree { (text : List ℕ) (around : Around) (before : List Declaration)
        → Agree (weighed_behind (at_first text) before) (behind (at_start text around) before)
        (counts_behind (at_start text around) [] before) }
    ensures filter { (text : List ℕ) (around : Around) (before : List Declaration)
        (ss : Statements) (attrs : Attrs) → AttrsAreWithin attrs
        → filter_steps (behind (at_start text around) before)
        (counts_behind (at_start text around) [] before) ss attrs
        ≤ acts_weight (weighed_behind (at_first text) before) ss }
    ensures light { (text : List ℕ) (around : Around) (before : List Declaration)
        (ss : Statements) (attrs : Attrs) (at : ℕ) → AttrsAreWithin attrs
        → too_heavy at (block_weight (weighed_behind (at_first text) before) ss) ≡ []
        → filter_steps (behind (at_start text around) before)
        (counts_behind (at_start text around) [] before) ss attrs ≤ 10000000 }
{}

/// What is run is counted, and nothing else: operands from left to right as far as they are run,
/// the right side of `&&` and `||` where the left one doesn't decide, one branch, one arm, a call
/// with its function, and each turn of a loop over what the turn before left.
pub fn what_is_run_is_counted()
    ensures operands { (a b : Expression) (op : AddOp) (c : Context) (fs : Counts) (vals : Frame)
        (attrs between : Attrs) (v : Val) → value a c vals attrs ≡ Done v between
        → steps (Added a op b) c fs vals attrs
        ≡ 1 + steps a c fs vals attrs + steps b c fs vals between }
    ensures stopped { (a b : Expression) (op : AddOp) (c : Context) (fs : Counts) (vals : Frame)
        (attrs after : Attrs) (why : Why) → value a c vals attrs ≡ Stopped why after
        → steps (Added a op b) c fs vals attrs ≡ 1 + steps a c fs vals attrs }
    ensures right { (a b : Expression) (c : Context) (fs : Counts) (vals : Frame)
        (attrs between : Attrs) → value a c vals attrs ≡ Done (VBool true) between
        → steps (Joined a logical_ops.And b) c fs vals attrs
        ≡ 1 + steps a c fs vals attrs + steps b c fs vals between }
    ensures left_decides { (a b : Expression) (c : Context) (fs : Counts) (vals : Frame)
        (attrs between : Attrs) → value a c vals attrs ≡ Done (VBool false) between
        → steps (Joined a logical_ops.And b) c fs vals attrs ≡ 1 + steps a c fs vals attrs }
    ensures right_of_or { (a b : Expression) (c : Context) (fs : Counts) (vals : Frame)
        (attrs between : Attrs) → value a c vals attrs ≡ Done (VBool false) between
        → steps (Joined a logical_ops.Or b) c fs vals attrs
        ≡ 1 + steps a c fs vals attrs + steps b c fs vals between }
    ensures left_decides_or { (a b : Expression) (c : Context) (fs : Counts) (vals : Frame)
        (attrs between : Attrs) → value a c vals attrs ≡ Done (VBool true) between
        → steps (Joined a logical_ops.Or b) c fs vals attrs ≡ 1 + steps a c fs vals attrs }
    ensures call { (n : Name) (place : ℕ) (es : Expressions) (c : Context) (fs : Counts)
        (count : Count) (vals arguments : Frame) (attrs between : Attrs)
        → count_of c fs n ≡ Some count → values es c vals attrs ≡ Done arguments between
        → steps (Called n place es) c fs vals attrs
        ≡ 1 + all_steps es c fs vals attrs + count arguments between }
    ensures branch { (e : Expression) (s t : Statement) (c : Context) (fs : Counts) (vals : Frame)
        (attrs between : Attrs) → value e c vals attrs ≡ Done (VBool true) between
        → act_steps (IfElse e s t) c fs vals attrs
        ≡ 1 + steps e c fs vals attrs + act_steps s c fs vals between }
    ensures other_branch { (e : Expression) (s t : Statement) (c : Context) (fs : Counts)
        (vals : Frame) (attrs between : Attrs) → value e c vals attrs ≡ Done (VBool false) between
        → act_steps (IfElse e s t) c fs vals attrs
        ≡ 1 + steps e c fs vals attrs + act_steps t c fs vals between }
    ensures arm { (labels : List Item) (ss : Statements) (more : Arms) (c : Context) (fs : Counts)
        (otherwise : Count) (v : Val) (vals : Frame) (attrs : Attrs)
        → has_label c labels v ≡ Ok true
        → arms_steps (AndArms labels ss more) c fs otherwise v vals attrs
        ≡ acts_steps ss c fs vals attrs }
    ensures later_arm { (labels : List Item) (ss : Statements) (more : Arms) (c : Context)
        (fs : Counts) (otherwise : Count) (v : Val) (vals : Frame) (attrs : Attrs)
        → has_label c labels v ≡ Ok false
        → arms_steps (AndArms labels ss more) c fs otherwise v vals attrs
        ≡ arms_steps more c fs otherwise v vals attrs }
    ensures all_turns { (at : ℕ) (t : VariableType) (n : Name) (e : Expression) (s : Statement)
        (c : Context) (fs : Counts) (vals : Frame) (attrs after : Attrs) (path : List ℕ)
        → value e c vals attrs ≡ Done (VPath path) after
        → act_steps (For at t n e s) c fs vals attrs
        ≡ 1 + steps e c fs vals attrs + turns (length vals) (map VInt path)
        (act s (with_variables c (name_bytes c.text n ∷ [])))
        (act_steps s (with_variables c (name_bytes c.text n ∷ [])) fs) vals after }
    ensures turn { (n : ℕ) (v : Val) (vs : List Val) (body : Act) (count : Count)
        (vals after : Frame) (attrs between : Attrs)
        → body (vals ++ v ∷ []) attrs ≡ Done after between
        → turns n (v ∷ vs) body count vals attrs
        ≡ count (vals ++ v ∷ []) attrs + turns n vs body count (take n after) between }
    ensures statements { (s : Statement) (ss : Statements) (c : Context) (fs : Counts)
        (vals after : Frame) (attrs between : Attrs) → act s c vals attrs ≡ Done after between
        → acts_steps (AndStatements s ss) c fs vals attrs
        ≡ act_steps s c fs vals attrs + acts_steps ss c fs after between }
{}

/// The steps of the filters that are worked by hand in filt_meaning: the first statement of
/// `prepends_two` takes its own step, the call's and the function's four; a turn of the loop of
/// `counts` takes ten; and of `passes_over` the declaration isn't run, nor is `reject`.
pub fn worked_steps()
    ensures a_call { (around : Around) (attrs : Attrs) → attrs.path ≡ 9 ∷ []
        → filter_steps (behind (at_start names around) prepends_one)
        (counts_behind (at_start names around) [] prepends_one) prepends_two attrs ≡ 7 }
    ensures a_loop { (around : Around) (attrs : Attrs) → attrs.path ≡ 1 ∷ 2 ∷ 3 ∷ []
        → filter_steps (at_start names around) [] counts attrs ≡ 36 }
    ensures a_branch { (around : Around) (attrs : Attrs)
        → filter_steps (at_start names around) [] passes_over attrs ≡ 7 }
{}
