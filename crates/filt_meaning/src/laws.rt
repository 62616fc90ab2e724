ghost use Rattle.std.specs.Prelude.{◌≡◌, ℕ, Bool, true, false, List, [], ◌∷◌, ◌++◌, length, map, Some, None, Ok, Err};
ghost use Rattle.attrs.specs.declared.attributes.Attrs.{Attrs};
ghost use Rattle.attrs.specs.declared.attributes.Dest.{Dest};
ghost use Rattle.attrs.specs.declared.attributes.Dest.TheVariants as dests;
ghost use Rattle.attrs.specs.declared.judge.FilterFault.{FilterFault};
ghost use Rattle.attrs.specs.declared.judge.FilterFault.TheVariants as faults;
ghost use Rattle.attrs.specs.declared.judge.Verdict.TheVariants as verdicts;
ghost use Rattle.attrs.specs.declared.route.Route.{Route};
ghost use Rattle.bits_ip.specs.Prefix.{Net};
ghost use Rattle.bits_ip.specs.declared.address.Addr.{Addr};
ghost use Rattle.conf_ast.specs.declared.named.Name.{Name};
ghost use Rattle.conf_ast.specs.Names.{name_bytes};
ghost use Rattle.conf_ast.specs.declared.attribute.Attribute.{Attribute};
ghost use Rattle.conf_ast.specs.declared.attribute.Attribute.TheVariants as attributes;
ghost use Rattle.conf_ast.specs.declared.filters.CompareOp.{CompareOp};
ghost use Rattle.conf_ast.specs.declared.filters.MulOp.{MulOp};
ghost use Rattle.conf_ast.specs.declared.filters.Item.{Item};
ghost use Rattle.conf_ast.specs.declared.filters.LogicalOp.{LogicalOp};
ghost use Rattle.conf_ast.specs.declared.filters.LogicalOp.TheVariants as logical_ops;
ghost use Rattle.conf_ast.specs.declared.filters.Atom.TheVariants as atoms;
ghost use Rattle.conf_ast.specs.declared.filters.Method.{Method};
ghost use Rattle.conf_ast.specs.declared.filters.Target.{Target};
ghost use Rattle.conf_ast.specs.declared.filters.Target.TheVariants as targets;
ghost use Rattle.conf_ast.specs.declared.filters.AddOp.{AddOp};
ghost use Rattle.conf_ast.specs.declared.filters.VariableType.{VariableType};
ghost use Rattle.conf_ast.specs.Configurations.{Routine};
ghost use Rattle.conf_ast.specs.Filters.{Expression, Plain, Named, Called, Paired, MethodOf, Changed, Multiplied, Added, Compared, Joined, Expressions, AndExpressions, Statement, If, Unset, Declare, Assign, ChangeBy, Case, CaseElse, For, Call, Statements, AndStatements, Arms, NoArms, AndArms};
ghost use Rattle.filt_meaning.specs.declared.value.Failure.TheVariants.{Fault};
ghost use Rattle.filt_meaning.specs.Values.{Val, VInt, VBool, VIp, VPair, VPath, VClist, VDest, default_of};
ghost use Rattle.filt_meaning.specs.Attributes.{attribute_of, is_defined, with_attribute, without_attribute};
ghost use Rattle.filt_meaning.specs.Configuration.{body, doing, judged, run_of, verdict};
ghost use Rattle.filt_meaning.specs.Flow.{AtEnd, Accepted, Faulted, Rejected, Returned, Why, Done, Stopped, Frame};
ghost use Rattle.filt_meaning.specs.Items.{has_label};
ghost use Rattle.filt_meaning.specs.Meaning.{Act, act, acts, arms_act, nothing, read, turns, value, values};
ghost use Rattle.filt_meaning.specs.Names.{Around, Context, function_of, sort_of_type, with_variables};
ghost use Rattle.filt_meaning.specs.Orders.{GoesFromLeft, IsGone};
ghost use Rattle.filt_meaning.specs.Worked.{counts, names, passes_over, prepends_one, prepends_two};

/// Where the left side of `&&` is false and where that of `||` is true, the right one isn't
/// evaluated: the whole is done with the left one's value and attributes. Elsewhere the right one
/// decides, evaluated over the attributes that the left one left.
pub fn the_left_side_decides()
    ensures and { (a b : Expression) (c : Context) (vals : Frame) (attrs after : Attrs)
        → value a c vals attrs ≡ Done (VBool false) after
        → value (Joined a logical_ops.And b) c vals attrs ≡ Done (VBool false) after }
    ensures or { (a b : Expression) (c : Context) (vals : Frame) (attrs after : Attrs)
        → value a c vals attrs ≡ Done (VBool true) after
        → value (Joined a logical_ops.Or b) c vals attrs ≡ Done (VBool true) after }
    ensures and_else { (a b : Expression) (c : Context) (vals : Frame)
        (attrs between after : Attrs) (right : Bool)
        → value a c vals attrs ≡ Done (VBool true) between
        → value b c vals between ≡ Done (VBool right) after
        → value (Joined a logical_ops.And b) c vals attrs ≡ Done (VBool right) after }
    ensures or_else { (a b : Expression) (c : Context) (vals : Frame)
        (attrs between after : Attrs) (right : Bool)
        → value a c vals attrs ≡ Done (VBool false) between
        → value b c vals between ≡ Done (VBool right) after
        → value (Joined a logical_ops.Or b) c vals attrs ≡ Done (VBool right) after }
    ensures left_stops { (a b : Expression) (joint : LogicalOp) (c : Context) (vals : Frame)
        (attrs after : Attrs) (why : Why)
        → value a c vals attrs ≡ Stopped why after
        → value (Joined a joint b) c vals attrs ≡ Stopped why after }
    ensures and_stops { (a b : Expression) (c : Context) (vals : Frame)
        (attrs between after : Attrs) (why : Why)
        → value a c vals attrs ≡ Done (VBool true) between
        → value b c vals between ≡ Stopped why after
        → value (Joined a logical_ops.And b) c vals attrs ≡ Stopped why after }
    ensures or_stops { (a b : Expression) (c : Context) (vals : Frame)
        (attrs between after : Attrs) (why : Why)
        → value a c vals attrs ≡ Done (VBool false) between
        → value b c vals between ≡ Stopped why after
        → value (Joined a logical_ops.Or b) c vals attrs ≡ Stopped why after }
{}

/// Operators, pairs and methods evaluate their operands from left to right, so the first fault
/// counts.
pub fn operands_go_from_left_to_right()
    ensures factors { (op : MulOp) → GoesFromLeft (λ a b. Multiplied a op b) }
    ensures terms { (op : AddOp) → GoesFromLeft (λ a b. Added a op b) }
    ensures comparisons { (op : CompareOp) → GoesFromLeft (λ a b. Compared a op b) }
    ensures pairs { (at : ℕ) → GoesFromLeft (λ a b. Paired at a b) }
    ensures methods { (m : Method) (place : ℕ) → GoesFromLeft (λ a b. Changed a m place b) }
    ensures calls { (m : Method) (place : ℕ) → GoesFromLeft (λ a b. MethodOf m place a b) }
{}

/// What stops an expression of a list, or a statement, stops those behind it.
pub fn what_stopped_stays_stopped()
    ensures expressions { (e : Expression) (es : Expressions) (c : Context) (vals : Frame)
        (attrs after : Attrs)
        (why : Why) → value e c vals attrs ≡ Stopped why after
        → values (AndExpressions e es) c vals attrs ≡ Stopped why after }
    ensures statements { (s : Statement) (ss : Statements) (c : Context) (vals : Frame)
        (attrs after : Attrs)
        (why : Why) → act s c vals attrs ≡ Stopped why after
        → acts (AndStatements s ss) c vals attrs ≡ Stopped why after }
    ensures later_expressions { (e : Expression) (es : Expressions) (c : Context) (vals : Frame)
        (attrs between after : Attrs) (v : Val) (why : Why)
        → value e c vals attrs ≡ Done v between
        → values es c vals between ≡ Stopped why after
        → values (AndExpressions e es) c vals attrs ≡ Stopped why after }
    ensures later_statements { (s : Statement) (ss : Statements) (c : Context) (vals more : Frame)
        (attrs between after : Attrs) (why : Why)
        → act s c vals attrs ≡ Done more between
        → acts ss c more between ≡ Stopped why after
        → acts (AndStatements s ss) c vals attrs ≡ Stopped why after }
    ensures conditions { (e : Expression) (s : Statement) (c : Context) (vals : Frame)
        (attrs after : Attrs) (why : Why) → value e c vals attrs ≡ Stopped why after
        → act (If e s) c vals attrs ≡ Stopped why after }
    ensures branches { (e : Expression) (s : Statement) (c : Context) (vals : Frame)
        (attrs between after : Attrs) (why : Why)
        → value e c vals attrs ≡ Done (VBool true) between
        → act s c vals between ≡ Stopped why after
        → act (If e s) c vals attrs ≡ Stopped why after }
    ensures turns { (n : ℕ) (v : Val) (vs : List Val) (body : Act) (vals : Frame)
        (attrs after : Attrs) (why : Why) → body (vals ++ v ∷ []) attrs ≡ Stopped why after
        → turns n (v ∷ vs) body vals attrs ≡ Stopped why after }
{}

/// `accept` and `reject` in a function that is called, and faults, end the filter: the call is
/// stopped by them, and so is what is behind it.
pub fn verdicts_end_the_filter()
    ensures accept_in_an_expression { (c d : Context) (f : Routine) (n : Name) (place : ℕ)
        (es : Expressions)
        (vals arguments : Frame) (attrs between after : Attrs)
        → function_of c n ≡ Some (doing d f) → values es c vals attrs ≡ Done arguments between
        → run_of d f arguments between ≡ Stopped Accepted after
        → value (Called n place es) c vals attrs ≡ Stopped Accepted after }
    ensures accept { (c d : Context) (f : Routine) (n : Name) (place : ℕ) (es : Expressions)
        (vals arguments : Frame) (attrs between after : Attrs)
        → function_of c n ≡ Some (doing d f) → values es c vals attrs ≡ Done arguments between
        → run_of d f arguments between ≡ Stopped Accepted after
        → act (Call n place es) c vals attrs ≡ Stopped Accepted after }
    ensures reject { (c d : Context) (f : Routine) (n : Name) (place : ℕ) (es : Expressions)
        (vals arguments : Frame) (attrs between after : Attrs)
        → function_of c n ≡ Some (doing d f) → values es c vals attrs ≡ Done arguments between
        → run_of d f arguments between ≡ Stopped Rejected after
        → act (Call n place es) c vals attrs ≡ Stopped Rejected after }
    ensures fault { (c d : Context) (f : Routine) (n : Name) (place : ℕ) (es : Expressions)
        (vals arguments : Frame) (attrs between after : Attrs) (why : FilterFault)
        → function_of c n ≡ Some (doing d f) → values es c vals attrs ≡ Done arguments between
        → run_of d f arguments between ≡ Stopped (Faulted why) after
        → act (Call n place es) c vals attrs ≡ Stopped (Faulted why) after }
    ensures accepted { (c : Context) (ss : Statements) (attrs after : Attrs)
        → body c [] ss [] attrs ≡ Stopped Accepted after
        → judged c ss attrs ≡ verdicts.Accept after }
    ensures faulted { (c : Context) (ss : Statements) (attrs after : Attrs) (why : FilterFault)
        → body c [] ss [] attrs ≡ Stopped (Faulted why) after
        → judged c ss attrs ≡ verdicts.Reject (Some why) }
    ensures at_the_end { (c : Context) (ss : Statements) (vals : Frame) (attrs after : Attrs)
        → body c [] ss [] attrs ≡ Done vals after
        → judged c ss attrs ≡ verdicts.Reject (Some faults.NoVerdict) }
    ensures reject_in_an_expression { (c d : Context) (f : Routine) (n : Name) (place : ℕ)
        (es : Expressions)
        (vals arguments : Frame) (attrs between after : Attrs)
        → function_of c n ≡ Some (doing d f) → values es c vals attrs ≡ Done arguments between
        → run_of d f arguments between ≡ Stopped Rejected after
        → value (Called n place es) c vals attrs ≡ Stopped Rejected after }
    ensures fault_in_an_expression { (c d : Context) (f : Routine) (n : Name) (place : ℕ)
        (es : Expressions)
        (vals arguments : Frame) (attrs between after : Attrs) (why : FilterFault)
        → function_of c n ≡ Some (doing d f) → values es c vals attrs ≡ Done arguments between
        → run_of d f arguments between ≡ Stopped (Faulted why) after
        → value (Called n place es) c vals attrs ≡ Stopped (Faulted why) after }
    ensures rejected { (c : Context) (ss : Statements) (attrs after : Attrs)
        → body c [] ss [] attrs ≡ Stopped Rejected after
        → judged c ss attrs ≡ verdicts.Reject None }
{}

/// `return` with a value ends its function alone: the call has that value, or as a statement is
/// done, and what is behind it goes on.
pub fn a_return_ends_its_function_alone()
    ensures in_an_expression { (c d : Context) (f : Routine) (n : Name) (place : ℕ)
        (es : Expressions)
        (vals arguments : Frame) (attrs between after : Attrs) (v : Val)
        → function_of c n ≡ Some (doing d f) → values es c vals attrs ≡ Done arguments between
        → run_of d f arguments between ≡ Stopped (Returned v) after
        → value (Called n place es) c vals attrs ≡ Done v after }
    ensures as_a_statement { (c d : Context) (f : Routine) (n : Name) (place : ℕ) (es : Expressions)
        (vals arguments : Frame) (attrs between after : Attrs) (v : Val)
        → function_of c n ≡ Some (doing d f) → values es c vals attrs ≡ Done arguments between
        → run_of d f arguments between ≡ Stopped (Returned v) after
        → act (Call n place es) c vals attrs ≡ Done vals after }
{}

/// `return;` does what reaching the end does: in a function with `->` both are the fault that it
/// gives no value, in one without it the call is done, and in a filter there is no verdict.
pub fn a_return_without_a_value_is_the_end()
    ensures with_arrow { (c : Context) (f : Routine) (t : VariableType) (arguments : Frame)
        (attrs after : Attrs) → f.gives ≡ Some t
        → run_of c f arguments attrs ≡ Stopped AtEnd after
        → doing c f arguments attrs ≡ Stopped (Faulted faults.NoValue) after }
    ensures end_with_arrow { (c : Context) (f : Routine) (t : VariableType)
        (vals arguments : Frame) (attrs after : Attrs) → f.gives ≡ Some t
        → run_of c f arguments attrs ≡ Done vals after
        → doing c f arguments attrs ≡ Stopped (Faulted faults.NoValue) after }
    ensures without_arrow { (c : Context) (f : Routine) (arguments : Frame) (attrs after : Attrs)
        → f.gives ≡ None
        → run_of c f arguments attrs ≡ Stopped AtEnd after
        → doing c f arguments attrs ≡ Done None after }
    ensures in_a_filter { (c : Context) (ss : Statements) (attrs after : Attrs)
        → body c [] ss [] attrs ≡ Stopped AtEnd after
        → judged c ss attrs ≡ verdicts.Reject (Some faults.NoVerdict) }
    ensures end_without_arrow { (c : Context) (f : Routine) (vals arguments : Frame)
        (attrs after : Attrs) → f.gives ≡ None
        → run_of c f arguments attrs ≡ Done vals after
        → doing c f arguments attrs ≡ Done None after }
{}

/// A loop runs over its list as it was before the first turn, whatever its body does to it.
pub fn a_loop_runs_over_the_list_as_it_was()
    ensures path { (at : ℕ) (t : VariableType) (n : Name) (e : Expression) (s : Statement)
        (c : Context)
        (vals : Frame) (attrs after : Attrs) (path : List ℕ)
        → value e c vals attrs ≡ Done (VPath path) after
        → act (For at t n e s) c vals attrs
        ≡ turns (length vals) (map VInt path)
        (act s (with_variables c (name_bytes c.text n ∷ []))) vals after }
    ensures pairs { (at : ℕ) (t : VariableType) (n : Name) (e : Expression) (s : Statement)
        (c : Context)
        (vals : Frame) (attrs after : Attrs) (pairs : List (ℕ × ℕ))
        → value e c vals attrs ≡ Done (VClist pairs) after
        → act (For at t n e s) c vals attrs
        ≡ turns (length vals) (map VPair pairs)
        (act s (with_variables c (name_bytes c.text n ∷ []))) vals after }
{}

/// A `case` does one arm at most, the first of which a label has the value: those behind it aren't
/// looked at, nor is the `else`. Where none has it the `else` is done.
pub fn a_case_does_one_arm_at_most()
    ensures taken { (labels : List Item) (ss : Statements) (more : Arms) (c : Context)
        (otherwise : Act)
        (v : Val) (vals : Frame) (attrs : Attrs) → has_label c labels v ≡ Ok true
        → arms_act (AndArms labels ss more) c otherwise v vals attrs ≡ acts ss c vals attrs }
    ensures passed { (labels : List Item) (ss : Statements) (more : Arms) (c : Context)
        (otherwise : Act)
        (v : Val) (vals : Frame) (attrs : Attrs) → has_label c labels v ≡ Ok false
        → arms_act (AndArms labels ss more) c otherwise v vals attrs
        ≡ arms_act more c otherwise v vals attrs }
    ensures otherwise { (c : Context) (otherwise : Act) (v : Val) (vals : Frame) (attrs : Attrs)
        → arms_act NoArms c otherwise v vals attrs ≡ otherwise vals attrs }
    ensures without_else { (at : ℕ) (e : Expression) (arms : Arms) (c : Context) (v : Val)
        (vals : Frame)
        (attrs after : Attrs) → value e c vals attrs ≡ Done v after
        → act (Case at e arms) c vals attrs ≡ arms_act arms c nothing v vals after }
    ensures with_else { (at : ℕ) (e : Expression) (arms : Arms) (ss : Statements) (c : Context)
        (v : Val)
        (vals : Frame) (attrs after : Attrs) → value e c vals attrs ≡ Done v after
        → act (CaseElse at e arms ss) c vals attrs ≡ arms_act arms c (acts ss c) v vals after }
{}

/// A statement that is done leaves as many variables as it found: those of its blocks and loops are
/// gone.
pub fn a_statement_keeps_the_variables()
    ensures { (s : Statement) (c : Context) (vals after : Frame) (attrs same : Attrs)
        → act s c vals attrs ≡ Done after same → length after ≡ length vals }
{}

/// Behind a declaration without a value its variable holds the default of its sort, whatever it
/// held before: so it does at each turn of a loop.
pub fn a_local_without_a_value_holds_its_default()
    ensures { (t : VariableType) (n : Name) (c : Context) (vals after : Frame)
        (attrs same : Attrs) → act (Declare t n None) c vals attrs ≡ Done after same
        → value (Named n) c after same ≡ Done (default_of (sort_of_type t)) same }
{}

/// `P.f(x);` does what `P = P.f(x);` does.
pub fn a_method_as_a_statement_is_an_assignment()
    ensures { (target : Target) (m : Method) (place : ℕ) (e : Expression) (c : Context)
        (vals : Frame) (attrs : Attrs)
        → act (ChangeBy target m place e) c vals attrs
        ≡ act (Assign target (Changed (read target) m place e)) c vals attrs }
{}

/// What is assigned is what is read, of a variable and of an attribute.
pub fn what_is_assigned_is_read()
    ensures variable { (n : Name) (e : Expression) (c : Context) (vals after : Frame)
        (attrs between same : Attrs) (v : Val) → value e c vals attrs ≡ Done v between
        → act (Assign (targets.Name n) e) c vals attrs ≡ Done after same
        → value (Named n) c after same ≡ Done v same }
    ensures attribute { (a : Attribute) (v : Val) (around : Around) (attrs after : Attrs)
        → with_attribute a v attrs ≡ Ok after → attribute_of around a after ≡ Ok v }
    ensures statement { (at : ℕ) (a : Attribute) (e : Expression) (c : Context)
        (vals after : Frame) (attrs between same : Attrs) (v : Val)
        → value e c vals attrs ≡ Done v between
        → act (Assign (targets.Attribute at a) e) c vals attrs ≡ Done after same
        → value (Plain (atoms.Attribute at a)) c after same ≡ Done v same }
{}

/// Reading an attribute is a fault where it isn't defined, and gives a value where it is.
pub fn undefined_attributes_are_faults()
    ensures undefined { (a : Attribute) (around : Around) (attrs : Attrs)
        → is_defined a attrs ≡ false → attribute_of around a attrs ≡ Err (Fault faults.Undefined) }
    ensures defined { (a : Attribute) (around : Around) (attrs : Attrs)
        → is_defined a attrs ≡ true → (v : Val) × (attribute_of around a attrs ≡ Ok v) }
    ensures read { (at : ℕ) (a : Attribute) (c : Context) (vals : Frame) (attrs : Attrs)
        → is_defined a attrs ≡ false
        → value (Plain (atoms.Attribute at a)) c vals attrs
        ≡ Stopped (Faulted faults.Undefined) attrs }
{}

/// What is unset isn't defined any more; the two lists are empty.
pub fn what_is_unset_is_gone()
    ensures attribute { (a : Attribute) (attrs after : Attrs) → without_attribute a attrs ≡ Ok after
        → IsGone a after }
    ensures statement { (place at : ℕ) (a : Attribute) (c : Context) (vals same : Frame)
        (attrs after : Attrs) → act (Unset place at a) c vals attrs ≡ Done same after
        → IsGone a after }
{}

/// A destination that is assigned takes the gateway away, and a gateway that is assigned makes the
/// destination one that packets are sent to.
pub fn destination_and_gateway_go_together()
    ensures dest { (d : Dest) (attrs after : Attrs)
        → with_attribute attributes.Dest (VDest d) attrs ≡ Ok after
        → is_defined attributes.Gw after ≡ false }
    ensures gw { (a : Addr) (attrs after : Attrs)
        → with_attribute attributes.Gw (VIp a) attrs ≡ Ok after → after.dest ≡ dests.Unicast }
{}

/// Filters that are worked by hand. A path is read before the argument that changes it; a local of
/// a loop's body begins anew at each turn; one that was passed over holds its default.
pub fn worked_filters()
    ensures path_is_read_first { (net : Net) (route : Route) (protocols : List (List ℕ))
        → route.attrs.path ≡ 9 ∷ []
        → verdict names prepends_one protocols prepends_two net route
        ≡ verdicts.Accept (record route.attrs { path = 2 ∷ 9 ∷ [] }) }
    ensures a_turn_begins_anew { (net : Net) (route : Route) (protocols : List (List ℕ))
        → route.attrs.path ≡ 1 ∷ 2 ∷ 3 ∷ []
        → verdict names [] protocols counts net route
        ≡ verdicts.Accept (record route.attrs { med = Some 3 }) }
    ensures passed_over { (net : Net) (route : Route) (protocols : List (List ℕ))
        → verdict names [] protocols passes_over net route ≡ verdicts.Accept route.attrs }
{}
