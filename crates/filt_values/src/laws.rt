ghost use Rattle.std.specs.Prelude.{◌≡◌, ◌↔◌, ℕ, Bool, true, not, List, Err, IsTrue, Any};
ghost use Rattle.bits_ip.specs.declared.address.Addr.{Addr};
ghost use Rattle.bits_ip.specs.Prefix.{Net, Covers};
ghost use Rattle.filt_sets.specs.declared.ints.IntItem.{IntItem};
ghost use Rattle.filt_sets.specs.declared.pairs.PairItem.{PairItem};
ghost use Rattle.filt_sets.specs.declared.prefixes.PrefixItem.{PrefixItem};
ghost use Rattle.filt_sets.specs.declared.mask.MaskItem.{MaskItem};
ghost use Rattle.filt_sets.specs.Mask.{IsCut};
ghost use Rattle.filt_sets.specs.Sets.{TakesInt, TakesNet, TakesPair};
ghost use Rattle.filt_meaning.specs.declared.value.Failure.{Failure};
ghost use Rattle.filt_meaning.specs.Members.{host_of};
ghost use Rattle.filt_meaning.specs.Values.{Val, VInt, VIp, VPrefix, VPair, VPath, VMask, VClist, VIntSet, VPairSet, VPrefixSet, sort_of};
ghost use Rattle.filt_meaning.specs.Operators.{added_of, deleted_of, emptied_of, equal_of, filtered_of, first_of, greater_of, greater_or_equal_of, ip_of, last_of, len_of, less_of, less_or_equal_of, matches_not_of, matches_of, minus_of, not_equal_of, not_of, over_of, pair_of, plus_of, prepended_of, times_of, truth_of, says};
ghost use Rattle.filt_meaning.specs.Sorts.{IsNoFault, TakesOne, TakesTwo, added, compared, deleted, one_list, filtered, matched, measured, one_bool, one_path, one_prefix, ordered, prepended, two_ints, a_bool, a_pair, an_int, an_ip, the_same};

/// Numbers give numbers and pairs.
pub fn numbers_are_typed()
    ensures plus { TakesTwo two_ints an_int plus_of }
    ensures minus { TakesTwo two_ints an_int minus_of }
    ensures times { TakesTwo two_ints an_int times_of }
    ensures over { TakesTwo two_ints an_int over_of }
    ensures pair { TakesTwo two_ints a_pair pair_of }
{}

/// Truth values give truth values.
pub fn truths_are_typed()
    ensures truth { TakesOne one_bool a_bool truth_of }
    ensures not { TakesOne one_bool a_bool not_of }
{}

/// What is compared gives a truth value.
pub fn comparisons_are_typed()
    ensures equal { TakesTwo compared a_bool equal_of }
    ensures not_equal { TakesTwo compared a_bool not_equal_of }
    ensures less { TakesTwo ordered a_bool less_of }
    ensures less_or_equal { TakesTwo ordered a_bool less_or_equal_of }
    ensures greater { TakesTwo ordered a_bool greater_of }
    ensures greater_or_equal { TakesTwo ordered a_bool greater_or_equal_of }
{}

/// `~` and `!~` give a truth value.
pub fn matches_are_typed()
    ensures matches { TakesTwo matched a_bool matches_of }
    ensures matches_not { TakesTwo matched a_bool matches_not_of }
{}

/// What prefixes and lists are asked for.
pub fn properties_are_typed()
    ensures len { TakesOne measured an_int len_of }
    ensures first { TakesOne one_path an_int first_of }
    ensures last { TakesOne one_path an_int last_of }
    ensures ip { TakesOne one_prefix an_ip ip_of }
{}

/// What is made of a list is a list of its sort.
pub fn methods_are_typed()
    ensures prepended { TakesTwo prepended the_same prepended_of }
    ensures added { TakesTwo added the_same added_of }
    ensures deleted { TakesTwo deleted the_same deleted_of }
    ensures filtered { TakesTwo filtered the_same filtered_of }
    ensures emptied { TakesOne one_list the_same emptied_of }
{}

/// Tests and properties never fault: they give a value, or are stuck.
pub fn tests_never_fault()
    ensures equal { (v w : Val) → IsNoFault (equal_of v w) }
    ensures not_equal { (v w : Val) → IsNoFault (not_equal_of v w) }
    ensures less { (v w : Val) → IsNoFault (less_of v w) }
    ensures less_or_equal { (v w : Val) → IsNoFault (less_or_equal_of v w) }
    ensures greater { (v w : Val) → IsNoFault (greater_of v w) }
    ensures greater_or_equal { (v w : Val) → IsNoFault (greater_or_equal_of v w) }
    ensures matches { (v w : Val) → IsNoFault (matches_of v w) }
    ensures matches_not { (v w : Val) → IsNoFault (matches_not_of v w) }
    ensures truth { (v : Val) → IsNoFault (truth_of v) }
    ensures not { (v : Val) → IsNoFault (not_of v) }
    ensures len { (v : Val) → IsNoFault (len_of v) }
    ensures first { (v : Val) → IsNoFault (first_of v) }
    ensures last { (v : Val) → IsNoFault (last_of v) }
    ensures ip { (v : Val) → IsNoFault (ip_of v) }
{}

/// `!~` is the contrary of `~`, and fails as it does.
pub fn matches_not_is_contrary()
    ensures said { (v w : Val) (b : Bool) → matches_of v w ≡ says b
        → matches_not_of v w ≡ says (not b) }
    ensures failed { (v w : Val) (failure : Failure) → matches_of v w ≡ Err failure
        → matches_not_of v w ≡ Err failure }
{}

/// `!=` is the contrary of `=`, and fails as it does.
pub fn not_equal_is_contrary()
    ensures said { (v w : Val) (b : Bool) → equal_of v w ≡ says b
        → not_equal_of v w ≡ says (not b) }
    ensures failed { (v w : Val) (failure : Failure) → equal_of v w ≡ Err failure
        → not_equal_of v w ≡ Err failure }
{}

/// What `=` compares is equal exactly where it is the same.
pub fn equal_is_the_same()
    ensures { (v w : Val) → IsTrue (compared (sort_of v) (sort_of w))
        → (equal_of v w ≡ says true) ↔ (v ≡ w) }
{}

/// `~` of an element and a set, a list or a prefix.
pub fn elements_are_matched()
    ensures int_in_set { (n : ℕ) (items : List IntItem)
        → (matches_of (VInt n) (VIntSet items) ≡ says true)
        ↔ Any (λ item. TakesInt item n) items }
    ensures pair_in_set { (p : ℕ × ℕ) (items : List PairItem)
        → (matches_of (VPair p) (VPairSet items) ≡ says true)
        ↔ Any (λ item. TakesPair item p.0 p.1) items }
    ensures net_in_set { (net : Net) (items : List PrefixItem)
        → (matches_of (VPrefix net) (VPrefixSet items) ≡ says true)
        ↔ Any (λ item. TakesNet item net) items }
    ensures net_within { (net other : Net)
        → (matches_of (VPrefix net) (VPrefix other) ≡ says true) ↔ Covers other net }
    ensures ip_within { (a : Addr) (net : Net)
        → (matches_of (VIp a) (VPrefix net) ≡ says true) ↔ Covers net (host_of a) }
    ensures int_in_path { (n : ℕ) (path : List ℕ)
        → (matches_of (VInt n) (VPath path) ≡ says true) ↔ Any (λ m. m ≡ n) path }
    ensures pair_in_list { (p : ℕ × ℕ) (list : List (ℕ × ℕ))
        → (matches_of (VPair p) (VClist list) ≡ says true) ↔ Any (λ q. q ≡ p) list }
{}

/// `~` of a path or a list of communities and a set or a mask.
pub fn lists_are_matched()
    ensures some_number { (path : List ℕ) (items : List IntItem)
        → (matches_of (VPath path) (VIntSet items) ≡ says true)
        ↔ Any (λ n. Any (λ item. TakesInt item n) items) path }
    ensures some_pair { (list : List (ℕ × ℕ)) (items : List PairItem)
        → (matches_of (VClist list) (VPairSet items) ≡ says true)
        ↔ Any (λ p. Any (λ item. TakesPair item p.0 p.1) items) list }
    ensures mask_matches { (path : List ℕ) (items : List MaskItem)
        → (matches_of (VPath path) (VMask items) ≡ says true) ↔ IsCut items path }
{}
