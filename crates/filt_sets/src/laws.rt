//! What single items take, in the words of `bits_ip` and of std.
ghost use Rattle.std.specs.Prelude.{◌≡◌, ◌≢◌, ◌↔◌, ◌≤◌, ℕ, List, [], ◌∷◌, ◌++◌, All, true, false};
ghost use Rattle.bits_ip.specs.Address.{width_of};
ghost use Rattle.bits_ip.specs.Prefix.{Net, IsPrefix, Covers};
ghost use Rattle.filt_sets.specs.declared.mask.Atom.TheVariants.{Range, Any};
ghost use Rattle.filt_sets.specs.declared.mask.MaskItem.{MaskItem};
ghost use Rattle.filt_sets.specs.declared.prefixes.PrefixItem.{PrefixItem};
ghost use Rattle.filt_sets.specs.Mask.{IsCut, IsPiece};
ghost use Rattle.filt_sets.specs.Sets.{TakesNet};

/// The item `a/l` takes its own net alone.
pub fn exact_item_takes_one()
    ensures { (item : PrefixItem) (net : Net)
        → IsPrefix item.net.addr item.net.len
        → IsPrefix net.addr net.len
        → item.lo ≡ item.net.len
        → item.hi ≡ item.net.len
        → TakesNet item net ↔ (net ≡ item.net) }
{}

/// The item `a/l+` takes the nets that its net covers.
pub fn plus_item_takes_the_covered()
    ensures { (item : PrefixItem) (net : Net)
        → IsPrefix net.addr net.len
        → item.lo ≡ item.net.len
        → item.hi ≡ width_of item.net.addr
        → TakesNet item net ↔ Covers item.net net }
{}

/// The item `a/l-` takes the nets that cover its net.
pub fn minus_item_takes_the_covering()
    ensures { (item : PrefixItem) (net : Net)
        → item.lo ≡ 0
        → item.hi ≡ item.net.len
        → TakesNet item net ↔ Covers net item.net }
{}

/// The mask `[= * =]` matches each path.
pub fn run_matches_each_path()
    ensures { (path : List ℕ) → IsCut (record { atom = Any; many = false } ∷ []) path }
{}

/// A range with `+` takes each run of one or more numbers in the range, and no other.
pub fn many_of_a_range()
    ensures { (lo hi : ℕ) (piece : List ℕ)
        → IsPiece (record { atom = Range lo hi; many = true }) piece
        ↔ ((piece ≢ []) × All (λ n. (lo ≤ n) × (n ≤ hi)) piece) }
{}

/// A mask followed by another matches a path of the one followed by a path of the other.
pub fn masks_join()
    ensures { (first later : List MaskItem) (path : List ℕ)
        → IsCut (first ++ later) path
        ↔ ((front : List ℕ)
        × (back : List ℕ)
        × (path ≡ front ++ back)
        × IsCut first front
        × IsCut later back) }
{}
