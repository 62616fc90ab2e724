//! Masks of paths: runs of AS numbers, one after another.
ghost use Rattle.std.specs.Prelude.{◌≡◌, ◌==◌, ℕ, ◌<◌, ◌↔◌, Bool, List, length, slice_index_or};
ghost use Rattle.std.specs.Prelude.{false, IsTrue};
ghost use Rattle.filt_sets.specs.Mask.{IsCut};
ghost use Rattle.filt_sets.specs.Search.{accepts, before, cuts, is_run, matches_at, Tells};

use std::marker::Model;

/// What a mask's item takes: an AS in a range, whose ends belong to it, one AS (`?`), or any run of
/// them, the empty one too (`*`). A number alone is a range.
#[derive(Clone, Copy, Debug, PartialEq, Eq)]
pub enum Atom {
    Range(u32, u32),
    One,
    Any,
}

/// An element of a mask. `many` is written `+` behind it: one or more of it.
#[derive(Clone, Copy, Debug, PartialEq, Eq)]
pub struct MaskItem {
    pub atom: Atom,
    pub many: bool,
}

impl Atom {
    fn is_run(&self) -> bool
        ensures { result ≡ is_run self.now }
    {
        match self {
            Atom::Any => true,
            Atom::One | Atom::Range(..) => false,
        }
    }

    fn accepts(&self, number: u32) -> bool
        ensures { result ≡ accepts self.now number }
    {
        match self {
            Atom::Range(lo, hi) => *lo <= number && number <= *hi,
            Atom::One | Atom::Any => true,
        }
    }
}

impl MaskItem {
    /// Whether the item and the later ones match from a place on. `here` and `behind` tell of the
    /// later ones alone, at the place and behind its number, and `again` of the item and the later
    /// ones behind it.
    fn matches_at(&self, number: u32, here: bool, behind: bool, again: bool) -> bool
        ensures { result ≡ matches_at self.now number here behind again }
    {
        if self.atom.is_run() {
            here || again
        } else {
            self.atom.accepts(number) && (behind || (self.many && again))
        }
    }
}

/// A pattern of AS paths (BIRD User's Guide, "Data types", `bgpmask`).
#[derive(Debug, Drop)]
pub struct Mask {
    items: Vec<MaskItem>,
}

impl Model for Mask {
    ghost use Rattle.std.specs.Prelude.{List};
    ghost use Rattle.filt_sets.specs.declared.mask.MaskItem.{MaskItem};

    ghost Value = { List MaskItem };

    ghost view = { λ mask. mask.items.items };
}

impl Mask {
    /// The mask of these items. Takes no memory.
    pub fn make(items: Vec<MaskItem>) -> Mask
        ensures { result ≡ items.items }
    {
        Mask { items }
    }

    pub fn items(&self) -> &[MaskItem]
        ensures { result.now ≡ self.now }
    {
        self.items.as_slice()
    }

    /// Whether the mask matches the whole path. Its cost is the number of items times the path's
    /// length, for paths of fewer than 128 numbers; longer ones are tried piece by piece.
    pub fn matches(&self, path: &[u32]) -> bool
        ensures { IsTrue result ↔ IsCut self.now path.now }
    {
        if path.len() < PLACES {
            matches_by_places(self.items.as_slice(), path)
        } else {
            matches_by_pieces(self.items.as_slice(), path)
        }
    }
}

/// How many places of a path are kept at once. A path of a route has at most 121.
const PLACES: usize = 128;

/// Goes through the items from the last one, and keeps of each place of the path whether the items
/// gone through match from there on.
fn matches_by_places(items: &[MaskItem], path: &[u32]) -> bool
    requires { length path.now < 128 }
    ensures { result ≡ cuts items.now path.now }
{
    let mut marks = marks_at(path.len());
    let mut left = items;
    while let [front @ .., item] = left {
        step_back(item, path, &mut marks);
        left = front;
    }
    marks[0]
}

/// A mark at this place alone.
fn marks_at(place: usize) -> [bool; PLACES]
    requires { place < 128 }
    ensures { (k : ℕ) → slice_index_or result k false ≡ (k == place) }
{
    let mut marks = [false; PLACES];
    marks[place] = true;
    marks
}

/// From marks that tell of the later items to marks that tell of this item and the later ones.
fn step_back(item: &MaskItem, path: &[u32], marks: &mut [bool])
    requires { length path.now < length marks.old }
    ensures { (later : List ℕ → Bool)
        → Tells later path.now marks.old
        → Tells (before item.now later) path.now marks.new }
{
    let mut place = path.len();
    let mut behind = marks[place];
    marks[place] = item.atom.is_run() && behind;
    while place > 0 {
        place -= 1;
        let here = marks[place];
        marks[place] = item.matches_at(path[place], here, behind, marks[place + 1]);
        behind = here;
    }
}

/// Tries each piece of the first item with the later items behind it.
fn matches_by_pieces(items: &[MaskItem], path: &[u32]) -> bool
    ensures { result ≡ cuts items.now path.now }
{
    let [item, later @ ..] = items else {
        return path.is_empty();
    };
    let mut left = path;
    while let [number, behind @ ..] = left {
        if item.atom.is_run() {
            if matches_by_pieces(later, left) {
                return true;
            }
        } else if !item.atom.accepts(*number) {
            return false;
        } else if matches_by_pieces(later, behind) {
            return true;
        } else if !item.many {
            return false;
        }
        left = behind;
    }
    item.atom.is_run() && matches_by_pieces(later, left)
}
