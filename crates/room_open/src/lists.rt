//! Lists that are taken out of lists.
ghost use Rattle.std.specs.Prelude.{◌≡◌, ◌<◌, Some, length, slice_get};
ghost use Rattle.room_open.specs.Lists.{AreOthers};

use std::alloc::Global;
use std::mem;

/// The list of a place, which then has an empty one.
pub fn take_list<T: Drop>(alloc: Global, lists: &mut Vec<Vec<T>>, place: usize) -> Vec<T>
    requires { place < length lists.old.items }
    ensures taken { slice_get lists.old.items place ≡ Some result }
    ensures others { AreOthers place lists.old.items lists.new.items }
{
    mem::replace(&mut lists[place], Vec::new(alloc))
}
