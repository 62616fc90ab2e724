//! How actors get their hands and their passes.
ghost use Rattle.std.specs.Prelude.{◌≡◌, ℕ, [], Some, length, slice_get, IfOk, OnOk};
ghost use Rattle.std.specs.declared.alloc.Global.{Global};
ghost use Rattle.std.specs.declared.vec.Vec.{Vec};
ghost use Rattle.jour.specs.Seats.{journal};
ghost use Rattle.phase_legal.specs.Shown.{PassView};
ghost use Rattle.phase_room.specs.Dealt.{AreLonger};

use bits_ip::OutOfMemory;
use std::alloc::Global;
use table_shared::TablePass;

/// So many lists without an item.
pub fn no_lists<T: Drop>(alloc: Global, count: usize) -> Result<Vec<Vec<T>>, OutOfMemory>
    ensures count { IfOk result (λ lists. length lists.items ≡ count) }
    ensures empty { IfOk result (λ lists. (place : ℕ) (list : Vec T Global)
        → slice_get lists.items place ≡ Some list → list.items ≡ []) }
{
    let mut lists = Vec::new(alloc);
    for _ in 0..count {
        lists.push(Vec::new(alloc))?;
    }
    Ok(lists)
}

/// So many passes of the pass's table, one for each actor.
pub fn split_pass(
    alloc: Global,
    pass: &mut TablePass,
    count: usize,
) -> Result<Vec<TablePass>, OutOfMemory>
    ensures count { IfOk result (λ passes. length passes.items ≡ count) }
    ensures here { IfOk result (λ passes. (place : ℕ) (other : PassView)
        → slice_get passes.items place ≡ Some other → journal other ≡ journal pass.old) }
{
    let mut passes = Vec::new(alloc);
    for _ in 0..count {
        let other = pass.split()?;
        passes.push(other)?;
    }
    Ok(passes)
}

/// Each list gets one item more, that of its place: an actor the hand or the pass of its number.
pub fn push_each<T: Drop>(lists: &mut Vec<Vec<T>>, items: Vec<T>) -> Result<(), OutOfMemory>
    requires { length items.items ≡ length lists.old.items }
    ensures { OnOk result (AreLonger lists.old.items lists.new.items items.items) }
{
    let mut place: usize = 0;
    for item in items {
        lists[place].push(item)?;
        place += 1;
    }
    Ok(())
}
