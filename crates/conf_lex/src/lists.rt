ghost use Rattle.std.specs.Prelude.{◌≡◌, [], ◌∷◌, ◌++◌, is_ok, IfErr, if◌then◌else◌};

use std::alloc::AllocFailed;

/// Appends to a list that mostly stays short, as those of syntax trees do: it gets room for one,
/// two, four and so on, where `push` begins with room for four.
pub fn push_tight<T>(list: &mut Vec<T>, item: T) -> Result<(), AllocFailed<T>>
    ensures items { list.new.items
        ≡ (if is_ok result then list.old.items ++ item ∷ [] else list.old.items) }
    ensures value_returned { IfErr result (λ failed. failed.value ≡ item) }
{
    if list.len() == list.capacity() {
        // Where there is no memory for as much, there may be for what `push` asks for.
        let _ = list.reserve_exact(list.len().max(1));
    }
    list.push(item)
}
