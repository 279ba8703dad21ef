//! Lists of numbers, one for each place.
ghost use Rattle.std.specs.Prelude.{◌≡◌, ℕ, ◌<◌, ◌∷◌, [], ◌++◌, IfOk, OnOk, length, nat_eq, slice_index_or, if◌then◌else◌};
ghost use Rattle.std.specs.declared.alloc.Global.{Global as Heap};
ghost use Rattle.std.specs.declared.vec.Vec.{Vec as Vector};

use sal_types::NoMemory;
use std::alloc::Global;

/// `count` empty lists.
pub fn empty_lists(alloc: Global, count: usize) -> Result<Vec<Vec<u32>>, NoMemory>
    ensures count { IfOk result (λ lists. length lists.items ≡ count) }
    ensures empty { IfOk result (λ lists. (k : ℕ) (d : Vector ℕ Heap) → k < count → (slice_index_or lists.items k d).items ≡ []) }
{
    let mut lists = Vec::with_capacity(alloc, count)?;
    for made in 0..count {
        lists.push(Vec::new(alloc))?;
    }
    Ok(lists)
}

/// Adds the number to the list at the place.
pub fn add_to_list(lists: &mut Vec<Vec<u32>>, at: usize, number: u32) -> Result<(), NoMemory>
    requires { at < length lists.old.items }
    ensures count { OnOk result (length lists.new.items ≡ length lists.old.items) }
    ensures added { OnOk result ((k : ℕ) (d : Vector ℕ Heap) → k < length lists.old.items → (slice_index_or lists.new.items k d).items ≡ (slice_index_or lists.old.items k d).items ++ (if nat_eq at k then number ∷ [] else [])) }
{
    lists[at].push(number)?;
    Ok(())
}
