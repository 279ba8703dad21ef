//! Lists with one item appended.
ghost use Rattle.std.specs.Prelude.{◌≡◌, ◌++◌, ◌∷◌, [], IfOk};

use crate::memory::NoMemory;

/// Appends the item. A call of this function makes a shorter proof than `push`.
pub fn append<T: Drop>(list: &mut Vec<T>, item: T) -> Result<(), NoMemory>
    ensures { IfOk result (λ _. list.new.items ≡ list.old.items ++ item ∷ []) }
{
    list.push(item)?;
    Ok(())
}
