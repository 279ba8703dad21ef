//! Numbers by path.
ghost use Rattle.std.specs.Prelude.{◌≡◌, [], IfOk, OnOk, OnErr};
ghost use Rattle.std.specs.FinMap.{find, put};
ghost use Rattle.sal_types.specs.Order.{path_cmp};

use sal_types::{Duplicate, NoMemory, Step};
use std::alloc::Global;
use std::collections::BTreeMap;
use std::marker::Model;

/// A number at some paths. A contract sees the paths with their numbers.
#[derive(Drop)]
pub(crate) struct Places {
    map: BTreeMap<Vec<Step>, usize>,
}

impl Model for Places {
    ghost use Rattle.std.specs.Prelude.{List, ℕ};
    ghost use Rattle.sal_types.specs.declared.value.Step.{Step};
    ghost use Rattle.sal_mod.specs.Places.{by_path};

    ghost Value = { List (List Step × ℕ) };

    ghost view = { λ a. by_path a.map.entries };
}

impl Places {
    /// No number yet. It takes no memory.
    pub(crate) fn new(alloc: Global) -> Places
        ensures { result ≡ [] }
    {
        Places {
            map: BTreeMap::new(alloc),
        }
    }

    /// The number at the path. It takes no memory.
    pub(crate) fn at(&self, steps: &[Step]) -> Option<usize>
        ensures { result ≡ find path_cmp steps.now self.now }
    {
        self.map.get(steps).copied()
    }

    /// Sets the number at the path, and replaces an earlier one.
    pub(crate) fn set(
        &mut self,
        alloc: Global,
        steps: &[Step],
        number: usize,
    ) -> Result<(), NoMemory>
        ensures ok { OnOk result (self.new ≡ put path_cmp steps.now number self.old) }
        ensures err { OnErr result (self.new ≡ self.old) }
    {
        let key = copied(alloc, steps)?;
        self.map.insert(key, number)?;
        Ok(())
    }
}

fn copied(alloc: Global, steps: &[Step]) -> Result<Vec<Step>, NoMemory>
    ensures { IfOk result (λ list. list.items ≡ steps.now) }
{
    let mut list = Vec::with_capacity(alloc, steps.len())?;
    for step in steps {
        list.push(step.copy()?)?;
    }
    Ok(list)
}
