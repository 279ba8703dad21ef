//! The entries of a list or leaf-list that were seen, by their steps.
ghost use Rattle.std.specs.Prelude.{◌≡◌, ◌++◌, ◌∷◌, [], not, IfOk, OnOk};
ghost use Rattle.std.specs.List.{list_any};
ghost use Rattle.sal_data.specs.Read.{same_step};
ghost use Rattle.sal_data.specs.Rising as spec;
ghost use Rattle.sal_data.specs.Walked.{HaveSame};

use sal_types::{NoMemory, Step};
use std::alloc::Global;
use std::collections::BTreeSet;
use std::marker::Model;

/// The steps to entries that were seen. As long as they ascend they are in a list, else in a set.
#[derive(Drop)]
pub(crate) struct Seen {
    rising: Vec<Step>,
    others: BTreeSet<Step>,
}

impl Model for Seen {
    ghost use Rattle.std.specs.Prelude.{List, IsTrue, ◌++◌};
    ghost use Rattle.sal_types.specs.declared.value.Step.{Step};
    ghost use Rattle.sal_data.specs.Rising.{is_rising};

    ghost Value = { List Step };

    ghost view = { λ a. a.rising.items ++ a.others.keys };

    ghost invariant = { λ a. IsTrue (is_rising a.rising.items) };
}

/// Whether the step is greater than the last of these.
fn is_past(rising: &[Step], step: &Step) -> bool
    ensures { result ≡ spec.is_past rising.now step.now }
{
    match rising.last() {
        Some(last) => last.cmp(step).is_lt(),
        None => true,
    }
}

/// Adds the step to the set, and returns whether it was new.
fn put(others: &mut BTreeSet<Step>, step: Step) -> Result<bool, NoMemory>
    ensures new { IfOk result (λ is_new. is_new ≡ not (list_any (same_step step) others.old.keys)) }
    ensures more { OnOk result (HaveSame others.new.keys (step ∷ others.old.keys)) }
{
    let is_new = others.insert(step)?;
    Ok(is_new)
}

/// Puts all these steps into the set.
fn put_all(others: &mut BTreeSet<Step>, steps: Vec<Step>) -> Result<(), NoMemory>
    ensures { OnOk result (HaveSame others.new.keys (steps.items ++ others.old.keys)) }
{
    for step in steps {
        put(others, step)?;
    }
    Ok(())
}

impl Seen {
    /// No steps.
    pub(crate) fn new(alloc: Global) -> Self
        ensures { result ≡ [] }
    {
        Seen {
            rising: Vec::new(alloc),
            others: BTreeSet::new(alloc),
        }
    }

    /// Adds the step, and returns whether it was new.
    pub(crate) fn add(&mut self, alloc: Global, step: Step) -> Result<bool, NoMemory>
        ensures new { IfOk result (λ is_new. is_new ≡ not (list_any (same_step step) self.old)) }
        ensures more { OnOk result (HaveSame self.new (step ∷ self.old)) }
    {
        if self.others.is_empty() && is_past(&self.rising, &step) {
            self.rising.push(step)?;
            return Ok(true);
        }
        let rising = std::mem::replace(&mut self.rising, Vec::new(alloc));
        put_all(&mut self.others, rising)?;
        put(&mut self.others, step)
    }
}
