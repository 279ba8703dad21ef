//! Paths: which data node of a tree is meant (RFC 7950 section 9.13, as instance identifiers).
ghost use Rattle.std.specs.Prelude.{◌≡◌, ◌↔◌, ◌<◌, ◌≤◌, [], ◌∷◌, ◌++◌, length, IfOk, OnOk, OnErr, IsErrOf, IsTrue, refl};
ghost use Rattle.std.specs.Ordering.{as_partial_cmp};
ghost use Rattle.std.specs.Cmp.{partial_equiv_from_equiv};
ghost use Rattle.sal_types.specs.Order.{path_cmp, path_eq, path_eq-IsEquivalence, path_cmp-IsTotalOrder, path_cmp-IsPartialOrder};
ghost use Rattle.sal_types.specs.Prefix.{is_prefix, IsPrefix};

use crate::memory::{Duplicate, NoMemory};
use crate::value::Step;
use std::alloc::{AllocFailed, Global};
use std::cmp::Ordering;
use std::marker::Model;
use thiserror::Error;

/// The largest number of steps of a path.
pub const MAX_STEPS: usize = 32;

/// Why a step was not added.
#[derive(Clone, Copy, Debug, PartialEq, Eq, Error)]
pub enum PathFault {
    #[error("a path has at most 32 steps")]
    TooDeep,
    #[error("out of memory")]
    NoMemory,
}

/// A path from the root, at most 32 steps. The empty path is the root.
///
/// Paths are ordered step by step, so a path comes before the paths that it is a prefix of.
#[derive(Debug)]
pub struct Path {
    list: Vec<Step>,
}

impl Drop for Path {
    fn drop(self) {
        let Path { list: _ } = self;
    }
}

impl Model for Path {
    ghost use Rattle.std.specs.Prelude.{List, length, ◌≤◌};
    ghost use Rattle.sal_types.specs.declared.value.Step.{Step};

    ghost Value = { List Step };

    ghost view = { λ a. a.list.items };

    ghost invariant = { λ a. length a.list.items ≤ 32 };
}

impl Path {
    /// The path of the root. It takes no memory.
    pub fn root(alloc: Global) -> Self
        ensures { result ≡ [] }
    {
        Path {
            list: Vec::new(alloc),
        }
    }

    /// The steps, the outermost first.
    pub fn steps(&self) -> &[Step]
        ensures all { result.now ≡ self.now }
        ensures short { length self.now ≤ 32 }
    {
        &self.list
    }

    /// Appends a step. After an error the path is unchanged.
    pub fn push(&mut self, step: Step) -> Result<(), PathFault>
        ensures ok { OnOk result (self.new ≡ self.old ++ step ∷ []) }
        ensures too_deep { IsErrOf result PathFault.TooDeep ↔ (length self.old ≡ 32) }
        ensures err { OnErr result (self.new ≡ self.old) }
    {
        if self.list.len() >= MAX_STEPS {
            return Err(PathFault::TooDeep);
        }
        match self.list.push(step) {
            Ok(()) => Ok(()),
            Err(_) => Err(PathFault::NoMemory),
        }
    }

    /// Whether this path is a prefix of the other, or equal to it. It takes no memory.
    pub fn is_prefix_of(&self, other: &Path) -> bool
        ensures test { result ≡ is_prefix self.now other.now }
        ensures meaning { IsTrue result ↔ IsPrefix self.now other.now }
    {
        other.list.as_slice().starts_with(self.list.as_slice())
    }
}

impl Duplicate for Path {
    fn copy(&self) -> Result<Self, NoMemory> {
        let mut list = Vec::with_capacity(*self.list.allocator(), self.list.len())?;
        for step in &self.list {
            list.push(step.copy()?)?;
        }
        Ok(Path { list })
    }
}

impl PartialEq for Path {
    ghost eq = { path_eq };

    ghost laws = { partial_equiv_from_equiv path_eq-IsEquivalence };

    fn eq(&self, other: &Self) -> bool {
        self.list == other.list
    }
}

impl Eq for Path {
    ghost laws = { path_eq-IsEquivalence };
}

impl PartialOrd for Path {
    ghost partial_cmp = { as_partial_cmp path_cmp };

    ghost laws = { path_cmp-IsPartialOrder };

    fn partial_cmp(&self, other: &Self) -> Option<Ordering> {
        Some(self.cmp(other))
    }
}

impl Ord for Path {
    ghost cmp = { path_cmp };

    ghost total = { path_cmp-IsTotalOrder };

    ghost matches_partial_cmp = { λ x y. refl };

    ghost matches_eq = { λ x y. refl };

    fn cmp(&self, other: &Self) -> Ordering {
        self.list.cmp(&other.list)
    }
}
