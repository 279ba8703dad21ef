//! A value with several owners. A contract sees the value alone, and a copy takes no memory.
ghost use Rattle.std.specs.Prelude.{◌≡◌, IfOk};

use crate::memory::{Duplicate, NoMemory};
use std::alloc::Global;
use std::cmp::Ordering;
use std::marker::Model;
use std::sync::Arc;

/// A value that is made once and shared by its copies.
#[derive(Debug, Drop)]
pub struct Shared<T> {
    arc: Arc<T>,
}

impl<T> Model for Shared<T> {
    ghost Value = { T };

    ghost view = { λ a. a.arc.value };
}

impl<T: Drop> Shared<T> {
    /// The value, to be shared.
    pub fn new(alloc: Global, value: T) -> Result<Self, NoMemory>
        ensures { IfOk result (λ it. it ≡ value) }
    {
        let arc = Arc::new(alloc, value)?;
        Ok(Shared { arc })
    }
}

impl<T> Shared<T> {
    /// The value.
    pub fn value(&self) -> &T
        ensures { result.now ≡ self.now }
    {
        &self.arc
    }
}

impl<T: Drop> Duplicate for Shared<T> {
    fn copy(&self) -> Result<Self, NoMemory> {
        let arc = Arc::try_clone(&self.arc)?;
        Ok(Shared { arc })
    }
}

impl<T: PartialEq> PartialEq for Shared<T> {
    ghost eq = { T.eq };

    ghost laws = { T.laws };

    fn eq(&self, other: &Self) -> bool {
        self.value() == other.value()
    }
}

impl<T: Eq> Eq for Shared<T> {
    ghost laws = { T.Eq.laws };
}

impl<T: PartialOrd> PartialOrd for Shared<T> {
    ghost partial_cmp = { T.partial_cmp };

    ghost laws = { T.PartialOrd.laws };

    fn partial_cmp(&self, other: &Self) -> Option<Ordering> {
        self.value().partial_cmp(other.value())
    }
}

impl<T: Ord> Ord for Shared<T> {
    ghost cmp = { T.cmp };

    ghost total = { T.total };

    ghost matches_partial_cmp = { T.matches_partial_cmp };

    ghost matches_eq = { T.matches_eq };

    fn cmp(&self, other: &Self) -> Ordering {
        self.value().cmp(other.value())
    }
}
