//! Names and the numbers of their nodes, modules or identities, with binary search.
ghost use Rattle.std.specs.Prelude.{◌≡◌, IfOk, refl};
ghost use Rattle.std.specs.List.Sorted.{IsPermutation};
ghost use Rattle.std.specs.Ordering.{as_partial_cmp, eq_by_cmp};
ghost use Rattle.std.specs.Cmp.{partial_equiv_from_equiv};
ghost use Rattle.sal_schema.specs.Names as spec;

use sal_types::{NoMemory, Str};
use std::cmp::Ordering;
use std::marker::Model;

/// A name: of a module, below a node or at the top.
#[derive(Drop, PartialEq, Eq, PartialOrd, Ord)]
pub(crate) struct Name {
    pub(crate) parent: Option<u32>,
    pub(crate) module: u32,
    pub(crate) text: Str,
}

/// A name, and the number of the node, module or identity with that name.
#[derive(Drop)]
pub(crate) struct Named {
    pub(crate) name: Name,
    pub(crate) number: u32,
}

impl Name {
    // The order of this name and the one of these parts.
    fn compare(&self, parent: Option<u32>, module: u32, text: &str) -> Ordering
        ensures { result ≡ spec.name_cmp self.now (spec.name_of_parts parent «module» text.now) }
    {
        let by_text = self.text.as_str().cmp(text);
        let by_module = self.module.cmp(&module).then(by_text);
        self.parent.cmp(&parent).then(by_module)
    }
}

impl PartialEq for Named {
    ghost eq = { eq_by_cmp spec.named_cmp };

    ghost laws = { partial_equiv_from_equiv spec.same_name-IsEquivalence };

    fn eq(&self, other: &Self) -> bool {
        self.name.cmp(&other.name).is_eq()
    }
}

impl Eq for Named {
    ghost laws = { spec.same_name-IsEquivalence };
}

impl PartialOrd for Named {
    ghost partial_cmp = { as_partial_cmp spec.named_cmp };

    ghost laws = { spec.named_cmp-IsPartialOrder };

    fn partial_cmp(&self, other: &Self) -> Option<Ordering> {
        Some(self.cmp(other))
    }
}

impl Ord for Named {
    ghost cmp = { spec.named_cmp };

    ghost total = { spec.named_cmp-IsTotalOrder };

    ghost matches_partial_cmp = { λ x y. refl };

    ghost matches_eq = { λ x y. refl };

    fn cmp(&self, other: &Self) -> Ordering {
        self.name.cmp(&other.name)
    }
}

/// Names in their order.
#[derive(Drop)]
pub(crate) struct Index {
    list: Vec<Named>,
}

impl Model for Index {
    ghost use Rattle.std.specs.Prelude.{List};
    ghost use Rattle.std.specs.List.Sorted.{IsSorted};
    ghost use Rattle.sal_schema.specs.declared.names.Named.{Named};
    ghost use Rattle.sal_schema.specs.Names.{named_cmp};

    ghost Value = { List Named };

    ghost view = { λ a. a.list.items };

    ghost invariant = { λ a. IsSorted named_cmp a.list.items };
}

impl Index {
    /// The same names, in their order.
    pub(crate) fn of(list: Vec<Named>) -> Result<Index, NoMemory>
        ensures { IfOk result (λ index. IsPermutation list.items index) }
    {
        let mut list = list;
        list.sort()?;
        Ok(Index { list })
    }

    /// The number of an entry with this name; none if there is no such name.
    pub(crate) fn find(&self, parent: Option<u32>, module: u32, text: &str) -> Option<u32>
        ensures { spec.Finds self.now (spec.name_of_parts parent «module» text.now) result }
    {
        match self
            .list
            .binary_search_by(|named| named.name.compare(parent, module, text))
        {
            Ok(at) => Some(self.list[at].number),
            Err(_) => None,
        }
    }
}
