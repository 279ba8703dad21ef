//! The check of a whole tree, and that of what changed in one.
ghost use Rattle.std.specs.Prelude.{◌≡◌, IfOk, None};
ghost use Rattle.sal_tree.specs.Rows.{rows_of};
ghost use Rattle.sal_rules.specs.Breaches.{breach};
ghost use Rattle.sal_check.specs.Near.{Keeps};

use crate::changed::Near;
use crate::lists::Lists;
use crate::plan::Plan;
use crate::walk::{Place, Walk};
use sal_rows::Breach;
use sal_rules::Spot;
use sal_schema::Schema;
use sal_tree::Root;
use sal_types::{NoMemory, Store};
use std::alloc::Global;

/// The breach with the smallest path, then the smallest rule, then the smallest node; none if no rule is broken.
///
/// It looks at each node of the tree once, and at the entries of a list once more for each rule of the list. A `Plan` has
/// what is computed from the schema first: `check_by` does not compute it again.
pub fn check_all(
    alloc: Global,
    schema: &Schema,
    store: Store,
    root: &Root,
) -> Result<Option<Breach>, NoMemory>
    ensures { IfOk result (λ r. r ≡ breach schema.now store (rows_of root.now)) }
{
    let lists = Lists::of(alloc, schema)?;
    let walk = Walk::new(alloc, schema, &lists, store);
    whole(&walk, root)
}

/// The same, by the plan of the schema.
pub fn check_by(
    alloc: Global,
    plan: &Plan,
    store: Store,
    root: &Root,
) -> Result<Option<Breach>, NoMemory>
    ensures { IfOk result (λ r. r ≡ breach plan.now.schema.value store (rows_of root.now)) }
{
    let walk = Walk::new(alloc, &plan.schema, &plan.lists, store);
    whole(&walk, root)
}

/// The breach of a tree, as `check_all` returns it, if the tree before it has none and the tree was made from it by
/// a change with these stamps.
///
/// It looks only at the nodes with these stamps: a list is checked for its own rules only if something in it
/// changed.
pub fn check_near(
    alloc: Global,
    plan: &Plan,
    store: Store,
    before: &Root,
    after: &Root,
    stamps: &[u64],
) -> Result<Option<Breach>, NoMemory>
    requires kept { breach plan.now.schema.value store (rows_of before.now) ≡ None }
    requires keeps { Keeps stamps.now before.now after.now }
    ensures { IfOk result (λ r. r ≡ breach plan.now.schema.value store (rows_of after.now)) }
{
    let walk = Walk::new(alloc, &plan.schema, &plan.lists, store);
    let near = Near { walk, stamps };
    changed(&near, before, after)
}

const ROOT: Spot = Spot {
    node: None,
    wants_entry: false,
};

fn whole(walk: &Walk, root: &Root) -> Result<Option<Breach>, NoMemory>
    ensures { IfOk result (λ r. r ≡ breach walk.now.schema.now walk.now.store (rows_of root.now)) }
{
    if walk.is_bare() {
        return Ok(None);
    }
    let place = Place {
        trail: &[],
        spot: ROOT,
        node: root.node(),
    };
    walk.over(&place, None)
}

fn changed(near: &Near, before: &Root, after: &Root) -> Result<Option<Breach>, NoMemory>
    requires kept { breach near.now.walk.schema.now near.now.walk.store (rows_of before.now) ≡ None }
    requires keeps { Keeps near.now.stamps.now before.now after.now }
    ensures { IfOk result (λ r. r ≡ breach near.now.walk.schema.now near.now.walk.store (rows_of after.now)) }
{
    if near.walk.is_bare() {
        return Ok(None);
    }
    let old = before.node();
    let place = Place {
        trail: &[],
        spot: ROOT,
        node: after.node(),
    };
    near.over(Some(old), &place, None)
}
