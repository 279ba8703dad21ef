//! The part of a check that depends only on the schema, computed once for all its trees.
ghost use Rattle.std.specs.Prelude.{◌≡◌, IfOk};
ghost use Rattle.sal_check.specs.Nodes.{AreJudged};

use crate::lists::Lists;
use sal_schema::Schema;
use sal_types::NoMemory;
use std::alloc::Global;
use std::sync::Arc;

/// A schema, and which of its nodes are checked at which places of its trees: those that state a rule.
#[derive(Drop)]
pub struct Plan {
    pub schema: Arc<Schema>,
    pub(crate) lists: Lists,
    pub ghost judged: { AreJudged schema.value lists.lists.items lists.any },
}

impl Plan {
    /// The plan of a schema. It takes memory for one list of numbers for each node.
    pub fn of(alloc: Global, schema: &Arc<Schema>) -> Result<Plan, NoMemory>
        ensures { IfOk result (λ plan. plan.schema.value ≡ schema.now.value) }
    {
        let lists = Lists::of(alloc, schema)?;
        let schema = Arc::try_clone(schema)?;
        Ok(Plan { schema, lists })
    }
}
