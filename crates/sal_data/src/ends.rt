//! The node at the end of a path.
ghost use Rattle.std.specs.Prelude.{◌≡◌};
ghost use Rattle.sal_schema.specs.Paths.{node_of};

use sal_types::Step;

/// The node of these steps of a path: the list for each of its entries.
pub(crate) fn node_at_end(steps: &[Step]) -> Option<u32>
    ensures { result ≡ node_of steps.now }
{
    let mut here = None;
    for step in steps {
        if let Step::Node(node) = step {
            here = Some(*node);
        }
    }
    here
}
