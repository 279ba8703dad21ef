//! A node and its child. A function that does nothing: its contract is computed from the definitions of `Node`.
ghost use Rattle.std.specs.Prelude.{◌≡◌, ◌∷◌, [], None, true};
ghost use Rattle.sal_types.specs.declared.value.Step.TheVariants.{Node};
ghost use Rattle.sal_node.specs.Tree.{grove, is_filled, pairs};
ghost use Rattle.examples_worked.specs.NodeCases.{child, kids, stamped};

/// A node to which a child was added has it, and finds it by its stamp, too; a node with a child and without a cell is filled.
pub fn a_node_has_its_children()
    ensures all { pairs kids ≡ (Node 3, child) ∷ [] }
    ensures by_stamp { stamped (7 ∷ []) (pairs kids) ≡ (Node 3, child) ∷ [] }
    ensures filled { is_filled None (grove ((Node 5, child) ∷ [])) ≡ true }
{}
