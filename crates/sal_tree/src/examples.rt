//! Worked examples of the definitions, each proved by computation.
ghost use Rattle.std.specs.Prelude.{◌≡◌, Some, None, true, false, [], ◌∷◌};
ghost use Rattle.sal_types.specs.declared.value.Store.TheVariants.{Config};
ghost use Rattle.sal_rows.specs.declared.op.Act.TheVariants.{Put, Merge, Delete};
ghost use Rattle.sal_rows.specs.Apply.{apply_ops};
ghost use Rattle.sal_tree.specs.Grow.{at};
ghost use Rattle.sal_tree.specs.Rows.{rows_of};
ghost use Rattle.sal_tree.specs.Edit.{without, with_rows};
ghost use Rattle.sal_tree.specs.Touched.{act_touches, one_op};
ghost use Rattle.sal_tree.specs.Alike.{alike};
ghost use Rattle.sal_tree.specs.Examples.{sample, sample_rows, without_leaf, box_path, leaf_path};

/// The rows of a tree, and its nodes by their paths.
pub fn rows_of_the_sample()
    ensures rows { rows_of sample ≡ sample_rows }
    ensures root { at (Some sample) [] ≡ Some sample }
    ensures nothing_below { at (Some without_leaf) leaf_path ≡ None }
{}

/// A deleted leaf: the remaining rows, and the stamps above it.
pub fn a_leaf_deleted()
    ensures tree { without 6 sample leaf_path ≡ without_leaf }
    ensures rows { rows_of without_leaf ≡ apply_ops sample_rows Config (one_op Config leaf_path Delete) }
    ensures touches_the_box { act_touches sample_rows leaf_path Delete box_path ≡ true }
    ensures differs { alike (at (Some sample) box_path) (at (Some without_leaf) box_path) ≡ false }
{}

/// A delete of an absent path touches nothing, and a put or merge of the same cell still touches its path.
pub fn what_is_touched()
    ensures absent { act_touches [] leaf_path Delete [] ≡ false }
    ensures same_cell { act_touches sample_rows leaf_path (Merge sample_rows) leaf_path ≡ true }
    ensures put_of_nothing { act_touches [] box_path (Put []) box_path ≡ false }
{}
