//! Laws of the definitions. Each function does nothing; its contract is the law.
ghost use Rattle.std.specs.Prelude.{Bool, ℕ, List, ◌∷◌, [], Option, Some};
ghost use Rattle.sal_types.specs.declared.value.Step.{Step};
ghost use Rattle.sal_node.specs.Tree.{Tree};
ghost use Rattle.sal_tree.specs.Follows.{Follows, exactly};
ghost use Rattle.sal_tree.specs.Graft.{Setting, Touch, IsGrafted, CanGraft};
ghost use Rattle.sal_tree.specs.History.{IsOneOf};
ghost use Rattle.sal_check.specs.Near.{BreaksNearAChange, TooManyNearAChange, RepeatsNearAChange, Keeps};

/// If a rule is newly broken at a place, a row was added, removed or changed below that place; for too many entries and
/// entries that agree it is in their list.
pub fn rules_break_near_changes()
    ensures place { BreaksNearAChange }
    ensures too_many { TooManyNearAChange }
    ensures repeats { RepeatsNearAChange }
{}

/// The condition of `check_near` on two trees: an edit with one stamp keeps all nodes but those with the stamp, and so
/// do several edits, for any stamps in the tree before; a graft keeps the tip except for the nodes with the
/// view's own stamp and the fresh one.
pub fn what_was_made_keeps()
    ensures edit { (stamp : ℕ) (touched : List Step → Bool) (before after : Tree) → Follows (exactly stamp) touched before after → Keeps (stamp ∷ []) before after }
    ensures commit { (stamps : List ℕ) (touched : List Step → Bool) (before after : Tree) → Follows (IsOneOf stamps) touched before after → Keeps stamps before after }
    ensures graft { (own fresh : ℕ) (set : Setting) (touched : Touch) (base view : Option Tree) (tip made : Tree) → CanGraft own set touched base view (Some tip) → IsGrafted fresh set touched view (Some tip) (Some made) → Keeps (own ∷ fresh ∷ []) tip made }
    ensures itself { (stamps : List ℕ) (tree : Tree) → Keeps stamps tree tree }
    ensures composed { (stamps : List ℕ) (first second third : Tree) → Keeps stamps first second → Keeps stamps second third → Keeps stamps first third }
{}
