//! Both trees of the next commit, and the rule that they break.
ghost use Rattle.std.specs.Prelude.{◌≡◌, ◌-◌, ◌∷◌, [], IfOk, None, length, slice_index_or};
ghost use Rattle.std.specs.Option.{option_or};
ghost use Rattle.sal_types.specs.declared.value.Store.{Store as OfStore};
ghost use Rattle.sal_types.specs.declared.value.Store.TheVariants.{Config, Oper};
ghost use Rattle.sal_types.specs.Tree.{under};
ghost use Rattle.sal_rows.specs.Apply.{apply_ops, rows_of_act};
ghost use Rattle.sal_rules.specs.Breaches.{breach};
ghost use Rattle.sal_rows.specs.Touch.{touches};
ghost use Rattle.sal_check.specs.Near.{Keeps};
ghost use Rattle.sal_node.specs.Tree.{IsGrove};
ghost use Rattle.sal_tree.specs.Follows.{Follows, exactly};
ghost use Rattle.sal_tree.specs.Rows.{rows_of};
ghost use Rattle.sal_tree.specs.declared.commit.Commit.{Commit as Kept};
ghost use Rattle.sal_rows.specs.Clash.{tip};
ghost use Rattle.sal_graft.specs.Kept.{AreKept, opening_in, ops_of, rows_in, tree_in};
ghost use Rattle.sal_commit.specs.Deciding as spec;
ghost use Rattle.sal_commit.specs.Sound.{BreakNone, KeepNewest};
ghost use Rattle.sal_commit.specs.Stamps.{FollowNewest};

use crate::domain::Domain;
use sal_check::{Plan, check_near};
use sal_rows::{Op, Outcome, same_store};
use sal_tree::{Commit, Pair, Root};
use sal_tx::{Submission, edited};
use sal_types::{Duplicate, NoMemory, Store};
use std::alloc::Global;

/// The newest trees of the domain with the submission's operations applied. Nodes that these touch get the stamp `fresh`, and
/// all others are shared.
pub(crate) fn next_trees(
    alloc: Global,
    sub: &Submission,
    domain: &Domain,
    fresh: u64,
) -> Result<Pair, NoMemory>
    requires { spec.IsFor domain.now sub.now }
    ensures rows { IfOk result (λ trees. (s : OfStore) → rows_in trees s ≡ apply_ops (tip (opening_in domain.now.commits.items) (ops_of domain.now.commits.items) s) s sub.now.changes) }
    ensures stamps { IfOk result (KeepNewest (fresh ∷ []) domain.now.commits.items) }
    ensures follows { IfOk result (FollowNewest fresh sub.now.changes domain.now.commits.items) }
{
    let mut trees = newest(&domain.commits)?;
    for op in sub.changes.ops() {
        trees = applied(alloc, trees, op, fresh)?;
    }
    Ok(trees)
}

// The newest trees, shared.
fn newest(commits: &[Commit]) -> Result<Pair, NoMemory>
    requires { AreKept commits.now }
    ensures rows { IfOk result (λ trees. (s : OfStore) → rows_in trees s ≡ apply_ops (tip (opening_in commits.now) (ops_of commits.now) s) s []) }
    ensures whole { IfOk result (λ trees. (s : OfStore) → IsGrove (tree_in trees s).kids) }
    ensures same { IfOk result (λ trees. (c : Kept) → c ≡ slice_index_or commits.now (length commits.now - 1) c → trees ≡ c.trees) }
{
    let last = &commits[commits.len() - 1].trees;
    let trees = last.copy()?;
    let _ = trees.config.node();
    let _ = trees.oper.node();
    Ok(trees)
}

// Both trees after the operation.
fn applied(alloc: Global, trees: Pair, op: &Op, fresh: u64) -> Result<Pair, NoMemory>
    requires { under (rows_of_act op.now.act) op.now.path ≡ rows_of_act op.now.act }
    ensures rows { IfOk result (λ after. (s : OfStore) → rows_in after s ≡ apply_ops (rows_in trees s) s (op.now ∷ [])) }
    ensures whole { IfOk result (λ after. (s : OfStore) → IsGrove (tree_in after s).kids) }
    ensures stamps { IfOk result (λ after. (s : OfStore) → Follows (exactly fresh) (touches (rows_in trees s) s (op.now ∷ [])) (tree_in trees s) (tree_in after s)) }
{
    let config = after_op(alloc, &trees.config, Store::Config, op, fresh)?;
    let oper = after_op(alloc, &trees.oper, Store::Oper, op, fresh)?;
    Ok(Pair { config, oper })
}

// The tree of the store after the operation: the same one, if that is of the other store.
fn after_op(alloc: Global, tree: &Root, store: Store, op: &Op, fresh: u64) -> Result<Root, NoMemory>
    requires { under (rows_of_act op.now.act) op.now.path ≡ rows_of_act op.now.act }
    ensures rows { IfOk result (λ after. rows_of after ≡ apply_ops (rows_of tree.now) store (op.now ∷ [])) }
    ensures whole { IfOk result (λ after. IsGrove after.kids) }
    ensures stamps { IfOk result (λ after. Follows (exactly fresh) (touches (rows_of tree.now) store (op.now ∷ [])) tree.now after) }
{
    let _ = tree.node();
    if !same_store(op.store, store) {
        let same = tree.copy()?;
        return Ok(same);
    }
    let next = edited(alloc, tree, op, fresh)?;
    let _ = next.node();
    Ok(next)
}

/// The outcome with the rule that the trees break, if they break one: of the configuration first. The trees were
/// made from the newest ones of the domain, and changed nodes have the stamp `fresh`.
pub(crate) fn breached(
    alloc: Global,
    domain: &Domain,
    trees: &Pair,
    fresh: u64,
) -> Result<Option<Outcome>, NoMemory>
    requires kept { AreKept domain.now.commits.items }
    requires stamps { KeepNewest (fresh ∷ []) domain.now.commits.items trees.now }
    ensures { IfOk result (λ o. o ≡ option_or (spec.invalid_over domain.now.schema.value Config (rows_in trees.now Config)) (spec.invalid_over domain.now.schema.value Oper (rows_in trees.now Oper))) }
{
    let newest = &domain.commits[domain.commits.len() - 1].trees;
    first_breach(alloc, &domain.plan, newest, trees, fresh)
}

fn first_breach(
    alloc: Global,
    plan: &Plan,
    before: &Pair,
    after: &Pair,
    fresh: u64,
) -> Result<Option<Outcome>, NoMemory>
    requires sound { BreakNone plan.now.schema.value before.now }
    requires stamps { (s : OfStore) → Keeps (fresh ∷ []) (tree_in before.now s) (tree_in after.now s) }
    ensures { IfOk result (λ o. o ≡ option_or (spec.invalid_over plan.now.schema.value Config (rows_in after.now Config)) (spec.invalid_over plan.now.schema.value Oper (rows_in after.now Oper))) }
{
    let (config, oper) = (Store::Config, Store::Oper);
    if let Some(outcome) = invalid(alloc, plan, config, &before.config, &after.config, fresh)? {
        return Ok(Some(outcome));
    }
    let outcome = invalid(alloc, plan, oper, &before.oper, &after.oper, fresh)?;
    Ok(outcome)
}

// The outcome with the rule that the tree of the store breaks.
fn invalid(
    alloc: Global,
    plan: &Plan,
    store: Store,
    before: &Root,
    after: &Root,
    fresh: u64,
) -> Result<Option<Outcome>, NoMemory>
    requires sound { breach plan.now.schema.value store (rows_of before.now) ≡ None }
    requires stamps { Keeps (fresh ∷ []) before.now after.now }
    ensures { IfOk result (λ o. o ≡ spec.invalid_over plan.now.schema.value store (rows_of after.now)) }
{
    match check_near(alloc, plan, store, before, after, &[fresh])? {
        None => Ok(None),
        Some(breach) => Ok(Some(Outcome::Invalid {
            store,
            path: breach.path,
            rule: breach.rule,
        })),
    }
}
