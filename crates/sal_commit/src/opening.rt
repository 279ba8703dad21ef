//! The opening trees of a device.
ghost use Rattle.std.specs.Prelude.{◌≡◌, [], ◌∷◌, IfOk, MatchResult, None};
ghost use Rattle.sal_types.specs.declared.value.Store.{Store as Of};
ghost use Rattle.sal_schema.specs.declared.table.SchemaTable.{SchemaTable as Table};
ghost use Rattle.sal_tree.specs.Rows.{rows_of};
ghost use Rattle.sal_graft.specs.Following.{AreFollowing, BothUpTo};
ghost use Rattle.sal_graft.specs.Kept.{AreKept, chains_of, opening_in, ops_of, rows_in};
ghost use Rattle.sal_commit.specs.Opening as spec;
ghost use Rattle.sal_commit.specs.Sound.{AreSound, BreakNone};
ghost use Rattle.sal_commit.specs.Stamps.{receipts_of};

use crate::fault::DomainFault;
use sal_check::{Plan, check_by};
use sal_history::Device;
use sal_tree::{Commit, Pair, Root};
use sal_types::{NoMemory, Seq, Store};
use std::alloc::Global;
use std::sync::Arc;

/// The opening trees of a device, unless one of them breaks a structural rule.
pub(crate) fn sound_trees(alloc: Global, device: &Device, plan: &Plan) -> Result<Pair, DomainFault>
    requires { plan.now.schema.value ≡ device.now.schema.value }
    ensures trees { IfOk result (λ pair. rows_in pair ≡ spec.opening_of_device device.now) }
    ensures stamps { IfOk result (BothUpTo 1) }
    ensures fault { MatchResult result (λ _. spec.fault_of device.now ≡ None) (spec.IsFaultOf device.now) }
{
    let trees = opened(alloc, device)?;
    match fault_in(alloc, plan, &trees)? {
        None => Ok(trees),
        Some(fault) => Err(fault),
    }
}

fn opened(alloc: Global, device: &Device) -> Result<Pair, NoMemory>
    ensures trees { IfOk result (λ pair. rows_in pair ≡ spec.opening_of_device device.now) }
    ensures stamps { IfOk result (BothUpTo 1) }
{
    let config = Root::from_rows(alloc, &device.opening.config, 0)?;
    let oper = Root::from_rows(alloc, &device.opening.oper, 0)?;
    Ok(Pair { config, oper })
}

/// Why the trees are refused: they break a rule of the plan.
pub(crate) fn fault_in(
    alloc: Global,
    plan: &Plan,
    trees: &Pair,
) -> Result<Option<DomainFault>, NoMemory>
    ensures { IfOk result (λ o. o ≡ spec.fault_over plan.now.schema.value (rows_in trees.now)) }
{
    if let Some(fault) = broken(alloc, plan, Store::Config, &trees.config)? {
        return Ok(Some(fault));
    }
    let fault = broken(alloc, plan, Store::Oper, &trees.oper)?;
    Ok(fault)
}

fn broken(
    alloc: Global,
    plan: &Plan,
    store: Store,
    tree: &Root,
) -> Result<Option<DomainFault>, NoMemory>
    ensures { IfOk result (λ o. o ≡ spec.broken plan.now.schema.value store (rows_of tree.now)) }
{
    match check_by(alloc, plan, store, tree)? {
        None => Ok(None),
        Some(breach) => Ok(Some(DomainFault::Broken { store, breach })),
    }
}

/// The commits of a domain with these opening trees: commit 0 alone.
pub(crate) fn first_commits(alloc: Global, trees: Pair) -> Result<Vec<Commit>, NoMemory>
    ensures kept { IfOk result (λ v. AreKept v.items) }
    ensures ops { IfOk result (λ v. ops_of v.items ≡ []) }
    ensures chains { IfOk result (λ v. chains_of v.items ≡ []) }
    ensures receipts { IfOk result (λ v. receipts_of v.items ≡ 0 ∷ []) }
    ensures opening { IfOk result (λ v. (s : Of) → opening_in v.items s ≡ rows_in trees s) }
    ensures sound { IfOk result (λ v. (table : Table) → BreakNone table trees → AreSound table v.items) }
    ensures following { IfOk result (λ v. BothUpTo 1 trees → AreFollowing v.items) }
{
    let opening = Commit {
        number: 0,
        receipt: 0,
        chain: None,
        ops: Arc::new(alloc, Seq::new(alloc))?,
        trees,
    };
    let commits = vec![in alloc; opening]?;
    Ok(commits)
}
