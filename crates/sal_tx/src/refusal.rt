//! Why a write is refused.
ghost use Rattle.std.specs.Prelude.{◌≡◌, ◌⊎◌, ◌≤◌, None, Some, IfSome, MatchResult, option_map, find, take, length};
ghost use Rattle.std.specs.Option.{option_copied};
ghost use Rattle.sal_rows.specs.Apply.{rows_of_act};
ghost use Rattle.sal_node.specs.Shape.{tree_at};
ghost use Rattle.sal_tree.specs.Grow.{IsSound};
ghost use Rattle.sal_tree.specs.Rows.{rows_of};
ghost use Rattle.sal_schema.specs.Fitting.{is_of_state, is_root};
ghost use Rattle.sal_rules.specs.Refusals as spec;
ghost use Rattle.sal_tx.specs.Walk as walk;

use crate::steps::first_steps;
use sal_node::Node;
use sal_rows::Op;
use sal_rules::TxFault;
use sal_schema::Schema;
use sal_tree::{Root, child_of, is_present};
use sal_types::{Duplicate, Path, Row, Step, Store};
use std::alloc::Global;
use std::sync::Arc;

/// Refuses a write for the first of its causes over the tree, if there is one.
pub(crate) fn check(alloc: Global, schema: &Schema, tree: &Root, op: &Op) -> Result<(), TxFault>
    ensures { MatchResult result (λ _. spec.refusal schema.now (rows_of tree.now) op.now ≡ None) (λ e. (e ≡ TxFault.NoMemory) ⊎ (spec.refusal schema.now (rows_of tree.now) op.now ≡ Some e)) }
{
    if op.path.steps().is_empty() {
        return Err(TxFault::RootPath);
    }
    if schema.is_key_leaf(&op.path) {
        let path = op.path.copy()?;
        return Err(TxFault::KeyLeaf { path });
    }
    if let Some(path) = not_config(schema, op) {
        let path = path.copy()?;
        return Err(TxFault::NotConfig { path });
    }
    if let Some(depth) = missing(schema, tree, op) {
        let path = first_steps(alloc, &op.path, depth)?;
        return Err(TxFault::ParentMissing { path });
    }
    Ok(())
}

// The path of state data that the operation has in the configuration.
fn not_config<'a>(schema: &Schema, op: &'a Op) -> Option<&'a Path>
    ensures { option_copied result ≡ spec.not_config schema.now op.now.store op.now.path (rows_of_act op.now.act) }
{
    match op.store {
        Store::Config => first_state(schema, &op.path, op.act.rows()),
        Store::Oper => None,
    }
}

fn first_state<'a>(schema: &Schema, path: &'a Path, rows: &'a [Row]) -> Option<&'a Path>
    ensures { option_copied result ≡ spec.first_state schema.now path.now rows.now }
{
    if schema.is_of_state(path) {
        return Some(path);
    }
    match state_row(schema, rows) {
        Some(row) => Some(&row.path),
        None => None,
    }
}

fn state_row<'a>(schema: &Schema, rows: &'a [Row]) -> Option<&'a Row>
    ensures { option_copied result ≡ find (λ row. is_of_state schema.now row.path) rows.now }
{
    rows.iter().find(|row| schema.is_of_state(&row.path))
}

// The length of the path of the outermost missing parent.
fn missing(schema: &Schema, tree: &Root, op: &Op) -> Option<usize>
    ensures parent { option_map (λ d. take d op.now.path) result ≡ spec.missing_of schema.now (rows_of tree.now) op.now }
    ensures short { IfSome result (λ d. d ≤ length op.now.path) }
{
    if op.act.needs_parents() {
        missing_parent(schema, tree, &op.path)
    } else {
        None
    }
}

fn missing_parent(schema: &Schema, tree: &Root, path: &Path) -> Option<usize>
    ensures parent { option_map (λ d. take d path.now) result ≡ spec.missing_parent schema.now (rows_of tree.now) path.now }
    ensures short { IfSome result (λ d. d ≤ length path.now) }
{
    missing_below(schema, Some(tree.node()), path.steps())
}

// The number of steps to the first entry or presence container that is absent, before the last step.
fn missing_below(schema: &Schema, node: Option<&Arc<Node>>, steps: &[Step]) -> Option<usize>
    requires { IsSound (tree_at node) }
    ensures depth { result ≡ walk.missing_depth schema.now (tree_at node.entry) steps.now }
    ensures short { IfSome result (λ d. d ≤ length steps.now) }
{
    match steps {
        [] => None,
        [step, rest @ ..] => {
            if is_empty(rest) {
                return None;
            }
            let node = child_of(node, step);
            if schema.has_mark(step) && !is_present(node) {
                return Some(1);
            }
            match missing_below(schema, node, rest) {
                Some(depth) => Some(depth + 1),
                None => None,
            }
        }
    }
}

fn is_empty(steps: &[Step]) -> bool
    ensures { result ≡ is_root steps.now }
{
    match steps {
        [] => true,
        _ => false,
    }
}
