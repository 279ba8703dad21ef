//! The JSON text of a tree, from its nodes. Each function appends to the text.
ghost use Rattle.std.specs.Prelude.{◌≡◌, ◌++◌, ◌∷◌, [], List, Some, false, IfOk, OnOk, option_map, string_bytes};
ghost use Rattle.serde_json.specs.Data.{Data, Members, array};
ghost use Rattle.serde_json.specs.View.{items_of};
ghost use Rattle.serde_json.specs.Written.{comma_if, compact_text, items_text, members_text};
ghost use Rattle.sal_data.specs.Written.{item_json, scalar_json};
ghost use Rattle.sal_node.specs.Shape.{seen};
ghost use Rattle.sal_node.specs.Tree.{pairs};
ghost use Rattle.sal_tree.specs.Rows.{rows_of};
ghost use Rattle.sal_script.specs.Words.{tree_text};
ghost use Rattle.sal_tree_text.specs.Trees as spec;

use crate::members::in_name_order;
use crate::pieces::push_json;
use crate::texts::{push_member_name, push_null};
use sal_data::write_leaf;
use sal_node::{Child, Node};
use sal_schema::Schema;
use sal_schema::lookups::{is_leaf, is_leaf_list, is_list};
use sal_tree::Root;
use sal_types::{Cell, NoMemory, Step, Value};
use std::alloc::Global;

/// The largest number of levels of nodes of a tree: a path has at most 32 steps.
const MAX_LEVELS: u32 = 32;

/// The result of a function that appends to the text.
type Pushed = Result<(), NoMemory>;

/// The input for writing trees: a schema.
///
/// Below, `levels` is the largest number of levels of nodes, and `is_later` says whether an item precedes in the same brackets.
#[derive(Drop)]
struct TreeWriter<'a> {
    alloc: Global,
    schema: &'a Schema,
}

impl<'a> TreeWriter<'a> {
    /// The value of a leaf, or of an entry of a leaf-list.
    fn push_scalar(&self, text: &mut String, node: u32, value: &Value) -> Pushed
        ensures { OnOk result (string_bytes text.new ≡ string_bytes text.old ++ compact_text (scalar_json self.now.schema.now node value.now)) }
    {
        let json = write_leaf(self.alloc, self.schema, node, value)?;
        push_json(self.alloc, text, &json)
    }

    /// The value of a leaf, from its cell.
    fn push_leaf(&self, text: &mut String, node: u32, cell: Option<&Cell>) -> Pushed
        ensures { OnOk result (string_bytes text.new ≡ string_bytes text.old ++ compact_text (spec.leaf_value self.now.schema.now node (option_map (λ c. c.now) cell.entry))) }
    {
        match cell {
            Some(Cell::Leaf(value)) => self.push_scalar(text, node, value),
            _ => push_null(text),
        }
    }

    /// The value of a node with this tree.
    #[cycle(tree)]
    fn push_node(&self, text: &mut String, levels: u32, node: u32, tree: &Node) -> Pushed
        ensures { OnOk result (string_bytes text.new ≡ string_bytes text.old ++ compact_text (spec.node_value self.now.schema.now levels node tree.now)) }
    {
        if levels == 0 {
            return push_null(text);
        }
        if is_leaf(self.schema, node) {
            let cell = first_cell(self.alloc, tree)?;
            self.push_leaf(text, node, cell)
        } else if is_leaf_list(self.schema, node) {
            self.push_items(text, node, tree)
        } else if is_list(self.schema, node) {
            self.push_entries(text, levels - 1, node, tree)
        } else {
            self.push_members(text, levels - 1, Some(node), tree)
        }
    }

    /// An object with a member for each child that denotes a node.
    #[cycle(tree)]
    fn push_members(
        &self,
        text: &mut String,
        levels: u32,
        parent: Option<u32>,
        tree: &Node,
    ) -> Pushed
        ensures { OnOk result (string_bytes text.new ≡ string_bytes text.old ++ compact_text (spec.members_value self.now.schema.now parent (spec.node_value self.now.schema.now levels) tree.now)) }
    {
        let children = tree.children(self.alloc)?;
        let children = in_name_order(self.alloc, self.schema, parent, children)?;
        text.push('{')?;
        self.push_all(text, levels, parent, &children)?;
        text.push('}')?;
        Ok(())
    }

    /// The members of these children.
    #[cycle(tree)]
    fn push_all(
        &self,
        text: &mut String,
        levels: u32,
        parent: Option<u32>,
        children: &[&Child],
    ) -> Pushed
        ensures { OnOk result (string_bytes text.new ++ 125 ∷ [] ≡ string_bytes text.old ++ members_text false (spec.members_in self.now.schema.now parent (spec.node_value self.now.schema.now levels) (seen children.now))) }
    {
        let mut is_later = false;
        for child in children {
            is_later = self.push_member(text, levels, parent, is_later, child)?;
        }
        Ok(())
    }

    /// Appends the member of a child, if that denotes a node. It says whether there is a member now.
    #[cycle(tree)]
    fn push_member(
        &self,
        text: &mut String,
        levels: u32,
        parent: Option<u32>,
        is_later: bool,
        child: &Child,
    ) -> Result<bool, NoMemory>
        ensures { (rest : Members) → IfOk result (λ now. string_bytes text.new ++ members_text now rest ≡ string_bytes text.old ++ members_text is_later (spec.then_child self.now.schema.now parent (spec.node_value self.now.schema.now levels) child.now.step child.now.node.value rest)) }
    {
        match &child.step {
            Step::Node(node) => {
                push_comma(text, is_later)?;
                push_member_name(self.alloc, text, self.schema, parent, *node)?;
                text.push(':')?;
                self.push_node(text, levels, *node, &child.node)?;
                Ok(true)
            }
            _ => Ok(is_later),
        }
    }

    /// The values of the entries of a list.
    #[cycle(tree)]
    fn push_entries(&self, text: &mut String, levels: u32, node: u32, tree: &Node) -> Pushed
        ensures { OnOk result (string_bytes text.new ≡ string_bytes text.old ++ compact_text (array (items_of (spec.entries_values self.now.schema.now node (spec.node_value self.now.schema.now levels) (pairs tree.now.kids))))) }
    {
        let children = tree.children(self.alloc)?;
        text.push('[')?;
        let mut is_later = false;
        for child in &children {
            is_later = self.push_entry(text, levels, node, is_later, child)?;
        }
        text.push(']')?;
        Ok(())
    }

    /// The value of a child, if that is an entry of a list.
    #[cycle(tree)]
    fn push_entry(
        &self,
        text: &mut String,
        levels: u32,
        node: u32,
        is_later: bool,
        child: &Child,
    ) -> Result<bool, NoMemory>
        ensures { (rest : List Data) → IfOk result (λ now. string_bytes text.new ++ items_text now (items_of rest) ≡ string_bytes text.old ++ items_text is_later (items_of (spec.entry_value self.now.schema.now node (spec.node_value self.now.schema.now levels) child.now.step child.now.node.value ++ rest))) }
    {
        match &child.step {
            Step::Key(_) => {
                push_comma(text, is_later)?;
                self.push_members(text, levels, Some(node), &child.node)?;
                Ok(true)
            }
            _ => Ok(is_later),
        }
    }

    /// The values of the entries of a leaf-list.
    fn push_items(&self, text: &mut String, node: u32, tree: &Node) -> Pushed
        ensures { OnOk result (string_bytes text.new ≡ string_bytes text.old ++ compact_text (array (items_of (spec.items_values self.now.schema.now node (pairs tree.now.kids))))) }
    {
        let children = tree.children(self.alloc)?;
        text.push('[')?;
        let mut is_later = false;
        for child in &children {
            is_later = self.push_item(text, node, is_later, &child.step)?;
        }
        text.push(']')?;
        Ok(())
    }

    /// The value of an entry of a leaf-list, if the step leads to one.
    fn push_item(
        &self,
        text: &mut String,
        node: u32,
        is_later: bool,
        step: &Step,
    ) -> Result<bool, NoMemory>
        ensures { (rest : List Data) → IfOk result (λ now. string_bytes text.new ++ items_text now (items_of rest) ≡ string_bytes text.old ++ items_text is_later (items_of (item_json self.now.schema.now node (Some step.now) ++ rest))) }
    {
        match step {
            Step::Item(value) => {
                push_comma(text, is_later)?;
                self.push_scalar(text, node, value.value())?;
                Ok(true)
            }
            _ => Ok(is_later),
        }
    }
}

fn push_comma(text: &mut String, is_later: bool) -> Pushed
    ensures { OnOk result (string_bytes text.new ≡ string_bytes text.old ++ comma_if is_later) }
{
    if is_later {
        text.push(',')?;
    }
    Ok(())
}

/// The cell of the first row at a node or below it.
fn first_cell<'a>(alloc: Global, node: &'a Node) -> Result<Option<&'a Cell>, NoMemory>
    ensures { IfOk result (λ cell. option_map (λ c. c.now) cell ≡ spec.first_cell node.entry.now.cell node.entry.now.kids) }
{
    match &node.cell {
        Some(cell) => Ok(Some(cell)),
        None => {
            let children = node.children(alloc)?;
            match children.as_slice() {
                [child, ..] => first_cell(alloc, &child.node),
                [] => Ok(None),
            }
        }
    }
}

/// Appends a space and the JSON text of a tree. It fails only if memory runs out; the text may then have a front of it.
pub fn push_tree(
    alloc: Global,
    text: &mut String,
    schema: &Schema,
    root: &Root,
) -> Result<(), NoMemory>
    ensures { OnOk result (string_bytes text.new ≡ string_bytes text.old ++ tree_text schema.now (rows_of root.now)) }
{
    let writer = TreeWriter { alloc, schema };
    text.push(' ')?;
    writer.push_members(text, MAX_LEVELS, None, root.node())
}
