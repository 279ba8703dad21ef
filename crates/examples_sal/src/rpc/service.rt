//! An RPC of the schema, and its data.
use crate::counter::leaf_with;
use anyhow::bail;
use sal::{NoMemory, Path, Rows, Schema, Step, schema_of};
use std::alloc::Global;

const NUMBERS: &str = "module numbers {
  namespace 'urn:example:numbers';
  prefix n;
  rpc next-number {
    input { leaf from { type uint32; } }
    output { leaf number { type uint32; } }
  }
}";

/// The schema of the module.
pub(crate) fn schema(alloc: Global) -> anyhow::Result<Schema> {
    Ok(schema_of(alloc, &[NUMBERS])?)
}

/// The RPC `next-number`: its node, and the paths of its two leafs. The data of an RPC are below its input and below its output.
#[derive(Drop)]
pub(crate) struct Service {
    pub(crate) rpc: u32,
    from: Path,
    number: Path,
}

impl Service {
    /// The RPC of the schema.
    pub(crate) fn of(alloc: Global, schema: &Schema) -> anyhow::Result<Service> {
        let Some(rpc) = schema.rpc("numbers", "next-number") else {
            bail!("the schema has no such RPC");
        };
        let from = leaf_of(alloc, schema, rpc, 0)?;
        let number = leaf_of(alloc, schema, rpc, 1)?;
        Ok(Service { rpc, from, number })
    }

    /// The input with this number.
    pub(crate) fn input(&self, alloc: Global, from: u64) -> Result<Rows, NoMemory> {
        leaf_with(alloc, &self.from, from)
    }

    /// The output with this number.
    pub(crate) fn output(&self, alloc: Global, number: u64) -> Result<Rows, NoMemory> {
        leaf_with(alloc, &self.number, number)
    }
}

// The path of the only leaf of the RPC's input (0) or output (1).
fn leaf_of(alloc: Global, schema: &Schema, rpc: u32, index: usize) -> anyhow::Result<Path> {
    let message = child_at(schema, rpc, index)?;
    let leaf = child_at(schema, message, 0)?;
    let mut path = Path::root(alloc);
    path.push(Step::Node(message))?;
    path.push(Step::Node(leaf))?;
    Ok(path)
}

// The child of the node at the index.
fn child_at(schema: &Schema, node: u32, index: usize) -> anyhow::Result<u32> {
    if node >= schema.len() {
        bail!("the schema has no node {node}");
    }
    match schema.children(Some(node)).get(index) {
        Some(child) => Ok(*child),
        None => bail!("node {node} has no child {index}"),
    }
}
