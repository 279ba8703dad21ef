// Schemas, of tables that are made by hand.
use sal_history::{Device, Opening};
use sal_restrict::YangType;
use sal_rows::Rows;
use sal_schema::{Kind, Leafs, NodeInfo, Schema, SchemaTable};
use sal_schema_of_table::schema_of;
use sal_types::{NoMemory, Seq, Str};
use std::alloc::Global;
use std::sync::Arc;
use std::test::Fail;

/// A node of the configuration: the number of its parent, its kind, its name, its key if it is a list, and whether it is mandatory.
#[derive(Clone, Copy)]
pub(crate) struct Shape {
    parent: Option<u32>,
    kind: Kind,
    name: &'static str,
    key: Option<u32>,
    mandatory: bool,
}

/// A list at the top.
pub(crate) fn list(name: &'static str, key: u32) -> Shape {
    Shape {
        parent: None,
        kind: Kind::List,
        name,
        key: Some(key),
        mandatory: false,
    }
}

/// A container at the top.
pub(crate) fn container(name: &'static str) -> Shape {
    Shape {
        parent: None,
        kind: Kind::Container { presence: false },
        name,
        key: None,
        mandatory: false,
    }
}

/// A leaf.
pub(crate) fn leaf(parent: u32, name: &'static str, mandatory: bool) -> Shape {
    Shape {
        parent: Some(parent),
        kind: Kind::Leaf,
        name,
        key: None,
        mandatory,
    }
}

fn type_of(shape: Shape) -> Option<u32> {
    match shape.kind {
        Kind::Leaf => Some(0),
        _ => None,
    }
}

fn keys_of(alloc: Global, shape: Shape) -> Result<Leafs, NoMemory> {
    match shape.key {
        None => Ok(Seq::new(alloc)),
        Some(key) => Ok(Seq::from_items(vec![in alloc; key]?)),
    }
}

fn node(alloc: Global, shape: Shape) -> Result<NodeInfo, NoMemory> {
    let name = Str::new(alloc, shape.name)?;
    Ok(NodeInfo {
        parent: shape.parent,
        kind: shape.kind,
        module: 0,
        name,
        config: Some(true),
        ty: type_of(shape),
        keys: keys_of(alloc, shape)?,
        mandatory: shape.mandatory,
        min_elements: 0,
        max_elements: None,
        unique: Seq::new(alloc),
    })
}

fn add_node(nodes: &mut Vec<NodeInfo>, node: NodeInfo) -> Result<(), NoMemory> {
    nodes.push(node)?;
    Ok(())
}

fn nodes(alloc: Global, shapes: &[Shape]) -> Result<Seq<NodeInfo>, NoMemory> {
    let mut list = Vec::new(alloc);
    for shape in shapes {
        add_node(&mut list, node(alloc, *shape)?)?;
    }
    Ok(Seq::from_items(list))
}

// The one type of all leafs: no decision looks at a type.
fn types(alloc: Global) -> Result<Seq<YangType>, NoMemory> {
    Ok(Seq::from_items(vec![in alloc; YangType::Empty]?))
}

fn modules(alloc: Global) -> Result<Seq<Str>, NoMemory> {
    let name = Str::new(alloc, "tried")?;
    Ok(Seq::from_items(vec![in alloc; name]?))
}

fn fill(table: &mut SchemaTable, alloc: Global, shapes: &[Shape]) -> Result<(), NoMemory> {
    table.nodes = nodes(alloc, shapes)?;
    table.types = types(alloc)?;
    table.modules = modules(alloc)?;
    Ok(())
}

fn table(alloc: Global, shapes: &[Shape]) -> Result<SchemaTable, NoMemory> {
    let mut table = SchemaTable {
        nodes: Seq::new(alloc),
        types: Seq::new(alloc),
        modules: Seq::new(alloc),
        identities: Seq::new(alloc),
    };
    fill(&mut table, alloc, shapes)?;
    Ok(table)
}

fn schema(alloc: Global, shapes: &[Shape]) -> Result<Schema, Fail> {
    match schema_of(alloc, table(alloc, shapes)?) {
        Ok(schema) => Ok(schema),
        Err(_) => Err("no table of a schema".into()),
    }
}

/// A device over these nodes, with the configuration of its opening.
pub(crate) fn device(alloc: Global, shapes: &[Shape], config: Rows) -> Result<Device, Fail> {
    let schema = Arc::new(alloc, schema(alloc, shapes)?)?;
    let oper = Rows::new(alloc);
    let opening = Opening { config, oper };
    Ok(Device {
        schema,
        upgrades: Vec::new(alloc),
        opening,
    })
}
