//! Versions of a schema: whether a schema is a later version of another, and the table of a later version.
ghost use Rattle.std.specs.Prelude.{◌≡◌, ◌↔◌, IsTrue, IfOk};
ghost use Rattle.sal_schema.specs.Same as spec;
ghost use Rattle.sal_schema.specs.Versions.{Extends, on};
ghost use Rattle.sal_schema.specs.Versions as spec_on;
ghost use Rattle.sal_schema.specs.Valid.{IsTable};

use crate::schema::Schema;
use crate::table::{IdentityInfo, Leafs, NodeInfo, SchemaTable};
use sal_restrict::YangType;
use sal_types::{Duplicate, NoMemory, Seq, Str, append};
use std::alloc::Global;

impl Schema {
    /// Whether this schema is a later version of the older one: each list of the older table is a prefix of the list of this one. A
    /// look-up at a number of the older table then has the same result here.
    ///
    /// It takes no memory, and time linear in the older table.
    pub fn extends(&self, older: &Schema) -> bool
        ensures { IsTrue result ↔ Extends self.now older.now }
    {
        let _nodes = older.len();
        is_on(&self.table, &older.table)
    }
}

fn is_on(newer: &SchemaTable, older: &SchemaTable) -> bool
    requires { IsTable older.now }
    ensures { IsTrue result ↔ Extends newer.now older.now }
{
    begins(newer, older)
}

fn begins(newer: &SchemaTable, older: &SchemaTable) -> bool
    ensures { result ≡ spec.extends newer.now older.now }
{
    (nodes_begin(newer.nodes.items(), older.nodes.items())
        && types_begin(newer.types.items(), older.types.items()))
        && (names_begin(newer.modules.items(), older.modules.items())
            && identities_begin(newer.identities.items(), older.identities.items()))
}

// ---- lists

fn nodes_begin(newer: &[NodeInfo], older: &[NodeInfo]) -> bool
    ensures { result ≡ spec.begins spec.same_node older.now newer.now }
{
    if newer.len() < older.len() {
        return false;
    }
    for i in 0..older.len() {
        if !same_node(&older[i], &newer[i]) {
            return false;
        }
    }
    true
}

fn types_begin(newer: &[YangType], older: &[YangType]) -> bool
    ensures { result ≡ spec.begins spec.same_type older.now newer.now }
{
    if newer.len() < older.len() {
        return false;
    }
    for i in 0..older.len() {
        if !same_type(&older[i], &newer[i]) {
            return false;
        }
    }
    true
}

fn names_begin(newer: &[Str], older: &[Str]) -> bool
    ensures { result ≡ spec.begins spec.same_numbers older.now newer.now }
{
    if newer.len() < older.len() {
        return false;
    }
    for i in 0..older.len() {
        if older[i] != newer[i] {
            return false;
        }
    }
    true
}

fn identities_begin(newer: &[IdentityInfo], older: &[IdentityInfo]) -> bool
    ensures { result ≡ spec.begins spec.same_identity older.now newer.now }
{
    if newer.len() < older.len() {
        return false;
    }
    for i in 0..older.len() {
        if !same_identity(&older[i], &newer[i]) {
            return false;
        }
    }
    true
}

// ---- nodes and identities

fn same_place(a: &NodeInfo, b: &NodeInfo) -> bool
    ensures { result ≡ spec.same_place a.now b.now }
{
    (a.parent == b.parent && a.kind == b.kind) && (a.module == b.module && a.name == b.name)
}

fn same_use(a: &NodeInfo, b: &NodeInfo) -> bool
    ensures { result ≡ spec.same_use a.now b.now }
{
    (a.config == b.config && a.ty == b.ty) && (a.keys == b.keys && a.mandatory == b.mandatory)
}

fn same_limits(a: &NodeInfo, b: &NodeInfo) -> bool
    ensures { result ≡ spec.same_limits a.now b.now }
{
    (a.min_elements == b.min_elements && a.max_elements == b.max_elements) && a.unique == b.unique
}

fn same_node(a: &NodeInfo, b: &NodeInfo) -> bool
    ensures { result ≡ spec.same_node a.now b.now }
{
    (same_place(a, b) && same_use(a, b)) && same_limits(a, b)
}

fn same_identity(a: &IdentityInfo, b: &IdentityInfo) -> bool
    ensures { result ≡ spec.same_identity a.now b.now }
{
    (a.name == b.name && a.module == b.module) && a.derived_from == b.derived_from
}

// ---- types

/// Whether two types that are not unions are equal.
fn same_plain(a: &YangType, b: &YangType) -> bool
    ensures { result ≡ spec.same_plain a.now b.now }
{
    match (a, b) {
        (
            YangType::Int {
                bits,
                signed,
                range,
            },
            YangType::Int {
                bits: bits2,
                signed: signed2,
                range: range2,
            },
        ) => (*bits == *bits2 && *signed == *signed2) && *range == *range2,
        (
            YangType::Dec { digits, range },
            YangType::Dec {
                digits: digits2,
                range: range2,
            },
        ) => *digits == *digits2 && *range == *range2,
        (
            YangType::Text { length, patterns },
            YangType::Text {
                length: length2,
                patterns: patterns2,
            },
        ) => *length == *length2 && *patterns == *patterns2,
        (YangType::Bool, YangType::Bool) => true,
        (
            YangType::Enum { names, places },
            YangType::Enum {
                names: names2,
                places: places2,
            },
        ) => *names == *names2 && *places == *places2,
        (
            YangType::Bits { names, positions },
            YangType::Bits {
                names: names2,
                positions: positions2,
            },
        ) => *names == *names2 && *positions == *positions2,
        (YangType::Bin { length }, YangType::Bin { length: length2 }) => *length == *length2,
        (YangType::Ident { bases }, YangType::Ident { bases: bases2 }) => *bases == *bases2,
        (YangType::Empty, YangType::Empty) => true,
        _ => false,
    }
}

fn same_type(a: &YangType, b: &YangType) -> bool
    ensures { result ≡ spec.same_type a.now b.now }
{
    match (a, b) {
        (YangType::Union { members }, YangType::Union { members: members2 }) => {
            same_members(members.items(), members2.items())
        }
        _ => same_plain(a, b),
    }
}

fn same_members(a: &[YangType], b: &[YangType]) -> bool
    ensures { result ≡ spec.same_members a.now b.now }
{
    if a.len() != b.len() {
        return false;
    }
    for i in 0..a.len() {
        if !same_plain(&a[i], &b[i]) {
            return false;
        }
    }
    true
}

// ---- the table of a later version

fn node_of(node: &NodeInfo) -> Result<NodeInfo, NoMemory>
    ensures { IfOk result (λ it. it ≡ node.now) }
{
    let name = node.name.copy()?;
    with_leafs(node, name)
}

fn with_leafs(node: &NodeInfo, name: Str) -> Result<NodeInfo, NoMemory>
    requires { name ≡ node.now.name }
    ensures { IfOk result (λ it. it ≡ node.now) }
{
    let keys = node.keys.copy()?;
    with_uniques(node, name, keys)
}

fn with_uniques(node: &NodeInfo, name: Str, keys: Leafs) -> Result<NodeInfo, NoMemory>
    requires name { name ≡ node.now.name }
    requires keys { keys ≡ node.now.keys }
    ensures { IfOk result (λ it. it ≡ node.now) }
{
    let unique = node.unique.copy()?;
    Ok(NodeInfo {
        parent: node.parent,
        kind: node.kind,
        module: node.module,
        name,
        config: node.config,
        ty: node.ty,
        keys,
        mandatory: node.mandatory,
        min_elements: node.min_elements,
        max_elements: node.max_elements,
        unique,
    })
}

fn identity_of(one: &IdentityInfo) -> Result<IdentityInfo, NoMemory>
    ensures { IfOk result (λ it. it ≡ one.now) }
{
    let name = one.name.copy()?;
    with_bases(one, name)
}

fn with_bases(one: &IdentityInfo, name: Str) -> Result<IdentityInfo, NoMemory>
    requires { name ≡ one.now.name }
    ensures { IfOk result (λ it. it ≡ one.now) }
{
    let derived_from = one.derived_from.copy()?;
    Ok(IdentityInfo {
        name,
        module: one.module,
        derived_from,
    })
}

fn nodes_on(
    alloc: Global,
    older: &[NodeInfo],
    whole: &[NodeInfo],
) -> Result<Vec<NodeInfo>, NoMemory>
    ensures { IfOk result (λ list. list.items ≡ on older.now whole.now) }
{
    let mut list = Vec::with_capacity(alloc, whole.len())?;
    for node in older {
        append(&mut list, node_of(node)?)?;
    }
    for i in older.len()..whole.len() {
        append(&mut list, node_of(&whole[i])?)?;
    }
    Ok(list)
}

fn types_on(
    alloc: Global,
    older: &[YangType],
    whole: &[YangType],
) -> Result<Vec<YangType>, NoMemory>
    ensures { IfOk result (λ list. list.items ≡ on older.now whole.now) }
{
    let mut list = Vec::with_capacity(alloc, whole.len())?;
    for ty in older {
        append(&mut list, ty.copy(alloc)?)?;
    }
    for i in older.len()..whole.len() {
        append(&mut list, whole[i].copy(alloc)?)?;
    }
    Ok(list)
}

fn names_on(alloc: Global, older: &[Str], whole: &[Str]) -> Result<Vec<Str>, NoMemory>
    ensures { IfOk result (λ list. list.items ≡ on older.now whole.now) }
{
    let mut list = Vec::with_capacity(alloc, whole.len())?;
    for name in older {
        append(&mut list, name.copy()?)?;
    }
    for i in older.len()..whole.len() {
        append(&mut list, whole[i].copy()?)?;
    }
    Ok(list)
}

fn identities_on(
    alloc: Global,
    older: &[IdentityInfo],
    whole: &[IdentityInfo],
) -> Result<Vec<IdentityInfo>, NoMemory>
    ensures { IfOk result (λ list. list.items ≡ on older.now whole.now) }
{
    let mut list = Vec::with_capacity(alloc, whole.len())?;
    for one in older {
        append(&mut list, identity_of(one)?)?;
    }
    for i in older.len()..whole.len() {
        append(&mut list, identity_of(&whole[i])?)?;
    }
    Ok(list)
}

/// The older table, extended by the lines of `whole` with new numbers: in each list, those after the length of the older list.
pub fn table_on(
    alloc: Global,
    older: &SchemaTable,
    whole: &SchemaTable,
) -> Result<SchemaTable, NoMemory>
    ensures { IfOk result (λ table. table ≡ spec_on.table_on older.now whole.now) }
{
    let nodes = nodes_on(alloc, older.nodes.items(), whole.nodes.items())?;
    with_types(alloc, older, whole, nodes)
}

fn with_types(
    alloc: Global,
    older: &SchemaTable,
    whole: &SchemaTable,
    nodes: Vec<NodeInfo>,
) -> Result<SchemaTable, NoMemory>
    requires { nodes.items ≡ on older.now.nodes whole.now.nodes }
    ensures { IfOk result (λ table. table ≡ spec_on.table_on older.now whole.now) }
{
    let types = types_on(alloc, older.types.items(), whole.types.items())?;
    with_modules(alloc, older, whole, nodes, types)
}

fn with_modules(
    alloc: Global,
    older: &SchemaTable,
    whole: &SchemaTable,
    nodes: Vec<NodeInfo>,
    types: Vec<YangType>,
) -> Result<SchemaTable, NoMemory>
    requires nodes { nodes.items ≡ on older.now.nodes whole.now.nodes }
    requires types { types.items ≡ on older.now.types whole.now.types }
    ensures { IfOk result (λ table. table ≡ spec_on.table_on older.now whole.now) }
{
    let of_modules = modules_on(alloc, older, whole)?;
    let Named {
        modules,
        identities,
    } = of_modules;
    Ok(SchemaTable {
        nodes: Seq::from_items(nodes),
        types: Seq::from_items(types),
        modules: Seq::from_items(modules),
        identities: Seq::from_items(identities),
    })
}

struct Named {
    modules: Vec<Str>,
    identities: Vec<IdentityInfo>,
}

fn modules_on(alloc: Global, older: &SchemaTable, whole: &SchemaTable) -> Result<Named, NoMemory>
    ensures modules { IfOk result (λ it. it.modules.items ≡ on older.now.modules whole.now.modules) }
    ensures identities { IfOk result (λ it. it.identities.items ≡ on older.now.identities whole.now.identities) }
{
    let modules = names_on(alloc, older.modules.items(), whole.modules.items())?;
    with_identities(alloc, older, whole, modules)
}

fn with_identities(
    alloc: Global,
    older: &SchemaTable,
    whole: &SchemaTable,
    modules: Vec<Str>,
) -> Result<Named, NoMemory>
    ensures modules { IfOk result (λ it. it.modules.items ≡ modules.items) }
    ensures identities { IfOk result (λ it. it.identities.items ≡ on older.now.identities whole.now.identities) }
{
    let identities = identities_on(alloc, older.identities.items(), whole.identities.items())?;
    Ok(Named {
        modules,
        identities,
    })
}
