//! The targets of the paths of leafrefs.
ghost use Rattle.std.specs.Prelude.{◌≡◌, ◌==◌, ◌<◌, ◌≤◌, None, IfOk, length};
ghost use Rattle.std.specs.Option.{option_copied};
ghost use Rattle.std.specs.BTreeMap.{get};
ghost use Rattle.sal_module_table.specs.Inherited as inherited;
ghost use Rattle.sal_module_table.specs.Leafrefs as spec;

use crate::child::{Children, Key, data_children_of, find, module_named};
use crate::inherited::{data_nodes_of, data_over, data_parent};
use crate::node::{kind_of, name_of};
use crate::paths::Paths;
use sal_grouping::{Branch, local_name};
use sal_module::Modules;
use sal_schema::Kind;
use sal_types::{NoMemory, Str};
use std::alloc::Global;

/// The indexes for paths.
#[derive(Drop)]
pub(crate) struct Ways {
    /// For each node, the data parent of its children.
    pub data_nodes: Vec<Option<u32>>,
    /// The input, output or notification that contains each node.
    pub messages: Vec<Option<u32>>,
    /// The data nodes by their data parents and names.
    pub children: Children,
}

fn message_in(kind: Kind, k: u32, over: Option<u32>) -> Option<u32>
    ensures { result ≡ spec.message_in kind k over }
{
    if kind.is_message() { Some(k) } else { over }
}

fn messages_of(
    alloc: Global,
    modules: &Modules,
    forest: &[Branch],
) -> Result<Vec<Option<u32>>, NoMemory>
    requires { length forest.now ≤ 65536 }
    ensures { IfOk result (λ all. inherited.AreInherited (spec.with_message modules.now) None forest.now all.items) }
{
    let mut all = Vec::with_capacity(alloc, forest.len())?;
    for (k, branch) in forest.iter().enumerate() {
        let over = data_over(&all, k, branch.parent);
        all.push(message_in(kind_of(modules, branch), k as u32, over))?;
    }
    Ok(all)
}

/// The indexes for the paths of a forest.
pub(crate) fn ways_of(alloc: Global, modules: &Modules, forest: &[Branch]) -> Result<Ways, NoMemory>
    requires { length forest.now ≤ 65536 }
    ensures { IfOk result (λ ways. spec.AreWays modules.now forest.now ways) }
{
    let data_nodes = data_nodes_of(alloc, modules, forest)?;
    let messages = messages_of(alloc, modules, forest)?;
    let children = data_children_of(alloc, modules, forest, &data_nodes)?;
    Ok(Ways {
        data_nodes,
        messages,
        children,
    })
}

// ---- up

fn above_node(paths: &Paths, branch: &Branch) -> Option<u32>
    ensures { result ≡ spec.above_branch paths.now.modules.now paths.now.forest.now branch.now }
{
    if kind_of(paths.modules, branch).is_message() {
        None
    } else {
        place_of(paths, branch)
    }
}

/// The data parent of a node.
fn place_of(paths: &Paths, branch: &Branch) -> Option<u32>
    ensures { result ≡ inherited.data_parent paths.now.modules.now paths.now.forest.now branch.now.parent }
{
    data_parent(
        paths.modules,
        paths.forest,
        &paths.ways.data_nodes,
        branch.parent,
    )
}

fn step_up(paths: &Paths, place: Option<u32>) -> Option<Option<u32>>
    ensures { result ≡ spec.step_up paths.now.modules.now paths.now.forest.now place }
{
    match place {
        None => None,
        Some(n) => match paths.forest.get(n as usize) {
            None => Some(None),
            Some(branch) => Some(above_node(paths, branch)),
        },
    }
}

fn steps_up(paths: &Paths, up: usize, place: Option<u32>) -> Option<Option<u32>>
    ensures { result ≡ spec.steps_up up paths.now.modules.now paths.now.forest.now place }
{
    let mut place = place;
    for _i in 0..up {
        match step_up(paths, place) {
            None => return None,
            Some(above) => place = above,
        }
    }
    Some(place)
}

fn start_of(paths: &Paths, place: Option<u32>, up: usize) -> Option<Option<u32>>
    ensures { result ≡ spec.start_of paths.now.modules.now paths.now.forest.now place up }
{
    if up == 0 {
        Some(None)
    } else {
        steps_up(paths, up - 1, place)
    }
}

// ---- down

/// The start of a path: the message that contains its leaf, the leaf's module, and the module whose text has the path.
#[derive(Clone, Copy)]
struct Origin {
    message: Option<u32>,
    owner: u32,
    source: u32,
}

/// The operation of a message.
fn operation_of<'f>(forest: &'f [Branch], n: u32) -> Option<&'f Branch>
    ensures { option_copied result ≡ spec.operation_of forest.now n }
{
    match forest.get(n as usize) {
        None => None,
        Some(branch) => match branch.parent {
            None => Some(branch),
            Some(parent) => forest.get(parent as usize),
        },
    }
}

fn is_operation(paths: &Paths, module: u32, n: u32, name: &str) -> bool
    ensures { result ≡ spec.is_operation paths.now.modules.now paths.now.forest.now «module» n name.now }
{
    match operation_of(paths.forest, n) {
        None => false,
        Some(branch) => branch.module == module && name_of(paths.modules, branch) == name,
    }
}

fn data_child(
    paths: &Paths,
    place: Option<u32>,
    module: u32,
    name: &str,
) -> Result<Option<u32>, NoMemory>
    ensures { IfOk result (λ child. child ≡ spec.data_child paths.now.modules.now paths.now.forest.now place «module» name.now) }
{
    let key = Key {
        leaf: false,
        above: place,
        module,
        name: Str::new(paths.alloc, name)?,
    };
    Ok(find(&paths.ways.children, key))
}

/// The message of the leaf itself, if a name at the top is that of its operation.
fn own_message(
    paths: &Paths,
    own: Option<u32>,
    place: Option<u32>,
    module: u32,
    name: &str,
) -> Option<u32>
    ensures { result ≡ spec.own_message paths.now.modules.now paths.now.forest.now own place «module» name.now }
{
    if place.is_some() {
        return None;
    }
    match own {
        None => None,
        Some(n) => {
            if is_operation(paths, module, n, name) {
                Some(n)
            } else {
                None
            }
        }
    }
}

fn step_down(
    paths: &Paths,
    own: Option<u32>,
    place: Option<u32>,
    module: u32,
    name: &str,
) -> Result<Option<u32>, NoMemory>
    ensures { IfOk result (λ child. child ≡ spec.step_down paths.now.modules.now paths.now.forest.now own place «module» name.now) }
{
    match own_message(paths, own, place, module, name) {
        Some(n) => Ok(Some(n)),
        None => data_child(paths, place, module, name),
    }
}

fn named_below(
    paths: &Paths,
    origin: Origin,
    place: Option<u32>,
    name: &str,
) -> Result<Option<u32>, NoMemory>
    ensures { IfOk result (λ child. child ≡ spec.named_below paths.now.modules.now paths.now.forest.now origin.message origin.owner origin.source place name.now) }
{
    match module_named(paths.modules, origin.owner, origin.source, name) {
        None => Ok(None),
        Some(module) => step_down(paths, origin.message, place, module, local_name(name)),
    }
}

fn steps_down(
    paths: &Paths,
    origin: Origin,
    start: Option<u32>,
    names: &[Str],
) -> Result<Option<u32>, NoMemory>
    ensures { IfOk result (λ node. node ≡ spec.steps_down paths.now.modules.now paths.now.forest.now origin.message origin.owner origin.source start names.now) }
{
    let mut place = start;
    for name in names {
        match named_below(paths, origin, place, name.as_str())? {
            None => return Ok(None),
            Some(n) => place = Some(n),
        }
    }
    Ok(place)
}

// ---- ends

fn typed_node(modules: &Modules, forest: &[Branch], node: Option<u32>) -> Option<u32>
    ensures { result ≡ spec.typed_node modules.now forest.now node }
{
    match node {
        None => None,
        Some(n) => match forest.get(n as usize) {
            None => None,
            Some(branch) => match kind_of(modules, branch) {
                Kind::Leaf => Some(n),
                Kind::LeafList => Some(n),
                _ => None,
            },
        },
    }
}

fn message_at(modules: &Modules, forest: &[Branch], messages: &[Option<u32>], k: u32) -> Option<u32>
    requires { inherited.AreInherited (spec.with_message modules.now) None forest.now messages.now }
    ensures { result ≡ spec.message_of modules.now forest.now k }
{
    if (k as usize) < messages.len() {
        messages[k as usize]
    } else {
        None
    }
}

/// The leaf or leaf-list at the end of a path from a leaf: it goes up `up` steps, or begins at the top, and down by these names.
pub(crate) fn end_of(
    paths: &Paths,
    k: u32,
    branch: &Branch,
    source: u32,
    up: usize,
    names: &[Str],
) -> Result<Option<u32>, NoMemory>
    ensures { IfOk result (λ node. node ≡ spec.end_of paths.now.modules.now paths.now.forest.now k branch.now source up names.now) }
{
    if names.is_empty() {
        return Ok(None);
    }
    match start_of(paths, place_of(paths, branch), up) {
        None => Ok(None),
        Some(start) => {
            let origin = Origin {
                message: message_at(paths.modules, paths.forest, &paths.ways.messages, k),
                owner: branch.module,
                source,
            };
            let node = steps_down(paths, origin, start, names)?;
            Ok(typed_node(paths.modules, paths.forest, node))
        }
    }
}
