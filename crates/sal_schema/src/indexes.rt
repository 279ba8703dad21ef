//! The indexes that a schema keeps in addition to its table.
//!
//! Each function makes one value with one early exit, which keeps the proofs short.
ghost use Rattle.std.specs.Prelude.{◌≡◌, IfOk, None, length};
ghost use Rattle.std.specs.List.Sorted.{IsPermutation};
ghost use Rattle.sal_schema.specs.Beside.{ArePlaces, IsPlaced, AreStatics, AreMessages, AreTops};
ghost use Rattle.sal_schema.specs.declared.kind.Kind.TheVariants.{Rpc};
ghost use Rattle.sal_schema.specs.Indexed.{AreChildren};
ghost use Rattle.sal_schema.specs.Names as spec;
ghost use Rattle.sal_schema.specs.Table.{children_in};
ghost use Rattle.sal_schema.specs.Valid.{IsTable};

use crate::kind::Kind;
use crate::names::Index;
use crate::parts::{
    Children, children_of, data_names, data_parents, identity_names, kind_names, module_names,
};
use crate::table::SchemaTable;
use sal_types::NoMemory;
use std::alloc::Global;

/// The children of each node, and its data parent.
#[derive(Drop)]
pub(crate) struct Places {
    pub(crate) children: Children,
    pub(crate) data_parents: Vec<Option<u32>>,
}

/// The names of the modules and identities.
#[derive(Drop)]
pub(crate) struct Statics {
    pub(crate) modules: Index,
    pub(crate) identities: Index,
}

/// The names of the RPCs and notifications.
#[derive(Drop)]
pub(crate) struct Messages {
    pub(crate) rpcs: Index,
    pub(crate) notifications: Index,
}

/// The indexes by number, and the names of the data nodes.
#[derive(Drop)]
pub(crate) struct Placed {
    pub(crate) places: Places,
    pub(crate) data_nodes: Index,
}

/// The names at the top.
pub(crate) struct Tops {
    pub(crate) statics: Statics,
    pub(crate) messages: Messages,
}

/// All indexes of a table.
pub(crate) struct Beside {
    pub(crate) placed: Placed,
    pub(crate) tops: Tops,
}

fn places_of(alloc: Global, table: &SchemaTable) -> Result<Places, NoMemory>
    requires { IsTable table.now }
    ensures { IfOk result (λ it. ArePlaces table.now it) }
{
    let children = children_of(alloc, table)?;
    with_parents(alloc, table, children)
}

fn with_parents(alloc: Global, table: &SchemaTable, children: Children) -> Result<Places, NoMemory>
    requires table { IsTable table.now }
    requires top { children.top.items ≡ children_in 0 table.now.nodes None }
    requires below { AreChildren table.now.nodes children.below.items }
    requires count { length children.below.items ≡ length table.now.nodes }
    ensures { IfOk result (λ it. ArePlaces table.now it) }
{
    let data_parents = data_parents(alloc, table)?;
    Ok(Places {
        children,
        data_parents,
    })
}

fn names_of_kind(alloc: Global, table: &SchemaTable, kind: Kind) -> Result<Index, NoMemory>
    requires { IsTable table.now }
    ensures { IfOk result (λ it. IsPermutation (spec.kind_names kind table.now) it) }
{
    Index::of(kind_names(alloc, kind, table.nodes.items())?)
}

fn names_of_data(alloc: Global, table: &SchemaTable, places: &Places) -> Result<Index, NoMemory>
    requires table { IsTable table.now }
    requires places { ArePlaces table.now places.now }
    ensures { IfOk result (λ it. IsPermutation (spec.data_names table.now) it) }
{
    Index::of(data_names(alloc, table, &places.data_parents)?)
}

fn messages_of(alloc: Global, table: &SchemaTable) -> Result<Messages, NoMemory>
    requires { IsTable table.now }
    ensures { IfOk result (λ it. AreMessages table.now it) }
{
    let rpcs = names_of_kind(alloc, table, Kind::Rpc)?;
    with_notifications(alloc, table, rpcs)
}

fn with_notifications(alloc: Global, table: &SchemaTable, rpcs: Index) -> Result<Messages, NoMemory>
    requires table { IsTable table.now }
    requires rpcs { IsPermutation (spec.kind_names Rpc table.now) rpcs }
    ensures { IfOk result (λ it. AreMessages table.now it) }
{
    let notifications = names_of_kind(alloc, table, Kind::Notification)?;
    Ok(Messages {
        rpcs,
        notifications,
    })
}

fn statics_of(alloc: Global, table: &SchemaTable) -> Result<Statics, NoMemory>
    requires { IsTable table.now }
    ensures { IfOk result (λ it. AreStatics table.now it) }
{
    let modules = Index::of(module_names(alloc, table.modules.items())?)?;
    with_identities(alloc, table, modules)
}

fn with_identities(alloc: Global, table: &SchemaTable, modules: Index) -> Result<Statics, NoMemory>
    requires table { IsTable table.now }
    requires modules { IsPermutation (spec.module_names table.now) modules }
    ensures { IfOk result (λ it. AreStatics table.now it) }
{
    let identities = identities_of(alloc, table)?;
    Ok(Statics {
        modules,
        identities,
    })
}

fn identities_of(alloc: Global, table: &SchemaTable) -> Result<Index, NoMemory>
    requires { IsTable table.now }
    ensures { IfOk result (λ it. IsPermutation (spec.identity_names table.now) it) }
{
    Index::of(identity_names(alloc, table.identities.items())?)
}

fn placed_of(alloc: Global, table: &SchemaTable) -> Result<Placed, NoMemory>
    requires { IsTable table.now }
    ensures { IfOk result (λ it. IsPlaced table.now it) }
{
    let places = places_of(alloc, table)?;
    with_data(alloc, table, places)
}

fn with_data(alloc: Global, table: &SchemaTable, places: Places) -> Result<Placed, NoMemory>
    requires table { IsTable table.now }
    requires places { ArePlaces table.now places }
    ensures { IfOk result (λ it. IsPlaced table.now it) }
{
    let data_nodes = names_of_data(alloc, table, &places)?;
    Ok(Placed { places, data_nodes })
}

fn tops_of(alloc: Global, table: &SchemaTable) -> Result<Tops, NoMemory>
    requires { IsTable table.now }
    ensures { IfOk result (λ it. AreTops table.now it) }
{
    let statics = statics_of(alloc, table)?;
    with_messages(alloc, table, statics)
}

fn with_messages(alloc: Global, table: &SchemaTable, statics: Statics) -> Result<Tops, NoMemory>
    requires table { IsTable table.now }
    requires statics { AreStatics table.now statics }
    ensures { IfOk result (λ it. AreTops table.now it) }
{
    let messages = messages_of(alloc, table)?;
    Ok(Tops { statics, messages })
}

/// The indexes of this table.
pub(crate) fn beside_of(alloc: Global, table: &SchemaTable) -> Result<Beside, NoMemory>
    requires { IsTable table.now }
    ensures placed { IfOk result (λ it. IsPlaced table.now it.placed) }
    ensures tops { IfOk result (λ it. AreTops table.now it.tops) }
{
    let placed = placed_of(alloc, table)?;
    with_tops(alloc, table, placed)
}

fn with_tops(alloc: Global, table: &SchemaTable, placed: Placed) -> Result<Beside, NoMemory>
    requires table { IsTable table.now }
    requires placed { IsPlaced table.now placed }
    ensures placed { IfOk result (λ it. IsPlaced table.now it.placed) }
    ensures tops { IfOk result (λ it. AreTops table.now it.tops) }
{
    let tops = tops_of(alloc, table)?;
    Ok(Beside { placed, tops })
}
