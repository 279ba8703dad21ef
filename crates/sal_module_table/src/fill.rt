//! The types of nodes, with those of the targets of leafrefs.
ghost use Rattle.std.specs.Prelude.{◌≡◌, ◌++◌, ◌<◌, ℕ, map, length, IfOk, slice_index_or, if◌then◌else◌, ◌==◌};
ghost use Rattle.sal_restrict.specs.declared.yang_type.YangType.TheViews.{out-YangType};
ghost use Rattle.sal_grouping.specs.Indexes.{lists};
ghost use Rattle.sal_typedefs.specs.Types.{members_of};
ghost use Rattle.sal_module_table.specs.Orders.{IsOrdered};
ghost use Rattle.sal_module_table.specs.Filled as spec;

use crate::order::{Order, order_of, out_of, stands_at};
use sal_restrict::YangType;
use sal_types::{NoMemory, Seq, Shared, append};
use std::alloc::Global;
use std::mem;

/// The type without values.
pub(crate) fn empty_type() -> YangType
    ensures { result ≡ spec.empty }
{
    YangType::Empty
}

/// A copy of the type of this number.
fn type_at(alloc: Global, all: &[YangType], k: usize) -> Result<YangType, NoMemory>
    ensures { IfOk result (λ t. t ≡ spec.type_at all.now k) }
{
    if k < all.len() {
        all[k].copy(alloc)
    } else {
        Ok(YangType::Empty)
    }
}

/// Hands out the type of this number, and leaves the type without values.
pub(crate) fn take_type(all: &mut Vec<YangType>, k: usize) -> YangType
    ensures value { result ≡ spec.type_at all.old.items k }
    ensures others { (j : ℕ) → k < j → spec.type_at all.new.items j ≡ spec.type_at all.old.items j }
{
    if k < all.len() {
        return mem::replace(&mut all[k], YangType::Empty);
    }
    YangType::Empty
}

/// Copies of the types of these numbers.
fn types_at(alloc: Global, all: &[YangType], numbers: &[usize]) -> Result<Vec<YangType>, NoMemory>
    ensures { IfOk result (λ types. types.items ≡ map (spec.type_at all.now) numbers.now) }
{
    let mut types = Vec::with_capacity(alloc, numbers.len())?;
    for k in numbers {
        append(&mut types, type_at(alloc, all, *k)?)?;
    }
    Ok(types)
}

// ---- one type

fn push_copies(out: &mut Vec<YangType>, alloc: Global, types: &[YangType]) -> Result<(), NoMemory>
    ensures { IfOk result (λ _. out.new.items ≡ out.old.items ++ types.now) }
{
    for t in types {
        append(out, t.copy(alloc)?)?;
    }
    Ok(())
}

/// Appends the members of a union, or the type as its only member.
fn push_members(out: &mut Vec<YangType>, alloc: Global, t: YangType) -> Result<(), NoMemory>
    ensures { IfOk result (λ _. out.new.items ≡ out.old.items ++ members_of t (out-YangType t)) }
{
    match t {
        YangType::Union { members } => push_copies(out, alloc, members.items()),
        other => {
            append(out, other)?;
            Ok(())
        }
    }
}

fn is_reference(t: &YangType) -> bool
    ensures { result ≡ spec.is_reference (out-YangType t.now) }
{
    match t {
        YangType::Leafref { .. } => true,
        _ => false,
    }
}

/// Appends a member of a union, or the next target's type if it is a leafref.
fn push_filled(
    out: &mut Vec<YangType>,
    alloc: Global,
    member: &YangType,
    types: &[YangType],
) -> Result<(), NoMemory>
    ensures { IfOk result (λ _. out.new.items ≡ out.old.items ++ spec.filled_member member.now types.now) }
{
    if is_reference(member) {
        let t = type_at(alloc, types, 0)?;
        push_members(out, alloc, t)
    } else {
        append(out, member.copy(alloc)?)?;
        Ok(())
    }
}

fn left_after<'t>(member: &YangType, types: &'t [YangType]) -> &'t [YangType]
    ensures { result.now ≡ spec.left_after member.now types.now }
{
    if is_reference(member) && types.len() > 0 {
        &types[1..]
    } else {
        types
    }
}

fn filled_members(
    alloc: Global,
    members: &[YangType],
    types: &[YangType],
) -> Result<Vec<YangType>, NoMemory>
    ensures { IfOk result (λ all. all.items ≡ spec.filled_members members.now types.now) }
{
    let mut out = Vec::with_capacity(alloc, members.len())?;
    let mut rest = types;
    for member in members {
        push_filled(&mut out, alloc, member, rest)?;
        rest = left_after(member, rest);
    }
    Ok(out)
}

/// The type, with the types of the targets of its leafrefs in their order.
fn filled(alloc: Global, t: &YangType, types: &[YangType]) -> Result<YangType, NoMemory>
    ensures { IfOk result (λ it. it ≡ spec.filled t.now types.now) }
{
    match t {
        YangType::Leafref { .. } => type_at(alloc, types, 0),
        YangType::Union { members } => {
            let all = filled_members(alloc, members.items(), types)?;
            Ok(YangType::Union {
                members: Seq::from_items(all),
            })
        }
        _ => t.copy(alloc),
    }
}

// ---- all types

/// The stated type of this number, with the types of the targets of its leafrefs in their order.
fn own_filled(
    alloc: Global,
    own: &[Shared<YangType>],
    types: &[YangType],
    k: usize,
) -> Result<YangType, NoMemory>
    ensures { IfOk result (λ t. t ≡ spec.filled (spec.type_at own.now k) types.now) }
{
    if k < own.len() {
        filled(alloc, own[k].value(), types)
    } else {
        filled(alloc, &empty_type(), types)
    }
}

fn filled_at(
    alloc: Global,
    own: &[Shared<YangType>],
    edges: &[Vec<usize>],
    all: &[YangType],
    k: usize,
) -> Result<YangType, NoMemory>
    ensures { IfOk result (λ t. t ≡ spec.filled_at own.now (lists edges.now) (spec.type_at all.now) k) }
{
    let types = types_at(alloc, all, out_of(edges, k))?;
    own_filled(alloc, own, &types, k)
}

/// Computes the type of this number from those of its targets.
fn place_type(
    all: &mut Vec<YangType>,
    alloc: Global,
    own: &[Shared<YangType>],
    edges: &[Vec<usize>],
    k: usize,
) -> Result<(), NoMemory>
    requires { length all.old.items ≡ length edges.now }
    ensures count { IfOk result (λ _. length all.new.items ≡ length all.old.items) }
    ensures each { IfOk result (λ _. (j : ℕ) → j < length all.old.items → slice_index_or all.new.items j spec.empty ≡
        (if k == j then spec.filled_at own.now (lists edges.now) (spec.type_at all.old.items) j else slice_index_or all.old.items j spec.empty)) }
{
    if k < edges.len() {
        let t = filled_at(alloc, own, edges, all, k)?;
        all[k] = t;
    }
    Ok(())
}

fn empty_types(alloc: Global, count: usize) -> Result<Vec<YangType>, NoMemory>
    ensures { IfOk result (λ all. length all.items ≡ count) }
{
    let mut all = Vec::with_capacity(alloc, count)?;
    for _i in 0..count {
        append(&mut all, YangType::Empty)?;
    }
    Ok(all)
}

fn types_by(
    alloc: Global,
    own: &[Shared<YangType>],
    edges: &[Vec<usize>],
    order: &Order,
) -> Result<Vec<YangType>, NoMemory>
    requires { IsOrdered (lists edges.now) order.now.ranks.items order.now.order.items }
    ensures count { IfOk result (λ all. length all.items ≡ length edges.now) }
    ensures each { IfOk result (λ all. (k : ℕ) → k < length edges.now → spec.type_at all.items k ≡ spec.type_of_node own.now (lists edges.now) k) }
{
    let mut all = empty_types(alloc, edges.len())?;
    for r in 0..order.order.len() {
        let k = stands_at(&order.order, r, edges.len());
        place_type(&mut all, alloc, own, edges, k)?;
    }
    Ok(all)
}

/// The type of one node, in at most this many steps.
fn type_in(
    alloc: Global,
    own: &[Shared<YangType>],
    edges: &[Vec<usize>],
    steps: usize,
    k: usize,
) -> Result<YangType, NoMemory>
    ensures { IfOk result (λ t. t ≡ spec.node_type own.now (lists edges.now) steps k) }
{
    if steps == 0 {
        return Ok(empty_type());
    }
    let mut types = Vec::new(alloc);
    for target in out_of(edges, k) {
        append(&mut types, type_in(alloc, own, edges, steps - 1, *target)?)?;
    }
    let t = own_filled(alloc, own, &types, k)?;
    Ok(t)
}

/// The types of all nodes, for edges that may have cycles.
fn types_slowly(
    alloc: Global,
    own: &[Shared<YangType>],
    edges: &[Vec<usize>],
) -> Result<Vec<YangType>, NoMemory>
    ensures count { IfOk result (λ all. length all.items ≡ length edges.now) }
    ensures each { IfOk result (λ all. (k : ℕ) → k < length edges.now → spec.type_at all.items k ≡ spec.type_of_node own.now (lists edges.now) k) }
{
    let mut all = Vec::with_capacity(alloc, edges.len())?;
    for k in 0..edges.len() {
        append(&mut all, type_in(alloc, own, edges, edges.len(), k)?)?;
    }
    Ok(all)
}

/// The type of each node, from its stated type and the targets of the leafrefs in that type, in their order.
///
/// Each is made once, after those of its targets. If a path leads into a cycle, which is a fault found before, each
/// path is followed by itself.
fn filled_types(
    alloc: Global,
    own: &[Shared<YangType>],
    edges: &[Vec<usize>],
) -> Result<Vec<YangType>, NoMemory>
    ensures count { IfOk result (λ all. length all.items ≡ length edges.now) }
    ensures each { IfOk result (λ all. (k : ℕ) → k < length edges.now → spec.type_at all.items k ≡ spec.type_of_node own.now (lists edges.now) k) }
{
    match order_of(alloc, edges)? {
        None => types_slowly(alloc, own, edges),
        Some(order) => types_by(alloc, own, edges, &order),
    }
}

/// The same for types that the function owns.
pub(crate) fn filled_of(
    alloc: Global,
    own: Vec<Shared<YangType>>,
    edges: &[Vec<usize>],
) -> Result<Vec<YangType>, NoMemory>
    ensures count { IfOk result (λ all. length all.items ≡ length edges.now) }
    ensures each { IfOk result (λ all. (k : ℕ) → k < length edges.now → spec.type_at all.items k ≡ spec.type_of_node own.items (lists edges.now) k) }
{
    filled_types(alloc, &own, edges)
}
