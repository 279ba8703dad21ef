//! Orders in which typedefs are settled: those that one names come before it, unless there is a cycle.
//!
//! No clause says so. A typedef that comes too early is not settled, and each type that names it is judged by a search.

use crate::block::Block;
use crate::builtin::builtin_of;
use crate::name::local;
use crate::typedefs::Typedefs;
use sal_module::{Keyword, argument_of, first_named, is_named, value_of};
use sal_stmt::Stmt;
use sal_types::NoMemory;
use std::alloc::Global;

/// The largest depth of nested unions.
const MAX_BLOCKS: u32 = 64;

/// The numbers for which each number waits.
type Uses = Vec<Vec<usize>>;

fn none_for_each(alloc: Global, count: usize) -> Result<Uses, NoMemory> {
    let mut all = Vec::with_capacity(alloc, count)?;
    for _k in 0..count {
        all.push(Vec::new(alloc))?;
    }
    Ok(all)
}

fn add_to(all: &mut Uses, k: usize, used: usize) -> Result<(), NoMemory> {
    if k < all.len() {
        all[k].push(used)?;
    }
    Ok(())
}

/// For each number those that wait for it, and how many each waits for.
fn turned(alloc: Global, uses: &[Vec<usize>]) -> Result<(Vec<usize>, Uses), NoMemory> {
    let mut counts = Vec::with_capacity(alloc, uses.len())?;
    let mut users = none_for_each(alloc, uses.len())?;
    for (k, out) in uses.iter().enumerate() {
        counts.push(out.len())?;
        for used in out {
            add_to(&mut users, *used, k)?;
        }
    }
    Ok((counts, users))
}

/// One fewer to wait for. A number that waits for none is ready.
fn count_down(counts: &mut Vec<usize>, ready: &mut Vec<usize>, k: usize) -> Result<(), NoMemory> {
    if k < counts.len() {
        if counts[k] == 1 {
            ready.push(k)?;
        }
        counts[k] = counts[k].saturating_sub(1);
    }
    Ok(())
}

fn count_users(
    counts: &mut Vec<usize>,
    ready: &mut Vec<usize>,
    users: &[Vec<usize>],
    k: usize,
) -> Result<(), NoMemory> {
    if k < users.len() {
        for user in &users[k] {
            count_down(counts, ready, *user)?;
        }
    }
    Ok(())
}

/// The numbers that wait for none.
fn ready_of(alloc: Global, counts: &[usize]) -> Result<Vec<usize>, NoMemory> {
    let mut ready = Vec::new(alloc);
    for (k, count) in counts.iter().enumerate() {
        if *count == 0 {
            ready.push(k)?;
        }
    }
    Ok(ready)
}

/// The numbers, each after those for which it waits. Those that wait for a cycle are left out.
fn order_of(alloc: Global, uses: &[Vec<usize>]) -> Result<Vec<usize>, NoMemory> {
    let (counts, users) = turned(alloc, uses)?;
    let mut counts = counts;
    let mut ready = ready_of(alloc, counts.as_slice())?;
    let mut order = Vec::with_capacity(alloc, uses.len())?;
    for _i in 0..uses.len() {
        match ready.pop() {
            None => break,
            Some(k) => {
                order.push(k)?;
                count_users(&mut counts, &mut ready, users.as_slice(), k)?;
            }
        }
    }
    Ok(order)
}

// ---- typedefs of a block

/// The index in the block of the typedef of a name, if it is one of the block.
fn typedef_named(typedefs: &Typedefs, number: u32, block: &Block, name: &str) -> Option<usize> {
    if builtin_of(name).is_some() {
        return None;
    }
    match typedefs.module_of(number, name) {
        Some(m) if m == number => block.slot(local(name)),
        _ => None,
    }
}

/// Adds the typedefs of the block that a type statement names.
fn add_names(
    uses: &mut Uses,
    typedefs: &Typedefs,
    number: u32,
    block: &Block,
    k: usize,
    levels: u32,
    stmt: &Stmt,
) -> Result<(), NoMemory> {
    if let Some(used) = typedef_named(typedefs, number, block, argument_of(stmt)) {
        return add_to(uses, k, used);
    }
    if levels > 0 {
        for sub in stmt.subs.items() {
            if is_named(Keyword::Type, sub) {
                add_names(uses, typedefs, number, block, k, levels - 1, sub)?;
            }
        }
    }
    Ok(())
}

/// For each statement of a block, the typedefs there that it names, if it is a typedef.
fn uses_in(
    alloc: Global,
    typedefs: &Typedefs,
    number: u32,
    block: &Block,
) -> Result<Uses, NoMemory> {
    let stmts = block.stmt().subs.items();
    let mut uses = none_for_each(alloc, stmts.len())?;
    for (k, stmt) in stmts.iter().enumerate() {
        if !is_named(Keyword::Typedef, stmt) {
            continue;
        }
        if let Some(sub) = first_named(Keyword::Type, stmt.subs.items()) {
            add_names(&mut uses, typedefs, number, block, k, MAX_BLOCKS, sub)?;
        }
    }
    Ok(uses)
}

/// The indexes of the statements in the innermost block, a typedef after those of the block that it names.
pub(crate) fn order_in(
    alloc: Global,
    typedefs: &Typedefs,
    number: u32,
    around: &[Block],
) -> Result<Vec<usize>, NoMemory> {
    match around.last() {
        None => Ok(Vec::new(alloc)),
        Some(block) if !block.has_typedefs() => Ok(Vec::new(alloc)),
        Some(block) => {
            let uses = uses_in(alloc, typedefs, number, block)?;
            order_of(alloc, &uses)
        }
    }
}

// ---- modules

/// The number of a module as the look-ups have it.
pub(crate) fn number_of(m: usize) -> u32 {
    match u32::try_from(m) {
        Ok(number) => number,
        Err(_) => u32::MAX,
    }
}

/// For each module those that it imports.
fn imports_of(alloc: Global, typedefs: &Typedefs, stmts: &[Stmt]) -> Result<Uses, NoMemory> {
    let mut uses = none_for_each(alloc, stmts.len())?;
    for (m, stmt) in stmts.iter().enumerate() {
        for sub in stmt.subs.items() {
            if !is_named(Keyword::Import, sub) {
                continue;
            }
            if let Some(used) = typedefs.imported(number_of(m), value_of(Keyword::Prefix, sub)) {
                add_to(&mut uses, m, used as usize)?;
            }
        }
    }
    Ok(uses)
}

/// The numbers of the modules, each after those that it imports.
pub(crate) fn module_order(
    alloc: Global,
    typedefs: &Typedefs,
    stmts: &[Stmt],
) -> Result<Vec<usize>, NoMemory> {
    let uses = imports_of(alloc, typedefs, stmts)?;
    order_of(alloc, &uses)
}
