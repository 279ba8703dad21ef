//! The picture of a log; the places of a schema; the log of a book of owners.
use super::Unmade;
use super::played::{A_MARK, AN_RPC, TWO_DOMAINS, hub_of};
use sal::{draw_log, is_place};
use sal_hub::Hub;
use sal_owner::{Entity, OwnerBook, OwnerCall, OwnerEntry};
use sal_schema::Schema;
use sal_types::{Path, PathFault, Step, Store, Str};
use std::alloc::Global;

// ---- pictures

// How often the word occurs in the text.
fn count(text: &[u8], word: &str) -> usize {
    let mut found = 0usize;
    for at in 0..text.len() {
        if text[at..].starts_with(word.as_bytes()) {
            found = found.wrapping_add(1);
        }
    }
    found
}

// How many entries have a row, and how many lines there are from marks and from commits that conflicts name. The legend has one more of each that is
// drawn.
fn drawn(alloc: Global, hub: &Hub) -> [usize; 3] {
    match draw_log(alloc, hub) {
        Ok(text) => [
            count(text.items(), "<text class='place'"),
            count(text.items(), "<polyline class='found'"),
            count(text.items(), "<polyline class='clash'"),
        ],
        Err(_) => [0; 3],
    }
}

fn is_drawn(alloc: Global, script: &str, wanted: [usize; 3]) -> bool {
    match hub_of(alloc, script) {
        Ok(hub) => drawn(alloc, &hub) == wanted,
        Err(_) => false,
    }
}

/// Whether the logs of two scripts have pictures, with a row for each entry and these lines.
pub(crate) fn pictures_of_logs(alloc: Global) -> bool {
    is_drawn(alloc, A_MARK, [2, 2, 0]) && is_drawn(alloc, TWO_DOMAINS, [17, 0, 2])
}

// ---- places

// The path of these nodes, from the top on.
fn path_of(alloc: Global, nodes: &[u32]) -> Result<Path, PathFault> {
    let mut path = Path::root(alloc);
    for node in nodes {
        path.push(Step::Node(*node))?;
    }
    Ok(path)
}

// Whether it is so that this path is a place.
fn is_so(alloc: Global, schema: &Schema, nodes: &[u32], so: bool) -> bool {
    match path_of(alloc, nodes) {
        Ok(path) => is_place(schema, Store::Config, &path) == so,
        Err(_) => false,
    }
}

fn are_places(alloc: Global, schema: &Schema) -> bool {
    is_so(alloc, schema, &[], true)
        && is_so(alloc, schema, &[0], true)
        && is_so(alloc, schema, &[1, 2], true)
        && is_so(alloc, schema, &[2], false)
        && is_so(alloc, schema, &[3], false)
        && is_so(alloc, schema, &[4], false)
        && is_so(alloc, schema, &[4, 5], false)
        && is_so(alloc, schema, &[9], false)
}

/// Whether the root, a leaf, and a leaf in a container are places; and a node below another one than its parent, an RPC, its input, what is in it, and a
/// node that the schema does not have, are none.
pub(crate) fn places_of_a_schema(alloc: Global) -> bool {
    match hub_of(alloc, AN_RPC) {
        Ok(hub) => match hub.domains() {
            [own] => are_places(alloc, &own.schema),
            _ => false,
        },
        Err(_) => false,
    }
}

// ---- owners

fn entity(alloc: Global) -> Result<Entity, Unmade> {
    let kind = Str::new(alloc, "sw")?;
    let id = Str::new(alloc, "s1")?;
    Ok(Entity { kind, id })
}

// A book in which client 3 comes and client 4 goes, which is refused.
fn book(alloc: Global) -> Result<OwnerBook, Unmade> {
    let mut book = OwnerBook::new(alloc);
    book.register(alloc, 3, entity(alloc)?)?;
    match book.unregister(alloc, 4, entity(alloc)?) {
        Ok(()) => Err(Unmade),
        Err(_) => Ok(book),
    }
}

fn are_both(log: &[OwnerEntry]) -> bool {
    match log {
        [one, two] => {
            one.client == 3
                && two.client == 4
                && matches!(one.call, OwnerCall::Register(_))
                && matches!(two.call, OwnerCall::Unregister(_))
        }
        _ => false,
    }
}

/// Whether a book without calls has no entry, and that book has both, moved out of it.
pub(crate) fn the_log_of_a_book(alloc: Global) -> bool {
    match book(alloc) {
        Ok(book) => {
            are_both(book.into_log().items()) && OwnerBook::new(alloc).into_log().items().is_empty()
        }
        Err(_) => false,
    }
}
