//! The state of a follower at the end of a stream, as text; and its faults.
ghost use Rattle.std.specs.Prelude.{◌≡◌, ◌+◌, ◌++◌, IfOk, None, Ok, codes, decimal, length};
ghost use Rattle.sal_prepare.specs.Texts.{IsTextOr};
ghost use Rattle.sal_follow_script.specs.Follows as spec;
ghost use Rattle.sal_follow_script.specs.Taken.{IsFaultStatus, IsUnfinished, line_held};

use sal_follow::{FollowFault, Follower};
use sal_prepare::status::Status;
use sal_report::{DomainEnd, tree_line};
use sal_schema::Schema;
use sal_tree::Pair;
use sal_types::{Duplicate, NoMemory, Store, Str};
use std::alloc::Global;
use std::slice;
use std::sync::Arc;

/// The line of domain 0 after this many bytes without a fault, if the follower has a commit and no byte of another frame remains.
pub(crate) fn told(
    alloc: Global,
    schema: &Arc<Schema>,
    follower: &Follower,
    bytes: u64,
) -> Result<Str, Status>
    requires going { follower.now.held.fault ≡ None }
    requires size { follower.now.held.at + length follower.now.held.rest ≡ bytes }
    ensures { IsTextOr (spec.told schema.now.value follower.now.held) result }
{
    let waiting = follower.waiting();
    match follower.version() {
        Some(commit) if waiting == 0 => held_line(alloc, schema, follower, commit),
        _ => Err(unfinished(alloc, bytes - waiting)),
    }
}

// The line of domain 0 with the follower's trees, which are those of this commit.
fn held_line(
    alloc: Global,
    schema: &Arc<Schema>,
    follower: &Follower,
    commit: u64,
) -> Result<Str, Status>
    ensures { IsTextOr (Ok (line_held schema.now.value follower.now.held commit)) result }
{
    let trees = Pair {
        config: follower.tree(Store::Config).copy()?,
        oper: follower.tree(Store::Oper).copy()?,
    };
    let end = DomainEnd {
        domain: 0,
        commits: commit,
        trees: &trees,
    };
    let line = tree_line(alloc, slice::from_ref(schema), &end)?;
    Ok(line)
}

/// The status of a fault.
pub(crate) fn fault_status(alloc: Global, fault: FollowFault) -> Status
    ensures { IsFaultStatus fault result }
{
    match fault_text(alloc, fault) {
        Ok(text) => Status::BadStream { text },
        Err(NoMemory) => Status::NoMemory,
    }
}

fn fault_text(alloc: Global, fault: FollowFault) -> Result<Str, NoMemory>
    ensures { IfOk result (λ text. spec.fault_status fault ≡ Status.BadStream text) }
{
    let mut text = String::new(alloc);
    match fault {
        FollowFault::BadFrame { at } => write!(text, "bad-frame {at}")?,
        FollowFault::Gap { want, got } => write!(text, "gap {want} {got}")?,
        FollowFault::NoMemory => return Err(NoMemory),
    }
    Ok(Str::from_string(text))
}

// The status of a stream that ends within the frame that begins at this offset.
fn unfinished(alloc: Global, at: u64) -> Status
    ensures { IsUnfinished at result }
{
    match unfinished_text(alloc, at) {
        Ok(text) => Status::BadStream { text },
        Err(NoMemory) => Status::NoMemory,
    }
}

fn unfinished_text(alloc: Global, at: u64) -> Result<Str, NoMemory>
    ensures { IfOk result (λ text. text ≡ codes "unfinished " ++ decimal at) }
{
    let mut text = String::new(alloc);
    write!(text, "unfinished {at}")?;
    Ok(Str::from_string(text))
}
