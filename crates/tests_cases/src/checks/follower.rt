//! Followers of the schema of a script.
ghost use Rattle.std.specs.Prelude.{◌≡◌, ◌+◌, ◌<◌, ◌^◌, IfOk, length};
ghost use Rattle.sal_follow.specs.Stream.{fresh};
ghost use Rattle.sal_follow.specs.Fed.{IsFedBy};

use sal_follow::{FollowFault, Follower, laws};
use sal_prepare::own_schema::{OwnSchema, own_schema};
use sal_prepare::scripted::script_of;
use sal_prepare::status::Status;
use sal_types::Store;
use std::alloc::Global;

/// A follower at the start of a stream, by the schema of the script's own modules.
pub(crate) fn follower_of(alloc: Global, script: &[u8]) -> Result<Follower, Status>
    ensures { IfOk result (IsFedBy 0) }
{
    let script = script_of(alloc, script)?;
    let own = own_schema(alloc, &script)?;
    let OwnSchema { schema, patterns } = own;
    let follower = Follower::new(alloc, schema, patterns)?;
    Ok(follower)
}

/// Feeds a piece to a follower that has received at most `before` bytes.
pub(crate) fn feed(
    follower: &mut Follower,
    before: u64,
    piece: &[u8],
) -> Result<Option<u64>, FollowFault>
    requires fed { IsFedBy before follower.old }
    requires few { before + length piece.now < 2 ^ 64 }
    ensures { IsFedBy (before + length piece.now) follower.new }
{
    laws::places_count_bytes();
    follower.feed(piece)
}

/// Whether the follower has the commit, with `rows` rows in the configuration, none in the other tree, and no byte of another frame.
pub(crate) fn holds(follower: &Follower, commit: u64, rows: usize) -> bool {
    let (Ok(config), Ok(oper)) = (follower.rows(Store::Config), follower.rows(Store::Oper)) else {
        return false;
    };
    follower.version() == Some(commit)
        && follower.waiting() == 0
        && config.items().len() == rows
        && oper.items().is_empty()
}
