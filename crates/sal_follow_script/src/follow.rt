//! From a script and a stream to the trees of a follower.
ghost use Rattle.std.specs.Prelude.{◌≡◌, ◌<◌, ◌≤◌, IfOk};
ghost use Rattle.sal_json.specs.Patterns.{patterns_of};
ghost use Rattle.sal_follow.specs.Stream.{followed, fresh};
ghost use Rattle.sal_prepare.specs.Texts.{IsTextOr};
ghost use Rattle.sal_follow_script.specs.Follows as spec;
ghost use Rattle.sal_follow_script.specs.Taken.{IsTaken};

use crate::told::{fault_status, told};
use sal_follow::{FollowFault, Follower, laws};
use sal_prepare::own_schema::{OwnSchema, own_schema};
use sal_prepare::parted::{TwoParts, two_parts};
use sal_prepare::scripted::script_of;
use sal_prepare::status::Status;
use sal_schema::Schema;
use sal_types::{NoMemory, Str};
use std::alloc::Global;
use std::sync::Arc;

// The number of bytes of a stream that are fed at once.
const PIECE: usize = 4096;

/// The line of domain 0 with the trees of a follower at the end of a stream. The input is a script, of which only its own modules
/// and upgrades are used, a zero byte, and the stream. Or the status of the first fault.
pub fn follow_text(alloc: Global, bytes: &[u8]) -> Result<Str, Status>
    ensures { IsTextOr (spec.follow_text bytes.now) result }
{
    match two_parts(bytes) {
        Some(parts) => follow_parts(alloc, parts),
        None => Err(Status::NoPart),
    }
}

// The same from the two parts.
fn follow_parts(alloc: Global, input: TwoParts<'_>) -> Result<Str, Status>
    ensures { IsTextOr (spec.follow_parts (record { first = input.entry.first.now; second = input.entry.second.now })) result }
{
    let script = script_of(alloc, input.first)?;
    let own = own_schema(alloc, &script)?;
    follow_stream(alloc, own, input.second)
}

/// The line of domain 0 by this schema, with the trees of a follower at the end of the stream; or the status of its first fault.
pub fn follow_stream(alloc: Global, own: OwnSchema, stream: &[u8]) -> Result<Str, Status>
    requires { own.patterns ≡ patterns_of own.schema.value }
    ensures { IsTextOr (spec.told own.schema.value (followed own.schema.value fresh stream.now)) result }
{
    laws::places_count_bytes();
    let OwnSchema { schema, patterns } = own;
    let shared = shared(&schema)?;
    let mut follower = Follower::new(alloc, shared, patterns)?;
    match feed_all(&mut follower, stream) {
        Ok(()) => told(alloc, &schema, &follower, stream.len() as u64),
        Err(fault) => Err(fault_status(alloc, fault)),
    }
}

// The schema, shared.
fn shared(schema: &Arc<Schema>) -> Result<Arc<Schema>, NoMemory>
    ensures { IfOk result (λ it. it.value ≡ schema.now.value) }
{
    let schema = Arc::try_clone(schema)?;
    Ok(schema)
}

// Feeds the stream, piece by piece, up to the first fault.
fn feed_all(follower: &mut Follower, stream: &[u8]) -> Result<(), FollowFault>
    requires { follower.old.held ≡ fresh }
    ensures { IsTaken stream.now follower.old follower.new result }
{
    laws::places_count_bytes();
    let mut fed = 0;
    while fed < stream.len() {
        let end = piece_end(fed, stream.len());
        follower.feed(&stream[fed..end])?;
        fed = end;
    }
    Ok(())
}

// The end of the piece that begins at `at`, in a stream of `bytes` bytes.
fn piece_end(at: usize, bytes: usize) -> usize
    requires { at < bytes }
    ensures some { at < result }
    ensures within { result ≤ bytes }
{
    if bytes - at > PIECE {
        at + PIECE
    } else {
        bytes
    }
}
