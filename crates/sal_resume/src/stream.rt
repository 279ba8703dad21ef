//! A follower of a whole stream.
ghost use Rattle.std.specs.Prelude.{◌≡◌};
ghost use Rattle.sal_json.specs.Patterns.{patterns_of};
ghost use Rattle.sal_resume.specs.Streamed.{IsFollowerOf, before_of};

use sal_follow::{FollowFault, Follower};
use sal_json::Patterns;
use sal_schema::Schema;
use sal_types::NoMemory;
use std::alloc::Global;
use std::sync::Arc;

// The follower after the stream, if all of it is valid.
fn fed(mut follower: Follower, stream: &[u8]) -> Result<Follower, FollowFault>
    requires { follower ≡ before_of follower.schema }
    ensures { IsFollowerOf follower.schema stream.now result }
{
    match follower.feed(stream) {
        Ok(_) => Ok(follower),
        Err(fault) => Err(fault),
    }
}

/// A follower that has taken the stream, such as one from a file; or the stream's first fault.
pub fn follower_of(
    alloc: Global,
    schema: Arc<Schema>,
    patterns: Patterns,
    stream: &[u8],
) -> Result<Follower, FollowFault>
    requires { patterns ≡ patterns_of schema.value }
    ensures { IsFollowerOf schema.value stream.now result }
{
    match Follower::new(alloc, schema, patterns) {
        Ok(follower) => fed(follower, stream),
        Err(NoMemory) => Err(FollowFault::NoMemory),
    }
}
