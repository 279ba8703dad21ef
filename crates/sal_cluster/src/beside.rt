//! A follower that counts what it was fed.
ghost use Rattle.std.specs.Prelude.{◌≡◌, ◌<◌, ◌+◌, ◌^◌, IfOk, length};
ghost use Rattle.sal_json.specs.Patterns.{patterns_of};
ghost use Rattle.sal_follow.specs.Fed.{IsFedBy};
ghost use Rattle.sal_follow.specs.Stream.{fresh_at};
ghost use Rattle.sal_cluster.specs.StandBys.{KeepsUp, Stays, Takes};

use sal_follow::laws::places_count_bytes;
use sal_follow::{FollowFault, Follower};
use sal_json::Patterns;
use sal_schema::Schema;
use sal_types::NoMemory;
use std::alloc::Global;
use std::marker::Model;
use std::sync::Arc;

/// A follower that takes any bytes: it counts them. A contract sees the follower.
#[derive(Drop)]
pub struct Beside {
    follower: Follower,
    // The number of the first frame and the bytes received are at most this.
    fed: u64,
}

impl Model for Beside {
    ghost use Rattle.sal_follow.specs.States.{Following};
    ghost use Rattle.sal_follow.specs.contracts.follower.Follower as e;

    ghost Value = { Following };

    ghost coded = { e.the_row.coded };

    ghost use Rattle.sal_follow.specs.Fed.{IsFedBy};

    ghost view = { λ b. b.follower };

    ghost invariant = { λ b. IsFedBy b.fed b.follower };
}

impl Beside {
    /// A follower by this schema, before a stream that begins with the frame of this number.
    pub(crate) fn before(alloc: Global, schema: Arc<Schema>, first: u64) -> Result<Beside, NoMemory>
        ensures { IfOk result (λ f. f ≡ record { schema = schema.value; held = fresh_at first }) }
    {
        let patterns = patterns_by(alloc, &schema)?;
        let follower = Follower::before(alloc, schema, patterns, first)?;
        Ok(Beside {
            follower,
            fed: first,
        })
    }

    /// Takes the next piece of the stream. If memory runs out, nothing of it was taken. After another fault it returns this fault from then on.
    pub(crate) fn feed(&mut self, piece: &[u8]) -> Result<(), FollowFault>
        ensures taken { Takes piece.now self.old self.new result }
        ensures leader { KeepsUp piece.now self.old self.new result }
        ensures schema { self.new.schema ≡ self.old.schema }
    {
        let Some(after) = self.fed.checked_add(piece.len() as u64) else {
            return Err(without_room(&self.follower));
        };
        let fed = self.fed;
        self.fed = after;
        feed_behind(&mut self.follower, fed, piece)
    }

    /// The follower.
    pub(crate) fn follower(&self) -> &Follower
        ensures { result.now ≡ self.now }
    {
        &self.follower
    }
}

// The patterns of a schema. They are well formed, since the readers have them; so only memory can run out.
fn patterns_by(alloc: Global, schema: &Schema) -> Result<Patterns, NoMemory>
    ensures { IfOk result (λ patterns. patterns ≡ patterns_of schema.now) }
{
    match Patterns::of(alloc, schema) {
        Ok(patterns) => Ok(patterns),
        Err(_) => Err(NoMemory),
    }
}

// The answer to a piece for whose bytes there is no number: the fault of the stream, as ever; else as without memory.
fn without_room(follower: &Follower) -> FollowFault
    ensures { Stays follower.now result }
{
    match follower.fault() {
        Some(fault) => fault,
        None => FollowFault::NoMemory,
    }
}

// Feeds a piece to a follower whose first number and bytes are at most `fed`.
fn feed_behind(follower: &mut Follower, fed: u64, piece: &[u8]) -> Result<(), FollowFault>
    requires counted { IsFedBy fed follower.old }
    requires few { fed + length piece.now < 2 ^ 64 }
    ensures taken { Takes piece.now follower.old follower.new result }
    ensures counted { IsFedBy (fed + length piece.now) follower.new }
    ensures schema { follower.new.schema ≡ follower.old.schema }
{
    places_count_bytes();
    match follower.feed(piece) {
        Ok(_) => Ok(()),
        Err(fault) => Err(fault),
    }
}
