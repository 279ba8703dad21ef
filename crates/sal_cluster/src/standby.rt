//! A stand-by: followers of the domains of a script, that can become the leader.
ghost use Rattle.std.specs.Prelude.{◌≡◌, ◌<◌, true, IfOk, length, map};
ghost use Rattle.sal_cluster.specs.Looks.{Looks};
ghost use Rattle.sal_script.specs.Tables.{last_among, last_in};
ghost use Rattle.sal_follow.specs.Framed.{IsSnapshotAt};
ghost use Rattle.sal_follow.specs.Laws.{trees_held};
ghost use Rattle.sal_follow.specs.Stream.{fresh_at, rows_held};
ghost use Rattle.sal_prepare.specs.Scripted as spec;
ghost use Rattle.sal_cluster.specs.Leaders.{is_domain};
ghost use Rattle.sal_cluster.specs.StandBys.{FeedsAt, Leads, bare, before_from, first_of, follower_at, grounded, seen};

use crate::beside::Beside;
use crate::leader::Leader;
use crate::leading::led;
use crate::look::{LookFault, Place, look_in_tree, reader_of};
use sal_embed::{no_clients, no_order};
use sal_follow::{ExportFault, FollowFault, Follower};
use sal_prepare::resumed::{Ground, ground_of};
use sal_prepare::status::Status;
use sal_schema::Schema;
use sal_types::{Bytes, NoMemory, Str};
use std::alloc::Global;
use std::marker::Model;
use std::sync::Arc;

/// A follower of each domain, with what a broker over their trees needs.
#[derive(Drop)]
pub struct Standing {
    pub(crate) followers: Vec<Beside>,
    pub(crate) ground: Ground,
}

impl Standing {
    /// The followers, by domain.
    pub(crate) fn all(&self) -> &[Beside]
        ensures { result.now ≡ self.now.followers.items }
    {
        &self.followers
    }
}

/// Followers of the domains of a script, each by the last version of its schema, with what a broker over their trees needs. A contract sees the
/// followers, and the script with its schemas.
#[derive(Drop)]
pub struct StandBy {
    standing: Standing,
}

impl Model for StandBy {
    ghost use Rattle.std.specs.Prelude.{◌≡◌, length};
    ghost use Rattle.sal_cluster.specs.declared.standby.Standing.{Standing as Seen};
    ghost use Rattle.sal_cluster.specs.contracts.standby.Standing as e;

    ghost Value = { Seen };

    ghost coded = { e.the_row.coded };

    ghost view = { λ s. s.standing };

    ghost invariant = { λ s. length s.standing.followers.items ≡ length s.standing.ground.readers };
}

/// Why a stand-by does not lead.
#[derive(Drop)]
pub enum LeadFault {
    /// No frame of the controller's own domain came yet.
    Empty,
    /// The script has no such version, or the trees are no trees of it.
    BadVersion,
    /// The opening trees are refused, or memory ran out.
    Refused { status: Status },
}

impl StandBy {
    /// A stand-by of the broker of this script; or the first fault of the script, which has no clients and no order. Its opening trees are not read.
    /// The stream of each domain begins with the frame of the number that is given for it, of domain 0 first, and of number 0 if none is given.
    pub fn open(alloc: Global, script: &[u8], firsts: &[u64]) -> Result<StandBy, Status>
        ensures ground { spec.Comes (λ it. seen it.ground) (grounded script.now) result }
        ensures fresh { IfOk result (λ it. it.followers.items ≡ before_from firsts.now 0 (map last_among it.ground.readers)) }
    {
        let ground = bare_ground(alloc, script)?;
        match all_before(alloc, &ground, firsts) {
            Ok(followers) => Ok(StandBy {
                standing: Standing { followers, ground },
            }),
            Err(NoMemory) => Err(Status::NoMemory),
        }
    }

    /// Whether there is a domain of this number: 0 is the controller's own.
    pub fn has_domain(&self, domain: u32) -> bool
        ensures is { result ≡ is_domain domain (length self.now.followers.items) }
        ensures inside { result ≡ true → domain < length self.now.followers.items }
    {
        let followers = self.standing.all();
        if domain == 0 {
            return true;
        }
        (domain as usize) < followers.len()
    }

    /// How many domains there are.
    pub fn domains(&self) -> usize
        ensures { result ≡ length self.now.followers.items }
    {
        self.standing.followers.len()
    }

    /// Takes the next piece of the domain's stream. If memory runs out, nothing of it was taken. After another fault it returns this fault from then on.
    pub fn feed(&mut self, domain: u32, piece: &[u8]) -> Result<(), FollowFault>
        requires { domain < length self.old.followers.items }
        ensures feeds { FeedsAt self.old.followers.items self.new.followers.items domain piece.now result }
        ensures ground { self.new.ground ≡ self.old.ground }
    {
        feed_at(&mut self.standing.followers, domain as usize, piece)
    }

    /// The number of the domain's last frame; none before the first one.
    pub fn number(&self, domain: u32) -> Option<u64>
        requires { domain < length self.now.followers.items }
        ensures { result ≡ (follower_at self.now.followers.items domain).held.version }
    {
        self.follower(domain).version()
    }

    /// The frame of the domain's commit with all rows; none before its first frame.
    pub fn snapshot(&self, domain: u32) -> Option<Result<Bytes, ExportFault>>
        requires { domain < length self.now.followers.items }
        ensures { IsSnapshotAt (follower_at self.now.followers.items domain).schema (follower_at self.now.followers.items domain).held.version (trees_held (follower_at self.now.followers.items domain).held) result }
    {
        self.follower(domain).snapshot()
    }

    // The domain's follower.
    fn follower(&self, domain: u32) -> &Follower
        requires { domain < length self.now.followers.items }
        ensures { result.now ≡ follower_at self.now.followers.items domain }
    {
        self.standing.followers[domain as usize].follower()
    }

    /// The text of a read of the path in one of its trees.
    pub fn look(&self, alloc: Global, place: Place, path: &[u8]) -> Result<Str, LookFault>
        requires { place.domain < length self.now.followers.items }
        ensures { Looks (map last_among self.now.ground.readers) (last_in self.now.ground.readers place.domain) place.domain (rows_held (follower_at self.now.followers.items place.domain).held place.store) path.now result }
    {
        let ground = &self.standing.ground;
        let Place { domain, store } = place;
        let reader = reader_of(&ground.readers, domain);
        look_in_tree(
            alloc,
            domain,
            reader,
            &ground.schemas,
            self.follower(domain).tree(store),
            path,
        )
    }

    /// A leader that begins with its trees, by this version of the script's schema, and goes on with its numbers. An unfinished frame is left out. A
    /// device without a frame begins with the opening trees of the script. The stand-by stays as it is.
    pub fn lead(&self, alloc: Global, version: u32) -> Result<Leader, LeadFault>
        ensures { Leads self.now version result }
    {
        let standing = &self.standing;
        match self.number(0) {
            Some(base) => led(alloc, standing, base, version),
            None => Err(LeadFault::Empty),
        }
    }
}

// The script of the bytes with its schemas, if it has no clients and no order.
fn bare_ground(alloc: Global, script: &[u8]) -> Result<Ground, Status>
    ensures { spec.Comes seen (grounded script.now) result }
{
    let ground = ground_of(alloc, script)?;
    bare(alloc, &ground)?;
    Ok(ground)
}

// Whether the script has no clients and no order.
fn bare(alloc: Global, ground: &Ground) -> Result<(), Status>
    ensures { spec.Comes (λ done. seen ground.now) (bare (seen ground.now)) result }
{
    no_clients(alloc, &ground.script)?;
    no_order(alloc, &ground.script)
}

// A follower by each last version.
fn all_before(alloc: Global, ground: &Ground, firsts: &[u64]) -> Result<Vec<Beside>, NoMemory>
    ensures { IfOk result (λ it. it.items ≡ before_from firsts.now 0 (map last_among ground.now.readers)) }
{
    each_before(alloc, &ground.schemas, firsts)
}

// A follower by each of these schemas.
fn each_before(
    alloc: Global,
    schemas: &[Arc<Schema>],
    firsts: &[u64],
) -> Result<Vec<Beside>, NoMemory>
    ensures { IfOk result (λ it. it.items ≡ before_from firsts.now 0 (spec.tables_in schemas.now)) }
{
    let mut followers = Vec::new(alloc);
    for (domain, schema) in schemas.iter().enumerate() {
        let one = before(alloc, schema, first_of(firsts, domain))?;
        followers.push(one)?;
    }
    Ok(followers)
}

// The number of the domain's first frame.
fn first_of(firsts: &[u64], domain: usize) -> u64
    ensures { result ≡ first_of firsts.now domain }
{
    if domain < firsts.len() {
        return firsts[domain];
    }
    0
}

// A follower by this schema, which is shared.
fn before(alloc: Global, schema: &Arc<Schema>, first: u64) -> Result<Beside, NoMemory>
    ensures { IfOk result (λ f. f ≡ record { schema = schema.now.value; held = fresh_at first }) }
{
    let schema = Arc::try_clone(schema)?;
    let follower = Beside::before(alloc, schema, first)?;
    Ok(follower)
}

// Feeds a piece to the follower of this index.
fn feed_at(followers: &mut Vec<Beside>, index: usize, piece: &[u8]) -> Result<(), FollowFault>
    requires { index < length followers.old.items }
    ensures { FeedsAt followers.old.items followers.new.items index piece.now result }
{
    followers[index].feed(piece)
}
