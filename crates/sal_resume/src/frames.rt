//! The frames of a hub's domain.
ghost use Rattle.std.specs.Prelude.{◌≡◌, ◌<◌, length, map};
ghost use Rattle.sal_graft.specs.Kept.{AreKept};
ghost use Rattle.sal_history.specs.History.{history};
ghost use Rattle.sal_history.specs.Versions.{tables_now};
ghost use Rattle.sal_follow.specs.Framed.{Exports, ExportsOn, ExportsSince, IsSnapshot, trees_of};
ghost use Rattle.sal_resume.specs.Committed.{committed};
ghost use Rattle.sal_resume.specs.Newest.{newest};

use sal_commit::Domain;
use sal_follow::{ExportFault, NextFrame, export_on, snapshot_of};
use sal_hub::Hub;
use sal_schema::Schema;
use sal_types::Bytes;
use std::alloc::Global;

// The frames of its commits by the schema, from the next one on.
fn domain_frames(
    alloc: Global,
    schema: &Schema,
    domain: &Domain,
    next: NextFrame,
) -> Result<Bytes, ExportFault>
    requires { AreKept domain.now.commits.items }
    ensures { ExportsOn schema.now (map trees_of domain.now.commits.items) next.commit next.number result }
{
    export_on(alloc, schema, &domain.commits, next)
}

/// The frames of the domain's opening and of all its commits, by the present version of its schema.
///
/// A follower of these bytes by that schema has the newest trees of the domain (`laws::frames_lead_to_the_newest`).
pub fn frames_of(alloc: Global, hub: &Hub, domain: u32) -> Result<Bytes, ExportFault>
    requires { domain < length hub.now.world }
    ensures { Exports (tables_now hub.now.world (history hub.now.world hub.now.log) domain) (committed hub.now domain) result }
{
    frames_since(alloc, hub, domain, 0)
}

/// The frames of the domain's commits from that of this number on: the rest of a stream that has the frames before it. There are none if the
/// newest commit has a smaller number.
pub fn frames_since(alloc: Global, hub: &Hub, domain: u32, from: u64) -> Result<Bytes, ExportFault>
    requires { domain < length hub.now.world }
    ensures { ExportsSince (tables_now hub.now.world (history hub.now.world hub.now.log) domain) (committed hub.now domain) from result }
{
    let next = NextFrame {
        commit: from,
        number: from,
    };
    frames_on(alloc, hub, domain, next)
}

/// The frames of the domain's commits from a commit on, numbered from the number of the next frame on.
///
/// They continue a stream over epochs: after the frames of one epoch come those of the next hub from its commit 1 on, with the next numbers. While
/// the schema's version stays, a follower of the stream does not notice (`laws::streams_go_on_over_epochs`).
pub fn frames_on(
    alloc: Global,
    hub: &Hub,
    domain: u32,
    next: NextFrame,
) -> Result<Bytes, ExportFault>
    requires { domain < length hub.now.world }
    ensures { ExportsOn (tables_now hub.now.world (history hub.now.world hub.now.log) domain) (committed hub.now domain) next.commit next.number result }
{
    let domain = &hub.domains()[domain as usize];
    domain_frames(alloc, &domain.schema, domain, next)
}

/// The same by another version of the domain's schema: by the last one, a stream has one table whatever upgrades come.
pub fn frames_by(
    alloc: Global,
    schema: &Schema,
    hub: &Hub,
    domain: u32,
    next: NextFrame,
) -> Result<Bytes, ExportFault>
    requires { domain < length hub.now.world }
    ensures { ExportsOn schema.now (committed hub.now domain) next.commit next.number result }
{
    domain_frames(alloc, schema, &hub.domains()[domain as usize], next)
}

/// The same of the controller's own domain.
pub fn own_frames(
    alloc: Global,
    schema: &Schema,
    hub: &Hub,
    next: NextFrame,
) -> Result<Bytes, ExportFault>
    ensures { ExportsOn schema.now (committed hub.now 0) next.commit next.number result }
{
    hub.stays_lawful();
    domain_frames(alloc, schema, &hub.domains()[0], next)
}

/// The frame with all rows of the domain's newest commit, and this number: a stream may begin with it, and goes on with `frames_on` from the next
/// commit on (`laws::streams_begin_anywhere` of `sal_follow`).
pub fn snapshot_of_newest(
    alloc: Global,
    hub: &Hub,
    domain: u32,
    number: u64,
) -> Result<Bytes, ExportFault>
    requires { domain < length hub.now.world }
    ensures { IsSnapshot (tables_now hub.now.world (history hub.now.world hub.now.log) domain) number (newest hub.now domain) result }
{
    let trees = hub.trees_of(domain);
    let domain = &hub.domains()[domain as usize];
    snapshot_of(alloc, &domain.schema, trees, number)
}

/// The same by another version of the domain's schema.
pub fn snapshot_by(
    alloc: Global,
    schema: &Schema,
    hub: &Hub,
    domain: u32,
    number: u64,
) -> Result<Bytes, ExportFault>
    requires { domain < length hub.now.world }
    ensures { IsSnapshot schema.now number (newest hub.now domain) result }
{
    snapshot_of(alloc, schema, hub.trees_of(domain), number)
}

/// The same of the controller's own domain.
pub fn own_snapshot(
    alloc: Global,
    schema: &Schema,
    hub: &Hub,
    number: u64,
) -> Result<Bytes, ExportFault>
    ensures { IsSnapshot schema.now number (newest hub.now 0) result }
{
    snapshot_of(alloc, schema, hub.trees(), number)
}
