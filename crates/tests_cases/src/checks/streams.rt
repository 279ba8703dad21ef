//! The frames of both domains of a hub, from any commit on; and a hub of a follower that took them whole.
ghost use Rattle.std.specs.Prelude.{◌≡◌, length};

use super::Unmade;
use super::played::{TWO_DOMAINS, has_two, hub_of};
use sal_commit::Domain;
use sal_follow::{ExportFault, Follower, NextFrame, export};
use sal_hub::Hub;
use sal_json::Patterns;
use sal_resume::{follower_of, frames_of, frames_on, frames_since, resume};
use sal_rows::Rules;
use sal_schema::Schema;
use sal_types::Bytes;
use std::alloc::Global;
use std::sync::Arc;

// The frames of domain 0, by the version of the first upgrade: that of commit 2.
const OWN_SECOND: &str =
    "00000053\n{\"commit\":2,\"config\":[[[9,10],\"y\"]],\"operational\":[]}\n";

// Those of the device: all, those from commit 1 on, and the same with the numbers 7 and 8.
const DEVICE: &str =
    "00000041\n{\"commit\":0,\"config\":[],\"operational\":[]}\n00000048\n{\"commit\":1,\"config\":[[[0],1]],\"operational\":[]}\n00000048\n{\"commit\":2,\"config\":[[[0],2]],\"operational\":[]}\n";

const DEVICE_FROM_1: &str =
    "00000048\n{\"commit\":1,\"config\":[[[0],1]],\"operational\":[]}\n00000048\n{\"commit\":2,\"config\":[[[0],2]],\"operational\":[]}\n";

const DEVICE_AS_7: &str =
    "00000048\n{\"commit\":7,\"config\":[[[0],1]],\"operational\":[]}\n00000048\n{\"commit\":8,\"config\":[[[0],2]],\"operational\":[]}\n";

/// The frame of a hub that opens with the newest trees of domain 0, and of the device.
pub(crate) const OWN_OPENING: &str =
    "00000065\n{\"commit\":0,\"config\":[[[0,1],\"x\"],[[9,10],\"y\"]],\"operational\":[]}\n";

pub(crate) const DEVICE_OPENING: &str =
    "00000048\n{\"commit\":0,\"config\":[[[0],2]],\"operational\":[]}\n";

/// Whether the frames are this text.
pub(crate) fn are(frames: Result<Bytes, ExportFault>, text: &str) -> bool {
    match frames {
        Ok(bytes) => bytes.items() == text.as_bytes(),
        Err(_) => false,
    }
}

// Whether the frames from a commit on are those of the domain.
fn begin_anywhere(alloc: Global, hub: &Hub) -> bool
    requires { length hub.now.world ≡ 2 }
{
    let next = NextFrame {
        commit: 1,
        number: 7,
    };
    are(frames_since(alloc, hub, 0, 2), OWN_SECOND)
        && are(frames_since(alloc, hub, 0, 3), "")
        && are(frames_since(alloc, hub, 1, 1), DEVICE_FROM_1)
        && are(frames_on(alloc, hub, 1, next), DEVICE_AS_7)
        && are(frames_of(alloc, hub, 1), DEVICE)
}

// The frames of the domain, by comparing its trees.
fn exported(alloc: Global, schema: &Schema, domain: &Domain) -> Result<Bytes, ExportFault> {
    export(alloc, schema, &domain.commits)
}

fn device_is_exported(alloc: Global, hub: &Hub) -> bool {
    match hub.domains() {
        [_, device] => are(exported(alloc, &device.schema, device), DEVICE),
        _ => false,
    }
}

// A follower by the present version of domain 0 that took the stream in one piece.
fn follower_at(alloc: Global, hub: &Hub, stream: &[u8]) -> Result<Follower, Unmade> {
    match hub.domains() {
        [own, ..] => followed(alloc, Arc::try_clone(&own.schema)?, stream),
        [] => Err(Unmade),
    }
}

fn followed(alloc: Global, schema: Arc<Schema>, stream: &[u8]) -> Result<Follower, Unmade> {
    let patterns = Patterns::of(alloc, &schema)?;
    Ok(follower_of(alloc, schema, patterns, stream)?)
}

// The hub, under the first version rules, that begins where the follower of all frames of domain 0 is.
fn resumed(alloc: Global, hub: &Hub) -> Result<Hub, Unmade>
    requires { length hub.now.world ≡ 2 }
{
    let stream = frames_of(alloc, hub, 0)?;
    let follower = follower_at(alloc, hub, stream.items())?;
    if follower.version() != Some(2) {
        return Err(Unmade);
    }
    Ok(resume(alloc, follower, Rules::One)?)
}

// Whether the hub opens with the newest trees of domain 0, under the first version rules.
fn is_resumed(alloc: Global, hub: &Hub) -> bool {
    match hub.domains() {
        [own] => own.rules == Rules::One && opens_with_own(alloc, hub),
        _ => false,
    }
}

fn opens_with_own(alloc: Global, hub: &Hub) -> bool {
    !hub.domains().is_empty() && are(frames_of(alloc, hub, 0), OWN_OPENING)
}

fn resumes(alloc: Global, hub: &Hub) -> bool
    requires { length hub.now.world ≡ 2 }
{
    match resumed(alloc, hub) {
        Ok(hub) => is_resumed(alloc, &hub),
        Err(_) => false,
    }
}

fn streams_hold(alloc: Global, hub: &Hub) -> bool {
    has_two(hub)
        && begin_anywhere(alloc, hub)
        && device_is_exported(alloc, hub)
        && resumes(alloc, hub)
}

/// Whether all these are so after the script.
pub(crate) fn frames_of_two_domains(alloc: Global) -> bool {
    match hub_of(alloc, TWO_DOMAINS) {
        Ok(hub) => streams_hold(alloc, &hub),
        Err(_) => false,
    }
}
