//! Scripts that are played: the hub at the end.
ghost use Rattle.std.specs.Prelude.{◌≡◌, [], length, true};
ghost use Rattle.sal_script.specs.Tables.{versions_of};

use super::Unmade;
use sal_client::play;
use sal_hub::Hub;
use sal_io::OpenGate;
use sal_prepare::scripted::{Prepared, ReadScript, prepare};
use std::alloc::Global;

/// The controller's domain, whose schema has three versions, and a device. The device is mounted, both domains have commits, a submission to the
/// device has a conflict, and the first upgrade is made.
pub(crate) const TWO_DOMAINS: &str =
    "{\"upgrades\":[[\"module late { namespace 'urn:late'; prefix l; container late { leaf a { type string; } } }\"],[\"module last { namespace 'urn:last'; prefix t; leaf z { type string; } }\"]],\"devices\":[{\"modules\":[\"module lamp { namespace 'urn:lamp'; prefix l; leaf level { type uint8; } }\"]}],\"clients\":[{\"steps\":[[\"mount\",1,\"/plain:box\"],[\"begin\",0,0,\"rw\"],[\"put\",0,\"config\",\"/plain:box/a\",\"x\"],[\"submit\",0],[\"settle\",0],[\"begin\",0,1,\"rw\"],[\"put\",0,\"config\",\"/lamp:level\",1],[\"submit\",0],[\"settle\",0],[\"begin\",1,1,\"rw\"],[\"begin\",2,1,\"rw\"],[\"put\",1,\"config\",\"/lamp:level\",2],[\"put\",2,\"config\",\"/lamp:level\",3],[\"submit\",1],[\"submit\",2],[\"settle\",1],[\"settle\",2],[\"upgrade\",1],[\"begin\",0,0,\"rw\"],[\"put\",0,\"config\",\"/late:late/a\",\"y\"],[\"submit\",0],[\"settle\",0]]}],\"order\":[0,0,0,0,0,0,0,0,0,0,0,0,0,0,0,0,0]}";

/// One client leaves a mark, another one finds it.
pub(crate) const A_MARK: &str =
    "{\"clients\":[{\"steps\":[[\"mark\",7]]},{\"steps\":[[\"after\",7]]}],\"order\":[0,1]}";

/// A leaf, a container with a leaf, and an RPC with an input that has a leaf: the nodes 0; 1, 2; 3, 4, 5.
pub(crate) const AN_RPC: &str =
    "{\"modules\":[\"module shop { namespace 'urn:shop'; prefix s; leaf open { type string; } container box { leaf a { type string; } } rpc buy { input { leaf n { type uint8; } } } }\"]}";

/// The hub of the script, played in its order.
pub(crate) fn hub_of(alloc: Global, script: &str) -> Result<Hub, Unmade> {
    let prepared = prepare(alloc, script.as_bytes())?;
    let Prepared { read, hub } = prepared;
    hub_over(alloc, &read, hub)
}

// The same over a hub without calls.
fn hub_over(alloc: Global, read: &ReadScript, hub: Hub) -> Result<Hub, Unmade>
    requires readers { read.now.readers ≡ versions_of hub.world }
    requires fresh { hub.log ≡ [] }
{
    match play(alloc, &read.readers, &read.script, hub, &OpenGate) {
        Ok(played) => Ok(played.hub),
        Err(_) => Err(Unmade),
    }
}

/// Whether the hub has two domains.
pub(crate) fn has_two(hub: &Hub) -> bool
    ensures { result ≡ true → length hub.now.world ≡ 2 }
{
    hub.domains().len() == 2
}
