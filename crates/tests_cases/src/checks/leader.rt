//! A leader: a script that is played.
ghost use Rattle.std.specs.Prelude.{◌≡◌};

use sal_follow_script::export_text;
use sal_prepare::status::Status;
use sal_types::Bytes;
use std::alloc::Global;

/// Two clients put one leaf; the first is done, and the second has a conflict.
pub(crate) const SCRIPT: &str =
    "{\"clients\":[{\"steps\":[[\"begin\",0,0,\"rw\"],[\"put\",0,\"config\",\"/plain:box/a\",\"x\"],[\"submit\",0],[\"settle\",0]]},{\"steps\":[[\"begin\",0,0,\"rw\"],[\"put\",0,\"config\",\"/plain:box/a\",\"y\"],[\"submit\",0],[\"settle\",0]]}],\"order\":[0,1,0,0,1,1]}";

/// Its frames, to the byte.
pub(crate) const FRAMES: &str =
    "00000041\n{\"commit\":0,\"config\":[],\"operational\":[]}\n00000052\n{\"commit\":1,\"config\":[[[0,1],\"x\"]],\"operational\":[]}\n";

/// The leader's export.
pub(crate) fn frames(alloc: Global) -> Result<Bytes, Status> {
    export_text(alloc, SCRIPT.as_bytes())
}
